//! The trace fault of an instruction, and the flags that its events set.
ghost use Rattle.std.specs.Prelude.{◌≡◌, ◌↔◌, IfSome, None};
ghost use Rattle.i9_model.specs.Tracing.{with_bits, trace_of};
ghost use Rattle.i9_events.specs.Tracing.{IsUntraced, GainsFlags};
ghost use Rattle.i9_events.specs.Tracing.{coming_modes, forced_modes};

use crate::bits::{bit_where, has_bit};
use crate::breakpoints::break_flags;
use crate::names::{always_marks, branches, is_call, is_return, marks};
use i9_isa::{Inst, Op};
use i9_model::layout::TRACE_ENABLE_PLACE;
use i9_model::trace::{
    BRANCH_TRACE_PLACE, CALL_TRACE_PLACE, FLAG_DISTANCE, INSTRUCTION_TRACE_PLACE, MARK_TRACE_PLACE,
    PRERETURN_TRACE_PLACE, RETURN_TRACE_PLACE, SUPERVISOR_TRACE_PLACE,
};
use i9_model::{Breaks, Seen, Trace};

/// The modes of the events that come with an instruction, `matched` where a breakpoint matches.
fn coming_modes(op: Op, s: &Seen, matched: bool) -> u32
    ensures { result ≡ with_bits 0 (coming_modes op s.now matched) }
{
    let returns = is_return(op);
    1 << INSTRUCTION_TRACE_PLACE
        | bit_where(branches(op, s.taken), BRANCH_TRACE_PLACE)
        | bit_where(is_call(op), CALL_TRACE_PLACE)
        | bit_where(returns, RETURN_TRACE_PLACE)
        | bit_where(returns, PRERETURN_TRACE_PLACE)
        | bit_where(s.switched, SUPERVISOR_TRACE_PLACE)
        | bit_where(marks(op, matched), MARK_TRACE_PLACE)
}

/// The modes of the events that count whatever the modes are, as that of `fmark`.
fn forced_modes(op: Op, matched: bool) -> u32
    ensures { result ≡ with_bits 0 (forced_modes op matched) }
{
    bit_where(always_marks(op, matched), MARK_TRACE_PLACE)
}

/// The trace fault that comes behind an instruction, or None where trace enable is clear in the process
/// controls `pc` before it, or where no event counts. `tc` are the trace controls and `b` the
/// breakpoints behind its results. An event counts where its mode is set in `tc`; the mark event of
/// `fmark` and of a breakpoint always counts. i960 CA/CF User's Manual, tracing and debugging.
pub fn event(tc: u32, pc: u32, i: &Inst, s: &Seen, b: &Breaks) -> Option<Trace>
    ensures trace { result ≡ trace_of tc pc i.now s.now b.now }
    ensures none { (result ≡ None) ↔ IsUntraced tc pc i.now s.now b.now }
    ensures flags { IfSome result (λ t. GainsFlags tc t.tc) }
{
    if !has_bit(pc, TRACE_ENABLE_PLACE) {
        return None;
    }
    let breakpoints = break_flags(s, b);
    let matched = breakpoints != 0;
    let events = coming_modes(i.op, s, matched) & tc;
    let counting = events | forced_modes(i.op, matched);
    if counting == 0 {
        return None;
    }
    Some(Trace {
        tc: tc | events << FLAG_DISTANCE | breakpoints,
        subtype: counting as u16,
    })
}
