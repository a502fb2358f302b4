//! What marked registers may not decide: an address, a condition, a fault, a count or a control word, or what goes out
//! at the port page or to a special function register. An instruction that would let them is not done. This is this
//! project's own.
ghost use Rattle.std.specs.Prelude.{◌≡◌, ◌==◌, ◌&&◌, ◌||◌, not, None, false};
ghost use Rattle.i9_isa.specs.Keeping.{keeps_marks};
ghost use Rattle.i9_isa.specs.Operands.{no_address};
ghost use Rattle.i9_isa.specs.Transfers.{transfer_of};
ghost use Rattle.i9_isa.specs.Valid.{IsValid};
ghost use Rattle.i9_model.specs.declared.layout.TheConstants.{FP as FRAME, PFP as PREVIOUS};
ghost use Rattle.i9_model.specs.Calls.{takes_record, return_type};
ghost use Rattle.i9_model.specs.Faults.{is_special};
ghost use Rattle.i9_model.specs.Needs.{is_barrier_name};
ghost use Rattle.i9_model.specs.Stale.{registers_of, address_registers, sources, is_marked};
ghost use Rattle.i9_model.specs.Stale.{word_mark, stored_out, touches_port, misuses};
ghost use Rattle.i9_model.specs.Step.{atomic_address, message_of};
ghost use Rattle.i9_processor.specs.State.{state_of};
ghost use Rattle.i9_plan.specs.Moved.{IsMove, Moves};
ghost use Rattle.i9_plan.specs.Names.{is_atomic};

use crate::known::touches_port;
use crate::marks::{address_marked, is_stale, marked_bytes, source_marked, sources_marked};
use crate::names::{is_atomic, is_special};
use crate::sources::{atomic_address, message};
use crate::transfers::Moving;
use i9_isa::{Direction, Inst, Op, keeps_marks};
use i9_model::layout::{FAULT_RETURN, FP, INTERRUPT_RETURN, PFP};
use i9_processor::Processor;

/// The message of sysctl that starts the processor anew.
const RESTART: u8 = 3;

/// Whether a load or a store stores marked data to the port page.
fn stores_out(p: &Processor, i: &Inst, m: Moving) -> bool
    requires { IsMove (state_of p.now) i.now m }
    ensures { result ≡ stored_out m.transfer.direction m.transfer.size i.now (state_of p.now) }
{
    let size = m.transfer.size;
    match m.transfer.direction {
        Direction::Load => false,
        Direction::Store => {
            marked_bytes(p, size, i.c) != 0 && touches_port(Some((m.address, size.bytes())))
        }
    }
}

/// Whether a load or a store misuses a mark: of its address, or, where it is a store to the port page, of its data.
fn transfer_misuses(p: &Processor, i: &Inst, m: Moving) -> bool
    requires valid { IsValid i.now }
    requires moves { IsMove (state_of p.now) i.now m }
    ensures { result ≡ misuses i.now (state_of p.now) }
{
    address_marked(p, &i.ea) || stores_out(p, i, m)
}

/// Whether lda gives its mark to a special function register.
fn lda_misuses(p: &Processor, i: &Inst) -> bool
    ensures { result ≡ (is_special i.now.c && is_marked (state_of p.now) (address_registers i.now.ea)) }
{
    is_special(i.c) && address_marked(p, &i.ea)
}

/// Whether src2 or src/dst is marked.
fn later_marked(p: &Processor, i: &Inst) -> bool
    ensures { result ≡ (is_marked (state_of p.now) (registers_of i.now.b 1)
        || is_marked (state_of p.now) (registers_of i.now.c 1)) }
{
    source_marked(p, i.b) || source_marked(p, i.c)
}

/// Whether an atomic instruction, whose data are marked or are not, uses a marked address, or gives a marked word to
/// the port page or to a special function register.
fn atomic_misuses(p: &Processor, i: &Inst, data_marked: bool) -> bool
    ensures { result ≡ (is_marked (state_of p.now) (registers_of i.now.a 1)
        || (word_mark (state_of p.now).frames.soft (atomic_address i.now (state_of p.now)) || data_marked)
        && (is_special i.now.c || touches_port (atomic_address i.now (state_of p.now)) 4)) }
{
    let a = atomic_address(p, i);
    source_marked(p, i.a)
        || (is_stale(p, a) || data_marked) && (is_special(i.c) || touches_port(Some((a, 4))))
}

/// Whether a return by this pfp reads a record, of a fault or of an interrupt.
fn takes_record(pfp: u32) -> bool
    ensures { result ≡ takes_record (return_type pfp) }
{
    let kind = pfp % 8;
    kind == u32::from(FAULT_RETURN) || kind == u32::from(INTERRUPT_RETURN)
}

/// Whether a return uses a marked pfp, or, where it reads a record, a marked fp.
fn return_misuses(p: &Processor) -> bool
    ensures { result ≡ ((state_of p.now).marks PREVIOUS
        || takes_record (return_type ((state_of p.now).regs PREVIOUS)) && (state_of p.now).marks FRAME) }
{
    p.is_marked(PFP) || takes_record(p.register(PFP)) && p.is_marked(FP)
}

/// Whether sysctl has a marked message, or starts the processor anew by marked words.
fn sysctl_misuses(p: &Processor, i: &Inst) -> bool
    ensures { result ≡ (is_marked (state_of p.now) (registers_of i.now.a 1)
        || (message_of i.now (state_of p.now) == 3)
        && (is_marked (state_of p.now) (registers_of i.now.b 1)
        || is_marked (state_of p.now) (registers_of i.now.c 1))) }
{
    source_marked(p, i.a) || message(p, i) == RESTART && later_marked(p, i)
}

/// Whether any other instruction has a marked source, and does not keep its mark for a register.
fn sources_misused(p: &Processor, i: &Inst) -> bool
    requires valid { IsValid i.now }
    requires plain { i.now.ea ≡ no_address }
    ensures { result ≡ (is_marked (state_of p.now) (sources i.now)
        && (not (keeps_marks i.now.op) || is_special i.now.c)) }
{
    sources_marked(p, i) && (!keeps_marks(i) || is_special(i.c))
}

/// Whether an instruction misuses a mark that is no load and no store.
fn named_misuses(p: &Processor, i: &Inst) -> bool
    requires valid { IsValid i.now }
    requires still { transfer_of i.now.op ≡ None }
    ensures { result ≡ misuses i.now (state_of p.now) }
{
    match i.op {
        Op::Lda => lda_misuses(p, i),
        Op::Bx | Op::Balx | Op::Callx => address_marked(p, &i.ea),
        Op::Atadd => atomic_misuses(p, i, source_marked(p, i.b)),
        Op::Atmod => atomic_misuses(p, i, later_marked(p, i)),
        Op::Ret => return_misuses(p),
        Op::Modpc => later_marked(p, i),
        Op::Sysctl => sysctl_misuses(p, i),
        _ => sources_misused(p, i),
    }
}

/// Whether an instruction misuses a mark, looked for in all that it reads.
// Registers are seldom marked, and this is no part of the code that calls it.
#[inline(never)]
fn misuses_some(p: &Processor, i: &Inst, moving: Option<Moving>) -> bool
    requires valid { IsValid i.now }
    requires moves { Moves (state_of p.now) i.now moving }
    ensures { result ≡ misuses i.now (state_of p.now) }
{
    match moving {
        Some(m) => transfer_misuses(p, i, m),
        None => named_misuses(p, i),
    }
}

/// Whether an instruction misuses a mark. Where no register is marked, none does but an atomic one.
pub(crate) fn misuses(p: &Processor, i: &Inst) -> bool
    requires valid { IsValid i.now }
    requires still { transfer_of i.now.op ≡ None }
    ensures { result ≡ misuses i.now (state_of p.now) }
{
    if p.marks() == 0 && !is_atomic(i.op) {
        return false;
    }
    misuses_some(p, i, None)
}

/// Whether an instruction misuses a mark that is no barrier by its name: none does where no register is marked.
// Each step asks for it.
#[inline(always)]
pub(crate) fn misuses_open(p: &Processor, i: &Inst, moving: Option<Moving>) -> bool
    requires valid { IsValid i.now }
    requires barrier { is_barrier_name i.now.op ≡ false }
    requires moves { Moves (state_of p.now) i.now moving }
    ensures { result ≡ misuses i.now (state_of p.now) }
{
    if p.marks() == 0 {
        return false;
    }
    misuses_some(p, i, moving)
}
