//! Returns.
ghost use Rattle.std.specs.Prelude.{◌≡◌, ◌<◌, ◌↔◌, IsTrue, IfOk, length};
ghost use Rattle.i9_model.specs.declared.layout.TheConstants.{PC_MASK, AC_MASK};
ghost use Rattle.i9_model.specs.Numbers.{IsWithin};
ghost use Rattle.i9_model.specs.Hazards.{unless};
ghost use Rattle.i9_model.specs.Calls.{takes_record, leaves_supervisor, record_hazard, controls_hazard, planned_ret};
ghost use Rattle.i9_memory.specs.Memory.{memory_of};
ghost use Rattle.i9_watch.specs.Watch.{frames_of};
ghost use Rattle.i9_calls.specs.Controls.{recorded, controls_after};

use crate::{WORD_SIZE, in_supervisor_mode, read_word, without_supervisor};
use i9_memory::Memory;
use i9_model::Pop;
use i9_model::layout::{
    AC_MASK, FAULT_RETURN, INTERRUPT_RETURN, PC_MASK, RECORD_SIZE, SUPERVISOR_RETURN,
};
use i9_watch::Watch;

/// Process and arithmetic controls.
#[derive(Clone, Copy)]
struct Controls {
    pc: u32,
    ac: u32,
}

/// Whether a return type takes controls from the record below the frame.
fn takes_record(kind: u8) -> bool
    ensures { result ≡ takes_record kind }
{
    kind == FAULT_RETURN || kind == INTERRUPT_RETURN
}

/// Whether a return type leaves supervisor mode.
fn leaves_supervisor(kind: u8) -> bool
    ensures { result ≡ leaves_supervisor kind }
{
    kind == SUPERVISOR_RETURN || kind == SUPERVISOR_RETURN + 1
}

/// The kept bits of the controls in the record below the frame at `fp`.
#[tactic(auto, using(i9_model::proofs::KeptBits::masked))]
fn read_record(m: &Memory, w: &Watch, fp: u32) -> Result<Controls, u32>
    ensures value { result ≡ unless (record_hazard (frames_of w.now) fp) (recorded (memory_of m.now) fp) }
    ensures kept_pc { IfOk result (λ c. IsWithin PC_MASK c.pc) }
    ensures kept_ac { IfOk result (λ c. IsWithin AC_MASK c.ac) }
{
    let record = (fp - fp % 16).wrapping_sub(RECORD_SIZE);
    let pc = read_word(m, w, record)?;
    let ac = read_word(m, w, record.wrapping_add(WORD_SIZE))?;
    Ok(Controls {
        pc: pc & PC_MASK,
        ac: ac & AC_MASK,
    })
}

/// The controls after a return of a type, from those before it.
fn controls_after(
    m: &Memory,
    w: &Watch,
    kind: u8,
    fp: u32,
    controls: Controls,
) -> Result<Controls, u32>
    ensures value { result ≡ unless (controls_hazard (frames_of w.now) kind fp)
        (controls_after (memory_of m.now) kind fp controls) }
    ensures kept_pc { IsWithin PC_MASK controls.pc → IfOk result (λ c. IsWithin PC_MASK c.pc) }
    ensures kept_ac { IsWithin AC_MASK controls.ac → IfOk result (λ c. IsWithin AC_MASK c.ac) }
{
    let is_supervisor = in_supervisor_mode(controls.pc);
    if takes_record(kind) {
        let saved = read_record(m, w, fp)?;
        let pc = if is_supervisor { saved.pc } else { controls.pc };
        return Ok(Controls { pc, ..saved });
    }
    if leaves_supervisor(kind) && is_supervisor {
        let pc = without_supervisor(controls.pc, u32::from(kind) % 2);
        return Ok(Controls { pc, ..controls });
    }
    Ok(controls)
}

/// What a return makes, from the previous frame pointer with its return type, the frame pointer, and
/// the process and arithmetic controls; or the hazard of the first access that meets one: the words
/// of PC and AC in the record below the frame, for the return types 001 and 111, and then the
/// frame that is returned to. The marks of its words are those that were saved with it, or, where no
/// frame is live, those of words with a soft byte. After the i960 CA/CF User's Manual, returns; marks
/// are this project's own.
#[tactic(auto, unfolding(i9_model::specs::Calls::ret_hazard, i9_model::specs::Calls::popped))]
pub fn plan_ret(m: &Memory, w: &Watch, pfp: u32, fp: u32, pc: u32, ac: u32) -> Result<Pop, u32>
    ensures pop { result ≡ planned_ret (memory_of m.now) (frames_of w.now) pfp fp pc ac }

    // So the youngest frame can be dropped.
    ensures live { IfOk result (λ p. IsTrue p.live ↔ (0 < length (frames_of w.now).live)) }

    // No bit of PC or AC is set that is not kept.
    ensures kept_pc { IsWithin PC_MASK pc → IfOk result (λ p. IsWithin PC_MASK p.pc) }
    ensures kept_ac { IsWithin AC_MASK ac → IfOk result (λ p. IsWithin AC_MASK p.ac) }
{
    let kind = (pfp % 8) as u8;
    let frame = pfp - pfp % 16;
    let controls = controls_after(m, w, kind, fp, Controls { pc, ac })?;
    if let Some(a) = w.check_ret(frame) {
        return Err(a);
    }
    Ok(Pop {
        frame,
        live: w.first_live().is_some(),
        pc: controls.pc,
        ac: controls.ac,
        check: kind == INTERRUPT_RETURN,
        marks: w.return_marks(frame),
    })
}
