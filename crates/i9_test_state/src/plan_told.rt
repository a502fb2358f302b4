//! What is planned, as a text: what a plan leaves as it is is not told. Numbers are hexadecimal, and what is marked is
//! told as dashes.
ghost use Rattle.i9_processor.specs.State.{IsDrained};

use i9_model::Push;
use i9_plan::{DecodeCache, Planned, plan_next};
use i9_processor::{Control, DmaChange, Effect, Move, Posting, Processor};
use std::alloc::Global;
use std::test::Fail;

/// The registers that an effect sets, from the first one on, and the bytes that it stores, from an address on.
fn values_text(alloc: Global, effect: &Effect) -> Result<String, Fail> {
    let mut text = String::new(alloc);
    if !effect.values.is_empty() {
        text.push_str(&format!(in alloc; ", r{}", effect.register)?)?;
    }
    let mut marks = effect.marks;
    for value in effect.values.iter() {
        if marks % 2 == 1 {
            text.push_str(" --------")?;
        } else {
            text.push_str(&format!(in alloc; " {value:X}")?)?;
        }
        marks /= 2;
    }
    Ok(text)
}

/// The bytes that an effect stores, behind their address.
fn bytes_text(alloc: Global, effect: &Effect) -> Result<String, Fail> {
    let mut text = String::new(alloc);
    if !effect.bytes.is_empty() {
        text.push_str(&format!(in alloc; ", {:X}", effect.address)?)?;
    }
    let mut stale = effect.stale;
    for byte in effect.bytes.iter() {
        if stale % 2 == 1 {
            text.push_str(" --")?;
        } else {
            text.push_str(&format!(in alloc; " {byte:02X}")?)?;
        }
        stale /= 2;
    }
    Ok(text)
}

/// What is done to frames: the save area, the new frame, its pfp and its sp, and the return address; or the frame that
/// is returned to, with the set of its marked words.
fn frames_text(alloc: Global, effect: &Effect) -> Result<String, Fail> {
    match &effect.frames {
        Move::Stays => Ok(String::new(alloc)),
        Move::Saves { push, back } => {
            let Push {
                save,
                frame,
                pfp,
                sp,
            } = push;
            Ok(format!(in alloc; ", saves {save:X} {frame:X} {pfp:X} {sp:X} back {back:X}")?)
        }
        Move::Returns(frame) => Ok(format!(in alloc; ", returns {frame:X} {:X}", effect.marks)?),
        Move::Flushes => Ok(format!(in alloc; ", flushes")?),
    }
}

/// What is done to the controls of start-up: the first instruction and the PRCB, or the group.
fn control_text(alloc: Global, control: Control) -> Result<String, Fail> {
    match control {
        Control::Keeps => Ok(String::new(alloc)),
        Control::Restarts { first, prcb } => {
            Ok(format!(in alloc; ", restarts {first:X} {prcb:X}")?)
        }
        Control::LoadsGroup(group) => Ok(format!(in alloc; ", group {group}")?),
    }
}

/// A byte with bits of requests, behind its address.
fn request_text(alloc: Global, byte: Option<(u32, u8)>) -> Result<String, Fail> {
    match byte {
        Some((address, bits)) => Ok(format!(in alloc; ", request {address:X} {bits:X}")?),
        None => Ok(String::new(alloc)),
    }
}

/// What is done to interrupts and DMA, whether the check flag is set, and the trace controls with the subtype of a
/// fault.
fn asked_text(alloc: Global, effect: &Effect) -> Result<String, Fail> {
    let mut text = request_text(alloc, effect.requests.first)?;
    text.push_str(&request_text(alloc, effect.requests.second)?)?;
    if effect.posting != Posting::Keeps {
        text.push_str(&format!(in alloc; ", {:?}", effect.posting)?)?;
    }
    if effect.check {
        text.push_str(", check")?;
    }
    if effect.dma != DmaChange::Keeps {
        text.push_str(&format!(in alloc; ", {:?}", effect.dma)?)?;
    }
    if let Some(trace) = effect.trace {
        text.push_str(&format!(in alloc; ", trace {:X} {:X}", trace.tc, trace.subtype)?)?;
    }
    Ok(text)
}

/// The arithmetic, process and trace controls and the instruction address behind an effect, and what else it does.
pub(crate) fn effect_text(alloc: Global, effect: &Effect) -> Result<String, Fail> {
    let mut text = format!(in alloc;
        "{:X} {:X} {:X} {:X}",
        effect.ac, effect.pc, effect.tc, effect.next
    )?;
    text.push_str(&values_text(alloc, effect)?)?;
    text.push_str(&bytes_text(alloc, effect)?)?;
    text.push_str(&frames_text(alloc, effect)?)?;
    text.push_str(&control_text(alloc, effect.control)?)?;
    text.push_str(&asked_text(alloc, effect)?)?;
    Ok(text)
}

/// The instruction in the decode cache with its words, and what it does.
pub(crate) fn done_text(alloc: Global, decodes: &DecodeCache, what: &str) -> Result<String, Fail> {
    let words = decodes.words();
    Ok(format!(in alloc;
        "{:?} {:X} {:X}: {what}",
        decodes.inst().op,
        words.first,
        words.second
    )?)
}

/// What is planned: the hazard, the fault, or the instruction with its effect.
pub(crate) fn planned_text(
    alloc: Global,
    decodes: &DecodeCache,
    planned: &Planned,
    effect: &Effect,
) -> Result<String, Fail> {
    match planned {
        Planned::Meets(a) => Ok(format!(in alloc; "meets {a:X}")?),
        Planned::Refused { number, .. } => {
            Ok(format!(in alloc; "refused {} {}", number.0, number.1)?)
        }
        Planned::Faults(number) => {
            let what = format!(in alloc; "fault {} {}", number.0, number.1)?;
            done_text(alloc, decodes, &what)
        }
        Planned::Runs => done_text(alloc, decodes, &effect_text(alloc, effect)?),
    }
}

/// What is planned next, by a decode cache.
pub(crate) fn next_text(
    alloc: Global,
    p: &Processor,
    decodes: &mut DecodeCache,
) -> Result<String, Fail>
    requires { IsDrained p.now }
{
    let mut effect = Effect::blank();
    let planned = plan_next(p, decodes, &mut effect);
    planned_text(alloc, decodes, &planned, &effect)
}
