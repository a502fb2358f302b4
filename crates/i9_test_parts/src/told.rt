//! What is answered, as a text. Numbers are hexadecimal.
use crate::rows::add;
use i9_calls::{CallsStop, Pop, Sys};
use i9_faults::{Entry, FaultStop};
use i9_model::Push;
use std::alloc::Global;
use std::test::Fail;

pub(crate) type Told = Result<String, Fail>;

/// A number.
pub(crate) fn hex_text(alloc: Global, number: u32) -> Told {
    Ok(format!(in alloc; "{number:X}")?)
}

/// Numbers.
pub(crate) fn words_text(alloc: Global, words: &[u32]) -> Told {
    let mut text = String::new(alloc);
    for word in words {
        add(&mut text, " ", &hex_text(alloc, *word)?)?;
    }
    Ok(text)
}

/// Bytes.
pub(crate) fn bytes_text(alloc: Global, bytes: &[u8]) -> Told {
    let mut text = String::new(alloc);
    for byte in bytes {
        add(&mut text, " ", &format!(in alloc; "{byte:X}")?)?;
    }
    Ok(text)
}

/// Whether something is so.
pub(crate) fn truth_text(alloc: Global, so: bool) -> Told {
    Ok(format!(in alloc; "{so}")?)
}

/// The address of a hazard.
pub(crate) fn hazard_text(alloc: Global, a: u32) -> Told {
    Ok(format!(in alloc; "hazard {a:X}")?)
}

/// A frame that is saved: the save area, and the new frame with its pfp and its sp.
pub(crate) fn push_text(alloc: Global, p: &Push) -> Told {
    Ok(format!(in alloc; "saves {:X} {:X} {:X} {:X}", p.save, p.frame, p.pfp, p.sp)?)
}

/// What a call to an address makes.
pub(crate) fn call_text(alloc: Global, planned: Result<Push, u32>) -> Told {
    match planned {
        Ok(push) => push_text(alloc, &push),
        Err(a) => hazard_text(alloc, a),
    }
}

/// What a system call makes: the target, PC, whether the stack is switched, and the frames.
pub(crate) fn sys_text(alloc: Global, planned: Result<Sys, CallsStop>) -> Told {
    match planned {
        Ok(sys) => {
            let push = push_text(alloc, &sys.push)?;
            Ok(format!(in alloc; "{:X} {:X} {} {push}", sys.target, sys.pc, sys.switched)?)
        }
        Err(CallsStop::Hazard(a)) => hazard_text(alloc, a),
        Err(CallsStop::Length) => Ok(format!(in alloc; "no procedure")?),
    }
}

/// What a return makes: the frame, PC, AC, whether the frame is live and the check flag is set, and the marks of its
/// words, where some are marked.
pub(crate) fn pop_text(alloc: Global, planned: Result<Pop, u32>) -> Told {
    match planned {
        Ok(pop) => {
            let words = words_text(alloc, &[pop.frame, pop.pc, pop.ac])?;
            let controls = format!(in alloc; "{words} {} {}", pop.live, pop.check)?;
            if pop.marks == 0 {
                return Ok(controls);
            }
            Ok(format!(in alloc; "{controls} marks {:X}", pop.marks)?)
        }
        Err(a) => hazard_text(alloc, a),
    }
}

/// What the entry of a fault or an interrupt makes: the target, PC, the frames, and the words of the record.
pub(crate) fn entry_text(alloc: Global, planned: Result<Entry, FaultStop>) -> Told {
    match planned {
        Ok(entry) => {
            let push = push_text(alloc, &entry.push)?;
            let words = words_text(alloc, &entry.words)?;
            Ok(format!(in alloc; "{:X} {:X} {push} record {words}", entry.target, entry.pc)?)
        }
        Err(FaultStop::Hazard(a)) => hazard_text(alloc, a),
        Err(FaultStop::Dead { code, address }) => Ok(format!(in alloc; "dead {code} {address:X}")?),
    }
}
