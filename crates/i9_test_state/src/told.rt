//! What is answered, as a text. Numbers are hexadecimal.
use i9_calls::{CallsStop, Pop, Push, Sys};
use i9_faults::{Entry, FaultStop};
use i9_frames::Sets;
use std::alloc::Global;
use std::test::Fail;

pub(crate) type Told = Result<String, Fail>;

/// Adds an item behind others.
pub(crate) fn add(text: &mut String, separator: &str, item: &str) -> Result<(), Fail> {
    if !text.is_empty() {
        text.push_str(separator)?;
    }
    text.push_str(item)?;
    Ok(())
}

/// A number.
pub(crate) fn hex_text(alloc: Global, number: u32) -> Told {
    Ok(format!(in alloc; "{number:X}")?)
}

/// Numbers.
pub(crate) fn words_text(alloc: Global, words: &[u32]) -> Told {
    let mut text = String::new(alloc);
    for word in words {
        add(&mut text, " ", &hex_text(alloc, *word)?)?;
    }
    Ok(text)
}

/// Bytes, of two digits each.
pub(crate) fn bytes_text(alloc: Global, bytes: &[u8]) -> Told {
    let mut text = String::new(alloc);
    for byte in bytes {
        add(&mut text, " ", &format!(in alloc; "{byte:02X}")?)?;
    }
    Ok(text)
}

/// A number, where there is one.
pub(crate) fn number_text(alloc: Global, number: Option<u32>) -> Told {
    match number {
        Some(number) => hex_text(alloc, number),
        None => Ok(format!(in alloc; "none")?),
    }
}

/// Whether stacks are switched.
pub(crate) fn switch_text(alloc: Global, is_switched: bool) -> Told {
    Ok(format!(in alloc; "{is_switched}")?)
}

/// The address of a hazard.
pub(crate) fn hazard_text(alloc: Global, a: u32) -> Told {
    Ok(format!(in alloc; "hazard {a:X}")?)
}

/// A frame that is saved: the save area, and the new frame with its pfp and its sp.
pub(crate) fn push_text(alloc: Global, p: &Push) -> Told {
    Ok(format!(in alloc; "saves {:X} {:X} {:X} {:X}", p.save, p.frame, p.pfp, p.sp)?)
}

/// What a system call makes: the target, PC, whether the stack is switched, and the frames.
pub(crate) fn sys_text(alloc: Global, planned: Result<Sys, CallsStop>) -> Told {
    match planned {
        Ok(sys) => {
            let push = push_text(alloc, &sys.push)?;
            Ok(format!(in alloc; "{:X} {:X} {} {push}", sys.target, sys.pc, sys.switched)?)
        }
        Err(CallsStop::Hazard(a)) => hazard_text(alloc, a),
        Err(CallsStop::Length) => Ok(format!(in alloc; "no procedure")?),
    }
}

/// What a return makes: the frame, PC, AC, whether the frame is live and the check flag is set, and the marks of its
/// words.
pub(crate) fn pop_text(alloc: Global, planned: Result<Pop, u32>) -> Told {
    match planned {
        Ok(pop) => {
            let words = words_text(alloc, &[pop.frame, pop.pc, pop.ac])?;
            let marks = pop.marks;
            Ok(format!(in alloc; "{words} {} {} marks {marks:X}", pop.live, pop.check)?)
        }
        Err(a) => hazard_text(alloc, a),
    }
}

/// What the entry of a fault or an interrupt makes: the target, PC, the frames, and the words of the record.
pub(crate) fn entry_text(alloc: Global, planned: Result<Entry, FaultStop>) -> Told {
    match planned {
        Ok(entry) => {
            let push = push_text(alloc, &entry.push)?;
            let words = words_text(alloc, &entry.words)?;
            Ok(format!(in alloc; "{:X} {:X} {push} record {words}", entry.target, entry.pc)?)
        }
        Err(FaultStop::Hazard(a)) => hazard_text(alloc, a),
        Err(FaultStop::Dead { code, address }) => Ok(format!(in alloc; "dead {code} {address:X}")?),
    }
}

/// How many frames are held in how many sets, and their addresses, the youngest first.
pub(crate) fn sets_text(alloc: Global, sets: &Sets) -> Told {
    let mut text = format!(in alloc; "{:X} of {:X}", sets.len(), sets.size())?;
    for k in 0..15 {
        if let Some(frame) = sets.at(k) {
            add(&mut text, " ", &hex_text(alloc, frame.address)?)?;
        }
    }
    Ok(text)
}
