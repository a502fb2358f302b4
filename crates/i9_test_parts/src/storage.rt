//! Memories and frames that are worked out by hand.
use i9_memory::Memory;
use i9_watch::Watch;
use std::test::Fail;

/// Puts words from an address on, each in the order of its region.
pub(crate) fn put_words(memory: &mut Memory, a: u32, words: &[u32]) -> Result<(), Fail> {
    let mut at = a;
    for word in words {
        memory.reserve(at, 4)?;
        memory.put_word(at, *word);
        at = at.wrapping_add(4);
    }
    Ok(())
}

/// Puts bytes from an address on; each is a number.
pub(crate) fn put_bytes(memory: &mut Memory, a: u32, bytes: &[u32]) -> Result<(), Fail> {
    let mut at = a;
    for byte in bytes {
        memory.reserve(at, 1)?;
        memory.put_byte(at, u8::try_from(*byte)?);
        at = at.wrapping_add(1);
    }
    Ok(())
}

/// Saves the frame at a frame pointer, with the marks of its words.
pub(crate) fn save(watch: &mut Watch, fp: u32, marks: u16) -> Result<(), Fail> {
    match watch.plan_push(fp, 0, 0, 0) {
        Ok(push) => {
            watch.reserve(push.save)?;
            watch.called(push.save, marks);
            Ok(())
        }
        Err(_) => Err("a hazard".into()),
    }
}

/// Saves frames, which are live.
pub(crate) fn live(watch: &mut Watch, frames: &[u32]) -> Result<(), Fail> {
    for fp in frames {
        save(watch, *fp, 0)?;
    }
    Ok(())
}

/// Saves frames and leaves each again, so that their bytes are soft.
pub(crate) fn left(watch: &mut Watch, frames: &[u32]) -> Result<(), Fail> {
    for fp in frames {
        save(watch, *fp, 0)?;
        if watch.first_live().is_some() {
            let _ = watch.returned();
        }
    }
    Ok(())
}
