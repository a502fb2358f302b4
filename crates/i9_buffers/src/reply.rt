//! The command over buffers.
ghost use Rattle.std.specs.Prelude.{◌≡◌, ◌≢◌, ◌<◌, ◌≤◌, ℕ, List, length, take};
ghost use Rattle.i9_buffers.specs.Request.{RequestGives, IsCut};

use crate::line::read_words;
use crate::slots::SlotFiles;
use i9_outside::MemSink;
use i9_tool::i960;
use i9_tool::laws::where_none_rose;
use std::alloc::Global;

/// A status, and how many bytes of a buffer have the text.
#[derive(Clone, Copy, Debug, PartialEq, Eq)]
pub struct Reply {
    pub code: u8,
    pub length: usize,
}

/// The reply that memory was refused, before there was a text.
const NO_MEMORY: Reply = Reply { code: 7, length: 0 };

/// Puts the bytes at the start of the buffer, or none of them where it has no room for all.
fn put(code: u8, bytes: &[u8], out: &mut [u8]) -> Reply
    ensures whole { length bytes.now ≤ length out.old → (result.code ≡ code)
        × (result.length ≡ length bytes.now) × (take result.length out.new ≡ bytes.now) }
    ensures short { length out.old < length bytes.now → (result.code ≡ 6) × (result.length ≡ 0) }
    ensures inside { (result.length ≤ length out.new) × (length out.new ≡ length out.old) }
{
    let size = bytes.len();
    if size > out.len() {
        return Reply { code: 6, length: 0 };
    }
    out[..size].copy_from_slice(bytes);
    Reply { code, length: size }
}

/// The command over a text of words, of which each has a line of its own, and three files, which the words name `1`,
/// `2` and `3`. The text comes at the start of `out`. The status is that of the command, where 6 says that `out` has no
/// room for the text.
pub fn respond(
    alloc: Global,
    words: &[u8],
    first: &[u8],
    second: &[u8],
    third: &[u8],
    out: &mut [u8],
) -> Reply
    ensures known { result.code < 8 }
    ensures inside { (result.length ≤ length out.new) × (length out.new ≡ length out.old) }
    // A status below 6 has its whole text, and both are those of the words and of these files.
    ensures whole { result.code < 6
        → RequestGives words.now first.now second.now third.now result.code (take result.length out.new) }
    // Where there was no room or no memory, a front of such a text is there, perhaps nothing of it.
    ensures cut { 6 ≤ result.code
        → IsCut (RequestGives words.now first.now second.now third.now) (take result.length out.new) }
    // Room for each text that can be given is enough.
    ensures fits { ((code : ℕ) (text : List ℕ) → RequestGives words.now first.now second.now third.now code text
        → length text ≤ length out.old) → result.code ≢ 6 }
{
    let Ok(asked) = read_words(alloc, words) else {
        return NO_MEMORY;
    };
    let mut files = SlotFiles::new(first, second, third);
    let mut sink = MemSink::new(alloc);
    let Ok(()) = sink.room(out.len() as u64) else {
        return NO_MEMORY;
    };
    where_none_rose();
    let status = i960(alloc, &asked, &mut files, &mut sink);
    put(status.code, sink.bytes(), out)
}
