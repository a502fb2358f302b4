//! The command for callers that are not Rattle: a web page, or a program in C.
#![tactic(auto)]

ghost use Rattle.std.specs.Prelude.{◌≡◌, ◌≢◌, ◌<◌, ◌≤◌, ℕ, List, length, take};
ghost use Rattle.i9_buffers.specs.Request.{RequestGives, IsCut};

#[cfg(test)]
mod tests;

use i9_buffers::respond;
use std::alloc::Global;

/// The command over a text of words, of which each has a line of its own, and three files, which the words name `1`,
/// `2` and `3`. The text comes at the start of `out`, and its length at `printed`. The answer is the status of the
/// command, where 6 says that `out` has no room for the text.
#[unsafe(no_mangle)]
pub extern "C" fn i9_page(
    alloc: Global,
    words: &[u8],
    first: &[u8],
    second: &[u8],
    third: &[u8],
    out: &mut [u8],
    printed: &mut usize,
) -> u8
    ensures known { result < 8 }
    ensures inside { (printed.new ≤ length out.new) × (length out.new ≡ length out.old) }
    // A status below 6 has its whole text, and both are those of the words and of these files.
    ensures whole { result < 6
        → RequestGives words.now first.now second.now third.now result (take printed.new out.new) }
    // Where there was no room or no memory, a front of such a text is there, perhaps nothing of it.
    ensures cut { 6 ≤ result
        → IsCut (RequestGives words.now first.now second.now third.now) (take printed.new out.new) }
    // Room for each text that can be given is enough.
    ensures fits { ((code : ℕ) (text : List ℕ) → RequestGives words.now first.now second.now third.now code text
        → length text ≤ length out.old) → result ≢ 6 }
{
    let reply = respond(alloc, words, first, second, third, out);
    *printed = reply.length;
    reply.code
}
