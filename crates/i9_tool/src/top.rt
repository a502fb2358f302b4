//! The command as one call.
ghost use Rattle.std.specs.Prelude.{◌≡◌, ◌≢◌, ◌≤◌, ◌<◌, ◌⊎◌, List, ℕ, length, None};
ghost use Rattle.i9_outside.specs.Counts.{Rose};
ghost use Rattle.i9_lines.specs.Print.{account};
ghost use Rattle.i9_tool.specs.CommandLine.{files_of};
ghost use Rattle.i9_tool.specs.Values.{code_of};
ghost use Rattle.i9_tool.specs.Words.{asked_by, Fits};
ghost use Rattle.i9_tool.specs.Fetches.{Fetches, FetchesFiles, AllSure, AnyRose, rose_in, shelf};
ghost use Rattle.i9_tool.specs.Outcome.{Answers, CommandGives, GivesWhole, GivesFront, Outcomes};
ghost use Rattle.i9_tool.specs.Outcome.{asked_for, files_for, names_of};

use crate::inputs::read_inputs;
use crate::refusal::{InputError, refuse};
use crate::status::{Ending, Status, ending_for};
use crate::tasks::do_task;
use crate::words::{Asked, read_words};
use i9_debug::print_piece;
use i9_outside::{Files, Sink};
use std::alloc::Global;

/// Reads all files that the words name, and then does what they ask for, or says why the files are refused.
fn answer<F: Files, K: Sink>(alloc: Global, asked: &Asked<'_>, files: &mut F, out: &mut K) -> Ending
    requires fits { Fits asked.now }
    ensures answers { Answers
        (CommandGives (F.told files.old) (rose_in F.faults files.old files.new) (asked_by asked.now))
        (code_of result) (account K.told K.faults K.writes K.sure K.pieces) out.old out.new }
    ensures fetches { Fetches (shelf F.told F.faults F.fetches F.sure) (code_of result)
        (files_of (asked_by asked.now)) files.old files.new }
{
    match read_inputs(alloc, asked, files) {
        Ok(task) => do_task(alloc, task, out),
        Err(InputError::Refused(refusal)) => refuse(alloc, refusal, out),
        Err(InputError::Memory) => Ending::NoMemory,
    }
}

/// Does what the words ask for.
fn work<F: Files, K: Sink>(alloc: Global, words: &Vec<String>, files: &mut F, out: &mut K) -> Ending
    ensures answers { Answers (Outcomes F.told F.faults files.old files.new words.now.items) (code_of result)
        (account K.told K.faults K.writes K.sure K.pieces) out.old out.new }
    ensures formless { asked_for words.now.items ≡ None → code_of result ≢ 7 }
    ensures unfetched { asked_for words.now.items ≡ None → files.new ≡ files.old }
    ensures fetches { Fetches (shelf F.told F.faults F.fetches F.sure) (code_of result)
        (files_for (asked_for words.now.items)) files.old files.new }
{
    match read_words(words) {
        Some(asked) => answer(alloc, &asked, files, out),
        None => ending_for(print_piece(b"#words\n", out), Ending::NoForm),
    }
}

/// The same, with the status that says how it ended.
fn answer_words<F: Files, K: Sink>(
    alloc: Global,
    words: &Vec<String>,
    files: &mut F,
    out: &mut K,
) -> Status
    ensures answers { Answers (Outcomes F.told F.faults files.old files.new words.now.items) result.code
        (account K.told K.faults K.writes K.sure K.pieces) out.old out.new }
    ensures formless { asked_for words.now.items ≡ None → result.code ≢ 7 }
    ensures unfetched { asked_for words.now.items ≡ None → files.new ≡ files.old }
    ensures fetches { Fetches (shelf F.told F.faults F.fetches F.sure) result.code
        (files_for (asked_for words.now.items)) files.old files.new }
{
    work(alloc, words, files, out).status()
}

/// Does what the words ask for, and answers a status: 0 where a run exited or reached its length, where a script left
/// a run before its end or at such an end, and where a source was assembled, an image listed or a block tuned; 1 where
/// the words are in no form; 2 where the image was refused, or is too long; 3 where the schedule, the source or the
/// script was, where a source has too many runs of bytes for an ELF file, and where an instruction of the block that is
/// to be tuned is at fault; 4 where the run ended early, as it does at an arithmetic fault that the next instruction
/// overtakes; 5 where a file was not read; 6 where a write failed; 7 where memory was refused.
/// `Outcomes` says which status goes with which text.
pub fn i960<F: Files, K: Sink>(
    alloc: Global,
    words: &Vec<String>,
    files: &mut F,
    out: &mut K,
) -> Status
    // Answered are 0 to 7.
    ensures known { result.code < 8 }

    // A status below 6 has its whole text, each line by one write, and both are those that the words and files give.
    ensures whole { result.code < 6
        → GivesWhole (Outcomes F.told F.faults files.old files.new words.now.items) result.code
        (account K.told K.faults K.writes K.sure K.pieces) out.old out.new }

    // Words in no form take no memory.
    ensures formless { asked_for words.now.items ≡ None → result.code ≢ 7 }

    // Where a write failed or memory was refused, a front of such a text was printed, perhaps nothing of it.
    ensures front { 6 ≤ result.code → GivesFront (Outcomes F.told F.faults files.old files.new words.now.items)
        (account K.told K.faults K.writes K.sure K.pieces) out.old out.new }

    // The files that the words name are fetched in order, each once: one after another only where that was accepted. 5
    // is answered only where the count of one of these rose, and where it did in the file's own fetch, 5 is, or 6 where
    // a write failed too.
    ensures unfetched { asked_for words.now.items ≡ None → files.new ≡ files.old }
    ensures fetched { FetchesFiles (shelf F.told F.faults F.fetches F.sure) result.code
        (files_for (asked_for words.now.items)) files.old files.new }
    ensures read { result.code ≡ 5
        → AnyRose (rose_in F.faults files.old files.new) (names_of (asked_for words.now.items)) }

    // A write failed only where the sink's count rose, and where it did, 6 is answered.
    ensures write { result.code ≡ 6 → Rose (K.faults out.old) (K.faults out.new) }
    ensures failed { K.faults out.old < K.faults out.new → result.code ≡ 6 }

    // Where no fetch and no write can fail, none does.
    ensures calm_files { AllSure (F.sure files.old) (names_of (asked_for words.now.items))
        → (result.code ≢ 5) × ((n : List ℕ) → F.faults files.new n ≡ F.faults files.old n) }
    ensures calm_sink { ((code : ℕ) (text : List ℕ)
        → Outcomes F.told F.faults files.old files.new words.now.items code text → K.sure out.old (length text))
        → (result.code ≢ 6) × (K.faults out.new ≡ K.faults out.old) }

    // Completeness: where no such count rose, the answer is whole, or memory was refused.
    ensures complete { (AnyRose (rose_in F.faults files.old files.new) (names_of (asked_for words.now.items)) → ⊥)
        → (Rose (K.faults out.old) (K.faults out.new) → ⊥)
        → (result.code ≡ 7) ⊎ ((result.code < 5)
        × GivesWhole (Outcomes F.told F.faults files.old files.new words.now.items) result.code
        (account K.told K.faults K.writes K.sure K.pieces) out.old out.new) }
{
    answer_words(alloc, words, files, out)
}
