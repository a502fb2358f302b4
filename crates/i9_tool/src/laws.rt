//! Laws of the command's answers, as the contracts of a call that does nothing, and of the command over files and a
//! sink in memory.

ghost use Rattle.std.specs.Prelude.{◌≡◌, ◌≢◌, ◌≤◌, ◌<◌, ℕ, Bool, true, List, Option, Some, IsSome, length};
ghost use Rattle.std.specs.List.{AllByRecursion};
ghost use Rattle.i9_tool.specs.CommandLine.{Command, Run, Gen, ByLength};
ghost use Rattle.i9_tool.specs.declared.words.Range.{Range};
ghost use Rattle.i9_outside.specs.Calls.{NoneToFail};
ghost use Rattle.i9_outside.specs.Counts.{Rose};
ghost use Rattle.i9_outside.specs.MemFiles as mem_files;
ghost use Rattle.i9_outside.specs.MemSink as mem_sink;
ghost use Rattle.i9_outside.specs.Traits.{IsFile};
ghost use Rattle.i9_tool.specs.Fetches.{AllTold};
ghost use Rattle.i9_tool.specs.Outcome.{Gives, GivesWhole, IsCountedSchedule, Outcomes, asked_for, names_of};
ghost use Rattle.i9_lines.specs.Print.{account};

use crate::status::Status;
use crate::top::i960;
use i9_outside::{MemFiles, MemSink};
use std::alloc::Global;

/// What words give for files that are told and were read is one status and one text: an image is accepted or refused,
/// not both, for one fault, and so are a schedule and a script; the run of image and schedule is the only one, and so
/// is the text of a script; a source has one list of segments or one first fault, and so has the job of a number;
/// segments have one list of runs, and so one ELF file or too many runs for one. So each status is answered exactly
/// where it is given. There is a status and a text for all words and files, and those of a run that is printed do not
/// depend on the number of sets that is asked for where its schedule is by counts, nor do those of a job.
pub fn one_outcome()
    ensures some { (told : List ℕ → Option (List ℕ)) (asked : Option Command)
        → (code : ℕ) × (text : List ℕ) × Gives told (λ n. ⊥) asked code text }
    ensures status { (told : List ℕ → Option (List ℕ)) (risen : List ℕ → Bool) (asked : Option Command)
        (c d : ℕ) (s t : List ℕ)
        → AllTold told (names_of asked) → c ≢ 5 → d ≢ 5
        → Gives told (λ n. risen n ≡ true) asked c s → Gives told (λ n. risen n ≡ true) asked d t → c ≡ d }
    ensures text { (told : List ℕ → Option (List ℕ)) (risen : List ℕ → Bool) (asked : Option Command)
        (c d : ℕ) (s t : List ℕ)
        → AllTold told (names_of asked) → c ≢ 5 → d ≢ 5
        → Gives told (λ n. risen n ≡ true) asked c s → Gives told (λ n. risen n ≡ true) asked d t → s ≡ t }
    ensures sets { (told : List ℕ → Option (List ℕ)) (risen : List ℕ → Bool) (image : List ℕ)
        (schedule : Option (List ℕ)) (sets others : Option ℕ) (limit code : ℕ) (traced : Option Range) (text : List ℕ)
        → IsCountedSchedule told schedule
        → Gives told (λ n. risen n ≡ true) (Some (Run image schedule sets (ByLength limit traced))) code text
        → Gives told (λ n. risen n ≡ true) (Some (Run image schedule others (ByLength limit traced))) code text }
    ensures job_sets { (told : List ℕ → Option (List ℕ)) (risen : List ℕ → Bool) (number : ℕ)
        (sets others : Option ℕ) (code : ℕ) (text : List ℕ)
        → Gives told (λ n. risen n ≡ true) (Some (Gen number sets)) code text
        → Gives told (λ n. risen n ≡ true) (Some (Gen number others)) code text }
{}

/// What words give for files that another reading tells too is given under that reading: where no file can fail to be
/// read, if no count rose, and else with the counts of that reading, where each of them rises that rose.
pub fn where_none_rose()
    ensures none { (told other : List ℕ → Option (List ℕ)) (before now : List ℕ → ℕ) (asked : Option Command)
        (code : ℕ) (text : List ℕ)
        → ((n file : List ℕ) → IsFile (told n) file → IsFile (other n) file)
        → ((n : List ℕ) → Rose (before n) (now n) → ⊥)
        → Gives told (λ n. Rose (before n) (now n)) asked code text → Gives other (λ n. ⊥) asked code text }
    ensures some { (told other : List ℕ → Option (List ℕ)) (before now first last : List ℕ → ℕ) (asked : Option Command)
        (code : ℕ) (text : List ℕ)
        → ((n file : List ℕ) → IsFile (told n) file → IsFile (other n) file)
        → ((n : List ℕ) → Rose (before n) (now n) → Rose (first n) (last n))
        → Gives told (λ n. Rose (before n) (now n)) asked code text
        → Gives other (λ n. Rose (first n) (last n)) asked code text }
{}

/// The command over files and a sink in memory: a status below 6 has its whole text. Where no call is set to fail, each
/// file that the words name is held, and the sink has room for what is printed, no count of faults rises, and neither 5
/// nor 6 is answered.
pub fn i960_in_memory(
    alloc: Global,
    words: &Vec<String>,
    files: &mut MemFiles,
    out: &mut MemSink,
) -> Status
    ensures whole { result.code < 6
        → GivesWhole (Outcomes mem_files.held_file (λ m n. mem_files.fault_count m) files.old files.new words.now.items)
        result.code (account (λ s. Some (mem_sink.written_bytes s)) mem_sink.fault_count mem_sink.write_count
        mem_sink.IsSureOf mem_sink.HasPieces) out.old out.new }
    ensures calm_files { NoneToFail (mem_files.calls_of files.old)
        → AllByRecursion (λ name. IsSome (mem_files.held_file files.old name)) (names_of (asked_for words.now.items))
        → (result.code ≢ 5) × (mem_files.fault_count files.new ≡ mem_files.fault_count files.old) }
    ensures calm_sink { NoneToFail (mem_sink.calls_of out.old)
        → ((code : ℕ) (text : List ℕ)
        → Outcomes mem_files.held_file (λ m n. mem_files.fault_count m) files.old files.new words.now.items code text
        → length text ≤ mem_sink.room_left out.old)
        → (result.code ≢ 6) × (mem_sink.fault_count out.new ≡ mem_sink.fault_count out.old) }
{
    i960(alloc, words, files, out)
}
