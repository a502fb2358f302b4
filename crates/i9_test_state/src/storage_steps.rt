//! Storage over memories that are worked out by hand, and the steps that change it.
ghost use Rattle.std.specs.Prelude.{◌≡◌, ◌<◌, ◌≤◌, ◌∷◌, ◌++◌, [], false, IfOk, length};
ghost use Rattle.i9_isa.specs.Words.{bit};
ghost use Rattle.i9_model.specs.declared.layout.TheConstants.{RIP};
ghost use Rattle.std.specs.List.{AllByRecursion};
ghost use Rattle.i9_model.specs.Writes.{upwards};
ghost use Rattle.i9_storage.specs.Storage.{waiting_in, IsDrained};

use crate::rows::{hex_words, named};
use arrayvec::ArrayVec;
use i9_frames::{Frame, Sets};
use i9_memory::Memory;
use i9_queue::Request;
use i9_storage::Storage;
use std::alloc::Global;
use std::test::Fail;

/// Bit 22 of a configuration word, which makes its region big-endian.
const BIG_ENDIAN: u32 = 0x0040_0000;

/// Marks of two words of a frame.
const WORDS_3_AND_8: u16 = 0b1_0000_1000;

/// Words of memory, from an address on: a fault table at 900, whose faults of type 3 have their handler at 1100; a
/// system procedure table at B00, whose procedure 5 is at 1104 on the supervisor stack at 5010; and PC and AC in the
/// record below the frame at 5050.
const ENTRIES: &str = "\
918 1100 FFFFFFFF
B0C 5013
B44 1106
5040 ABCDEF12 1234567D
";

/// An interrupt table at 6000, in which software asks for vectors 18 and 23, both of priority 2, and for one of
/// priority 1. The handler of vector 23 is at 1100.
const REQUESTS: &str = "\
6000 6 840000
6060 1103
";

/// A processor control block (PRCB) at 2000, which asks for seven sets and names the control table at 3000. That makes
/// region 2 big-endian, and no other.
const TABLES: &str = "\
2000 1110 3000 FFFF6EFF 40000000 4440 5550 6660 7770 8880 9997
3000 A0 A1 A2 A3
3028 400000
306C C3
";

/// Puts words from an address on, each in the order of its region.
fn put_words(memory: &mut Memory, a: u32, words: &[u32]) -> Result<(), Fail> {
    let mut at = a;
    for word in words {
        memory.reserve(at, 4)?;
        memory.put_word(at, *word);
        at = at.wrapping_add(4);
    }
    Ok(())
}

/// Storage with so many sets over an image, of which region 1 is big-endian.
fn fresh(alloc: Global, image: &str, sets: u8) -> Result<Storage, Fail>
    requires { (0 < sets) × (sets < 16) }
    ensures { IfOk result (λ s. IsDrained s) }
{
    let mut memory = Memory::new(alloc);
    memory.configure(1, BIG_ENDIAN);
    for line in image.lines() {
        match hex_words(alloc, line)?.as_slice() {
            [address, words @ ..] => put_words(&mut memory, *address, words)?,
            _ => return Err("no address".into()),
        }
    }
    Ok(Storage::new(alloc, memory, sets)?)
}

/// Goes on where nothing waits.
pub(crate) fn drained(storage: &Storage) -> Result<(), Fail>
    ensures { IfOk result (λ _. IsDrained storage.now) }
{
    if storage.is_drained() {
        Ok(())
    } else {
        Err("a request waits".into())
    }
}

/// Saves the frame at a frame pointer, where nothing waits. Its words count up from a first one, and have these marks.
fn save(storage: &mut Storage, fp: u32, first: u32, marks: u16) -> Result<(), Fail>
    requires { bit marks RIP ≡ false }
    ensures { IfOk result (λ _. IsDrained storage.new) }
{
    drained(storage)?;
    let mut words = [0; 16];
    for k in 0..16_u8 {
        words[k as usize] = first.wrapping_add(u32::from(k));
    }
    match storage.watch().plan_push(fp, 0, 0, 0) {
        Ok(push) => {
            storage.reserve_frame(push.save)?;
            let address = push.save;
            storage.save_frame(Frame { address, words }, marks);
            Ok(())
        }
        Err(_) => Err("a hazard".into()),
    }
}

/// Stores bytes beside the live frames, at most four, where nothing waits. Byte k is soft then where bit k is set.
#[tactic(auto, using(i9_storage::proofs::Keeping::run_rules))]
fn store(storage: &mut Storage, a: u32, bytes: &[u8], stale: u16) -> Result<(), Fail>
    ensures { IfOk result (λ _. IsDrained storage.new) }
{
    drained(storage)?;
    let n = bytes.len();
    if n > 4 || storage.watch().check_write(a, n as u32).is_some() {
        return Err("a hazard".into());
    }
    storage.reserve(a, n as u32)?;
    storage.reserve_soft(a, n as u32)?;
    storage.store(a, bytes, stale);
    Ok(())
}

/// Flushes, where nothing waits.
fn flush(storage: &mut Storage) -> Result<(), Fail> {
    drained(storage)?;
    storage.flush();
    Ok(())
}

/// Flushes, and goes on with so many new sets.
fn restart(alloc: Global, storage: &mut Storage, sets: u8) -> Result<(), Fail> {
    if sets == 0 || sets > 15 {
        return Err("no such sets".into());
    }
    let sets = Sets::new(alloc, sets)?;
    drained(storage)?;
    storage.flush();
    storage.renew(sets);
    Ok(())
}

/// A store waits until a turn, beside the live frames; at most four bytes, of which byte k is soft where bit k is set.
#[tactic(auto, using(i9_storage::proofs::Keeping::run_rules))]
fn wait(storage: &mut Storage, a: u32, bytes: &[u8], stale: u16, due: u64) -> Result<(), Fail>
    requires few { length (waiting_in storage.old) < 3 }
    requires order { AllByRecursion (λ w. w.due ≤ due) (waiting_in storage.old) }
    ensures { IfOk result (λ _. waiting_in storage.new
        ≡ waiting_in storage.old ++ record { puts = upwards a bytes.now; due = due } ∷ []) }
{
    let mut list = ArrayVec::new();
    if bytes.len() > 4 || list.try_extend_from_slice(bytes).is_err() {
        return Err("too many bytes".into());
    }
    let request = Request {
        address: a,
        bytes: list,
        due,
    };
    let n = request.bytes.len() as u32;
    if storage.watch().check_write(a, n).is_some() {
        return Err("a hazard".into());
    }
    storage.reserve(a, n)?;
    storage.reserve_soft(a, n)?;
    storage.enqueue(request, stale);
    Ok(())
}

/// Storage of two sets: the frame at 1040 is held, and memory has 01 to 04 from 103C up. Until turn 5 a store of 11 to
/// 14 waits there, until turn 7 one of 21 and 22 in region 1, and until turn 9 one of 33 at 103E.
pub(crate) fn with_waiting(alloc: Global) -> Result<Storage, Fail> {
    let mut storage = fresh(alloc, "", 2)?;
    save(&mut storage, 0x1040, 0x200, 0)?;
    store(&mut storage, 0x103C, b"\x01\x02\x03\x04", 0)?;
    wait(&mut storage, 0x103C, b"\x11\x12\x13\x14", 0, 5)?;
    wait(&mut storage, 0x1000_0000, b"\x21\x22", 0, 7)?;
    wait(&mut storage, 0x103E, b"\x33", 0, 9)?;
    Ok(storage)
}

/// Storage in which a store of 11 to 14 waits at 2000, of which 12 and 13 are marked.
fn with_marked_waiting(alloc: Global) -> Result<Storage, Fail> {
    let mut storage = fresh(alloc, "", 2)?;
    wait(&mut storage, 0x2000, b"\x11\x12\x13\x14", 0b0110, 5)?;
    Ok(storage)
}

/// Configures two regions, behind a flush.
fn configure(storage: &mut Storage, region: u8, words: [u32; 2]) -> Result<(), Fail> {
    if region > 14 {
        return Err("no such regions".into());
    }
    drained(storage)?;
    storage.flush();
    storage.configure(region, &words);
    Ok(())
}

/// Begins anew.
fn begins(alloc: Global, storage: &mut Storage, name: &str) -> Result<(), Fail> {
    *storage = match name {
        "zeros" => fresh(alloc, "", 2)?,
        "entries" => fresh(alloc, ENTRIES, 1)?,
        "requests" => fresh(alloc, REQUESTS, 1)?,
        "tables" => fresh(alloc, TABLES, 2)?,
        "waiting" => with_waiting(alloc)?,
        "marked_waiting" => with_marked_waiting(alloc)?,
        _ => return Err("no such step".into()),
    };
    Ok(())
}

/// Does a step.
pub(crate) fn does(alloc: Global, storage: &mut Storage, step: &str) -> Result<(), Fail> {
    let (name, numbers) = named(step);
    let numbers = hex_words(alloc, numbers)?;
    match (name, numbers.as_slice()) {
        ("", []) => Ok(()),
        ("save", &[fp, first]) => save(storage, fp, first, 0),
        ("save_marked", &[fp, first]) => save(storage, fp, first, WORDS_3_AND_8),
        ("return", []) => {
            storage.restore_frame();
            Ok(())
        }
        ("flush", []) => flush(storage),
        ("restart", &[sets]) => restart(alloc, storage, u8::try_from(sets)?),
        ("store_half", &[a, v]) => {
            let bytes = storage.half_bytes(a, u16::try_from(v)?);
            store(storage, a, &bytes, 0)
        }
        ("store_word", &[a, v]) => {
            let bytes = storage.word_bytes(a, v);
            store(storage, a, &bytes, 0)
        }
        ("store_marked", &[a, v, stale]) => {
            let bytes = storage.word_bytes(a, v);
            store(storage, a, &bytes, u16::try_from(stale)?)
        }
        ("keep", &[a]) => {
            storage.keep_word(a);
            Ok(())
        }
        ("land", &[turn]) => {
            storage.land(u64::from(turn));
            Ok(())
        }
        ("configure", &[region, v, w]) => configure(storage, u8::try_from(region)?, [v, w]),
        _ => begins(alloc, storage, name),
    }
}
