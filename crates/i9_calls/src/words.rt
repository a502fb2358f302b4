//! Words of memory that are read with the hazard of the read.
ghost use Rattle.std.specs.Prelude.{◌≡◌};
ghost use Rattle.i9_model.specs.Memory.{word_in};
ghost use Rattle.i9_model.specs.State.{aligned};
ghost use Rattle.i9_model.specs.Hazards.{read_hazard, unless};
ghost use Rattle.i9_memory.specs.Memory.{memory_of};
ghost use Rattle.i9_watch.specs.Watch.{frames_of};

use i9_memory::Memory;
use i9_watch::Watch;

/// The bytes of a word.
pub const WORD_SIZE: u32 = 4;

/// The word at the address `a`, or the least soft byte of its four, counted upwards from `a`. After
/// the i960 CA/CF User's Manual, local register cache.
pub fn read_word(m: &Memory, w: &Watch, a: u32) -> Result<u32, u32>
    ensures { result ≡ unless (read_hazard (frames_of w.now) a 4) (word_in (memory_of m.now) a) }
{
    match w.check_read(a, WORD_SIZE) {
        Some(hazard) => Err(hazard),
        None => Ok(m.word(a)),
    }
}

/// A word with its low two bits cleared.
pub fn aligned(word: u32) -> u32
    ensures { result ≡ aligned word }
{
    word - word % WORD_SIZE
}
