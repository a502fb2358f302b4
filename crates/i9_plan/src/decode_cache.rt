//! Instructions that were decoded, kept by the address of their word, and the one that was read last.
ghost use Rattle.std.specs.Prelude.{◌≡◌, ◌==◌, ◌<◌, MatchResult};
ghost use Rattle.i9_isa.specs.Valid.{IsValid};
ghost use Rattle.i9_isa.specs.Words.{decoded, words_of};
ghost use Rattle.i9_model.specs.Results.{has_result};
ghost use Rattle.i9_need.specs.Fixed.{fixed_need};
ghost use Rattle.i9_processor.specs.State.{state_of};
ghost use Rattle.i9_plan.specs.Kept.{last_of, inst_in, words_in, need_in, moving_in, Locates};

use crate::fetched::Words;
use crate::kept::Kept;
use crate::places::Places;
use crate::transfers::{Moving, moving_by};
use i9_decode::BadWord;
use i9_isa::{Inst, NoMemory};
use i9_need::FixedNeed;
use i9_processor::Processor;
use std::alloc::Global;

/// How many instructions are kept. Those of a loop of so many words have each a place of its own.
const PLACES: usize = 256;

/// The number of bytes of two words.
const LONG: u32 = 8;

/// Instructions that were decoded, so that a loop's words are decoded once, and of the one that was read last the load or
/// the store that it is, where its effective address was worked out. What it keeps changes no answer.
#[derive(Drop)]
pub struct DecodeCache {
    places: Places,
    moving: Option<Moving>,
}

impl DecodeCache {
    /// A decode cache with room for the instructions of a loop. Each place has a branch to itself at first.
    pub fn new(alloc: Global) -> Result<DecodeCache, NoMemory> {
        let mut known = Vec::new(alloc);
        match known.resize(PLACES, Kept::first()) {
            Ok(()) => Ok(DecodeCache {
                places: Places { known, last: 0 },
                moving: None,
            }),
            Err(_) => Err(NoMemory),
        }
    }

    /// The instruction that was read last.
    pub fn inst(&self) -> &Inst
        ensures { result.now ≡ inst_in self.now }
    {
        &self.places.known[self.places.last].inst
    }

    /// Its words.
    pub fn words(&self) -> Words
        ensures { result ≡ words_in self.now }
    {
        self.places.known[self.places.last].words
    }

    /// What it needs by its name and its operands alone.
    pub fn need(&self) -> &FixedNeed
        ensures kept { result.now ≡ need_in self.now }
        ensures need { result.now ≡ fixed_need (inst_in self.now) }
    {
        &self.places.known[self.places.last].need
    }

    /// Whether it has two words.
    pub(crate) fn is_long(&self) -> bool
        ensures { result ≡ (words_of (inst_in self.now) == 2) }
    {
        self.places.known[self.places.last].need.length == LONG
    }

    /// Whether it has a result.
    pub(crate) fn gives(&self) -> bool
        ensures { result ≡ has_result (inst_in self.now).op }
    {
        self.places.known[self.places.last].gives
    }

    /// The load or the store that it is, as it was worked out last.
    pub(crate) fn moving(&self) -> Option<Moving>
        ensures { result ≡ moving_in self.now }
    {
        self.moving
    }

    /// Works out the load or the store that it is, where it is one, and keeps that.
    #[inline(always)]
    pub(crate) fn locate(&mut self, p: &Processor) -> Option<Moving>
        ensures same { last_of self.new ≡ last_of self.old }
        ensures moving { result ≡ moving_in self.new }
        ensures located { Locates (state_of p.now) self.new }
    {
        let moving = moving_by(
            p,
            &self.places.known[self.places.last].inst,
            self.places.known[self.places.last].transfer,
        );
        self.moving = moving;
        moving
    }

    /// Reads the first word at an address. A second word is still to be read.
    // Most words are known, and this is part of the code that calls it.
    #[inline(always)]
    pub(crate) fn read(&mut self, address: u32, word: u32) -> Result<(), BadWord>
        ensures { MatchResult result (λ done. (words_in self.new).first ≡ word) (λ why. decoded word 0 ≡ Err why) }
    {
        let place = (address / 4) as usize % PLACES;
        if self.places.known[place].words.first != word {
            return self.learn(place, word);
        }
        self.places.last = place;
        Ok(())
    }

    /// Reads a first word that is not known, and keeps it at a place.
    #[inline(never)]
    fn learn(&mut self, place: usize, word: u32) -> Result<(), BadWord>
        requires { place < 256 }
        ensures { MatchResult result (λ done. (words_in self.new).first ≡ word) (λ why. decoded word 0 ≡ Err why) }
    {
        self.places.known[place] = Kept::of(word)?;
        self.places.last = place;
        Ok(())
    }

    /// Reads the second word of an instruction that has two.
    pub(crate) fn lengthen(&mut self, second: u32)
        requires { words_of (inst_in self.old) ≡ 2 }
        ensures words { words_in self.new ≡ record (words_in self.old) { second = second } }
        ensures long { words_of (inst_in self.new) ≡ 2 }
        ensures valid { IsValid (inst_in self.new) }
    {
        self.places.known[self.places.last].lengthen(second);
    }
}
