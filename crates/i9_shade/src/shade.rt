//! What a barrier's writes hide until it is done.

ghost use Rattle.std.specs.Prelude.{◌≡◌, ◌↔◌, ◌<◌, ◌≤◌, ◌∷◌, ◌++◌, [], length, None, map};
ghost use Rattle.i9_shade.specs.Shade.{piece, piece_in, byte_of, first_byte, shown, ShowsNone};

use arrayvec::ArrayVec;
use std::marker::Model;

/// The most pieces: fifteen frames, and what else a barrier writes.
const MOST_PIECES: usize = 18;

/// The most bytes of a piece: those of a frame.
const MOST_BYTES: usize = 64;

/// Some bytes as they stood, from an address up.
#[derive(Debug, Drop)]
struct OldBytes {
    address: u32,
    bytes: ArrayVec<u8, MOST_BYTES>,
}

impl Default for OldBytes {
    fn default() -> OldBytes {
        OldBytes {
            address: 0,
            bytes: ArrayVec::new(),
        }
    }
}

impl OldBytes {
    /// These bytes, from an address up.
    fn new(address: u32, old: &[u8]) -> OldBytes
        requires { length old.now ≤ 64 }
        ensures { piece_in result ≡ piece address old.now }
    {
        let mut bytes = ArrayVec::new();
        for b in old {
            bytes.push(*b);
        }
        OldBytes { address, bytes }
    }

    /// The byte at an address, where it is one of these.
    fn byte(&self, a: u32) -> Option<u8>
        ensures { result ≡ byte_of (piece_in self.now) a }
    {
        let address = self.address;
        let bytes = self.bytes.as_slice();
        let above = a.wrapping_sub(address) as usize;
        if above < bytes.len() {
            Some(bytes[above])
        } else {
            None
        }
    }
}

/// The byte at an address of the first of these that has it.
#[tactic(auto, using(crate::proofs::First::look_rules))]
fn first_byte(pieces: &[OldBytes], a: u32) -> Option<u8>
    ensures { result ≡ first_byte (map piece_in pieces.now) a }
{
    for p in pieces {
        if let Some(b) = p.byte(a) {
            return Some(b);
        }
    }
    None
}

/// A barrier writes memory at its issue, and what it writes shows from the turn on at which it is
/// done. These are the bytes that show until then: at most 18 pieces of 1 to 64 bytes in ascending
/// addresses, which go on from the last address at 0, and the due turn. That the old bytes show so
/// long is this project's own.
#[derive(Debug, Drop)]
pub struct Shade {
    pieces: ArrayVec<OldBytes, MOST_PIECES>,
    due: u64,
}

impl Model for Shade {
    ghost use Rattle.std.specs.Prelude.{map};
    ghost use Rattle.i9_shade.specs.Shade.{Kept, HaveBytes, piece_in};

    ghost Value = { Kept };

    ghost view = { λ s. record { pieces = map piece_in s.pieces.items; due = s.due } };

    ghost invariant = { λ s. HaveBytes (map piece_in s.pieces.items) };
}

impl Shade {
    /// Nothing is kept, and the due turn is 0.
    pub fn new() -> Shade
        ensures pieces { result.pieces ≡ [] }
        ensures due { result.due ≡ 0 }
    {
        Shade {
            pieces: ArrayVec::new(),
            due: 0,
        }
    }

    /// The same bytes, up to the same turn.
    pub fn copy(&self) -> Shade
        ensures { result ≡ self.now }
    {
        let mut pieces = ArrayVec::new();
        for old in self.pieces.as_slice() {
            pieces.push(OldBytes::new(old.address, old.bytes.as_slice()));
        }
        Shade {
            pieces,
            due: self.due,
        }
    }

    /// Keeps the bytes that stand from `a` up, 1 to 64 of them, behind the fewer than 18 pieces that
    /// were kept before.
    pub fn keep(&mut self, a: u32, old: &[u8])
        requires few { length self.old.pieces < 18 }
        requires some { 0 < length old.now }
        requires fits { length old.now ≤ 64 }
        ensures pieces { self.new.pieces ≡ self.old.pieces ++ piece a old.now ∷ [] }
        ensures due { self.new.due ≡ self.old.due }
    {
        self.pieces.push(OldBytes::new(a, old));
    }

    /// Sets the turn from which on no kept byte shows.
    pub fn due(&mut self, turn: u64)
        ensures pieces { self.new.pieces ≡ self.old.pieces }
        ensures due { self.new.due ≡ turn }
    {
        self.due = turn;
    }

    /// The byte that stood at an address under all writes of the barrier: that of the first piece that
    /// has it. None where no piece has it, or from the due turn on.
    pub fn look(&self, a: u32, turn: u64) -> Option<u8>
        ensures byte { result ≡ shown self.now a turn }
        ensures none { (result ≡ None) ↔ ShowsNone self.now a turn }
    {
        if turn < self.due {
            first_byte(self.pieces.as_slice(), a)
        } else {
            None
        }
    }

    /// Drops all pieces from the due turn on.
    pub fn land(&mut self, turn: u64)
        ensures over { self.old.due ≤ turn → self.new.pieces ≡ [] }
        ensures before { turn < self.old.due → self.new.pieces ≡ self.old.pieces }
        ensures due { self.new.due ≡ self.old.due }
    {
        if self.due <= turn {
            self.pieces.clear();
        }
    }
}
