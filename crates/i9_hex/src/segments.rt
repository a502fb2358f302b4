//! Images: bytes at addresses, in segments.
ghost use Rattle.std.specs.Prelude.{◌≡◌, [], ◌∷◌, ◌++◌, map, OnOk, OnErr};
ghost use Rattle.i9_model.specs.Image.{pairs_of, AreParts};
ghost use Rattle.i9_hex.specs.Put.{ends_before, with_pair, with_part};
ghost use Rattle.i9_hex.specs.Shown.{part_of};

use i9_isa::NoMemory;
use std::alloc::{AllocError, Global};
use std::marker::Model;

/// Bytes that stand from an address on. Addresses run on from FFFFFFFF to 0.
#[derive(Debug, Drop)]
pub struct Segment {
    pub address: u32,
    pub bytes: Vec<u8>,
}

/// An image: segments in order. Of two bytes at one address the later counts.
#[derive(Debug, Drop)]
pub struct Segments {
    items: Vec<Segment>,
}

impl Model for Segments {
    ghost use Rattle.std.specs.Prelude.{List};
    ghost use Rattle.i9_model.specs.Image.{Part};

    ghost Value = { List Part };

    ghost use Rattle.i9_hex.specs.Shown.{parts_of};
    ghost use Rattle.i9_model.specs.Image.{AreParts};

    ghost view = { parts_of };

    ghost invariant = { λ s. AreParts (parts_of s) };
}

/// Whether the next address after the last segment is this one.
fn ends_before(segments: &[Segment], address: u32) -> bool
    ensures { result ≡ ends_before (map part_of segments.now) address }
{
    match segments.last() {
        Some(last) => {
            // Addresses count modulo 2^32, and so does a length here.
            let start = last.address;
            start.wrapping_add((last.bytes.len() % 0x1_0000_0000) as u32) == address
        }
        None => false,
    }
}

impl Segments {
    /// An image without bytes. This takes no memory.
    pub fn new(alloc: Global) -> Segments
        ensures { result ≡ [] }
    {
        Segments {
            items: Vec::new(alloc),
        }
    }

    /// Appends a byte, as `put` says.
    fn append(&mut self, address: u32, byte: u8) -> Result<(), AllocError>
        ensures ok { OnOk result (self.new ≡ with_pair self.old address byte) }
        ensures err { OnErr result (self.new ≡ self.old) }
    {
        if ends_before(&self.items, address) {
            let last = self.items.len() - 1;
            self.items[last].bytes.push(byte)?;
            return Ok(());
        }
        let mut bytes = Vec::new(*self.items.allocator());
        bytes.push(byte)?;
        self.items.push(Segment { address, bytes })?;
        Ok(())
    }

    /// Appends a byte at an address: to the last segment where this is the next address after it,
    /// else as a new segment. An error leaves the image as it was.
    #[tactic(auto, using(crate::proofs::PartLemmas::one_pair_more))]
    pub fn put(&mut self, address: u32, byte: u8) -> Result<(), NoMemory>
        ensures parts { OnOk result (self.new ≡ with_pair self.old address byte) }
        ensures pairs { OnOk result (pairs_of self.new ≡ pairs_of self.old ++ (address, byte) ∷ []) }
        ensures err { OnErr result (self.new ≡ self.old) }
    {
        match self.append(address, byte) {
            Ok(()) => Ok(()),
            Err(AllocError) => Err(NoMemory),
        }
    }

    /// Appends a segment; one without bytes is not kept. An error leaves the image as it was.
    pub fn push(&mut self, address: u32, bytes: Vec<u8>) -> Result<(), NoMemory>
        ensures parts { OnOk result (self.new ≡ with_part self.old address bytes.items) }
        ensures err { OnErr result (self.new ≡ self.old) }
    {
        if bytes.as_slice().is_empty() {
            return Ok(());
        }
        match self.items.push(Segment { address, bytes }) {
            Ok(()) => Ok(()),
            Err(_) => Err(NoMemory),
        }
    }

    /// The segments in order.
    pub fn as_slice(&self) -> &[Segment]
        ensures segments { map part_of result.now ≡ self.now }
        // Addresses are below 2^32 and bytes below 256.
        ensures parts { AreParts self.now }
    {
        &self.items
    }
}
