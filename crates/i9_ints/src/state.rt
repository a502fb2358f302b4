//! What is posted, what is masked, and the vectors of the lines.
ghost use Rattle.std.specs.Prelude.{◌≡◌, ◌+◌, ◌<◌};
ghost use Rattle.i9_model.specs.Interrupts.{pending_word, posted, posted_nmi, line_vector, is_open, cleared};
ghost use Rattle.i9_model.specs.declared.interrupts.TheConstants.{LINES, FIRST_DMA_LINE};
ghost use Rattle.i9_ints.specs.Ints.{with_level, no_interrupts, with_pending, with_mask, with_map};

use crate::bits::{byte_without_bit, has_bit, with_bit, without_bit};
use i9_model::Cause;
use i9_model::interrupts::{FIRST_DMA_LINE, LINE_MASK};

/// How many lines a map word has.
const MAPPED_LINES: u8 = 4;

/// How many bits a map word has for a line.
const MAP_WIDTH: u8 = 4;

/// The low four bits of the vector of every line.
const VECTOR_END: u8 = 2;

/// The interrupts that are posted (IPND, and the one that is never masked), the lines that are not
/// masked (IMSK), and the three words that give the lines their vectors (IMAP0 to IMAP2), in
/// dedicated mode. Bits 0 to 7 of the first two words are the pins, bits 8 to 11 the DMA channels.
/// After the i960 CA/CF User's Manual, interrupts.
#[derive(Clone, Copy)]
pub struct Ints {
    pending: u32,
    mask: u32,
    maps: [u32; 3],
    /// The control word of pins (ICON): bit 2 + x chooses a falling edge for pin x where it is set, and
    /// level detection where it is clear.
    icon: u32,
    /// The pins that are low, a bit for each.
    low: u8,
    nmi: bool,
}

#[tactic(auto, unfolding(crate::specs::Ints::interrupts_of))]
impl Ints {
    ghost use Rattle.i9_ints.specs.Ints.{interrupts_of};

    /// Nothing is posted, every line is masked, and the map words are 0.
    pub fn new() -> Ints
        ensures { interrupts_of result ≡ no_interrupts }
    {
        Ints {
            pending: 0,
            mask: 0,
            maps: [0; 3],
            icon: 0,
            low: 0,
            nmi: false,
        }
    }

    /// Pin `x`, 0 to 7, asks for its interrupt.
    pub fn post_pin(&mut self, x: u8)
        requires { x < 8 }
        ensures { interrupts_of self.new ≡ posted (interrupts_of self.old) x }
    {
        self.pending |= 1 << x;
    }

    /// The interrupt that is never masked is asked for.
    pub fn post_nmi(&mut self)
        ensures { interrupts_of self.new ≡ posted_nmi (interrupts_of self.old) }
    {
        self.nmi = true;
    }

    /// DMA channel `c`, 0 to 3, asks for its interrupt.
    pub fn post_dma(&mut self, c: u8)
        requires { c < 4 }
        ensures { interrupts_of self.new ≡ posted (interrupts_of self.old) (FIRST_DMA_LINE + c) }
    {
        self.pending |= 1 << (FIRST_DMA_LINE + c);
    }

    /// Pin `x`, 0 to 7, goes low or high. Where it was high under falling edge, to go low posts it.
    pub fn level(&mut self, x: u8, low: bool)
        requires { x < 8 }
        ensures { interrupts_of self.new ≡ with_level (interrupts_of self.old) x low }
    {
        if !low {
            self.low = byte_without_bit(self.low, x);
            return;
        }
        if (self.icon >> (2 + x)) % 2 == 1 && !has_bit(self.low, x) {
            self.pending |= 1 << x;
        }
        self.low = with_bit(self.low, x);
    }

    /// The lines that are posted, a bit for each: those that are kept, and the pins that are low under
    /// level detection.
    pub fn pending(&self) -> u32
        ensures { result ≡ pending_word (interrupts_of self.now) }
    {
        if self.low == 0 {
            return self.pending;
        }
        self.pending | u32::from(self.low & (255 - ((self.icon >> 2) % 256) as u8))
    }

    /// The lines that are not masked, a bit for each.
    pub fn mask(&self) -> u32
        ensures { result ≡ (interrupts_of self.now).mask }
    {
        self.mask
    }

    /// Sets the control word of pins.
    pub fn set_icon(&mut self, v: u32)
        ensures { interrupts_of self.new ≡ record (interrupts_of self.old) { icon = v } }
    {
        self.icon = v;
    }

    /// Sets the kept word, of which bits 0 to 11 are kept; pins that are low under level detection stay posted.
    pub fn set_pending(&mut self, v: u32)
        ensures { interrupts_of self.new ≡ with_pending (interrupts_of self.old) v }
    {
        self.pending = v & LINE_MASK;
    }

    /// Sets the mask word, of which bits 0 to 11 are kept.
    pub fn set_mask(&mut self, v: u32)
        ensures { interrupts_of self.new ≡ with_mask (interrupts_of self.old) v }
    {
        self.mask = v & LINE_MASK;
    }

    /// Sets map word `k`, 0 to 2.
    pub fn set_map(&mut self, k: u8, v: u32)
        requires { k < 3 }
        ensures { interrupts_of self.new ≡ with_map (interrupts_of self.old) k v }
    {
        self.maps[k as usize] = v;
    }

    /// Sets all three map words.
    pub fn set_maps(&mut self, maps: [u32; 3])
        ensures { interrupts_of self.new ≡ record (interrupts_of self.old) { maps = maps } }
    {
        self.maps = maps;
    }

    /// Whether the interrupt that is never masked is posted.
    pub(crate) fn is_nmi_posted(&self) -> bool
        ensures { result ≡ (interrupts_of self.now).nmi }
    {
        self.nmi
    }

    /// Whether line `k` is posted and not masked.
    pub(crate) fn is_open(&self, k: u8) -> bool
        requires { k < LINES }
        ensures { result ≡ is_open (interrupts_of self.now) k }
    {
        (self.pending() >> k) % 2 == 1 && (self.mask >> k) % 2 == 1
    }

    /// The vector of line `k`.
    pub(crate) fn line_vector(&self, k: u8) -> u8
        requires { k < LINES }
        ensures { result ≡ line_vector (interrupts_of self.now).maps k }
    {
        let word = self.maps[(k / MAPPED_LINES) as usize];
        let field = (word >> (MAP_WIDTH * (k % MAPPED_LINES))) % (1 << MAP_WIDTH);
        field as u8 * (1 << MAP_WIDTH) + VECTOR_END
    }

    /// What chose an interrupt is not posted any more; a request of software stands in memory.
    pub fn clear(&mut self, cause: Cause)
        ensures { interrupts_of self.new ≡ cleared cause (interrupts_of self.old) }
    {
        match cause {
            Cause::Nmi => self.nmi = false,
            Cause::Line(k) => self.pending = without_bit(self.pending, k),
            Cause::Soft => {}
        }
    }
}
