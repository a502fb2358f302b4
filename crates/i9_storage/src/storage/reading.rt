//! Bytes, halves and words of memory with the held frames laid over it.
ghost use Rattle.std.specs.Prelude.{◌≡◌, ℕ, ◌+◌, ◌-◌, ◌*◌, ◌/◌, ◌%◌, ◌^◌, ◌<◌, ◌≤◌, false, None, IfNone, IfSome};
ghost use Rattle.std.specs.Prelude.{length, slice_index, take};
ghost use Rattle.i9_model.specs.declared.layout.TheConstants.{LOCALS, FRAME_SIZE};
ghost use Rattle.i9_model.specs.Hazards.{read_hazard};
ghost use Rattle.i9_model.specs.Memory.{in_port_page, is_big, waits_of, half_in, word_in, words_in, half_bytes};
ghost use Rattle.i9_model.specs.Memory.{word_bytes};
ghost use Rattle.i9_model.specs.Writes.{wrapped};
ghost use Rattle.i9_model.specs.HeldFrames.{over, overlaid, AreWhole};
ghost use Rattle.i9_storage.specs.Kept.{cache_in, laid_without, byte_in_frame};

use super::Storage;
use i9_frames::{Frame, Sets};
use i9_memory::{half_of, word_of};
use i9_model::in_port_page;
use i9_model::layout::{FRAME_SIZE, LOCALS};
use i9_queue::Behind;

/// How many addresses a region has.
const REGION_SIZE: u32 = 0x1000_0000;

/// The byte so far above the address of a frame.
fn frame_byte(behind: &Behind, f: &Frame, above: u32) -> u8
    requires { above < FRAME_SIZE }
    ensures { result ≡ byte_in_frame behind.now f.now above }
{
    let k = above / 4;
    let word = behind.word_bytes(f.address.wrapping_add(4 * k), f.words[k as usize]);
    word[(above % 4) as usize]
}

/// Words have 32 bits.
fn words_fit(words: &[u32])
    ensures { (k : ℕ) → slice_index words.now k < 2 ^ 32 }
{
    let _ = words;
}

/// A byte of the frame with `k` younger ones, unless it lies beside that frame.
#[tactic(auto, using(crate::proofs::HeldBytes::byte_rules))]
fn byte_of(behind: &Behind, sets: &Sets, k: u8, a: u32) -> Option<u8>
    requires whole { AreWhole sets.now.frames }
    requires there { k < length sets.now.frames }
    requires outside { in_port_page a ≡ false }
    ensures past { IfNone result
        ((laid_without (k + 1) behind.now sets.now).bytes a ≡ (laid_without k behind.now sets.now).bytes a) }
    ensures here { IfSome result (λ b. b ≡ (laid_without k behind.now sets.now).bytes a) }
{
    let f = sets.at(k).copied()?;
    let above = a.wrapping_sub(f.address);
    if above < FRAME_SIZE {
        Some(frame_byte(behind, &f, above))
    } else {
        None
    }
}

/// A byte of memory with the held frames laid over it: that of the youngest frame that has it, or
/// else the one in memory.
#[tactic(auto, using(crate::proofs::HeldBytes::laid_rules))]
fn overlaid_byte(behind: &Behind, sets: &Sets, a: u32) -> u8
    requires { AreWhole sets.now.frames }
    ensures { result ≡ (overlaid (cache_in behind.now sets.now)).bytes a }
{
    if in_port_page(a) {
        return behind.byte(a);
    }
    for k in 0..sets.len() {
        if let Some(b) = byte_of(behind, sets, k, a) {
            return b;
        }
    }
    behind.byte(a)
}

impl Storage {
    ghost use Rattle.i9_storage.specs.Storage.{memory_in, legible_in, left_in, acted_in, frames_in, KeepsContents, KeepsPages};

    /// The byte at `a`; 0 in the port page. All bytes of held frames are soft, so the sets are looked
    /// at for a soft byte alone.
    #[tactic(auto, using(crate::proofs::StoragePlans::hard_rules))]
    pub fn byte(&self, a: u32) -> u8
        ensures { result ≡ (memory_in self.now).bytes a }
    {
        if self.watch.soft(a) {
            return overlaid_byte(&self.behind, &self.sets, a);
        }
        self.behind.byte(a)
    }

    /// The byte at `a` of the memory behind the held frames, whatever waits; 0 in the port page.
    pub fn acted_byte(&self, a: u32) -> u8
        ensures { result ≡ (acted_in self.now).bytes a }
    {
        self.behind.acted_byte(a)
    }

    /// Whether a region is big-endian.
    #[tactic(auto, using(crate::proofs::HeldBytes::order_rules))]
    pub fn big(&self, region: u8) -> bool
        requires { region < 16 }
        ensures { result ≡ is_big (memory_in self.now) region }
    {
        self.behind.big(region)
    }

    /// How many turns a region waits at a read, or at a write.
    pub fn waits(&self, region: u8, write: bool) -> u64
        requires { region < 16 }
        ensures { result ≡ waits_of (memory_in self.now) region write }
    {
        self.behind.waits(region, write)
    }

    /// The four bytes from `a` up, each from the youngest frame that has it.
    #[tactic(auto, unfolding(i9_model::specs::Memory::word_in))]
    fn laid_word(&self, a: u32) -> u32
        ensures { result ≡ word_in (memory_in self.now) a }
    {
        let bytes = [
            self.byte(a),
            self.byte(a.wrapping_add(1)),
            self.byte(a.wrapping_add(2)),
            self.byte(a.wrapping_add(3)),
        ];
        word_of(self.big((a / REGION_SIZE) as u8), bytes)
    }

    /// The four bytes from `a` up, in the order of the region of `a`, where none of them is soft: memory
    /// has them.
    #[inline(always)]
    #[tactic(auto, using(crate::proofs::StoragePlans::hard_rules))]
    pub fn hard_word(&self, a: u32) -> u32
        requires { read_hazard (frames_in self.now) a 4 ≡ None }
        ensures { result ≡ word_in (memory_in self.now) a }
    {
        self.behind.word(a)
    }

    /// The word at `a`, where it is kept.
    #[inline(always)]
    pub fn kept_word(&self, a: u32) -> Option<u32>
        ensures { IfSome result (λ v. (read_hazard (frames_in self.now) a 4 ≡ None)
            × (v ≡ word_in (memory_in self.now) a)) }
    {
        self.words.get(a)
    }

    /// Keeps the word at `a`, which was not kept, where none of its bytes is soft.
    #[inline(never)]
    fn learn_word(&mut self, a: u32)
        ensures contents { KeepsContents self.old self.new }
        ensures pages { KeepsPages self.old self.new }
    {
        if self.watch.check_read(a, 4).is_none() {
            let word = self.hard_word(a);
            self.words.put(a, word);
        }
    }

    /// Keeps the word at `a`, where none of its bytes is soft and `a` is a multiple of 4, in place of another one. What is
    /// kept changes no answer but that of `kept_word`.
    #[inline(always)]
    pub fn keep_word(&mut self, a: u32)
        ensures contents { KeepsContents self.old self.new }
        ensures pages { KeepsPages self.old self.new }
    {
        if self.words.get(a).is_none() {
            self.learn_word(a);
        }
    }

    /// Words from `a` up, each in the order of its own region, where none of their bytes is soft: memory has
    /// them. At most 64.
    #[inline(always)]
    #[tactic(auto, using(crate::proofs::StoragePlans::hard_rules))]
    pub fn hard_words<const N: usize>(&self, a: u32) -> [u32; N]
        requires few { N ≤ 64 }
        requires hard { read_hazard (frames_in self.now) a (4 * N) ≡ None }
        ensures { result ≡ words_in (memory_in self.now) a N }
    {
        self.behind.words(a)
    }

    /// The four bytes from `a` up, in the order of the region of `a`. Where none is soft memory has
    /// them.
    #[inline(always)]
    #[tactic(auto, using(crate::proofs::StoragePlans::hard_rules))]
    pub fn word(&self, a: u32) -> u32
        ensures { result ≡ word_in (memory_in self.now) a }
    {
        match self.watch.check_read(a, 4) {
            None => self.hard_word(a),
            Some(_) => self.laid_word(a),
        }
    }

    /// The sixteen words from `a` up, one by one.
    fn laid_words(&self, a: u32) -> [u32; LOCALS]
        ensures { result ≡ words_in (memory_in self.now) a LOCALS }
    {
        let mut words = [0; LOCALS];
        for k in 0..LOCALS {
            words[k] = self.word(a.wrapping_add(4 * k as u32));
        }
        words
    }

    /// The sixteen words from `a` up, each in the order of its own region, as of the frame that a
    /// return to `a` enters: those of memory where no frame is held, and of the youngest held frame
    /// where it was saved there.
    #[tactic(auto, using(crate::proofs::Youngest::none_held))]
    fn frame_words(&self, a: u32) -> [u32; LOCALS]
        ensures { result ≡ words_in (memory_in self.now) a LOCALS }
    {
        let Some(f) = self.sets.at(0).copied() else {
            return self.behind.words(a);
        };
        words_fit(&f.words);
        if f.address == a {
            f.words
        } else {
            self.laid_words(a)
        }
    }

    /// Word `k` of the sixteen that `frame_words` reads, alone.
    #[tactic(auto, using(crate::proofs::Youngest::word_rules))]
    fn frame_word(&self, a: u32, k: u8) -> u32
        requires { k < LOCALS }
        ensures { result ≡ word_in (memory_in self.now) (wrapped (a + 4 * k)) }
    {
        let at = a.wrapping_add(4 * u32::from(k));
        let Some(f) = self.sets.at(0) else {
            return self.behind.word(at);
        };
        words_fit(&f.words);
        if f.address == a {
            f.words[k as usize]
        } else {
            self.word(at)
        }
    }

    // ---- as a load finds them: a soft byte is 0, whatever the sets hold

    /// The byte at `a` as a load finds it.
    #[inline(always)]
    #[tactic(auto, using(crate::proofs::Legible::legible_rules))]
    pub fn legible_byte(&self, a: u32) -> u8
        ensures { result ≡ (legible_in self.now).bytes a }
    {
        let byte = self.behind.byte(a);
        if self.watch.soft(a) { 0 } else { byte }
    }

    /// The two bytes from `a` up as a load finds them, one by one.
    #[tactic(auto, unfolding(i9_model::specs::Memory::half_in))]
    fn partly_half(&self, a: u32) -> u16
        ensures { result ≡ half_in (legible_in self.now) a }
    {
        let bytes = [self.legible_byte(a), self.legible_byte(a.wrapping_add(1))];
        half_of(self.big((a / REGION_SIZE) as u8), bytes)
    }

    /// The two bytes from `a` up as a load finds them, in the order of the region of `a`.
    #[tactic(auto, using(crate::proofs::Legible::legible_rules))]
    pub fn legible_half(&self, a: u32) -> u16
        ensures { result ≡ half_in (legible_in self.now) a }
    {
        match self.watch.check_read(a, 2) {
            None => self.behind.half(a),
            Some(_) => self.partly_half(a),
        }
    }

    /// The four bytes from `a` up as a load finds them, one by one.
    #[tactic(auto, unfolding(i9_model::specs::Memory::word_in))]
    fn partly_word(&self, a: u32) -> u32
        ensures { result ≡ word_in (legible_in self.now) a }
    {
        let bytes = [
            self.legible_byte(a),
            self.legible_byte(a.wrapping_add(1)),
            self.legible_byte(a.wrapping_add(2)),
            self.legible_byte(a.wrapping_add(3)),
        ];
        word_of(self.big((a / REGION_SIZE) as u8), bytes)
    }

    /// The four bytes from `a` up as a load finds them, in the order of the region of `a`.
    #[tactic(auto, using(crate::proofs::Legible::legible_rules))]
    pub fn legible_word(&self, a: u32) -> u32
        ensures { result ≡ word_in (legible_in self.now) a }
    {
        match self.watch.check_read(a, 4) {
            None => self.behind.word(a),
            Some(_) => self.partly_word(a),
        }
    }

    /// Words from `a` up as a load finds them, each in the order of its own region, one by one.
    fn partly_words<const N: usize>(&self, a: u32) -> [u32; N]
        requires few { N ≤ 64 }
        ensures { result ≡ words_in (legible_in self.now) a N }
    {
        let mut words = [0; N];
        for k in 0..N {
            words[k] = self.legible_word(a.wrapping_add(4 * k as u32));
        }
        words
    }

    /// Words from `a` up as a load finds them, each in the order of its own region. At most 64.
    #[tactic(auto, using(crate::proofs::Legible::legible_rules))]
    pub fn legible_words<const N: usize>(&self, a: u32) -> [u32; N]
        requires few { N ≤ 64 }
        ensures { result ≡ words_in (legible_in self.now) a N }
    {
        match self.watch.check_read(a, 4 * N as u32) {
            None => self.behind.words(a),
            Some(_) => self.partly_words(a),
        }
    }

    /// The sixteen words from `a` up as a return finds them: where a frame is live, those that were
    /// stored, and else as a load does.
    pub fn left_words(&self, a: u32) -> [u32; LOCALS]
        ensures { result ≡ words_in (left_in (frames_in self.now).live self.now) a LOCALS }
    {
        match self.watch.first_live() {
            None => self.legible_words(a),
            Some(_) => self.frame_words(a),
        }
    }

    /// Word `k` of the sixteen that `left_words` reads, alone.
    pub fn left_word(&self, a: u32, k: u8) -> u32
        requires { k < LOCALS }
        ensures { result ≡ word_in (left_in (frames_in self.now).live self.now) (wrapped (a + 4 * k)) }
    {
        match self.watch.first_live() {
            None => self.legible_word(a.wrapping_add(4 * u32::from(k))),
            Some(_) => self.frame_word(a, k),
        }
    }

    /// The bytes of a half that is stored at `a`, from the lowest address up: in the order of the
    /// region of `a`.
    #[tactic(auto, using(crate::proofs::HeldBytes::order_rules))]
    pub fn half_bytes(&self, a: u32, v: u16) -> [u8; 2]
        ensures { result ≡ half_bytes (memory_in self.now) a v }
    {
        self.behind.half_bytes(a, v)
    }

    /// The bytes of a word that is stored at `a`, from the lowest address up: in the order of the
    /// region of `a`.
    #[tactic(auto, using(crate::proofs::HeldBytes::order_rules))]
    pub fn word_bytes(&self, a: u32, v: u32) -> [u8; 4]
        ensures { result ≡ word_bytes (memory_in self.now) a v }
    {
        self.behind.word_bytes(a, v)
    }
}
