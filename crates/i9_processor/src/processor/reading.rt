//! What is read of the state that a processor stands for.
ghost use Rattle.std.specs.Prelude.{◌≡◌, ℕ, ◌+◌, ◌*◌, ◌<◌, ◌≤◌, ◌↔◌, ◌&&◌, nat_lt, None, Some, IsTrue, IfOk, IfErr};
ghost use Rattle.i9_isa.specs.Words.{bit};
ghost use Rattle.i9_model.specs.declared.layout.TheConstants.{LOCALS};
ghost use Rattle.i9_model.specs.Writes.{wrapped};
ghost use Rattle.i9_model.specs.Memory.{half_in, word_in, words_in, half_bytes, word_bytes, is_big, waits_of};
ghost use Rattle.i9_model.specs.Hazards.{read_hazard, write_hazard};
ghost use Rattle.i9_model.specs.Frames.{flushed};
ghost use Rattle.i9_model.specs.Stale.{legible, left_memory};
ghost use Rattle.i9_model.specs.Overlay.{overlay};
ghost use Rattle.i9_model.specs.Operands.{special};
ghost use Rattle.i9_model.specs.PrintedText.{view_of};
ghost use Rattle.i9_frames.specs.Sets.{held};

use super::Processor;
use i9_frames::Sets;
use i9_isa::CONDITION_CODE;
use i9_model::{Tables, View};
use i9_watch::Watch;

impl Processor {
    ghost use Rattle.i9_processor.specs.State.{state_of, cache_of, size_of, IsDrained};

    /// A register: r0 to r15 are 0 to 15, g0 to g15 are 16 to 31, and there are no others.
    #[tactic(auto, unfolding(crate::specs::State::state_of), using(crate::proofs::RegisterList::register_rules))]
    pub fn register(&self, r: u8) -> u32
        ensures { result ≡ (state_of self.now).regs r }
    {
        if r < 32 { self.file.latest(r) } else { 0 }
    }

    /// The register that is `k` above another.
    #[tactic(auto, unfolding(crate::specs::State::state_of), using(crate::proofs::RegisterList::register_rules))]
    pub fn register_above(&self, r: u8, k: u8) -> u32
        ensures { result ≡ (state_of self.now).regs (r + k) }
    {
        let register = usize::from(r) + usize::from(k);
        if register < 32 {
            self.file.latest(register as u8)
        } else {
            0
        }
    }

    /// The marks of the registers: bit r is that of register r.
    #[tactic(auto, unfolding(crate::specs::State::state_of))]
    pub fn marks(&self) -> u32
        ensures { bit result ≡ (state_of self.now).marks }
    {
        self.marks
    }

    /// Whether a register is marked.
    #[tactic(auto, unfolding(crate::specs::State::state_of))]
    pub fn is_marked(&self, r: u8) -> bool
        ensures { result ≡ (state_of self.now).marks r }
    {
        let marks = self.marks;
        r < 32 && (marks >> r) % 2 == 1
    }

    /// The instruction address.
    #[tactic(auto, unfolding(crate::specs::State::state_of))]
    pub fn ip(&self) -> u32
        ensures { result ≡ (state_of self.now).ip }
    {
        self.ip
    }

    /// The arithmetic controls.
    #[tactic(auto, unfolding(crate::specs::State::state_of, crate::specs::State::arithmetic_of))]
    pub fn ac(&self) -> u32
        ensures { result ≡ (state_of self.now).ac }
    {
        self.flags / 8 * 8 + self.file.latest(CONDITION_CODE) % 8
    }

    /// The process controls.
    #[tactic(auto, unfolding(crate::specs::State::state_of))]
    pub fn pc(&self) -> u32
        ensures { result ≡ (state_of self.now).pc }
    {
        self.pc
    }

    /// The trace controls.
    #[tactic(auto, unfolding(crate::specs::State::state_of))]
    pub fn tc(&self) -> u32
        ensures { result ≡ (state_of self.now).trace.tc }
    {
        self.tc
    }

    /// A special function register: sf0 is the pending word, sf1 the mask word, and sf2 the DMA command
    /// word.
    #[tactic(auto, unfolding(crate::specs::State::state_of))]
    pub fn special(&self, k: u8) -> u32
        ensures { result ≡ special (state_of self.now) k }
    {
        match k {
            0 => self.ints.pending(),
            1 => self.ints.mask(),
            _ => self.channels.dmac(),
        }
    }

    /// Whether the next choice of an interrupt looks at what software asks for.
    #[tactic(auto, unfolding(crate::specs::State::state_of))]
    pub fn check(&self) -> bool
        ensures { result ≡ (state_of self.now).check }
    {
        self.check
    }

    /// The words of the PRCB that the processor goes by.
    #[tactic(auto, unfolding(crate::specs::State::state_of))]
    pub fn tables(&self) -> &Tables
        ensures { result.now ≡ (state_of self.now).tables }
    {
        &self.tables
    }

    /// How many instructions were counted.
    #[tactic(auto, unfolding(crate::specs::State::state_of))]
    pub fn count(&self) -> u64
        ensures { result ≡ (state_of self.now).count }
    {
        self.count
    }

    /// Whether no store waits to be made in memory.
    #[tactic(auto, unfolding(crate::specs::State::queue_of))]
    pub fn is_drained(&self) -> bool
        ensures { IsTrue result ↔ IsDrained self.now }
    {
        self.storage.is_drained()
    }

    /// The byte at `a`; 0 in the port page.
    #[tactic(auto, unfolding(crate::specs::State::state_of))]
    pub fn byte(&self, a: u32) -> u8
        ensures { result ≡ (state_of self.now).memory.bytes a }
    {
        self.storage.byte(a)
    }

    /// Which of `n` bytes from `a` up are soft: bit k is that of the byte k above `a`.
    #[tactic(auto, unfolding(crate::specs::State::state_of))]
    pub fn stale(&self, a: u32, n: u32) -> u16
        requires { n ≤ 16 }
        ensures { (k : ℕ) → bit result k ≡ (nat_lt k n && (state_of self.now).frames.soft (wrapped (a + k))) }
    {
        self.storage.watch().stale(a, n)
    }

    /// The byte at `a` as a load finds it: 0 where it is soft.
    #[inline(always)]
    #[tactic(auto, unfolding(crate::specs::State::state_of))]
    pub fn legible_byte(&self, a: u32) -> u8
        ensures { result ≡ (legible (state_of self.now)).bytes a }
    {
        self.storage.legible_byte(a)
    }

    /// The two bytes from `a` up as a load finds them, in the order of the region of `a`.
    #[tactic(auto, unfolding(crate::specs::State::state_of))]
    pub fn legible_half(&self, a: u32) -> u16
        ensures { result ≡ half_in (legible (state_of self.now)) a }
    {
        self.storage.legible_half(a)
    }

    /// The four bytes from `a` up as a load finds them, in the order of the region of `a`.
    #[tactic(auto, unfolding(crate::specs::State::state_of))]
    pub fn legible_word(&self, a: u32) -> u32
        ensures { result ≡ word_in (legible (state_of self.now)) a }
    {
        self.storage.legible_word(a)
    }

    /// Words from `a` up as a load finds them, each in the order of its own region. At most 64.
    #[inline(always)]
    #[tactic(auto, unfolding(crate::specs::State::state_of))]
    pub fn legible_words<const N: usize>(&self, a: u32) -> [u32; N]
        requires few { N ≤ 64 }
        ensures { result ≡ words_in (legible (state_of self.now)) a N }
    {
        self.storage.legible_words(a)
    }

    /// The four bytes from `a` up, in the order of the region of `a`.
    #[tactic(auto, unfolding(crate::specs::State::state_of))]
    pub fn word(&self, a: u32) -> u32
        ensures { result ≡ word_in (state_of self.now).memory a }
    {
        self.storage.word(a)
    }

    /// The four bytes from `a` up, in the order of the region of `a`, where none of them is soft.
    #[inline(always)]
    #[tactic(auto, unfolding(crate::specs::State::state_of))]
    pub fn hard_word(&self, a: u32) -> u32
        requires { read_hazard (state_of self.now).frames a 4 ≡ None }
        ensures { result ≡ word_in (state_of self.now).memory a }
    {
        self.storage.hard_word(a)
    }

    /// The word at the instruction address, looked up.
    // Most words are kept, and this is no part of the code that calls it.
    #[inline(never)]
    #[tactic(auto, unfolding(crate::specs::State::state_of))]
    fn find_first_word(&self) -> Result<u32, u32>
        ensures ok { IfOk result (λ w. (read_hazard (state_of self.now).frames (state_of self.now).ip 4 ≡ None)
            × (w ≡ word_in (state_of self.now).memory (state_of self.now).ip)) }
        ensures err { IfErr result (λ a. read_hazard (state_of self.now).frames (state_of self.now).ip 4 ≡ Some a) }
    {
        match self.check_read(self.ip, 4) {
            Some(a) => Err(a),
            None => Ok(self.storage.hard_word(self.ip)),
        }
    }

    /// The word at the instruction address, or its first byte that is soft.
    #[inline(always)]
    #[tactic(auto, unfolding(crate::specs::State::state_of))]
    pub fn first_word(&self) -> Result<u32, u32>
        ensures ok { IfOk result (λ w. (read_hazard (state_of self.now).frames (state_of self.now).ip 4 ≡ None)
            × (w ≡ word_in (state_of self.now).memory (state_of self.now).ip)) }
        ensures err { IfErr result (λ a. read_hazard (state_of self.now).frames (state_of self.now).ip 4 ≡ Some a) }
    {
        match self.storage.kept_word(self.ip) {
            Some(word) => Ok(word),
            None => self.find_first_word(),
        }
    }

    /// Words from `a` up, each in the order of its own region, where none of their bytes is soft. At most 64.
    #[inline(always)]
    #[tactic(auto, unfolding(crate::specs::State::state_of))]
    pub fn hard_words<const N: usize>(&self, a: u32) -> [u32; N]
        requires few { N ≤ 64 }
        requires hard { read_hazard (state_of self.now).frames a (4 * N) ≡ None }
        ensures { result ≡ words_in (state_of self.now).memory a N }
    {
        self.storage.hard_words(a)
    }

    /// Word `k` of the sixteen from `a` up, as of the frame that a return to `a` enters.
    #[tactic(auto, unfolding(crate::specs::State::state_of))]
    pub fn left_word(&self, a: u32, k: u8) -> u32
        requires { k < LOCALS }
        ensures { result
            ≡ word_in (left_memory (state_of self.now).frames.live (state_of self.now)) (wrapped (a + 4 * k)) }
    {
        self.storage.left_word(a, k)
    }

    /// The bytes of a half that is stored at `a`, from the lowest address up.
    #[tactic(auto, unfolding(crate::specs::State::state_of))]
    pub fn half_bytes(&self, a: u32, v: u16) -> [u8; 2]
        ensures { result ≡ half_bytes (state_of self.now).memory a v }
    {
        self.storage.half_bytes(a, v)
    }

    /// The bytes of a word that is stored at `a`, from the lowest address up.
    #[tactic(auto, unfolding(crate::specs::State::state_of))]
    pub fn word_bytes(&self, a: u32, v: u32) -> [u8; 4]
        ensures { result ≡ word_bytes (state_of self.now).memory a v }
    {
        self.storage.word_bytes(a, v)
    }

    /// Whether a region is big-endian.
    #[tactic(auto, unfolding(crate::specs::State::state_of))]
    pub fn big(&self, region: u8) -> bool
        requires { region < 16 }
        ensures { result ≡ is_big (state_of self.now).memory region }
    {
        self.storage.big(region)
    }

    /// How many turns a region waits at a read, or at a write.
    #[tactic(auto, unfolding(crate::specs::State::state_of))]
    pub fn waits(&self, region: u8, write: bool) -> u64
        requires { region < 16 }
        ensures { result ≡ waits_of (state_of self.now).memory region write }
    {
        self.storage.waits(region, write)
    }

    /// The first byte of a read of `n` bytes from `a` up that is soft: only the save of a frame wrote it.
    #[inline(always)]
    #[tactic(auto, unfolding(crate::specs::State::state_of))]
    pub fn check_read(&self, a: u32, n: u32) -> Option<u32>
        ensures { result ≡ read_hazard (state_of self.now).frames a n }
    {
        self.storage.watch().check_read(a, n)
    }

    /// The first byte of a write of `n` bytes from `a` up that is in a live frame.
    #[inline(always)]
    #[tactic(auto, unfolding(crate::specs::State::state_of))]
    pub fn check_write(&self, a: u32, n: u32) -> Option<u32>
        ensures { result ≡ write_hazard (state_of self.now).frames a n }
    {
        self.storage.watch().check_write(a, n)
    }

    /// As `check_read`, but as after a flush of all live frames.
    #[tactic(auto, unfolding(crate::specs::State::state_of))]
    pub fn check_flushed_read(&self, a: u32, n: u32) -> Option<u32>
        ensures { result ≡ read_hazard (flushed (state_of self.now).frames) a n }
    {
        self.storage.watch().check_flushed_read(a, n)
    }

    /// What a drained point shows.
    #[tactic(auto, unfolding(crate::specs::State::state_of), using(crate::proofs::RegisterList::register_rules))]
    pub fn view(&self) -> View
        ensures { result ≡ view_of (state_of self.now) }
    {
        View {
            count: self.count,
            ip: self.ip,
            ac: self.ac(),
            pc: self.pc,
            tc: self.tc,
            regs: self.file.registers(),
            marks: self.marks(),
        }
    }

    /// A byte of overlaid memory: `None` where it is not compared.
    #[tactic(auto, unfolding(crate::specs::State::state_of, i9_model::specs::Overlay::overlay), using(crate::proofs::Overlaid::overlay_rules))]
    pub fn overlay(&self, a: u32) -> Option<u8>
        ensures { result ≡ overlay (state_of self.now) a }
    {
        let watch = self.storage.watch();
        if Watch::touches_port(a, 1).is_some() {
            return Some(0);
        }
        if watch.soft(a) && (watch.live_mark(a) || watch.check_write(a, 1).is_none()) {
            return None;
        }
        Some(self.storage.byte(a))
    }

    /// The sets, with the frames that are held.
    #[tactic(auto, unfolding(crate::specs::State::cache_of, crate::specs::State::size_of))]
    pub fn sets(&self) -> &Sets
        ensures { result.now ≡ held (size_of self.now) (cache_of self.now).held }
    {
        self.storage.sets()
    }
}
