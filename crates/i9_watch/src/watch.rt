//! Soft bytes and live frames.
ghost use Rattle.std.specs.Prelude.{◌≡◌, ℕ, Bool, ◌+◌, ◌%◌, ◌<◌, ◌≤◌, ◌⊎◌, None, true, ◌*◌, ◌&&◌, ◌↔◌, ◌∷◌, List};
ghost use Rattle.std.specs.Prelude.{false, IsTrue, nat_lt, OnOk, OnErr, IfOk, length, slice_get};
ghost use Rattle.std.specs.VecDeque.{deque_len, deque_capacity};
ghost use Rattle.i9_model.specs.Frames.{in_frames, no_frames, saved, with_marked, returned, flushed, wrote_run};
ghost use Rattle.i9_model.specs.Frames.{softened};
ghost use Rattle.i9_model.specs.Stale.{picked, byte_marks, word_mark};
ghost use Rattle.i9_model.specs.Calls.{return_marks};
ghost use Rattle.i9_isa.specs.Words.{bit};
ghost use Rattle.i9_model.specs.Writes.{wrapped};
ghost use Rattle.i9_watch.specs.Bits.{bits_of, AreWordMarks};
ghost use Rattle.i9_model.specs.Hazards.{least, read_hazard, write_hazard, port_hazard, save_hazard, return_hazard};
ghost use Rattle.i9_model.specs.Hazards.{planned_push};
ghost use Rattle.i9_model.specs.Sound.{AreApart};
ghost use Rattle.i9_watch.specs.Marks.{is_marked};
ghost use Rattle.i9_watch.specs.Live.{AreAligned, AreAligned-prop, AreApart-prop};
ghost use Rattle.i9_watch.specs.declared.page.Mark.TheVariants.{Live, Lost};

use crate::bits::bits_where;
use crate::marks::Marks;
use crate::page::{Change, Mark};
use i9_isa::NoMemory;
use i9_model::layout::{FRAME_SIZE, PORT_PAGE};
use i9_model::{Push, in_port_page};
use std::alloc::Global;
use std::collections::VecDeque;

/// The bytes that only the save of a frame wrote, which are soft, and the save addresses of the
/// frames that may be returned to, which are live, youngest first.
///
/// The processor may keep a saved frame in its local register cache (the i960 CA/CF User's Manual,
/// local register cache), so memory at such an address may be older than the frame. Which
/// accesses count as hazards for this reason is this project's own.
#[derive(Drop)]
pub struct Watch {
    marks: Marks,
    live: VecDeque<u32>,
    spare: usize,
    has_lost: bool,
    ghost room: { deque_len live + spare ≤ deque_capacity live },
    ghost aligned: { AreAligned live.items } by { AreAligned-prop live.items },
    ghost apart: { AreApart live.items } by { AreApart-prop live.items },
    ghost marked: { is_marked Live marks ≡ in_frames live.items },
    ghost within: { (x : ℕ) → is_marked Lost marks x ≡ true → in_frames live.items x ≡ true },

    // Whether a live frame may have a marked word: most have none.
    ghost none_lost: { has_lost ≡ false → (x : ℕ) → is_marked Lost marks x ≡ false },
}

/// The first of so many addresses from one on that passes a test.
// It is called where one of them has a mark, and is no part of the code that calls it.
#[inline(never)]
#[tactic(auto, using(crate::proofs::Watching::least_passes, crate::proofs::Watching::least_fails))]
fn first_place<F: Fn(u32) -> bool>(a: u32, n: u32, test: F) -> Option<u32>
    requires { F.IsAlwaysCallable test }
    ensures { (p : ℕ → Bool) → ((x : ℕ) (r : Bool) → F.post test x r → r ≡ p x) → result ≡ least p a n }
{
    for k in 0..n {
        let x = a.wrapping_add(k);
        if test(x) {
            return Some(x);
        }
    }
    None
}

#[tactic(auto, unfolding(crate::specs::Watch::frames_of, crate::specs::Watch::spare_of, crate::specs::Watch::HasMarks))]
impl Watch {
    ghost use Rattle.i9_watch.specs.Watch.{frames_of, spare_of, HasMarks, HasRunMarks, HasFrameMarks, HasNoMarks};
    ghost use Rattle.i9_watch.specs.Watch.{KeepsMarks, AddsMarksOnly};

    /// No byte is soft and no frame is live.
    pub fn new(alloc: Global) -> Watch
        ensures frames { frames_of result ≡ no_frames }
        ensures spare { spare_of result ≡ 0 }
        ensures none { HasNoMarks result }
    {
        Watch {
            marks: Marks::new(alloc),
            live: VecDeque::new(alloc),
            spare: 0,
            has_lost: false,
        }
    }

    /// The same soft bytes and live frames, with room for the same marks, and none to spare for a further frame.
    pub fn copy(&self) -> Result<Watch, NoMemory>
        ensures frames { IfOk result (λ w. frames_of w ≡ frames_of self.now) }
        ensures spare { IfOk result (λ w. spare_of w ≡ 0) }
        ensures marks { IfOk result (λ w. KeepsMarks self.now w) }
        ensures no_more { IfOk result (λ w. KeepsMarks w self.now) }
    {
        let marks = self.marks.copy()?;
        match self.live.clone() {
            Ok(live) => Ok(Watch {
                marks,
                live,
                spare: 0,
                has_lost: self.has_lost,
            }),
            Err(_) => Err(NoMemory),
        }
    }

    /// Makes room for the save of a frame: one live entry to spare, and soft marks of the 64
    /// addresses from `a` on. There is room for no others then but those of their pages.
    pub fn reserve(&mut self, a: u32) -> Result<(), NoMemory>
        ensures frames { frames_of self.new ≡ frames_of self.old }
        ensures ok_spare { OnOk result (0 < spare_of self.new) }
        ensures ok_marks { OnOk result (HasFrameMarks self.new a) }
        ensures kept_spare { spare_of self.old ≤ spare_of self.new }
        ensures kept_marks { KeepsMarks self.old self.new }
        ensures only { AddsMarksOnly self.old self.new a FRAME_SIZE }

        // Want of memory changes nothing.
        ensures err_spare { OnErr result (spare_of self.new ≡ spare_of self.old) }
        ensures err_marks { OnErr result (KeepsMarks self.new self.old) }

        // What is there already is not asked for again.
        ensures needed { OnErr result ((spare_of self.old ≡ 0) ⊎ (HasFrameMarks self.old a → ⊥)) }
    {
        let spare = self.spare.max(1);
        if self.live.reserve(spare).is_err() {
            return Err(NoMemory);
        }
        self.marks.reserve(a, FRAME_SIZE)?;
        self.spare = spare;
        Ok(())
    }

    /// Makes room for soft marks of `n` addresses from `a` on. There is room for no others then but those of their
    /// pages.
    pub fn reserve_bytes(&mut self, a: u32, n: u32) -> Result<(), NoMemory>
        requires { n ≤ 16 }
        ensures frames { frames_of self.new ≡ frames_of self.old }
        ensures spare { spare_of self.new ≡ spare_of self.old }
        ensures ok { OnOk result (HasRunMarks self.new a n) }
        ensures kept { KeepsMarks self.old self.new }
        ensures only { AddsMarksOnly self.old self.new a n }

        // Want of memory changes nothing, and what is there already is not asked for again.
        ensures err { OnErr result (KeepsMarks self.new self.old) }
        ensures needed { OnErr result (HasRunMarks self.old a n → ⊥) }
    {
        self.marks.reserve(a, n)
    }

    /// Whether there is room for a soft mark of `a`, and so for those of its page.
    pub fn has_marks(&self, a: u32) -> bool
        ensures { IsTrue result ↔ HasMarks self.now a }
    {
        self.marks.has_room(a)
    }

    /// Whether a byte is soft.
    pub fn soft(&self, a: u32) -> bool
        ensures { result ≡ (frames_of self.now).soft a }
    {
        self.marks.is_marked(Mark::Soft, a)
    }

    /// Whether a byte is one of a live frame.
    fn is_live(&self, a: u32) -> bool
        ensures { result ≡ in_frames (frames_of self.now).live a }
    {
        self.marks.is_marked(Mark::Live, a)
    }

    /// Whether a byte is in a marked word of a live frame.
    pub fn live_mark(&self, a: u32) -> bool
        ensures { result ≡ (frames_of self.now).marked a }
    {
        self.marks.is_marked(Mark::Lost, a)
    }

    /// Whether a byte of a word has a mark.
    fn word_mark(&self, mark: Mark, a: u32) -> bool
        ensures { result ≡ word_mark (is_marked mark self.now.marks) a }
    {
        self.marks.is_marked(mark, a)
            || self.marks.is_marked(mark, a.wrapping_add(1))
            || self.marks.is_marked(mark, a.wrapping_add(2))
            || self.marks.is_marked(mark, a.wrapping_add(3))
    }

    /// Which of `n` bytes from `a` on are soft: bit k for the byte that many behind `a`.
    #[tactic(auto, using(crate::proofs::SetBits::none_below), unfolding(crate::specs::Watch::frames_of))]
    pub fn stale(&self, a: u32, n: u32) -> u16
        requires { n ≤ 16 }
        ensures { (k : ℕ) → bit result k ≡ (nat_lt k n && (frames_of self.now).soft (wrapped (a + k))) }
    {
        if !self.marks.has_any(Mark::Soft, a, n) {
            return 0;
        }
        bits_where(n, |k| self.soft(a.wrapping_add(k)))
    }

    /// Which of the sixteen words of a frame at `a` have a byte with a mark.
    fn word_marks(&self, mark: Mark, a: u32) -> u16
        ensures { AreWordMarks result (is_marked mark self.now.marks) a }
    {
        if !self.marks.has_any(mark, a, FRAME_SIZE) {
            return 0;
        }
        bits_where(
            16,
            |k| self.word_mark(mark, a.wrapping_add(k.wrapping_mul(4))),
        )
    }

    /// Which of the sixteen words of a frame at `a` are marked, as those of a live frame.
    #[tactic(auto, using(crate::proofs::SetBits::none_below, crate::proofs::Watching::words_clear))]
    fn lost_marks(&self, a: u32) -> u16
        ensures { AreWordMarks result (is_marked Lost self.now.marks) a }
    {
        if !self.has_lost {
            return 0;
        }
        self.word_marks(Mark::Lost, a)
    }

    /// The marks of the sixteen words that a return to the frame at `a` reads, bit k for word k: where a frame is
    /// live, those that it was saved with; where none is, a word with a soft byte is marked.
    pub fn return_marks(&self, a: u32) -> u16
        ensures { result ≡ return_marks (frames_of self.now) a }
    {
        match self.first_live() {
            None => self.word_marks(Mark::Soft, a),
            Some(_) => self.lost_marks(a),
        }
    }

    /// The same of a return to the youngest live frame.
    fn first_marks(&self) -> u16
        ensures { (f : ℕ) (rest : List ℕ) → (frames_of self.now).live ≡ f ∷ rest
            → result ≡ return_marks (frames_of self.now) f }
    {
        match self.first_live() {
            None => 0,
            Some(frame) => self.return_marks(frame),
        }
    }

    /// Whether a byte stays soft over a flush.
    fn stays_soft(&self, a: u32) -> bool
        ensures { result ≡ (flushed (frames_of self.now)).soft a }
    {
        self.soft(a) && (self.live_mark(a) || !self.is_live(a))
    }

    /// The least soft byte, counted upwards from `a`, of `n` bytes that are to be read.
    #[inline(always)]
    #[tactic(auto, using(crate::proofs::Watching::least_is_none), unfolding(crate::specs::Watch::frames_of, i9_model::specs::Hazards::read_hazard))]
    pub fn check_read(&self, a: u32, n: u32) -> Option<u32>
        ensures { result ≡ read_hazard (frames_of self.now) a n }
    {
        if !self.marks.has_any(Mark::Soft, a, n) {
            return None;
        }
        first_place(a, n, |x| self.soft(x))
    }

    /// The least byte, counted upwards from `a`, of `n` bytes that are to be read as after a flush:
    /// one that is soft and in no word of a live frame that is not marked.
    #[tactic(auto, using(crate::proofs::Watching::least_is_none), unfolding(crate::specs::Watch::frames_of, i9_model::specs::Hazards::read_hazard))]
    pub fn check_flushed_read(&self, a: u32, n: u32) -> Option<u32>
        ensures { result ≡ read_hazard (flushed (frames_of self.now)) a n }
    {
        if !self.marks.has_any(Mark::Soft, a, n) {
            return None;
        }
        first_place(a, n, |x| self.stays_soft(x))
    }

    /// The least byte of a live frame, counted upwards from `a`, of `n` bytes that are to be
    /// written.
    #[inline(always)]
    pub fn check_write(&self, a: u32, n: u32) -> Option<u32>
        ensures { result ≡ write_hazard (frames_of self.now) a n }
    {
        if !self.marks.has_any(Mark::Live, a, n) {
            return None;
        }
        first_place(a, n, |x| self.is_live(x))
    }

    /// The least byte in the port page, counted upwards from `a`, of `n` bytes.
    pub fn touches_port(a: u32, n: u32) -> Option<u32>
        ensures { result ≡ port_hazard a n }
    {
        if 0 < n && in_port_page(a) {
            return Some(a);
        }
        (PORT_PAGE.wrapping_sub(a) < n).then_some(PORT_PAGE)
    }

    /// The hazard of a return to the frame that was saved at `a`: it has to be the youngest live
    /// one. Where none is live its return address is read from memory.
    pub fn check_ret(&self, a: u32) -> Option<u32>
        ensures { result ≡ return_hazard (frames_of self.now) a }
    {
        let hazard = match self.first_live() {
            None => self.check_read(a.wrapping_add(8), 4),
            Some(first) => (a != first).then_some(a),
        };
        hazard.or_else(|| Watch::touches_port(a, FRAME_SIZE))
    }

    /// The hazard of the save of a frame at `a`.
    fn check_save(&self, a: u32) -> Option<u32>
        ensures { result ≡ save_hazard (frames_of self.now) a }
    {
        self.check_write(a, FRAME_SIZE)
            .or_else(|| Watch::touches_port(a, FRAME_SIZE))
    }

    /// What a push makes of a frame pointer `fp`, the base of the new frame, the size of the
    /// record below it (0 or 16 bytes) and a return type (the low three bits of pfp); or the hazard
    /// of its save area. After the i960 CA/CF User's Manual, local register cache.
    pub fn plan_push(&self, fp: u32, base: u32, extra: u32, kind: u8) -> Result<Push, u32>
        requires extra { (extra ≡ 0) ⊎ (extra ≡ 16) }
        requires kind { kind < 8 }
        ensures push { result ≡ planned_push (frames_of self.now) fp base extra kind }

        // So the frame can be saved there.
        ensures free { IfOk result (λ p. save_hazard (frames_of self.now) p.save ≡ None) }
        ensures aligned { IfOk result (λ p. p.save % 16 ≡ 0) }
    {
        let save = fp - fp % 16;
        if let Some(a) = self.check_save(save) {
            return Err(a);
        }
        let frame = (base.wrapping_add(15) / 16 * 16).wrapping_add(extra);
        Ok(Push {
            save,
            frame,
            pfp: save + u32::from(kind),
            sp: frame.wrapping_add(FRAME_SIZE),
        })
    }

    /// A frame was saved at `a`: its 64 bytes are soft, it is the youngest live one, and word k of it is marked where
    /// bit k of `marks` is set. Uses up a spare entry.
    pub fn called(&mut self, a: u32, marks: u16)
        requires spare { 0 < spare_of self.old }
        requires marks { HasFrameMarks self.old a }
        requires aligned { a % 16 ≡ 0 }
        requires free { save_hazard (frames_of self.old) a ≡ None }
        ensures frames { frames_of self.new ≡ with_marked (saved (frames_of self.old) a)
            (picked wrapped a (byte_marks (bits_of marks 16))) }
        ensures spare { spare_of self.new + 1 ≡ spare_of self.old }
        ensures marks { KeepsMarks self.old self.new }
        ensures no_more { KeepsMarks self.new self.old }
    {
        self.marks.change(Change::Save, a, FRAME_SIZE);
        self.marks.change_runs(Change::Lose, a, 4, 16, marks);
        self.has_lost |= marks != 0;
        self.spare -= 1;
        self.live.push_front_reserved(a);
    }

    /// The youngest live frame was returned to, and its bytes stay soft: the marks of its words.
    pub fn returned(&mut self) -> u16
        requires { 0 < length (frames_of self.old).live }
        ensures answer { (f : ℕ) (rest : List ℕ) → (frames_of self.old).live ≡ f ∷ rest
            → result ≡ return_marks (frames_of self.old) f }
        ensures frames { frames_of self.new ≡ returned (frames_of self.old) }
        ensures spare { spare_of self.new ≡ spare_of self.old }
        ensures marks { KeepsMarks self.old self.new }
        ensures no_more { KeepsMarks self.new self.old }
    {
        let marks = self.first_marks();
        if let Some(frame) = self.live.pop_front() {
            self.marks.change(Change::Return, frame, FRAME_SIZE);
        }
        marks
    }

    /// Every frame was written to memory, as by flushreg: none is live, and the bytes of those
    /// that were are not soft, but in marked words.
    pub fn flushed(&mut self)
        ensures frames { frames_of self.new ≡ flushed (frames_of self.old) }
        ensures spare { spare_of self.new ≡ spare_of self.old }
        ensures marks { KeepsMarks self.old self.new }
        ensures no_more { KeepsMarks self.new self.old }
    {
        self.marks.harden_all(&self.live);
        self.marks.leave_all(&self.live);
        self.has_lost = false;
        self.live.clear();
    }

    /// `n` bytes from `a` on were stored to, so they are not soft.
    pub fn wrote(&mut self, a: u32, n: u32)
        ensures frames { frames_of self.new ≡ wrote_run (frames_of self.old) a n }
        ensures spare { spare_of self.new ≡ spare_of self.old }
        ensures marks { KeepsMarks self.old self.new }
        ensures no_more { KeepsMarks self.new self.old }
    {
        self.marks.store(a, n);
    }

    /// `n` bytes from `a` on were stored to, of which byte k is soft exactly where bit k of `marks` is set.
    pub fn wrote_marked(&mut self, a: u32, n: u32, marks: u16)
        requires few { n ≤ 16 }
        requires room { HasRunMarks self.old a n }
        ensures frames { frames_of self.new ≡ softened (wrote_run (frames_of self.old) a n)
            (picked wrapped a (bits_of marks n)) }
        ensures spare { spare_of self.new ≡ spare_of self.old }
        ensures marks { KeepsMarks self.old self.new }
        ensures no_more { KeepsMarks self.new self.old }
    {
        self.marks.store(a, n);
        self.marks.change_runs(Change::Soften, a, 1, n, marks);
    }

    /// The save address of the youngest live frame.
    pub fn first_live(&self) -> Option<u32>
        ensures { result ≡ slice_get (frames_of self.now).live 0 }
    {
        self.live.front().copied()
    }

    /// The save address of the live frame with so many younger ones.
    pub fn live_at(&self, k: u64) -> Option<u32>
        ensures { result ≡ slice_get (frames_of self.now).live k }
    {
        self.live.get(k as usize).copied()
    }
}
