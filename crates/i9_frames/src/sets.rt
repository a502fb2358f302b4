//! The sets of the local register cache.
ghost use Rattle.std.specs.Prelude.{◌≡◌, ◌+◌, ◌-◌, ◌<◌, ◌≤◌, ◌∷◌, ◌++◌, ◌↔◌, [], length, take, drop, reverse};
ghost use Rattle.std.specs.Prelude.{slice_get, option_copied, IsSome, IsNone, IfSome, IfNone, IfOk};

use circular_buffer::HeapCircularBuffer;
use i9_isa::NoMemory;
use i9_model::Frame;
use std::alloc::Global;
use std::marker::Model;

/// The local register cache: 1 to 15 sets, each of which can hold a frame that was saved and that
/// memory does not have yet, after the i960 CA/CF User's Manual, local register cache. How many
/// sets there may be is this project's own.
#[derive(Drop)]
pub struct Sets {
    frames: HeapCircularBuffer<Frame>,
}

impl Model for Sets {
    ghost use Rattle.i9_frames.specs.Sets.{Held, held, HasEnoughSets};

    ghost Value = { Held };

    ghost view = { λ s. held s.frames.capacity s.frames.items };

    ghost invariant = { λ s. HasEnoughSets (held s.frames.capacity s.frames.items) };
}

impl Sets {
    ghost use Rattle.i9_frames.specs.Sets.{Held, held, HasEnoughSets};

    /// `n` sets, which hold no frame.
    pub fn new(alloc: Global, n: u8) -> Result<Sets, NoMemory>
        requires { (0 < n) × (n < 16) }
        ensures empty { IfOk result (λ s. s ≡ held n []) }
        ensures enough { IfOk result HasEnoughSets }
    {
        match HeapCircularBuffer::with_capacity(alloc, n as usize) {
            Ok(frames) => Ok(Sets { frames }),
            Err(_) => Err(NoMemory),
        }
    }

    /// As many sets, which hold the same frames.
    pub fn copy(&self, alloc: Global) -> Result<Sets, NoMemory>
        ensures { IfOk result (λ s. s ≡ self.now) }
    {
        let mut sets = Sets::new(alloc, self.size())?;
        let (older, younger) = self.frames.as_slices();
        sets.frames.fill_from_slice(older);
        sets.frames.fill_from_slice(younger);
        Ok(sets)
    }

    /// Holds a frame, which is the youngest then. The oldest comes out where all sets were taken.
    pub fn push(&mut self, f: Frame) -> Option<Frame>
        ensures spills { IsSome result ↔ (length self.old.frames ≡ self.old.size) }
        ensures oldest { IfSome result (λ oldest. self.old.frames ++ f ∷ [] ≡ oldest ∷ self.new.frames) }
        ensures youngest { IfNone result (self.new.frames ≡ self.old.frames ++ f ∷ []) }
        ensures size { self.new.size ≡ self.old.size }
        ensures enough { HasEnoughSets self.new }
    {
        self.frames.push_back(f)
    }

    /// Takes out the youngest frame; `None` where none is held.
    #[tactic(auto, using(crate::proofs::FrameLists::last_apart))]
    pub fn pop(&mut self) -> Option<Frame>
        ensures none { IsNone result ↔ (self.old.frames ≡ []) }
        ensures youngest { IfSome result (λ f. self.old.frames ≡ self.new.frames ++ f ∷ []) }
        ensures left { self.new ≡ held self.old.size (take (length self.old.frames - 1) self.old.frames) }
    {
        self.frames.pop_back()
    }

    /// Takes out the oldest frame; `None` where none is held.
    pub fn drain_oldest(&mut self) -> Option<Frame>
        ensures none { IsNone result ↔ (self.old.frames ≡ []) }
        ensures oldest { IfSome result (λ f. self.old.frames ≡ f ∷ self.new.frames) }
        ensures left { self.new ≡ held self.old.size (drop 1 self.old.frames) }
    {
        self.frames.pop_front()
    }

    /// How many frames are held.
    pub fn len(&self) -> u8
        ensures { result ≡ length self.now.frames }
    {
        self.frames.len() as u8
    }

    /// The frame that is held with `k` younger ones: the youngest one at 0.
    pub fn at(&self, k: u8) -> Option<&Frame>
        ensures { option_copied result ≡ slice_get (reverse self.now.frames) k }
    {
        self.frames.nth_back(k as usize)
    }

    /// How many sets there are.
    pub fn size(&self) -> u8
        ensures size { result ≡ self.now.size }
        ensures enough { HasEnoughSets self.now }
    {
        self.frames.capacity() as u8
    }
}
