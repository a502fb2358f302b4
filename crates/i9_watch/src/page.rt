//! The marks of a page.
ghost use Rattle.std.specs.Prelude.{◌≡◌, ◌≢◌, ◌⊎◌, ℕ, ◌+◌, ◌%◌, ◌<◌, ◌≤◌, IfOk, true, false};

use i9_isa::NoMemory;
use std::alloc::{AllocError, Global};

/// How many addresses a page has.
pub(crate) const PAGE_SIZE: u32 = 256;

/// How many addresses a block has. Frames are whole blocks.
const BLOCK_SIZE: usize = 16;

/// What an address can be marked as.
#[derive(Clone, Copy)]
pub(crate) enum Mark {
    /// Only the save of a frame wrote the byte.
    Soft,
    /// The byte is one of a frame that may be returned to.
    Live,
    /// The byte is in a word of such a frame that was saved from a marked register.
    Lost,
}

/// What happens to the bytes of a run.
#[derive(Clone, Copy)]
pub(crate) enum Change {
    /// A frame is saved: they are soft and live.
    Save,
    /// They are stored to, and not soft any more.
    Store,
    /// Their frame is returned to, and neither live any more nor in a marked word of a live frame.
    Return,
    /// A marked value was stored to them: they are soft.
    Soften,
    /// They are saved from a marked register.
    Lose,
}

/// Which addresses of a page are soft, which of its blocks are live, and which addresses are in marked words of these.
#[derive(Drop)]
pub(crate) struct Page {
    soft: Box<[bool; 256]>,
    live: [bool; 16],
    lost: Box<[bool; 256]>,
}

impl Clone for Page {
    ghost is_clone = { λ p q. (q.soft.value ≡ p.soft.value) × (q.live ≡ p.live) × (q.lost.value ≡ p.lost.value) };

    fn clone(&self) -> Result<Page, AllocError> {
        let soft = Box::new(*Box::allocator(&self.soft), *self.soft)?;
        let lost = Box::new(*Box::allocator(&self.lost), *self.lost)?;
        Ok(Page {
            soft,
            live: self.live,
            lost,
        })
    }
}

impl Page {
    ghost use Rattle.i9_watch.specs.Page.{has_mark, changed, is_blockwise};

    /// No address is marked.
    #[tactic(auto, using(crate::proofs::Marking::new_page))]
    pub(crate) fn new(alloc: Global) -> Result<Page, NoMemory>
        ensures { IfOk result (λ p. (m : Mark) (k : ℕ) → has_mark m p k ≡ false) }
    {
        let soft = match Box::new(alloc, [false; 256]) {
            Ok(soft) => soft,
            Err(_) => return Err(NoMemory),
        };
        let lost = match Box::new(alloc, [false; 256]) {
            Ok(lost) => lost,
            Err(_) => return Err(NoMemory),
        };
        Ok(Page {
            soft,
            live: [false; 16],
            lost,
        })
    }

    /// Whether the address at a place of the page has a mark.
    pub(crate) fn has(&self, mark: Mark, place: u32) -> bool
        requires { place < 256 }
        ensures { result ≡ has_mark mark self.now place }
    {
        match mark {
            Mark::Soft => self.soft[place as usize],
            Mark::Live => self.live[place as usize / BLOCK_SIZE],
            Mark::Lost => self.lost[place as usize],
        }
    }

    /// Whether one of so many places from one on has a mark.
    #[inline(always)]
    pub(crate) fn has_any(&self, mark: Mark, place: u32, n: u32) -> bool
        requires { place + n ≤ 256 }
        ensures { result ≡ false → (k : ℕ) → place ≤ k → k < place + n → has_mark mark self.now k ≡ false }
    {
        let (from, to) = (place as usize, (place + n) as usize);
        match mark {
            Mark::Soft => self.soft[from..to].contains(&true),
            Mark::Live => {
                let last = to.div_ceil(BLOCK_SIZE);
                self.live[from / BLOCK_SIZE..last].contains(&true)
            }
            Mark::Lost => self.lost[from..to].contains(&true),
        }
    }

    /// Changes the marks of so many places from one on. What is done to frames is done to whole blocks.
    pub(crate) fn change(&mut self, change: Change, place: u32, n: u32)
        requires room { place + n ≤ 256 }
        requires blocks { is_blockwise change ≡ true → (place % 16 ≡ 0) × (n % 16 ≡ 0) }
        ensures within { (m : Mark) (k : ℕ) → place ≤ k → k < place + n
            → has_mark m self.new k ≡ changed change m (has_mark m self.old k) }
        ensures outside { (m : Mark) (k : ℕ) → (k < place) ⊎ (place + n ≤ k)
            → has_mark m self.new k ≡ has_mark m self.old k }
    {
        let (from, to) = (place as usize, (place + n) as usize);
        let (first, last) = (from / BLOCK_SIZE, to / BLOCK_SIZE);
        match change {
            Change::Save => {
                self.soft[from..to].fill(true);
                self.live[first..last].fill(true);
            }
            Change::Store => self.soft[from..to].fill(false),
            Change::Return => {
                self.live[first..last].fill(false);
                self.lost[from..to].fill(false);
            }
            Change::Soften => self.soft[from..to].fill(true),
            Change::Lose => self.lost[from..to].fill(true),
        }
    }
}
