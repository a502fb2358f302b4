//! The requests that wait.

ghost use Rattle.std.specs.Prelude.{◌≡◌, ◌<◌, ◌≤◌, ◌↔◌, ◌^◌, ◌∷◌, ◌++◌, [], IsTrue, length, drop, MatchOption};
ghost use Rattle.i9_model.specs.Late.{all_puts};
ghost use Rattle.i9_model.specs.Writes.{upwards, last_put, or_earlier};
ghost use Rattle.i9_queue.specs.Queue.{waits_in};
ghost use Rattle.i9_queue.specs.Waits.{AreBeside};

use arrayvec::ArrayVec;
use std::marker::Model;

/// A load or a store that was issued.
#[derive(Debug, Drop)]
pub struct Request {
    pub address: u32,
    /// The bytes that it stores, in ascending addresses; a load has none.
    pub bytes: ArrayVec<u8, 16>,
    /// The turn at which it is done.
    pub due: u64,
}

impl Default for Request {
    fn default() -> Request {
        Request {
            address: 0,
            bytes: ArrayVec::new(),
            due: 0,
        }
    }
}

/// The same bytes.
fn copy_bytes(bytes: &[u8]) -> ArrayVec<u8, 16>
    requires { length bytes.now ≤ 16 }
    ensures { result.items ≡ bytes.now }
{
    let mut copies = ArrayVec::new();
    for b in bytes {
        copies.push(*b);
    }
    copies
}

impl Request {
    ghost use Rattle.i9_queue.specs.Queue.{wait_in};

    /// The same request.
    fn copy(&self) -> Request
        ensures { wait_in result ≡ wait_in self.now }
    {
        Request {
            address: self.address,
            bytes: copy_bytes(self.bytes.as_slice()),
            due: self.due,
        }
    }
}

/// At most three requests, the oldest first.
#[derive(Drop)]
pub struct Queue {
    items: ArrayVec<Request, 3>,
}

impl Model for Queue {
    ghost use Rattle.std.specs.Prelude.{List};
    ghost use Rattle.i9_model.specs.Late.{Wait};
    ghost use Rattle.i9_queue.specs.Queue.{waits_in};

    ghost Value = { List Wait };

    ghost view = { λ q. waits_in q.items.items };
}

/// The same requests.
#[tactic(auto, using(crate::proofs::Bytes::copy_rules))]
fn copy_all(requests: &[Request]) -> ArrayVec<Request, 3>
    requires { length requests.now ≤ 3 }
    ensures { waits_in result.items ≡ waits_in requests.now }
{
    let mut copies = ArrayVec::new();
    for r in requests {
        copies.push(r.copy());
    }
    copies
}

/// The byte at a place, of bytes that stand from an address on.
fn byte_of_run(address: u32, bytes: &[u8], place: u32) -> Option<u8>
    requires { length bytes.now < 2 ^ 32 }
    ensures { result ≡ last_put (upwards address bytes.now) place }
{
    bytes.get(place.wrapping_sub(address) as usize).copied()
}

/// The byte of a request at a place, or what was found before.
fn byte_or(r: &Request, a: u32, found: Option<u8>) -> Option<u8>
    ensures { result ≡ or_earlier (last_put (upwards r.now.address r.now.bytes.items) a) found }
{
    match byte_of_run(r.address, r.bytes.as_slice(), a) {
        Some(b) => Some(b),
        None => found,
    }
}

/// The byte that the last of these requests writes at an address.
#[tactic(auto, using(crate::proofs::Bytes::request_rules))]
fn byte_among(requests: &[Request], a: u32) -> Option<u8>
    ensures { result ≡ last_put (all_puts (waits_in requests.now)) a }
{
    let mut found = None;
    for r in requests {
        found = byte_or(r, a, found);
    }
    found
}

/// Whether a request writes none of `n` bytes from an address up; a load may say no. None of them is
/// written where their last one lies far enough above the first one that is.
#[inline(always)]
fn is_beside(r: &Request, a: u32, n: u32) -> bool
    requires { 0 < n }
    ensures { IsTrue result → AreBeside (upwards r.now.address r.now.bytes.items) a n }
{
    let first = r.address;
    let more = n - 1;
    let above = a.wrapping_add(more).wrapping_sub(first);
    r.bytes.len() + more as usize <= above as usize
}

/// Whether no request writes one of `n` bytes from an address up; a load may say no.
#[inline(always)]
fn are_beside(requests: &[Request], a: u32, n: u32) -> bool
    requires { 0 < n }
    ensures { IsTrue result → AreBeside (all_puts (waits_in requests.now)) a n }
{
    for r in requests {
        if !is_beside(r, a, n) {
            return false;
        }
    }
    true
}

impl Queue {
    ghost use Rattle.i9_queue.specs.Queue.{NoneDue, wait_in};

    /// No request waits.
    pub fn new() -> Queue
        ensures { result ≡ [] }
    {
        Queue {
            items: ArrayVec::new(),
        }
    }

    /// The same requests.
    pub fn copy(&self) -> Queue
        ensures { result ≡ self.now }
    {
        Queue {
            items: copy_all(self.items.as_slice()),
        }
    }

    /// How many requests wait.
    pub fn len(&self) -> u8
        ensures { result ≡ length self.now }
    {
        self.items.len() as u8
    }

    /// Whether no request waits.
    #[inline(always)]
    pub fn is_empty(&self) -> bool
        ensures { IsTrue result ↔ (self.now ≡ []) }
    {
        self.items.is_empty()
    }

    /// Puts a request behind the others.
    #[inline(always)]
    pub fn put(&mut self, r: Request)
        requires { length self.old < 3 }
        ensures { self.new ≡ self.old ++ wait_in r ∷ [] }
    {
        self.items.push(r);
    }

    /// Takes the first of several requests.
    // Seldom more than one waits, and this is no part of the code that calls it.
    #[inline(never)]
    fn take_first(&mut self) -> Request
        requires { 0 < length self.old }
        ensures { self.old ≡ wait_in result ∷ self.new }
    {
        self.items.remove(0)
    }

    /// The first request, where it is due by `turn`.
    #[inline(always)]
    pub fn first_due(&self, turn: u64) -> Option<&Request>
        ensures { MatchOption result (NoneDue turn self.now)
            (λ r. (r.now.due ≤ turn) × (self.now ≡ wait_in r.now ∷ drop 1 self.now)) }
    {
        match self.items.first() {
            Some(r) if r.due <= turn => Some(r),
            _ => None,
        }
    }

    /// The first request waits no more.
    // Mostly it waits alone, and no other is moved.
    #[inline(always)]
    pub fn drop_first(&mut self)
        requires { 0 < length self.old }
        ensures { self.new ≡ drop 1 self.old }
    {
        if self.items.len() == 1 {
            self.items.clear();
        } else {
            let _ = self.take_first();
        }
    }

    /// Whether no waiting store is to one of `n` bytes from an address up. It may be false beside a load.
    #[inline(always)]
    pub(crate) fn is_beside(&self, a: u32, n: u32) -> bool
        requires { 0 < n }
        ensures { IsTrue result → AreBeside (all_puts self.now) a n }
    {
        are_beside(self.items.as_slice(), a, n)
    }

    /// The byte that the youngest waiting store to an address writes there.
    pub fn forward(&self, a: u32) -> Option<u8>
        ensures { result ≡ last_put (all_puts self.now) a }
    {
        byte_among(self.items.as_slice(), a)
    }
}
