//! The open records, and when the next one may issue.

ghost use Rattle.std.specs.Prelude.{◌≡◌, ◌<◌, ◌^◌, ◌≤◌, ◌+◌, ℕ, List, [], ◌∷◌, length, max, reverse, take, slice_set};
ghost use Rattle.std.specs.Prelude.{slice_index_or, if◌then◌else◌};
ghost use Rattle.i9_model.specs.declared.need.TimedNeed.{TimedNeed};
ghost use Rattle.std.specs.List.{AllByRecursion};
ghost use Rattle.i9_model.specs.Turns.{issue_turn, turn_from, with_need, end_turn, StandsFor, AreAllDone, last_issue};
ghost use Rattle.i9_model.specs.Turns.{IssuesAt, FollowsOpen, pending_after, placed_record, open_at, IsAllDone};
ghost use Rattle.i9_model.specs.Turns.{HasCost};
ghost use Rattle.i9_model.specs.Turns as spec;
ghost use Rattle.i9_issue.specs.Room.{IsEarly, side_from};

use i9_isa::Side;
use i9_model::{Need, Placed, TimedNeed};
use std::marker::Model;

/// How many records are open at most.
const MOST_OPEN: usize = 7;

/// The scoreboard: the last issue turn, at first 1; the turn at which all records are done; the turn at
/// which the last request is done, or 0; and how many records are open at the last issue turn, with those,
/// the oldest first. At most seven are. Which turns records get is this project's own, after the i960 CA/CF
/// User's Manual, instruction execution in parallel.
#[derive(Drop)]
pub struct Board {
    last: u64,
    until: u64,
    asked: u64,
    count: usize,
    records: [TimedNeed; MOST_OPEN],
}

impl Model for Board {
    ghost use Rattle.std.specs.Prelude.{reverse, take};
    ghost use Rattle.i9_model.specs.Turns.{Pending};
    ghost use Rattle.i9_issue.specs.Room.{Holds};

    ghost Value = { Pending };

    ghost view = { λ b. record { last = b.last; records = reverse (take b.count b.records) } };

    ghost invariant = { λ b. Holds b.last b.until b.asked b.count b.records };
}

impl Board {
    /// The same records, and the same turns.
    pub fn copy(&self) -> Board
        ensures { result ≡ self.now }
    {
        Board {
            last: self.last,
            until: self.until,
            asked: self.asked,
            count: self.count,
            records: self.records,
        }
    }

    /// No record was placed.
    pub fn new() -> Board
        ensures { StandsFor result [] }
    {
        Board {
            last: 1,
            until: 1,
            asked: 0,
            count: 0,
            records: [TimedNeed::default(); MOST_OPEN],
        }
    }

    /// The turn at which a record of this need would issue. Turns are below 2^62 and costs below 2^32.
    #[inline(always)]
    pub fn next_turn(&self, n: &Need) -> u64
        requires cost { HasCost n.now }
        requires early { IsEarly self.now n.now }
        ensures least { IssuesAt self.now.last self.now.records n.now result }

        // The same of all records that were placed, of which this board has the open ones.
        ensures of_all { (rs : List TimedNeed) → StandsFor self.now rs → IssuesAt (last_issue rs) rs n.now result }
        ensures computed { (rs : List TimedNeed) → StandsFor self.now rs
            → result ≡ issue_turn (last_issue rs) rs n.now }
        ensures early { result < 2 ^ 62 }
    {
        let from = self.last.max(n.not_before);
        turn_by(&self.records, self.count, self.until, from, n)
    }

    /// Places a record of this need, and forgets what is done at its issue turn.
    pub fn place(&mut self, n: &Need) -> Placed
        requires cost { HasCost n.now }
        requires early { IsEarly self.old n.now }
        ensures turns { FollowsOpen self.old (placed_record n.now result) }
        ensures after { self.new ≡ pending_after self.old (placed_record n.now result) }

        // The same of all records that were placed.
        ensures of_all { (rs : List TimedNeed) → StandsFor self.old rs
            → StandsFor self.new (placed_record n.now result ∷ rs) }
        ensures computed { (rs : List TimedNeed) → StandsFor self.old rs
            → StandsFor self.new (with_need rs n.now) × (result.issue ≡ issue_turn (last_issue rs) rs n.now) }

        // Turns grow by no more than the cost.
        ensures bound { (m : ℕ) → IsAllDone self.old m → n.now.not_before ≤ m → IsAllDone self.new (m + n.now.cost) }
    {
        let issue = self.next_turn(n);
        self.place_at(n, issue)
    }

    /// The same where the turn is known at which the record issues.
    // Each step calls it, and its need is copied once where it is part of the code that calls it.
    #[inline(always)]
    pub fn place_at(&mut self, n: &Need, issue: u64) -> Placed
        requires cost { HasCost n.now }
        requires early { IsEarly self.old n.now }
        requires issue { IssuesAt self.old.last self.old.records n.now issue }
        ensures turns { FollowsOpen self.old (placed_record n.now result) }
        ensures issue { result.issue ≡ issue }
        ensures after { self.new ≡ pending_after self.old (placed_record n.now result) }

        // The same of all records that were placed.
        ensures of_all { (rs : List TimedNeed) → StandsFor self.old rs
            → StandsFor self.new (placed_record n.now result ∷ rs) }
        ensures computed { (rs : List TimedNeed) → StandsFor self.old rs
            → StandsFor self.new (with_need rs n.now) × (result.issue ≡ issue_turn (last_issue rs) rs n.now) }

        // Turns grow by no more than the cost.
        ensures bound { (m : ℕ) → IsAllDone self.old m → n.now.not_before ≤ m → IsAllDone self.new (m + n.now.cost) }
    {
        let done = done_turn(n, issue, self.asked);
        let kept = keep_open(&mut self.records, self.count, self.until, issue);
        put(&mut self.records, kept, n, issue, done);
        self.count = kept + 1;
        self.last = issue;
        self.until = self.until.max(done);
        self.asked = asked_until(n, done, self.asked);
        Placed { issue, done }
    }

    /// The least turn at which all records are done, and not below the last issue turn.
    pub fn all_done(&self) -> u64
        ensures done { IsAllDone self.now result }
        ensures least { (t : ℕ) → IsAllDone self.now t → result ≤ t }

        // The same of all records that were placed.
        ensures of_all { (rs : List TimedNeed) → StandsFor self.now rs
            → AreAllDone rs result × ((t : ℕ) → AreAllDone rs t → result ≤ t) }
        ensures computed { (rs : List TimedNeed) → StandsFor self.now rs → result ≡ end_turn rs }
    {
        self.until
    }
}

/// Whether two sides are the same.
fn same_side(a: Side, b: Side) -> bool
    ensures { result ≡ spec.same_side a b }
{
    matches!(
        (a, b),
        (Side::Reg, Side::Reg) | (Side::Mem, Side::Mem) | (Side::Ctl, Side::Ctl)
    )
}

/// Whether the need reads or writes what an earlier one writes.
fn changes_value(earlier: &Need, n: &Need) -> bool
    ensures { result ≡ spec.changes_value earlier.now n.now }
{
    earlier.writes & (n.reads | n.writes) != 0
}

/// How far `b` is behind `a`, modulo 2^32.
fn distance(a: u32, b: u32) -> u32
    ensures { result ≡ spec.distance a b }
{
    b.wrapping_sub(a)
}

/// Whether two runs of bytes have one in common.
fn overlaps(a: (u32, u32), b: (u32, u32)) -> bool
    ensures { result ≡ spec.overlaps a b }
{
    (0 < a.1 && distance(b.0, a.0) < b.1) || (0 < b.1 && distance(a.0, b.0) < a.1)
}

/// Whether an earlier store is to the need's own words.
fn changes_words(store: Option<(u32, u32)>, code: (u32, u32)) -> bool
    ensures { result ≡ spec.changes_words store code }
{
    match store {
        Some(store) => overlaps(store, code),
        None => false,
    }
}

/// Whether the need waits until the earlier one is done. Of requests only the number counts.
fn waits_for(n: &Need, earlier: &Need) -> bool
    ensures { result ≡ spec.waits_for n.now earlier.now }
{
    changes_value(earlier, n)
        || (n.slow && earlier.slow)
        || changes_words(earlier.store, n.code)
        || earlier.barrier
        || n.barrier
        || n.alone
}

/// Whether an earlier record with this side keeps the need from its own turn.
fn keeps_side(side: Side, n: &Need) -> bool
    ensures { result ≡ spec.keeps_side side n.now }
{
    same_side(side, n.side) || same_side(side, Side::Ctl)
}

/// The least turn that `r` permits, where so many requests come between it and the need.
fn least_turn(n: &Need, requests: u64, r: &TimedNeed) -> u64
    requires { r.now.issue < 2 ^ 62 }
    ensures { result ≡ spec.least_turn n.now requests r.now }
{
    let free = if keeps_side(r.need.side, n) {
        r.issue + 1
    } else {
        0
    };
    let waits = waits_for(n, &r.need) || (n.request && r.need.request && 2 <= requests);
    let there = if waits { r.done } else { 0 };
    free.max(there)
}

/// The least turn from `from` on that so many records permit, the oldest of which is the first.
#[inline(always)]
fn permitted_from(records: &[TimedNeed; MOST_OPEN], count: usize, from: u64, n: &Need) -> u64
    requires few { count ≤ 7 }
    requires early { AllByRecursion (λ r. r.issue < 2 ^ 62) (reverse (take count records.now)) }
    ensures { result ≡ turn_from n.now from 0 (reverse (take count records.now)) }
{
    let mut turn = from;
    let mut requests: u64 = 0;
    for k in 0..count {
        let r = &records[count - 1 - k];
        turn = turn.max(least_turn(n, requests, r));
        requests += u64::from(r.need.request);
    }
    turn
}

/// The turn from which the newest of so many records leaves the need its side; 0 where it does not keep it.
#[inline(always)]
fn side_from(records: &[TimedNeed; MOST_OPEN], count: usize, n: &Need) -> u64
    requires few { count ≤ 7 }
    requires early { AllByRecursion (λ r. r.issue < 2 ^ 62) (reverse (take count records.now)) }
    ensures { result ≡ side_from n.now (reverse (take count records.now)) }
{
    if count == 0 {
        return 0;
    }
    let newest = &records[count - 1];
    if keeps_side(newest.need.side, n) {
        newest.issue + 1
    } else {
        0
    }
}

/// As `permitted_from`, where all these records are done at `until`.
// Most often that is the first turn that the side leaves, and no loop is needed.
#[inline(always)]
fn turn_by(records: &[TimedNeed; MOST_OPEN], count: usize, until: u64, from: u64, n: &Need) -> u64
    requires few { count ≤ 7 }
    requires early { AllByRecursion (λ r. r.issue < 2 ^ 62) (reverse (take count records.now)) }
    requires time { AllByRecursion (λ r. r.issue < r.done) (reverse (take count records.now)) }
    requires done { AllByRecursion (λ r. r.done ≤ until) (reverse (take count records.now)) }
    ensures { result ≡ turn_from n.now from 0 (reverse (take count records.now)) }
{
    let free = from.max(side_from(records, count, n));
    if until <= free {
        free
    } else {
        permitted_from(records, count, from, n)
    }
}

/// Copies a record to a place.
// Mostly it stands there already, since no record before it is done, and nothing is copied.
fn copy_down(records: &mut [TimedNeed; MOST_OPEN], from: usize, to: usize)
    requires from { from < 7 }
    requires to { to < 7 }
    ensures { (r : TimedNeed) → records.new ≡ slice_set records.old to (slice_index_or records.old from r) }
{
    if to != from {
        records[to] = records[from];
    }
}

/// A record of a need stands at a place, with its turns.
// It is written where it stands, and copied once.
#[inline(always)]
fn put(records: &mut [TimedNeed; MOST_OPEN], at: usize, n: &Need, issue: u64, done: u64)
    requires { at < 7 }
    ensures { records.new ≡ slice_set records.old at (placed_record n.now (record { issue = issue; done = done })) }
{
    let place = &mut records[at];
    place.need = *n;
    place.issue = issue;
    place.done = done;
}

/// Moves the records that are open at `turn` to the front, of so many, and tells how many they are.
#[inline(never)]
fn move_open(records: &mut [TimedNeed; MOST_OPEN], count: usize, turn: u64) -> usize
    requires { count ≤ 7 }
    ensures kept { take result records.new ≡ open_at turn (take count records.old) }
    ensures few { result ≤ count }
    ensures whole { length records.new ≡ 7 }
{
    let mut kept: usize = 0;
    for k in 0..count {
        if turn < records[k].done {
            copy_down(records, k, kept);
            kept += 1;
        }
    }
    kept
}

/// The same, where all these records are done at `until`: mostly none is open, and there is nothing to move.
#[inline(always)]
fn keep_open(records: &mut [TimedNeed; MOST_OPEN], count: usize, until: u64, turn: u64) -> usize
    requires few { count ≤ 7 }
    requires done { AllByRecursion (λ r. r.done ≤ until) (reverse (take count records.old)) }
    ensures kept { take result records.new ≡ open_at turn (take count records.old) }
    ensures few { result ≤ count }
    ensures whole { length records.new ≡ 7 }
{
    if until <= turn {
        0
    } else {
        move_open(records, count, turn)
    }
}

/// The turn at which the last request is done, once this need is placed, which is done at `done`.
fn asked_until(n: &Need, done: u64, before: u64) -> u64
    ensures { result ≡ (if n.now.request then done else before) }
{
    if n.request { done } else { before }
}

/// The done turn of a need that issues at `turn`, where the last request is done at `before`.
fn done_turn(n: &Need, turn: u64, before: u64) -> u64
    requires turn { turn < 2 ^ 62 }
    requires before { before < 2 ^ 62 }
    requires cost { n.now.cost < 2 ^ 32 }
    ensures { result ≡ (if n.now.request then max turn before else turn) + n.now.cost }
{
    let start = if n.request { turn.max(before) } else { turn };
    start + n.cost
}
