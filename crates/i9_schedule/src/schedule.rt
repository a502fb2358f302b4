//! A schedule: its events in order, and how many of them were reached.
ghost use Rattle.std.specs.Prelude.{◌≡◌, ◌+◌, ◌<◌, ◌≤◌, length, IfSome};
ghost use Rattle.std.specs.Option.{option_copied};
ghost use Rattle.std.specs.List.{slice_get};
ghost use Rattle.i9_model.specs.ScheduleText.{IsVersion, AreOfVersion, IsPlan, IsTimedInRange};

use i9_model::Timed;
use std::marker::Model;

/// Its version, events in order, and the place of the next one among them.
#[derive(Debug, Drop)]
pub struct Schedule {
    version: u8,
    events: Vec<Timed>,
    place: usize,
}

impl Model for Schedule {
    ghost use Rattle.std.specs.Prelude.{◌≤◌, length};
    ghost use Rattle.i9_model.specs.ScheduleText.{IsVersion, AreOfVersion, IsPlan};
    ghost use Rattle.i9_schedule.specs.Plan.{Plan};

    ghost Value = { Plan };

    ghost view = { λ s. record { version = s.version; events = s.events.items; place = s.place } };

    ghost invariant = { λ s. (s.place ≤ length s.events.items) × IsPlan s.events.items
        × IsVersion s.version × AreOfVersion s.version s.events.items };
}

impl Schedule {
    pub(crate) fn new(version: u8, events: Vec<Timed>) -> Schedule
        requires plan { IsPlan events.items }
        requires version { IsVersion version }
        requires of_version { AreOfVersion version events.items }
        ensures version { result.version ≡ version }
        ensures events { result.events ≡ events.items }
        ensures place { result.place ≡ 0 }
    {
        Schedule {
            version,
            events,
            place: 0,
        }
    }

    /// Its version, 1 or 2: one of version 2 may have the levels of pins.
    pub fn version(&self) -> u8
        ensures value { result ≡ self.now.version }
        ensures known { IsVersion self.now.version }
        ensures events { AreOfVersion self.now.version self.now.events }
    {
        self.version
    }

    /// The next event, where there is one.
    pub fn next(&self) -> Option<&Timed>
        ensures event { option_copied result ≡ slice_get self.now.events self.now.place }
        // So `journal_line` may print it.
        ensures ranges { IfSome result (λ t. IsTimedInRange t.now) }
    {
        self.events.get(self.place)
    }

    /// How many of its events lie behind.
    pub fn place(&self) -> u64
        ensures place { result ≡ self.now.place }
        ensures within { result ≤ length self.now.events }
    {
        self.place as u64
    }

    /// Goes on to the event behind the next one.
    pub fn step(&mut self)
        requires { self.old.place < length self.old.events }
        ensures { self.new ≡ record self.old { place = self.old.place + 1 } }
    {
        self.place += 1;
    }

    /// Goes to the place behind so many events. No memory is asked for.
    pub fn seek(&mut self, place: u64)
        requires { place ≤ length self.old.events }
        ensures { self.new ≡ record self.old { place = place } }
    {
        self.place = place as usize;
    }

    /// Goes back to the first event. No memory is asked for.
    pub fn rewind(&mut self)
        ensures first { self.new ≡ record self.old { place = 0 } }
        // So a new machine stands for the empty list of the run with these events.
        ensures plan { IsPlan self.new.events }
    {
        self.place = 0;
    }
}
