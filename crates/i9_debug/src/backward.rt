//! Going back, and what last did something before a place of a run.
ghost use Rattle.std.specs.Prelude.{◌≡◌, ◌-◌, ◌<◌, nat_eq, ℕ, List, IfOk, IfSome};
ghost use Rattle.i9_model.specs.Given.{Given};
ghost use Rattle.i9_model.specs.Run.{Record};
ghost use Rattle.i9_course.specs.Course.{records_of};
ghost use Rattle.i9_back.specs.Earlier.{HasInstructions, IsEarlier};
ghost use Rattle.i9_back.specs.Stands.{StaysAt};
ghost use Rattle.i9_back.specs.Trail.{IsTrail};
ghost use Rattle.i9_tracer.specs.Closures.{TakesEachView};
ghost use Rattle.i9_debug.specs.Last.{IsLastIn};
ghost use Rattle.i9_debug.specs.Session.{Place, count_at, last_arrival};
ghost use Rattle.i9_debug.specs.Driven.{StandsAt, IsOf, IsPlace, IsDebugged, GoneBack, change_for, given_of, target};

use crate::seeking::last_on;
use i9_back::Trail;
use i9_hex::Segments;
use i9_isa::NoMemory;
use i9_machine::Machine;
use i9_model::View;
use i9_model::layout::MAX_LENGTH;
use i9_schedule::{Command, Schedule};
use i9_tracer::{Stop, ViewTest};
use std::alloc::Global;

/// How many instructions there are up to the last one, before instruction `n`, behind which a closure holds of the
/// view, as `last` tells it. The schedule stays where it is.
fn last_by<F: Fn(&View) -> bool + ViewTest>(
    alloc: Global,
    image: &Segments,
    sets: Option<u8>,
    trail: &mut Trail,
    plan: &mut Schedule,
    n: u64,
    f: F,
) -> Result<u64, NoMemory>
    requires sets { IfSome sets (λ n. 0 < n × n < 16) }
    requires reaches { HasInstructions (given_of image.now sets plan.old) n }
    requires takes { TakesEachView (F.ViewTest.can_test f) }
    requires trail { IsTrail (given_of image.now sets plan.old) trail.old }
    ensures last { IfOk result (λ c. IsLastIn (F.ViewTest.allows f) (given_of image.now sets plan.old) n c) }
    ensures same { StaysAt plan.old plan.new }
    ensures trail { IsTrail (given_of image.now sets plan.old) trail.new }
{
    let place = plan.place();
    let found = last_on(alloc, image, sets, trail, plan, n, &Stop::new(f));
    plan.seek(place);
    found
}

/// How many instructions there are up to the last one, before instruction `n`, that left the instruction address at
/// this one; 0 where none did. The schedule stays where it is.
fn arrival(
    alloc: Global,
    image: &Segments,
    sets: Option<u8>,
    trail: &mut Trail,
    plan: &mut Schedule,
    n: u64,
    address: u32,
) -> Result<u64, NoMemory>
    requires sets { IfSome sets (λ n. 0 < n × n < 16) }
    requires reaches { HasInstructions (given_of image.now sets plan.old) n }
    requires trail { IsTrail (given_of image.now sets plan.old) trail.old }
    ensures last { IfOk result (λ c. (rs : List Record) → IsEarlier (given_of image.now sets plan.old) n rs
        → c ≡ last_arrival address n rs) }
    ensures same { StaysAt plan.old plan.new }
    ensures trail { IsTrail (given_of image.now sets plan.old) trail.new }
{
    let is_there = |v: &View|
        ensures { result ≡ nat_eq v.now.ip address }
    { v.ip == address };
    last_by(alloc, image, sets, trail, plan, n, is_there)
}

/// Goes back by so many instructions, or to before the first one. Where memory is refused nothing has changed.
pub(crate) fn back_by(
    alloc: Global,
    image: &Segments,
    sets: Option<u8>,
    trail: &mut Trail,
    m: &mut Machine,
    plan: &mut Schedule,
    count: u64,
) -> Result<(), NoMemory>
    requires sets { IfSome sets (λ n. 0 < n × n < 16) }
    requires stands { IsDebugged image.now sets m.old plan.old }
    requires trail { IsTrail (given_of image.now sets plan.old) trail.old }
    ensures gone { (g : Given) (p : Place) → IsOf image.now sets g → IsPlace g p → StandsAt g p m.old plan.old
        → GoneBack g (count_at g p - count) result (target m.old plan.old) (target m.new plan.new) }
    ensures trail { IsTrail (given_of image.now sets plan.old) trail.new }
{
    let issued = m.view().count;
    trail.go_back(
        alloc,
        image,
        sets,
        MAX_LENGTH,
        m,
        plan,
        issued.saturating_sub(count),
    )
}

/// Goes back to right after the last instruction before the present one that left the instruction address at this one,
/// or to before the first one. Where memory is refused nothing has changed.
pub(crate) fn back_to(
    alloc: Global,
    image: &Segments,
    sets: Option<u8>,
    trail: &mut Trail,
    m: &mut Machine,
    plan: &mut Schedule,
    address: u32,
) -> Result<(), NoMemory>
    requires sets { IfSome sets (λ n. 0 < n × n < 16) }
    requires stands { IsDebugged image.now sets m.old plan.old }
    requires trail { IsTrail (given_of image.now sets plan.old) trail.old }
    ensures gone { (g : Given) (p : Place) → IsOf image.now sets g → IsPlace g p → StandsAt g p m.old plan.old
        → GoneBack g (last_arrival address (count_at g p) (records_of p.items)) result (target m.old plan.old)
        (target m.new plan.new) }
    ensures trail { IsTrail (given_of image.now sets plan.old) trail.new }
{
    let issued = m.view().count;
    let count = arrival(alloc, image, sets, trail, plan, issued, address)?;
    trail.go_back(alloc, image, sets, MAX_LENGTH, m, plan, count)
}

/// What a command tells of the last change of a byte, if anything. The schedule stays where it is.
pub(crate) fn change_told(
    alloc: Global,
    image: &Segments,
    sets: Option<u8>,
    trail: &mut Trail,
    m: &Machine,
    plan: &mut Schedule,
    c: &Command,
) -> Result<Option<(u64, u32)>, NoMemory>
    requires sets { IfSome sets (λ n. 0 < n × n < 16) }
    requires stands { IsDebugged image.now sets m.now plan.old }
    requires trail { IsTrail (given_of image.now sets plan.old) trail.old }
    ensures change { (g : Given) (p : Place) → IsOf image.now sets g → IsPlace g p → StandsAt g p m.now plan.old
        → IfOk result (λ o. o ≡ change_for c.now (records_of p.items)) }
    ensures same { StaysAt plan.old plan.new }
    ensures trail { IsTrail (given_of image.now sets plan.old) trail.new }
{
    match c {
        Command::Who(a) => {
            let place = plan.place();
            let issued = m.view().count;
            let change = trail.last_change(alloc, image, sets, MAX_LENGTH, plan, issued, *a);
            plan.seek(place);
            change
        }
        _ => Ok(None),
    }
}
