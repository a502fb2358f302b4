//! Going to an earlier state of a run, by doing the run again.
ghost use Rattle.std.specs.Prelude.{◌≡◌, ◌<◌, ◌≤◌, if◌then◌else◌, ℕ, Some, IfOk, IfSome, OnOk};
ghost use Rattle.i9_model.specs.declared.layout.TheConstants.{MAX_LENGTH};
ghost use Rattle.i9_model.specs.Given.{Given, given};
ghost use Rattle.i9_model.specs.Image.{pairs_of};
ghost use Rattle.i9_back.specs.Earlier.{HasInstructions};
ghost use Rattle.i9_back.specs.Stands.{StandsEarlier, CanGoOn, same_byte, Watched, IsLastChange};

use i9_hex::Segments;
use i9_isa::NoMemory;
use i9_machine::{Machine, Turn};
use i9_schedule::Schedule;
use std::alloc::Global;

/// Goes on from the state after `from` instructions to the one after `to`. The schedule follows the machine. Where
/// memory is refused the machine stands somewhere between, and the schedule has the same events.
pub fn forward(
    alloc: Global,
    m: &mut Machine,
    plan: &mut Schedule,
    from: u64,
    to: u64,
) -> Result<(), NoMemory>
    requires order { from ≤ to }
    requires stands { CanGoOn from to m.old plan.old }
    ensures stands { (g : Given) → StandsEarlier g from m.old plan.old
        → OnOk result (StandsEarlier g to m.new plan.new) }
    ensures events { plan.new.events ≡ plan.old.events }
{
    let mut lines = Vec::new(alloc);
    let mut done = from;
    'steps: while done < to {
        lines.clear();
        match m.proceed(plan, &mut lines) {
            Turn::On => {}
            Turn::Issued(_) => done += 1,
            // The run has as many instructions, so it does not end before.
            Turn::End(_) => unreachable!(),
            Turn::Memory => return Err(NoMemory),
        }
    }
    Ok(())
}

/// The machine of a run right after its instruction `c` has issued, or before the first one where `c` is 0; the
/// schedule is left behind the events that were reached by then. Where memory is refused it has the same events, and
/// its place is open. The run is done again from its start.
pub fn replay(
    alloc: Global,
    image: &Segments,
    sets: Option<u8>,
    length: u64,
    plan: &mut Schedule,
    c: u64,
) -> Result<Machine, NoMemory>
    requires sets { IfSome sets (λ n. 0 < n × n < 16) }
    requires length { length ≤ MAX_LENGTH }
    requires reaches { HasInstructions (given (pairs_of image.now) plan.old.events length sets) c }
    ensures stands { IfOk result
        (λ m. StandsEarlier (given (pairs_of image.now) plan.old.events length sets) c m plan.new) }
    ensures events { plan.new.events ≡ plan.old.events }
{
    plan.rewind();
    let mut m = Machine::new(alloc, image, sets, length)?;
    forward(alloc, &mut m, plan, 0, c)?;
    Ok(m)
}

/// Whether two bytes are the same, or none of them is compared.
fn is_same(x: Option<u8>, y: Option<u8>) -> bool
    ensures { result ≡ same_byte x y }
{
    match (x, y) {
        (None, None) => true,
        (Some(x), Some(y)) => x == y,
        _ => false,
    }
}

/// The last change, once an instruction more has left a byte so.
fn newer_change(
    found: Option<(u64, u32)>,
    before: Option<u8>,
    after: Option<u8>,
    change: (u64, u32),
) -> Option<(u64, u32)>
    ensures { result ≡ (if same_byte before after then found else Some change) }
{
    if is_same(before, after) {
        found
    } else {
        Some(change)
    }
}

/// Goes on as `forward` does, and tells of the instructions on the way the last one whose step changed the byte at an
/// address: how many there are up to it, and its address.
pub fn watch(
    alloc: Global,
    m: &mut Machine,
    plan: &mut Schedule,
    from: u64,
    to: u64,
    a: u32,
) -> Result<Option<(u64, u32)>, NoMemory>
    requires order { from ≤ to }
    requires stands { CanGoOn from to m.old plan.old }
    ensures found { (g : Given) → (s : StandsEarlier g from m.old plan.old)
        → IfOk result (λ o. Watched g s.records to a o m.new plan.new) }
    ensures events { plan.new.events ≡ plan.old.events }
{
    let mut lines = Vec::new(alloc);
    let mut done = from;
    let mut found = None;
    let mut before = m.byte(a);
    'steps: while done < to {
        lines.clear();
        match m.proceed(plan, &mut lines) {
            Turn::On => before = m.byte(a),
            Turn::Issued(issued) => {
                done += 1;
                let after = m.byte(a);
                found = newer_change(found, before, after, (done, issued.address));
                before = after;
            }
            // The run has as many instructions, so it does not end before.
            Turn::End(_) => unreachable!(),
            Turn::Memory => return Err(NoMemory),
        }
    }
    Ok(found)
}

/// The last one of a run's first `n` instructions whose step changed the byte at an address: how many there are up to
/// it, and its address; `None` exactly where none did. The schedule is left as by `replay`.
pub fn last_change(
    alloc: Global,
    image: &Segments,
    sets: Option<u8>,
    length: u64,
    plan: &mut Schedule,
    n: u64,
    a: u32,
) -> Result<Option<(u64, u32)>, NoMemory>
    requires sets { IfSome sets (λ n. 0 < n × n < 16) }
    requires length { length ≤ MAX_LENGTH }
    requires reaches { HasInstructions (given (pairs_of image.now) plan.old.events length sets) n }
    ensures found { IfOk result
        (λ o. IsLastChange (given (pairs_of image.now) plan.old.events length sets) n a o plan.new) }
    ensures events { plan.new.events ≡ plan.old.events }
{
    plan.rewind();
    let mut m = Machine::new(alloc, image, sets, length)?;
    watch(alloc, &mut m, plan, 0, n, a)
}
