//! What a barrier hides and what a pipeline lands, worked out by hand.
ghost use Rattle.std.specs.Prelude.{◌≡◌, IfOk, []};
ghost use Rattle.i9_model.specs.HeldFrames.{AreWhole};
ghost use Rattle.i9_model.specs.Turns.{StandsFor};
ghost use Rattle.i9_processor.specs.State.{cache_of};

use crate::check::same_at;
use crate::run::put_words;
use crate::script::columns;
use crate::told::{add, bytes_text};
use arrayvec::ArrayVec;
use i9_hex::Segments;
use i9_isa::Side;
use i9_model::Need;
use i9_pipeline::{Pipeline, hide};
use i9_processor::{Effect, Processor, Requests};
use i9_shade::Shade;
use std::alloc::Global;
use std::test::*;

/// A processor that has the bytes 11, 22, 33 and 44 at 300, and holds no frame.
fn processor(alloc: Global) -> Result<Processor, Fail>
    ensures { IfOk result (λ p. AreWhole (cache_of p).held) }
{
    let mut image = Segments::new(alloc);
    put_words(alloc, &mut image, "300 44332211")?;
    Ok(Processor::boot(alloc, &image, None)?)
}

/// A need, of a barrier or a request or neither or both.
fn need(barrier: bool, request: bool) -> Need {
    Need {
        barrier,
        request,
        ..Need::default()
    }
}

/// An effect that stores four bytes at 300, and one of a request of software at 310.
fn stores() -> Result<Effect, Fail> {
    let mut effect = Effect::blank();
    effect.plain = false;
    effect.address = 0x300;
    if effect.bytes.try_extend_from_slice(&[1, 2, 3, 4]).is_err() {
        return Err("no room".into());
    }
    effect.requests = Requests {
        first: None,
        second: Some((0x310, 7)),
    };
    Ok(effect)
}

/// What each row hides up to a turn, and the bytes at 300, 303, 304 and 310 that show at 1, 8 and 9. A request hides
/// nothing, though it is a barrier, and neither does what is no barrier. A barrier hides what stood there, and the
/// next one takes its place.
const HIDES: &str = "\
a request            | request 9 | none none none none, none none none none, none none none none
both                 | both 9    | none none none none, none none none none, none none none none
neither              | neither 9 | none none none none, none none none none, none none none none
a barrier            | barrier 9 | 11 44 none 0, 11 44 none 0, none none none none
one without a store  | nothing 20 | none none none none, none none none none, none none none none
";

/// Hides what stood there up to a turn, as a row says.
fn hides(p: &Processor, shade: &mut Shade, name: &str, done: u64) -> Result<(), Fail>
    requires { AreWhole (cache_of p.now).held }
{
    match name {
        "request" => hide(p, &stores()?, &need(false, true), done, shade),
        "both" => hide(p, &stores()?, &need(true, true), done, shade),
        "neither" => hide(p, &stores()?, &need(false, false), done, shade),
        "barrier" => hide(p, &stores()?, &need(true, false), done, shade),
        "nothing" => hide(p, &Effect::blank(), &need(true, false), done, shade),
        _ => return Err("no such row".into()),
    }
    Ok(())
}

/// What a shade shows at three turns.
fn shown(alloc: Global, shade: &Shade) -> Result<String, Fail> {
    let mut text = String::new(alloc);
    for turn in [1, 8, 9] {
        let bytes = [
            shade.look(0x300, turn),
            shade.look(0x303, turn),
            shade.look(0x304, turn),
            shade.look(0x310, turn),
        ];
        add(&mut text, &bytes_text(alloc, bytes.as_slice())?)?;
    }
    Ok(text)
}

#[test]
fn hides_what_a_barrier_stores(rt: HostRuntime) -> Result<(), Fail> {
    let p = processor(rt.alloc())?;
    let mut shade = Shade::new();
    for row in HIDES.lines() {
        let (step, wanted) = columns(row)?;
        let (name, done) = step.split_once(" ").unwrap_or((step, ""));
        hides(&p, &mut shade, name, done.parse::<u64>()?)?;
        same_at(&rt, shown(rt.alloc(), &shade)?.as_str(), wanted, row);
    }
    Ok(())
}

/// A record issues that sets r4, and whose need says that it may write anything. It takes three turns.
#[tactic(auto, unfolding(i9_model::specs::Hazards::writes_hazard))]
fn sets(p: &mut Pipeline, value: u32) -> Result<(), Fail>
    requires board { StandsFor p.old.board [] }
    requires held { AreWhole (cache_of p.old.processor).held }
{
    if p.processor.count() > 100 {
        return Err("too many".into());
    }
    let mut values = ArrayVec::new();
    values.push(value);
    let effect = Effect::setting(&p.processor, 0x1004, 4, values);
    p.processor.reserve(&effect, false)?;
    let need = Need {
        side: Side::Reg,
        reads: 0,
        writes: u64::MAX,
        request: false,
        store: None,
        slow: true,
        barrier: false,
        alone: false,
        cost: 3,
        code: (0x1000, 4),
        not_before: 0,
    };
    let turn = p.board.next_turn(&need);
    p.issue(&need, turn, &effect, false, 1, None);
    Ok(())
}

/// A pipeline in which a record has issued at turn 1, which sets r4 to 77 and is done at 4.
fn issued(alloc: Global) -> Result<Pipeline, Fail> {
    let mut p = Pipeline::new(processor(alloc)?);
    sets(&mut p, 77)?;
    Ok(p)
}

/// The turn with what shows at it: r4, the set of registers that are open, and the byte at 300; and the turn of the
/// last fence.
fn shows(p: &Pipeline) -> (u64, u32, u32, u8, u64) {
    let registers = p.processor.raw_registers(p.turn);
    let busy = p.processor.busy_registers(p.turn);
    (p.turn, registers[4], busy, p.raw_byte(0x300), p.floor)
}

#[test]
fn lands_what_issued(rt: HostRuntime) -> Result<(), Fail> {
    let mut p = issued(rt.alloc())?;
    assert_eq!(rt; shows(&p), (1, 0, u32::MAX, 0x11, 0));
    let mut other = p.copy(rt.alloc())?;
    p.move_to(3);
    assert_eq!(rt; shows(&p), (3, 0, u32::MAX, 0x11, 0));
    p.settle(true);
    assert_eq!(rt; shows(&p), (4, 77, 0, 0x11, 4));
    assert_eq!(rt; shows(&other), (1, 0, u32::MAX, 0x11, 0));
    other.settle(false);
    assert_eq!(rt; shows(&other), (4, 77, 0, 0x11, 0));
    Ok(())
}
