//! What a command tells of the place at which a machine stands.
ghost use Rattle.std.specs.Prelude.{◌≡◌, ◌++◌, List, Option, IfOk, OnOk};
ghost use Rattle.i9_model.specs.Given.{Given};
ghost use Rattle.i9_model.specs.Run.{Finish};
ghost use Rattle.i9_course.specs.Course.{Item, records_of};
ghost use Rattle.i9_machine.specs.StandsFor.{StandsFor};
ghost use Rattle.i9_debug.specs.Session.{told};
ghost use Rattle.i9_debug.specs.Driven.{change_for};

use i9_lines::{
    add_bytes_line, add_change, add_held, add_raw, add_raw_bytes, add_turn, add_view, shown_bytes,
    standing_bytes,
};
use i9_machine::Machine;
use i9_schedule::Command;
use std::alloc::{AllocError, Global};

/// Appends what a command tells of the place at which a machine stands, with the last change of a byte where it tells
/// one.
fn add_told(
    alloc: Global,
    text: &mut Vec<u8>,
    m: &Machine,
    c: &Command,
    change: Option<(u64, u32)>,
) -> Result<(), AllocError>
    ensures { OnOk result ((g : Given) (h : List Item) (end : Option Finish) → StandsFor g h end m.now
        → change ≡ change_for c.now (records_of h)
        → text.new.items ≡ text.old.items ++ told g h m.now.pipeline.turn c.now) }
{
    match c {
        Command::Turn(_) | Command::Until(_) | Command::Back(_) | Command::Last(_) => {
            add_turn(alloc, text, m.raw().turn, m.view().count)
        }
        Command::Regs => add_view(alloc, text, &m.view()),
        Command::Raw => add_raw(alloc, text, &m.raw()),
        Command::Held => add_held(alloc, text, m.held()),
        Command::Mem(a, n) => {
            let list = shown_bytes(alloc, m, *a, *n)?;
            add_bytes_line(text, *a, &list)
        }
        Command::RawMem(a, n) => {
            let list = standing_bytes(alloc, m, *a, *n)?;
            add_raw_bytes(text, *a, &list)
        }
        Command::Who(_) => add_change(alloc, text, change),
    }
}

/// What a command tells of the place at which a machine stands, with the last change of a byte where it tells one.
pub(crate) fn told_text(
    alloc: Global,
    m: &Machine,
    c: &Command,
    change: Option<(u64, u32)>,
) -> Result<Vec<u8>, AllocError>
    ensures { IfOk result (λ t. (g : Given) (h : List Item) (end : Option Finish) → StandsFor g h end m.now
        → change ≡ change_for c.now (records_of h) → t.items ≡ told g h m.now.pipeline.turn c.now) }
{
    let mut text = Vec::new(alloc);
    add_told(alloc, &mut text, m, c, change)?;
    Ok(text)
}
