//! Branch targets.
ghost use Rattle.std.specs.Prelude.{◌≡◌};
ghost use Rattle.i9_statement.specs.Known.{known_in};
ghost use Rattle.i9_isa.specs.Valid.{is_within};
ghost use Rattle.i9_statement.specs.Targets.{distance, reach, if_reached, target_by, target_of};

use crate::{Fault, Known, Noted, Value, fine, value_of, wrong};
use i9_isa::Format;

/// How far a target is from an address, modulo 2^32 as a signed number.
fn distance(ip: u32, target: u32) -> i32
    ensures { result ≡ distance ip target }
{
    target.wrapping_sub(ip).cast_signed()
}

/// Whether a displacement of this format can say how far a target is.
fn is_reached(format: Format, distance: i32) -> bool
    ensures { result ≡ is_within (reach format) distance }
{
    let limit = if matches!(format, Format::Cobr) {
        1 << 12
    } else {
        1 << 23
    };
    -limit <= distance && distance < limit && distance % 4 == 0
}

/// A displacement, if the format can say it.
fn if_reached(format: Format, distance: i32) -> Noted<i32>
    ensures { result ≡ if_reached format distance }
{
    if is_reached(format, distance) {
        fine(distance)
    } else {
        wrong(Fault::Target, 0)
    }
}

/// The displacement from ip to the target that a text says.
#[tactic(auto, unfolding(crate::specs::Targets::target_of))]
pub(crate) fn target_of(ip: u32, format: Format, names: Known<'_>, text: &[u8]) -> Noted<i32>
    ensures { result ≡ target_of ip format (known_in names.entry) text.now }
{
    match value_of(names, text) {
        Some(Value::Number(n) | Value::Named(n)) => if_reached(format, distance(ip, n)),
        Some(Value::Beyond) => wrong(Fault::Range, 0),
        Some(Value::Unknown) => wrong(Fault::UnknownName, 0),
        None => wrong(Fault::Form, 0),
    }
}
