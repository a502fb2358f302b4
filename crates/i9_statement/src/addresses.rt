//! Addresses of the memory format.
ghost use Rattle.std.specs.Prelude.{◌≡◌, ◌<◌, IfSome, MatchOption, None, Some};
ghost use Rattle.i9_statement.specs.Known.{known_in};
ghost use Rattle.i9_statement.specs.Cut.{before, from};
ghost use Rattle.i9_statement.specs.Addresses.{opens, base_named, base_of, scale_of, scaled_register, if_last};
ghost use Rattle.i9_statement.specs.Addresses.{index_of, front_of, is_short, mode_of, disp_part, plain_register};
ghost use Rattle.i9_statement.specs.Addresses.{base_part, index_part, scale_part, address_by, with_index, with_base};
ghost use Rattle.i9_statement.specs.Addresses.{address_behind, address_of};

use crate::parts::{Base, Front, Index};
use crate::{
    Fault, Known, Noted, Value, behind, closed, cut_byte, cut_where, fine, least, register_at,
    register_place, value_noted, value_of, wrong,
};
use i9_isa::{Ea, Mode, NO_ADDRESS, Operand};

/// `ip` or a register.
fn base_named(text: &[u8]) -> Option<Base>
    ensures { result ≡ base_named text.now }
{
    if text == b"ip".as_slice() {
        return Some(Base::Ip);
    }
    let place = register_place(text)?;
    Some(Base::Register(place))
}

/// The base in round brackets, if there is one, and what stands behind it.
#[tactic(auto, unfolding(crate::specs::Addresses::base_of))]
fn base_of(text: &[u8]) -> Option<(Base, &[u8])>
    ensures { MatchOption result (base_of text.now ≡ None) (λ b. base_of text.now ≡ Some (b.0, b.1.now)) }
{
    match text {
        [b'(', rest @ ..] => {
            let (inside, after) = closed(rest, b')')?;
            let base = base_named(inside)?;
            Some((base, after))
        }
        _ => Some((Base::Nothing, text)),
    }
}

/// A scale as a power of 2.
#[tactic(auto, unfolding(crate::specs::Addresses::scale_of))]
fn scale_of(text: &[u8]) -> Option<u8>
    ensures { result ≡ scale_of text.now }
{
    match text {
        [b'1'] => Some(0),
        [b'2'] => Some(1),
        [b'4'] => Some(2),
        [b'8'] => Some(3),
        [b'1', b'6'] => Some(4),
        _ => None,
    }
}

/// A register, `*` and a scale.
fn scaled_register(text: &[u8]) -> Option<Index>
    ensures { result ≡ scaled_register text.now }
{
    let (name, rest) = cut_byte(text, b'*');
    let scale = behind(rest, b'*')?;
    let register = register_place(name)?;
    let scale = scale_of(scale)?;
    Some(Index::Scaled(register, scale))
}

/// The index in square brackets, if there is one, and nothing behind it.
#[tactic(auto, unfolding(crate::specs::Addresses::index_of))]
fn index_of(text: &[u8]) -> Option<Index>
    ensures { result ≡ index_of text.now }
{
    match text {
        [] => Some(Index::Nothing),
        [b'[', rest @ ..] => {
            let (inside, after) = closed(rest, b']')?;
            if after.is_empty() {
                scaled_register(inside)
            } else {
                None
            }
        }
        _ => None,
    }
}

/// What stands before the brackets.
fn front_of(names: Known<'_>, text: &[u8]) -> Front
    ensures { result ≡ front_of (known_in names.entry) text.now }
{
    if text.is_empty() {
        return Front::Absent;
    }
    match value_of(names, text) {
        Some(value) => Front::Valued(value),
        None => Front::Malformed,
    }
}

/// Whether a value is a number without a name from 0 to 4095.
fn is_short(value: Value) -> bool
    ensures { result ≡ is_short value }
{
    match value {
        Value::Number(n) => n < 4096,
        _ => false,
    }
}

/// The mode by `!`, what stands before the brackets, the base and the index.
fn mode_of(forced: bool, front: Front, base: Base, index: Index) -> Option<Mode>
    ensures { result ≡ mode_of forced front base index }
{
    match (forced, front, base, index) {
        (false, Front::Absent, Base::Register(_), Index::Nothing) => Some(Mode::BaseOffset),
        (true, Front::Absent, Base::Register(_), Index::Nothing) => Some(Mode::Base),
        (false, Front::Absent, Base::Register(_), Index::Scaled(_, _)) => Some(Mode::BaseIndex),
        (false, Front::Valued(value), Base::Nothing, Index::Nothing) => {
            Some(if is_short(value) {
                Mode::Offset
            } else {
                Mode::Disp
            })
        }
        (true, Front::Valued(_), Base::Nothing, Index::Nothing) => Some(Mode::Disp),
        (false, Front::Valued(value), Base::Register(_), Index::Nothing) => Some(if is_short(
            value,
        ) {
            Mode::BaseOffset
        } else {
            Mode::BaseDisp
        }),
        (true, Front::Valued(_), Base::Register(_), Index::Nothing) => Some(Mode::BaseDisp),
        (false, Front::Valued(_), Base::Ip, Index::Nothing) => Some(Mode::Ip),
        (false, Front::Valued(_), Base::Nothing, Index::Scaled(_, _)) => Some(Mode::IndexDisp),
        (false, Front::Valued(_), Base::Register(_), Index::Scaled(_, _)) => {
            Some(Mode::BaseIndexDisp)
        }
        _ => None,
    }
}

/// The displacement or the offset.
fn disp_part(front: Front) -> Noted<u32>
    ensures { result ≡ disp_part front }
{
    match front {
        Front::Valued(value) => value_noted(value),
        _ => fine(0),
    }
}

/// A register of the processor's 32, by the place of its name; sf0 to sf2 are none.
fn plain_register(place: u8) -> Noted<u8>
    ensures { result ≡ plain_register place }
{
    match register_at(place) {
        Operand::Reg(register) => fine(register),
        _ => wrong(Fault::Register, 0),
    }
}

/// The base register.
fn base_part(base: Base) -> Noted<u8>
    ensures { result ≡ base_part base }
{
    match base {
        Base::Register(place) => plain_register(place),
        _ => fine(0),
    }
}

/// The index register.
fn index_part(index: Index) -> Noted<u8>
    ensures { result ≡ index_part index }
{
    match index {
        Index::Scaled(place, _) => plain_register(place),
        Index::Nothing => fine(0),
    }
}

/// The scale as a power of 2.
fn scale_part(index: Index) -> u8
    ensures { result ≡ scale_part index }
{
    match index {
        Index::Scaled(_, scale) => scale,
        Index::Nothing => 0,
    }
}

/// An address of a mode and its parts.
fn address_by(mode: Option<Mode>, front: Front, base: Base, index: Index) -> Noted<Ea>
    ensures { result ≡ address_by mode front base index }
{
    let Some(mode) = mode else {
        return wrong(Fault::Form, NO_ADDRESS);
    };
    let register = base_part(base);
    let scaled = index_part(index);
    let disp = disp_part(front);
    Noted {
        value: Ea {
            mode,
            base: register.value,
            index: scaled.value,
            scale: scale_part(index),
            disp: disp.value,
        },
        fault: least(register.fault, least(scaled.fault, disp.fault)),
    }
}

/// A text before the first bracket that opens, and from it on.
fn cut_bracket(text: &[u8]) -> (&[u8], &[u8])
    ensures front { result.0.now ≡ before opens text.now }
    ensures back { result.1.now ≡ from opens text.now }
{
    cut_where(text, |byte| byte == b'(' || byte == b'[')
}

/// An address behind `!`, or without it.
#[tactic(auto, unfolding(crate::specs::Addresses::address_behind))]
fn address_behind(forced: bool, names: Known<'_>, text: &[u8]) -> Noted<Ea>
    ensures { result ≡ address_behind forced (known_in names.entry) text.now }
{
    let (front, rest) = cut_bracket(text);
    let front = front_of(names, front);
    let malformed = wrong(Fault::Form, NO_ADDRESS);
    let Some((base, rest)) = base_of(rest) else {
        return malformed;
    };
    let Some(index) = index_of(rest) else {
        return malformed;
    };
    address_by(mode_of(forced, front, base, index), front, base, index)
}

/// The address that a text says.
#[tactic(auto, unfolding(crate::specs::Addresses::address_of))]
pub(crate) fn address_of(names: Known<'_>, text: &[u8]) -> Noted<Ea>
    ensures { result ≡ address_of (known_in names.entry) text.now }
{
    match text {
        [b'!', rest @ ..] => address_behind(true, names, rest),
        _ => address_behind(false, names, text),
    }
}
