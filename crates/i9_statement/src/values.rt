//! Values: numbers and names.
ghost use Rattle.std.specs.Prelude.{◌≡◌, ◌<◌, ◌≤◌, ◌^◌, ◌*◌, ◌+◌, Bool, true, IfSome};
ghost use Rattle.std.specs.Option.{option_map};
ghost use Rattle.std.specs.List.{list_all};
ghost use Rattle.std.specs.Char.{digit_value};
ghost use Rattle.i9_statement.specs.Known.{known_in};
ghost use Rattle.i9_statement.specs.Values.{begins_name, is_name_byte, has_name_start, is_name, is_hexadecimal};
ghost use Rattle.i9_statement.specs.Values.{is_decimal_digit, decimal_of, magnitude, in_range, number_text, named};
ghost use Rattle.i9_statement.specs.Values.{tail_number, name_text, value_of, value_noted, settled, capped};

use crate::cut::cut_sign;
use crate::fault::{Fault, Noted, fine, wrong};
use crate::known::{Known, lookup};
use crate::registers::register_place;
use i9_text::number;

/// A value, modulo 2^32.
#[derive(Clone, Copy, Debug, PartialEq, Eq)]
pub enum Value {
    /// A number without a name.
    Number(u32),
    /// A name, or a name and a number.
    Named(u32),
    /// Its number is out of range.
    Beyond,
    /// Its name is unknown.
    Unknown,
}

/// What a name has at most.
const MOST_NAME: usize = 63;

/// Where numbers are too large, however large they are.
const LIMIT: u64 = 1 << 32;

fn begins_name(byte: u8) -> bool
    ensures { result ≡ begins_name byte }
{
    matches!(byte, b'A'..=b'Z' | b'a'..=b'z' | b'_')
}

fn is_name_byte(byte: u8) -> bool
    ensures { result ≡ is_name_byte byte }
{
    begins_name(byte) || matches!(byte, b'0'..=b'9')
}

fn has_name_start(text: &[u8]) -> bool
    ensures { result ≡ has_name_start text.now }
{
    match text {
        [first, ..] => begins_name(*first),
        [] => false,
    }
}

fn all_name_bytes(text: &[u8]) -> bool
    ensures { result ≡ list_all is_name_byte text.now }
{
    text.iter().all(|byte| is_name_byte(*byte))
}

/// Whether a text is a name: at most 63 letters, digits and `_`, no digit first, and no register's
/// name and not `ip`.
#[tactic(auto, unfolding(crate::specs::Values::is_name))]
pub fn is_name(text: &[u8]) -> bool
    ensures { result ≡ is_name text.now }
{
    has_name_start(text)
        && text.len() <= MOST_NAME
        && all_name_bytes(text)
        && register_place(text).is_none()
        && text != b"ip".as_slice()
}

/// A number, or the limit where it is larger.
fn capped(n: u64) -> u64
    ensures { result ≡ capped n }
{
    if n < LIMIT { n } else { LIMIT }
}

/// One more decimal digit behind a number.
fn with_digit(n: u64, digit: u8) -> u64
    requires n { n ≤ 2 ^ 32 }
    requires digit { digit < 10 }
    ensures { result ≡ capped (n * 10 + digit) }
{
    capped(n * 10 + u64::from(digit))
}

/// The value of a digit or letter of either case, and 36 for any other byte.
fn digit(byte: u8) -> u8
    ensures { result ≡ digit_value byte }
{
    match byte {
        b'0'..=b'9' => byte - b'0',
        b'A'..=b'Z' => byte - b'A' + 10,
        b'a'..=b'z' => byte - b'a' + 10,
        _ => 36,
    }
}

/// A decimal number of any length, or the limit where it is larger.
fn decimal(text: &[u8]) -> Option<u64>
    ensures { result ≡ option_map capped (decimal_of text.now) }
{
    if text.is_empty() {
        return None;
    }
    let mut value = 0u64;
    for byte in text {
        let digit = digit(*byte);
        if digit >= 10 {
            return None;
        }
        value = with_digit(value, digit);
    }
    Some(value)
}

fn is_hexadecimal(text: &[u8]) -> bool
    ensures { result ≡ is_hexadecimal text.now }
{
    matches!(text, [b'0', b'x', ..])
}

/// A number without its sign, or the limit where it is larger.
fn magnitude(text: &[u8]) -> Option<u64>
    ensures { result ≡ option_map capped (magnitude text.now) }
{
    if is_hexadecimal(text) {
        number(&text[2..], 16, 8)
    } else {
        decimal(text)
    }
}

/// A number by whether it is negative.
fn in_range(negative: bool, n: u64) -> Value
    ensures { result ≡ in_range negative n }
{
    if negative {
        if n <= LIMIT / 2 {
            Value::Number(((LIMIT - n) % LIMIT) as u32)
        } else {
            Value::Beyond
        }
    } else if n < LIMIT {
        Value::Number(n as u32)
    } else {
        Value::Beyond
    }
}

/// A number without its sign, by whether it is negative.
fn signed(negative: bool, text: &[u8]) -> Option<Value>
    ensures { result ≡ option_map (in_range negative) (magnitude text.now) }
{
    let n = magnitude(text)?;
    Some(in_range(negative, n))
}

/// A number with or without a minus.
fn number_text(text: &[u8]) -> Option<Value>
    ensures { result ≡ number_text text.now }
{
    match text {
        [] => None,
        [b'-', rest @ ..] => signed(true, rest),
        _ => signed(false, text),
    }
}

/// The value of a name with a number.
fn named(base: Option<u32>, number: Value) -> Value
    ensures { result ≡ named base number }
{
    match (base, number) {
        (Some(base), Value::Number(n)) => Value::Named(base.wrapping_add(n)),
        (None, Value::Number(_)) => Value::Unknown,
        _ => Value::Beyond,
    }
}

/// What stands behind a name: nothing, or a sign and a number.
fn tail_number(text: &[u8]) -> Option<Value>
    ensures { result ≡ tail_number text.now }
{
    match text {
        [] => Some(Value::Number(0)),
        [sign, rest @ ..] => signed(*sign == b'-', rest),
    }
}

/// A name, perhaps with a number.
fn name_text(names: Known<'_>, name: &[u8], rest: &[u8]) -> Option<Value>
    ensures { result ≡ name_text (known_in names.entry) name.now rest.now }
{
    if !is_name(name) {
        return None;
    }
    let number = tail_number(rest)?;
    Some(named(lookup(names, name), number))
}

/// The value that a text says; None where it has no form of a value.
#[tactic(auto, unfolding(crate::specs::Values::value_of))]
pub fn value_of(names: Known<'_>, text: &[u8]) -> Option<Value>
    ensures { result ≡ value_of (known_in names.entry) text.now }
{
    if has_name_start(text) {
        let (name, rest) = cut_sign(text);
        name_text(names, name, rest)
    } else {
        number_text(text)
    }
}

/// A value, or the fault that it has.
pub fn value_noted(value: Value) -> Noted<u32>
    ensures { result ≡ value_noted value }
{
    match value {
        Value::Number(n) | Value::Named(n) => fine(n),
        Value::Beyond => wrong(Fault::Range, 0),
        Value::Unknown => wrong(Fault::UnknownName, 0),
    }
}

/// What a text says as a value, or the fault that it has.
pub fn settled(value: Option<Value>) -> Noted<u32>
    ensures { result ≡ settled value }
{
    match value {
        Some(value) => value_noted(value),
        None => wrong(Fault::Form, 0),
    }
}
