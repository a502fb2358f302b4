//! The command that words say.
ghost use Rattle.std.specs.Prelude.{◌≡◌, ◌≤◌, IfSome};
ghost use Rattle.i9_text.specs.Text.{words_of};
ghost use Rattle.i9_model.specs.Events.{decimal_in, address_of};
ghost use Rattle.i9_schedule.specs.CommandLines.{bare_of, number_of, place_of, piece_of, command_of};

use crate::command::Command;
use crate::kinds::{BAD_OPERAND, UNKNOWN_COMMAND};
use crate::{number_in, one_word, two_words};
use i9_text::split_word;

const MOST_TURNS: u64 = 1_000_000;

/// How many instructions `back` goes back at most.
const MOST_BACK: u64 = 10_000_000;

const LAST_ADDRESS: u64 = 0xFFFF_FFFF;

/// How many bytes `mem` and `rawmem` tell at most.
const MOST_BYTES: u64 = 64;

/// The decimal number of a word of one to ten digits, from 1 on.
fn decimal(word: &[u8], high: u64) -> Option<u64>
    ensures value { result ≡ decimal_in 1 high word.now }
    ensures inside { IfSome result (λ n. n ≤ high) }
{
    number_in(word, 10, 10, 1, high)
}

/// The address of a word of one to eight hexadecimal digits.
fn address(word: &[u8]) -> Option<u32>
    ensures { result ≡ address_of word.now }
{
    let address = number_in(word, 16, 8, 0, LAST_ADDRESS)?;
    Some(address as u32)
}

/// A command that has no operands.
fn bare(words: &[u8], command: Command) -> Option<Command>
    ensures { result ≡ bare_of command (words_of words.now) }
{
    match split_word(words) {
        Some(_) => None,
        None => Some(command),
    }
}

/// The operand of `turn` and `back`: a number from 1 on.
#[tactic(auto, unfolding(crate::specs::CommandLines::number_of))]
fn number(words: &[u8], high: u64) -> Option<u64>
    ensures { result ≡ number_of high (words_of words.now) }
{
    decimal(one_word(words)?, high)
}

/// The operand of `until`, `last` and `who`: an address.
#[tactic(auto, unfolding(crate::specs::CommandLines::place_of))]
fn place(words: &[u8]) -> Option<u32>
    ensures { result ≡ place_of (words_of words.now) }
{
    address(one_word(words)?)
}

/// The operands of `mem` and `rawmem`: an address, and how many bytes.
#[tactic(auto, unfolding(crate::specs::CommandLines::piece_of))]
fn piece(words: &[u8]) -> Option<(u32, u8)>
    ensures { result ≡ piece_of (words_of words.now) }
{
    let (start, length) = two_words(words)?;
    let start = address(start)?;
    let length = decimal(length, MOST_BYTES)?;
    Some((start, length as u8))
}

/// The command that words say, or the kind of their fault.
#[tactic(auto, unfolding(crate::specs::CommandLines::command_of))]
pub(crate) fn command(words: &[u8]) -> Result<Command, u8>
    ensures { result ≡ command_of (words_of words.now) }
{
    let (name, operands) = split_word(words).ok_or(UNKNOWN_COMMAND)?;
    if name == b"turn".as_slice() {
        Ok(Command::Turn(number(operands, MOST_TURNS).ok_or(BAD_OPERAND)?))
    } else if name == b"until".as_slice() {
        Ok(Command::Until(place(operands).ok_or(BAD_OPERAND)?))
    } else if name == b"regs".as_slice() {
        bare(operands, Command::Regs).ok_or(BAD_OPERAND)
    } else if name == b"raw".as_slice() {
        bare(operands, Command::Raw).ok_or(BAD_OPERAND)
    } else if name == b"held".as_slice() {
        bare(operands, Command::Held).ok_or(BAD_OPERAND)
    } else if name == b"mem".as_slice() {
        let (start, length) = piece(operands).ok_or(BAD_OPERAND)?;
        Ok(Command::Mem(start, length))
    } else if name == b"rawmem".as_slice() {
        let (start, length) = piece(operands).ok_or(BAD_OPERAND)?;
        Ok(Command::RawMem(start, length))
    } else if name == b"back".as_slice() {
        Ok(Command::Back(number(operands, MOST_BACK).ok_or(BAD_OPERAND)?))
    } else if name == b"last".as_slice() {
        Ok(Command::Last(place(operands).ok_or(BAD_OPERAND)?))
    } else if name == b"who".as_slice() {
        Ok(Command::Who(place(operands).ok_or(BAD_OPERAND)?))
    } else {
        Err(UNKNOWN_COMMAND)
    }
}
