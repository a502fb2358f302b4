//! The event that words say.
ghost use Rattle.std.specs.Prelude.{◌≡◌, ◌*◌, ◌≤◌, length, IfSome};
ghost use Rattle.std.specs.Option.{option_map};
ghost use Rattle.std.specs.Result.{result_ok};
ghost use Rattle.hex.specs.Hex.{decode_of};
ghost use Rattle.i9_text.specs.Text.{words_of};
ghost use Rattle.i9_model.specs.Events.{decimal_in, bytes_in, pin_of, low_of, high_of, nmi_of, dma_of, feed_of};
ghost use Rattle.i9_model.specs.Events.{show_of, level_event_of, event_of};

use crate::error::{BAD_OPERAND, UNKNOWN_EVENT};
use crate::version::LEVELS_VERSION;
use crate::words::{number_in, one_word, two_words};
use arrayvec::ArrayVec;
use hex::FromHex;
use i9_model::Event;
use i9_text::split_word;

const LAST_PIN: u64 = 7;

const LAST_CHANNEL: u64 = 3;

const LAST_ADDRESS: u64 = 0xFFFF_FFFF;

/// How many bytes a `show` event has at most.
const MOST_SHOWN: u64 = 64;

/// The decimal number of a word of one to ten digits, in a range.
fn decimal_in(word: &[u8], low: u64, high: u64) -> Option<u64>
    ensures value { result ≡ decimal_in low high word.now }
    ensures inside { IfSome result (λ n. n ≤ high) }
{
    number_in(word, 10, 10, low, high)
}

/// The event `pin` of these operands.
#[tactic(auto, unfolding(i9_model::specs::Events::pin_of))]
fn pin(words: &[u8]) -> Option<Event>
    ensures { result ≡ pin_of (words_of words.now) }
{
    let pin = decimal_in(one_word(words)?, 0, LAST_PIN)?;
    Some(Event::Pin(pin as u8))
}

/// The event `low` of these operands.
#[tactic(auto, unfolding(i9_model::specs::Events::low_of))]
fn low(words: &[u8]) -> Option<Event>
    ensures { result ≡ low_of (words_of words.now) }
{
    let pin = decimal_in(one_word(words)?, 0, LAST_PIN)?;
    Some(Event::Low(pin as u8))
}

/// The event `high` of these operands.
#[tactic(auto, unfolding(i9_model::specs::Events::high_of))]
fn high(words: &[u8]) -> Option<Event>
    ensures { result ≡ high_of (words_of words.now) }
{
    let pin = decimal_in(one_word(words)?, 0, LAST_PIN)?;
    Some(Event::High(pin as u8))
}

/// The event `nmi`, which has no operands.
#[tactic(auto, unfolding(i9_model::specs::Events::nmi_of))]
fn nmi(words: &[u8]) -> Option<Event>
    ensures { result ≡ nmi_of (words_of words.now) }
{
    match split_word(words) {
        Some(_) => None,
        None => Some(Event::Nmi),
    }
}

/// The event `dma` of these operands.
#[tactic(auto, unfolding(i9_model::specs::Events::dma_of))]
fn dma(words: &[u8]) -> Option<Event>
    ensures { result ≡ dma_of (words_of words.now) }
{
    let channel = decimal_in(one_word(words)?, 0, LAST_CHANNEL)?;
    Some(Event::Dma(channel as u8))
}

/// The event `show` of these operands.
#[tactic(auto, unfolding(i9_model::specs::Events::show_of))]
fn show(words: &[u8]) -> Option<Event>
    ensures { result ≡ show_of (words_of words.now) }
{
    let (address, length) = two_words(words)?;
    let address = number_in(address, 16, 8, 0, LAST_ADDRESS)?;
    let length = decimal_in(length, 1, MOST_SHOWN)?;
    Some(Event::Show(address as u32, length as u8))
}

/// The bytes of a word of two hexadecimal digits a byte.
fn bytes_of<const N: usize>(word: &[u8]) -> Option<ArrayVec<u8, 16>>
    requires few { N ≤ 16 }
    requires twice { length word.now ≡ 2 * N }
    ensures { option_map (λ v. v.items) result ≡ result_ok (decode_of word.now) }
{
    let bytes = <[u8; N] as FromHex>::from_hex(word).ok()?;
    let mut list = ArrayVec::new();
    for byte in bytes {
        list.push(byte);
    }
    Some(list)
}

/// The bytes of a word of 2, 4, 8 or 32 hexadecimal digits.
#[tactic(auto, unfolding(i9_model::specs::Events::bytes_in))]
fn bytes_in(word: &[u8]) -> Option<ArrayVec<u8, 16>>
    ensures { option_map (λ v. v.items) result ≡ bytes_in word.now }
{
    match word.len() {
        2 => bytes_of::<1>(word),
        4 => bytes_of::<2>(word),
        8 => bytes_of::<4>(word),
        32 => bytes_of::<16>(word),
        _ => None,
    }
}

/// The event `feed` of these operands.
#[tactic(auto, unfolding(i9_model::specs::Events::feed_of))]
fn feed(words: &[u8]) -> Option<Event>
    ensures { result ≡ feed_of (words_of words.now) }
{
    let (channel, digits) = two_words(words)?;
    let channel = decimal_in(channel, 0, LAST_CHANNEL)?;
    let bytes = bytes_in(digits)?;
    Some(Event::Feed(channel as u8, bytes))
}

/// The event of a name that only the version of levels has, or the kind of the fault.
#[tactic(auto, unfolding(i9_model::specs::Events::level_event_of))]
fn level_event(name: &[u8], operands: &[u8]) -> Result<Event, u8>
    ensures { result ≡ level_event_of name.now (words_of operands.now) }
{
    if name == b"low".as_slice() {
        low(operands).ok_or(BAD_OPERAND)
    } else if name == b"high".as_slice() {
        high(operands).ok_or(BAD_OPERAND)
    } else {
        Err(UNKNOWN_EVENT)
    }
}

/// The event of a name and operands in a version, or the kind of their fault.
#[tactic(auto, unfolding(i9_model::specs::Events::event_of))]
pub(crate) fn event(version: u8, name: &[u8], operands: &[u8]) -> Result<Event, u8>
    ensures { result ≡ event_of version name.now (words_of operands.now) }
{
    if name == b"pin".as_slice() {
        pin(operands).ok_or(BAD_OPERAND)
    } else if name == b"nmi".as_slice() {
        nmi(operands).ok_or(BAD_OPERAND)
    } else if name == b"dma".as_slice() {
        dma(operands).ok_or(BAD_OPERAND)
    } else if name == b"feed".as_slice() {
        feed(operands).ok_or(BAD_OPERAND)
    } else if name == b"show".as_slice() {
        show(operands).ok_or(BAD_OPERAND)
    } else if version == LEVELS_VERSION {
        level_event(name, operands)
    } else {
        Err(UNKNOWN_EVENT)
    }
}
