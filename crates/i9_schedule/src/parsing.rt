//! What a line says, and whether it may follow the lines before it.
ghost use Rattle.std.specs.Prelude.{◌≡◌};
ghost use Rattle.i9_text.specs.Text.{words_of};
ghost use Rattle.i9_model.specs.ScheduleText.{timed_by, timed_of, opening_of, line_of, order_fault, fault_after};
ghost use Rattle.i9_schedule.specs.Lines.{time_by};

use crate::error::{
    BAD_OPERAND, EARLIER_TIME, MIXED_TIMES, TOO_MANY_EVENTS, UNKNOWN_EVENT, UNKNOWN_LINE,
};
use crate::operands::event;
use crate::version::{FIRST_VERSION, heading};
use crate::words::{is_ascii, is_skipped, number_in};
use i9_model::{Said, Timed, When};
use i9_text::split_word;

/// The last count that an event may have.
const LAST_COUNT: u64 = 10_000_000;

/// The last turn that an event may have.
const LAST_TURN: u64 = 1_000_000_000_000;

const MOST_TIME_DIGITS: usize = 13;

const MOST_EVENTS: usize = 1_000_000;

/// What the time of an event is counted in.
#[derive(Clone, Copy)]
enum Clock {
    Instructions,
    Turns,
}

/// The time that a word says.
fn time(clock: Clock, word: &[u8]) -> Option<When>
    ensures { result ≡ time_by clock word.now }
{
    match clock {
        Clock::Instructions => number_in(word, 10, MOST_TIME_DIGITS, 0, LAST_COUNT).map(When::At),
        Clock::Turns => number_in(word, 10, MOST_TIME_DIGITS, 0, LAST_TURN).map(When::Turn),
    }
}

/// What the words behind `at` or `turn` say, or the kind of their fault.
#[tactic(auto, unfolding(i9_model::specs::ScheduleText::timed_by))]
fn timed_by(version: u8, clock: Clock, words: &[u8]) -> Result<Timed, u8>
    ensures { result ≡ timed_by version (time_by clock) (words_of words.now) }
{
    let (time_word, rest) = split_word(words).ok_or(UNKNOWN_EVENT)?;
    let (name, operands) = split_word(rest).ok_or(UNKNOWN_EVENT)?;
    let event = event(version, name, operands)?;
    let when = time(clock, time_word).ok_or(BAD_OPERAND)?;
    Ok(Timed { when, event })
}

/// What the words of a line say in a version, or the kind of their fault.
#[tactic(auto, unfolding(i9_model::specs::ScheduleText::timed_of))]
fn timed(version: u8, words: &[u8]) -> Result<Timed, u8>
    ensures { result ≡ timed_of version (words_of words.now) }
{
    let (first, rest) = split_word(words).ok_or(UNKNOWN_LINE)?;
    if first == b"at".as_slice() {
        timed_by(version, Clock::Instructions, rest)
    } else if first == b"turn".as_slice() {
        timed_by(version, Clock::Turns, rest)
    } else {
        Err(UNKNOWN_LINE)
    }
}

/// What the words of the first line say that is not skipped, or the kind of their fault.
#[tactic(auto, unfolding(i9_model::specs::ScheduleText::opening_of))]
fn opening(words: &[u8]) -> Result<Said, u8>
    ensures { result ≡ opening_of (words_of words.now) }
{
    let (first, rest) = split_word(words).ok_or(UNKNOWN_LINE)?;
    if first == b"schedule".as_slice() {
        heading(rest)
    } else {
        Ok(Said::Event(timed(FIRST_VERSION, words)?))
    }
}

/// What a line says by itself, behind lines that told this version, or none: nothing, the version, or an event;
/// or the kind of its fault.
#[tactic(auto, unfolding(i9_model::specs::ScheduleText::line_of))]
pub(crate) fn said(version: Option<u8>, line: &[u8]) -> Result<Said, u8>
    ensures { result ≡ line_of version line.now }
{
    if !is_ascii(line) {
        return Err(UNKNOWN_LINE);
    }
    if is_skipped(line) {
        return Ok(Said::Nothing);
    }
    match version {
        Some(version) => Ok(Said::Event(timed(version, line)?)),
        None => opening(line),
    }
}

/// The fault of a time after an earlier one.
fn order_fault(last: When, next: When) -> Option<u8>
    ensures { result ≡ order_fault last next }
{
    let (last, next) = match (last, next) {
        (When::At(last), When::At(next)) | (When::Turn(last), When::Turn(next)) => (last, next),
        _ => return Some(MIXED_TIMES),
    };
    if next < last {
        Some(EARLIER_TIME)
    } else {
        None
    }
}

/// The fault of an event after those before it.
#[tactic(auto, unfolding(i9_model::specs::ScheduleText::fault_after))]
pub(crate) fn fault_after(events: &[Timed], next: &Timed) -> Option<u8>
    ensures { result ≡ fault_after events.now next.now }
{
    if let Some(last) = events.last() {
        let fault = order_fault(last.when, next.when);
        if fault.is_some() {
            return fault;
        }
    }
    if events.len() >= MOST_EVENTS {
        Some(TOO_MANY_EVENTS)
    } else {
        None
    }
}
