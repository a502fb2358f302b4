//! The line that a journal prints for an event.
ghost use Rattle.std.specs.Prelude.{◌≡◌, ◌∷◌, ◌++◌, ◌≤◌, ℕ, Option, OnOk, IfOk, Ok};
ghost use Rattle.std.specs.Fmt.{decimal};
ghost use Rattle.hex.specs.Hex.{encode_upper};
ghost use Rattle.i9_text.specs.Text.{words_of, space};
ghost use Rattle.i9_model.specs.Events.{journal_text, IsInRange};
ghost use Rattle.i9_model.specs.ScheduleText.{IsOfVersion, IsTimed, version_in, line_of, timed_at, last_count};
ghost use Rattle.i9_model.specs.declared.event.Said.TheVariants as said;

use i9_isa::NoMemory;
use i9_model::Event;
use std::alloc::{AllocError, Global};

/// Appends a word after a space.
fn push_word(line: &mut Vec<u8>, word: &[u8]) -> Result<(), AllocError>
    ensures { OnOk result (line.new.items ≡ line.old.items ++ space ∷ word.now) }
{
    line.push(b' ')?;
    line.extend_from_slice(word)
}

/// Appends a number after a space, in decimal digits without leading zeros.
fn push_decimal(alloc: Global, line: &mut Vec<u8>, number: u64) -> Result<(), AllocError>
    ensures { OnOk result (line.new.items ≡ line.old.items ++ space ∷ decimal number) }
{
    let digits = number.to_string(alloc)?;
    push_word(line, digits.as_bytes())
}

/// Appends bytes after a space, in upper-case hexadecimal digits.
fn push_bytes(alloc: Global, line: &mut Vec<u8>, bytes: &[u8]) -> Result<(), AllocError>
    ensures { OnOk result (line.new.items ≡ line.old.items ++ space ∷ encode_upper bytes.now) }
{
    let digits = hex::encode_upper(alloc, bytes)?;
    push_word(line, digits.as_bytes())
}

/// The line that a journal prints for an event that is reached after `count` instructions, without
/// its line feed. `read` reads it as the same event at the same count, in a text of a version that has
/// the event: version 2 for `low` and `high`.
pub fn journal_line(alloc: Global, count: u64, event: &Event) -> Result<Vec<u8>, NoMemory>
    requires count { count ≤ last_count }
    requires ranges { IsInRange event.now }
    ensures text { IfOk result (λ line. line.items ≡ journal_text count event.now) }

    // So its words say the event, and it is read as the event.
    ensures says { IfOk result (λ line. (version : ℕ) → IsOfVersion version event.now
        → IsTimed version (words_of line.items) (timed_at count event.now)) }
    ensures read { IfOk result (λ line. (told : Option ℕ) → IsOfVersion (version_in told) event.now
        → line_of told line.items ≡ Ok (said.Event (timed_at count event.now))) }
{
    match event_text(alloc, count, event) {
        Ok(line) => Ok(line),
        Err(_) => Err(NoMemory),
    }
}

/// The same line for any count and operands, which `read` may refuse.
#[tactic(auto, unfolding(i9_model::specs::Events::journal_text, i9_text::specs::Written::word_text))]
pub fn event_text(alloc: Global, count: u64, event: &Event) -> Result<Vec<u8>, AllocError>
    ensures { IfOk result (λ line. line.items ≡ journal_text count event.now) }
{
    let mut line = Vec::from_slice(alloc, b"at")?;
    push_decimal(alloc, &mut line, count)?;
    match event {
        Event::Pin(pin) => {
            push_word(&mut line, b"pin")?;
            push_decimal(alloc, &mut line, u64::from(*pin))?;
        }
        Event::Low(pin) => {
            push_word(&mut line, b"low")?;
            push_decimal(alloc, &mut line, u64::from(*pin))?;
        }
        Event::High(pin) => {
            push_word(&mut line, b"high")?;
            push_decimal(alloc, &mut line, u64::from(*pin))?;
        }
        Event::Nmi => push_word(&mut line, b"nmi")?,
        Event::Dma(channel) => {
            push_word(&mut line, b"dma")?;
            push_decimal(alloc, &mut line, u64::from(*channel))?;
        }
        Event::Feed(channel, bytes) => {
            push_word(&mut line, b"feed")?;
            push_decimal(alloc, &mut line, u64::from(*channel))?;
            push_bytes(alloc, &mut line, bytes.as_slice())?;
        }
        Event::Show(address, length) => {
            push_word(&mut line, b"show")?;
            push_bytes(alloc, &mut line, &address.to_be_bytes())?;
            push_decimal(alloc, &mut line, u64::from(*length))?;
        }
    }
    Ok(line)
}
