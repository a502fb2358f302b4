//! Reading a text line by line.
ghost use Rattle.std.specs.Prelude.{◌≡◌, ℕ, List, Ok, Err, OnOk, IfOk, IfErr};
ghost use Rattle.i9_text.specs.Text.{lines_of};
ghost use Rattle.i9_schedule.specs.Reading.{IfBad};
ghost use Rattle.i9_schedule.specs.declared.command.Command as command;
ghost use Rattle.i9_schedule.specs.ScriptText.{Says, HasFault, IsScript, IsRefused};
ghost use Rattle.i9_schedule.specs.ScriptReading.{Answers};

use crate::command::Command;
use crate::command_parsing::said;
use crate::kinds::TOO_MANY_COMMANDS;
use crate::script::Script;
use crate::{LineError, LineFault};
use i9_text::split_line;
use std::alloc::Global;

const MOST_COMMANDS: usize = 100_000;

/// Appends what the line of this number says; at an error nothing is appended.
fn take_line(commands: &mut Vec<Command>, line: &[u8], number: u64) -> Result<(), LineError>
    ensures taken { OnOk result (Says commands.old.items line.now commands.new.items) }
    ensures refused { IfErr result (λ e. IfBad e
        (λ f. (f.0 ≡ number) × HasFault commands.old.items line.now f.1)) }
{
    match said(line) {
        Err(kind) => Err(LineError::Bad(LineFault { line: number, kind })),
        Ok(None) => Ok(()),
        Ok(Some(_)) if commands.len() >= MOST_COMMANDS => Err(LineError::Bad(LineFault {
            line: number,
            kind: TOO_MANY_COMMANDS,
        })),
        Ok(Some(command)) => match commands.push(command) {
            Ok(()) => Ok(()),
            Err(_) => Err(LineError::Memory),
        },
    }
}

/// Reads a script. The format is this project's own.
///
/// Lines end with a line feed, which the last one may lack; one carriage return at a line's end is
/// dropped. Lines without words are skipped, and so are lines whose first character is `#`. Every
/// other line is a command, in words that are divided by spaces or tabs:
///
/// | command | operands |
/// |---|---|
/// | `turn N` | N is 1 to 1,000,000 |
/// | `back N` | N is 1 to 10,000,000 |
/// | `until A`, `last A`, `who A` | A is one to eight hexadecimal digits |
/// | `regs`, `raw`, `held` | |
/// | `mem A L`, `rawmem A L` | A is one to eight hexadecimal digits; L is 1 to 64 |
///
/// with decimal numbers of one to ten digits. There are at most 100,000 commands.
///
/// A text that is no script is refused with its first line at fault, counted from 1, and the least
/// kind that applies to it:
///
/// | kind | the line |
/// |---|---|
/// | 1 | has a byte past ASCII, or its first word is no command |
/// | 2 | has an operand out of its form or range, or lacks one, or has one too many |
/// | 3 | comes to more than 100,000 commands |
pub fn read_script(alloc: Global, text: &[u8]) -> Result<Script, LineError>
    // What is read is what the lines say.
    ensures found { IfOk result (λ s. IsScript (lines_of text.now) s) }
    // What the lines say is read, unless memory runs out.
    ensures only { (cs : List command.Command) → IsScript (lines_of text.now) cs → Answers result (Ok cs) }
    // What is refused has this first fault.
    ensures refused { IfErr result (λ e. IfBad e (λ f. IsRefused (lines_of text.now) f)) }
    // A text with a first fault is refused for it, unless memory runs out.
    ensures first { (f : ℕ × ℕ) → IsRefused (lines_of text.now) f → Answers result (Err f) }
{
    let mut commands = Vec::new(alloc);
    let mut number = 0u64;
    let mut rest = Some(text);
    while let Some(lines) = rest {
        let (line, after) = split_line(lines);
        number += 1;
        take_line(&mut commands, line, number)?;
        rest = after;
    }
    Ok(Script::new(commands))
}
