//! The line of an instruction.
ghost use Rattle.std.specs.Prelude.{◌≡◌, ◌++◌, IfOk, OnOk};
ghost use Rattle.std.specs.Fmt.{decimal};
ghost use Rattle.i9_model.specs.PrintedText.{spaced};
ghost use Rattle.i9_asm.specs.Listing.{text_of};
ghost use Rattle.i9_tracer.specs.Trace.{trace_text, IsTraced};

use crate::filter::{AddressTest, Filter};
use i9_dis::text;
use i9_isa::NoMemory;
use i9_machine::Issued;
use std::alloc::{AllocError, Global};

/// What a line begins with.
const LABEL: &[u8] = b"#t ";

/// Appends a count in decimal digits.
fn add_count(alloc: Global, line: &mut Vec<u8>, count: u64) -> Result<(), AllocError>
    ensures { OnOk result (line.new.items ≡ line.old.items ++ decimal count) }
{
    let digits = count.to_string(alloc)?;
    line.extend_from_slice(digits.as_bytes())
}

/// Appends a word in eight upper-case hexadecimal digits, behind a space.
#[tactic(auto, unfolding(i9_text::specs::Written::word_text))]
fn add_word(alloc: Global, line: &mut Vec<u8>, word: u32) -> Result<(), AllocError>
    ensures { OnOk result (line.new.items ≡ line.old.items ++ spaced word) }
{
    line.push(b' ')?;
    let digits = hex::encode_upper(alloc, word.to_be_bytes())?;
    line.extend_from_slice(digits.as_bytes())
}

/// The line of an instruction, of which this is the statement.
#[tactic(auto, unfolding(crate::specs::Trace::trace_text))]
fn joined(alloc: Global, i: &Issued, statement: &[u8]) -> Result<Vec<u8>, AllocError>
    requires { statement.now ≡ text_of i.now.address i.now.first i.now.second }
    ensures { IfOk result (λ line.
        line.items ≡ trace_text i.now.count i.now.address i.now.first i.now.second) }
{
    let mut line = Vec::from_slice(alloc, LABEL)?;
    add_count(alloc, &mut line, i.count)?;
    add_word(alloc, &mut line, i.address)?;
    line.push(b' ')?;
    line.extend_from_slice(statement)?;
    line.push(b'\n')?;
    Ok(line)
}

/// The line of an instruction.
fn line_of(alloc: Global, i: &Issued) -> Result<Vec<u8>, NoMemory>
    ensures { IfOk result (λ line.
        line.items ≡ trace_text i.now.count i.now.address i.now.first i.now.second) }
{
    let statement = text(alloc, i.address, i.first, i.second)?;
    match joined(alloc, i, &statement) {
        Ok(line) => Ok(line),
        Err(AllocError) => Err(NoMemory),
    }
}

/// The line of an instruction whose address passes a filter, and `None` where it does not pass: `#t K A STATEMENT` and
/// a line feed. K is the number of instructions before it, in decimal digits, A its address, in eight upper-case
/// hexadecimal digits, and STATEMENT what `i9_dis::text` gives of its words there. The form of the line is this
/// project's own.
///
/// Answers `NoMemory` where memory for the line was refused. Where the address does not pass, no memory is asked for.
pub fn trace_line<F: Fn(u32) -> bool + AddressTest>(
    alloc: Global,
    f: &Filter<F>,
    i: &Issued,
) -> Result<Option<Vec<u8>>, NoMemory>
    ensures { IsTraced (F.AddressTest.allows f.now) i.now result }
{
    if !f.passes(i.address) {
        return Ok(None);
    }
    Ok(Some(line_of(alloc, i)?))
}
