//! What is printed of a block that is tuned, and of one that is at fault.
ghost use Rattle.std.specs.Prelude.{◌≡◌, ◌≤◌, ◌%◌, ◌++◌, length, OnOk, IfOk};
ghost use Rattle.std.specs.List.{flat_map};
ghost use Rattle.i9_isa.specs.Valid.{IsValid};
ghost use Rattle.i9_hex.specs.Writing.{with_line_feed};
ghost use Rattle.i9_asm.specs.Listing.{org_line};
ghost use Rattle.i9_tune.specs.Greedy.{AreTunable};
ghost use Rattle.i9_tune.specs.Tuning.{spaced, spaced_number, words_in, spans_line, fault_line, AddsLine, AddsLines};
ghost use Rattle.i9_tune.specs.Tuning.{IsText, IsTuning};

use crate::block::BlockFault;
use crate::greedy::tune;
use crate::turns::span;
use i9_decode::Code;
use i9_isa::{Inst, NoMemory, word_count};
use i9_statement::{Statement, add_hex, add_statement, code_of};
use std::alloc::{AllocError, Global};

/// Appends a space and a word in eight upper-case hexadecimal digits.
#[tactic(auto, unfolding(i9_text::specs::Written::word_text))]
fn add_word(alloc: Global, text: &mut Vec<u8>, word: u32) -> Result<(), AllocError>
    ensures { OnOk result (text.new.items ≡ text.old.items ++ spaced word) }
{
    text.push(b' ')?;
    let digits = hex::encode_upper(alloc, word.to_be_bytes())?;
    text.extend_from_slice(digits.as_bytes())
}

/// Appends a space and a number in decimal digits.
fn add_count(alloc: Global, text: &mut Vec<u8>, count: u64) -> Result<(), AllocError>
    ensures { OnOk result (text.new.items ≡ text.old.items ++ spaced_number count) }
{
    text.push(b' ')?;
    let digits = count.to_string(alloc)?;
    text.extend_from_slice(digits.as_bytes())
}

/// Appends the words of an instruction, each behind a space.
fn add_words(alloc: Global, text: &mut Vec<u8>, code: &Code) -> Result<(), AllocError>
    ensures { OnOk result (text.new.items ≡ text.old.items ++ flat_map spaced (words_in code.now)) }
{
    add_word(alloc, text, code.first)?;
    if let Some(second) = code.second {
        add_word(alloc, text, second)?;
    }
    Ok(())
}

/// Appends the line of an instruction at an address, as a listing has it: its statement, and behind `#` the address and
/// its words.
fn add_line(alloc: Global, text: &mut Vec<u8>, address: u32, inst: &Inst) -> Result<(), AllocError>
    requires valid { IsValid inst.now }
    requires aligned { address % 4 ≡ 0 }
    ensures { OnOk result (AddsLine address inst.now text.old.items text.new.items) }
{
    let statement = Statement {
        inst: *inst,
        spare: 0,
    };
    let code = code_of(&statement);
    add_statement(alloc, text, address, &statement)?;
    text.extend_from_slice(b" #")?;
    add_word(alloc, text, address)?;
    add_words(alloc, text, &code)?;
    text.push(b'\n')?;
    Ok(())
}

/// Appends the lines of instructions from an address on.
fn add_lines(
    alloc: Global,
    text: &mut Vec<u8>,
    address: u32,
    block: &[Inst],
) -> Result<(), AllocError>
    requires tunable { AreTunable block.now }
    requires aligned { address % 4 ≡ 0 }
    ensures { OnOk result (AddsLines address block.now text.old.items text.new.items) }
{
    let mut at = address;
    for inst in block {
        add_line(alloc, text, at, inst)?;
        at = at.wrapping_add(4 * word_count(inst));
    }
    Ok(())
}

/// Appends the line before a run of addresses.
fn add_org(alloc: Global, text: &mut Vec<u8>, address: u32) -> Result<(), AllocError>
    ensures { OnOk result (text.new.items ≡ text.old.items ++ with_line_feed (org_line address)) }
{
    text.extend_from_slice(b".org ")?;
    add_hex(alloc, text, address)?;
    text.push(b'\n')?;
    Ok(())
}

/// Appends the line of the spans of a block and of the tuned one.
fn add_spans(
    alloc: Global,
    text: &mut Vec<u8>,
    address: u32,
    block: &[Inst],
    tuned: &[Inst],
) -> Result<(), AllocError>
    requires tunable { AreTunable block.now }
    requires few { length block.now ≤ 64 }
    requires tunable_too { AreTunable tuned.now }
    requires few_too { length tuned.now ≤ 64 }
    ensures { OnOk result (text.new.items ≡ text.old.items ++ with_line_feed (spans_line address block.now tuned.now)) }
{
    text.extend_from_slice(b"#tune")?;
    add_word(alloc, text, address)?;
    add_count(alloc, text, block.len() as u64)?;
    add_count(alloc, text, span(block))?;
    add_count(alloc, text, span(tuned))?;
    text.push(b'\n')?;
    Ok(())
}

/// The lines of a block at an address in another order.
fn text_of(
    alloc: Global,
    address: u32,
    block: &[Inst],
    tuned: &[Inst],
) -> Result<Vec<u8>, AllocError>
    requires tunable { AreTunable block.now }
    requires few { length block.now ≤ 64 }
    requires tunable_too { AreTunable tuned.now }
    requires few_too { length tuned.now ≤ 64 }
    requires aligned { address % 4 ≡ 0 }
    ensures { IfOk result (λ text. IsText address block.now tuned.now text.items) }
{
    let mut text = Vec::new(alloc);
    add_org(alloc, &mut text, address)?;
    add_lines(alloc, &mut text, address, tuned)?;
    add_spans(alloc, &mut text, address, block, tuned)?;
    Ok(text)
}

/// The text of a block that stands at an address: `.org` and the address, the instructions of the tuned block as lines
/// of a listing, with words none of whose ignored bits is set, and `#tune` with the address, the number of
/// instructions, and the spans of the block and of the tuned one. Addresses run on from FFFFFFFF to 0. The form of the
/// text is this project's own.
pub fn tuning(alloc: Global, address: u32, block: &[Inst]) -> Result<Vec<u8>, NoMemory>
    requires tunable { AreTunable block.now }
    requires few { length block.now ≤ 64 }
    requires aligned { address % 4 ≡ 0 }
    ensures { IfOk result (λ text. IsTuning address block.now text.items) }
{
    let tuned = tune(alloc, block)?;
    match text_of(alloc, address, block, &tuned) {
        Ok(text) => Ok(text),
        Err(AllocError) => Err(NoMemory),
    }
}

/// Appends what is wrong with the first instruction at fault.
fn add_fault(alloc: Global, text: &mut Vec<u8>, fault: &BlockFault) -> Result<(), AllocError>
    ensures { OnOk result (text.new.items ≡ text.old.items ++ fault_line fault.now) }
{
    text.extend_from_slice(b"#block kind")?;
    add_count(alloc, text, fault.flaw.kind() as u64)?;
    add_word(alloc, text, fault.address)?;
    text.push(b'\n')?;
    Ok(())
}

/// The line of the first instruction at fault: `#block kind`, its kind, and its address.
pub fn block_line(alloc: Global, fault: &BlockFault) -> Result<Vec<u8>, NoMemory>
    ensures { IfOk result (λ text. text.items ≡ fault_line fault.now) }
{
    let mut text = Vec::new(alloc);
    match add_fault(alloc, &mut text, fault) {
        Ok(()) => Ok(text),
        Err(AllocError) => Err(NoMemory),
    }
}
