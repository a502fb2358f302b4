//! The statement of two words at an address.
ghost use Rattle.std.specs.Prelude.{◌≡◌, ◌++◌, ℕ, List, Ok, codes, OnOk, IfOk};
ghost use Rattle.i9_isa.specs.Valid.{IsValid};
ghost use Rattle.i9_statement.specs.NumberText.{hex_text};
ghost use Rattle.i9_statement.specs.Values.{Names};
ghost use Rattle.i9_asm.specs.Source.{AddsBytes};
ghost use Rattle.i9_asm.specs.Listing.{text_by, text_of, printed_bytes};

use i9_decode::{decode, spare_bits};
use i9_isa::{Inst, NoMemory};
use i9_statement::{Statement, add_hex, add_statement};
use std::alloc::{AllocError, Global};

/// Appends the statement of an instruction with this first word.
pub(crate) fn add_instruction(
    alloc: Global,
    text: &mut Vec<u8>,
    ip: u32,
    word: u32,
    inst: Inst,
) -> Result<(), AllocError>
    requires { IsValid inst }
    ensures { OnOk result (text.new.items ≡ text.old.items ++ text_by ip word (Ok inst)) }
{
    let spare = word & spare_bits(&inst);
    add_statement(alloc, text, ip, &Statement { inst, spare })
}

/// Appends a word as a number.
pub(crate) fn add_number(alloc: Global, text: &mut Vec<u8>, word: u32) -> Result<(), AllocError>
    ensures { OnOk result (text.new.items ≡ text.old.items ++ (codes ".word " ++ hex_text word)) }
{
    text.extend_from_slice(b".word ")?;
    add_hex(alloc, text, word)
}

/// Appends the statement of two words at an address.
#[tactic(auto, unfolding(i9_asm::specs::Listing::text_of))]
fn add_text(alloc: Global, text: &mut Vec<u8>, ip: u32, w0: u32, w1: u32) -> Result<(), AllocError>
    ensures { OnOk result (text.new.items ≡ text.old.items ++ text_of ip w0 w1) }
{
    match decode(w0, w1) {
        Ok(inst) => add_instruction(alloc, text, ip, w0, inst),
        Err(_) => add_number(alloc, text, w0),
    }
}

/// The statement that assembles at `ip` to the words that the two begin with: to both where the
/// first is that of an instruction of two words, else to the first.
///
/// Set ignored bits stand in braces behind it, `!` stands only where the address would else have
/// another mode, and a first word that is refused is a number behind `.word`. The text of statements
/// is this project's own.
pub fn text(alloc: Global, ip: u32, w0: u32, w1: u32) -> Result<Vec<u8>, NoMemory>
    ensures text { IfOk result (λ t. t.items ≡ text_of ip w0 w1) }
    // As a line at `ip` of any source with room for them, it adds the bytes of these words.
    ensures again { IfOk result (λ t. (names : Names) → AddsBytes names ip t.items (printed_bytes w0 w1)) }
{
    let mut text = Vec::new(alloc);
    match add_text(alloc, &mut text, ip, w0, w1) {
        Ok(()) => Ok(text),
        Err(AllocError) => Err(NoMemory),
    }
}
