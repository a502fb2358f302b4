//! The text of numbers.
ghost use Rattle.std.specs.Prelude.{◌≡◌, ◌++◌, OnOk, false, true};
ghost use Rattle.std.specs.Fmt.{decimal, digits};
ghost use Rattle.i9_statement.specs.NumberText.{hex_text};
ghost use Rattle.i9_text.specs.Written.{word_text};

use std::alloc::{AllocError, Global};

/// Appends a number in decimal digits.
pub fn add_decimal(alloc: Global, text: &mut Vec<u8>, n: u32) -> Result<(), AllocError>
    ensures { OnOk result (text.new.items ≡ text.old.items ++ decimal n) }
{
    let digits = n.to_string(alloc)?;
    text.extend_from_slice(digits.as_bytes())
}

/// Appends eight upper-case hexadecimal digits.
#[tactic(auto, unfolding(i9_text::specs::Written::word_text))]
fn add_word(alloc: Global, text: &mut Vec<u8>, word: u32) -> Result<(), AllocError>
    ensures { OnOk result (text.new.items ≡ text.old.items ++ word_text word) }
{
    let digits = hex::encode_upper(alloc, word.to_be_bytes())?;
    text.extend_from_slice(digits.as_bytes())
}

/// Appends `0x` and eight digits.
#[tactic(auto, unfolding(crate::specs::NumberText::hex_text))]
pub fn add_hex(alloc: Global, text: &mut Vec<u8>, n: u32) -> Result<(), AllocError>
    ensures { OnOk result (text.new.items ≡ text.old.items ++ hex_text n) }
{
    text.extend_from_slice(b"0x")?;
    add_word(alloc, text, n)
}

/// Appends upper-case hexadecimal digits without leading zeros.
pub fn add_digits(alloc: Global, text: &mut Vec<u8>, n: u32) -> Result<(), AllocError>
    ensures { OnOk result (text.new.items ≡ text.old.items ++ digits 16 true n) }
{
    let digits = format!(in alloc; "{n:X}")?;
    text.extend_from_slice(digits.as_bytes())
}
