//! The name of an instruction word, by its opcode and its extension.
ghost use Rattle.std.specs.Prelude.{◌≡◌, ◌<◌, find};
ghost use Rattle.i9_isa.specs.Table.{names};
ghost use Rattle.i9_isa.specs.Words.{is_named};
ghost use Rattle.i9_decode.specs.Look.{look};

use crate::branch_names::branch_name;
use crate::fields::{extension, opcode};
use crate::memory_names::memory_name;
use crate::register_names::register_name;
use i9_isa::Op;

/// What the tables have at an opcode and an extension.
fn name_at(opcode: u8, extension: u8) -> Option<Op>
    requires { extension < 16 }
    ensures { result ≡ look opcode extension }
{
    if opcode < 0x40 {
        branch_name(opcode as usize)
    } else if opcode < 0x58 {
        None
    } else if opcode < 0x78 {
        register_name((opcode as usize - 0x58) * 16 + extension as usize)
    } else if opcode < 0x80 {
        None
    } else if opcode < 0xD0 {
        memory_name(opcode as usize - 0x80)
    } else {
        None
    }
}

/// The name whose opcode and extension the word has.
pub(crate) fn name_of(w: u32) -> Option<Op>
    ensures { result ≡ find (is_named w) names }
{
    name_at(opcode(w), extension(w))
}
