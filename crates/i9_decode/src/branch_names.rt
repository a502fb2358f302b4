//! The names of opcodes 00 to 3F: the control format, and from 20 the compare-and-branch format.
ghost use Rattle.std.specs.Prelude.{◌≡◌, ◌<◌, slice_index_or};

use i9_isa::Op;

/// The name of each opcode from 00 up.
pub(crate) static BRANCH_NAMES: [Option<Op>; 64] = [
    // Opcodes 00 to 0F.
    None,
    None,
    None,
    None,
    None,
    None,
    None,
    None,
    Some(Op::B),
    Some(Op::Call),
    Some(Op::Ret),
    Some(Op::Bal),
    None,
    None,
    None,
    None,
    // Opcodes 10 to 1F.
    Some(Op::Bno),
    Some(Op::Bg),
    Some(Op::Be),
    Some(Op::Bge),
    Some(Op::Bl),
    Some(Op::Bne),
    Some(Op::Ble),
    Some(Op::Bo),
    Some(Op::Faultno),
    Some(Op::Faultg),
    Some(Op::Faulte),
    Some(Op::Faultge),
    Some(Op::Faultl),
    Some(Op::Faultne),
    Some(Op::Faultle),
    Some(Op::Faulto),
    // Opcodes 20 to 2F.
    Some(Op::Testno),
    Some(Op::Testg),
    Some(Op::Teste),
    Some(Op::Testge),
    Some(Op::Testl),
    Some(Op::Testne),
    Some(Op::Testle),
    Some(Op::Testo),
    None,
    None,
    None,
    None,
    None,
    None,
    None,
    None,
    // Opcodes 30 to 3F.
    Some(Op::Bbc),
    Some(Op::Cmpobg),
    Some(Op::Cmpobe),
    Some(Op::Cmpobge),
    Some(Op::Cmpobl),
    Some(Op::Cmpobne),
    Some(Op::Cmpoble),
    Some(Op::Bbs),
    Some(Op::Cmpibno),
    Some(Op::Cmpibg),
    Some(Op::Cmpibe),
    Some(Op::Cmpibge),
    Some(Op::Cmpibl),
    Some(Op::Cmpibne),
    Some(Op::Cmpible),
    Some(Op::Cmpibo),
];

/// The name at a place of the table.
pub(crate) fn branch_name(place: usize) -> Option<Op>
    requires { place < 64 }
    ensures { result ≡ slice_index_or BRANCH_NAMES place None }
{
    BRANCH_NAMES[place]
}
