//! The names of opcodes 80 to CF, the memory format.
ghost use Rattle.std.specs.Prelude.{◌≡◌, ◌<◌, slice_index_or};

use i9_isa::Op;

/// The name of each opcode from 80 up.
pub(crate) static MEMORY_NAMES: [Option<Op>; 80] = [
    // Opcodes 80 to 8F.
    Some(Op::Ldob),
    None,
    Some(Op::Stob),
    None,
    Some(Op::Bx),
    Some(Op::Balx),
    Some(Op::Callx),
    None,
    Some(Op::Ldos),
    None,
    Some(Op::Stos),
    None,
    Some(Op::Lda),
    None,
    None,
    None,
    // Opcodes 90 to 9F.
    Some(Op::Ld),
    None,
    Some(Op::St),
    None,
    None,
    None,
    None,
    None,
    Some(Op::Ldl),
    None,
    Some(Op::Stl),
    None,
    None,
    None,
    None,
    None,
    // Opcodes A0 to AF.
    Some(Op::Ldt),
    None,
    Some(Op::Stt),
    None,
    None,
    None,
    None,
    None,
    None,
    None,
    None,
    None,
    None,
    None,
    None,
    None,
    // Opcodes B0 to BF.
    Some(Op::Ldq),
    None,
    Some(Op::Stq),
    None,
    None,
    None,
    None,
    None,
    None,
    None,
    None,
    None,
    None,
    None,
    None,
    None,
    // Opcodes C0 to CF.
    Some(Op::Ldib),
    None,
    Some(Op::Stib),
    None,
    None,
    None,
    None,
    None,
    Some(Op::Ldis),
    None,
    Some(Op::Stis),
    None,
    None,
    None,
    None,
    None,
];

/// The name at a place of the table.
pub(crate) fn memory_name(place: usize) -> Option<Op>
    requires { place < 80 }
    ensures { result ≡ slice_index_or MEMORY_NAMES place None }
{
    MEMORY_NAMES[place]
}
