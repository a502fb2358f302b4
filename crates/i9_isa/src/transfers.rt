//! The table of transfers: what each load and each store moves.
//!
//! The names and what they move are those of the i960 CA/CF User's Manual, instruction set.
ghost use Rattle.std.specs.Prelude.{◌≡◌, ◌≤◌, IfSome};
ghost use Rattle.i9_isa.specs.declared.size.Direction.{Direction};
ghost use Rattle.i9_isa.specs.Operands.{words_read, words_written};
ghost use Rattle.i9_isa.specs.Table.{row_of};
ghost use Rattle.i9_isa.specs.Transfers.{byte_count, register_count, load, store, transfer_of};

use crate::op::Op;
use crate::size::Size::{Byte, Half, Words};
use crate::size::{Direction, Size, Transfer};

/// A load of so much, with the sign above or with zeros.
fn load(size: Size, signed: bool) -> Option<Transfer>
    ensures { result ≡ load size signed }
{
    Some(Transfer {
        direction: Direction::Load,
        size,
        signed,
    })
}

/// A store of so much.
fn store(size: Size, signed: bool) -> Option<Transfer>
    ensures { result ≡ store size signed }
{
    Some(Transfer {
        direction: Direction::Store,
        size,
        signed,
    })
}

/// What a load or a store moves, from 1 to 16 bytes; nothing for the other names, `lda` among them.
/// A load writes its registers, and a store reads them.
#[inline(always)]
pub fn transfer(op: Op) -> Option<Transfer>
    ensures table { result ≡ transfer_of op }
    ensures something { IfSome result (λ t. 1 ≤ byte_count t.size) }
    ensures few { IfSome result (λ t. byte_count t.size ≤ 16) }
    ensures loaded { IfSome result (λ t. t.direction ≡ Direction.Load
        → words_written (row_of op).c ≡ register_count t.size) }
    ensures stored { IfSome result (λ t. t.direction ≡ Direction.Store
        → words_read (row_of op).c ≡ register_count t.size) }
{
    match op {
        Op::Ldob => load(Byte, false),
        Op::Ldib => load(Byte, true),
        Op::Ldos => load(Half, false),
        Op::Ldis => load(Half, true),
        Op::Ld => load(Words(1), false),
        Op::Ldl => load(Words(2), false),
        Op::Ldt => load(Words(3), false),
        Op::Ldq => load(Words(4), false),
        Op::Stob => store(Byte, false),
        Op::Stib => store(Byte, true),
        Op::Stos => store(Half, false),
        Op::Stis => store(Half, true),
        Op::St => store(Words(1), false),
        Op::Stl => store(Words(2), false),
        Op::Stt => store(Words(3), false),
        Op::Stq => store(Words(4), false),
        _ => None,
    }
}
