//! Names by their mnemonics.
ghost use Rattle.std.specs.Prelude.{◌≡◌, Some, find, filter, true, IfSome};
ghost use Rattle.std.specs.Str.{bytes_eq};
ghost use Rattle.i9_isa.specs.Table.{row_of, names};
ghost use Rattle.i9_statement.specs.Mnemonics.{mnemonic, begins_with, op_named, hint_by, named_by};

use crate::cut_byte;
use crate::names::mnemonic;
use i9_isa::{Op, row};

/// The names whose mnemonics begin with this letter, in the order of the table.
#[tactic(auto, unfolding(crate::specs::Mnemonics::mnemonic))]
fn beginning_with(letter: u8) -> &'static [Op]
    ensures { result.now ≡ filter (λ op. begins_with letter (mnemonic op)) names }
{
    match letter {
        b'a' => &[
            Op::And,
            Op::Andnot,
            Op::Alterbit,
            Op::Addo,
            Op::Addi,
            Op::Addc,
            Op::Atadd,
            Op::Atmod,
        ],
        b'b' => &[
            Op::Bbc,
            Op::Bbs,
            Op::B,
            Op::Bal,
            Op::Bno,
            Op::Bg,
            Op::Be,
            Op::Bge,
            Op::Bl,
            Op::Bne,
            Op::Ble,
            Op::Bo,
            Op::Bx,
            Op::Balx,
        ],
        b'c' => &[
            Op::Clrbit,
            Op::Cmpinco,
            Op::Cmpinci,
            Op::Cmpdeco,
            Op::Cmpdeci,
            Op::Cmpo,
            Op::Cmpi,
            Op::Concmpo,
            Op::Concmpi,
            Op::Chkbit,
            Op::Calls,
            Op::Cmpobg,
            Op::Cmpobe,
            Op::Cmpobge,
            Op::Cmpobl,
            Op::Cmpobne,
            Op::Cmpoble,
            Op::Cmpibno,
            Op::Cmpibg,
            Op::Cmpibe,
            Op::Cmpibge,
            Op::Cmpibl,
            Op::Cmpibne,
            Op::Cmpible,
            Op::Cmpibo,
            Op::Call,
            Op::Callx,
        ],
        b'd' => &[Op::Divo, Op::Divi],
        b'e' => &[Op::Emul, Op::Ediv, Op::Extract],
        b'f' => &[
            Op::Fmark,
            Op::Flushreg,
            Op::Faultno,
            Op::Faultg,
            Op::Faulte,
            Op::Faultge,
            Op::Faultl,
            Op::Faultne,
            Op::Faultle,
            Op::Faulto,
        ],
        b'l' => &[
            Op::Ldob,
            Op::Ldos,
            Op::Lda,
            Op::Ld,
            Op::Ldl,
            Op::Ldt,
            Op::Ldq,
            Op::Ldib,
            Op::Ldis,
        ],
        b'm' => &[
            Op::Modac,
            Op::Modtc,
            Op::Mulo,
            Op::Muli,
            Op::Modi,
            Op::Mov,
            Op::Movl,
            Op::Movt,
            Op::Movq,
            Op::Modify,
            Op::Modpc,
            Op::Mark,
        ],
        b'n' => &[
            Op::Notbit,
            Op::Notand,
            Op::Nor,
            Op::Notor,
            Op::Nand,
            Op::Not,
        ],
        b'o' => &[Op::Or, Op::Ornot],
        b'r' => &[Op::Rotate, Op::Remo, Op::Remi, Op::Ret],
        b's' => &[
            Op::Setbit,
            Op::Subo,
            Op::Subi,
            Op::Shro,
            Op::Shrdi,
            Op::Shri,
            Op::Shlo,
            Op::Shli,
            Op::Subc,
            Op::Spanbit,
            Op::Scanbit,
            Op::Scanbyte,
            Op::Sdma,
            Op::Sysctl,
            Op::Syncf,
            Op::Stob,
            Op::Stos,
            Op::St,
            Op::Stl,
            Op::Stt,
            Op::Stq,
            Op::Stib,
            Op::Stis,
        ],
        b't' => &[
            Op::Testno,
            Op::Testg,
            Op::Teste,
            Op::Testge,
            Op::Testl,
            Op::Testne,
            Op::Testle,
            Op::Testo,
        ],
        b'u' => &[Op::Udma],
        b'x' => &[Op::Xor, Op::Xnor],
        _ => &[],
    }
}

/// The first of some names that has this mnemonic.
fn find_name(text: &[u8], ops: &[Op]) -> Option<Op>
    ensures { result ≡ find (λ op. bytes_eq text.now (mnemonic op)) ops.now }
{
    for op in ops {
        if text == mnemonic(*op) {
            return Some(*op);
        }
    }
    None
}

/// The name of a mnemonic.
#[tactic(auto, unfolding(crate::specs::Mnemonics::op_named))]
pub(crate) fn op_named(text: &[u8]) -> Option<Op>
    ensures { result ≡ op_named text.now }
{
    let [first, ..] = text else {
        return None;
    };
    find_name(text, beginning_with(*first))
}

/// The prediction by what stands behind the mnemonic, where it is allowed.
fn hint_by(used: bool, text: &[u8]) -> Option<bool>
    ensures value { result ≡ hint_by used text.now }
    ensures allowed { IfSome result (λ hint. hint ≡ true → used ≡ true) }
{
    if text.is_empty() {
        return Some(false);
    }
    if !used {
        return None;
    }
    if text == b".f".as_slice() {
        Some(true)
    } else if text == b".t".as_slice() {
        Some(false)
    } else {
        None
    }
}

/// The name and the prediction of the first word of a statement.
#[tactic(auto, unfolding(crate::specs::Mnemonics::named_by))]
pub(crate) fn named_by(text: &[u8]) -> Option<(Op, bool)>
    ensures value { result ≡ named_by text.now }
    ensures allowed { IfSome result (λ n. n.1 ≡ true → (row_of n.0).hint ≡ true) }
{
    let (name, ending) = cut_byte(text, b'.');
    let op = op_named(name)?;
    let hint = hint_by(row(op).hint, ending)?;
    Some((op, hint))
}
