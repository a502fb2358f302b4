//! Registers by their names.
ghost use Rattle.std.specs.Prelude.{◌≡◌, ◌<◌, IfSome};
ghost use Rattle.i9_statement.specs.Registers.{register_text, register_place, place_of_two, place_of_three, likely_place};
ghost use Rattle.i9_statement.specs.Registers.{register_at, register_of};

use i9_isa::Operand;

/// The name at a place of the table of register names: those that are printed, of the registers 0
/// to 31 and of sf0 to sf2, then other names of the registers 0, 1, 2 and 31.
#[tactic(auto, unfolding(crate::specs::Registers::register_text))]
pub fn register_name(place: u8) -> &'static [u8]
    requires { place < 39 }
    ensures { result.now ≡ register_text place }
{
    match place {
        0 => b"pfp",
        1 => b"sp",
        2 => b"rip",
        3 => b"r3",
        4 => b"r4",
        5 => b"r5",
        6 => b"r6",
        7 => b"r7",
        8 => b"r8",
        9 => b"r9",
        10 => b"r10",
        11 => b"r11",
        12 => b"r12",
        13 => b"r13",
        14 => b"r14",
        15 => b"r15",
        16 => b"g0",
        17 => b"g1",
        18 => b"g2",
        19 => b"g3",
        20 => b"g4",
        21 => b"g5",
        22 => b"g6",
        23 => b"g7",
        24 => b"g8",
        25 => b"g9",
        26 => b"g10",
        27 => b"g11",
        28 => b"g12",
        29 => b"g13",
        30 => b"g14",
        31 => b"fp",
        32 => b"sf0",
        33 => b"sf1",
        34 => b"sf2",
        35 => b"r0",
        36 => b"r1",
        37 => b"r2",
        _ => b"g15",
    }
}

/// Where a name of two bytes stands in the table, if it does.
fn place_of_two(first: u8, last: u8) -> u8
    ensures inside { result < 39 }
    ensures place { result ≡ place_of_two first last }
{
    let digit = last % 16;
    match first {
        b'g' => 16 + digit,
        b'r' => { if digit < 3 { 35 + digit } else { digit } }
        b's' => 1,
        _ => 31,
    }
}

/// Where a name of three bytes stands in the table, if it does.
fn place_of_three(first: u8, middle: u8, last: u8) -> u8
    ensures inside { result < 39 }
    ensures place { result ≡ place_of_three first middle last }
{
    match first {
        b'g' => { if last == b'5' { 38 } else { 26 + last % 8 } }
        b'r' => { if middle == b'i' { 2 } else { 10 + last % 8 } }
        b's' => 32 + last % 4,
        _ => 0,
    }
}

/// The one place in the table at which this name can stand, by its length and its first letter.
#[tactic(auto, unfolding(crate::specs::Registers::likely_place))]
fn likely_place(text: &[u8]) -> Option<u8>
    ensures inside { IfSome result (λ k. k < 39) }
    ensures place { result ≡ likely_place text.now }
{
    match *text {
        [first, last] => Some(place_of_two(first, last)),
        [first, middle, last] => Some(place_of_three(first, middle, last)),
        _ => None,
    }
}

/// The place of a name in the table of register names.
pub fn register_place(text: &[u8]) -> Option<u8>
    ensures place { result ≡ register_place text.now }
    ensures inside { IfSome result (λ k. k < 39) }
{
    let Some(place) = likely_place(text) else {
        return None;
    };
    if text == register_name(place) {
        Some(place)
    } else {
        None
    }
}

/// The register whose name stands at a place of the table.
pub fn register_at(place: u8) -> Operand
    ensures { result ≡ register_at place }
{
    match place {
        0..32 => Operand::Reg(place),
        32..35 => Operand::Sfr(place - 32),
        35..38 => Operand::Reg(place - 35),
        _ => Operand::Reg(31),
    }
}

/// The register that a text names.
pub fn register_of(text: &[u8]) -> Option<Operand>
    ensures { result ≡ register_of text.now }
{
    let place = register_place(text)?;
    Some(register_at(place))
}
