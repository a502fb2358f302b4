//! The job that is made from a number: a source, and the schedule of its run.
ghost use Rattle.std.specs.Prelude.{◌≡◌, ◌++◌, ◌+◌, ◌%◌, ◌<◌, ◌≤◌, suc, OnOk, IfOk};
ghost use Rattle.std.specs.Fmt.{decimal};
ghost use Rattle.i9_generator.specs.Generator.{drawn, pin_line};
ghost use Rattle.i9_generator.specs.Generator.{generated_source, generated_schedule};

use i9_isa::NoMemory;
use std::alloc::{AllocError, Global};

/// The boot record, the PRCB, the control table and the handlers of the eight pins.
const TABLES: &str = ".org 0xFFFFFF10
.word 0x1000, 0x800
.org 0x800
.word 0x900, 0xA00, 0, 0x40000000, 0x2000, 0xB00, 0, 0x200000, 0, 0
.org 0xA10
.word 0x4321, 0x8765
.org 0x204C
.word tick
.org 0x208C
.word tick
.org 0x20CC
.word tick
.org 0x210C
.word tick
.org 0x214C
.word tick
.org 0x218C
.word tick
.org 0x21CC
.word tick
.org 0x220C
.word tick
";

/// Sets up the stack, unmasks the pins, and lowers the priority.
const SET_UP: &str = ".org 0x1000
lda 0x100000, fp
lda 64(fp), sp
lda 0xFF, g8
mov g8, sf1
lda 0x1F2000, g9
mov 0, g10
modpc g10, g9, g10
";

/// The end of the loop and of the run; the procedure; and the handler of the pins.
const CALLS: &str = "call f
subo 1, g6, g6
cmpobne 0, g6, loop
lda 0xE0000000, g5
st g12, 4(g5)
f: addo g0, g7, g7
rotate 5, g7, g7
mov g0, r4
cmpobe 0, g0, leaf
subo 1, g0, g0
call f
leaf: xor r4, g7, g7
ret
tick: addo 1, g12, g12
ret
";

/// How many events the schedule has.
const EVENTS: u64 = 2000;

/// The number that is drawn next after one.
#[tactic(auto, unfolding(crate::specs::Generator::drawn))]
fn draw(number: u32) -> u32
    ensures { result ≡ drawn number 1 }
{
    ((1_664_525 * u64::from(number) + 1_013_904_223) % (1 << 32)) as u32
}

/// Appends a count in decimal digits.
fn add_count(alloc: Global, text: &mut Vec<u8>, count: u64) -> Result<(), AllocError>
    ensures { OnOk result (text.new.items ≡ text.old.items ++ decimal count) }
{
    let digits = count.to_string(alloc)?;
    text.extend_from_slice(digits.as_bytes())
}

/// Appends a line with a number in its midst.
fn add_line(
    alloc: Global,
    text: &mut Vec<u8>,
    before: &[u8],
    number: u32,
    after: &[u8],
) -> Result<(), AllocError>
    ensures { OnOk result (text.new.items ≡ text.old.items ++ before.now ++ decimal number ++ after.now) }
{
    text.extend_from_slice(before)?;
    add_count(alloc, text, u64::from(number))?;
    text.extend_from_slice(after)
}

/// The source of the job.
#[tactic(auto, using(crate::proofs::Drawing::drawing_rules))]
fn source_of(alloc: Global, number: u32) -> Result<Vec<u8>, AllocError>
    ensures { IfOk result (λ t. t.items ≡ generated_source number) }
{
    let first = draw(number);
    let second = draw(first);
    let mut text = Vec::from_slice(alloc, TABLES.as_bytes())?;
    text.extend_from_slice(SET_UP.as_bytes())?;
    add_line(alloc, &mut text, b"lda ", 500 + second % 2000, b", g6\n")?;
    add_line(alloc, &mut text, b"lda ", draw(second), b", g7\n")?;
    add_line(alloc, &mut text, b"loop: lda ", 8 + first % 56, b", g0\n")?;
    text.extend_from_slice(CALLS.as_bytes())?;
    Ok(text)
}

/// Appends the line of a pin after so many instructions.
fn add_pin(alloc: Global, text: &mut Vec<u8>, count: u64, pin: u32) -> Result<(), AllocError>
    ensures { OnOk result (text.new.items ≡ text.old.items ++ pin_line count pin) }
{
    text.extend_from_slice(b"at ")?;
    add_count(alloc, text, count)?;
    text.extend_from_slice(b" pin ")?;
    add_count(alloc, text, u64::from(pin))?;
    text.push(b'\n')?;
    Ok(())
}

/// The schedule of the job.
#[tactic(auto, using(crate::proofs::Drawing::drawing_rules))]
fn schedule_of(alloc: Global, number: u32) -> Result<Vec<u8>, AllocError>
    ensures { IfOk result (λ t. t.items ≡ generated_schedule number) }
{
    let mut last = draw(draw(draw(number)));
    let mut text = Vec::new(alloc);
    for place in 0..EVENTS {
        last = draw(last);
        add_pin(alloc, &mut text, 100 * (place + 1), last % 8)?;
    }
    Ok(text)
}

/// The job that is made from a number: its source, and its schedule. Its source assembles to a firmware that takes the
/// interrupts of the schedule while it calls itself 8 to 63 deep, 500 to 2499 times. `generated_source` and
/// `generated_schedule`, this project's own, have both texts.
pub fn generate(alloc: Global, number: u32) -> Result<(Vec<u8>, Vec<u8>), NoMemory>
    ensures source { IfOk result (λ p. p.0.items ≡ generated_source number) }
    ensures schedule { IfOk result (λ p. p.1.items ≡ generated_schedule number) }
{
    match (source_of(alloc, number), schedule_of(alloc, number)) {
        (Ok(source), Ok(schedule)) => Ok((source, schedule)),
        _ => Err(NoMemory),
    }
}
