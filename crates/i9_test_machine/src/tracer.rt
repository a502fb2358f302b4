//! Lines, filters and stops, worked out by hand: the instructions' words from the instruction formats.
ghost use Rattle.std.specs.Prelude.{◌≡◌, ◌<◌, ◌≤◌, ◌^◌, ◌↔◌, ◌&&◌, nat_le, IsSome, IfSome, IfOk};
ghost use Rattle.i9_tracer.specs.Closures.{TakesEachAddress, TakesEachView};
ghost use Rattle.i9_tracer.specs.Trace.{IsTraced, trace_text};

use crate::check::{must, must_at, same_at};
use i9_isa::NoMemory;
use i9_machine::Issued;
use i9_model::View;
use i9_tracer::{AddressTest, Filter, Stop, ViewTest, trace_line};
use std::alloc::Global;
use std::test::Fail;

/// `mov 7, g4` at 1010, the fourth instruction.
const MOVE: Issued = Issued {
    count: 3,
    address: 0x1010,
    first: 0x5CA0_0E07,
    second: 0,
};

/// Its line.
const MOVE_LINE: &str = "#t 3 00001010 mov 7, g4\n";

/// The last address.
const LAST: u32 = 0xFFFF_FFFF;

/// Where g0 stands among the registers of a view.
const G0: usize = 16;

/// A view at 1010, with 16 in g0 and 0 in every other register.
fn shown() -> View
    ensures { result.count < 2 ^ 32 }
{
    let mut regs = [0; 32];
    regs[G0] = 16;
    View {
        count: 3,
        ip: 0x1010,
        ac: 0,
        pc: 0x001F_2002,
        tc: 0,
        regs,
        marks: 0,
    }
}

/// The line of an instruction under the filter of a closure.
fn line_by<F: Fn(u32) -> bool + AddressTest>(
    alloc: Global,
    f: F,
    i: &Issued,
) -> Result<Option<Vec<u8>>, NoMemory>
    requires { TakesEachAddress (F.AddressTest.can_test f) }
    ensures { IsTraced (F.AddressTest.allows f) i.now result }
{
    trace_line(alloc, &Filter::new(f), i)
}

/// The line of an instruction under the filter from `low` to `high`: it is there exactly for the addresses of these.
fn line_within(alloc: Global, low: u32, high: u32, i: &Issued) -> Result<Option<Vec<u8>>, NoMemory>
    ensures there { IfOk result (λ line.
        IsSome line ↔ ((low ≤ i.now.address) × (i.now.address ≤ high))) }
    ensures text { IfOk result (λ line. IfSome line (λ t.
        t.items ≡ trace_text i.now.count i.now.address i.now.first i.now.second)) }
{
    let is_within = |a: u32|
        ensures { result ≡ (nat_le low a && nat_le a high) }
    { low <= a && a <= high };
    line_by(alloc, is_within, i)
}

/// Whether an address passes the filter of a closure.
fn passes_by<F: Fn(u32) -> bool + AddressTest>(f: F, a: u32) -> bool
    requires { TakesEachAddress (F.AddressTest.can_test f) }
    ensures { F.AddressTest.allows f a result }
{
    Filter::new(f).passes(a)
}

/// Whether the stop of a closure holds at a view.
fn holds_by<F: Fn(&View) -> bool + ViewTest>(f: F, v: &View) -> bool
    requires takes { TakesEachView (F.ViewTest.can_test f) }
    requires count { v.now.count < 2 ^ 32 }
    ensures { F.ViewTest.allows f v.now result }
{
    Stop::new(f).holds(v)
}

/// Whether this is the line that is wanted, or none where none is.
fn is_line(line: Option<Vec<u8>>, wanted: Option<&str>) -> bool {
    match (line, wanted) {
        (Some(line), Some(wanted)) => line.as_slice() == wanted.as_bytes(),
        (None, None) => true,
        _ => false,
    }
}

#[test]
fn traces_the_addresses_of_a_filter(rt: HostRuntime) -> Result<(), Fail> {
    // The first and the last address that pass, and the line of the instruction at 1010.
    let rows = [
        (0x1010, 0x1010, Some(MOVE_LINE)),
        (0x1010, 0x2000, Some(MOVE_LINE)),
        (0x1000, 0x1010, Some(MOVE_LINE)),
        (0, LAST, Some(MOVE_LINE)),
        (0x1011, LAST, None),
        (0, 0x100F, None),
        (0x1011, 0x100F, None),
        (LAST, LAST, None),
    ];
    for (low, high, wanted) in rows {
        let line = line_within(rt.alloc(), low, high, &MOVE)?;
        must_at(&rt, is_line(line, wanted), (low, high));
    }
    Ok(())
}

#[test]
fn prints_instructions(rt: HostRuntime) -> Result<(), Fail> {
    // The count, the address, the words, and the line.
    let rows = [
        // Two words, of which the second is the offset.
        (
            0,
            0x1000,
            0x8CA0_3000,
            0x0000_1000,
            "#t 0 00001000 lda 0x00001000, g4\n",
        ),
        // A branch of 16 bytes, which depends on the address.
        (
            10,
            0xABCD_EF00,
            0x0800_0010,
            0,
            "#t 10 ABCDEF00 b 0xABCDEF10\n",
        ),
        // No name has this opcode and extension.
        (
            u64::MAX,
            0xFFFF_FFFC,
            0x5900_0280,
            0,
            "#t 18446744073709551615 FFFFFFFC .word 0x59000280\n",
        ),
        // The first address.
        (1, 0, 0x6600_0780, 0, "#t 1 00000000 syncf\n"),
    ];
    for (count, address, first, second, wanted) in rows {
        let issued = Issued {
            count,
            address,
            first,
            second,
        };
        let line = line_within(rt.alloc(), 0, LAST, &issued)?;
        must_at(&rt, is_line(line, Some(wanted)), wanted);
    }
    Ok(())
}

#[test]
fn asks_a_filter(rt: HostRuntime) {
    // An address, whether it is a multiple of 16, and whether it is below 1000.
    let rows = [
        (0, true, true),
        (0xFF8, false, true),
        (0x1000, true, false),
        (LAST, false, false),
    ];
    for (a, is_even, is_low) in rows {
        same_at(&rt, passes_by(|a| a % 16 == 0, a), is_even, a);
        same_at(&rt, passes_by(|a| a < 0x1000, a), is_low, a);
    }
}

#[test]
fn stops_at_views(rt: HostRuntime) {
    let shown = shown();
    // An instruction address, and whether the view is one there.
    let rows = [(0x1010, true), (0x100C, false), (0x1014, false)];
    for (ip, wanted) in rows {
        same_at(&rt, holds_by(|v| v.ip == ip, &shown), wanted, ip);
    }
    must(&rt, holds_by(|v| v.count == 3 && v.regs[G0] == 16, &shown));
    must(
        &rt,
        !holds_by(|v| v.count == 3 && v.regs[G0 - 1] == 16, &shown),
    );
}
