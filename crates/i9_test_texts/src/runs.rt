use crate::check::{must, same};
use i9_hex::{Segments, one_list, runs_of};
use std::alloc::Global;
use std::test::Fail;

// An image in the order of its bytes, and its runs, worked by hand.
#[test]
fn finds_runs(rt: HostRuntime) -> Result<(), Fail> {
    one_list();
    let mut image = Segments::new(rt.alloc());
    for (address, byte) in [
        (0x2000, 1),
        (0xFFFF_FFFF, 2),
        (0, 3),
        (0x1001, 4),
        (0x1000, 5),
        // The later of two bytes counts.
        (0x2000, 6),
    ] {
        image.put(address, byte)?;
    }
    let wanted: [(u32, &[u8]); 4] = [
        (0, b"\x03"),
        (0x1000, b"\x05\x04"),
        (0x2000, b"\x06"),
        (0xFFFF_FFFF, b"\x02"),
    ];
    let runs = runs_of(rt.alloc(), &image)?;
    let found = runs.as_slice();
    same(&rt, found.len(), wanted.len());
    for (run, (address, bytes)) in found.iter().zip(wanted.iter()) {
        same(&rt, run.address, *address);
        must(&rt, run.bytes.as_slice() == *bytes);
    }
    Ok(())
}
