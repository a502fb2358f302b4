//! Blocks whose turns and orders were worked out by hand from the rules, and blocks at fault.
use crate::check::{must, same};
use crate::segments::segments_of;
use i9_tune::{BlockError, allowed, block_in, block_line, span, tune, tuning};
use std::alloc::Global;
use std::test::Fail;

/// What is printed of blocks. The first line of each has the address of the block, the number of its instructions, and
/// the segments of the image.
const BLOCKS: &str = "\
1000 4 1000:8318917012809C59010EA05C020EA85C
.org 0x00001000
mulo 3, 4, g2 # 00001000 70911883
mov 1, g4 # 00001004 5CA00E01
mov 2, g5 # 00001008 5CA80E02
addo g2, g2, g3 # 0000100C 599C8012
#tune 00001000 4 9 7

1000 2 1000:0198A0591406A85C
.org 0x00001000
addo 1, 2, g4 # 00001000 59A09801
mov g4, g5 # 00001004 5CA80614
#tune 00001000 2 3 3

1000 4 1000:9040947000B49C8C78563412010EA05C020EA85C
.org 0x00001000
mulo g0, g1, g2 # 00001000 70944090
mov 1, g4 # 00001004 5CA00E01
mov 2, g5 # 00001008 5CA80E02
lda 0x12345678(g2), g3 # 0000100C 8C9CB400 12345678
#tune 00001000 4 8 7

1018 7 1018:0020949000609C9092C0A4701440AD590408845904488C590189B559
.org 0x00001018
ld (g0), g2 # 00001018 90942000
addo 4, g0, g0 # 0000101C 59840804
ld (g1), g3 # 00001020 909C6000
addo 4, g1, g1 # 00001024 598C4804
mulo g2, g3, g4 # 00001028 70A4C092
subo 1, g6, g6 # 0000102C 59B58901
addo g4, g5, g5 # 00001030 59AD4014
#tune 00001018 7 12 9

FFFFFFFC 2 FFFFFFFC:0198A0591406A85C
.org 0xFFFFFFFC
addo 1, 2, g4 # FFFFFFFC 59A09801
mov g4, g5 # 00000000 5CA80614
#tune FFFFFFFC 2 3 3

1004 1 1000:00000000014EA05C
.org 0x00001004
mov 1, g4 # 00001004 5CA00E01
#tune 00001004 1 2 2

1000 1 1001:0EA05C
#block kind 1 00001000

1000 1 1000:01 1002:A05C
#block kind 1 00001000

1000 1 1000:010E 1003:5C
#block kind 1 00001000

1000 1 1000:010EA0
#block kind 1 00001000

1000 1 1000:00B49C8C 1005:563412
#block kind 1 00001000

1000 1 1000:00B49C8C78 1006:3412
#block kind 1 00001000

1000 1 1000:00B49C8C7856 1007:12
#block kind 1 00001000

1000 1 1000:00B49C8C785634
#block kind 1 00001000

1000 3 1000:010EA05C020EA85C
#block kind 1 00001008

1000 2 1000:010EA05C08000008
#block kind 2 00001004

1000 1 1000:00000000
#block kind 2 00001000

1000 1 1000:20C0A459
#block kind 2 00001000

1000 1 1000:0014A09010000000
#block kind 2 00001000

1000 1 1000:0014A090
#block kind 1 00001000

1000 1 1000:0001A8B0
#block kind 2 00001000";

/// What is printed of a block: its address, the number of its instructions, and the image where it stands.
fn printed(alloc: Global, given: &str) -> Result<Vec<u8>, Fail> {
    let (address, rest) = given.split_once(" ").unwrap_or((given, ""));
    let (count, segments) = rest.split_once(" ").unwrap_or((rest, ""));
    let address = u32::from_str_radix(address, 16)? / 4 * 4;
    let count = u8::from_str_radix(count, 10)?.min(64);
    match block_in(alloc, &segments_of(alloc, segments)?, address, count) {
        Ok(block) => Ok(tuning(alloc, address, &block)?),
        Err(BlockError::Bad(fault)) => Ok(block_line(alloc, &fault)?),
        Err(BlockError::Memory) => Err(Fail::from(i9_isa::NoMemory)),
    }
}

#[test]
fn prints_blocks(rt: HostRuntime) -> Result<(), Fail> {
    let alloc = rt.alloc();
    for row in BLOCKS.split("\n\n") {
        let (given, lines) = row.split_once("\n").unwrap_or((row, ""));
        let wanted = format!(in alloc; "{lines}\n")?;
        let text = printed(alloc, given)?;
        must(&rt, text.as_slice() == wanted.as_bytes());
    }
    Ok(())
}

#[test]
fn tunes_a_block(rt: HostRuntime) -> Result<(), Fail> {
    let alloc = rt.alloc();
    let image = segments_of(alloc, "1000:8318917012809C59010EA05C020EA85C")?;
    let Ok(block) = block_in(alloc, &image, 0x1000, 4) else {
        return Err(Fail::from(i9_isa::NoMemory));
    };
    assert!(rt; allowed(&block[1]));
    same(&rt, span(&block), 9);
    let tuned = tune(alloc, &block)?;
    same(&rt, tuned[3], block[1]);
    same(&rt, span(&tuned), 7);
    Ok(())
}
