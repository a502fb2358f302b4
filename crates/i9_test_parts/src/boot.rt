//! Start-up, worked out by hand.
use crate::check::{must_at, same};
use crate::storage::{left, put_words};
use i9_boot::{CONTROL_WORDS, Setup, boot, control_group, reinit};
use i9_memory::Memory;
use i9_watch::Watch;
use std::alloc::Global;
use std::test::Fail;

/// A configuration word with bit 22, which makes its region big-endian.
const BIG_ENDIAN: u32 = 0x0040_0000;

/// A control table. The configuration word of each region r has r read waits and r + 16 write waits,
/// and makes the odd regions big-endian.
const CONTROL: [u32; CONTROL_WORDS] = [
    0xA000_0000,
    0xA000_0001,
    0xA000_0002,
    0xA000_0003,
    0xB000_0000,
    0xB000_0001,
    0xB000_0002,
    0xB000_0003,
    0x0001_0000,
    0x0041_1008,
    0x0001_2010,
    0x0041_3018,
    0x0001_4020,
    0x0041_5028,
    0x0001_6030,
    0x0041_7038,
    0x0001_8040,
    0x0041_9048,
    0x0001_A050,
    0x0041_B058,
    0x0001_C060,
    0x0041_D068,
    0x0001_E070,
    0x0041_F078,
    0xC000_0000,
    0xC000_0001,
    0xFFFF_FFFF,
    0xC000_0003,
];

/// Lays bytes from an address on.
fn put_bytes(memory: &mut Memory, a: u32, bytes: &[u8]) -> Result<(), Fail> {
    let mut at = a;
    for byte in bytes {
        memory.reserve(at, 1)?;
        memory.put_byte(at, *byte);
        at = at.wrapping_add(1);
    }
    Ok(())
}

/// Lays the four boot bytes.
fn put_boot_bytes(memory: &mut Memory, bytes: [u8; 4]) -> Result<(), Fail> {
    let mut at = 0xFFFF_FF00_u32;
    for byte in bytes {
        put_bytes(memory, at, &[byte])?;
        at = at.wrapping_add(4);
    }
    Ok(())
}

/// Lays a PRCB that names a control table, and that control table.
fn put_tables(memory: &mut Memory, prcb: u32, table: u32, control: &[u32]) -> Result<(), Fail> {
    let words = [
        0x0000_1110,
        table,
        0xFFFF_6EFF,
        0x4000_0000,
        0x0000_4440,
        0x0000_5550,
        0x0000_6660,
        0x0000_7770,
        0x0000_8880,
        0x0000_9997,
    ];
    put_words(memory, prcb, &words)?;
    put_words(memory, table, control)
}

/// What is read of these tables.
fn wanted(first: u32, table: u32) -> Setup {
    Setup {
        first,
        fault_table: 0x0000_1110,
        control_table: table,
        ac: 0x0000_0007,
        fault_config: 0x4000_0000,
        interrupt_table: 0x0000_4440,
        system_table: 0x0000_5550,
        interrupt_stack: 0x0000_7770,
        sets: 7,
        control: CONTROL,
    }
}

/// Whether each region is configured as the control table says.
fn is_configured(memory: &Memory) -> bool {
    for region in 0..16_u8 {
        let waits = u64::from(region);
        let is_right = memory.waits(region, false) == waits
            && memory.waits(region, true) == waits + 16
            && memory.big(region) == (waits % 2 == 1);
        if !is_right {
            return false;
        }
    }
    true
}

/// A watch with soft bytes: those of frames that were saved here and returned from.
fn watch(alloc: Global, frames: &[u32]) -> Result<Watch, Fail> {
    let mut watch = Watch::new(alloc);
    left(&mut watch, frames)?;
    Ok(watch)
}

/// A memory with boot bytes, a boot record and tables.
fn bootable(alloc: Global, prcb: u32, table: u32) -> Result<Memory, Fail> {
    let mut memory = Memory::new(alloc);
    put_boot_bytes(&mut memory, [0xFF, 0x7F, 0x80, 0x01])?;
    put_words(&mut memory, 0xFFFF_FF10, &[0x0000_1236, prcb])?;
    put_tables(&mut memory, prcb, table, &CONTROL)?;
    Ok(memory)
}

#[test]
fn boots(rt: HostRuntime) -> Result<(), Fail> {
    // Tables may run on from the last address to 0.
    let rows = [
        (0x2000, 0x3000),
        (0x2001, 0x2FFF_FFFE),
        (0xFFFF_FFF0, 0x3000),
        (0x2000, 0xFFFF_FFC0),
    ];
    for (prcb, table) in rows {
        let mut memory = bootable(rt.alloc(), prcb, table)?;
        same(&rt, boot(&mut memory), wanted(0x0000_1236, table));
        must_at(&rt, is_configured(&memory), (prcb, table));
        let bytes = [memory.byte(0xFFFF_FF04), memory.byte(prcb.wrapping_add(9))];
        same(&rt, bytes, [0x7F, 0x6E]);
    }
    Ok(())
}

/// A memory with these boot bytes, and a boot record with PRCBs for either order.
fn of_both_orders(alloc: Global, bytes: [u8; 4]) -> Result<Memory, Fail> {
    let mut memory = Memory::new(alloc);
    put_boot_bytes(&mut memory, bytes)?;
    put_bytes(&mut memory, 0xFFFF_FF10, &[0x12, 0x34, 0x56, 0x78])?;
    put_bytes(&mut memory, 0xFFFF_FF14, &[0xFF, 0xFF, 0x00, 0x00])?;
    put_bytes(&mut memory, 0xFFFF_0000, &[0x01, 0x02, 0x03, 0x04])?;
    put_bytes(&mut memory, 0x0000_FFFF, &[0x05, 0x06, 0x07, 0x08])?;
    Ok(memory)
}

#[test]
fn boot_bytes_give_the_order(rt: HostRuntime) -> Result<(), Fail> {
    // The third byte has bit 22 of the word. Big-endian, the PRCB is in region 15 itself, and
    // little-endian in region 0. The control table is at 0 and makes region 15 little-endian.
    let rows = [
        ([0x00, 0x00, 0x40, 0x00], 0x1234_5678, 0x0102_0304),
        ([0x00, 0x40, 0x00, 0x00], 0x7856_3412, 0x0807_0605),
        ([0x40, 0x00, 0x00, 0x00], 0x7856_3412, 0x0807_0605),
        ([0x00, 0x00, 0x00, 0x40], 0x7856_3412, 0x0807_0605),
        ([0xFF, 0xFF, 0xBF, 0xFF], 0x7856_3412, 0x0807_0605),
        ([0xFF, 0xFF, 0xFF, 0xFF], 0x1234_5678, 0x0102_0304),
    ];
    for (bytes, first, fault_table) in rows {
        let mut memory = of_both_orders(rt.alloc(), bytes)?;
        let setup = boot(&mut memory);
        same(&rt, (setup.first, setup.fault_table), (first, fault_table));
        same(&rt, (memory.big(15), memory.waits(15, true)), (false, 0));
    }
    Ok(())
}

#[test]
fn configures_after_all_words(rt: HostRuntime) -> Result<(), Fail> {
    // The first configuration word makes the region of the control table big-endian.
    let mut control = [0; CONTROL_WORDS];
    control[8] = BIG_ENDIAN;
    control[9] = 0x0102_0304;
    control[27] = 0x0506_0708;
    let watch = Watch::new(rt.alloc());
    for boots in [true, false] {
        let mut memory = Memory::new(rt.alloc());
        put_words(&mut memory, 0xFFFF_FF10, &[0x1230, 0x2000])?;
        put_tables(&mut memory, 0x2000, 0x3000, &control)?;
        let setup = if boots {
            Ok(boot(&mut memory))
        } else {
            reinit(&mut memory, &watch, 0x1230, 0x2000)
        };
        let Ok(setup) = setup else {
            return Err("a hazard".into());
        };
        same(&rt, setup.control, control);
        let held = (memory.big(0), memory.word(0x3024), memory.word(0x306C));
        same(&rt, held, (true, 0x0403_0201, 0x0807_0605));
    }
    Ok(())
}

#[test]
fn starts_anew(rt: HostRuntime) -> Result<(), Fail> {
    // Each region has the order that it had before, here region 1 big-endian.
    let rows = [
        (0x2000, 0x3000),
        (0x1000_2000, 0x1000_3000),
        (0x2000, 0x1FFF_FFFE),
        (0xFFFF_FFFE, 0x1000_3000),
        (0x2000, 0xFFFF_FFA2),
    ];
    let watch = watch(rt.alloc(), &[0x2040, 0x3070, 0x2FC0])?;
    for (prcb, table) in rows {
        let mut memory = Memory::new(rt.alloc());
        memory.configure(1, BIG_ENDIAN);
        put_tables(&mut memory, prcb, table, &CONTROL)?;
        same(
            &rt,
            reinit(&mut memory, &watch, 0x1236, prcb),
            Ok(wanted(0x1236, table)),
        );
        must_at(&rt, is_configured(&memory), (prcb, table));
    }
    Ok(())
}

#[test]
fn reads_images(rt: HostRuntime) -> Result<(), Fail> {
    // The AC image and the word of the register cache, and what is kept of them.
    let rows = [
        (0x0000_0000, 0x0000_0000, 0x0000, 5),
        (0xFFFF_FFFF, 0x0000_0005, 0x9107, 5),
        (0x0000_A008, 0x0000_000F, 0x8000, 15),
        (0x0001_1100, 0x0000_0013, 0x1100, 5),
        (0xFFFF_6EF8, 0xFFFF_FFF4, 0x0000, 5),
        (0x3B00_1001, 0x0000_0016, 0x1001, 6),
    ];
    let watch = Watch::new(rt.alloc());
    for (image, cache, ac, sets) in rows {
        let mut memory = Memory::new(rt.alloc());
        put_tables(&mut memory, 0x2000, 0x3000, &CONTROL)?;
        put_words(&mut memory, 0x2008, &[image])?;
        put_words(&mut memory, 0x2024, &[cache])?;
        let setup = reinit(&mut memory, &watch, 0, 0x2000);
        same(&rt, setup.map(|s| (s.ac, s.sets)), Ok((ac, sets)));
    }
    Ok(())
}

#[test]
fn refuses_soft_tables(rt: HostRuntime) -> Result<(), Fail> {
    // Frames whose bytes are soft, the PRCB and the control table, and the hazard.
    let rows: [(&[u32], u32, u32, u32); 10] = [
        (&[0x2020], 0x2000, 0x3000, 0x2020),
        (&[0x1FC0], 0x1FFE, 0x3000, 0x1FFE),
        (&[0x2040], 0x2019, 0x3000, 0x2040),
        (&[0x3060], 0x2000, 0x3000, 0x3060),
        (&[0x3070], 0x2000, 0x3001, 0x3070),
        (&[0x2FC0], 0x2000, 0x2FFE, 0x2FFE),
        // The PRCB is read first.
        (&[0x3000, 0x2020], 0x2000, 0x3000, 0x2020),
        (&[0x1000, 0x2020], 0x2000, 0x1000, 0x2020),
        // Bytes are counted upwards, from the last address on to 0.
        (&[0xFFFF_FFF0], 0xFFFF_FFE8, 0x3000, 0xFFFF_FFF0),
        (&[0x0000_0020], 0x2000, 0xFFFF_FFC0, 0x0000_0020),
    ];
    for (frames, prcb, table, hazard) in rows {
        let watch = watch(rt.alloc(), frames)?;
        let mut memory = Memory::new(rt.alloc());
        memory.configure(2, 0x0001_F008);
        put_tables(&mut memory, prcb, table, &CONTROL)?;
        same(&rt, reinit(&mut memory, &watch, 0, prcb), Err(hazard));
        let left = (memory.big(1), memory.waits(2, false), memory.waits(2, true));
        same(&rt, left, (false, 1, 31));
    }
    Ok(())
}

#[test]
fn reads_control_groups(rt: HostRuntime) -> Result<(), Fail> {
    let watch = watch(rt.alloc(), &[0x3070, 0x2FC0])?;
    // The table at FFFFFFB0 runs on to 0 in its sixth group, that at FFFFFFD8 in its third.
    for table in [0x3000, 0x1000_3000, 0xFFFF_FFB0, 0xFFFF_FFD8] {
        let mut memory = Memory::new(rt.alloc());
        memory.configure(1, BIG_ENDIAN);
        put_words(&mut memory, table, &CONTROL)?;
        for group in 0..7_u8 {
            let first = usize::from(group) * 4;
            let wanted = [
                CONTROL[first],
                CONTROL[first + 1],
                CONTROL[first + 2],
                CONTROL[first + 3],
            ];
            same(
                &rt,
                control_group(&memory, &watch, table, group),
                Ok(wanted),
            );
        }
    }
    Ok(())
}

#[test]
fn refuses_soft_control_groups(rt: HostRuntime) -> Result<(), Fail> {
    let memory = Memory::new(rt.alloc());
    let watch = watch(rt.alloc(), &[0x3060, 0xFFFF_FFF0])?;
    let rows: [(u32, u8, Result<[u32; 4], u32>); 7] = [
        (0x3000, 6, Err(0x3060)),
        (0x3000, 5, Ok([0; 4])),
        (0x3008, 5, Err(0x3060)),
        (0x3090, 1, Ok([0; 4])),
        (0x309F, 0, Err(0x309F)),
        (0xFFFF_FFC8, 2, Err(0xFFFF_FFF0)),
        (0xFFFF_FFC0, 4, Err(0)),
    ];
    for (table, group, wanted) in rows {
        if group < 7 {
            same(&rt, control_group(&memory, &watch, table, group), wanted);
        }
    }
    Ok(())
}
