//! Frames, hazards and marks, worked out by hand.
use crate::check::{must_at, same, same_at};
use crate::storage::save;
use i9_watch::{Push, Watch};
use std::test::Fail;

/// Whether a byte is soft, whether it is one of a live frame, and whether it is in a marked word of one.
fn shown(watch: &Watch, address: u32) -> (bool, bool, bool) {
    (
        watch.soft(address),
        watch.check_write(address, 1).is_some(),
        watch.live_mark(address),
    )
}

// The frames at 40 and 80 are saved, the second with its word 1 marked. Then the second is returned to, and one at D0,
// across the border of a page, is saved in the copy. The columns are an address, and what is shown of it.
#[test]
fn copies_are_apart(rt: HostRuntime) -> Result<(), Fail> {
    let mut watch = Watch::new(rt.alloc());
    save(&mut watch, 0x40, 0)?;
    save(&mut watch, 0x80, 2)?;
    let mut copy = watch.copy()?;
    if watch.first_live().is_some() {
        let _ = watch.returned();
    }
    save(&mut copy, 0xD0, 0)?;
    let rows = [
        (0x3F, (false, false, false), (false, false, false)),
        (0x40, (true, true, false), (true, true, false)),
        (0x83, (true, false, false), (true, true, false)),
        (0x84, (true, false, false), (true, true, true)),
        (0x87, (true, false, false), (true, true, true)),
        (0x88, (true, false, false), (true, true, false)),
        (0xBF, (true, false, false), (true, true, false)),
        (0xC0, (false, false, false), (false, false, false)),
        (0xD0, (false, false, false), (true, true, false)),
        (0x10F, (false, false, false), (true, true, false)),
        (0x110, (false, false, false), (false, false, false)),
    ];
    for (address, marks, of_copy) in rows {
        same_at(&rt, shown(&watch, address), marks, address);
        same_at(
            &rt,
            shown(&copy, address),
            of_copy,
            ("of the copy", address),
        );
    }
    let live = [watch.live_at(0), watch.live_at(1), watch.live_at(2)];
    same(&rt, live, [Some(0x40), None, None]);
    let live = [copy.live_at(0), copy.live_at(1), copy.live_at(2)];
    same(&rt, live, [Some(0xD0), Some(0x80), Some(0x40)]);
    Ok(())
}

/// What is done to a watch, or what it is asked and has to answer.
#[derive(Clone, Copy)]
enum Step {
    Save(u32),
    Return,
    Flush,
    Store(u32, u32),
    Reads(u32, u32, Option<u32>),
    ReadsFlushed(u32, u32, Option<u32>),
    Writes(u32, u32, Option<u32>),
    Returns(u32, Option<u32>),
    IsSoft(u32, bool),
    LiveAt(u64, Option<u32>),
}

use Step::{Flush, IsSoft, LiveAt, Reads, ReadsFlushed, Return, Returns, Save, Store, Writes};

/// Returns to the youngest live frame, where there is one: the marks of its words.
fn leave(watch: &mut Watch) -> Option<u16> {
    match watch.first_live() {
        None => None,
        Some(_) => Some(watch.returned()),
    }
}

/// Does a step; false where the answer is another one.
fn does(watch: &mut Watch, step: Step) -> Result<bool, Fail> {
    match step {
        Save(fp) => save(watch, fp, 0)?,
        Return => {
            let _ = leave(watch);
        }
        Flush => watch.flushed(),
        Store(a, n) => watch.wrote(a, n),
        Reads(a, n, wanted) => return Ok(watch.check_read(a, n) == wanted),
        ReadsFlushed(a, n, wanted) => return Ok(watch.check_flushed_read(a, n) == wanted),
        Writes(a, n, wanted) => return Ok(watch.check_write(a, n) == wanted),
        Returns(a, wanted) => return Ok(watch.check_ret(a) == wanted),
        IsSoft(a, wanted) => return Ok(watch.soft(a) == wanted),
        LiveAt(k, wanted) => return Ok(watch.live_at(k) == wanted),
    }
    Ok(true)
}

#[test]
fn keeps_frames(rt: HostRuntime) -> Result<(), Fail> {
    let stories: [&[Step]; 8] = [
        // A store into a live frame makes its bytes hard, and is a hazard all the same.
        &[
            Reads(16, 4, None),
            Save(0),
            LiveAt(0, Some(0)),
            LiveAt(1, None),
            Reads(16, 4, Some(16)),
            Writes(60, 8, Some(60)),
            Writes(64, 8, None),
            Store(16, 4),
            IsSoft(16, false),
            Reads(16, 4, None),
            Reads(12, 8, Some(12)),
            Reads(16, 8, Some(20)),
            Writes(16, 4, Some(16)),
        ],
        // Only the youngest frame is returned to, until a flush.
        &[
            Save(0x40),
            Save(0x9F),
            LiveAt(0, Some(0x90)),
            LiveAt(1, Some(0x40)),
            Returns(0x40, Some(0x40)),
            Returns(0x400, Some(0x400)),
            Returns(0x90, None),
            Flush,
            LiveAt(0, None),
            IsSoft(0x40, false),
            Returns(0x40, None),
            Returns(0x400, None),
        ],
        // The bytes of a frame that was returned to stay soft, through a flush too.
        &[
            Save(0x40),
            Save(0x80),
            Return,
            LiveAt(0, Some(0x40)),
            Writes(0x80, 4, None),
            Reads(0x40, 65, Some(0x40)),
            ReadsFlushed(0x40, 64, None),
            ReadsFlushed(0x40, 65, Some(0x80)),
            ReadsFlushed(0xBF, 4, Some(0xBF)),
            ReadsFlushed(0xC0, 4, None),
            Flush,
            Reads(0x40, 64, None),
            Reads(0x40, 65, Some(0x80)),
            // Of a frame that is read from memory, the return address alone has to be known.
            Returns(0x70, None),
            Returns(0x78, Some(0x80)),
        ],
        // A frame's bytes run on from the last address to 0.
        &[
            Save(0xFFFF_FFE0),
            IsSoft(0xFFFF_FFFF, true),
            IsSoft(0x1F, true),
            IsSoft(0x20, false),
            Reads(0xFFFF_FFDC, 8, Some(0xFFFF_FFE0)),
            Writes(0xFFFF_FFFE, 4, Some(0xFFFF_FFFE)),
            Writes(0x1E, 4, Some(0x1E)),
        ],
        // A frame across the border of a page, and one that is saved over it after its return.
        &[
            Save(0xD0),
            IsSoft(0xCF, false),
            IsSoft(0x10F, true),
            IsSoft(0x110, false),
            Writes(0xCC, 4, None),
            Writes(0xCC, 8, Some(0xD0)),
            Writes(0xFE, 4, Some(0xFE)),
            Writes(0x100, 4, Some(0x100)),
            Writes(0x110, 4, None),
            Store(0xFE, 4),
            Reads(0xFE, 4, None),
            Reads(0xFE, 5, Some(0x102)),
            Return,
            Writes(0xD0, 64, None),
            Reads(0xF0, 64, Some(0xF0)),
            Save(0xE0),
            IsSoft(0xFE, true),
            Writes(0xDF, 1, None),
            Writes(0xDF, 2, Some(0xE0)),
            Writes(0x11F, 2, Some(0x11F)),
            Flush,
            Writes(0xD0, 128, None),
            Reads(0xD0, 64, Some(0xD0)),
            Reads(0xE0, 64, None),
        ],
        // Frames on both sides of the last address.
        &[
            Save(0xFFFF_FFC0),
            Writes(0, 64, None),
            Save(0),
            Writes(0xFFFF_FFBF, 1, None),
            Writes(0xFFFF_FFBF, 2, Some(0xFFFF_FFC0)),
            Return,
            Writes(0, 64, None),
            Writes(0xFFFF_FFFE, 4, Some(0xFFFF_FFFE)),
            ReadsFlushed(0xFFFF_FFC0, 128, Some(0)),
            Flush,
            Reads(0xFFFF_FFC0, 64, None),
            Reads(0xFFFF_FFC0, 128, Some(0)),
        ],
        // Frames side by side, of which the younger one is returned to.
        &[
            Save(0x110),
            Save(0x150),
            Writes(0x100, 0x10, None),
            Writes(0x100, 0x11, Some(0x110)),
            Writes(0x18F, 2, Some(0x18F)),
            Writes(0x190, 16, None),
            Return,
            Writes(0x14F, 2, Some(0x14F)),
            Writes(0x150, 64, None),
        ],
        // A frame that is returned to may not lie in the port page.
        &[
            Returns(0xDFFF_FFD0, Some(0xE000_0000)),
            Returns(0xDFFF_FFC0, None),
            Returns(0xE000_0FF0, Some(0xE000_0FF0)),
            Returns(0xE000_1000, None),
        ],
    ];
    for (number, story) in stories.iter().enumerate() {
        let mut watch = Watch::new(rt.alloc());
        for (index, step) in story.iter().enumerate() {
            let is_right = does(&mut watch, *step)?;
            must_at(&rt, is_right, (number, index));
        }
    }
    Ok(())
}

/// What a push makes, with a record of 16 bytes or without one.
fn plan(watch: &Watch, fp: u32, base: u32, has_record: bool, kind: u8) -> Result<Push, u32> {
    if has_record {
        watch.plan_push(fp, base, 16, kind % 8)
    } else {
        watch.plan_push(fp, base, 0, kind % 8)
    }
}

#[test]
fn plans_pushes(rt: HostRuntime) -> Result<(), Fail> {
    let mut watch = Watch::new(rt.alloc());
    save(&mut watch, 0x1000, 0)?;
    let push = |save: u32, frame: u32, pfp: u32, sp: u32| {
        Ok(Push {
            save,
            frame,
            pfp,
            sp,
        })
    };
    let rows = [
        ((0x40, 0x80, false, 0), push(0x40, 0x80, 0x40, 0xC0)),
        ((0x4F, 0x81, true, 1), push(0x40, 0xA0, 0x41, 0xE0)),
        // The new frame wraps,
        ((0x40, 0xFFFF_FFF8, false, 7), push(0x40, 0, 0x47, 0x40)),
        // or its end does.
        (
            (0x40, 0xFFFF_FFB1, true, 0),
            push(0x40, 0xFFFF_FFD0, 0x40, 0x10),
        ),
        // A save area that meets a live frame or the port page is refused.
        ((0x1030, 0x80, false, 0), Err(0x1030)),
        ((0xFC4, 0x80, false, 0), push(0xFC0, 0x80, 0xFC0, 0xC0)),
        ((0xFD4, 0x80, false, 0), Err(0x1000)),
        ((0xDFFF_FFF8, 0x80, false, 0), Err(0xE000_0000)),
        ((0xE000_0FFF, 0x80, false, 0), Err(0xE000_0FF0)),
    ];
    for ((fp, base, has_record, kind), wanted) in rows {
        same(&rt, plan(&watch, fp, base, has_record, kind), wanted);
    }
    Ok(())
}

#[test]
fn finds_the_port_page(rt: HostRuntime) {
    let rows = [
        (0xDFFF_FFFC, 4, None),
        (0xDFFF_FFFC, 8, Some(0xE000_0000)),
        (0xE000_0FFF, 2, Some(0xE000_0FFF)),
        (0xE000_1000, 4, None),
        (0xE000_0000, 0, None),
        (0, 0xE000_0000, None),
        (0, 0xE000_0001, Some(0xE000_0000)),
        (0xE000_1000, 0xFFFF_F000, None),
        (0xE000_1000, 0xFFFF_F001, Some(0xE000_0000)),
    ];
    for (a, n, wanted) in rows {
        same(&rt, Watch::touches_port(a, n), wanted);
    }
}

#[test]
fn flushes_many_frames(rt: HostRuntime) -> Result<(), Fail> {
    let mut watch = Watch::new(rt.alloc());
    for k in 0..100 {
        save(&mut watch, 0x1010 + 64 * k, 0)?;
    }
    same(&rt, watch.live_at(99), Some(0x1010));
    same(&rt, watch.check_write(0, 0x1_0000), Some(0x1010));
    same(&rt, watch.check_write(0x2910, 64), None);
    same(&rt, watch.check_flushed_read(0, 0x1_0000), None);
    watch.flushed();
    same(&rt, watch.first_live(), None);
    same(&rt, watch.check_write(0, 0x1_0000), None);
    same(&rt, watch.check_read(0, 0x1_0000), None);
    Ok(())
}

#[test]
fn refuses_no_room_that_is_there(rt: HostRuntime) -> Result<(), Fail> {
    let mut watch = Watch::new(rt.alloc());
    for page in 0..5000 {
        watch.reserve(256 * page)?;
    }
    watch.reserve(0xFFFF_FFF0)?;
    for k in 0..40 {
        save(&mut watch, 0xFFFF_FFF0 - 64 * k, 0)?;
    }
    same(&rt, watch.live_at(39), Some(0xFFFF_FFF0));
    Ok(())
}

/// 1 where there is room for marks of the page of an address, and 0 where there is none.
fn page_at(watch: &Watch, a: u32) -> usize {
    usize::from(watch.has_marks(a))
}

/// How many pages of marks there are in the first 2 MiB.
fn low_page_count(watch: &Watch) -> usize {
    let mut count = 0usize;
    for number in 0..0x2000_u32 {
        count = count.saturating_add(page_at(watch, number * 256));
    }
    count
}

/// How many pages of marks there are: of the first 2 MiB all are counted, and of the rest the first one and the last
/// one of each 64 KiB.
fn page_count(watch: &Watch) -> usize {
    let mut count = low_page_count(watch);
    for block in 0x20..0x1_0000_u32 {
        let first = page_at(watch, block * 0x1_0000);
        let last = page_at(watch, block * 0x1_0000 + 0xFF00);
        count = count.saturating_add(first).saturating_add(last);
    }
    count
}

/// There is a page of marks for each 256 addresses that have a byte of a frame, and no other.
#[test]
fn has_pages_of_frames(rt: HostRuntime) -> Result<(), Fail> {
    // A frame pointer, and how many pages there are behind the save of its frame.
    let rows = [
        (0x2000, 1),
        (0x20CF, 1),
        (0x2180, 2),
        (0x21D0, 3),
        (0xFFFF_FFF0, 5),
        (0xFFFF_FF00, 5),
        (0xE000_FFF0, 7),
    ];
    let mut watch = Watch::new(rt.alloc());
    same(&rt, page_count(&watch), 0);
    for (fp, wanted) in rows {
        save(&mut watch, fp, 0)?;
        same_at(&rt, page_count(&watch), wanted, fp);
    }
    watch.wrote(0x4000_0000, 256);
    let _ = leave(&mut watch);
    watch.flushed();
    same(&rt, page_count(&watch), 7);
    Ok(())
}

/// Words of a frame that are marked stay so until the frame is returned to, or is flushed; and a store of marked bytes
/// makes them soft.
#[test]
fn keeps_marks_of_words(rt: HostRuntime) -> Result<(), Fail> {
    let mut watch = Watch::new(rt.alloc());
    save(&mut watch, 0x1FF0, 0x8013)?;
    // Words 0, 1, 4 and 15 of the frame are marked.
    let rows = [
        (0x1FEF, false),
        (0x1FF0, true),
        (0x1FF7, true),
        (0x1FF8, false),
        (0x2000, true),
        (0x2003, true),
        (0x2004, false),
        (0x202B, false),
        (0x202C, true),
        (0x2030, false),
    ];
    for (a, wanted) in rows {
        same(&rt, watch.live_mark(a), wanted);
    }
    same(&rt, watch.stale(0x1FEE, 4), 0b1100);
    same(&rt, watch.check_flushed_read(0x1FF8, 16), Some(0x2000));
    same(&rt, watch.return_marks(0x1FF0), 0x8013);
    same(&rt, leave(&mut watch), Some(0x8013));
    same(&rt, watch.live_mark(0x1FF0), false);
    // Where no frame is live, a word with a soft byte is marked.
    same(&rt, watch.return_marks(0x1FF0), 0xFFFF);
    same(&rt, watch.return_marks(0x2025), 0x0007);
    same(&rt, watch.stale(0x2028, 16), 0x00FF);
    // Of a frame that is flushed, the marked words stay soft.
    save(&mut watch, 0x4000, 2)?;
    watch.flushed();
    same(&rt, watch.stale(0x4000, 16), 0x00F0);
    // A store of marked bytes makes them soft.
    watch.reserve_bytes(0x60FE, 4)?;
    watch.wrote_marked(0x60FE, 4, 0b0110);
    same(&rt, watch.stale(0x60FD, 6), 0b0_1100);
    watch.wrote(0x60FF, 1);
    same(&rt, watch.stale(0x60FD, 6), 0b0_1000);
    Ok(())
}
