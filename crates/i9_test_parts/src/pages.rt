//! Pages, put and found by hand.
use crate::check::must_at;
use i9_memory::PageTable;
use std::test::Fail;

/// How many numbers can have a page.
const NUMBERS: u32 = 0x100_0000;

/// What is done to a table, or what it has to hold.
#[derive(Clone, Copy)]
enum Step {
    Put(u32, u8),
    Change(u32, u8),
    Remove(u32),
    Holds(u32, u8),
    Lacks(u32),
}

use Step::{Change, Holds, Lacks, Put, Remove};

/// Does a step; false where the table holds something else.
fn does(table: &mut PageTable<u8>, step: Step) -> Result<bool, Fail> {
    match step {
        Put(number, page) => {
            if number < NUMBERS {
                table.insert(number, page)?;
            }
        }
        Change(number, page) => match table.get_mut(number) {
            None => return Ok(false),
            Some(place) => *place = page,
        },
        Remove(number) => table.remove(number),
        Holds(number, page) => {
            return Ok(table.contains(number) && table.get(number).copied() == Some(page));
        }
        Lacks(number) => {
            let is_there = table.contains(number) || table.get(number).is_some();
            return Ok(!is_there && table.get_mut(number).is_none());
        }
    }
    Ok(true)
}

#[test]
fn holds_pages(rt: HostRuntime) -> Result<(), Fail> {
    let stories: [&[Step]; 5] = [
        // An empty table has no page, and there is none to take away.
        &[
            Lacks(0),
            Lacks(0xFF_FFFF),
            Lacks(0xFFFF_FFFF),
            Remove(0),
            Remove(0xFFFF_FFFF),
            Lacks(0),
        ],
        // Numbers that differ in one of their three bytes have pages of their own.
        &[
            Put(0x01_0203, 1),
            Put(0x01_0204, 2),
            Put(0x01_0303, 3),
            Put(0x02_0203, 4),
            Holds(0x01_0203, 1),
            Holds(0x01_0204, 2),
            Holds(0x01_0303, 3),
            Holds(0x02_0203, 4),
            Lacks(0x01_0202),
            Lacks(0x01_0304),
            Lacks(0x03_0201),
            Lacks(0x0101_0203),
        ],
        // The first and the last place of each level.
        &[
            Put(0, 1),
            Put(0xFF, 2),
            Put(0x100, 3),
            Put(0xFFFF, 4),
            Put(0x1_0000, 5),
            Put(0xFF_FFFF, 6),
            Holds(0, 1),
            Holds(0xFF, 2),
            Holds(0x100, 3),
            Holds(0xFFFF, 4),
            Holds(0x1_0000, 5),
            Holds(0xFF_FFFF, 6),
            Lacks(0xFE),
            Lacks(0xFF_FFFE),
            Lacks(0x100_0000),
            Lacks(0x1FF_FFFF),
        ],
        // A page is changed in place, or by another one.
        &[
            Put(0x12_3456, 1),
            Put(0x12_3457, 2),
            Change(0x12_3456, 3),
            Holds(0x12_3456, 3),
            Put(0x12_3456, 4),
            Holds(0x12_3456, 4),
            Holds(0x12_3457, 2),
        ],
        // What was taken away is not there, and can be put again.
        &[
            Put(0x12_3456, 1),
            Put(0x12_3457, 2),
            Remove(0x12_3456),
            Lacks(0x12_3456),
            Holds(0x12_3457, 2),
            Remove(0x12_3456),
            Remove(0x13_3457),
            Holds(0x12_3457, 2),
            Put(0x12_3456, 5),
            Holds(0x12_3456, 5),
        ],
    ];
    for (number, story) in stories.iter().enumerate() {
        let mut table = PageTable::new(rt.alloc());
        for (index, step) in story.iter().enumerate() {
            // Each step is done to a copy of what the steps before it left.
            table = table.copy()?;
            let is_right = does(&mut table, *step)?;
            must_at(&rt, is_right, (number, index));
        }
    }
    Ok(())
}

// A page that is changed, put or taken away in one of the two tables is not in the other.
#[test]
fn copies_are_apart(rt: HostRuntime) -> Result<(), Fail> {
    let mut table = PageTable::new(rt.alloc());
    for number in [0, 0x12_3456, 0xFF_FFFF] {
        does(&mut table, Put(number, 1))?;
    }
    let mut copy = table.copy()?;
    let steps = [
        (Change(0, 2), Remove(0xFF_FFFF)),
        (Put(0x12_3457, 3), Change(0x12_3456, 4)),
        (Holds(0, 2), Holds(0, 1)),
        (Holds(0x12_3456, 1), Holds(0x12_3456, 4)),
        (Holds(0x12_3457, 3), Lacks(0x12_3457)),
        (Holds(0xFF_FFFF, 1), Lacks(0xFF_FFFF)),
    ];
    for (index, (step, of_copy)) in steps.iter().enumerate() {
        must_at(&rt, does(&mut table, *step)?, index);
        must_at(&rt, does(&mut copy, *of_copy)?, ("of the copy", index));
    }
    Ok(())
}
