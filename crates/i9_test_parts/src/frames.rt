//! Frames in sets, worked out by hand.
use crate::check::must_at;
use i9_frames::{Frame, Sets};
use std::test::Fail;

/// What is done to sets, with the address of the frame that has to come out, or what they have to
/// answer.
#[derive(Clone, Copy)]
enum Step {
    Push(u32, Option<u32>),
    Pop(Option<u32>),
    Drain(Option<u32>),
    At(u8, Option<u32>),
    Holds(u8),
    HasSets(u8),
}

use Step::{At, Drain, HasSets, Holds, Pop, Push};

/// A frame that is told from others by its address and by its words.
fn frame(address: u32) -> Frame {
    let mut words = [address / 16; 16];
    words[15] = !address;
    Frame { address, words }
}

/// Does a step; false where the answer is another one.
fn does(sets: &mut Sets, step: Step) -> bool {
    match step {
        Push(address, wanted) => sets.push(frame(address)) == wanted.map(frame),
        Pop(wanted) => sets.pop() == wanted.map(frame),
        Drain(wanted) => sets.drain_oldest() == wanted.map(frame),
        At(k, wanted) => sets.at(k).copied() == wanted.map(frame),
        Holds(wanted) => sets.len() == wanted,
        HasSets(wanted) => sets.size() == wanted,
    }
}

#[test]
fn holds_the_youngest_frames(rt: HostRuntime) -> Result<(), Fail> {
    let stories: [(u8, &[Step]); 3] = [
        // Where both sets are taken, the oldest frame makes room.
        (
            2,
            &[
                HasSets(2),
                Holds(0),
                Pop(None),
                Drain(None),
                At(0, None),
                Push(0x10, None),
                Push(0x20, None),
                Holds(2),
                Push(0x30, Some(0x10)),
                Holds(2),
                At(0, Some(0x30)),
                At(1, Some(0x20)),
                At(2, None),
                Pop(Some(0x30)),
                Holds(1),
                Push(0x40, None),
                Drain(Some(0x20)),
                Drain(Some(0x40)),
                Drain(None),
                HasSets(2),
            ],
        ),
        // In one set each frame makes room for the next.
        (
            1,
            &[
                Push(0x10, None),
                Push(0x20, Some(0x10)),
                Push(0x30, Some(0x20)),
                Pop(Some(0x30)),
                Pop(None),
                HasSets(1),
            ],
        ),
        // The youngest and the oldest of three.
        (
            15,
            &[
                HasSets(15),
                Push(0x10, None),
                Push(0x20, None),
                Push(0x30, None),
                At(2, Some(0x10)),
                At(3, None),
                At(255, None),
                Drain(Some(0x10)),
                Pop(Some(0x30)),
                At(0, Some(0x20)),
                Holds(1),
            ],
        ),
    ];
    for (number, (size, story)) in stories.iter().enumerate() {
        assert!(rt; 0 < *size && *size < 16);
        let mut sets = Sets::new(rt.alloc(), *size)?;
        for (index, step) in story.iter().enumerate() {
            // Each step is done to a copy of what the steps before it left.
            sets = sets.copy(rt.alloc())?;
            must_at(&rt, does(&mut sets, *step), (number, index));
        }
    }
    Ok(())
}
