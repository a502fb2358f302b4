//! Bytes that are kept under what a barrier wrote, worked out by hand.
use crate::check::{must_at, same, same_at};
use i9_shade::Shade;

/// The byte that stood at an address under all writes, at each of four turns.
fn looked(shade: &Shade, address: u32) -> [Option<u8>; 4] {
    [
        shade.look(address, 0),
        shade.look(address, 9),
        shade.look(address, 10),
        shade.look(address, 99),
    ]
}

/// Two pieces of which the first shows 1002 and 1003, a whole frame, and a piece that goes on at 0.
fn pieces() -> Shade {
    let mut shade = Shade::new();
    shade.keep(0x1000, b"\x01\x02\x03\x04");
    shade.keep(0x1002, b"\x09\x08\x07");
    shade.keep(0x2000, &[0x55; 64]);
    shade.keep(0xFFFF_FFFE, b"\x05\x06\x0A");
    shade
}

#[test]
fn shows_the_first_kept_byte(rt: HostRuntime) {
    let mut shade = pieces();
    let before = (Shade::new().look(0, 0), shade.look(0x1000, 0));
    same(&rt, before, (None, None));
    shade.due(10);
    let rows = [
        (0x0FFF, None),
        (0x1000, Some(1)),
        (0x1001, Some(2)),
        (0x1002, Some(3)),
        (0x1003, Some(4)),
        (0x1004, Some(7)),
        (0x1005, None),
        (0x1FFF, None),
        (0x2000, Some(0x55)),
        (0x203F, Some(0x55)),
        (0x2040, None),
        (0xFFFF_FFFD, None),
        (0xFFFF_FFFE, Some(5)),
        (0xFFFF_FFFF, Some(6)),
        (0, Some(0x0A)),
        (1, None),
    ];
    let copy = shade.copy();
    for (address, byte) in &rows {
        let wanted = [*byte, *byte, None, None];
        must_at(
            &rt,
            looked(&copy, *address) == wanted,
            ("of the copy", address),
        );
        must_at(&rt, looked(&shade, *address) == wanted, address);
    }
}

/// A shade after so many steps: a piece is kept that is due at 10, and turn 9 lands; another one is kept; turn 10
/// lands; a third one is kept; its due turn is 20; turn 25 lands, and 30 is due.
fn after(steps: u8) -> Shade {
    let mut shade = Shade::new();
    shade.keep(0x1000, b"\x01");
    shade.due(10);
    shade.land(9);
    if steps > 1 {
        shade.keep(0x1000, b"\x02\x03");
    }
    if steps > 2 {
        shade.land(10);
    }
    if steps > 3 {
        shade.keep(0x1000, b"\x04");
    }
    if steps > 4 {
        shade.due(20);
    }
    if steps > 5 {
        shade.land(25);
        shade.due(30);
    }
    shade
}

// A piece shows until its due turn, and is dropped from this turn on: what is kept later is then the
// first piece.
#[test]
fn lands_at_the_due_turn(rt: HostRuntime) {
    // The steps, an address and a turn, and the byte that shows.
    let rows = [
        (1, 0x1000, 9, Some(1)),
        (1, 0x1000, 10, None),
        (2, 0x1000, 9, Some(1)),
        (2, 0x1001, 9, Some(3)),
        (3, 0x1001, 9, None),
        (4, 0x1000, 9, Some(4)),
        (5, 0x1000, 19, Some(4)),
        (6, 0x1000, 25, None),
    ];
    for (steps, address, turn, byte) in rows {
        let shown = after(steps).look(address, turn);
        same_at(&rt, shown, byte, (steps, turn));
    }
    let mut shade = after(2);
    let copy = shade.copy();
    shade.land(10);
    let shown = (copy.look(0x1001, 9), shade.look(0x1001, 9));
    same(&rt, shown, (Some(3), None));
}
