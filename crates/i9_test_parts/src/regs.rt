use crate::check::same;
use i9_regs::File;

/// The value at a turn, the latest value, and whether the resource is busy at another turn.
fn shown(file: &File, r: u8, landed: u64, turn: u64) -> Option<(u32, u32, bool)> {
    if r >= 33 {
        return None;
    }
    Some((file.value(r, landed), file.latest(r), file.busy(r, turn)))
}

// g0 is set to 7 and planned to be 9 from turn 6 on, the condition code is set to 2, and r0 is
// planned to be 1 from turn 8 on. Each row, by hand, is what a resource shows at a turn; the last two
// columns but one are its values, and the last is whether it is busy at the turn in the third column.
#[test]
fn lands_values(rt: HostRuntime) {
    let rows: [(u64, u8, u64, u32, u32, bool); 13] = [
        (0, 16, 0, 7, 9, true),
        (0, 16, 5, 7, 9, true),
        (0, 16, 6, 7, 9, false),
        (5, 16, 5, 7, 9, true),
        (5, 32, 5, 2, 2, false),
        (5, 0, 5, 0, 1, true),
        (6, 16, 6, 9, 9, false),
        (6, 0, 6, 0, 1, true),
        // A turn may be passed over.
        (10, 0, 7, 1, 1, true),
        (10, 16, 10, 9, 9, false),
        (10, 32, 10, 2, 2, false),
        (10, 15, 10, 0, 0, false),
        (10, 31, 10, 0, 0, false),
    ];
    let mut file = File::new();
    file.set(16, 7);
    file.plan(16, 9, 6);
    file.set(32, 2);
    file.plan(0, 1, 8);
    for (landed, r, turn, value, latest, busy) in rows {
        file = file.copy();
        same(
            &rt,
            shown(&file, r, landed, turn),
            Some((value, latest, busy)),
        );
    }
}

// r4, r5, g0 and the condition code are set to 5, 6, 7 and 2. Then a record is issued that writes these
// four and is done at turn 6: r4 gets 8, r5 gets 9, the condition code gets 1, and g0 is left as it is.
// At last g1 is planned to be 11 from turn 3 on. The columns are those above; bits 4, 5, 16 and 32 of the
// set are 0x10, 0x20, 0x1_0000 and 0x1_0000_0000.
#[test]
fn issues_values(rt: HostRuntime) {
    let rows: [(u64, u8, u64, u32, u32, bool); 16] = [
        (0, 4, 5, 5, 8, true),
        (0, 4, 6, 5, 8, false),
        (0, 5, 5, 6, 9, true),
        (0, 16, 5, 7, 7, true),
        (0, 32, 5, 2, 1, true),
        (0, 6, 0, 0, 0, false),
        (2, 17, 2, 0, 11, true),
        (2, 17, 3, 0, 11, false),
        (3, 17, 3, 11, 11, false),
        (3, 4, 3, 5, 8, true),
        (5, 32, 5, 2, 1, true),
        (6, 4, 6, 8, 8, false),
        (6, 5, 6, 9, 9, false),
        (6, 16, 0, 7, 7, true),
        (6, 32, 6, 1, 1, false),
        (6, 6, 6, 0, 0, false),
    ];
    let mut file = File::new();
    file.set(4, 5);
    file.set(5, 6);
    file.set(16, 7);
    file.set(32, 2);
    file.issue(0x1_0001_0030, 6, 4, &[8, 9], 1);
    file.plan(17, 11, 3);
    for (landed, r, turn, value, latest, busy) in rows {
        same(
            &rt,
            shown(&file, r, landed, turn),
            Some((value, latest, busy)),
        );
    }
}

// g0, fp and the condition code are set to 7, 5 and 2. Then a record is issued that enters the frame at
// 0x40 with sp 9 and is done at turn 4: it writes the locals and fp, bits 0 to 15 and 31 of the set, so the
// condition code that it gives is not planned. The columns are those above.
#[test]
fn enters_a_frame(rt: HostRuntime) {
    let rows: [(u64, u8, u64, u32, u32, bool); 9] = [
        (0, 0, 3, 0, 0x20, true),
        (0, 1, 3, 0, 9, true),
        (0, 15, 3, 0, 0, true),
        (0, 31, 3, 5, 0x40, true),
        (0, 16, 0, 7, 7, false),
        (0, 32, 0, 2, 2, false),
        (4, 1, 3, 9, 9, true),
        (4, 31, 4, 0x40, 0x40, false),
        (4, 32, 4, 2, 2, false),
    ];
    let mut file = File::new();
    file.set(16, 7);
    file.set(31, 5);
    file.set(32, 2);
    let locals = [0x20, 9, 0, 0, 0, 0, 0, 0, 0, 0, 0, 0, 0, 0, 0, 0];
    file.issue_frame(0x8000_FFFF, 4, &locals, 0x40, 1);
    for (landed, r, turn, value, latest, busy) in rows {
        same(
            &rt,
            shown(&file, r, landed, turn),
            Some((value, latest, busy)),
        );
    }
}

// r4 is set to 5 and planned to be 6 from turn 4 on. The same record then enters the frame at 0x40, whose
// local r4 is 7: until turn 4 r4 has the value from before the record, and g0, of which the record says
// nothing, keeps what it has. The columns are those above.
#[test]
fn amends_what_was_planned(rt: HostRuntime) {
    let rows: [(u64, u8, u64, u32, u32, bool); 5] = [
        (3, 4, 3, 5, 7, true),
        (4, 4, 4, 7, 7, false),
        (3, 31, 3, 0, 0x40, true),
        (3, 16, 3, 8, 8, false),
        (3, 32, 3, 0, 1, true),
    ];
    let mut file = File::new();
    file.set(4, 5);
    file.set(16, 8);
    file.plan(4, 6, 4);
    let locals = [0, 0, 0, 0, 7, 0, 0, 0, 0, 0, 0, 0, 0, 0, 0, 0];
    file.amend_frame(0x1_8000_FFFF, 4, &locals, 0x40, 1);
    for (landed, r, turn, value, latest, busy) in rows {
        same(
            &rt,
            shown(&file, r, landed, turn),
            Some((value, latest, busy)),
        );
    }
}
