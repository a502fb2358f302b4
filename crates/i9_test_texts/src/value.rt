//! Names, values, registers and cuts, worked out by hand.
use crate::check::same;
use i9_isa::Operand;
use i9_statement::{
    Definition, Fault, Known, Noted, Table, Value, add_decimal, add_digits, add_hex, behind,
    closed, cut_blank, cut_byte, cut_where, fine, is_name, least, lookup, register_at,
    register_name, register_of, register_place, settled, value_noted, value_of, wrong,
};
use std::test::Fail;

#[test]
fn tells_names(rt: HostRuntime) -> Result<(), Fail> {
    let longest = [b'a'; 63];
    let longer = [b'a'; 64];
    let rows: [(&[u8], bool); 10] = [
        (b"", false),
        (b"_9", true),
        (b"9a", false),
        (b"a-b", false),
        (b"g15", false),
        (b"g16", true),
        (b"ip", false),
        (b"IP", true),
        (&longest, true),
        (&longer, false),
    ];
    for (text, is) in rows {
        same(&rt, is_name(text), is);
    }
    Ok(())
}

// Where `far` is E0000000.
#[test]
fn reads_values(rt: HostRuntime) -> Result<(), Fail> {
    let definition = Definition {
        value: 0xE000_0000,
        step: 7,
    };
    let far = b"far".as_slice();
    assert!(rt; is_name(far));
    let table = Table::new(rt.alloc()).define(far, definition)?;
    let names = Known::All(&table);
    same(&rt, lookup(names, far), Some(0xE000_0000));
    same(
        &rt,
        lookup(Known::Before(&table, 8), far),
        Some(0xE000_0000),
    );
    same(&rt, lookup(Known::Before(&table, 7), far), None);
    same(&rt, lookup(Known::Nothing, far), None);
    let rows: [(&[u8], Option<Value>); 10] = [
        (b"far", Some(Value::Named(0xE000_0000))),
        (b"far-1", Some(Value::Named(0xDFFF_FFFF))),
        (b"far+4294967296", Some(Value::Beyond)),
        (b"near", Some(Value::Unknown)),
        (b"-1", Some(Value::Number(0xFFFF_FFFF))),
        (b"0x1F", Some(Value::Number(31))),
        (b"-2147483648", Some(Value::Number(0x8000_0000))),
        (b"-2147483649", Some(Value::Beyond)),
        (b"0x", None),
        (b"g4", None),
    ];
    for (text, value) in rows {
        same(&rt, value_of(names, text), value);
    }
    Ok(())
}

#[test]
fn tells_faults(rt: HostRuntime) -> Result<(), Fail> {
    let target = Some(Fault::Target);
    same(&rt, least(target, Some(Fault::Range)), Some(Fault::Range));
    same(&rt, least(target, None), target);
    same(&rt, Fault::TooMany.kind(), 8);
    let five: Noted<u32> = fine(5);
    same(&rt, value_noted(Value::Named(5)), five);
    same(
        &rt,
        settled(Some(Value::Unknown)),
        wrong(Fault::UnknownName, 0),
    );
    same(&rt, settled(None), wrong(Fault::Form, 0));
    Ok(())
}

#[test]
fn names_registers(rt: HostRuntime) -> Result<(), Fail> {
    same(&rt, register_name(31), b"fp".as_slice());
    same(&rt, register_place(b"sf2"), Some(34));
    same(&rt, register_at(37), Operand::Reg(2));
    same(&rt, register_of(b"g15"), Some(Operand::Reg(31)));
    same(&rt, register_of(b"sf1"), Some(Operand::Sfr(1)));
    same(&rt, register_of(b"sf3"), None);
    Ok(())
}

#[test]
fn cuts_and_prints(rt: HostRuntime) -> Result<(), Fail> {
    same(
        &rt,
        cut_blank(b"ab\tc"),
        (b"ab".as_slice(), b"\tc".as_slice()),
    );
    same(
        &rt,
        cut_byte(b"ab", b'.'),
        (b"ab".as_slice(), b"".as_slice()),
    );
    same(
        &rt,
        cut_where(b"ab:c", |byte| byte == b':'),
        (b"ab".as_slice(), b":c".as_slice()),
    );
    same(&rt, behind(b"!4", b'!'), Some(b"4".as_slice()));
    same(
        &rt,
        closed(b"g4)[", b')'),
        Some((b"g4".as_slice(), b"[".as_slice())),
    );
    let mut text = Vec::new(rt.alloc());
    add_hex(rt.alloc(), &mut text, 0xABC)?;
    add_decimal(rt.alloc(), &mut text, 10)?;
    add_digits(rt.alloc(), &mut text, 0xFF)?;
    same(&rt, text.as_slice(), b"0x00000ABC10FF".as_slice());
    Ok(())
}
