//! Lines of a source, read by hand.
use crate::check::same;
use i9_asm::{
    AsmError, AsmFault, Said, Width, lines_give_what_they_count, listings_assemble, one_answer,
    read_line,
};
use i9_statement::Fault;
use std::alloc::Global;
use std::test::Fail;

/// Lines, their labels, and what they say behind them.
const LINES: [(&[u8], Option<&[u8]>, Said<'static>); 32] = [
    (b"", None, Said::Empty),
    (b" \t # addo 1, 2, g4", None, Said::Empty),
    (b"loop:", Some(b"loop"), Said::Empty),
    (b"  loop: # again", Some(b"loop"), Said::Empty),
    (b": ret", Some(b""), Said::Instruction(b"ret")),
    (b"g0: ret", Some(b"g0"), Said::Instruction(b"ret")),
    (b"loop:ret", Some(b"loop"), Said::Instruction(b"ret")),
    (b"loop : ret", None, Said::Instruction(b"loop : ret")),
    (b"a: b: ret", Some(b"a"), Said::Instruction(b"b: ret")),
    (
        b"\taddo 1, 2, g4 # three",
        None,
        Said::Instruction(b"addo 1, 2, g4 "),
    ),
    (b"start: .org 0x1000", Some(b"start"), Said::Org(b"0x1000")),
    (b".org", None, Said::Bad(Fault::Form)),
    (b".org 1, 2", None, Said::Bad(Fault::Form)),
    (b".org 1 2", None, Said::Org(b"")),
    (b".space\t16", None, Said::Space(b"16")),
    (b".space ", None, Said::Bad(Fault::Form)),
    (b".align n", None, Said::Align(b"n")),
    (b".align 4, 8", None, Said::Bad(Fault::Form)),
    (
        b".set limit , limit+1",
        None,
        Said::Set(b"limit", b"limit+1"),
    ),
    (b".set limit", None, Said::Bad(Fault::Form)),
    (b".set a, b, c", None, Said::Bad(Fault::Form)),
    (b".word 1, x # 2", None, Said::Data(Width::Word, b" 1, x ")),
    (b".short -1", None, Said::Data(Width::Short, b" -1")),
    (b".byte\t1,,2", None, Said::Data(Width::Byte, b"\t1,,2")),
    (b".byte", None, Said::Bad(Fault::Form)),
    (b".ascii \"a#b\" # c", None, Said::Ascii(b" \"a#b\" ")),
    (b".ascii \"\\\"#\"#", None, Said::Ascii(b" \"\\\"#\"")),
    (b".ascii \"\\\\\"#\"", None, Said::Ascii(b" \"\\\\\"")),
    (b".ascii", None, Said::Ascii(b"")),
    (b".half 1", None, Said::Bad(Fault::UnknownMnemonic)),
    (b".Word 1", None, Said::Bad(Fault::UnknownMnemonic)),
    (b".word,1", None, Said::Bad(Fault::UnknownMnemonic)),
];

#[test]
fn reads_lines(rt: HostRuntime) -> Result<(), Fail> {
    for (text, label, said) in &LINES {
        let line = read_line(text);
        same(&rt, &line.label, label);
        same(&rt, &line.said, said);
    }
    lines_give_what_they_count();
    listings_assemble();
    one_answer();
    Ok(())
}

/// The text of an error.
fn told(alloc: Global, error: &AsmError) -> Result<String, Fail> {
    Ok(format!(in alloc; "{error}")?)
}

#[test]
fn tells_what_is_wrong(rt: HostRuntime) -> Result<(), Fail> {
    let refused = AsmError::Bad(AsmFault { line: 1, kind: 2 });
    same(&rt, told(rt.alloc(), &refused)?.as_str(), "refused");
    let memory = told(rt.alloc(), &AsmError::Memory)?;
    same(&rt, memory.as_str(), "no memory");
    Ok(())
}
