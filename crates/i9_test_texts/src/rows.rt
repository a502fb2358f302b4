//! Rows of text, in columns: a statement, what is given with it, if anything, and what is answered.
ghost use Rattle.std.specs.Prelude.{IfOk};
ghost use Rattle.i9_isa.specs.Valid.{IsValid};

use crate::check::same_at;
use i9_isa::Inst;
use i9_statement::{Known, statement_of};
use std::alloc::Global;
use std::process::Abort;
use std::test::Fail;

/// The columns of a row. Another one behind these is for the reader.
pub(crate) fn columns(row: &str) -> Result<(&str, &str, &str), Fail> {
    let (statement, rest) = row.split_once("|").unwrap_or((row, ""));
    match rest.split_once("|") {
        Some((given, rest)) => {
            let (wanted, _) = rest.split_once("|").unwrap_or((rest, ""));
            Ok((statement.trim(), given.trim(), wanted.trim()))
        }
        None => Err("a row has three columns".into()),
    }
}

/// The columns of a row where nothing else is given. Another one behind these is for the reader.
pub(crate) fn pair(row: &str) -> Result<(&str, &str), Fail> {
    match row.split_once("|") {
        Some((statement, rest)) => {
            let (wanted, _) = rest.split_once("|").unwrap_or((rest, ""));
            Ok((statement.trim(), wanted.trim()))
        }
        None => Err("a row has two columns".into()),
    }
}

/// The byte that begins a piece behind a backslash, and the rest of the piece.
fn escape(piece: &str) -> Result<(u8, &str), Fail> {
    let (first, rest) = piece.split_at_checked(1).ok_or("nothing is escaped")?;
    match first {
        "n" => Ok((b'\n', rest)),
        "r" => Ok((b'\r', rest)),
        "t" => Ok((b'\t', rest)),
        "s" => Ok((b' ', rest)),
        "x" => {
            let (digits, rest) = rest.split_at_checked(2).ok_or("a byte has two digits")?;
            Ok((u8::from_str_radix(digits, 16)?, rest))
        }
        _ => Err("no such escape".into()),
    }
}

/// The bytes that a column says, in which `\n`, `\r`, `\t`, `\s` and `\x` with two digits stand for a line feed, a
/// carriage return, a tab, a space and a byte.
pub(crate) fn escaped(alloc: Global, column: &str) -> Result<Vec<u8>, Fail> {
    let mut bytes = Vec::new(alloc);
    let (start, rest) = column.split_once("\\").unwrap_or((column, ""));
    bytes.extend_from_slice(start.as_bytes())?;
    if start.len() < column.len() {
        for piece in rest.split('\\') {
            let (byte, rest) = escape(piece)?;
            bytes.push(byte)?;
            bytes.extend_from_slice(rest.as_bytes())?;
        }
    }
    Ok(bytes)
}

/// The instruction that a statement at 0 says.
pub(crate) fn instruction(statement: &str) -> Result<Inst, Fail>
    ensures { IfOk result (λ i. IsValid i) }
{
    let read = statement_of(0, Known::Nothing, statement.as_bytes());
    match read.fault {
        None => Ok(read.value.inst),
        Some(_) => Err("no such statement".into()),
    }
}

/// The numbers of a text, in hexadecimal digits.
pub(crate) fn hex_words(alloc: Global, text: &str) -> Result<Vec<u32>, Fail> {
    let mut words = Vec::new(alloc);
    for word in text.split_whitespace() {
        words.push(u32::from_str_radix(word, 16)?)?;
    }
    Ok(words)
}

/// A word, where something holds.
pub(crate) fn where_so(holds: bool, word: &'static str) -> &'static str {
    if holds { word } else { "" }
}

/// Each row of tables has the answer to its first column in its second one.
pub(crate) fn pairs_hold<F: Fn(Global, &str) -> Result<String, Fail>>(
    rt: &impl Abort,
    alloc: Global,
    tables: &[&str],
    answer: F,
) -> Result<(), Fail>
    requires { F.IsAlwaysCallable answer }
{
    for table in tables {
        for row in table.lines() {
            let (given, wanted) = pair(row)?;
            same_at(rt, answer(alloc, given)?.as_str(), wanted, row);
        }
    }
    Ok(())
}

/// Each row of tables has a statement, what is given with it, and the answer to both.
pub(crate) fn rows_hold<F: Fn(Global, &Inst, &str) -> Result<String, Fail>>(
    rt: &impl Abort,
    alloc: Global,
    tables: &[&str],
    answer: F,
) -> Result<(), Fail>
    requires { F.IsAlwaysCallable answer }
{
    for table in tables {
        for row in table.lines() {
            let (statement, given, wanted) = columns(row)?;
            let text = answer(alloc, &instruction(statement)?, given)?;
            same_at(rt, text.as_str(), wanted, row);
        }
    }
    Ok(())
}
