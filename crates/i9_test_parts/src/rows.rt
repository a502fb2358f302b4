//! Rows of text, whose columns and items are split. A column behind those that are named is for the reader.
use crate::check::same_at;
use std::alloc::Global;
use std::process::Abort;
use std::test::Fail;

/// The first three columns of a row.
pub(crate) fn columns(row: &str) -> Result<(&str, &str, &str), Fail> {
    let (first, rest) = row.split_once("|").unwrap_or((row, ""));
    match rest.split_once("|") {
        Some((second, rest)) => {
            let (third, _) = rest.split_once("|").unwrap_or((rest, ""));
            Ok((first, second, third.trim()))
        }
        None => Err("a row has three columns".into()),
    }
}

/// The columns of a row that has two.
pub(crate) fn pair(row: &str) -> Result<(&str, &str), Fail> {
    match row.split_once("|") {
        Some((given, wanted)) => Ok((given.trim(), wanted.trim())),
        None => Err("a row has two columns".into()),
    }
}

/// The name of an item, and what stands behind it.
pub(crate) fn named(item: &str) -> (&str, &str) {
    let item = item.trim();
    item.split_once(" ").unwrap_or((item, ""))
}

/// Adds an item behind others.
pub(crate) fn add(text: &mut String, separator: &str, item: &str) -> Result<(), Fail> {
    if !text.is_empty() {
        text.push_str(separator)?;
    }
    text.push_str(item)?;
    Ok(())
}

/// The numbers of a text, in hexadecimal digits.
pub(crate) fn hex_words(alloc: Global, text: &str) -> Result<Vec<u32>, Fail> {
    let mut words = Vec::new(alloc);
    for word in text.split_whitespace() {
        words.push(u32::from_str_radix(word, 16)?)?;
    }
    Ok(words)
}

/// Each row of tables has the answer to its first two columns in its third one.
pub(crate) fn rows_hold<F: Fn(Global, &str, &str) -> Result<String, Fail>>(
    rt: &impl Abort,
    alloc: Global,
    tables: &[&str],
    answer: F,
) -> Result<(), Fail>
    requires { F.IsAlwaysCallable answer }
{
    for table in tables {
        for row in table.lines() {
            let (first, second, wanted) = columns(row)?;
            let text = answer(alloc, first, second)?;
            same_at(rt, text.as_str(), wanted, row);
        }
    }
    Ok(())
}
