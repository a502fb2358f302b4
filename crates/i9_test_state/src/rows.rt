//! Rows of text, in three columns: the steps that are done, the questions that are asked then, and the answers. The
//! steps, the questions and the answers of a row are split by commas. A column behind these is for the reader.
use crate::check::same_at;
use std::alloc::Global;
use std::process::Abort;
use std::test::Fail;

/// The columns of a row.
pub(crate) fn columns(row: &str) -> Result<(&str, &str, &str), Fail> {
    let (steps, rest) = row.split_once("|").unwrap_or((row, ""));
    match rest.split_once("|") {
        Some((questions, rest)) => {
            let (answers, _) = rest.split_once("|").unwrap_or((rest, ""));
            Ok((steps, questions, answers.trim()))
        }
        None => Err("a row has three columns".into()),
    }
}

/// The name of a step or a question, and what stands behind it.
pub(crate) fn named(item: &str) -> (&str, &str) {
    let item = item.trim();
    item.split_once(" ").unwrap_or((item, ""))
}

/// The numbers of a text, in hexadecimal digits.
pub(crate) fn hex_words(alloc: Global, text: &str) -> Result<Vec<u32>, Fail> {
    let mut words = Vec::new(alloc);
    for word in text.split_whitespace() {
        words.push(u32::from_str_radix(word, 16)?)?;
    }
    Ok(words)
}

/// Each row of tables has, behind a column for the reader, a state and what is answered there.
pub(crate) fn rows_hold<F: Fn(Global, &str) -> Result<String, Fail>>(
    rt: &impl Abort,
    alloc: Global,
    tables: &[&str],
    answer: F,
) -> Result<(), Fail>
    requires { F.IsAlwaysCallable answer }
{
    for table in tables {
        for row in table.lines() {
            let (_, state, wanted) = columns(row)?;
            same_at(rt, answer(alloc, state)?.as_str(), wanted, row);
        }
    }
    Ok(())
}
