//! Lines of a source: the label, and what follows it.
ghost use Rattle.std.specs.Prelude.{◌≡◌, ℕ, List, MatchOption};
ghost use Rattle.i9_text.specs.Text.{is_in_word};
ghost use Rattle.i9_statement.specs.declared.fault.Fault.TheVariants as fault;
ghost use Rattle.i9_statement.specs.Cut.{before, from};
ghost use Rattle.i9_statement.specs.Fields.{fields_of};
ghost use Rattle.i9_asm.specs.Lines.{Item, Bad, Org, Space, Align, Set, ends_head, labelled, item_of, label_of};
ghost use Rattle.i9_asm.specs.Lines.{one_value, two_values, some_values, directive_of, item_by};
ghost use Rattle.i9_asm.specs.Said.{bytes_of, item_as, label_as, label_in};

use crate::comments::without_comment;
use i9_statement::{Fault, cut_blank, cut_where, fields_of, split_field};

/// How many bytes a value of a directive has.
#[derive(Clone, Copy, Debug, PartialEq, Eq)]
pub enum Width {
    Byte,
    Short,
    Word,
}

/// What a line says behind its label.
#[derive(Clone, Copy, Debug, PartialEq, Eq)]
pub enum Said<'a> {
    Empty,
    /// An unknown directive, or the wrong number of operands.
    Bad(Fault),
    Org(&'a [u8]),
    Space(&'a [u8]),
    Align(&'a [u8]),
    /// A name and a value.
    Set(&'a [u8], &'a [u8]),
    /// How many bytes each value has, and the text of the values.
    Data(Width, &'a [u8]),
    /// What stands behind `.ascii`.
    Ascii(&'a [u8]),
    /// A statement of an instruction.
    Instruction(&'a [u8]),
}

/// A line of a source.
#[derive(Clone, Copy, Debug, PartialEq, Eq)]
pub struct Line<'a> {
    pub label: Option<&'a [u8]>,
    pub said: Said<'a>,
}

/// A text before the first blank or colon, and from it on.
fn cut_head(text: &[u8]) -> (&[u8], &[u8])
    ensures front { result.0.now ≡ before ends_head text.now }
    ensures back { result.1.now ≡ from ends_head text.now }
{
    cut_where(text, |byte| byte == b' ' || byte == b'\t' || byte == b':')
}

/// A text from its first word on.
pub(crate) fn skip_blanks(text: &[u8]) -> &[u8]
    ensures { result.now ≡ from is_in_word text.now }
{
    cut_where(text, |byte| byte != b' ' && byte != b'\t').1
}

/// The label of a line from its first word on, if it has one, and what stands behind it.
#[tactic(auto, unfolding(crate::specs::Lines::labelled))]
fn labelled(text: &[u8]) -> (Option<&[u8]>, &[u8])
    ensures { label_as result.0 result.1 ≡ labelled text.now }
{
    let (head, rest) = cut_head(text);
    match rest {
        [b':', after @ ..] => (Some(head), skip_blanks(after)),
        _ => (None, text),
    }
}

/// The one operand of a directive; None with none or several.
fn one_value(rest: &[u8]) -> Option<&[u8]>
    ensures { (item : List ℕ → Item) → MatchOption result
        (one_value item (fields_of rest.now) ≡ Bad fault.Form)
        (λ f. one_value item (fields_of rest.now) ≡ item f.now) }
{
    let text = fields_of(rest)?;
    let (field, more) = split_field(text);
    if more.is_some() { None } else { Some(field) }
}

/// The two operands of a directive; None with another number of them.
fn two_values(rest: &[u8]) -> Option<(&[u8], &[u8])>
    ensures { (item : List ℕ → List ℕ → Item) → MatchOption result
        (two_values item (fields_of rest.now) ≡ Bad fault.Form)
        (λ f. two_values item (fields_of rest.now) ≡ item f.0.now f.1.now) }
{
    let text = fields_of(rest)?;
    let (name, more) = split_field(text);
    let (value, more) = split_field(more?);
    if more.is_some() {
        None
    } else {
        Some((name, value))
    }
}

/// A directive of values of so many bytes.
fn data(width: Width, rest: &[u8]) -> Said<'_>
    ensures { item_as result ≡ some_values (bytes_of width) (fields_of rest.now) }
{
    match fields_of(rest) {
        Some(text) => Said::Data(width, text),
        None => Said::Bad(Fault::Form),
    }
}

/// `.org`
fn origin(rest: &[u8]) -> Said<'_>
    ensures { item_as result ≡ one_value Org (fields_of rest.now) }
{
    match one_value(rest) {
        Some(value) => Said::Org(value),
        None => Said::Bad(Fault::Form),
    }
}

/// `.space`
fn space(rest: &[u8]) -> Said<'_>
    ensures { item_as result ≡ one_value Space (fields_of rest.now) }
{
    match one_value(rest) {
        Some(value) => Said::Space(value),
        None => Said::Bad(Fault::Form),
    }
}

/// `.align`
fn alignment(rest: &[u8]) -> Said<'_>
    ensures { item_as result ≡ one_value Align (fields_of rest.now) }
{
    match one_value(rest) {
        Some(value) => Said::Align(value),
        None => Said::Bad(Fault::Form),
    }
}

/// `.set`
fn assignment(rest: &[u8]) -> Said<'_>
    ensures { item_as result ≡ two_values Set (fields_of rest.now) }
{
    match two_values(rest) {
        Some((name, value)) => Said::Set(name, value),
        None => Said::Bad(Fault::Form),
    }
}

/// A directive by its name, and what stands behind it.
fn directive<'a>(name: &[u8], rest: &'a [u8]) -> Said<'a>
    ensures { item_as result ≡ directive_of name.now rest.now }
{
    if name == b".word".as_slice() {
        data(Width::Word, rest)
    } else if name == b".short".as_slice() {
        data(Width::Short, rest)
    } else if name == b".byte".as_slice() {
        data(Width::Byte, rest)
    } else if name == b".org".as_slice() {
        origin(rest)
    } else if name == b".space".as_slice() {
        space(rest)
    } else if name == b".align".as_slice() {
        alignment(rest)
    } else if name == b".set".as_slice() {
        assignment(rest)
    } else if name == b".ascii".as_slice() {
        Said::Ascii(rest)
    } else {
        Said::Bad(Fault::UnknownMnemonic)
    }
}

/// What stands behind the label.
fn item(text: &[u8]) -> Said<'_>
    ensures { item_as result ≡ item_by text.now }
{
    match text {
        [] => Said::Empty,
        [b'.', ..] => {
            let (name, rest) = cut_blank(text);
            directive(name, rest)
        }
        _ => Said::Instruction(text),
    }
}

/// A line: its label, if it has one, and what follows, without a comment.
#[tactic(auto, unfolding(crate::specs::Lines::item_of))]
pub fn read_line(line: &[u8]) -> Line<'_>
    ensures label { label_in result.label ≡ label_of line.now }
    ensures said { item_as result.said ≡ item_of line.now }
{
    let (label, rest) = labelled(skip_blanks(without_comment(line)));
    Line {
        label,
        said: item(rest),
    }
}
