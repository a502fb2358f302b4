//! Names with their definitions, and which of them are known.
ghost use Rattle.std.specs.Prelude.{◌≡◌, ◌≤◌, length, take, drop, true, None, IfOk};
ghost use Rattle.i9_statement.specs.Known.{word_of, mark_of, key_of, definitions, enter, known_in};
ghost use Rattle.i9_statement.specs.Values.{is_name};

use std::alloc::{AllocError, Global};
use std::collections::BTreeMap;

/// What a name is worth, and the step at which it was defined.
#[derive(Clone, Copy, Debug, PartialEq, Eq)]
pub struct Definition {
    pub value: u32,
    pub step: u128,
}

/// The bytes of a name, sixteen in each word, behind a mark of them all that is compared first.
type Key = (u64, u128, u128, u128, u128);

/// The word that at most sixteen bytes make, the first one lowest.
fn word_of(bytes: &[u8]) -> u128
    requires { length bytes.now ≤ 16 }
    ensures { result ≡ word_of bytes.now }
{
    let mut word = 0u128;
    let mut left = bytes.len();
    while left > 0 {
        left -= 1;
        word = word * 256 + u128::from(bytes[left]);
    }
    word
}

/// The first sixteen bytes of a text, and those behind them.
fn cut_word(text: &[u8]) -> (&[u8], &[u8])
    ensures front { result.0.now ≡ take 16 text.now }
    ensures back { result.1.now ≡ drop 16 text.now }
{
    if text.len() > 16 {
        text.split_at(16)
    } else {
        (text, &[])
    }
}

/// The mark of four words.
fn mark_of(first: u128, second: u128, third: u128, last: u128) -> u64
    ensures { result ≡ mark_of first second third last }
{
    let sum = first
        .wrapping_add(second)
        .wrapping_add(third)
        .wrapping_add(last);
    (sum % (1 << 64)) as u64 ^ (sum / (1 << 64)) as u64
}

/// The key of a name of more than sixteen bytes.
fn long_key_of(name: &[u8]) -> Key
    requires { is_name name.now ≡ true }
    ensures { result ≡ key_of name.now }
{
    let (first, rest) = cut_word(name);
    let (second, rest) = cut_word(rest);
    let (third, last) = cut_word(rest);
    let first = word_of(first);
    let second = word_of(second);
    let third = word_of(third);
    let last = word_of(last);
    (
        mark_of(first, second, third, last),
        first,
        second,
        third,
        last,
    )
}

/// The key of a name.
fn key_of(name: &[u8]) -> Key
    requires { is_name name.now ≡ true }
    ensures { result ≡ key_of name.now }
{
    if name.len() > 16 {
        return long_key_of(name);
    }
    let word = word_of(name);
    (mark_of(word, 0, 0, 0), word, 0, 0, 0)
}

/// Names with their definitions.
#[derive(Drop)]
pub struct Table {
    map: BTreeMap<Key, Definition>,
}

impl Table {
    /// No name is defined.
    pub fn new(alloc: Global) -> Table
        ensures { definitions result ≡ (λ name. None) }
    {
        Table {
            map: BTreeMap::new(alloc),
        }
    }

    /// The table with the definition of one more name, if it is not defined yet.
    pub fn define(self, name: &[u8], definition: Definition) -> Result<Table, AllocError>
        requires { is_name name.now ≡ true }
        ensures { IfOk result (λ more. definitions more ≡ enter name.now definition (definitions self)) }
    {
        let mut map = self.map;
        let key = key_of(name);
        match map.insert(key, definition)? {
            Some(first) => {
                // The first definition counts.
                map.insert(key, first)?;
                Ok(Table { map })
            }
            None => Ok(Table { map }),
        }
    }

    /// The definition of a name.
    fn get(&self, name: &[u8]) -> Option<Definition>
        requires { is_name name.now ≡ true }
        ensures { result ≡ definitions self.now name.now }
    {
        self.map.get(&key_of(name)).copied()
    }
}

/// The names that are known somewhere.
#[derive(Clone, Copy)]
pub enum Known<'a> {
    Nothing,
    /// All names of a table.
    All(&'a Table),
    /// Those that were defined before a step.
    Before(&'a Table, u128),
}

/// The value of a name.
#[tactic(auto, unfolding(crate::specs::Known::known_in))]
pub fn lookup(names: Known<'_>, name: &[u8]) -> Option<u32>
    requires { is_name name.now ≡ true }
    ensures { result ≡ known_in names.entry name.now }
{
    match names {
        Known::Nothing => None,
        Known::All(table) => {
            let found = table.get(name)?;
            Some(found.value)
        }
        Known::Before(table, step) => {
            let found = table.get(name)?;
            if found.step < step {
                Some(found.value)
            } else {
                None
            }
        }
    }
}
