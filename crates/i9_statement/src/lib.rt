//! Statements of the assembler: their text, and the instructions that they say.
//!
//! A statement is a mnemonic, operands between commas in the order of the instruction table, and set
//! ignored bits in braces. It is read by `statement_of` and printed by `add_statement`; both follow
//! the rows of the instruction table, and `code_of` makes its words by `encode`. What is printed is
//! read back, which is a law. The text of statements is this project's own, near to that of Intel's
//! assembler for the i960.
//!
//! Below them stand numbers, names and values, and the faults of a line. `value_of` reads a value: a
//! number, or a name with or without a number. Names are told from those of registers, whose table
//! stands here. A part of a line is read as a `Noted`: what it says, and its least fault. Texts are cut
//! at their bytes, and numbers are printed.
#![tactic(auto)]

mod addresses;
mod codes;
mod cut;
mod fault;
mod fields;
mod instructions;
mod known;
mod laws;
mod mnemonics;
mod names;
mod number_text;
mod operand_text;
mod operands;
mod order;
mod parts;
mod registers;
mod statement_text;
mod statements;
mod targets;
mod values;

pub use codes::code_of;
pub use cut::{behind, closed, cut_blank, cut_byte, cut_where};
pub use fault::{Fault, Noted, fine, least, wrong};
pub use fields::{fields_of, split_field};
pub use known::{Definition, Known, Table, lookup};
pub use laws::{statements_read_back, words_are_one};
pub use number_text::{add_decimal, add_digits, add_hex};
pub use registers::{register_at, register_name, register_of, register_place};
pub use statement_text::add_statement;
pub use statements::{Statement, statement_of};
pub use values::{Value, is_name, settled, value_noted, value_of};
