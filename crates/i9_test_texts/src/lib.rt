//! The tests of i9_text, i9_isa, i9_decode, i9_exec, i9_events, i9_issue and i9_need; of i9_statement, i9_asm, i9_dis
//! and i9_tune; and of i9_hex, i9_schedule and i9_elf, whose public calls they make.
#![tactic(auto)]

#[cfg(test)]
mod asm;
#[cfg(test)]
mod asm_lengths;
#[cfg(test)]
mod asm_sources;
#[cfg(test)]
mod asm_words;
#[cfg(test)]
mod check;
#[cfg(test)]
mod decode;
#[cfg(test)]
mod dis;
#[cfg(test)]
mod dis_listings;
#[cfg(test)]
mod elf;
#[cfg(test)]
mod events;
#[cfg(test)]
mod exec;
#[cfg(test)]
mod hex_texts;
#[cfg(test)]
mod image;
#[cfg(test)]
mod isa;
#[cfg(test)]
mod issue;
#[cfg(test)]
mod need;
#[cfg(test)]
mod rows;
#[cfg(test)]
mod runs;
#[cfg(test)]
mod schedule;
#[cfg(test)]
mod script;
#[cfg(test)]
mod segments;
#[cfg(test)]
mod text;
#[cfg(test)]
mod tune;
#[cfg(test)]
mod value;
