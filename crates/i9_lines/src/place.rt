//! The lines that tell of the place at which a machine stands.
ghost use Rattle.std.specs.Prelude.{◌≡◌, ◌++◌, ℕ, List, Option, length, map, reverse, IfOk, OnOk};
ghost use Rattle.std.specs.List.{flat_map};
ghost use Rattle.i9_model.specs.Given.{Given};
ghost use Rattle.i9_model.specs.PrintedText.{overlays};
ghost use Rattle.i9_model.specs.Run.{Finish, state_after};
ghost use Rattle.i9_course.specs.Course.{Item, records_of};
ghost use Rattle.i9_machine.specs.StandsFor.{StandsFor};
ghost use Rattle.i9_lines.specs.PlaceText.{turn_text, view_text, raw_text, held_text, raw_bytes_text, raw_bytes};
ghost use Rattle.i9_lines.specs.PlaceText.{who_text};

use crate::text::{add_bytes, add_count, add_registers, add_word, add_words, add_words_line};
use i9_frames::Sets;
use i9_machine::{Machine, Raw};
use i9_model::View;
use std::alloc::{AllocError, Global};

/// Appends the line of a turn, and of how many instructions have issued.
#[tactic(auto, unfolding(crate::specs::PlaceText::turn_text))]
pub fn add_turn(alloc: Global, text: &mut Vec<u8>, turn: u64, count: u64) -> Result<(), AllocError>
    ensures { OnOk result (text.new.items ≡ text.old.items ++ turn_text turn count) }
{
    text.extend_from_slice(b"#turn ")?;
    add_count(alloc, text, turn)?;
    text.push(b' ')?;
    add_count(alloc, text, count)?;
    text.push(b'\n')?;
    Ok(())
}

/// Appends the lines of a view.
#[tactic(auto, unfolding(crate::specs::PlaceText::view_text, i9_model::specs::PrintedText::words_text))]
pub fn add_view(alloc: Global, text: &mut Vec<u8>, view: &View) -> Result<(), AllocError>
    ensures { OnOk result (text.new.items ≡ text.old.items ++ view_text view.now) }
{
    text.extend_from_slice(b"#view ")?;
    add_count(alloc, text, view.count)?;
    add_words(text, &[view.ip, view.ac, view.pc])?;
    add_registers(text, view)
}

/// Appends the lines of a raw state.
#[tactic(auto, unfolding(crate::specs::PlaceText::raw_text, i9_model::specs::PrintedText::words_text))]
pub fn add_raw(alloc: Global, text: &mut Vec<u8>, raw: &Raw) -> Result<(), AllocError>
    ensures { OnOk result (text.new.items ≡ text.old.items ++ raw_text raw.now) }
{
    text.extend_from_slice(b"#raw ")?;
    add_count(alloc, text, raw.turn)?;
    add_words(text, &[raw.busy])?;
    let (locals, globals) = raw.regs.split_at(16);
    add_words_line(text, b"#rg", globals)?;
    add_words_line(text, b"#rl", locals)
}

/// The addresses to which the frames that are held are saved, the youngest first.
fn save_addresses(alloc: Global, sets: &Sets) -> Result<Vec<u32>, AllocError>
    ensures { IfOk result (λ list. list.items ≡ map (λ f. f.address) (reverse sets.now.frames)) }
{
    let mut list = Vec::new(alloc);
    for k in 0..sets.len() {
        if let Some(frame) = sets.at(k) {
            list.push(frame.address)?;
        }
    }
    Ok(list)
}

/// Appends the line of the frames that are held.
#[tactic(auto, unfolding(crate::specs::PlaceText::held_text, i9_model::specs::PrintedText::words_text))]
pub fn add_held(alloc: Global, text: &mut Vec<u8>, sets: &Sets) -> Result<(), AllocError>
    ensures { OnOk result (text.new.items ≡ text.old.items ++ held_text sets.now.size sets.now.frames) }
{
    text.extend_from_slice(b"#held ")?;
    add_count(alloc, text, u64::from(sets.size()))?;
    text.push(b' ')?;
    add_count(alloc, text, u64::from(sets.len()))?;
    let addresses = save_addresses(alloc, sets)?;
    add_words(text, &addresses)
}

/// So many bytes of the view from an address up, `None` where none is compared.
#[tactic(auto, using(crate::proofs::PlaceBytes::byte_rules))]
pub fn shown_bytes(alloc: Global, m: &Machine, a: u32, n: u8) -> Result<Vec<Option<u8>>, AllocError>
    ensures { IfOk result (λ list. (g : Given) (h : List Item) (end : Option Finish) → StandsFor g h end m.now
        → list.items ≡ overlays (state_after g (records_of h)) a n) }
{
    let mut list = Vec::new(alloc);
    for k in 0..n {
        list.push(m.byte(a.wrapping_add(u32::from(k))))?;
    }
    Ok(list)
}

/// So many bytes of raw memory from an address up.
#[tactic(auto, using(crate::proofs::PlaceBytes::byte_rules))]
pub fn standing_bytes(
    alloc: Global,
    m: &Machine,
    a: u32,
    n: u8,
) -> Result<Vec<Option<u8>>, AllocError>
    ensures { IfOk result (λ list. (g : Given) (h : List Item) (end : Option Finish) → StandsFor g h end m.now
        → list.items ≡ raw_bytes g h m.now.pipeline.turn a n) }
{
    let mut list = Vec::new(alloc);
    for k in 0..n {
        list.push(Some(m.raw_byte(a.wrapping_add(u32::from(k)))))?;
    }
    Ok(list)
}

/// Appends the line of the bytes of raw memory from an address on.
#[tactic(auto, unfolding(crate::specs::PlaceText::raw_bytes_text))]
pub fn add_raw_bytes(
    text: &mut Vec<u8>,
    address: u32,
    list: &[Option<u8>],
) -> Result<(), AllocError>
    ensures { OnOk result (text.new.items ≡ text.old.items ++ raw_bytes_text address list.now) }
{
    text.extend_from_slice(b"#rawmem")?;
    add_word(text, address)?;
    add_bytes(text, list)
}

/// Appends the line of what last changed a byte.
#[tactic(auto, unfolding(crate::specs::PlaceText::who_text))]
pub fn add_change(
    alloc: Global,
    text: &mut Vec<u8>,
    change: Option<(u64, u32)>,
) -> Result<(), AllocError>
    ensures { OnOk result (text.new.items ≡ text.old.items ++ who_text change) }
{
    match change {
        None => text.extend_from_slice(b"#who none\n"),
        Some((count, address)) => {
            text.extend_from_slice(b"#who ")?;
            add_count(alloc, text, count)?;
            add_word(text, address)?;
            text.push(b'\n')?;
            Ok(())
        }
    }
}
