//! Items: their faults at a place, and their bytes.
ghost use Rattle.std.specs.Prelude.{◌≡◌, ◌++◌, None, IfOk, OnOk};
ghost use Rattle.i9_statement.specs.Known.{known_in};
ghost use Rattle.i9_statement.specs.Statements.{statement_of};
ghost use Rattle.i9_asm.specs.Said.{item_as, label_in};
ghost use Rattle.i9_asm.specs.Lines.{Set, Ascii};
ghost use Rattle.i9_asm.specs.Places.{no_names, start_place};
ghost use Rattle.i9_asm.specs.Source.{zeros, label_fault, item_fault};
ghost use Rattle.i9_asm.specs.Reading.{place_of, Adds, AddsWords};

use crate::data::add_data;
use crate::lines::Said;
use crate::places::{Place, alignment_of, space_of};
use crate::strings::{add_string, string_size};
use i9_statement::{
    Fault, Known, code_of, is_name, least, lookup, settled, statement_of, value_of,
};
use std::alloc::AllocError;

/// Appends the words of a statement at an address, low bytes first, where it has no fault, and answers the fault.
fn add_code(
    bytes: &mut Vec<u8>,
    ip: u32,
    names: Known<'_>,
    text: &[u8],
) -> Result<Option<Fault>, AllocError>
    ensures fault { IfOk result (λ f. f ≡ (statement_of ip (known_in names.entry) text.now).fault) }
    ensures words { OnOk result ((statement_of ip (known_in names.entry) text.now).fault ≡ None
        → AddsWords (known_in names.entry) ip text.now bytes.old.items bytes.new.items) }
{
    let read = statement_of(ip, names, text);
    if read.fault.is_some() {
        return Ok(read.fault);
    }
    let code = code_of(&read.value);
    bytes.extend_from_slice(&code.first.to_le_bytes())?;
    if let Some(second) = code.second {
        bytes.extend_from_slice(&second.to_le_bytes())?;
    }
    Ok(None)
}

/// Appends so many zeros.
fn add_zeros(bytes: &mut Vec<u8>, count: u32) -> Result<(), AllocError>
    ensures { OnOk result (bytes.new.items ≡ bytes.old.items ++ zeros count) }
{
    for _ in 0..count {
        bytes.push(0)?;
    }
    Ok(())
}

/// The fault of a text that is no string.
fn string_fault(text: &[u8]) -> Option<Fault>
    ensures { result ≡ item_fault no_names start_place (Ascii text.now) }
{
    if string_size(text).is_some() {
        None
    } else {
        Some(Fault::Form)
    }
}

impl Place<'_> {
    /// The fault of a name that is defined here, by a label or by `.set`.
    pub(crate) fn label_fault(&self, label: Option<&[u8]>) -> Option<Fault>
        ensures { result ≡ label_fault (label_in label.entry) (place_of self.now).known }
    {
        let name = label?;
        if !is_name(name) {
            return Some(Fault::Form);
        }
        if lookup(self.known, name).is_some() {
            Some(Fault::NameTwice)
        } else {
            None
        }
    }

    /// The least fault of what `.set` says.
    fn set_fault(&self, name: &[u8], field: &[u8]) -> Option<Fault>
        ensures { result ≡ item_fault no_names (place_of self.now) (Set name.now field.now) }
    {
        let value = settled(value_of(self.known, field)).fault;
        least(value, self.label_fault(Some(name)))
    }

    /// Appends the bytes of an item, where names have these values, and answers its least fault.
    pub(crate) fn add_item(
        &self,
        names: Known<'_>,
        said: &Said<'_>,
        bytes: &mut Vec<u8>,
    ) -> Result<Option<Fault>, AllocError>
        ensures fault { IfOk result (λ f. f
            ≡ item_fault (known_in names.entry) (place_of self.now) (item_as said.now)) }
        ensures bytes { OnOk result (item_fault (known_in names.entry) (place_of self.now) (item_as said.now) ≡ None
            → Adds (known_in names.entry) (place_of self.now) (item_as said.now) bytes.old.items bytes.new.items) }
    {
        match *said {
            Said::Instruction(text) => add_code(bytes, self.address(), names, text),
            Said::Data(width, text) => add_data(bytes, width, names, text),
            Said::Ascii(text) => {
                add_string(bytes, text)?;
                Ok(string_fault(text))
            }
            Said::Space(field) => {
                let read = space_of(value_of(self.known, field));
                add_zeros(bytes, read.value)?;
                Ok(read.fault)
            }
            Said::Set(name, field) => Ok(self.set_fault(name, field)),
            Said::Org(field) => Ok(settled(value_of(self.known, field)).fault),
            Said::Align(field) => Ok(alignment_of(value_of(self.known, field)).fault),
            Said::Bad(fault) => Ok(Some(fault)),
            Said::Empty => Ok(None),
        }
    }
}
