//! The first pass: the names of a source and their definitions.
ghost use Rattle.std.specs.Prelude.{◌≡◌, ◌<◌, ◌*◌, ◌^◌, IfOk};
ghost use Rattle.i9_statement.specs.Known.{definitions};
ghost use Rattle.i9_asm.specs.Said.{item_as, label_in};

use crate::lines::{Said, read_line};
use crate::places::{Place, effect_of, is_label};
use i9_statement::{Definition, Known, Table, is_name, settled, value_of};
use std::alloc::{AllocError, Global};

/// Where the first pass stands: the location, and the names that are defined before it.
#[derive(Drop)]
pub(crate) struct Naming {
    location: u64,
    pub(crate) table: Table,
    ghost low: { location < 2 ^ 33 },
}

impl Naming {
    ghost use Rattle.i9_asm.specs.Places.{is_label, address_at, past_label, past_item, past_line, start_place};
    ghost use Rattle.i9_asm.specs.Numbered.{no_definitions, label_entered, item_entered, line_entered};
    ghost use Rattle.i9_asm.specs.Reading.{place_of, naming_place};

    /// Before the first line.
    pub(crate) fn new(alloc: Global) -> Naming
        ensures table { definitions result.table ≡ no_definitions }
        ensures place { naming_place result ≡ start_place }
    {
        Naming {
            location: 0,
            table: Table::new(alloc),
        }
    }

    /// The place there.
    fn place(&self) -> Place<'_>
        ensures { place_of result ≡ naming_place self.now }
    {
        Place {
            location: self.location,
            known: Known::All(&self.table),
        }
    }

    /// The same behind a label, which is defined at this step where it is a name.
    fn with_label(self, step: u128, label: Option<&[u8]>, named: bool) -> Result<Naming, AllocError>
        requires { named ≡ is_label (label_in label) }
        ensures location { IfOk result (λ n. n.location ≡ self.location) }
        ensures table { IfOk result (λ n. definitions n.table
            ≡ label_entered (label_in label.entry) (address_at (naming_place self)) step (definitions self.table)) }
    {
        match label {
            Some(name) if named => {
                let value = self.place().address();
                let definition = Definition { value, step };
                Ok(Naming {
                    location: self.location,
                    table: self.table.define(name, definition)?,
                })
            }
            _ => Ok(self),
        }
    }

    /// The table behind an item, whose name is defined at this step.
    fn assigned(self, step: u128, said: &Said<'_>) -> Result<Table, AllocError>
        ensures { IfOk result (λ more. definitions more
            ≡ item_entered (naming_place self) step (item_as said.now) (definitions self.table)) }
    {
        match *said {
            Said::Set(name, field) => {
                let value = value_of(Known::All(&self.table), field);
                if is_name(name) && value.is_some() {
                    let value = settled(value).value;
                    self.table.define(name, Definition { value, step })
                } else {
                    Ok(self.table)
                }
            }
            _ => Ok(self.table),
        }
    }

    /// The same behind an item, whose name is defined at this step.
    fn with_item(self, step: u128, said: &Said<'_>) -> Result<Naming, AllocError>
        ensures location { IfOk result (λ n. n.location ≡ (past_item (naming_place self) (item_as said.now)).location) }
        ensures table { IfOk result (λ n. definitions n.table
            ≡ item_entered (naming_place self) step (item_as said.now) (definitions self.table)) }
    {
        let place = self.place();
        let location = place.next_location(place.moved_to(said), place.size_of(said));
        let table = self.assigned(step, said)?;
        Ok(Naming { location, table })
    }

    /// The same behind a line with so many lines before it, also behind one at fault.
    pub(crate) fn with_line(self, number: u64, text: &[u8]) -> Result<Naming, AllocError>
        ensures location { IfOk result (λ n. n.location ≡ (past_line (naming_place self) text.now).location) }
        ensures table { IfOk result (λ n. definitions n.table
            ≡ line_entered (naming_place self) (2 * number) text.now (definitions self.table)) }
    {
        let line = read_line(text);
        let step = 2 * u128::from(number);
        let named = is_label(line.label);
        let labelled = self.with_label(step, line.label, named)?;
        labelled.with_item(step + 1, &effect_of(text, &line, named))
    }
}
