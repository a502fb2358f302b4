//! The words of the PRCB and of the control table.
ghost use Rattle.std.specs.Prelude.{◌≡◌, ◌<◌, ◌%◌, max};
ghost use Rattle.i9_model.specs.Boot.{table_word, setup_of};
ghost use Rattle.i9_model.specs.Tables.{group_address, group_words};
ghost use Rattle.i9_memory.specs.Memory.{memory_of};

use i9_memory::Memory;
use i9_model::layout::{AC_MASK, CONTROL_GROUP_SIZE, LEAST_SETS};
use i9_model::{CONTROL_WORDS, Setup};

// Words of the PRCB by number (i960 CA/CF User's Manual, initialisation).
const FAULT_TABLE: u32 = 0;

const CONTROL_TABLE: u32 = 1;

const AC_IMAGE: u32 = 2;

const FAULT_CONFIG: u32 = 3;

const INTERRUPT_TABLE: u32 = 4;

const SYSTEM_TABLE: u32 = 5;

const INTERRUPT_STACK: u32 = 7;

/// The number of the PRCB's word that says how many register sets there are.
pub const REGISTER_CACHE: u32 = 9;

/// The word of a table that has `k` words before it.
fn table_word(m: &Memory, table: u32, k: u32) -> u32
    requires { k < CONTROL_WORDS }
    ensures { result ≡ table_word (memory_of m.now) table k }
{
    m.word(table.wrapping_add(4 * k))
}

/// The address of the control table that a PRCB names.
pub(crate) fn control_table(m: &Memory, prcb: u32) -> u32
    ensures { result ≡ table_word (memory_of m.now) prcb 1 }
{
    table_word(m, prcb, CONTROL_TABLE)
}

/// The address of a group of the control table.
pub(crate) fn group_address(table: u32, group: u8) -> u32
    requires { group < 7 }
    ensures { result ≡ group_address table group }
{
    table.wrapping_add(CONTROL_GROUP_SIZE * u32::from(group))
}

/// The words of a control group.
#[tactic(auto, unfolding(i9_model::specs::Tables::group_words))]
pub(crate) fn group_words(m: &Memory, table: u32, group: u8) -> [u32; 4]
    requires { group < 7 }
    ensures { result ≡ group_words (memory_of m.now) table group }
{
    m.words(group_address(table, group))
}

/// How many register sets the PRCB's word on the register cache asks for: its low four bits, or five where they ask for
/// fewer.
pub fn sets_asked(word: u32) -> u8
    ensures value { result ≡ max LEAST_SETS (word % 16) }
    ensures some { 0 < result }
    ensures few { result < 16 }
{
    LEAST_SETS.max((word % 16) as u8)
}

/// What start-up reads of a PRCB and of its control table.
#[tactic(auto, unfolding(i9_model::specs::Boot::setup_of))]
pub(crate) fn setup(m: &Memory, first: u32, prcb: u32) -> Setup
    ensures { result ≡ setup_of (memory_of m.now) first prcb }
{
    let control_table = control_table(m, prcb);
    Setup {
        first,
        fault_table: table_word(m, prcb, FAULT_TABLE),
        control_table,
        ac: table_word(m, prcb, AC_IMAGE) & AC_MASK,
        fault_config: table_word(m, prcb, FAULT_CONFIG),
        interrupt_table: table_word(m, prcb, INTERRUPT_TABLE),
        system_table: table_word(m, prcb, SYSTEM_TABLE),
        interrupt_stack: table_word(m, prcb, INTERRUPT_STACK),
        sets: sets_asked(table_word(m, prcb, REGISTER_CACHE)),
        control: m.words(control_table),
    }
}
