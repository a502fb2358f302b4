//! Boot, and what sysctl reads of the tables of start-up.
ghost use Rattle.std.specs.Prelude.{◌≡◌, ◌<◌, IfOk, OnErr};
ghost use Rattle.i9_model.specs.Boot.{boot_setup, boot_memory, configured};
ghost use Rattle.i9_model.specs.Tables.{tables_hazard, planned_setup, group_hazard, planned_group};
ghost use Rattle.i9_memory.specs.Memory.{memory_of, KeepsRoom};
ghost use Rattle.i9_watch.specs.Watch.{frames_of};

use crate::regions::{configure_all, use_boot_bytes};
use crate::tables::{control_table, group_address, group_words, setup};
use i9_memory::Memory;
use i9_model::Setup;
use i9_model::layout::{
    CONTROL_GROUP_SIZE, CONTROL_TABLE_SIZE, FIRST_INSTRUCTION, PRCB_POINTER, PRCB_SIZE,
};
use i9_watch::Watch;

/// Boots: region 15 is configured by the boot bytes, then the boot record, the PRCB and the control
/// table are read, and then all regions are configured by the control table (i960 CA/CF User's
/// Manual, initialisation). No byte of memory changes.
#[tactic(auto, unfolding(i9_model::specs::Boot::boot_setup, i9_model::specs::Boot::boot_memory))]
pub fn boot(m: &mut Memory) -> Setup
    ensures setup { result ≡ boot_setup (memory_of m.old) }
    ensures memory { memory_of m.new ≡ boot_memory (memory_of m.old) }
    ensures bytes { (memory_of m.new).bytes ≡ (memory_of m.old).bytes }
    ensures keeps { KeepsRoom m.old m.new }
    ensures no_more { KeepsRoom m.new m.old }
{
    use_boot_bytes(m);
    let setup = setup(m, m.word(FIRST_INSTRUCTION), m.word(PRCB_POINTER));
    configure_all(m, &setup.control);
    setup
}

/// The least soft byte of the PRCB, or else of the control table that it names.
#[tactic(auto, unfolding(i9_model::specs::Tables::tables_hazard))]
fn tables_hazard(m: &Memory, w: &Watch, prcb: u32) -> Option<u32>
    ensures { result ≡ tables_hazard (memory_of m.now) (frames_of w.now) prcb }
{
    if let Some(a) = w.check_read(prcb, PRCB_SIZE) {
        return Some(a);
    }
    w.check_read(control_table(m, prcb), CONTROL_TABLE_SIZE)
}

/// Starts the processor anew at the instruction address `first`: reads the PRCB at `prcb` and its
/// control table, and then configures all regions by the control table (i960 CA/CF User's Manual,
/// sysctl). No byte of memory changes. `Err` is the hazard of these reads, the least soft byte of
/// the PRCB, or else of the control table; nothing is done then.
pub fn reinit(m: &mut Memory, w: &Watch, first: u32, prcb: u32) -> Result<Setup, u32>
    ensures setup { result ≡ planned_setup (memory_of m.old) (frames_of w.now) first prcb }
    ensures memory { IfOk result (λ s. memory_of m.new ≡ configured (memory_of m.old) s.control) }
    ensures bytes { (memory_of m.new).bytes ≡ (memory_of m.old).bytes }
    ensures refused { OnErr result (memory_of m.new ≡ memory_of m.old) }
    ensures keeps { KeepsRoom m.old m.new }
    ensures no_more { KeepsRoom m.new m.old }
{
    if let Some(a) = tables_hazard(m, w, prcb) {
        return Err(a);
    }
    let setup = setup(m, first, prcb);
    configure_all(m, &setup.control);
    Ok(setup)
}

/// The four words of a group of the control table at `table` (i960 CA/CF User's Manual, sysctl). `Err`
/// is the hazard of this read, the least soft byte of the group.
#[tactic(auto, unfolding(i9_model::specs::Tables::group_hazard))]
pub fn control_group(m: &Memory, w: &Watch, table: u32, group: u8) -> Result<[u32; 4], u32>
    requires { group < 7 }
    ensures { result ≡ planned_group (memory_of m.now) (frames_of w.now) table group }
{
    match w.check_read(group_address(table, group), CONTROL_GROUP_SIZE) {
        Some(a) => Err(a),
        None => Ok(group_words(m, table, group)),
    }
}
