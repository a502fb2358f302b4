//! The configuration words of the regions of memory.
ghost use Rattle.std.specs.Prelude.{◌≡◌};
ghost use Rattle.i9_model.specs.Boot.{configured, with_boot_bytes};
ghost use Rattle.i9_memory.specs.Memory.{memory_of, KeepsRoom};

use i9_memory::Memory;
use i9_model::CONTROL_WORDS;
use i9_model::layout::BOOT_BYTES;

/// How many regions memory has.
const REGIONS: u8 = 16;

/// The region of the boot record.
const BOOT_REGION: u8 = 15;

/// The control word that configures region 0; those of the other regions stand behind it.
const FIRST_REGION_WORD: usize = 8;

/// Configures the region of the boot record by the four boot bytes.
#[tactic(auto, unfolding(i9_model::specs::Boot::with_boot_bytes))]
pub(crate) fn use_boot_bytes(m: &mut Memory)
    ensures memory { memory_of m.new ≡ with_boot_bytes (memory_of m.old) }
    ensures bytes { (memory_of m.new).bytes ≡ (memory_of m.old).bytes }
    ensures keeps { KeepsRoom m.old m.new }
    ensures no_more { KeepsRoom m.new m.old }
{
    let [a, b, c, d] = BOOT_BYTES;
    let bytes = [m.byte(a), m.byte(b), m.byte(c), m.byte(d)];
    m.configure(BOOT_REGION, u32::from_le_bytes(bytes));
}

/// Configures all regions by the words of a control table.
#[tactic(auto, unfolding(i9_model::specs::Boot::configured))]
pub(crate) fn configure_all(m: &mut Memory, control: &[u32; CONTROL_WORDS])
    ensures memory { memory_of m.new ≡ configured (memory_of m.old) control.now }
    ensures bytes { (memory_of m.new).bytes ≡ (memory_of m.old).bytes }
    ensures keeps { KeepsRoom m.old m.new }
    ensures no_more { KeepsRoom m.new m.old }
{
    for region in 0..REGIONS {
        m.configure(region, control[FIRST_REGION_WORD + region as usize]);
    }
}
