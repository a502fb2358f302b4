//! What of a processor has landed, whatever is planned and waits.
ghost use Rattle.std.specs.Prelude.{◌≡◌, ℕ};
ghost use Rattle.i9_model.specs.Late.{is_plan_open, landed};
ghost use Rattle.i9_model.specs.Needs.{set_below};
ghost use Rattle.i9_model.specs.PrintedText.{register_list};

use super::Processor;

/// How many registers there are, the condition code aside.
const REGISTERS: usize = 32;

impl Processor {
    ghost use Rattle.i9_processor.specs.State.{cells_of, bytes_of};

    /// The registers as they stand at a turn, whatever is planned for them.
    #[tactic(auto, unfolding(crate::specs::State::cells_of))]
    pub fn raw_registers(&self, turn: u64) -> [u32; REGISTERS]
        ensures { result ≡ register_list (λ r. (landed turn (cells_of self.now r)).value) }
    {
        let mut registers = [0; REGISTERS];
        for r in 0..REGISTERS {
            registers[r] = self.file.value(r as u8, turn);
        }
        registers
    }

    /// The set of the registers for which a value is planned at a later turn than `turn`: bit r is that of
    /// register r.
    #[tactic(auto, unfolding(crate::specs::State::cells_of))]
    pub fn busy_registers(&self, turn: u64) -> u32
        ensures { result ≡ set_below 32 (λ r. is_plan_open turn (cells_of self.now r).plan) }
    {
        let mut busy = 0;
        for r in 0..REGISTERS {
            if self.file.busy(r as u8, turn) {
                busy += 1 << r;
            }
        }
        busy
    }

    /// The byte at `a` of the memory behind the held frames, whatever waits; 0 in the port page.
    #[tactic(auto, unfolding(crate::specs::State::bytes_of))]
    pub fn acted_byte(&self, a: u32) -> u8
        ensures { result ≡ bytes_of self.now a }
    {
        self.storage.acted_byte(a)
    }
}
