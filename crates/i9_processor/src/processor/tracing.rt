//! What trace events go by behind the results of an instruction.
ghost use Rattle.std.specs.Prelude.{◌≡◌, ℕ, ◌+◌, ◌*◌, ◌<◌};
ghost use Rattle.i9_model.specs.Boot.{table_word, setup_of};
ghost use Rattle.i9_model.specs.Free.{ComesAfterFlush};
ghost use Rattle.i9_model.specs.State.{start_trace};
ghost use Rattle.i9_processor.specs.Effect.{writes_in, move_in, control_in};
ghost use Rattle.i9_processor.specs.State.{state_of};
ghost use Rattle.i9_processor.specs.Tracing.{controls_of, loaded_trace, trace_left};

use super::Processor;
use crate::effect::{Control, Effect};
use i9_model::Breaks;
use i9_model::layout::{CONTROL_GROUP_SIZE, TC_MASK};

/// The number of the PRCB's word that has the address of the control table.
const CONTROL_TABLE: u32 = 1;

/// The trace controls and the breakpoints.
#[derive(Clone, Copy)]
pub struct TraceControls {
    pub tc: u32,
    pub breaks: Breaks,
}

impl Processor {
    /// The word of a table that has `k` words before it.
    #[tactic(auto, unfolding(crate::specs::State::state_of))]
    fn table_word(&self, table: u32, k: u32) -> u32
        requires { k < 32 }
        ensures { result ≡ table_word (state_of self.now).memory table k }
    {
        self.word(table.wrapping_add(4 * k))
    }

    /// The trace controls and breakpoints that start-up sets by a PRCB.
    #[tactic(auto, unfolding(i9_model::specs::Boot::setup_of))]
    fn started_trace(&self, prcb: u32) -> TraceControls
        ensures { (first : ℕ) → controls_of result ≡ start_trace (setup_of (state_of self.now).memory first prcb) }
    {
        let table = self.table_word(prcb, CONTROL_TABLE);
        TraceControls {
            tc: self.table_word(table, 26) & TC_MASK,
            breaks: Breaks {
                ipb: [self.table_word(table, 0), self.table_word(table, 1)],
                dab: [self.table_word(table, 2), self.table_word(table, 3)],
                bpcon: self.table_word(table, 25),
            },
        }
    }

    /// The trace controls and breakpoints behind the load of a group of the control table, from the trace
    /// controls before it.
    #[tactic(auto, unfolding(crate::specs::State::state_of, i9_model::specs::Tables::group_words))]
    fn loaded_trace(&self, tc: u32, group: u8) -> TraceControls
        ensures { controls_of result ≡ loaded_trace (state_of self.now) tc group }
    {
        let table = self.tables.control_table;
        let at = table.wrapping_add(CONTROL_GROUP_SIZE * u32::from(group));
        match group {
            0 => TraceControls {
                tc,
                breaks: Breaks {
                    ipb: [self.table_word(at, 0), self.table_word(at, 1)],
                    dab: [self.table_word(at, 2), self.table_word(at, 3)],
                    bpcon: self.breaks.bpcon,
                },
            },
            6 => TraceControls {
                tc: self.table_word(at, 2) & TC_MASK,
                breaks: Breaks {
                    ipb: self.breaks.ipb,
                    dab: self.breaks.dab,
                    bpcon: self.table_word(at, 1),
                },
            },
            _ => TraceControls {
                tc,
                breaks: self.breaks,
            },
        }
    }

    /// The trace controls and breakpoints as the results of an effect leave them, before trace events set
    /// flags.
    #[tactic(auto, using(crate::proofs::Tracing::trace_rules))]
    pub fn trace_left(&self, e: &Effect) -> TraceControls
        requires { ComesAfterFlush (control_in e.now.control) (move_in (state_of self.now) e.now.frames)
            (writes_in e.now) }
        ensures { controls_of result ≡ trace_left (state_of self.now) e.now }
    {
        match e.control {
            Control::Keeps => TraceControls {
                tc: e.tc,
                breaks: self.breaks,
            },
            Control::Restarts { first: _, prcb } => self.started_trace(prcb),
            Control::LoadsGroup(group) => self.loaded_trace(e.tc, group),
        }
    }
}
