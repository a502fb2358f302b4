//! What start-up reads, and what it sets.

/// How many words the control table has.
pub const CONTROL_WORDS: usize = 28;

/// What is read at start-up and by the message of sysctl that starts the processor anew: the first
/// instruction address, the words of the processor control block (PRCB) and those of the control
/// table that it names. `ac` has the kept bits of the AC image. `sets` is how many register sets
/// the word of the register cache asks for, at least 5.
#[derive(Clone, Copy, Debug, PartialEq, Eq)]
pub struct Setup {
    pub first: u32,
    pub fault_table: u32,
    pub control_table: u32,
    pub ac: u32,
    pub fault_config: u32,
    pub interrupt_table: u32,
    pub system_table: u32,
    pub interrupt_stack: u32,
    pub sets: u8,
    pub control: [u32; CONTROL_WORDS],
}

/// The words of the PRCB that are used after start-up.
#[derive(Clone, Copy, Debug, PartialEq, Eq)]
pub struct Tables {
    pub fault_table: u32,
    pub control_table: u32,
    pub fault_config: u32,
    pub interrupt_table: u32,
    pub system_table: u32,
    pub interrupt_stack: u32,
    pub sets: u8,
}

/// The instruction breakpoints, the data breakpoints, and the breakpoint controls.
#[derive(Clone, Copy, Debug, PartialEq, Eq)]
pub struct Breaks {
    pub ipb: [u32; 2],
    pub dab: [u32; 2],
    pub bpcon: u32,
}
