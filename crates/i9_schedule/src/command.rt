//! What a debugger is asked to do.

/// A command of a debugger. The commands are this project's own.
#[derive(Clone, Copy, Debug, PartialEq, Eq)]
pub enum Command {
    /// So many turns are run, 1 to 1,000,000.
    Turn(u64),
    /// Turns are run until the instruction address is this one.
    Until(u32),
    /// The registers of the view are told.
    Regs,
    /// The register files as they stand are told, and which registers are busy.
    Raw,
    /// The frames that the register cache holds are told.
    Held,
    /// The bytes of the view at this address are told, 1 to 64 of them.
    Mem(u32, u8),
    /// The bytes at this address as they stand are told, 1 to 64 of them.
    RawMem(u32, u8),
    /// The run goes back by so many instructions, 1 to 10,000,000.
    Back(u64),
    /// The run goes back to the last instruction before that left the instruction address at this one.
    Last(u32),
    /// The last instruction that changed the byte of the view at this address is told.
    Who(u32),
}
