//! Addresses, limits and words with a fixed meaning. What is no statement of the i960 CA/CF User's
//! Manual is this project's own: the port page with its console and exit word, and the limits.

/// The first address of the port page.
pub const PORT_PAGE: u32 = 0xE000_0000;

/// How many addresses the port page has.
pub const PORT_PAGE_SIZE: u32 = 0x1000;

/// A byte that is written here goes out at the console.
pub const CONSOLE: u32 = 0xE000_0000;

/// Four bytes that are written from here up end the run with their word.
pub const EXIT_WORD: u32 = 0xE000_0004;

/// The four boot bytes, which make the configuration word of region 15.
pub const BOOT_BYTES: [u32; 4] = [0xFFFF_FF00, 0xFFFF_FF04, 0xFFFF_FF08, 0xFFFF_FF0C];

/// The word of the initialisation boot record with the address of the first instruction.
pub const FIRST_INSTRUCTION: u32 = 0xFFFF_FF10;

/// The word of the initialisation boot record with the address of the PRCB.
pub const PRCB_POINTER: u32 = 0xFFFF_FF14;

/// The bytes of the ten words of the processor control block (PRCB).
pub const PRCB_SIZE: u32 = 40;

/// The bytes of the 28 words of the control table.
pub const CONTROL_TABLE_SIZE: u32 = 112;

/// The bytes of the four words of a control group.
pub const CONTROL_GROUP_SIZE: u32 = 16;

/// The least number of register sets that the PRCB gives.
pub const LEAST_SETS: u8 = 5;

/// The greatest number of register sets besides the one in use.
pub const MOST_SETS: u8 = 15;

/// The process controls after boot: supervisor mode, interrupted, priority 31.
pub const BOOT_PC: u32 = 0x001F_2002;

/// The bits of the process controls that are kept: trace enable, supervisor mode, trace fault
/// pending, interrupted, priority.
pub const PC_MASK: u32 = 0x001F_2403;

/// The bits of the arithmetic controls that are kept: condition code, overflow flag and mask, no
/// imprecise faults.
pub const AC_MASK: u32 = 0x9107;

/// The bits of the trace controls that are kept: modes, event flags and breakpoint flags.
pub const TC_MASK: u32 = 0x0FFE_00FE;

/// The place of the bit of the arithmetic controls that says that faults are precise.
pub const PRECISE_FAULTS_PLACE: u32 = 15;

/// The place of trace enable in the process controls.
pub const TRACE_ENABLE_PLACE: u32 = 0;

/// The place of the bit of the process controls that is set in supervisor mode.
pub const SUPERVISOR_PLACE: u32 = 1;

/// The return type of a call to an address, and of a system call that does not switch stacks.
pub const LOCAL_RETURN: u8 = 0;

/// The return type of a fault.
pub const FAULT_RETURN: u8 = 1;

/// The return type of a system call that switched stacks, to which the old trace enable is added.
pub const SUPERVISOR_RETURN: u8 = 2;

/// The return type of an interrupt.
pub const INTERRUPT_RETURN: u8 = 7;

/// The offset of the supervisor stack word in the system procedure table.
pub const SUPERVISOR_STACK: u32 = 12;

/// The offset of the first entry of the system procedure table.
pub const SYSTEM_TABLE_ENTRIES: u32 = 48;

/// The greatest number of a system procedure.
pub const MOST_SYSTEM_CALL: u32 = 259;

/// The place of the bit of an entry of the system procedure table that asks for the supervisor stack.
pub const ASKS_SUPERVISOR_PLACE: u32 = 1;

/// The bytes of the record of a fault or an interrupt, which stands below its handler's frame.
pub const RECORD_SIZE: u32 = 16;

/// The bytes of a frame's sixteen local registers.
pub const FRAME_SIZE: u32 = 64;

/// How many local registers there are.
pub const LOCALS: usize = 16;

/// The number of the previous frame pointer, r0.
pub const PFP: u8 = 0;

/// The number of the stack pointer, r1.
pub const SP: u8 = 1;

/// The number of the return instruction pointer, r2.
pub const RIP: u8 = 2;

/// The number of the register that bal links, g14.
pub const LINK: u8 = 30;

/// The number of the frame pointer, g15.
pub const FP: u8 = 31;

/// The greatest length of a run, in instructions.
pub const MAX_LENGTH: u64 = 10_000_000;
