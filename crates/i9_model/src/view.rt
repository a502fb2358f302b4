//! What is shown of the machine at a drained point.

/// The count of instructions, instruction address, arithmetic, process and trace controls, and the
/// 32 registers: r0 to r15, then g0 to g15. Bit r of `marks` is the mark of register r, whose value
/// is stale where it is marked.
#[derive(Clone, Copy, Debug, PartialEq, Eq)]
pub struct View {
    pub count: u64,
    pub ip: u32,
    pub ac: u32,
    pub pc: u32,
    pub tc: u32,
    pub regs: [u32; 32],
    pub marks: u32,
}
