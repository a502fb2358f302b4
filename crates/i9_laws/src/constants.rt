//! The constants that definitions and code share, by their values.

ghost use Rattle.std.specs.Prelude.{◌≡◌, ◌∷◌, []};
ghost use Rattle.i9_model.specs.declared.setup.TheConstants.{CONTROL_WORDS};
ghost use Rattle.i9_model.specs.declared.layout.TheConstants.{PORT_PAGE, PORT_PAGE_SIZE, CONSOLE, EXIT_WORD};
ghost use Rattle.i9_model.specs.declared.layout.TheConstants.{BOOT_BYTES, FIRST_INSTRUCTION, PRCB_POINTER};
ghost use Rattle.i9_model.specs.declared.layout.TheConstants.{PRCB_SIZE, CONTROL_TABLE_SIZE, CONTROL_GROUP_SIZE};
ghost use Rattle.i9_model.specs.declared.layout.TheConstants.{LEAST_SETS, MOST_SETS, MAX_LENGTH};
ghost use Rattle.i9_model.specs.declared.layout.TheConstants.{BOOT_PC, PC_MASK, AC_MASK, TC_MASK, PRECISE_FAULTS_PLACE};
ghost use Rattle.i9_model.specs.declared.layout.TheConstants.{TRACE_ENABLE_PLACE, SUPERVISOR_PLACE};
ghost use Rattle.i9_model.specs.declared.layout.TheConstants.{LOCAL_RETURN, FAULT_RETURN, SUPERVISOR_RETURN};
ghost use Rattle.i9_model.specs.declared.layout.TheConstants.{INTERRUPT_RETURN};
ghost use Rattle.i9_model.specs.declared.layout.TheConstants.{SUPERVISOR_STACK, SYSTEM_TABLE_ENTRIES, MOST_SYSTEM_CALL};
ghost use Rattle.i9_model.specs.declared.layout.TheConstants.{ASKS_SUPERVISOR_PLACE};
ghost use Rattle.i9_model.specs.declared.layout.TheConstants.{RECORD_SIZE, FRAME_SIZE, LOCALS, PFP, SP, RIP, LINK, FP};
ghost use Rattle.i9_model.specs.declared.faults.TheConstants.{TRACE, OPERATION, ARITHMETIC, CONSTRAINT, PROTECTION};
ghost use Rattle.i9_model.specs.declared.faults.TheConstants.{TYPE};
ghost use Rattle.i9_model.specs.declared.faults.TheConstants.{INVALID_OPCODE, UNALIGNED, INVALID_OPERAND, OVERFLOW};
ghost use Rattle.i9_model.specs.declared.faults.TheConstants.{ZERO_DIVIDE, RANGE, LENGTH, MISMATCH};
ghost use Rattle.i9_model.specs.declared.interrupts.TheConstants.{LINES, FIRST_DMA_LINE, LINE_MASK, FIRST_VECTOR};
ghost use Rattle.i9_model.specs.declared.interrupts.TheConstants.{NMI_VECTOR, HIGHEST_PRIORITY};
ghost use Rattle.i9_model.specs.declared.interrupts.TheConstants.{PRIORITY_PLACE, INTERRUPTED_PLACE, PENDING_SIZE};
ghost use Rattle.i9_model.specs.declared.interrupts.TheConstants.{PENDING_VECTORS, VECTOR_WORDS};
ghost use Rattle.i9_model.specs.declared.dma.TheConstants.{CHANNELS, COMMAND_MASK, FIRST_ENDED_PLACE};
ghost use Rattle.i9_model.specs.declared.dma.TheConstants.{SOURCE_HELD_PLACE, TARGET_HELD_PLACE, FED_PLACE};
ghost use Rattle.i9_model.specs.declared.dma.TheConstants.{POSTS_PLACE};
ghost use Rattle.i9_model.specs.declared.trace.TheConstants.{INSTRUCTION_TRACE_PLACE, BRANCH_TRACE_PLACE};
ghost use Rattle.i9_model.specs.declared.trace.TheConstants.{CALL_TRACE_PLACE, RETURN_TRACE_PLACE};
ghost use Rattle.i9_model.specs.declared.trace.TheConstants.{PRERETURN_TRACE_PLACE, SUPERVISOR_TRACE_PLACE};
ghost use Rattle.i9_model.specs.declared.trace.TheConstants.{MARK_TRACE_PLACE, FLAG_DISTANCE};
ghost use Rattle.i9_model.specs.declared.trace.TheConstants.{IPB0_FLAG_PLACE, IPB1_FLAG_PLACE, DAB0_FLAG_PLACE};
ghost use Rattle.i9_model.specs.declared.trace.TheConstants.{DAB1_FLAG_PLACE};
ghost use Rattle.i9_model.specs.declared.trace.TheConstants.{IPB_ENABLE_PLACE, DAB0_ENABLE_PLACE, DAB1_ENABLE_PLACE};
ghost use Rattle.i9_model.specs.declared.faults.TheConstants.{FAULT_ENTRY_SIZE, SYSTEM_ENTRY, TRACE_MASK, NO_HANDLER};
ghost use Rattle.i9_model.specs.declared.faults.TheConstants.{NO_SYSTEM_ENTRY, NO_PROCEDURE};

/// The constants that the definitions share with the code have these values, so that a wrong one cannot be wrong on
/// both sides. After the i960 CA/CF User's Manual: initialisation, registers, controls, calls, faults, tracing. The
/// port page with its two addresses, the most instructions of a run, the codes of a dead entry and the words of DMA are
/// this project's own.
pub fn shared_constants()
    ensures port_page { (PORT_PAGE ≡ 0xE0000000) × (PORT_PAGE_SIZE ≡ 0x1000) × (CONSOLE ≡ 0xE0000000)
        × (EXIT_WORD ≡ 0xE0000004) }
    ensures boot_record { (BOOT_BYTES ≡ 0xFFFFFF00 ∷ 0xFFFFFF04 ∷ 0xFFFFFF08 ∷ 0xFFFFFF0C ∷ [])
        × (FIRST_INSTRUCTION ≡ 0xFFFFFF10) × (PRCB_POINTER ≡ 0xFFFFFF14) }
    ensures tables { (PRCB_SIZE ≡ 40) × (CONTROL_TABLE_SIZE ≡ 112) × (CONTROL_GROUP_SIZE ≡ 16) × (CONTROL_WORDS ≡ 28) }
    ensures limits { (LEAST_SETS ≡ 5) × (MOST_SETS ≡ 15) × (MAX_LENGTH ≡ 10000000) }
    ensures controls { (BOOT_PC ≡ 0x001F2002) × (PC_MASK ≡ 0x001F2403) × (AC_MASK ≡ 0x9107) × (TC_MASK ≡ 0x0FFE00FE) }
    ensures places { (PRECISE_FAULTS_PLACE ≡ 15) × (TRACE_ENABLE_PLACE ≡ 0) × (SUPERVISOR_PLACE ≡ 1) }
    ensures returns { (LOCAL_RETURN ≡ 0) × (FAULT_RETURN ≡ 1) × (SUPERVISOR_RETURN ≡ 2) × (INTERRUPT_RETURN ≡ 7) }
    ensures system_table { (SUPERVISOR_STACK ≡ 12) × (SYSTEM_TABLE_ENTRIES ≡ 48) × (MOST_SYSTEM_CALL ≡ 259)
        × (ASKS_SUPERVISOR_PLACE ≡ 1) }
    ensures frames { (RECORD_SIZE ≡ 16) × (FRAME_SIZE ≡ 64) × (LOCALS ≡ 16) }
    ensures registers { (PFP ≡ 0) × (SP ≡ 1) × (RIP ≡ 2) × (LINK ≡ 30) × (FP ≡ 31) }
    ensures fault_types { (TRACE ≡ 1) × (OPERATION ≡ 2) × (ARITHMETIC ≡ 3) × (CONSTRAINT ≡ 5) × (PROTECTION ≡ 7)
        × (TYPE ≡ 10) }
    ensures subtypes { (INVALID_OPCODE ≡ 1) × (UNALIGNED ≡ 3) × (INVALID_OPERAND ≡ 4) × (OVERFLOW ≡ 1)
        × (ZERO_DIVIDE ≡ 2) × (RANGE ≡ 1)
        × (LENGTH ≡ 2) × (MISMATCH ≡ 1) }
    ensures fault_table { (FAULT_ENTRY_SIZE ≡ 8) × (SYSTEM_ENTRY ≡ 0x27F) × (TRACE_MASK ≡ 0x401)
        × (NO_HANDLER ≡ 1) × (NO_SYSTEM_ENTRY ≡ 2) × (NO_PROCEDURE ≡ 3) }
    ensures lines { (LINES ≡ 12) × (FIRST_DMA_LINE ≡ 8) × (LINE_MASK ≡ 0xFFF) }
    ensures priorities { (FIRST_VECTOR ≡ 8) × (NMI_VECTOR ≡ 248) × (HIGHEST_PRIORITY ≡ 31) × (PRIORITY_PLACE ≡ 16)
        × (INTERRUPTED_PLACE ≡ 13) }
    ensures interrupt_table { (PENDING_SIZE ≡ 36) × (PENDING_VECTORS ≡ 4) × (VECTOR_WORDS ≡ 4) }
    ensures trace_modes { (INSTRUCTION_TRACE_PLACE ≡ 1) × (BRANCH_TRACE_PLACE ≡ 2) × (CALL_TRACE_PLACE ≡ 3)
        × (RETURN_TRACE_PLACE ≡ 4)
        × (PRERETURN_TRACE_PLACE ≡ 5) × (SUPERVISOR_TRACE_PLACE ≡ 6) × (MARK_TRACE_PLACE ≡ 7) }
    ensures trace_flags { (FLAG_DISTANCE ≡ 16) × (IPB0_FLAG_PLACE ≡ 24) × (IPB1_FLAG_PLACE ≡ 25)
        × (DAB0_FLAG_PLACE ≡ 26) × (DAB1_FLAG_PLACE ≡ 27) }
    ensures breakpoints { (IPB_ENABLE_PLACE ≡ 0) × (DAB0_ENABLE_PLACE ≡ 0) × (DAB1_ENABLE_PLACE ≡ 1) }
    ensures dma { (CHANNELS ≡ 4) × (COMMAND_MASK ≡ 0xFF) × (FIRST_ENDED_PLACE ≡ 4) }
    ensures control_word { (SOURCE_HELD_PLACE ≡ 2) × (TARGET_HELD_PLACE ≡ 3) × (FED_PLACE ≡ 4) × (POSTS_PLACE ≡ 6) }
{}
