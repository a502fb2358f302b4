//! Firmware that does what no good firmware does, through the command, at texts worked out by hand.
use crate::check::{must, must_at, same, same_at};
use crate::rows::{BOOT, PRCB, TO_USER_MODE, add_registers, held, hex_of, hold};
use crate::tests::words_of;
use i9_outside::{MemFiles, MemSink};
use i9_tool::i960;
use std::alloc::Global;
use std::test::*;

/// Frames at the ends of the address space, of the port page and of the tables.
const EDGES: &str = "
== A frame over the last address: the save is at FFFFFFE0, so the flush writes r8 at 0. The word behind it is refused.
        lda   0xFFFFFFE0, fp
        mov   9, r8
        call  f
f:      flushreg
at 4 show 0 4
run 5
#point 4 flush 00001014 00000000 001F2002
#g 15=40
#l 0=FFFFFFE0 1=80
at 4 show 00000000 4
#mem 00000000 09 00 00 00
#point 4 event 00001014 00000000 001F2002
#g 15=40
#l 0=FFFFFFE0 1=80
#point 5 fault 00000000 00000000 001F2002
#g 15=90
#l 0=41 1=D0
#point 5 end 00000000 00000000 001F2002
#g 15=90
#l 0=41 1=D0
#end limit
status 0
== The second half of the frame that would be saved is in the port page.
        lda   0xDFFFFFE0, fp
        call  f
f:      mov   0, g0
run 9
#point 1 end 00001008 00000000 001F2002
#g 15=DFFFFFE0
#l 1=40
#end hazard E0000000
status 4
== The handler at 0 lies in the frame that its entry saves.
        .word 0
run 9
#point 1 fault 00000000 00000000 001F2002
#g 15=50
#l 0=1 1=90
#point 1 end 00000000 00000000 001F2002
#g 15=50
#l 0=1 1=90
#end hazard 00000000
status 4
== A frame pointer of ones: its low bits don't count, so the frame goes from FFFFFFF0 to 2F, and the return leaves the
== rounded one. A second return finds no return address at 8, in that frame.
        lda   -1, fp
        call  f
        mov   fp, g4
        ld    0x30, g6
        ld    0x2C, g5
f:      ret
run 9
#point 6 end 00001018 00000000 001F2002
#g 4=FFFFFFF0 5=- 15=FFFFFFF0
#l 1=40 2=100C
#end hazard 00000008
status 4
";

/// Returns to frames that no call made, or that were left.
const RETURNS: &str = "
== Returns with nothing on the stack, to the zeros at 0. The word there is refused, and its record would lie in the
== frame that its own entry saves.
        ret
run 9
#point 2 end 00000004 00000000 001F2002
#g
#l
#end hazard 00000000
status 4
== Returns a second time to a frame that was left, and of which a store wrote the first four words since: the others are
== marked. The word at the return address, 0, is refused, and its entry of the fault table is in the frame.
        call  f
        stq   g4, 0
        ret
f:      ret
run 9
#point 5 end 00000004 00000000 001F2002
#g
#l 4=- 5=- 6=- 7=- 8=- 9=- 10=- 11=- 12=- 13=- 14=- 15=-
#end hazard 00000010
status 4
== A return of type 001 behind a call reads PC below fp first, which is in the caller's frame: this comes before the
== return address, which isn't the caller's.
        call  f
f:      lda   0x401, pfp
        lda   0x2C, fp
        ret
run 9
#point 3 end 0000100C 00000000 001F2002
#g 15=2C
#l 0=401 1=80
#end hazard 00000010
status 4
== A forged pfp of type 011 leaves supervisor mode with trace enable set. The mask of modpc is a mismatch there, whose
== handler is at 0, and its record too, since sp is 0.
        lda   0x5003, pfp
        ret
        .org  0x5008
        .word there             # rip
        .org  0x1100
there:  mov   9, g6
        modpc 0, 1, g7
run 3
#point 3 end 00001104 00000000 001F2001
#g 6=9 15=5000
#l 2=1100
#end limit
status 0
-- The fault.
run 4
#point 4 fault 00000000 00000000 001F2000
#g 6=9 15=10
#l 0=5001 1=50
#point 4 end 00000000 00000000 001F2000
#g 6=9 15=10
#l 0=5001 1=50
#end limit
status 0
";

/// Calls and returns without an end.
const ENDLESS: &str = "
== Returns for ever to the frame that it leaves: its pfp is its own address. Its rip has low bits, which don't count.
        lda   0x400, pfp
again:  ret
        .org  0x400
        .word 0x400, 0x440, again+3
run 2000
#point 2000 end 00001004 00000000 001F2002
#g 15=400
#l 0=400 1=440 2=1007
#end limit
status 0
== Calls itself, and the stack grows from 0 into its code: the call that saves the frame at 1000 can't be followed.
f:      call  f
run 100
#point 65 end 00001000 00000000 001F2002
#g 15=1040
#l 0=1000 1=1080
#end hazard 00001000
status 4
== Calls itself, and the stack grows into the port page: four frames are before it.
        lda   0xDFFFFF00, fp
        lda   0xDFFFFF40, sp
f:      call  f
run 50000
#point 6 end 00001010 00000000 001F2002
#g 15=E0000000
#l 0=DFFFFFC0 1=E0000040
#end hazard E0000000
status 4
";

/// A procedure that calls itself and never returns.
const DEEP: &str = "
== A hundred thousand frames, from 10000 on.
        lda   0x10000, fp
        lda   0x10040, sp
f:      call  f
run 100002
#point 100002 end 00001010 00000000 001F2002
#g 15=62A800
#l 0=62A7C0 1=62A840
#end limit
status 0
";

/// Handlers that fault.
const HANDLERS: &str = "
== A handler that takes sp back to the base of its own frame, and faults: the second entry's frame is the one that it
== saves, and the third one would save it again.
        .word 0
        .org  operation_faults
        .word handler, 0
        .org  0x1100
handler:
        lda   stack+0x40, sp
        .word 0
run 9
#point 1 fault 00001100 00000000 001F2002
#g 15=3050
#l 0=3001 1=3090
#point 3 fault 00001100 00000000 001F2002
#g 15=3050
#l 0=3051 1=3090
#point 5 end 0000110C 00000000 001F2002
#g 15=3050
#l 0=3051 1=3040
#end hazard 00003050
status 4
== A handler of trace faults that turns tracing on again faults behind its next instruction. The entry belongs to its
== instruction, so it comes at the length too.
        mov   1, g4
handler:
        mov   1, g5
        modpc 0, g4, g5         # trace enable
        addo  1, g0, g0
        .org  fault_table+0x8
        .word handler, 0
        .org  control_table+0x68
        .word 2                 # TC: each instruction
run 7
#point 4 fault 00001004 00000000 001F2002
#g 0=1 4=1 5=1F2002 15=3050
#l 0=3001 1=3090
#point 7 fault 00001004 00000000 001F2002
#g 0=2 4=1 5=1F2002 15=30A0
#l 0=3051 1=30E0
#point 7 end 00001004 00000000 001F2002
#g 0=2 4=1 5=1F2002 15=30A0
#l 0=3051 1=30E0
#end limit
status 0
";

/// Faults behind a store over the tables, and beside a hazard.
const FAULTS: &str = "
== The words of the PRCB are those of the start: a store over the fault table's and the control table's moves neither.
        lda   0x1000, g0
        st    g0, fault_table_address
        st    g0, control_table_address
        .word 0
        .org  operation_faults
        .word handler, 0
        .org  0x1100
handler:
run 4
#point 4 fault 00001100 00000000 001F2002
#g 0=1000 15=3050
#l 0=3001 1=3090
#point 4 end 00001100 00000000 001F2002
#g 0=1000 15=3050
#l 0=3001 1=3090
#end limit
status 0
== What meets a hazard waits for all before it and so overtakes nothing: the fault before it is precise.
        call  f
f:      divi  0, 7, g4
        st    g5, 16(pfp)       # in the caller's frame
        .org  arithmetic_faults
        .word handler, 0
        .org  0x1100
handler:
        mov   1, g6
run 3
#point 2 fault 00001100 00000000 001F2002
#g 15=3090
#l 0=3041 1=30D0
#point 3 end 00001104 00000000 001F2002
#g 6=1 15=3090
#l 0=3041 1=30D0
#end limit
status 0
== A load from there meets none, and overtakes it.
        call  f
f:      divi  0, 7, g4
        ld    16(pfp), g5       # in the caller's frame
run 3
#end imprecise 00001004
status 4
";

/// Tables that share their words.
const OVERLAID_TABLES: &str = "
== A PRCB, a control table and a fault table over the last address, which share their words.
        modtc 0, 0, g3
        lda   0x40000000, g0
        mov   1, g1
        st    g1, (g0)
        ldob  3(g0), g2         # region 4 is big-endian
        .word 0
        .org  0xFFFFFF14
        .word 0xFFFFFFF0        # the PRCB
        .org  0xFFFFFFF0
        .word 0xFFFFFFF8        # the fault table, and the word of region 4
        .word 0xFFFFFFC0        # the control table, and the word of region 5
        .word 0, 0x40000000
        .org  0
        .word 0x2000, 0xB00
        .word handler           # reserved, and the handler of operation faults
        .word 0x3000            # the interrupt stack
        .org  0x28
        .word 0xFFFFFFFF        # TC
        .org  0x1100
handler:
run 6
#point 6 fault 00001100 00000000 001F2002
#g 0=40000000 1=1 2=1 3=FFE00FE 15=3050
#l 0=3001 1=3090
#point 6 end 00001100 00000000 001F2002
#g 0=40000000 1=1 2=1 3=FFE00FE 15=3050
#l 0=3001 1=3090
#end limit
status 0
";

/// Tables in the port page and over the last address.
const TABLES: &str = "
== An interrupt table in the port page: a handler's word reads as 0 there, whatever the image has; a request would be
== written there, and the byte of its priority comes first.
        .org  0x810
        .word 0xE0000000        # the interrupt table
        .org  0xE00003E4
        .word 0x1100
        .org  0
        lda   0xFF, g6
        sysctl g6, g6, g6       # asks for vector 255
at 0 nmi
run 9
at 0 nmi
#point 0 event 00001000 00000000 001F2002
#g 15=3000
#l 1=3040
#point 0 int 00000000 00000000 001F2002
#g 15=3050
#l 0=3007 1=3090
#point 1 end 00000004 00000000 001F2002
#g 6=FF 15=3050
#l 0=3007 1=3090
#end hazard E0000003
status 4
== The last entry of a system procedure table over the last address. Behind it a number of which four times is 0: that
== is above 259 all the same. The handler loads the end of its record.
        lda   259, g1
        calls g1
        .org  0x814
        .word 0xFFFFFC00        # the system procedures
        .org  0x3C
        .word callee
        .org  protection_faults
        .word handler, 0
        .org  0x1100
callee: lda   0x40000000, g1
        calls g1
handler:
        ldl   -8(fp), g4
run 5
#point 4 fault 0000110C 00000000 001F2002
#g 1=40000000 15=3090
#l 0=3041 1=30D0
#point 5 end 00001114 00000000 001F2002
#g 1=40000000 4=70002 5=1108 15=3090
#l 0=3041 1=30D0
#end limit
status 0
";

/// System calls, and a start that forgets what came from outside.
const CALLS: &str = "
== In supervisor mode the supervisor stack's word is not read, which is in a frame that is not left. The entry behind
== it is read before the frame of the call is saved over it; the second call can't read it.
        call  f
f:      calls 0
        .org  0x814
        .word stack+0x10        # the system procedures
        .org  stack+0x40
        .word callee+2
        .org  0x1100
callee: calls 0
run 9
#point 2 end 00001100 00000000 001F2002
#g 15=3080
#l 0=3040 1=30C0
#end hazard 00003040
status 4
== Starting anew clears what is posted, the mask and the channels: the event of an enabled channel moves nothing then.
        lda   0xFF, g4
        mov   g4, sf0
        mov   g4, sf1
        mov   4, r4
        lda   0x2800, r5
        lda   0x3100, r6
        sdma  0, 2, r4
        mov   1, sf2
        lda   0x300, g1
        lda   again, g2
        lda   0x800, g3
        sysctl g1, g2, g3
again:  mov   sf0, g5
        mov   sf1, g6
        mov   sf2, g7
        .org  0x2800
        .word 0x11223344
at 12 dma 0
at 12 show 3100 4
run 15
at 12 dma 0
#point 12 event 0000103C 00000000 001F2002
#g 1=300 2=103C 3=800 4=FF 15=3000
#l 1=3040
at 12 show 00003100 4
#mem 00003100 00 00 00 00
#point 12 event 0000103C 00000000 001F2002
#g 1=300 2=103C 3=800 4=FF 15=3000
#l 1=3040
#point 15 end 00001048 00000000 001F2002
#g 1=300 2=103C 3=800 4=FF 15=3000
#l 1=3040
#end limit
status 0
";

/// Starts by a PRCB where none should be.
const STARTS: &str = "
== Starts anew by a PRCB in the port page, whose words are 0, whatever the image has.
        lda   0x300, g1
        lda   0xE0000000, g2
        lda   0x1100, g3
        sysctl g1, g3, g2
        .org  0xE000001C
        .word 0x5000
run 4
#point 4 end 00001100 00000000 001F2002
#g 1=300 2=E0000000 3=1100
#l 1=40
#end limit
status 0
== Starts anew by a PRCB that begins in a frame that is not left and ends in one that was. The flush would write the
== first one, so the hazard is in the second.
        call  f
f:      call  g
        lda   0x300, g1
        lda   0x3020, g2
        sysctl g1, g1, g2
g:      ret
run 9
#point 5 end 00001014 00000000 001F2002
#g 1=300 2=3020 15=3040
#l 0=3000 1=3080 2=1008
#end hazard 00003040
status 4
== Starts anew again and again, each time from within a call: the flush makes room for the next frame, and g0 stays.
        lda   0x300, g1
        lda   loop, g2
        lda   0x800, g3
loop:   call  f
f:      addo  1, g0, g0
        sysctl g1, g2, g3
run 903
#point 903 end 00001010 00000000 001F2002
#g 0=12C 1=300 2=1010 3=800 15=3000
#l 1=3040
#end limit
status 0
";

/// System calls from user mode.
const IN_USER_MODE: &str = "
== A system procedure table whose entry is behind the port page and whose supervisor stack is in it, and so at 0.
        calls 0
        .org  0x814
        .word 0xE0000FF0        # the system procedures
        .org  0xE0000FFC
        .word 0x6000
        .org  0xE0001020
        .word callee+2          # to supervisor mode
        .org  0x1100
callee:
run 4
#point 4 end 00001100 00000000 001F2002
#g 1=2 2=1F2002
#l 0=3002 1=40
#end limit
status 0
== A supervisor stack of ones: two bits don't count, the frame begins at 0 behind the last address, and trace enable
== is set. The return takes back both.
        calls 5
        .org  supervisor_stack
        .word 0xFFFFFFFF
        .org  procedure_5
        .word callee+3
        .org  0x1100
callee: ret
run 4
#point 4 end 00001100 00000000 001F2003
#g 1=2 2=1F2002
#l 0=3002 1=40
#end limit
status 0
-- The return.
run 5
#point 5 end 00001010 00000000 001F2000
#g 1=2 2=1F2002 15=3000
#l 1=3040 2=1010
#end limit
status 0
== The supervisor stack's word is in a frame that is not left, and the entry behind it is not.
        call  f
f:      calls 0
        .org  0x814
        .word stack+0x10        # the system procedures
        .org  stack+0x40
        .word callee+2
        .org  0x1100
callee:
run 9
#point 4 end 00001010 00000000 001F2000
#g 1=2 2=1F2002 15=3040
#l 0=3000 1=3080
#end hazard 0000301C
status 4
== A forged return of type 011 changes nothing in user mode.
        lda   0x5003, pfp
        ret
run 5
#point 5 end 00000000 00000000 001F2000
#g 1=2 2=1F2002 15=5000
#l
#end limit
status 0
";

/// A fault in user mode.
const FAULT_IN_USER_MODE: &str = "
== A system entry in user mode whose stack is the frame that it saves: the record would lie in it.
        .word 0
        .org  operation_faults
        .word 2, 0x27F
        .org  supervisor_stack
        .word 0x2FF9
        .org  system_procedures+0x30
        .word handler+2         # to supervisor mode
        .org  0x1100
handler:
run 9
#point 4 end 00001010 00000000 001F2000
#g 1=2 2=1F2002 15=3000
#l 1=3040
#end hazard 00003000
status 4
";

#[test]
fn frames_at_the_edges(rt: HostRuntime) -> Result<(), Fail> {
    hold(&rt, rt.alloc(), &[BOOT], EDGES, 4)
}

#[test]
fn returns_without_a_call(rt: HostRuntime) -> Result<(), Fail> {
    hold(&rt, rt.alloc(), &[BOOT], RETURNS, 5)
}

#[test]
fn calls_and_returns_without_an_end(rt: HostRuntime) -> Result<(), Fail> {
    hold(&rt, rt.alloc(), &[BOOT], ENDLESS, 3)
}

#[test]
fn a_hundred_thousand_calls(rt: HostRuntime) -> Result<(), Fail> {
    hold(&rt, rt.alloc(), &[BOOT], DEEP, 1)
}

#[test]
fn handlers_that_fault(rt: HostRuntime) -> Result<(), Fail> {
    hold(&rt, rt.alloc(), &[PRCB], HANDLERS, 2)
}

#[test]
fn faults_beside_stores_and_hazards(rt: HostRuntime) -> Result<(), Fail> {
    hold(&rt, rt.alloc(), &[PRCB], FAULTS, 3)
}

#[test]
fn tables_that_share_their_words(rt: HostRuntime) -> Result<(), Fail> {
    hold(&rt, rt.alloc(), &[BOOT], OVERLAID_TABLES, 1)
}

#[test]
fn tables_in_odd_places(rt: HostRuntime) -> Result<(), Fail> {
    hold(&rt, rt.alloc(), &[PRCB], TABLES, 2)
}

#[test]
fn calls_and_starts_in_supervisor_mode(rt: HostRuntime) -> Result<(), Fail> {
    hold(&rt, rt.alloc(), &[PRCB], CALLS, 2)
}

#[test]
fn starts_by_odd_tables(rt: HostRuntime) -> Result<(), Fail> {
    hold(&rt, rt.alloc(), &[PRCB], STARTS, 3)
}

#[test]
fn system_calls_by_odd_tables(rt: HostRuntime) -> Result<(), Fail> {
    same(
        &rt,
        held(rt.alloc(), &[PRCB, TO_USER_MODE], IN_USER_MODE)?,
        5,
    );
    hold(
        &rt,
        rt.alloc(),
        &[PRCB, TO_USER_MODE],
        FAULT_IN_USER_MODE,
        1,
    )
}

/// A jump into the port page, where each word is refused, and so is the one at 0, where the handler is.
const JUMPS_INTO_THE_PORT_PAGE: &str = "
        bx    0xE0000000
";

/// Appends the drained point where so many faults were entered behind the jump. The first frame is at 3000, and each
/// entry takes 80 bytes: the frame that it saves has 64, and its record 16.
fn add_point(alloc: Global, text: &mut String, kind: &str, faults: u32) -> Result<(), Fail> {
    let count = faults.saturating_add(1);
    let frame = faults.saturating_mul(80).saturating_add(0x3000);
    let pfp = frame.saturating_sub(79);
    let sp = frame.saturating_add(64);
    text.push_str(&format!(in alloc; "#point {count} {kind} 00000000 00000000 001F2002\n")?)?;
    add_registers(alloc, text, "#g", &format!(in alloc; "15={frame:X}")?)?;
    add_registers(alloc, text, "#l", &format!(in alloc; "0={pfp:X} 1={sp:X}")?)
}

#[test]
fn refused_words_fault_up_to_the_length(rt: HostRuntime) -> Result<(), Fail> {
    let alloc = rt.alloc();
    let mut source = String::from_str(alloc, PRCB)?;
    source.push_str(JUMPS_INTO_THE_PORT_PAGE)?;
    let mut printed = String::new(alloc);
    for faults in 1..1000 {
        add_point(alloc, &mut printed, "fault", faults)?;
    }
    add_point(alloc, &mut printed, "end", 999)?;
    printed.push_str("#end limit\n")?;
    let mut files = MemFiles::new(alloc);
    files.add("a", &hex_of(alloc, &source)?)?;
    for words in ["run a - - 1000", "run a - 1 1000", "run a - 15 1000"] {
        let mut sink = MemSink::new(alloc);
        sink.room(1_000_000)?;
        let status = i960(alloc, &words_of(alloc, words)?, &mut files, &mut sink);
        same_at(&rt, status.code, 0, words);
        must_at(&rt, sink.bytes() == printed.as_bytes(), words);
    }
    // By hand: the last frame, and the saved one with its return type.
    must(&rt, printed.contains(" 00016830\n#l 000167E1 00016870 "));
    Ok(())
}
