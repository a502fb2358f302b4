//! Frames in sets through the command, at registers worked out by hand; each row holds at every number of sets.
use crate::check::same;
use crate::rows::{BOOT, PRCB, TO_USER_MODE, held, hold};
use std::test::*;

/// A fault over full sets.
const SPILLS_IN_USER_MODE: &str = "
== An operation fault of a procedure in user mode, by a system entry of procedure 2: the record is on the supervisor
== stack, and the handler returns behind the word.
        call  f
        mov   9, g6
f:      mov   5, r5
        .word 0                 # no instruction
        ret
        .org  operation_faults
        .word 0xA, 0x27F        # 4 * 2 + 2
        .org  supervisor_stack
        .word 0x6000
        .org  procedure_2
        .word handler+2         # to supervisor mode
        .org  0x1100
handler:
        ret
run 9
#point 6 fault 00001100 00000000 001F2002
#g 1=2 2=1F2002 15=6010
#l 0=3041 1=6050
#point 9 end 00001014 00000000 001F2000
#g 1=2 2=1F2002 6=9 15=3000
#l 1=3040 2=1010
#end limit
status 0
";

/// Frames that go to memory and come back.
const SPILLS: &str = "
== The first return takes a frame that was saved behind the flush, and the second one refills a frame from before it.
        mov   5, r5
        call  f
        mov   r5, g4
f:      mov   6, r5
        flushreg
        call  g
        mov   r5, g5
        ret
g:      ret
run 9
#point 4 flush 00001014 00000000 001F2002
#g 15=40
#l 1=80 5=6
#point 9 end 0000100C 00000000 001F2002
#g 4=5 5=6
#l 1=40 2=1008 5=5
#end limit
status 0
== Returns to a frame at 400 that no call saved.
        lda   0x400, pfp
        ret
        .space 8
there:  mov   r5, g4
        .org  0x408
        .word there             # rip
        .org  0x414
        .word 7                 # r5
run 3
#point 3 end 00001014 00000000 001F2002
#g 4=7 15=400
#l 2=1010 5=7
#end limit
status 0
== Each procedure has a value of its own in r5, and its caller takes it over behind the call.
        mov   5, r5
        call  f
        mov   r5, g4
f:      mov   6, r5
        call  g
        mov   r5, g5
        ret
g:      mov   7, r5
        call  h
        mov   r5, g6
        ret
h:      ret
run 12
#point 12 end 0000100C 00000000 001F2002
#g 4=5 5=6 6=7
#l 1=40 2=1008 5=5
#end limit
status 0
== Two calls; the second procedure stores to the first frame, at 0.
        call  f
f:      call  g
g:
        st    g4, 16
run 9
#point 2 end 00001008 00000000 001F2002
#g 15=80
#l 0=40 1=C0
#end hazard 00000010
status 4
== The same with a load, which marks its register. The word behind it is refused, and its entry of the fault table is in
== the first frame.
        call  f
f:      call  g
g:
        ld    16, g4
run 9
#point 4 end 00001010 00000000 001F2002
#g 4=- 15=80
#l 0=40 1=C0
#end hazard 00000010
status 4
== Frames that were flushed may be read.
        mov   5, r5
        call  f
f:      mov   6, r5
        call  g
g:      flushreg
        ld    0x14, g4
        ld    0x54, g5
run 7
#point 5 flush 00001014 00000000 001F2002
#g 15=80
#l 0=40 1=C0
#point 7 end 0000101C 00000000 001F2002
#g 4=5 5=6 15=80
#l 0=40 1=C0
#end limit
status 0
";

#[test]
fn spills_refills_and_flushes(rt: HostRuntime) -> Result<(), Fail> {
    same(
        &rt,
        held(rt.alloc(), &[PRCB, TO_USER_MODE], SPILLS_IN_USER_MODE)?,
        1,
    );
    hold(&rt, rt.alloc(), &[BOOT], SPILLS, 6)
}
