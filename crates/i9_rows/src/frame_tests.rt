//! Calls and returns through the command, at registers worked out by hand.
use crate::rows::{BOOT, hold};
use std::test::*;

/// Calls and returns.
const CALLS: &str = "
== A load from the caller's frame, which is kept in a set, marks its register.
        mov   5, r4
        call  f
f:      ld    16(pfp), g4
run 3
#point 3 end 0000100C 00000000 001F2002
#g 4=- 15=40
#l 1=80
#end limit
status 0
-- The word behind it is refused, and its entry of the fault table is in that frame.
run 4
#point 4 end 00001010 00000000 001F2002
#g 4=- 15=40
#l 1=80
#end hazard 00000010
status 4
== The load behind a flush.
        mov   5, r4
        call  f
f:      flushreg
        ld    16(pfp), g4
run 4
#point 3 flush 0000100C 00000000 001F2002
#g 15=40
#l 1=80
#point 4 end 00001010 00000000 001F2002
#g 4=5 15=40
#l 1=80
#end limit
status 0
== Loads from the frame at 0, which a call saved and a return took back: a word that was stored there since has no mark,
== and the one before it has one. A second return finds no return address there.
        call  f
        st    g4, 16
        ld    16, g5
        ld    12, g6
f:      ret
run 9
#point 5 end 00001010 00000000 001F2002
#g 6=-
#l 1=40 2=1004
#end hazard 00000008
status 4
== The same with a byte: the rest of its word marks the register.
        call  f
        stob  g4, 16
        ld    16, g5
        ld    12, g6
f:      ret
run 9
#point 5 end 00001010 00000000 001F2002
#g 5=- 6=-
#l 1=40 2=1004
#end hazard 00000008
status 4
== A sum has the mark, and its comparison may not be.
        call  f
        st    g4, 16
        ld    16, g5
        ld    12, g6
        addo  1, g6, g7
        cmpo  0, g7
f:      ret
run 9
#point 6 end 00001014 00000000 001F2002
#g 6=- 7=-
#l 1=40 2=1004
#end hazard 00001014
status 4
== A return to another frame than the caller's, which is not flushed.
        call  f
f:      lda   0x400, pfp
        ret
run 9
#point 2 end 00001008 00000000 001F2002
#g 15=40
#l 0=400 1=80
#end hazard 00000400
status 4
== The same behind a flush.
        call  f
f:      flushreg
        lda   0x400, pfp
        ret
run 4
#point 2 flush 00001008 00000000 001F2002
#g 15=40
#l 1=80
#point 4 end 00000000 00000000 001F2002
#g 15=400
#l
#end limit
status 0
== A frame at 20 would be saved over the one at 0.
        call  f
f:      lda   0x20, fp
        call  g
g:      mov   0, g0
run 9
#point 2 end 00001008 00000000 001F2002
#g 15=20
#l 1=80
#end hazard 00000020
status 4
== The instruction that is called lies in the caller's frame.
        call  0x10
run 9
#point 1 end 00000010 00000000 001F2002
#g 15=40
#l 1=80
#end hazard 00000010
status 4
== The second word of an instruction lies in the caller's frame.
        lda   f+4, fp
        call  f
f:      lda   !0, g5
run 9
#point 2 end 0000100C 00000000 001F2002
#g 15=40
#l 0=1010 1=80
#end hazard 00001010
status 4
== A store to the last word of the caller's frame.
        call  f
f:      st    g4, 60
run 9
#point 1 end 00001004 00000000 001F2002
#g 15=40
#l 1=80
#end hazard 0000003C
status 4
== Two calls and their returns.
        call  f
        .word 0
f:      call  g
        ret
g:      ret
run 4
#point 4 end 00001004 00000000 001F2002
#g
#l 1=40 2=1004
#end limit
status 0
== A return of type 110, which is as one of type 000.
        call  f
        .word 0
f:      lda   6, pfp
        ret
run 3
#point 3 end 00001004 00000000 001F2002
#g
#l 1=40 2=1004
#end limit
status 0
== A return from a fault, whose record is of zeros.
        lda   1, pfp
        ret
run 2
#point 2 end 00000000 00000000 00000000
#g
#l
#end limit
status 0
== A frame in the port page would be saved.
        lda   0xE0000000, fp
        call  f
f:      ret
run 9
#point 1 end 00001008 00000000 001F2002
#g 15=E0000000
#l 1=40
#end hazard E0000000
status 4
== A return to a frame in the port page.
        lda   0xE0000040, pfp
        ret
run 9
#point 1 end 00001008 00000000 001F2002
#g
#l 0=E0000040 1=40
#end hazard E0000040
status 4
";

#[test]
fn calls_returns_and_hazards(rt: HostRuntime) -> Result<(), Fail> {
    hold(&rt, rt.alloc(), &[BOOT], CALLS, 17)
}
