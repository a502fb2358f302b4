//! Statements against words that were worked out by hand from the instruction formats.
use crate::check::must;
use crate::segments::has;
use i9_asm::assemble;
use std::alloc::Global;
use std::test::Fail;

/// Each of the 131 names once.
const NAMES: &str = "notbit r4, g5, g6            # 00000000 58B54004
and r4, g5, g6               # 00000000 58B54084
andnot r4, g5, g6            # 00000000 58B54104
setbit r4, g5, g6            # 00000000 58B54184
notand r4, g5, g6            # 00000000 58B54204
xor r4, g5, g6               # 00000000 58B54304
or r4, g5, g6                # 00000000 58B54384
nor r4, g5, g6               # 00000000 58B54404
xnor r4, g5, g6              # 00000000 58B54484
ornot r4, g5, g6             # 00000000 58B54584
clrbit r4, g5, g6            # 00000000 58B54604
notor r4, g5, g6             # 00000000 58B54684
nand r4, g5, g6              # 00000000 58B54704
alterbit r4, g5, g6          # 00000000 58B54784
addo r4, g5, g6              # 00000000 59B54004
addi r4, g5, g6              # 00000000 59B54084
subo r4, g5, g6              # 00000000 59B54104
subi r4, g5, g6              # 00000000 59B54184
shro r4, g5, g6              # 00000000 59B54404
shrdi r4, g5, g6             # 00000000 59B54504
shri r4, g5, g6              # 00000000 59B54584
shlo r4, g5, g6              # 00000000 59B54604
rotate r4, g5, g6            # 00000000 59B54684
shli r4, g5, g6              # 00000000 59B54704
cmpinco r4, g5, g6           # 00000000 5AB54204
cmpinci r4, g5, g6           # 00000000 5AB54284
cmpdeco r4, g5, g6           # 00000000 5AB54304
cmpdeci r4, g5, g6           # 00000000 5AB54384
addc r4, g5, g6              # 00000000 5BB54004
subc r4, g5, g6              # 00000000 5BB54104
atadd r4, g5, g6             # 00000000 61B54104
modac r4, g5, g6             # 00000000 64B54284
modtc r4, g5, g6             # 00000000 65B54204
emul r4, g5, g6              # 00000000 67B54004
ediv r5, g4, g6              # 00000000 67B50085
mulo r4, g5, g6              # 00000000 70B54084
remo r4, g5, g6              # 00000000 70B54404
divo r4, g5, g6              # 00000000 70B54584
muli r4, g5, g6              # 00000000 74B54084
remi r4, g5, g6              # 00000000 74B54404
modi r4, g5, g6              # 00000000 74B54484
divi r4, g5, g6              # 00000000 74B54584
not r4, g6                   # 00000000 58B00504
mov r4, g6                   # 00000000 5CB00604
movl r4, g6                  # 00000000 5DB00604
movt r4, g8                  # 00000000 5EC00604
movq g4, r12                 # 00000000 5F600614
spanbit r4, g6               # 00000000 64B00004
scanbit r4, g6               # 00000000 64B00084
cmpo r4, g5                  # 00000000 5A054004
cmpi r4, g5                  # 00000000 5A054084
concmpo r4, g5               # 00000000 5A054104
concmpi r4, g5               # 00000000 5A054184
scanbyte r4, g5              # 00000000 5A054604
chkbit r4, g5                # 00000000 5A054704
atmod r4, g5, g6             # 00000000 61B54004
modify r4, g5, g6            # 00000000 65B54004
extract r4, g5, g6           # 00000000 65B54084
modpc r4, g5, g6             # 00000000 65B54284
sdma r5, g4, g8              # 00000000 63C50005
sysctl r4, g5, g6            # 00000000 65B54484
calls r4                     # 00000000 66000004
udma                         # 00000000 63000080
mark                         # 00000000 66000580
fmark                        # 00000000 66000600
flushreg                     # 00000000 66000680
syncf                        # 00000000 66000780
testno g6                    # 00000000 20B00000
testg g6                     # 00000000 21B00000
teste g6                     # 00000000 22B00000
testge g6                    # 00000000 23B00000
testl g6                     # 00000000 24B00000
testne g6                    # 00000000 25B00000
testle g6                    # 00000000 26B00000
testo g6                     # 00000000 27B00000
bbc r4, g5, 0x40             # 00000000 30254040
bbs r4, g5, 0x40             # 00000000 37254040
cmpobg r4, g5, 0x40          # 00000000 31254040
cmpobe r4, g5, 0x40          # 00000000 32254040
cmpobge r4, g5, 0x40         # 00000000 33254040
cmpobl r4, g5, 0x40          # 00000000 34254040
cmpobne r4, g5, 0x40         # 00000000 35254040
cmpoble r4, g5, 0x40         # 00000000 36254040
cmpibno r4, g5, 0x40         # 00000000 38254040
cmpibg r4, g5, 0x40          # 00000000 39254040
cmpibe r4, g5, 0x40          # 00000000 3A254040
cmpibge r4, g5, 0x40         # 00000000 3B254040
cmpibl r4, g5, 0x40          # 00000000 3C254040
cmpibne r4, g5, 0x40         # 00000000 3D254040
cmpible r4, g5, 0x40         # 00000000 3E254040
cmpibo r4, g5, 0x40          # 00000000 3F254040
b 0x40                       # 00000000 08000040
call 0x40                    # 00000000 09000040
ret                          # 00000000 0A000000
bal 0x40                     # 00000000 0B000040
bno 0x40                     # 00000000 10000040
faultno                      # 00000000 18000000
bg 0x40                      # 00000000 11000040
faultg                       # 00000000 19000000
be 0x40                      # 00000000 12000040
faulte                       # 00000000 1A000000
bge 0x40                     # 00000000 13000040
faultge                      # 00000000 1B000000
bl 0x40                      # 00000000 14000040
faultl                       # 00000000 1C000000
bne 0x40                     # 00000000 15000040
faultne                      # 00000000 1D000000
ble 0x40                     # 00000000 16000040
faultle                      # 00000000 1E000000
bo 0x40                      # 00000000 17000040
faulto                       # 00000000 1F000000
ldob 8(g5), g6               # 00000000 80B56008
stob g6, 8(g5)               # 00000000 82B56008
bx 8(g5)                     # 00000000 84056008
balx 8(g5), g6               # 00000000 85B56008
callx 8(g5)                  # 00000000 86056008
ldos 8(g5), g6               # 00000000 88B56008
stos g6, 8(g5)               # 00000000 8AB56008
lda 8(g5), g6                # 00000000 8CB56008
ld 8(g5), g6                 # 00000000 90B56008
st g6, 8(g5)                 # 00000000 92B56008
ldl 8(g5), g6                # 00000000 98B56008
stl g6, 8(g5)                # 00000000 9AB56008
ldt 8(g5), g8                # 00000000 A0C56008
stt g8, 8(g5)                # 00000000 A2C56008
ldq 8(g5), g8                # 00000000 B0C56008
stq g8, 8(g5)                # 00000000 B2C56008
ldib 8(g5), g6               # 00000000 C0B56008
stib g6, 8(g5)               # 00000000 C2B56008
ldis 8(g5), g6               # 00000000 C8B56008
stis g6, 8(g5)               # 00000000 CAB56008";

/// Words of the instruction formats' own examples, literals, registers in each place, and ignored bits.
const OPERANDS: &str = "mov 7, g4                    # 00000000 5CA00E07
mov 5, r4                    # 00000000 5C200E05
mov 1, sf2                   # 00000000 5C102E01
subo 1, g6, g6               # 00000000 59B58901
lda 0x41, g4                 # 00000000 8CA00041
lda 0xE0000000, g5           # 00000000 8CA83000 E0000000
stob g4, (g5)                # 00000000 82A56000
st g4, 4(g5)                 # 00000000 92A56004
ld 16(pfp), g4               # 00000000 90A02010
ld (g4)[g5*4], g6            # 00000000 90B51D15
b 0x1010                     # 00001000 08000010
be.f 0x1008                  # 00001000 1200000A
cmpobne 0, g6, 0x1000        # 00001008 3505BFF8
mov 0, g4                    # 00000000 5CA00E00
mov 31, g4                   # 00000000 5CA00E1F
mov n, g4                    # 00000000 5CA00E08
mov n+23, g4                 # 00000000 5CA00E1F
mov n-8, g4                  # 00000000 5CA00E00
mov n+0x17, g4               # 00000000 5CA00E1F
mov 0x1f, g4                 # 00000000 5CA00E1F
mov 0031, g4                 # 00000000 5CA00E1F
addo 0, 31, g6               # 00000000 59B7D800
addo 31, 0, r3               # 00000000 5918181F
mov sf0, sf2                 # 00000000 5C102620
addo sf1, sf2, g6            # 00000000 59B08061
xor pfp, sp, rip             # 00000000 58104300
or fp, r15, g14              # 00000000 58F3C39F
calls sf0                    # 00000000 66000020
calls 0                      # 00000000 66000800
movl 31, r2                  # 00000000 5D100E1F
emul sf0, sf1, g2            # 00000000 67904060
modpc 0, sf1, r4             # 00000000 65204AC0
sdma 1, 2, g12               # 00000000 63E09801
sysctl 1, r4, r5             # 00000000 65290C81
cmpo 31, sf2                 # 00000000 5A00885F
atmod r3, 31, r4             # 00000000 6127D003
flushreg {3800}              # 00000000 66003E80
flushreg {00003800}          # 00000000 66003E80
mov 7, g4 {40}               # 00000000 5CA00E47
mov 7, g4{40}                # 00000000 5CA00E47
ret {FFFFFF}                 # 00000000 0AFFFFFF
ret {fffffF}                 # 00000000 0AFFFFFF
ret {0}                      # 00000000 0A000000
ret {00000000}               # 00000000 0A000000
ld (g4)[g5*4], g6 {60}       # 00000000 90B51D75
testl g6 {1}                 # 00000000 24B00001
faultne {2}                  # 00000000 1D000002
b 0 {3}                      # 00000000 08000003
be 0 {1}                     # 00000000 12000001
bx (g5) {F80000}             # 00000000 84FD6000";

/// Each form of an address, with and without `!`, about the greatest offset and with a name.
const ADDRESSES: &str = "lda 0, g6                    # 00000000 8CB00000
lda 4095, g6                 # 00000000 8CB00FFF
lda 4096, g6                 # 00000000 8CB03000 00001000
lda -1, g6                   # 00000000 8CB03000 FFFFFFFF
lda -0, g6                   # 00000000 8CB00000
lda n, g6                    # 00000000 8CB03000 00000008
lda n-8, g6                  # 00000000 8CB03000 00000000
lda 0xFFF, g6                # 00000000 8CB00FFF
lda 0x1000, g6               # 00000000 8CB03000 00001000
lda !0, g6                   # 00000000 8CB03000 00000000
lda !4095, g6                # 00000000 8CB03000 00000FFF
lda !4096, g6                # 00000000 8CB03000 00001000
lda !-4, g6                  # 00000000 8CB03000 FFFFFFFC
lda !n, g6                   # 00000000 8CB03000 00000008
ld 0(g5), g6                 # 00000000 90B56000
ld 4095(g5), g6              # 00000000 90B56FFF
ld 4096(g5), g6              # 00000000 90B57400 00001000
ld -4(g5), g6                # 00000000 90B57400 FFFFFFFC
ld n(g5), g6                 # 00000000 90B57400 00000008
ld n+4(g5), g6               # 00000000 90B57400 0000000C
ld !0(g5), g6                # 00000000 90B57400 00000000
ld !4095(g5), g6             # 00000000 90B57400 00000FFF
ld !4096(g5), g6             # 00000000 90B57400 00001000
ld !-4(g5), g6               # 00000000 90B57400 FFFFFFFC
ld !n(g5), g6                # 00000000 90B57400 00000008
ld (g5), g6                  # 00000000 90B56000
ld !(g5), g6                 # 00000000 90B55000
st g6, (pfp)                 # 00000000 92B02000
bx !(g5)                     # 00000000 84055000
ld 0(ip), g6                 # 00000000 90B01400 00000000
ld 4095(ip), g6              # 00000000 90B01400 00000FFF
ld 4096(ip), g6              # 00000000 90B01400 00001000
ld -4(ip), g6                # 00000000 90B01400 FFFFFFFC
ld n(ip), g6                 # 00000000 90B01400 00000008
ld (g5)[g4*1], g6            # 00000000 90B55C14
ld (g5)[g4*2], g6            # 00000000 90B55C94
ld (g5)[g4*4], g6            # 00000000 90B55D14
ld (g5)[g4*8], g6            # 00000000 90B55D94
ld (g5)[g4*16], g6           # 00000000 90B55E14
ld 0[g4*4], g6               # 00000000 90B03914 00000000
ld 0(g5)[g4*8], g6           # 00000000 90B57D94 00000000
ld 4095[g4*4], g6            # 00000000 90B03914 00000FFF
ld 4095(g5)[g4*8], g6        # 00000000 90B57D94 00000FFF
ld 4096[g4*4], g6            # 00000000 90B03914 00001000
ld 4096(g5)[g4*8], g6        # 00000000 90B57D94 00001000
ld -4[g4*4], g6              # 00000000 90B03914 FFFFFFFC
ld -4(g5)[g4*8], g6          # 00000000 90B57D94 FFFFFFFC
ld n[g4*4], g6               # 00000000 90B03914 00000008
ld n(g5)[g4*8], g6           # 00000000 90B57D94 00000008
callx n                      # 00000000 86003000 00000008
balx (fp)[sp*16], g14        # 00000000 85F7DE01
bx 0                         # 00000000 84000000";

/// Branches that go on over FFFFFFFF, back over 0, and to both ends of their range.
const TARGETS: &str = "b 0x1000                     # 00001000 08000000
b 0x800FFC                   # 00001000 087FFFFC
b 0                          # 00800000 08800000
b -8388608                   # 00000000 08800000
b 0                          # FFFFFFFC 08000004
bal 0xFFFFFFFC               # 00000000 0BFFFFFC
be.f 0x1008                  # 00001000 1200000A
be.t 0x1008                  # 00001000 12000008
be 0x1008                    # 00001000 12000008
cmpobe 31, sf2, 0x1FFC       # 00001000 32F8AFFD
cmpobe.f r4, g5, 0           # 00001000 32255002
cmpibne.t 0, g5, 4           # FFFFFFFC 3D056008
bbc.f 0, r3, 0xFFFFF000      # 00000000 3000F002
bbs r3, sf0, 4092            # 00000000 37180FFD";

/// The bytes of words in hexadecimal digits.
fn bytes_of(alloc: Global, words: &str) -> Result<Vec<u8>, Fail> {
    let mut bytes = Vec::new(alloc);
    for word in words.split_whitespace() {
        bytes.extend_from_slice(&u32::from_str_radix(word, 16)?.to_le_bytes())?;
    }
    Ok(bytes)
}

/// Whether a statement has these words at an address.
fn has_words(alloc: Global, row: &str, address: &str, words: &str) -> Result<bool, Fail> {
    let bytes = bytes_of(alloc, words)?;
    let source = format!(in alloc; ".set n, 8\n.org 0x{address}\n{row}")?;
    let image = assemble(alloc, source.as_bytes())?;
    let start = u32::from_str_radix(address, 16)?;
    Ok(has(&image, &[(start, bytes.as_slice())]))
}

/// Whether the statement of a row has the words that stand behind its address in the comment.
fn is_right(alloc: Global, row: &str) -> Result<bool, Fail> {
    let Some((_, noted)) = row.split_once("# ") else {
        return Ok(false);
    };
    match noted.split_once(" ") {
        Some((address, words)) => has_words(alloc, row, address, words),
        None => Ok(false),
    }
}

// Each row is a statement and, behind `#`, its address and its words there, where `n` is 8.
#[test]
fn assembles_statements(rt: HostRuntime) -> Result<(), Fail> {
    for table in [NAMES, OPERANDS, ADDRESSES, TARGETS] {
        for row in table.lines() {
            must(&rt, is_right(rt.alloc(), row)?);
        }
    }
    Ok(())
}
