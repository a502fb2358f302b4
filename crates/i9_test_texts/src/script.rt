use crate::check::same;
use crate::rows::{escaped, pairs_hold};
use i9_schedule::{Command, LineError, LineFault, one_script, read_script};
use std::alloc::{AllocError, Global};
use std::test::Fail;

/// What is told of a text: its first line at fault and the kind of that, if there is one.
fn answer(alloc: Global, text: &[u8]) -> Result<String, Fail> {
    match read_script(alloc, text) {
        Ok(_) => Ok(format!(in alloc; "read")?),
        Err(LineError::Bad(LineFault { line, kind })) => {
            Ok(format!(in alloc; "line {line} kind {kind}")?)
        }
        Err(LineError::Memory) => Err("no memory".into()),
    }
}

/// The same of the text that a column says.
fn told(alloc: Global, text: &str) -> Result<String, Fail> {
    answer(alloc, &escaped(alloc, text)?)
}

/// Texts, each worked by hand: the first line at fault, with the least kind that applies to it.
const FAULTS: &str = "\
| read | Lines without words and comments say nothing; one carriage return is dropped
#\\n# frob\\r\\n \\t\\n\\n\\r\\nregs\\r\\n\\tturn\\t5\\s\\s | read
#turn 0\\nheld | read
#\\xFF | line 1 kind 1 | Kind 1: a byte past ASCII, in a comment too, or another first word than a command
regs\\x80 | line 1 kind 1
turn 0 \\xC3\\xA9 | line 1 kind 1
\\n\\n# a\\nfrob | line 4 kind 1
\\s# a | line 1 kind 1
REGS | line 1 kind 1
reg | line 1 kind 1
regs1 | line 1 kind 1
rawmem0 1 | line 1 kind 1
at 5 nmi | line 1 kind 1
frob 0 65 1 | line 1 kind 1
\\r\\r | line 1 kind 1
regs\\r\\r | line 1 kind 1
turn 0 | line 1 kind 2 | Kind 2: turns, in one to ten digits from 1 to 1,000,000
turn 1\\nturn 1000000\\nturn 0001000000 | read
turn 1000001 | line 1 kind 2
turn 00000000001 | line 1 kind 2
turn | line 1 kind 2
turn 1 2 | line 1 kind 2
turn -1 | line 1 kind 2
turn 1f | line 1 kind 2
until 0\\nuntil FFFFFFFF\\nuntil 0000000a | read | An address, in one to eight digits
until 100000000 | line 1 kind 2
until 000000000 | line 1 kind 2
until 0x10 | line 1 kind 2
until g | line 1 kind 2
until | line 1 kind 2
until 0 1 | line 1 kind 2
back 1\\nback 10000000\\nback 0010000000 | read | Instructions to go back by, in one to ten digits from 1 to 10,000,000
back 0 | line 1 kind 2
back 10000001 | line 1 kind 2
back 00000000001 | line 1 kind 2
back | line 1 kind 2
back 1 2 | line 1 kind 2
back a | line 1 kind 2
back1 | line 1 kind 1
last 0\\nlast FFFFFFFF\\nlast 0000000a | read | The address of a last arrival, and of a byte, as one to run to
last 100000000 | line 1 kind 2
last | line 1 kind 2
last 0 1 | line 1 kind 2
lasts 0 | line 1 kind 1
who 0\\nwho FFFFFFFF\\nwho 0000000a | read
who 000000000 | line 1 kind 2
who g | line 1 kind 2
who | line 1 kind 2
who 0 1 | line 1 kind 2
regs 1 | line 1 kind 2 | No operands
raw 1 | line 1 kind 2
held 1 | line 1 kind 2
regs # a | line 1 kind 2
raw\\r\\r | line 1 kind 1
raw \\r\\r | line 1 kind 2
mem 0 1\\nmem FFFFFFFF 64\\nmem a 0000000064 | read | An address and a length from 1 to 64
mem 0 0 | line 1 kind 2
mem 0 65 | line 1 kind 2
mem 0 00000000001 | line 1 kind 2
mem 0 a | line 1 kind 2
mem 100000000 1 | line 1 kind 2
mem g 1 | line 1 kind 2
mem | line 1 kind 2
mem 0 | line 1 kind 2
mem 0 1 1 | line 1 kind 2
rawmem 0 1\\nrawmem ffffffff 64 | read
rawmem 0 0 | line 1 kind 2
rawmem 0 65 | line 1 kind 2
rawmem 100000000 1 | line 1 kind 2
rawmem | line 1 kind 2
rawmem 0 | line 1 kind 2
rawmem 0 1 1 | line 1 kind 2
regs\\nturn 2\\nmem 0 65 | line 3 kind 2 | The first line at fault, whatever stands behind it
regs\\n# a\\n\\nfrob\\nheld | line 4 kind 1
turn 0\\nfrob | line 1 kind 2
frob\\nturn 0 | line 1 kind 1
raw\\nturn 0\\n#\\xFF | line 2 kind 2
raw\\n#\\xFF\\nturn 0 | line 2 kind 1
";

#[test]
fn refuses_the_first_line_at_fault(rt: HostRuntime) -> Result<(), Fail> {
    pairs_hold(&rt, rt.alloc(), &[FAULTS], told)
}

// Each command once, and the operands at both ends of their ranges, in the order of the lines.
#[test]
fn reads_commands_in_order(rt: HostRuntime) -> Result<(), Fail> {
    let rows: [(&[u8], Command); 17] = [
        (b"turn 1\n", Command::Turn(1)),
        (b"\n# a\n turn\t0001000000 \r\n", Command::Turn(1_000_000)),
        (b"until 0\n", Command::Until(0)),
        (b"until fFfFfFfF\n", Command::Until(0xFFFF_FFFF)),
        (b"\tregs\n", Command::Regs),
        (b"raw\r\n", Command::Raw),
        (b" \t\nheld\n", Command::Held),
        (b"mem 1200 1\n", Command::Mem(0x1200, 1)),
        (b"mem FFFFFFFF 0064\n", Command::Mem(0xFFFF_FFFF, 64)),
        (b"rawmem 10 16\n", Command::RawMem(0x10, 16)),
        (b"rawmem 0 64\n", Command::RawMem(0, 64)),
        (b"back 1\n", Command::Back(1)),
        (b"\tback 10000000\r\n", Command::Back(10_000_000)),
        (b"last 1008\n", Command::Last(0x1008)),
        (b"who ffffffff\n", Command::Who(0xFFFF_FFFF)),
        (b"who 0\n", Command::Who(0)),
        (b"turn 10", Command::Turn(10)),
    ];
    let mut text = Vec::new(rt.alloc());
    for (lines, _) in &rows {
        text.extend_from_slice(lines)?;
    }
    let script = read_script(rt.alloc(), &text)?;
    let commands = script.commands();
    same(&rt, commands.len(), 17);
    let mut place = 0usize;
    for (_, command) in rows {
        assert_eq!(rt; commands.get(place).copied(), Some(command));
        place += 1;
    }
    one_script();
    Ok(())
}

/// The text of 100,000 commands and a last line.
fn large_text(alloc: Global, last: &[u8]) -> Result<Vec<u8>, AllocError> {
    let mut text = Vec::new(alloc);
    for _ in 0..100_000 {
        text.extend_from_slice(b"raw\n")?;
    }
    text.extend_from_slice(last)?;
    Ok(text)
}

/// The same of last lines behind a hundred thousand commands.
fn told_behind_many(alloc: Global, last: &str) -> Result<String, Fail> {
    answer(alloc, &large_text(alloc, &escaped(alloc, last)?)?)
}

/// A hundred thousand commands are read, and one more is kind 3, behind kinds 1 and 2 of the same line.
const MANY: &str = "\
# a | read
raw | line 100001 kind 3
\\nraw\\nfrob | line 100002 kind 3
raw 1 | line 100001 kind 2
frob | line 100001 kind 1
";

#[test]
fn reads_a_hundred_thousand_commands(rt: HostRuntime) -> Result<(), Fail> {
    pairs_hold(&rt, rt.alloc(), &[MANY], told_behind_many)
}
