use crate::check::{must, same};
use crate::rows::{escaped, pairs_hold};
use i9_schedule::{
    Event, LEVELS_VERSION, LineError, LineFault, Schedule, When, copied, event_text, is_ascii,
    is_skipped, journal_line, number_in, one_word, read, two_words,
};
use std::alloc::{AllocError, Global};
use std::test::Fail;

/// What is told of a text: its version, or its first line at fault and the kind of that.
fn answer(alloc: Global, text: &[u8]) -> Result<String, Fail> {
    match read(alloc, text) {
        Ok(schedule) => Ok(format!(in alloc; "version {}", schedule.version())?),
        Err(LineError::Bad(LineFault { line, kind })) => {
            Ok(format!(in alloc; "line {line} kind {kind}")?)
        }
        Err(LineError::Memory) => Err("no memory".into()),
    }
}

/// The same of the text that a column says.
fn told(alloc: Global, text: &str) -> Result<String, Fail> {
    answer(alloc, &escaped(alloc, text)?)
}

/// Texts of version 1, each worked by hand: the first line at fault, with the least kind that applies to it.
const FAULTS: &str = "\
| version 1 | Lines without words and comments say nothing; one carriage return is dropped
#\\n# at x\\r\\n \\t\\n\\n\\r\\nat 5 nmi\\r\\n\\tat\\t5  nmi\\s | version 1
#\\xFF | line 1 kind 1 | Kind 1: a byte past ASCII, in a comment too, or another first word than `at` and `turn`
at 5 nmi\\x80 | line 1 kind 1
\\n\\n# a\\nbogus | line 4 kind 1
\\s# a | line 1 kind 1
AT 5 nmi | line 1 kind 1
TURN 5 nmi | line 1 kind 1
turns 5 nmi | line 1 kind 1
turn5 nmi | line 1 kind 1
\\r\\r | line 1 kind 1
bogus x pin 8 | line 1 kind 1
at | line 1 kind 2 | Kind 2: another event word, or none, whatever the count is
at nmi | line 1 kind 2
at x bogus 1 | line 1 kind 2
at 5 NMI | line 1 kind 2
at 5 nmi\\r\\r | line 1 kind 2
turn | line 1 kind 2
turn 5 | line 1 kind 2
turn nmi | line 1 kind 2
turn x bogus | line 1 kind 2
at 0 nmi\\nat 0000010000000 nmi | version 1 | Kind 3: the count, in one to thirteen digits up to 10,000,000
at 10000001 nmi | line 1 kind 3
at 00000000000005 nmi | line 1 kind 3
at -1 nmi | line 1 kind 3
at 5f nmi | line 1 kind 3
turn 0 nmi\\nturn 1000000000000 nmi | version 1 | The turn, in as many digits up to 1,000,000,000,000
turn 0000000000007 nmi | version 1
turn 1000000000001 nmi | line 1 kind 3
turn 00000000000007 nmi | line 1 kind 3
turn 10000000000000 nmi | line 1 kind 3
turn -1 nmi | line 1 kind 3
turn 5f nmi | line 1 kind 3
at 5 pin 0000000007 | version 1 | Operands out of range or form, missing, or one too many
at 5 pin 00000000007 | line 1 kind 3
at 5 pin 8 | line 1 kind 3
at 5 pin | line 1 kind 3
at 5 pin 1 2 | line 1 kind 3
at 5 nmi 1 | line 1 kind 3
at 5 dma 4 | line 1 kind 3
at 5 dma | line 1 kind 3
at 5 feed 4 00 | line 1 kind 3
at 5 feed 0 | line 1 kind 3
at 5 feed 0 0 | line 1 kind 3
at 5 feed 0 012 | line 1 kind 3
at 5 feed 0 012345 | line 1 kind 3
at 5 feed 0 0123456789abcdef | line 1 kind 3
at 5 feed 0 0g | line 1 kind 3
at 5 feed 0 00 1 | line 1 kind 3
at 5 show 100000000 1 | line 1 kind 3
at 5 show 0g 1 | line 1 kind 3
at 5 show 0 0 | line 1 kind 3
at 5 show 0 65 | line 1 kind 3
at 5 show 0 | line 1 kind 3
at 5 show 0 1 1 | line 1 kind 3
turn 5 pin | line 1 kind 3
turn 5 nmi 1 | line 1 kind 3
turn 5 show 0 65 | line 1 kind 3
at 5 nmi\\nturn 5 nmi | line 2 kind 4 | Kind 4: `at` and `turn` in one text, before kind 5 and behind kinds 1 to 3
turn 5 nmi\\nat 5 nmi | line 2 kind 4
at 5 nmi\\nturn 4 nmi | line 2 kind 4
turn 5 nmi\\nat 4 nmi | line 2 kind 4
turn 5 nmi\\n# a\\n\\nturn 6 nmi\\nat 6 nmi | line 5 kind 4
at 5 nmi\\nturn 4 pin 8 | line 2 kind 3
at 5 nmi\\nturn 4 bogus | line 2 kind 2
at 5 nmi\\nat 4 nmi\\nbogus | line 2 kind 5 | Kind 5: an earlier count or turn, behind kinds 1 to 3 of the same line
at 5 nmi\\nat 4 pin 8 | line 2 kind 3
at 5 nmi\\nat 4 bogus | line 2 kind 2
at 5 nmi\\n# a\\nat 6 nmi\\nat 5 nmi | line 4 kind 5
turn 5 nmi\\n# a\\nturn 5 nmi\\nturn 4 nmi | line 4 kind 5
";

/// The first line that says anything may tell version 2, in which `low` and `high` are known; any other text has
/// version 1.
const VERSIONS: &str = "\
| version 1
# schedule 2\\nat 1 pin 0 | version 1
schedule 2 | version 2
# a\\n\\n \\t\\n schedule\\t2 \\r\\nat 1 low 0\\nat 1 high 7 | version 2
schedule 2\\nturn 4 low 007\\n# a\\nturn 4 high 0 | version 2
schedule 2\\nat 1 pin 0\\nat 1 nmi\\nat 1 dma 3\\nat 1 feed 0 00\\nat 1 show 0 1 | version 2 | \
The words of version 1 stay in version 2
at 1 low 0 | line 1 kind 2 | In version 1 both words are unknown, whatever stands before and behind them
at 1 high 0 | line 1 kind 2
at 1 low 8 | line 1 kind 2
at x low | line 1 kind 2
turn 1 high 7 | line 1 kind 2
at 1 nmi\\nat 2 high 0 | line 2 kind 2
schedule 2\\nat 1 low 8 | line 2 kind 3 | \
Operands out of range or form, missing, or one too many; the count is out of form
schedule 2\\nat 1 low | line 2 kind 3
schedule 2\\nat 1 low 0 0 | line 2 kind 3
schedule 2\\nat 1 low x | line 2 kind 3
schedule 2\\nat 1 high 8 | line 2 kind 3
schedule 2\\nat 1 high | line 2 kind 3
schedule 2\\nat 1 high 0 0 | line 2 kind 3
schedule 2\\nat x high 0 | line 2 kind 3
schedule 2\\nat 1 Low 0 | line 2 kind 2
schedule 2\\nat 1 lower 0 | line 2 kind 2
at 0 nmi\\nschedule 2 | line 2 kind 1 | The version is told on the first line that says anything, and on no other one
schedule 2\\nschedule 2 | line 2 kind 1
schedule 2\\n# a\\nschedule | line 3 kind 1
schedule | line 1 kind 3 | Its operand is the word `2` alone
schedule 1 | line 1 kind 3
schedule 02 | line 1 kind 3
schedule 2.0 | line 1 kind 3
schedule 2 2 | line 1 kind 3
# a\\nschedule two\\nat 1 low 0 | line 2 kind 3
schedule 2\\xFF | line 1 kind 1
Schedule 2 | line 1 kind 1
schedules 2 | line 1 kind 1
schedule2 | line 1 kind 1
at schedule 2 | line 1 kind 2
schedule 2\\nat 5 low 0\\nat 4 high 0 | line 3 kind 5 | Times are ordered as in version 1
schedule 2\\nat 5 low 0\\nturn 5 high 0 | line 3 kind 4
";

#[test]
fn tells_the_version_or_the_first_line_at_fault(rt: HostRuntime) -> Result<(), Fail> {
    pairs_hold(&rt, rt.alloc(), &[FAULTS, VERSIONS], told)
}

// Levels come in order, each at its count, and print as the rules of the format say, and so do their copies.
#[test]
fn prints_levels(rt: HostRuntime) -> Result<(), Fail> {
    let text = b"schedule 2\nat 0 low 07\n# a\n at 0002\thigh  0 \r\nat 2 pin 3";
    let mut schedule = read(rt.alloc(), text)?;
    same(&rt, schedule.version(), LEVELS_VERSION);
    let rows: [(Event, u64, &[u8]); 3] = [
        (Event::Low(7), 0, b"at 0 low 7"),
        (Event::High(0), 2, b"at 2 high 0"),
        (Event::Pin(3), 2, b"at 2 pin 3"),
    ];
    for (event, count, line) in rows {
        let Some(timed) = schedule.next() else {
            must(&rt, false);
            return Ok(());
        };
        assert_eq!(rt; timed.when, When::At(count));
        must(&rt, timed.event == event);
        let printed = journal_line(rt.alloc(), count, &timed.event)?;
        same(&rt, printed.as_slice(), line);
        let text = event_text(rt.alloc(), count, &copied(&timed.event))?;
        same(&rt, text.as_slice(), line);
        schedule.step();
    }
    must(&rt, schedule.next().is_none());
    Ok(())
}

/// The text of 1,000,000 events at count 1 and a last line.
fn large_text(alloc: Global, last: &[u8]) -> Result<Vec<u8>, AllocError> {
    let mut text = Vec::new(alloc);
    for _ in 0..1_000_000 {
        text.extend_from_slice(b"at 1 nmi\n")?;
    }
    text.extend_from_slice(last)?;
    Ok(text)
}

/// The same of a last line behind a million events.
fn told_behind_many(alloc: Global, last: &str) -> Result<String, Fail> {
    answer(alloc, &large_text(alloc, last.as_bytes())?)
}

/// A million events are read, and one more is kind 6, behind kind 5.
const MANY: &str = "\
# a | version 1
at 1 nmi | line 1000001 kind 6
at 0 nmi | line 1000001 kind 5
";

#[test]
fn reads_a_million_events(rt: HostRuntime) -> Result<(), Fail> {
    pairs_hold(&rt, rt.alloc(), &[MANY], told_behind_many)
}

/// Goes to the event behind the next one, where there is one.
fn go_on(schedule: &mut Schedule) {
    if schedule.next().is_some() {
        schedule.step();
    }
}

// The events of all these lines come in order, each at its count, and print as the rules of the format say, and so do
// their copies.
#[test]
fn prints_what_it_reads(rt: HostRuntime) -> Result<(), Fail> {
    let rows: [(&[u8], u64, &[u8]); 8] = [
        (b"at 0 pin 07\n", 0, b"at 0 pin 7"),
        (b"\n# a\nat 000003 nmi\r\n", 3, b"at 3 nmi"),
        (b" at 3\tdma  3 \n", 3, b"at 3 dma 3"),
        (b"at 4 feed 0 0a\n", 4, b"at 4 feed 0 0A"),
        (b"at 4 feed 1 0aFf\n", 4, b"at 4 feed 1 0AFF"),
        (b"at 5 feed 2 01234567\n", 5, b"at 5 feed 2 01234567"),
        (
            b"at 6 feed 3 00112233445566778899aabbccddeeff\n",
            6,
            b"at 6 feed 3 00112233445566778899AABBCCDDEEFF",
        ),
        (
            b"at 0000010000000 show fF0 0064",
            10_000_000,
            b"at 10000000 show 00000FF0 64",
        ),
    ];
    let mut text = Vec::new(rt.alloc());
    for (line, _, _) in &rows {
        text.extend_from_slice(line)?;
    }
    let mut schedule = read(rt.alloc(), &text)?;
    same(&rt, schedule.place(), 0);
    for (_, count, line) in rows {
        let Some(timed) = schedule.next() else {
            must(&rt, false);
            return Ok(());
        };
        same(&rt, timed.when, When::At(count));
        let printed = journal_line(rt.alloc(), count, &timed.event)?;
        same(&rt, printed.as_slice(), line);
        let text = event_text(rt.alloc(), count, &copied(&timed.event))?;
        same(&rt, text.as_slice(), line);
        go_on(&mut schedule);
    }
    must(&rt, schedule.next().is_none());
    let behind = schedule.place();
    same(&rt, behind, 8);
    // Back to the first event, and to where it stood.
    schedule.rewind();
    same(&rt, schedule.place(), 0);
    must(&rt, schedule.next().is_some());
    schedule.seek(behind);
    same(&rt, schedule.place(), 8);
    must(&rt, schedule.next().is_none());
    Ok(())
}

// The events of all these lines come in order, each at its turn.
#[test]
fn reads_turns(rt: HostRuntime) -> Result<(), Fail> {
    let rows: [(&[u8], u64, Event); 4] = [
        (b"turn 0 pin 07\n", 0, Event::Pin(7)),
        (b"# a\n turn\t0000000000003  nmi\r\n", 3, Event::Nmi),
        (b"\nturn 3 dma 1\n", 3, Event::Dma(1)),
        (
            b"turn 1000000000000 show fF0 0064",
            1_000_000_000_000,
            Event::Show(0xFF0, 64),
        ),
    ];
    let mut text = Vec::new(rt.alloc());
    for (line, _, _) in &rows {
        text.extend_from_slice(line)?;
    }
    let mut schedule = read(rt.alloc(), &text)?;
    for (_, turn, event) in rows {
        let Some(timed) = schedule.next() else {
            must(&rt, false);
            return Ok(());
        };
        same(&rt, timed.when, When::Turn(turn));
        must(&rt, timed.event == event);
        schedule.step();
    }
    must(&rt, schedule.next().is_none());
    Ok(())
}

// Words of a line stand between spaces and tabs, and numbers have no sign or prefix.
#[test]
fn tells_words(rt: HostRuntime) -> Result<(), Fail> {
    same(&rt, one_word(b" \ta\t"), Some(b"a".as_slice()));
    must(&rt, one_word(b"a b").is_none());
    same(
        &rt,
        two_words(b"\ta  b"),
        Some((b"a".as_slice(), b"b".as_slice())),
    );
    must(&rt, two_words(b"a b c").is_none());
    same(&rt, number_in(b"0fF", 16, 3, 1, 255), Some(255));
    same(&rt, number_in(b"256", 10, 3, 1, 255), None);
    must(&rt, is_ascii(b"\x7f") && !is_ascii(b"\x80"));
    must(&rt, is_skipped(b"#a") && !is_skipped(b" #"));
    Ok(())
}

#[test]
fn tells_errors(rt: HostRuntime) -> Result<(), Fail> {
    let bad = format!(in rt.alloc(); "{}", LineError::Bad(LineFault { line: 1, kind: 1 }))?;
    same(&rt, bad.as_str(), "refused");
    let memory = format!(in rt.alloc(); "{}", LineError::Memory)?;
    same(&rt, memory.as_str(), "no memory");
    Ok(())
}
