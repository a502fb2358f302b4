//! Tables for tests: sources and what the runs of their images have to print; registers that are 0 are left out, and
//! those that are marked are given as `-`.
use crate::check::same;
use crate::tests::words_of;
use i9_asm::assemble;
use i9_outside::{MemFiles, MemSink};
use i9_tool::laws::i960_in_memory;
use std::alloc::Global;
use std::process::Abort;
use std::test::*;

/// The front of a source: the boot record, and where the code begins. The PRCB is the zeros at 0, and so the first
/// frame is there too.
pub(crate) const BOOT: &str = "
        .org  0xFFFFFF10
        .word start
        .org  0x1000
start:
";

/// The front of a source with a PRCB at 800: names in its tables, the boot record, the PRCB, and where the code
/// begins. The first frame is at 3000.
pub(crate) const PRCB: &str = "
        .set  fault_table, 0x900
        .set  operation_faults, fault_table+0x10
        .set  arithmetic_faults, fault_table+0x18
        .set  protection_faults, fault_table+0x38
        .set  control_table, 0xA00
        .set  system_procedures, 0xB00
        .set  supervisor_stack, system_procedures+0xC
        .set  procedure_2, system_procedures+0x38
        .set  procedure_5, system_procedures+0x44
        .set  procedure_259, system_procedures+0x43C
        .set  stack, 0x3000

        .org  0xFFFFFF10
        .word start, prcb
        .org  0x800
prcb:
fault_table_address:
        .word fault_table
control_table_address:
        .word control_table
ac_image:
        .word 0
fault_configuration:
        .word 0x40000000        # unaligned accesses are no faults
        .word 0x2000            # the interrupt table
        .word system_procedures
        .word 0
interrupt_stack:
        .word stack
        .word 0, 0              # the instruction cache, the register sets
        .org  0x1000
start:
";

/// Code that leaves supervisor mode.
pub(crate) const TO_USER_MODE: &str = "
        mov   2, g1
        mov   0, g2
        modpc 0, g1, g2
";

/// Numbers of sets as words of the command: that of the PRCB, and one, five and fifteen.
const SETS: [&str; 4] = ["-", "1", "5", "15"];

/// A case: a source, the lines of a schedule, those of a script, the first word of the command, its words from the
/// length of the run or the name of the script on, and what is to be printed.
#[derive(Drop)]
struct Case {
    source: String,
    schedule: String,
    script: String,
    command: String,
    length: String,
    printed: String,
}

/// The HEX text of the image that a source says.
pub(crate) fn hex_of(alloc: Global, source: &str) -> Result<Vec<u8>, Fail> {
    let image = assemble(alloc, source.as_bytes())?;
    Ok(i9_hex::write(alloc, &image)?)
}

/// The eight digits of a word, or eight dashes for a register that is marked, which is given as `-`.
fn register_text(alloc: Global, word: &str) -> Result<String, Fail> {
    if word == "-" {
        return Ok(String::from_str(alloc, "--------")?);
    }
    let value = u32::from_str_radix(word, 16)?;
    Ok(format!(in alloc; "{value:08X}")?)
}

/// What is given for the register of this number, of those that are given, as `4=1F` or `4=-`; 0 where it is none of
/// them.
fn register(given: &str, number: u32) -> Result<&str, Fail> {
    for part in given.split(' ') {
        if let Some((place, word)) = part.split_once("=") {
            if u32::from_str_radix(place, 10)? == number {
                return Ok(word);
            }
        }
    }
    Ok("0")
}

/// Appends the line of sixteen registers, of which those that are not 0 or are marked are given.
pub(crate) fn add_registers(
    alloc: Global,
    text: &mut String,
    label: &str,
    given: &str,
) -> Result<(), Fail> {
    text.push_str(label)?;
    for number in 0..16u32 {
        let word = register_text(alloc, register(given, number)?)?;
        text.push_str(&format!(in alloc; " {word}")?)?;
    }
    text.push_str("\n")?;
    Ok(())
}

/// Appends a line.
fn add_line(text: &mut String, line: &str) -> Result<(), Fail> {
    text.push_str(line)?;
    text.push_str("\n")?;
    Ok(())
}

/// Whether the run of a case's image with the events of a text, or with none where it is empty, and with so many sets
/// has this status and prints the case's text.
fn holds_with(
    alloc: Global,
    case: &Case,
    image: &[u8],
    schedule: &str,
    sets: &str,
    code: u8,
) -> Result<bool, Fail> {
    let mut files = MemFiles::new(alloc);
    files.add("a", image)?;
    files.add("b", schedule.as_bytes())?;
    files.add("script", case.script.as_bytes())?;
    let mut sink = MemSink::new(alloc);
    sink.room(4096)?;
    let plan = if schedule.is_empty() { "-" } else { "b" };
    let line = format!(in alloc; "{} a {plan} {sets} {}", case.command, case.length)?;
    let words = words_of(alloc, &line)?;
    let status = i960_in_memory(alloc, &words, &mut files, &mut sink);
    Ok(status.code == code && sink.bytes() == case.printed.as_bytes())
}

/// Whether a case's run has its status and prints its text, at each of these numbers of sets, behind the fronts of its
/// source; and also where the text that it prints is its schedule. A session of the debugger shows the sets, so it has
/// those of the PRCB alone.
fn holds(alloc: Global, fronts: &[&str], case: &Case, code: u8) -> Result<bool, Fail> {
    let mut source = String::new(alloc);
    for front in fronts {
        source.push_str(front)?;
    }
    source.push_str(&case.source)?;
    let image = hex_of(alloc, &source)?;
    if !case.script.is_empty() {
        return holds_with(alloc, case, &image, &case.schedule, "-", code);
    }
    for sets in SETS {
        if !holds_with(alloc, case, &image, &case.schedule, sets, code)? {
            return Ok(false);
        }
    }
    holds_with(alloc, case, &image, &case.printed, "-", code)
}

/// Begins a case behind its source.
fn begin_case(case: &mut Case) {
    case.schedule.clear();
    case.script.clear();
    case.command.clear();
    case.length.clear();
    case.printed.clear();
}

/// Takes a line that begins as one of a schedule does: it is one up to the command, and one of what is printed behind
/// it, but for a turn, which is not printed.
fn take_event(case: &mut Case, name: &str, line: &str) -> Result<(), Fail> {
    if case.length.is_empty() {
        add_line(&mut case.schedule, line)
    } else if name == "turn" {
        add_line(&mut case.source, line)
    } else {
        add_line(&mut case.printed, line)
    }
}

/// Takes the first word of the command, and its words from the length of the run or the name of the script on.
fn take_command(case: &mut Case, command: &str, length: &str) -> Result<(), Fail> {
    case.command.push_str(command)?;
    case.length.push_str(length)?;
    Ok(())
}

/// Takes a line of a table to the case that is being read, if it is not the line of its status.
fn take_line(alloc: Global, case: &mut Case, line: &str) -> Result<(), Fail> {
    let (name, rest) = line.split_once(" ").unwrap_or((line, ""));
    match name {
        "==" => {
            case.source.clear();
            begin_case(case);
            Ok(())
        }
        "--" => {
            begin_case(case);
            Ok(())
        }
        "schedule" | "at" | "turn" => take_event(case, name, line),
        ">" => add_line(&mut case.script, rest),
        "run" | "trace" | "debug" => take_command(case, name, rest),
        "#g" | "#l" | "#rg" | "#rl" => add_registers(alloc, &mut case.printed, name, rest),
        _ if line.starts_with('#') => add_line(&mut case.printed, line),
        _ => add_line(&mut case.source, line),
    }
}

/// How many cases of a table hold. Behind the title, which begins with `==`, come the lines of the source, those of the
/// schedule, which begin with `schedule`, `at` or `turn`, `run` and the length of the run, or `trace`, the length and a
/// range, what is to be printed, where those registers are given that are not 0 or are marked, and the status. Where a
/// title begins with `--`, the source goes on from the case before. A line of a script stands behind `> `, and
/// `debug script` is the command then.
pub(crate) fn held(alloc: Global, fronts: &[&str], table: &str) -> Result<u32, Fail> {
    let mut case = Case {
        source: String::new(alloc),
        schedule: String::new(alloc),
        script: String::new(alloc),
        command: String::new(alloc),
        length: String::new(alloc),
        printed: String::new(alloc),
    };
    let mut count: u32 = 0;
    for line in table.lines() {
        match line.strip_prefix("status ") {
            Some(code) => {
                if holds(alloc, fronts, &case, code.parse::<u8>()?)? {
                    count = count.saturating_add(1);
                }
            }
            None => take_line(alloc, &mut case, line)?,
        }
    }
    Ok(count)
}

/// Each case of a table holds, and there are so many.
pub(crate) fn hold(
    rt: &impl Abort,
    alloc: Global,
    fronts: &[&str],
    table: &str,
    count: u32,
) -> Result<(), Fail> {
    same(rt, held(alloc, fronts, table)?, count);
    Ok(())
}
