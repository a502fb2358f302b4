//! The words of the command.
ghost use Rattle.std.specs.Prelude.{◌≡◌, ◌%◌, ◌≤◌, ◌<◌, ◌∷◌, [], IfSome, map};
ghost use Rattle.std.specs.Option.{option_map, option_copied};
ghost use Rattle.std.specs.String.{string_bytes};
ghost use Rattle.i9_model.specs.declared.layout.TheConstants.{MAX_LENGTH};
ghost use Rattle.i9_tool.specs.CommandLine.{sets_for, schedule_for, address_of, range_for, number_in, of_instruction};
ghost use Rattle.i9_tool.specs.CommandLine.{most_number, most_tuned, tune_for};
ghost use Rattle.i9_tool.specs.CommandLine.{length_for, script_for, driver_for, run_for, command_of};
ghost use Rattle.i9_tool.specs.Words.{driver_by, run_by, job_by, tune_by, asked_by};
ghost use Rattle.i9_tool.specs.Words.{AreFew, IsShort, CanRun, IsBlock, Fits};

use i9_model::layout::{MAX_LENGTH, MOST_SETS};
use i9_text::number;

/// The addresses from `low` to `high`, both inclusive; none where `low` is above `high`.
#[derive(Clone, Copy)]
pub(crate) struct Range {
    pub(crate) low: u32,
    pub(crate) high: u32,
}

/// What drives a run: a length of at most so many instructions, and then it is printed, and the instructions of a range
/// of addresses or none are traced; or the script of this name.
#[derive(Clone, Copy)]
pub(crate) enum Driver<'a> {
    Length(u64, Option<Range>),
    Script(&'a str),
}

/// What `run`, `trace` and `debug` ask for: to run the image of this name, with the events of the schedule of this name
/// or with none, with so many register sets or with those of the PRCB, as far as it is driven.
#[derive(Clone, Copy)]
pub(crate) struct RunWords<'a> {
    pub(crate) image: &'a str,
    pub(crate) schedule: Option<&'a str>,
    pub(crate) sets: Option<u8>,
    pub(crate) driver: Driver<'a>,
}

/// What `gen` asks for: to run the job that is made from this number, with so many register sets or with those of the
/// PRCB.
#[derive(Clone, Copy)]
pub(crate) struct JobWords {
    pub(crate) number: u32,
    pub(crate) sets: Option<u8>,
}

/// The format of an image that is printed: Intel HEX text, or an ELF file of 32 bits.
#[derive(Clone, Copy)]
pub(crate) enum Format {
    Hex,
    Elf,
}

/// A block of so many instructions that stands in an image from an address on, which is a multiple of 4.
#[derive(Clone, Copy)]
pub(crate) struct Block {
    pub(crate) address: u32,
    pub(crate) count: u8,
}

/// What `tune` asks for: to tune a block of the image of this name.
#[derive(Clone, Copy)]
pub(crate) struct TuneWords<'a> {
    pub(crate) image: &'a str,
    pub(crate) block: Block,
}

/// What the words ask for: to run an image, to assemble the source of this name and print its image in a format, to
/// list the image of this name, to run the job of a number, or to tune a block of an image.
#[derive(Clone, Copy)]
pub(crate) enum Asked<'a> {
    Run(RunWords<'a>),
    Asm(Format, &'a str),
    Dis(&'a str),
    Gen(JobWords),
    Tune(TuneWords<'a>),
}

/// The most instructions of a block that is tuned.
const MOST_TUNED: u64 = 64;

/// The number of sets that a word asks for, of which `-` asks for none.
#[tactic(auto, unfolding(crate::specs::CommandLine::sets_for))]
fn sets_asked(word: &str) -> Option<Option<u8>>
    ensures asked { result ≡ sets_for word.now }
    ensures few { IfSome result AreFew }
{
    if word == "-" {
        return Some(None);
    }
    let n = number(word.as_bytes(), 10, 10)?;
    if n == 0 || n > u64::from(MOST_SETS) {
        return None;
    }
    Some(Some(n as u8))
}

/// The name of the schedule that a word asks for, of which `-` asks for none.
#[tactic(auto, unfolding(crate::specs::CommandLine::schedule_for))]
fn schedule_asked(word: &str) -> Option<Option<&str>>
    ensures { option_map option_copied result ≡ schedule_for word.now }
{
    if word == "-" {
        return Some(None);
    }
    if word.is_empty() {
        return None;
    }
    Some(Some(word))
}

/// The length that a word says, with what is traced.
fn length_asked<'a>(word: &str, traced: Option<Range>) -> Option<Driver<'a>>
    ensures asked { option_map driver_by result ≡ length_for (number_in 0 MAX_LENGTH word.now) traced }
    ensures short { IfSome result IsShort }
{
    let limit = number(word.as_bytes(), 10, 10)?;
    if limit > MAX_LENGTH {
        return None;
    }
    Some(Driver::Length(limit, traced))
}

/// The script whose name is a word.
fn script_asked(word: &str) -> Option<Driver<'_>>
    ensures asked { option_map driver_by result ≡ script_for word.now }
    ensures short { IfSome result IsShort }
{
    if word.is_empty() {
        return None;
    }
    Some(Driver::Script(word))
}

/// The address that a word says.
fn address_asked(word: &str) -> Option<u32>
    ensures { result ≡ address_of word.now }
{
    let n = number(word.as_bytes(), 16, 8)?;
    Some(n as u32)
}

/// The range from one address to another one.
fn range_asked(low: &str, high: &str) -> Option<Range>
    ensures { result ≡ range_for (address_of low.now) (address_of high.now) }
{
    let low = address_asked(low)?;
    let high = address_asked(high)?;
    Some(Range { low, high })
}

/// What drives a run by the one word that comes last in its form, which is `run` or `debug`.
fn driver_named<'a>(name: &str, word: &'a str) -> Option<Driver<'a>>
    ensures asked { option_map driver_by result ≡ driver_for name.now (word.now ∷ []) }
    ensures short { IfSome result IsShort }
{
    match name {
        "run" => length_asked(word, None),
        "debug" => script_asked(word),
        _ => None,
    }
}

/// What drives a run by a length and a range, which come last where its form is `trace`.
fn tracer_named<'a>(name: &str, limit: &str, low: &str, high: &str) -> Option<Driver<'a>>
    ensures asked { option_map driver_by result ≡ driver_for name.now (limit.now ∷ low.now ∷ high.now ∷ []) }
    ensures short { IfSome result IsShort }
{
    if name != "trace" {
        return None;
    }
    let range = range_asked(low, high)?;
    length_asked(limit, Some(range))
}

/// What drives a run, by the name of its form and the words that come last in it.
fn driver_asked<'a>(name: &str, last: &'a [String]) -> Option<Driver<'a>>
    ensures asked { option_map driver_by result ≡ driver_for name.now (map string_bytes last.now) }
    ensures short { IfSome result IsShort }
{
    match last {
        [word] => driver_named(name, word),
        [limit, low, high] => tracer_named(name, limit, low, high),
        _ => None,
    }
}

/// The run that these words ask for, the last of which say what drives it.
#[tactic(auto, unfolding(crate::specs::CommandLine::command_of))]
fn run_asked<'a>(
    name: &str,
    image: &'a str,
    schedule: &'a str,
    sets: &str,
    last: &'a [String],
) -> Option<RunWords<'a>>
    ensures asked { option_map run_by result ≡ run_for image.now (schedule_for schedule.now) (sets_for sets.now)
        (driver_for name.now (map string_bytes last.now)) }
    ensures can { IfSome result CanRun }
{
    let schedule = schedule_asked(schedule)?;
    let sets = sets_asked(sets)?;
    let driver = driver_asked(name, last)?;
    if image.is_empty() {
        return None;
    }
    Some(RunWords {
        image,
        schedule,
        sets,
        driver,
    })
}

/// What `asm`, `asmelf` or `dis` asks for with the name of a file behind it, where the words are in a form of these.
#[tactic(auto, unfolding(crate::specs::CommandLine::command_of))]
fn file_asked<'a>(name: &str, file: &'a str) -> Option<Asked<'a>>
    ensures asked { option_map asked_by result ≡ command_of (name.now ∷ file.now ∷ []) }
    ensures fits { IfSome result Fits }
{
    if file.is_empty() {
        return None;
    }
    match name {
        "asm" => Some(Asked::Asm(Format::Hex, file)),
        "asmelf" => Some(Asked::Asm(Format::Elf, file)),
        "dis" => Some(Asked::Dis(file)),
        _ => None,
    }
}

/// The number of 32 bits that a word says.
fn number_asked(word: &str) -> Option<u32>
    ensures { result ≡ number_in 0 most_number word.now }
{
    let n = number(word.as_bytes(), 10, 10)?;
    if n > u64::from(u32::MAX) {
        return None;
    }
    Some(n as u32)
}

/// What `gen` asks for with these words behind it, where they are in its form.
#[tactic(auto, unfolding(crate::specs::CommandLine::command_of))]
fn gen_asked(name: &str, number: &str, sets: &str) -> Option<JobWords>
    ensures asked { option_map job_by result ≡ command_of (name.now ∷ number.now ∷ sets.now ∷ []) }
    ensures few { IfSome result (λ job. AreFew job.sets) }
{
    if name != "gen" {
        return None;
    }
    let number = number_asked(number)?;
    let sets = sets_asked(sets)?;
    Some(JobWords { number, sets })
}

/// The address of an instruction that a word says.
fn instruction_asked(word: &str) -> Option<u32>
    ensures asked { result ≡ of_instruction (address_of word.now) }
    ensures aligned { IfSome result (λ a. a % 4 ≡ 0) }
{
    let address = address_asked(word)?;
    if address % 4 != 0 {
        return None;
    }
    Some(address)
}

/// The number of instructions that a word says.
fn count_asked(word: &str) -> Option<u8>
    ensures asked { result ≡ number_in 1 most_tuned word.now }
    ensures few { IfSome result (λ n. n ≤ most_tuned) }
{
    let n = number(word.as_bytes(), 10, 10)?;
    if n == 0 || n > MOST_TUNED {
        return None;
    }
    Some(n as u8)
}

/// The block that these words ask for, with no word behind them.
fn block_asked<'a>(
    image: &'a str,
    address: &str,
    count: &str,
    last: &[String],
) -> Option<TuneWords<'a>>
    ensures asked { option_map tune_by result ≡ tune_for image.now (of_instruction (address_of address.now))
        (number_in 1 most_tuned count.now) (map string_bytes last.now) }
    ensures block { IfSome result (λ words. IsBlock words.block) }
{
    let address = instruction_asked(address)?;
    let count = count_asked(count)?;
    if image.is_empty() || !last.is_empty() {
        return None;
    }
    let block = Block { address, count };
    Some(TuneWords { image, block })
}

/// What `tune` asks for, or what drives a run, with these words behind it, where they are in a form of these.
#[tactic(auto, unfolding(crate::specs::CommandLine::command_of))]
fn image_asked<'a>(
    name: &str,
    image: &'a str,
    second: &'a str,
    third: &str,
    last: &'a [String],
) -> Option<Asked<'a>>
    ensures asked { option_map asked_by result ≡ command_of
        (name.now ∷ image.now ∷ second.now ∷ third.now ∷ map string_bytes last.now) }
    ensures fits { IfSome result Fits }
{
    if name == "tune" {
        let block = block_asked(image, second, third, last)?;
        return Some(Asked::Tune(block));
    }
    let run = run_asked(name, image, second, third, last)?;
    Some(Asked::Run(run))
}

/// What the words ask for, where they are in a form of the command.
#[tactic(auto, unfolding(crate::specs::CommandLine::command_of))]
pub(crate) fn read_words(words: &[String]) -> Option<Asked<'_>>
    ensures asked { option_map asked_by result ≡ command_of (map string_bytes words.now) }
    ensures fits { IfSome result Fits }
{
    match words {
        [name, file] => file_asked(name, file),
        [name, number, sets] => {
            let job = gen_asked(name, number, sets)?;
            Some(Asked::Gen(job))
        }
        [name, image, second, third, last @ ..] => image_asked(name, image, second, third, last),
        _ => None,
    }
}
