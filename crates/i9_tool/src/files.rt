//! Reading files: what the bytes of each kind say, or why they are refused.
ghost use Rattle.std.specs.Prelude.{◌≤◌, ◌∷◌, [], length, IfOk};
ghost use Rattle.i9_model.specs.Image.{pairs_of};
ghost use Rattle.i9_model.specs.HexText.{most_bytes};
ghost use Rattle.i9_schedule.specs.Plan.{contents};
ghost use Rattle.i9_tool.specs.declared.refusal.FileKind.TheVariants as kinds;
ghost use Rattle.i9_tool.specs.FileKinds.{file_of, AreBytes, IsWhole, IsRead};
ghost use Rattle.i9_tool.specs.Fetches.{FetchesOne, ReadsFiles, Misses, shelf};
ghost use Rattle.i9_tool.specs.Values.{Parses, stop_of};

use crate::refusal::{FileKind, InputError, Refusal};
use i9_asm::{AsmError, assemble};
use i9_elf::ImageError;
use i9_hex::Segments;
use i9_outside::{Fetch, Files};
use i9_schedule::{LineError, Schedule, Script, read_script};
use std::alloc::Global;

/// Fetches the file of this name, which is to be of a kind.
fn fetch_file<F: Files>(
    alloc: Global,
    kind: FileKind,
    name: &str,
    files: &mut F,
) -> Result<Vec<u8>, InputError>
    ensures fetches { FetchesOne (shelf F.told F.faults F.fetches F.sure) name.now
        (stop_of result) files.old files.new }
    ensures whole { IfOk result (λ file. IsWhole (F.told files.old name.now) file.items) }
    ensures missed { Misses (shelf F.told F.faults F.fetches F.sure) (file_of kind name.now)
        (stop_of result) files.old files.new }
{
    let mut file = Vec::new(alloc);
    match files.fetch(alloc, name, &mut file) {
        Fetch::Ok => Ok(file),
        Fetch::Failed => Err(InputError::Refused(Refusal::Unread)),
        Fetch::TooLong(_) => Err(InputError::Refused(Refusal::TooLong(kind))),
        Fetch::Memory => Err(InputError::Memory),
    }
}

/// The image that the bytes of a file say.
fn image_in(alloc: Global, file: &[u8]) -> Result<Segments, InputError>
    ensures { Parses kinds.Image (λ image. pairs_of image) file.now result }
{
    match i9_elf::read_image(alloc, file) {
        Ok(image) => Ok(image),
        Err(ImageError::Bad(fault)) => Err(InputError::Refused(Refusal::Image(fault))),
        Err(ImageError::Memory) => Err(InputError::Memory),
    }
}

/// The schedule that they say.
fn schedule_in(alloc: Global, file: &[u8]) -> Result<Schedule, InputError>
    ensures { Parses kinds.Schedule contents file.now result }
{
    match i9_schedule::read(alloc, file) {
        Ok(plan) => Ok(plan),
        Err(LineError::Bad(fault)) => Err(InputError::Refused(Refusal::Schedule(fault))),
        Err(LineError::Memory) => Err(InputError::Memory),
    }
}

/// The segments of the source that they say.
fn source_in(alloc: Global, file: &[u8]) -> Result<Segments, InputError>
    ensures parses { Parses kinds.Source (λ image. image) file.now result }
    ensures few { IfOk result (λ image. length (pairs_of image) ≤ most_bytes) }
    ensures bytes { IfOk result (λ image. AreBytes (pairs_of image)) }
{
    match assemble(alloc, file) {
        Ok(image) => Ok(image),
        Err(AsmError::Bad(fault)) => Err(InputError::Refused(Refusal::Source(fault))),
        Err(AsmError::Memory) => Err(InputError::Memory),
    }
}

/// The script that they say.
fn script_in(alloc: Global, file: &[u8]) -> Result<Script, InputError>
    ensures { Parses kinds.Script (λ commands. commands) file.now result }
{
    match read_script(alloc, file) {
        Ok(script) => Ok(script),
        Err(LineError::Bad(fault)) => Err(InputError::Refused(Refusal::Script(fault))),
        Err(LineError::Memory) => Err(InputError::Memory),
    }
}

/// Reads the image of this name.
pub(crate) fn read_image<F: Files>(
    alloc: Global,
    name: &str,
    files: &mut F,
) -> Result<Segments, InputError>
    ensures reads { ReadsFiles (shelf F.told F.faults F.fetches F.sure) (file_of kinds.Image name.now ∷ [])
        (stop_of result) files.old files.new }
    ensures says { IfOk result (λ image. IsRead (F.told files.old) (file_of kinds.Image name.now) (pairs_of image)) }
{
    let file = fetch_file(alloc, FileKind::Image, name, files)?;
    image_in(alloc, &file)
}

/// Reads the schedule of this name.
pub(crate) fn read_schedule<F: Files>(
    alloc: Global,
    name: &str,
    files: &mut F,
) -> Result<Schedule, InputError>
    ensures reads { ReadsFiles (shelf F.told F.faults F.fetches F.sure) (file_of kinds.Schedule name.now ∷ [])
        (stop_of result) files.old files.new }
    ensures says { IfOk result (λ plan. IsRead (F.told files.old) (file_of kinds.Schedule name.now) (contents plan)) }
{
    let file = fetch_file(alloc, FileKind::Schedule, name, files)?;
    schedule_in(alloc, &file)
}

/// Reads the source of this name, and assembles it.
pub(crate) fn read_source<F: Files>(
    alloc: Global,
    name: &str,
    files: &mut F,
) -> Result<Segments, InputError>
    ensures reads { ReadsFiles (shelf F.told F.faults F.fetches F.sure) (file_of kinds.Source name.now ∷ [])
        (stop_of result) files.old files.new }
    ensures says { IfOk result (λ image. IsRead (F.told files.old) (file_of kinds.Source name.now) image) }
    ensures few { IfOk result (λ image. length (pairs_of image) ≤ most_bytes) }
    ensures bytes { IfOk result (λ image. AreBytes (pairs_of image)) }
{
    let file = fetch_file(alloc, FileKind::Source, name, files)?;
    source_in(alloc, &file)
}

/// Reads the script of this name.
pub(crate) fn read_commands<F: Files>(
    alloc: Global,
    name: &str,
    files: &mut F,
) -> Result<Script, InputError>
    ensures reads { ReadsFiles (shelf F.told F.faults F.fetches F.sure) (file_of kinds.Script name.now ∷ [])
        (stop_of result) files.old files.new }
    ensures says { IfOk result (λ commands. IsRead (F.told files.old) (file_of kinds.Script name.now) commands) }
{
    let file = fetch_file(alloc, FileKind::Script, name, files)?;
    script_in(alloc, &file)
}
