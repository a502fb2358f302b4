//! Why the files of a command are refused, and what is printed then.
ghost use Rattle.std.specs.Prelude.{◌≡◌, ◌≢◌};
ghost use Rattle.i9_lines.specs.Lines.{refused_line};
ghost use Rattle.i9_lines.specs.Print.{IsPiece, Prints, account};
ghost use Rattle.i9_tool.specs.CommandLine.{long_line};
ghost use Rattle.i9_elf.specs.ImageReading.{fault_in};
ghost use Rattle.i9_tool.specs.FileKinds.{word_of, image_line, refusal_of};
ghost use Rattle.i9_tool.specs.Refusals as plain;
ghost use Rattle.i9_tool.specs.Refusals.{refusal_line, refusal_code};
ghost use Rattle.i9_tool.specs.Fetches.{Follows};
ghost use Rattle.i9_tool.specs.Fetches as fetches;
ghost use Rattle.i9_tool.specs.Outcome.{Answers, Only};
ghost use Rattle.i9_tool.specs.Values.{code_of, refusal_by};

use crate::status::{Ending, ending_for};
use i9_asm::AsmFault;
use i9_debug::{Printed, print_elf_refusal, print_piece, print_refusal};
use i9_elf::ImageFault;
use i9_outside::Sink;
use i9_schedule::LineFault;
use std::alloc::Global;

/// What a file is to be.
#[derive(Clone, Copy)]
pub(crate) enum FileKind {
    Image,
    Schedule,
    Source,
    Script,
}

/// Why the files of a command are refused: one of them was not read, is too long, or has this fault first.
#[derive(Clone, Copy)]
pub(crate) enum Refusal {
    Unread,
    TooLong(FileKind),
    Image(ImageFault),
    Schedule(LineFault),
    Source(AsmFault),
    Script(LineFault),
}

/// Why the files of a command are not taken.
#[derive(Clone, Copy)]
pub(crate) enum InputError {
    /// They are refused.
    Refused(Refusal),
    /// Memory was refused.
    Memory,
}

/// The word for a file in the line that says why it is refused.
fn word_of(kind: FileKind) -> &'static [u8]
    ensures { result.now ≡ word_of kind }
{
    match kind {
        FileKind::Image => b"image",
        FileKind::Schedule => b"schedule",
        FileKind::Source => b"source",
        FileKind::Script => b"script",
    }
}

/// The line of a file that is too long.
fn long_line(kind: FileKind) -> &'static [u8]
    ensures text { result.now ≡ long_line (word_of kind) }
    ensures line { IsPiece result.now }
{
    match kind {
        FileKind::Image => b"#image too long\n",
        FileKind::Schedule => b"#schedule too long\n",
        FileKind::Source => b"#source too long\n",
        FileKind::Script => b"#script too long\n",
    }
}

/// How the command ends where a file is refused for what it is to be.
fn ending_for_kind(kind: FileKind) -> Ending
    ensures { code_of result ≡ refusal_of kind }
{
    match kind {
        FileKind::Image => Ending::BadImage,
        FileKind::Schedule | FileKind::Source | FileKind::Script => Ending::BadText,
    }
}

/// How the command ends where its files are refused so.
fn ending_for_refusal(refusal: Refusal) -> Ending
    ensures { code_of result ≡ refusal_code (refusal_by refusal) }
{
    match refusal {
        Refusal::Unread => Ending::Unread,
        Refusal::TooLong(kind) => ending_for_kind(kind),
        Refusal::Image(_) => Ending::BadImage,
        Refusal::Schedule(_) | Refusal::Source(_) | Refusal::Script(_) => Ending::BadText,
    }
}

/// Prints the line of a text with its first line at fault.
fn print_line<K: Sink>(alloc: Global, kind: FileKind, line: u64, fault: u8, out: &mut K) -> Printed
    ensures { Prints result (account K.told K.faults K.writes K.sure K.pieces) out.old out.new
        (refused_line (word_of kind) (line, fault)) }
{
    print_refusal(alloc, word_of(kind), line, fault, out)
}

/// Prints the line of an image with its first fault.
fn print_image_fault<K: Sink>(alloc: Global, fault: ImageFault, out: &mut K) -> Printed
    ensures { Prints result (account K.told K.faults K.writes K.sure K.pieces) out.old out.new
        (image_line (fault_in fault)) }
{
    match fault {
        ImageFault::Line(fault) => print_line(alloc, FileKind::Image, fault.line, fault.kind, out),
        ImageFault::Elf(kind) => print_elf_refusal(alloc, kind, out),
    }
}

/// Prints the line of a refusal. That of a file that was not read takes no memory.
fn print_reason<K: Sink>(alloc: Global, refusal: Refusal, out: &mut K) -> Printed
    ensures prints { Prints result (account K.told K.faults K.writes K.sure K.pieces) out.old out.new
        (refusal_line (refusal_by refusal)) }
    ensures takes_no_memory { refusal_by refusal ≡ plain.Unread → result ≢ Printed.Memory }
{
    match refusal {
        Refusal::Unread => print_piece(b"#read\n", out),
        Refusal::TooLong(kind) => print_piece(long_line(kind), out),
        Refusal::Image(fault) => print_image_fault(alloc, fault, out),
        Refusal::Schedule(fault) => {
            print_line(alloc, FileKind::Schedule, fault.line, fault.kind, out)
        }
        Refusal::Source(fault) => print_line(alloc, FileKind::Source, fault.line, fault.kind, out),
        Refusal::Script(fault) => print_line(alloc, FileKind::Script, fault.line, fault.kind, out),
    }
}

/// Says why the files of a command are refused.
pub(crate) fn refuse<K: Sink>(alloc: Global, refusal: Refusal, out: &mut K) -> Ending
    ensures answers { Answers (Only (refusal_code (refusal_by refusal)) (refusal_line (refusal_by refusal)))
        (code_of result) (account K.told K.faults K.writes K.sure K.pieces) out.old out.new }
    ensures follows { Follows (fetches.Refused (refusal_by refusal)) (code_of result) }
{
    let printed = print_reason(alloc, refusal, out);
    ending_for(printed, ending_for_refusal(refusal))
}
