//! The program of the command `i960`: its words, and its files and its output of the system.
#![tactic(auto)]

#[cfg(test)]
mod board;
#[cfg(test)]
mod files;
#[cfg(test)]
mod tests;

ghost use Rattle.std.specs.Prelude.{◌≡◌, ◌≢◌, ◌<◌, IfOk, IfErr, OnErr, drop};
ghost use Rattle.std.specs.IoError.{error_kind};
ghost use Rattle.std.specs.Process.{exit_status};
ghost use Rattle.std.specs.Vec.Iter.{into_iter_items};
ghost use Rattle.i9_lines.specs.Print.{account, output};
ghost use Rattle.i9_main.specs.Program.{EndsWith};
ghost use Rattle.i9_tool.specs.Fetches.{shelf, stock};

use i9_outside::{Files, Sink};
use i9_system::{RealFiles, RealSink};
use i9_tool::{Status, i960};
use std::alloc::{AllocError, Global};
use std::io::{ErrorKind, Print};
use std::process::ExitCode;
use std::{env, io, rt};

/// All of the words that the system gave.
fn all_words(alloc: Global, given: env::Args) -> Result<Vec<String>, AllocError>
    ensures { IfOk result (λ words. words.items ≡ into_iter_items given) }
{
    let mut left = given;
    let mut words = Vec::new(alloc);
    while let Some(word) = left.next() {
        words.push(word)?;
    }
    Ok(words)
}

/// The words behind the program's name, of those that the system gave.
fn without_name(alloc: Global, given: env::Args) -> Result<Vec<String>, AllocError>
    ensures { IfOk result (λ words. words.items ≡ drop 1 (into_iter_items given)) }
{
    let mut left = given;
    let _ = left.next();
    all_words(alloc, left)
}

/// The words of the command.
fn words_of<R: rt::Env + AllocGlobal>(rt: &R) -> io::Result<Vec<String>> {
    let given = env::args(rt)?;
    Ok(without_name(rt.alloc(), given)?)
}

/// The status where there are no words: 7 where there is no memory for them, and 8 where the system doesn't give them.
fn status_without_words(kind: ErrorKind) -> Status
    ensures memory { kind ≡ ErrorKind.OutOfMemory → result.code ≡ 7 }
    ensures system { kind ≢ ErrorKind.OutOfMemory → result.code ≡ 8 }
{
    match kind {
        ErrorKind::OutOfMemory => Status { code: 7 },
        _ => Status { code: 8 },
    }
}

/// The exit status that the process ends with.
fn exit_of(status: Status) -> ExitCode
    ensures { exit_status result ≡ status.code }
{
    ExitCode::from(status.code)
}

/// Does what the words ask for, and ends with the status of that; or with that for no words, and then does nothing.
fn answer<F: Files, K: Sink>(
    alloc: Global,
    words: io::Result<Vec<String>>,
    files: &mut F,
    out: &mut K,
) -> ExitCode
    ensures given { IfOk words (λ w. EndsWith w.items (exit_status result)
        (stock (shelf F.told F.faults F.fetches F.sure) files.old files.new)
        (output (account K.told K.faults K.writes K.sure K.pieces) out.old out.new)) }
    ensures memory { IfErr words (λ e. error_kind e ≡ ErrorKind.OutOfMemory → exit_status result ≡ 7) }
    ensures system { IfErr words (λ e. error_kind e ≢ ErrorKind.OutOfMemory → exit_status result ≡ 8) }
    ensures untouched { OnErr words ((files.new ≡ files.old) × (out.new ≡ out.old)) }
{
    match words {
        Ok(words) => exit_of(i960(alloc, &words, files, out)),
        Err(error) => exit_of(status_without_words(error.kind())),
    }
}

/// The program over a runtime: its words, its files, and its output.
fn program<R: rt::Files + rt::Env + Print + AllocGlobal>(rt: &R) -> ExitCode
    ensures { exit_status result < 9 }
{
    let mut files = RealFiles::new(rt);
    let mut out = RealSink::new(io::writer(rt));
    answer(rt.alloc(), words_of(rt), &mut files, &mut out)
}

fn main(rt: HostRuntime) -> ExitCode {
    program(&rt)
}
