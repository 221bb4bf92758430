//! The program `x7`: the real objects of the system, and the command over them.
#![tactic(auto)]

ghost use Rattle.std.specs.Prelude.{◌≡◌, map, string_bytes};
ghost use Rattle.std.specs.Process.{exit_status};
ghost use Rattle.x7.specs.Command.{CallEnds, WritesPage};
ghost use Rattle.x7_forms.specs.Status.{status_number};
ghost use Rattle.x7_tool.specs.Calls.{call_of};

mod page;

use crate::page::page_of;
use std::alloc::Global;
use std::io::{self, ErrorKind};
use std::marker::Brand;
use std::process::ExitCode;
use std::{env, fs};
use x7_files::{FileFlash, FileInputs, StdSink, World};
use x7_tool::{Status, run};
use x7_words::{Flash, Inputs, Sink, write_all};

/// The exit status where the system gives no list of words, as where one of them isn't UTF-8; where memory is wanting
/// for the list, it is that of `Status::NoMemory`.
const NO_WORDS: u8 = 12;

/// A file that gives no byte, and takes none where it is opened to be read.
const NOTHING: &str = "/dev/null";

/// The words of the command line after the program's name.
fn words(rt: &HostRuntime) -> io::Result<Vec<String>> {
    let mut words = Vec::new(rt.alloc());
    for word in env::args(rt)?.skip(1) {
        words.push(word)?;
    }
    Ok(words)
}

/// The exit status that the `Status` of a run stands for.
fn end_of(status: Status) -> ExitCode
    ensures { exit_status result ≡ status_number status }
{
    ExitCode::from(status.number())
}

/// Writes a page, and answers the exit status.
fn show<O: Sink>(out: &mut O, page: &str) -> ExitCode
    ensures { WritesPage page.now (O.state out.old) (O.state out.new) (exit_status result) }
{
    match write_all(out, page.as_bytes()) {
        Ok(()) => end_of(Status::Done),
        Err(_) => end_of(Status::WriteFault),
    }
}

/// Does what the words ask for, of the program itself or of the command, and answers the exit status.
fn command<I: Inputs, O: Sink, E: Sink, F: Flash>(
    alloc: Global,
    words: &Vec<String>,
    inputs: &mut I,
    flash: &mut F,
    out: &mut O,
    err: &mut E,
) -> ExitCode
    ensures { CallEnds (map string_bytes words.now.items) (call_of (I.state, F.state, O.state, E.state)
        (inputs.old, flash.old, out.old, err.old) (inputs.new, flash.new, out.new, err.new)) (exit_status result) }
{
    match page_of(words) {
        Some(page) => show(out, page),
        None => end_of(run(alloc, words, inputs, flash, out, err)),
    }
}

/// Does what the words ask for over the system's files, and answers the exit status. `W` is a map from names to bytes
/// that proofs alone know: whichever it is, `command` says what comes of it, as long as what the files give agrees with
/// it.
fn with_files<W: World>(rt: &HostRuntime, words: &Vec<String>) -> ExitCode {
    let mut inputs = FileInputs::<HostRuntime, W>::new(rt);
    let mut flash = FileFlash::new(rt);
    let mut out = StdSink::new(rt.stdout());
    let mut err = StdSink::new(rt.stderr());
    command(
        rt.alloc(),
        words,
        &mut inputs,
        &mut flash,
        &mut out,
        &mut err,
    )
}

fn main(rt: HostRuntime) -> ExitCode {
    // The system gives a new file the lowest number that is free: that of a standard file which the caller closed. So
    // /dev/null takes these numbers before an input or the flash may: what is written there fails.
    let _standard = [
        fs::open(&rt, NOTHING),
        fs::open(&rt, NOTHING),
        fs::open(&rt, NOTHING),
    ];
    match words(&rt) {
        Ok(words) => with_files::<Brand>(&rt, &words),
        Err(error) if error.kind() == ErrorKind::OutOfMemory => end_of(Status::NoMemory),
        Err(_) => ExitCode::from(NO_WORDS),
    }
}
