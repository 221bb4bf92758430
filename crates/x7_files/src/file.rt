//! An open file of the system with the calls that were made of it: to read and to write all of some bytes from a place on.
//!
//! A call that failed is the last one, but for a read or a write that a signal interrupted, which is made again.
ghost use Rattle.std.specs.Prelude.{◌≡◌, ◌<◌, ◌≤◌, length, take, [], IfOk, MatchResult};
ghost use Rattle.x7_files.specs.File.{file_tells, GoesTo, ReadsBytes, ReadsBytesAndStops, ReadsFrom, ReadsShort, StaysAway, WritesBytes, WritesBytesAndStops, WritesFrom, WritesShort};

use crate::file_call::{FileCalls, read_once, seek_once, write_once};
use std::io::{ErrorKind, Read, Seek, Write};
use x7_words::Failed;

/// An open file of the system with the calls that were made of it, which proofs alone know.
#[derive(Drop)]
pub struct CalledFile<F: Drop> {
    pub(crate) file: F,
    // the calls with their answers, the newest last; they have no bytes
    pub(crate) calls: FileCalls,
}

/// How often a call that a signal interrupts is made again, at most.
const MOST_TRIES: u64 = u64::MAX;

/// Goes to the place in a file.
fn go_to<F: Seek + Drop>(file: &mut CalledFile<F>, place: u64) -> Result<(), Failed>
    ensures { MatchResult result (λ _. GoesTo F.stream_position place file.old file.new)
        (λ _. StaysAway F.stream_position place file.old file.new) }
{
    seek_once(&mut file.file, &mut file.calls, place)
}

/// Reads some bytes to the start of the buffer, and says how many. A read that gives none is a fault.
fn read_some<F: Read + Drop>(file: &mut CalledFile<F>, buf: &mut [u8]) -> Result<usize, Failed>
    requires { 0 < length buf.old }
    ensures within { IfOk result (λ n. (0 < n) × (n ≤ length buf.old)) }
    ensures length { length buf.new ≡ length buf.old }
    ensures read { MatchResult result (λ n. ReadsBytes F.remaining (take n buf.new) file.old file.new)
        (λ _. ReadsBytesAndStops F.remaining [] file.old file.new) }
{
    let mut left = MOST_TRIES;
    'tries: loop {
        match read_once(&mut file.file, &mut file.calls, buf) {
            Ok(0) => return Err(Failed),
            Ok(count) => return Ok(count),
            Err(kind) if kind == ErrorKind::Interrupted => {
                if left == 0 {
                    return Err(Failed);
                }
                left -= 1;
            }
            Err(_) => return Err(Failed),
        }
    }
}

/// Fills the buffer with the next bytes of a file.
fn fill<F: Read + Drop>(file: &mut CalledFile<F>, buf: &mut [u8]) -> Result<(), Failed>
    ensures length { length buf.new ≡ length buf.old }
    ensures read { MatchResult result (λ _. ReadsBytes F.remaining buf.new file.old file.new)
        (λ _. ReadsShort F.remaining (length buf.new) file.old file.new) }
{
    let mut at = 0;
    while at < buf.len() {
        match read_some(file, &mut buf[at..]) {
            Ok(count) => at += count,
            Err(Failed) => return Err(Failed),
        }
    }
    Ok(())
}

/// Fills the buffer with a file's bytes from the place on.
pub(crate) fn read_from<F: Read + Seek + Drop>(
    file: &mut CalledFile<F>,
    place: u64,
    buf: &mut [u8],
) -> Result<(), Failed>
    ensures length { length buf.new ≡ length buf.old }
    ensures read { ReadsFrom (file_tells F.stream_position F.remaining) place buf.new result file.old file.new }
{
    go_to(file, place)?;
    fill(file, buf)
}

/// Writes the first of the bytes, and says how many. A write that takes none is a fault.
fn write_some<F: Write + Drop>(file: &mut CalledFile<F>, bytes: &[u8]) -> Result<usize, Failed>
    requires { 0 < length bytes.now }
    ensures within { IfOk result (λ n. (0 < n) × (n ≤ length bytes.now)) }
    ensures written { MatchResult result (λ n. WritesBytes F.contents (take n bytes.now) file.old file.new)
        (λ _. WritesBytesAndStops F.contents [] file.old file.new) }
{
    let mut left = MOST_TRIES;
    'tries: loop {
        match write_once(&mut file.file, &mut file.calls, bytes) {
            Ok(0) => return Err(Failed),
            Ok(count) => return Ok(count),
            Err(kind) if kind == ErrorKind::Interrupted => {
                if left == 0 {
                    return Err(Failed);
                }
                left -= 1;
            }
            Err(_) => return Err(Failed),
        }
    }
}

/// Writes all of the bytes.
fn write_on<F: Write + Drop>(file: &mut CalledFile<F>, bytes: &[u8]) -> Result<(), Failed>
    ensures { MatchResult result (λ _. WritesBytes F.contents bytes.now file.old file.new)
        (λ _. WritesShort F.contents bytes.now file.old file.new) }
{
    let mut at = 0;
    while at < bytes.len() {
        match write_some(file, &bytes[at..]) {
            Ok(count) => at += count,
            Err(Failed) => return Err(Failed),
        }
    }
    Ok(())
}

/// Writes bytes from the place on.
pub(crate) fn write_from<F: Write + Seek + Drop>(
    file: &mut CalledFile<F>,
    place: u64,
    bytes: &[u8],
) -> Result<(), Failed>
    ensures { WritesFrom (file_tells F.stream_position F.contents) place bytes.now result file.old file.new }
{
    go_to(file, place)?;
    write_on(file, bytes)
}
