//! The calls of a file of the system, or of a writer, with their answers.
ghost use Rattle.std.specs.Prelude.{◌≡◌, [], ◌∷◌, ◌++◌, ◌≤◌, length, IfOk};
ghost use Rattle.std.specs.Io.KnownBytes.{ReadConsumes, WriteAppends};
ghost use Rattle.std.specs.Io.Seek.{MovesTo};
ghost use Rattle.x7_files.specs.FileCalls.{keep_answered, read_answered, seek_answered, write_answered};

use std::fs::OpenFile;
use std::io::{ErrorKind, Read, Seek, SeekFrom, Write};
use x7_ghost::{Ghost, GhostOf};
use x7_words::Failed;

/// A call of a file of the system, or of a writer, with its answer. Proofs alone speak of it, and no value of it is made:
/// `[u8; 0]` is a list of bytes of any length.
pub enum FileCall {
    /// It went to this place, in bytes.
    Sought(u64),
    /// To go to this place failed.
    SeekFailed(u64),
    /// A read gave these bytes: none at the end, or for an empty buffer.
    Gave([u8; 0]),
    /// A read failed by an error of this kind.
    ReadFailed(ErrorKind),
    /// A write took these bytes.
    Took([u8; 0]),
    /// A write failed by an error of this kind.
    WriteFailed(ErrorKind),
    /// The disk has what was written.
    Kept,
    /// To wait until the disk has what was written failed.
    KeepFailed,
}

/// The calls that were made, with their answers, the newest last. It has no bytes.
pub(crate) type FileCalls = Ghost<[FileCall; 0]>;

struct NoCalls;

impl GhostOf<(), [FileCall; 0]> for NoCalls {
    ghost use Rattle.std.specs.Prelude.{[]};

    ghost value = { λ _. [] };
}

struct Seeks;

impl<'a> GhostOf<(&'a FileCalls, u64, Result<(), Failed>), [FileCall; 0]> for Seeks {
    ghost use Rattle.std.specs.Prelude.{[], ◌∷◌, ◌++◌};
    ghost use Rattle.x7_files.specs.FileCalls.{seek_answered};

    ghost value = { λ (calls, place, answer). calls.now ++ seek_answered place answer ∷ [] };
}

struct Reads;

impl<'a> GhostOf<(&'a FileCalls, &'a [u8], Result<usize, ErrorKind>), [FileCall; 0]> for Reads {
    ghost use Rattle.std.specs.Prelude.{[], ◌∷◌, ◌++◌};
    ghost use Rattle.x7_files.specs.FileCalls.{read_answered};

    ghost value = { λ (calls, buffer, answer). calls.now ++ read_answered buffer.now answer ∷ [] };
}

struct Writes;

impl<'a> GhostOf<(&'a FileCalls, &'a [u8], Result<usize, ErrorKind>), [FileCall; 0]> for Writes {
    ghost use Rattle.std.specs.Prelude.{[], ◌∷◌, ◌++◌};
    ghost use Rattle.x7_files.specs.FileCalls.{write_answered};

    ghost value = { λ (calls, bytes, answer). calls.now ++ write_answered bytes.now answer ∷ [] };
}

struct Keeps;

impl<'a> GhostOf<(&'a FileCalls, Result<(), Failed>), [FileCall; 0]> for Keeps {
    ghost use Rattle.std.specs.Prelude.{[], ◌∷◌, ◌++◌};
    ghost use Rattle.x7_files.specs.FileCalls.{keep_answered};

    ghost value = { λ (calls, answer). calls.now ++ keep_answered answer ∷ [] };
}

/// No call yet.
pub(crate) fn no_calls() -> FileCalls
    ensures { result ≡ [] }
{
    Ghost::of::<(), NoCalls>(&())
}

/// One call of the file: to go to the place.
pub(crate) fn seek_once<F: Seek>(
    file: &mut F,
    calls: &mut FileCalls,
    place: u64,
) -> Result<(), Failed>
    ensures moves { MovesTo (F.stream_position file.old) (F.stream_position file.new) place result }
    ensures called { calls.new ≡ calls.old ++ seek_answered place result ∷ [] }
{
    let answer = match file.seek(SeekFrom::Start(place)) {
        Ok(_) => Ok(()),
        Err(_) => Err(Failed),
    };
    *calls = Ghost::of::<_, Seeks>(&(&*calls, place, answer));
    answer
}

/// One call of the file: to read.
pub(crate) fn read_once<F: Read>(
    file: &mut F,
    calls: &mut FileCalls,
    buf: &mut [u8],
) -> Result<usize, ErrorKind>
    ensures within { IfOk result (λ n. n ≤ length buf.old) }
    ensures length { length buf.new ≡ length buf.old }
    ensures bytes { ReadConsumes (F.remaining file.old) (F.remaining file.new) result buf.new }
    ensures called { calls.new ≡ calls.old ++ read_answered buf.new result ∷ [] }
{
    let answer = match file.read(buf) {
        Ok(count) => Ok(count),
        Err(error) => Err(error.kind()),
    };
    *calls = Ghost::of::<_, Reads>(&(&*calls, &*buf, answer));
    answer
}

/// One call of the writer: to write.
pub(crate) fn write_once<F: Write>(
    file: &mut F,
    calls: &mut FileCalls,
    bytes: &[u8],
) -> Result<usize, ErrorKind>
    ensures within { IfOk result (λ n. n ≤ length bytes.now) }
    ensures bytes { WriteAppends (F.contents file.old) (F.contents file.new) result bytes.now }
    ensures called { calls.new ≡ calls.old ++ write_answered bytes.now result ∷ [] }
{
    let answer = match file.write(bytes) {
        Ok(count) => Ok(count),
        Err(error) => Err(error.kind()),
    };
    *calls = Ghost::of::<_, Writes>(&(&*calls, bytes, answer));
    answer
}

/// One call of the file: to wait until the disk has what was written.
pub(crate) fn keep_once<F: OpenFile>(file: &F, calls: &mut FileCalls) -> Result<(), Failed>
    ensures { calls.new ≡ calls.old ++ keep_answered result ∷ [] }
{
    let answer = match file.sync_data() {
        Ok(()) => Ok(()),
        Err(_) => Err(Failed),
    };
    *calls = Ghost::of::<_, Keeps>(&(&*calls, answer));
    answer
}
