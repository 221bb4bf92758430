//! Real files and writers; and inputs in memory, read in pieces and put anew while one is read.
use crate::paths::{filled, path_of};
use std::io::{ErrorKind, Write};
use std::marker::Brand;
use std::rt::Files;
use std::{env, fs, io};
use x7_files::{FileFlash, FileInputs, StdSink};
use x7_in_memory::MemoryInputs;
use x7_words::{Failed, Flash, Inputs, NoMemory, SelectFault, Sink, write_all};

/// What three reads of an input give: how many bytes each, and its buffer of four bytes.
type Reads = Result<[(usize, [u8; 4]); 3], SelectFault>;

/// Selects an input, and reads it three times.
fn three_reads<I: Inputs>(inputs: &mut I, name: &str) -> Reads {
    inputs.select(name)?;
    let (mut one, mut two, mut three) = ([0; 4], [0; 4], [0; 4]);
    let Ok(first) = inputs.read(&mut one) else {
        return Err(SelectFault::Failed);
    };
    let Ok(second) = inputs.read(&mut two) else {
        return Err(SelectFault::Failed);
    };
    match inputs.read(&mut three) {
        Ok(third) => Ok([(first, one), (second, two), (third, three)]),
        Err(_) => Err(SelectFault::Failed),
    }
}

/// Puts two inputs: `one` of five bytes, in place of three others, and `two` of one byte.
fn put_two(inputs: &mut MemoryInputs) -> Result<(), NoMemory> {
    inputs.put("one", &[1, 2, 3])?;
    inputs.put("two", &[7])?;
    inputs.put("one", &[1, 2, 3, 4, 5])
}

#[test]
fn inputs_are_read_in_pieces(rt: HostRuntime) {
    // the name, the most bytes of a read, and of each read the count and what the buffer holds
    let cases = [
        (
            "one",
            1,
            [(1, [1, 0, 0, 0]), (1, [2, 0, 0, 0]), (1, [3, 0, 0, 0])],
        ),
        (
            "one",
            2,
            [(2, [1, 2, 0, 0]), (2, [3, 4, 0, 0]), (1, [5, 0, 0, 0])],
        ),
        (
            "one",
            9,
            [(4, [1, 2, 3, 4]), (1, [5, 0, 0, 0]), (0, [0; 4])],
        ),
        ("two", 9, [(1, [7, 0, 0, 0]), (0, [0; 4]), (0, [0; 4])]),
    ];
    let mut inputs = MemoryInputs::new(rt.alloc());
    assert!(rt; put_two(&mut inputs) == Ok(()));
    for (name, most, reads) in cases {
        inputs.piece(most);
        assert!(rt; three_reads(&mut inputs, name) == Ok(reads));
    }
}

/// Reads an input of three bytes in pieces of two, once before two other bytes are put under its name and once after,
/// and then those from their start: the counts, and the buffer after the last two reads. None where a call is refused.
fn reads_around_a_put(inputs: &mut MemoryInputs) -> Option<([usize; 3], [[u8; 4]; 2])> {
    inputs.put("one", &[1, 2, 3]).ok()?;
    inputs.piece(2);
    inputs.select("one").ok()?;
    let mut buf = [0; 4];
    let first = inputs.read(&mut buf).ok()?;
    inputs.put("one", &[8, 9]).ok()?;
    let second = inputs.read(&mut buf).ok()?;
    let old = buf;
    inputs.select("one").ok()?;
    let third = inputs.read(&mut buf).ok()?;
    Some(([first, second, third], [old, buf]))
}

#[test]
fn a_put_leaves_what_is_being_read(rt: HostRuntime) {
    let wanted = ([2, 1, 2], [[3, 2, 0, 0], [8, 9, 0, 0]]);
    let mut inputs = MemoryInputs::new(rt.alloc());
    assert!(rt; reads_around_a_put(&mut inputs) == Some(wanted));
}

/// What a flash gives: its size, and three bytes from a place on, zeros where it has fewer there.
type Bytes = Result<(u64, [u8; 3]), SelectFault>;

/// Attaches a flash, and reads three bytes from the place on.
fn size_and_bytes<F: Flash>(flash: &mut F, name: &str, place: u64) -> Bytes {
    flash.attach(name)?;
    let size = flash.size();
    let mut buf = [0; 3];
    if size < 3 || place > size - 3 {
        return Ok((size, buf));
    }
    match flash.read_at(place, &mut buf) {
        Ok(()) => Ok((size, buf)),
        Err(_) => Err(SelectFault::Failed),
    }
}

/// What a name leads to, as an input and as a flash.
fn found<I: Inputs, F: Flash>(
    inputs: &mut I,
    flash: &mut F,
    name: &str,
    place: u64,
) -> (Reads, Bytes) {
    (
        three_reads(inputs, name),
        size_and_bytes(flash, name, place),
    )
}

/// What these lead to, one after another, by the same inputs and the same flash. First the path of a new file of five
/// bytes, with the place 2 and with the place 0. Then the path without the last byte of its name, one below the file,
/// its folder, and the path once the file is removed. None where a file can't be made or removed.
fn found_by<R: Files, I: Inputs, F: Flash>(
    rt: &R,
    inputs: &mut I,
    flash: &mut F,
    path: &str,
    below: &str,
    folder: &str,
) -> Option<[(Reads, Bytes); 6]> {
    fs::write(rt, path, b"hello").ok()?;
    let late = found(inputs, flash, path, 2);
    let early = found(inputs, flash, path, 0);
    let trimmed = found(inputs, flash, path.trim_end(), 0);
    let lower = found(inputs, flash, below, 0);
    let no_file = found(inputs, flash, folder, 0);
    fs::remove_file(rt, path).ok()?;
    let gone = found(inputs, flash, path, 0);
    Some([late, early, trimmed, lower, no_file, gone])
}

/// What these lead to by new inputs and a new flash over files, as `found_by` says.
fn found_around<R: Files>(
    rt: &R,
    path: &str,
    below: &str,
    folder: &str,
) -> Option<[(Reads, Bytes); 6]> {
    let (mut inputs, mut flash) = (FileInputs::<R, Brand>::new(rt), FileFlash::new(rt));
    found_by(rt, &mut inputs, &mut flash, path, below, folder)
}

/// What `found_around` finds about a file with a space at the end of its name.
fn found_by_names(rt: &HostRuntime) -> Option<[(Reads, Bytes); 6]> {
    let path = path_of(rt, "name ")?;
    let below = path.join(rt.alloc(), "one").ok()?;
    let folder = env::temp_dir(rt).ok()?;
    found_around(
        rt,
        path.as_path().as_str(),
        below.as_path().as_str(),
        folder.as_path().as_str(),
    )
}

#[test]
fn files_are_found_by_their_whole_names(rt: HostRuntime) {
    let whole = Ok([(4, *b"hell"), (1, *b"o\0\0\0"), (0, [0; 4])]);
    let missing = (Err(SelectFault::Missing), Err(SelectFault::Missing));
    let failed = (Err(SelectFault::Failed), Err(SelectFault::Failed));
    let late = (whole, Ok((5, *b"llo")));
    let early = (whole, Ok((5, *b"hel")));
    assert!(rt; found_by_names(&rt) == Some([late, early, missing, failed, failed, missing]));
}

/// What three reads of three bytes gave, each if it succeeded.
type Triples = [Option<[u8; 3]>; 3];

/// Attaches a file of five bytes, reads its bytes 2 to 4, cuts it to three bytes, and reads 2 to 4 and 0 to 2. None
/// where the file can't be attached or written.
fn reads_around_a_cut<R: Files, F: Flash>(rt: &R, flash: &mut F, name: &str) -> Option<Triples> {
    flash.attach(name).ok()?;
    if flash.size() != 5 {
        return None;
    }
    let mut whole = [0; 3];
    let is_whole = flash.read_at(2, &mut whole).is_ok();
    fs::write(rt, name, b"hel").ok()?;
    let mut cut = [0; 3];
    let is_cut = flash.read_at(2, &mut cut).is_ok();
    let mut left = [0; 3];
    let is_left = flash.read_at(0, &mut left).is_ok();
    Some([
        is_whole.then_some(whole),
        is_cut.then_some(cut),
        is_left.then_some(left),
    ])
}

/// The reads of a new file that is cut, as `reads_around_a_cut` has them. None where the file can't be made or removed.
fn reads_of_a_cut_file<R: Files>(rt: &R, name: &str) -> Option<Triples> {
    fs::write(rt, name, b"hello").ok()?;
    let reads = reads_around_a_cut(rt, &mut FileFlash::new(rt), name);
    fs::remove_file(rt, name).ok()?;
    reads
}

/// What `reads_of_a_cut_file` says of a path that no other test has.
fn reads_of_a_new_file(rt: &HostRuntime) -> Option<Triples> {
    let path = path_of(rt, "shrunk")?;
    reads_of_a_cut_file(rt, path.as_path().as_str())
}

#[test]
fn a_file_that_shrank_is_a_fault(rt: HostRuntime) {
    assert!(rt; reads_of_a_new_file(&rt) == Some([Some(*b"llo"), None, Some(*b"hel")]));
}

/// Attaches a file of two sectors, erases the second, programs bytes over its start, and reads five of them.
fn written_bytes<F: Flash>(flash: &mut F, name: &str) -> Option<[u8; 5]> {
    let Ok(()) = flash.attach(name) else {
        return None;
    };
    if flash.size() != 131072 {
        return None;
    }
    let Ok(()) = flash.erase(1) else {
        return None;
    };
    let Ok(()) = flash.program(65535, &[0x0F, 0x5A, 0xFF]) else {
        return None;
    };
    let Ok(()) = flash.program(65536, &[0xF0]) else {
        return None;
    };
    let mut buf = [0; 5];
    match flash.read_at(65534, &mut buf) {
        Ok(()) => Some(buf),
        Err(_) => None,
    }
}

/// Writes a new file of these bytes as a flash: the bytes that are read of the flash.
fn written_as_flash<R: Files>(rt: &R, name: &str, bytes: &[u8]) -> Option<[u8; 5]> {
    fs::write(rt, name, bytes).ok()?;
    written_bytes(&mut FileFlash::new(rt), name)
}

/// Writes a new file of two sectors as a flash: the bytes that are read of the flash, and all of the file.
fn written(rt: &HostRuntime, name: &str) -> Option<([u8; 5], Vec<u8>)> {
    let bytes = filled(rt.alloc(), &[(131072, 0x3C)])?;
    let found = written_as_flash(rt, name, &bytes)?;
    let kept = fs::read(rt, name).ok()?;
    match fs::remove_file(rt, name) {
        Ok(()) => Some((found, kept)),
        Err(_) => None,
    }
}

/// The bytes that are read of a file that was written as a flash, and whether the file is then what it was up to the
/// program, and erased after it.
fn written_file(rt: &HostRuntime) -> Option<([u8; 5], bool)> {
    let path = path_of(rt, "written")?;
    let (found, kept) = written(rt, path.as_path().as_str())?;
    let wanted = filled(
        rt.alloc(),
        &[(65535, 0x3C), (65536, 0x0C), (65537, 0x50), (131072, 0xFF)],
    )?;
    Some((found, kept == wanted))
}

#[test]
fn a_file_is_written_as_a_flash(rt: HostRuntime) {
    assert!(rt; written_file(&rt) == Some(([0x3C, 0x0C, 0x50, 0xFF, 0xFF], true)));
}

/// A writer that takes one byte a call, up to a number of bytes.
#[derive(Drop)]
struct Narrow {
    /// How many bytes it still takes.
    left: u8,
    /// The error of the call after these, after which it takes bytes again; where there is none, each call after these
    /// takes nothing.
    then: Option<ErrorKind>,
}

impl Write for Narrow {
    fn write(&mut self, buf: &[u8]) -> io::Result<usize> {
        if buf.is_empty() {
            return Ok(0);
        }
        if self.left > 0 {
            self.left -= 1;
            return Ok(1);
        }
        match self.then {
            None => Ok(0),
            Some(kind) => {
                self.left = u8::MAX;
                Err(io::Error::from(kind))
            }
        }
    }

    fn flush(&mut self) -> io::Result<()> {
        Ok(())
    }
}

/// What writing five bytes answers, and then an empty write.
fn answers<W: Write + Drop>(writer: W) -> (Result<(), Failed>, Result<usize, Failed>) {
    let mut sink = StdSink::new(writer);
    let written = write_all(&mut sink, b"hello");
    (written, sink.write(b""))
}

#[test]
fn writers_are_sinks(rt: HostRuntime) {
    // how many bytes the writer takes, what it does then, the answer: no write that failed is made again
    let cases = [
        (5, None, Ok(())),
        (4, None, Err(Failed)),
        (4, Some(ErrorKind::BrokenPipe), Err(Failed)),
        (4, Some(ErrorKind::Interrupted), Err(Failed)),
    ];
    for (left, then, answer) in cases {
        assert!(rt; answers(Narrow { left, then }) == (answer, Ok(0)));
    }
}

#[test]
fn standard_output_and_standard_error_are_sinks(rt: HostRuntime) {
    let out = StdSink::new(io::writer(&rt)).write(b"");
    let err = StdSink::new(rt.stderr()).write(b"");
    assert!(rt; (out, err) == (Ok(0), Ok(0)));
}

#[test]
fn a_writer_holds_what_its_sink_wrote(rt: HostRuntime) {
    let mut sink = StdSink::new(Vec::new(rt.alloc()));
    let first = write_all(&mut sink, b"hello");
    let second = write_all(&mut sink, b", world");
    let all = sink.into_writer();
    assert!(rt;
        (first, second) == (Ok(()), Ok(())) && all.as_slice() == b"hello, world".as_slice()
    );
}
