//! Inputs and a flash over files of the system of which one kind of call fails, and that count what is opened and what
//! fails.
use crate::paths::{filled, path_of};
use std::alloc::Allocator;
use std::cell::Cell;
use std::fs::{Metadata, OpenFile, OpenOptions, Permissions};
use std::io::{ErrorKind, PipeReader, PipeWriter, Read, Seek, SeekFrom, Write};
use std::marker::Brand;
use std::os::fd::BorrowedFd;
use std::os::unix::net::SocketAddr;
use std::path::PathBuf;
use std::rt::Files;
use std::{fs, io};
use x7_files::{FileFlash, FileInputs};
use x7_words::{Flash, Inputs, SECTOR_SIZE};

/// What fails.
#[derive(Clone, Copy, PartialEq, Eq)]
enum Failing {
    /// No call.
    Nothing,
    /// Opening a file for writing.
    Opening,
    /// Reading.
    Reading,
    /// Going to a place from the start on.
    Placing,
    /// Writing.
    Writing,
    /// Waiting until the bytes are kept.
    Keeping,
    /// Every other call to read or to write, which a signal interrupts.
    Interrupted,
}

/// The error of a call that fails.
fn denied() -> io::Error {
    io::Error::from(ErrorKind::PermissionDenied)
}

/// What files have come to.
#[derive(Drop)]
struct Counts {
    /// How often a file was to be opened.
    opens: Cell<u64>,
    /// How many calls of the kind that fails there were.
    failures: Cell<u64>,
    /// Whether the last call to read or to write was interrupted.
    is_interrupted: Cell<bool>,
}

impl Counts {
    /// No file was opened yet.
    fn new() -> Counts {
        Counts {
            opens: Cell::new(0),
            failures: Cell::new(0),
            is_interrupted: Cell::new(false),
        }
    }

    /// Counts a file that is to be opened.
    fn count_open(&self) {
        self.opens.set(self.opens.get().saturating_add(1));
    }

    /// Counts a call that fails by an error of this kind; the error.
    fn fail_by(&self, kind: ErrorKind) -> io::Error {
        self.failures.set(self.failures.get().saturating_add(1));
        io::Error::from(kind)
    }

    /// Counts a call that fails; its error.
    fn fail(&self) -> io::Error {
        self.fail_by(ErrorKind::PermissionDenied)
    }

    /// Whether a call to read or to write is interrupted, as every other one is.
    fn is_interrupted_now(&self) -> bool {
        let is_interrupted = !self.is_interrupted.get();
        self.is_interrupted.set(is_interrupted);
        is_interrupted
    }

    /// Both counts: files to be opened, and calls that failed.
    fn both(&self) -> (u64, u64) {
        (self.opens.get(), self.failures.get())
    }
}

/// The files of the system, of which a call fails. To open one so that it is made, cut or written at its end is
/// refused, and to cut an open one fails.
#[derive(Drop)]
struct FailingFiles<'r, R: Files> {
    rt: &'r R,
    failing: Failing,
    counts: &'r Counts,
}

/// A file of the system, of which a call fails.
#[derive(Drop)]
struct FailingFile<'r, F: Drop> {
    file: F,
    failing: Failing,
    counts: &'r Counts,
}

impl<'r, F: Drop> FailingFile<'r, F> {
    /// The error of a call that reads or writes, where it fails.
    fn error_of(&self, call: Failing) -> Option<io::Error> {
        if self.failing == call {
            return Some(self.counts.fail());
        }
        if self.failing == Failing::Interrupted && self.counts.is_interrupted_now() {
            return Some(self.counts.fail_by(ErrorKind::Interrupted));
        }
        None
    }
}

impl<'r, F: Read + Drop> Read for FailingFile<'r, F> {
    fn read(&mut self, buf: &mut [u8]) -> io::Result<usize> {
        match self.error_of(Failing::Reading) {
            Some(error) => Err(error),
            None => self.file.read(buf),
        }
    }
}

impl<'r, F: Write + Drop> Write for FailingFile<'r, F> {
    fn write(&mut self, buf: &[u8]) -> io::Result<usize> {
        match self.error_of(Failing::Writing) {
            Some(error) => Err(error),
            None => self.file.write(buf),
        }
    }

    fn flush(&mut self) -> io::Result<()> {
        self.file.flush()
    }
}

impl<'r, F: Seek + Drop> Seek for FailingFile<'r, F> {
    fn seek(&mut self, to: SeekFrom) -> io::Result<u64> {
        if self.failing == Failing::Placing && matches!(to, SeekFrom::Start(_)) {
            return Err(self.counts.fail());
        }
        self.file.seek(to)
    }
}

impl<'r, F: OpenFile + Drop> OpenFile for FailingFile<'r, F> {
    fn metadata(&self) -> io::Result<Metadata> {
        self.file.metadata()
    }

    fn set_len(&self, _size: u64) -> io::Result<()> {
        Err(self.counts.fail())
    }

    fn sync_all(&self) -> io::Result<()> {
        self.sync_data()
    }

    fn sync_data(&self) -> io::Result<()> {
        if self.failing == Failing::Keeping {
            return Err(self.counts.fail());
        }
        self.file.sync_data()
    }
}

impl<'r, R: Files> Files for FailingFiles<'r, R> {
    type File = FailingFile<'r, R::File>;

    type Dir = R::Dir;

    fn open_file(&self, how: &OpenOptions, path: &str) -> io::Result<FailingFile<'r, R::File>> {
        self.counts.count_open();
        if self.failing == Failing::Opening && how.asks_write() {
            return Err(self.counts.fail());
        }
        if how.asks_create() || how.asks_create_new() || how.asks_truncate() || how.asks_append() {
            return Err(denied());
        }
        let file = self.rt.open_file(how, path)?;
        Ok(FailingFile {
            file,
            failing: self.failing,
            counts: self.counts,
        })
    }

    // What a flash doesn't call is refused. The methods that have a body in the trait stand here too, since those
    // bodies are dear to prove.
    fn open_dir(&self, _path: &str) -> io::Result<R::Dir> {
        Err(denied())
    }

    fn metadata(&self, _path: &str) -> io::Result<Metadata> {
        Err(denied())
    }

    fn symlink_metadata(&self, _path: &str) -> io::Result<Metadata> {
        Err(denied())
    }

    fn copy(&self, _from: &str, _to: &str) -> io::Result<u64> {
        Err(denied())
    }

    fn rename(&self, _from: &str, _to: &str) -> io::Result<()> {
        Err(denied())
    }

    fn remove_file(&self, _path: &str) -> io::Result<()> {
        Err(denied())
    }

    fn create_dir(&self, _path: &str) -> io::Result<()> {
        Err(denied())
    }

    fn remove_dir(&self, _path: &str) -> io::Result<()> {
        Err(denied())
    }

    fn remove_dir_all<B: Allocator>(&self, _alloc: B, _path: &str) -> io::Result<()> {
        Err(denied())
    }

    fn canonicalize<B: Allocator>(&self, _alloc: B, _path: &str) -> io::Result<PathBuf<B>> {
        Err(denied())
    }

    fn read_link<B: Allocator>(&self, _alloc: B, _path: &str) -> io::Result<PathBuf<B>> {
        Err(denied())
    }

    fn hard_link(&self, _original: &str, _link: &str) -> io::Result<()> {
        Err(denied())
    }

    fn set_permissions(&self, _path: &str, _perm: Permissions) -> io::Result<()> {
        Err(denied())
    }

    fn symlink(&self, _original: &str, _link: &str) -> io::Result<()> {
        Err(denied())
    }

    fn pipe(&self) -> io::Result<(PipeReader, PipeWriter)> {
        Err(denied())
    }

    fn chown(&self, _path: &str, _uid: Option<u32>, _gid: Option<u32>) -> io::Result<()> {
        Err(denied())
    }

    fn lchown(&self, _path: &str, _uid: Option<u32>, _gid: Option<u32>) -> io::Result<()> {
        Err(denied())
    }

    fn create_dir_with_mode(&self, _path: &str, _mode: u32) -> io::Result<()> {
        Err(denied())
    }

    fn bind_unix(&self, _socket: BorrowedFd<'_>, _addr: &SocketAddr) -> io::Result<()> {
        Err(denied())
    }
}

/// What a flash of one sector answers: whether an erase of it and then a program of its second byte succeed, and the
/// first two bytes as a read finds them then, if they are read.
type Answers = (bool, bool, Option<[u8; 2]>);

/// Attaches the flash, and asks it. None where it has no sector.
fn answers_of<F: Flash>(flash: &mut F, name: &str) -> Option<Answers> {
    let Ok(()) = flash.attach(name) else {
        return None;
    };
    if flash.size() != SECTOR_SIZE {
        return None;
    }
    let is_erased = flash.erase(0).is_ok();
    let is_programmed = flash.program(1, &[0x0F]).is_ok();
    let mut found = [0; 2];
    let is_read = flash.read_at(0, &mut found).is_ok();
    Some((is_erased, is_programmed, is_read.then_some(found)))
}

/// A file of one sector after calls of a flash: how often it was opened and how many calls failed, the answers, its
/// first two bytes, and whether each byte after these is the first one and no other stands in it.
type Outcome = ((u64, u64), Answers, [u8; 2], bool);

/// What comes of a new file that is a flash, where calls fail. None where the file can't be made, or read.
fn outcome_over(rt: &HostRuntime, failing: Failing, name: &str) -> Option<Outcome> {
    let bytes = filled(rt.alloc(), &[(SECTOR_SIZE as usize, 0x3C)])?;
    fs::write(rt, name, bytes.as_slice()).ok()?;
    let counts = Counts::new();
    let files = FailingFiles {
        rt,
        failing,
        counts: &counts,
    };
    let answers = answers_of(&mut FileFlash::new(&files), name)?;
    let kept = fs::read(rt, name).ok()?;
    fs::remove_file(rt, name).ok()?;
    let first: [u8; 2] = *kept.first_chunk()?;
    let parts = [
        (1, first[0]),
        (2, first[1]),
        (SECTOR_SIZE as usize, first[0]),
    ];
    let wanted = filled(rt.alloc(), &parts)?;
    Some((counts.both(), answers, first, kept == wanted))
}

/// What comes of a flash over files that fail so at a path that no other test has, as `outcome_over` says.
fn outcome_where(rt: &HostRuntime, failing: Failing) -> Option<Outcome> {
    let path = path_of(rt, "failing")?;
    outcome_over(rt, failing, path.as_path().as_str())
}

#[test]
fn a_write_of_a_file_fails_where_a_call_fails(rt: HostRuntime) {
    // the call, how often the file is opened and how many calls fail, whether the erase and the program succeed, the
    // file's first bytes then, and whether they are read: no call that failed is made again, but for a read or a write
    // that a signal interrupted
    let cases = [
        (Failing::Nothing, (1, 0), true, true, [0xFF, 0x0F], true),
        (Failing::Opening, (2, 1), false, false, [0x3C, 0x3C], true),
        (Failing::Reading, (1, 2), true, false, [0xFF, 0xFF], false),
        (Failing::Placing, (1, 3), false, false, [0x3C, 0x3C], false),
        (Failing::Writing, (1, 2), false, false, [0x3C, 0x3C], true),
        (Failing::Keeping, (1, 2), false, false, [0xFF, 0x0F], true),
        (Failing::Interrupted, (1, 4), true, true, [0xFF, 0x0F], true),
    ];
    for (failing, counts, erased, programmed, first, is_read) in cases {
        let answers = (erased, programmed, is_read.then_some(first));
        assert!(rt; outcome_where(&rt, failing) == Some((counts, answers, first, true)));
    }
}

/// What a select of a file and a read of four bytes do: how often a file was opened and how many calls failed, and what
/// was read.
type Opened = ((u64, u64), Option<[u8; 4]>);

/// Selects a new file of five bytes where calls fail, and reads four bytes of it. None where the file can't be made, or
/// is refused.
fn opens_of_a_select(rt: &HostRuntime, failing: Failing, name: &str) -> Option<Opened> {
    fs::write(rt, name, b"hello").ok()?;
    let counts = Counts::new();
    let files = FailingFiles {
        rt,
        failing,
        counts: &counts,
    };
    let mut inputs = FileInputs::<_, Brand>::new(&files);
    inputs.select(name).ok()?;
    let mut buf = [0; 4];
    let is_read = inputs.read(&mut buf).is_ok();
    fs::remove_file(rt, name).ok()?;
    Some((counts.both(), is_read.then_some(buf)))
}

/// What a select opens at a path of this name, as `opens_of_a_select` says.
fn opens_of_an_input(rt: &HostRuntime, failing: Failing, name: &str) -> Option<Opened> {
    let path = path_of(rt, name)?;
    opens_of_a_select(rt, failing, path.as_path().as_str())
}

#[test]
fn a_select_opens_one_file_once_for_reading(rt: HostRuntime) {
    assert!(rt;
        opens_of_an_input(&rt, Failing::Opening, "opened") == Some(((1, 0), Some(*b"hell")))
    );
}

#[test]
fn a_read_that_failed_is_not_made_again(rt: HostRuntime) {
    assert!(rt; opens_of_an_input(&rt, Failing::Reading, "unread") == Some(((1, 1), None)));
}

#[test]
fn a_read_of_an_input_that_is_interrupted_failed(rt: HostRuntime) {
    assert!(rt;
        opens_of_an_input(&rt, Failing::Interrupted, "interrupted") == Some(((1, 1), None))
    );
}
