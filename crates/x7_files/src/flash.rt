//! A file as a flash.
ghost use Rattle.std.specs.Prelude.{◌≡◌, ◌+◌, ◌<◌, ◌≤◌, ◌^◌, [], ◌∷◌, ◌++◌, length, bit_and, is_some, None, Some, true, IfErr, IfOk, OnOk, OnErr};
ghost use Rattle.x7_words.specs.Count.{IsLaterCount, raised};
ghost use Rattle.x7_files.specs.FileCalls.{keep_answered};
ghost use Rattle.x7_files.specs.File.{file_tells, ReadsFrom, WhileOpen};
ghost use Rattle.x7_files.specs.Flash.{after_attach, known_flash, AsksReadAndWriteAlone, ClearsFrom, EndsAt, ErasesFrom, IsExtent, ProgramsFrom, TriesWrite};
ghost use Rattle.x7_files.specs.Refusal.{RefusedFor};
ghost use Rattle.x7_ghost.specs.Answered.{erase_call, program_call, read_call};
ghost use Rattle.x7_words.specs.Flash.{sector_size, sector_place, zip_with};

use crate::file::{CalledFile, read_from, write_from};
use crate::file_call::{keep_once, no_calls};
use crate::refusal::count_refusal;
use std::fs::{self, OpenFile, OpenOptions};
use std::io::{self, ErrorKind, Read, Seek, SeekFrom, Write};
use std::marker::Model;
use std::rt::Files;
use x7_ghost::FlashCalls;
use x7_words::{ERASED_BYTE, Failed, Flash, SECTOR_SIZE, SelectFault, raised};

/// The number of a file's bytes, which is the place of its end; an error for a folder.
fn extent_of<F: OpenFile + Seek>(file: &mut F) -> io::Result<u64>
    ensures { IfOk result (λ extent. EndsAt (file_tells F.stream_position F.stream_bytes) extent file.old file.new) }
{
    if file.metadata()?.is_dir() {
        return Err(io::Error::from(ErrorKind::IsADirectory));
    }
    file.seek(SeekFrom::End(0))
}

/// The most bytes that programming a flash reads and writes at once.
const PIECE_SIZE: usize = 4096;

/// The options that a flash file is opened with where it may be written.
fn flash_options() -> OpenOptions
    ensures { AsksReadAndWriteAlone result }
{
    let mut options = OpenOptions::new();
    options.read(true);
    options.write(true);
    options
}

/// Opens a file with these options, or for reading alone where that fails.
fn open_flash<R: Files>(rt: &R, options: &OpenOptions, name: &str) -> io::Result<R::File>
    requires { AsksReadAndWriteAlone options.now }
{
    match options.open(rt, name) {
        Ok(file) => Ok(file),
        Err(_) => fs::open(rt, name),
    }
}

/// Opens a file as a flash, and says the number of its bytes.
fn open_sized<R: Files>(rt: &R, name: &str) -> io::Result<(CalledFile<R::File>, u64)>
    ensures { IfOk result (λ opened. IsExtent (file_tells R.File.stream_position R.File.stream_bytes) opened.1 (Some opened.0)) }
{
    let mut file = open_flash(rt, &flash_options(), name)?;
    let extent = extent_of(&mut file)?;
    let called = CalledFile {
        file,
        calls: no_calls(),
    };
    Ok((called, extent))
}

/// Waits until the disk has what was written to a file.
fn keep<F: OpenFile + Drop>(file: &mut CalledFile<F>) -> Result<(), Failed>
    ensures { file.new ≡ record file.old { calls = file.old.calls ++ keep_answered result ∷ [] } }
{
    keep_once(&file.file, &mut file.calls)
}

/// Makes the bytes of a sector from the place on FF, and waits until they are kept.
fn erase_from<F: Write + Seek + OpenFile + Drop>(
    file: &mut CalledFile<F>,
    place: u64,
) -> Result<(), Failed>
    ensures { ErasesFrom (file_tells F.stream_position F.contents) place result file.old file.new }
{
    let ones = [ERASED_BYTE; SECTOR_SIZE as usize];
    match write_from(file, place, &ones) {
        Ok(()) => {}
        Err(Failed) => return Err(Failed),
    }
    keep(file)
}

/// Makes each byte of `bytes` the old one AND the given one at the same place.
fn clear_bits(bytes: &mut [u8], given: &[u8])
    requires { length bytes.old ≡ length given.now }
    ensures { bytes.new ≡ zip_with bit_and bytes.old given.now }
{
    for i in 0..given.len() {
        bytes[i] &= given[i];
    }
}

/// Makes each byte of a piece from the place on the old one AND the given one.
fn clear_piece<F: Read + Write + Seek + Drop>(
    file: &mut CalledFile<F>,
    place: u64,
    given: &[u8],
) -> Result<(), Failed>
    requires { length given.now ≤ PIECE_SIZE }
    ensures { ClearsFrom (file_tells F.stream_position F.remaining) (file_tells F.stream_position F.contents)
        place given.now result file.old file.new }
{
    let mut buffer = [0; PIECE_SIZE];
    let piece = &mut buffer[..given.len()];
    match read_from(file, place, piece) {
        Ok(()) => {}
        Err(Failed) => return Err(Failed),
    }
    clear_bits(piece, given);
    write_from(file, place, piece)
}

/// Makes each byte from the place on the old one AND the given one, piece by piece, and waits until they are kept.
fn program_from<F: Read + Write + Seek + OpenFile + Drop>(
    file: &mut CalledFile<F>,
    place: u64,
    given: &[u8],
) -> Result<(), Failed>
    requires { place + length given.now < 2 ^ 64 }
    ensures { ProgramsFrom (file_tells F.stream_position F.remaining) (file_tells F.stream_position F.contents)
        place given.now result file.old file.new }
{
    let mut done = 0;
    while done < given.len() {
        let count = PIECE_SIZE.min(given.len() - done);
        match clear_piece(file, place + done as u64, &given[done..done + count]) {
            Ok(()) => done += count,
            Err(Failed) => return Err(Failed),
        }
    }
    keep(file)
}

/// A file by its path as a flash; nothing of what it holds is known. The size is that of the file as it was attached.
///
/// The file is opened for writing too, where that is allowed; where it isn't, each erase and each program is a fault.
///
/// `Missing` is a path where no file is. A folder, missing rights to read and every other error is a fault. Each count
/// stops at 2^64 - 1.
#[derive(Drop)]
pub struct FileFlash<'r, R: Files> {
    rt: &'r R,
    // the attached file, if any is
    file: Option<CalledFile<R::File>>,
    // why the last attach opened no file
    refusal: Option<ErrorKind>,
    // how many bytes the file had as it was attached
    extent: u64,
    // how many attaches and reads failed
    faults: u64,
    // how many attaches found no file
    absences: u64,
    // how many erases and programs failed
    write_faults: u64,
    // its calls with their answers; they have no bytes
    calls: FlashCalls,
}

impl<'r, R: Files> Model for FileFlash<'r, R> {
    ghost use Rattle.std.specs.Prelude.{◌<◌, ◌^◌};
    ghost use Rattle.x7_files.specs.Flash.{RealFlash};
    ghost use Rattle.x7_files.specs.declared.file.CalledFile.{CalledFile};

    ghost Value = { RealFlash (CalledFile R.File) };

    ghost view = { λ f. record {
      file = f.file;
      refusal = f.refusal;
      extent = f.extent;
      faults = f.faults;
      absences = f.absences;
      write_faults = f.write_faults;
      calls = f.calls;
    } };

    ghost invariant = { λ f. (f.extent < 2 ^ 64) × (f.faults < 2 ^ 64) × (f.absences < 2 ^ 64) × (f.write_faults < 2 ^ 64) };
}

impl<'r, R: Files> FileFlash<'r, R> {
    /// A flash over the files of the runtime, with none attached yet, and no fault or absence counted.
    pub fn new(rt: &'r R) -> FileFlash<'r, R>
        ensures { result ≡ record { file = None; refusal = None; extent = 0; faults = 0; absences = 0; write_faults = 0; calls = [] } }
    {
        FileFlash {
            rt,
            file: None,
            refusal: None,
            extent: 0,
            faults: 0,
            absences: 0,
            write_faults: 0,
            calls: FlashCalls::new(),
        }
    }
}

impl<'r, R: Files> Flash for FileFlash<'r, R> {
    ghost state = { known_flash };

    ghost counted = { λ _. tt };

    fn attach(&mut self, name: &str) -> Result<(), SelectFault>
        ensures after { self.new ≡ after_attach self.old name.now result self.new }
        ensures extent { OnOk result
            (IsExtent (file_tells R.File.stream_position R.File.stream_bytes) self.new.extent self.new.file) }
        ensures refused { IfErr result (RefusedFor self.new.refusal) }
        ensures faults { IsLaterCount self.old.faults self.new.faults }
        ensures absences { IsLaterCount self.old.absences self.new.absences }
    {
        self.file = None;
        self.refusal = None;
        match open_sized(self.rt, name) {
            Ok((file, extent)) => {
                self.file = Some(file);
                self.extent = extent;
                self.calls.attach(name, extent, Ok(()));
                Ok(())
            }
            Err(error) => {
                let kind = error.kind();
                self.refusal = Some(kind);
                let fault = count_refusal(kind, &mut self.faults, &mut self.absences);
                self.calls.attach(name, self.extent, Err(fault));
                Err(fault)
            }
        }
    }

    fn size(&self) -> u64
        requires { is_some self.now.file ≡ true }
        ensures { result ≡ self.now.extent }
    {
        self.extent
    }

    fn read_at(&mut self, place: u64, buf: &mut [u8]) -> Result<(), Failed>
        requires attached { is_some self.old.file ≡ true }
        requires within { place + length buf.old ≤ self.old.extent }
        ensures read { WhileOpen
            (ReadsFrom (file_tells R.File.stream_position R.File.remaining) place buf.new result) self.old.file self.new.file }
        ensures length { length buf.new ≡ length buf.old }
        ensures is_open { is_some self.new.file ≡ true }
        ensures no_fault { OnOk result (self.new ≡
            record self.old { file = self.new.file; calls = self.old.calls ++ read_call place buf.new result ∷ [] }) }
        ensures failed { OnErr result (self.new ≡
            record self.old { file = self.new.file; faults = raised self.old.faults; calls = self.old.calls ++ read_call place buf.new result ∷ [] }) }
        ensures faults { IsLaterCount self.old.faults self.new.faults }
    {
        let Some(file) = &mut self.file else {
            unreachable!()
        };
        match read_from(file, place, buf) {
            Ok(()) => {
                self.calls.read_at(place, buf, Ok(()));
                Ok(())
            }
            Err(Failed) => {
                self.calls.read_at(place, buf, Err(Failed));
                self.faults = raised(self.faults);
                Err(Failed)
            }
        }
    }

    fn erase(&mut self, sector: u64) -> Result<(), Failed>
        requires attached { is_some self.old.file ≡ true }
        requires within { sector_place sector + sector_size ≤ self.old.extent }
        ensures { TriesWrite (ErasesFrom (file_tells R.File.stream_position R.File.contents) (sector_place sector))
            (erase_call sector) self.old result self.new }
    {
        let Some(file) = &mut self.file else {
            unreachable!()
        };
        match erase_from(file, sector * SECTOR_SIZE) {
            Ok(()) => {
                self.calls.erase(sector, Ok(()));
                Ok(())
            }
            Err(Failed) => {
                self.calls.erase(sector, Err(Failed));
                self.write_faults = raised(self.write_faults);
                Err(Failed)
            }
        }
    }

    fn program(&mut self, place: u64, given: &[u8]) -> Result<(), Failed>
        requires attached { is_some self.old.file ≡ true }
        requires within { place + length given.now ≤ self.old.extent }
        ensures { TriesWrite (ProgramsFrom (file_tells R.File.stream_position R.File.remaining)
            (file_tells R.File.stream_position R.File.contents) place given.now) (program_call place given.now) self.old result self.new }
    {
        let Some(file) = &mut self.file else {
            unreachable!()
        };
        match program_from(file, place, given) {
            Ok(()) => {
                self.calls.program(place, given, Ok(()));
                Ok(())
            }
            Err(Failed) => {
                self.calls.program(place, given, Err(Failed));
                self.write_faults = raised(self.write_faults);
                Err(Failed)
            }
        }
    }
}
