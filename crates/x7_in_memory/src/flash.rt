//! A flash in memory.
ghost use Rattle.std.specs.Prelude.{◌≡◌, ◌+◌, ◌≤◌, length, slice_range, Some, true, OnOk, OnErr, IfOk, is_err, is_some, bit_and};
ghost use Rattle.x7_words.specs.Count.{IsLaterCount};
ghost use Rattle.x7_words.specs.Word.{AreBytes};
ghost use Rattle.x7_words.specs.Flash.{zip_with, cleared, erased_sector, sector_size, sector_place};
ghost use Rattle.x7_words.specs.FlashHistory.{attach_call};
ghost use Rattle.x7_ghost.specs.Answered.{erase_call, program_call, read_call};
ghost use Rattle.x7_in_memory.specs.History.{IsCallOf};
ghost use Rattle.x7_in_memory.specs.Memory.{new_flash, with_call, with_failing_call, flash_call_fails, numbered, left_byte, left_by, attach_answer, after_memory_attach, after_read_at, flash_write_fails, latest_tear, next_tear, begun, after_flash_write};

use crate::calls::Calls;
use std::alloc::Global;
use std::marker::Model;
use x7_ghost::FlashCalls;
use x7_words::{ERASED_BYTE, Failed, Flash, NoMemory, SECTOR_SIZE, SelectFault, are_bytes, raised};

/// A write that is torn: the number of its call, from 1, and the pattern of the bits that stay old.
#[derive(Clone, Copy, Drop)]
struct Torn {
    call: u64,
    pattern: u8,
}

/// A flash in memory under one name, known whole.
///
/// Each attach, read, erase and program has the next number, from 1, and those that are to fail fail. So do all calls
/// once a write was torn.
pub struct MemoryFlash {
    name: String,
    bytes: Vec<u8>,
    attached: bool,
    /// How many attaches asked for another name.
    absences: u64,
    calls: Calls,
    /// How many attaches and reads failed.
    read_faults: u64,
    /// How many erases and programs failed.
    write_faults: u64,
    tear: Option<Torn>,
    /// Whether a write was torn: all calls fail from then on.
    stopped: bool,
    /// The calls with their answers; they have no bytes.
    history: FlashCalls,
}

impl Drop for MemoryFlash {
    fn drop(self) {
        let MemoryFlash {
            name: _,
            bytes: _,
            attached: _,
            absences: _,
            calls: _,
            read_faults: _,
            write_faults: _,
            tear: _,
            stopped: _,
            history: _,
        } = self;
    }
}

impl Model for MemoryFlash {
    ghost use Rattle.std.specs.Prelude.{◌<◌, ◌^◌, string_bytes};
    ghost use Rattle.x7_in_memory.specs.Memory.{FlashInMemory};
    ghost use Rattle.x7_in_memory.specs.Tearing.{tear_of};

    ghost Value = { FlashInMemory };

    ghost view = { λ f. record {
      name = string_bytes f.name;
      bytes = f.bytes.items;
      attached = f.attached;
      absences = f.absences;
      calls = f.calls;
      read_faults = f.read_faults;
      write_faults = f.write_faults;
      tear = tear_of f.tear;
      stopped = f.stopped;
      history = f.history;
    } };

    ghost invariant = { λ f. (f.absences < 2 ^ 64) × (f.read_faults < 2 ^ 64) × (f.write_faults < 2 ^ 64) };
}

/// What a write leaves of a byte, torn by a pattern or not.
fn left_byte(torn: Option<u8>, old: u8, target: u8) -> u8
    ensures { result ≡ left_byte torn old target }
{
    match torn {
        None => target,
        Some(pattern) => old & pattern | target ^ target & pattern,
    }
}

/// Erases the bytes of a sector in place, torn by a pattern or not.
fn erase_in_place(bytes: &mut [u8], torn: Option<u8>)
    requires { length bytes.old ≡ sector_size }
    ensures { bytes.new ≡ left_by torn bytes.old erased_sector }
{
    for i in 0..bytes.len() {
        bytes[i] = left_byte(torn, bytes[i], ERASED_BYTE);
    }
}

/// Programs the given bytes in place, torn by a pattern or not: each bit stays 1 where the given one is 1.
fn program_in_place(bytes: &mut [u8], given: &[u8], torn: Option<u8>)
    requires { length bytes.old ≡ length given.now }
    ensures { bytes.new ≡ left_by torn bytes.old (zip_with bit_and bytes.old given.now) }
{
    for i in 0..given.len() {
        bytes[i] = left_byte(torn, bytes[i], bytes[i] & given[i]);
    }
}

/// What a write answers that wasn't refused: an error where it was torn.
fn answer_of(torn: Option<u8>) -> Result<(), Failed>
    ensures { is_err result ≡ is_some torn }
{
    match torn {
        None => Ok(()),
        Some(_) => Err(Failed),
    }
}

impl MemoryFlash {
    /// A flash of these bytes under the name, not attached.
    pub fn new(alloc: Global, name: &str, bytes: &[u8]) -> Result<MemoryFlash, NoMemory>
        ensures { IfOk result (λ f. f ≡ new_flash name.now bytes.now) }
    {
        Ok(MemoryFlash {
            name: String::from_str(alloc, name)?,
            bytes: Vec::from_slice(alloc, bytes)?,
            attached: false,
            absences: 0,
            calls: Calls::new(alloc),
            read_faults: 0,
            write_faults: 0,
            tear: None,
            stopped: false,
            history: FlashCalls::new(),
        })
    }

    /// The call of this number, from 1, is to fail.
    pub fn fail_at(&mut self, call: u64) -> Result<(), NoMemory>
        ensures planned { OnOk result (self.new ≡ record self.old { calls = with_failing_call self.old.calls call }) }
        ensures unchanged { OnErr result (self.new ≡ self.old) }
    {
        self.calls.fail_at(call)
    }

    /// The call of this number, from 1, if it is an erase or a program that isn't refused, is to leave each byte of its
    /// range with the old one's bits where the pattern has a 1 and the target's where it has a 0. It fails, and so do
    /// all later calls. Only the call that was given last is torn.
    pub fn tear_at(&mut self, call: u64, pattern: u8)
        ensures { self.new ≡ record self.old { tear = Some (record { call = call; pattern = pattern }) } }
    {
        self.tear = Some(Torn { call, pattern });
    }

    /// The number of the latest call, 0 before the first. It stops at 2^64 - 1.
    pub fn calls(&self) -> u64
        ensures { result ≡ self.now.calls.last }
    {
        self.calls.last()
    }

    /// The flash's bytes.
    pub fn bytes(&self) -> &[u8]
        ensures { result.now ≡ self.now.bytes }
    {
        self.bytes.as_slice()
    }

    /// Takes the next number for a call; an error where the call is to fail, or a write was torn before.
    fn next_call(&mut self) -> Result<(), Failed>
        ensures answer { is_err result ≡ flash_call_fails self.old }
        ensures after { self.new ≡ record self.old { calls = numbered self.old.calls } }
    {
        self.calls.next()?;
        if self.stopped {
            return Err(Failed);
        }
        Ok(())
    }

    /// The pattern by which the latest call, a write, is torn; none where it isn't the call that is to be torn.
    fn torn(&self) -> Option<u8>
        ensures { result ≡ latest_tear self.now }
    {
        let torn = self.tear?;
        if torn.call == self.calls.last() {
            Some(torn.pattern)
        } else {
            None
        }
    }

    /// Begins a write: its call has the next number. It is refused where that call is to fail, or a write was torn
    /// before; else the pattern comes back by which it is torn, if it is. Refused or torn it is a fault, and once it is
    /// torn all later calls fail.
    fn begin_write(&mut self) -> Result<Option<u8>, Failed>
        ensures answer { is_err result ≡ flash_call_fails self.old }
        ensures torn { IfOk result (λ torn. torn ≡ next_tear self.old) }
        ensures begun { self.new ≡ begun self.old }
        ensures write_faults { IsLaterCount self.old.write_faults self.new.write_faults }
    {
        let Ok(()) = self.next_call() else {
            self.write_faults = raised(self.write_faults);
            return Err(Failed);
        };
        let Some(pattern) = self.torn() else {
            return Ok(None);
        };
        self.stopped = true;
        self.write_faults = raised(self.write_faults);
        Ok(Some(pattern))
    }

    /// `attach` but for keeping the call.
    fn try_attach(&mut self, name: &str) -> Result<(), SelectFault>
        ensures answer { result ≡ attach_answer self.old name.now }
        ensures after { self.new ≡ after_memory_attach self.old name.now }
        ensures bytes { AreBytes self.new.bytes }
        ensures faults { IsLaterCount self.old.read_faults self.new.read_faults }
        ensures absences { IsLaterCount self.old.absences self.new.absences }
    {
        are_bytes(&self.bytes);
        self.attached = false;
        let is_own = self.name.as_str() == name;
        let Ok(()) = self.next_call() else {
            self.read_faults = raised(self.read_faults);
            return Err(SelectFault::Failed);
        };
        if !is_own {
            self.absences = raised(self.absences);
            return Err(SelectFault::Missing);
        }
        self.attached = true;
        Ok(())
    }

    /// `read_at` but for keeping the call.
    fn try_read(&mut self, place: u64, buf: &mut [u8]) -> Result<(), Failed>
        requires attached { self.old.attached ≡ true }
        requires within { place + length buf.old ≤ length self.old.bytes }
        ensures answer { is_err result ≡ flash_call_fails self.old }
        ensures read { OnOk result (buf.new ≡
            slice_range self.old.bytes place (place + length buf.old)) }
        ensures same_buffer { OnErr result (buf.new ≡ buf.old) }
        ensures length { length buf.new ≡ length buf.old }
        ensures after { self.new ≡ after_read_at self.old }
        ensures faults { IsLaterCount self.old.read_faults self.new.read_faults }
    {
        let Ok(()) = self.next_call() else {
            self.read_faults = raised(self.read_faults);
            return Err(Failed);
        };
        let place = place as usize;
        buf.copy_from_slice(&self.bytes[place..place + buf.len()]);
        Ok(())
    }

    /// `erase` but for keeping the call.
    fn try_erase(&mut self, sector: u64) -> Result<(), Failed>
        requires attached { self.old.attached ≡ true }
        requires within { sector_place sector + sector_size ≤ length self.old.bytes }
        ensures answer { is_err result ≡ flash_write_fails self.old }
        ensures after { self.new ≡ after_flash_write self.old (sector_place sector) erased_sector }
        ensures write_faults { IsLaterCount self.old.write_faults self.new.write_faults }
    {
        let torn = self.begin_write()?;
        let bytes = self.bytes.as_mut_slice();
        let place = (sector * SECTOR_SIZE) as usize;
        erase_in_place(&mut bytes[place..place + SECTOR_SIZE as usize], torn);
        answer_of(torn)
    }

    /// `program` but for keeping the call.
    fn try_program(&mut self, place: u64, given: &[u8]) -> Result<(), Failed>
        requires attached { self.old.attached ≡ true }
        requires within { place + length given.now ≤ length self.old.bytes }
        ensures answer { is_err result ≡ flash_write_fails self.old }
        ensures after { self.new ≡ after_flash_write self.old place (cleared place given.now self.old.bytes) }
        ensures write_faults { IsLaterCount self.old.write_faults self.new.write_faults }
    {
        let torn = self.begin_write()?;
        let place = place as usize;
        program_in_place(&mut self.bytes[place..place + given.len()], given, torn);
        answer_of(torn)
    }
}

impl Flash for MemoryFlash {
    ghost use Rattle.std.proofs.Common.{refl};
    ghost use Rattle.x7_in_memory.specs.Memory.{known_flash};

    ghost state = { known_flash };

    ghost counted = { λ _. refl };

    fn attach(&mut self, name: &str) -> Result<(), SelectFault>
        ensures answer { result ≡ attach_answer self.old name.now }
        ensures after { self.new ≡ with_call (attach_call name.now (length self.old.bytes) result)
            (after_memory_attach self.old name.now) }
        ensures is_call { IsCallOf (attach_call name.now (length self.old.bytes) result) self.old self.new }
        ensures bytes { AreBytes self.new.bytes }
        ensures faults { IsLaterCount self.old.read_faults self.new.read_faults }
        ensures absences { IsLaterCount self.old.absences self.new.absences }
    {
        let answer = self.try_attach(name);
        self.history.attach(name, self.bytes.len() as u64, answer);
        answer
    }

    fn size(&self) -> u64
        ensures extent { result ≡ length self.now.bytes }
        ensures bytes { AreBytes self.now.bytes }
    {
        are_bytes(&self.bytes);
        self.bytes.len() as u64
    }

    fn read_at(&mut self, place: u64, buf: &mut [u8]) -> Result<(), Failed>
        requires attached { self.old.attached ≡ true }
        requires within { place + length buf.old ≤ length self.old.bytes }
        ensures answer { is_err result ≡ flash_call_fails self.old }
        ensures read { OnOk result (buf.new ≡
            slice_range self.old.bytes place (place + length buf.old)) }
        ensures same_buffer { OnErr result (buf.new ≡ buf.old) }
        ensures length { length buf.new ≡ length buf.old }
        ensures after { self.new ≡ with_call (read_call place buf.new result)
            (after_read_at self.old) }
        ensures is_call { IsCallOf (read_call place buf.new result) self.old self.new }
        ensures faults { IsLaterCount self.old.read_faults self.new.read_faults }
    {
        let answer = self.try_read(place, buf);
        self.history.read_at(place, buf, answer);
        answer
    }

    fn erase(&mut self, sector: u64) -> Result<(), Failed>
        requires attached { self.old.attached ≡ true }
        requires within { sector_place sector + sector_size ≤ length self.old.bytes }
        ensures answer { is_err result ≡ flash_write_fails self.old }
        ensures after { self.new ≡ with_call (erase_call sector result)
            (after_flash_write self.old (sector_place sector) erased_sector) }
        ensures is_call { IsCallOf (erase_call sector result) self.old self.new }
        ensures write_faults { IsLaterCount self.old.write_faults self.new.write_faults }
    {
        let answer = self.try_erase(sector);
        self.history.erase(sector, answer);
        answer
    }

    fn program(&mut self, place: u64, given: &[u8]) -> Result<(), Failed>
        requires attached { self.old.attached ≡ true }
        requires within { place + length given.now ≤ length self.old.bytes }
        ensures answer { is_err result ≡ flash_write_fails self.old }
        ensures after { self.new ≡ with_call (program_call place given.now result)
            (after_flash_write self.old place (cleared place given.now self.old.bytes)) }
        ensures is_call { IsCallOf (program_call place given.now result) self.old self.new }
        ensures write_faults { IsLaterCount self.old.write_faults self.new.write_faults }
    {
        let answer = self.try_program(place, given);
        self.history.program(place, given, answer);
        answer
    }
}
