//! A flash that is read, erased and programmed at places.
ghost use Rattle.std.specs.Prelude.{◌≡◌, ℕ, List, [], ◌∷◌, ◌++◌, ◌+◌, ◌<◌, ◌≤◌, ◌^◌, length, Some, true, false, IfErr, OnOk, OnErr, slice_range, option_map};
ghost use Rattle.x7_words.specs.Flash.{FlashFails, FlashCountsFit, FlashState, KeepsBytes, ExtentIsLength, KnownAreBytes, OnlyReads, OnlyWrites, TornFrom, FlashRefuses, IfKnown, WriteFails, cleared, erased, erased_sector, programmed, sector_size, sector_place};
ghost use Rattle.x7_words.specs.FlashHistory.{CallsFor, NoFlashFault, attach_call};
ghost use Rattle.x7_words.specs.declared.flash_call.FlashCall.TheVariants.{Read, ReadFailed, Erased, EraseFailed, Programmed, ProgramFailed};

use crate::input::{Failed, SelectFault};

/// How many bytes a sector has, which one erase sets to FF (this project's choice).
pub const SECTOR_SIZE: u64 = 65_536;

/// What an erase sets each byte to.
pub const ERASED_BYTE: u8 = 0xFF;

/// The most bytes of a flash: 128 MiB (this project's choice).
pub const FLASH_LIMIT: u64 = 134_217_728;

/// A flash: bytes at places from 0, which are read, erased and programmed once it is attached under its name.
///
/// The counts of faults, of absences and of write faults never fall. Each rises by at least one where its fault or
/// absence comes. A count that has reached the last u64 stays there, and counts as risen.
pub trait Flash {
    /// What the flash has come to.
    ghost state: { Self → FlashState };

    /// Attaches the flash of this name. After an error none is attached, and the count of absences (`Missing`) or of
    /// faults (`Failed`) has risen.
    fn attach(&mut self, name: &str) -> Result<(), SelectFault>
        ensures attached { OnOk result ((state self.new).attached ≡ true) }
        ensures refused { IfErr result (FlashRefuses (state self.old) (state self.new)) }
        ensures not_attached { OnErr result ((state self.new).attached ≡ false) }
        ensures no_fault { OnOk result (NoFlashFault (state self.old) (state self.new)) }
        ensures called { (state self.new).calls ≡ (state self.old).calls ++ attach_call name.now (state self.new).extent result ∷ [] }
        ensures stays { KeepsBytes (state self.old) (state self.new) }
        ensures known_length { ExtentIsLength (state self.new) }
        ensures bytes { KnownAreBytes (state self.new) }
        ensures fits { FlashCountsFit (state self.new) };

    /// The number of the attached flash's bytes.
    fn size(&self) -> u64
        requires { (state self.now).attached ≡ true }
        ensures extent { result ≡ (state self.now).extent }
        ensures known_length { ExtentIsLength (state self.now) }
        ensures bytes { KnownAreBytes (state self.now) };

    /// Fills the buffer with the bytes from the place on, and counts no fault. After an error the buffer may hold
    /// anything, as after a failed read of a file.
    fn read_at(&mut self, place: u64, buf: &mut [u8]) -> Result<(), Failed>
        requires attached { (state self.old).attached ≡ true }
        requires within { place + length buf.old ≤ (state self.old).extent }
        ensures read { OnOk result (IfKnown (state self.old).bytes
            (λ all. buf.new ≡ slice_range all place (place + length buf.old))) }
        ensures length { length buf.new ≡ length buf.old }
        ensures no_fault { OnOk result ((state self.new).faults ≡ (state self.old).faults) }
        ensures failed { OnErr result (FlashFails (state self.old) (state self.new)) }
        ensures read_call { OnOk result (CallsFor (Read place buf.new) (state self.old) (state self.new)) }
        ensures failed_call { OnErr result (CallsFor (ReadFailed place (length buf.old)) (state self.old) (state self.new)) }
        ensures only { OnlyReads (state self.old) (state self.new) }
        ensures known_length { ExtentIsLength (state self.new) }
        ensures fits { (state self.new).faults < 2 ^ 64 };

    /// Sets each bit of the sector of this number, counted from 0, to 1. After an error each bit of the sector is old
    /// or 1.
    fn erase(&mut self, sector: u64) -> Result<(), Failed>
        requires attached { (state self.old).attached ≡ true }
        requires within { sector_place sector + sector_size ≤ (state self.old).extent }
        ensures erased { OnOk result ((state self.new).bytes ≡ option_map (erased sector) (state self.old).bytes) }
        ensures torn { OnErr result
            (TornFrom (sector_place sector) (λ _. erased_sector) (state self.old).bytes (state self.new).bytes) }
        ensures failed { OnErr result (WriteFails (state self.old) (state self.new)) }
        ensures no_fault { OnOk result ((state self.new).write_faults ≡ (state self.old).write_faults) }
        ensures erase_call { OnOk result (CallsFor (Erased sector) (state self.old) (state self.new)) }
        ensures failed_call { OnErr result (CallsFor (EraseFailed sector) (state self.old) (state self.new)) }
        ensures only { OnlyWrites (state self.old) (state self.new) }
        ensures known_length { ExtentIsLength (state self.new) }
        ensures fits { (state self.new).write_faults < 2 ^ 64 };

    /// Makes each byte from the place on the old byte AND the given one. After an error each bit of the range is old or
    /// its target.
    fn program(&mut self, place: u64, given: &[u8]) -> Result<(), Failed>
        requires attached { (state self.old).attached ≡ true }
        requires within { place + length given.now ≤ (state self.old).extent }
        ensures programmed { OnOk result
            ((state self.new).bytes ≡ option_map (programmed place given.now) (state self.old).bytes) }
        ensures torn { OnErr result
            (TornFrom place (cleared place given.now) (state self.old).bytes (state self.new).bytes) }
        ensures failed { OnErr result (WriteFails (state self.old) (state self.new)) }
        ensures no_fault { OnOk result ((state self.new).write_faults ≡ (state self.old).write_faults) }
        ensures program_call { OnOk result (CallsFor (Programmed place given.now) (state self.old) (state self.new)) }
        ensures failed_call { OnErr result (CallsFor (ProgramFailed place given.now) (state self.old) (state self.new)) }
        ensures only { OnlyWrites (state self.old) (state self.new) }
        ensures known_length { ExtentIsLength (state self.new) }
        ensures fits { (state self.new).write_faults < 2 ^ 64 };

    /// Where the bytes are known, the size is their number.
    ghost counted: { (flash : Self) → ExtentIsLength (state flash) };
}
