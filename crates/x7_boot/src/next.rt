//! What comes after an attempt of a boot.
ghost use Rattle.std.specs.Prelude.{◌≡◌, ◌<◌, ℕ, true, false};
ghost use Rattle.x7_part.specs.Part.{PartData};
ghost use Rattle.x7_regs.specs.declared.boot_status.Kind.TheVariants.{Bench};
ghost use Rattle.x7_engine.specs.Kept.{is_fallback};
ghost use Rattle.x7_engine.specs.State.{kept_after};
ghost use Rattle.x7_engine.specs.declared.kept.Kept.{Kept as KeptData};
ghost use Rattle.x7_boot.specs.Attempt.{IsDeviceOf, BootAttempt};
ghost use Rattle.x7_regs.specs.Control.{forbids_fallback};
ghost use Rattle.x7_boot.specs.Boot.{most_iprogs, next_by, start_address};
ghost use Rattle.x7_boot.specs.declared.next.Next.TheVariants as next;

use crate::attempt::Ending;
use crate::boots::BootEnd;
use x7_engine::{Device, Kept, is_fallback};
use x7_part::LARGE_START_UNIT;
use x7_regs::{Kind, Reg, forbids_fallback};

/// The most attempts of a boot that may end by IPROG (this project's choice).
const MOST_IPROGS: u32 = 16;

/// How many bits of WBSTAR, from bit 0 up, are a start address that counts bytes.
const START_ADDRESS_BITS: u32 = 29;

/// How many bits of WBSTAR, from bit 0 up, are a start address that counts steps of `LARGE_START_UNIT` bytes.
const LARGE_START_ADDRESS_BITS: u32 = 24;

/// What comes after an attempt of a boot.
#[derive(Clone, Copy)]
pub enum Next {
    /// One attempt more, by what its device keeps and where it begins.
    Again {
        /// What the device keeps over the reset.
        kept: Kept,
        /// Where the attempt begins, in bytes.
        address: u32,
    },
    /// The end of the boot.
    Ends(BootEnd),
}

/// The place in the flash, in bytes, that WBSTAR names, for a part of which one step of the start address stands for
/// `unit` bytes: `LARGE_START_UNIT`, or else 1.
fn start_address(unit: u32, wbstar: u32) -> u32
    ensures { result ≡ start_address unit wbstar }
{
    if unit == LARGE_START_UNIT {
        LARGE_START_UNIT * (wbstar % (1 << LARGE_START_ADDRESS_BITS))
    } else {
        wbstar % (1 << START_ADDRESS_BITS)
    }
}

/// What comes after attempt `number`, from 1, by its kind, its ending and the device that it left.
pub(crate) fn next_by(device: &Device, kind: Kind, number: u32, ending: Ending) -> Next
    ensures table { (part : PartData) (t : BootAttempt) → IsDeviceOf part device.now t → t.kept.kind ≡ kind → result ≡ next_by part number t ending }
    ensures not_on_bench { (kept : KeptData) (address : ℕ) → result ≡ next.Again kept address → kept.kind ≡ Bench → ⊥ }
    ensures no_second_fallback { (kept : KeptData) (address : ℕ) → result ≡ next.Again kept address → is_fallback kept.kind ≡ true → is_fallback kind ≡ false }
    ensures most { (kept : KeptData) (address : ℕ) → result ≡ next.Again kept address → is_fallback kept.kind ≡ false → number < most_iprogs }
{
    match ending {
        Ending::Started => Next::Ends(BootEnd::Started),
        Ending::Iprog => {
            if number >= MOST_IPROGS {
                return Next::Ends(BootEnd::Loop);
            }
            let address = start_address(device.part().start_unit(), device.value(Reg::Wbstar));
            Next::Again {
                kept: kept_after(device, Kind::Iprog),
                address,
            }
        }
        Ending::Failed(_) => {
            if is_fallback(kind) || forbids_fallback(device.value(Reg::Ctl0)) {
                return Next::Ends(BootEnd::Stopped);
            }
            Next::Again {
                kept: kept_after(device, Kind::Fallback),
                address: 0,
            }
        }
    }
}

/// What an attempt of this kind keeps over the reset of `device`, which is as the attempt before left it.
fn kept_after(device: &Device, kind: Kind) -> Kept
    ensures kind { result.kind ≡ kind }
    ensures kept { (part : PartData) (t : BootAttempt) → IsDeviceOf part device.now t → result ≡ kept_after part t.kept t.wrapped t.bytes kind }
{
    Kept {
        // The contract of `Device::kept` says the kind only where the device has a past.
        kind,
        ..device.kept(kind)
    }
}
