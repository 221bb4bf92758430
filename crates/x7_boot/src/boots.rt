//! The boot of a device from a flash.
ghost use Rattle.std.specs.Prelude.{◌≡◌, ◌<◌, ◌≤◌, ◌↔◌, [], true, Err, IfOk, IsErrOf, OnOk};
ghost use Rattle.x7_words.specs.Flash.{FlashFails, FlashState, IfKnown, OnlyReads};
ghost use Rattle.x7_words.specs.Word.{AreBytes};
ghost use Rattle.x7_engine.specs.Standing.{NoWordDue};
ghost use Rattle.x7_boot.specs.BlockReads.{EndsBy, HasRead, HasReadBlocks};
ghost use Rattle.x7_boot.specs.Boot.{BootsTo, BootedState, IsBoot, ReadsInBoot};
ghost use Rattle.x7_boot.specs.Image.{flash_limit};
ghost use Rattle.x7_boot.specs.Pages.{FaultsCounted};
ghost use Rattle.x7_boot.specs.Reads.{HasCalled, IfAgrees, IsSince, answers_since};

use crate::attempt::Ending;
use crate::cache::PageCache;
use crate::fault::BootFault;
use crate::flash_attempt::try_once;
use crate::next::{Next, next_by};
use std::alloc::Global;
use std::marker::Model;
use x7_engine::{Device, Kept};
use x7_part::Part;
use x7_regs::Kind;
use x7_words::{FLASH_LIMIT, Flash};

/// An attempt of a boot.
#[derive(Clone, Copy)]
pub struct Tried {
    /// What began the attempt.
    pub kind: Kind,
    /// Where in the flash the attempt began, in bytes.
    pub address: u32,
    /// How the attempt ended.
    pub ending: Ending,
}

/// How a boot ended.
#[derive(Clone, Copy)]
pub enum BootEnd {
    /// The last attempt started.
    Started,
    /// The last attempt failed, and no fallback came.
    Stopped,
    /// Sixteen attempts ended by IPROG.
    Loop,
}

/// What a boot came to.
pub struct Booted {
    attempts: Vec<Tried>,
    end: BootEnd,
    device: Device,
}

impl Drop for Booted {
    fn drop(self) {
        let Booted {
            attempts: _,
            end: _,
            device: _,
        } = self;
    }
}

impl Model for Booted {
    ghost use Rattle.x7_boot.specs.Boot.{BootedState};

    ghost Value = { BootedState };

    ghost view = { λ b. record { attempts = b.attempts.items; end = b.end; device = b.device } };
}

impl Booted {
    /// The attempts of the boot, in order.
    pub fn attempts(&self) -> &[Tried]
        ensures { result.now ≡ self.now.attempts }
    {
        &self.attempts
    }

    /// How the boot ended.
    pub fn end(&self) -> BootEnd
        ensures { result ≡ self.now.end }
    {
        self.end
    }

    /// The device, as the last attempt left it.
    pub fn device(&self) -> &Device
        ensures { result.now ≡ self.now.device }
    {
        &self.device
    }

    /// The device alone, as the last attempt left it.
    pub fn into_device(self) -> Device
        ensures { result ≡ self.device }
    {
        let Booted {
            attempts: _,
            end: _,
            device,
        } = self;
        device
    }
}

/// What the device of the first attempt keeps over its reset: nothing but the kind, since power has just come.
const AT_POWER: Kept = Kept {
    wbstar: 0,
    timer: 0,
    bspi: 0,
    kind: Kind::Power,
    before: None,
};

/// Tries attempt after attempt with one device, which each attempt resets, and adds each to `attempts`, up to the end
/// of the boot.
fn try_all<F: Flash>(
    device: &mut Device,
    flash: &mut F,
    pages: &mut PageCache,
    attempts: &mut Vec<Tried>,
) -> Result<BootEnd, BootFault>
    // the flash as the boot found it
    ghost first: { FlashState }
    requires since { IsSince first (F.state flash.old) }
    requires attached { (F.state flash.old).attached ≡ true }
    requires limit { (F.state flash.old).extent ≤ flash_limit }
    requires no_pages { pages.old.pages.entries ≡ [] }
    requires none_tried { attempts.old.items ≡ [] }
    requires kept_pages { HasRead (answers_since first (F.state flash.old)) pages.old.pages }
    ensures booted { IfOk result (λ end. BootsTo device.old.part (answers_since first (F.state flash.new))
        (record { attempts = attempts.new.items; end = end; device = device.new })) }
    ensures called { HasCalled (ReadsInBoot device.old.part (answers_since first (F.state flash.new))) (F.state flash.old) (F.state flash.new) }
    ensures faults { FaultsCounted (F.state flash.old).faults (F.state flash.new).faults result }
    ensures only_reads { OnlyReads (F.state flash.old) (F.state flash.new) }
    ensures blocks { HasReadBlocks (answers_since first (F.state flash.new)) }
    ensures ends { EndsBy result (answers_since first (F.state flash.new)).calls }
{
    let mut kept = AT_POWER;
    let mut address = 0;
    let mut number = 0;
    'attempts: loop {
        let ending = try_once(device, flash, pages, kept, address)?;
        let Ok(()) = attempts.push(Tried {
            kind: kept.kind,
            address,
            ending,
        }) else {
            return Err(BootFault::NoMemory);
        };
        number += 1;
        match next_by(device, kept.kind, number, ending) {
            Next::Again {
                kept: next_kept,
                address: next_address,
            } => {
                kept = next_kept;
                address = next_address;
            }
            Next::Ends(end) => return Ok(end),
        }
    }
}

/// Boots a device of a part from a flash that isn't too large.
fn boot_part<F: Flash>(alloc: Global, part: &Part, flash: &mut F) -> Result<Booted, BootFault>
    requires attached { (F.state flash.old).attached ≡ true }
    requires limit { (F.state flash.old).extent ≤ flash_limit }
    ensures booted { IfOk result (BootsTo part.now (answers_since (F.state flash.old) (F.state flash.new))) }
    ensures called { HasCalled (ReadsInBoot part.now (answers_since (F.state flash.old) (F.state flash.new))) (F.state flash.old) (F.state flash.new) }
    ensures faults { FaultsCounted (F.state flash.old).faults (F.state flash.new).faults result }
    ensures only_reads { OnlyReads (F.state flash.old) (F.state flash.new) }
    ensures blocks { HasReadBlocks (answers_since (F.state flash.old) (F.state flash.new)) }
    ensures ends { EndsBy result (answers_since (F.state flash.old) (F.state flash.new)).calls }
{
    let Ok(mut pages) = PageCache::new(alloc) else {
        return Err(BootFault::NoMemory);
    };
    let Ok(mut device) = Device::new(alloc, part) else {
        return Err(BootFault::NoMemory);
    };
    let mut attempts = Vec::new(alloc);
    let end = try_all(&mut device, flash, &mut pages, &mut attempts)?;
    Ok(Booted {
        attempts,
        end,
        device,
    })
}

/// Boots a device of a part from a flash: attempt after attempt, as the table of UG470, MultiBoot and fallback, leads
/// from the end of one to the next. Nothing is read of a flash that is too large.
pub fn boot<F: Flash>(alloc: Global, part: &Part, flash: &mut F) -> Result<Booted, BootFault>
    requires attached { (F.state flash.old).attached ≡ true }
    ensures as_read { IfOk result (λ booted. IfAgrees (answers_since (F.state flash.old) (F.state flash.new)) (λ all. AreBytes all → IsBoot part.now all booted)) }
    ensures booted { IfOk result (λ booted. IfKnown (F.state flash.old).bytes (λ all. AreBytes all → IsBoot part.now all booted)) }
    ensures called { HasCalled (ReadsInBoot part.now (answers_since (F.state flash.old) (F.state flash.new))) (F.state flash.old) (F.state flash.new) }
    ensures blocks { HasReadBlocks (answers_since (F.state flash.old) (F.state flash.new)) }
    ensures ends { EndsBy result (answers_since (F.state flash.old) (F.state flash.new)).calls }
    ensures part { IfOk result (λ booted. booted.device.part ≡ part.now) }
    ensures no_word_due { IfOk result (λ booted. NoWordDue booted.device) }
    ensures failed { IsErrOf result BootFault.Failed → FlashFails (F.state flash.old) (F.state flash.new) }
    ensures no_fault { OnOk result ((F.state flash.new).faults ≡ (F.state flash.old).faults) }
    ensures no_memory { IsErrOf result BootFault.NoMemory → (F.state flash.new).faults ≡ (F.state flash.old).faults }
    ensures too_large { (result ≡ Err BootFault.TooLarge) ↔ (flash_limit < (F.state flash.old).extent) }
    ensures unread { IsErrOf result BootFault.TooLarge → F.state flash.new ≡ F.state flash.old }
    ensures only_reads { OnlyReads (F.state flash.old) (F.state flash.new) }
{
    if flash.size() > FLASH_LIMIT {
        return Err(BootFault::TooLarge);
    }
    boot_part(alloc, part, flash)
}
