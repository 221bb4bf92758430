//! An attempt over a flash: a device takes the flash's bytes, page by page.
ghost use Rattle.std.specs.Prelude.{◌≡◌, ◌≤◌, ℕ, List, true, false, IfOk, OnOk};
ghost use Rattle.x7_regs.specs.declared.boot_status.Kind.TheVariants.{Bench};
ghost use Rattle.x7_regs.specs.declared.boot_status.Cause.TheVariants.{Wrap};
ghost use Rattle.x7_words.specs.Flash.{FlashState, OnlyReads};
ghost use Rattle.x7_words.specs.Word.{AreBytes};
ghost use Rattle.x7_part.specs.Part.{PartData};
ghost use Rattle.x7_engine.specs.declared.kept.Kept.{Kept as KeptData};
ghost use Rattle.x7_engine.specs.Standing.{DeviceStandsFor, MayWrap, NoWordDue, with_wrap};
ghost use Rattle.x7_boot.specs.Attempt.{IsUnderWay, AttemptEnds, attempt_at};
ghost use Rattle.x7_boot.specs.BlockReads.{EndsBy, HasRead, HasReadBlocks};
ghost use Rattle.x7_boot.specs.Boot.{ReadsInAttempt};
ghost use Rattle.x7_boot.specs.Image.{flash_limit};
ghost use Rattle.x7_boot.specs.Pages.{ArePages, FaultsCounted};
ghost use Rattle.x7_boot.specs.Reads.{FlashAnswers, HasCalled, IfAgrees, IsSince, answers_since};
ghost use Rattle.x7_boot.specs.declared.attempt.Ending.TheVariants as ending;

use crate::attempt::{AttemptStep, Ending, take_page};
use crate::cache::PageCache;
use crate::fault::BootFault;
use crate::pages::PAGE_SIZE;
use x7_engine::{Device, Kept};
use x7_regs::Cause;
use x7_words::Flash;

/// Ends an attempt that nothing ended up to the flash's end: the attempt has failed by the wrap of its address.
fn run_out(device: &mut Device) -> Ending
    requires { MayWrap device.old }
    ensures ending { result ≡ ending.Failed Wrap }
    ensures device { device.new ≡ with_wrap device.old }
    ensures no_word_due { NoWordDue device.new }
    ensures wrapped { (part : PartData) (kept : KeptData) (bytes : List ℕ) → DeviceStandsFor part kept false device.old bytes → DeviceStandsFor part kept true device.new bytes }
{
    device.wrap();
    Ending::Failed(Cause::Wrap)
}

/// Resets a device for an attempt at this address.
fn begin(device: &mut Device, kept: Kept, address: u32)
    ensures { (flash : FlashAnswers) → IsUnderWay (attempt_at device.old.part kept address) flash device.new address }
{
    device.reset(kept);
}

/// Resets a device and gives it the bytes of a flash from an address on, up to what ends the attempt.
pub(crate) fn try_once<F: Flash>(
    device: &mut Device,
    flash: &mut F,
    pages: &mut PageCache,
    kept: Kept,
    address: u32,
) -> Result<Ending, BootFault>
    // the flash as the boot found it
    ghost first: { FlashState }
    requires pages { ArePages (answers_since first (F.state flash.old)) pages.old.pages.entries }
    requires since { IsSince first (F.state flash.old) }
    requires limit { (F.state flash.old).extent ≤ flash_limit }
    requires attached { (F.state flash.old).attached ≡ true }
    requires not_on_bench { kept.kind ≡ Bench → ⊥ }
    requires kept_pages { HasRead (answers_since first (F.state flash.old)) pages.old.pages }
    ensures pages { ArePages (answers_since first (F.state flash.new)) pages.new.pages.entries }
    ensures tried { IfOk result (λ ending. IfAgrees (answers_since first (F.state flash.new)) (λ all. AreBytes all → AttemptEnds (attempt_at device.old.part kept address) all device.new ending)) }
    ensures called { HasCalled (ReadsInAttempt (attempt_at device.old.part kept address) (answers_since first (F.state flash.new))) (F.state flash.old) (F.state flash.new) }
    ensures part { IfOk result (λ ending. device.new.part ≡ device.old.part) }
    ensures no_word_due { IfOk result (λ ending. NoWordDue device.new) }
    ensures faults { FaultsCounted (F.state flash.old).faults (F.state flash.new).faults result }
    ensures only_reads { OnlyReads (F.state flash.old) (F.state flash.new) }
    ensures kept_pages { OnOk result (HasRead (answers_since first (F.state flash.new)) pages.new.pages) }
    ensures blocks { HasReadBlocks (answers_since first (F.state flash.new)) }
    ensures ends { EndsBy result (answers_since first (F.state flash.new)).calls }
{
    let size = flash.size();
    begin(device, kept, address);
    let mut place = u64::from(address);
    'pages: loop {
        if place >= size {
            return Ok(run_out(device));
        }
        let loaded = pages.load(flash, place / PAGE_SIZE)?;
        let bytes = pages.bytes_from(place, loaded);
        match take_page(device, bytes) {
            AttemptStep::GoesOn => place += bytes.len() as u64,
            AttemptStep::Ends(ending) => return Ok(ending),
            AttemptStep::Stops => return Ok(run_out(device)),
        }
    }
}
