//! The command `boot`: which image a device starts from a flash, and why not another.
ghost use Rattle.std.specs.Prelude.{◌≡◌, ◌≤◌, ℕ, List, [], Some, Ok, IfErr, IfOk, true};
ghost use Rattle.x7_words.specs.FlashHistory.{FollowsCalls};
ghost use Rattle.x7_part.specs.Part.{PartData};
ghost use Rattle.x7_boot.specs.Boot.{IsBoot};
ghost use Rattle.x7_engine.specs.Standing.{NoWordDue};
ghost use Rattle.x7_forms.specs.AskedForm as form;
ghost use Rattle.x7_boot.specs.Image.{flash_limit};
ghost use Rattle.x7_forms.specs.Event.{event_of, no_memory, reading_failed};
ghost use Rattle.x7_boot.specs.Reads.{IfAgrees, answers_since};
ghost use Rattle.x7_forms.specs.Known.{Held};
ghost use Rattle.x7_outcome.specs.Leaving.{LeavesAsItWas};
ghost use Rattle.x7_outcome.specs.Outcome.{FlashBoots, IsBootText, boot_event, has_failed};
ghost use Rattle.x7_outcome.specs.Boot.{ForLastAttemptOf, boot_text};
ghost use Rattle.x7_forms.specs.Step.{result_by};
ghost use Rattle.x7_outcome.specs.Outside.{ReadsFlash, sources};
ghost use Rattle.x7_outcome.specs.Play.{play_answer};
ghost use Rattle.x7_outcome.specs.Ending.{FlashComes, MakesReadyFrom};

use std::alloc::Global;
use x7_boot::{BootEnd, BootFault, Booted, boot_lines};
use x7_forms::{Refusal, Why, read_part};
use x7_outcome::attach;
use x7_part::Part;
use x7_report::{PlayText, report};
use x7_text::put_text;
use x7_words::{Flash, Inputs, NoMemory};

/// The text of a boot (this project's choice): `boot NAME`; for each attempt `attempt N KIND ADDRESS ENDING`; `end` and
/// how the boot ended; and the report of the device, as the last attempt left it, without words read out. N counts from
/// 1, and ADDRESS is in bytes, in eight hexadecimal digits.
pub fn boot_text(alloc: Global, booted: &Booted) -> Result<Vec<u8>, NoMemory>
    ensures { IfOk result (λ text. ForLastAttemptOf booted.now (λ part last. text.items ≡ boot_text part booted.now.attempts booted.now.end last)) }
{
    let device = booted.device();
    let mut text = Vec::new(alloc);
    boot_lines(
        &mut text,
        device.part().name(),
        booted.attempts(),
        booted.end(),
    )?;
    let report = report(alloc, device, &[])?;
    put_text(&mut text, &report)?;
    Ok(text)
}

/// Whether a boot ended without a start.
fn has_failed(end: BootEnd) -> bool
    ensures { result ≡ has_failed end }
{
    match end {
        BootEnd::Started => false,
        BootEnd::Stopped | BootEnd::Loop => true,
    }
}

/// The text of a boot, as `boot_text`, ready to be written, and whether the boot ended without a start.
fn ready_text(alloc: Global, booted: Booted) -> Result<PlayText, NoMemory>
    ensures { IfOk result (λ text. ForLastAttemptOf booted (λ part last. text ≡ record { stopped = has_failed booted.end; text = boot_text part booted.attempts booted.end last })) }
{
    let mut head = Vec::new(alloc);
    boot_lines(
        &mut head,
        booted.device().part().name(),
        booted.attempts(),
        booted.end(),
    )?;
    let stopped = has_failed(booted.end());
    PlayText::new(alloc, head, booted.into_device(), &[], stopped)
}

/// The text of a boot, or want of memory.
fn text_of<'w>(alloc: Global, booted: Booted) -> Result<PlayText, Refusal<'w>>
    ensures text { IfOk result (λ text. (part : PartData) (flash : List ℕ) → IsBoot part flash booted → NoWordDue booted.device
        → IsBootText part flash (play_answer text)) }
    ensures refused { IfErr result (λ r. event_of r ≡ no_memory) }
{
    Ok(ready_text(alloc, booted)?)
}

/// Why a boot could not be finished.
fn refusal_of<'w>(name: &'w str, fault: BootFault) -> Refusal<'w>
    ensures { event_of result ≡ boot_event name.now fault }
{
    match fault {
        BootFault::Failed => Refusal {
            reason: Why::ReadFault,
            name,
        },
        BootFault::TooLarge => Refusal {
            reason: Why::TooLarge,
            name,
        },
        BootFault::NoMemory => Refusal::unnamed(Why::NoMemory),
    }
}

/// Boots a part from the flash of this name.
fn boot_from<'w, F: Flash>(
    alloc: Global,
    part: &Part,
    flash: &mut F,
    flash_name: &'w str,
) -> Result<PlayText, Refusal<'w>>
    ensures caused { FlashComes flash_name.now part.now (F.state flash.old) (F.state flash.new) (result_by play_answer result) }
    ensures failed { IfErr result (λ r. event_of r ≡ reading_failed flash_name.now → (F.state flash.new).attached ≡ true → (F.state flash.new).extent ≤ flash_limit) }
    ensures reads { ReadsFlash flash_name.now (F.state flash.old) (F.state flash.new) }
    ensures follows { FollowsCalls (F.state flash.old) (F.state flash.new) }
    ensures as_read { IfOk result (λ text. IfAgrees (answers_since (F.state flash.old) (F.state flash.new))
        (λ all. FlashBoots flash_name.now part.now (Some (Held all)) (Ok (play_answer text)))) }
    ensures left { LeavesAsItWas (F.state flash.old) (F.state flash.new) }
{
    attach(flash, flash_name)?;
    match x7_boot::boot(alloc, part, flash) {
        Ok(booted) => text_of(alloc, booted),
        Err(fault) => Err(refusal_of(flash_name, fault)),
    }
}

/// The text of `boot PART FLASH`.
pub fn boot<'w, I: Inputs, F: Flash>(
    alloc: Global,
    inputs: &mut I,
    flash: &mut F,
    part_name: &'w str,
    flash_name: &'w str,
) -> Result<PlayText, Refusal<'w>>
    ensures ready { MakesReadyFrom (form.Boot part_name.now flash_name.now) (sources (I.state inputs.old) (F.state flash.old))
        (sources (I.state inputs.new) (F.state flash.new)) (result_by play_answer result) }
    ensures reads { ReadsFlash flash_name.now (F.state flash.old) (F.state flash.new) }
    ensures follows { FollowsCalls (F.state flash.old) (F.state flash.new) }
    ensures left { LeavesAsItWas (F.state flash.old) (F.state flash.new) }
{
    let part = read_part(alloc, inputs, part_name)?;
    boot_from(alloc, &part, flash, flash_name)
}
