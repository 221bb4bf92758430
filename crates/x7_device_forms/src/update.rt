//! The command `update`: a flash gets another update stream, and may lose its power at any moment.
ghost use Rattle.std.specs.Prelude.{◌≡◌, Some, false};
ghost use Rattle.x7_forms.specs.AskedForm as form;
ghost use Rattle.x7_forms.specs.Event.{event_of};
ghost use Rattle.x7_forms.specs.Step.{result_by};
ghost use Rattle.x7_outcome.specs.Leaving.{UsesFlash};
ghost use Rattle.x7_outcome.specs.Outcome.{update_event};
ghost use Rattle.x7_outcome.specs.Outside.{sources};
ghost use Rattle.x7_outcome.specs.Ending.{AnsweredSilently};

use std::alloc::Global;
use x7_forms::{InputFault, Refusal, Why};
use x7_outcome::{open_flash, read_stream};
use x7_update::UpdateFault;
use x7_words::{Flash, Inputs};

/// Why a flash wasn't updated.
fn refusal_of<'w>(flash_name: &'w str, stream_name: &'w str, fault: UpdateFault) -> Refusal<'w>
    ensures { event_of result ≡ update_event (record { flash = flash_name.now; stream = stream_name.now }) fault }
{
    match fault {
        UpdateFault::Failed { writing } => {
            if writing {
                return Refusal::unnamed(Why::WriteFault);
            }
            Refusal {
                reason: Why::ReadFault,
                name: flash_name,
            }
        }
        UpdateFault::TooLong => Refusal {
            reason: Why::BadInput(InputFault::Long),
            name: stream_name,
        },
        UpdateFault::NoLayout(place) => Refusal {
            reason: Why::BadInput(InputFault::Layout(place)),
            name: flash_name,
        },
        UpdateFault::Differs { place, .. } => Refusal {
            reason: Why::Differs(place),
            name: flash_name,
        },
        UpdateFault::NoMemory => Refusal::unnamed(Why::NoMemory),
    }
}

/// Updates the flash of `update FLASH STREAM` with the stream's data. No text is written.
pub fn update<'w, I: Inputs, F: Flash>(
    alloc: Global,
    inputs: &mut I,
    flash: &mut F,
    flash_name: &'w str,
    stream_name: &'w str,
) -> Result<(), Refusal<'w>>
    ensures answered { AnsweredSilently (form.Update flash_name.now stream_name.now) (sources (I.state inputs.old) (F.state flash.old))
        (sources (I.state inputs.new) (F.state flash.new)) (result_by (λ _. false) result) }
    ensures flash { UsesFlash (Some (form.Update flash_name.now stream_name.now)) (sources (I.state inputs.new) (F.state flash.old)) (F.state flash.new) }
{
    open_flash(flash, flash_name)?;
    let read = read_stream(alloc, inputs, stream_name)?;
    match x7_update::update(alloc, flash, &read.bytes[read.start..]) {
        Ok(()) => Ok(()),
        Err(fault) => Err(refusal_of(flash_name, stream_name, fault)),
    }
}
