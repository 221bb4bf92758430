//! A flash that a command reads or updates, attached under its name.
ghost use Rattle.std.specs.Prelude.{◌≡◌, ◌≤◌, IfErr, OnErr, OnOk, length, true, false};
ghost use Rattle.x7_words.specs.Flash.{ExtentIsLength, IfKnown, KeepsBytes};
ghost use Rattle.x7_words.specs.FlashHistory.{history_of};
ghost use Rattle.x7_outcome.specs.Called.{AttachedAs, OnlyAttaches};
ghost use Rattle.x7_boot.specs.Image.{flash_limit};
ghost use Rattle.x7_forms.specs.Event.{event_of};
ghost use Rattle.x7_outcome.specs.Outside.{IsAskedFor, ReadsFlash};
ghost use Rattle.x7_outcome.specs.Ending.{IsMissingOrFailed, IsUnattachedOrLarge};

use x7_forms::{Refusal, Why};
use x7_words::{FLASH_LIMIT, Flash, SelectFault};

/// Attaches the flash of this name, or answers that it isn't there or failed.
pub fn attach<'w, F: Flash>(flash: &mut F, name: &'w str) -> Result<(), Refusal<'w>>
    ensures attached { OnOk result ((F.state flash.new).attached ≡ true) }
    ensures refused { IfErr result (λ r. IsMissingOrFailed name.now (F.state flash.old) (F.state flash.new) (event_of r)) }
    ensures unattached { IfErr result (λ r. (F.state flash.new).attached ≡ false) }
    ensures reads { ReadsFlash name.now (F.state flash.old) (F.state flash.new) }
    ensures stays { KeepsBytes (F.state flash.old) (F.state flash.new) }
    ensures asks { IsAskedFor name.now (F.state flash.old) (F.state flash.new) }
    ensures called { OnOk result (AttachedAs name.now (F.state flash.old) (history_of (F.state flash.new))) }
    ensures called_alone { OnErr result (OnlyAttaches name.now (F.state flash.old) (F.state flash.new)) }
    ensures sized { ExtentIsLength (F.state flash.new) }
{
    match flash.attach(name) {
        Ok(()) => Ok(()),
        Err(SelectFault::Missing) => Err(Refusal {
            reason: Why::Missing,
            name,
        }),
        Err(SelectFault::Failed) => Err(Refusal {
            reason: Why::ReadFault,
            name,
        }),
    }
}

/// Attaches the flash of this name, or answers that it isn't there, failed, or has more than `FLASH_LIMIT` bytes.
pub fn open_flash<'w, F: Flash>(flash: &mut F, name: &'w str) -> Result<(), Refusal<'w>>
    ensures attached { OnOk result ((F.state flash.new).attached ≡ true) }
    ensures within { OnOk result (IfKnown (F.state flash.new).bytes (λ all. length all ≤ flash_limit)) }
    ensures size { OnOk result ((F.state flash.new).extent ≤ flash_limit) }
    ensures refused { IfErr result (λ r. IsUnattachedOrLarge name.now (F.state flash.old) (F.state flash.new) (event_of r)) }
    ensures stays { KeepsBytes (F.state flash.old) (F.state flash.new) }
    ensures asks { IsAskedFor name.now (F.state flash.old) (F.state flash.new) }
    ensures called { OnOk result (AttachedAs name.now (F.state flash.old) (history_of (F.state flash.new))) }
    ensures called_alone { OnErr result (OnlyAttaches name.now (F.state flash.old) (F.state flash.new)) }
{
    attach(flash, name)?;
    if flash.size() > FLASH_LIMIT {
        return Err(Refusal {
            reason: Why::TooLarge,
            name,
        });
    }
    Ok(())
}
