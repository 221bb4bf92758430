//! The stream of an update is written: all from its place on is erased, then it is programmed there.
ghost use Rattle.std.specs.Prelude.{◌≡◌, ◌+◌, ◌≤◌, length, OnOk, OnErr};
ghost use Rattle.x7_words.specs.Flash.{WriteFails};
ghost use Rattle.x7_words.specs.FlashHistory.{history_of, with_calls};
ghost use Rattle.x7_update.specs.UpdateCalls.{erasing_from, writing};
ghost use Rattle.x7_update.specs.Made.{Stops, write_failed};
ghost use Rattle.x7_update.specs.Writing.{CanWriteFrom, IsWriteStep};

use x7_words::{Failed, Flash, SECTOR_SIZE};

/// Makes all from the place on FF, sector by sector.
fn erase_from<F: Flash>(flash: &mut F, place: u64) -> Result<(), Failed>
    requires from { CanWriteFrom (F.state flash.old) place }
    ensures erased_calls { OnOk result (history_of (F.state flash.new) ≡ with_calls (history_of (F.state flash.old)) (erasing_from (F.state flash.old).extent place)) }
    ensures failed_calls { OnErr result (Stops (erasing_from (F.state flash.old).extent place) (history_of (F.state flash.old)) (history_of (F.state flash.new)) write_failed) }
    ensures writes { IsWriteStep (F.state flash.old) (F.state flash.new) }
    ensures failed { OnErr result (WriteFails (F.state flash.old) (F.state flash.new)) }
{
    for sector in place / SECTOR_SIZE..flash.size() / SECTOR_SIZE {
        flash.erase(sector)?;
    }
    Ok(())
}

/// Writes the stream at its place, with FF after it to the flash's end.
pub(crate) fn write_stream<F: Flash>(flash: &mut F, place: u64, stream: &[u8]) -> Result<(), Failed>
    requires from { CanWriteFrom (F.state flash.old) place }
    requires within { place + length stream.now ≤ (F.state flash.old).extent }
    ensures written_calls { OnOk result (history_of (F.state flash.new) ≡ with_calls (history_of (F.state flash.old)) (writing (F.state flash.old).extent stream.now place)) }
    ensures failed_calls { OnErr result (Stops (writing (F.state flash.old).extent stream.now place) (history_of (F.state flash.old)) (history_of (F.state flash.new)) write_failed) }
    ensures writes { IsWriteStep (F.state flash.old) (F.state flash.new) }
    ensures failed { OnErr result (WriteFails (F.state flash.old) (F.state flash.new)) }
{
    erase_from(flash, place)?;
    flash.program(place, stream)
}
