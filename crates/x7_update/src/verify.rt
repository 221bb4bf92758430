//! What an update has written is verified: read again and compared.
ghost use Rattle.std.specs.Prelude.{◌≡◌, ◌+◌, ◌*◌, ◌<◌, ◌≤◌, ◌^◌, ℕ, [], ◌∷◌, true, length, IfErr, OnOk};
ghost use Rattle.x7_words.specs.FlashHistory.{CallsFor, history_of, with_calls};
ghost use Rattle.x7_words.specs.declared.flash_call.FlashCall.TheVariants.{Read};
ghost use Rattle.x7_packets.specs.FlashSlot.{sector_size, flash_slot_size, flash_slot_count};
ghost use Rattle.x7_update.specs.Layout.{IsUpdatableSize, open_switch};
ghost use Rattle.x7_update.specs.UpdateCalls.{reading, reading_from};
ghost use Rattle.x7_update.specs.Made.{Stops};
ghost use Rattle.x7_update.specs.Writing.{CanVerify, CountsFault, IsReadStep, IsWrong, ReadsWanted, wanted_at};

use crate::fault::UpdateFault;
use crate::layout::OPEN_SWITCH;
use x7_packets::FLASH_SLOT_SIZE;
use x7_words::{ERASED_BYTE, Flash, SECTOR_SIZE};

/// The byte that is wanted `after` bytes after the stream's place: the stream's, or FF after the stream.
fn wanted(stream: &[u8], after: u64) -> u8
    ensures { (stream_place : ℕ) → result ≡ wanted_at stream_place stream.now (stream_place + after) }
{
    if after < stream.len() as u64 {
        stream[after as usize]
    } else {
        ERASED_BYTE
    }
}

/// Compares the buffer, read from the place `from + after` on, with what is wanted there: the piece that was written at
/// `from`, and FF after it. The fault is the first byte that differs.
fn compare(buffer: &[u8], after: u64, from: u64, piece: &[u8]) -> Result<(), UpdateFault>
    requires { from + after + length buffer.now < 2 ^ 63 }
    ensures same { OnOk result (ReadsWanted from piece.now (from + after) buffer.now) }
    ensures wrong { IfErr result (IsWrong from piece.now (from + after) buffer.now) }
{
    for i in 0..buffer.len() {
        let at = after + i as u64;
        let wrote = wanted(piece, at);
        let read = buffer[i];
        if read != wrote {
            return Err(UpdateFault::Differs {
                place: from + at,
                wrote,
                read,
            });
        }
    }
    Ok(())
}

/// Reads all from `stream_place` up to the flash's end, and compares it with the stream and FF after it.
pub(crate) fn verify_stream<F: Flash>(
    flash: &mut F,
    stream_place: u64,
    stream: &[u8],
    buffer: &mut [u8],
) -> Result<(), UpdateFault>
    requires { CanVerify (F.state flash.old) stream_place stream.now buffer.old }
    ensures verified_calls { OnOk result (history_of (F.state flash.new) ≡ with_calls (history_of (F.state flash.old)) (reading_from (F.state flash.old).extent stream.now stream_place)) }
    ensures fault_calls { IfErr result (Stops (reading_from (F.state flash.old).extent stream.now stream_place) (history_of (F.state flash.old)) (history_of (F.state flash.new))) }
    ensures counted { IfErr result (CountsFault (F.state flash.old) (F.state flash.new)) }
    ensures reads { IsReadStep (F.state flash.old) (F.state flash.new) }
{
    for sector in stream_place / SECTOR_SIZE..flash.size() / SECTOR_SIZE {
        verify_sector(flash, sector, stream_place, stream, buffer)?;
    }
    Ok(())
}

/// Reads a sector of the update, and compares it with the stream and FF after it.
fn verify_sector<F: Flash>(
    flash: &mut F,
    sector: u64,
    stream_place: u64,
    stream: &[u8],
    buffer: &mut [u8],
) -> Result<(), UpdateFault>
    requires written { CanVerify (F.state flash.old) stream_place stream.now buffer.old }
    requires within { sector * sector_size + sector_size ≤ (F.state flash.old).extent }
    requires after { stream_place ≤ sector * sector_size }
    ensures verified_calls { OnOk result (history_of (F.state flash.new) ≡ with_calls (history_of (F.state flash.old)) (reading (F.state flash.old).extent stream.now stream_place sector 1)) }
    ensures fault_calls { IfErr result (Stops (reading (F.state flash.old).extent stream.now stream_place sector 1) (history_of (F.state flash.old)) (history_of (F.state flash.new))) }
    ensures counted { IfErr result (CountsFault (F.state flash.old) (F.state flash.new)) }
    ensures reads { IsReadStep (F.state flash.old) (F.state flash.new) }
    ensures length { length buffer.new ≡ sector_size }
{
    let Ok(()) = flash.read_at(sector * SECTOR_SIZE, buffer) else {
        return Err(UpdateFault::Failed { writing: false });
    };
    compare(
        buffer,
        sector * SECTOR_SIZE - stream_place,
        stream_place,
        stream,
    )
}

/// Reads the switch word of the slot of this number, and compares it with that of an open slot.
pub(crate) fn verify_switch<F: Flash>(flash: &mut F, slot: u64) -> Result<(), UpdateFault>
    requires attached { (F.state flash.old).attached ≡ true }
    requires size { IsUpdatableSize (F.state flash.old).extent }
    requires slot { slot < flash_slot_count }
    ensures verified_calls { OnOk result (CallsFor (Read (flash_slot_size * slot) open_switch) (F.state flash.old) (F.state flash.new)) }
    ensures fault_calls { IfErr result (Stops (Read (flash_slot_size * slot) open_switch ∷ []) (history_of (F.state flash.old)) (history_of (F.state flash.new))) }
    ensures counted { IfErr result (CountsFault (F.state flash.old) (F.state flash.new)) }
    ensures reads { IsReadStep (F.state flash.old) (F.state flash.new) }
{
    let mut word = [0; 4];
    let Ok(()) = flash.read_at(FLASH_SLOT_SIZE * slot, &mut word) else {
        return Err(UpdateFault::Failed { writing: false });
    };
    compare(&word, 0, FLASH_SLOT_SIZE * slot, &OPEN_SWITCH)
}
