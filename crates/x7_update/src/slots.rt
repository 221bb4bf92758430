//! A look at the first sector: where the update goes, which slot is open, and which is the next.
ghost use Rattle.std.specs.Prelude.{◌≡◌, ◌+◌, ◌<◌, ℕ, List, true, length, IfErr, IfOk, IfNone, IfSome};
ghost use Rattle.x7_words.specs.FlashHistory.{history_of};
ghost use Rattle.x7_packets.specs.FlashSlot.{sector_size, flash_slot_count};
ghost use Rattle.x7_update.specs.Layout.{IsUpdatableSize, LeadsToUpdate};
ghost use Rattle.x7_update.specs.Fault.{DiffersAt, IsBadSlotAt, IsGoodSlot, NoLayoutAt, UntouchedUnlessSized};
ghost use Rattle.x7_update.specs.Made.{IsRefused, ReadFirst};
ghost use Rattle.x7_update.specs.Slots.{IsTargetIn, HasFirstSlot, HasTarget, SlotsAmong};
ghost use Rattle.x7_update.specs.Writing.{CountsFault, IsReadStep};
ghost use Rattle.x7_update.specs.declared.fault.UpdateFault.TheVariants.{NoMemory};

use crate::fault::UpdateFault;
use crate::layout::{
    FREE_SWITCH, OPEN_SWITCH, START_WORD_OFFSET, SWITCH_SIZE, can_stand, first_slot, four_at,
    has_size,
};
use x7_packets::{FLASH_SLOT_COUNT, FLASH_SLOT_SIZE};
use x7_words::{Flash, is_same, word_of};

/// The slots that an update switches, by their numbers.
#[derive(Clone, Copy, Drop)]
pub(crate) struct Slots {
    /// The number of the open slot, from 0; none where no slot is open.
    pub(crate) open_slot: Option<u64>,
    /// The number, from 0, of the first slot from which on all that were looked at are free; where the last of these
    /// isn't free, one more than its number.
    pub(crate) next: u64,
}

/// Where an update goes, and by which slots.
#[derive(Clone, Copy, Drop)]
pub(crate) struct UpdateTarget {
    /// The update's place, in bytes.
    pub(crate) place: u64,
    /// The open slot and the next one.
    pub(crate) slots: Slots,
}

/// The first place in the flash, in bytes from 0, after the switch word of `slot`, at which the slot differs from
/// `wanted`, if it does.
fn slot_difference(first_sector: &[u8], wanted: &[u8; 32], slot: usize) -> Option<u64>
    requires slot { slot < flash_slot_count }
    requires sector { HasFirstSlot first_sector.now wanted.now }
    ensures leads { IfNone result (LeadsToUpdate first_sector.now slot) }
    ensures differs { IfSome result (λ place. DiffersAt first_sector.now slot place) }
{
    let slot_place = FLASH_SLOT_SIZE as usize * slot;
    for i in SWITCH_SIZE..FLASH_SLOT_SIZE as usize {
        if first_sector[slot_place + i] != wanted[i] {
            return Some((slot_place + i) as u64);
        }
    }
    None
}

/// The open slot and the next one among the slots up to and with `slot`, by `before`, those among the slots before
/// `slot`; or the place that shows that `slot` isn't as the layout has it.
fn look_at_slot(
    first_sector: &[u8],
    wanted: &[u8; 32],
    slot: u64,
    before: Slots,
) -> Result<Slots, u64>
    requires slot { slot < flash_slot_count }
    requires sector { HasFirstSlot first_sector.now wanted.now }
    requires before { SlotsAmong first_sector.now slot before }
    ensures slots { IfOk result (SlotsAmong first_sector.now (slot + 1)) }
    ensures bad_slot { IfErr result (IsBadSlotAt first_sector.now slot) }
{
    if let Some(place) = slot_difference(first_sector, wanted, slot as usize) {
        return Err(place);
    }
    let switch = four_at(first_sector, FLASH_SLOT_SIZE as usize * slot as usize);
    let Slots { open_slot, next } = before;
    if is_same(&switch, &OPEN_SWITCH) {
        if open_slot.is_some() {
            return Err(FLASH_SLOT_SIZE * slot);
        }
        return Ok(Slots {
            open_slot: Some(slot),
            next: slot + 1,
        });
    }
    if is_same(&switch, &FREE_SWITCH) {
        return Ok(Slots { open_slot, next });
    }
    Ok(Slots {
        open_slot,
        next: slot + 1,
    })
}

/// The open slot and the next one of the first sector; or, of the first slot that isn't as the layout has it, the place
/// that shows this.
fn look_at_slots(first_sector: &[u8], wanted: &[u8; 32]) -> Result<Slots, u64>
    requires { HasFirstSlot first_sector.now wanted.now }
    ensures slots { IfOk result (SlotsAmong first_sector.now flash_slot_count) }
    ensures bad_slot { IfErr result (λ place. (slot : ℕ) × (slot < flash_slot_count)
        × ((earlier : ℕ) → earlier < slot → IsGoodSlot first_sector.now earlier) × IsBadSlotAt first_sector.now slot place) }
{
    let mut slots = Slots {
        open_slot: None,
        next: 0,
    };
    for slot in 0..FLASH_SLOT_COUNT {
        slots = look_at_slot(first_sector, wanted, slot, slots)?;
    }
    Ok(slots)
}

/// Where an update goes in a flash of `size` bytes, by its first sector; or the place that shows that the flash can't
/// be updated, by the first line of `NoLayoutAt` that holds.
fn target_of(first_sector: &[u8], size: u64) -> Result<UpdateTarget, u64>
    requires first_sector { length first_sector.now ≡ sector_size }
    requires size { IsUpdatableSize size }
    ensures found { IfOk result (IsTargetIn size first_sector.now) }
    ensures no_layout { IfErr result (NoLayoutAt size first_sector.now) }
{
    let wanted = first_slot(first_sector);
    if let Some(place) = slot_difference(first_sector, &wanted, 0) {
        return Err(place);
    }
    let place = u64::from(word_of(four_at(first_sector, START_WORD_OFFSET)));
    if !can_stand(place, size) {
        return Err(START_WORD_OFFSET as u64);
    }
    let slots = look_at_slots(first_sector, &wanted)?;
    // The last slot isn't free.
    if slots.next >= FLASH_SLOT_COUNT {
        return Err(FLASH_SLOT_SIZE * (FLASH_SLOT_COUNT - 1));
    }
    Ok(UpdateTarget { place, slots })
}

/// Reads the first sector of a flash into the buffer, and finds where an update goes. A size that is bad (before the
/// read), a read that failed and a sector that no update can use are refused.
pub(crate) fn find_target<F: Flash>(
    flash: &mut F,
    buffer: &mut [u8],
) -> Result<UpdateTarget, UpdateFault>
    requires attached { (F.state flash.old).attached ≡ true }
    requires buffer { length buffer.old ≡ sector_size }
    ensures found { IfOk result (HasTarget (F.state flash.old)) }
    ensures read_calls { IfOk result (λ target. ReadFirst (history_of (F.state flash.old)) (history_of (F.state flash.new)) buffer.new) }
    ensures found_in { IfOk result (IsTargetIn (F.state flash.old).extent buffer.new) }
    ensures length { length buffer.new ≡ sector_size }
    ensures refused_calls { (stream : List ℕ) → IfErr result (IsRefused stream (history_of (F.state flash.old)) (history_of (F.state flash.new))) }
    ensures counted { IfErr result (CountsFault (F.state flash.old) (F.state flash.new)) }
    ensures memory { IfErr result (λ fault. fault ≡ NoMemory → ⊥) }
    ensures bad_size { UntouchedUnlessSized (F.state flash.old) (F.state flash.new) }
    ensures reads { IsReadStep (F.state flash.old) (F.state flash.new) }
{
    let size = flash.size();
    if !has_size(size) {
        return Err(UpdateFault::NoLayout(size));
    }
    match flash.read_at(0, buffer) {
        Ok(()) => (),
        Err(_) => return Err(UpdateFault::Failed { writing: false }),
    }
    match target_of(buffer, size) {
        Ok(target) => Ok(target),
        Err(place) => Err(UpdateFault::NoLayout(place)),
    }
}
