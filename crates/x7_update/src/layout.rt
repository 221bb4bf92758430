//! The layout of a flash that can be updated: its size, the update's place, and the words of a slot.
ghost use Rattle.std.specs.Prelude.{◌≡◌, ◌↔◌, ◌+◌, ◌≤◌, true, length};
ghost use Rattle.x7_update.specs.Layout.{CanStandAt, IsUpdatableSize, first_slot, four_at, start_word_offset};

use x7_packets::{SYNC_BYTES, flash_slot};
use x7_words::{FLASH_LIMIT, SECTOR_SIZE};

/// How many bytes a switch word has.
pub(crate) const SWITCH_SIZE: usize = 4;

/// The switch word of an open slot: the sync word.
pub(crate) const OPEN_SWITCH: [u8; 4] = SYNC_BYTES;

/// The switch word of a free slot: a dummy word.
pub(crate) const FREE_SWITCH: [u8; 4] = [0xFF; 4];

/// The switch word of a spent slot, as an update leaves it: zeros.
pub(crate) const SPENT_SWITCH: [u8; 4] = [0; 4];

/// Where in a slot its start address stands, in bytes from the slot's first.
pub(crate) const START_WORD_OFFSET: usize = 12;

/// The four bytes of the first sector from `place` on.
pub(crate) fn four_at(first_sector: &[u8], place: usize) -> [u8; 4]
    requires { place + 4 ≤ length first_sector.now }
    ensures { result ≡ four_at first_sector.now place }
{
    [
        first_sector[place],
        first_sector[place + 1],
        first_sector[place + 2],
        first_sector[place + 3],
    ]
}

/// The 32 bytes of an open slot that leads to the start address in the first sector. In a flash that can be updated
/// each slot has the last 28 of them after its switch word.
pub(crate) fn first_slot(first_sector: &[u8]) -> [u8; 32]
    requires { start_word_offset + 4 ≤ length first_sector.now }
    ensures { result ≡ first_slot first_sector.now }
{
    flash_slot(OPEN_SWITCH, four_at(first_sector, START_WORD_OFFSET))
}

/// Whether `size`, in bytes, is one that a flash that can be updated may have.
pub(crate) fn has_size(size: u64) -> bool
    ensures { (result ≡ true) ↔ IsUpdatableSize size }
{
    size % SECTOR_SIZE == 0 && 2 * SECTOR_SIZE <= size && size <= FLASH_LIMIT
}

/// Whether an update can stand at this place of a flash of a size, in bytes; at the flash's end an empty one can.
pub(crate) fn can_stand(place: u64, size: u64) -> bool
    ensures { (result ≡ true) ↔ CanStandAt size place }
{
    place % SECTOR_SIZE == 0 && 2 * SECTOR_SIZE <= place && place <= size
}
