//! Laws of flashes that can be updated, and of updates. The functions do nothing: their contracts are the laws.
ghost use Rattle.std.specs.Prelude.{◌≡◌, ◌≢◌, ◌-◌, ◌<◌, ℕ, List, length};
ghost use Rattle.x7_packets.specs.FlashSlot.{sector_size, flash_slot_count};
ghost use Rattle.x7_update.specs.After.{IsAfterUpdate, IsBetweenSlots, MayBeLeft};
ghost use Rattle.x7_update.specs.Layout.{IsUpdatable, IsNextFreeSlot, four_at, open_switch};
ghost use Rattle.x7_update.specs.Fault.{NoLayoutAt};

/// No place shows that a flash that can be updated can't. `NoLayoutAt` takes a size beside the bytes, since an update
/// sees those of the first sector alone; here the size is the flash's own.
pub fn updatable_flashes_are_not_refused()
    ensures { (flash : List ℕ) (place : ℕ) → IsUpdatable flash → NoLayoutAt (length flash) flash place → ⊥ }
{}

/// A flash that can be updated has one outcome of an update with one stream.
pub fn updates_have_one_outcome()
    ensures { (stream flash one other : List ℕ) → IsUpdatable flash → IsAfterUpdate stream flash one → IsAfterUpdate stream flash other → one ≡ other }
{}

/// In a flash that could be updated, and was left after its open slot, if it had one, was spent and before the next was
/// opened, no sync word begins in the first sector.
pub fn flashes_between_slots_hold_no_sync_word()
    ensures { (flash found : List ℕ) → IsUpdatable flash → IsBetweenSlots flash found
        → (place : ℕ) → place < sector_size → four_at found place ≢ open_switch }
{}

/// Whatever a power loss in an update leaves of a flash that can be updated can be updated again, unless the next free
/// slot was the last.
pub fn left_flashes_are_updatable()
    ensures { (stream flash found : List ℕ) → IsUpdatable flash → MayBeLeft stream flash found
        → (IsNextFreeSlot flash (flash_slot_count - 1) → ⊥) → IsUpdatable found }
{}
