//! What a boot from a flash with an open slot comes to, whatever slot that is, and whatever stands after the golden
//! stream. The functions do nothing: their contracts are the laws.
ghost use Rattle.std.specs.Prelude.{◌≡◌, ◌++◌, List, ℕ, drop};
ghost use Rattle.x7_part.specs.Part.{PartData};
ghost use Rattle.x7_part.specs.Ranges.{IsPart};
ghost use Rattle.x7_memory.specs.Plan.{PlanData};
ghost use Rattle.x7_recovery.specs.OpenBoot.{EachBootsOpen};
ghost use Rattle.x7_recovery.specs.OpenSlot.{BeginsAsImage, HasUpdatableSlot, IsOpenFlash, OpenFlash, image_of_flash, slot_of_flash};
ghost use Rattle.x7_recovery.specs.Recovery.{HasGolden};
ghost use Rattle.x7_recovery.specs.Updated.{WasUpdated};
ghost use Rattle.x7_update.specs.After.{IsAfterUpdate};
ghost use Rattle.x7_update.specs.Layout.{IsUpdatable, update_place};

/// From a flash with an open slot a boot tries the update at the place to which the slot leads. Where the update starts
/// the boot ends there; an update that is the full stream of a plan starts, with the memory of the plan. Where the
/// update fails and CTL0 forbids a fallback the boot stops. Where CTL0 allows one the boot falls back, and starts with
/// a golden stream of one of three kinds. It is the full stream of a plan; or one that starts at power after an erased
/// first sector and begins clean; or one with which some fallback over this flash starts.
pub fn open_slots_boot()
    ensures { (o : OpenFlash) → IsOpenFlash o → EachBootsOpen o }
{}

/// A flash that begins with the first sector of an image for a part has its first slot open, whatever follows. For a
/// part whose start address counts bytes, and where the items of the first sector are bytes: of a flash that can be
/// updated, a slot that begins with the sync word is open, and after an update the slot that it opened is. After an
/// update of a flash that can be updated, a golden stream that is the full stream of a plan and ends at the update's
/// place or before it stands as it did, and the stream of the update stands at the update's place.
pub fn flashes_have_an_open_slot()
    ensures image { (part : PartData) (flash : List ℕ) (place : ℕ) → IsPart part → BeginsAsImage part flash place → IsOpenFlash (image_of_flash part flash place) }
    ensures updatable { (part : PartData) (flash : List ℕ) (slot : ℕ) → HasUpdatableSlot part flash slot
        → IsOpenFlash (slot_of_flash part flash slot (update_place flash)) }
    ensures after { (part : PartData) (stream flash found : List ℕ) → (u : WasUpdated part stream flash found)
        → IsOpenFlash (slot_of_flash part found u.after.next (update_place flash)) }
    ensures golden { (part : PartData) (golden : PlanData) (stream flash found : List ℕ) → IsUpdatable flash → IsAfterUpdate stream flash found → HasGolden part golden flash
        → HasGolden part golden found }
    ensures stream { (stream flash found : List ℕ) → IsUpdatable flash → IsAfterUpdate stream flash found → (rest : List ℕ) × (drop (update_place flash) found ≡ stream ++ rest) }
{}
