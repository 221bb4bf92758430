//! What a boot makes of a golden stream of any kind, where one attempt shows that it starts. The functions do nothing:
//! their contracts are the laws.
ghost use Rattle.std.specs.Prelude.{List, ℕ};
ghost use Rattle.x7_part.specs.Part.{PartData};
ghost use Rattle.x7_boot.specs.Attempt.{BootAttempt};
ghost use Rattle.x7_boot.specs.Boot.{BootedState, IsBoot};
ghost use Rattle.x7_recovery.specs.Clean.{StartsClean};
ghost use Rattle.x7_recovery.specs.Golden.{BootsAlike, HaveSameGolden, IsPreparedByAttempt, LeadsNowhere, StartsAlike, StartsAsPlanned, UpdatingByAttempt, with_first_sector_erased};
ghost use Rattle.x7_boot.specs.BootCourse.{course_of};
ghost use Rattle.x7_recovery.specs.Recovery.{IsPrepared, Updating};
ghost use Rattle.x7_update.specs.After.{IsBetweenSlots, MayBeLeft};
ghost use Rattle.x7_update.specs.Layout.{IsUpdatable};

/// Of two flashes of bytes, of one sector at least each, in whose first sectors no sync word begins. Where the attempt
/// at power over the one starts, and the other has the same bytes after the first sector up to the attempt's end, a
/// boot from the other starts with its one attempt, at power. It has the memory and registers with which that attempt
/// ended.
pub fn flashes_that_lead_nowhere_start_alike()
    ensures { (part : PartData) (one other : List ℕ) (t : BootAttempt) (b : BootedState) → HaveSameGolden part one other t
        → (boot : IsBoot part other b) → StartsAlike part t (course_of b boot.last) }
{}

/// The first sector leads nowhere (`LeadsNowhere`) where it is erased, and where a flash that could be updated was left
/// after its open slot, if it had one, was spent and before the next one was opened.
pub fn flashes_between_slots_lead_nowhere()
    ensures erased { (flash : List ℕ) → LeadsNowhere (with_first_sector_erased flash) }
    ensures between { (flash found : List ℕ) → IsUpdatable flash → IsBetweenSlots flash found → LeadsNowhere found }
{}

/// Of a flash that can be updated, whose golden stream starts where the first sector is erased, by an attempt that ends
/// at the update's place or before it. Whatever a power loss in an update leaves of it boots as the flash did before,
/// or starts as the golden stream does, or boots as the updated flash.
pub fn found_flashes_boot_alike()
    ensures { (u : UpdatingByAttempt) (found : List ℕ) (b : BootedState) → IsPreparedByAttempt u
        → MayBeLeft u.stream u.flash found → IsBoot u.part found b → BootsAlike u found b }
{}

/// Of a flash that can be updated, whose golden stream is the full stream of a plan for the part and ends at the
/// update's place or before it. With the first sector erased the attempt at power starts at the stream's last byte or
/// before it, with the memory of the plan over zeros, and BOOTSTS shows no other attempt. Each attempt that starts so
/// begins clean.
pub fn full_streams_start()
    ensures starts { (u : Updating) → IsPrepared u → (t : BootAttempt) × StartsAsPlanned u t }
    ensures clean { (u : Updating) (t : BootAttempt) → IsPrepared u → StartsAsPlanned u t → StartsClean u.part u.flash t }
{}
