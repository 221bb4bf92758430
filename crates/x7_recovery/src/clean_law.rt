//! What a golden stream of any kind does after updates, where one attempt before them shows that it starts and begins
//! clean. The functions do nothing: their contracts are the laws.
ghost use Rattle.std.specs.Prelude.{◌≡◌, ◌≤◌, List, ℕ, length};
ghost use Rattle.x7_part.specs.Part.{PartData};
ghost use Rattle.x7_regs.specs.declared.boot_status.Cause.{Cause};
ghost use Rattle.x7_boot.specs.Attempt.{BootAttempt};
ghost use Rattle.x7_recovery.specs.Clean.{StartsClean};
ghost use Rattle.x7_recovery.specs.Golden.{GoldenStarts};
ghost use Rattle.x7_recovery.specs.OpenBoot.{EachBootsOpen, EachFallsBackClean, UpdateFallsBack};
ghost use Rattle.x7_recovery.specs.Updated.{AfterUpdates, IsUpdated, UpdatedFlash, opened_by};
ghost use Rattle.x7_update.specs.Layout.{update_place};

/// After any number of updates, each of a flash that could be updated, the update's place is what it was. An attempt
/// that, before the first update and with the first sector erased, started with the golden stream and ended at the
/// update's place or before it does so after them too, and still begins clean where it began clean.
pub fn updates_keep_golden_streams()
    ensures starts { (part : PartData) (flash found : List ℕ) (t : BootAttempt) → AfterUpdates flash found → GoldenStarts part flash t → GoldenStarts part found t }
    ensures clean { (part : PartData) (flash found : List ℕ) (t : BootAttempt) → AfterUpdates flash found → length t.bytes ≤ update_place flash
        → StartsClean part flash t → StartsClean part found t }
    ensures same_place { (flash found : List ℕ) → AfterUpdates flash found → update_place found ≡ update_place flash }
{}

/// For a part whose start address counts bytes, and a golden stream that before any update, with the first sector
/// erased, started in an attempt that ended at the update's place or before it, and began clean. After any number of
/// updates and one more, where the first sector is bytes, a boot tries the stream of the last, as from any flash with
/// an open slot. Where that stream fails and CTL0 allows a fallback the boot falls back to the golden stream, which
/// starts at the byte at which it started before, with the same memory, and BOOTSTS shows the fallback and the cause of
/// the update's failure.
pub fn updated_flashes_fall_back()
    ensures boots { (u : UpdatedFlash) → (is : IsUpdated u) → EachBootsOpen (opened_by is) }
    ensures falls_back { (u : UpdatedFlash) (t : BootAttempt) (cause : Cause) → (is : IsUpdated u)
        → UpdateFallsBack (opened_by is) t cause → EachFallsBackClean (opened_by is) cause u.golden }
{}
