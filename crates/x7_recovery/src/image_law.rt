//! What a boot from the image of a golden and an update stream comes to. The functions do nothing: their contracts are
//! the laws.
ghost use Rattle.std.specs.Prelude.{◌≢◌, ◌++◌, List, [], ℕ};
ghost use Rattle.x7_part.specs.Part.{PartData};
ghost use Rattle.x7_part.specs.Ranges.{IsPart};
ghost use Rattle.x7_regs.specs.declared.boot_status.Cause.TheVariants.{Wrap};
ghost use Rattle.x7_memory.specs.Plan.{IsPlanFor, PlanData};
ghost use Rattle.x7_boot.specs.Attempt.{BootAttempt};
ghost use Rattle.x7_boot.specs.Image.{image_of};
ghost use Rattle.x7_recovery.specs.Example.{nothing_planned, tiny};
ghost use Rattle.x7_recovery.specs.OpenBoot.{HasFullGolden, HasImageOf, HasStreams, StartsAsFallback, UpdateFallsBack};
ghost use Rattle.x7_recovery.specs.OpenSlot.{image_of_flash};
ghost use Rattle.x7_recovery.specs.PlannedImage.{HasImage, flash_of_image, golden_image, place_after};
ghost use Rattle.x7_recovery.specs.Recovery.{IsPrepared, updating_image};
ghost use Rattle.x7_update.specs.After.{MayBeLeft};

/// A flash that begins with the image of a golden and an update stream for a part, where the image is no larger than a
/// flash may be, has both streams and its first slot open, which leads to the update, whatever follows the image. Each
/// boot from it comes to what one from a flash with an open slot does. Where the golden stream is the full stream of a
/// plan for the part, this full stream stands after the first sector.
pub fn images_boot()
    ensures streams { (part : PartData) (golden update more : List ℕ) → HasImageOf part golden update
        → HasStreams part golden update (image_of part.start_unit golden update ++ more) }
    ensures full_golden { (part : PartData) (golden : PlanData) (update more : List ℕ) → HasImage part golden update
        → HasFullGolden (flash_of_image part golden update more) golden }
{}

/// The laws of this crate speak of something. There is a part with a plan for it and their image, which is prepared for
/// an update with any stream, and of which a power loss in that update may leave another flash. Over the image of any
/// part and plan, with an update of no bytes, an attempt at the update fails by a wrap, and CTL0 allows a fallback.
/// Over the image of the full stream of a plan and any update some fallback starts.
pub fn premises_hold()
    ensures part { IsPart tiny }
    ensures plan { IsPlanFor tiny nothing_planned }
    ensures image { HasImage tiny nothing_planned [] }
    ensures prepared { (stream : List ℕ) → IsPrepared (updating_image tiny nothing_planned [] stream) }
    ensures torn { (stream : List ℕ) → (found : List ℕ) × MayBeLeft stream (golden_image tiny nothing_planned []) found × (found ≢ golden_image tiny nothing_planned []) }
    ensures falls_back { (part : PartData) (golden : PlanData) (update more : List ℕ) → HasImage part golden update
        → (f : BootAttempt) × StartsAsFallback (flash_of_image part golden update more) f }
    ensures fails { (part : PartData) (golden : PlanData)
        → (t : BootAttempt) × UpdateFallsBack (image_of_flash part (golden_image part golden []) (place_after part golden)) t Wrap }
{}
