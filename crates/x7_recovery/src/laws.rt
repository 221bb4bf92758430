//! What a device does with a flash that a power loss left in an update, and which images can be updated. The functions
//! do nothing: their contracts are the laws.
ghost use Rattle.std.specs.Prelude.{◌≡◌, ◌≤◌, List, ℕ, length};
ghost use Rattle.x7_words.specs.Flash.{flash_limit};
ghost use Rattle.x7_part.specs.Part.{PartData};
ghost use Rattle.x7_memory.specs.Plan.{PlanData};
ghost use Rattle.x7_boot.specs.Boot.{BootedState, IsBoot};
ghost use Rattle.x7_boot.specs.Image.{image_of, image_size};
ghost use Rattle.x7_recovery.specs.PlannedImage.{HasImage};
ghost use Rattle.x7_update.specs.After.{MayBeLeft};
ghost use Rattle.x7_update.specs.Layout.{IsUpdatable};
ghost use Rattle.x7_recovery.specs.Recovery.{BootsAs, IsPrepared, Updating, updating_image};

/// Of a flash that can be updated, whose golden stream is the full stream of a plan for the part and ends at the
/// update's place or before it. Whatever a power loss in an update leaves of it boots as the flash did before, or
/// starts with the golden stream, or boots as the updated flash.
pub fn found_flashes_boot()
    ensures { (u : Updating) (found : List ℕ) (b : BootedState) → IsPrepared u
        → MayBeLeft u.stream u.flash found → IsBoot u.part found b → BootsAs u found b }
{}

/// The image of two streams for a part whose start address counts bytes can be updated, where the image is no larger
/// than a flash may be.
pub fn images_are_updatable()
    ensures { (golden update : List ℕ) → image_size (length golden) (length update) ≤ flash_limit → IsUpdatable (image_of 1 golden update) }
{}

/// The image of the full stream of a plan for the part and of any update, for a part whose start address counts bytes,
/// is prepared for an update with any stream, where the image is no larger than a flash may be.
pub fn images_are_prepared()
    ensures { (part : PartData) (golden : PlanData) (update stream : List ℕ) → HasImage part golden update → part.start_unit ≡ 1
        → IsPrepared (updating_image part golden update stream) }
{}
