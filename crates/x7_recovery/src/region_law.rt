//! What a boot makes of a flash of which a region was updated. The functions do nothing: their contracts are the laws.
ghost use Rattle.std.specs.Prelude.{List, ℕ, ◌++◌};
ghost use Rattle.x7_words.specs.Word.{AreBytes};
ghost use Rattle.x7_part.specs.Part.{PartData};
ghost use Rattle.x7_boot.specs.Boot.{BootedState, IsBoot};
ghost use Rattle.x7_recovery.specs.Golden.{UpdatingByAttempt};
ghost use Rattle.x7_recovery.specs.Region.{BootsWithin, IsLeftOfRegion, RegionBootsAlike};

/// Of a flash that begins with a region which can be updated, with any bytes after it. The region's golden stream,
/// after an erased first sector, starts by an attempt that ends at the update's place or before it. Whatever a power
/// loss in an update of the region leaves of it boots as the region did before, with these bytes, or starts as the
/// golden stream does, or boots as the updated region, with them.
pub fn updated_regions_boot_alike()
    ensures { (u : UpdatingByAttempt) (more found : List ℕ) (b : BootedState) → IsLeftOfRegion u found → AreBytes more
        → IsBoot u.part (found ++ more) b → RegionBootsAlike u more found b }
{}

/// Where each attempt of a boot from a region ends within it, the boot from a flash that begins with the region is the
/// same, whatever bytes come after it.
pub fn regions_boot_alone()
    ensures { (part : PartData) (region more : List ℕ) (b : BootedState) → BootsWithin part region b → IsBoot part (region ++ more) b }
{}
