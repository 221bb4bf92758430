//! What a boot promises. The functions do nothing: their contracts are the laws.
ghost use Rattle.std.specs.Prelude.{◌≡◌, ◌<◌, ℕ, Bool, List, false, take};
ghost use Rattle.x7_words.specs.Word.{AreBytes};
ghost use Rattle.x7_part.specs.Part.{PartData};
ghost use Rattle.x7_engine.specs.State.{state_of};
ghost use Rattle.x7_engine.specs.declared.kept.Kept.{Kept};
ghost use Rattle.x7_boot.specs.Attempt.{IsFlashAttempt, BootAttempt, attempt_end};
ghost use Rattle.x7_boot.specs.Boot.{BootedState, HasBoot, IsBoot, end_state};
ghost use Rattle.x7_boot.specs.Checked.{HasChecked};
ghost use Rattle.x7_boot.specs.BootCourse.{BootCourse, IsCourse, LeadsOnlyAlong, course_of};
ghost use Rattle.x7_boot.specs.declared.attempt.Ending.TheVariants as ending;
ghost use Rattle.x7_boot.specs.declared.boots.BootEnd.TheVariants as boot_end;

/// Over a flash of bytes an attempt that started passed its checks (`HasChecked`): START was executed after the part's
/// IDCODE was written, and DESYNC after START, and no check and no idcode before the last byte taken was wrong. The
/// last attempt of a boot that started passed them too.
pub fn starts_are_checked()
    ensures attempt { (part : PartData) (flash : List ℕ) (t : BootAttempt) → AreBytes flash → IsFlashAttempt part flash t → t.ending ≡ ending.Started
        → HasChecked part t.kept t.bytes }
    ensures boot { (part : PartData) (flash : List ℕ) (b : BootedState) → AreBytes flash → (is : IsBoot part flash b) → b.end ≡ boot_end.Started
        → HasChecked part is.last.kept is.last.bytes }
{}

/// Where the phase of startup is above 0 the checks (`HasChecked`) were passed. That is so after any bytes, at the end
/// of an attempt over a flash of bytes, and at the end of a boot from such a flash, whether the attempt or the boot
/// started or not.
pub fn startup_is_checked()
    ensures state { (part : PartData) (kept : Kept) (wrapped : Bool) (bytes : List ℕ) → AreBytes bytes → 0 < (state_of part kept wrapped bytes).phase
        → HasChecked part kept bytes }
    ensures attempt { (part : PartData) (flash : List ℕ) (t : BootAttempt) → AreBytes flash → IsFlashAttempt part flash t → 0 < (end_state part t).phase
        → HasChecked part t.kept t.bytes }
    ensures boot { (part : PartData) (flash : List ℕ) (b : BootedState) → AreBytes flash → (is : IsBoot part flash b) → 0 < (end_state part is.last).phase
        → HasChecked part is.last.kept is.last.bytes }
{}

/// Every flash leads a boot of a part to an end.
pub fn every_flash_boots()
    ensures { (part : PartData) (flash : List ℕ) → HasBoot part flash }
{}

/// An attempt that ended in the flash is one over each flash with the same bytes up to the attempt's end.
pub fn only_taken_bytes_count()
    ensures { (part : PartData) (flash other : List ℕ) (t : BootAttempt) → IsFlashAttempt part flash t → t.wrapped ≡ false
        → take (attempt_end t) other ≡ take (attempt_end t) flash → IsFlashAttempt part other t }
{}

/// A boot has a course, with its last attempt. Where a flash leads through attempts to an end, each course over it is
/// the one of these attempts and this end.
pub fn one_course()
    ensures boot { (part : PartData) (flash : List ℕ) (b : BootedState) → (boot : IsBoot part flash b) → IsCourse part flash (course_of b boot.last) }
    ensures along { (part : PartData) (flash : List ℕ) (c : BootCourse) → IsCourse part flash c → LeadsOnlyAlong part flash c }
{}

/// A flash has one boot of a part. Two attempts over it whose devices kept the same over their resets, and that begin
/// at the same address, are the same. Two boots from it have the same attempts, the same end and the same course of the
/// last attempt.
pub fn one_boot()
    ensures attempt { (part : PartData) (flash : List ℕ) (s t : BootAttempt) → IsFlashAttempt part flash s → IsFlashAttempt part flash t
        → s.kept ≡ t.kept → s.address ≡ t.address → s ≡ t }
    ensures attempts { (part : PartData) (flash : List ℕ) (a b : BootedState) → IsBoot part flash a → IsBoot part flash b → a.attempts ≡ b.attempts }
    ensures end { (part : PartData) (flash : List ℕ) (a b : BootedState) → IsBoot part flash a → IsBoot part flash b → a.end ≡ b.end }
    ensures last { (part : PartData) (flash : List ℕ) (a b : BootedState) → (x : IsBoot part flash a) → (y : IsBoot part flash b) → x.last ≡ y.last }
{}
