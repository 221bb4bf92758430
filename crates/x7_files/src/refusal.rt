//! Files that were not opened.
ghost use Rattle.std.specs.Prelude.{◌≡◌, Some};
ghost use Rattle.x7_files.specs.Refusal.{absences_after, faults_after, RefusedFor};

use std::io::ErrorKind;
use x7_words::{SelectFault, raised};

/// Counts a file that was not opened, by the kind of the error: as an absence where the file isn't there, and for
/// nothing else, and else as a fault. Says which.
pub(crate) fn count_refusal(kind: ErrorKind, faults: &mut u64, absences: &mut u64) -> SelectFault
    ensures refused { RefusedFor (Some kind) result }
    ensures faults { faults.new ≡ faults_after result faults.old }
    ensures absences { absences.new ≡ absences_after result absences.old }
{
    if kind == ErrorKind::NotFound {
        *absences = raised(*absences);
        return SelectFault::Missing;
    }
    *faults = raised(*faults);
    SelectFault::Failed
}
