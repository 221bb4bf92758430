//! All that a device's registers store, except their frames: saved by a copy, and restored by an assignment.
ghost use Rattle.std.specs.Prelude.{◌≡◌, [], None};
ghost use Rattle.x7_part.specs.Part.{PartData};
ghost use Rattle.x7_flow.specs.Standing.{FramesStandFor, FramesState};
ghost use Rattle.x7_engine.specs.Standing.{RegistersStandFor, values_in};

use crate::clock::Clock;
use crate::controls::Controls;
use crate::due::Due;
use crate::kept::Kept;
use crate::progress::Progress;
use crate::stop::StopCause;
use crate::words::LastWords;
use x7_regs::{Attempt, Kind};

/// The values of a device's registers, its clock, what stopped it, and the words of the last read that are still to be
/// given.
#[derive(Clone, Copy)]
pub(crate) struct Values {
    pub(crate) words: LastWords,
    pub(crate) controls: Controls,
    pub(crate) progress: Progress,
    // what began the present boot attempt
    pub(crate) kind: Kind,
    // the boot attempt before, if there was one
    pub(crate) before: Option<Attempt>,
    pub(crate) clock: Clock,
    pub(crate) stop: Option<StopCause>,
    pub(crate) due: Due,
}

impl Values {
    /// The values of a device that took nothing, with what the reset kept.
    pub(crate) fn new(kept: &Kept) -> Values
        ensures stands { (part : PartData) (f : FramesState) → FramesStandFor part f [] 0
            → RegistersStandFor part kept.now (record { values = values_in result; frames = f }) [] 0 }
        ensures going { result.stop ≡ None }
        ensures no_word_due { result.due ≡ Due.Nothing }
    {
        Values {
            words: LastWords::new(kept),
            controls: Controls::new(),
            progress: Progress::new(),
            kind: kept.kind,
            before: kept.before,
            clock: Clock::new(kept),
            stop: None,
            due: Due::Nothing,
        }
    }
}
