//! Why a frames text gives no plan.
ghost use Rattle.std.specs.Prelude.{◌≡◌};

use thiserror::Error;
use x7_words::NoMemory;

/// Why a frames text gives no plan: its first line at fault, by its number from 1, or want of memory.
#[derive(Clone, Copy, Debug, Drop, Error)]
pub enum FramesFault {
    /// The line is neither empty, nor a comment, nor `frame FAR DIGITS` with the digits of one frame of the part.
    #[error("line {0} is no frame line")]
    Line(u64),
    /// The part has no frame at the address on this line.
    #[error("line {0} has an address that the part lacks")]
    Address(u64),
    /// The address on this line stands on an earlier line too.
    #[error("line {0} repeats an address")]
    Twice(u64),
    /// There was no memory, for the plan or for its reader.
    #[error("no memory")]
    NoMemory,
}

impl From<NoMemory> for FramesFault {
    ghost use Rattle.std.specs.Prelude.{◌≡◌};
    ghost use Rattle.x7_frames.specs.declared.fault.FramesFault.TheVariants.{NoMemory};

    ghost from_gives = { λ _ fault. fault ≡ NoMemory };

    fn from(_: NoMemory) -> FramesFault {
        FramesFault::NoMemory
    }
}
