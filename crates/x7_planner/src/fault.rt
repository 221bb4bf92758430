//! Why a planner refuses.
ghost use Rattle.std.specs.Prelude.{◌≡◌};

use thiserror::Error;
use x7_words::NoMemory;

/// Why a planner refuses.
#[derive(Clone, Copy, Debug, Drop, Error)]
pub enum PlanFault {
    /// The plan has no frame.
    #[error("the plan has no frame")]
    Empty,
    /// The part lacks this address: the first such of a plan, or that of a readback.
    #[error("the part has no frame at {0:08X}")]
    Foreign(u32),
    /// The count of slots that can't be read: 0, or more than there are from the address on.
    #[error("{0} slots can't be read")]
    Range(u32),
    /// There was no memory for the stream.
    #[error("no memory")]
    NoMemory,
}

impl From<NoMemory> for PlanFault {
    ghost use Rattle.std.specs.Prelude.{◌≡◌};
    ghost use Rattle.x7_planner.specs.declared.fault.PlanFault.TheVariants.{NoMemory};

    ghost from_gives = { λ _ fault. fault ≡ NoMemory };

    fn from(_: NoMemory) -> PlanFault {
        PlanFault::NoMemory
    }
}
