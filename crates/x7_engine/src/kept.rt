//! What a device keeps over a reset.
ghost use Rattle.std.specs.Prelude.{◌≡◌};
ghost use Rattle.x7_engine.specs.Kept.{is_fallback};

use x7_regs::{Attempt, Kind};

/// What a device keeps over a reset (this project's choice): three registers, the kind of the boot attempt that
/// follows, and the attempt before it.
#[derive(Clone, Copy)]
pub struct Kept {
    /// The word of WBSTAR.
    pub wbstar: u32,
    /// The word of TIMER.
    pub timer: u32,
    /// The word of BSPI.
    pub bspi: u32,
    /// What begins the boot attempt that follows the reset.
    pub kind: Kind,
    /// The boot attempt before the reset, if there was one.
    pub before: Option<Attempt>,
}

/// What a device on the bench keeps, one that no flash boots (this project's choice): 0 for each register, and no
/// attempt before.
pub const ON_THE_BENCH: Kept = Kept {
    wbstar: 0,
    timer: 0,
    bspi: 0,
    kind: Kind::Bench,
    before: None,
};

/// Whether an attempt is a fallback, which has no watchdog and ignores IPROG (UG470, MultiBoot and fallback).
pub fn is_fallback(kind: Kind) -> bool
    ensures { result ≡ is_fallback kind }
{
    match kind {
        Kind::Fallback => true,
        _ => false,
    }
}
