//! The law of phases. The function does nothing: its contract is the law.
ghost use Rattle.std.specs.Prelude.{◌≡◌, ℕ, List, replicate};
ghost use Rattle.x7_startup.specs.Startup.{Byte, Call, IsPhaseAfter, NeverLowersPhase};

/// After a list of calls there is at most one phase, and bytes alone never lower it: so phase 7 lasts as long as only
/// bytes come.
pub fn phases_never_fall()
    ensures one_phase { (lock_ticks match_ticks : ℕ) (calls : List Call) (one other : ℕ) → IsPhaseAfter lock_ticks match_ticks calls one
        → IsPhaseAfter lock_ticks match_ticks calls other → one ≡ other }
    ensures bytes { (lock_ticks match_ticks : ℕ) (calls : List Call) (count : ℕ) → NeverLowersPhase lock_ticks match_ticks calls (replicate count Byte) }
{}
