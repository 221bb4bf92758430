//! Phases by ticks (UG470, startup).
ghost use Rattle.std.specs.Prelude.{◌≡◌, ◌≤◌};
ghost use Rattle.x7_startup.specs.Phases.{last_phase, wait_of};
ghost use Rattle.x7_startup.specs.Ticks.{PassesTicks};

use x7_regs::{LOCK_CYCLE, MATCH_CYCLE};

/// How many bytes a tick takes (this project's choice).
pub const TICK_SIZE: u64 = 4;

/// How many ticks are counted at most, the greatest number of 16 bits: no part waits for more.
const TICK_LIMIT: u64 = 65_535;

/// The number of the last phase of startup, in which startup has ended (UG470, startup).
pub const LAST_PHASE: u8 = 7;

/// A phase of at most `LAST_PHASE`, and the ticks since startup began, at most `TICK_LIMIT`.
#[derive(Clone, Copy)]
pub(crate) struct Reached {
    pub(crate) ticks: u16,
    pub(crate) phase: u8,
}

/// The ticks since startup began that must have passed before the phase is left, 0 where it waits for nothing.
fn wait_of(cor0: u32, phase: u8, lock_ticks: u16, match_ticks: u16) -> u16
    ensures { result ≡ wait_of lock_ticks match_ticks cor0 phase }
{
    let for_lock = if cor0 >> LOCK_CYCLE & 7 == u32::from(phase) {
        lock_ticks
    } else {
        0
    };
    let for_match = if cor0 >> MATCH_CYCLE & 7 == u32::from(phase) {
        match_ticks
    } else {
        0
    };
    for_lock.max(for_match)
}

/// The phase and the ticks that are reached one tick later.
pub(crate) fn tick(cor0: u32, start: Reached, lock_ticks: u16, match_ticks: u16) -> Reached
    requires most { start.phase ≤ last_phase }
    ensures most { result.phase ≤ last_phase }
    ensures passes { PassesTicks (wait_of lock_ticks match_ticks cor0) start 1 result }
{
    let ticks = start.ticks.saturating_add(1);
    let phase = start.phase;
    if phase == LAST_PHASE {
        return Reached { ticks, phase };
    }
    if start.ticks < wait_of(cor0, phase, lock_ticks, match_ticks) {
        return Reached { ticks, phase };
    }
    Reached {
        ticks,
        phase: phase + 1,
    }
}

/// The phase and the ticks that are reached `count` ticks later.
#[tactic(auto, using(crate::proofs::TickLemmas::passed_none, crate::proofs::TickLemmas::passed_stays, crate::proofs::TickLemmas::passed_moves, crate::proofs::TickLemmas::passed_all))]
pub(crate) fn pass_ticks(
    cor0: u32,
    start: Reached,
    count: u64,
    lock_ticks: u16,
    match_ticks: u16,
) -> Reached
    requires most { start.phase ≤ last_phase }
    ensures most { result.phase ≤ last_phase }
    ensures passes { PassesTicks (wait_of lock_ticks match_ticks cor0) start count result }
{
    let mut ticks = start.ticks;
    let mut phase = start.phase;
    let mut left = count;
    while left > 0 && phase < LAST_PHASE {
        let wait = wait_of(cor0, phase, lock_ticks, match_ticks);
        if ticks < wait {
            let step = left.min(u64::from(wait - ticks));
            ticks += step as u16;
            left -= step;
        } else {
            phase += 1;
            ticks = ticks.saturating_add(1);
            left -= 1;
        }
    }
    let all = u64::from(ticks).saturating_add(left).min(TICK_LIMIT) as u16;
    Reached { ticks: all, phase }
}
