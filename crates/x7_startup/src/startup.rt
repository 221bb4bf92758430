//! The startup sequence: it moves by a phase a tick, save where COR0 makes it wait.
ghost use Rattle.std.specs.Prelude.{◌≡◌, ◌<◌, ◌≤◌, ◌+◌, ◌∷◌, min, ℕ, List, [], replicate, is_some};
ghost use Rattle.x7_startup.specs.Lines.{done_line, gts_line, gwe_line, AreLines};
ghost use Rattle.x7_startup.specs.Phases.{last_phase, tick_limit, tick_size};
ghost use Rattle.x7_startup.specs.Startup.{AddsCalls, Call, Arm, Desync, Byte, DropBack, StartupState, StandsForCalls, IsPhaseAfter, progress_of, cor0_of, ticks_of};

use crate::lines::{Lines, lines_in};
use crate::phases::{Reached, TICK_SIZE, pass_ticks, tick};
use std::marker::Model;

/// The number of a tick's last byte, from 0.
const LAST_OF_TICK: u8 = TICK_SIZE as u8 - 1;

/// Startup as the calls so far have left it (UG470, startup).
#[derive(Clone, Copy)]
pub struct Startup {
    armed: bool,
    /// COR0 as it stood where startup began, if it has begun.
    begun_with: Option<u32>,
    /// The bytes past the last tick, fewer than a tick has.
    tick_bytes: u8,
    ticks: u16,
    phase: u8,
}

impl Model for Startup {
    ghost Value = { StartupState };

    ghost view = { λ s. record { armed = s.armed; begun_with = s.begun_with; tick_bytes = s.tick_bytes; ticks = s.ticks; phase = s.phase } };

    ghost inverse = { λ v. record { armed = v.armed; begun_with = v.begun_with; tick_bytes = v.tick_bytes; ticks = v.ticks; phase = v.phase } };

    ghost invariant = { λ s. (s.tick_bytes < tick_size) × (s.phase ≤ last_phase) };
}

impl Startup {
    /// A startup after a reset: not armed, not begun.
    pub fn new() -> Self
        ensures stands { (lock_ticks match_ticks : ℕ) → StandsForCalls lock_ticks match_ticks result [] }
    {
        Startup {
            armed: false,
            begun_with: None,
            tick_bytes: 0,
            ticks: 0,
            phase: 0,
        }
    }

    /// START: the next DESYNC begins startup, unless it has begun already or a shutdown is taken first.
    pub fn arm(&mut self)
        ensures stands { (lock_ticks match_ticks : ℕ) → AddsCalls lock_ticks match_ticks self.old self.new (Arm ∷ []) }
    {
        self.armed = true;
    }

    /// DESYNC: begins an armed startup with this COR0, unless it has begun already, and disarms.
    pub fn desync(&mut self, cor0: u32)
        ensures stands { (lock_ticks match_ticks : ℕ) → AddsCalls lock_ticks match_ticks self.old self.new (Desync cor0 ∷ []) }
    {
        self.begun_with = self.begun_with.or(self.armed.then_some(cor0));
        self.armed = false;
    }

    /// One byte more was taken, by a part whose clocks lock and whose impedance matches after these ticks of startup.
    pub fn byte(&mut self, lock_ticks: u16, match_ticks: u16)
        ensures stands { AddsCalls lock_ticks match_ticks self.old self.new (Byte ∷ []) }
    {
        let Some(cor0) = self.begun_with else {
            return;
        };
        if self.tick_bytes < LAST_OF_TICK {
            self.tick_bytes += 1;
            return;
        }
        let reached = Reached {
            ticks: self.ticks,
            phase: self.phase,
        };
        let next = tick(cor0, reached, lock_ticks, match_ticks);
        self.tick_bytes = 0;
        self.ticks = next.ticks;
        self.phase = next.phase;
    }

    /// `count` bytes more were taken: what as many calls of `byte` do, at once.
    pub fn bytes(&mut self, count: u64, lock_ticks: u16, match_ticks: u16)
        ensures stands { AddsCalls lock_ticks match_ticks self.old self.new (replicate count Byte) }
    {
        let Some(cor0) = self.begun_with else {
            return;
        };
        let tick_bytes = u64::from(self.tick_bytes) + count % TICK_SIZE;
        let reached = Reached {
            ticks: self.ticks,
            phase: self.phase,
        };
        let next = pass_ticks(
            cor0,
            reached,
            count / TICK_SIZE + tick_bytes / TICK_SIZE,
            lock_ticks,
            match_ticks,
        );
        self.tick_bytes = (tick_bytes % TICK_SIZE) as u8;
        self.ticks = next.ticks;
        self.phase = next.phase;
    }

    /// A shutdown was taken: not armed, not begun.
    pub fn drop_back(&mut self)
        ensures stands { (lock_ticks match_ticks : ℕ) → AddsCalls lock_ticks match_ticks self.old self.new (DropBack ∷ []) }
    {
        self.armed = false;
        self.begun_with = None;
        self.tick_bytes = 0;
        self.ticks = 0;
        self.phase = 0;
    }

    /// Whether startup has begun, since the last shutdown taken. Until then bytes leave it as it is.
    pub fn has_begun(&self) -> bool
        ensures { result ≡ is_some self.now.begun_with }
    {
        self.begun_with.is_some()
    }

    /// The phase of startup, 0 to 7, and 0 where it hasn't begun.
    pub fn phase(&self) -> u8
        ensures value { result ≡ self.now.phase }
        ensures most { result ≤ last_phase }
        ensures stands { (lock_ticks match_ticks : ℕ) (calls : List Call) → StandsForCalls lock_ticks match_ticks self.now calls
            → IsPhaseAfter lock_ticks match_ticks calls result }
    {
        self.phase
    }

    /// The ticks since startup began, 0 where it hasn't: they are counted up to 65,535 (`tick_limit`).
    pub fn ticks(&self) -> u16
        ensures value { result ≡ self.now.ticks }
        ensures stands { (lock_ticks match_ticks : ℕ) (calls : List Call) → StandsForCalls lock_ticks match_ticks self.now calls
            → result ≡ min (ticks_of (progress_of calls)) tick_limit }
    {
        self.ticks
    }

    /// The lines DONE, GTS_CFG_B and GWE, which are 0 until startup has begun.
    pub fn lines(&self) -> Lines
        ensures stands { (lock_ticks match_ticks : ℕ) (calls : List Call) → StandsForCalls lock_ticks match_ticks self.now calls
            → AreLines (cor0_of (progress_of calls)) self.now.phase result.done result.gts result.gwe }
        ensures done { result.done ≡ done_line self.now.begun_with self.now.phase }
        ensures gts { result.gts ≡ gts_line self.now.begun_with self.now.phase }
        ensures gwe { result.gwe ≡ gwe_line self.now.begun_with self.now.phase }
    {
        let Some(cor0) = self.begun_with else {
            return Lines {
                done: false,
                gts: false,
                gwe: false,
            };
        };
        lines_in(cor0, self.phase)
    }
}
