//! Startup and the watchdog of a device, which the bytes taken and the words written move.
ghost use Rattle.std.specs.Prelude.{◌≡◌, ◌<◌, ◌≤◌, ◌+◌, ◌++◌, [], ℕ, true, None, IfSome, IsTrue, ◌==◌, nat_le};
ghost use Rattle.x7_packets.specs.History.{History};
ghost use Rattle.x7_part.specs.Part.{PartData};
ghost use Rattle.x7_flow.specs.Standing.{write_access, write_entry};
ghost use Rattle.x7_startup.specs.Phases.{last_phase};
ghost use Rattle.x7_startup.specs.Startup.{AddsCalls, ticks_of};
ghost use Rattle.x7_startup.specs.Watchdog.{ForEachCalls, WatchesFor};
ghost use Rattle.x7_engine.specs.Clock.{AreEndedAlike, HasEndedBy, TakesEntry, ClockTakes, ClockTakesInAny, ForEachCourseOfClock, ForEachHistoryOfStartup};
ghost use Rattle.x7_engine.specs.Course.{course_at};
ghost use Rattle.x7_engine.specs.Registers.{AreFactsOfWrite};
ghost use Rattle.x7_engine.specs.Startup.{startup_ended, phase_of, startup_progress, startup_call_by};
ghost use Rattle.x7_engine.specs.Value.{lines_by};
ghost use Rattle.x7_engine.specs.Watching.{watchdog_fires, first_firing, watch_call_by};
ghost use Rattle.x7_engine.specs.declared.kept.Kept.{Kept as KeptData};

use crate::kept::{Kept, is_fallback};
use x7_crc::is_command;
use x7_part::Part;
use x7_regs::{Command, Reg};
use x7_startup::{LAST_PHASE, Lines, Startup, Watchdog};

/// Does what a written word asks of startup, by the code of the command that it executes, if any, by whether it takes a
/// pending shutdown (it clears the check after SHUTDOWN), and by COR0 before the word.
fn move_startup(startup: &mut Startup, executed: Option<u8>, takes_shutdown: bool, cor0: u32)
    ensures { (lock_ticks match_ticks : ℕ) → AddsCalls lock_ticks match_ticks startup.old startup.new (startup_call_by executed takes_shutdown cor0) }
{
    if is_command(Command::Start, executed) {
        startup.arm();
        return;
    }
    if takes_shutdown {
        startup.drop_back();
        return;
    }
    if is_command(Command::Desync, executed) {
        startup.desync(cor0);
    }
}

/// Does what a written word, which executes a command or none, asks of the watchdog.
fn move_watchdog(watchdog: &mut Watchdog, executed: Option<u8>, reg: Reg, word: u32)
    ensures { ForEachCalls watchdog.old (λ off first calls. WatchesFor off first watchdog.new (calls ++ watch_call_by executed (write_access reg word))) }
{
    if is_command(Command::Ltimer, executed) {
        watchdog.reload();
        return;
    }
    match reg {
        Reg::Timer => watchdog.load(word),
        _ => (),
    }
}

/// Startup and the watchdog as the bytes taken and the accesses have left them.
#[derive(Clone, Copy)]
pub(crate) struct Clock {
    pub(crate) startup: Startup,
    pub(crate) watchdog: Watchdog,
}

impl Clock {
    ghost use Rattle.x7_engine.specs.Clock.{IsClock, clock_in};

    /// The clock of a device that took nothing, with what the reset kept: TIMER, and whether the attempt is a fallback,
    /// which has no watchdog.
    pub(crate) fn new(kept: &Kept) -> Clock
        ensures { (part : PartData) → IsClock part kept.now (clock_in result) [] 0 }
    {
        Clock {
            startup: Startup::new(),
            watchdog: Watchdog::new(kept.timer, is_fallback(kept.kind)),
        }
    }

    /// Takes a written word that executes a command or none, and takes a shutdown or not; `cor0` is COR0 as it was
    /// before the word.
    pub(crate) fn write(
        &mut self,
        executed: Option<u8>,
        takes_shutdown: bool,
        cor0: u32,
        reg: Reg,
        word: u32,
    )
        ensures { (place : ℕ) → TakesEntry (clock_in self.old) (clock_in self.new) (write_entry reg word place)
            (λ h. AreFactsOfWrite executed takes_shutdown cor0 h (write_access reg word)) }
    {
        move_startup(&mut self.startup, executed, takes_shutdown, cor0);
        move_watchdog(&mut self.watchdog, executed, reg, word);
    }

    /// The phase of startup, 0 to 7.
    pub(crate) fn phase(&self) -> u8
        ensures stored { result ≡ self.now.startup.phase }
        ensures most { result ≤ last_phase }
        ensures value { ForEachHistoryOfStartup self.now.startup (λ part h n. result ≡ phase_of part h n) }
    {
        self.startup.phase()
    }

    /// Whether startup has ended: the phase is 7.
    pub(crate) fn startup_ended(&self) -> bool
        ensures stored { result ≡ (self.now.startup.phase == last_phase) }
        ensures value { ForEachHistoryOfStartup self.now.startup (λ part h n. result ≡ startup_ended part h n) }
    {
        self.phase() == LAST_PHASE
    }

    /// Whether `ticks` ticks or more have passed since startup began; where it hasn't begun, whether `ticks` is 0.
    pub(crate) fn have_passed(&self, ticks: u16) -> bool
        ensures { ForEachHistoryOfStartup self.now.startup (λ part h n. result ≡ nat_le ticks (ticks_of (startup_progress h n))) }
    {
        ticks <= self.startup.ticks()
    }

    /// The lines DONE, GTS_CFG_B and GWE.
    pub(crate) fn lines(&self) -> Lines
        ensures { ForEachHistoryOfStartup self.now.startup (λ part h n. result ≡ lines_by part (startup_progress h n)) }
    {
        self.startup.lines()
    }

    /// Takes a byte: whether the watchdog fires at it.
    fn byte(&mut self, part: &Part) -> bool
        ensures stands { ForEachCourseOfClock part.now (clock_in self.old) (λ kept h n. IsClock part.now kept (clock_in self.new) h (n + 1)) }
        ensures fires { ForEachCourseOfClock part.now (clock_in self.old) (λ kept h n. result ≡ watchdog_fires part.now kept h (n + 1)) }
    {
        self.startup.byte(part.lock(), part.matched());
        let eos = self.startup_ended();
        self.watchdog.byte(eos)
    }

    /// Takes `count` bytes, up to the first at which the watchdog fires: the number of that byte, from 1, or none where
    /// it fires at no byte. Up to the end of startup the bytes come one by one, and the rest at once.
    fn bytes_one_by_one(&mut self, part: &Part, count: usize) -> Option<usize>
        ensures { ClockTakesInAny part.now (clock_in self.old) (clock_in self.new) count result }
    {
        for i in 0..count {
            if self.byte(part) {
                return Some(i + 1);
            }
            if self.startup_ended() {
                return self.bytes_after_end(part, i + 1, count);
            }
        }
        None
    }

    /// Takes the rest of `count` bytes at once, where startup has ended with the first `taken` and the watchdog fired
    /// at none of these, up to the first at which it fires. Answers the number of that byte among all `count`, from 1,
    /// or none where it fires at no byte.
    fn bytes_after_end(&mut self, part: &Part, taken: usize, count: usize) -> Option<usize>
        requires within { taken ≤ count }
        ensures within { IfSome result (λ k. (0 < k) × (k ≤ count)) }
        ensures takes { (kept : KeptData) (h : History) (n : ℕ) → HasEndedBy (course_at part.now kept h n) (clock_in self.old) taken
            → ClockTakes (course_at part.now kept h n) (clock_in self.new) count result }
    {
        // Startup has ended at each of the rest.
        let eos = true;
        match self.bytes_alike(part, count - taken, eos) {
            Some(k) => Some(taken + k),
            None => None,
        }
    }

    /// Takes `count` bytes, at each of which startup has ended (`eos`) or at none, up to the first at which the
    /// watchdog fires: the number of that byte, from 1, or none where it fires at no byte.
    fn bytes_alike(&mut self, part: &Part, count: usize, eos: bool) -> Option<usize>
        ensures within { IfSome result (λ k. (0 < k) × (k ≤ count)) }
        ensures takes { (kept : KeptData) (h : History) (n : ℕ) → AreEndedAlike (course_at part.now kept h n) (clock_in self.old) count eos
            → ClockTakes (course_at part.now kept h n) (clock_in self.new) count result }
    {
        let Some(k) = self.watchdog.bytes(count as u64, eos) else {
            self.startup
                .bytes(count as u64, part.lock(), part.matched());
            return None;
        };
        self.startup.bytes(k, part.lock(), part.matched());
        Some(k as usize)
    }

    /// Whether startup would have ended after `count` bytes more.
    fn ends_within(&self, part: &Part, count: usize) -> bool
        ensures { ForEachCourseOfClock part.now (clock_in self.now) (λ kept h n. result ≡ startup_ended part.now h (n + count)) }
    {
        let mut then = *self;
        then.startup
            .bytes(count as u64, part.lock(), part.matched());
        then.startup_ended()
    }

    /// True only where bytes leave the clock as it is: startup hasn't begun, and the watchdog has no count at which it
    /// fires.
    #[inline(always)]
    pub(crate) fn is_idle(&self) -> bool
        ensures not_begun { IsTrue result → self.now.startup.begun_with ≡ None }
        ensures no_limit { IsTrue result → self.now.watchdog.limit ≡ 0 }
    {
        if self.startup.has_begun() {
            return false;
        }
        !self.watchdog.has_limit()
    }

    /// Takes `count` bytes before the word that they complete, up to the first at which the watchdog fires: the number
    /// of that byte, from 1, or none where it fires at no byte.
    #[inline(always)]
    pub(crate) fn bytes(&mut self, part: &Part, count: usize) -> Option<usize>
        ensures { ClockTakesInAny part.now (clock_in self.old) (clock_in self.new) count result }
    {
        if self.is_idle() {
            return None;
        }
        self.move_on(part, count)
    }

    /// How many of the next `count` bytes come before the first at which the watchdog fires: all, where it fires at
    /// none. The clauses say just that it fires at none of that many.
    #[inline(always)]
    pub(crate) fn before_firing(&self, part: &Part, count: usize) -> usize
        ensures within { result ≤ count }
        ensures none_fires { ForEachCourseOfClock part.now (clock_in self.now) (λ kept h n. first_firing part.now kept h n result ≡ None) }
    {
        let mut then = *self;
        match then.bytes(part, count) {
            Some(firing) => firing - 1,
            None => count,
        }
    }

    /// Takes `count` bytes, also where startup or the watchdog goes on with them, up to the first at which the watchdog
    /// fires: the number of that byte, from 1, or none where it fires at no byte.
    #[inline(never)]
    fn move_on(&mut self, part: &Part, count: usize) -> Option<usize>
        ensures { ClockTakesInAny part.now (clock_in self.old) (clock_in self.new) count result }
    {
        let eos = self.startup_ended();
        // By bytes alone the phase never falls, so startup has ended at each of them or at none.
        if eos == self.ends_within(part, count) {
            return self.bytes_alike(part, count, eos);
        }
        self.bytes_one_by_one(part, count)
    }
}
