//! The configuration watchdog (UG470, watchdog): it counts the bytes at which it is on.
ghost use Rattle.std.specs.Prelude.{◌≡◌, ◌<◌, ◌≤◌, ◌^◌, ◌+◌, ◌-◌, ◌*◌, ◌==◌, ◌&&◌, ◌↔◌, ◌∷◌, ◌++◌, not, min, ℕ, IsTrue, [], IfSome, IfNone, if◌then◌else◌};
ghost use Rattle.x7_startup.specs.Watchdog.{FiredAt, NoneFired, ForEachCalls, Load, Reload, Watched, WatchdogState, WatchesFor, FiresNext, firing_count};

use std::marker::Model;

/// The number of the bit of TIMER by which the watchdog counts during configuration.
const CFG_MON: u32 = 30;

/// The bits of TIMER that are its value.
const TIMER_VALUE: u32 = 0x3FFF_FFFF;

/// How many counted bytes are one of TIMER's value (this project's choice).
const TIMER_STEP: u32 = 4;

/// The number up to which bytes are counted, the last of 32 bits, which is above each count at which a watchdog fires.
const COUNT_LIMIT: u64 = 0xFFFF_FFFF;

/// The watchdog of one attempt, as the calls so far have left it (UG470, watchdog; that it counts bytes is this
/// project's choice).
#[derive(Clone, Copy)]
pub struct Watchdog {
    /// Whether the attempt has no watchdog.
    off: bool,
    /// The count at which it fires: `TIMER_STEP` times TIMER's value, or 0 where TIMER or the attempt has it off.
    limit: u32,
    /// How many bytes it counted since its count began anew, up to `COUNT_LIMIT`.
    count: u32,
}

impl Model for Watchdog {
    ghost Value = { WatchdogState };

    ghost view = { λ w. record { off = w.off; limit = w.limit; count = w.count } };

    ghost inverse = { λ v. record { off = v.off; limit = v.limit; count = v.count } };
}

impl Watchdog {
    /// A watchdog after a reset with this TIMER; `off` is true for an attempt that has none.
    pub fn new(timer: u32, off: bool) -> Self
        ensures stands { WatchesFor off timer result [] }
    {
        Watchdog {
            off,
            limit: limit_of(off, timer),
            count: 0,
        }
    }

    /// A word was written to TIMER: the word says after how many counted bytes the watchdog fires, if the watchdog is
    /// on, and the count begins anew.
    pub fn load(&mut self, timer: u32)
        ensures stands { ForEachCalls self.old (λ off first calls. WatchesFor off first self.new (calls ++ Load timer ∷ [])) }
    {
        *self = Watchdog {
            off: self.off,
            limit: limit_of(self.off, timer),
            count: 0,
        };
    }

    /// LTIMER: the count begins anew.
    pub fn reload(&mut self)
        ensures stands { ForEachCalls self.old (λ off first calls. WatchesFor off first self.new (calls ++ Reload ∷ [])) }
    {
        self.count = 0;
    }

    /// Whether the watchdog has a count at which it fires: in an attempt that has a watchdog, where CFG_MON (bit 30 of
    /// TIMER) is 1 and TIMER's value (bits 29:0) isn't 0. Without such a count, bytes leave the watchdog as it is; with
    /// one, it counts the bytes before phase 7.
    pub fn has_limit(&self) -> bool
        ensures { result ≡ not (self.now.limit == 0) }
    {
        self.limit != 0
    }

    /// One byte more was taken, with EOS (end of startup, phase 7) as `eos` says: whether the watchdog fires at it.
    pub fn byte(&mut self, eos: bool) -> bool
        ensures stands { ForEachCalls self.old (λ off first calls. WatchesFor off first self.new (calls ++ Watched eos ∷ [])) }
        ensures fires { ForEachCalls self.old (λ off first calls. (IsTrue result ↔ FiresNext off first calls eos)) }
    {
        if !is_on(self.limit, eos) {
            return false;
        }
        self.count = self.count.saturating_add(1);
        self.count == self.limit
    }

    /// `count` bytes more were taken, each with EOS (end of startup, phase 7) as `eos` says, up to the one at which the
    /// watchdog fires: the number of that byte, from 1, or none where it doesn't fire.
    pub fn bytes(&mut self, count: u64, eos: bool) -> Option<u64>
        ensures within { IfSome result (λ n. (0 < n) × (n ≤ count)) }
        ensures fires { ForEachCalls self.old (λ off first calls.
            IfSome result (λ n. FiredAt off first calls eos count n self.new)) }
        ensures none_fires { ForEachCalls self.old (λ off first calls.
            IfNone result (NoneFired off first calls eos count self.new)) }
    {
        let on = is_on(self.limit, eos);
        let Some(n) = firing_within(on, self.count, self.limit, count) else {
            self.count = count_after(on, self.count, count);
            return None;
        };
        self.count = self.limit;
        Some(n)
    }
}

/// The count at which the watchdog fires: `TIMER_STEP` times TIMER's value, and 0 where TIMER or the attempt has it
/// off.
fn limit_of(off: bool, timer: u32) -> u32
    ensures { result ≡ firing_count off timer }
{
    if timer >> CFG_MON & 1 == 1 && !off {
        (timer & TIMER_VALUE) * TIMER_STEP
    } else {
        0
    }
}

/// Whether the watchdog with this limit is on at a byte, and counts it; `eos` is EOS, 1 in phase 7.
fn is_on(limit: u32, eos: bool) -> bool
    ensures { result ≡ not (limit == 0) && not eos }
{
    limit != 0 && !eos
}

/// How many more bytes, `bytes` at most, bring the count to the limit; none where that many don't, or where the
/// watchdog isn't on at them.
fn firing_within(on: bool, count: u32, limit: u32, bytes: u64) -> Option<u64>
    ensures fires { IfSome result (λ n. (0 < n) × (n ≤ bytes) × IsTrue on × (count + n ≡ limit)) }
    ensures none_fires { IfNone result ((k : ℕ) → k < bytes → IsTrue on → ¬ (count + (k + 1) ≡ limit)) }
{
    if on && count < limit && u64::from(limit - count) <= bytes {
        Some(u64::from(limit - count))
    } else {
        None
    }
}

/// The count after `bytes` more, at all of which the watchdog is on, or at none; it stops at `COUNT_LIMIT`.
fn count_after(on: bool, count: u32, bytes: u64) -> u32
    ensures { result ≡ min (count + bytes * (if on then 1 else 0)) (2 ^ 32 - 1) }
{
    if on {
        u64::from(count).saturating_add(bytes).min(COUNT_LIMIT) as u32
    } else {
        count
    }
}
