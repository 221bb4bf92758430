//! A device is brought forward to the first later position where a stop holds.
ghost use Rattle.std.specs.Prelude.{◌≡◌, ◌≤◌, ◌<◌, ◌+◌, ◌-◌, ℕ, true, false, max};
ghost use Rattle.x7_debug.specs.Journal.{ComesToPosition, HasRecorded, IsNearNewest, MoveCosts, reach, record_reach};
ghost use Rattle.x7_debug.specs.SessionFields.{SessionFits, session_of};
ghost use Rattle.x7_debug.specs.Moving.{ComesForward, ComesForwardRecorded, IsBeforeLast, MayMove, MayMoveForward};
ghost use Rattle.x7_debug.specs.Position.{holds_at, holds_in, until_of};
ghost use Rattle.x7_debug.specs.declared.order.Stop.TheVariants as to;

use crate::journal::Journal;
use crate::moving::{REACH, RECORD_REACH, feed_recorded, feed_to, leap, move_to};
use crate::order::Stop;
use crate::outline::Outline;
use x7_engine::{Device, End};

/// Whether a stop holds where the bytes end as `end` says, with startup in phase `phase`.
fn holds_in(stop: Stop, end: End, phase: u8) -> bool
    ensures { result ≡ holds_in stop end phase }
{
    match (stop, end) {
        (Stop::Synced, End::Synced) => true,
        (Stop::Searching, End::Searching) => true,
        (Stop::Stopped, End::Iprog(_)) => true,
        (Stop::Stopped, End::Fault(_)) => true,
        (Stop::Phase(wanted), _) => phase == wanted,
        _ => false,
    }
}

/// Brings a device forward byte by byte to the first position where the stop holds, which may be where it stands, or
/// else to `bound`, at most four bytes after the newest record. Says whether the stop holds there.
fn seek(device: &mut Device, journal: &Journal, stream: &[u8], bound: u64, stop: Stop) -> bool
    requires may_move { MayMoveForward stream.now device.old journal.now bound }
    requires near_newest { IsNearNewest journal.now bound }
    ensures at_position { ComesForward stream.now device.old device.new journal.now device.new.taken }
    ensures forward { device.old.taken ≤ device.new.taken }
    ensures within { device.new.taken ≤ bound }
    ensures found { result ≡ true → holds_at device.old.part stream.now stop device.new.taken ≡ true }
    ensures at_bound { result ≡ false → device.new.taken ≡ bound }
    ensures none_before { (k : ℕ) → device.old.taken ≤ k → k < device.new.taken → holds_at device.old.part stream.now stop k ≡ false }
    ensures none_at_end { result ≡ false → holds_at device.old.part stream.now stop bound ≡ false }
{
    loop {
        if holds_in(stop, device.end(), device.phase()) {
            return true;
        }
        let at = device.taken();
        if at >= bound {
            return false;
        }
        feed_to(device, stream, at + 1);
    }
}

/// Brings a device forward, with a record, to the first later position where the stop holds, or else by four bytes, or
/// to the last position where fewer are left. Says whether the stop holds there.
fn seek_word(
    device: &mut Device,
    journal: &mut Journal,
    stream: &[u8],
    last: u64,
    stop: Stop,
) -> bool
    requires { IsBeforeLast stream.now device.old journal.old last }
    ensures at_position { ComesForward stream.now device.old device.new journal.new device.new.taken }
    ensures recorded { HasRecorded device.old journal.old journal.new }
    ensures forward { device.old.taken < device.new.taken }
    ensures within { device.new.taken ≤ last }
    ensures one_record { device.new.taken ≤ device.old.taken + record_reach }
    ensures whole_record { result ≡ false → device.new.taken < last → device.new.taken ≡ device.old.taken + record_reach }
    ensures found { result ≡ true → holds_at device.old.part stream.now stop device.new.taken ≡ true }
    ensures none_before { (k : ℕ) → device.old.taken < k → k < device.new.taken → holds_at device.old.part stream.now stop k ≡ false }
    ensures none_at_end { result ≡ false → holds_at device.old.part stream.now stop device.new.taken ≡ false }
{
    let from = device.taken();
    feed_recorded(device, journal, stream, from + 1);
    seek(device, journal, stream, last.min(from + RECORD_REACH), stop)
}

/// Brings a device forward, byte by byte, to the first later position where the stop holds, or else to the last one.
fn forward_until(device: &mut Device, journal: &mut Journal, stream: &[u8], last: u64, stop: Stop)
    requires { IsBeforeLast stream.now device.old journal.old last }
    ensures at_position { ComesForwardRecorded stream.now device.old device.new journal.new (until_of device.old.part stream.now stop device.old.taken) }
    ensures forward { device.old.taken < device.new.taken }
{
    while device.taken() < last {
        if seek_word(device, journal, stream, last, stop) {
            return;
        }
    }
}

/// Feeds a device in one piece up to 254 bytes before `begins`, a position before which the phase of startup is 0, and
/// forgets its records: those made from there on lead back at least `REACH` bytes from each position from `begins` on.
/// A device that is there or past it already stays, with its records.
fn leap_near(device: &mut Device, journal: &mut Journal, stream: &[u8], begins: u64)
    requires { MayMove stream.now device.old journal.old begins }
    ensures at_position { ComesForward stream.now device.old device.new journal.new device.new.taken }
    ensures forward { device.old.taken ≤ device.new.taken }
    ensures within { device.new.taken ≤ max device.old.taken (begins - (reach + 1)) }
{
    let near = begins.saturating_sub(REACH + 1);
    if device.taken() < near {
        leap(device, journal, stream, near);
    }
}

/// Brings a device forward to the first later position with startup in phase `phase`, or else to the last one. Where
/// `phase` isn't 0, the positions up to 254 bytes before the outline's `begins`, which have phase 0, are passed over in
/// one piece.
fn go_to_phase(
    device: &mut Device,
    journal: &mut Journal,
    stream: &[u8],
    outline: Outline,
    phase: u8,
)
    requires kept { SessionFits device.old stream.now outline journal.old }
    requires before { device.old.taken < outline.last }
    ensures at_position { ComesForwardRecorded stream.now device.old device.new journal.new (until_of device.old.part stream.now (to.Phase phase) device.old.taken) }
    ensures forward { device.old.taken < device.new.taken }
{
    if phase == 0 {
        return forward_until(device, journal, stream, outline.last, Stop::Phase(phase));
    }
    leap_near(device, journal, stream, outline.begins);
    forward_until(device, journal, stream, outline.last, Stop::Phase(phase));
}

/// Brings a device forward to the first later position where the stop holds, or else to the last one. What stops a
/// device comes at the last position alone.
pub(crate) fn go_until(
    device: &mut Device,
    journal: &mut Journal,
    stream: &[u8],
    outline: Outline,
    stop: Stop,
)
    requires { SessionFits device.old stream.now outline journal.old }
    ensures at_position { ComesToPosition stream.now device.old device.new journal.new (until_of device.old.part stream.now stop device.old.taken) }
    ensures costs { MoveCosts (session_of device.old stream.now journal.old) (session_of device.new stream.now journal.new) }
{
    if device.taken() >= outline.last {
        return;
    }
    match stop {
        Stop::Stopped => move_to(device, journal, stream, outline.last),
        Stop::Phase(phase) => go_to_phase(device, journal, stream, outline, phase),
        _ => forward_until(device, journal, stream, outline.last, stop),
    }
}
