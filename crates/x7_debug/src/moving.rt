//! A device is brought from one position of a stream to another one, forwards by pieces and backwards by records.
ghost use Rattle.std.specs.Prelude.{◌≡◌, ◌≤◌, ◌<◌, ◌+◌, ◌-◌, length};
ghost use Rattle.x7_engine.specs.Standing.{CanBeGiven, fed_of};
ghost use Rattle.x7_debug.specs.Journal.{ComesToPosition, MoveCosts, HasRecorded, IsFedAsTaken, IsFedAtMost, IsOnStream, KeepsOldest, oldest_by, reach, record_reach, record_room, records_of};
ghost use Rattle.x7_debug.specs.SessionFields.{session_of};
ghost use Rattle.x7_debug.specs.Moving.{ComesForward, ComesForwardRecorded, MayMove, MayMoveBack, MayMoveForward};
ghost use Rattle.x7_debug.specs.Position.{last_of};
ghost use Rattle.x7_debug.specs.Session.{StandsAtPosition, TakesUpToStop};

use crate::journal::{Journal, RECORD_ROOM};
use x7_engine::{Device, ON_THE_BENCH, ReadBuf, UNDO_REACH};

/// How many bytes a record leads back at most.
pub(crate) const RECORD_REACH: u64 = UNDO_REACH;

/// How many bytes the records lead back at least after one move forward of at least this length: four for each record
/// but the newest, which may be just one byte before the position. After several shorter moves they may lead back over
/// fewer bytes.
pub(crate) const REACH: u64 = (RECORD_ROOM as u64 - 1) * RECORD_REACH + 1;

/// How many bytes before its end a longer move forward begins to make records, one each four bytes: as many as there is
/// room for. After such a move, one back by a multiple of four bytes, up to this many, feeds none; the clauses say just
/// that a move back by at most `REACH` bytes feeds at most three.
const RECORDED_SIZE: u64 = RECORD_ROOM as u64 * RECORD_REACH;

/// Feeds a piece to a device, up to and with the byte at which it stops. Words read out are dropped.
pub(crate) fn feed_piece(device: &mut Device, piece: &[u8])
    requires { CanBeGiven device.old (length piece.now) }
    ensures takes { TakesUpToStop device.old device.new piece.now }
    ensures fed { IsFedAsTaken device.old device.new }
{
    let mut read = ReadBuf::dropping();
    device.feed(piece, &mut read);
}

/// Feeds a device the bytes of the stream up to position `to`.
pub(crate) fn feed_to(device: &mut Device, stream: &[u8], to: u64)
    requires at_position { StandsAtPosition device.old.part stream.now device.old device.old.taken }
    requires within { to ≤ last_of device.old.part stream.now }
    requires forward { device.old.taken ≤ to }
    ensures at_position { StandsAtPosition device.old.part stream.now device.new to }
    ensures fed { IsFedAsTaken device.old device.new }
{
    let from = device.taken() as usize;
    feed_piece(device, &stream[from..to as usize]);
}

/// Feeds a device the bytes of the stream up to position `to`, four at most, with a record of the device before them.
pub(crate) fn feed_recorded(device: &mut Device, journal: &mut Journal, stream: &[u8], to: u64)
    requires may_move { MayMoveForward stream.now device.old journal.old to }
    requires one_record { to ≤ device.old.taken + record_reach }
    ensures at_position { ComesForward stream.now device.old device.new journal.new to }
    ensures recorded { HasRecorded device.old journal.old journal.new }
{
    let from = device.taken() as usize;
    journal.feed(device, &stream[from..to as usize]);
}

/// Brings a device forward by pieces of four bytes, the last of which may be shorter, each with a record.
fn go_by_words(device: &mut Device, journal: &mut Journal, stream: &[u8], to: u64)
    requires { MayMoveForward stream.now device.old journal.old to }
    ensures at_position { ComesForwardRecorded stream.now device.old device.new journal.new to }
{
    while to - device.taken() >= RECORD_REACH {
        let next = device.taken() + RECORD_REACH;
        feed_recorded(device, journal, stream, next);
    }
    if device.taken() < to {
        feed_recorded(device, journal, stream, to);
    }
}

/// Brings a device forward by one piece, and forgets the records.
pub(crate) fn leap(device: &mut Device, journal: &mut Journal, stream: &[u8], to: u64)
    requires { MayMoveForward stream.now device.old journal.old to }
    ensures at_position { ComesForward stream.now device.old device.new journal.new to }
{
    feed_to(device, stream, to);
    journal.forget();
}

/// Brings a device forward: by one piece up to `RECORDED_SIZE` bytes before `to`, where that is ahead, and from there
/// by pieces of four bytes, with records.
fn go_forward(device: &mut Device, journal: &mut Journal, stream: &[u8], to: u64)
    requires { MayMoveForward stream.now device.old journal.old to }
    ensures at_position { ComesForwardRecorded stream.now device.old device.new journal.new to }
{
    if to - device.taken() > RECORDED_SIZE {
        leap(device, journal, stream, to - RECORDED_SIZE);
        return go_by_words(device, journal, stream, to);
    }
    go_by_words(device, journal, stream, to);
}

/// Resets a device, and forgets the records.
fn begin_again(device: &mut Device, journal: &mut Journal, stream: &[u8])
    requires { IsOnStream device.old.part stream.now device.old journal.old }
    ensures at_position { ComesToPosition stream.now device.old device.new journal.new 0 }
    ensures fed { fed_of device.new ≡ fed_of device.old }
{
    device.reset(ON_THE_BENCH);
    journal.forget();
}

/// Resets a device, and brings it to position `to` from the first byte on.
fn replay(device: &mut Device, journal: &mut Journal, stream: &[u8], to: u64)
    requires { MayMove stream.now device.old journal.old to }
    ensures at_position { ComesToPosition stream.now device.old device.new journal.new to }
    ensures fed { IsFedAtMost device.old device.new to }
    ensures oldest { oldest_by device.new.taken (records_of journal.new) ≤ to - reach }
{
    begin_again(device, journal, stream);
    go_forward(device, journal, stream, to);
}

/// Takes a device back by records to the last position at or before `to` where a record was made.
fn take_back(device: &mut Device, journal: &mut Journal, stream: &[u8], to: u64)
    requires { MayMoveBack stream.now device.old journal.old to }
    ensures at_position { ComesToPosition stream.now device.old device.new journal.new device.new.taken }
    ensures within { device.new.taken ≤ to }
    ensures one_record { to < device.new.taken + record_reach }
    ensures fed { fed_of device.new ≡ fed_of device.old }
    ensures room_for_one { length (records_of journal.new) < record_room }
    ensures oldest { KeepsOldest device.old journal.old device.new journal.new }
{
    while device.taken() > to {
        journal.back(device);
    }
}

/// Takes a device back by records to position `to`, or to at most three bytes before it, and from there forward again.
fn go_back(device: &mut Device, journal: &mut Journal, stream: &[u8], to: u64)
    requires { MayMoveBack stream.now device.old journal.old to }
    ensures at_position { ComesToPosition stream.now device.old device.new journal.new to }
    ensures fed { IsFedAtMost device.old device.new (record_reach - 1) }
    ensures oldest { KeepsOldest device.old journal.old device.new journal.new }
{
    take_back(device, journal, stream, to);
    if device.taken() < to {
        feed_recorded(device, journal, stream, to);
    }
}

/// Brings a device that took the first bytes of a stream to position `to`, a count of its bytes, forwards or backwards.
/// `costs`: how many bytes it is fed for that, and how far its records lead back then.
pub(crate) fn move_to(device: &mut Device, journal: &mut Journal, stream: &[u8], to: u64)
    requires { MayMove stream.now device.old journal.old to }
    ensures at_position { ComesToPosition stream.now device.old device.new journal.new to }
    ensures costs { MoveCosts (session_of device.old stream.now journal.old) (session_of device.new stream.now journal.new) }
{
    let from = device.taken();
    if to == from {
        return;
    }
    if from < to {
        return go_forward(device, journal, stream, to);
    }
    if to < journal.oldest(from) {
        return replay(device, journal, stream, to);
    }
    go_back(device, journal, stream, to);
}
