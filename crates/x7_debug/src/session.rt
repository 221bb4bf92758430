//! A user's session: forwards and backwards through a stream. A session of the stream, from a sync word up to a DESYNC,
//! is another thing (`docs/MAP.md`, words with several senses).
ghost use Rattle.std.specs.Prelude.{◌≡◌, ◌≤◌, ◌+◌, ◌-◌, IfOk, min};
ghost use Rattle.x7_engine.specs.Standing.{fed_of};
ghost use Rattle.x7_debug.specs.Journal.{IsMove};
ghost use Rattle.x7_debug.specs.Position.{last_of, until_of};
ghost use Rattle.x7_debug.specs.Session.{IsNewSession, StandsAtPosition};

use crate::journal::Journal;
use crate::moving::move_to;
use crate::order::Stop;
use crate::outline::Outline;
use crate::until::go_until;
use std::alloc::Global;
use std::marker::Model;
use x7_engine::Device;
use x7_part::Part;
use x7_words::NoMemory;

/// A user's way through a stream: the stream, and a device that took its first bytes. The number of these bytes is the
/// session's position.
pub struct Session {
    stream: Vec<u8>,
    device: Device,
    /// What one play of the stream showed of its positions.
    outline: Outline,
    /// What leads the device back.
    journal: Journal,
}

impl Drop for Session {
    fn drop(self) {
        let Session {
            stream: _,
            device: _,
            outline: _,
            journal: _,
        } = self;
    }
}

impl Model for Session {
    ghost use Rattle.x7_debug.specs.SessionFields.{SessionFits, session_of};
    ghost use Rattle.x7_debug.specs.Session.{SessionState};

    ghost Value = { SessionState };

    ghost view = { λ s. session_of s.device s.stream.items s.journal };

    ghost invariant = { λ s. SessionFits s.device s.stream.items s.outline s.journal };
}

impl Session {
    /// A session at position 0 of a stream, on a new device of the part. A second device plays the stream first, to
    /// find its last position and one before which the phase of startup is 0.
    pub fn new(alloc: Global, part: &Part, stream: Vec<u8>) -> Result<Session, NoMemory>
        ensures { IfOk result (IsNewSession part.now stream.items) }
    {
        let outline = Outline::new(alloc, part, &stream)?;
        let device = Device::new(alloc, part)?;
        let journal = Journal::new(alloc, part)?;
        Ok(Session {
            stream,
            device,
            outline,
            journal,
        })
    }

    /// The position: how many bytes the device took.
    pub fn at(&self) -> u64
        ensures { result ≡ self.now.at }
    {
        self.device.taken()
    }

    /// The last position: how many bytes the stream has, or how many up to and with the one at which the device stops.
    pub fn last(&self) -> u64
        ensures { result ≡ last_of self.now.part self.now.stream }
    {
        self.outline.last
    }

    /// The least position to which a move back needs no replay.
    pub fn oldest(&self) -> u64
        ensures value { result ≡ self.now.oldest }
        ensures within { result ≤ self.now.at }
    {
        self.journal.oldest(self.device.taken())
    }

    /// The device, as the bytes of the stream before the position have left it.
    pub fn device(&self) -> &Device
        ensures part { result.now.part ≡ self.now.part }
        ensures at_position { StandsAtPosition self.now.part self.now.stream result.now self.now.at }
        ensures fed { fed_of result.now ≡ self.now.fed }
    {
        &self.device
    }

    /// Goes to a position that is not past the last one.
    fn move_to(&mut self, to: u64)
        requires { to ≤ last_of self.old.part self.old.stream }
        ensures moves { IsMove self.old self.new to }
    {
        move_to(&mut self.device, &mut self.journal, &self.stream, to);
    }

    /// Goes to a position, or to the last one where that is less.
    pub fn go(&mut self, to: u64)
        ensures moves { IsMove self.old self.new (min to (last_of self.old.part self.old.stream)) }
    {
        let last = self.outline.last;
        self.move_to(to.min(last));
    }

    /// Goes `count` bytes forward, or to the last position where there are fewer.
    pub fn step(&mut self, count: u64)
        ensures moves { IsMove self.old self.new (min (self.old.at + count) (last_of self.old.part self.old.stream)) }
    {
        let at = self.device.taken();
        let left = self.outline.last - at;
        self.move_to(at + count.min(left));
    }

    /// Goes `count` bytes back, or to position 0 where there are fewer.
    pub fn back(&mut self, count: u64)
        ensures moves { IsMove self.old self.new (self.old.at - count) }
    {
        let at = self.device.taken();
        self.move_to(at.saturating_sub(count));
    }

    /// Goes forward to the least later position where the stop holds, or to the last one where there is none.
    pub fn until(&mut self, stop: Stop)
        ensures moves { IsMove self.old self.new (until_of self.old.part self.old.stream stop self.old.at) }
    {
        go_until(
            &mut self.device,
            &mut self.journal,
            &self.stream,
            self.outline,
            stop,
        );
    }
}
