//! A sink in memory.
ghost use Rattle.std.specs.Prelude.{◌≡◌, [], ◌<◌, ◌≤◌, ◌^◌, length, Some, OnOk, OnErr, IfOk, is_err};
ghost use Rattle.x7_words.specs.Count.{IsLaterCount};
ghost use Rattle.x7_in_memory.specs.Memory.{no_calls, with_failing_call, sink_write_fails, write_count, after_write};

use crate::calls::Calls;
use std::alloc::Global;
use std::marker::Model;
use x7_words::{Failed, NoMemory, Sink, raised};

/// A sink in memory with a fixed room, known whole.
///
/// Each write has the next number, from 1. Those that are to fail fail, and so does one of a byte or more once the room
/// is full.
pub struct MemorySink {
    /// What was written.
    bytes: Vec<u8>,
    /// How many bytes the sink takes in all.
    room: usize,
    /// The most bytes that a write takes.
    most: usize,
    calls: Calls,
    /// How many writes failed.
    faults: u64,
}

impl Drop for MemorySink {
    fn drop(self) {
        let MemorySink {
            bytes: _,
            room: _,
            most: _,
            calls: _,
            faults: _,
        } = self;
    }
}

impl Model for MemorySink {
    ghost use Rattle.std.specs.Prelude.{◌<◌, ◌≤◌, ◌^◌, vec_len, vec_capacity};
    ghost use Rattle.x7_in_memory.specs.Memory.{SinkInMemory};

    ghost Value = { SinkInMemory };

    ghost view = { λ s. record {
      bytes = s.bytes.items;
      room = s.room;
      most = s.most;
      calls = s.calls;
      faults = s.faults;
    } };

    ghost invariant = { λ s. (vec_len s.bytes ≤ s.room)
        × (s.room ≤ vec_capacity s.bytes)
        × (0 < s.most)
        × (s.faults < 2 ^ 64) };
}

impl MemorySink {
    /// An empty sink with room for `room` bytes. A write takes as many bytes as there is room for.
    pub fn new(alloc: Global, room: usize) -> Result<MemorySink, NoMemory>
        ensures { IfOk result (λ s. s ≡
            record { bytes = []; room = room; most = usize.MAX; calls = no_calls; faults = 0 }) }
    {
        Ok(MemorySink {
            bytes: Vec::with_capacity(alloc, room)?,
            room,
            most: usize::MAX,
            calls: Calls::new(alloc),
            faults: 0,
        })
    }

    /// The call of this number, from 1, is to fail.
    pub fn fail_at(&mut self, call: u64) -> Result<(), NoMemory>
        ensures planned { OnOk result (self.new ≡ record self.old { calls = with_failing_call self.old.calls call }) }
        ensures unchanged { OnErr result (self.new ≡ self.old) }
    {
        self.calls.fail_at(call)
    }

    /// From now on a write takes no more bytes than this.
    pub fn piece(&mut self, most: usize)
        requires { 0 < most }
        ensures { self.new ≡ record self.old { most = most } }
    {
        self.most = most;
    }

    /// The bytes written so far.
    pub fn bytes(&self) -> &[u8]
        ensures { result.now ≡ self.now.bytes }
    {
        self.bytes.as_slice()
    }
}

impl Sink for MemorySink {
    ghost state = { λ s. record { written = Some s.bytes; faults = s.faults } };

    fn write(&mut self, piece: &[u8]) -> Result<usize, Failed>
        ensures answer { is_err result ≡ sink_write_fails self.old piece.now }
        ensures count { IfOk result (λ n. n ≡ write_count self.old piece.now) }
        ensures progress { IfOk result (λ n. 0 < length piece.now → 0 < n) }
        ensures after { self.new ≡ after_write self.old piece.now }
        ensures faults { IsLaterCount self.old.faults self.new.faults }
    {
        let is_to_fail = self.calls.next().is_err();
        let free = self.room - self.bytes.len();
        if is_to_fail || free == 0 && piece.len() > 0 {
            self.faults = raised(self.faults);
            return Err(Failed);
        }
        let count = piece.len().min(self.most).min(free);
        match self.bytes.extend_from_slice(&piece[..count]) {
            Ok(()) => Ok(count),
            Err(_) => unreachable!(),
        }
    }
}
