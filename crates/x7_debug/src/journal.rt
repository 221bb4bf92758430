//! Records of a device on its way, which lead it back.
ghost use Rattle.std.specs.Prelude.{◌≡◌, ◌≤◌, ◌<◌, ◌+◌, ◌-◌, ℕ, List, length, IfOk};
ghost use Rattle.x7_engine.specs.Standing.{CanBeGiven, NoWordDue, fed_of};
ghost use Rattle.x7_debug.specs.Journal.{AreRecordsOf, ForEachStream, HasRecorded, IsFedAsTaken, IsOnStream, KeepsOldest, oldest_by, record_reach, record_room, records_of};
ghost use Rattle.x7_debug.specs.Session.{TakesUpToStop};

use circular_buffer::HeapCircularBuffer;
use std::alloc::Global;
use std::marker::Model;
use x7_engine::{Device, Undo};
use x7_part::Part;
use x7_words::NoMemory;

/// How many records there is room for.
pub(crate) const RECORD_ROOM: usize = 64;

/// Records of a device, the newest first.
#[derive(Drop)]
pub(crate) struct Journal {
    records: HeapCircularBuffer<Undo>,
    /// How many records are in use.
    count: usize,
}

impl Model for Journal {
    ghost use Rattle.std.specs.Prelude.{◌≡◌, ◌≤◌, length};
    ghost use Rattle.x7_debug.specs.Journal.{JournalState, record_room};

    ghost Value = { JournalState };

    ghost view = { λ j. record { all = j.records.items; count = j.count } };

    ghost invariant = { λ j. (length j.records.items ≡ record_room) × (j.records.capacity ≡ record_room) × (j.count ≤ record_room) };
}

impl Journal {
    /// A journal of a device of this part, without a record in use. No other call takes memory.
    pub(crate) fn new(alloc: Global, part: &Part) -> Result<Journal, NoMemory>
        ensures records { IfOk result (AreRecordsOf part.now) }
        ensures empty { IfOk result (λ j. j.count ≡ 0) }
    {
        let Ok(mut records) = HeapCircularBuffer::with_capacity(alloc, RECORD_ROOM) else {
            return Err(NoMemory);
        };
        for _ in 0..RECORD_ROOM {
            records.push_back(Undo::new(alloc, part)?);
        }
        Ok(Journal { records, count: 0 })
    }

    /// Forgets all records.
    pub(crate) fn forget(&mut self)
        ensures { self.new ≡ record self.old { count = 0 } }
    {
        self.count = 0;
    }

    /// The position of the oldest record, and `at` where there is none.
    pub(crate) fn oldest(&self, at: u64) -> u64
        ensures { result ≡ oldest_by at (records_of self.now) }
    {
        if self.count == 0 {
            return at;
        }
        match self.records.get(self.count - 1) {
            Some(undo) => undo.taken(),
            None => at,
        }
    }

    /// Feeds a piece of up to four bytes to a device, up to and with the byte at which it stops, and records the device
    /// as it was before the piece. Where all records are in use, the oldest one is used again.
    pub(crate) fn feed(&mut self, device: &mut Device, piece: &[u8])
        requires one_record { length piece.now ≤ record_reach }
        requires fits { CanBeGiven device.old (length piece.now) }
        requires no_word_due { NoWordDue device.old }
        requires records { AreRecordsOf device.old.part self.old }
        ensures takes { TakesUpToStop device.old device.new piece.now }
        ensures fed { IsFedAsTaken device.old device.new }
        ensures records { AreRecordsOf device.old.part self.new }
        ensures recorded { HasRecorded device.old self.old self.new }
    {
        let Some(mut undo) = self.records.pop_back() else {
            unreachable!();
        };
        device.feed_word(piece, &mut undo);
        self.records.push_front(undo);
        self.count = (self.count + 1).min(RECORD_ROOM);
    }

    /// Takes a device back to where its newest record was made, which is not in use from then on.
    pub(crate) fn back(&mut self, device: &mut Device)
        requires has_record { 0 < self.old.count }
        requires records { AreRecordsOf device.old.part self.old }
        requires on_stream { (stream : List ℕ) × IsOnStream device.old.part stream device.old self.old }
        ensures back { ForEachStream device.old self.old (λ stream. IsOnStream device.new.part stream device.new self.new) }
        ensures backward { ForEachStream device.old self.old (λ stream. device.new.taken ≤ device.old.taken) }
        ensures one_record { ForEachStream device.old self.old (λ stream. device.old.taken ≤ device.new.taken + record_reach) }
        ensures fed { fed_of device.new ≡ fed_of device.old }
        ensures oldest { ForEachStream device.old self.old (λ stream. KeepsOldest device.old self.old device.new self.new) }
        ensures room_for_one { ForEachStream device.old self.old (λ stream. length (records_of self.new) < record_room) }
        ensures count { self.new.count + 1 ≡ self.old.count }
        ensures part { device.new.part ≡ device.old.part }
    {
        let Some(undo) = self.records.pop_front() else {
            unreachable!();
        };
        device.undo(&undo);
        self.records.push_back(undo);
        self.count -= 1;
    }
}
