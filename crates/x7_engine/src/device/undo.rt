//! A device goes back over bytes that it took.
ghost use Rattle.std.specs.Prelude.{◌≡◌, ◌≤◌, ℕ, List, [], false, length, IfOk, Some};
ghost use Rattle.x7_flow.specs.Standing.{FramesFit};
ghost use Rattle.x7_engine.specs.Kept.{on_the_bench};
ghost use Rattle.x7_engine.specs.ReadBuffer.{dropping};
ghost use Rattle.x7_engine.specs.declared.stop.StopCause.{StopCause};
ghost use Rattle.x7_engine.specs.Standing.{CanBeGiven, DeviceState, DeviceStandsFor, NoWordDue, answer_at_stop, fed_of, taken_in};
ghost use Rattle.x7_engine.specs.Undo.{AreEqualButForFed, IsUndoOf, SavesDevice, TookFewSince, UndoLeadsBack, device_saved, undo_reach};
ghost use Rattle.x7_engine.specs.Feeding.{AnswersFor, TakesFirst, with_buffer};
ghost use Rattle.x7_engine.specs.Past.{ForEachPast, HasPast, Past, later};

use super::Device;
use crate::fed::Fed;
use crate::kept::ON_THE_BENCH;
use crate::read_buffer::ReadBuf;
use crate::values::Values;
use std::alloc::Global;
use std::marker::Model;
use x7_packets::Cutter;
use x7_part::Part;
use x7_pipeline::Saved;
use x7_words::NoMemory;

/// How many bytes can be taken back at most (this project's choice).
pub const UNDO_REACH: u64 = 4;

/// A device as it stood, saved so that the bytes that it takes next, up to four, can be taken back (this project's
/// choice).
#[derive(Drop)]
pub struct Undo {
    cutter: Cutter,
    values: Values,
    frames: Saved,
    wrapped: bool,
    taken: u64,
}

impl Model for Undo {
    ghost use Rattle.x7_engine.specs.Standing.{values_in};
    ghost use Rattle.x7_engine.specs.Undo.{UndoState};

    ghost Value = { UndoState };

    ghost view = { λ u. record { cutter = u.cutter; values = values_in u.values; frames = u.frames; wrapped = u.wrapped; taken = u.taken } };
}

impl Undo {
    /// Takes room for what is saved of a device of this part; no later call takes memory. What is saved at first is a
    /// new device, and no frame.
    pub fn new(alloc: Global, part: &Part) -> Result<Undo, NoMemory>
        ensures device { IfOk result (λ u. DeviceStandsFor part.now on_the_bench false (device_saved part.now u) []) }
        ensures no_frame { IfOk result (λ u. u.frames.pair ≡ []) }
        ensures part { IfOk result (IsUndoOf part.now) }
    {
        let frames = Saved::new(alloc, part)?;
        Ok(Undo {
            cutter: Cutter::new(),
            values: Values::new(&ON_THE_BENCH),
            frames,
            wrapped: false,
            taken: 0,
        })
    }

    /// How many bytes the saved device had taken since its reset.
    pub fn taken(&self) -> u64
        ensures { result ≡ self.now.taken }
    {
        self.taken
    }
}

impl Device {
    /// How many bytes the device ever took, counted up to the last number of 64 bits; a reset and an undo leave the
    /// count.
    pub fn fed(&self) -> u64
        ensures { result ≡ fed_of self.now }
    {
        self.fed
    }

    /// Saves the device.
    fn save(&self, undo: &mut Undo)
        requires { IsUndoOf self.now.part undo.old }
        ensures saves { SavesDevice undo.new self.now }
        ensures undo { IsUndoOf self.now.part undo.new }
    {
        undo.cutter = self.cutter.copy();
        undo.values = self.registers.values;
        self.registers.frames.save(&self.part, &mut undo.frames);
        undo.wrapped = self.wrapped;
        undo.taken = self.taken;
    }

    /// Saves the device in `undo`, and takes the bytes of a piece, up to four, as `feed` does. Words read out are
    /// dropped.
    pub fn feed_word(&mut self, piece: &[u8], undo: &mut Undo) -> Fed
        requires within_reach { length piece.now ≤ undo_reach }
        requires fits { CanBeGiven self.old (length piece.now) }
        requires no_word_due { NoWordDue self.old }
        requires undo { IsUndoOf self.old.part undo.old }
        ensures takes { TakesFirst self.old self.new piece.now (taken_in (length piece.now) result) }
        ensures answer { AnswersFor self.old (with_buffer self.new dropping) piece.now result }
        ensures answers_stop { (why : StopCause) → self.old.registers.values.stop ≡ Some why → result ≡ answer_at_stop why 0 }
        ensures saves { SavesDevice undo.new self.old }
        ensures back { ForEachPast self.old (λ p. UndoLeadsBack undo.new self.new self.old) }
        ensures undo { IsUndoOf self.old.part undo.new }
    {
        self.save(undo);
        let mut read = ReadBuf::dropping();
        let fed = self.feed(piece, &mut read);
        self.frames_fit();
        fed
    }

    /// The frames of a device are those of its part. The call is for proofs alone, and does nothing.
    fn frames_fit(&self)
        ensures { FramesFit self.now.part self.now.registers.frames }
    {
        // reading a field gives the proof the invariant of the device
        let _taken = self.taken;
    }

    /// Makes the device the one that `undo` saved, but for its count `fed`. The device is to have been saved with no
    /// word due, and to have taken four bytes at most since then, by `feed_word` and later feeds.
    pub fn undo(&mut self, undo: &Undo)
        requires undo { IsUndoOf self.old.part undo.now }
        requires back { TookFewSince undo.now self.old }
        ensures back { (old : DeviceState) → UndoLeadsBack undo.now self.old old → AreEqualButForFed self.new old }
        ensures after_more { (p : Past) (more : List ℕ) (old : DeviceState) → SavesDevice undo.now old → NoWordDue old → length more ≤ undo_reach
            → HasPast old p → HasPast self.old (later p more) → AreEqualButForFed self.new old }
        ensures part { self.new.part ≡ self.old.part }
        ensures fed { fed_of self.new ≡ fed_of self.old }
    {
        self.cutter = undo.cutter.copy();
        self.registers.values = undo.values;
        self.registers.frames.restore(&self.part, &undo.frames);
        self.wrapped = undo.wrapped;
        self.taken = undo.taken;
    }
}
