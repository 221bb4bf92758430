//! The words that a device reads out: a read makes them due, and a buffer takes them.
ghost use Rattle.std.specs.Prelude.{◌≡◌, ◌≤◌, ◌<◌, IsTrue, ◌↔◌, None, Some};
ghost use Rattle.x7_packets.specs.History.{History};
ghost use Rattle.x7_flow.specs.Standing.{FramesFit, FramesStandFor, HaveDue, read_entry, words_due};
ghost use Rattle.x7_engine.specs.Readout.{GaveWordsDue, GotAllBut, MayGiveWords};
ghost use Rattle.x7_engine.specs.ReadBuffer.{HoldsWithinMost, IsFull};
ghost use Rattle.x7_engine.specs.WordCalls.{MayTakeWords, HasNoneDueAtStop};
ghost use Rattle.x7_engine.specs.Standing.{due_count};
ghost use Rattle.x7_engine.specs.Entering.{AreReadBy, EntersHistoryAt, ForEachHistory, change_of, read_entered};

use crate::due::Due;
use crate::read_buffer::ReadBuf;
use crate::registers::{Registers, stop_of_refused};
use x7_flow::{Frames, reads_frames};
use x7_part::Part;

/// How many words are due.
pub(crate) fn due_count(due: Due) -> u32
    ensures { result ≡ due_count due }
{
    match due {
        Due::Nothing => 0,
        Due::Same { count, .. } => count,
        Due::Frames(count) => count,
    }
}

/// Gives `count` words of frame data to a buffer, as far as it has room; one that drops its words has room for all.
/// Says how many words are left.
fn give_frames(frames: &mut Frames, part: &Part, count: u32, read: &mut ReadBuf) -> u32
    requires frames { FramesFit part.now frames.old }
    requires due { HaveDue part.now frames.old count }
    ensures within { result ≤ count }
    ensures full { 0 < result → IsFull read.new }
    ensures given { (h : History) → FramesStandFor part.now frames.old h count → GotAllBut (words_due part.now h result) (words_due part.now h count) read.old read.new }
    ensures stands { (h : History) → FramesStandFor part.now frames.old h count → FramesStandFor part.now frames.new h result }
    ensures frames { FramesFit part.now frames.new }
{
    if read.drops() {
        frames.drop_words(count, part);
        return 0;
    }
    for i in 0..count {
        if read.is_full() {
            return count - i;
        }
        read.push(frames.read_word(part));
    }
    0
}

impl Registers {
    ghost use Rattle.x7_engine.specs.Standing.{CountsAll, registers_in};

    /// Takes a read of `count` words, at least one, of the register of this number: they are due from now on. A read of
    /// frame data that the frames refuse stops the device, and none is due.
    pub(crate) fn read(&mut self, part: &Part, register: u8, count: u32)
        requires may_take { MayTakeWords part.now self.old }
        requires at_least_one { 0 < count }
        ensures none_due_at_stop { HasNoneDueAtStop part.now self.new }
        ensures counts { CountsAll self.new.values.stop }
        ensures enters { EntersHistoryAt (change_of part.now self.old self.new) (read_entered register count) }
        ensures reads { ForEachHistory part.now (registers_in self.old) (λ kept h place. AreReadBy part.now kept h (read_entry register count place) self.new.values.due) }
    {
        if !reads_frames(self.settings(), register, count) {
            self.values.due = Due::Same {
                word: self.read_value(part, register),
                count,
            };
            return;
        }
        match self.frames.fault_of_read(part) {
            Some(fault) => self.values.stop = Some(stop_of_refused(fault)),
            None => self.values.due = Due::Frames(count),
        }
    }

    /// Gives the words due to a buffer, as many as it has room for.
    fn give_due(&mut self, part: &Part, read: &mut ReadBuf)
        requires { MayGiveWords part.now self.old }
        ensures { GaveWordsDue (change_of part.now self.old self.new) read.old read.new }
    {
        match self.values.due {
            Due::Nothing => (),
            Due::Same { word, count } => {
                let left = read.push_times(word, count);
                self.values.due = Due::Same { word, count: left };
            }
            Due::Frames(count) => {
                let left = give_frames(&mut self.frames, part, count, read);
                self.values.due = Due::Frames(left);
            }
        }
    }

    /// Gives the words due to a buffer, as many as it has room for, and says whether none is left.
    pub(crate) fn give(&mut self, part: &Part, read: &mut ReadBuf) -> bool
        requires { MayGiveWords part.now self.old }
        ensures none_left { IsTrue result ↔ (due_count self.new.values.due ≡ 0) }
        ensures within_most { HoldsWithinMost read.new.most read.new.words }
        ensures gave { GaveWordsDue (change_of part.now self.old self.new) read.old read.new }
    {
        self.give_due(part, read);
        read.holds_within_most();
        due_count(self.values.due) == 0
    }
}
