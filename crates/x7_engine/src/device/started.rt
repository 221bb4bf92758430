//! Feeding up to where startup begins, or up to its end.
ghost use Rattle.std.specs.Prelude.{◌≡◌, ◌≤◌, ◌<◌, ◌+◌, ◌-◌, ◌⊎◌, false, if◌then◌else◌, length, is_some};
ghost use Rattle.x7_packets.specs.Cutter.{between};
ghost use Rattle.x7_engine.specs.SoonestEnd.{soonest_end};
ghost use Rattle.x7_engine.specs.Standing.{CanBeGiven, HasBegun, HasStopped, NoWordDue};
ghost use Rattle.x7_engine.specs.Turns.{MayTakePiece, TurnAnswers, turn_of};
ghost use Rattle.x7_engine.specs.UntilStarted.{HasNotBegun, NoneBegun, NoneStarted, says_started, taken_until};
ghost use Rattle.x7_engine.specs.declared.until_started.UntilStarted.TheVariants as until;
ghost use Rattle.x7_engine.specs.Feeding.{AnswersUntilFor, GivesWordsOfFirst, TakesFirst, with_buffer};
ghost use Rattle.x7_engine.specs.Past.{ForEachPast, later, prefix_taken_until, started_at, state_at};

use super::{Device, answer_at_stop};
use crate::fed::Fed;
use crate::read_buffer::ReadBuf;
use crate::until_started::UntilStarted;
use x7_startup::{LAST_PHASE, TICK_SIZE};

/// The least number of bytes more after which the last phase may have come, of a device in this phase; 1 in the last
/// phase itself.
fn soonest_end(phase: u8) -> usize
    ensures { result ≡ soonest_end phase }
{
    TICK_SIZE as usize * usize::from((LAST_PHASE - 1).saturating_sub(phase)) + 1
}

/// What is answered where a piece is used up, or a stop has come, at place `at` of the piece: where startup has ended,
/// that, and else what a feed answers.
fn answer(started: bool, at: usize, fed: Fed) -> UntilStarted
    ensures { result ≡ (if started then until.Started at else until.Fed fed) }
{
    if started {
        UntilStarted::Started(at)
    } else {
        UntilStarted::Fed(fed)
    }
}

impl Device {
    /// Where the next turn of a piece of `length` bytes, from place `at` on, ends at the latest. Where startup has
    /// begun it is at the first byte at which it may end. Else it is at the piece's end, since a turn in which startup
    /// begins ends there by itself.
    fn turn_end(&self, at: usize, length: usize) -> usize
        requires { at ≤ length }
        ensures within { result ≤ length }
        ensures ends_or_advances { (result ≡ length) ⊎ (at < result) }
        ensures forward { at ≤ result }
        ensures soonest { ForEachPast self.now (λ p. HasNotBegun p.part p.kept p.bytes ⊎ (result ≤ at + soonest_end (state_at p).phase)) }
    {
        if self.has_begun() {
            return at + soonest_end(self.phase()).min(length - at);
        }
        length
    }

    /// Takes the next turn of a piece, up to a byte at which startup may end, and moves `at` past it. The answer is
    /// `true` only where the piece is used up; after `false` the piece's next turn may find nothing left.
    fn turn_until_started(&mut self, piece: &[u8], at: &mut usize) -> bool
        requires { MayTakePiece self.old piece.now at.old }
        ensures took { TurnAnswers (turn_of self.old self.new piece.now at.old at.new) result }
        ensures first { ForEachPast self.old (λ p. started_at p ≡ false → NoneStarted p.part p.kept p.bytes (between piece.now at.old at.new) (at.new - at.old)) }
    {
        let end = self.turn_end(*at, piece.len());
        if self.turn(&piece[..end], at) {
            return end == piece.len();
        }
        false
    }

    /// Takes the bytes of a piece as `feed` does, and none after the byte at which startup ends, the first at which the
    /// phase is 7; none at all where startup has ended already.
    pub fn feed_until_started(&mut self, piece: &[u8], read: &mut ReadBuf) -> UntilStarted
        requires { CanBeGiven self.old (length piece.now) }
        ensures takes { TakesFirst self.old self.new piece.now (taken_until (length piece.now) result) }
        ensures gives { GivesWordsOfFirst (with_buffer self.old read.old) (with_buffer self.new read.new) piece.now (taken_until (length piece.now) result) }
        ensures first { ForEachPast self.old (λ p. NoneStarted p.part p.kept p.bytes piece.now (taken_until (length piece.now) result)) }
        ensures started { ForEachPast self.old (λ p. NoWordDue self.new → says_started result ≡ started_at (later p (prefix_taken_until piece.now result))) }
        ensures answer { AnswersUntilFor self.old (with_buffer self.new read.new) piece.now result }
    {
        read.holds_within_most();
        let mut at = 0;
        'runs: loop {
            if let Some(stop) = self.stop() {
                return answer(self.started(), at, answer_at_stop(stop, at));
            }
            if !self.give(read) {
                return UntilStarted::Fed(Fed::ReadFull(at));
            }
            if self.started() {
                return UntilStarted::Started(at);
            }
            if self.turn_until_started(piece, &mut at) {
                return answer(self.started(), at, Fed::All);
            }
        }
    }

    /// Whether startup has begun since the last shutdown taken.
    fn has_begun(&self) -> bool
        ensures value { result ≡ is_some self.now.registers.values.clock.startup.begun_with }
        ensures not_begun { ForEachPast self.now (λ p. result ≡ false → HasNotBegun p.part p.kept p.bytes) }
    {
        self.registers.values.clock.startup.has_begun()
    }

    /// Takes the bytes of a piece as `feed` does, where words read out are dropped, and none after the byte at which
    /// startup begins; none at all where startup has begun already. Says how many bytes were taken.
    pub fn feed_until_begun(&mut self, piece: &[u8]) -> usize
        requires { CanBeGiven self.old (length piece.now) }
        ensures takes { TakesFirst self.old self.new piece.now result }
        ensures no_word_due { ForEachPast self.old (λ p. NoWordDue self.new) }
        ensures first { ForEachPast self.old (λ p. NoneBegun p.part p.kept p.bytes piece.now result) }
        ensures ends { ForEachPast self.old (λ p. result < length piece.now → HasStopped self.new ⊎ HasBegun self.new) }
    {
        let mut read = ReadBuf::dropping();
        let mut at = 0;
        'runs: loop {
            if self.stop().is_some() {
                return at;
            }
            if !self.give(&mut read) {
                return at;
            }
            if self.has_begun() {
                return at;
            }
            if self.turn(piece, &mut at) {
                return at;
            }
        }
    }
}
