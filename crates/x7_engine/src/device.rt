//! A device.
ghost use Rattle.std.specs.Prelude.{◌≡◌, ◌<◌, ◌+◌, ◌-◌, ◌++◌, [], false, true, length, IfOk, IsTrue, ◌↔◌, ◌==◌, Option, None, Some};
ghost use Rattle.x7_packets.specs.Cutter.{between, IsNeed};
ghost use Rattle.x7_packets.specs.History.{history_of};
ghost use Rattle.x7_memory.specs.FrameMap.{HaveSameFrames};
ghost use Rattle.x7_memory.specs.PartFrames.{AreFramesOf, frame_at};
ghost use Rattle.x7_startup.specs.Phases.{last_phase};
ghost use Rattle.x7_engine.specs.Kept.{on_the_bench};
ghost use Rattle.x7_engine.specs.Standing.{CanBeGiven, DeviceStandsFor, MayWrap, NoWordDue, answer_at_stop, fed_of, frames_due, taken_in, with_wrap};
ghost use Rattle.x7_engine.specs.Shown.{with_values};
ghost use Rattle.x7_engine.specs.State.{attempt_of_bytes, end_by, kept_after, why_stopped, memory_of_bytes};
ghost use Rattle.x7_engine.specs.Stop.{fault_of_stop};
ghost use Rattle.x7_engine.specs.Turns.{MayTakePiece, TurnAnswers, TurnMoves, turn_of};
ghost use Rattle.x7_engine.specs.Feeding.{AnswersFor, GivesWordsDue, GivesWordsOfFirst, TakesFirst, with_buffer};
ghost use Rattle.x7_engine.specs.Past.{HasSomePast, ForEachPast, state_at, state_owing_at, first_stop_at, value_at, value_owing_at};

mod boot;
mod started;
mod undo;

use crate::fault::Fault;
use crate::fed::Fed;
use crate::kept::{Kept, ON_THE_BENCH};
use crate::read_buffer::ReadBuf;
use crate::registers::Registers;
use crate::snapshot::{End, SHOWN, SHOWN_COUNT, Snapshot};
use crate::stop::StopCause;
use crate::target::Target;
pub use boot::flash_may_end;
use std::alloc::Global;
use std::marker::Model;
pub use undo::{UNDO_REACH, Undo};
use x7_flow::Frames;
use x7_memory::Memory;
use x7_packets::{Cut, Cutter};
use x7_part::Part;
use x7_regs::{Attempt, Kind, Reg};
use x7_words::NoMemory;

/// How many bytes a word of a stream takes.
pub(crate) const WORD_BYTES: usize = 4;

/// How many bytes the write of one word takes: those of its header and of the word.
const WRITE_BYTES: usize = 8;

/// A device of a part (UG470, configuration registers; what the guide leaves open is this project's choice). Its state
/// is a function of all bytes since its reset, of what the reset kept, and of whether the flash has ended.
pub struct Device {
    part: Part,
    cutter: Cutter,
    registers: Registers,
    // the flash has ended in this attempt
    wrapped: bool,
    taken: u64,
    // how many bytes were ever taken, counted up to the last number of 64 bits; no reset and no undo lowers it
    fed: u64,
}

impl Drop for Device {
    fn drop(self) {
        let Device {
            part: _,
            cutter: _,
            registers: _,
            wrapped: _,
            taken: _,
            fed: _,
        } = self;
    }
}

impl Model for Device {
    ghost use Rattle.x7_engine.specs.Standing.{DeviceState};
    ghost use Rattle.x7_engine.specs.DeviceFields.{DeviceFits, device_in};

    ghost Value = { DeviceState };

    ghost view = { device_in };

    ghost invariant = { λ d. DeviceFits (device_in d) };
}

/// What a feed answers for a stop once `at` bytes of its piece are taken: the stop came at the last of them, or before
/// the call where `at` is 0.
fn answer_at_stop(stop: StopCause, at: usize) -> Fed
    ensures { result ≡ answer_at_stop stop at }
{
    match stop {
        StopCause::Fault(_) => Fed::Stopped(at),
        StopCause::Iprog => Fed::Iprog(at),
    }
}

/// Where bytes end: at the stop, if there is one (an IPROG with the word of WBSTAR, `wbstar`), and else in a session or
/// in a gap, as `synced` says.
fn end_by(stop: Option<StopCause>, synced: bool, wbstar: u32) -> End
    ensures { result ≡ end_by stop synced wbstar }
{
    match stop {
        Some(StopCause::Fault(fault)) => End::Fault(fault),
        Some(StopCause::Iprog) => End::Iprog(wbstar),
        None if synced => End::Synced,
        None => End::Searching,
    }
}

/// Whether a run says that the piece is used up.
fn is_need(run: &Cut<'_>) -> bool
    ensures { IsTrue result ↔ IsNeed run.now }
{
    match run {
        Cut::Need => true,
        _ => false,
    }
}

/// Whether the piece is used up and no stop came.
fn is_done(used_up: bool, stop: Option<StopCause>) -> bool
    ensures yes { IsTrue result → IsTrue used_up × (stop ≡ None) }
    ensures no { result ≡ false → stop ≡ None → used_up ≡ false }
{
    match stop {
        Some(_) => false,
        None => used_up,
    }
}

impl Device {
    /// A device of this part as after a reset on the bench, where no flash boots it. The call takes room for all frames
    /// and a copy of the part; no later call on the device takes memory.
    pub fn new(alloc: Global, part: &Part) -> Result<Device, NoMemory>
        ensures stands { IfOk result (λ d. DeviceStandsFor part.now on_the_bench false d []) }
        ensures fed { IfOk result (λ d. fed_of d ≡ 0) }
    {
        let frames = Frames::new(alloc, part)?;
        let part = part.copy(alloc)?;
        Ok(Device {
            part,
            cutter: Cutter::new(),
            registers: Registers::new(&ON_THE_BENCH, frames),
            wrapped: false,
            taken: 0,
            fed: 0,
        })
    }

    /// Resets the device, which keeps `keep`. All frames are zeros again.
    pub fn reset(&mut self, keep: Kept)
        ensures part { self.new.part ≡ self.old.part }
        ensures stands { DeviceStandsFor self.old.part keep false self.new [] }
        ensures fed { fed_of self.new ≡ fed_of self.old }
    {
        self.cutter = Cutter::new();
        self.registers.reset(&keep);
        self.wrapped = false;
        self.taken = 0;
    }

    /// The present boot attempt.
    fn attempt(&self) -> Attempt
        ensures { ForEachPast self.now (λ p. result ≡ attempt_of_bytes p.part p.kept p.wrapped p.bytes) }
    {
        self.registers.attempt(self.wrapped)
    }

    /// What a next attempt of this kind keeps: WBSTAR, TIMER and BSPI, and this attempt as the one before.
    pub fn kept(&self, kind: Kind) -> Kept
        ensures { ForEachPast self.now (λ p. result ≡ kept_after p.part p.kept p.wrapped p.bytes kind) }
    {
        Kept {
            wbstar: self.value(Reg::Wbstar),
            timer: self.value(Reg::Timer),
            bspi: self.value(Reg::Bspi),
            kind,
            before: Some(self.attempt()),
        }
    }

    /// Says that the flash has ended before startup did, in an attempt in which it may (`flash_may_end`). WRAP_ERROR of
    /// the present attempt is then 1 in BOOTSTS, and all else stays. After a reset with what `kept` gives, BOOTSTS
    /// shows it as that of the attempt before.
    pub fn wrap(&mut self)
        requires { MayWrap self.old }
        ensures wrapped { self.new ≡ with_wrap self.old }
        ensures stands { ForEachPast self.old (λ p. DeviceStandsFor p.part p.kept true self.new p.bytes) }
    {
        self.wrapped = true;
    }

    /// What stopped the device, if something did.
    fn stop(&self) -> Option<StopCause>
        ensures { result ≡ self.now.registers.values.stop }
    {
        self.registers.values.stop
    }

    /// Gives a buffer the words that are due, as many as it has room for, and says whether none is left.
    fn give(&mut self, read: &mut ReadBuf) -> bool
        requires going { self.old.registers.values.stop ≡ None }
        ensures none_left { IsTrue result ↔ NoWordDue self.new }
        ensures gives { GivesWordsDue (with_buffer self.old read.old) (with_buffer self.new read.new) }
    {
        self.registers.give(&self.part, read)
    }

    /// Takes no-ops that come next in a session, at once, up to a byte at which the watchdog fires. More no-ops may
    /// follow those taken.
    fn pass_nops(&mut self, piece: &[u8], at: &mut usize)
        requires { MayTakePiece self.old piece.now at.old }
        ensures turned { TurnMoves (turn_of self.old self.new piece.now at.old at.new) }
        ensures no_word_due { NoWordDue self.new }
        ensures cutter { self.new.cutter ≡ self.old.cutter }
        ensures same_history { ForEachPast self.old (λ p. history_of (p.bytes ++ between piece.now at.old at.new) ≡ history_of p.bytes) }
    {
        let count = WORD_BYTES * self.cutter.nop_count(&piece[*at..]);
        let left = self.registers.take_bytes(&self.part, count);
        *at += count - left;
        self.taken += (count - left) as u64;
        self.fed = self.fed.saturating_add((count - left) as u64);
    }

    /// Takes the next run of the piece from place `at` on, up to a byte that stops the device, and moves `at` past the
    /// bytes taken. `true` says that the piece is used up; `false` that the device stopped, or that one more turn is to be
    /// taken, which may find nothing left.
    fn take_run(&mut self, piece: &[u8], at: &mut usize) -> bool
        requires { MayTakePiece self.old piece.now at.old }
        ensures { TurnAnswers (turn_of self.old self.new piece.now at.old at.new) result }
    {
        let from = *at;
        let run = self.cutter.cut(piece, at);
        let used_up = is_need(&run);
        let left = self.registers.take_run(&self.part, run, *at - from);
        *at -= left;
        self.taken += (*at - from) as u64;
        self.fed = self.fed.saturating_add((*at - from) as u64);
        is_done(used_up, self.registers.values.stop)
    }

    /// Takes the write of one word that comes next, where it lies whole in the piece and no byte moves the clock. Moves
    /// `at` past it, and says whether it took one; what it leaves, `take_next` takes.
    #[inline(always)]
    fn take_write(&mut self, piece: &[u8], at: &mut usize) -> bool
        requires { MayTakePiece self.old piece.now at.old }
        ensures unchanged { result ≡ false → (self.new ≡ self.old) × (at.new ≡ at.old) }
        ensures eight_bytes { IsTrue result → at.new ≡ at.old + 8 }
        ensures no_word_due { NoWordDue self.new }
        ensures turned { IsTrue result → TurnMoves (turn_of self.old self.new piece.now at.old at.new) }
    {
        if !self.registers.values.clock.is_idle() {
            return false;
        }
        let Some((register, word)) = self.cutter.take_write(&piece[*at..]) else {
            return false;
        };
        self.registers
            .write_word_to(&self.part, Target::numbered(register), word);
        *at += WRITE_BYTES;
        self.taken += WRITE_BYTES as u64;
        self.fed = self.fed.saturating_add(WRITE_BYTES as u64);
        true
    }

    /// Takes one turn of a piece: the write of one word that comes next, where it lies whole in the piece and no byte
    /// moves the clock, or else what `take_next` takes. Moves `at` past it. The answer is `true` only where the piece
    /// is used up; after `false` the piece's next turn may find nothing left.
    #[inline(always)]
    fn turn(&mut self, piece: &[u8], at: &mut usize) -> bool
        requires { MayTakePiece self.old piece.now at.old }
        ensures { TurnAnswers (turn_of self.old self.new piece.now at.old at.new) result }
    {
        if self.take_write(piece, at) {
            return false;
        }
        self.take_next(piece, at)
    }

    /// Takes no-ops that come next and then, unless the watchdog fired at one, the next run. Moves `at` past the bytes
    /// taken. `true` says that the piece is used up; `false` that the device stopped, or that one more turn is to be
    /// taken, which may find nothing left.
    #[inline(never)]
    fn take_next(&mut self, piece: &[u8], at: &mut usize) -> bool
        requires { MayTakePiece self.old piece.now at.old }
        ensures { TurnAnswers (turn_of self.old self.new piece.now at.old at.new) result }
    {
        self.pass_nops(piece, at);
        if self.stop().is_some() {
            return false;
        }
        self.take_run(piece, at)
    }

    /// Gives the words that are due, and takes the bytes of a piece, up to one that stops the device or to the first
    /// with which a word is read out that has no room. After a stop the device takes nothing.
    pub fn feed(&mut self, piece: &[u8], read: &mut ReadBuf) -> Fed
        requires { CanBeGiven self.old (length piece.now) }
        ensures takes { TakesFirst self.old self.new piece.now (taken_in (length piece.now) result) }
        ensures gives { GivesWordsOfFirst (with_buffer self.old read.old) (with_buffer self.new read.new) piece.now (taken_in (length piece.now) result) }
        ensures answer { AnswersFor self.old (with_buffer self.new read.new) piece.now result }
        ensures answers_stop { (why : StopCause) → self.old.registers.values.stop ≡ Some why → result ≡ answer_at_stop why 0 }
    {
        read.holds_within_most();
        let mut at = 0;
        'runs: loop {
            if let Some(stop) = self.stop() {
                return answer_at_stop(stop, at);
            }
            if !self.give(read) {
                return Fed::ReadFull(at);
            }
            if self.turn(piece, &mut at) {
                return Fed::All;
            }
        }
    }

    /// The frames: those of the part, as the bytes taken have left them.
    pub fn memory(&self) -> &Memory
        ensures stored { result.now ≡ self.now.registers.frames.memory }
        ensures frames { AreFramesOf self.now.part result.now }
        ensures shows { ForEachPast self.now (λ p. HaveSameFrames (frame_at p.part result.now) (memory_of_bytes p.part p.kept p.bytes)) }
    {
        self.registers.frames.memory()
    }

    /// The value of a register as a state shows it, and 0 for one that is only written and for frame data. While words of
    /// frame data are still due, FAR is that of the words given so far.
    pub fn value(&self, reg: Reg) -> u32
        ensures owing { ForEachPast self.now (λ p. result ≡ value_owing_at p (frames_due self.now.registers.values.due) reg) }
        ensures value { ForEachPast self.now (λ p. NoWordDue self.now → result ≡ value_at p reg) }
    {
        self.registers.value(&self.part, reg, self.wrapped)
    }

    /// The registers that a state shows, each with its value.
    fn rows(&self) -> [(Reg, u32); SHOWN_COUNT]
        ensures { ForEachPast self.now (λ p. result ≡ with_values (value_owing_at p (frames_due self.now.registers.values.due))) }
    {
        let mut rows = [(Reg::Crc, 0); SHOWN_COUNT];
        for i in 0..SHOWN_COUNT {
            rows[i] = (SHOWN[i], self.value(SHOWN[i]));
        }
        rows
    }

    /// What a report shows beside the part's name, the words read out and the frames: the registers, where the bytes
    /// end, and startup. While words of frame data are still due, FAR is that of the words given so far.
    pub fn state(&self) -> Snapshot
        ensures owing { ForEachPast self.now (λ p. result ≡ state_owing_at p (frames_due self.now.registers.values.due)) }
        ensures value { ForEachPast self.now (λ p. NoWordDue self.now → result ≡ state_at p) }
    {
        Snapshot {
            taken: self.taken,
            end: self.end(),
            phase: self.registers.values.clock.phase(),
            lines: self.registers.values.clock.lines(),
            registers: self.rows(),
        }
    }

    /// Where the bytes taken end: in a gap, in a session, or at the fault or the IPROG that stopped the device.
    pub fn end(&self) -> End
        ensures { ForEachPast self.now (λ p. result ≡ (state_at p).end) }
    {
        end_by(
            self.registers.values.stop,
            self.cutter.is_synced(),
            self.value(Reg::Wbstar),
        )
    }

    /// The part.
    pub fn part(&self) -> &Part
        ensures stored { result.now ≡ self.now.part }
        ensures value { ForEachPast self.now (λ p. result.now ≡ p.part) }
    {
        &self.part
    }

    /// The fault that stopped the device; none where nothing stopped it, or an IPROG did.
    pub fn fault(&self) -> Option<Fault>
        ensures { ForEachPast self.now (λ p. result ≡ fault_of_stop (why_stopped (first_stop_at p))) }
    {
        match self.registers.values.stop {
            Some(StopCause::Fault(fault)) => Some(fault),
            _ => None,
        }
    }

    /// Whether startup has ended: the phase is 7.
    pub fn started(&self) -> bool
        ensures { ForEachPast self.now (λ p. result ≡ ((state_at p).phase == last_phase)) }
    {
        self.registers.values.clock.startup_ended()
    }

    /// Each device has a past: its part, what its reset kept, whether the flash has ended, and the bytes that it took
    /// since the reset. The call is for proofs alone, and does nothing.
    pub fn past_exists(&self)
        ensures past { HasSomePast self.now }
    {
        // reading a field gives the proof the invariant of the device
        let _taken = self.taken;
    }

    /// How many bytes were taken since the reset.
    pub fn taken(&self) -> u64
        ensures stored { result ≡ self.now.taken }
        ensures value { ForEachPast self.now (λ p. result ≡ length p.bytes) }
    {
        self.taken
    }
}
