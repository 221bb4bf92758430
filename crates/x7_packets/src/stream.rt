//! Packets over an input: its runs, one after another, lent out of one buffer (this project's choice).
ghost use Rattle.std.specs.Prelude.{◌≡◌, ◌≢◌, ◌≤◌, ◌<◌, ◌+◌, ◌^◌, ◌⊎◌, ℕ, List, [], length, take, vec_len, true, false, IfNone, IfOk, IfSome, OnErr, OnOk};
ghost use Rattle.x7_words.specs.Input.{AsksForNoInput, AtEnd, InputsFail, InputsStay, NoInputFault, taken_bytes_limit};
ghost use Rattle.x7_packets.specs.Cutter.{IsNeed};
ghost use Rattle.x7_packets.specs.Mode.{Mode};
ghost use Rattle.x7_packets.specs.FoundRun.{FoundRun, found_of};
ghost use Rattle.x7_packets.specs.PacketsState.{PacketsState, piece_size};
ghost use Rattle.x7_packets.specs.Stream.{CutsNext, GivesRun, GivesUp, IsCallResult, IsFoundRun, IsLastFound, RunIsReady, MayCall, PacketsStandFor, ReadsPiece};

use crate::cutter::{Cut, Cutter};
use crate::header::Step;
use std::alloc::Global;
use std::marker::Model;
use x7_words::{Failed, Inputs, NoMemory};

/// How many bytes are read at once at most, as many as the buffer has.
const PIECE_SIZE: usize = 65_536;

/// A run of a stream as a reader of packets gives it. A register stands by its number.
#[derive(Clone, Copy)]
pub enum Run<'b> {
    /// One or more bytes taken while searching, the sync word's bytes included.
    Skip(&'b [u8]),
    /// The last four bytes taken while searching were the sync word.
    Sync,
    /// A word in a header's place, and its step.
    Head(u32, Step),
    /// A payload word whose bytes came in two reads or more, with its register.
    Word(u8, u32),
    /// Payload words of one packet, with their register: a positive multiple of four bytes, four for CMD.
    Body(u8, &'b [u8]),
    /// One to three bytes of no whole word, at the end of a stream.
    Tail(&'b [u8]),
    /// The stream has no more bytes.
    End,
}

/// The last run of a reader, without the bytes that it lends: these stand in the buffer, and those of the tail are the
/// ones that the cutter keeps.
#[derive(Clone, Copy)]
pub(crate) enum LastRun {
    Skip,
    Sync,
    Head(u32, Step),
    Word(u8, u32),
    Body(u8),
    Tail,
    End,
}

/// The run that the cutter gave, without its bytes; `None` where the cutter needs more bytes.
fn last_run_of(cut: Cut) -> Option<LastRun>
    ensures found { IfSome result (λ run. IsFoundRun (found_of run) cut.entry) }
    ensures need { IfNone result (IsNeed cut.entry) }
{
    match cut {
        Cut::Need => None,
        Cut::Skip(_) => Some(LastRun::Skip),
        Cut::Sync => Some(LastRun::Sync),
        Cut::Head(w, step) => Some(LastRun::Head(w, step)),
        Cut::Word(register, w) => Some(LastRun::Word(register, w)),
        Cut::Body(register, _) => Some(LastRun::Body(register)),
    }
}

/// A buffer of `PIECE_SIZE` bytes that begins with these; `NoMemory` where there is no memory for it.
fn buffer_of(alloc: Global, first: &[u8]) -> Result<Vec<u8>, NoMemory>
    requires { length first.now ≤ piece_size }
    ensures items { IfOk result (λ buffer. take (length first.now) buffer.items ≡ first.now) }
    ensures length { IfOk result (λ buffer. vec_len buffer ≡ piece_size) }
{
    let mut buffer = Vec::from_slice(alloc, first)?;
    buffer.resize(PIECE_SIZE, 0)?;
    Ok(buffer)
}

/// The packets of a stream that is read where it must be. The runs are lent out of one buffer.
#[derive(Drop)]
pub struct Packets {
    cutter: Cutter,
    buffer: Vec<u8>,
    // In the buffer the last run's bytes stand from `start` to `at`, and from there to `end` those that the cutter
    // hasn't taken.
    start: usize,
    at: usize,
    end: usize,
    found: LastRun,
    is_done: bool,
    has_failed: bool,
    taken: u64,
}

impl Model for Packets {
    ghost use Rattle.std.specs.Prelude.{◌≡◌, ◌≤◌, vec_len};
    ghost use Rattle.x7_packets.specs.Cutter.{between};
    ghost use Rattle.x7_packets.specs.FoundRun.{found_of};
    ghost use Rattle.x7_packets.specs.PacketsState.{PacketsState, piece_size};

    ghost Value = { PacketsState };

    ghost view = { λ p. record { cutter = p.cutter; left = between p.buffer.items p.at p.end; found = found_of p.found; bytes = between p.buffer.items p.start p.at; is_done = p.is_done; has_failed = p.has_failed; taken = p.taken } };

    ghost invariant = { λ p. (p.start ≤ p.at) × (p.at ≤ p.end) × (p.end ≤ vec_len p.buffer) × (vec_len p.buffer ≡ piece_size) };
}

impl Packets {
    ghost use Rattle.std.specs.Borrow.{sem};
    ghost use Rattle.x7_packets.specs.Stream.{EndsNextCall};

    /// The packets of these bytes, at most 65,536, and then of what an input gives; `NoMemory` where there is no memory
    /// for the buffer.
    pub fn new(alloc: Global, first: &[u8]) -> Result<Packets, NoMemory>
        requires { length first.now ≤ piece_size }
        ensures stands { IfOk result (λ p. PacketsStandFor p first.now []) }
        ensures fresh { IfOk result (λ p. (p.is_done ≡ false) × (p.has_failed ≡ false) × (p.cutter.mode ≡ Mode.Searching)) }
    {
        let buffer = buffer_of(alloc, first)?;
        let cutter = Cutter::new();
        // for the proof alone: the bytes that a cutter keeps are the tail of those taken
        let _tail = cutter.kept();
        Ok(Packets {
            cutter,
            buffer,
            start: 0,
            at: 0,
            end: first.len(),
            found: LastRun::End,
            is_done: false,
            has_failed: false,
            taken: first.len() as u64,
        })
    }

    /// How many bytes were read, the first ones included, also those that the cutter hasn't taken, and also after a
    /// failed read.
    pub fn taken(&self) -> u64
        ensures value { result ≡ self.now.taken }
        ensures count { (bytes given : List ℕ) → PacketsStandFor self.now bytes given → result ≡ length bytes }
    {
        self.taken
    }

    /// Gives the next run. A run that the bytes read before complete is given with nothing read. Else the call reads up
    /// to the read whose bytes complete one, before which it takes three at most, or up to the end of the input. Once
    /// the tail or the end was given nothing is read, and the end is given again. A call in which a read fails is
    /// `Failed`, and so is each call after it.
    pub fn next_run<'b, I: Inputs>(&'b mut self, inputs: &mut I) -> Result<Run<'b>, Failed>
        requires selected { self.old.has_failed ≡ false → (I.state inputs.old).selected ≡ true }
        requires end { self.old.is_done ≡ true → AtEnd (I.state inputs.old).rest }
        requires count { self.old.taken ≤ taken_bytes_limit }
        ensures* next { sem 𝓛 (EndsNextCall self.entry (I.state inputs.old) (I.state inputs.new) result) }
        ensures failed { OnErr result ((self.old.has_failed ≡ true) ⊎ InputsFail (I.state inputs.old) (I.state inputs.new)) }
        ensures no_fault { OnOk result (NoInputFault (I.state inputs.old) (I.state inputs.new)) }
        ensures selected { OnOk result ((I.state inputs.new).selected ≡ true) }
        ensures stays_failed { self.old.has_failed ≡ true → OnOk result ⊥ }
        ensures asks { AsksForNoInput (I.state inputs.old) (I.state inputs.new) }
        ensures ready { RunIsReady self.old → inputs.new ≡ inputs.old }
        ensures reads_no_more { self.old.is_done ≡ true → inputs.new ≡ inputs.old }
        ensures inputs { InputsStay (I.state inputs.old) (I.state inputs.new) }
    {
        self.advance(inputs)?;
        Ok(self.run())
    }

    /// Finds the next run: reads and cuts until one was cut, or the tail or the end is next. `Failed` where a read
    /// fails or has failed.
    fn advance<I: Inputs>(&mut self, inputs: &mut I) -> Result<(), Failed>
        requires { MayCall self.old (I.state inputs.old) }
        ensures gives_run { OnOk result ((r : Run) → IsLastFound self.new r
            → GivesRun self.old self.new (I.state inputs.old) (I.state inputs.new) r) }
        ensures gives_up { OnErr result (GivesUp self.old self.new (I.state inputs.old) (I.state inputs.new)) }
        ensures call { IsCallResult self.old (I.state inputs.old) (I.state inputs.new) result }
        ensures ready { RunIsReady self.old → inputs.new ≡ inputs.old }
        ensures reads_no_more { self.old.is_done ≡ true → inputs.new ≡ inputs.old }
    {
        if self.has_failed {
            return Err(Failed);
        }
        if self.is_done {
            self.found = LastRun::End;
            return Ok(());
        }
        loop {
            if self.cut_next() {
                return Ok(());
            }
            let more = match self.fill(inputs) {
                Ok(more) => more,
                Err(failed) => return Err(failed),
            };
            if !more {
                self.finish();
                return Ok(());
            }
        }
    }

    /// The last run that was found.
    fn run(&self) -> Run<'_>
        ensures { IsLastFound self.now result }
    {
        let bytes = &self.buffer[self.start..self.at];
        match self.found {
            LastRun::Skip => Run::Skip(bytes),
            LastRun::Sync => Run::Sync,
            LastRun::Head(w, step) => Run::Head(w, step),
            LastRun::Word(register, w) => Run::Word(register, w),
            LastRun::Body(register) => Run::Body(register, bytes),
            LastRun::Tail => Run::Tail(self.cutter.kept()),
            LastRun::End => Run::End,
        }
    }

    /// Cuts the bytes that are left, and says whether a run was found.
    fn cut_next(&mut self) -> bool
        ensures { CutsNext self.old self.new result }
    {
        let mut count = 0;
        let found = last_run_of(self.cutter.cut(&self.buffer[self.at..self.end], &mut count));
        // for the proof alone: the bytes that a cutter keeps are the tail of those taken
        let _tail = self.cutter.kept();
        self.start = self.at;
        self.at += count;
        match found {
            Some(found) => {
                self.found = found;
                true
            }
            None => false,
        }
    }

    /// Reads a piece once more, and says whether the input gave some bytes; `Failed` where the read fails.
    fn fill<I: Inputs>(&mut self, inputs: &mut I) -> Result<bool, Failed>
        requires selected { (I.state inputs.old).selected ≡ true }
        requires none_left { self.old.left ≡ [] }
        requires count { self.old.taken + piece_size < 2 ^ 64 }
        ensures fills { IfOk result (λ gave_bytes. ReadsPiece self.old self.new (I.state inputs.old) (I.state inputs.new) gave_bytes) }
        ensures loses_bytes { OnErr result (self.new ≡ record self.old { bytes = []; has_failed = true }) }
        ensures failed { OnErr result (InputsFail (I.state inputs.old) (I.state inputs.new)) }
        ensures no_fault { OnOk result (NoInputFault (I.state inputs.old) (I.state inputs.new)) }
        ensures selected { OnOk result ((I.state inputs.new).selected ≡ true) }
        ensures asks { AsksForNoInput (I.state inputs.old) (I.state inputs.new) }
        ensures no_end { IfOk result (λ gave_bytes. gave_bytes ≡ true → (I.state inputs.new).ends ≤ (I.state inputs.old).ends) }
        ensures inputs { InputsStay (I.state inputs.old) (I.state inputs.new) }
    {
        self.start = 0;
        self.at = 0;
        self.end = 0;
        match inputs.read(&mut self.buffer) {
            Ok(count) => {
                self.end = count;
                self.taken += count as u64;
                Ok(count > 0)
            }
            Err(failed) => {
                self.has_failed = true;
                Err(failed)
            }
        }
    }

    /// Ends the runs: with the tail where the cutter keeps bytes of no whole word, else with the end.
    fn finish(&mut self)
        ensures tail { self.old.cutter.kept ≢ [] → self.new ≡ record self.old { found = FoundRun.Tail; is_done = true } }
        ensures end { self.old.cutter.kept ≡ [] → self.new ≡ record self.old { found = FoundRun.End; is_done = true } }
    {
        self.is_done = true;
        self.found = if self.cutter.kept().is_empty() {
            LastRun::End
        } else {
            LastRun::Tail
        };
    }
}
