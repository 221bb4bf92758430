//! The frame pipeline (UG470, frame data): frames on their way into the memory, copies, and words on their way out.
ghost use Rattle.std.specs.Prelude.{◌≡◌, ◌+◌, ◌-◌, ◌*◌, ◌/◌, ◌%◌, ◌^◌, ◌<◌, ◌≤◌, ◌==◌, ◌&&◌, not, [], ◌∷◌, ◌++◌, length, take, is_some, vec_len, vec_capacity, Option, Some, None, IfOk, IfErr, IsTrue, OnOk, OnErr};
ghost use Rattle.std.specs.Result.{result_err};
ghost use Rattle.x7_words.specs.Word.{AreWholeWords, words_of_bytes};
ghost use Rattle.x7_part.specs.Part.{PartData};
ghost use Rattle.x7_part.specs.Slot.{slots_from};
ghost use Rattle.x7_memory.specs.PartFrames.{frame_at, AreFramesOf};
ghost use Rattle.x7_part.specs.declared.slot.Slot.{Slot};
ghost use Rattle.x7_regs.specs.declared.command.Command.{Command};
ghost use Rattle.x7_pipeline.specs.Runs.{GetsPairs};
ghost use Rattle.x7_pipeline.specs.FarAsRead.{far_of, loaded_base, is_frame_address};
ghost use Rattle.x7_pipeline.specs.Copies.{is_wcfg, is_mfw, source_with};
ghost use Rattle.x7_pipeline.specs.Readback.{readback_at, word_at};
ghost use Rattle.x7_pipeline.specs.Fault.{write_fault, readback_fault, drop_fault};
ghost use Rattle.x7_pipeline.specs.Place.{StartsAt};
ghost use Rattle.x7_pipeline.specs.Pipeline.{AreOfPart, ChangedNothing, PipelineData, IsPipelineOf, with_words_passed};
ghost use Rattle.x7_pipeline.specs.Flow.{AreWordsTaken, pairs_copied_by, fault_of_copy, FlowGoesOn, FramesLand, FramesLandUpToFault, HoldsFlow, ForEachFlow, PutsNewest, after_reads, after_words, begun_at, begun_by, first_flow, with_run, flow_written};

mod saved;

use crate::fault::RunFault;
use crate::place::{far_at, is_frame_address, readback_slot, slot_count};
pub use saved::Saved;
use std::alloc::Global;
use std::marker::Model;
use x7_memory::{Memory, set_frame};
use x7_part::{Part, Slot};
use x7_regs::Command;
use x7_words::{NoMemory, word_of};

/// The words of a run that are in no frame of the memory yet, the frame that copies put, and how far a readback is.
pub struct Pipeline {
    /// The number of words of a frame.
    width: u32,
    /// The width of an address in bits.
    far_width: u32,
    /// The command that stands.
    command: Command,
    /// The address that the run or the readback began at.
    base: u32,
    /// The words after the run's last whole frame.
    rest: Vec<u32>,
    /// The run's newest whole frame, where `frame_count` isn't 0.
    newest: Vec<u32>,
    /// The number of the run's whole frames.
    frame_count: u64,
    /// The frame that copies put, where `has_source`.
    source: Vec<u32>,
    /// Whether there is a source: MFW came right after WCFG, and took a frame.
    has_source: bool,
    /// The number of words that a readback gave, counted up to where there are zeros alone.
    given: u64,
    /// The slot of the next word of a readback.
    slot: Slot,
}

impl Drop for Pipeline {
    fn drop(self) {
        let Pipeline {
            width: _,
            far_width: _,
            command: _,
            base: _,
            rest: _,
            newest: _,
            frame_count: _,
            source: _,
            has_source: _,
            given: _,
            slot: _,
        } = self;
    }
}

impl Model for Pipeline {
    ghost use Rattle.x7_pipeline.specs.Pipeline.{PipelineData};

    ghost Value = { PipelineData };

    ghost use Rattle.x7_pipeline.specs.PipelineFields.{pipeline_seen, HasFrameRoom};

    ghost view = { pipeline_seen };

    ghost invariant = { HasFrameRoom };
}

impl Pipeline {
    /// A pipeline as after a reset: no command was written, FAR is 0. The call takes room for three frames, and no
    /// other call takes memory.
    pub fn new(alloc: Global, part: &Part) -> Result<Pipeline, NoMemory>
        ensures stands { IfOk result (λ pipeline. HoldsFlow part.now pipeline first_flow) }
        ensures part { IfOk result (IsPipelineOf part.now) }
    {
        let width = part.words();
        Ok(Pipeline {
            width,
            far_width: part.far_width(),
            command: Command::Null,
            base: 0,
            rest: Vec::with_capacity(alloc, width as usize)?,
            newest: Vec::with_capacity(alloc, width as usize)?,
            frame_count: 0,
            source: Vec::with_capacity(alloc, width as usize)?,
            has_source: false,
            given: 0,
            slot: Slot::Pad,
        })
    }

    /// Makes the pipeline what `new` gives, whatever it stood for.
    pub fn reset(&mut self)
        ensures stands { (part : PartData) → IsPipelineOf part self.old → HoldsFlow part self.new first_flow }
        ensures part { (part : PartData) → IsPipelineOf part self.old → IsPipelineOf part self.new }
    {
        self.command = Command::Null;
        self.base = 0;
        self.has_source = false;
        self.end_run();
    }

    /// A FAR load: a new run begins at the address in the word's lowest bits, as many as an address of the part has.
    /// The source stays.
    pub fn load(&mut self, far: u32)
        ensures stands { (part : PartData) → FlowGoesOn part self.old self.new (begun_at (loaded_base part far)) }
        ensures part { (part : PartData) → IsPipelineOf part self.old → IsPipelineOf part self.new }
    {
        self.base = low_bits(far, self.far_width);
        self.end_run();
    }

    /// A command: a new run begins at FAR as read. MFW right after WCFG takes the ended run's newest whole frame, if
    /// there is one, as the source; any other command leaves none.
    pub fn command(&mut self, command: Command, part: &Part)
        ensures stands { FlowGoesOn part.now self.old self.new (begun_by part.now command) }
        ensures part { IsPipelineOf part.now self.old → IsPipelineOf part.now self.new }
    {
        self.base = self.far(part);
        self.take_source(command);
        self.command = command;
        self.end_run();
    }

    /// Ends the run and the readback: there are no words of either.
    fn end_run(&mut self)
        ensures { self.new ≡ record self.old { rest = []; newest = None; frame_count = 0; given = 0; slot = Slot.Pad } }
    {
        self.rest.clear();
        self.frame_count = 0;
        self.given = 0;
        self.slot = Slot::Pad;
    }

    /// Makes the newest whole frame the source, where the new command begins copies, and else leaves none. In either
    /// case the run has no whole frame after it.
    fn take_source(&mut self, command: Command)
        ensures { self.new ≡ record self.old { newest = None; frame_count = 0; source = source_with self.old.command command self.old.newest } }
    {
        if begins_copies(self.command, command) && self.frame_count > 0 {
            std::mem::swap(&mut self.newest, &mut self.source);
            self.has_source = true;
        } else {
            self.has_source = false;
        }
        self.frame_count = 0;
    }

    /// One word more of a run under WCFG. The word that completes a frame makes that frame the newest; the frame that
    /// was the newest goes into the memory. A run's first word is refused where the base is no address (`Address`), and
    /// the last word of a frame past the last slot (`Overrun`).
    pub fn write(&mut self, word: u32, part: &Part, memory: &mut Memory) -> Result<(), RunFault>
        requires part { AreOfPart part.now self.old memory.old }
        ensures stands { OnOk result (FlowGoesOn part.now self.old self.new (after_words (word ∷ []))) }
        ensures lands { OnOk result (FramesLand part.now self.old (word ∷ []) memory.old memory.new) }
        ensures fault { ForEachFlow part.now self.old (λ f. result_err result ≡ write_fault part.now f.base f.run) }

        // Whatever the answer.
        ensures part { AreOfPart part.now self.new memory.new }

        // After a fault.
        ensures refused { OnErr result (ChangedNothing self.old self.new memory.old memory.new) }
    {
        if self.writes_nowhere(part) {
            return Err(RunFault::Address(self.base));
        }
        if self.rest.len() + 1 < self.width as usize {
            push_word(&mut self.rest, word);
            return Ok(());
        }
        if slot_count(part, self.base) <= self.frame_count {
            return Err(RunFault::Overrun);
        }
        let first = part.place_of(self.base);
        let mut hint = 0;
        self.put_newest(first, &mut hint, part, memory);
        push_word(&mut self.rest, word);
        // `rest` is the completed frame: it becomes the newest, and the old one's room takes the next words.
        std::mem::swap(&mut self.rest, &mut self.newest);
        self.rest.clear();
        self.frame_count += 1;
        Ok(())
    }

    /// Writes the words of a run in order, four bytes each, the highest first, as a call of `write` for each of them up
    /// to the first fault would. The answer is the number of words taken, a refused one included, and its fault, where
    /// one is refused.
    pub fn write_bytes(
        &mut self,
        bytes: &[u8],
        part: &Part,
        memory: &mut Memory,
    ) -> (usize, Option<RunFault>)
        requires whole { AreWholeWords bytes.now }
        requires part { AreOfPart part.now self.old memory.old }
        ensures stands { ForEachFlow part.now self.old (λ f. HoldsFlow part.now self.new (with_run (flow_written part.now f (words_of_bytes bytes.now)).run f)) }
        ensures lands { FramesLandUpToFault part.now self.old (words_of_bytes bytes.now) memory.old memory.new }
        ensures count { ForEachFlow part.now self.old (λ f. result.0 ≡ (flow_written part.now f (words_of_bytes bytes.now)).count) }
        ensures fault { ForEachFlow part.now self.old (λ f. result.1 ≡ (flow_written part.now f (words_of_bytes bytes.now)).fault) }
        ensures within { result.0 ≤ length bytes.now / 4 }
        ensures part { AreOfPart part.now self.new memory.new }
    {
        let mut at = 0;
        'pieces: while at < bytes.len() {
            let (_, later) = bytes.split_at(at);
            match self.write_some(later, part, memory) {
                Ok(taken) => at += taken,
                Err(fault) => return (at / 4 + 1, Some(fault)),
            }
        }
        (at / 4, None)
    }

    /// Writes the whole frames that come next, where no frame has begun, the bytes hold one and it has a slot, or else
    /// the next word. The answer is the number of bytes written, or the fault of that word. The clauses say just that
    /// whole words are written, one at least, of which none is refused.
    fn write_some(
        &mut self,
        bytes: &[u8],
        part: &Part,
        memory: &mut Memory,
    ) -> Result<usize, RunFault>
        requires word { 4 ≤ length bytes.now }
        requires part { AreOfPart part.now self.old memory.old }
        ensures words { IfOk result (λ taken. AreWordsTaken taken bytes.now) }
        ensures stands { IfOk result (λ taken. FlowGoesOn part.now self.old self.new (after_words (words_of_bytes (take taken bytes.now)))) }
        ensures lands { IfOk result (λ taken. FramesLand part.now self.old (words_of_bytes (take taken bytes.now)) memory.old memory.new) }
        ensures passes { IfOk result (λ taken. ForEachFlow part.now self.old (λ f. (flow_written part.now f (words_of_bytes (take taken bytes.now))).fault ≡ None)) }
        ensures fault { IfErr result (λ fault. ForEachFlow part.now self.old (λ f. Some fault ≡ write_fault part.now f.base f.run)) }
        ensures part { AreOfPart part.now self.new memory.new }
        ensures refused { OnErr result (ChangedNothing self.old self.new memory.old memory.new) }
    {
        let frame_size = 4 * self.width as usize;
        if frame_size <= bytes.len() && self.takes_frame(part) {
            return Ok(self.write_frames(bytes, part, memory));
        }
        let word = word_of([bytes[0], bytes[1], bytes[2], bytes[3]]);
        match self.write(word, part, memory) {
            Ok(()) => Ok(4),
            Err(fault) => Err(fault),
        }
    }

    /// Whether no frame has begun, and the next one has a slot.
    fn takes_frame(&self, part: &Part) -> bool
        ensures begins { IsTrue result → self.now.rest ≡ [] }
        ensures slot { IsTrue result → self.now.frame_count < length (slots_from part.now self.now.base) }
    {
        self.rest.is_empty() && self.frame_count < slot_count(part, self.base)
    }

    /// Writes the whole frames that come next, up to the last one that has a slot; the first one is to have a slot. The
    /// answer is the number of bytes written. The clauses say just that these are whole words, one at least, of which
    /// none is refused.
    fn write_frames(&mut self, bytes: &[u8], part: &Part, memory: &mut Memory) -> usize
        requires part { AreOfPart part.now self.old memory.old }
        requires begins { self.old.rest ≡ [] }
        requires frame { 4 * self.old.width ≤ length bytes.now }
        requires slot { self.old.frame_count < length (slots_from part.now self.old.base) }
        ensures words { AreWordsTaken result bytes.now }
        ensures stands { FlowGoesOn part.now self.old self.new (after_words (words_of_bytes (take result bytes.now))) }
        ensures lands { FramesLand part.now self.old (words_of_bytes (take result bytes.now)) memory.old memory.new }
        ensures passes { ForEachFlow part.now self.old (λ f. (flow_written part.now f (words_of_bytes (take result bytes.now))).fault ≡ None) }
        ensures part { AreOfPart part.now self.new memory.new }
    {
        let frame_size = 4 * self.width as usize;
        let frame_limit = slot_count(part, self.base);
        let first = part.place_of(self.base);
        let mut hint = 0;
        self.write_frame(&bytes[..frame_size], first, &mut hint, part, memory);
        let mut at = frame_size;
        'frames: while self.has_next(frame_size, bytes.len() - at, frame_limit) {
            self.write_frame(&bytes[at..at + frame_size], first, &mut hint, part, memory);
            at += frame_size;
        }
        at
    }

    /// Whether a whole frame of `frame_size` bytes is left, and the run has fewer than `frame_limit` frames.
    fn has_next(&self, frame_size: usize, bytes_left: usize, frame_limit: u64) -> bool
        ensures { IsTrue result → (frame_size ≤ bytes_left) × (self.now.frame_count < frame_limit) }
    {
        frame_size <= bytes_left && self.frame_count < frame_limit
    }

    /// Puts the newest whole frame into the memory, and makes the frame of these bytes the newest. `first` is the
    /// number, from 0, of the base's slot among those of the part, and `hint` keeps where the part looks for a slot
    /// first.
    fn write_frame(
        &mut self,
        bytes: &[u8],
        first: u64,
        hint: &mut usize,
        part: &Part,
        memory: &mut Memory,
    )
        requires part { AreOfPart part.now self.old memory.old }
        requires frame { length bytes.now ≡ 4 * self.old.width }
        requires slot { self.old.frame_count < length (slots_from part.now self.old.base) }
        requires limit { length (slots_from part.now self.old.base) < 2 ^ 31 }
        requires place { StartsAt part.now self.old.base first }
        ensures newest { self.new ≡ record self.old { newest = Some (words_of_bytes bytes.now); frame_count = self.old.frame_count + 1 } }
        ensures puts_nothing { self.old.newest ≡ None → memory.new ≡ memory.old }
        ensures put { PutsNewest part.now self.old (frame_at part.now memory.old) (frame_at part.now memory.new) }
        ensures part { AreOfPart part.now self.new memory.new }
    {
        self.put_newest(first, hint, part, memory);
        set_frame(&mut self.newest, bytes);
        self.frame_count += 1;
    }

    /// Whether the next word would be a run's first, and the base is no address.
    fn writes_nowhere(&self, part: &Part) -> bool
        ensures { result ≡ ((self.now.frame_count == 0) && (length self.now.rest == 0) && not (is_frame_address part.now self.now.base)) }
    {
        self.frame_count == 0 && self.rest.is_empty() && !is_frame_address(part, self.base)
    }

    /// Puts the newest whole frame into the memory, where there is one and its slot is no pad. `first` is the number,
    /// from 0, of the base's slot among those of the part, and `hint` keeps where the part looks for a slot first.
    fn put_newest(&self, first: u64, hint: &mut usize, part: &Part, memory: &mut Memory)
        requires part { AreOfPart part.now self.now memory.old }
        requires slot { self.now.frame_count < length (slots_from part.now self.now.base) }
        requires limit { length (slots_from part.now self.now.base) < 2 ^ 31 }
        requires place { StartsAt part.now self.now.base first }
        ensures puts_nothing { self.now.newest ≡ None → memory.new ≡ memory.old }
        ensures put { PutsNewest part.now self.now (frame_at part.now memory.old) (frame_at part.now memory.new) }
        ensures memory { AreFramesOf part.now memory.new }
    {
        if self.frame_count == 0 {
            return;
        }
        if let Some(rank) = part.rank_at(first + (self.frame_count - 1), hint) {
            memory.put_at_rank(part, rank, &self.newest);
        }
    }

    /// A word written to MFWR, which is a copy: the source is put at the base. It is refused under another command than
    /// MFW and without a source (`Multi`), and else where the base is no address (`Address`).
    pub fn copy(&mut self, part: &Part, memory: &mut Memory) -> Result<(), RunFault>
        requires part { AreOfPart part.now self.old memory.old }
        ensures put { OnOk result (ForEachFlow part.now self.old (λ f. GetsPairs (pairs_copied_by f) (frame_at part.now memory.old) (frame_at part.now memory.new))) }
        ensures fault { ForEachFlow part.now self.old (λ f. result_err result ≡ fault_of_copy part.now f) }

        // Whatever the answer.
        ensures same_pipeline { self.new ≡ self.old }
        ensures part { AreOfPart part.now self.new memory.new }

        // After a fault.
        ensures same_memory { OnErr result (memory.new ≡ memory.old) }
    {
        if !self.may_copy() {
            return Err(RunFault::Multi);
        }
        if !is_frame_address(part, self.base) {
            return Err(RunFault::Address(self.base));
        }
        memory.put(part, self.base, &self.source);
        Ok(())
    }

    /// Whether the command is MFW and there is a source.
    fn may_copy(&self) -> bool
        ensures { result ≡ (is_mfw self.now.command && is_some self.now.source) }
    {
        match self.command {
            Command::Mfw => self.has_source,
            _ => false,
        }
    }

    /// The next word of a readback; that RCFG is the command is the caller's to see to. The first word is refused where
    /// the base is no address (`Address`).
    pub fn read_word(&mut self, part: &Part, memory: &Memory) -> Result<u32, RunFault>
        requires part { AreOfPart part.now self.old memory.now }
        ensures word { IfOk result (λ word. ForEachFlow part.now self.old (λ f. word ≡ readback_at part.now f.base (frame_at part.now memory.now) f.given)) }
        ensures stands { OnOk result (FlowGoesOn part.now self.old self.new (after_reads 1)) }
        ensures fault { ForEachFlow part.now self.old (λ f. result_err result ≡ readback_fault part.now f.base f.given) }

        // Whatever the answer.
        ensures part { IsPipelineOf part.now self.new }

        // After a fault.
        ensures unchanged { OnErr result (self.new ≡ self.old) }
    {
        if self.reads_nowhere(part) {
            return Err(RunFault::Address(self.base));
        }
        let word = self.word(part, memory);
        self.pass_word(part);
        Ok(word)
    }

    /// The fault that the next word of a readback would have: `Address` at the first one where the base is no address,
    /// else none.
    pub fn fault_of_read(&self, part: &Part) -> Option<RunFault>
        ensures { ForEachFlow part.now self.now (λ f. result ≡ readback_fault part.now f.base f.given) }
    {
        if self.reads_nowhere(part) {
            return Some(RunFault::Address(self.base));
        }
        None
    }

    /// Whether the next word would be a readback's first, and the base is no address.
    fn reads_nowhere(&self, part: &Part) -> bool
        ensures { result ≡ ((self.now.given == 0) && not (is_frame_address part.now self.now.base)) }
    {
        self.given == 0 && !is_frame_address(part, self.base)
    }

    /// The next word of the readback, which is one of the frame at its slot, and 0 at a pad and past the last slot.
    fn word(&self, part: &Part, memory: &Memory) -> u32
        requires part { AreOfPart part.now self.now memory.now }
        ensures { result ≡ word_at self.now.slot (frame_at part.now memory.now) (self.now.given % self.now.width) }
    {
        let Slot::Frame(far) = self.slot else {
            return 0;
        };
        match memory.frame(part, far) {
            Some(words) => words[(self.given % u64::from(self.width)) as usize],
            None => 0,
        }
    }

    /// Counts one word more that a readback gave. The slot changes at the end of a frame alone, and past the last slot
    /// the count stays.
    fn pass_word(&mut self, part: &Part)
        ensures stands { FlowGoesOn part.now self.old self.new (after_reads 1) }
        ensures part { IsPipelineOf part.now self.old → IsPipelineOf part.now self.new }
    {
        // for the proof alone: the part's range keeps the count from its last value
        let _frames = part.frames();
        if let Slot::End = self.slot {
            return;
        }
        self.given = self.given.saturating_add(1);
        if self.given % u64::from(self.width) != 0 {
            return;
        }
        self.slot = readback_slot(part, self.base, self.given / u64::from(self.width));
    }

    /// Passes over `count` words of a readback, as `count` calls of `read_word` would, up to the first fault.
    pub fn drop_words(&mut self, count: u32, part: &Part) -> Result<(), RunFault>
        ensures stands { OnOk result (FlowGoesOn part.now self.old self.new (after_reads count)) }
        ensures fault { ForEachFlow part.now self.old (λ f. result_err result ≡ drop_fault part.now f.base f.given count) }

        // Whatever the answer.
        ensures part { IsPipelineOf part.now self.old → IsPipelineOf part.now self.new }

        // After a fault.
        ensures unchanged { OnErr result (self.new ≡ self.old) }
    {
        if count == 0 {
            return Ok(());
        }
        if self.reads_nowhere(part) {
            return Err(RunFault::Address(self.base));
        }
        self.pass_words(count, part);
        Ok(())
    }

    /// Counts `count` words more that a readback gave, up to where there are zeros alone.
    fn pass_words(&mut self, count: u32, part: &Part)
        ensures { self.new ≡ with_words_passed part.now self.old count }
    {
        let limit = u64::from(self.width) * (1 + slot_count(part, self.base));
        self.given = self.given.saturating_add(u64::from(count)).min(limit);
        self.slot = readback_slot(part, self.base, self.given / u64::from(self.width));
    }

    /// The frame address register as it is read.
    pub fn far(&self, part: &Part) -> u32
        ensures { ForEachFlow part.now self.now (λ f. result ≡ far_of part.now f.base f.run f.given) }
    {
        let frames = self.frame_count.max(self.given / u64::from(self.width));
        far_at(part, self.base, frames.saturating_sub(1))
    }
}

/// The `width` lowest bits of a word.
fn low_bits(word: u32, width: u32) -> u32
    requires { width ≤ 32 }
    ensures { result ≡ word % 2 ^ width }
{
    (u64::from(word) % (1 << width)) as u32
}

/// Whether the new command ends a run of frame data and begins copies: MFW right after WCFG.
fn begins_copies(old: Command, new: Command) -> bool
    ensures { result ≡ (is_wcfg old && is_mfw new) }
{
    match (old, new) {
        (Command::Wcfg, Command::Mfw) => true,
        _ => false,
    }
}

/// Appends a word for which there is room.
fn push_word(words: &mut Vec<u32>, word: u32)
    requires { vec_len words.old + 1 ≤ vec_capacity words.old }
    ensures items { words.new.items ≡ words.old.items ++ word ∷ [] }
    ensures length { vec_len words.new ≡ vec_len words.old + 1 }
    ensures room { vec_capacity words.old ≤ vec_capacity words.new }
{
    match words.push(word) {
        Ok(()) => (),
        Err(_) => unreachable!(),
    }
}
