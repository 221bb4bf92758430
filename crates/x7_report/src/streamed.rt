//! The report of a device, ready to be written: the lines of its frames are made as they are written, some at a time.
ghost use Rattle.std.specs.Prelude.{◌≡◌, ◌++◌, ◌≤◌, vec_capacity, IfOk, OnErr, OnOk};
ghost use Rattle.x7_words.specs.Sink.{SinkFaultsNeverFall, PutsAll, PutsSome, SinkFails};
ghost use Rattle.x7_memory.specs.PartFrames.{AreFramesOf};
ghost use Rattle.x7_engine.specs.Past.{ForEachPast, memory_at, state_at};
ghost use Rattle.x7_engine.specs.Standing.{NoWordDue};
ghost use Rattle.x7_report.specs.Frames.{lines_of_ranks, room_at_once};
ghost use Rattle.x7_report.specs.Reports.{report_text, state_reported};

use crate::frames::{FRAME_LINE_ROOM, put_lines};
use crate::reports::begin_report;
use std::alloc::Global;
use std::marker::Model;
use x7_engine::Device;
use x7_memory::Memory;
use x7_part::Part;
use x7_words::{Failed, NoMemory, Sink, write_all};

/// The most lines of frames that are written at once.
const LINES_AT_ONCE: usize = 128;

/// The most bytes that the lines written at once take.
const ROOM_AT_ONCE: usize = LINES_AT_ONCE * FRAME_LINE_ROOM;

/// Writes the lines of the frames of these ranks, up to 128 at once. No memory is taken.
fn write_lines<S: Sink>(
    out: &mut S,
    part: &Part,
    memory: &Memory,
    ranks: &[u32],
    buffer: &mut Vec<u8>,
) -> Result<(), Failed>
    requires memory { AreFramesOf part.now memory.now }
    requires room { room_at_once ≤ vec_capacity buffer.old }
    ensures whole { OnOk result (PutsAll (S.state out.old) (lines_of_ranks part.now memory.now ranks.now) (S.state out.new)) }
    ensures prefix { PutsSome (S.state out.old) (lines_of_ranks part.now memory.now ranks.now) (S.state out.new) }
    ensures failed { OnErr result (SinkFails (S.state out.old) (S.state out.new)) }
    ensures no_fault { OnOk result ((S.state out.new).faults ≡ (S.state out.old).faults) }
    ensures counts { SinkFaultsNeverFall (S.state out.old) (S.state out.new) }
    ensures room { room_at_once ≤ vec_capacity buffer.new }
{
    let mut rest = ranks;
    while rest.len() > 0 {
        let (next, more) = rest.split_at(rest.len().min(LINES_AT_ONCE));
        buffer.clear();
        put_lines(buffer, part, memory, next);
        write_all(out, buffer)?;
        rest = more;
    }
    Ok(())
}

/// Lines and after them the report of a device, ready to be written: what comes before the lines of its frames, the
/// ranks of the frames that it shows, and room for the lines that are written at once.
pub struct PlayText {
    stopped: bool,
    device: Device,
    head: Vec<u8>,
    ranks: Vec<u32>,
    buffer: Vec<u8>,
}

impl Drop for PlayText {
    fn drop(self) {
        let PlayText {
            stopped: _,
            device: _,
            head: _,
            ranks: _,
            buffer: _,
        } = self;
    }
}

impl Model for PlayText {
    ghost use Rattle.std.specs.Prelude.{◌++◌, ◌≤◌, vec_capacity};
    ghost use Rattle.x7_report.specs.Frames.{lines_of_ranks, room_at_once};
    ghost use Rattle.x7_report.specs.Reports.{PlayTextState};

    ghost Value = { PlayTextState };

    ghost view = { λ t. record { stopped = t.stopped; text = t.head.items ++ lines_of_ranks t.device.part t.device.registers.frames.memory t.ranks.items } };

    ghost invariant = { λ t. room_at_once ≤ vec_capacity t.buffer };
}

impl PlayText {
    /// The lines of `head`, and after them the report of a device and of the words that it read out. While words of
    /// frame data are due, FAR is that of the words given so far. `stopped` says whether what is reported stopped: the
    /// device at a fault, or what used the device, as a scan that differs or a boot that no attempt started.
    pub fn new(
        alloc: Global,
        mut head: Vec<u8>,
        device: Device,
        reads: &[u32],
        stopped: bool,
    ) -> Result<PlayText, NoMemory>
        ensures value { IfOk result (λ text. ForEachPast device (λ p. NoWordDue device
            → text ≡ record { stopped = stopped; text = head.items ++ report_text p.part (state_at p) reads.now (memory_at p) })) }
        ensures owing { IfOk result (λ text. ForEachPast device (λ p.
            text ≡ record { stopped = stopped; text = head.items ++ report_text p.part (state_reported device p) reads.now (memory_at p) })) }
    {
        let buffer = Vec::with_capacity(alloc, ROOM_AT_ONCE)?;
        let ranks = begin_report(alloc, &mut head, &device, reads)?;
        Ok(PlayText {
            stopped,
            device,
            head,
            ranks,
            buffer,
        })
    }

    /// Whether what is reported stopped, as `new` was told.
    pub fn is_stopped(&self) -> bool
        ensures { result ≡ self.now.stopped }
    {
        self.stopped
    }

    /// Writes the text: the lines of `head` and the report. After an error a prefix of it was written. Either way it
    /// may be written again.
    pub fn write<S: Sink>(&mut self, out: &mut S) -> Result<(), Failed>
        ensures whole { OnOk result (PutsAll (S.state out.old) self.old.text (S.state out.new)) }
        ensures prefix { PutsSome (S.state out.old) self.old.text (S.state out.new) }
        ensures failed { OnErr result (SinkFails (S.state out.old) (S.state out.new)) }
        ensures no_fault { OnOk result ((S.state out.new).faults ≡ (S.state out.old).faults) }
        ensures same { self.new ≡ self.old }
    {
        write_all(out, &self.head)?;
        write_lines(
            out,
            self.device.part(),
            self.device.memory(),
            &self.ranks,
            &mut self.buffer,
        )
    }
}
