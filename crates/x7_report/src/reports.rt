//! The report of a device.
ghost use Rattle.std.specs.Prelude.{◌≡◌, ◌++◌, IfOk, OnOk};
ghost use Rattle.x7_engine.specs.Past.{ForEachPast, memory_at, state_at};
ghost use Rattle.x7_engine.specs.Standing.{NoWordDue};
ghost use Rattle.x7_report.specs.Reports.{report_head, report_text, state_reported, text_begun};

use crate::frames::{FRAME_LINE_ROOM, put_frame_count, put_lines, shown_ranks};
use crate::reads::put_reads;
use crate::state::put_state;
use std::alloc::Global;
use x7_engine::Device;
use x7_text::make_room;
use x7_words::NoMemory;

/// Appends what a report has before the lines of its frames, of which it shows `count`: the lines of the device's
/// state, those of the words read out, and the line of that number.
fn put_head(
    text: &mut Vec<u8>,
    device: &Device,
    reads: &[u32],
    count: usize,
) -> Result<(), NoMemory>
    ensures { OnOk result (ForEachPast device.now (λ p.
        text.new.items ≡ text.old.items ++ report_head p.part (state_reported device.now p) reads.now count)) }
{
    put_state(text, device.part().name(), &device.state())?;
    put_reads(text, reads)?;
    put_frame_count(text, count)
}

/// Appends what a report has before the lines of its frames, and gives the ranks of the frames that it shows.
pub(crate) fn begin_report(
    alloc: Global,
    text: &mut Vec<u8>,
    device: &Device,
    reads: &[u32],
) -> Result<Vec<u32>, NoMemory>
    ensures { IfOk result (λ ranks. ForEachPast device.now (λ p.
        text_begun device.now text.new.items ranks.items ≡ text.old.items ++ report_text p.part (state_reported device.now p) reads.now (memory_at p))) }
{
    let ranks = shown_ranks(alloc, device.part(), device.memory())?;
    put_head(text, device, reads, ranks.len())?;
    Ok(ranks)
}

/// The report of a device and of the words that it read out (this project's choice). Its lines are `part NAME`;
/// `taken N`, how many bytes it took; `end` and where these end; `phase P done D gts G gwe E`; and a line
/// `reg NAME WORD` for each shown register. Then come `reads N` and the words in `data` lines of eight, and `frames N`
/// and the `frame` lines of all frames that have a word other than 0. While words of frame data are due, FAR is that of
/// the words given so far.
pub fn report(alloc: Global, device: &Device, reads: &[u32]) -> Result<Vec<u8>, NoMemory>
    ensures value { IfOk result (λ text. ForEachPast device.now (λ p. NoWordDue device.now
        → text.items ≡ report_text p.part (state_at p) reads.now (memory_at p))) }
    ensures owing { IfOk result (λ text. ForEachPast device.now (λ p. text.items ≡ report_text p.part (state_reported device.now p) reads.now (memory_at p))) }
{
    let mut text = Vec::new(alloc);
    let ranks = begin_report(alloc, &mut text, device, reads)?;
    let Some(room) = ranks.len().checked_mul(FRAME_LINE_ROOM) else {
        return Err(NoMemory);
    };
    make_room(&mut text, room)?;
    put_lines(&mut text, device.part(), device.memory(), &ranks);
    Ok(text)
}
