//! A lister of runs: those of a stream, one after another.
ghost use Rattle.std.specs.Prelude.{◌≡◌, [], ◌+◌, ◌*◌, ◌<◌, OnOk, OnErr, true, if◌then◌else◌, length};
ghost use Rattle.x7_packets.specs.Cutter.{CutterState};
ghost use Rattle.x7_packets.specs.Run.{cut_of, FitsRun, bytes_of_run};
ghost use Rattle.x7_text.specs.Appends.{HasSpareRoom};
ghost use Rattle.x7_listing.specs.Pens.{held_by, is_in_session, in_line_of, lister_with};
ghost use Rattle.x7_listing.specs.ListerOfRuns.{TakesNext};

use super::Lister;
use crate::list::pen::{CALL_ROOM, Pen, TailBytes, new_pen, open_in, put_end, put_run};
use x7_packets::{Cut, Run};
use x7_words::NoMemory;

/// A run as a cutter gives it; `Need` for the tail and the end, which no cutter gives.
fn cut_of<'b>(run: Run<'b>) -> Cut<'b>
    ensures { result ≡ cut_of run.entry }
{
    match run {
        Run::Skip(bytes) => Cut::Skip(bytes),
        Run::Sync => Cut::Sync,
        Run::Head(w, step) => Cut::Head(w, step),
        Run::Word(register, w) => Cut::Word(register, w),
        Run::Body(register, bytes) => Cut::Body(register, bytes),
        Run::Tail(_) | Run::End => Cut::Need,
    }
}

/// How many bytes of its stream a run gives.
fn byte_count(run: Run) -> usize
    ensures { result ≡ length (bytes_of_run run.entry) }
{
    match run {
        Run::Skip(bytes) => bytes.len(),
        Run::Head(_, _) | Run::Word(_, _) => 4,
        Run::Body(_, bytes) => bytes.len(),
        Run::Tail(bytes) => bytes.len(),
        Run::Sync | Run::End => 0,
    }
}

/// A pen that holds the tail of a stream.
fn with_tail(pen: Pen, tail: &[u8]) -> Pen
    requires { length tail.now < 4 }
    ensures in_session { is_in_session result ≡ true }
    ensures in_line { is_in_session pen ≡ true → in_line_of result ≡ in_line_of pen }
    ensures held { held_by result ≡ tail.now }
{
    let mut bytes = [0; 3];
    bytes[..tail.len()].copy_from_slice(tail);
    Pen::Tail(
        open_in(pen),
        TailBytes {
            bytes,
            count: tail.len(),
        },
    )
}

/// The bytes of no whole word that a pen holds.
fn tail_of(pen: &Pen) -> &[u8]
    ensures { result.now ≡ (if is_in_session pen.now then held_by pen.now else []) }
{
    match pen {
        Pen::Tail(_, tail) => &tail.bytes[..tail.count],
        _ => &[],
    }
}

/// Appends what the next run of a stream adds to the listing, and gives the pen after it.
fn put_next(text: &mut Vec<u8>, pen: Pen, run: Run) -> Pen
    requires run { FitsRun run }
    requires room { HasSpareRoom text.old (CALL_ROOM + 3 * length (bytes_of_run run)) }
    ensures takes { (cutter : CutterState) → TakesNext run.entry (lister_with cutter pen text.old.items) (lister_with cutter result text.new.items) }
{
    match run {
        Run::Tail(tail) => with_tail(pen, tail),
        Run::End => {
            put_end(text, pen, tail_of(&pen));
            Pen::Gap(new_pen())
        }
        run => put_run(text, pen, cut_of(run)),
    }
}

impl Lister {
    /// Takes the next run of a stream. The end ends the listing, and begins a new one. `NoMemory` changes nothing.
    pub fn take(&mut self, run: &Run<'_>) -> Result<(), NoMemory>
        requires { FitsRun run.now }
        ensures takes { OnOk result (TakesNext run.now self.old self.new) }
        ensures unchanged { OnErr result (self.new ≡ self.old) }
    {
        // A product or a sum that is cut off is more than memory ever has: `reserve` refuses it.
        let room = byte_count(*run).saturating_mul(3);
        self.text.reserve(room.saturating_add(CALL_ROOM))?;
        self.pen = put_next(&mut self.text, self.pen, *run);
        Ok(())
    }
}
