//! The plan that the lines of a frames text give, one by one.
ghost use Rattle.std.specs.Prelude.{◌≡◌, ◌⊎◌, ℕ, List, [], Ok, IfErr, IfOk, OnOk, IsPermutation};
ghost use Rattle.x7_part.specs.Part.{frame_words};
ghost use Rattle.x7_memory.specs.Plan.{IsPlan};
ghost use Rattle.x7_frames.specs.FrameLines.{StayGoodWith, HasFramesFault, ComeTo, HasRows, RowsRead};
ghost use Rattle.x7_frames.specs.LineTaken.{IsFaultAt, IsGoodLine, TakesLine};
ghost use Rattle.x7_frames.specs.declared.fault.FramesFault.{FramesFault};

use crate::fault::FramesFault;
use crate::frames_text::MarkedDraft;
use std::alloc::Global;
use std::marker::Model;
use x7_memory::Plan;
use x7_part::Part;
use x7_text::TakesLines;
use x7_words::NoMemory;

/// The frames that the lines of a text for a part gave so far.
#[derive(Drop)]
pub struct FrameLines<'p> {
    part: &'p Part,
    marked: MarkedDraft,
}

impl<'p> Model for FrameLines<'p> {
    ghost use Rattle.std.specs.Prelude.{vec_capacity};
    ghost use Rattle.x7_frames.specs.FrameLines.{AreSoundRows, RowsRead};

    ghost Value = { RowsRead };

    ghost view = { λ l. record { part = l.part.now; rows = l.marked.draft.rows } };

    ghost invariant = { λ l. AreSoundRows l.part.now l.marked.draft.rows l.marked.draft.width l.marked.marks.items (vec_capacity l.marked.frame) };
}

impl<'p> FrameLines<'p> {
    /// The frames of no line. There is room for all frames of the part.
    pub fn new(alloc: Global, part: &'p Part) -> Result<FrameLines<'p>, NoMemory>
        ensures begun { IfOk result (λ lines. HasRows lines.part lines []) }
        ensures part { IfOk result (λ lines. lines.part ≡ part.now) }
    {
        let marked = MarkedDraft::new(alloc, part)?;
        Ok(FrameLines { part, marked })
    }

    /// Takes a line, without its end, whose number `n` counts from 1. An error is the line's fault (`IsFaultAt`), or
    /// want of memory, which only a good line meets. After an error the lines are of no more use.
    pub fn take(&mut self, n: u64, line: &[u8]) -> Result<(), FramesFault>
        ensures part { self.new.part ≡ self.old.part }
        ensures taken { OnOk result (TakesLine self.old.part line.now self.old.rows self.new.rows) }
        ensures fault { IfErr result (λ fault. (fault ≡ FramesFault.NoMemory) ⊎ IsFaultAt self.old.part self.old.rows n line.now fault) }
        ensures memory { IfErr result (λ fault. fault ≡ FramesFault.NoMemory → IsGoodLine self.old.part self.old.rows line.now) }
    {
        self.marked.take(self.part, n, line)
    }

    /// The plan of the lines.
    fn finish(self) -> Plan
        ensures same_rows { IsPermutation self.entry.rows result.rows }
        ensures plan { IsPlan result }
        ensures width { result.width ≡ frame_words self.entry.part }
    {
        let FrameLines { part, marked } = self;
        marked.draft.finish()
    }
}

impl<'p> TakesLines for FrameLines<'p> {
    type Fault = FramesFault;

    type Out = Plan;

    ghost took = { λ first. HasRows first.part };

    ghost fails = { λ first. HasFramesFault first.part };

    ghost gives = { λ first plan. ComeTo first.part (Ok plan) };

    ghost is_want = { λ fault. fault ≡ FramesFault.NoMemory };

    ghost wants = { λ first. StayGoodWith first.part };

    fn no_memory() -> FramesFault
        ensures { (first : RowsRead) (lines : List (List ℕ)) → HasFramesFault first.part result lines }
    {
        FramesFault::NoMemory
    }

    fn take_line(&mut self, line_number: u64, line: &[u8]) -> Result<(), FramesFault> {
        self.take(line_number, line)
    }

    fn take_last(self, line_number: u64, line: &[u8]) -> Result<Plan, FramesFault> {
        let mut last = self;
        last.take(line_number, line)?;
        Ok(last.finish())
    }
}
