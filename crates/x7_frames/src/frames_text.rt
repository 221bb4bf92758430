//! The plan of a frames text, and one line more of it.
ghost use Rattle.std.specs.Prelude.{◌≡◌, ◌≤◌, ◌⊎◌, [], Ok, Err, IfOk, IfErr, OnErr, OnOk, MatchResult, vec_capacity};
ghost use Rattle.x7_part.specs.Part.{frame_words};
ghost use Rattle.x7_memory.specs.Plan.{IsPlanFor, PlanData};
ghost use Rattle.x7_frames.specs.FramesText.{IsPlanOf, plan_text};
ghost use Rattle.x7_frames.specs.LineTaken.{IsFaultAt, IsGoodLine, TakesLine, HasMarks};
ghost use Rattle.x7_frames.specs.declared.fault.FramesFault.{FramesFault};

use crate::fault::FramesFault;
use crate::frame_lines::FrameLines;
use crate::line::read_frame;
use std::alloc::Global;
use x7_memory::{Draft, Plan};
use x7_part::Part;
use x7_text::{means_nothing, read_lines};
use x7_words::NoMemory;

/// The frames of the lines so far, in the order of the lines, and a mark for each frame of the part.
#[derive(Drop)]
pub(crate) struct MarkedDraft {
    pub(crate) draft: Draft,
    /// Of each frame of the part, by its rank, whether a line so far has its address.
    pub(crate) marks: Vec<bool>,
    /// Room for the words of a line's frame.
    pub(crate) frame: Vec<u32>,
}

impl MarkedDraft {
    /// The frames of no line, and no address is marked. There is room for all frames of the part.
    pub(crate) fn new(alloc: Global, part: &Part) -> Result<MarkedDraft, NoMemory>
        ensures empty { IfOk result (λ marked. marked.draft.rows ≡ []) }
        ensures width { IfOk result (λ marked. marked.draft.width ≡ frame_words part.now) }
        ensures marks { IfOk result (λ marked. HasMarks part.now [] marked.marks.items) }
        ensures room { IfOk result (λ marked. frame_words part.now ≤ vec_capacity marked.frame) }
    {
        let frame_count = part.frames() as usize;
        Ok(MarkedDraft {
            draft: Draft::with_room(alloc, part.words(), frame_count)?,
            marks: vec![in alloc; false; frame_count]?,
            frame: Vec::with_capacity(alloc, part.words() as usize)?,
        })
    }

    /// Takes the line of number `n`, from 1: a frame's line adds the frame and marks its address, an empty line or a
    /// comment adds nothing. A line at fault, or want of memory, leaves the frames and marks of the lines before as
    /// they were.
    pub(crate) fn take(&mut self, part: &Part, n: u64, line: &[u8]) -> Result<(), FramesFault>
        requires width { self.old.draft.width ≡ frame_words part.now }
        requires marks { HasMarks part.now self.old.draft.rows self.old.marks.items }
        requires room { frame_words part.now ≤ vec_capacity self.old.frame }
        ensures taken { OnOk result (TakesLine part.now line.now self.old.draft.rows self.new.draft.rows) }
        ensures unchanged { OnErr result (self.new.draft.rows ≡ self.old.draft.rows) }
        ensures marks { HasMarks part.now self.new.draft.rows self.new.marks.items }
        ensures width { self.new.draft.width ≡ frame_words part.now }
        ensures room { frame_words part.now ≤ vec_capacity self.new.frame }
        ensures fault { IfErr result (λ fault. (fault ≡ FramesFault.NoMemory) ⊎ IsFaultAt part.now self.old.draft.rows n line.now fault) }
        ensures memory { IfErr result (λ fault. fault ≡ FramesFault.NoMemory → IsGoodLine part.now self.old.draft.rows line.now) }
    {
        if means_nothing(line) {
            return Ok(());
        }
        let Some(far) = read_frame(&mut self.frame, part.words(), line) else {
            return Err(FramesFault::Line(n));
        };
        let Some(rank) = part.rank(far) else {
            return Err(FramesFault::Address(n));
        };
        if self.marks[rank as usize] {
            return Err(FramesFault::Twice(n));
        }
        self.draft.push(far, &self.frame)?;
        self.marks[rank as usize] = true;
        Ok(())
    }
}

/// The plan of a frames text for a part, or its first line at fault, or want of memory.
///
/// A line is empty, a comment that `#` begins, or `frame FAR DIGITS`: the address in eight upper-case digits, and the
/// words of the frame in eight digits of either case each (this project's choice). The last line may lack its end.
pub fn plan_of(alloc: Global, text: &[u8], part: &Part) -> Result<Plan, FramesFault>
    ensures plan { IfOk result (λ plan. IsPlanOf part.now text.now (Ok plan)) }
    ensures fault { IfErr result (λ fault. (fault ≡ FramesFault.NoMemory) ⊎ IsPlanOf part.now text.now (Err fault)) }
    ensures back { (plan : PlanData) → IsPlanFor part.now plan → text.now ≡ plan_text plan
        → MatchResult result (λ read. read ≡ plan) (λ fault. fault ≡ FramesFault.NoMemory) }
{
    read_text(alloc, text, part)
}

/// The plan of a frames text that is there whole, or its first line at fault, or want of memory.
fn read_text(alloc: Global, text: &[u8], part: &Part) -> Result<Plan, FramesFault>
    ensures { MatchResult result (λ plan. IsPlanOf part.now text.now (Ok plan)) (λ fault. (fault ≡ FramesFault.NoMemory) ⊎ IsPlanOf part.now text.now (Err fault)) }
{
    read_lines(FrameLines::new(alloc, part)?, text)
}
