//! Laws of frame texts. The functions do nothing: their contracts are the laws.
ghost use Rattle.std.specs.Prelude.{◌≡◌, ◌∷◌, ℕ, List, Ok, Err};
ghost use Rattle.x7_text.specs.Lines.{split};
ghost use Rattle.x7_text.specs.LineReader.{ReaderState};
ghost use Rattle.x7_part.specs.Part.{PartData};
ghost use Rattle.x7_memory.specs.Plan.{IsPlanFor, PlanData};
ghost use Rattle.x7_frames.specs.FrameLines.{RowsRead, WantsForEnd, WantsForPiece};
ghost use Rattle.x7_frames.specs.FramesText.{HasPlanOrFault, IsGoodText, IsPlanOf, plan_text};
ghost use Rattle.x7_frames.specs.LineTaken.{IsGoodLine};
ghost use Rattle.x7_frames.specs.declared.fault.FramesFault.{FramesFault};

/// A text comes to one thing at most: it has at most one plan and at most one fault, and not both.
pub fn one_plan()
    ensures one_plan { (part : PartData) (text : List ℕ) (p q : PlanData) → IsPlanOf part text (Ok p) → IsPlanOf part text (Ok q) → p ≡ q }
    ensures not_both { (part : PartData) (text : List ℕ) (p : PlanData) (fault : FramesFault) → IsPlanOf part text (Ok p) → IsPlanOf part text (Err fault) → ⊥ }
    ensures one_fault { (part : PartData) (text : List ℕ) (f g : FramesFault) → IsPlanOf part text (Err f) → IsPlanOf part text (Err g) → f ≡ g }
{}

/// Each text comes to its plan, or to its first line at fault.
pub fn every_text_is_read()
    ensures { (part : PartData) (text : List ℕ) → HasPlanOrFault part text }
{}

/// A reader took the lines of a text for a part, and memory may be wanting. If it may be while a piece is taken whose
/// first line ends in the piece, that line is good after the lines taken; if it may be at the last line of the text,
/// the one without an end, the text has a plan.
pub fn memory_wants_for_good_lines()
    ensures piece { (part : PartData) (r : ReaderState RowsRead) (text piece line after : List ℕ) → WantsForPiece part r text piece
        → split piece ≡ line ∷ split after → IsGoodLine part r.taker.rows line }
    ensures end { (part : PartData) (r : ReaderState RowsRead) (text : List ℕ) → WantsForEnd part r text → IsGoodText part text }
{}

/// The text of a plan for a part, read for the part, has that plan.
pub fn plan_text_leads_back()
    ensures { (part : PartData) (plan : PlanData) → IsPlanFor part plan → IsPlanOf part (plan_text plan) (Ok plan) }
{}
