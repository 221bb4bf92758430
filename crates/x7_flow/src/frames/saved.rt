//! Frames saved, so that the next access can be taken back.
ghost use Rattle.std.specs.Prelude.{◌≡◌};
ghost use Rattle.x7_pipeline.specs.Saved.{IsSavedOf};
ghost use Rattle.x7_flow.specs.Saved.{FramesBack, SavesFrames};
ghost use Rattle.x7_flow.specs.Standing.{FramesFit, FramesState};

use super::Frames;
use x7_part::Part;
use x7_pipeline::Saved;

impl Frames {
    /// Saves the frames, as far as the next access can change them.
    pub fn save(&self, part: &Part, into: &mut Saved)
        requires part { FramesFit part.now self.now }
        requires saved { IsSavedOf part.now into.old }
        ensures saves { SavesFrames part.now into.new self.now }
        ensures saved { IsSavedOf part.now into.new }
    {
        self.pipeline.save(part, &self.memory, into);
    }

    /// Makes the frames the old ones, where what was saved leads back from the present frames to them.
    pub fn restore(&mut self, part: &Part, from: &Saved)
        requires part { FramesFit part.now self.old }
        requires saved { IsSavedOf part.now from.now }
        ensures back { (old : FramesState) → FramesBack part.now from.now self.old old → self.new ≡ old }
        ensures part { FramesFit part.now self.new }
    {
        self.pipeline.restore(part, &mut self.memory, from);
    }
}
