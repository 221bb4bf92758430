//! Frames as they come, of which a plan is made when all have come.
ghost use Rattle.std.specs.Prelude.{◌≡◌, [], ◌∷◌, ◌++◌, length, IsPermutation, IfOk, OnOk, OnErr};
ghost use Rattle.x7_memory.specs.Plan.{IsPlan, AreApart};

use crate::plan::Plan;
use crate::rows::Rows;
use std::alloc::Global;
use std::marker::Model;
use x7_words::NoMemory;

/// Frames of one width in the order in which they came. They are put in order once, when all have come.
#[derive(Drop)]
pub struct Draft {
    rows: Rows,
}

impl Model for Draft {
    ghost use Rattle.x7_memory.specs.Plan.{PlanData, IsDraft};

    ghost Value = { PlanData };

    ghost view = { λ draft. draft.rows };

    ghost invariant = { λ draft. IsDraft draft.rows };
}

impl Draft {
    /// A draft of no frame, for frames of `width` words.
    pub fn new(alloc: Global, width: u32) -> Draft
        ensures width { result.width ≡ width }
        ensures empty { result.rows ≡ [] }
    {
        Draft {
            rows: Rows::new(alloc, width),
        }
    }

    /// A draft of no frame, for frames of `width` words, with room for `frame_count` of them.
    pub fn with_room(alloc: Global, width: u32, frame_count: usize) -> Result<Draft, NoMemory>
        ensures width { IfOk result (λ draft. draft.width ≡ width) }
        ensures empty { IfOk result (λ draft. draft.rows ≡ []) }
    {
        Ok(Draft {
            rows: Rows::with_room(alloc, width, frame_count)?,
        })
    }

    /// Adds a frame after the others. Its address may stand in the draft already. Want of memory changes nothing.
    pub fn push(&mut self, far: u32, words: &[u32]) -> Result<(), NoMemory>
        requires width { length words.now ≡ self.old.width }
        ensures added { OnOk result (self.new.rows ≡ self.old.rows ++ record { far = far; words = words.now } ∷ []) }
        ensures width { self.new.width ≡ self.old.width }
        ensures unchanged { OnErr result (self.new ≡ self.old) }
    {
        Ok(self.rows.push(far, words)?)
    }

    /// The plan of the frames, no two of which may have one address. No memory is taken.
    pub fn finish(self) -> Plan
        requires apart { AreApart self.rows }
        ensures width { result.width ≡ self.width }
        ensures same_rows { IsPermutation self.rows result.rows }
        ensures plan { IsPlan result }
    {
        let mut rows = self.rows;
        rows.sort();
        Plan::of_rows(rows)
    }
}
