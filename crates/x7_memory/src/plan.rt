//! The frames that a user plans to write.
ghost use Rattle.std.specs.Prelude.{◌≡◌, ℕ, ◌<◌, ◌≤◌, ◌==◌, ◌↔◌, true, false, Ok, if◌then◌else◌, [], length, slice_index_or, Contains, Some, None, IfSome, IfNone, IfOk, IfErr, OnOk, OnErr};
ghost use Rattle.std.specs.List.{insert};
ghost use Rattle.x7_memory.specs.Plan.{PlanRow, PlanData, IsPlan, HasOneRowMore, planned, planned_addresses};
ghost use Rattle.x7_memory.specs.Places.{IsRowPlace, IsInsertPlace};

use crate::rows::Rows;
use std::alloc::Global;
use std::marker::Model;
use x7_words::NoMemory;

/// Frames of one width, in number order of their addresses.
#[derive(Drop)]
pub struct Plan {
    rows: Rows,
}

impl Model for Plan {
    ghost Value = { PlanData };

    ghost view = { λ plan. plan.rows };

    ghost invariant = { λ plan. IsPlan plan.rows };
}

impl Plan {
    /// A plan of no frame, for frames of `width` words.
    pub fn new(alloc: Global, width: u32) -> Plan
        ensures width { result.width ≡ width }
        ensures empty { result.rows ≡ [] }
    {
        Plan {
            rows: Rows::new(alloc, width),
        }
    }

    /// The plan of rows in order.
    pub(crate) fn of_rows(rows: Rows) -> Plan
        requires { IsPlan rows }
        ensures { result ≡ rows }
    {
        Plan { rows }
    }

    /// Plans a frame, and answers true. Where the address has one already, the answer is false, also without memory,
    /// and nothing changes. Want of memory changes nothing.
    pub fn insert(&mut self, far: u32, words: &[u32]) -> Result<bool, NoMemory>
        requires width { length words.now ≡ self.old.width }
        ensures certain { Contains (planned_addresses self.old.rows) far → result ≡ Ok false }
        ensures answer { IfOk result (λ added. (added ≡ false) ↔ Contains (planned_addresses self.old.rows) far) }
        ensures added { IfOk result (λ added. added ≡ true → HasOneRowMore self.old record { far = far; words = words.now } self.new) }
        ensures frames { IfOk result (λ added. added ≡ true → (a : ℕ) → planned self.new.rows a ≡ (if a == far then Some words.now else planned self.old.rows a)) }
        ensures refused { IfOk result (λ added. added ≡ false → self.new ≡ self.old) }
        ensures unchanged { OnErr result (self.new ≡ self.old) }
        ensures width { self.new.width ≡ self.old.width }
    {
        match self.search(far) {
            Ok(_) => Ok(false),
            Err(place) => {
                self.insert_at(place, far, words)?;
                Ok(true)
            }
        }
    }

    /// The place of the row with the address, or the place where such a row would go. Places count from 0.
    fn search(&self, far: u32) -> Result<usize, usize>
        ensures found { IfOk result (IsRowPlace self.now.rows far) }
        ensures insert_place { IfErr result (IsInsertPlace self.now.rows far) }
    {
        self.rows.search(far)
    }

    /// Adds a row at the place where its address goes.
    fn insert_at(&mut self, place: usize, far: u32, words: &[u32]) -> Result<(), NoMemory>
        requires insert_place { IsInsertPlace self.old.rows far place }
        requires width { length words.now ≡ self.old.width }
        ensures added { OnOk result (self.new.rows ≡ insert self.old.rows place record { far = far; words = words.now }) }
        ensures width { self.new.width ≡ self.old.width }
        ensures unchanged { OnErr result (self.new ≡ self.old) }
    {
        Ok(self.rows.insert(place, far, words)?)
    }

    /// The frame that is planned for an address, none where there is none.
    pub fn get(&self, far: u32) -> Option<&[u32]>
        ensures found { IfSome result (λ words. planned self.now.rows far ≡ Some words.now) }
        ensures width { IfSome result (λ words. length words.now ≡ self.now.width) }
        ensures absent { IfNone result (¬ Contains (planned_addresses self.now.rows) far) }
        ensures no_frame { IfNone result (planned self.now.rows far ≡ None) }
    {
        match self.search(far) {
            Ok(place) => Some(self.rows.words(place)),
            Err(_) => None,
        }
    }

    /// The number of planned frames.
    pub fn len(&self) -> usize
        ensures value { result ≡ length self.now.rows }
        ensures plan { IsPlan self.now }
    {
        self.rows.len()
    }

    /// The i-th planned frame with its address, in number order from 0 on, none from `len()` on.
    pub fn row(&self, i: usize) -> Option<(u32, &[u32])>
        ensures found { IfSome result (λ row. (i < length self.now.rows) × ((d : PlanRow) → slice_index_or self.now.rows i d ≡ record { far = row.0; words = row.1.now })) }
        ensures width { IfSome result (λ row. length row.1.now ≡ self.now.width) }
        ensures past_end { IfNone result (length self.now.rows ≤ i) }
    {
        self.rows.get(i)
    }
}
