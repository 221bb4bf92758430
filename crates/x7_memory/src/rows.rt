//! Rows of one width: the words of all frames in one vector, and where each row's stand in it.
ghost use Rattle.std.specs.Prelude.{◌≡◌, [], ◌∷◌, ◌++◌, ◌<◌, ◌≤◌, length, slice_index_or, IsPermutation, IfOk, IfErr, IfSome, IfNone, OnOk, OnErr};
ghost use Rattle.std.specs.List.{insert};
ghost use Rattle.std.specs.List.Sorted.{IsNonDecreasingBy};
ghost use Rattle.x7_memory.specs.Plan.{PlanRow, AreInOrder};
ghost use Rattle.x7_memory.specs.Places.{IsRowPlace, IsInsertPlace};

use std::alloc::Global;
use std::marker::Model;
use x7_words::NoMemory;

/// The address of a frame, and how many words stand before its own in the vector.
#[derive(Clone, Copy)]
struct StoredRow {
    far: u32,
    start: usize,
}

/// Frames of one width and their addresses, in some order.
pub(crate) struct Rows {
    /// The number of words of a frame.
    width: u32,
    /// The words of all frames, in the order in which they came, also of one for whose row there was no memory.
    words: Vec<u32>,
    rows: Vec<StoredRow>,
}

impl Drop for Rows {
    fn drop(self) {
        let Rows {
            width: _,
            words: _,
            rows: _,
        } = self;
    }
}

impl Model for Rows {
    ghost use Rattle.x7_memory.specs.Plan.{PlanData};
    ghost use Rattle.x7_memory.specs.Rows.{rows_seen, AreKept};

    ghost Value = { PlanData };

    ghost view = { rows_seen };

    ghost invariant = { λ kept. AreKept kept.width kept.words.items kept.rows.items };
}

impl Rows {
    /// Rows of frames of `width` words, none so far.
    pub(crate) fn new(alloc: Global, width: u32) -> Rows
        ensures width { result.width ≡ width }
        ensures empty { result.rows ≡ [] }
    {
        Rows {
            width,
            words: Vec::new(alloc),
            rows: Vec::new(alloc),
        }
    }

    /// Rows of frames of `width` words, none so far, with room for `count` of them.
    pub(crate) fn with_room(alloc: Global, width: u32, count: usize) -> Result<Rows, NoMemory>
        ensures width { IfOk result (λ rows. rows.width ≡ width) }
        ensures empty { IfOk result (λ rows. rows.rows ≡ []) }
    {
        let words = Vec::with_capacity(alloc, count.saturating_mul(width as usize))?;
        Ok(Rows {
            width,
            words,
            rows: Vec::with_capacity(alloc, count)?,
        })
    }

    /// Adds a row after the others. Want of memory changes no row.
    pub(crate) fn push(&mut self, far: u32, words: &[u32]) -> Result<(), NoMemory>
        requires width { length words.now ≡ self.old.width }
        ensures added { OnOk result (self.new.rows ≡ self.old.rows ++ record { far = far; words = words.now } ∷ []) }
        ensures width { self.new.width ≡ self.old.width }
        ensures unchanged { OnErr result (self.new ≡ self.old) }
    {
        self.insert(self.len(), far, words)
    }

    /// Adds a row at a place, from 0, and moves the rows from that place on after it. Want of memory changes no row.
    pub(crate) fn insert(&mut self, place: usize, far: u32, words: &[u32]) -> Result<(), NoMemory>
        requires place { place ≤ length self.old.rows }
        requires width { length words.now ≡ self.old.width }
        ensures added { OnOk result (self.new.rows ≡ insert self.old.rows place record { far = far; words = words.now }) }
        ensures width { self.new.width ≡ self.old.width }
        ensures unchanged { OnErr result (self.new ≡ self.old) }
    {
        let start = self.words.len();
        self.words.extend_from_slice(words)?;
        Ok(self.rows.insert(place, StoredRow { far, start })?)
    }

    /// The place, from 0, of the row with the address among rows in order, or the place where such a row would go.
    pub(crate) fn search(&self, far: u32) -> Result<usize, usize>
        requires { AreInOrder self.now.rows }
        ensures found { IfOk result (IsRowPlace self.now.rows far) }
        ensures insert_place { IfErr result (IsInsertPlace self.now.rows far) }
    {
        self.rows.binary_search_by_key(&far, |row| row.far)
    }

    /// Puts the rows in number order of their addresses.
    pub(crate) fn sort(&mut self)
        ensures sorted { IsNonDecreasingBy (λ row. row.far) self.new.rows }
        ensures same_rows { IsPermutation self.old.rows self.new.rows }
        ensures width { self.new.width ≡ self.old.width }
    {
        self.rows.sort_unstable_by_key(|row| row.far);
    }

    /// The number of rows.
    pub(crate) fn len(&self) -> usize
        ensures { result ≡ length self.now.rows }
    {
        self.rows.len()
    }

    /// The address and the words of the i-th row, from 0 on, none from `len()` on.
    pub(crate) fn get(&self, i: usize) -> Option<(u32, &[u32])>
        ensures found { IfSome result (λ row. (i < length self.now.rows) × ((d : PlanRow) → slice_index_or self.now.rows i d ≡ record { far = row.0; words = row.1.now })) }
        ensures width { IfSome result (λ row. length row.1.now ≡ self.now.width) }
        ensures past_end { IfNone result (length self.now.rows ≤ i) }
    {
        let far = self.rows.get(i)?.far;
        Some((far, self.words(i)))
    }

    /// The words of the i-th row, from 0 on.
    pub(crate) fn words(&self, i: usize) -> &[u32]
        requires { i < length self.now.rows }
        ensures value { (d : PlanRow) → result.now ≡ (slice_index_or self.now.rows i d).words }
        ensures width { length result.now ≡ self.now.width }
    {
        let start = self.rows[i].start;
        &self.words[start..start + self.width as usize]
    }
}
