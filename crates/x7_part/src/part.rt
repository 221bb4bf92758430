//! A part, and the questions that are asked of its addresses and slots.
ghost use Rattle.std.specs.Prelude.{◌≡◌, ◌+◌, ◌*◌, ◌<◌, ◌≤◌, ◌⊎◌, ◌↔◌, ◌%◌, ◌^◌, ℕ, true, None, [], All, length, slice_index_or, count_by, nat_lt, string_bytes, Contains, IfSome, IfNone, IfOk};
ghost use Rattle.x7_part.specs.AddressOrder.{addresses_in, HasRank, IsFollowedBy, IsLastIn, Rises};
ghost use Rattle.x7_part.specs.Column.{AreColumnsOf, table_of as columns_of};
ghost use Rattle.x7_part.specs.Address.{IsAddressOf, IsRow, far_width};
ghost use Rattle.x7_part.specs.Limits.{IsStartUnit, greatest_bus_width, greatest_mode, least_address_width, least_frame_words, most_address_width, most_frame_words, most_frames, most_words};
ghost use Rattle.x7_part.specs.Part.{PartData, frame_words};
ghost use Rattle.x7_part.specs.Values.{part_data};
ghost use Rattle.x7_part.specs.Row.{same_row_fault, sorted_rows};
ghost use Rattle.x7_part.specs.Ranges.{IsPart};
ghost use Rattle.x7_part.specs.Slot.{HasFrameOf, pads_after_row, slots_in, slots_from, slot_after};
ghost use Rattle.x7_part.specs.declared.slot.Slot.{Slot};

use crate::column::{self, Column};
use crate::row::{self, Row};
use crate::settings::PartSettings;
use crate::slot::Slot;
use crate::table::table_of;
use std::alloc::{AllocError, Global};
use std::marker::Model;
use x7_words::NoMemory;

/// A part: what its file says, with its rows in number order, and the table of its columns.
pub struct Part {
    name: String,
    settings: PartSettings,
    rows: Vec<Row>,
    columns: Vec<Column>,
}

impl Drop for Part {
    fn drop(self) {
        let Part {
            name: _,
            settings: _,
            rows: _,
            columns: _,
        } = self;
    }
}

impl Model for Part {
    ghost Value = { PartData };

    ghost view = { λ p. part_data (string_bytes p.name) p.settings p.rows.items };

    ghost invariant = { λ p. (p.columns.items ≡ columns_of p.settings.field_widths 0 0 p.rows.items) × IsPart (part_data (string_bytes p.name) p.settings p.rows.items) };
}

impl Part {
    /// The part of this name with these settings and rows. No two rows are to be the same, and in number order they are
    /// to make a part, within its limits.
    pub(crate) fn of(
        alloc: Global,
        name: String,
        settings: PartSettings,
        rows: Vec<Row>,
    ) -> Result<Part, AllocError>
        requires rows { All IsRow rows.items }
        requires apart { same_row_fault [] rows.items ≡ None }
        requires part { IsPart (part_data (string_bytes name) settings (sorted_rows settings.field_widths rows.items)) }
        ensures { IfOk result (λ part. part ≡ part_data (string_bytes name) settings (sorted_rows settings.field_widths rows.items)) }
    {
        let mut rows = rows;
        row::sort_rows(&mut rows, settings.field_widths);
        let columns = table_of(alloc, settings.field_widths, &rows)?;
        Ok(Part {
            name,
            settings,
            rows,
            columns,
        })
    }

    /// An equal part.
    pub fn copy(&self, alloc: Global) -> Result<Part, NoMemory>
        ensures { IfOk result (λ part. part ≡ self.now) }
    {
        Ok(Part {
            name: String::from_str(alloc, self.name.as_str())?,
            settings: self.settings,
            rows: self.rows.as_slice().to_vec(alloc)?,
            columns: self.columns.as_slice().to_vec(alloc)?,
        })
    }

    /// The part's name.
    pub fn name(&self) -> &str
        ensures { result.now ≡ self.now.name }
    {
        self.name.as_str()
    }

    /// The identification code that a stream must write.
    pub fn idcode(&self) -> u32
        ensures value { result ≡ self.now.idcode }
        ensures odd { result % 2 ≡ 1 }
    {
        self.settings.idcode
    }

    /// The mode pins, as STAT shows them (UG470, status register).
    pub fn mode(&self) -> u8
        ensures value { result ≡ self.now.mode }
        ensures most { result ≤ greatest_mode }
    {
        self.settings.mode
    }

    /// The code of the bus width, as STAT shows it (UG470, status register).
    pub fn bus_width(&self) -> u8
        ensures value { result ≡ self.now.bus_width }
        ensures most { result ≤ greatest_bus_width }
    {
        self.settings.bus_width
    }

    /// The ticks, of four bytes each, that startup waits for the clocks to lock.
    pub fn lock(&self) -> u16
        ensures { result ≡ self.now.lock }
    {
        self.settings.lock
    }

    /// The ticks, of four bytes each, that startup waits for the impedance to match.
    pub fn matched(&self) -> u16
        ensures { result ≡ self.now.matched }
    {
        self.settings.matched
    }

    /// How many words a frame has (UG470, frame data).
    pub fn words(&self) -> u32
        ensures value { result ≡ frame_words self.now }
        ensures least { least_frame_words ≤ result }
        ensures most { result ≤ most_frame_words }
    {
        u32::from(self.settings.frame_words)
    }

    /// The width of an address in bits (UG470, frame address register).
    pub fn far_width(&self) -> u32
        ensures value { result ≡ far_width self.now }
        ensures least { least_address_width ≤ result }
        ensures most { result ≤ most_address_width }
    {
        self.settings.field_widths.width()
    }

    /// The bytes of the flash that one step of the start address in WBSTAR stands for.
    pub fn start_unit(&self) -> u32
        ensures value { result ≡ self.now.start_unit }
        ensures start_unit { IsStartUnit result }
    {
        u32::from(self.settings.start_unit)
    }

    /// The table of the part's columns.
    fn table(&self) -> &[Column]
        ensures { AreColumnsOf self.now result.now }
    {
        &self.columns
    }

    /// How many frames the part has: as many as addresses. The call also tells that the part is within its limits
    /// (`part`), that its slots have at most `most_words` words (`words`), and that its addresses rise (`order`).
    pub fn frames(&self) -> u32
        ensures value { result ≡ length (addresses_in self.now) }
        ensures positive { 0 < result }
        ensures most { result ≤ most_frames }
        ensures part { IsPart self.now }
        ensures words { frame_words self.now * (result + pads_after_row * length self.now.rows) ≤ most_words }
        ensures order { Rises 0 (addresses_in self.now) }
    {
        column::frame_count(self.table())
    }

    /// Whether the part has a frame at the address.
    pub fn is_address(&self, far: u32) -> bool
        ensures listed { (result ≡ true) ↔ Contains (addresses_in self.now) far }
        ensures fields { (result ≡ true) ↔ IsAddressOf self.now far }
    {
        column::column_index(self.table(), far).is_some()
    }

    /// The next address in number order, none for the last one and for what is no address.
    pub fn next(&self, far: u32) -> Option<u32>
        ensures found { IfSome result (λ y. IsFollowedBy (addresses_in self.now) far y) }
        ensures last_or_absent { IfNone result (IsLastIn (addresses_in self.now) far ⊎ (¬ Contains (addresses_in self.now) far)) }
    {
        column::next_of(self.table(), far)
    }

    /// The number of smaller addresses of the part, none for what is no address.
    pub fn rank(&self, far: u32) -> Option<u32>
        ensures found { IfSome result (λ rank. HasRank (addresses_in self.now) far rank) }
        ensures smaller { IfSome result (λ r. r ≡ count_by (λ y. nat_lt y far) (addresses_in self.now)) }
        ensures absent { IfNone result (¬ Contains (addresses_in self.now) far) }
    {
        column::rank_of(self.table(), far)
    }

    /// The address with `rank` smaller ones, none from `frames()` on. This is the inverse of `rank()`.
    pub fn address(&self, rank: u32) -> Option<u32>
        ensures found { IfSome result (λ far. HasRank (addresses_in self.now) far rank) }
        ensures smaller { IfSome result (λ far. rank ≡ count_by (λ y. nat_lt y far) (addresses_in self.now)) }
        ensures past_end { IfNone result (length (addresses_in self.now) ≤ rank) }
    {
        column::address_of(self.table(), rank)
    }

    /// Slot n, from 0, of the slots from an address on, `End` where there are no more than n.
    pub fn slot_after(&self, far: u32, n: u64) -> Slot
        requires address { Contains (addresses_in self.now) far }
        ensures { result ≡ slot_after self.now far n }
    {
        column::slot_after(self.table(), far, n)
    }

    /// The number, from 0, of the slot of an address: how many slots of the part are before it. A part has fewer than
    /// 2^63 slots, so the number and as many more fit 64 bits.
    pub fn place_of(&self, far: u32) -> u64
        requires address { Contains (addresses_in self.now) far }
        ensures within { result < length (slots_in self.now) }
        ensures slots { (n : ℕ) → slice_index_or (slots_in self.now) (result + n) Slot.End ≡ slot_after self.now far n }
        ensures few_slots { length (slots_in self.now) < 2 ^ 63 }
    {
        column::place_of(self.table(), far)
    }

    /// The rank of the frame at the slot of this number, from 0, none at a pad and past the last slot. `hint` keeps
    /// where to look first, 0 at the start; whatever it is, the answer is the same.
    pub fn rank_at(&self, slot_number: u64, hint: &mut usize) -> Option<u32>
        ensures found { IfSome result (λ r. HasFrameOf (addresses_in self.now) (slots_in self.now) slot_number r) }
        ensures no_frame { IfNone result ((far : ℕ) → slice_index_or (slots_in self.now) slot_number Slot.End ≡ Slot.Frame far → ⊥) }
    {
        column::rank_at(self.table(), slot_number, hint)
    }

    /// The number of slots from an address on, pads included.
    pub fn slots_from(&self, far: u32) -> u64
        requires address { Contains (addresses_in self.now) far }
        ensures { result ≡ length (slots_from self.now far) }
    {
        column::slots_from(self.table(), far)
    }
}
