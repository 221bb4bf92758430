//! Laws of addresses, of slots and of part files. The functions do nothing: their contracts are the laws.
ghost use Rattle.std.specs.Prelude.{◌≡◌, ◌+◌, ◌*◌, ◌↔◌, ℕ, List, ◌∷◌, ◌++◌, Some, Ok, length, slice_index, Contains, IsPermutation};
ghost use Rattle.std.specs.List.Sorted.{IsNonDecreasingBy};
ghost use Rattle.toml.specs.Data.{Members};
ghost use Rattle.toml.specs.Parse.{parse_document};
ghost use Rattle.x7_part.specs.Address.{row_address};
ghost use Rattle.x7_part.specs.Part.{FieldWidths, PartData, RowData};
ghost use Rattle.x7_part.specs.PartFile.{part_in};
ghost use Rattle.x7_part.specs.Ranges.{IsPart};
ghost use Rattle.x7_part.specs.Row.{sorted_rows, RowsRise};
ghost use Rattle.x7_part.specs.Values.{rows_in_file};
ghost use Rattle.x7_part.specs.AddressOrder.{addresses_in, IsFollowedBy};
ghost use Rattle.x7_part.specs.Slot.{pads_after_row, slots_of_rows, slots_in, slots_from, row_slots, slot_after, addresses_among, AreInOneRow};
ghost use Rattle.x7_part.specs.declared.slot.Slot.{Slot};
ghost use Rattle.x7_part.specs.declared.slot.Slot.TheVariants.{Frame};

/// The slots of a part in words: the slots from an address are their end that begins with it, and from the first
/// address all of them. Between the slots of the rows before it and after it a row has its own, which end in two pads,
/// so there are two slots more for each row than addresses. The slots of frames are the addresses in order, and a frame
/// stands right after another exactly where it has the next address and both are of one row.
pub fn slots_follow_the_addresses()
    ensures split { (part : PartData) (far : ℕ) → Contains (addresses_in part) far → (before : List Slot) × (slots_in part ≡ before ++ slots_from part far) }
    ensures first { (part : PartData) (far : ℕ) → Contains (addresses_in part) far → slot_after part far 0 ≡ Frame far }
    ensures length { (part : PartData) → length (slots_in part) ≡ length (addresses_in part) + pads_after_row * length part.rows }
    ensures all_from_first { (part : PartData) → IsPart part → slots_from part (slice_index (addresses_in part) 0) ≡ slots_in part }
    ensures rows { (part : PartData) (before after : List RowData) (r : RowData) → part.rows ≡ before ++ r ∷ after →
        slots_in part ≡ slots_of_rows part before ++ row_slots part.field_widths r (slots_of_rows part after) }
    ensures frames { (part : PartData) → addresses_among (slots_in part) ≡ addresses_in part }
    ensures next { (part : PartData) (far next : ℕ) → IsPart part → Contains (addresses_in part) far →
        (slot_after part far 1 ≡ Frame next) ↔ (IsFollowedBy (addresses_in part) far next × AreInOneRow part far next) }
{}

/// What a part file gives is a part, and its rows are the rows of the file, put in order. The rows of a part rise by
/// block type, half and row, no two the same. Rows that are sorted are the same rows in the order of their addresses.
pub fn rows_are_in_order()
    ensures same_rows_as_file { (text : List ℕ) (table : Members) (part : PartData) → parse_document text ≡ Some table → part_in text ≡ Ok part →
        IsPermutation (rows_in_file table) part.rows }
    ensures part { (text : List ℕ) (part : PartData) → part_in text ≡ Ok part → IsPart part }
    ensures rise { (part : PartData) → IsPart part → RowsRise part.rows }
    ensures same_rows { (widths : FieldWidths) (rows : List RowData) → IsPermutation rows (sorted_rows widths rows) }
    ensures sorted { (widths : FieldWidths) (rows : List RowData) → IsNonDecreasingBy (row_address widths) (sorted_rows widths rows) }
{}
