//! The table of a part's columns, in which addresses and slots are found by binary search.
ghost use Rattle.std.specs.Prelude.{◌≡◌, ◌<◌, ◌≤◌, ◌+◌, ◌-◌, ◌⊎◌, ℕ, length, slice_index_or, Contains, IfSome, IfNone};
ghost use Rattle.x7_part.specs.AddressOrder.{HasRank, IsFollowedBy, IsLastIn};
ghost use Rattle.x7_part.specs.Column.{HasFrameAt, IsInColumn, column_addresses, column_slots, AreColumns};
ghost use Rattle.x7_part.specs.Slot.{HasFrameOf, from_address};
ghost use Rattle.x7_part.specs.declared.column.Column.{Column};
ghost use Rattle.x7_part.specs.declared.slot.Slot.{Slot};

use crate::slot::Slot;

/// A column of a row: its addresses are `count` numbers from `first` on, and `pad_count` pads follow its frames.
#[derive(Clone, Copy, Drop)]
pub(crate) struct Column {
    pub(crate) first: u32,
    pub(crate) count: u32,
    pub(crate) pad_count: u32,
    /// The number of the part's addresses before the column.
    pub(crate) rank: u32,
    /// The number of the part's slots before the column.
    pub(crate) place: u64,
}

/// The number of columns that begin at or before an address.
fn begun_by_address(columns: &[Column], far: u32) -> usize
    requires { AreColumns columns.now }
    ensures within { result ≤ length columns.now }
    ensures before { (k : ℕ) (d : Column) → k < result → (slice_index_or columns.now k d).first ≤ far }
    ensures after { (k : ℕ) (d : Column) → result ≤ k → k < length columns.now → far < (slice_index_or columns.now k d).first }
{
    columns.partition_point(|column| column.first <= far)
}

/// The number of columns with at most `rank` addresses before them.
fn begun_by_rank(columns: &[Column], rank: u32) -> usize
    requires { AreColumns columns.now }
    ensures within { result ≤ length columns.now }
    ensures before { (k : ℕ) (d : Column) → k < result → (slice_index_or columns.now k d).rank ≤ rank }
    ensures after { (k : ℕ) (d : Column) → result ≤ k → k < length columns.now → rank < (slice_index_or columns.now k d).rank }
{
    columns.partition_point(|column| column.rank <= rank)
}

/// The number of columns with at most `slot_number` slots before them.
fn begun_by_slot(columns: &[Column], slot_number: u64) -> usize
    requires { AreColumns columns.now }
    ensures within { result ≤ length columns.now }
    ensures before { (k : ℕ) (d : Column) → k < result → (slice_index_or columns.now k d).place ≤ slot_number }
    ensures after { (k : ℕ) (d : Column) → result ≤ k → k < length columns.now → slot_number < (slice_index_or columns.now k d).place }
{
    columns.partition_point(|column| column.place <= slot_number)
}

/// The index in the table of the column that has the address, none where no column has it.
pub(crate) fn column_index(columns: &[Column], far: u32) -> Option<usize>
    requires { AreColumns columns.now }
    ensures found { IfSome result (λ i. (i < length columns.now) × ((d : Column) → IsInColumn (slice_index_or columns.now i d) far)) }
    ensures address { IfSome result (λ i. Contains (column_addresses columns.now) far) }
    ensures absent { IfNone result (¬ Contains (column_addresses columns.now) far) }
{
    let after = begun_by_address(columns, far);
    if after == 0 {
        return None;
    }
    let column = columns[after - 1];
    if far - column.first < column.count {
        Some(after - 1)
    } else {
        None
    }
}

/// The number of the part's addresses below `far`, none where `far` is no address of the part.
pub(crate) fn rank_of(columns: &[Column], far: u32) -> Option<u32>
    requires { AreColumns columns.now }
    ensures found { IfSome result (λ rank. HasRank (column_addresses columns.now) far rank) }
    ensures absent { IfNone result (¬ Contains (column_addresses columns.now) far) }
{
    let index = column_index(columns, far)?;
    let column = columns[index];
    Some(column.rank + (far - column.first))
}

/// The address with `rank` smaller ones, none where there are no more than `rank` addresses.
pub(crate) fn address_of(columns: &[Column], rank: u32) -> Option<u32>
    requires { AreColumns columns.now }
    ensures found { IfSome result (λ far. HasRank (column_addresses columns.now) far rank) }
    ensures past_end { IfNone result (length (column_addresses columns.now) ≤ rank) }
{
    let after = begun_by_rank(columns, rank);
    if after == 0 {
        return None;
    }
    let column = columns[after - 1];
    let minor = rank - column.rank;
    if minor < column.count {
        Some(column.first + minor)
    } else {
        None
    }
}

/// The next address in number order, none for the last one and for what is no address.
pub(crate) fn next_of(columns: &[Column], far: u32) -> Option<u32>
    requires { AreColumns columns.now }
    ensures found { IfSome result (λ y. IsFollowedBy (column_addresses columns.now) far y) }
    ensures last_or_absent { IfNone result (IsLastIn (column_addresses columns.now) far ⊎ (¬ Contains (column_addresses columns.now) far)) }
{
    let index = column_index(columns, far)?;
    let column = columns[index];
    if far - column.first + 1 < column.count {
        return Some(far + 1);
    }
    if index + 1 == columns.len() {
        return None;
    }
    Some(columns[index + 1].first)
}

/// The slot of this number, from 0, `End` past the last one.
fn slot_at(columns: &[Column], slot_number: u64) -> Slot
    requires { AreColumns columns.now }
    ensures { result ≡ slice_index_or (column_slots columns.now) slot_number Slot.End }
{
    let after = begun_by_slot(columns, slot_number);
    if after == 0 {
        return Slot::End;
    }
    let column = columns[after - 1];
    let offset = slot_number - column.place;
    if offset < u64::from(column.count) {
        Slot::Frame(column.first + offset as u32)
    } else if offset < u64::from(column.count) + u64::from(column.pad_count) {
        Slot::Pad
    } else {
        Slot::End
    }
}

/// The rank of the frame at the slot of this number, from 0, where the column at `index` has that frame. `None`: the
/// column has no frame at that slot, or there is no column at `index`.
fn rank_in(columns: &[Column], index: usize, slot_number: u64) -> Option<u32>
    requires { AreColumns columns.now }
    ensures found { IfSome result (λ r. HasFrameOf (column_addresses columns.now) (column_slots columns.now) slot_number r) }
    ensures in_column { IfSome result (λ r. (index < length columns.now) × ((d : Column) → HasFrameAt (slice_index_or columns.now index d) slot_number)) }
    ensures not_in_column { IfNone result ((d : Column) → index < length columns.now → ¬ HasFrameAt (slice_index_or columns.now index d) slot_number) }
{
    if columns.len() <= index {
        return None;
    }
    let column = columns[index];
    if slot_number < column.place {
        return None;
    }
    let offset = slot_number - column.place;
    if offset < u64::from(column.count) {
        Some(column.rank + offset as u32)
    } else {
        None
    }
}

/// The rank of the frame at the slot of this number, from 0, none at a pad and past the last slot. `hint` is the index
/// of the column that is looked at first, and then of the one that begins last at or before the slot; the answer
/// doesn't depend on the hint.
pub(crate) fn rank_at(columns: &[Column], slot_number: u64, hint: &mut usize) -> Option<u32>
    requires { AreColumns columns.now }
    ensures found { IfSome result (λ r. HasFrameOf (column_addresses columns.now) (column_slots columns.now) slot_number r) }
    ensures no_frame { IfNone result ((far : ℕ) → slice_index_or (column_slots columns.now) slot_number Slot.End ≡ Slot.Frame far → ⊥) }
{
    if let Some(rank) = rank_in(columns, *hint, slot_number) {
        return Some(rank);
    }
    let after = begun_by_slot(columns, slot_number);
    if after == 0 {
        return None;
    }
    *hint = after - 1;
    rank_in(columns, after - 1, slot_number)
}

/// The number of the slot of an address: how many slots are before it.
pub(crate) fn place_of(columns: &[Column], far: u32) -> u64
    requires columns { AreColumns columns.now }
    requires address { Contains (column_addresses columns.now) far }
    ensures within { result < length (column_slots columns.now) }
    ensures slots { (n : ℕ) → slice_index_or (column_slots columns.now) (result + n) Slot.End ≡ slice_index_or (from_address far (column_slots columns.now)) n Slot.End }
    ensures slots_left { length (column_slots columns.now) - result ≡ length (from_address far (column_slots columns.now)) }
{
    let Some(index) = column_index(columns, far) else {
        unreachable!()
    };
    let column = columns[index];
    column.place + u64::from(far - column.first)
}

/// Slot n, from 0, of the slots from an address on, `End` where there are no more than n.
pub(crate) fn slot_after(columns: &[Column], far: u32, n: u64) -> Slot
    requires columns { AreColumns columns.now }
    requires address { Contains (column_addresses columns.now) far }
    ensures { result ≡ slice_index_or (from_address far (column_slots columns.now)) n Slot.End }
{
    match place_of(columns, far).checked_add(n) {
        Some(slot_number) => slot_at(columns, slot_number),
        None => Slot::End,
    }
}

/// The number of addresses of all columns.
pub(crate) fn frame_count(columns: &[Column]) -> u32
    requires { AreColumns columns.now }
    ensures { result ≡ length (column_addresses columns.now) }
{
    match columns.last() {
        Some(last) => last.rank + last.count,
        None => 0,
    }
}

/// The number of slots of all columns, pads included.
fn slot_count(columns: &[Column]) -> u64
    requires { AreColumns columns.now }
    ensures { result ≡ length (column_slots columns.now) }
{
    match columns.last() {
        Some(last) => last.place + u64::from(last.count) + u64::from(last.pad_count),
        None => 0,
    }
}

/// The number of slots from an address on, pads included.
pub(crate) fn slots_from(columns: &[Column], far: u32) -> u64
    requires columns { AreColumns columns.now }
    requires address { Contains (column_addresses columns.now) far }
    ensures { result ≡ length (from_address far (column_slots columns.now)) }
{
    slot_count(columns) - place_of(columns, far)
}
