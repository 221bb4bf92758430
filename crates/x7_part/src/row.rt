//! Rows of a part.
ghost use Rattle.std.specs.Prelude.{◌≡◌, ◌≤◌, ◌*◌, [], None, true, length, map, sum, All, IfOk};
ghost use Rattle.std.specs.Result.{result_err};
ghost use Rattle.std.specs.List.{sum_by};
ghost use Rattle.toml.specs.View.{table_view, items_view};
ghost use Rattle.x7_part.specs.Address.{row_address, AreWidths, IsRow};
ghost use Rattle.x7_part.specs.Limits.{greatest_byte, most_columns, most_minors, most_rows};
ghost use Rattle.x7_part.specs.PartChecks.{AnswersDue, are_in, rows_fault, row_range_fault};
ghost use Rattle.x7_part.specs.Row.{is_same_row, has_same_row, same_row_fault, sorted_rows};
ghost use Rattle.x7_part.specs.Values.{natural, row_of, row_tables, rows_in_file, wholes};
ghost use Rattle.x7_part.specs.Part.{RowData};

use crate::address::Widths;
use crate::fault::{PartFault, PartKey};
use crate::limits::{GREATEST_BLOCK, GREATEST_HALF, GREATEST_ROW};
use crate::ranges::{RangeTest, are_minors, check_ranges, is_up_to, range_test, require};
use crate::values::{items_under, number_up_to, whole};
use std::alloc::{AllocError, Global};
use std::marker::Model;
use toml::{Table, Value};

/// A row of one block type: its half (0 top, 1 bottom), its row within the half, and the number of minors of each
/// column from 0 on.
#[derive(Drop)]
pub(crate) struct Row {
    pub(crate) block: u8,
    pub(crate) half: u8,
    pub(crate) row: u8,
    pub(crate) minors: Vec<u8>,
}

impl Model for Row {
    ghost Value = { RowData };

    ghost view = { λ r. record { block = r.block; half = r.half; row = r.row; minors = r.minors.items } };

    ghost invariant = { λ r. IsRow record { block = r.block; half = r.half; row = r.row; minors = r.minors.items } };
}

impl Clone for Row {
    ghost is_clone = { λ row clone. clone ≡ row };

    fn clone(&self) -> Result<Row, AllocError> {
        Ok(Row {
            block: self.block,
            half: self.half,
            row: self.row,
            minors: self.minors.clone()?,
        })
    }
}

impl Row {
    /// Whether the other has the same block type, half and row.
    fn is_same_row(&self, other: &Row) -> bool
        ensures { result ≡ is_same_row self.now other.now }
    {
        self.block == other.block && self.half == other.half && self.row == other.row
    }

    /// The address of the row's column 0, minor 0.
    pub(crate) fn address(&self, widths: Widths) -> u32
        ensures { result ≡ row_address widths self.now }
    {
        u32::from(self.block) * widths.block_weight()
            + u32::from(self.half) * widths.half_weight()
            + u32::from(self.row) * widths.row_weight()
    }

    /// The number of the row's frames.
    pub(crate) fn frame_count(&self) -> u32
        ensures value { result ≡ sum self.now.minors }
        ensures most { result ≤ greatest_byte * most_columns }
    {
        let mut total = 0;
        for count in &self.minors {
            total += u32::from(*count);
        }
        total
    }
}

/// The numbers that items give, each from 1 to the most minors of a column.
fn minors_of(alloc: Global, items: &[Value]) -> Result<Vec<u8>, AllocError>
    requires { are_in 1 most_minors (wholes (items_view items.now)) ≡ true }
    ensures { IfOk result (λ minors. minors.items ≡ map natural (wholes (items_view items.now))) }
{
    let mut minors = Vec::with_capacity(alloc, items.len())?;
    for item in items {
        minors.push(whole(item).unsigned_abs() as u8)?;
    }
    Ok(minors)
}

/// The row of a row's table, or the first of its values that is out of range, or want of memory. Rows count from 1.
fn row_in(alloc: Global, number: u32, table: &Table) -> Result<Row, PartFault>
    ensures fault { AnswersDue (row_range_fault number (table_view table.now)) result }
    ensures value { IfOk result (λ row. row ≡ row_of (table_view table.now)) }
{
    let minors = items_under(table, PartKey::Minors);
    let tests = [
        range_test!(Block, is_up_to(GREATEST_BLOCK, table, PartKey::Block)),
        range_test!(Half, is_up_to(GREATEST_HALF, table, PartKey::Half)),
        range_test!(Row, is_up_to(GREATEST_ROW, table, PartKey::Row)),
        range_test!(Minors, are_minors(minors)),
    ];
    check_ranges(Some(number), &tests)?;
    Ok(Row {
        block: number_up_to(GREATEST_BLOCK, 0, table, PartKey::Block) as u8,
        half: number_up_to(GREATEST_HALF, 0, table, PartKey::Half) as u8,
        row: number_up_to(GREATEST_ROW, 0, table, PartKey::Row) as u8,
        minors: minors_of(alloc, minors)?,
    })
}

/// The rows of a top table, which count from 1, or the first value of one that is out of range, or want of memory.
pub(crate) fn rows_in(alloc: Global, table: &Table) -> Result<Vec<Row>, PartFault>
    ensures fault { AnswersDue (rows_fault row_range_fault 1 (row_tables (table_view table.now))) result }
    ensures value { IfOk result (λ rows. rows.items ≡ rows_in_file (table_view table.now)) }
{
    let items = items_under(table, PartKey::Row);
    let mut rows = Vec::with_capacity(alloc, items.len())?;
    let mut number = 1u32;
    for item in items {
        let row = match item.as_table() {
            Some(row) => row,
            None => continue,
        };
        rows.push(row_in(alloc, number, row)?)?;
        number = number.saturating_add(1);
    }
    Ok(rows)
}

/// Whether one of the rows has the same block type, half and row.
fn has_same_row(row: &Row, rows: &[Row]) -> bool
    ensures { result ≡ has_same_row row.now rows.now }
{
    for other in rows {
        if row.is_same_row(other) {
            return true;
        }
    }
    false
}

/// Refuses the first row that is the same as an earlier one. Rows count from 1.
pub(crate) fn check_same_rows(rows: &[Row]) -> Result<(), PartFault>
    requires { length rows.now ≤ most_rows }
    ensures { result_err result ≡ same_row_fault [] rows.now }
{
    for (place, row) in rows.iter().enumerate() {
        let same = has_same_row(row, &rows[..place]);
        require(!same, PartFault::SameRow(place as u32 + 1))?;
    }
    Ok(())
}

/// The number of frames of the rows.
pub(crate) fn frame_count(rows: &[Row]) -> u32
    requires { length rows.now ≤ most_rows }
    ensures { result ≡ sum_by (λ row. sum row.minors) rows.now }
{
    let mut total = 0;
    for row in rows {
        total += row.frame_count();
    }
    total
}

/// Puts rows, no two of which are the same, in rising order of their addresses.
pub(crate) fn sort_rows(rows: &mut Vec<Row>, widths: Widths)
    requires widths { AreWidths widths }
    requires rows { All IsRow rows.old.items }
    requires apart { same_row_fault [] rows.old.items ≡ None }
    ensures { rows.new.items ≡ sorted_rows widths rows.old.items }
{
    rows.sort_unstable_by_key(|row| row.address(widths));
}
