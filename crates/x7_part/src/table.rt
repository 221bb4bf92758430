//! The table of a part's columns, made from its rows.
ghost use Rattle.std.specs.Prelude.{◌≡◌, ◌<◌, ◌≤◌, ◌+◌, ◌*◌, ◌^◌, ◌++◌, ◌==◌, if◌then◌else◌, length, IfOk, OnOk};
ghost use Rattle.x7_part.specs.AddressOrder.{addresses};
ghost use Rattle.x7_part.specs.Column.{row_columns, table_of as columns_of};
ghost use Rattle.x7_part.specs.Address.{AreRows};
ghost use Rattle.x7_part.specs.Limits.{most_columns, most_frames, most_rows};
ghost use Rattle.x7_part.specs.Slot.{pads_after_row};

use crate::address::Widths;
use crate::column::Column;
use crate::row::Row;
use crate::slot::PADS_AFTER_ROW;
use std::alloc::{AllocError, Global};

/// The number of pads after a column of a row that has `column_count` columns: the row's after the last one, else none.
/// Columns count from 0.
fn pads_after(column: usize, column_count: usize) -> u32
    requires { column < column_count }
    ensures { result ≡ (if column + 1 == column_count then pads_after_row else 0) }
{
    if column + 1 == column_count {
        PADS_AFTER_ROW
    } else {
        0
    }
}

/// Adds the columns of the row at `base`, before which stand `rank` addresses and `place` slots. One column more adds
/// `pitch` to an address.
#[tactic(auto, using(crate::proofs::RowLemmas::row_more))]
fn add_row(
    columns: &mut Vec<Column>,
    pitch: u32,
    base: u32,
    minors: &[u8],
    rank: u32,
    place: u64,
) -> Result<(), AllocError>
    requires base { base + length minors.now * pitch ≤ 2 ^ 32 }
    requires columns { length minors.now ≤ most_columns }
    requires rank { rank < 2 ^ 31 }
    requires place { place < 2 ^ 62 }
    ensures { OnOk result (columns.new.items ≡ columns.old.items ++ row_columns pitch base 0 rank place minors.now) }
{
    let mut rank = rank;
    let mut place = place;
    for (column, count) in minors.iter().enumerate() {
        columns.push(Column {
            first: base + column as u32 * pitch,
            count: u32::from(*count),
            pad_count: pads_after(column, minors.len()),
            rank,
            place,
        })?;
        rank += u32::from(*count);
        place += u64::from(*count);
    }
    Ok(())
}

/// The table of rows that stand in number order.
pub(crate) fn table_of(
    alloc: Global,
    widths: Widths,
    rows: &[Row],
) -> Result<Vec<Column>, AllocError>
    requires rows { AreRows widths 0 rows.now }
    requires count { length rows.now ≤ most_rows }
    requires frames { length (addresses widths rows.now) ≤ most_frames }
    ensures { IfOk result (λ columns. columns.items ≡ columns_of widths 0 0 rows.now) }
{
    let mut columns = Vec::new(alloc);
    let mut rank = 0;
    let mut place = 0;
    for row in rows {
        let base = row.address(widths);
        add_row(
            &mut columns,
            widths.column_weight(),
            base,
            &row.minors,
            rank,
            place,
        )?;
        let frame_count = row.frame_count();
        rank += frame_count;
        place += u64::from(frame_count) + u64::from(PADS_AFTER_ROW);
    }
    Ok(columns)
}
