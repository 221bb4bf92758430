//! The ranges of a part file's values.
ghost use Rattle.std.specs.Prelude.{◌≡◌, ◌≤◌, [], ◌∷◌, is_some, true, false, IfSome, MatchOption};
ghost use Rattle.std.specs.Result.{result_err};
ghost use Rattle.toml.specs.View.{view, table_view, items_view};
ghost use Rattle.x7_part.specs.Values.{items_under, natural, number_or, whole, wholes, widths_of};
ghost use Rattle.x7_part.specs.PartChecks.{unless, ranges_fault, is_in, is_up_to, is_length_in, are_printed, is_name, is_idcode, is_start_unit, are_widths_in_range, are_widths, are_in, are_minors};
ghost use Rattle.x7_part.specs.Limits.{least_frame_words, most_frame_words, most_minors, usual_frame_words, usual_start_unit};
ghost use Rattle.x7_part.specs.declared.fault.PartKey.TheVariants as key;

use crate::address::Widths;
use crate::fault::{PartFault, PartKey, Which};
use crate::limits::{
    FIRST_PRINTED, GREATEST_IDCODE, HALF_WIDTH, LARGE_START_UNIT, LAST_PRINTED, LEAST_BLOCK_WIDTH,
    LEAST_COLUMN_WIDTH, LEAST_FRAME_WORDS, LEAST_MINOR_WIDTH, LEAST_ROW_WIDTH, MOST_BLOCK_WIDTH,
    MOST_COLUMN_WIDTH, MOST_COLUMNS, MOST_FRAME_WORDS, MOST_MINOR_WIDTH, MOST_MINORS,
    MOST_NAME_SIZE, MOST_ROW_WIDTH, USUAL_FRAME_WORDS, USUAL_START_UNIT,
};
use crate::values::{items_under, number_or, value_under, whole};
use toml::{Table, Value};

/// The fault, unless the test holds.
pub(crate) fn require(holds: bool, fault: PartFault) -> Result<(), PartFault>
    ensures { result_err result ≡ unless holds fault }
{
    if holds { Ok(()) } else { Err(fault) }
}

/// A key, and whether its value lies in its range.
#[derive(Clone, Copy, Drop)]
pub(crate) struct RangeTest {
    pub(crate) key: PartKey,
    pub(crate) passes: bool,
}

/// A key with whether its value passes.
macro_rules! range_test {
    ($key:ident, $passes:expr) => {
        RangeTest {
            key: PartKey::$key,
            passes: $passes,
        }
    };
}

pub(crate) use range_test;

/// Refuses the first of the keys, in the top table or in the row of this number, whose value isn't in its range.
pub(crate) fn check_ranges(row: Option<u32>, tests: &[RangeTest]) -> Result<(), PartFault>
    ensures { result_err result ≡ ranges_fault row tests.now }
{
    for test in tests {
        let at = Which { row, key: test.key };
        require(test.passes, PartFault::Range(at))?;
    }
    Ok(())
}

/// Whether a length lies from `low` to `high`.
pub(crate) fn is_length_in(length: usize, low: usize, high: usize) -> bool
    ensures { result ≡ is_length_in low high length }
{
    low <= length && length <= high
}

/// Whether each byte is a printed one, and none a blank.
fn are_printed(bytes: &[u8]) -> bool
    ensures { result ≡ are_printed bytes.now }
{
    for byte in bytes {
        if *byte < FIRST_PRINTED || *byte > LAST_PRINTED {
            return false;
        }
    }
    true
}

/// Whether a text can be the name of a part: 1 to 64 bytes, each printed and none a blank (21 to 7E).
#[tactic(auto, unfolding(crate::specs::PartChecks::is_name))]
pub(crate) fn is_name(text: &str) -> bool
    ensures { result ≡ is_name text.now }
{
    is_length_in(text.len(), 1, MOST_NAME_SIZE) && are_printed(text.as_bytes())
}

/// Whether a number lies from `low` to `high`.
#[tactic(auto, unfolding(crate::specs::PartChecks::is_in))]
fn is_in(number: i64, low: u32, high: u32) -> bool
    ensures { result ≡ is_in low high number }
{
    i64::from(low) <= number && number <= i64::from(high)
}

/// Whether the whole number under a key, 0 where it is left out, lies from 0 to `high`.
pub(crate) fn is_up_to(high: u32, table: &Table, key: PartKey) -> bool
    ensures { result ≡ is_up_to high key (table_view table.now) }
{
    is_in(number_or(0, table, key), 0, high)
}

/// Whether the IDCODE of a top table is odd, positive and below 2^32.
#[tactic(auto, unfolding(crate::specs::PartChecks::is_idcode))]
pub(crate) fn is_idcode_in_range(table: &Table) -> bool
    ensures { result ≡ is_idcode (number_or 0 key.Idcode (table_view table.now)) }
{
    let idcode = number_or(0, table, PartKey::Idcode);
    is_in(idcode, 1, GREATEST_IDCODE) && idcode.unsigned_abs() % 2 == 1
}

/// Whether the words of a frame of a top table, 101 where it doesn't say, are from 2 to 255.
pub(crate) fn are_frame_words_in_range(table: &Table) -> bool
    ensures { result ≡ is_in least_frame_words most_frame_words (number_or usual_frame_words key.FrameWords (table_view table.now)) }
{
    let frame_words = number_or(USUAL_FRAME_WORDS, table, PartKey::FrameWords);
    is_in(frame_words, LEAST_FRAME_WORDS, MOST_FRAME_WORDS)
}

/// Whether the start unit of a top table, 1 where it doesn't say, is 1 or 256.
#[tactic(auto, unfolding(crate::specs::PartChecks::is_start_unit))]
pub(crate) fn is_start_unit_in_range(table: &Table) -> bool
    ensures { result ≡ is_start_unit (number_or usual_start_unit key.StartUnit (table_view table.now)) }
{
    let unit = number_or(USUAL_START_UNIT, table, PartKey::StartUnit);
    is_in(unit, USUAL_START_UNIT, USUAL_START_UNIT)
        || is_in(unit, LARGE_START_UNIT, LARGE_START_UNIT)
}

/// A width in bits from `low` to `high`, none where the number that an item gives lies outside.
#[tactic(auto, unfolding(crate::specs::PartChecks::is_in))]
fn width_in(item: &Value, low: u8, high: u8) -> Option<u8>
    ensures { MatchOption result (is_in low high (whole (view item.now)) ≡ false) (λ n. (is_in low high (whole (view item.now)) ≡ true) × (n ≡ natural (whole (view item.now))) × (low ≤ n) × (n ≤ high)) }
{
    let number = whole(item);
    if i64::from(low) <= number && number <= i64::from(high) {
        Some(number.unsigned_abs() as u8)
    } else {
        None
    }
}

/// The widths of the fields of an address, none where one of them is out of its range, or where they have more than 32
/// bits together.
fn widths_of_fields(
    minor: &Value,
    column: &Value,
    row: &Value,
    half: &Value,
    block: &Value,
) -> Option<Widths>
    ensures exactly_where { is_some result ≡ are_widths (whole (view minor.now) ∷ whole (view column.now) ∷ whole (view row.now) ∷ whole (view half.now) ∷ whole (view block.now) ∷ []) }
    ensures value { IfSome result (λ widths. widths ≡ widths_of (whole (view minor.now) ∷ whole (view column.now) ∷ whole (view row.now) ∷ whole (view half.now) ∷ whole (view block.now) ∷ [])) }
{
    let minor = width_in(minor, LEAST_MINOR_WIDTH, MOST_MINOR_WIDTH)?;
    let column = width_in(column, LEAST_COLUMN_WIDTH, MOST_COLUMN_WIDTH)?;
    let row = width_in(row, LEAST_ROW_WIDTH, MOST_ROW_WIDTH)?;
    let half = width_in(half, HALF_WIDTH, HALF_WIDTH)?;
    let block = width_in(block, LEAST_BLOCK_WIDTH, MOST_BLOCK_WIDTH)?;
    Widths::of(minor, column, row, half, block)
}

/// The widths of the fields of an address that items give; none where there aren't five items, where one is out of its
/// range, or where they have more than 32 bits together.
fn widths_given(items: &[Value]) -> Option<Widths>
    ensures exactly_where { is_some result ≡ are_widths (wholes (items_view items.now)) }
    ensures value { IfSome result (λ widths. widths ≡ widths_of (wholes (items_view items.now))) }
{
    if items.len() != 5 {
        return None;
    }
    widths_of_fields(&items[0], &items[1], &items[2], &items[3], &items[4])
}

/// The widths of the fields of an address, those of the 7 series where they are left out; none where they aren't in
/// their ranges.
#[tactic(auto, unfolding(crate::specs::PartChecks::are_widths_in_range))]
pub(crate) fn widths_in(table: &Table) -> Option<Widths>
    ensures exactly_where { is_some result ≡ are_widths_in_range (table_view table.now) }
    ensures value { IfSome result (λ widths. widths ≡ widths_of (wholes (items_under key.Far (table_view table.now)))) }
{
    if value_under(table, PartKey::Far).is_none() {
        return Some(Widths::usual());
    }
    widths_given(items_under(table, PartKey::Far))
}

/// Whether each item gives a number of minors that a column may have.
fn are_minor_counts(items: &[Value]) -> bool
    ensures { result ≡ are_in 1 most_minors (wholes (items_view items.now)) }
{
    for item in items {
        if !is_in(whole(item), 1, MOST_MINORS) {
            return false;
        }
    }
    true
}

/// Whether items give the numbers of minors of a row's columns: of 1 to 1,024 columns, each from 1 to 128.
pub(crate) fn are_minors(items: &[Value]) -> bool
    ensures { result ≡ are_minors (wholes (items_view items.now)) }
{
    is_length_in(items.len(), 1, MOST_COLUMNS) && are_minor_counts(items)
}
