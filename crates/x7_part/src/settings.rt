//! What a part file's top table says of a part, but for its name and its rows.
ghost use Rattle.std.specs.Prelude.{◌≡◌, None};
ghost use Rattle.std.specs.Result.{result_err};
ghost use Rattle.toml.specs.View.{table_view};
ghost use Rattle.x7_part.specs.Values.{settings_in};
ghost use Rattle.x7_part.specs.PartChecks.{top_range_fault, type_fault};

use crate::address::Widths;
use crate::fault::{PartFault, PartKey};
use crate::limits::{
    GREATEST_BUS_WIDTH, GREATEST_IDCODE, GREATEST_MODE, LARGE_START_UNIT, MOST_FRAME_WORDS,
    MOST_ROWS, MOST_WAIT_TICKS, USUAL_FRAME_WORDS, USUAL_START_UNIT,
};
use crate::ranges::{
    RangeTest, are_frame_words_in_range, check_ranges, is_idcode_in_range, is_length_in, is_name,
    is_start_unit_in_range, is_up_to, range_test, widths_in,
};
use crate::values::{items_under, number_up_to, text};
use toml::Table;

/// What a top table says of a part in numbers; each is in its range where `top_range_fault` finds nothing.
#[derive(Clone, Copy, Drop)]
pub(crate) struct PartSettings {
    pub(crate) idcode: u32,
    pub(crate) mode: u8,
    pub(crate) bus_width: u8,
    /// The ticks, of four bytes each, that startup waits for the clocks to lock.
    pub(crate) lock: u16,
    /// The ticks, of four bytes each, that startup waits for the impedance to match.
    pub(crate) matched: u16,
    /// The number of words of a frame.
    pub(crate) frame_words: u8,
    pub(crate) field_widths: Widths,
    /// The bytes of the flash that one step of the start address in WBSTAR stands for.
    pub(crate) start_unit: u16,
}

/// Refuses the first value of a top table that isn't in its range.
pub(crate) fn check_top_ranges(table: &Table) -> Result<(), PartFault>
    requires { type_fault (table_view table.now) ≡ None }
    ensures { result_err result ≡ top_range_fault (table_view table.now) }
{
    let row_count = items_under(table, PartKey::Row).len();
    let tests = [
        range_test!(Name, is_name(text(table, PartKey::Name))),
        range_test!(Idcode, is_idcode_in_range(table)),
        range_test!(Mode, is_up_to(GREATEST_MODE, table, PartKey::Mode)),
        range_test!(
            BusWidth,
            is_up_to(GREATEST_BUS_WIDTH, table, PartKey::BusWidth)
        ),
        range_test!(Lock, is_up_to(MOST_WAIT_TICKS, table, PartKey::Lock)),
        range_test!(Match, is_up_to(MOST_WAIT_TICKS, table, PartKey::Match)),
        range_test!(FrameWords, are_frame_words_in_range(table)),
        range_test!(Far, widths_in(table).is_some()),
        range_test!(StartUnit, is_start_unit_in_range(table)),
        range_test!(Row, is_length_in(row_count, 1, MOST_ROWS)),
    ];
    check_ranges(None, &tests)
}

/// The settings of a top table whose values are in their ranges.
pub(crate) fn settings_in(table: &Table) -> PartSettings
    requires { top_range_fault (table_view table.now) ≡ None }
    ensures { result ≡ settings_in (table_view table.now) }
{
    let Some(field_widths) = widths_in(table) else {
        unreachable!()
    };
    PartSettings {
        idcode: number_up_to(GREATEST_IDCODE, 0, table, PartKey::Idcode),
        mode: number_up_to(GREATEST_MODE, 0, table, PartKey::Mode) as u8,
        bus_width: number_up_to(GREATEST_BUS_WIDTH, 0, table, PartKey::BusWidth) as u8,
        lock: number_up_to(MOST_WAIT_TICKS, 0, table, PartKey::Lock) as u16,
        matched: number_up_to(MOST_WAIT_TICKS, 0, table, PartKey::Match) as u16,
        frame_words: number_up_to(
            MOST_FRAME_WORDS,
            USUAL_FRAME_WORDS,
            table,
            PartKey::FrameWords,
        ) as u8,
        field_widths,
        start_unit: number_up_to(
            LARGE_START_UNIT,
            USUAL_START_UNIT,
            table,
            PartKey::StartUnit,
        ) as u16,
    }
}
