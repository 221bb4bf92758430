//! The widths of the fields of a frame address (UG470, frame address register).
ghost use Rattle.std.specs.Prelude.{◌≡◌, ◌≤◌, ◌+◌, ◌^◌, nat_le, is_some, IfSome};
ghost use Rattle.x7_part.specs.Address.{AreWidths, address_width, column_low, row_low, half_low, block_low};
ghost use Rattle.x7_part.specs.Limits.{half_width, least_address_width, least_block_width, least_column_width, least_minor_width, least_row_width, most_address_width, most_block_width, most_column_width, most_minor_width, most_row_width};
ghost use Rattle.x7_part.specs.Part.{FieldWidths, usual_widths};

use crate::limits::MOST_ADDRESS_WIDTH;
use std::marker::Model;

/// The widths in bits of the fields of an address, each field right above the one before it, from bit 0.
#[derive(Clone, Copy, Drop)]
pub(crate) struct Widths {
    pub(crate) minor: u8,
    pub(crate) column: u8,
    pub(crate) row: u8,
    pub(crate) half: u8,
    pub(crate) block: u8,
}

impl Model for Widths {
    ghost Value = { FieldWidths };

    ghost view = { λ f. record { minor = f.minor; column = f.column; row = f.row; half = f.half; block = f.block } };

    ghost inverse = { λ d. record { minor = d.minor; column = d.column; row = d.row; half = d.half; block = d.block } };

    ghost invariant = { λ f. AreWidths record { minor = f.minor; column = f.column; row = f.row; half = f.half; block = f.block } };
}

impl Widths {
    /// The widths of the fields of an address in the 7 series.
    pub(crate) fn usual() -> Widths
        ensures { result ≡ usual_widths }
    {
        Widths {
            minor: 7,
            column: 10,
            row: 5,
            half: 1,
            block: 3,
        }
    }

    /// The widths of the five fields, none where they have more than 32 bits together.
    pub(crate) fn of(minor: u8, column: u8, row: u8, half: u8, block: u8) -> Option<Widths>
        requires minor { (least_minor_width ≤ minor) × (minor ≤ most_minor_width) }
        requires column { (least_column_width ≤ column) × (column ≤ most_column_width) }
        requires row { (least_row_width ≤ row) × (row ≤ most_row_width) }
        requires half { half ≡ half_width }
        requires block { (least_block_width ≤ block) × (block ≤ most_block_width) }
        ensures found { IfSome result (λ widths. widths ≡ record { minor = minor; column = column; row = row; half = half; block = block }) }
        ensures exactly_where { is_some result ≡ nat_le (minor + column + row + half + block) most_address_width }
    {
        if minor + column + row + half + block > MOST_ADDRESS_WIDTH {
            return None;
        }
        Some(Widths {
            minor,
            column,
            row,
            half,
            block,
        })
    }

    /// What one column more adds to an address. Clause `widths` gives callers what holds of all widths.
    pub(crate) fn column_weight(self) -> u32
        ensures value { result ≡ 2 ^ column_low self }
        ensures widths { AreWidths self }
    {
        1 << self.minor
    }

    /// What one row more adds to an address.
    pub(crate) fn row_weight(self) -> u32
        ensures { result ≡ 2 ^ row_low self }
    {
        1 << (self.minor + self.column)
    }

    /// What the bottom half adds to an address.
    pub(crate) fn half_weight(self) -> u32
        ensures { result ≡ 2 ^ half_low self }
    {
        1 << (self.minor + self.column + self.row)
    }

    /// What one block type more adds to an address. Clause `widths` gives callers what holds of all widths.
    pub(crate) fn block_weight(self) -> u32
        ensures value { result ≡ 2 ^ block_low self }
        ensures widths { AreWidths self }
    {
        1 << (self.minor + self.column + self.row + self.half)
    }

    /// The width of an address in bits.
    pub(crate) fn width(self) -> u32
        ensures value { result ≡ address_width self }
        ensures least { least_address_width ≤ result }
        ensures most { result ≤ most_address_width }
    {
        u32::from(self.minor + self.column + self.row + self.half + self.block)
    }
}
