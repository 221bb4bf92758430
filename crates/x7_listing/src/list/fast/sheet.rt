//! A sheet of text: each piece is stored as a fixed number of bytes, of which the first ones are text, and the next
//! piece is stored just after that text. How many bytes of a sheet are text stands beside it, not in it, so that the
//! processor may keep that in a register.
ghost use Rattle.std.specs.Prelude.{◌≡◌, ◌≤◌, ◌+◌, ◌++◌, length, take};
ghost use Rattle.x7_listing.specs.Fast.AtOnce.{row_text};

use crate::line::TEXT_SIZE_AT;
use std::simd::prelude::*;

/// How many bytes a sheet has.
pub(crate) const SHEET_SIZE: usize = 2048;

/// Stores a piece after a sheet's text of `len` bytes; the first `count` bytes of the piece are text. Gives how many
/// bytes of text the sheet has then.
#[inline(always)]
pub(crate) fn put_prefix(
    sheet: &mut [u8; SHEET_SIZE],
    len: usize,
    piece: &[u8],
    count: usize,
) -> usize
    requires room { len + length piece.now ≤ SHEET_SIZE }
    requires within { count ≤ length piece.now }
    ensures length { result ≡ len + count }
    ensures appends { take result sheet.new ≡ take len sheet.old ++ take count piece.now }
{
    sheet[len..len + piece.len()].copy_from_slice(piece);
    len + count
}

/// Stores a piece that is all text after a sheet's text of `len` bytes. Gives how many bytes of text the sheet has
/// then.
#[inline(always)]
pub(crate) fn put_whole(sheet: &mut [u8; SHEET_SIZE], len: usize, piece: &[u8]) -> usize
    requires room { len + length piece.now ≤ SHEET_SIZE }
    ensures length { result ≡ len + length piece.now }
    ensures appends { take result sheet.new ≡ take len sheet.old ++ piece.now }
{
    put_prefix(sheet, len, piece, piece.len())
}

/// Stores a row of a table after a sheet's text of `len` bytes. Gives how many bytes of text the sheet has then.
#[inline(always)]
pub(crate) fn put_row(sheet: &mut [u8; SHEET_SIZE], len: usize, row: &[u8; 32]) -> usize
    requires room { len + 32 ≤ SHEET_SIZE }
    ensures within { result ≤ len + 32 }
    ensures appends { take result sheet.new ≡ take len sheet.old ++ row_text row.now }
{
    u8x32::from_array(*row).copy_to_slice(&mut sheet[len..]);
    len + (row[TEXT_SIZE_AT] as usize).min(32)
}
