//! The usual line, a data record of sixteen bytes: written at once, and read by a guess that is written again and
//! compared.
ghost use Rattle.std.specs.Prelude.{◌≡◌, ◌<◌, ◌≤◌, ◌+◌, ◌%◌, ◌++◌, length, IfSome, IsTrue};
ghost use Rattle.std.specs.List.{flat_map, sum};
ghost use Rattle.std.specs.Simd.Lanes.{chunk};
ghost use Rattle.x7_text.specs.Digits.{hex_byte};
ghost use Rattle.x7_words.specs.Word.{AreBytes};
ghost use Rattle.x7_mcs.specs.Record.{sum_byte, byte_values};
ghost use Rattle.x7_mcs.specs.Text.{data_line, fields_place, row_fields, row_line_size, row_size};

use crate::record::{DATA_TYPE, sum_of};
use std::simd::prelude::*;
use x7_text::{hex_of_byte, hex_of_sixteen};
use x7_words::are_bytes;

/// How many bytes of a flash a row has; the last row may have fewer.
pub(crate) const ROW_SIZE: usize = 16;

/// How many bytes of text the data record of a whole row has, with its line end.
pub(crate) const ROW_LINE_SIZE: usize = 44;

/// Where the digits of a row's count begin in its line, in bytes from 0, after `:`; those of its address and of its
/// type follow.
const FIELDS_PLACE: usize = 1;

/// Where the four digits of a row's address begin in its line, in bytes from 0.
const ADDRESS_PLACE: usize = 3;

/// Where the digits of a row's first eight bytes begin in its line, in bytes from 0.
const FIRST_HALF_PLACE: usize = 9;

/// Where the digits of a row's last eight bytes begin in its line, in bytes from 0.
const SECOND_HALF_PLACE: usize = 25;

/// Where the digits of a row's sum byte begin in its line, in bytes from 0.
const SUM_PLACE: usize = 41;

/// Where the line end of a row stands in its line, in bytes from 0.
const LINE_END_PLACE: usize = 43;

/// The sum of sixteen bytes modulo 256.
#[inline(always)]
fn sum_of_content(content: &[u8; 16]) -> u8
    ensures { result ≡ sum content.now % byte_values }
{
    u8x16::from_array(*content).reduce_sum()
}

/// The sum byte of a data record of sixteen bytes at an address.
#[inline(always)]
fn sum_byte_of_row(address: u16, content: &[u8; 16]) -> u8
    ensures { result ≡ sum_byte (row_fields address ++ content.now) }
{
    let fields = [
        ROW_SIZE as u8,
        (address / 256) as u8,
        (address % 256) as u8,
        DATA_TYPE,
    ];
    0u8.wrapping_sub(sum_of(&fields).wrapping_add(sum_of_content(content)))
}

/// The digits of the fields of a data record of sixteen bytes at an address: its count, the address and its type.
#[inline(always)]
fn hex_of_fields(address: u16) -> [u8; 8]
    ensures { result ≡ flat_map hex_byte (row_fields address) }
{
    let [a, b] = hex_of_byte((address / 256) as u8);
    let [c, d] = hex_of_byte((address % 256) as u8);
    [b'1', b'0', a, b, c, d, b'0', b'0']
}

/// The line of a data record of sixteen bytes at an address.
#[inline(always)]
pub(crate) fn row_line(address: u16, content: &[u8; 16]) -> [u8; ROW_LINE_SIZE]
    ensures { result ≡ data_line address content.now }
{
    let (first, second) = hex_of_sixteen(content);
    let mut line = [b'\n'; ROW_LINE_SIZE];
    let sum = sum_byte_of_row(address, content);
    line[SUM_PLACE..LINE_END_PLACE].copy_from_slice(&hex_of_byte(sum));
    line[SECOND_HALF_PLACE..SUM_PLACE].copy_from_slice(&second);
    line[FIRST_HALF_PLACE..SECOND_HALF_PLACE].copy_from_slice(&first);
    line[FIELDS_PLACE..FIRST_HALF_PLACE].copy_from_slice(&hex_of_fields(address));
    line[0] = b':';
    line
}

/// The eight digits of the fields of a row's line: its count, its address and its type.
#[inline(always)]
fn fields_in(line: &[u8; ROW_LINE_SIZE]) -> [u8; 8]
    ensures { result ≡ chunk fields_place 8 line.now }
{
    u8x8::from_slice(&line[FIELDS_PLACE..]).to_array()
}

/// Sixteen bytes of a line from a place on.
#[inline(always)]
fn sixteen_in(line: &[u8; ROW_LINE_SIZE], at: usize) -> [u8; 16]
    requires { at + 16 ≤ row_line_size }
    ensures { result ≡ chunk at 16 line.now }
{
    u8x16::from_slice(&line[at..]).to_array()
}

/// A data record of sixteen bytes, at an address within its block.
#[derive(Clone, Copy)]
pub(crate) struct RowRecord {
    pub(crate) address: u16,
    pub(crate) content: [u8; 16],
}

/// The numbers that digits in upper case would show. Nothing is said where others stand there.
#[inline(always)]
fn guess_numbers(digits: u8x16) -> u8x16 {
    (digits & u8x16::splat(15)) + (digits >> 6) * u8x16::splat(9)
}

/// The bytes that 32 digits in upper case would show.
#[inline(always)]
fn guess_bytes(first: [u8; 16], second: [u8; 16]) -> [u8; 16] {
    let first = guess_numbers(u8x16::from_array(first));
    let second = guess_numbers(u8x16::from_array(second));
    let high = first.shuffle(
        second,
        [0, 2, 4, 6, 8, 10, 12, 14, 16, 18, 20, 22, 24, 26, 28, 30],
    );
    let low = first.shuffle(
        second,
        [1, 3, 5, 7, 9, 11, 13, 15, 17, 19, 21, 23, 25, 27, 29, 31],
    );
    ((high << 4) + low).to_array()
}

/// The number that a digit in upper case would show.
#[inline(always)]
fn guess_number(digit: u8) -> u16
    ensures { result < 16 }
{
    u16::from((digit & 15) + (digit >> 6) * 9) % 16
}

/// The row that the places of a row's line give, of any bytes there: `is_row_line` says whether the line is that row's.
#[inline(always)]
fn guess_row(line: &[u8; ROW_LINE_SIZE]) -> RowRecord {
    let address = 4096 * guess_number(line[ADDRESS_PLACE])
        + 256 * guess_number(line[ADDRESS_PLACE + 1])
        + 16 * guess_number(line[ADDRESS_PLACE + 2])
        + guess_number(line[ADDRESS_PLACE + 3]);
    let first = sixteen_in(line, FIRST_HALF_PLACE);
    let second = sixteen_in(line, SECOND_HALF_PLACE);
    RowRecord {
        address,
        content: guess_bytes(first, second),
    }
}

/// True only where a line is that of a data record of sixteen bytes at an address. It is compared piece by piece.
#[inline(always)]
fn is_row_line(line: &[u8; ROW_LINE_SIZE], address: u16, content: &[u8; 16]) -> bool
    ensures { IsTrue result → line.now ≡ data_line address content.now }
{
    if line[0] != b':' || line[LINE_END_PLACE] != b'\n' {
        return false;
    }
    let (first, second) = hex_of_sixteen(content);
    if sixteen_in(line, FIRST_HALF_PLACE) != first {
        return false;
    }
    if sixteen_in(line, SECOND_HALF_PLACE) != second {
        return false;
    }
    if fields_in(line) != hex_of_fields(address) {
        return false;
    }
    [line[SUM_PLACE], line[SUM_PLACE + 1]] == hex_of_byte(sum_byte_of_row(address, content))
}

/// The row whose line a text begins with, in the form in which this crate writes it, and the text after that line.
/// `None` says nothing of the text.
#[inline(always)]
pub(crate) fn first_row(text: &[u8]) -> Option<(RowRecord, &[u8])>
    ensures line { IfSome result (λ r. text.now ≡ data_line r.0.address r.0.content ++ r.1.now) }
    ensures content { IfSome result (λ r. length r.0.content ≡ row_size) }
    ensures bytes { IfSome result (λ r. AreBytes r.0.content) }
    ensures shorter { IfSome result (λ r. length r.1.now < length text.now) }
{
    let (line, rest) = text.split_first_chunk::<ROW_LINE_SIZE>()?;
    let row = guess_row(line);
    if !is_row_line(line, row.address, &row.content) {
        return None;
    }
    are_bytes(&row.content);
    Some((row, rest))
}
