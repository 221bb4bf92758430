//! The text of a flash's bytes.
ghost use Rattle.std.specs.Prelude.{◌≡◌, ◌≤◌, ◌<◌, ◌+◌, ◌*◌, ◌%◌, ◌++◌, length, vec_capacity, IfOk, Ok};
ghost use Rattle.std.specs.List.{flat_map};
ghost use Rattle.x7_text.specs.Appends.{Appends, HasSpareRoom};
ghost use Rattle.x7_text.specs.Digits.{hex_byte};
ghost use Rattle.x7_text.specs.Row.{rows};
ghost use Rattle.x7_words.specs.Word.{AreBytes};
ghost use Rattle.x7_mcs.specs.Flash.{mcs_of};
ghost use Rattle.x7_words.specs.Flash.{flash_limit};
ghost use Rattle.x7_mcs.specs.Record.{block_size};
ghost use Rattle.x7_mcs.specs.Text.{block_start, data_line, mcs_text, record_line, row_lines, row_size, base_line_size, row_line_size, rows_room};

use crate::record::{BLOCK_SIZE, DATA_TYPE, LINEAR_BASE_TYPE, sum_byte};
use crate::row::{ROW_LINE_SIZE, ROW_SIZE, row_line};
use std::alloc::Global;
use x7_text::{hex_of_byte, put};
use x7_words::NoMemory;

/// How many bytes of text a record 04 has, with its line end.
pub(crate) const BASE_LINE_SIZE: usize = 16;

/// How many bytes of data a record 04 has: those of its base.
const BASE_DATA_SIZE: u8 = 2;

/// The high and the low byte of a record's address, where it gives none.
const NO_ADDRESS: u8 = 0;

/// The record 01, which ends a text.
pub(crate) const END_LINE: &[u8] = b":00000001FF\n";

/// Appends the digits of bytes.
fn put_digits(out: &mut Vec<u8>, bytes: &[u8])
    requires { HasSpareRoom out.old (2 * length bytes.now) }
    ensures { Appends out.old out.new (flat_map hex_byte bytes.now) (2 * length bytes.now) }
{
    for byte in bytes {
        put(out, &hex_of_byte(*byte));
    }
}

/// Appends the line of a record's bytes, those of its fields and its data.
fn put_record_line(out: &mut Vec<u8>, fields: &[u8], content: &[u8])
    requires { HasSpareRoom out.old (2 * length fields.now + 2 * length content.now + 4) }
    ensures { Appends out.old out.new (record_line (fields.now ++ content.now)) (2 * length fields.now + 2 * length content.now + 4) }
{
    put(out, b":");
    put_digits(out, fields);
    put_digits(out, content);
    put(out, &hex_of_byte(sum_byte(fields, content)));
    put(out, b"\n");
}

/// Appends the record 04 where a block begins, and nothing at any other place.
#[inline(always)]
fn put_block_start(out: &mut Vec<u8>, place: u32)
    requires room { HasSpareRoom out.old base_line_size }
    requires within { place < flash_limit }
    ensures { Appends out.old out.new (block_start place) base_line_size }
{
    if place % BLOCK_SIZE == 0 {
        let block = place / BLOCK_SIZE;
        put_record_line(
            out,
            &[
                BASE_DATA_SIZE,
                NO_ADDRESS,
                NO_ADDRESS,
                LINEAR_BASE_TYPE,
                (block / 256) as u8,
                (block % 256) as u8,
            ],
            &[],
        );
    }
}

/// Appends the data record of a row.
#[inline(always)]
fn put_data_line(out: &mut Vec<u8>, address: u16, row: &[u8])
    requires room { HasSpareRoom out.old row_line_size }
    requires row { length row.now ≤ row_size }
    ensures { Appends out.old out.new (data_line address row.now) row_line_size }
{
    let Some(whole) = row.first_chunk::<ROW_SIZE>() else {
        let fields = [
            row.len() as u8,
            (address / 256) as u8,
            (address % 256) as u8,
            DATA_TYPE,
        ];
        put_record_line(out, &fields, row);
        return;
    };
    put(out, &row_line(address, whole));
}

/// Appends the data record of a row, after the record 04 where a block begins.
#[inline(always)]
fn put_row(out: &mut Vec<u8>, place: u32, row: &[u8])
    requires room { HasSpareRoom out.old (base_line_size + row_line_size) }
    requires within { place < flash_limit }
    requires row { length row.now ≤ row_size }
    ensures { Appends out.old out.new (block_start place ++ data_line (place % block_size) row.now) (base_line_size + row_line_size) }
{
    put_block_start(out, place);
    put_data_line(out, (place % BLOCK_SIZE) as u16, row);
}

/// Appends the lines of bytes from a place on, which is a multiple of 16: a data record for each 16 of them, the last
/// of which may have fewer, and a record 04 before one that begins a block. It takes no memory: the text is to have
/// room for four bytes for each of the bytes, and 60 more.
pub fn put_rows(text: &mut Vec<u8>, place: u32, bytes: &[u8])
    requires begins { place % row_size ≡ 0 }
    requires within { place + length bytes.now ≤ flash_limit }
    requires room { HasSpareRoom text.old (rows_room (length bytes.now)) }
    ensures appends { text.new.items ≡ text.old.items ++ row_lines place (rows row_size bytes.now) }
    ensures room { vec_capacity text.old ≤ vec_capacity text.new }
{
    let mut at = place;
    let mut rest = bytes;
    while rest.len() > 0 {
        let (row, more) = rest.split_at(rest.len().min(ROW_SIZE));
        put_row(text, at, row);
        at += row.len() as u32;
        rest = more;
    }
}

/// The text of a flash's bytes (Intel HEX; rows of 16 bytes are this project's choice): a record 04 for each block of
/// 65,536 bytes begun, data records of 16 bytes, the last of which may have fewer, and a record 01.
pub fn mcs_text(alloc: Global, flash: &[u8]) -> Result<Vec<u8>, NoMemory>
    requires { length flash.now ≤ flash_limit }
    ensures text { IfOk result (λ text. text.items ≡ mcs_text flash.now) }
    ensures back { AreBytes flash.now → IfOk result (λ text. mcs_of text.items ≡ Ok flash.now) }
{
    let room = 4 * flash.len() + BASE_LINE_SIZE + ROW_LINE_SIZE + END_LINE.len();
    let mut text = Vec::with_capacity(alloc, room)?;
    put_rows(&mut text, 0, flash);
    text.extend_from_slice(END_LINE)?;
    Ok(text)
}
