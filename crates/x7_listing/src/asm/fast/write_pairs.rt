//! A write of one word read at once: its two lines are compared with a row of the tables from which they are listed.
//! `None` promises nothing: what is left is read line by line.
ghost use Rattle.std.specs.Prelude.{◌≡◌, ◌<◌, ◌≤◌, ◌+◌, take, IfSome};
ghost use Rattle.std.specs.Simd.Lanes.{chunk, mask_l, zip2};
ghost use Rattle.x7_text.specs.Appends.{HasSpareRoom};
ghost use Rattle.x7_text.specs.Row.{bytes_row_size};
ghost use Rattle.x7_regs.specs.Register.{reg_number_count};
ghost use Rattle.x7_regs.specs.Command.{command_code_count};
ghost use Rattle.x7_listing.specs.Fast.AtOnce.{row_text};
ghost use Rattle.x7_listing.specs.Fast.Looking.{AppendsFoundLines, bytes_differ};

use super::quick::{LOOK_SIZE, WholeLines};
use crate::asm::reading::put_two_words;
use crate::line::{TEXT_SIZE_AT, command_row, write_row};
use std::simd::prelude::*;
use x7_packets::type1_write_header;
use x7_regs::Reg;
use x7_text::word_of_hex;

/// The factor by which the first four bytes of a name, as a number whose lowest byte is the first, give its place in a
/// table of 64: the highest six of the product's low 32 bits. No two registers have one place, nor two commands.
/// `bench/name_tables.py` makes the tables.
const SPREAD_FACTOR: u32 = 0x3F20_35EB;

/// Where the register's name stands in a line `write NAME 1`.
const REGISTER_NAME_AT: usize = 6;

/// Where the command's name stands in the lines `write CMD 1` and `cmd NAME`.
const COMMAND_NAME_AT: usize = 16;

/// The register numbers by the places of their names, of which a space ends the short ones. A place of no name has 0.
#[rattlefmt::skip]
static REGISTERS: [u8; 64] = [
     0,  0,  0, 25, 24,  1,  2, 30,  0,  0,  5,  0, 12, 21,  0,  0,
    26,  0,  0, 11,  0,  0, 16,  0,  0, 10,  0,  0,  0, 17, 27,  6,
     0,  0,  0, 18,  0, 31,  3,  0, 23,  0,  0, 28,  8, 14,  0,  0,
    19, 13,  9,  0,  0,  7,  0,  0,  0, 29,  4, 15,  0, 22,  0, 20,
];

/// The codes of the commands by the places of their names, of which a line end ends the short one. A place of no name
/// has 0.
#[rattlefmt::skip]
static COMMANDS: [u8; 64] = [
     0,  0,  0,  0, 12,  0,  0,  0,  8,  0,  0,  0,  0, 19,  0,  0,
     0,  0,  0,  2,  0,  0,  0, 17,  0,  0,  0,  7,  0, 16,  0,  0,
     3,  0, 11, 10,  4, 18,  0,  0, 13,  0,  0,  0,  0,  0,  0,  0,
     0,  6,  0,  1,  0,  0, 15,  0,  0,  9,  0,  0,  0,  0,  0,  5,
];

/// The number below 32 that a table has for the name from `at` on; where no name stands there, any number.
#[inline(always)]
fn number_at(table: &[u8; 64], text: &[u8; LOOK_SIZE], at: usize) -> u8
    requires { at + 4 ≤ LOOK_SIZE }
    ensures { result < 32 }
{
    let name = u32::from_le_bytes([text[at], text[at + 1], text[at + 2], text[at + 3]]);
    table[(name.wrapping_mul(SPREAD_FACTOR) >> 26) as usize] & 31
}

/// A bit for each of the first 32 bytes that differs from that of a row, that of the first byte lowest.
#[inline(always)]
pub(crate) fn differences(text: &[u8; LOOK_SIZE], row: &[u8; 32]) -> u64
    ensures { result ≡ mask_l (zip2 bytes_differ (chunk 0 32 text.now) row.now) }
{
    u8x32::from_slice(text)
        .simd_ne(u8x32::from_array(*row))
        .to_bitmask()
}

/// How many bytes the text of a table's row has, if the text begins with it.
#[inline(always)]
fn matched_size(text: &[u8; LOOK_SIZE], row: &[u8; 32]) -> Option<usize>
    ensures { IfSome result (λ size. (size ≤ 32) × (take size text.now ≡ row_text row.now)) }
{
    let size = row[TEXT_SIZE_AT] as usize;
    if size > 32 || (differences(text, row).trailing_zeros() as usize) < size {
        return None;
    }
    Some(size)
}

/// Appends the bytes of a write of one word to this register, if its two lines begin the text.
#[inline(always)]
fn read_word_pair(out: &mut Vec<u8>, text: &[u8; LOOK_SIZE], register: u8) -> Option<WholeLines>
    requires register { register < reg_number_count }
    requires room { HasSpareRoom out.old bytes_row_size }
    ensures { AppendsFoundLines text.now out.old out.new result }
{
    let Some(size) = matched_size(text, write_row(register)) else {
        return None;
    };
    if text[size + 8] != b'\n' {
        return None;
    }
    let Some(word) = word_of_hex(&text[size..size + 8]) else {
        return None;
    };
    put_two_words(out, type1_write_header(register, 1), word);
    Some(WholeLines {
        size: size + 9,
        count: 2,
    })
}

/// Appends the bytes of a write of this code to CMD, if its two lines begin the text.
#[inline(always)]
fn read_command_pair(out: &mut Vec<u8>, text: &[u8; LOOK_SIZE], code: u32) -> Option<WholeLines>
    requires code { code < command_code_count }
    requires room { HasSpareRoom out.old bytes_row_size }
    ensures { AppendsFoundLines text.now out.old out.new result }
{
    let Some(size) = matched_size(text, command_row(code)) else {
        return None;
    };
    put_two_words(out, type1_write_header(Reg::Cmd.number(), 1), code);
    Some(WholeLines { size, count: 2 })
}

/// Appends the bytes of a write of one word, if its two lines begin the text.
#[inline(always)]
pub(crate) fn read_pair(out: &mut Vec<u8>, text: &[u8; LOOK_SIZE]) -> Option<WholeLines>
    requires room { HasSpareRoom out.old bytes_row_size }
    ensures { AppendsFoundLines text.now out.old out.new result }
{
    let register = number_at(&REGISTERS, text, REGISTER_NAME_AT);
    if register == Reg::Cmd.number() {
        read_command_pair(
            out,
            text,
            u32::from(number_at(&COMMANDS, text, COMMAND_NAME_AT)),
        )
    } else {
        read_word_pair(out, text, register)
    }
}
