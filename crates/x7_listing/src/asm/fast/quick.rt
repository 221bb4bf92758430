//! Lines of a listing that are read at once: rows of words, bytes, writes, and no-ops by eight. An answer `None` or
//! `false` is always allowed here, since `asm/reading` then reads the line: how seldom it comes is a matter of time,
//! which no clause bounds.
ghost use Rattle.std.specs.Prelude.{◌≡◌, ℕ, List, ◌<◌, ◌≤◌, ◌+◌, ◌*◌, ◌++◌, codes, drop, length, slice_index, take, IsTrue};
ghost use Rattle.std.specs.List.{flat_map};
ghost use Rattle.std.specs.Simd.Lanes.{chunk};
ghost use Rattle.x7_text.specs.Appends.{HasSpareRoom};
ghost use Rattle.x7_text.specs.Row.{bytes_row_size, row_words};
ghost use Rattle.x7_words.specs.Characters.{space_byte};
ghost use Rattle.x7_listing.specs.Fast.Looking.{AppendsFoundLines, ReadsAtOnce, words_in_row};

use super::write_pairs::{differences, read_pair};
use crate::asm::reading::{MOST_ROW_SIZE, put_word_bytes, type1_fields_at};
use crate::assembler::ASM_LIMIT;
use crate::line::{BYTES_SIZE, DATA_SIZE, SPACED_WORD_SIZE};
use std::simd::prelude::*;
use x7_packets::type1_write_header;
use x7_text::{prefix_of_hex, put};
use x7_words::is_same;

/// The lines of eight no-ops.
const NOP_LINES: &[u8; 32] = b"nop\nnop\nnop\nnop\nnop\nnop\nnop\nnop\n";

/// The bytes of eight no-ops.
const NOP_BYTES: &[u8; 32] =
    b"\x20\0\0\0\x20\0\0\0\x20\0\0\0\x20\0\0\0\x20\0\0\0\x20\0\0\0\x20\0\0\0\x20\0\0\0";

/// How many bytes of a text are looked at: as many as the longest line that is read at once has, with its end.
pub(crate) const LOOK_SIZE: usize = 77;

/// How many digits the bytes of a full `bytes` line have.
const FULL_DIGITS: usize = 64;

/// How many bytes the word `write` and the space after it have.
const WRITE_SIZE: usize = 6;

/// How many bytes a `write` line with a count of one digit has beside the register's name and the line end.
const BESIDE_NAME_SIZE: usize = WRITE_SIZE + 2;

/// Some whole lines that were read: how many bytes of the text they are, and how many lines.
#[derive(Clone, Copy)]
pub(crate) struct WholeLines {
    pub(crate) size: usize,
    pub(crate) count: u64,
}

/// Appends the bytes of eight no-ops, if their lines begin the text.
#[inline(always)]
fn read_nops(out: &mut Vec<u8>, text: &[u8; LOOK_SIZE]) -> Option<WholeLines>
    requires room { HasSpareRoom out.old bytes_row_size }
    ensures { AppendsFoundLines text.now out.old out.new result }
{
    if (differences(text, NOP_LINES).trailing_zeros() as usize) < 32 {
        return None;
    }
    put(out, NOP_BYTES);
    Some(WholeLines { size: 32, count: 8 })
}

/// Eight bytes of the text from each of two places on.
#[inline(always)]
fn two_eights(text: &[u8], one: usize, other: usize) -> u8x16
    requires one { one + 8 ≤ length text.now }
    requires other { other + 8 ≤ length text.now }
    ensures { result ≡ chunk one 8 text.now ++ chunk other 8 text.now }
{
    let (a, b) = (
        u8x8::from_slice(&text[one..]),
        u8x8::from_slice(&text[other..]),
    );
    a.shuffle(b, [0, 1, 2, 3, 4, 5, 6, 7, 8, 9, 10, 11, 12, 13, 14, 15])
}

/// Sixteen bytes, and sixteen more after them.
#[inline(always)]
fn joined(a: u8x16, b: u8x16) -> u8x32
    requires a { length a ≡ 16 }
    requires b { length b ≡ 16 }
    ensures { result ≡ a ++ b }
{
    a.shuffle(
        b,
        [
            0, 1, 2, 3, 4, 5, 6, 7, 8, 9, 10, 11, 12, 13, 14, 15, 16, 17, 18, 19, 20, 21, 22, 23,
            24, 25, 26, 27, 28, 29, 30, 31,
        ],
    )
}

/// The 64 bytes that stand where a full `data` line has its digits.
#[inline(always)]
fn row_digits(text: &[u8; LOOK_SIZE]) -> [u8; 64]
    ensures { result ≡ flat_map (λ (word : List ℕ). word) (words_in_row text.now 4 8) }
{
    let low = joined(two_eights(text, 5, 14), two_eights(text, 23, 32));
    let high = joined(two_eights(text, 41, 50), two_eights(text, 59, 68));
    let all: u8x64 = low.shuffle(
        high,
        [
            0, 1, 2, 3, 4, 5, 6, 7, 8, 9, 10, 11, 12, 13, 14, 15, 16, 17, 18, 19, 20, 21, 22, 23,
            24, 25, 26, 27, 28, 29, 30, 31, 32, 33, 34, 35, 36, 37, 38, 39, 40, 41, 42, 43, 44, 45,
            46, 47, 48, 49, 50, 51, 52, 53, 54, 55, 56, 57, 58, 59, 60, 61, 62, 63,
        ],
    );
    all.to_array()
}

/// Whether spaces stand where a `data` line of this many words has them.
#[inline(always)]
fn has_spaces(text: &[u8; LOOK_SIZE], count: usize) -> bool
    requires in_row { count ≤ row_words }
    ensures { IsTrue result → (k : ℕ) → k < count → slice_index text.now (DATA_SIZE + SPACED_WORD_SIZE * k) ≡ space_byte }
{
    for k in 0..count {
        if text[DATA_SIZE + SPACED_WORD_SIZE * k] != b' ' {
            return false;
        }
    }
    true
}

/// Whether spaces stand where a `data` line of this many words has them, as `has_spaces` says; a full row, the longest,
/// goes by a call with a constant count, whose loop the compiler unrolls.
#[inline(always)]
fn is_spaced(text: &[u8; LOOK_SIZE], count: usize) -> bool
    requires in_row { count ≤ row_words }
    ensures { IsTrue result → (k : ℕ) → k < count → slice_index text.now (DATA_SIZE + SPACED_WORD_SIZE * k) ≡ space_byte }
{
    if count == 8 {
        return has_spaces(text, 8);
    }
    has_spaces(text, count)
}

/// Whether a text begins with the word `data`.
#[inline(always)]
fn is_data(text: &[u8; LOOK_SIZE]) -> bool
    ensures { IsTrue result → take 4 text.now ≡ codes "data" }
{
    [text[0], text[1], text[2], text[3]] == *b"data"
}

/// Appends the bytes of a `data` line of one to eight words, if one begins the text.
#[inline(always)]
fn read_data_line(out: &mut Vec<u8>, text: &[u8; LOOK_SIZE]) -> Option<WholeLines>
    requires room { HasSpareRoom out.old bytes_row_size }
    ensures { AppendsFoundLines text.now out.old out.new result }
{
    let prefix = prefix_of_hex(&row_digits(text));
    let count = prefix.digit_count / 8;
    if count == 0 || text[DATA_SIZE + SPACED_WORD_SIZE * count] != b'\n' || !is_data(text) {
        return None;
    }
    if !is_spaced(text, count) {
        return None;
    }
    let end = out.len() + 4 * count;
    put(out, &prefix.bytes);
    out.truncate(end);
    Some(WholeLines {
        size: DATA_SIZE + 1 + SPACED_WORD_SIZE * count,
        count: 1,
    })
}

/// Whether a text begins with the word of a `bytes` line and the space after it.
#[inline(always)]
fn is_bytes(text: &[u8; LOOK_SIZE]) -> bool
    ensures { IsTrue result → take 6 text.now ≡ codes "bytes " }
{
    [text[0], text[1], text[2], text[3], text[4], text[5]] == *b"bytes "
}

/// The 64 bytes that stand where a full `bytes` line has its digits.
#[inline(always)]
fn bytes_digits(text: &[u8; LOOK_SIZE]) -> [u8; 64]
    ensures { result ≡ take 64 (drop BYTES_SIZE text.now) }
{
    u8x64::from_slice(&text[BYTES_SIZE..]).to_array()
}

/// Appends the bytes of a `bytes` line, if one begins the text.
#[inline(always)]
fn read_bytes_line(out: &mut Vec<u8>, text: &[u8; LOOK_SIZE]) -> Option<WholeLines>
    requires room { HasSpareRoom out.old bytes_row_size }
    ensures { AppendsFoundLines text.now out.old out.new result }
{
    if !is_bytes(text) {
        return None;
    }
    let prefix = prefix_of_hex(&bytes_digits(text));
    if prefix.digit_count == FULL_DIGITS && text[BYTES_SIZE + FULL_DIGITS] == b'\n' {
        put(out, &prefix.bytes);
        return Some(WholeLines {
            size: BYTES_SIZE + FULL_DIGITS + 1,
            count: 1,
        });
    }
    let count = prefix.digit_count / 2;
    if count == 0
        || prefix.digit_count != 2 * count
        || text[BYTES_SIZE + prefix.digit_count] != b'\n'
    {
        return None;
    }
    let end = out.len() + count;
    put(out, &prefix.bytes);
    out.truncate(end);
    Some(WholeLines {
        size: BYTES_SIZE + 1 + prefix.digit_count,
        count: 1,
    })
}

/// The place of the first byte among 16 that is `byte`, or a place after all of them.
#[inline(always)]
fn place_of(byte: u8, bytes: u8x16) -> usize {
    bytes
        .simd_eq(u8x16::splat(byte))
        .to_bitmask()
        .trailing_zeros() as usize
}

/// Appends the bytes of a `write` line with a count of one digit, if one begins the text.
#[inline(always)]
fn read_write_line(out: &mut Vec<u8>, text: &[u8; LOOK_SIZE]) -> Option<WholeLines>
    requires room { HasSpareRoom out.old bytes_row_size }
    ensures { AppendsFoundLines text.now out.old out.new result }
{
    let space = place_of(b' ', u8x16::from_slice(&text[WRITE_SIZE..]));
    if space > 16
        || !is_same(&text[..WRITE_SIZE], b"write ")
        || text[BESIDE_NAME_SIZE + space] != b'\n'
    {
        return None;
    }
    let Some((register, count)) = type1_fields_at(
        &text[WRITE_SIZE..BESIDE_NAME_SIZE + space],
        space,
    ) else {
        return None;
    };
    put_word_bytes(out, type1_write_header(register, count));
    Some(WholeLines {
        size: BESIDE_NAME_SIZE + space + 1,
        count: 1,
    })
}

/// Appends the bytes of the two lines of a write of one word, or of a `write` line alone, if they begin the text.
#[inline(always)]
fn read_pair_or_line(out: &mut Vec<u8>, text: &[u8; LOOK_SIZE]) -> Option<WholeLines>
    requires room { HasSpareRoom out.old bytes_row_size }
    ensures { AppendsFoundLines text.now out.old out.new result }
{
    match read_pair(out, text) {
        Some(taken) => Some(taken),
        None => read_write_line(out, text),
    }
}

/// Appends the bytes of one or more lines that begin the text, if they are of those that are read at once.
#[inline(always)]
fn read_some(out: &mut Vec<u8>, text: &[u8; LOOK_SIZE]) -> Option<WholeLines>
    requires room { HasSpareRoom out.old bytes_row_size }
    ensures { AppendsFoundLines text.now out.old out.new result }
{
    match text[0] {
        b'd' => read_data_line(out, text),
        b'w' => read_pair_or_line(out, text),
        b'b' => read_bytes_line(out, text),
        b'n' => read_nops(out, text),
        _ => None,
    }
}

/// Appends the bytes of the text's first lines, as far as they are read at once, there is room for them and a further
/// line, and their bytes are within the limit.
pub(crate) fn read_quick(out: &mut Vec<u8>, text: &[u8]) -> WholeLines
    ensures { ReadsAtOnce text.now out.old out.new result }
{
    let mut all = WholeLines { size: 0, count: 0 };
    loop {
        let Ok(()) = out.reserve(2 * MOST_ROW_SIZE) else {
            return all;
        };
        if out.len() > ASM_LIMIT - MOST_ROW_SIZE {
            return all;
        }
        let Some((first, _)) = text[all.size..].split_first_chunk::<LOOK_SIZE>() else {
            return all;
        };
        let Some(taken) = read_some(out, first) else {
            return all;
        };
        all = WholeLines {
            size: all.size + taken.size,
            count: all.count + taken.count,
        };
    }
}
