//! Digits read back: the bytes that they would stand for are written out again and compared, so that only digits are
//! taken.
ghost use Rattle.std.specs.Prelude.{◌≡◌, ◌≢◌, ℕ, List, ◌<◌, ◌≤◌, ◌*◌, ◌^◌, length, map, take, slice_index, MatchOption};
ghost use Rattle.std.specs.List.{flat_map};
ghost use Rattle.std.specs.Simd.Lanes.{Each1};
ghost use Rattle.x7_words.specs.Word.{AreBytes};
ghost use Rattle.x7_text.specs.Digits.{hex_byte, hex_word, IsDecimalBelow};
ghost use Rattle.x7_text.specs.DigitValue.{bytes_value, digit_value, pairs_value};

use crate::block::{hex_of_block, hex_of_four};
use itoa::Buffer;
use std::simd::prelude::*;
use x7_words::{is_same, word_of};

/// The numbers that eight digits stand for.
#[inline(always)]
fn numbers_of_eight(digits: u8x8) -> u8x8
    requires lanes { length digits ≡ 8 }
    requires bytes { Each1 (λ c. c < 256) digits }
    ensures { result ≡ map digit_value digits }
{
    (digits & u8x8::splat(15)) + (digits >> 6) * u8x8::splat(9)
}

/// The bytes of four pairs of halves, which are below 16 where they are of digits, the high one first.
#[inline(always)]
fn bytes_of_four_pairs(halves: u8x8) -> u8x4
    requires { length halves ≡ 8 }
    ensures { result ≡ pairs_value halves }
{
    let high = halves.shuffle(halves, [0, 2, 4, 6]);
    let low = halves.shuffle(halves, [1, 3, 5, 7]);
    (high << 4) + low
}

/// The bytes of eight digits, if they are digits.
#[inline(always)]
fn bytes_of_eight(digits: &[u8; 8]) -> [u8; 4]
    ensures value { result ≡ bytes_value digits.now }
    ensures bytes { (i : ℕ) → slice_index result i < 256 }
{
    bytes_of_four_pairs(numbers_of_eight(u8x8::from_array(*digits))).to_array()
}

/// The word of eight upper-case digits, the highest first: `None` for any other text.
pub fn word_of_hex(digits: &[u8]) -> Option<u32>
    ensures { MatchOption result ((w : ℕ) → w < 2 ^ 32 → digits.now ≢ hex_word w) (λ w. digits.now ≡ hex_word w) }
{
    if digits.len() != 8 {
        return None;
    }
    let (eights, _) = digits.as_chunks::<8>();
    let [eight] = eights else {
        return None;
    };
    let bytes = bytes_of_eight(eight);
    if hex_of_four(&bytes) == *eight {
        return Some(word_of(bytes));
    }
    None
}

/// The number of 32 bits that these are the decimal digits of, without leading zeros: `None` where there is none.
pub fn number_of_decimal(digits: &[u8]) -> Option<u32>
    ensures { IsDecimalBelow (2 ^ 32) digits.now result }
{
    if digits.len() == 1 && digits[0].is_ascii_digit() {
        return Some(u32::from(digits[0] - b'0'));
    }
    let Ok(text) = std::str::from_utf8(digits) else {
        return None;
    };
    let Ok(number) = text.parse::<u32>() else {
        return None;
    };
    let mut buffer = Buffer::new();
    if is_same(buffer.format(number).as_bytes(), digits) {
        Some(number)
    } else {
        None
    }
}

/// The number below the limit that these are the decimal digits of, without leading zeros: `None` where there is none.
pub fn decimal_below(digits: &[u8], limit: u32) -> Option<u32>
    ensures { IsDecimalBelow limit digits.now result }
{
    let Some(number) = number_of_decimal(digits) else {
        return None;
    };
    if number < limit { Some(number) } else { None }
}

/// The numbers that 64 digits stand for.
#[inline(always)]
fn numbers_of(digits: u8x64) -> u8x64
    requires lanes { length digits ≡ 64 }
    requires bytes { Each1 (λ c. c < 256) digits }
    ensures { result ≡ map digit_value digits }
{
    (digits & u8x64::splat(15)) + (digits >> 6) * u8x64::splat(9)
}

/// The bytes of 32 pairs of halves, which are below 16 where they are of digits, the high one first.
#[inline(always)]
fn bytes_of_halves(halves: u8x64) -> u8x32
    requires { length halves ≡ 64 }
    ensures { result ≡ pairs_value halves }
{
    let high = halves.shuffle(
        halves,
        [
            0, 2, 4, 6, 8, 10, 12, 14, 16, 18, 20, 22, 24, 26, 28, 30, 32, 34, 36, 38, 40, 42, 44,
            46, 48, 50, 52, 54, 56, 58, 60, 62,
        ],
    );
    let low = halves.shuffle(
        halves,
        [
            1, 3, 5, 7, 9, 11, 13, 15, 17, 19, 21, 23, 25, 27, 29, 31, 33, 35, 37, 39, 41, 43, 45,
            47, 49, 51, 53, 55, 57, 59, 61, 63,
        ],
    );
    (high << 4) + low
}

/// The bytes of 64 digits, if they are digits.
#[inline(always)]
pub(crate) fn bytes_of_digits(digits: &[u8; 64]) -> [u8; 32]
    ensures value { result ≡ bytes_value digits.now }
    ensures length { length result ≡ 32 }
    ensures bytes { (i : ℕ) → slice_index result i < 256 }
{
    bytes_of_halves(numbers_of(u8x64::from_array(*digits))).to_array()
}

/// The 32 bytes of 64 upper-case digits, the higher of each byte first: `None` where one is no such digit.
#[inline(always)]
pub fn block_of_hex(digits: &[u8; 64]) -> Option<[u8; 32]>
    ensures { MatchOption result ((bs : List ℕ) → AreBytes bs → digits.now ≢ flat_map hex_byte bs) (λ bs. digits.now ≡ flat_map hex_byte bs) }
{
    let bytes = bytes_of_digits(digits);
    if hex_of_block(&bytes) == *digits {
        Some(bytes)
    } else {
        None
    }
}

/// How many of the first bytes of two blocks are the same.
#[inline(always)]
fn same_prefix_size(a: &[u8; 64], b: &[u8; 64]) -> usize
    ensures most { result ≤ 64 }
    ensures same { take result a.now ≡ take result b.now }
    ensures longest { (n : ℕ) → n ≤ 64 → take n a.now ≡ take n b.now → n ≤ result }
{
    let differ = u8x64::from_array(*a)
        .simd_ne(u8x64::from_array(*b))
        .to_bitmask();
    differ.trailing_zeros() as usize
}

/// The digits that a block begins with.
#[derive(Clone, Copy)]
pub struct HexPrefix {
    /// The bytes that the digits stand for, and other bytes after them.
    pub bytes: [u8; 32],
    /// How many digits are known to begin the block, from 0 to 64: no whole pair is missed, an odd last one may be.
    pub digit_count: usize,
}

/// The upper-case digits that a block begins with, maybe none: no pair of digits is missed.
#[inline(always)]
pub fn prefix_of_hex(block: &[u8; 64]) -> HexPrefix
    ensures most { result.digit_count ≤ 64 }
    ensures length { length result.bytes ≡ 32 }
    ensures bytes { AreBytes result.bytes }
    ensures digits { take result.digit_count block.now ≡ take result.digit_count (flat_map hex_byte result.bytes) }
    ensures longest { (bs : List ℕ) → AreBytes bs → 2 * length bs ≤ 64 → take (2 * length bs) block.now ≡ flat_map hex_byte bs → 2 * length bs ≤ result.digit_count }
{
    let bytes = bytes_of_digits(block);
    HexPrefix {
        bytes,
        digit_count: same_prefix_size(block, &hex_of_block(&bytes)),
    }
}
