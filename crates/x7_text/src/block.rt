//! Lines of 32 bytes at once: their digits in vector registers, and the line in an array.
ghost use Rattle.std.specs.Prelude.{◌≡◌, ◌<◌, ◌≤◌, ◌+◌, ◌*◌, ◌/◌, ◌%◌, ◌^◌, ◌++◌, [], ◌∷◌, length, take, map, codes};
ghost use Rattle.std.specs.List.{flat_map};
ghost use Rattle.std.specs.Simd.Lanes.{Each1, chunk};
ghost use Rattle.x7_text.specs.Digits.{hex_byte, hex_digit};
ghost use Rattle.x7_text.specs.Row.{line, spaced, data_line_size};
ghost use Rattle.x7_words.specs.Word.{words_of_bytes};

use std::simd::prelude::*;

/// The sixteen digits, once for each sixteen lanes of a block.
const DIGITS: [u8; 64] = *b"0123456789ABCDEF0123456789ABCDEF0123456789ABCDEF0123456789ABCDEF";

/// The upper-case digits of 64 numbers below 16, each looked up.
#[inline(always)]
fn hex_digits(numbers: u8x64) -> u8x64
    requires lanes { length numbers ≡ 64 }
    requires below { Each1 (λ n. n < 16) numbers }
    ensures { result ≡ map hex_digit numbers }
{
    u8x64::from_array(DIGITS).swizzle_dyn_within::<16>(numbers)
}

/// The two halves of each byte, the high one first.
#[inline(always)]
fn halves_of(bytes: u8x32) -> u8x64
    requires { length bytes ≡ 32 }
    ensures { result ≡ flat_map (λ b. b / 2 ^ 4 ∷ b % 2 ^ 4 ∷ []) bytes }
{
    let (high, low) = (bytes >> 4, bytes & u8x32::splat(15));
    high.shuffle(
        low,
        [
            0, 32, 1, 33, 2, 34, 3, 35, 4, 36, 5, 37, 6, 38, 7, 39, 8, 40, 9, 41, 10, 42, 11, 43,
            12, 44, 13, 45, 14, 46, 15, 47, 16, 48, 17, 49, 18, 50, 19, 51, 20, 52, 21, 53, 22, 54,
            23, 55, 24, 56, 25, 57, 26, 58, 27, 59, 28, 60, 29, 61, 30, 62, 31, 63,
        ],
    )
}

/// The two upper-case digits of each of 32 bytes.
#[inline(always)]
pub fn hex_of_block(bytes: &[u8; 32]) -> [u8; 64]
    ensures { result ≡ flat_map hex_byte bytes.now }
{
    hex_digits(halves_of(u8x32::from_array(*bytes))).to_array()
}

/// The two upper-case digits of each of up to 32 bytes, and other digits after them.
#[inline(always)]
pub(crate) fn hex_of_short_block(bytes: &[u8]) -> [u8; 64]
    requires { length bytes.now ≤ 32 }
    ensures { take (2 * length bytes.now) result ≡ flat_map hex_byte bytes.now }
{
    let mut block = [0; 32];
    block[..bytes.len()].copy_from_slice(bytes);
    hex_of_block(&block)
}

/// The upper-case digits of eight numbers below 16.
#[inline(always)]
fn eight_hex_digits(numbers: u8x8) -> u8x8
    requires lanes { length numbers ≡ 8 }
    requires below { Each1 (λ n. n < 16) numbers }
    ensures { result ≡ map hex_digit numbers }
{
    let is_letter = numbers.simd_gt(u8x8::splat(9));
    numbers + is_letter.select(u8x8::splat(b'A' - 10), u8x8::splat(b'0'))
}

/// The two halves of each of four bytes, the high one first.
#[inline(always)]
fn halves_of_four(bytes: u8x4) -> u8x8
    requires { length bytes ≡ 4 }
    ensures { result ≡ flat_map (λ b. b / 2 ^ 4 ∷ b % 2 ^ 4 ∷ []) bytes }
{
    let (high, low) = (bytes >> 4, bytes & u8x4::splat(15));
    high.shuffle(low, [0, 4, 1, 5, 2, 6, 3, 7])
}

/// The two upper-case digits of each of four bytes.
#[inline(always)]
pub(crate) fn hex_of_four(bytes: &[u8; 4]) -> [u8; 8]
    ensures { result ≡ flat_map hex_byte bytes.now }
{
    eight_hex_digits(halves_of_four(u8x4::from_array(*bytes))).to_array()
}

/// The upper-case digits of sixteen numbers below 16.
#[inline(always)]
fn sixteen_hex_digits(numbers: u8x16) -> u8x16
    requires lanes { length numbers ≡ 16 }
    requires below { Each1 (λ n. n < 16) numbers }
    ensures { result ≡ map hex_digit numbers }
{
    let is_letter = numbers.simd_gt(u8x16::splat(9));
    numbers + is_letter.select(u8x16::splat(b'A' - 10), u8x16::splat(b'0'))
}

/// The two upper-case digits of each of sixteen bytes: those of the first eight bytes, and those of the others.
#[inline(always)]
pub fn hex_of_sixteen(bytes: &[u8; 16]) -> ([u8; 16], [u8; 16])
    ensures { result.0 ++ result.1 ≡ flat_map hex_byte bytes.now }
{
    let lanes = u8x16::from_array(*bytes);
    let (high, low) = (lanes >> 4, lanes & u8x16::splat(15));
    let first = high.shuffle(
        low,
        [0, 16, 1, 17, 2, 18, 3, 19, 4, 20, 5, 21, 6, 22, 7, 23],
    );
    let second = high.shuffle(
        low,
        [8, 24, 9, 25, 10, 26, 11, 27, 12, 28, 13, 29, 14, 30, 15, 31],
    );
    (
        sixteen_hex_digits(first).to_array(),
        sixteen_hex_digits(second).to_array(),
    )
}

/// How many bytes of text a full `data` line has, with its line end.
pub(crate) const DATA_LINE_SIZE: usize = 77;

/// How many bytes of text a full `bytes` line has, with its line end.
pub(crate) const BYTES_LINE_SIZE: usize = 71;

/// How many bytes five vectors of sixteen have, in which a `data` line is put together.
const WIDE_LINE_SIZE: usize = 80;

/// What a `data` line has beside digits: its keyword, a space and the line end.
const BESIDE: [u8; 16] = *b"data \n          ";

/// Sixteen of the 64 digits of a block, from digit `at` on, counted from 0.
#[inline(always)]
fn sixteen_of(digits: &[u8; 64], at: usize) -> u8x16
    requires { at + 16 ≤ 64 }
    ensures { result ≡ chunk at 16 digits.now }
{
    u8x16::from_slice(&digits[at..])
}

/// The `data` line of eight words, with its line end, and three bytes after it: five vectors of sixteen bytes, each put
/// together from one or two vectors of digits, and then from what stands beside digits.
#[rattlefmt::skip]
#[inline(always)]
fn wide_line(bytes: &[u8; 32]) -> [u8; WIDE_LINE_SIZE]
    ensures length { length result ≡ WIDE_LINE_SIZE }
    ensures line { take data_line_size result ≡ line (codes "data") spaced (words_of_bytes bytes.now) }
{
    let digits = hex_of_block(bytes);
    let (a, b) = (sixteen_of(&digits, 0), sixteen_of(&digits, 16));
    let (c, d) = (sixteen_of(&digits, 32), sixteen_of(&digits, 48));
    let beside = u8x16::from_array(BESIDE);
    let first = a
        .shuffle(beside, [16, 17, 18, 19, 20,  0,  1,  2,  3,  4,  5,  6,  7, 20,  8,  9]);
    let second = a
        .shuffle(b,      [10, 11, 12, 13, 14, 15,  0, 16, 17, 18, 19, 20, 21, 22, 23,  0])
        .shuffle(beside, [ 0,  1,  2,  3,  4,  5, 20,  7,  8,  9, 10, 11, 12, 13, 14, 20]);
    let third = b
        .shuffle(c,      [ 8,  9, 10, 11, 12, 13, 14, 15,  0, 16, 17, 18, 19, 20, 21, 22])
        .shuffle(beside, [ 0,  1,  2,  3,  4,  5,  6,  7, 20,  9, 10, 11, 12, 13, 14, 15]);
    let fourth = c
        .shuffle(d,      [ 7,  0,  8,  9, 10, 11, 12, 13, 14, 15,  0, 16, 17, 18, 19, 20])
        .shuffle(beside, [ 0, 20,  2,  3,  4,  5,  6,  7,  8,  9, 20, 11, 12, 13, 14, 15]);
    let last = d
        .shuffle(beside, [ 5,  6,  7, 20,  8,  9, 10, 11, 12, 13, 14, 15, 21, 21, 21, 21]);
    let mut text = [b'\n'; WIDE_LINE_SIZE];
    first.copy_to_slice(&mut text);
    second.copy_to_slice(&mut text[16..]);
    third.copy_to_slice(&mut text[32..]);
    fourth.copy_to_slice(&mut text[48..]);
    last.copy_to_slice(&mut text[64..]);
    text
}

/// The `data` line of eight words, with its line end. The words are given as bytes, the highest of each first.
#[inline(always)]
pub fn data_line(bytes: &[u8; 32]) -> [u8; DATA_LINE_SIZE]
    ensures { result ≡ line (codes "data") spaced (words_of_bytes bytes.now) }
{
    let mut text = [0; DATA_LINE_SIZE];
    text.copy_from_slice(&wide_line(bytes)[..DATA_LINE_SIZE]);
    text
}

/// The `bytes` line of 32 bytes, with its line end.
#[inline(always)]
pub fn bytes_line(bytes: &[u8; 32]) -> [u8; BYTES_LINE_SIZE]
    ensures { result ≡ line (codes "bytes ") hex_byte bytes.now }
{
    let mut text = [b'\n'; BYTES_LINE_SIZE];
    u8x4::from_array(*b"byte").copy_to_slice(&mut text);
    text[4] = b's';
    text[5] = b' ';
    u8x64::from_array(hex_of_block(bytes)).copy_to_slice(&mut text[6..]);
    text
}
