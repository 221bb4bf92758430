//! Rows of digits: the bytes of a `bytes` line and the words of a `data` line.
ghost use Rattle.std.specs.Prelude.{◌≡◌, ℕ, List, ◌≤◌, ◌+◌, ◌*◌, ◌/◌, ◌++◌, length, take, drop};
ghost use Rattle.std.specs.List.{flat_map};
ghost use Rattle.std.specs.Simd.{first_chunks};
ghost use Rattle.x7_words.specs.Word.{bytes_of_word};
ghost use Rattle.x7_text.specs.Digits.{hex_byte};
ghost use Rattle.x7_text.specs.Row.{IsByteRow, IsWordRow, bytes_row_size, spaced};
ghost use Rattle.x7_text.specs.Appends.{HasSpareRoom};
ghost use Rattle.x7_text.specs.Reads.{AppendsIfRead, StaysWithin};

use crate::block::{data_line, hex_of_block};
use crate::reading::{bytes_of_digits, word_of_hex};
use crate::room::put;
use x7_words::{bytes_of, is_same};

/// Up to 64 digits, and digits 0 after them.
fn padded(digits: &[u8]) -> [u8; 64]
    requires { length digits.now ≤ 64 }
    ensures { take (length digits.now) result ≡ digits.now }
{
    let mut all = [b'0'; 64];
    all[..digits.len()].copy_from_slice(digits);
    all
}

/// Appends the bytes of one to 32 pairs of upper-case digits, the higher first. For any other text it appends nothing
/// and answers `false`.
pub fn read_byte_row(out: &mut Vec<u8>, digits: &[u8]) -> bool
    requires { HasSpareRoom out.old bytes_row_size }
    ensures reads { AppendsIfRead IsByteRow (flat_map hex_byte) (λ (bs : List ℕ). bs) result digits.now out.old.items out.new.items }
    ensures room { StaysWithin out.old out.new bytes_row_size }
{
    let count = digits.len() / 2;
    if count == 0 || digits.len() > 64 || digits.len() != 2 * count {
        return false;
    }
    let bytes = bytes_of_digits(&padded(digits));
    if !is_same(&hex_of_block(&bytes)[..digits.len()], digits) {
        return false;
    }
    put(out, &bytes[..count]);
    true
}

/// Writes the eight digits of a word's text, which a space begins, from digit `at` on.
#[inline(always)]
fn write_digits(digits: &mut [u8; 64], at: usize, word: &[u8; 9])
    requires { at + 8 ≤ 64 }
    ensures { take (at + 8) digits.new ≡ take at digits.old ++ drop 1 word.now }
{
    digits[at..at + 8].copy_from_slice(&word[1..]);
}

/// The digits of up to eight words, before each of which a byte for a space stands in the text, and other digits after
/// them.
#[inline(always)]
fn gathered(text: &[u8]) -> [u8; 64]
    requires { length text.now ≤ 72 }
    ensures length { length result ≡ 64 }
    ensures digits { take (8 * (length text.now / 9)) result ≡ flat_map (drop 1) (first_chunks 9 (length text.now / 9) text.now) }
{
    let (words, _) = text.as_chunks::<9>();
    let mut digits = [b'0'; 64];
    for (k, word) in words.iter().enumerate() {
        write_digits(&mut digits, 8 * k, word);
    }
    digits
}

/// Appends the four bytes of one word, the highest first, where a space and its eight upper-case digits stand. Else it
/// appends nothing and answers `false`.
#[inline(always)]
fn read_one_word(out: &mut Vec<u8>, text: &[u8]) -> bool
    requires room { HasSpareRoom out.old bytes_row_size }
    requires length { length text.now ≡ 9 }
    ensures reads { AppendsIfRead IsWordRow (flat_map spaced) (flat_map bytes_of_word) result text.now out.old.items out.new.items }
    ensures room { StaysWithin out.old out.new bytes_row_size }
{
    if text[0] != b' ' {
        return false;
    }
    match word_of_hex(&text[1..]) {
        Some(word) => {
            put(out, &bytes_of(word));
            true
        }
        None => false,
    }
}

/// Appends the bytes of one to eight words, the highest of each first, where a space and eight upper-case digits stand
/// for each. For any other text it appends nothing and answers `false`.
pub fn read_word_row(out: &mut Vec<u8>, text: &[u8]) -> bool
    requires { HasSpareRoom out.old bytes_row_size }
    ensures reads { AppendsIfRead IsWordRow (flat_map spaced) (flat_map bytes_of_word) result text.now out.old.items out.new.items }
    ensures room { StaysWithin out.old out.new bytes_row_size }
{
    if text.len() == 9 {
        return read_one_word(out, text);
    }
    let count = text.len() / 9;
    if count == 0 || text.len() > 72 || text.len() != 9 * count {
        return false;
    }
    let bytes = bytes_of_digits(&gathered(text));
    if !is_same(&data_line(&bytes)[4..4 + text.len()], text) {
        return false;
    }
    put(out, &bytes[..4 * count]);
    true
}
