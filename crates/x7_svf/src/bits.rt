//! The bits of a scan.
ghost use Rattle.std.specs.Prelude.{◌≡◌, ◌<◌, ◌+◌, ◌*◌, ◌/◌, ◌%◌, ◌^◌, ◌==◌, ℕ, length, take, drop};
ghost use Rattle.std.specs.List.{slice_get};
ghost use Rattle.x7_words.specs.Characters.{digit_number};
ghost use Rattle.x7_svf.specs.Bits.{bit_of, bits_from, bits_of, byte_bits, bytes_bits, mirrored_digit};

use arrayvec::ArrayVec;
use std::marker::Model;

/// The most bytes that a scan gives at once.
const MOST_BYTES_AT_ONCE: usize = 1024;

/// Some bits, lowest first, lent as the hexadecimal digits that a text gives for them.
#[derive(Drop)]
pub struct Bits<'t> {
    // how many bits there are
    count: u32,
    // the digits, the first the highest
    digits: &'t [u8],
}

impl<'t> Model for Bits<'t> {
    ghost use Rattle.std.specs.Prelude.{List, Bool};
    ghost use Rattle.x7_svf.specs.Bits.{bits_of};

    ghost Value = { List Bool };

    ghost view = { λ b. bits_of b.count b.digits.now };
}

/// The number of a hexadecimal digit.
pub(crate) fn digit_number(digit: u8) -> u8
    ensures { result ≡ digit_number digit }
{
    // by arithmetic: the digits of a scan are as good as random, and a jump over them would be guessed wrongly
    let decimal = u8::from(digit <= b'9');
    let not_lower = u8::from(digit <= b'F');
    digit.saturating_sub(87 - 32 * not_lower - 7 * decimal)
}

/// Bit `index`, from 0, of digits, of which the last one has the four lowest bits; 0 past the first digit.
fn bit_of(digits: &[u8], index: u32) -> bool
    ensures { result ≡ bit_of digits.now index }
{
    let place = (index / 4) as usize;
    if place >= digits.len() {
        return false;
    }
    (digit_number(digits[digits.len() - 1 - place]) >> (index % 4)) % 2 == 1
}

/// The four bits of the digit at this place, where the last digit stands at 0; 0 past the first digit.
fn four_bits(digits: &[u8], place: usize) -> u8
    ensures bits { (k : ℕ) → k < 4 → (result / 2 ^ k % 2 == 1) ≡ bit_of digits.now (4 * place + k) }
    ensures most { result < 16 }
{
    if place >= digits.len() {
        return 0;
    }
    digit_number(digits[digits.len() - 1 - place]) % 16
}

/// Four bits, the lowest of which becomes the highest.
fn mirrored_digit(bits: u8) -> u8
    ensures value { result ≡ mirrored_digit bits }
    ensures most { result < 16 }
{
    bits % 2 * 8 + bits / 2 % 2 * 4 + bits / 4 % 2 * 2 + bits / 8 % 2
}

/// The byte of the eight bits from bit `at` on, a multiple of four, the first of which is the highest.
fn byte_from(digits: &[u8], at: u32) -> u8
    requires whole { at % 4 ≡ 0 }
    ensures { byte_bits result ≡ bits_from digits.now at 8 }
{
    let place = (at / 4) as usize;
    let first = four_bits(digits, place);
    let second = four_bits(digits, place + 1);
    mirrored_digit(first) * 16 + mirrored_digit(second)
}

/// The bytes of the bits of digits from bit `from` on, a multiple of eight, where more than eight of the `count` bits
/// are left: one byte at least and 1,024 at most, and the last bit is in none of them. The first of eight bits is the
/// highest of its byte.
fn bytes_of(digits: &[u8], count: u32, from: u32) -> ArrayVec<u8, MOST_BYTES_AT_ONCE>
    requires whole { from % 8 ≡ 0 }
    requires more_than_a_byte { from + 8 < count }
    ensures at_least_one { 0 < length result.items }
    ensures within { from + 8 * length result.items < count }
    ensures bits { bytes_bits result.items ≡ bits_from digits.now from (8 * length result.items) }
{
    let mut piece: ArrayVec<u8, MOST_BYTES_AT_ONCE> = ArrayVec::new();
    let mut at = from;
    while !piece.is_full() && count - at > 8 {
        piece.push(byte_from(digits, at));
        at += 8;
    }
    piece
}

impl<'t> Bits<'t> {
    /// The `count` lowest bits of digits.
    pub(crate) fn new(count: u32, digits: &'t [u8]) -> Bits<'t>
        ensures { result ≡ bits_of count digits.now }
    {
        Bits { count, digits }
    }

    /// How many bits there are.
    pub fn len(&self) -> u32
        ensures { result ≡ length self.now }
    {
        self.count
    }

    /// Bit `index`, from 0; `None` past the last one.
    pub fn bit(&self, index: u32) -> Option<bool>
        ensures { result ≡ slice_get self.now index }
    {
        if index >= self.count {
            return None;
        }
        Some(bit_of(self.digits, index))
    }

    /// The bytes of the bits from bit `from` on, a multiple of eight, where more than eight bits are left: one byte at
    /// least and 1,024 at most. The last bit is in none of them, as it goes out by itself. The first of eight bits is
    /// the highest of its byte.
    pub fn bytes_from(&self, from: u32) -> ArrayVec<u8, MOST_BYTES_AT_ONCE>
        requires whole { from % 8 ≡ 0 }
        requires more_than_a_byte { from + 8 < length self.now }
        ensures at_least_one { 0 < length result.items }
        ensures within { from + 8 * length result.items < length self.now }
        ensures bits { bytes_bits result.items ≡ take (8 * length result.items) (drop from self.now) }
    {
        bytes_of(self.digits, self.count, from)
    }
}
