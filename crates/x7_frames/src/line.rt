//! One line of a frames text.
ghost use Rattle.std.specs.Prelude.{◌≡◌, ◌≢◌, ℕ, List, ◌+◌, ◌*◌, ◌<◌, ◌≤◌, ◌++◌, length, take, drop, Some, None, MatchBool, MatchOption, vec_capacity};
ghost use Rattle.std.specs.List.{flat_map};
ghost use Rattle.x7_words.specs.Word.{AreBytes};
ghost use Rattle.x7_text.specs.Digits.{hex_byte};
ghost use Rattle.x7_text.specs.EitherCase.{bytes_of_pairs};
ghost use Rattle.x7_memory.specs.Plan.{PlanRow};
ghost use Rattle.x7_part.specs.Limits.{most_frame_words};
ghost use Rattle.x7_frames.specs.FramesText.{HasNoFrameHead, frame_head, IsFrameLine};

use x7_memory::set_frame;
use x7_text::{block_of_hex, read_pairs, word_of_hex};
use x7_words::{are_bytes, is_same};

/// The most bytes of a frame: four for each of its words.
const MOST_FRAME_SIZE: usize = 4 * x7_part::MOST_FRAME_WORDS as usize;

/// How many bytes stand before the digits of a frame's line: `frame`, a space, the eight digits of its address, a
/// space.
pub(crate) const HEAD_SIZE: usize = 15;

/// What stands on a frame's line: its address, and the bytes in the place of its words' digits.
#[derive(Clone, Copy)]
struct FarAndDigits<'t> {
    far: u32,
    digits: &'t [u8],
}

/// The address on a frame's line, and the `digit_count` bytes after its head, digits or not. `None`: the line doesn't
/// begin as that of a frame, or has another count of bytes after its head.
fn far_and_digits_of(line: &[u8], digit_count: usize) -> Option<FarAndDigits<'_>>
    requires { digit_count ≤ 8 * most_frame_words }
    ensures { MatchOption result
        (HasNoFrameHead digit_count line.now)
        (λ found. (line.now ≡ frame_head found.far ++ found.digits.now) × (length found.digits.now ≡ digit_count)) }
{
    if line.len() != HEAD_SIZE + digit_count {
        return None;
    }
    if !is_same(&line[..6], b"frame ") || line[14] != b' ' {
        return None;
    }
    let far = word_of_hex(&line[6..14])?;
    Some(FarAndDigits {
        far,
        digits: &line[HEAD_SIZE..],
    })
}

/// Writes the 32 bytes of a block over those from `at` on.
#[inline(always)]
fn write_block(bytes: &mut [u8], at: usize, block: &[u8])
    requires inside { at + 32 ≤ length bytes.old }
    requires block { length block.now ≡ 32 }
    ensures items { take (at + 32) bytes.new ≡ take at bytes.old ++ block.now }
    ensures length { length bytes.new ≡ length bytes.old }
{
    bytes[at..at + 32].copy_from_slice(block);
}

/// Reads the blocks of 64 upper-case digits that stand first, 32 bytes each, up to the first 64 that are no such block,
/// or to fewer than 64. The answer is the number of bytes read.
fn read_blocks(bytes: &mut [u8], digits: &[u8]) -> usize
    requires { length digits.now ≡ 2 * length bytes.old }
    ensures value { bytes_of_pairs (take (2 * result) digits.now) ≡ Some (take result bytes.new) }
    ensures no_block_follows { result + 32 ≤ length bytes.old → (bs : List ℕ) → AreBytes bs → take 64 (drop (2 * result) digits.now) ≢ flat_map hex_byte bs }
    ensures within { result ≤ length bytes.old }
    ensures length { length bytes.new ≡ length bytes.old }
{
    let (blocks, _) = digits.as_chunks::<64>();
    for (k, block) in blocks.iter().enumerate() {
        let Some(read) = block_of_hex(block) else {
            return 32 * k;
        };
        are_bytes(&read);
        write_block(bytes, 32 * k, &read);
    }
    32 * blocks.len()
}

/// Reads the bytes of digits of either case. `false`: one of them is no digit.
fn read_digits(bytes: &mut [u8], digits: &[u8]) -> bool
    requires { length digits.now ≡ 2 * length bytes.old }
    ensures value { MatchBool result (bytes_of_pairs digits.now ≡ Some bytes.new) (bytes_of_pairs digits.now ≡ None) }
    ensures length { length bytes.new ≡ length bytes.old }
{
    let read = read_blocks(bytes, digits);
    read_pairs(&mut bytes[read..], &digits[2 * read..])
}

/// Reads the line of a frame of `width` words: gives its address and makes `frame`, which has room for them, hold its
/// words. `None`: it is no such line.
pub(crate) fn read_frame(frame: &mut Vec<u32>, width: u32, line: &[u8]) -> Option<u32>
    requires width { width ≤ most_frame_words }
    requires room { width ≤ vec_capacity frame.old }
    ensures value { MatchOption result ((row : PlanRow) → IsFrameLine width line.now row → ⊥) (λ far. IsFrameLine width line.now record { far = far; words = frame.new.items }) }
    ensures room { vec_capacity frame.old ≤ vec_capacity frame.new }
{
    let byte_count = 4 * width as usize;
    let Some(found) = far_and_digits_of(line, 2 * byte_count) else {
        return None;
    };
    let mut room = [0; MOST_FRAME_SIZE];
    let bytes = &mut room[..byte_count];
    if !read_digits(bytes, found.digits) {
        return None;
    }
    set_frame(frame, bytes);
    Some(found.far)
}
