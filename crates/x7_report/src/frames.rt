//! The lines of frames, and which frames a report shows.
ghost use Rattle.std.specs.Prelude.{◌≡◌, ◌++◌, ◌<◌, ◌+◌, ◌*◌, codes, decimal, slice_index, length, IfOk, OnOk, OnErr};
ghost use Rattle.std.specs.List.{flat_map};
ghost use Rattle.x7_text.specs.Appends.{Appends, HasSpareRoom};
ghost use Rattle.x7_text.specs.Digits.{hex_word};
ghost use Rattle.x7_words.specs.Word.{bytes_of_word};
ghost use Rattle.x7_part.specs.AddressOrder.{addresses_in};
ghost use Rattle.x7_memory.specs.PartFrames.{AreFramesOf, frame_at};
ghost use Rattle.x7_report.specs.Frames.{frame_line_room, frame_line_size, frame_text, has_nonzero_word, line_of_rank, lines_of_ranks, AreRanksShown};

use crate::state::put_named_word;
use std::alloc::Global;
use std::simd::prelude::*;
use x7_memory::{Memory, are_zeros};
use x7_part::{MOST_FRAME_WORDS, Part};
use x7_text::{hex_of_block, hex_of_word, make_room, put, put_number, put_text};
use x7_words::NoMemory;

/// How many digits a word has.
const DIGITS_PER_WORD: usize = 8;

/// How many bytes the line of a frame takes besides the digits of its words: those of `frame `, its address, a blank
/// and a line end.
const LINE_SIZE_WITHOUT_WORDS: usize = 16;

/// The most bytes that the line of a frame takes.
pub(crate) const FRAME_LINE_ROOM: usize = LINE_SIZE_WITHOUT_WORDS
    + DIGITS_PER_WORD * MOST_FRAME_WORDS as usize;

/// The bytes of eight words, the highest of each word first.
#[inline(always)]
fn big_endian_bytes(words: u32x8) -> u8x32
    requires { length words ≡ 8 }
    ensures { result ≡ flat_map bytes_of_word words }
{
    words.to_le_bytes().swizzle([
        3, 2, 1, 0, 7, 6, 5, 4, 11, 10, 9, 8, 15, 14, 13, 12, 19, 18, 17, 16, 23, 22, 21, 20, 27,
        26, 25, 24, 31, 30, 29, 28,
    ])
}

/// The 32 bytes of an array of eight words, the highest byte of each first.
#[inline(always)]
fn bytes_of_words(words: &[u32; 8]) -> [u8; 32]
    ensures { result ≡ flat_map bytes_of_word words.now }
{
    big_endian_bytes(u32x8::from_array(*words)).to_array()
}

/// Appends the digits of eight words.
#[inline(always)]
fn put_eight(out: &mut Vec<u8>, words: &[u32; 8])
    requires { HasSpareRoom out.old (8 * DIGITS_PER_WORD) }
    ensures appends { Appends out.old out.new (flat_map hex_word words.now) (8 * DIGITS_PER_WORD) }
{
    put(out, &hex_of_block(&bytes_of_words(words)));
}

/// Appends the digits of words one by one.
fn put_digits_one_by_one(out: &mut Vec<u8>, words: &[u32])
    requires { HasSpareRoom out.old (DIGITS_PER_WORD * length words.now) }
    ensures appends { Appends out.old out.new (flat_map hex_word words.now) (DIGITS_PER_WORD * length words.now) }
{
    for word in words {
        put(out, &hex_of_word(*word));
    }
}

/// Appends the digits of words that stand eight in a block.
fn put_blocks(out: &mut Vec<u8>, blocks: &[[u32; 8]])
    requires { HasSpareRoom out.old (8 * DIGITS_PER_WORD * length blocks.now) }
    ensures appends { Appends out.old out.new (flat_map (λ block. flat_map hex_word block) blocks.now) (8 * DIGITS_PER_WORD * length blocks.now) }
{
    for block in blocks {
        put_eight(out, block);
    }
}

/// Appends the digits of words.
fn put_digits(out: &mut Vec<u8>, words: &[u32])
    requires { HasSpareRoom out.old (DIGITS_PER_WORD * length words.now) }
    ensures appends { Appends out.old out.new (flat_map hex_word words.now) (DIGITS_PER_WORD * length words.now) }
{
    let (blocks, rest) = words.as_chunks::<8>();
    put_blocks(out, blocks);
    put_digits_one_by_one(out, rest);
}

/// Appends to `out`, which must have room for it, the line of a frame that `frame_line` appends. No memory is taken.
#[tactic(auto, unfolding(crate::specs::Frames::frame_text))]
pub fn put_frame(out: &mut Vec<u8>, far: u32, words: &[u32])
    requires { HasSpareRoom out.old (frame_line_size (length words.now)) }
    ensures appends { Appends out.old out.new (frame_text far words.now) (frame_line_size (length words.now)) }
{
    put_named_word(out, b"frame ", far);
    put(out, b" ");
    put_digits(out, words);
    put(out, b"\n");
}

/// Appends to `out` the line `frame FAR DIGITS` of a frame (this project's choice): its address, and its words one
/// after the other. Each has eight upper-case hexadecimal digits. `NoMemory` leaves `out` as it was.
pub fn frame_line(out: &mut Vec<u8>, far: u32, words: &[u32]) -> Result<(), NoMemory>
    ensures appends { OnOk result (out.new.items ≡ out.old.items ++ frame_text far words.now) }
    ensures unchanged { OnErr result (out.new.items ≡ out.old.items) }
{
    let Some(digits) = words.len().checked_mul(DIGITS_PER_WORD) else {
        return Err(NoMemory);
    };
    let Some(room) = digits.checked_add(LINE_SIZE_WITHOUT_WORDS) else {
        return Err(NoMemory);
    };
    make_room(out, room)?;
    put_frame(out, far, words);
    Ok(())
}

/// Whether the frame of a rank has a word other than 0. `_part` is for the contract alone.
fn is_shown_at(_part: &Part, memory: &Memory, rank: u32) -> bool
    requires part { AreFramesOf _part.now memory.now }
    requires rank { rank < length (addresses_in _part.now) }
    ensures { result ≡ has_nonzero_word (frame_at _part.now memory.now (slice_index (addresses_in _part.now) rank)) }
{
    match memory.frame_at_rank(rank) {
        Some(words) => !are_zeros(words),
        None => false,
    }
}

/// The ranks of the frames that have a word other than 0.
pub(crate) fn shown_ranks(alloc: Global, part: &Part, memory: &Memory) -> Result<Vec<u32>, NoMemory>
    requires { AreFramesOf part.now memory.now }
    ensures { IfOk result (λ ranks. AreRanksShown part.now memory.now (addresses_in part.now) ranks.items) }
{
    let mut ranks = Vec::new(alloc);
    for rank in 0..part.frames() {
        if is_shown_at(part, memory, rank) {
            ranks.push(rank)?;
        }
    }
    Ok(ranks)
}

/// Appends the line of the frame of a rank, and nothing past the last rank. `text` must have room for the longest line
/// of a frame; no memory is taken.
fn put_line(text: &mut Vec<u8>, part: &Part, memory: &Memory, rank: u32)
    requires memory { AreFramesOf part.now memory.now }
    requires room { HasSpareRoom text.old frame_line_room }
    ensures appends { Appends text.old text.new (line_of_rank part.now memory.now rank) frame_line_room }
{
    // For the proof alone: a frame has at most `MOST_FRAME_WORDS` words.
    let _words = part.words();
    match (part.address(rank), memory.frame_at_rank(rank)) {
        (Some(far), Some(words)) => put_frame(text, far, words),
        _ => (),
    }
}

/// Appends the lines of the frames of these ranks. `text` must have room for as many of the longest lines; no memory is
/// taken.
pub(crate) fn put_lines(text: &mut Vec<u8>, part: &Part, memory: &Memory, ranks: &[u32])
    requires memory { AreFramesOf part.now memory.now }
    requires room { HasSpareRoom text.old (frame_line_room * length ranks.now) }
    ensures appends { Appends text.old text.new (lines_of_ranks part.now memory.now ranks.now) (frame_line_room * length ranks.now) }
{
    for rank in ranks {
        put_line(text, part, memory, *rank);
    }
}

/// Appends the line of the number of frames that a report shows.
pub(crate) fn put_frame_count(text: &mut Vec<u8>, count: usize) -> Result<(), NoMemory>
    ensures { OnOk result (text.new.items ≡ text.old.items ++ codes "frames " ++ decimal count ++ codes "\n") }
{
    put_text(text, b"frames ")?;
    put_number(text, count as u64)
}
