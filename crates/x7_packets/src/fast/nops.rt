//! Equal words in a row, as no-ops are (UG470, packet types).
ghost use Rattle.std.specs.Prelude.{◌≡◌, ◌≤◌, ◌*◌, length, take, IsTrue};
ghost use Rattle.x7_packets.specs.Nops.{equal_bytes};

use std::simd::prelude::*;
use x7_words::{bytes_of, word_of};

/// How many words a block has.
const BLOCK_WORDS: usize = 8;

/// How many bytes a block has.
const BLOCK_SIZE: usize = 32;

/// How many of the first words are `word`, one after the other, counted word by word.
#[inline(always)]
fn count_words(bytes: &[u8], word: u32) -> usize
    ensures within { 4 * result ≤ length bytes.now }
    ensures equal { take (4 * result) bytes.now ≡ equal_bytes word result }
{
    let (words, _) = bytes.as_chunks::<4>();
    for (i, next) in words.iter().enumerate() {
        if word_of(*next) != word {
            return i;
        }
    }
    words.len()
}

/// A block that has no word but `word`.
#[inline(always)]
fn block_of(word: u32) -> [u8; BLOCK_SIZE]
    ensures { result ≡ equal_bytes word BLOCK_WORDS }
{
    let mut block = [0; BLOCK_SIZE];
    block.copy_from_slice([bytes_of(word); BLOCK_WORDS].as_flattened());
    block
}

/// True only for equal blocks, compared at once; that equal ones give true is not promised.
#[inline(always)]
fn are_equal(a: &[u8; BLOCK_SIZE], b: &[u8; BLOCK_SIZE]) -> bool
    ensures { IsTrue result → a.now ≡ b.now }
{
    u8x32::from_array(*a)
        .simd_ne(u8x32::from_array(*b))
        .to_bitmask()
        == 0
}

/// How many of the first blocks have no word but `word`, one after the other.
#[inline(always)]
fn count_blocks(bytes: &[u8], word: u32) -> usize
    ensures within { BLOCK_SIZE * result ≤ length bytes.now }
    ensures equal { take (BLOCK_SIZE * result) bytes.now ≡ equal_bytes word (BLOCK_WORDS * result) }
{
    let block = block_of(word);
    let (blocks, _) = bytes.as_chunks::<BLOCK_SIZE>();
    for (i, next) in blocks.iter().enumerate() {
        if !are_equal(next, &block) {
            return i;
        }
    }
    blocks.len()
}

/// How many of the first words are `word`, one after the other. That the next one isn't is not promised.
#[inline(always)]
pub(crate) fn count_equal(bytes: &[u8], word: u32) -> usize
    ensures within { 4 * result ≤ length bytes.now }
    ensures equal { take (4 * result) bytes.now ≡ equal_bytes word result }
{
    let near = count_words(&bytes[..bytes.len().min(BLOCK_SIZE)], word);
    if near < BLOCK_WORDS {
        return near;
    }
    let blocks = count_blocks(bytes, word);
    BLOCK_WORDS * blocks + count_words(&bytes[BLOCK_SIZE * blocks..], word)
}
