//! The running check (UG470, cyclic redundancy check): of one write, and of whole words to one register.
ghost use Rattle.std.specs.Prelude.{◌≡◌, ◌<◌, ◌++◌, List, [], ◌∷◌, bit_xor, length};
ghost use Rattle.x7_crc.specs.Check.{check_after, check_after_one, check_of, writes_to};
ghost use Rattle.std.specs.List.{flat_map};
ghost use Rattle.x7_words.specs.Word.{AreWholeWords, words_of_bytes};
ghost use Rattle.x7_regs.specs.Register.{reg_number_count};
ghost use Rattle.x7_packets.specs.CheckedWrites.{RegisterWrite, write_to};

use crate::table::{check_of_zeros, fold_by_tables, fold_four};
use x7_words::word_of;

/// The check after one more write, of a word to the register with this number, for any check before it. A check begins
/// as 0.
pub fn fold(before: u32, register: u8, word: u32) -> u32
    requires { register < reg_number_count }
    ensures value { result ≡ check_after_one before register word }
    ensures goes_on { (writes : List RegisterWrite) → before ≡ check_of writes → result ≡ check_of (writes ++ write_to register word ∷ []) }
    ensures linear { result ≡ check_after_one 0 register (bit_xor word before) }
{
    fold_by_tables(before, register, word)
}

/// The check after writes of whole words to one register, in order, for any check before them. The words are given as
/// bytes, the highest of each first.
pub fn fold_slice(before: u32, register: u8, bytes: &[u8]) -> u32
    requires register { register < reg_number_count }
    requires whole { AreWholeWords bytes.now }
    ensures value { result ≡ check_after before (writes_to register (words_of_bytes bytes.now)) }
    ensures goes_on { (writes : List RegisterWrite) → before ≡ check_of writes → result ≡ check_of (writes ++ writes_to register (words_of_bytes bytes.now)) }
{
    let (blocks, rest) = bytes.as_chunks::<16>();
    fold_words(fold_blocks(before, register, blocks), register, rest)
}

/// The check after writes of the words of blocks to one register, in order: a block is 16 bytes, four words.
fn fold_blocks(before: u32, register: u8, blocks: &[[u8; 16]]) -> u32
    requires register { register < reg_number_count }
    ensures { result ≡ check_after before (writes_to register (flat_map words_of_bytes blocks.now)) }
{
    // What the register's number adds to four writes, worked out once.
    let zeros = check_of_zeros(register);
    let mut folded = before;
    for block in blocks {
        let [first, second, third, last] = words_of(block);
        folded = fold_four(folded, zeros, first, second, third, last);
    }
    folded
}

/// The check after writes of whole words to one register, four bytes each, taken word by word.
#[tactic(auto, using(x7_words::proofs::WordLemmas::words_by_chunks))]
fn fold_words(before: u32, register: u8, bytes: &[u8]) -> u32
    requires { register < reg_number_count }
    ensures { result ≡ check_after before (writes_to register (words_of_bytes bytes.now)) }
{
    let (words, _) = bytes.as_chunks::<4>();
    let mut check = before;
    for word in words {
        check = fold_by_tables(check, register, word_of(*word));
    }
    check
}

/// The four words of a block.
fn words_of(block: &[u8; 16]) -> [u32; 4]
    ensures value { result ≡ words_of_bytes block.now }
    ensures length { length result ≡ 4 }
{
    let [a, b, c, d, e, f, g, h, i, j, k, l, m, n, o, p] = *block;
    [
        word_of([a, b, c, d]),
        word_of([e, f, g, h]),
        word_of([i, j, k, l]),
        word_of([m, n, o, p]),
    ]
}
