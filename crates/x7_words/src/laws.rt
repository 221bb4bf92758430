//! The law of words. The function does nothing: its contract is the law.
ghost use Rattle.byteorder.specs.Endian.{big_bytes, big_number};
ghost use Rattle.std.specs.Prelude.{◌≡◌, ◌≤◌, ℕ, List, length};
ghost use Rattle.x7_words.specs.Word.{bytes_of_word, word_of_bytes};

/// A word of four bytes is their big-endian number, whatever bytes follow, and its bytes are those of the number.
pub fn words_are_big_endian()
    ensures word { (bytes : List ℕ) → 4 ≤ length bytes → word_of_bytes bytes ≡ big_number 4 bytes }
    ensures bytes { (word : ℕ) → bytes_of_word word ≡ big_bytes 4 word }
{}
