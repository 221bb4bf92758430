//! Big-endian words (UG470, bitstream loading).
ghost use Rattle.std.specs.Prelude.{◌≡◌};
ghost use Rattle.x7_words.specs.Word.{bytes_of_word, word_of_bytes};

use byteorder::{BigEndian, ByteOrder};

/// The word of four bytes, the first the highest.
pub fn word_of(bytes: [u8; 4]) -> u32
    ensures value { result ≡ word_of_bytes bytes }
    ensures back { bytes_of_word result ≡ bytes }
{
    BigEndian::read_u32(&bytes)
}

/// The four bytes of a word, the highest first.
pub fn bytes_of(word: u32) -> [u8; 4]
    ensures value { result ≡ bytes_of_word word }
    ensures back { word_of_bytes result ≡ word }
{
    let mut bytes = [0; 4];
    BigEndian::write_u32(&mut bytes, word);
    bytes
}
