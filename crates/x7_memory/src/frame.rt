//! A frame by its bytes.
ghost use Rattle.std.specs.Prelude.{◌≡◌, ◌≤◌, ◌*◌, length, vec_capacity};
ghost use Rattle.x7_words.specs.Word.{AreWholeWords, words_of_bytes};

use byteorder::{BigEndian, ByteOrder};

/// Makes the vector, which has room for them, hold the words of a frame, four of these bytes each, the highest first.
pub fn set_frame(frame: &mut Vec<u32>, bytes: &[u8])
    requires whole { AreWholeWords bytes.now }
    requires room { length bytes.now ≤ 4 * vec_capacity frame.old }
    ensures words { frame.new.items ≡ words_of_bytes bytes.now }
    ensures room { vec_capacity frame.old ≤ vec_capacity frame.new }
{
    let Ok(()) = frame.resize(bytes.len() / 4, 0) else {
        unreachable!()
    };
    BigEndian::read_u32_into(bytes, frame);
}
