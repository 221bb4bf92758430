//! The fields of a header one by one, for a caller who reads an input piece by piece.
//!
//! Each call reads at the beginning of what is left of an input; `total` is how many bytes the input has, or how many
//! of it were read so far. A `Cut` is final only where the input has ended.
ghost use Rattle.std.specs.Prelude.{◌≡◌, ◌≤◌, ◌<◌, ◌+◌, ◌++◌, ℕ, List, length, IfOk, Ok, Err};
ghost use Rattle.x7_words.specs.Word.{bytes_of_word, word_of_bytes};
ghost use Rattle.x7_header.specs.Reading.{ReturnsAs, after_letter, first_bytes, field_at, after_fixed_bytes, number_of_letter, text_of_letter};

use crate::fault::HeaderFault;
use crate::header::FIXED_BYTES;
use x7_words::word_of;

/// The bytes after the thirteen fixed ones, or `Raw` where the bytes don't begin with these.
pub(crate) fn after_fixed_bytes(bytes: &[u8]) -> Result<&[u8], HeaderFault>
    ensures value { ReturnsAs (λ rest. rest.now) result (after_fixed_bytes bytes.now) }
    // The fixed bytes are there whatever bytes come after these.
    ensures whole { IfOk result (λ x. (rest : List ℕ) → after_fixed_bytes (bytes.now ++ rest) ≡ Ok (x.now ++ rest)) }
{
    if !bytes.starts_with(&FIXED_BYTES) {
        return Err(HeaderFault::Raw);
    }
    Ok(&bytes[FIXED_BYTES.len()..])
}

/// The bytes after the letter that is due at the beginning: `Cut` where there is no byte, `Field` where another stands.
fn after_letter(bytes: &[u8], letter: u8, total: usize) -> Result<&[u8], HeaderFault>
    requires { length bytes.now ≤ total }
    ensures { ReturnsAs (λ rest. rest.now) result (after_letter total letter bytes.now) }
{
    match bytes {
        [] => Err(HeaderFault::Cut(total)),
        [first, rest @ ..] if *first == letter => Ok(rest),
        _ => Err(HeaderFault::Field(total - bytes.len())),
    }
}

/// The first `count` bytes and those after them, or `Cut` where there are fewer.
fn first_bytes(bytes: &[u8], count: usize, total: usize) -> Result<(&[u8], &[u8]), HeaderFault>
    ensures { ReturnsAs (λ x. (x.0.now, x.1.now)) result (first_bytes total count bytes.now) }
{
    if bytes.len() < count {
        return Err(HeaderFault::Cut(total));
    }
    Ok(bytes.split_at(count))
}

/// The text of the field of this letter, and the bytes after the field. `Field` where another byte than the letter
/// stands first; `Cut` where the bytes end inside the field, also where there are none.
#[tactic(auto, unfolding(crate::specs::Reading::field_at))]
pub(crate) fn text_field(
    bytes: &[u8],
    letter: u8,
    total: usize,
) -> Result<(&[u8], &[u8]), HeaderFault>
    requires { length bytes.now ≤ total }
    ensures value { ReturnsAs (λ x. (x.0.now, x.1.now)) result
        (field_at total (text_of_letter letter) bytes.now) }
    // The bytes after the field are no more than there were.
    ensures within { IfOk result (λ x. length x.1.now ≤ length bytes.now) }
    // A field that is whole is judged alike whatever bytes come after these.
    ensures whole { IfOk result (λ x. (all : ℕ) (rest : List ℕ) →
        field_at all (text_of_letter letter) (bytes.now ++ rest)
        ≡ Ok (x.0.now, x.1.now ++ rest)) }
{
    match after_letter(bytes, letter, total)? {
        [high, low, rest @ ..] => {
            first_bytes(rest, usize::from(*high) * 256 + usize::from(*low), total)
        }
        _ => Err(HeaderFault::Cut(total)),
    }
}

/// The number of the field of this letter, of four bytes with the highest first, and the bytes after the field. `Field`
/// where another byte than the letter stands first; `Cut` where the bytes end inside the field, also where there are
/// none.
#[tactic(auto, unfolding(crate::specs::Reading::field_at))]
pub(crate) fn number_field(
    bytes: &[u8],
    letter: u8,
    total: usize,
) -> Result<(u32, &[u8]), HeaderFault>
    requires { length bytes.now ≤ total }
    ensures value { ReturnsAs (λ x. (bytes_of_word x.0, x.1.now)) result
        (field_at total (number_of_letter letter) bytes.now) }
    // The number's four bytes give the number again, as those of each number do: the proof of a whole header cites it.
    ensures word { IfOk result (λ x. word_of_bytes (bytes_of_word x.0) ≡ x.0) }
    // The bytes after the field are no more than there were.
    ensures within { IfOk result (λ x. length x.1.now ≤ length bytes.now) }
    // A field that is whole is judged alike whatever bytes come after these.
    ensures whole { IfOk result (λ x. (all : ℕ) (rest : List ℕ) →
        field_at all (number_of_letter letter) (bytes.now ++ rest)
        ≡ Ok (bytes_of_word x.0, x.1.now ++ rest)) }
{
    let (number, rest) = first_bytes(after_letter(bytes, letter, total)?, 4, total)?;
    Ok((word_of([number[0], number[1], number[2], number[3]]), rest))
}
