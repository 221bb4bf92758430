//! How many bytes to read next of a header, for a caller who reads an input piece by piece.
ghost use Rattle.std.specs.Prelude.{◌≡◌, ◌<◌, ◌+◌, ◌++◌, ℕ, List, length, IfErr, IfOk, MatchResult, Ok};
ghost use Rattle.x7_header.specs.Header.{EndsInHeader, fixed_size, header_fields};
ghost use Rattle.x7_header.specs.Reading.{FieldWaits, HeaderWaits, HeaderFieldsWait, field_at, fields_lack, wanted, number_lacks, number_of_letter, lack_from_number, text_lacks, text_of_letter, lack_from_text};

use crate::fault::HeaderFault;
use crate::field::{after_fixed_bytes, number_field, text_field};
use crate::header::FIXED_BYTES;

/// How many bytes a prefix of a field of text lacks of the part in which it ends: the letter, the count, or the text.
fn text_lacks(prefix: &[u8]) -> usize
    ensures { result ≡ text_lacks prefix.now }
{
    match prefix {
        [] => 1,
        [_] => 2,
        [_, _] => 1,
        [_, high, low, text @ ..] => {
            (usize::from(*high) * 256 + usize::from(*low)).saturating_sub(text.len())
        }
    }
}

/// How many bytes a prefix of a field of a number lacks of the part in which it ends: the letter, or the four bytes.
fn number_lacks(prefix: &[u8]) -> usize
    ensures { result ≡ number_lacks prefix.now }
{
    match prefix {
        [] => 1,
        [_, number @ ..] => 4usize.saturating_sub(number.len()),
    }
}

/// The bytes after the field of text of this letter, or how many bytes it waits for: 0 where its letter is wrong.
fn after_text(bytes: &[u8], letter: u8) -> Result<&[u8], usize>
    ensures whole { IfOk result (λ rest. (text : List ℕ) × ((total : ℕ) (more : List ℕ) →
        field_at total (text_of_letter letter) (bytes.now ++ more) ≡ Ok (text, rest.now ++ more))) }
    ensures waits { IfErr result (λ lack. FieldWaits (text_of_letter letter) bytes.now lack) }
    ensures lacks { MatchResult result (λ rest. (later : List ℕ → ℕ) → lack_from_text letter bytes.now later ≡ later rest.now)
        (λ lack. (later : List ℕ → ℕ) → lack_from_text letter bytes.now later ≡ lack) }
{
    match text_field(bytes, letter, bytes.len()) {
        Ok((_, rest)) => Ok(rest),
        Err(HeaderFault::Cut(_)) => Err(text_lacks(bytes)),
        Err(_) => Err(0),
    }
}

/// Whether the field of a number of this letter is whole, or how many bytes it waits for: 0 where its letter is wrong.
fn whole_number(bytes: &[u8], letter: u8) -> Result<(), usize>
    ensures waits { IfErr result (λ lack. FieldWaits (number_of_letter letter) bytes.now lack) }
    ensures lacks { MatchResult result
        (λ _. lack_from_number letter bytes.now (λ _. 0) ≡ 0)
        (λ lack. lack_from_number letter bytes.now (λ _. 0) ≡ lack) }
{
    match number_field(bytes, letter, bytes.len()) {
        Ok(_) => Ok(()),
        Err(HeaderFault::Cut(_)) => Err(number_lacks(bytes)),
        Err(_) => Err(0),
    }
}

/// Ok where the fields after the fixed bytes lack nothing; else how many bytes they wait for, 0 at a wrong letter.
fn whole_fields(bytes: &[u8]) -> Result<(), usize>
    ensures waits { IfErr result (λ lack. HeaderFieldsWait bytes.now lack) }
    ensures whole { IfOk result (λ _. fields_lack header_fields bytes.now ≡ 0) }
    ensures lacks { IfErr result (λ lack. fields_lack header_fields bytes.now ≡ lack) }
{
    let rest = after_text(bytes, b'a')?;
    let rest = after_text(rest, b'b')?;
    let rest = after_text(rest, b'c')?;
    let rest = after_text(rest, b'd')?;
    whole_number(rest, b'e')
}

/// How many bytes to read next of an input that begins with these. They complete what is being read of the header: the
/// fixed bytes, or a field's letter, count, text or number. One byte is wanted where nothing is lacked.
pub fn wanted(bytes: &[u8]) -> usize
    ensures not_zero { 0 < result }
    // Where fewer bytes are there than the fixed ones, those that are missing are wanted.
    ensures fixed { length bytes.now < fixed_size → length bytes.now + result ≡ fixed_size }
    // With fewer bytes more the input would still end inside the header, so none is read after it, nor after a wrong
    // letter.
    ensures waits { EndsInHeader bytes.now → HeaderWaits bytes.now result }
    // All that is lacked is wanted at once.
    ensures lacks { result ≡ wanted bytes.now }
{
    if bytes.len() < FIXED_BYTES.len() {
        return FIXED_BYTES.len() - bytes.len();
    }
    let Ok(fields) = after_fixed_bytes(bytes) else {
        return 1;
    };
    match whole_fields(fields) {
        Err(lack) if lack > 0 => lack,
        _ => 1,
    }
}
