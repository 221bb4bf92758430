//! The line of a header, read back.
ghost use Rattle.std.specs.Prelude.{◌≡◌, ◌≢◌, ℕ, List, ◌∷◌, ◌++◌, ◌≤◌, vec_len, IfOk, IfSome, MatchOption};
ghost use Rattle.std.specs.List.{flat_map};
ghost use Rattle.x7_words.specs.Word.{AreBytes};
ghost use Rattle.x7_header.specs.Header.{HeaderContents, longest_header};
ghost use Rattle.x7_text.specs.Digits.{hex_byte};
ghost use Rattle.x7_listing.specs.BitLine.{bit_text, field_text, AreNoTwoFields, AreTextsOfFields, IsCutAtSpace, IsField, IsBitLine, IsHeaderOf, IsTextOfField, FitsHeader};
ghost use Rattle.x7_words.specs.Characters.{space_byte};

use memchr::memchr;
use std::alloc::Global;
use x7_header::{Head, LONGEST_TEXT, write_header};
use x7_text::{after, make_room, number_of_decimal, read_byte_row};
use x7_words::{NoMemory, is_same};

/// The bytes of a text of pairs of hexadecimal digits; `None` for any other text.
fn bytes_of_pairs(alloc: Global, digits: &[u8]) -> Result<Option<Vec<u8>>, NoMemory>
    ensures { IfOk result (λ found. MatchOption found ((bs : List ℕ) → AreBytes bs → digits.now ≢ flat_map hex_byte bs)
        (λ bytes. AreBytes bytes.items × (digits.now ≡ flat_map hex_byte bytes.items))) }
{
    let mut bytes = Vec::new(alloc);
    let mut rest = digits;
    while !rest.is_empty() {
        let (row, more) = rest.split_at(rest.len().min(64));
        make_room(&mut bytes, 32)?;
        if !read_byte_row(&mut bytes, row) {
            return Ok(None);
        }
        rest = more;
    }
    Ok(Some(bytes))
}

/// The bytes that a header's field holds, by its text: digits, or `-` for none; `None` for any other text.
fn header_field_of(alloc: Global, text: &[u8]) -> Result<Option<Vec<u8>>, NoMemory>
    ensures { IfOk result (λ found. MatchOption found ((field : List ℕ) → IsField field → text.now ≢ field_text field)
        (λ field. IsTextOfField text.now field.items)) }
{
    if is_same(text, b"-") {
        return Ok(Some(Vec::new(alloc)));
    }
    if text.is_empty() || text.len() > 2 * LONGEST_TEXT {
        return Ok(None);
    }
    bytes_of_pairs(alloc, text)
}

/// The text before the first space, and the text after it; `None` where no space stands.
fn at_space(text: &[u8]) -> Option<(&[u8], &[u8])>
    ensures { MatchOption result ((word rest : List ℕ) → text.now ≢ word ++ space_byte ∷ rest) (λ parts. IsCutAtSpace text.now parts.0.now parts.1.now) }
{
    let Some(at) = memchr(b' ', text) else {
        return None;
    };
    Some((&text[..at], &text[at + 1..]))
}

/// The bytes that two fields hold, by their texts; `None` where one of these is no field's text.
fn two_fields(
    alloc: Global,
    text: &[u8],
    other: &[u8],
) -> Result<Option<(Vec<u8>, Vec<u8>)>, NoMemory>
    ensures { IfOk result (λ found. MatchOption found (AreNoTwoFields text.now other.now)
        (λ fields. AreTextsOfFields text.now other.now fields.0.items fields.1.items)) }
{
    let Some(first) = header_field_of(alloc, text)? else {
        return Ok(None);
    };
    let Some(second) = header_field_of(alloc, other)? else {
        return Ok(None);
    };
    Ok(Some((first, second)))
}

/// What a header's line has in the places of its fields: four texts, and the length of the data in bytes.
#[derive(Clone, Copy)]
struct FieldTexts<'t> {
    a: &'t [u8],
    b: &'t [u8],
    c: &'t [u8],
    d: &'t [u8],
    length: u32,
}

/// The texts in the places of a header's fields, and the length of the data; `None` where the line has no such places,
/// or the length is no decimal number of 32 bits.
fn field_texts(line: &[u8]) -> Option<FieldTexts<'_>>
    ensures { MatchOption result ((x : HeaderContents) → FitsHeader x → line.now ≢ bit_text x)
        (λ texts. IsBitLine line.now texts.a.now texts.b.now texts.c.now texts.d.now texts.length) }
{
    let Some(fields) = after(line, b"bit ") else {
        return None;
    };
    let Some((a, rest)) = at_space(fields) else {
        return None;
    };
    let Some((b, rest)) = at_space(rest) else {
        return None;
    };
    let Some((c, rest)) = at_space(rest) else {
        return None;
    };
    let Some((d, digits)) = at_space(rest) else {
        return None;
    };
    let Some(length) = number_of_decimal(digits) else {
        return None;
    };
    Some(FieldTexts { a, b, c, d, length })
}

/// The header whose line this is, as bytes; `None` where the text is no header's line.
pub(crate) fn header_of_line(alloc: Global, line: &[u8]) -> Result<Option<Vec<u8>>, NoMemory>
    ensures found { IfOk result (λ found. MatchOption found ((x : HeaderContents) → FitsHeader x → line.now ≢ bit_text x)
        (λ bytes. IsHeaderOf line.now bytes.items)) }
    ensures most { IfOk result (λ found. IfSome found (λ bytes. vec_len bytes ≤ longest_header)) }
{
    let Some(texts) = field_texts(line) else {
        return Ok(None);
    };
    let Some((a, b)) = two_fields(alloc, texts.a, texts.b)? else {
        return Ok(None);
    };
    let Some((c, d)) = two_fields(alloc, texts.c, texts.d)? else {
        return Ok(None);
    };
    let head = Head {
        a: &a,
        b: &b,
        c: &c,
        d: &d,
        length: texts.length,
        size: 0,
    };
    Ok(Some(write_header(alloc, &head)?))
}
