//! The line of a `.bit` header, written.
ghost use Rattle.std.specs.Prelude.{◌≡◌, ◌∷◌, [], ◌++◌, IfOk, OnOk};
ghost use Rattle.std.specs.List.{flat_map};
ghost use Rattle.x7_header.specs.Header.{contents_of};
ghost use Rattle.x7_text.specs.Digits.{hex_byte};
ghost use Rattle.x7_listing.specs.BitLine.{bit_text, field_text};
ghost use Rattle.x7_words.specs.Characters.{line_end_byte, space_byte};

use std::alloc::Global;
use x7_header::Head;
use x7_text::{hex_of_byte, put_number, put_text};
use x7_words::NoMemory;

/// Appends two hexadecimal digits for each byte.
fn append_digits(text: &mut Vec<u8>, bytes: &[u8]) -> Result<(), NoMemory>
    ensures { OnOk result (text.new.items ≡ text.old.items ++ flat_map hex_byte bytes.now) }
{
    for byte in bytes {
        put_text(text, &hex_of_byte(*byte))?;
    }
    Ok(())
}

/// Appends the digits of a field, or `-` where it holds nothing, and a space.
fn append_field(text: &mut Vec<u8>, field: &[u8]) -> Result<(), NoMemory>
    ensures { OnOk result (text.new.items ≡ text.old.items ++ (field_text field.now ++ space_byte ∷ [])) }
{
    if field.is_empty() {
        return put_text(text, b"- ");
    }
    append_digits(text, field)?;
    put_text(text, b" ")
}

/// Appends the line of a `.bit` header, with its end.
fn append_header(text: &mut Vec<u8>, head: &Head<'_>) -> Result<(), NoMemory>
    ensures { OnOk result (text.new.items ≡ text.old.items ++ bit_text (contents_of head.now) ++ line_end_byte ∷ []) }
{
    put_text(text, b"bit ")?;
    append_field(text, head.a)?;
    append_field(text, head.b)?;
    append_field(text, head.c)?;
    append_field(text, head.d)?;
    put_number(text, u64::from(head.length))
}

/// The line of a `.bit` header, with its end (this project's choice). The header's size in bytes (`head.size`) is not
/// in it.
pub fn header_line(alloc: Global, head: &Head<'_>) -> Result<Vec<u8>, NoMemory>
    ensures { IfOk result (λ text. text.items ≡ bit_text (contents_of head.now) ++ line_end_byte ∷ []) }
{
    let mut text = Vec::new(alloc);
    append_header(&mut text, head)?;
    Ok(text)
}
