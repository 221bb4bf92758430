//! Writing a header, field by field.
ghost use Rattle.std.specs.Prelude.{◌≡◌, ◌<◌, ◌^◌, ◌∷◌, ◌++◌, length, IfOk, Ok, ℕ, List};
ghost use Rattle.x7_header.specs.Reading.{header_at};
ghost use Rattle.x7_header.specs.Header.{FieldKind, HeaderContents, FitHeaderFields, bytes_of_count, contents_of, header_bytes};

use crate::header::{FIXED_BYTES, Head};
use std::alloc::Global;
use x7_words::{NoMemory, bytes_of};

/// What stands in a header before a text: the letter of its field, and its count in two bytes, the highest first.
fn before_text(letter: u8, text: &[u8]) -> [u8; 3]
    requires { length text.now < 2 ^ 16 }
    ensures { result ≡ letter ∷ bytes_of_count FieldKind.Counted text.now }
{
    let count = text.len();
    [letter, (count / 256) as u8, (count % 256) as u8]
}

/// The bytes of the header with what a head holds, whose `size` is not looked at; an error is want of memory alone.
pub fn write_header(alloc: Global, head: &Head<'_>) -> Result<Vec<u8>, NoMemory>
    requires { FitHeaderFields (contents_of head.now) }
    ensures bytes { IfOk result (λ out. out.items ≡ header_bytes (contents_of head.now)) }
    // What is written is read again, whatever follows it.
    ensures back { (rest : List ℕ) → header_at (header_bytes (contents_of head.now) ++ rest)
        ≡ Ok (contents_of head.now, length (header_bytes (contents_of head.now))) }
    // No head with other contents has these bytes.
    ensures one_head { (x : HeaderContents) → FitHeaderFields x →
        header_bytes x ≡ header_bytes (contents_of head.now) → x ≡ contents_of head.now }
{
    let a = before_text(b'a', head.a);
    let b = before_text(b'b', head.b);
    let c = before_text(b'c', head.c);
    let d = before_text(b'd', head.d);
    let length = bytes_of(head.length);
    let pieces: [&[u8]; 11] = [
        &FIXED_BYTES,
        &a,
        head.a,
        &b,
        head.b,
        &c,
        head.c,
        &d,
        head.d,
        b"e",
        &length,
    ];
    Ok(pieces.concat(alloc)?)
}
