//! Reading a header, field by field.
ghost use Rattle.std.specs.Prelude.{◌≡◌, ◌≢◌, ◌↔◌, IsOkAnd, IsErrOf, ◌≤◌, ◌++◌, ℕ, List, length, IfOk, Ok};
ghost use Rattle.x7_header.specs.Header.{BeginsWith, HeaderContents, FitHeaderFields, EndsInHeader, HasOtherLetterAt, contents_of, fixed_bytes, header_bytes, longest_header};
ghost use Rattle.x7_header.specs.Reading.{ReturnsAs, header_fields_at, header_at};

use crate::fault::HeaderFault;
use crate::field::{after_fixed_bytes, number_field, text_field};
use crate::header::Head;

/// What a header holds, read from the bytes after its fixed ones, of an input of `total` bytes.
fn read_fields(bytes: &[u8], total: usize) -> Result<Head<'_>, HeaderFault>
    requires { length bytes.now ≤ total }
    ensures { ReturnsAs (λ head. (contents_of head, head.size)) result (header_fields_at total bytes.now) }
{
    let (a, rest) = text_field(bytes, b'a', total)?;
    let (b, rest) = text_field(rest, b'b', total)?;
    let (c, rest) = text_field(rest, b'c', total)?;
    let (d, rest) = text_field(rest, b'd', total)?;
    let (length, rest) = number_field(rest, b'e', total)?;
    Ok(Head {
        a,
        b,
        c,
        d,
        length,
        size: total - rest.len(),
    })
}

/// The header at the beginning of the bytes, or by `HeaderFault` why there is none. What follows it is not looked at.
pub fn header_of(bytes: &[u8]) -> Result<Head<'_>, HeaderFault>
    // What is read is the header that stands at the beginning, with its size.
    ensures found { IfOk result (λ head. BeginsWith (contents_of head) head.size bytes.now) }
    // A header has at most 262,170 bytes.
    ensures most { IfOk result (λ head. head.size ≤ longest_header) }
    // Each header that stands at the beginning is read, whatever follows it.
    ensures complete { (x : HeaderContents) (rest : List ℕ) → FitHeaderFields x → bytes.now ≡ header_bytes x ++ rest →
        IsOkAnd result (λ head. contents_of head ≡ x) }
    // `Raw` comes exactly where the input doesn't begin with the fixed bytes.
    ensures raw { IsErrOf result HeaderFault.Raw ↔ ((rest : List ℕ) → bytes.now ≢ fixed_bytes ++ rest) }
    // `Cut` comes, with the input's length, exactly where the input begins some header, has its fixed bytes, and ends
    // inside it.
    ensures cut { (place : ℕ) → IsErrOf result (HeaderFault.Cut place) ↔ (place ≡ length bytes.now) × EndsInHeader bytes.now }
    // `Field` comes exactly where the bytes before the place begin a header, a letter is due there, and another byte
    // stands there.
    ensures field { (place : ℕ) → IsErrOf result (HeaderFault.Field place) ↔ HasOtherLetterAt bytes.now place }
    // Which header or which fault it is, field by field.
    ensures exact { ReturnsAs (λ head. (contents_of head, head.size)) result (header_at bytes.now) }
{
    read_fields(after_fixed_bytes(bytes)?, bytes.len())
}
