//! The fields of a scan.
ghost use Rattle.std.specs.Prelude.{◌≡◌, ◌≤◌, ℕ, List, drop, length, IfSome, Option, Some, None};
ghost use Rattle.x7_words.specs.Characters.{is_hex_digit};
ghost use Rattle.x7_svf.specs.Token.{token_of, token_size};
ghost use Rattle.x7_svf.specs.Fields.{are_hex, field_by_name, scan_fields, with_field};
ghost use Rattle.x7_svf.specs.Scanner.{closed_field, scan_step};
ghost use Rattle.x7_svf.specs.Reading.{ReadsOn, StepsOver};
ghost use Rattle.x7_svf.specs.Source.{tokens_left};
ghost use Rattle.x7_svf.specs.Span.{AreWithin, IsWithin, scan_place_of, bytes_in, span_end, fields_of, fields_if, scanning_of};
ghost use Rattle.x7_svf.specs.Svf.{tokens_before_end};

use crate::source::Source;
use crate::span::Span;
use crate::token::{NextToken, next_within};
use crate::words::is_keyword;

/// A field of a scan.
#[derive(Clone, Copy)]
pub(crate) enum ScanField {
    Tdi,
    Tdo,
    Mask,
    Smask,
}

/// Where among a scan's words and brackets a reader stands.
#[derive(Clone, Copy)]
pub(crate) enum ScannerPlace {
    Between,
    Named(ScanField),
    /// Inside the brackets of a field, whose digits are the bytes saved from here on.
    Inside(ScanField, usize),
}

/// Where the digits of each field are saved; `None` for a field that is left out.
#[derive(Clone, Copy)]
pub(crate) struct FieldSpans {
    pub(crate) tdi: Option<Span>,
    pub(crate) tdo: Option<Span>,
    pub(crate) mask: Option<Span>,
    pub(crate) smask: Option<Span>,
}

/// A reader of a scan: where it stands, and the fields so far.
#[derive(Clone, Copy)]
pub(crate) struct Scanner {
    pub(crate) place: ScannerPlace,
    pub(crate) spans: FieldSpans,
}

/// The field of this name, in either case; none where the word is no field's name.
fn field_by_name(word: &[u8]) -> Option<ScanField>
    ensures { result ≡ field_by_name word.now }
{
    if is_keyword(word, b"TDI") {
        return Some(ScanField::Tdi);
    }
    if is_keyword(word, b"TDO") {
        return Some(ScanField::Tdo);
    }
    if is_keyword(word, b"MASK") {
        return Some(ScanField::Mask);
    }
    if is_keyword(word, b"SMASK") {
        return Some(ScanField::Smask);
    }
    None
}

/// Whether a byte is a hexadecimal digit, of either case.
fn is_hex_digit(byte: u8) -> bool
    ensures { result ≡ is_hex_digit byte }
{
    let decimal = b'0' <= byte && byte <= b'9';
    let upper = b'A' <= byte && byte <= b'F';
    let lower = b'a' <= byte && byte <= b'f';
    decimal | upper | lower
}

/// Whether all bytes of a word are hexadecimal digits.
fn are_hex(word: &[u8]) -> bool
    ensures { result ≡ are_hex word.now }
{
    word.iter().all(
        |byte|
            ensures { result ≡ is_hex_digit byte.now }
        { is_hex_digit(*byte) },
    )
}

/// The fields with one more; none where that field is among them already.
fn with_field(spans: FieldSpans, field: ScanField, digits: Span) -> Option<FieldSpans>
    ensures fields { (saved : List ℕ) → fields_if saved result ≡ with_field (fields_of saved spans) field (bytes_in saved digits) }
    ensures within { (n : ℕ) → AreWithin n spans → span_end digits ≤ n → IfSome result (AreWithin n) }
{
    match field {
        ScanField::Tdi if spans.tdi.is_none() => Some(FieldSpans {
            tdi: Some(digits),
            ..spans
        }),
        ScanField::Tdo if spans.tdo.is_none() => Some(FieldSpans {
            tdo: Some(digits),
            ..spans
        }),
        ScanField::Mask if spans.mask.is_none() => Some(FieldSpans {
            mask: Some(digits),
            ..spans
        }),
        ScanField::Smask if spans.smask.is_none() => Some(FieldSpans {
            smask: Some(digits),
            ..spans
        }),
        _ => None,
    }
}

/// The fields with the one whose digits were saved from `from` on; none where that field has no digit, or is among them
/// already.
fn closed_field(
    source: &Source,
    spans: FieldSpans,
    field: ScanField,
    from: usize,
) -> Option<FieldSpans>
    requires from { from ≤ length source.now.saved }
    ensures fields { fields_if source.now.saved result ≡ closed_field (fields_of source.now.saved spans) field (drop from source.now.saved) }
    ensures within { AreWithin (length source.now.saved) spans → IfSome result (AreWithin (length source.now.saved)) }
{
    let end = source.saved().len();
    if from == end {
        return None;
    }
    with_field(spans, field, Span::new(from, end))
}

/// The reader of a scan after one token more: the token is passed, or saved where it is digits. `None` where no scan has
/// such a token there; what was read of the source is then not promised.
fn scan_step(source: &mut Source, scanner: Scanner, token: NextToken) -> Option<Scanner>
    requires token { token_size token ≤ length source.old.rest }
    requires within { IsWithin (length source.old.saved) scanner }
    ensures scans { scanning_of source.new.saved result ≡ scan_step (scan_place_of source.old.saved scanner.place) (fields_of source.old.saved scanner.spans) (token_of token source.old.rest) }
    ensures within { IfSome result (IsWithin (length source.new.saved)) }
    ensures steps { IfSome result (λ s. StepsOver (token_size token) source.old source.new) }
{
    let spans = scanner.spans;
    match (scanner.place, token) {
        (ScannerPlace::Between, NextToken::Word(length)) => {
            let field = field_by_name(&source.rest()[..length])?;
            source.skip(length);
            Some(Scanner {
                place: ScannerPlace::Named(field),
                spans,
            })
        }
        (ScannerPlace::Named(field), NextToken::Open) => {
            source.skip(1);
            Some(Scanner {
                place: ScannerPlace::Inside(field, source.saved().len()),
                spans,
            })
        }
        (ScannerPlace::Inside(_, _), NextToken::Word(length)) => {
            if !are_hex(&source.rest()[..length]) {
                return None;
            }
            source.save(length);
            Some(scanner)
        }
        (ScannerPlace::Inside(field, from), NextToken::Close) => {
            source.skip(1);
            let spans = closed_field(source, spans, field, from)?;
            Some(Scanner {
                place: ScannerPlace::Between,
                spans,
            })
        }
        _ => None,
    }
}

/// The fields of a scan that come next, up to its `;`; none where anything but fields comes, or a field comes twice.
/// Their digits are saved.
pub(crate) fn fields(source: &mut Source) -> Option<FieldSpans>
    ensures fields { fields_if source.new.saved result ≡ scan_fields (tokens_before_end (tokens_left source.old)) }
    ensures within { IfSome result (AreWithin (length source.new.saved)) }
    ensures reads_on { IfSome result (λ g. ReadsOn source.old source.new) }
{
    let mut scanner = Scanner {
        place: ScannerPlace::Between,
        spans: FieldSpans {
            tdi: None,
            tdo: None,
            mask: None,
            smask: None,
        },
    };
    while let Some(token) = next_within(source) {
        match scan_step(source, scanner, token) {
            Some(next) => scanner = next,
            None => return None,
        }
    }
    match scanner.place {
        ScannerPlace::Between => Some(scanner.spans),
        _ => None,
    }
}
