//! What the line of a refusal says after the name of the input or of the flash, and the line. No memory is taken.
ghost use Rattle.std.specs.Prelude.{◌≡◌, ◌++◌, Some, codes};
ghost use Rattle.x7_words.specs.Sink.{PutsOrFails};
ghost use Rattle.x7_forms.specs.Event.{detail_text, input_fault_text, part_fault_text, placed_key, reason_row, refusal_line, sum_text, which_text};

use crate::bad_input::InputFault;
use crate::refusal::Why;
use itoa::Buffer;
use x7_part::{PartFault, Which};
use x7_text::{hex_of_byte, hex_of_word};
use x7_words::{Failed, Sink, write_pieces};

/// What the line of a refusal says after the name and a label.
#[derive(Clone, Copy, Drop)]
pub(crate) enum Detail {
    /// Nothing more.
    Nothing,
    /// A number, in decimal.
    Number(u64),
    /// A word of 32 bits, in eight hexadecimal digits.
    Word(u32),
    /// A line, the byte that would make the sum of its bytes 0, modulo 256, and the one that stands there.
    Sum {
        /// The line.
        line: u64,
        /// The byte that makes the sum 0.
        want: u8,
        /// The byte that stands there.
        got: u8,
    },
    /// A key of a part file, with its row where it is a row's.
    Key(Which),
}

/// What the line of an input that was refused says after its name: a label, and what comes after that.
fn of_input(fault: InputFault) -> (&'static [u8], Detail)
    ensures { codes ": " ++ input_fault_text fault ≡ result.0.now ++ detail_text result.1 }
{
    match fault {
        InputFault::Byte(place) => (b": byte ", Detail::Number(place)),
        InputFault::Line(line) => (b": line ", Detail::Number(line)),
        InputFault::LongLine(line) => (b": long line ", Detail::Number(line)),
        InputFault::Sum { line, want, got } => (b": sum line ", Detail::Sum { line, want, got }),
        InputFault::LargeLine(line) => (b": large line ", Detail::Number(line)),
        InputFault::Overlap(place) => (b": overlap ", Detail::Word(place)),
        InputFault::NoEnd => (b": no end", Detail::Nothing),
        InputFault::AddressLine(line) => (b": address line ", Detail::Number(line)),
        InputFault::TwiceLine(line) => (b": twice line ", Detail::Number(line)),
        InputFault::Empty => (b": empty", Detail::Nothing),
        InputFault::Foreign => (b": foreign", Detail::Nothing),
        InputFault::Range => (b": range", Detail::Nothing),
        InputFault::Image => (b": image", Detail::Nothing),
        InputFault::Long => (b": long", Detail::Nothing),
        InputFault::Layout(place) => (b": layout byte ", Detail::Number(place)),
    }
}

/// What the line of a part file that was refused says after its name: a label, and what comes after that.
fn of_part(fault: PartFault) -> (&'static [u8], Detail)
    ensures { codes ": " ++ part_fault_text fault ≡ result.0.now ++ detail_text result.1 }
{
    match fault {
        PartFault::Toml => (b": toml", Detail::Nothing),
        PartFault::Key(place) => (b": key ", Detail::Key(place)),
        PartFault::Range(place) => (b": range ", Detail::Key(place)),
        PartFault::SameRow(row) => (b": same row ", Detail::Number(u64::from(row))),
        PartFault::TooMany(frames) => (b": too many ", Detail::Number(u64::from(frames))),
        PartFault::NoMemory => (b": no memory", Detail::Nothing),
    }
}

/// What the line of a refusal says after the name: a label, and what comes after that.
pub(crate) fn after_name(reason: Why) -> (&'static [u8], Detail)
    ensures { (reason_row reason).after_name ≡ result.0.now ++ detail_text result.1 }
{
    match reason {
        Why::BadPart(fault) => of_part(fault),
        Why::BadInput(fault) => of_input(fault),
        Why::Differs(place) => (b": byte ", Detail::Number(place)),
        _ => (b"", Detail::Nothing),
    }
}

/// Writes a line: what stands before the name, the name, a label, and a text.
fn write_text<'x, E: Sink>(
    err: &mut E,
    before_name: &'x [u8],
    name: &'x str,
    label: &'x [u8],
    text: &'x [u8],
) -> Result<(), Failed>
    ensures { PutsOrFails (E.state err.old) (refusal_line before_name.now name.now label.now text.now) (E.state err.new) }
{
    write_pieces(err, &[before_name, name.as_bytes(), label, text, b"\n"])
}

/// Writes the line of a refusal for a record whose last byte isn't the one that makes the sum of its bytes 0.
fn write_sum<'x, E: Sink>(
    err: &mut E,
    before_name: &'x [u8],
    name: &'x str,
    label: &'x [u8],
    line: u64,
    want: u8,
    got: u8,
) -> Result<(), Failed>
    ensures { PutsOrFails (E.state err.old) (refusal_line before_name.now name.now label.now (sum_text line want got)) (E.state err.new) }
{
    let mut buffer = Buffer::new();
    let line = buffer.format(line).as_bytes();
    write_pieces(
        err,
        &[
            before_name,
            name.as_bytes(),
            label,
            line,
            b" want ",
            &hex_of_byte(want),
            b" got ",
            &hex_of_byte(got),
            b"\n",
        ],
    )
}

/// Writes the line of a refusal for a fault that names a key of a row of a part file.
fn write_in_row<'x, E: Sink>(
    err: &mut E,
    before_name: &'x [u8],
    name: &'x str,
    label: &'x [u8],
    key: &'x str,
    row: u32,
) -> Result<(), Failed>
    ensures { PutsOrFails (E.state err.old) (refusal_line before_name.now name.now label.now (placed_key key.now (Some row))) (E.state err.new) }
{
    let mut buffer = Buffer::new();
    let row = buffer.format(row).as_bytes();
    write_pieces(
        err,
        &[
            before_name,
            name.as_bytes(),
            label,
            key.as_bytes(),
            b" in row ",
            row,
            b"\n",
        ],
    )
}

/// Writes the line of a refusal for a fault that names a key of a part file, with its row where it is a row's.
fn write_key<'x, E: Sink>(
    err: &mut E,
    before_name: &'x [u8],
    name: &'x str,
    label: &'x [u8],
    place: Which,
) -> Result<(), Failed>
    ensures { PutsOrFails (E.state err.old) (refusal_line before_name.now name.now label.now (which_text place)) (E.state err.new) }
{
    let key = place.key.name();
    match place.row {
        Some(row) => write_in_row(err, before_name, name, label, key, row),
        None => write_text(err, before_name, name, label, key.as_bytes()),
    }
}

/// Writes a line: what stands before the name, the name, a label, and what comes after that.
pub(crate) fn write_line<E: Sink>(
    err: &mut E,
    before_name: &[u8],
    name: &str,
    label: &[u8],
    detail: Detail,
) -> Result<(), Failed>
    ensures { PutsOrFails (E.state err.old) (refusal_line before_name.now name.now label.now (detail_text detail)) (E.state err.new) }
{
    match detail {
        Detail::Nothing => write_text(err, before_name, name, label, b""),
        Detail::Number(number) => {
            let mut buffer = Buffer::new();
            let digits = buffer.format(number).as_bytes();
            write_text(err, before_name, name, label, digits)
        }
        Detail::Word(word) => write_text(err, before_name, name, label, &hex_of_word(word)),
        Detail::Sum { line, want, got } => {
            write_sum(err, before_name, name, label, line, want, got)
        }
        Detail::Key(place) => write_key(err, before_name, name, label, place),
    }
}
