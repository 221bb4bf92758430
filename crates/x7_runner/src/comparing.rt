//! A run beside what it should come to.
use crate::expected::{Expected, Extent};
use crate::given::Given;
use crate::notes::{Notes, common_length};
use crate::running::{Ending, Variation};

/// The line of the text that has most first bytes in common with the one given; an empty one where none has any.
fn nearest<'a>(text: &'a str, line: &[u8]) -> &'a [u8] {
    let mut best: &[u8] = b"";
    let mut most = 0;
    for each in text.lines() {
        let each = each.as_bytes();
        if each == line {
            return each;
        }
        let length = common_length(each, line);
        if length > most {
            most = length;
            best = each;
        }
    }
    best
}

/// The bytes as text, an empty one where they are no UTF-8.
pub(crate) fn text_of(bytes: &[u8]) -> &str {
    std::str::from_utf8(bytes).unwrap_or("")
}

/// Compares a text with the lines that it should have.
fn compare_parts(notes: &mut Notes, lines: &[u8], came: &[u8]) {
    let text = text_of(came);
    for line in text_of(lines).lines() {
        let line = line.as_bytes();
        notes.compare_lines("out has no such line", line, nearest(text, line));
    }
}

/// What came, where it is a prefix of the whole text, and else the whole text.
pub(crate) fn prefix_of<'a>(whole: &'a [u8], came: &'a [u8]) -> &'a [u8] {
    if whole.starts_with(came) { came } else { whole }
}

/// What a run should leave: its status, its text, its message, and the bytes of its flash.
#[derive(Clone, Copy, Drop)]
pub(crate) struct Due<'a> {
    pub(crate) status: u8,
    pub(crate) out: &'a [u8],
    pub(crate) err: &'a [u8],
    pub(crate) flash: &'a [u8],
}

/// All that a run left.
pub(crate) fn all_of(ending: &Ending) -> Due<'_> {
    Due {
        status: ending.status,
        out: &ending.out,
        err: &ending.err,
        flash: &ending.flash,
    }
}

/// Notes where a run left other things than it should.
pub(crate) fn compare_run(notes: &mut Notes, due: Due<'_>, came: &Ending) {
    notes.compare_numbers("status", u64::from(due.status), u64::from(came.status));
    notes.compare_texts("out", due.out, &came.out);
    notes.compare_texts("err", due.err, &came.err);
    notes.compare_texts("flash", due.flash, &came.flash);
}

/// The text that should come, where it is said, and else what came.
fn due_out<'a>(expected: &'a Expected, came: &'a [u8]) -> &'a [u8] {
    match expected.extent {
        Extent::Whole => &expected.out,
        Extent::Prefix => prefix_of(&expected.out, came),
        Extent::Parts | Extent::Any => came,
    }
}

/// Compares all that a run left with what it should come to. Where a call of `err` failed, a prefix of the message will
/// do.
pub(crate) fn compare<'a>(
    notes: &mut Notes,
    given: &'a Given,
    expected: &'a Expected,
    variation: &Variation,
    came: &'a Ending,
) {
    let mut due = all_of(came);
    due.flash = if expected.has_flash {
        &expected.flash
    } else {
        &given.flash.bytes
    };
    if let Extent::Any = expected.extent {
        return compare_run(notes, due, came);
    }
    due.status = expected.status;
    due.out = due_out(expected, &came.out);
    due.err = if variation.fails_err() {
        prefix_of(&expected.err, &came.err)
    } else {
        &expected.err
    };
    compare_run(notes, due, came);
    if let Some(length) = expected.length {
        notes.compare_numbers("out length", u64::from(length), came.out.len() as u64);
    }
    if let Extent::Parts = expected.extent {
        compare_parts(notes, &expected.out, &came.out);
    }
}
