//! What is printed of a run that isn't as written: where it differs, and both lines.
use crate::fault::Fault;
use std::alloc::Global;
use std::fmt::Display;

/// How many bytes two texts have in common from their first byte on.
pub(crate) fn common_length(one: &[u8], other: &[u8]) -> usize {
    for (place, byte) in one.iter().enumerate() {
        if other.get(place) != Some(byte) {
            return place;
        }
    }
    one.len()
}

/// How many lines end before the place.
fn lines_before(text: &[u8], place: usize) -> usize {
    let mut lines: usize = 0;
    for byte in &text[..place.min(text.len())] {
        if *byte == b'\n' {
            lines = lines.saturating_add(1);
        }
    }
    lines
}

/// The line, with its end, in which the place lies.
fn line_at(text: &[u8], place: usize) -> &[u8] {
    let place = place.min(text.len());
    let start = match memchr::memrchr(b'\n', &text[..place]) {
        Some(end) => end + 1,
        None => 0,
    };
    let rest = &text[start..];
    match memchr::memchr(b'\n', rest) {
        Some(end) => &rest[..end + 1],
        None => rest,
    }
}

/// A line as it is printed, bytes that are no text as hex digits.
fn shown(alloc: Global, line: &[u8]) -> Result<String, Fault> {
    Ok(match std::str::from_utf8(line) {
        Ok(line) => format!(in alloc; "{line:?}")?,
        Err(_) => hex::encode_upper(alloc, line)?,
    })
}

/// Notes on the runs of one file of cases.
pub(crate) struct Notes {
    alloc: Global,
    /// The name of the run that notes are on: its case, and in what it differs from the case's other runs.
    run_name: String,
    /// All notes so far, as they are printed.
    pub(crate) text: String,
    /// Whether memory lacked for a run or for a note on it, so that the notes say too little.
    pub(crate) lacks_memory: bool,
}

impl Drop for Notes {
    fn drop(self) {
        let Notes {
            alloc: _,
            run_name: _,
            text: _,
            lacks_memory: _,
        } = self;
    }
}

impl Notes {
    /// No notes.
    pub(crate) fn new(alloc: Global) -> Notes {
        Notes {
            alloc,
            run_name: String::new(alloc),
            text: String::new(alloc),
            lacks_memory: false,
        }
    }

    /// Begins the notes on a run of this name.
    pub(crate) fn begin(&mut self, name: &str) {
        self.run_name.clear();
        self.add(name);
    }

    /// Adds to the name of the run.
    pub(crate) fn add(&mut self, text: &str) {
        let done = self.run_name.push_str(text);
        self.lacks_memory |= done.is_err();
    }

    /// Adds a number to the name of the run, and texts before and after it.
    pub(crate) fn add_number(&mut self, before: &str, number: u32, after: &str) {
        let done = write!(self.run_name, "{before}{number}{after}");
        self.lacks_memory |= done.is_err();
    }

    /// Takes how a run, or a note on it, went: each fault counts as want of memory.
    pub(crate) fn take(&mut self, done: Result<(), Fault>) {
        self.lacks_memory |= done.is_err();
    }

    /// Notes two values that differ.
    pub(crate) fn put<D: Display + Drop>(&mut self, what: &str, expected: D, came: D) {
        let run_name = &self.run_name;
        let done = write!(
            self.text,
            "{run_name}: {what}\n  expected {expected}\n  came     {came}\n"
        );
        self.lacks_memory |= done.is_err();
    }

    /// Adds a line: a name and a colon, a number between two texts, and a last text.
    pub(crate) fn put_line(
        &mut self,
        name: &str,
        before: &str,
        number: u64,
        after: &str,
        rest: &str,
    ) {
        let done = write!(self.text, "{name}: {before}{number}{after}{rest}\n");
        self.lacks_memory |= done.is_err();
    }

    /// Adds a line on a case without an end.
    pub(crate) fn put_open(&mut self, case: &str) {
        let done = write!(self.text, "the case has no end: {case}\n");
        self.lacks_memory |= done.is_err();
    }

    /// Notes that two numbers differ, if they do.
    pub(crate) fn compare_numbers(&mut self, what: &str, expected: u64, came: u64) {
        if expected != came {
            self.put(what, expected, came);
        }
    }

    /// Notes two lines that differ.
    fn put_unequal_lines(&mut self, what: &str, expected: &[u8], came: &[u8]) -> Result<(), Fault> {
        let expected = shown(self.alloc, expected)?;
        let came = shown(self.alloc, came)?;
        self.put(what, expected.as_str(), came.as_str());
        Ok(())
    }

    /// Notes that two lines differ, if they do.
    pub(crate) fn compare_lines(&mut self, what: &str, expected: &[u8], came: &[u8]) {
        if expected != came {
            let done = self.put_unequal_lines(what, expected, came);
            self.take(done);
        }
    }

    /// Notes where two texts differ first: the line, from 1, and the byte of the whole text, from 0.
    fn put_difference(&mut self, what: &str, expected: &[u8], came: &[u8]) -> Result<(), Fault> {
        let place = common_length(expected, came);
        let line = lines_before(expected, place).saturating_add(1);
        let what = format!(in self.alloc; "{what} line {line}, byte {place}")?;
        let expected = line_at(expected, place);
        let came = line_at(came, place);
        self.put_unequal_lines(what.as_str(), expected, came)
    }

    /// Notes where two texts differ, if they do.
    pub(crate) fn compare_texts(&mut self, what: &str, expected: &[u8], came: &[u8]) {
        if expected != came {
            let done = self.put_difference(what, expected, came);
            self.take(done);
        }
    }
}
