//! A file of cases: its shared inputs, and its cases one after the other.
use crate::command::Command;
use crate::expected::Expected;
use crate::fault::Fault;
use crate::given::Given;
use crate::named::{Named, has_name, put_named, put_under};
use crate::notes::Notes;
use crate::running::Ending;
use crate::token::first_word;
use crate::trial::{Case, Trial};
use std::alloc::Global;
use x7_words::raised;

/// A file of cases, by the lines taken so far.
struct Subject {
    alloc: Global,
    /// The inputs of each case: the part file `p`, the streams named outside a case, and what cases kept.
    shared: Vec<Named>,
    /// Whether a case is open.
    is_open: bool,
    /// The case that was opened last, by its lines taken so far.
    case: Case,
    /// The notes on the runs so far.
    notes: Notes,
    /// How many cases came as they are written.
    good: u32,
    /// What the case that ran last keeps of its runs.
    kept: Ending,
    /// What the last run left, until it is kept.
    came: Ending,
}

impl Drop for Subject {
    fn drop(self) {
        let Subject {
            alloc: _,
            shared: _,
            is_open: _,
            case: _,
            notes: _,
            good: _,
            kept: _,
            came: _,
        } = self;
    }
}

/// Makes the text of a case's run, or what its flash holds, an input of later cases, under a name that none has yet,
/// where the case says so.
fn keep(
    alloc: Global,
    shared: &mut Vec<Named>,
    expected: &Expected,
    kept: &Ending,
) -> Result<(), Fault> {
    let name = expected.kept.as_str();
    if name.is_empty() {
        return Ok(());
    }
    if has_name(shared, name) {
        return Err(Fault::Line);
    }
    let bytes = if expected.keeps_flash {
        &kept.flash
    } else {
        &kept.out
    };
    put_under(alloc, shared, name, bytes)
}

impl Subject {
    /// No cases and no inputs yet.
    fn new(alloc: Global) -> Subject {
        Subject {
            alloc,
            shared: Vec::new(alloc),
            is_open: false,
            case: Case {
                name: String::new(alloc),
                given: Given::new(alloc),
                expected: Expected::new(alloc),
            },
            notes: Notes::new(alloc),
            good: 0,
            kept: Ending::new(alloc),
            came: Ending::new(alloc),
        }
    }

    /// Runs the case, and counts it where nothing is noted of it.
    fn run<C: Command>(&mut self, command: &C) {
        let length = self.notes.text.len();
        let mut trial = Trial {
            command,
            alloc: self.alloc,
            shared: &self.shared,
            case: &self.case,
            notes: &mut self.notes,
            kept: &mut self.kept,
            came: &mut self.came,
        };
        trial.run();
        if self.notes.text.len() == length {
            self.good = self.good.saturating_add(1);
        }
    }

    /// Opens a case of this name.
    fn open(&mut self, name: &str) -> Result<(), Fault> {
        self.is_open = true;
        self.case.given = Given::new(self.alloc);
        self.case.expected = Expected::new(self.alloc);
        self.case.name.clear();
        self.case.name.push_str(name).or(Err(Fault::NoMemory))
    }

    /// Takes a line of the file. The line `end` runs the case.
    fn take<C: Command>(&mut self, command: &C, line: &str) -> Result<(), Fault> {
        if line.is_empty() || line.starts_with('#') {
            return Ok(());
        }
        let (key, rest) = first_word(line);
        match key {
            "case" if !self.is_open => self.open(rest),
            "stream" if !self.is_open => put_named(self.alloc, &mut self.shared, &[], key, rest),
            _ if !self.is_open => Err(Fault::Line),
            _ if line == "end" => {
                self.is_open = false;
                self.run(command);
                let expected = &self.case.expected;
                keep(self.alloc, &mut self.shared, expected, &self.kept)
            }
            _ => match self.case.given.take(&self.shared, key, rest) {
                Err(Fault::Key) => self.case.expected.take(&self.shared, key, rest),
                taken => taken,
            },
        }
    }

    /// Takes all lines of the file, as long as memory is left, and notes each that isn't one of the format.
    fn take_all<C: Command>(&mut self, command: &C, name: &str, text: &str) {
        let mut number = 0;
        for line in text.lines() {
            number = raised(number);
            match self.take(command, line) {
                Ok(()) => {}
                Err(Fault::NoMemory) => self.notes.lacks_memory = true,
                Err(_) => self
                    .notes
                    .put_line(name, "line ", number, " is not taken: ", line),
            }
            if self.notes.lacks_memory {
                return;
            }
        }
    }

    /// Takes the part file as the input `p`, and then the whole file, and appends the report: the notes, also on a case
    /// without an end, and how many cases came as they are written.
    fn run_all<C: Command>(
        &mut self,
        command: &C,
        name: &str,
        part: &[u8],
        text: &str,
        report: &mut String,
    ) -> Result<(), Fault> {
        put_under(self.alloc, &mut self.shared, "p", part)?;
        self.take_all(command, name, text);
        if self.is_open {
            self.notes.put_open(self.case.name.as_str());
        }
        let good = u64::from(self.good);
        self.notes.put_line(name, "", good, " cases as written", "");
        if self.notes.lacks_memory {
            return Err(Fault::NoMemory);
        }
        report
            .push_str(self.notes.text.as_str())
            .or(Err(Fault::NoMemory))
    }
}

/// Appends the report of a file of cases: notes, and a line that counts the cases that came as they are written. `text`
/// is the file, `name` what the report calls it, and `part` the input `p` of each case. It fails where memory lacks.
pub fn report_cases<C: Command>(
    command: &C,
    alloc: Global,
    name: &str,
    part: &[u8],
    text: &str,
    report: &mut String,
) -> Result<(), Fault> {
    let mut subject = Subject::new(alloc);
    subject.run_all(command, name, part, text, report)
}
