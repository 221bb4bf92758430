//! A run in which a call failed, beside the one in which none did.
use crate::comparing::{Due, all_of, compare_run, prefix_of, text_of};
use crate::given::Object;
use crate::named::{Named, has_name, put_under};
use crate::notes::Notes;
use crate::running::Ending;
use std::alloc::Global;

/// The status of a run in which a read failed.
const READ_FAULT: u8 = 6;

/// The status of a run in which a write failed.
const WRITE_FAULT: u8 = 7;

/// The message of a run in which a write failed.
const WRITE_MESSAGE: &[u8] = b"x7: write fault\n";

/// The name in the message of a read fault; `None` for any other message.
fn name_of(message: &[u8]) -> Option<&str> {
    text_of(message)
        .strip_prefix("x7: read fault ")?
        .strip_suffix("\n")
}

/// The place, from 0, of the first word from place `from` on that is the name; `None` where none is.
fn next_place(words: &[String], from: usize, name: &str) -> Option<usize> {
    for place in from..words.len() {
        if words[place].as_str() == name {
            return Some(place);
        }
    }
    None
}

/// The inputs that the messages of read faults have named, while the calls fail in turn. The places of their words only
/// rise, since each input is read whole before the next.
#[derive(Drop)]
pub(crate) struct Blamed {
    alloc: Global,
    /// The place, from 0, of the word that was named last; 1, after the command's own word, where none was.
    last: usize,
    /// The names, without bytes.
    names: Vec<Named>,
}

impl Blamed {
    /// No input yet.
    pub(crate) fn new(alloc: Global) -> Blamed {
        Blamed {
            alloc,
            last: 1,
            names: Vec::new(alloc),
        }
    }

    /// Takes a message. False where it names no word from the place of the one named last on.
    fn take(&mut self, notes: &mut Notes, words: &[String], message: &[u8]) -> bool {
        let Some(name) = name_of(message) else {
            return false;
        };
        let Some(place) = next_place(words, self.last, name) else {
            return false;
        };
        self.last = place;
        notes.take(put_under(self.alloc, &mut self.names, name, &[]));
        true
    }

    /// Notes each of these inputs that the words name and no message did.
    pub(crate) fn compare_all(&self, notes: &mut Notes, words: &[String], inputs: &[Named]) {
        for place in 1..words.len() {
            let name = words[place].as_str();
            if has_name(inputs, name) && !has_name(&self.names, name) {
                notes.put("fails_each in", name, "no read fault of this name");
            }
        }
    }
}

/// Whether the words begin with the name of this command.
fn is_of(words: &[String], command: &str) -> bool {
    match words {
        [word, ..] => word.as_str() == command,
        [] => false,
    }
}

/// What a run leaves in which a call of the inputs or the flash failed: a read fault, and at most a prefix of a
/// listing. What its flash holds isn't compared.
fn due_after_read<'a>(
    notes: &mut Notes,
    words: &[String],
    blamed: &mut Blamed,
    whole: &'a Ending,
    came: &'a Ending,
) -> Due<'a> {
    let mut due = all_of(came);
    due.status = READ_FAULT;
    due.out = if is_of(words, "list") {
        prefix_of(&whole.out, due.out)
    } else {
        &[]
    };
    if !blamed.take(notes, words, due.err) {
        due.err = b"x7: read fault NAME\n";
    }
    due
}

/// Notes where a run in which a call of the object failed didn't end as it should.
pub(crate) fn compare_failed<'a>(
    notes: &mut Notes,
    words: &[String],
    blamed: &mut Blamed,
    object: Object,
    whole: &'a Ending,
    came: &'a Ending,
) {
    let mut due = all_of(whole);
    match object {
        Object::Err => due.err = prefix_of(due.err, &came.err),
        Object::Out => {
            due.status = WRITE_FAULT;
            due.out = prefix_of(due.out, &came.out);
            due.err = WRITE_MESSAGE;
        }
        // an update that ends so failed at a write of its flash
        Object::Flash if is_of(words, "update") && came.status == WRITE_FAULT => {
            due = all_of(came);
            due.out = &[];
            due.err = WRITE_MESSAGE;
        }
        Object::In | Object::Flash => due = due_after_read(notes, words, blamed, whole, came),
    }
    compare_run(notes, due, came);
}
