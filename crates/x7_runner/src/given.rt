//! What a run is given: words, inputs, a flash, and what fails.
use crate::damage::{Damage, Damaged};
use crate::fault::Fault;
use crate::named::{Named, put, put_named};
use crate::token::{first_word, positive, put_number};
use std::alloc::Global;

/// An object that a run works on, and whose calls can fail.
#[derive(Clone, Copy, Drop)]
pub(crate) enum Object {
    /// The inputs.
    In,
    /// The flash.
    Flash,
    /// The sink of the text.
    Out,
    /// The sink of the message.
    Err,
}

impl Object {
    /// A call of the object, as the name of a run has it.
    pub(crate) fn call_name(self) -> &'static str {
        match self {
            Object::In => ", in call",
            Object::Flash => ", flash call",
            Object::Out => ", out call",
            Object::Err => ", err call",
        }
    }
}

/// The object of this name.
fn object_of(name: &str) -> Result<Object, Fault> {
    match name {
        "in" => Ok(Object::In),
        "flash" => Ok(Object::Flash),
        "out" => Ok(Object::Out),
        "err" => Ok(Object::Err),
        _ => Err(Fault::Line),
    }
}

/// The most bytes that `out` takes where a case says nothing of it.
const OUT_ROOM: u32 = 1_000_000;

/// A call that fails.
#[derive(Drop)]
pub(crate) struct Failing {
    /// Whose call fails.
    pub(crate) object: Object,
    /// Its number, from 1, among the calls of the object.
    pub(crate) call: u32,
}

/// What a case gives to a run.
pub(crate) struct Given {
    alloc: Global,
    /// The words of the command line.
    pub(crate) words: Vec<String>,
    /// The case's own inputs, beside those of its file.
    pub(crate) inputs: Vec<Named>,
    /// An input that has another damage in each run.
    pub(crate) damaged: Damaged,
    /// The flash of the run: without bytes and a name where the case has none.
    pub(crate) flash: Named,
    /// The number of the call that is torn, from 1 among the flash's; 0 for none.
    pub(crate) torn_call: u32,
    /// The bits of each byte of the torn write that keep their old value.
    pub(crate) torn_bits: u8,
    /// The most bytes of one read: a run for each, or one run without a limit.
    pub(crate) pieces: Vec<u32>,
    /// The most bytes of one read: for each a run more, which should come to the same as one in which nothing fails.
    pub(crate) alike: Vec<u32>,
    /// The most bytes of one write of the text or the message.
    pub(crate) write_piece: u32,
    /// The calls that fail: a run for each, or one run without a failing call.
    pub(crate) failing: Vec<Failing>,
    /// Objects whose calls fail in turn.
    pub(crate) each: Vec<Object>,
    /// The most bytes that `out` takes.
    pub(crate) room: u32,
}

impl Drop for Given {
    fn drop(self) {
        let Given {
            alloc: _,
            words: _,
            inputs: _,
            damaged: _,
            flash: _,
            torn_call: _,
            torn_bits: _,
            pieces: _,
            alike: _,
            write_piece: _,
            failing: _,
            each: _,
            room: _,
        } = self;
    }
}

/// Takes a number from 1.
fn put_positive(number: &mut u32, token: &str) -> Result<(), Fault> {
    *number = positive(token)?;
    Ok(())
}

/// Appends a word.
fn put_word(alloc: Global, list: &mut Vec<String>, word: &str) -> Result<(), Fault> {
    let word = String::from_str(alloc, word)?;
    list.push(word).or(Err(Fault::NoMemory))
}

/// Appends an object whose calls fail in turn.
fn put_each(list: &mut Vec<Object>, name: &str) -> Result<(), Fault> {
    let object = object_of(name)?;
    list.push(object).or(Err(Fault::NoMemory))
}

/// Appends a call that fails, of the object that the key names.
fn put_failing(list: &mut Vec<Failing>, key: &str, number: &str) -> Result<(), Fault> {
    let Some(name) = key.strip_suffix("_fails") else {
        return Err(Fault::Key);
    };
    let object = object_of(name)?;
    let call = positive(number)?;
    list.push(Failing { object, call }).or(Err(Fault::NoMemory))
}

impl Given {
    /// No words and no inputs, and nothing fails.
    pub(crate) fn new(alloc: Global) -> Given {
        Given {
            alloc,
            words: Vec::new(alloc),
            inputs: Vec::new(alloc),
            damaged: Damaged::new(alloc),
            flash: Named {
                name: String::new(alloc),
                bytes: Vec::new(alloc),
            },
            torn_call: 0,
            torn_bits: 0,
            pieces: Vec::new(alloc),
            alike: Vec::new(alloc),
            write_piece: u32::MAX,
            failing: Vec::new(alloc),
            each: Vec::new(alloc),
            room: OUT_ROOM,
        }
    }

    /// Appends to the flash, which has one name.
    fn put_flash(&mut self, shared: &[Named], key: &str, line: &str) -> Result<(), Fault> {
        let (name, rest) = first_word(line);
        let flash = &mut self.flash;
        if flash.name.is_empty() {
            flash.name.push_str(name)?;
        }
        if flash.name.as_str() != name {
            return Err(Fault::Line);
        }
        put(self.alloc, &mut flash.bytes, shared, key, rest)
    }

    /// Takes `CALL HEX`: the call that is torn, and the bits that keep their old value.
    fn put_tear(&mut self, line: &str) -> Result<(), Fault> {
        let (call, bits) = first_word(line);
        self.torn_call = positive(call)?;
        self.torn_bits = u8::from_str_radix(bits, 16)?;
        Ok(())
    }

    /// Takes a line that says what a run is given. `Fault::Key`: its key is of no such line.
    pub(crate) fn take(&mut self, shared: &[Named], key: &str, rest: &str) -> Result<(), Fault> {
        match key {
            "bytes" | "text" | "text_lines" | "slice" => {
                put_named(self.alloc, &mut self.inputs, shared, key, rest)
            }
            "flash" | "flash_slice" => self.put_flash(shared, key, rest),
            "cut_each" => self.damaged.put(Damage::Cut, shared, rest),
            "change_each" => self.damaged.put(Damage::Bit, shared, rest),
            "flash_tears" => self.put_tear(rest),
            "write_piece" => put_positive(&mut self.write_piece, rest),
            "room" => put_positive(&mut self.room, rest),
            "fails_each" => put_each(&mut self.each, rest),
            _ => self.take_list(key, rest),
        }
    }

    /// Takes a line of words, or of numbers.
    fn take_list(&mut self, key: &str, rest: &str) -> Result<(), Fault> {
        for token in rest.split(' ') {
            let done = match key {
                "words" => put_word(self.alloc, &mut self.words, token),
                "piece" => put_number(&mut self.pieces, token),
                "alike" => put_number(&mut self.alike, token),
                _ => put_failing(&mut self.failing, key, token),
            };
            done?;
        }
        Ok(())
    }
}
