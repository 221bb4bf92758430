//! One run of the command over objects in memory.
use crate::command::Command;
use crate::fault::Fault;
use crate::given::{Given, Object};
use crate::named::Named;
use crate::notes::Notes;
use crate::token::append;
use std::alloc::Global;
use x7_in_memory::{MemoryFlash, MemoryInputs, MemorySink};
use x7_words::{Flash, Inputs, NoMemory, SelectFault, Sink};

/// The most bytes that `err` takes.
const ERR_ROOM: usize = 1_000;

/// What differs from run to run of one case.
#[derive(Clone, Copy, Drop)]
pub(crate) struct Variation {
    /// The number of the damage that an input has, where the case damages one.
    pub(crate) damage: u32,
    /// The most bytes of one read.
    pub(crate) piece: u32,
    /// The object whose call fails.
    pub(crate) object: Object,
    /// The number of the call that fails, from 1 among those of its object; 0 for none.
    pub(crate) call: u32,
    /// Whether the first call of `err` fails too.
    pub(crate) is_mute: bool,
}

impl Variation {
    /// A variation with this damage, reads of at most `piece` bytes, and no call that fails.
    pub(crate) fn new(damage: u32, piece: u32) -> Variation {
        Variation {
            damage,
            piece,
            object: Object::In,
            call: 0,
            is_mute: false,
        }
    }

    /// Adds what differs to the name of the run, as it is printed after a case's name.
    pub(crate) fn put_name(&self, given: &Given, notes: &mut Notes) {
        if given.damaged.has_input() {
            notes.add_number(", damage ", self.damage, "");
        }
        if self.piece != u32::MAX {
            notes.add_number(", piece ", self.piece, "");
        }
        if self.call > 0 {
            notes.add(self.object.call_name());
            notes.add_number(" ", self.call, " fails");
        }
        if self.is_mute {
            notes.add(", and err fails");
        }
    }

    /// Whether a call of `err` fails.
    pub(crate) fn fails_err(&self) -> bool {
        self.is_mute || self.call > 0 && matches!(self.object, Object::Err)
    }
}

/// How a run ended, and what it left.
pub(crate) struct Ending {
    /// The status of the command.
    pub(crate) status: u8,
    /// Whether the call that was to fail came after all calls of the run.
    pub(crate) is_spared: bool,
    /// The text: what the sink `out` took.
    pub(crate) out: Vec<u8>,
    /// The message: what the sink `err` took.
    pub(crate) err: Vec<u8>,
    /// What the flash holds.
    pub(crate) flash: Vec<u8>,
}

impl Drop for Ending {
    fn drop(self) {
        let Ending {
            status: _,
            is_spared: _,
            out: _,
            err: _,
            flash: _,
        } = self;
    }
}

impl Ending {
    /// Status 0, and nothing left.
    pub(crate) fn new(alloc: Global) -> Ending {
        Ending {
            status: 0,
            is_spared: false,
            out: Vec::new(alloc),
            err: Vec::new(alloc),
            flash: Vec::new(alloc),
        }
    }
}

/// The objects that a run works on.
struct Objects {
    inputs: MemoryInputs,
    flash: MemoryFlash,
    out: MemorySink,
    err: MemorySink,
}

impl Drop for Objects {
    fn drop(self) {
        let Objects {
            inputs: _,
            flash: _,
            out: _,
            err: _,
        } = self;
    }
}

/// Puts all inputs of the list.
fn put_all(inputs: &mut MemoryInputs, list: &[Named]) -> Result<(), Fault> {
    for named in list {
        inputs.put(named.name.as_str(), &named.bytes)?;
    }
    Ok(())
}

/// Puts the bytes in place of those that were there.
fn replace(old: &mut Vec<u8>, bytes: &[u8]) -> Result<(), Fault> {
    old.clear();
    append(old, bytes)
}

impl Objects {
    /// Objects without inputs, and no call that fails.
    fn new(alloc: Global, given: &Given) -> Result<Objects, Fault> {
        let flash = &given.flash;
        let out = MemorySink::new(alloc, given.room as usize)?;
        let err = MemorySink::new(alloc, ERR_ROOM)?;
        let flash = MemoryFlash::new(alloc, flash.name.as_str(), &flash.bytes)?;
        Ok(Objects {
            inputs: MemoryInputs::new(alloc),
            flash,
            out,
            err,
        })
    }

    /// The call of this number is to fail; 0 is no call.
    fn fail(&mut self, object: Object, call: u32) -> Result<(), NoMemory> {
        let call = u64::from(call);
        match object {
            Object::In => self.inputs.fail_at(call),
            Object::Flash => self.flash.fail_at(call),
            Object::Out => self.out.fail_at(call),
            Object::Err => self.err.fail_at(call),
        }
    }

    /// Puts the inputs of the file of cases, and the case's own, which take the place of those of the same name, and
    /// says how many bytes each call takes or gives at most, and which calls fail.
    fn prepare(
        &mut self,
        shared: &[Named],
        given: &Given,
        variation: &Variation,
    ) -> Result<(), Fault> {
        put_all(&mut self.inputs, shared)?;
        put_all(&mut self.inputs, &given.inputs)?;
        given.damaged.give(&mut self.inputs, variation.damage)?;
        self.inputs.piece((variation.piece as usize).max(1));
        let piece = (given.write_piece as usize).max(1);
        self.out.piece(piece);
        self.err.piece(piece);
        if given.torn_call > 0 {
            let call = u64::from(given.torn_call);
            self.flash.tear_at(call, given.torn_bits);
        }
        self.fail(variation.object, variation.call)?;
        self.fail(Object::Err, u32::from(variation.is_mute))?;
        Ok(())
    }

    /// Whether the call that was to fail came after all calls of the run: one more call of its object fails.
    fn is_spared(&mut self, object: Object) -> bool {
        match object {
            Object::In => matches!(self.inputs.select(""), Err(SelectFault::Failed)),
            Object::Flash => matches!(self.flash.attach(""), Err(SelectFault::Failed)),
            Object::Out => self.out.write(&[]).is_err(),
            Object::Err => self.err.write(&[]).is_err(),
        }
    }

    /// Puts into the ending what the objects hold after a run.
    fn leave(&mut self, variation: &Variation, ending: &mut Ending) -> Result<(), Fault> {
        ending.is_spared = self.is_spared(variation.object);
        replace(&mut ending.out, self.out.bytes())?;
        replace(&mut ending.err, self.err.bytes())?;
        replace(&mut ending.flash, self.flash.bytes())
    }

    /// Runs the command once over the objects.
    fn run<C: Command>(
        &mut self,
        command: &C,
        alloc: Global,
        shared: &[Named],
        given: &Given,
        variation: &Variation,
        ending: &mut Ending,
    ) -> Result<(), Fault> {
        self.prepare(shared, given, variation)?;
        ending.status = command.run(
            alloc,
            &given.words,
            &mut self.inputs,
            &mut self.flash,
            &mut self.out,
            &mut self.err,
        );
        self.leave(variation, ending)
    }
}

/// Runs the command once. The ending takes what it left.
pub(crate) fn run_command<C: Command>(
    command: &C,
    alloc: Global,
    shared: &[Named],
    given: &Given,
    variation: &Variation,
    ending: &mut Ending,
) -> Result<(), Fault> {
    match Objects::new(alloc, given) {
        Ok(mut objects) => objects.run(command, alloc, shared, given, variation, ending),
        Err(fault) => Err(fault),
    }
}
