//! The calls of a flash, which proofs know and a program doesn't keep.
ghost use Rattle.std.specs.Prelude.{◌≡◌, [], ◌∷◌, ◌++◌};
ghost use Rattle.x7_words.specs.FlashHistory.{attach_call};
ghost use Rattle.x7_ghost.specs.Answered.{read_call, erase_call, program_call};

use crate::value::{Ghost, GhostOf};
use std::marker::Model;
use x7_words::{Failed, FlashCall, SelectFault};

/// The calls that a flash was given, with their answers, the newest last. It has no bytes.
#[derive(Drop)]
pub struct FlashCalls {
    calls: Ghost<[FlashCall; 0]>,
}

impl Model for FlashCalls {
    ghost use Rattle.std.specs.Prelude.{List};
    ghost use Rattle.x7_words.specs.declared.flash_call.FlashCall.{FlashCall};

    ghost Value = { List FlashCall };

    ghost view = { λ c. c.calls };
}

struct NoCall;

impl GhostOf<(), [FlashCall; 0]> for NoCall {
    ghost use Rattle.std.specs.Prelude.{[]};

    ghost value = { λ _. [] };
}

struct Attaches;

impl<'a> GhostOf<(&'a FlashCalls, &'a str, u64, Result<(), SelectFault>), [FlashCall; 0]>
    for Attaches {
    ghost use Rattle.std.specs.Prelude.{[], ◌∷◌, ◌++◌};
    ghost use Rattle.x7_words.specs.FlashHistory.{attach_call};

    ghost value = { λ (calls, name, size, answer). calls.now ++ attach_call name.now size answer ∷ [] };
}

struct Reads;

impl<'a> GhostOf<(&'a FlashCalls, u64, &'a [u8], Result<(), Failed>), [FlashCall; 0]> for Reads {
    ghost use Rattle.std.specs.Prelude.{[], ◌∷◌, ◌++◌};
    ghost use Rattle.x7_ghost.specs.Answered.{read_call};

    ghost value = { λ (calls, place, buffer, answer). calls.now ++ read_call place buffer.now answer ∷ [] };
}

struct Erases;

impl<'a> GhostOf<(&'a FlashCalls, u64, Result<(), Failed>), [FlashCall; 0]> for Erases {
    ghost use Rattle.std.specs.Prelude.{[], ◌∷◌, ◌++◌};
    ghost use Rattle.x7_ghost.specs.Answered.{erase_call};

    ghost value = { λ (calls, sector, answer). calls.now ++ erase_call sector answer ∷ [] };
}

struct Programs;

impl<'a> GhostOf<(&'a FlashCalls, u64, &'a [u8], Result<(), Failed>), [FlashCall; 0]> for Programs {
    ghost use Rattle.std.specs.Prelude.{[], ◌∷◌, ◌++◌};
    ghost use Rattle.x7_ghost.specs.Answered.{program_call};

    ghost value = { λ (calls, place, given, answer). calls.now ++ program_call place given.now answer ∷ [] };
}

impl FlashCalls {
    /// No call yet.
    pub fn new() -> FlashCalls
        ensures { result ≡ [] }
    {
        FlashCalls {
            calls: Ghost::of::<(), NoCall>(&()),
        }
    }

    /// An attach under the name came to this answer; the flash has this size where it was attached.
    pub fn attach(&mut self, name: &str, size: u64, answer: Result<(), SelectFault>)
        ensures { self.new ≡ self.old ++ attach_call name.now size answer ∷ [] }
    {
        self.calls = Ghost::of::<_, Attaches>(&(&*self, name, size, answer));
    }

    /// A read from the place on came to this answer; the buffer holds these bytes after it.
    pub fn read_at(&mut self, place: u64, buffer: &[u8], answer: Result<(), Failed>)
        ensures { self.new ≡ self.old ++ read_call place buffer.now answer ∷ [] }
    {
        self.calls = Ghost::of::<_, Reads>(&(&*self, place, buffer, answer));
    }

    /// An erase of the sector came to this answer.
    pub fn erase(&mut self, sector: u64, answer: Result<(), Failed>)
        ensures { self.new ≡ self.old ++ erase_call sector answer ∷ [] }
    {
        self.calls = Ghost::of::<_, Erases>(&(&*self, sector, answer));
    }

    /// A program of these bytes from the place on came to this answer.
    pub fn program(&mut self, place: u64, given: &[u8], answer: Result<(), Failed>)
        ensures { self.new ≡ self.old ++ program_call place given.now answer ∷ [] }
    {
        self.calls = Ghost::of::<_, Programs>(&(&*self, place, given, answer));
    }
}
