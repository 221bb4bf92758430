//! The numbers of calls, and those of them that are to fail.
ghost use Rattle.std.specs.Prelude.{◌≡◌, OnOk, OnErr, is_err};
ghost use Rattle.x7_in_memory.specs.Memory.{no_calls, next_fails, numbered, with_failing_call};

use std::alloc::Global;
use std::marker::Model;
use x7_words::{Failed, NoMemory, raised};

/// The calls of an object: the number of the last one, and those that are to fail.
#[derive(Drop)]
pub(crate) struct Calls {
    last: u64,
    failing: Vec<u64>,
}

impl Model for Calls {
    ghost use Rattle.x7_in_memory.specs.Memory.{CallPlan};

    ghost Value = { CallPlan };

    ghost view = { λ c. record { last = c.last; failing = c.failing.items } };
}

impl Calls {
    /// No call yet, and none that is to fail.
    pub(crate) fn new(alloc: Global) -> Calls
        ensures { result ≡ no_calls }
    {
        Calls {
            last: 0,
            failing: Vec::new(alloc),
        }
    }

    /// The number of the last call, 0 before the first. It stops at 2^64 - 1.
    pub(crate) fn last(&self) -> u64
        ensures { result ≡ self.now.last }
    {
        self.last
    }

    /// Plans that the call of this number, from 1, fails.
    pub(crate) fn fail_at(&mut self, call: u64) -> Result<(), NoMemory>
        ensures planned { OnOk result (self.new ≡ with_failing_call self.old call) }
        ensures unchanged { OnErr result (self.new ≡ self.old) }
    {
        self.failing.push(call)?;
        Ok(())
    }

    /// Takes the next number, which may be that of a call that is to fail. The object whose calls these are counts the
    /// fault.
    pub(crate) fn next(&mut self) -> Result<(), Failed>
        ensures answer { is_err result ≡ next_fails self.old }
        ensures after { self.new ≡ numbered self.old }
    {
        self.last = raised(self.last);
        if self.failing.contains(&self.last) {
            return Err(Failed);
        }
        Ok(())
    }
}
