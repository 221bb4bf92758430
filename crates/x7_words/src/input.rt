//! Inputs that are read by name, and what can go wrong with the outside.
ghost use Rattle.std.specs.Prelude.{◌≡◌, ◌<◌, ◌≤◌, length, take, true, false, IfErr, IfOk, OnOk, OnErr};
ghost use Rattle.x7_words.specs.Input.{InputsState, AsksForName, AsksForNoInput, AsksOnce, AtEnd, InputCountsFit, NoInputFault, OpensInput, ReadFails, InputsRefuse, InputsStay, TakesInput};

use std::alloc::{AllocError, AllocFailed};

/// There was no memory for what was asked. What the call leaves is what its contract says.
#[derive(Clone, Copy, Debug, Drop, PartialEq, Eq)]
pub struct NoMemory;

impl From<AllocError> for NoMemory {
    fn from(_: AllocError) -> NoMemory {
        NoMemory
    }
}

impl<T: Drop> From<AllocFailed<T>> for NoMemory {
    fn from(_: AllocFailed<T>) -> NoMemory {
        NoMemory
    }
}

/// A call of the outside failed. What it leaves is what the call's contract says.
#[derive(Clone, Copy, Drop, PartialEq, Eq)]
pub struct Failed;

/// Why a name was not selected.
#[derive(Clone, Copy, Debug, Drop, PartialEq, Eq)]
pub enum SelectFault {
    /// There is nothing under the name.
    Missing,
    /// There may be something under the name, but it could not be opened.
    Failed,
}

/// Inputs of bytes by name, of which one is selected at a time and read from its first byte on.
///
/// The counts of faults and of absences never fall. That of faults rises by at least one at each fault, and that of
/// absences at each name that is missing, save where the names are known and lack it. A count that has reached the last
/// u64 stays there, and counts as risen.
pub trait Inputs {
    /// What the inputs have come to.
    ghost state: { Self → InputsState };

    /// Begins the input of this name, at its first byte, also where it was selected before.
    /// After an error no input is selected; `InputsRefuse` says what caused it.
    fn select(&mut self, name: &str) -> Result<(), SelectFault>
        ensures opened { OnOk result (OpensInput (state self.old) name.now (state self.new)) }
        ensures refused { IfErr result (InputsRefuse (state self.old) name.now (state self.new)) }
        ensures not_selected { OnErr result ((state self.new).selected ≡ false) }
        ensures no_fault { OnOk result (NoInputFault (state self.old) (state self.new)) }
        ensures asks { AsksForName name.now (state self.new) }
        ensures at_most_one_more { AsksOnce (state self.old) (state self.new) }
        ensures stays { InputsStay (state self.old) (state self.new) }
        ensures fits { InputCountsFit (state self.new) };

    /// Puts the next bytes of the selected input at the start of the buffer, and answers how many.
    /// 0 for a buffer that is not empty is the end. After an error no input is selected, and the buffer may hold
    /// anything: the system promises nothing of it where a read fails.
    fn read(&mut self, buf: &mut [u8]) -> Result<usize, Failed>
        requires { (state self.old).selected ≡ true }
        ensures read { IfOk result (λ n. TakesInput (state self.old) (take n buf.new) (state self.new)) }
        ensures within { IfOk result (λ n. n ≤ length buf.old) }
        ensures end { IfOk result (λ n. n ≡ 0 → 0 < length buf.old → AtEnd (state self.new).rest) }
        ensures no_end { IfOk result (λ n. 0 < n → (state self.new).ends ≤ (state self.old).ends) }
        ensures length { length buf.new ≡ length buf.old }
        ensures failed { OnErr result (ReadFails (state self.old) (state self.new)) }
        ensures no_fault { OnOk result (NoInputFault (state self.old) (state self.new)) }
        ensures asks { AsksForNoInput (state self.old) (state self.new) }
        ensures stays { InputsStay (state self.old) (state self.new) }
        ensures fits { InputCountsFit (state self.new) };
}
