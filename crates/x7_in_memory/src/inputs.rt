//! Inputs in memory.
ghost use Rattle.std.specs.Prelude.{◌≡◌, [], ◌<◌, ◌≤◌, ◌+◌, ◌^◌, take, drop, length, Some, None, true, is_some, is_err, OnOk, OnErr, IfOk};
ghost use Rattle.x7_words.specs.Count.{IsLaterCount};
ghost use Rattle.x7_words.specs.Input.{preceded, AtEnd};
ghost use Rattle.x7_in_memory.specs.Memory.{next_fails, with_failing_call, no_calls, after_put, select_answer, after_memory_select, read_count, inputs_after_read, known_inputs};

use crate::calls::Calls;
use crate::named_bytes::{NamedBytes, left_at, next_place, place_of};
use std::alloc::Global;
use std::marker::Model;
use x7_words::{Failed, Inputs, NoMemory, SelectFault, ends_counted, raised};

/// Inputs in memory, known whole: what was put under each name last is what a select of it gives.
///
/// Each select and each read has the next number, from 1, and those that are to fail fail.
pub struct MemoryInputs {
    /// What was put, the last first.
    named: Vec<NamedBytes>,
    /// The place in `named` of the selected input, and how many bytes were given since the last select.
    selected: Option<usize>,
    given: usize,
    /// The place in `named` of the name last asked for, where it is there.
    asked: Option<usize>,
    /// How many selects there were.
    selects: u64,
    /// How many reads gave nothing.
    ends: u64,
    /// The most bytes that a read gives.
    most: usize,
    calls: Calls,
    /// How many selects and reads failed.
    faults: u64,
    alloc: Global,
}

impl Drop for MemoryInputs {
    fn drop(self) {
        let MemoryInputs {
            named: _,
            selected: _,
            given: _,
            asked: _,
            selects: _,
            ends: _,
            most: _,
            calls: _,
            faults: _,
            alloc: _,
        } = self;
    }
}

impl Model for MemoryInputs {
    ghost use Rattle.std.specs.Prelude.{◌<◌, ◌^◌, map, vec_len};
    ghost use Rattle.std.specs.Option.{ForSome};
    ghost use Rattle.x7_in_memory.specs.Memory.{InputsInMemory};

    ghost Value = { InputsInMemory };

    ghost use Rattle.x7_in_memory.specs.NamedBytes.{entry_of, left_of, name_of_place};

    ghost view = { λ m. record {
      entries = map entry_of m.named.items;
      rest = left_of m.named.items m.given m.selected;
      asked = name_of_place m.named.items m.asked;
      selects = m.selects;
      ends = m.ends;
      given = m.given;
      most = m.most;
      calls = m.calls;
      faults = m.faults;
    } };

    ghost invariant = { λ m. (0 < m.most)
        × ForSome m.selected (λ place. place < vec_len m.named)
        × ForSome m.asked (λ place. place < vec_len m.named)
        × (m.selects < 2 ^ 64)
        × (m.ends < 2 ^ 64)
        × (m.faults < 2 ^ 64) };
}

impl MemoryInputs {
    /// No inputs. A read gives as many bytes as the buffer takes and are left.
    pub fn new(alloc: Global) -> MemoryInputs
        ensures { result ≡ record { entries = []; rest = None; asked = None; selects = 0; ends = 0; given = 0; most = usize.MAX; calls = no_calls; faults = 0 } }
    {
        MemoryInputs {
            named: Vec::new(alloc),
            selected: None,
            given: 0,
            asked: None,
            selects: 0,
            ends: 0,
            most: usize::MAX,
            calls: Calls::new(alloc),
            faults: 0,
            alloc,
        }
    }

    /// Puts the bytes under the name, in place of what was there before.
    /// An input that is being read goes on with the bytes that it began with.
    pub fn put(&mut self, name: &str, bytes: &[u8]) -> Result<(), NoMemory>
        ensures put { OnOk result (self.new ≡ after_put self.old name.now bytes.now) }
        ensures unchanged { OnErr result (self.new ≡ self.old) }
    {
        let bytes = Vec::from_slice(self.alloc, bytes)?;
        let name = String::from_str(self.alloc, name)?;
        self.named.insert(0, NamedBytes { name, bytes })?;
        self.selected = next_place(self.selected);
        self.asked = next_place(self.asked);
        Ok(())
    }

    /// The call of this number, from 1, is to fail.
    pub fn fail_at(&mut self, call: u64) -> Result<(), NoMemory>
        ensures planned { OnOk result (self.new ≡ record self.old { calls = with_failing_call self.old.calls call }) }
        ensures unchanged { OnErr result (self.new ≡ self.old) }
    {
        self.calls.fail_at(call)
    }

    /// From now on a read gives no more bytes than this.
    pub fn piece(&mut self, most: usize)
        requires { 0 < most }
        ensures { self.new ≡ record self.old { most = most } }
    {
        self.most = most;
    }
}

impl Inputs for MemoryInputs {
    ghost state = { known_inputs };

    fn select(&mut self, name: &str) -> Result<(), SelectFault>
        ensures answer { result ≡ select_answer self.old name.now }
        ensures after { self.new ≡ after_memory_select self.old name.now }
        ensures at_most_one_more { self.new.selects ≤ self.old.selects + 1 }
        ensures ends { self.new.ends ≤ self.old.ends }
        ensures faults { IsLaterCount self.old.faults self.new.faults }
    {
        self.selected = None;
        self.given = 0;
        self.selects = raised(self.selects);
        self.asked = place_of(&self.named, name);
        let Ok(()) = self.calls.next() else {
            self.faults = raised(self.faults);
            return Err(SelectFault::Failed);
        };
        if self.asked.is_none() {
            return Err(SelectFault::Missing);
        }
        self.selected = self.asked;
        Ok(())
    }

    fn read(&mut self, buf: &mut [u8]) -> Result<usize, Failed>
        requires { is_some self.old.rest ≡ true }
        ensures answer { is_err result ≡ next_fails self.old.calls }
        ensures count { IfOk result (λ n. n ≡ read_count self.old (length buf.old)) }
        ensures taken { IfOk result (λ n. self.old.rest ≡ preceded (take n buf.new) self.new.rest) }
        ensures end { IfOk result (λ n. n ≡ 0 → 0 < length buf.old → AtEnd self.new.rest) }
        ensures kept { IfOk result (λ n. drop n buf.new ≡ drop n buf.old) }
        ensures same_buffer { OnErr result (buf.new ≡ buf.old) }
        ensures length { length buf.new ≡ length buf.old }
        ensures after { self.new ≡ inputs_after_read self.old (length buf.old) }
        ensures at_most_one_more { self.new.ends ≤ self.old.ends + 1 }
        ensures no_end { IfOk result (λ n. 0 < n → self.new.ends ≤ self.old.ends) }
        ensures no_end_on_error { OnErr result (self.new.ends ≤ self.old.ends) }
        ensures faults { IsLaterCount self.old.faults self.new.faults }
    {
        let Some(place) = self.selected else {
            unreachable!()
        };
        let Ok(()) = self.calls.next() else {
            self.selected = None;
            self.faults = raised(self.faults);
            return Err(Failed);
        };
        let left = left_at(&self.named, place, self.given);
        let count = buf.len().min(self.most).min(left.len());
        buf[..count].copy_from_slice(&left[..count]);
        self.ends = ends_counted(count, self.ends);
        self.given += count;
        Ok(count)
    }
}
