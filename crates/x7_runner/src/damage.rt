//! An input that is damaged in each of many ways, one after the other.
use crate::fault::Fault;
use crate::named::{Named, bytes_of, put_under};
use crate::token::{first_word, range_of};
use std::alloc::Global;
use x7_in_memory::MemoryInputs;

/// How an input is damaged.
#[derive(Drop)]
pub(crate) enum Damage {
    /// The input ends after this number of bytes.
    Cut,
    /// The input's bit of this number is changed, counted from 0 at the highest bit of the first byte.
    Bit,
}

/// An input that is damaged, if there is one, and the numbers of its damages: a run for each.
#[derive(Drop)]
pub(crate) struct Damaged {
    alloc: Global,
    /// At most one: the input before the damage.
    inputs: Vec<Named>,
    /// How the input is damaged.
    damage: Damage,
    /// The number of the first damage.
    pub(crate) from: u32,
    /// The number after that of the last damage.
    pub(crate) to: u32,
}

/// Changes the bit of this number, where there is one. Bits count from 0, from the highest of the first byte on.
fn change_bit(bytes: &mut [u8], number: u32) {
    let place = (number / 8) as usize;
    if let Some(byte) = bytes.get_mut(place) {
        *byte ^= 0x80 >> (number % 8);
    }
}

impl Damaged {
    /// No input to damage, and one number, for which nothing is damaged.
    pub(crate) fn new(alloc: Global) -> Damaged {
        Damaged {
            alloc,
            inputs: Vec::new(alloc),
            damage: Damage::Cut,
            from: 0,
            to: 1,
        }
    }

    /// Whether there is an input to damage.
    pub(crate) fn has_input(&self) -> bool {
        !self.inputs.is_empty()
    }

    /// Takes `NAME OTHER FROM TO`: the bytes of OTHER, to be damaged at each number from FROM up to TO - 1, given under
    /// NAME. There is at most one such line.
    pub(crate) fn put(
        &mut self,
        damage: Damage,
        others: &[Named],
        line: &str,
    ) -> Result<(), Fault> {
        let (name, rest) = first_word(line);
        let (other, places) = first_word(rest);
        let (false, Some((from, to)), Some(bytes)) = (
            self.has_input(),
            range_of(places),
            bytes_of(others, other),
        ) else {
            return Err(Fault::Line);
        };
        self.damage = damage;
        self.from = from;
        self.to = to;
        put_under(self.alloc, &mut self.inputs, name, bytes)
    }

    /// Puts the input with the damage of this number, where there is one.
    pub(crate) fn give(&self, inputs: &mut MemoryInputs, number: u32) -> Result<(), Fault> {
        let Some(named) = self.inputs.first() else {
            return Ok(());
        };
        let mut bytes = Vec::from_slice(self.alloc, &named.bytes)?;
        match self.damage {
            Damage::Cut => bytes.truncate(number as usize),
            Damage::Bit => change_bit(&mut bytes, number),
        }
        inputs
            .put(named.name.as_str(), &bytes)
            .or(Err(Fault::NoMemory))
    }
}
