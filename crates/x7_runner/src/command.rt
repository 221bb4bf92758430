//! The command that the cases are of.
use std::alloc::Global;
use x7_in_memory::{MemoryFlash, MemoryInputs, MemorySink};

/// A command over objects in memory.
pub trait Command {
    /// Runs the command that the words ask for, and gives its status.
    fn run(
        &self,
        alloc: Global,
        words: &Vec<String>,
        inputs: &mut MemoryInputs,
        flash: &mut MemoryFlash,
        out: &mut MemorySink,
        err: &mut MemorySink,
    ) -> u8;
}
