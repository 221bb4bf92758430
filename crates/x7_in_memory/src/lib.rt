//! Inputs, a sink and a flash in memory, known whole, whose calls can be made to fail.
#![tactic(auto)]

mod calls;
mod flash;
mod inputs;
mod laws;
mod named_bytes;
mod sink;

pub use flash::MemoryFlash;
pub use inputs::MemoryInputs;
pub use laws::memory_flashes_give_what_was_written;
pub use sink::MemorySink;
