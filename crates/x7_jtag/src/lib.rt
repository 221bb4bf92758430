//! The test access port of a device (IEEE 1149.1), and the play of SVF statements on it.
#![tactic(auto)]

mod instruction;
mod laws;
mod play;
mod queue;
mod state;
mod tap;
mod text;

pub use instruction::Instruction;
pub use laws::{
    devices_take_what_is_given, five_ones_reset, queues_are_sound, queues_are_those_of_events,
};
pub use play::{Differ, play_svf};
pub use state::State;
pub use tap::Tap;
pub use text::play_line;
