//! The play of streams on a device, while they are read.
#![tactic(auto)]

mod player;
mod playing;

pub use player::Player;
pub use playing::play_streams;
