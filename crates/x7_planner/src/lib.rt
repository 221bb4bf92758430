//! Streams for plans: whole configurations, changes of some frames, and readbacks.
#![tactic(auto)]

mod address;
mod burst;
mod content;
mod control_words;
mod fault;
mod full_stream;
mod group;
mod partial_stream;
mod read_stream;
mod writer;

pub use fault::PlanFault;
pub use full_stream::{FullStream, NextPiece, PIECE_LIMIT, full};
pub use partial_stream::partial;
pub use read_stream::readback;
