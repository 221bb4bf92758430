//! What planned streams do on a device at rest: laws of the definitions, for the proofs of crates above.
#![tactic(auto)]

mod laws;

pub use laws::{
    full_streams_play, partial_streams_play, partial_streams_write_once, read_streams_play,
    streams_play_in_turn,
};
