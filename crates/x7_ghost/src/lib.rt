//! Values that proofs know and a program doesn't keep.
#![tactic(auto)]

mod flash_calls;
mod value;

pub use flash_calls::FlashCalls;
pub use value::{Ghost, GhostOf};
