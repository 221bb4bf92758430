//! Parts: their rows, the frame addresses in order, and the slots of frame data.
#![tactic(auto)]

mod address;
mod checks;
mod column;
mod fault;
mod keys;
mod laws;
mod limits;
mod part;
mod part_file;
mod ranges;
mod row;
mod settings;
mod slot;
mod table;
mod values;

pub use fault::{PartFault, PartKey, Which};
pub use laws::{rows_are_in_order, slots_follow_the_addresses};
pub use limits::{LARGE_START_UNIT, MOST_FRAME_WORDS};
pub use part::Part;
pub use part_file::part_of;
pub use slot::Slot;
