//! What a device's frames are, and the frames that a user plans to write.
#![tactic(auto)]

mod draft;
mod frame;
mod laws;
mod memory;
mod plan;
mod rows;
mod zeros;

pub use draft::Draft;
pub use frame::set_frame;
pub use laws::{maps_override_by_address, memories_are_maps, plans_are_maps};
pub use memory::Memory;
pub use plan::Plan;
pub use zeros::are_zeros;
