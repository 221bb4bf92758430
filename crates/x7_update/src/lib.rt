//! The update of a flash that may lose its power at any moment: the open slot is spent, the stream is written and
//! verified, and the next slot is opened.
#![tactic(auto)]

mod call_laws;
mod fault;
mod laws;
mod layout;
mod slots;
mod steps;
mod switch;
mod verify;
mod write;

pub use call_laws::{
    honest_flashes_are_updated, update_calls_leave, update_calls_of_three_sectors,
    update_calls_write_once,
};
pub use fault::UpdateFault;
pub use laws::{
    flashes_between_slots_hold_no_sync_word, left_flashes_are_updatable,
    updatable_flashes_are_not_refused, updates_have_one_outcome,
};
pub use steps::update;
