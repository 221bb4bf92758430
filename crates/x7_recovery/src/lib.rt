//! What a device does with a flash that has an open slot, as an image has and a flash after an update, and with one
//! that a power loss left in an update: laws alone.
#![tactic(auto)]

mod clean_law;
mod golden_law;
mod image_law;
mod laws;
mod open_law;
mod region_law;

pub use clean_law::{updated_flashes_fall_back, updates_keep_golden_streams};
pub use golden_law::{
    flashes_between_slots_lead_nowhere, flashes_that_lead_nowhere_start_alike,
    found_flashes_boot_alike, full_streams_start,
};
pub use image_law::{images_boot, premises_hold};
pub use laws::{found_flashes_boot, images_are_prepared, images_are_updatable};
pub use open_law::{flashes_have_an_open_slot, open_slots_boot};
pub use region_law::{regions_boot_alone, updated_regions_boot_alike};
