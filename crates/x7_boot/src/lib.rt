//! Flash images with a golden and an update stream, and the boot of a device from a flash.
#![tactic(auto)]

mod attempt;
mod boots;
mod cache;
mod fault;
mod flash_attempt;
mod flash_image;
mod laws;
mod next;
mod pages;
mod text;

pub use attempt::Ending;
pub use boots::{BootEnd, Booted, Tried, boot};
pub use fault::{BootFault, ImageFault};
pub use flash_image::{image, image_for};
pub use laws::{
    every_flash_boots, one_boot, one_course, only_taken_bytes_count, starts_are_checked,
    startup_is_checked,
};
pub use next::Next;
pub use text::boot_lines;
