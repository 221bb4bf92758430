//! The forms of the command that show a device, or that read or write a flash: a module for each.
#![tactic(auto)]

pub mod boot;
pub mod debug;
pub mod generate;
pub mod play;
pub mod svf;
pub mod update;

pub use boot::boot_text;
pub use generate::gen_text;
