//! The forms of the command that make a text or a stream, and show no device: a module for each.
#![tactic(auto)]

pub mod asm;
mod full_text;
pub mod image;
pub mod list;
pub mod mcs;
pub mod plan;

pub use full_text::FullText;
