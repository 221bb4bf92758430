//! Assembling a text line by line. `fast` may be skipped: without it each answer is the same, by the same contracts.
mod fast;
mod header;
mod lines;
mod reading;

pub use lines::AsmLines;
