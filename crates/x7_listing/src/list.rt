//! Listing a stream: each run that the cutter gives is put by the pen. `fast` may be skipped: without it each answer is
//! the same, by the same contracts.
mod fast;
mod lister;
mod pen;

pub use lister::Lister;
