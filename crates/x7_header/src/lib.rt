//! The header that the vendor's tool writes before a stream's data, read and written.
#![tactic(auto)]

mod fault;
mod field;
mod header;
mod progress;
mod reading;
mod writing;

pub use fault::HeaderFault;
pub use header::{Head, LONGEST_TEXT};
pub use progress::wanted;
pub use reading::header_of;
pub use writing::write_header;
