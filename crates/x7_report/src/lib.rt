//! The text of a device: its report, whole or made as it is written, and the lines of it.
#![tactic(auto)]

mod frames;
mod reads;
mod reports;
mod state;
mod streamed;

pub use frames::{frame_line, put_frame};
pub use reports::report;
pub use state::{end_words, phase_line, reg_lines};
pub use streamed::PlayText;
