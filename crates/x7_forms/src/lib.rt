//! What the forms of the command `x7` stand on: their words, how inputs are read, the part of a part file, and the line
//! that is said where there is no whole text.
#![tactic(auto)]

mod bad_input;
mod beginning;
mod form;
mod message;
mod part;
mod read;
mod refusal;
mod status;

pub use bad_input::InputFault;
pub use beginning::{Beginning, read_beginning};
pub use form::{Form, words_of};
pub use part::read_part;
pub use read::{
    SCRIPT_LIMIT, STREAM_LIMIT, TEXT_LIMIT, TURN_SIZE, Turn, data_start, next_turn, open,
    read_whole, skip_rest,
};
pub use refusal::{Refusal, Why};
pub use status::Status;
