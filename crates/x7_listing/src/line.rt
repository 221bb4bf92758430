//! The lines of a listing, written.
mod bit_line;
mod head_line;
mod tables;

pub use bit_line::header_line;
pub(crate) use head_line::{put_command, put_head, put_sync};
pub(crate) use tables::{COMMAND_CODES, TEXT_SIZE_AT, command_row, name_row, write_row};

/// How many bytes the word `data` has.
pub(crate) const DATA_SIZE: usize = 4;

/// How many bytes a word has in a `data` line: a space and eight digits.
pub(crate) const SPACED_WORD_SIZE: usize = 9;

/// How many bytes the word `bytes` and the space after it have.
pub(crate) const BYTES_SIZE: usize = 6;
