//! The commonest lines of a listing, read with no search for the line's end. The assembler without this module gives
//! the same, by the same contracts.
mod line_end;
mod quick;
mod write_pairs;

pub(crate) use line_end::next_line;
pub(crate) use quick::{WholeLines, read_quick};
