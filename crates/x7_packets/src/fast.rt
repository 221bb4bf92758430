//! Looks at 32 bytes at once: for the sync word, and for equal words in a row. One may skip this module: code that goes
//! byte by byte and word by word would meet the same contracts.
mod nops;
mod places;

pub(crate) use nops::count_equal;
pub(crate) use places::{PLACES_REACH, first_of_places, first_sync};
