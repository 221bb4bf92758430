//! Intel HEX flash files: the bytes that a text gives, and the text of bytes.
#![tactic(auto)]

mod blocks;
mod fault;
mod flash;
mod image;
mod laws;
mod lines;
mod mcs_lines;
mod record;
mod row;
mod step;
mod text;

pub use blocks::McsText;
pub use fault::McsFault;
pub use flash::flash_of;
pub use image::IMAGE_LIMIT;
pub use laws::{
    bytes_by_place, lines_in_turn, overlap_is_the_least, records_are_apart, rows_in_parts,
    text_is_short, text_leads_back, want_of_memory_is_no_fault,
};
pub use mcs_lines::McsLines;
pub use text::{mcs_text, put_rows};
