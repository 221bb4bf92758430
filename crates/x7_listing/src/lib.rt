//! The listing of a configuration stream as it comes, and a listing assembled back to its bytes.
#![tactic(auto)]

mod asm;
mod assembler;
mod laws;
mod line;
mod list;

pub use asm::AsmLines;
pub use assembler::{ASM_LIMIT, AsmFault, assemble};
pub use laws::{
    every_text_is_assembled, few_bytes_are_held, few_bytes_of_runs_are_held, head_line_leads_back,
    header_line_is_its_own, lines_hold_no_end, listed_is_a_prefix, listing_assembles_back,
    listing_is_short, little_text_is_held, one_line, one_listing, one_outcome,
};
pub use line::header_line;
pub use list::Lister;
