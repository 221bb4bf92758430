//! What a text in serial vector format (SVF) says: its statements, or the line at fault.
#![tactic(auto)]

mod bits;
mod comment;
mod fault;
mod fields;
mod laws;
mod reader;
mod source;
mod span;
mod statement;
mod stored;
mod svf;
mod token;
mod words;

pub use bits::Bits;
pub use fault::SvfFault;
pub use laws::bits_are_those_of_the_value;
pub use statement::{Scan, ScannedRegister, Statement};
pub use svf::{SVF_TEXT_LIMIT, Svf, svf_from, svf_of};
