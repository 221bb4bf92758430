//! Frame texts: a plan from a text, and the text of a plan.
#![tactic(auto)]

mod fault;
mod frame_lines;
mod frames_text;
mod laws;
mod line;
mod text;

pub use fault::FramesFault;
pub use frame_lines::FrameLines;
pub use frames_text::plan_of;
pub use laws::{every_text_is_read, memory_wants_for_good_lines, one_plan, plan_text_leads_back};
pub use text::plan_text;
