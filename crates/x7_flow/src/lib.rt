//! The frames of a history of accesses: what a frame pipeline stands for, and the memory.
#![tactic(auto)]

mod asking;
mod frames;
mod laws;
mod settings;
mod taking;

pub use asking::reads_frames;
pub use frames::Frames;
pub use laws::{
    accesses_do_what_they_ask, flows_go_by_accesses, flows_go_by_settings,
    frames_stand_for_one_more, later_histories_join, later_histories_override, memory_has_frames,
    mfw_takes_the_last_frame, quiet_accesses_move_no_frame, refusals_have_causes,
    saved_frames_lead_back, stretches_override_in_order, words_at_once_land, words_have_room,
    written_frames_are_a_plan, written_frames_land_in_order,
};
pub use settings::FrameSettings;
