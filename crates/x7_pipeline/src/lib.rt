//! Frames on their way: where each frame of a write lands, what a copy and a readback do, and FAR as read.
#![tactic(auto)]

mod fault;
mod laws;
mod pipeline;
mod place;

pub use fault::RunFault;
pub use laws::{
    a_saved_frame_leads_back, far_is_read_by_slots, faults_come_where, mfw_takes_the_newest_frame,
    pipelines_of_the_same_are_equal, readbacks_give_frames_along_slots,
    refused_words_change_nothing, runs_land_in_slot_order, words_go_up_to_the_first_refused,
};
pub use pipeline::{Pipeline, Saved};
