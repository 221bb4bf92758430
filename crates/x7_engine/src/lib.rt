//! A device: its state is a function of its part, of all bytes since its reset, in whatever pieces they come, of what
//! the reset kept, and of whether the flash has ended.
#![tactic(auto)]

mod clock;
mod controls;
mod device;
mod due;
mod fault;
mod fed;
mod kept;
mod laws;
mod progress;
mod read_buffer;
mod readout;
mod registers;
mod snapshot;
mod stop;
mod target;
mod until_started;
mod value;
mod values;
mod words;

pub use device::{Device, UNDO_REACH, Undo, flash_may_end};
pub use due::Due;
pub use fault::Fault;
pub use fed::Fed;
pub use kept::{Kept, ON_THE_BENCH, is_fallback};
pub use laws::{
    alike_bytes_do_alike, checks_before_startup, controls_take_masked_bits, fallbacks_do_alike,
    fallbacks_wait_for_the_sync_word, phases_are_the_greatest_begun, reads_are_given_or_due,
    reads_grow, rest_lasts, shutdowns_and_ghigh, startup_begins, stopped_devices_have_a_stop,
    stops_are_final, stops_are_first, watchdog_fires, wraps_show_in_bootsts,
};
pub use read_buffer::ReadBuf;
pub use snapshot::{End, SHOWN_COUNT, Snapshot};
pub use stop::StopCause;
pub use until_started::UntilStarted;
