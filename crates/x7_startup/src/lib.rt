//! The startup sequence, its three lines and its ticks, and the configuration watchdog, byte by byte (UG470, startup,
//! watchdog).
#![tactic(auto)]

mod laws;
mod lines;
mod phases;
mod startup;
mod watchdog;

pub use laws::phases_never_fall;
pub use lines::Lines;
pub use phases::{LAST_PHASE, TICK_SIZE};
pub use startup::Startup;
pub use watchdog::Watchdog;
