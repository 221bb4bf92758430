//! The command `x7`: the call that runs it, over what its forms read, work out and write.
#![tactic(auto)]

mod top;

pub use top::run;
pub use x7_device_forms::{boot_text, gen_text};
pub use x7_forms::{Form, InputFault, Status, Why, words_of};
pub use x7_report::report;
