//! The outside for real: files of the system as inputs and as a flash, and a writer as a sink.
#![tactic(auto)]

mod agreement;
mod file;
mod file_call;
mod flash;
mod inputs;
mod refusal;
mod sink;

pub use agreement::{Agreement, World};
pub use file::CalledFile;
pub use file_call::FileCall;
pub use flash::FileFlash;
pub use inputs::FileInputs;
pub use sink::StdSink;
