//! Runs worked cases of a command over objects in memory.
#![tactic(auto)]

mod command;
mod comparing;
mod damage;
mod expected;
mod failing;
mod fault;
mod given;
mod named;
mod notes;
mod running;
mod subject;
mod token;
mod trial;

pub use command::Command;
pub use fault::Fault;
pub use subject::report_cases;
