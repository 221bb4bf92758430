//! Forwards and backwards through a stream: a script of orders, and a session that follows it.
#![tactic(auto)]

mod fault;
mod journal;
mod laws;
mod line;
mod moving;
mod order;
mod outline;
mod script;
mod session;
mod showing;
mod until;

pub use fault::ScriptFault;
pub use laws::{every_script_is_read, one_order, one_script, until_leads_to_the_least};
pub use order::{Order, Stop};
pub use script::{Script, script_of};
pub use session::Session;
pub use showing::transcript;
