//! The running check over writes to registers: each word and the number of its register, as CRC-32C.
#![tactic(auto)]

mod block_table;
mod check;
mod checker;
mod laws;
mod table;
mod written;

pub use check::{fold, fold_slice};
pub use checker::{Checker, PieceChecker};
pub use laws::{checks_are_linear, checks_are_remainders, checks_continue, checks_of_histories};
pub use written::{check_after_write, executed, is_command};
