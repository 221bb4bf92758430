//! The registers and commands of the configuration logic: their numbers, codes and names, five fields of control
//! register 0, the fields of configuration options register 0 by which startup goes, and the words of the status
//! registers.
#![tactic(auto)]

mod boot_status;
mod command;
mod control;
mod laws;
mod name;
mod named;
mod register;
mod startup_options;
mod status;

pub use boot_status::{Attempt, Cause, Kind, boot_word};
pub use command::{Command, command_code_of, command_of};
pub use control::{
    CONFIG_FALLBACK, GLUTMASK_B, GTS_USER_B, forbids_fallback, forbids_reading, forbids_writing,
    has_dec,
};
pub use laws::{
    codes_are_distinct, names_are_distinct, numbers_are_distinct, status_has_its_fields,
};
pub use name::{CommandName, RegName, command_name, name_of};
pub use named::{command_named, reg_named};
pub use register::{Reg, reg_of};
pub use startup_options::{DONE_CYCLE, DONE_PIPE, GTS_CYCLE, GWE_CYCLE, LOCK_CYCLE, MATCH_CYCLE};
pub use status::{StatParts, stat_word};
