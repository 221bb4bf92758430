//! Short runs of a session, several at a time, put on a sheet first. The lister without this module lists the same, by
//! the same contract.
mod sheet;
mod short_runs;

pub(crate) use sheet::SHEET_SIZE;
pub(crate) use short_runs::take_short;
