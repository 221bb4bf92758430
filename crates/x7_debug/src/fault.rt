//! Why a text gives no script.
use thiserror::Error;

/// Why a script was refused. Lines count from 1.
#[derive(Clone, Copy, Debug, Drop, Error)]
pub enum ScriptFault {
    /// The number of the first line that is neither empty, nor a comment, nor an order.
    #[error("line {0} is no order")]
    Line(u64),
    /// There was no memory for the script.
    #[error("no memory")]
    NoMemory,
}
