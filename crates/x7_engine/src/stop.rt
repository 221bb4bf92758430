//! What ends the taking of bytes.

use crate::fault::Fault;

/// What stopped a device (UG470, configuration registers).
#[derive(Clone, Copy)]
pub enum StopCause {
    /// A fault.
    Fault(Fault),
    /// An IPROG command that the device obeyed; a fallback ignores one.
    Iprog,
}
