//! The calls of a flash, with their answers.
use crate::input::SelectFault;

/// A call of a flash, with its answer. Proofs alone speak of it, and no value of it is made: `[u8; 0]` is a list of
/// bytes of any length. Places and counts are in bytes; sectors count from 0.
pub enum FlashCall {
    /// A flash of so many bytes was attached under this name.
    Attached([u8; 0], u64),
    /// No flash was attached under this name, for this reason.
    NotAttached([u8; 0], SelectFault),
    /// A read from a place on gave these bytes.
    Read(u64, [u8; 0]),
    /// A read of so many bytes from a place on failed.
    ReadFailed(u64, u64),
    /// A sector was erased.
    Erased(u64),
    /// An erase of a sector failed.
    EraseFailed(u64),
    /// These bytes were programmed from a place on.
    Programmed(u64, [u8; 0]),
    /// A program of these bytes from a place on failed.
    ProgramFailed(u64, [u8; 0]),
}
