//! Why a text gives no flash.

/// Why a text gives no flash: the fault of its first bad line, a missing record 01, or want of memory (the order of the
/// faults is this project's choice). Lines count from 1.
#[derive(Clone, Copy, Drop)]
pub enum McsFault {
    /// The line is neither empty nor a record of type 00 to 05, or it is a record after the record 01.
    Line(u64),
    /// The record's last byte doesn't make the sum of its bytes 0 modulo 256.
    Sum {
        /// The line.
        line: u64,
        /// The byte that makes the sum 0 modulo 256.
        want: u8,
        /// The byte that stands there.
        got: u8,
    },
    /// An earlier record gave a byte for a place of this record too: the least such place, whatever its bytes.
    Overlap(u32),
    /// No line is bad, and there is no record 01.
    NoEnd,
    /// The line has a data byte at the place 134,217,728, which is `IMAGE_LIMIT`, or after it.
    TooLarge(u64),
    /// There was no memory for the bytes, for the marks of their places, or for the beginning of a line.
    NoMemory,
}
