//! Why an input is refused.

/// Why an input has no reading or comes to nothing that can be written, what the part lacks of what is asked of it, or
/// why a flash can't be updated, or a flash or an image can't hold the stream. Lines count from 1, bytes and places in
/// a flash from 0.
#[derive(Clone, Copy, Drop)]
pub enum InputFault {
    /// The byte of a stream's header that should be a field's letter and is not, or the stream's length where it ends
    /// inside the header.
    Byte(u64),
    /// The first line outside the grammar.
    Line(u64),
    /// The first line at which the result passes its limit.
    LongLine(u64),
    /// The first line with a record whose last byte isn't the one that makes the sum of its bytes 0, modulo 256.
    Sum {
        /// The line.
        line: u64,
        /// The byte that makes the sum 0.
        want: u8,
        /// The byte that stands there.
        got: u8,
    },
    /// The first line with data that end past the end of the largest flash.
    LargeLine(u64),
    /// The least place of a flash that a line gives and an earlier one gave.
    Overlap(u32),
    /// There is no end record, the last line of an Intel HEX text.
    NoEnd,
    /// The first line with an address that the part lacks.
    AddressLine(u64),
    /// The first line with an address that an earlier line has.
    TwiceLine(u64),
    /// The frames text plans no frame.
    Empty,
    /// The part has no frame at the address.
    Foreign,
    /// The number of slots to read is 0, or more than there are from the address on.
    Range,
    /// An image with this update stream would be larger than a flash may be.
    Image,
    /// The stream would end past the end of the flash.
    Long,
    /// The flash can't be updated: the first place that shows it, or the flash's size in bytes.
    Layout(u64),
}
