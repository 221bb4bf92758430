//! What a header holds.

/// The header that the vendor's tool writes before a stream's data (not in UG470): its fields, lent from where they
/// were read.
#[derive(Clone, Copy)]
pub struct Head<'b> {
    /// The design.
    pub a: &'b [u8],
    /// The part.
    pub b: &'b [u8],
    /// The date.
    pub c: &'b [u8],
    /// The time.
    pub d: &'b [u8],
    /// How many bytes the header says that the data has.
    pub length: u32,
    /// How many bytes the header itself has.
    pub size: usize,
}

/// The most bytes of a field of text: its count has two bytes.
pub const LONGEST_TEXT: usize = 65_535;

/// The thirteen bytes before a header's first field.
pub(crate) const FIXED_BYTES: [u8; 13] = [
    0x00, 0x09, 0x0F, 0xF0, 0x0F, 0xF0, 0x0F, 0xF0, 0x0F, 0xF0, 0x00, 0x00, 0x01,
];
