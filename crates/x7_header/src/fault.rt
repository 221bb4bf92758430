//! Why bytes have no header.

/// Why no header was read. Places count from 0.
#[derive(Clone, Copy, Drop)]
pub enum HeaderFault {
    /// The input doesn't begin with the thirteen fixed bytes.
    Raw,
    /// The input ends inside the header, at this place, which is its length.
    Cut(usize),
    /// The byte at this place should be a field's letter and is not.
    Field(usize),
}
