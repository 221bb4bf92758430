//! Slots of frame data (UG470, frame data).

/// The number of pads after the last frame of a row (this project's choice).
pub(crate) const PADS_AFTER_ROW: u32 = 2;

/// What stands at a place in the order of writing: a frame, a pad frame, or nothing, past the last slot.
#[derive(Clone, Copy, Drop, PartialEq, Eq)]
pub enum Slot {
    /// The frame at this address.
    Frame(u32),
    /// A pad frame, which belongs to no address.
    Pad,
    /// There is no such slot.
    End,
}
