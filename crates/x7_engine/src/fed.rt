//! What a feed answers.

/// What a feed came to (this project's choice). Each number is that of the bytes taken of this piece.
#[derive(Clone, Copy, PartialEq, Eq)]
pub enum Fed {
    /// Every byte was taken, nothing stopped the device, and no word is due.
    All,
    /// The device has a fault, which came at the last byte taken, or before this call where the number is 0.
    Stopped(usize),
    /// The device obeyed an IPROG, at the last byte taken, or before this call where the number is 0.
    Iprog(usize),
    /// Nothing stopped the device, a word is due, and the buffer is full. The next feed goes on with the words due.
    ReadFull(usize),
}
