//! The words of a read that are still to be given.

/// The words of the last read that are still to be given to a buffer (this project's choice).
#[derive(Clone, Copy)]
pub enum Due {
    /// No word is due.
    Nothing,
    /// One word is due, this many times.
    Same {
        /// The word.
        word: u32,
        /// How often the word is due, which may be 0.
        count: u32,
    },
    /// Words of frame data are due, as many as the number, which may be 0.
    Frames(u32),
}
