//! What a feed up to the end of startup answers.

use crate::fed::Fed;

/// What a feed up to the end of startup came to (this project's choice).
#[derive(Clone, Copy)]
pub enum UntilStarted {
    /// Startup has ended, at the last of the bytes taken of this piece, whose number this is, or before this call where
    /// the number is 0. No word is due. The device may have stopped, too.
    Started(usize),
    /// What a feed answers. Startup hasn't ended; but where a word is due, it may have ended at the last byte taken, or
    /// before this call: the first call that leaves no word due says so.
    Fed(Fed),
}
