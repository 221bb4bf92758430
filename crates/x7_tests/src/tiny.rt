//! The part that most tests stand on.

/// Four frames of 101 words, two in each half.
pub(crate) const TINY: &[u8] =
    b"name = \"tiny\"\nidcode = 0x0362D093\nmode = 1\nrow = [{block = 0, half = 0, row = 0, minors = [2]}, {block = 0, half = 1, row = 0, minors = [2]}]\n";
