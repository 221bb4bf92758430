//! The next line of an assembly text: its end is sought among 32 bytes first, since lines are short as a rule.
ghost use Rattle.std.specs.Prelude.{◌≡◌, ◌<◌, ◌==◌, [], ◌∷◌, length, map, MatchOption};
ghost use Rattle.std.specs.Simd.Lanes.{mask_l};
ghost use Rattle.x7_text.specs.Lines.{split};
ghost use Rattle.x7_words.specs.Characters.{line_end_byte};

use std::simd::prelude::*;
use x7_text::first_line;

/// A bit for each line end among 32 bytes, that of the first byte lowest.
#[inline(always)]
fn line_ends(bytes: u8x32) -> u64
    ensures { result ≡ mask_l (map (λ c. c == line_end_byte) bytes) }
{
    bytes.simd_eq(u8x32::splat(b'\n')).to_bitmask()
}

/// The text before the first line end, and the text after it: `None` where no line end stands. An end among the first
/// 32 bytes is seen at once.
#[inline(always)]
pub(crate) fn next_line(text: &[u8]) -> (&[u8], Option<&[u8]>)
    ensures { MatchOption result.1 (split text.now ≡ result.0.now ∷ [])
        (λ more. (split text.now ≡ result.0.now ∷ split more.now) × (length more.now < length text.now)) }
{
    if text.len() < 32 {
        return first_line(text);
    }
    let at = line_ends(u8x32::from_slice(text)).trailing_zeros() as usize;
    if at > 31 {
        return first_line(text);
    }
    (&text[..at], Some(&text[at + 1..]))
}
