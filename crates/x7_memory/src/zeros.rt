//! Whether words are zeros.
ghost use Rattle.std.specs.Prelude.{◌≡◌};
ghost use Rattle.x7_memory.specs.PartFrames.{are_zeros};

/// Whether all words are 0. The first word is looked at before the rest: most frames that aren't zeros show it there.
pub fn are_zeros(words: &[u32]) -> bool
    ensures { result ≡ are_zeros words.now }
{
    match words.first() {
        Some(word) if *word != 0 => false,
        _ => has_no_bit(words),
    }
}

/// Whether no word has a bit that is 1.
fn has_no_bit(words: &[u32]) -> bool
    ensures { result ≡ are_zeros words.now }
{
    let mut any = 0;
    for word in words {
        any |= *word;
    }
    any == 0
}
