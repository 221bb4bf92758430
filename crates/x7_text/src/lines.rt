//! The first line of a text, lines without meaning, and what stands after a prefix.
ghost use Rattle.std.specs.Prelude.{◌≡◌, ◌≢◌, ℕ, List, ◌<◌, [], ◌∷◌, ◌++◌, length, MatchOption};
ghost use Rattle.x7_text.specs.Lines.{means_nothing, split};

use memchr::memchr;

/// The text before the first line end, and the text after it: all of the text and `None` where no line end stands.
pub fn first_line(text: &[u8]) -> (&[u8], Option<&[u8]>)
    ensures { MatchOption result.1 (split text.now ≡ result.0.now ∷ [])
        (λ more. (split text.now ≡ result.0.now ∷ split more.now) × (length more.now < length text.now)) }
{
    match memchr(b'\n', text) {
        Some(at) => (&text[..at], Some(&text[at + 1..])),
        None => (text, None),
    }
}

/// The byte that begins a comment.
const COMMENT: u8 = b'#';

/// Whether a line is empty, or a comment, which `#` begins.
pub fn means_nothing(line: &[u8]) -> bool
    ensures { result ≡ means_nothing line.now }
{
    line.len() == 0 || line[0] == COMMENT
}

/// What stands after a prefix of the text: `None` where the text doesn't begin with it.
pub fn after<'t>(text: &'t [u8], prefix: &[u8]) -> Option<&'t [u8]>
    ensures { MatchOption result ((rest : List ℕ) → text.now ≢ prefix.now ++ rest) (λ rest. text.now ≡ prefix.now ++ rest.now) }
{
    text.strip_prefix(prefix)
}
