//! Blanks in place of comments, and of 0D before 0A.
ghost use Rattle.std.specs.Prelude.{◌≡◌, ◌+◌, false, length};
ghost use Rattle.x7_svf.specs.Comment.{has_first_byte, clean_text, is_inside, stand_in};

/// Whether a text begins with a byte.
fn has_first_byte(text: &[u8], byte: u8) -> bool
    ensures { result ≡ has_first_byte byte text.now }
{
    match text {
        [first, ..] => *first == byte,
        [] => false,
    }
}

/// Whether a byte is one of a comment, by whether the byte before it was one. A comment begins at `!`, or at `//`, and
/// ends before 0A.
fn is_inside(after_comment_byte: bool, byte: u8, after: &[u8]) -> bool
    ensures { result ≡ is_inside after_comment_byte byte after.now }
{
    if after_comment_byte {
        byte != b'\n'
    } else {
        byte == b'!' || byte == b'/' && has_first_byte(after, b'/')
    }
}

/// The byte that stands in the place of one: a blank for a byte of a comment, and for 0D before 0A; else the byte
/// itself.
fn stand_in(is_in_comment: bool, byte: u8, after: &[u8]) -> u8
    ensures { result ≡ stand_in is_in_comment byte after.now }
{
    if is_in_comment || byte == b'\r' && has_first_byte(after, b'\n') {
        b' '
    } else {
        byte
    }
}

/// Puts blanks in the place of comments, and of 0D before 0A, byte for byte.
pub(crate) fn clean(text: &mut Vec<u8>)
    ensures cleaned { text.new.items ≡ clean_text false text.old.items }
    ensures length { length text.new.items ≡ length text.old.items }
{
    let mut is_in_comment = false;
    for at in 0..text.len() {
        let byte = text[at];
        let after = &text[at + 1..];
        is_in_comment = is_inside(is_in_comment, byte, after);
        let shown = stand_in(is_in_comment, byte, after);
        text[at] = shown;
    }
}
