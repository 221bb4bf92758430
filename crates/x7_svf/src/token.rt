//! The next word, bracket or `;` of a text without comments.
ghost use Rattle.std.specs.Prelude.{◌≡◌, ◌+◌, ◌<◌, ◌≤◌, ◌∷◌, [], ℕ, List, true, false, length, MatchOption, IfSome, Some, None, slice_index, drop, take};
ghost use Rattle.x7_svf.specs.Token.{byte_token, is_blank_byte, is_word_byte, token_of, tokens, token_size, Word};
ghost use Rattle.x7_svf.specs.Reading.{TokenComesNext, PassesBlanks};
ghost use Rattle.x7_svf.specs.Source.{left_after, left_from, tokens_left};
ghost use Rattle.x7_svf.specs.Svf.{tokens_before_end, tokens_after_end};

use crate::source::Source;

/// The token that a text begins with: a word of this many bytes, a bracket or the end of a statement.
#[derive(Clone, Copy)]
pub(crate) enum NextToken {
    Word(usize),
    Open,
    Close,
    End,
}

impl NextToken {
    /// How many bytes the token has.
    pub(crate) fn size(self) -> usize
        ensures { result ≡ token_size self }
    {
        match self {
            NextToken::Word(length) => length,
            _ => 1,
        }
    }
}

/// Whether a byte may stand in a word: it is no blank, no bracket and no `;`.
fn is_word_byte(byte: u8) -> bool
    ensures { result ≡ is_word_byte byte }
{
    !(is_blank_byte(byte) || byte == b'(' || byte == b')' || byte == b';')
}

/// How many bytes the word has that a text begins with; 0 where it begins with none.
fn word_length(text: &[u8]) -> usize
    ensures within { result ≤ length text.now }
    ensures first { (line : ℕ) → 0 < result → tokens line text.now ≡ record { line = line; token = Word (take result text.now) } ∷ tokens line (drop result text.now) }
    ensures no_word { result ≡ 0 → 0 < length text.now → is_word_byte (slice_index text.now 0) ≡ false }
{
    let mut end = 0;
    while end < text.len() && is_word_byte(text[end]) {
        end += 1;
    }
    end
}

/// Whether a byte is a blank: a space, a tab or a line end (0A).
fn is_blank_byte(byte: u8) -> bool
    ensures { result ≡ is_blank_byte byte }
{
    byte == b' ' || byte == b'\t' || byte == b'\n'
}

/// The bracket that a byte is, and the end of a statement for any other byte.
fn bracket_or_end(byte: u8) -> NextToken
    ensures token { (text : List ℕ) → token_of result text ≡ byte_token byte }
    ensures size { token_size result ≡ 1 }
{
    if byte == b'(' {
        NextToken::Open
    } else if byte == b')' {
        NextToken::Close
    } else {
        NextToken::End
    }
}

/// The token that a text begins with, where the text has a byte and its first is no blank.
fn first_token(text: &[u8]) -> NextToken
    requires not_empty { 0 < length text.now }
    requires begins { is_blank_byte (slice_index text.now 0) ≡ false }
    ensures tokens { (line : ℕ) → tokens line text.now ≡ record { line = line; token = token_of result text.now } ∷ tokens line (drop (token_size result) text.now) }
    ensures at_least_one { 0 < token_size result }
    ensures within { token_size result ≤ length text.now }
{
    let end = word_length(text);
    if end > 0 {
        return NextToken::Word(end);
    }
    bracket_or_end(text[0])
}

/// Passes the blanks that come next.
fn skip_blanks(source: &mut Source)
    ensures blanks { PassesBlanks source.old source.new }
    ensures no_blank { 0 < length source.new.rest → is_blank_byte (slice_index source.new.rest 0) ≡ false }
{
    while !source.rest().is_empty() && is_blank_byte(source.rest()[0]) {
        source.pass();
    }
}

/// The token that comes next, after blanks, which are passed; none where the text ends.
pub(crate) fn next(source: &mut Source) -> Option<NextToken>
    ensures tokens { MatchOption result (tokens_left source.old ≡ [])
        (λ t. tokens_left source.old ≡ left_from source.new t) }
    ensures comes_next { IfSome result (TokenComesNext source.new) }
    ensures blanks { PassesBlanks source.old source.new }
{
    skip_blanks(source);
    let rest = source.rest();
    if rest.is_empty() {
        return None;
    }
    Some(first_token(rest))
}

/// The word or bracket of a statement that comes next, after blanks, which are passed; none where the statement, or the
/// text, ends.
pub(crate) fn next_within(source: &mut Source) -> Option<NextToken>
    ensures tokens { MatchOption result (tokens_before_end (tokens_left source.old) ≡ [])
        (λ t. tokens_before_end (tokens_left source.old) ≡ token_of t source.new.rest ∷ tokens_before_end (left_after source.new t)) }
    ensures after_end { IfSome result (λ t. tokens_after_end (tokens_left source.old) ≡ tokens_after_end (left_after source.new t)) }
    ensures comes_next { IfSome result (TokenComesNext source.new) }
    ensures blanks { PassesBlanks source.old source.new }
{
    let token = next(source)?;
    match token {
        NextToken::End => None,
        _ => Some(token),
    }
}

/// Passes the rest of a statement with its `;`; false where no `;` comes.
pub(crate) fn pass_end(source: &mut Source) -> bool
    ensures found { result ≡ true → tokens_after_end (tokens_left source.old) ≡ Some (tokens_left source.new) }
    ensures no_end { result ≡ false → tokens_after_end (tokens_left source.old) ≡ None }
    ensures saved { source.new.saved ≡ source.old.saved }
    ensures passed { result ≡ true → length source.new.rest + 1 ≤ length source.old.rest }
{
    while let Some(token) = next(source) {
        source.skip(token.size());
        match token {
            NextToken::End => return true,
            _ => (),
        }
    }
    false
}
