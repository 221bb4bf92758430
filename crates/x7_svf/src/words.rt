//! Statements of words alone.
ghost use Rattle.std.specs.Prelude.{◌≡◌, ◌<◌, ◌&&◌, ◌||◌, ◌≤◌, ◌∷◌, ◌++◌, ℕ, [], List, false, length, codes, IfSome, IfNone, Option, Some, None};
ghost use Rattle.x7_words.specs.Characters.{is_decimal_digit};
ghost use Rattle.x7_svf.specs.Words.{is_free_byte, is_free_word, is_keyword, is_time, is_time_byte, most_idle_clocks, number_within, idle_clocks_by, idle_clocks_if, runtest_statement, some_if, state_statement, statement_of_words};
ghost use Rattle.x7_svf.specs.declared.statement.Statement.{Statement as StatementData};
ghost use Rattle.x7_svf.specs.Span.{AreWordsWithin, bytes_in, span_end, words_saved};
ghost use Rattle.x7_svf.specs.Stored.{IsStored};
ghost use Rattle.std.specs.List.{list_all};

use crate::span::Span;
use crate::stored::StoredStatement;

/// The most clocks of a RUNTEST: 2^24.
const MOST_IDLE_CLOCKS: u32 = 16_777_216;

/// Whether a word is a keyword, in either case.
pub(crate) fn is_keyword(word: &[u8], key: &[u8]) -> bool
    ensures { result ≡ is_keyword word.now key.now }
{
    word.eq_ignore_ascii_case(key)
}

/// Whether a byte is a decimal digit.
fn is_decimal_digit(byte: u8) -> bool
    ensures { result ≡ is_decimal_digit byte }
{
    b'0' <= byte && byte <= b'9'
}

/// Whether a byte may stand in a time.
fn is_time_byte(byte: u8) -> bool
    ensures { result ≡ is_time_byte byte }
{
    is_decimal_digit(byte) || byte == b'.' || byte == b'E' || byte == b'+' || byte == b'-'
}

/// The number of a word of decimal digits; none where it is above the limit, and for any other word.
pub(crate) fn number_within(word: &[u8], limit: u32) -> Option<u32>
    ensures { result ≡ number_within limit word.now }
{
    if word.is_empty() {
        return None;
    }
    let mut value: u32 = 0;
    let mut rest = word;
    while !rest.is_empty() {
        let byte = rest[0];
        if !is_decimal_digit(byte) {
            return None;
        }
        let more = u64::from(value) * 10 + u64::from(byte - b'0');
        if more > u64::from(limit) {
            return None;
        }
        value = more as u32;
        rest = &rest[1..];
    }
    Some(value)
}

/// Whether all bytes of a word may stand in a time.
fn are_time_bytes(word: &[u8]) -> bool
    ensures { result ≡ list_all is_time_byte word.now }
{
    word.iter().all(
        |byte|
            ensures { result ≡ is_time_byte byte.now }
        { is_time_byte(*byte) },
    )
}

/// Whether a word is a time.
fn is_time(word: &[u8]) -> bool
    ensures { result ≡ is_time word.now }
{
    !word.is_empty() && are_time_bytes(word)
}

/// Whether a word has no byte 0D.
pub(crate) fn is_free_word(word: &[u8]) -> bool
    ensures { result ≡ is_free_word word.now }
{
    word.iter().all(
        |byte|
            ensures { result ≡ is_free_byte byte.now }
        { *byte != b'\r' },
    )
}

/// As many idle clocks as the digits say; none where they are no decimal number, or one over 2^24.
fn idle_clocks_for(digits: &[u8]) -> Option<StoredStatement>
    ensures { IsStored [] result (idle_clocks_by (number_within most_idle_clocks digits.now)) }
{
    let count = number_within(digits, MOST_IDLE_CLOCKS)?;
    Some(StoredStatement::IdleClocks(count))
}

/// As many idle clocks as the digits say, where the condition is met and they are a decimal number of 2^24 at most.
fn idle_clocks_if(is_met: bool, digits: &[u8]) -> Option<StoredStatement>
    ensures { IsStored [] result (idle_clocks_if is_met digits.now) }
{
    if is_met {
        idle_clocks_for(digits)
    } else {
        None
    }
}

/// `Nothing`, the statement that makes no clock, where the condition is met; else none.
fn nothing_if(is_met: bool) -> Option<StoredStatement>
    ensures { IsStored [] result (some_if is_met StatementData.Nothing) }
{
    if is_met {
        Some(StoredStatement::Nothing)
    } else {
        None
    }
}

/// The statement of the word after STATE; none where it is neither RESET nor IDLE.
fn state_statement(word: &[u8]) -> Option<StoredStatement>
    ensures { IsStored [] result (state_statement (word.now ∷ [])) }
{
    if is_keyword(word, b"RESET") {
        Some(StoredStatement::Reset)
    } else if is_keyword(word, b"IDLE") {
        Some(StoredStatement::Idle)
    } else {
        None
    }
}

/// Whether two words are IDLE and TCK.
fn are_idle_clocks(state: &[u8], unit: &[u8]) -> bool
    ensures { result ≡ (is_keyword state.now (codes "IDLE") && is_keyword unit.now (codes "TCK")) }
{
    is_keyword(state, b"IDLE") && is_keyword(unit, b"TCK")
}

/// Whether three words are TCK, a time, and SEC.
fn are_timed_clocks(unit: &[u8], time: &[u8], second: &[u8]) -> bool
    ensures { result ≡ (is_keyword unit.now (codes "TCK") && is_time time.now && is_keyword second.now (codes "SEC")) }
{
    is_keyword(unit, b"TCK") && is_time(time) && is_keyword(second, b"SEC")
}

/// The statement of two words after RUNTEST: a count of clocks and TCK, or a time and SEC; none for any others.
fn idle_clocks_or_time(count: &[u8], unit: &[u8]) -> Option<StoredStatement>
    ensures { IsStored [] result (runtest_statement (count.now ∷ unit.now ∷ [])) }
{
    if is_keyword(unit, b"TCK") {
        idle_clocks_for(count)
    } else {
        nothing_if(is_keyword(unit, b"SEC") && is_time(count))
    }
}

/// Whether a word is ENDIR or ENDDR.
fn is_end_state(key: &[u8]) -> bool
    ensures { result ≡ (is_keyword key.now (codes "ENDIR") || is_keyword key.now (codes "ENDDR")) }
{
    is_keyword(key, b"ENDIR") || is_keyword(key, b"ENDDR")
}

/// Whether a word is HIR, HDR, TIR or TDR: what comes after it are bits of other devices in the chain.
fn is_chain(key: &[u8]) -> bool
    ensures { result ≡ (is_keyword key.now (codes "HIR") || is_keyword key.now (codes "HDR") || is_keyword key.now (codes "TIR") || is_keyword key.now (codes "TDR")) }
{
    is_keyword(key, b"HIR")
        || is_keyword(key, b"HDR")
        || is_keyword(key, b"TIR")
        || is_keyword(key, b"TDR")
}

/// The statement of a keyword, which isn't RUNTEST, and the word after it. ENDIR and ENDDR take IDLE alone, and HIR,
/// HDR, TIR and TDR 0, as no other device stands in the chain.
fn statement_of_word(key: &[u8], word: &[u8]) -> Option<StoredStatement>
    requires { is_keyword key.now (codes "RUNTEST") ≡ false }
    ensures { IsStored [] result (statement_of_words key.now (word.now ∷ [])) }
{
    if is_keyword(key, b"STATE") {
        state_statement(word)
    } else if is_end_state(key) {
        nothing_if(is_keyword(word, b"IDLE"))
    } else if is_chain(key) {
        nothing_if(is_keyword(word, b"0"))
    } else {
        nothing_if(is_keyword(key, b"TRST") && is_free_word(word))
    }
}

/// The words after a keyword by where they are saved. No statement whose words are saved has more than four.
#[derive(Clone, Copy)]
pub(crate) enum SavedWords {
    None,
    One(Span),
    Two(Span, Span),
    Three(Span, Span, Span),
    Four(Span, Span, Span, Span),
}

/// The words with one more after them; none where there are four already.
pub(crate) fn with_word(words: SavedWords, word: Span) -> Option<SavedWords>
    ensures one_more { (saved : List ℕ) → IfSome result (λ r. words_saved saved r ≡ words_saved saved words ++ bytes_in saved word ∷ []) }
    ensures full_at_four { (saved : List ℕ) → IfNone result (length (words_saved saved words) ≡ 4) }
    ensures within { (n : ℕ) → AreWordsWithin n words → span_end word ≤ n → IfSome result (AreWordsWithin n) }
{
    match words {
        SavedWords::None => Some(SavedWords::One(word)),
        SavedWords::One(first) => Some(SavedWords::Two(first, word)),
        SavedWords::Two(first, second) => Some(SavedWords::Three(first, second, word)),
        SavedWords::Three(first, second, third) => Some(SavedWords::Four(
            first, second, third, word,
        )),
        SavedWords::Four(_, _, _, _) => None,
    }
}

/// The statement of the words after RUNTEST, which are saved; none where the profile has no such statement.
fn runtest_statement(saved: &[u8], words: SavedWords) -> Option<StoredStatement>
    requires { AreWordsWithin (length saved.now) words }
    ensures { IsStored [] result (runtest_statement (words_saved saved.now words)) }
{
    match words {
        SavedWords::Two(count, unit) => idle_clocks_or_time(
            count.bytes_in(saved),
            unit.bytes_in(saved),
        ),
        SavedWords::Three(state, count, unit) => {
            let is_runtest = are_idle_clocks(state.bytes_in(saved), unit.bytes_in(saved));
            idle_clocks_if(is_runtest, count.bytes_in(saved))
        }
        SavedWords::Four(count, unit, time, second) => {
            let time = time.bytes_in(saved);
            let is_runtest = are_timed_clocks(unit.bytes_in(saved), time, second.bytes_in(saved));
            idle_clocks_if(is_runtest, count.bytes_in(saved))
        }
        _ => None,
    }
}

/// The statement of a keyword and the words after it, which are saved; none where the profile has no such statement.
pub(crate) fn statement_of_saved(
    saved: &[u8],
    key: Span,
    words: SavedWords,
) -> Option<StoredStatement>
    requires key { span_end key ≤ length saved.now }
    requires words { AreWordsWithin (length saved.now) words }
    ensures { IsStored [] result (statement_of_words (bytes_in saved.now key) (words_saved saved.now words)) }
{
    let key = key.bytes_in(saved);
    if is_keyword(key, b"RUNTEST") {
        return runtest_statement(saved, words);
    }
    match words {
        SavedWords::One(word) => statement_of_word(key, word.bytes_in(saved)),
        _ => None,
    }
}
