//! One statement of a text.
ghost use Rattle.std.specs.Prelude.{◌≡◌, ◌<◌, ◌≤◌, ◌+◌, ◌*◌, true, length, take, IfSome, Option, Some, None};
ghost use Rattle.std.specs.List.{list_all};
ghost use Rattle.x7_words.specs.Characters.{digit_number, is_hex_digit};
ghost use Rattle.x7_svf.specs.Fields.{fields_fit, are_hex, fits, hex_value, scan_by, scan_if, scan_of};
ghost use Rattle.x7_svf.specs.Token.{token_of, token_size};
ghost use Rattle.x7_svf.specs.Reading.{ReadsOn, StepsOver};
ghost use Rattle.x7_svf.specs.Source.{tokens_left};
ghost use Rattle.x7_svf.specs.Scanner.{AreHexFields, AreHexIf, IsWidth};
ghost use Rattle.x7_svf.specs.Span.{AreWithin, StaysSaved, bytes_in, digits_if, span_end_if, span_end, fields_of};
ghost use Rattle.x7_svf.specs.Statement.{statement_by, statement_of};
ghost use Rattle.x7_svf.specs.Stored.{IsStored};
ghost use Rattle.x7_svf.specs.Svf.{first_statement, tokens_before_end, tokens_after_end};
ghost use Rattle.x7_svf.specs.Words.{is_free_token, some_if, statement_if_words as if_words, words_of};
ghost use Rattle.x7_svf.specs.declared.statement.ScannedRegister.{ScannedRegister as Register};
ghost use Rattle.x7_svf.specs.declared.statement.Statement.{Statement as StatementData};

use crate::bits::digit_number;
use crate::fields::{FieldSpans, fields};
use crate::source::Source;
use crate::span::Span;
use crate::statement::ScannedRegister;
use crate::stored::{StoredScan, StoredStatement};
use crate::token::{NextToken, next_within, pass_end};
use crate::words::{
    SavedWords, is_free_word, is_keyword, number_within, statement_of_saved, with_word,
};

/// The most bits of a scan.
const MOST_SCAN_BITS: u32 = 1 << 29;

/// Whether a token that a text begins with is a word without 0D, or no word.
fn is_free_token(token: NextToken, text: &[u8]) -> bool
    requires { token_size token ≤ length text.now }
    ensures { result ≡ is_free_token (token_of token text.now) }
{
    match token {
        NextToken::Word(length) => is_free_word(&text[..length]),
        _ => true,
    }
}

/// The statement of tokens without meaning that come next, which are passed: brackets, and words without 0D; none where
/// a word has 0D.
fn free_statement(source: &mut Source) -> Option<StoredStatement>
    ensures says { IsStored source.new.saved result (some_if (list_all is_free_token (tokens_before_end (tokens_left source.old))) StatementData.Nothing) }
    ensures reads_on { IfSome result (λ s. ReadsOn source.old source.new) }
{
    while let Some(token) = next_within(source) {
        if !is_free_token(token, source.rest()) {
            return None;
        }
        source.skip(token.size());
    }
    Some(StoredStatement::Nothing)
}

/// Saves the word of this many bytes that comes next, and says where.
fn save_word(source: &mut Source, size: usize) -> Span
    requires { size ≤ length source.old.rest }
    ensures word { bytes_in source.new.saved result ≡ take size source.old.rest }
    ensures within { span_end result ≤ length source.new.saved }
    ensures steps { StepsOver size source.old source.new }
{
    let from = source.saved().len();
    source.save(size);
    Span::new(from, source.saved().len())
}

/// The statement of a keyword, which is saved, and of the words that come next, which are saved too; none where a bracket
/// stands among them or the profile has no such statement.
fn words_statement(source: &mut Source, key: Span) -> Option<StoredStatement>
    requires key { span_end key ≤ length source.old.saved }
    ensures says { IsStored source.new.saved result (if_words (bytes_in source.old.saved key) (words_of (tokens_before_end (tokens_left source.old)))) }
    ensures reads_on { IfSome result (λ s. ReadsOn source.old source.new) }
{
    let mut words = SavedWords::None;
    while let Some(token) = next_within(source) {
        let NextToken::Word(size) = token else {
            return None;
        };
        let word = save_word(source, size);
        match with_word(words, word) {
            Some(more) => words = more,
            None => return None,
        }
    }
    statement_of_saved(source.saved(), key, words)
}

/// How many bits the value of a digit has.
fn digit_width(digit: u8) -> u64
    requires { is_hex_digit digit ≡ true }
    ensures { IsWidth (digit_number digit) result }
{
    let value = digit_number(digit);
    if value < 1 {
        0
    } else if value < 2 {
        1
    } else if value < 4 {
        2
    } else if value < 8 {
        3
    } else {
        4
    }
}

/// How many bits a value has: `bits` for its first digit that isn't 0, and four for each of the `after` digits after
/// that one.
fn width_with(after: usize, bits: u64) -> u128
    ensures { result ≡ 4 * after + bits }
{
    4 * after as u128 + u128::from(bits)
}

/// How many bits the value of digits has.
fn width(digits: &[u8]) -> u128
    requires { are_hex digits.now ≡ true }
    ensures { IsWidth (hex_value digits.now) result }
{
    let mut rest = digits;
    while let [digit, after @ ..] = rest {
        let bits = digit_width(*digit);
        if bits > 0 {
            return width_with(after.len(), bits);
        }
        rest = after;
    }
    0
}

/// Whether the value of digits, if there are any, fits `count` bits.
fn fits(saved: &[u8], count: u32, digits: Option<Span>) -> bool
    requires within { span_end_if digits ≤ length saved.now }
    requires hex { AreHexIf (digits_if saved.now digits) }
    ensures { result ≡ fits count (digits_if saved.now digits) }
{
    match digits {
        Some(digits) => width(digits.bytes_in(saved)) <= u128::from(count),
        None => true,
    }
}

/// Whether the values of all fields fit `count` bits.
fn fields_fit(saved: &[u8], count: u32, spans: FieldSpans) -> bool
    requires within { AreWithin (length saved.now) spans }
    requires hex { AreHexFields (fields_of saved.now spans) }
    ensures { result ≡ fields_fit count (fields_of saved.now spans) }
{
    fits(saved, count, spans.tdi)
        && fits(saved, count, spans.tdo)
        && fits(saved, count, spans.mask)
        && fits(saved, count, spans.smask)
}

/// The scan of this many bits with these fields, whose digits are saved; none where the value of one doesn't fit, or TDI
/// is left out.
fn scan_of_fields(
    saved: &[u8],
    register: ScannedRegister,
    count: u32,
    spans: FieldSpans,
) -> Option<StoredStatement>
    requires within { AreWithin (length saved.now) spans }
    requires hex { AreHexFields (fields_of saved.now spans) }
    ensures { IsStored saved.now result (scan_by register count (Some (fields_of saved.now spans))) }
{
    if !fields_fit(saved, count, spans) {
        return None;
    }
    let tdi = spans.tdi?;
    Some(StoredStatement::Scan(StoredScan {
        register,
        bit_count: count,
        tdi,
        tdo: spans.tdo,
        mask: spans.mask,
    }))
}

/// How many bits the scan has whose keyword was passed, by the number that comes next and is passed; none where no
/// number from 1 to 2^29 comes.
fn scan_count(source: &mut Source) -> Option<u32>
    ensures count { (register : Register) → scan_of register (tokens_before_end (tokens_left source.old)) ≡ scan_if register result (tokens_before_end (tokens_left source.new)) }
    ensures reads_on { IfSome result (λ n. ReadsOn source.old source.new) }
{
    let NextToken::Word(length) = next_within(source)? else {
        return None;
    };
    let count = number_within(&source.rest()[..length], MOST_SCAN_BITS)?;
    source.skip(length);
    if count == 0 {
        return None;
    }
    Some(count)
}

/// The scan whose keyword was passed, up to its `;`; none where it is bad. Its digits are saved.
fn scan(source: &mut Source, register: ScannedRegister) -> Option<StoredStatement>
    ensures says { IsStored source.new.saved result (scan_of register (tokens_before_end (tokens_left source.old))) }
    ensures reads_on { IfSome result (λ s. ReadsOn source.old source.new) }
{
    let count = scan_count(source)?;
    let spans = fields(source)?;
    scan_of_fields(source.saved(), register, count, spans)
}

/// The statement of a keyword, which is saved, and of what comes next, up to its `;`; none where it is bad.
fn statement_by(source: &mut Source, key: Span) -> Option<StoredStatement>
    requires key { span_end key ≤ length source.old.saved }
    ensures says { IsStored source.new.saved result (statement_by (bytes_in source.old.saved key) (tokens_before_end (tokens_left source.old))) }
    ensures reads_on { IfSome result (λ s. ReadsOn source.old source.new) }
{
    let word = key.bytes_in(source.saved());
    if is_keyword(word, b"SIR") {
        return scan(source, ScannedRegister::Instruction);
    }
    if is_keyword(word, b"SDR") {
        return scan(source, ScannedRegister::Data);
    }
    if is_keyword(word, b"FREQUENCY") {
        return free_statement(source);
    }
    words_statement(source, key)
}

/// The statement that comes next, up to its `;`; none where it is bad. Its keyword is saved; of a scan also the digits,
/// of another statement its words, of FREQUENCY neither.
fn statement(source: &mut Source) -> Option<StoredStatement>
    ensures says { IsStored source.new.saved result (statement_of (tokens_before_end (tokens_left source.old))) }
    ensures reads_on { IfSome result (λ s. ReadsOn source.old source.new) }
    ensures passed { IfSome result (λ s. length source.new.rest < length source.old.rest) }
{
    let NextToken::Word(size) = next_within(source)? else {
        return None;
    };
    let key = save_word(source, size);
    statement_by(source, key)
}

/// The statement that comes next, with its `;`; none where it is bad or lacks its `;`.
pub(crate) fn first_statement(source: &mut Source) -> Option<StoredStatement>
    ensures says { IsStored source.new.saved result (first_statement (tokens_left source.old)) }
    ensures prefix { IfSome result (λ s. StaysSaved source.old.saved source.new.saved) }
    ensures after_end { IfSome result (λ s. tokens_after_end (tokens_left source.old) ≡ Some (tokens_left source.new)) }
    ensures passed { IfSome result (λ s. length source.new.rest + 2 ≤ length source.old.rest) }
{
    let one = statement(source)?;
    if pass_end(source) { Some(one) } else { None }
}
