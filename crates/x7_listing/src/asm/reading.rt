//! Reading one line: the bytes that it stands for.
ghost use Rattle.std.specs.Prelude.{◌≡◌, ◌≢◌, ℕ, ◌<◌, ◌++◌, length, slice_index, MatchOption};
ghost use Rattle.x7_words.specs.Word.{bytes_of_word};
ghost use Rattle.x7_text.specs.Appends.{Appends, HasSpareRoom};
ghost use Rattle.x7_listing.specs.Line.{type1_text, line_bytes, Check, FitsLine, FitsWordLine, FitsType1, IsWordOfText, Line, text_of};
ghost use Rattle.x7_words.specs.Characters.{space_byte};
ghost use Rattle.x7_listing.specs.BitLine.{IsFirstSpace};
ghost use Rattle.x7_text.specs.Reads.{AppendsIfRead, StaysWithin};
ghost use Rattle.x7_text.specs.Row.{bytes_row_size};

use x7_packets::{
    NO_OP, SYNC_WORD, TYPE1_COUNT_BOUND, TYPE2_COUNT_BOUND, type1_read_header, type1_write_header,
    type2_read_header, type2_write_header,
};
use x7_regs::{command_named, reg_named};
use x7_text::{
    BYTES_ROW_SIZE, after, decimal_below, means_nothing, put, read_byte_row, read_word_row,
    word_of_hex,
};
use x7_words::{bytes_of, is_same};

/// The most bytes that a line stands for: those of a full `bytes` line, as many as a full `data` line's words have.
pub(crate) const MOST_ROW_SIZE: usize = BYTES_ROW_SIZE;

/// How many bytes are searched for the space after a register's name: more than the longest name has.
const NAME_SEARCH_SIZE: usize = 10;

/// The place of the first space, if one stands among the first `NAME_SEARCH_SIZE` bytes.
#[inline(always)]
fn space_in(text: &[u8]) -> Option<usize>
    ensures { MatchOption result ((j : ℕ) → j < NAME_SEARCH_SIZE → j < length text.now → slice_index text.now j ≢ space_byte)
        (IsFirstSpace text.now) }
{
    let most = text.len().min(NAME_SEARCH_SIZE);
    for at in 0..most {
        if text[at] == b' ' {
            return Some(at);
        }
    }
    None
}

/// The register's number and the word count of `NAME N`, where a space stands after the name at this place. `None` for
/// any other text whose first space stands there, and where no space does.
#[inline(always)]
pub(crate) fn type1_fields_at(text: &[u8], space: usize) -> Option<(u8, u32)>
    ensures { MatchOption result (IsFirstSpace text.now space → (a : ℕ × ℕ) → FitsType1 a → text.now ≢ type1_text a)
        (λ a. FitsType1 (a.0, a.1) × (text.now ≡ type1_text (a.0, a.1))) }
{
    if space >= text.len() || text[space] != b' ' {
        return None;
    }
    let Some(register) = reg_named(&text[..space]) else {
        return None;
    };
    let Some(count) = decimal_below(&text[space + 1..], TYPE1_COUNT_BOUND) else {
        return None;
    };
    Some((register, count))
}

/// Appends the four bytes of a word, the highest first.
pub(crate) fn put_word_bytes(out: &mut Vec<u8>, word: u32)
    requires { HasSpareRoom out.old bytes_row_size }
    ensures appends { Appends out.old out.new (bytes_of_word word) bytes_row_size }
{
    put(out, &bytes_of(word));
}

/// Appends the four bytes of each of two words, the first word's first, and of each word the highest first.
#[inline(always)]
pub(crate) fn put_two_words(out: &mut Vec<u8>, first: u32, second: u32)
    requires { HasSpareRoom out.old bytes_row_size }
    ensures appends { Appends out.old out.new (bytes_of_word first ++ bytes_of_word second) bytes_row_size }
{
    put(out, &bytes_of(first));
    put(out, &bytes_of(second));
}

/// The register's number and the word count of `NAME N`; `None` for any other text.
fn type1_fields(text: &[u8]) -> Option<(u8, u32)>
    ensures { MatchOption result ((a : ℕ × ℕ) → FitsType1 a → text.now ≢ type1_text a) (λ a. FitsType1 (a.0, a.1) × (text.now ≡ type1_text (a.0, a.1))) }
{
    let Some(space) = space_in(text) else {
        return None;
    };
    type1_fields_at(text, space)
}

/// The word of a line that always stands for one word (no `data` line, even of one word); `None` for any other text.
fn word_of_line(line: &[u8]) -> Option<u32>
    ensures { MatchOption result ((l : Line) → FitsWordLine l → line.now ≢ text_of l) (IsWordOfText line.now) }
{
    if is_same(line, b"nop") {
        return Some(NO_OP);
    }
    if let Some(fields) = after(line, b"write ") {
        let (register, count) = type1_fields(fields)?;
        return Some(type1_write_header(register, count));
    }
    if let Some(name) = after(line, b"cmd ") {
        let code = command_named(name)?;
        return Some(u32::from(code));
    }
    if let Some(digits) = after(line, b"word ") {
        let word = word_of_hex(digits)?;
        return Some(word);
    }
    if let Some(fields) = after(line, b"read ") {
        let (register, count) = type1_fields(fields)?;
        return Some(type1_read_header(register, count));
    }
    if let Some(digits) = after(line, b"write2 ") {
        let count = decimal_below(digits, TYPE2_COUNT_BOUND)?;
        return Some(type2_write_header(count));
    }
    if let Some(digits) = after(line, b"read2 ") {
        let count = decimal_below(digits, TYPE2_COUNT_BOUND)?;
        return Some(type2_read_header(count));
    }
    if is_same(line, b"sync") {
        return Some(SYNC_WORD);
    }
    None
}

/// Appends the bytes of a line that isn't `crc`. `false`: the text is that of no line.
pub(crate) fn read_line(out: &mut Vec<u8>, line: &[u8]) -> bool
    requires no_check { line.now ≢ text_of Check }
    requires room { HasSpareRoom out.old bytes_row_size }
    ensures reads { (check : ℕ) → AppendsIfRead FitsLine text_of (line_bytes check) result line.now out.old.items out.new.items }
    ensures room { StaysWithin out.old out.new bytes_row_size }
{
    if let Some(words) = after(line, b"data") {
        return read_word_row(out, words);
    }
    if let Some(digits) = after(line, b"bytes ") {
        return read_byte_row(out, digits);
    }
    if means_nothing(line) {
        return true;
    }
    let Some(word) = word_of_line(line) else {
        return false;
    };
    put_word_bytes(out, word);
    true
}
