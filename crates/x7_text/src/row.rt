//! Lines of a row, written as the elements come: an open line takes more elements until it is full.
ghost use Rattle.std.specs.Prelude.{◌≡◌, [], ◌∷◌, ◌<◌, ◌+◌, ◌*◌, length, codes};
ghost use Rattle.std.specs.List.{flat_map};
ghost use Rattle.x7_text.specs.Appends.{Appends, HasSpareRoom};
ghost use Rattle.x7_text.specs.Digits.{hex_byte};
ghost use Rattle.x7_text.specs.Row.{line, line_start, line_end, next_in_line, in_line_after, spaced, close, PutsBytes, PutsWords, row_words, bytes_row_size, data_line_size, bytes_line_size, word_text_limit, byte_text_limit, rows_text_limit, open_data, open_bytes};
ghost use Rattle.x7_words.specs.Word.{AreWholeWords, words_of_bytes};

use crate::block::{bytes_line, data_line, hex_of_short_block};
use crate::digits::{hex_of_byte, hex_of_word};
use crate::room::put;
use x7_words::word_of;

/// How many words a full `data` line has.
const ROW_WORDS: usize = 8;

/// How many bytes a full `bytes` line has.
pub const BYTES_ROW_SIZE: usize = 32;

/// Appends the keyword that a line begins with, where no line is open: `in_line`, the count of elements in the open
/// line, is 0.
fn put_line_start(text: &mut Vec<u8>, keyword: &[u8], in_line: usize)
    requires { HasSpareRoom text.old (length keyword.now) }
    ensures appends { Appends text.old text.new (line_start keyword.now in_line) (length keyword.now) }
{
    if in_line == 0 {
        put(text, keyword);
    }
}

/// Appends the end of a line that has `in_line` elements and one more, if the line is full with `full` of them. Gives
/// the count of elements in the open line afterwards.
fn put_line_end(text: &mut Vec<u8>, full: usize, in_line: usize) -> usize
    requires open { in_line < full }
    requires room { HasSpareRoom text.old 1 }
    ensures next { result ≡ next_in_line full in_line }
    ensures open { result < full }
    ensures appends { Appends text.old text.new (line_end full in_line) 1 }
{
    if in_line + 1 == full {
        put(text, b"\n");
        return 0;
    }
    in_line + 1
}

/// Appends a word to a `data` line that has `in_line` words (0 where no line is open). Gives that count afterwards.
pub fn put_word(text: &mut Vec<u8>, in_line: usize, word: u32) -> usize
    requires open { in_line < row_words }
    requires room { HasSpareRoom text.old word_text_limit }
    ensures count { result ≡ in_line_after row_words in_line (word ∷ []) }
    ensures open { result < row_words }
    ensures appends { Appends text.old text.new (open_data in_line (word ∷ [])) word_text_limit }
{
    put_line_start(text, b"data", in_line);
    put(text, b" ");
    put(text, &hex_of_word(word));
    put_line_end(text, ROW_WORDS, in_line)
}

/// Appends a byte to a `bytes` line that has `in_line` bytes (0 where no line is open). Gives that count afterwards.
fn put_byte(text: &mut Vec<u8>, in_line: usize, byte: u8) -> usize
    requires open { in_line < bytes_row_size }
    requires room { HasSpareRoom text.old byte_text_limit }
    ensures { PutsBytes in_line (byte ∷ []) text.old text.new byte_text_limit result }
{
    put_line_start(text, b"bytes ", in_line);
    put(text, &hex_of_byte(byte));
    put_line_end(text, BYTES_ROW_SIZE, in_line)
}

/// Appends the end of an open line, and nothing where none is open. `in_line` counts what the line has so far, 0 where
/// none is open.
pub fn put_close(text: &mut Vec<u8>, in_line: usize)
    requires { HasSpareRoom text.old 1 }
    ensures appends { Appends text.old text.new (close in_line) 1 }
{
    if in_line > 0 {
        put(text, b"\n");
    }
}

/// Appends whole `data` lines of eight words each.
fn put_data_lines(text: &mut Vec<u8>, lines: &[[u8; 32]])
    requires { HasSpareRoom text.old (data_line_size * length lines.now) }
    ensures appends { Appends text.old text.new (flat_map (λ bytes. line (codes "data") spaced (words_of_bytes bytes)) lines.now) (data_line_size * length lines.now) }
{
    for bytes in lines {
        put(text, &data_line(bytes));
    }
}

/// Appends whole `bytes` lines of 32 bytes each.
fn put_bytes_lines(text: &mut Vec<u8>, lines: &[[u8; 32]])
    requires { HasSpareRoom text.old (bytes_line_size * length lines.now) }
    ensures appends { Appends text.old text.new (flat_map (line (codes "bytes ") hex_byte) lines.now) (bytes_line_size * length lines.now) }
{
    for bytes in lines {
        put(text, &bytes_line(bytes));
    }
}

/// Appends the words of whole groups of four bytes to `data` lines of which the open one has `in_line` words, word by
/// word. Gives how many words stand in the open line then.
fn put_each_word(text: &mut Vec<u8>, in_line: usize, bytes: &[u8]) -> usize
    requires open { in_line < row_words }
    requires whole { AreWholeWords bytes.now }
    requires room { HasSpareRoom text.old (3 * length bytes.now + 4) }
    ensures { PutsWords in_line (words_of_bytes bytes.now) text.old text.new (3 * length bytes.now + 1) result }
{
    let (words, _) = bytes.as_chunks::<4>();
    let mut count = in_line;
    for word in words {
        count = put_word(text, count, word_of(*word));
    }
    count
}

/// Appends bytes to `bytes` lines of which the open one has `in_line` bytes, byte by byte. Gives how many bytes stand
/// in the open line then.
fn put_each_byte(text: &mut Vec<u8>, in_line: usize, bytes: &[u8]) -> usize
    requires open { in_line < bytes_row_size }
    requires room { HasSpareRoom text.old (3 * length bytes.now + 11) }
    ensures { PutsBytes in_line bytes.now text.old text.new (3 * length bytes.now + 5) result }
{
    let mut count = in_line;
    for byte in bytes {
        count = put_byte(text, count, *byte);
    }
    count
}

/// Appends bytes to a `bytes` line that has `in_line` bytes, and that they don't fill. Gives how many bytes stand in
/// the open line then.
fn put_bytes_in_line(text: &mut Vec<u8>, in_line: usize, bytes: &[u8]) -> usize
    requires open { in_line + length bytes.now < bytes_row_size }
    requires room { HasSpareRoom text.old (2 * length bytes.now + 6) }
    ensures { PutsBytes in_line bytes.now text.old text.new (2 * length bytes.now + 6) result }
{
    if bytes.is_empty() {
        return in_line;
    }
    put_line_start(text, b"bytes ", in_line);
    put(text, &hex_of_short_block(bytes)[..2 * bytes.len()]);
    in_line + bytes.len()
}

/// Appends the words of whole groups of four bytes to new `data` lines. Gives how many words stand in the open line
/// then.
fn put_new_words(text: &mut Vec<u8>, bytes: &[u8]) -> usize
    requires whole { AreWholeWords bytes.now }
    requires room { HasSpareRoom text.old (3 * length bytes.now + 4) }
    ensures { PutsWords 0 (words_of_bytes bytes.now) text.old text.new (3 * length bytes.now + 1) result }
{
    let (lines, rest) = bytes.as_chunks::<32>();
    put_data_lines(text, lines);
    put_each_word(text, 0, rest)
}

/// Appends bytes to new `bytes` lines. Gives how many bytes stand in the open line then.
fn put_new_bytes(text: &mut Vec<u8>, bytes: &[u8]) -> usize
    requires { HasSpareRoom text.old (3 * length bytes.now + 6) }
    ensures { PutsBytes 0 bytes.now text.old text.new (3 * length bytes.now + 6) result }
{
    let (lines, rest) = bytes.as_chunks::<32>();
    put_bytes_lines(text, lines);
    put_bytes_in_line(text, 0, rest)
}

/// Appends the words of whole groups of four bytes, the first byte the highest, to `data` lines of which the open one
/// has `in_line` words (0 where none is open). Gives that count afterwards. It takes no memory.
pub fn put_words(text: &mut Vec<u8>, in_line: usize, bytes: &[u8]) -> usize
    requires open { in_line < row_words }
    requires whole { AreWholeWords bytes.now }
    requires room { HasSpareRoom text.old (rows_text_limit (length bytes.now)) }
    ensures count { result ≡ in_line_after row_words in_line (words_of_bytes bytes.now) }
    ensures open { result < row_words }
    ensures appends { Appends text.old text.new (open_data in_line (words_of_bytes bytes.now)) (rows_text_limit (length bytes.now)) }
{
    if in_line == 0 {
        return put_new_words(text, bytes);
    }
    let missing_bytes = 4 * (ROW_WORDS - in_line);
    if bytes.len() < missing_bytes {
        return put_each_word(text, in_line, bytes);
    }
    let (prefix, rest) = bytes.split_at(missing_bytes);
    put_each_word(text, in_line, prefix);
    put_new_words(text, rest)
}

/// Appends bytes to `bytes` lines of which the open one has `in_line` bytes (0 where none is open). Gives that count
/// afterwards. It takes no memory.
pub fn put_bytes(text: &mut Vec<u8>, in_line: usize, bytes: &[u8]) -> usize
    requires open { in_line < bytes_row_size }
    requires room { HasSpareRoom text.old (rows_text_limit (length bytes.now)) }
    ensures count { result ≡ in_line_after bytes_row_size in_line bytes.now }
    ensures open { result < bytes_row_size }
    ensures appends { Appends text.old text.new (open_bytes in_line bytes.now) (rows_text_limit (length bytes.now)) }
{
    if in_line == 0 {
        return put_new_bytes(text, bytes);
    }
    let missing_bytes = BYTES_ROW_SIZE - in_line;
    if bytes.len() < missing_bytes {
        return put_bytes_in_line(text, in_line, bytes);
    }
    let (prefix, rest) = bytes.split_at(missing_bytes);
    put_each_byte(text, in_line, prefix);
    put_new_bytes(text, rest)
}
