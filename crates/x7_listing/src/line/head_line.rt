//! The lines of single words, written: of a word in a header's place, a command and a sync word.
ghost use Rattle.std.specs.Prelude.{[], ◌∷◌, ◌++◌, ◌<◌, ◌≤◌, ◌+◌, length, decimal};
ghost use Rattle.x7_regs.specs.Register.{reg_name, reg_number_count};
ghost use Rattle.x7_text.specs.Appends.{Appends, HasSpareRoom};
ghost use Rattle.x7_text.specs.Digits.{hex_word};
ghost use Rattle.x7_text.specs.Row.{close};
ghost use Rattle.x7_listing.specs.HeadLine.{best_line, head_line_limit, text_of_head, type1_keyword_limit, type2_keyword_limit};
ghost use Rattle.x7_listing.specs.Line.{Sync, cmd_line, ended_text};
ghost use Rattle.x7_words.specs.Characters.{line_end_byte, space_byte};

use x7_packets::{
    NO_OP, SYNC_WORD, Step, TYPE2_READ_KIND, TYPE2_WRITE_KIND, kind_in, register_in,
    type1_count_in, type1_read_header, type1_write_header, type2_count_in,
};
use x7_regs::{command_name, command_of, name_of};
use x7_text::{hex_of_word, put, put_close, put_decimal};

/// Appends the line that stands for just this word: a named one where there is one, else that of the word itself.
fn put_best_line(text: &mut Vec<u8>, word: u32)
    requires { HasSpareRoom text.old head_line_limit }
    ensures appends { Appends text.old text.new (ended_text (best_line word)) head_line_limit }
{
    let register = register_in(word);
    let count = type1_count_in(word);
    if word == NO_OP {
        put(text, b"nop\n")
    } else if word == SYNC_WORD {
        put(text, b"sync\n")
    } else if word == type1_write_header(register, count) {
        put_type1(text, b"write ", register, count)
    } else if word == type1_read_header(register, count) {
        put_type1(text, b"read ", register, count)
    } else if kind_in(word) == TYPE2_WRITE_KIND {
        put_count(text, b"write2 ", type2_count_in(word))
    } else if kind_in(word) == TYPE2_READ_KIND {
        put_count(text, b"read2 ", type2_count_in(word))
    } else {
        put_whole_word(text, b"word ", word)
    }
}

/// Appends a line of a type 1 header: a keyword, the register's name and the word count.
fn put_type1(text: &mut Vec<u8>, keyword: &[u8], register: u8, count: u32)
    requires room { HasSpareRoom text.old head_line_limit }
    requires short { length keyword.now ≤ type1_keyword_limit }
    requires register { register < reg_number_count }
    ensures appends { Appends text.old text.new (keyword.now ++ reg_name register ++ space_byte ∷ decimal count ++ line_end_byte ∷ []) head_line_limit }
{
    put(text, keyword);
    put(text, name_of(register).bytes());
    put(text, b" ");
    put_decimal(text, u64::from(count));
    put(text, b"\n");
}

/// Appends a line of a type 2 header: a keyword and the word count.
fn put_count(text: &mut Vec<u8>, keyword: &[u8], count: u32)
    requires room { HasSpareRoom text.old head_line_limit }
    requires short { length keyword.now ≤ type2_keyword_limit }
    ensures appends { Appends text.old text.new (keyword.now ++ decimal count ++ line_end_byte ∷ []) head_line_limit }
{
    put(text, keyword);
    put_decimal(text, u64::from(count));
    put(text, b"\n");
}

/// Appends a line of one word: a keyword and eight digits.
fn put_whole_word(text: &mut Vec<u8>, keyword: &[u8], word: u32)
    requires room { HasSpareRoom text.old head_line_limit }
    requires short { length keyword.now ≤ type1_keyword_limit }
    ensures appends { Appends text.old text.new (keyword.now ++ hex_word word ++ line_end_byte ∷ []) head_line_limit }
{
    put(text, keyword);
    put(text, &hex_of_word(word));
    put(text, b"\n");
}

/// Appends the line of a word in a header's place, after the end of an open line of `in_line` words (0 where none is
/// open).
pub(crate) fn put_head(text: &mut Vec<u8>, in_line: usize, step: Step, word: u32)
    requires { HasSpareRoom text.old (1 + head_line_limit) }
    ensures appends { Appends text.old text.new (close in_line ++ text_of_head step word) (1 + head_line_limit) }
{
    put_close(text, in_line);
    match step {
        Step::Bad(_) => put_whole_word(text, b"word ", word),
        _ => put_best_line(text, word),
    }
}

/// Appends the line of a payload word of CMD, after the end of an open line of `in_line` words (0 where none is open).
pub(crate) fn put_command(text: &mut Vec<u8>, in_line: usize, word: u32)
    requires { HasSpareRoom text.old (1 + head_line_limit) }
    ensures appends { Appends text.old text.new (close in_line ++ ended_text (cmd_line word)) (1 + head_line_limit) }
{
    put_close(text, in_line);
    let command = command_of(word);
    if command.code() != word {
        return put_whole_word(text, b"data ", word);
    }
    put(text, b"cmd ");
    put(text, command_name(command).bytes());
    put(text, b"\n");
}

/// Appends the line of a sync word, after the end of an open line of `in_line` bytes (0 where none is open).
pub(crate) fn put_sync(text: &mut Vec<u8>, in_line: usize)
    requires { HasSpareRoom text.old (1 + head_line_limit) }
    ensures appends { Appends text.old text.new (close in_line ++ ended_text Sync) (1 + head_line_limit) }
{
    put_close(text, in_line);
    put(text, b"sync\n");
}
