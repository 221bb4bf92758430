//! Short runs, listed at once on a sheet: writes of one word and of up to sixteen, a few no-ops, and a short gap with
//! the sync word after it. Here `len` is how many bytes of text the sheet has, and `in_line` how many words stand in
//! the open line, 0 where none is open.
ghost use Rattle.std.specs.Prelude.{◌≡◌, ℕ, ◌+◌, ◌*◌, ◌<◌, ◌≤◌, List, [], ◌∷◌, ◌++◌, IfNone, IfSome, decimal, length, take, vec_len, vec_capacity};
ghost use Rattle.x7_packets.specs.AtOnce.{EndsGap, WritesOne, WritesShort, longest_gap_and_sync, longest_short_write, most_short_words, short_gap_room};
ghost use Rattle.x7_packets.specs.Cutter.{CutterState};
ghost use Rattle.x7_packets.specs.Nops.{nop_bytes};
ghost use Rattle.x7_packets.specs.PacketWords.{no_op};
ghost use Rattle.x7_packets.specs.Packet.{payload_steps};
ghost use Rattle.x7_text.specs.Appends.{HasSpareRoom};
ghost use Rattle.x7_text.specs.Row.{bytes_text, close, bytes_row_size, row_words, data_line_size};
ghost use Rattle.x7_regs.specs.Register.{reg_number_count};
ghost use Rattle.x7_listing.specs.Fast.AtOnce.{command_lines_text, write_head_text};
ghost use Rattle.x7_listing.specs.Fast.OnSheet.{ShowsWords, ListsMoreAfter, on_sheet, on_sheet_after, one_write_lines_size, head_line_size, one_write_text, short_write_lines_size, nop_lines_size, gap_lines_size};
ghost use Rattle.x7_listing.specs.Fast.TakingAtOnce.{TakesAtOnce, TakesOnSheet};
ghost use Rattle.x7_words.specs.Characters.{line_end_byte};
ghost use Rattle.x7_listing.specs.Pens.{TakesHead, ListsMore, lister_with};
ghost use Rattle.x7_listing.specs.declared.list.pen.state.Pen.{Pen};
ghost use Rattle.x7_listing.specs.Line.{Sync, ended_text};
ghost use Rattle.x7_listing.specs.Lister.{in_line_after_words};

use super::sheet::{SHEET_SIZE, put_prefix, put_row, put_whole};
use crate::line::{
    BYTES_SIZE, COMMAND_CODES, DATA_SIZE, SPACED_WORD_SIZE, command_row, name_row, write_row,
};
use crate::list::lister::BYTE_ROOM;
use crate::list::pen::{OpenWords, Pen};
use x7_packets::{Cutter, Step};
use x7_regs::Reg;
use x7_text::{bytes_line, data_line, hex_of_word, put};

/// How many bytes of a sheet are free where a run is put on it: more than any short run is stored in.
const FREE_SIZE: usize = 256;

/// How many no-ops at most are put on a sheet at once.
const MOST_NOPS: usize = 32;

/// The lines of as many no-ops as are put on a sheet at once.
static NOP_LINES: [[u8; 4]; MOST_NOPS] = [*b"nop\n"; MOST_NOPS];

/// Where the text on a sheet ends, and how many words stand in the open line then.
#[derive(Clone, Copy)]
struct TextEnd {
    len: usize,
    in_line: OpenWords,
}

/// Puts the end of an open line of `in_line` words, and nothing where none is open. Gives how many bytes of text the
/// sheet has then.
#[inline(always)]
fn put_close(sheet: &mut [u8; SHEET_SIZE], len: usize, in_line: usize) -> usize
    requires room { len + 1 ≤ SHEET_SIZE }
    ensures within { result ≤ len + 1 }
    ensures appends { take result sheet.new ≡ take len sheet.old ++ close in_line }
{
    if in_line == 0 {
        return len;
    }
    put_whole(sheet, len, b"\n")
}

/// Puts the lines of a write of a word to CMD, after an open line of `in_line` words. Gives how many bytes of text the
/// sheet has then.
#[inline(always)]
fn put_command(sheet: &mut [u8; SHEET_SIZE], len: usize, in_line: usize, word: u32) -> usize
    requires room { len + one_write_lines_size ≤ SHEET_SIZE }
    ensures within { result ≤ len + one_write_lines_size }
    ensures appends { take result sheet.new ≡ take len sheet.old ++ (close in_line ++ command_lines_text word) }
{
    let begin = put_close(sheet, len, in_line);
    if word < COMMAND_CODES {
        return put_row(sheet, begin, command_row(word));
    }
    let start = put_row(sheet, begin, write_row(Reg::Cmd.number()));
    let end = put_whole(sheet, start, &hex_of_word(word));
    put_whole(sheet, end, b"\n")
}

/// Puts the lines of a write of one word, after an open line of `in_line` words.
#[inline(always)]
fn put_write_lines(
    sheet: &mut [u8; SHEET_SIZE],
    len: usize,
    in_line: usize,
    register: u8,
    word: u32,
) -> TextEnd
    requires register { register < reg_number_count }
    requires room { len + one_write_lines_size ≤ SHEET_SIZE }
    ensures count { result.in_line.count ≡ in_line_after_words 0 (payload_steps register (word ∷ [])) }
    ensures within { result.len ≤ len + one_write_lines_size }
    ensures appends { take result.len sheet.new ≡ take len sheet.old ++ one_write_text in_line register word }
{
    if register == Reg::Cmd.number() {
        return TextEnd {
            len: put_command(sheet, len, in_line, word),
            in_line: OpenWords { count: 0 },
        };
    }
    let begin = put_close(sheet, len, in_line);
    let start = put_row(sheet, begin, write_row(register));
    TextEnd {
        len: put_whole(sheet, start, &hex_of_word(word)),
        in_line: OpenWords { count: 1 },
    }
}

/// Puts a count below 20 and the end of its line. Gives how many bytes of text the sheet has then.
#[inline(always)]
fn put_count(sheet: &mut [u8; SHEET_SIZE], len: usize, count: usize) -> usize
    requires two_digits { count < 20 }
    requires room { len + 3 ≤ SHEET_SIZE }
    ensures within { result ≤ len + 3 }
    ensures appends { take result sheet.new ≡ take len sheet.old ++ (decimal count ++ line_end_byte ∷ []) }
{
    if count < 10 {
        return put_whole(sheet, len, &[b'0' + count as u8, b'\n']);
    }
    put_whole(sheet, len, &[b'1', b'0' + (count - 10) as u8, b'\n'])
}

/// A write of one to sixteen words: the register's number, and the word count.
#[derive(Clone, Copy)]
struct ShortWrite {
    register: u8,
    count: usize,
    ghost range: { register < reg_number_count },
    ghost not_empty: { 0 < count },
    ghost short: { count ≤ most_short_words },
}

/// Puts the line of the header of a short write, after an open line of `in_line` words. Gives how many bytes of text
/// the sheet has then.
#[inline(always)]
fn put_head(sheet: &mut [u8; SHEET_SIZE], len: usize, in_line: usize, write: ShortWrite) -> usize
    requires room { len + head_line_size ≤ SHEET_SIZE }
    ensures within { result ≤ len + head_line_size }
    ensures appends { take result sheet.new ≡ take len sheet.old ++ (close in_line ++ write_head_text write.register write.count) }
{
    let begin = put_close(sheet, len, in_line);
    let start = put_row(sheet, begin, name_row(write.register));
    put_count(sheet, start, write.count)
}

/// Puts the first `count` of eight words in a new `data` line.
#[inline(always)]
fn put_in_row(sheet: &mut [u8; SHEET_SIZE], len: usize, bytes: &[u8; 32], count: usize) -> TextEnd
    requires at_least_one { 0 < count }
    requires in_row { count ≤ row_words }
    requires room { len + data_line_size ≤ SHEET_SIZE }
    ensures within { result.len ≤ len + data_line_size }
    ensures shows { ShowsWords (take (4 * count) bytes.now) (take len sheet.old) (take result.len sheet.new) result.in_line }
{
    let line = data_line(bytes);
    if count == 8 {
        return TextEnd {
            len: put_whole(sheet, len, &line),
            in_line: OpenWords { count: 0 },
        };
    }
    TextEnd {
        len: put_prefix(sheet, len, &line, DATA_SIZE + SPACED_WORD_SIZE * count),
        in_line: OpenWords { count },
    }
}

/// Puts the first `count` of sixteen words in one or two new `data` lines.
#[inline(always)]
fn put_words(sheet: &mut [u8; SHEET_SIZE], len: usize, bytes: &[u8; 64], count: usize) -> TextEnd
    requires at_least_one { 0 < count }
    requires in_two_rows { count ≤ 2 * row_words }
    requires room { len + 2 * data_line_size ≤ SHEET_SIZE }
    ensures within { result.len ≤ len + 2 * data_line_size }
    ensures shows { ShowsWords (take (4 * count) bytes.now) (take len sheet.old) (take result.len sheet.new) result.in_line }
{
    let (rows, _) = bytes.as_chunks::<32>();
    if count <= 8 {
        return put_in_row(sheet, len, &rows[0], count);
    }
    let start = put_whole(sheet, len, &data_line(&rows[0]));
    put_in_row(sheet, start, &rows[1], count - 8)
}

/// Puts the lines of a gap, which is the first `count` of these bytes, and of the sync word after it. Gives how many
/// bytes of text the sheet has then.
#[inline(always)]
fn put_bytes_and_sync(
    sheet: &mut [u8; SHEET_SIZE],
    len: usize,
    bytes: &[u8; 32],
    count: usize,
) -> usize
    requires in_row { count < bytes_row_size }
    requires room { len + gap_lines_size ≤ SHEET_SIZE }
    ensures within { result ≤ len + gap_lines_size }
    ensures appends { take result sheet.new ≡ take len sheet.old ++ (bytes_text (take count bytes.now) ++ ended_text Sync) }
{
    if count == 0 {
        return put_whole(sheet, len, b"sync\n");
    }
    let end = put_prefix(sheet, len, &bytes_line(bytes), BYTES_SIZE + 2 * count);
    put_whole(sheet, end, b"\nsync\n")
}

/// A short run that was put on a sheet: the words of the open line after it, how many bytes the sheet's text has then,
/// and how many bytes of the piece the run took.
#[derive(Clone, Copy)]
struct PutRun {
    in_line: OpenWords,
    len: usize,
    size: usize,
}

/// Puts the lines of a write of one word, which the cutter took.
#[inline(always)]
fn put_one_write(
    sheet: &mut [u8; SHEET_SIZE],
    len: usize,
    in_line: OpenWords,
    register: u8,
    word: u32,
) -> PutRun
    requires register { register < reg_number_count }
    requires room { len + one_write_lines_size ≤ SHEET_SIZE }
    ensures size { result.size ≡ 8 }
    ensures within { result.len ≤ len + one_write_lines_size }
    ensures listed { (c d : CutterState) (rest : List ℕ) → WritesOne c d rest register word
        → ListsMoreAfter (on_sheet c in_line sheet.old len) (on_sheet_after d result sheet.new) (take 8 rest) }
{
    let end = put_write_lines(sheet, len, in_line.count, register, word);
    PutRun {
        in_line: end.in_line,
        len: end.len,
        size: 8,
    }
}

/// The first 32 bytes.
#[inline(always)]
fn first_32(bytes: &[u8]) -> &[u8; 32]
    requires { 32 ≤ length bytes.now }
    ensures { result.now ≡ take 32 bytes.now }
{
    let (blocks, _) = bytes.as_chunks::<32>();
    &blocks[0]
}

/// The first 64 bytes.
#[inline(always)]
fn first_64(bytes: &[u8]) -> &[u8; 64]
    requires { 64 ≤ length bytes.now }
    ensures { result.now ≡ take 64 bytes.now }
{
    let (blocks, _) = bytes.as_chunks::<64>();
    &blocks[0]
}

/// Puts the lines of a short write, whose packet begins these bytes.
#[inline(always)]
fn put_short_write(
    sheet: &mut [u8; SHEET_SIZE],
    len: usize,
    in_line: OpenWords,
    write: ShortWrite,
    rest: &[u8],
) -> PutRun
    requires long { longest_short_write ≤ length rest.now }
    requires room { len + short_write_lines_size ≤ SHEET_SIZE }
    ensures size { result.size ≡ 4 + 4 * write.count }
    ensures within { result.len ≤ len + short_write_lines_size }
    ensures listed { (c d : CutterState) → WritesShort c d rest.now write.register write.count
        → ListsMoreAfter (on_sheet c in_line sheet.old len) (on_sheet_after d result sheet.new) (take (4 + 4 * write.count) rest.now) }
{
    let start = put_head(sheet, len, in_line.count, write);
    let end = put_words(sheet, start, first_64(&rest[4..]), write.count);
    PutRun {
        in_line: end.in_line,
        len: end.len,
        size: 4 + 4 * write.count,
    }
}

/// Puts the lines of one to 32 no-ops in a row.
#[inline(always)]
fn put_few_nops(
    sheet: &mut [u8; SHEET_SIZE],
    len: usize,
    in_line: OpenWords,
    count: usize,
) -> PutRun
    requires at_least_one { 0 < count }
    requires in_table { count ≤ MOST_NOPS }
    requires room { len + nop_lines_size ≤ SHEET_SIZE }
    ensures size { result.size ≡ 4 * count }
    ensures within { result.len ≤ len + (4 * count + 1) }
    ensures listed { (c : CutterState) → TakesHead c no_op Step.Nop
        → ListsMoreAfter (on_sheet c in_line sheet.old len) (on_sheet_after c result sheet.new) (nop_bytes count) }
{
    let start = put_close(sheet, len, in_line.count);
    PutRun {
        in_line: OpenWords { count: 0 },
        len: put_prefix(sheet, start, NOP_LINES.as_flattened(), 4 * count),
        size: 4 * count,
    }
}

/// Puts the lines of a gap of `count` bytes after a session and of the sync word after it, both of which begin `rest`.
#[inline(always)]
fn put_gap(
    sheet: &mut [u8; SHEET_SIZE],
    len: usize,
    in_line: OpenWords,
    count: usize,
    rest: &[u8],
) -> PutRun
    requires near { count + 4 ≤ longest_gap_and_sync }
    requires long { short_gap_room ≤ length rest.now }
    requires room { len + gap_lines_size ≤ SHEET_SIZE }
    ensures size { result.size ≡ count + 4 }
    ensures within { result.len ≤ len + gap_lines_size }
    ensures listed { (c d : CutterState) → EndsGap c d rest.now count
        → ListsMoreAfter (on_sheet c in_line sheet.old len) (on_sheet_after d result sheet.new) (take (count + 4) rest.now) }
{
    PutRun {
        in_line: OpenWords { count: 0 },
        len: put_bytes_and_sync(sheet, len, first_32(rest), count),
        size: count + 4,
    }
}

/// Takes a short run that comes next, and puts its lines. `None`: none was taken, though one may come.
#[inline(always)]
fn take_next(
    sheet: &mut [u8; SHEET_SIZE],
    len: usize,
    cutter: &mut Cutter,
    in_line: OpenWords,
    rest: &[u8],
) -> Option<PutRun>
    requires room { len + FREE_SIZE ≤ SHEET_SIZE }
    ensures takes { IfSome result (λ n. TakesOnSheet cutter.old cutter.new rest.now n.size len n.len) }
    ensures listed { IfSome result (λ n. ListsMoreAfter (on_sheet cutter.old in_line sheet.old len) (on_sheet_after cutter.new n sheet.new)
        (take n.size rest.now)) }
    ensures unchanged { IfNone result ((cutter.new ≡ cutter.old) × (sheet.new ≡ sheet.old)) }
{
    if let Some((register, w)) = cutter.take_write(rest) {
        return Some(put_one_write(sheet, len, in_line, register, w));
    }
    if let Some((register, count)) = cutter.take_short_write(rest) {
        let write = ShortWrite { register, count };
        return Some(put_short_write(sheet, len, in_line, write, rest));
    }
    let nops = cutter.nop_count(&rest[..rest.len().min(4 * MOST_NOPS)]);
    if nops > 0 {
        return Some(put_few_nops(sheet, len, in_line, nops));
    }
    let Some(count) = cutter.take_gap(rest) else {
        return None;
    };
    Some(put_gap(sheet, len, in_line, count, rest))
}

/// The first byte of a type 1 write's header whose reserved bits are 0.
const WRITE_BYTE: u8 = 0x30;

/// The first byte of the no-op.
const NO_OP_BYTE: u8 = 0x20;

/// Whether a short run of a session may come next, by its first byte: that of a type 1 write's header or of a no-op.
/// What comes is looked at by `take_next`.
#[inline(always)]
fn short_run_may_come(rest: &[u8]) -> bool {
    let [first, ..] = rest else {
        return false;
    };
    *first == WRITE_BYTE || *first == NO_OP_BYTE
}

/// Short runs that were taken at once: the words of the open line after them, and how many bytes of the piece they
/// took.
#[derive(Clone, Copy)]
pub(crate) struct Taken {
    pub(crate) in_line: OpenWords,
    pub(crate) size: usize,
}

/// Takes short runs of a session that come next, one after another, and appends their lines, which are put on the sheet
/// first. `None`: none was taken, though one may come.
#[inline(always)]
pub(crate) fn take_short(
    text: &mut Vec<u8>,
    sheet: &mut [u8; SHEET_SIZE],
    cutter: &mut Cutter,
    pen: Pen,
    rest: &[u8],
) -> Option<Taken>
    requires { HasSpareRoom text.old (BYTE_ROOM * length rest.now) }
    ensures takes { IfSome result (λ t. TakesAtOnce cutter.old cutter.new rest.now t.size (vec_len text.old) (vec_len text.new)) }
    ensures listed { IfSome result (λ t. ListsMore (lister_with cutter.old pen text.old.items)
        (lister_with cutter.new (Pen.Session t.in_line) text.new.items) (take t.size rest.now)) }
    ensures same_cutter { IfNone result (cutter.new ≡ cutter.old) }
    ensures same_text { IfNone result (text.new ≡ text.old) }
    ensures room { vec_capacity text.old ≤ vec_capacity text.new }
{
    let Pen::Session(in_line) = pen else {
        return None;
    };
    if !short_run_may_come(rest) {
        return None;
    }
    let mut now = in_line;
    let mut at = 0;
    let mut len = 0;
    while len <= SHEET_SIZE - FREE_SIZE {
        let Some(next) = take_next(sheet, len, cutter, now, &rest[at..]) else {
            break;
        };
        now = next.in_line;
        len = next.len;
        at += next.size;
    }
    if at == 0 {
        return None;
    }
    put(text, &sheet[..len]);
    Some(Taken {
        in_line: now,
        size: at,
    })
}
