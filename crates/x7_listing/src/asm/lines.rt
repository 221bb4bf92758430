//! The bytes of a text's lines, as the lines come.
ghost use Rattle.std.specs.Prelude.{◌≡◌, ℕ, List, [], ◌≤◌, drop, length, vec_capacity, Ok, IfErr, OnOk};
ghost use Rattle.x7_text.specs.Appends.{HasSpareRoom};
ghost use Rattle.x7_text.specs.LineReader.{GetsLine};
ghost use Rattle.x7_text.specs.Reads.{AppendsIfRead};
ghost use Rattle.x7_text.specs.Row.{bytes_row_size};
ghost use Rattle.x7_crc.specs.Checker.{check_of_bytes, KeepsCheckOf};
ghost use Rattle.x7_listing.specs.Assembly.{AreHeadedAsm};
ghost use Rattle.x7_listing.specs.Assembling.{HasReadWithRoom, FailsFirst, FailsNext, HasAsmFault, HasLineRoom, IsFirstOrGood, Output, ReadsFirst, ReadsNext, ReadsOneMore, AppendsLines};
ghost use Rattle.x7_listing.specs.Line.{line_bytes, FitsLine, text_of};
ghost use Rattle.x7_listing.specs.declared.assembler.AsmFault.{AsmFault};

use super::fast::{WholeLines, next_line, read_quick};
use super::header::header_of_line;
use super::reading::{MOST_ROW_SIZE, put_two_words, read_line};
use crate::assembler::{ASM_LIMIT, AsmFault};
use std::alloc::Global;
use std::marker::Model;
use x7_crc::Checker;
use x7_packets::type1_write_header;
use x7_regs::Reg;
use x7_text::TakesLines;
use x7_words::is_same;

/// Appends the bytes of a line to those of the lines before, which stand from `start` on and whose check the checker
/// keeps. `false`: the text is that of no line.
fn read_checked_line(out: &mut Vec<u8>, start: usize, checker: &mut Checker, line: &[u8]) -> bool
    requires room { HasSpareRoom out.old bytes_row_size }
    requires start { start ≤ length out.old.items }
    requires keeps { KeepsCheckOf checker.old (drop start out.old.items) }
    ensures reads { AppendsIfRead FitsLine text_of (line_bytes (check_of_bytes (drop start out.old.items))) result line.now out.old.items out.new.items }
    ensures start { start ≤ length out.new.items }
    ensures keeps { KeepsCheckOf checker.new (drop start out.new.items) }
{
    if !is_same(line, b"crc") {
        return read_line(out, line);
    }
    let check = checker.check_of(&out[start..]);
    put_two_words(out, type1_write_header(Reg::Crc.number(), 1), check);
    true
}

/// What the lines of a text that is assembled line by line gave so far (this project's choice): the bytes, the place
/// where those after a header's begin, and the check of these.
#[derive(Drop)]
pub struct AsmLines {
    alloc: Global,
    out: Vec<u8>,
    start: usize,
    checker: Checker,
}

impl Model for AsmLines {
    ghost use Rattle.std.specs.Prelude.{vec_capacity};
    ghost use Rattle.x7_listing.specs.Assembling.{IsSoundOutput, Output, output_of};

    ghost Value = { Output };

    ghost view = { λ b. output_of b.out.items b.start b.checker (vec_capacity b.out) };

    ghost invariant = { λ b. IsSoundOutput b.out.items b.start b.checker };
}

impl AsmLines {
    /// An assembler that has taken no line.
    pub fn new(alloc: Global) -> AsmLines
        ensures { HasReadWithRoom result [] }
    {
        AsmLines {
            alloc,
            out: Vec::new(alloc),
            start: 0,
            checker: Checker::new(),
        }
    }

    /// Appends the bytes of line `line_number`, from 1, which is no header's, and makes room for those of the next; or
    /// answers the line's fault, or `NoMemory`. Where there was room for those of this line, memory is wanting only
    /// once it is read.
    fn read_one(&mut self, line_number: u64, line: &[u8]) -> Result<(), AsmFault>
        ensures reads { OnOk result (ReadsNext self.old self.new line_number line.now) }
        ensures room { OnOk result (HasLineRoom self.new) }
        ensures fault { IfErr result (FailsNext self.old line_number line.now) }
        ensures memory { IfErr result (λ fault. fault ≡ AsmFault.NoMemory → HasLineRoom self.old → ReadsNext self.old self.new line_number line.now) }
    {
        self.out.reserve(MOST_ROW_SIZE)?;
        if !read_checked_line(&mut self.out, self.start, &mut self.checker, line) {
            return Err(AsmFault::Line(line_number));
        }
        if self.out.len() > ASM_LIMIT {
            return Err(AsmFault::TooLong(line_number));
        }
        self.out.reserve(MOST_ROW_SIZE)?;
        Ok(())
    }

    /// Appends the bytes of the first line, which may be a header's, and makes room for those of the next; or answers
    /// the line's fault, or `NoMemory`.
    fn read_first(&mut self, line: &[u8]) -> Result<(), AsmFault>
        ensures reads { OnOk result (ReadsFirst self.old self.new line.now) }
        ensures room { OnOk result (HasLineRoom self.new) }
        ensures fault { IfErr result (FailsFirst self.old line.now) }
    {
        if let Some(header) = header_of_line(self.alloc, line)? {
            self.start = header.len();
            self.out = header;
            self.checker = Checker::new();
            self.out.reserve(MOST_ROW_SIZE)?;
            return Ok(());
        }
        self.read_one(1, line)
    }

    /// Appends the bytes of line `line_number`, counted from 1. Memory is wanting only at the first line, or where all
    /// lines up to and with this one are good.
    fn read_next(&mut self, line_number: u64, line: &[u8]) -> Result<(), AsmFault>
        ensures read { (lines : List (List ℕ)) → GetsLine HasReadWithRoom self.old lines line_number → ReadsOneMore lines line.now result self.new }
        ensures memory { (lines : List (List ℕ)) → GetsLine HasReadWithRoom self.old lines line_number
            → IfErr result (λ fault. fault ≡ AsmFault.NoMemory → IsFirstOrGood lines line.now) }
    {
        if line_number == 1 {
            return self.read_first(line);
        }
        self.read_one(line_number, line)
    }

    /// Appends the bytes of the text's first lines after `line_count` lines, as far as they are read at once: none
    /// before any line, since the first one may be a header's. A line that isn't read at once is left to `read_next`,
    /// and so are those after it.
    fn read_at_once(&mut self, line_count: u64, text: &[u8]) -> WholeLines
        ensures appends { AppendsLines text.now (drop result.size text.now) self.old.out self.new.out result.count }
        ensures start { self.new.start ≡ self.old.start }
        ensures room { HasLineRoom self.old → HasLineRoom self.new }
        ensures checker { self.new.checker ≡ self.old.checker }
        ensures within { result.size ≤ length text.now }
        ensures count_within { result.count ≤ result.size }
        ensures most { length self.old.out ≤ ASM_LIMIT → length self.new.out ≤ ASM_LIMIT }
        ensures no_first_line { line_count ≡ 0 → result.count ≡ 0 }
    {
        if line_count == 0 {
            return WholeLines { size: 0, count: 0 };
        }
        read_quick(&mut self.out, text)
    }
}

impl TakesLines for AsmLines {
    type Fault = AsmFault;

    type Out = Vec<u8>;

    ghost took = { λ first. HasReadWithRoom };

    ghost fails = { λ first. HasAsmFault };

    ghost gives = { λ first out lines. AreHeadedAsm lines (Ok out.items) };

    ghost is_want = { λ fault. fault ≡ AsmFault.NoMemory };

    ghost wants = { λ first. IsFirstOrGood };

    fn no_memory() -> AsmFault
        ensures { (first : Output) (lines : List (List ℕ)) → HasAsmFault result lines }
    {
        AsmFault::NoMemory
    }

    fn take_line(&mut self, line_number: u64, line: &[u8]) -> Result<(), AsmFault> {
        self.read_next(line_number, line)
    }

    fn take_lines<'t>(
        &mut self,
        line_count: u64,
        text: &'t [u8],
    ) -> Result<(&'t [u8], u64), AsmFault> {
        let mut rest = text;
        let mut count = line_count;
        loop {
            let quick = self.read_at_once(count, rest);
            count = count.saturating_add(quick.count);
            let (line, more) = next_line(&rest[quick.size..]);
            let Some(after) = more else {
                return Ok((line, count));
            };
            count = count.saturating_add(1);
            self.read_next(count, line)?;
            rest = after;
        }
    }

    fn take_last(self, line_number: u64, line: &[u8]) -> Result<Vec<u8>, AsmFault> {
        let mut last = self;
        last.read_next(line_number, line)?;
        Ok(last.out)
    }
}
