//! What the lines of a flash text give, as they come.
ghost use Rattle.std.specs.Prelude.{◌≡◌, ◌<◌, ◌∷◌, [], List, ℕ, length, Ok, IfErr, IfOk, MatchOption};
ghost use Rattle.x7_text.specs.LineReader.{GetsLine, WantsAt};
ghost use Rattle.x7_text.specs.Lines.{split};
ghost use Rattle.x7_mcs.specs.Flash.{after_data, after_line};
ghost use Rattle.x7_mcs.specs.Readings.{ImageHolds, flash_reading_at};
ghost use Rattle.x7_mcs.specs.DataRecords.{DataRecord};
ghost use Rattle.x7_mcs.specs.Text.{row_size};
ghost use Rattle.x7_mcs.specs.McsLines.{AreGoodMcsLines, HasMcsFault, HasReadRecords, LinesComeTo, TakesIfEnded, flash_of_lines};
ghost use Rattle.x7_mcs.specs.declared.mcs_lines.McsLines.{McsLines};
ghost use Rattle.x7_mcs.specs.declared.fault.McsFault.{McsFault};

use crate::fault::McsFault;
use crate::image::{Image, empty_image};
use crate::lines::without_return;
use crate::record::BLOCK_SIZE;
use crate::row::{ROW_SIZE, RowRecord, first_row};
use crate::step::{Context, take_data, take_line};
use std::alloc::Global;
use x7_text::{TakesLines, first_line};

/// The last address at which a row begins that ends within its block.
const LAST_ROW_ADDRESS: u16 = (BLOCK_SIZE as usize - ROW_SIZE) as u16;

/// The image that the lines of a flash text gave so far, and what stands for the lines that come: the base, and whether
/// a record 01 has come.
#[derive(Drop)]
pub struct McsLines {
    image: Image,
    context: Context,
}

impl McsLines {
    /// A reader that was given no line: its image is empty.
    pub fn new(alloc: Global) -> McsLines
        ensures { HasReadRecords result [] }
    {
        McsLines {
            image: empty_image(alloc),
            context: Context {
                base: 0,
                has_ended: false,
            },
        }
    }

    /// Takes line `line_number`, which is the line of this row in the form in which this crate writes it; or answers
    /// the line's fault, or `NoMemory`.
    #[inline(always)]
    fn take_row(&mut self, line_number: u64, row: &RowRecord) -> Result<(), McsFault>
        requires { length row.now.content ≡ row_size }
        ensures { (xs : List DataRecord) → ImageHolds self.old.image xs
            → LinesComeTo result (after_data line_number (flash_reading_at self.old.context xs) row.now.address row.now.content) self.new }
    {
        let address = u32::from(row.address);
        self.context = take_data(
            &mut self.image,
            line_number,
            self.context,
            address,
            &row.content,
        )?;
        Ok(())
    }

    /// Takes line `line_number`, given without its end.
    fn take_bare_line(&mut self, line_number: u64, line: &[u8]) -> Result<(), McsFault>
        ensures { (xs : List DataRecord) → ImageHolds self.old.image xs → LinesComeTo result (after_line line_number (flash_reading_at self.old.context xs) line.now) self.new }
    {
        self.context = take_line(&mut self.image, line_number, self.context, line)?;
        Ok(())
    }

    /// Takes the first line of a text, line `line_number`, from 1, if the line has its end, and answers the text after
    /// it; `None` where the line has no end, and then nothing was taken.
    #[inline(always)]
    fn take_first_line<'t>(
        &mut self,
        line_number: u64,
        text: &'t [u8],
    ) -> Result<Option<&'t [u8]>, McsFault>
        ensures read { (lines : List (List ℕ)) → GetsLine HasReadRecords self.old lines line_number → TakesIfEnded lines text.now result self.new }
        ensures memory { (lines : List (List ℕ)) → GetsLine HasReadRecords self.old lines line_number
            → IfErr result (λ f. f ≡ McsFault.NoMemory → WantsAt AreGoodMcsLines lines text.now) }
        ensures left { IfOk result (λ found. MatchOption found (split text.now ≡ text.now ∷ []) (λ rest. length rest.now < length text.now)) }
    {
        if !self.context.has_ended
            && let Some((row, rest)) = first_row(text)
            && row.address <= LAST_ROW_ADDRESS
        {
            self.take_row(line_number, &row)?;
            return Ok(Some(rest));
        }
        let (line, more) = first_line(text);
        let Some(rest) = more else {
            return Ok(None);
        };
        self.take_bare_line(line_number, without_return(line))?;
        Ok(Some(rest))
    }
}

impl TakesLines for McsLines {
    type Fault = McsFault;

    type Out = Vec<u8>;

    ghost took = { λ first. HasReadRecords };

    ghost fails = { λ first. HasMcsFault };

    ghost gives = { λ first image lines. flash_of_lines lines ≡ Ok image.items };

    ghost is_want = { λ fault. fault ≡ McsFault.NoMemory };

    ghost wants = { λ first. AreGoodMcsLines };

    fn no_memory() -> McsFault
        ensures { (first : McsLines) (lines : List (List ℕ)) → HasMcsFault result lines }
    {
        McsFault::NoMemory
    }

    fn take_line(&mut self, line_number: u64, line: &[u8]) -> Result<(), McsFault> {
        self.take_bare_line(line_number, without_return(line))
    }

    fn take_lines<'t>(
        &mut self,
        line_count: u64,
        text: &'t [u8],
    ) -> Result<(&'t [u8], u64), McsFault> {
        let mut rest = text;
        let mut count = line_count;
        loop {
            let next = count.saturating_add(1);
            let Some(after) = self.take_first_line(next, rest)? else {
                return Ok((rest, count));
            };
            rest = after;
            count = next;
        }
    }

    fn take_last(self, line_number: u64, line: &[u8]) -> Result<Vec<u8>, McsFault> {
        let mut last = self;
        last.take_bare_line(line_number, line)?;
        if !last.context.has_ended {
            return Err(McsFault::NoEnd);
        }
        Ok(last.image.bytes)
    }
}
