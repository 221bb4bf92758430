//! One line more of a flash text, taken into the image that the lines before it gave.
ghost use Rattle.std.specs.Prelude.{◌<◌, ◌^◌, List, length};
ghost use Rattle.x7_mcs.specs.Record.{byte_values};
ghost use Rattle.x7_mcs.specs.DataRecords.{DataRecord};
ghost use Rattle.x7_mcs.specs.Flash.{after_data, after_line};
ghost use Rattle.x7_mcs.specs.Readings.{CallComesTo, ImageHolds, after_record, flash_reading_at};

use crate::fault::McsFault;
use crate::image::{Image, take_content};
use crate::record::{BYTES_BESIDE_DATA, Meaning, meaning_of, record_data};
use x7_text::read_pairs;

/// The bytes of the longest record: 255 of data, and those beside them.
const MOST_RECORD_SIZE: usize = 255 + BYTES_BESIDE_DATA;

/// The base that stands, a place in bytes, and whether a record 01 stood.
#[derive(Clone, Copy)]
pub(crate) struct Context {
    pub(crate) base: u32,
    pub(crate) has_ended: bool,
}

/// Takes the data of the record of line `line_number`, from 1, into the image, and gives the base (a place in bytes)
/// that stands after it and whether a record 01 has come; or the record's fault, or `NoMemory`.
#[inline(always)]
pub(crate) fn take_data(
    image: &mut Image,
    line_number: u64,
    context: Context,
    address: u32,
    content: &[u8],
) -> Result<Context, McsFault>
    requires content { length content.now < byte_values }
    requires address { address < 2 ^ 16 }
    ensures { (xs : List DataRecord) → ImageHolds image.old xs → CallComesTo result (after_data line_number (flash_reading_at context xs) address content.now) image.new }
{
    take_content(
        image,
        line_number,
        context.base as usize + address as usize,
        content,
    )?;
    Ok(context)
}

/// Takes the record of line `line_number`, from 1, by its bytes, into the image, and gives the base (a place in bytes)
/// that stands after it and whether a record 01 has come; or the record's fault, or `NoMemory`.
fn take_record(
    image: &mut Image,
    line_number: u64,
    context: Context,
    bytes: &[u8],
) -> Result<Context, McsFault>
    ensures { (xs : List DataRecord) → ImageHolds image.old xs → CallComesTo result (after_record line_number context xs bytes.now) image.new }
{
    match meaning_of(line_number, context.has_ended, bytes)? {
        Meaning::Start => Ok(context),
        Meaning::End => Ok(Context {
            base: context.base,
            has_ended: true,
        }),
        Meaning::Base(base) => Ok(Context {
            base,
            has_ended: context.has_ended,
        }),
        Meaning::Data(address) => take_data(
            image,
            line_number,
            context,
            address,
            record_data(bytes),
        ),
    }
}

/// Takes line `line_number`, from 1, into the image, and gives the base (a place in bytes) that stands after it and
/// whether a record 01 has come; or the line's fault, or `NoMemory`.
pub(crate) fn take_line(
    image: &mut Image,
    line_number: u64,
    context: Context,
    line: &[u8],
) -> Result<Context, McsFault>
    ensures { (xs : List DataRecord) → ImageHolds image.old xs → CallComesTo result (after_line line_number (flash_reading_at context xs) line.now) image.new }
{
    if line.len() == 0 {
        return Ok(context);
    }
    if line[0] != b':' {
        return Err(McsFault::Line(line_number));
    }
    let (_, digits) = line.split_at(1);
    if digits.len() > 2 * MOST_RECORD_SIZE {
        return Err(McsFault::Line(line_number));
    }
    if digits.len() % 2 != 0 {
        return Err(McsFault::Line(line_number));
    }
    let mut room = [0; MOST_RECORD_SIZE];
    let bytes = &mut room[..digits.len() / 2];
    if !read_pairs(bytes, digits) {
        return Err(McsFault::Line(line_number));
    }
    take_record(image, line_number, context, bytes)
}
