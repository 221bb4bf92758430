//! Part files.
ghost use Rattle.std.specs.Prelude.{◌≡◌, ◌⊎◌, ◌≤◌, [], ◌∷◌, Some, None, Ok, Err, length, IsUtf8, IfOk, IfErr, IsErrOf, IsOk};
ghost use Rattle.std.specs.Result.{result_err};
ghost use Rattle.toml.specs.Parse.{parse_document};
ghost use Rattle.toml.specs.View.{table_view};
ghost use Rattle.x7_part.specs.Limits.{most_frame_words, most_rows};
ghost use Rattle.x7_part.specs.Part.{PartData};
ghost use Rattle.x7_part.specs.PartChecks.{AnswersDue, first_of};
ghost use Rattle.x7_part.specs.Row.{same_row_fault, frames_fault, has_few_frames};
ghost use Rattle.x7_part.specs.PartFile.{HasNoKey, first_fault, part_from, part_in};
ghost use Rattle.x7_part.specs.Keys.{top};
ghost use Rattle.x7_part.specs.Values.{under};
ghost use Rattle.x7_part.specs.declared.fault.PartFault.{PartFault};
ghost use Rattle.x7_part.specs.declared.fault.PartKey.{PartKey};
ghost use Rattle.x7_part.specs.declared.fault.PartKey.TheVariants as key;

use crate::checks::{Check, check_tables};
use crate::fault::{PartFault, PartKey};
use crate::limits::{MOST_FRAMES, MOST_WORDS};
use crate::part::Part;
use crate::ranges::require;
use crate::row::{Row, check_same_rows, frame_count, rows_in};
use crate::settings::{check_top_ranges, settings_in};
use crate::slot::PADS_AFTER_ROW;
use crate::values::text;
use std::alloc::Global;
use toml::Table;

/// The top table of a TOML text; the fault `Toml` for what is no TOML or no UTF-8, or want of memory.
fn table_in(alloc: Global, text: &[u8]) -> Result<Table, PartFault>
    ensures table { IfOk result (λ table. IsUtf8 text.now × (parse_document text.now ≡ Some (table_view table))) }
    ensures fault { IfErr result (λ fault. (fault ≡ PartFault.NoMemory) ⊎ ((fault ≡ PartFault.Toml) × (IsUtf8 text.now → parse_document text.now ≡ None))) }
    ensures utf8 { (IsUtf8 text.now → ⊥) → IsErrOf result PartFault.Toml }
    ensures blank { HasNoKey text.now → IsOk result }
{
    let text = match std::str::from_utf8(text) {
        Ok(text) => text,
        Err(_) => return Err(PartFault::Toml),
    };
    match toml::table_from_str(alloc, text) {
        Ok(table) => Ok(table),
        Err(error) => {
            if error.is_memory() {
                Err(PartFault::NoMemory)
            } else {
                Err(PartFault::Toml)
            }
        }
    }
}

/// Refuses rows of which one is the same as an earlier one, or that have too many frames of `width` words, or too many
/// words of these and of the pads.
fn check_rows(width: u32, rows: &[Row]) -> Result<(), PartFault>
    requires width { width ≤ most_frame_words }
    requires rows { length rows.now ≤ most_rows }
    ensures { (part : PartData) → part.frame_words ≡ width → part.rows ≡ rows.now →
        result_err result ≡ first_of (same_row_fault [] rows.now ∷ frames_fault part ∷ []) }
{
    check_same_rows(rows)?;
    let count = frame_count(rows);
    require(
        has_few_frames(width, count, rows.len() as u32),
        PartFault::TooMany(count),
    )
}

/// Whether a part may have `count` frames of `width` words in `row_count` rows, and the words of these and of the pads.
fn has_few_frames(width: u32, count: u32, row_count: u32) -> bool
    requires width { width ≤ most_frame_words }
    requires rows { row_count ≤ most_rows }
    ensures { result ≡ has_few_frames width count row_count }
{
    count <= MOST_FRAMES && width * (count + PADS_AFTER_ROW * row_count) <= MOST_WORDS
}

/// The part of a top table, or the first fault of the table, or want of memory.
fn part_from(alloc: Global, table: &Table) -> Result<Part, PartFault>
    ensures fault { AnswersDue (first_fault (table_view table.now)) result }
    ensures part { IfOk result (λ part. part ≡ part_from (table_view table.now)) }
    ensures unnamed { under key.Name (table_view table.now) ≡ None → IsErrOf result (PartFault.Key (top key.Name)) }
{
    check_tables(Check::Types, table)?;
    check_tables(Check::Names, table)?;
    check_top_ranges(table)?;
    let settings = settings_in(table);
    let rows = rows_in(alloc, table)?;
    check_rows(u32::from(settings.frame_words), &rows)?;
    let name = String::from_str(alloc, text(table, PartKey::Name))?;
    Ok(Part::of(alloc, name, settings, rows)?)
}

/// The part of a part file, or the first fault that the checks find in the file (`part_in`; this project's choice), or
/// want of memory.
pub fn part_of(alloc: Global, text: &[u8]) -> Result<Part, PartFault>
    ensures part { IfOk result (λ part. part_in text.now ≡ Ok part) }
    ensures fault { IfErr result (λ fault. (fault ≡ PartFault.NoMemory) ⊎ (part_in text.now ≡ Err fault)) }
    ensures utf8 { (IsUtf8 text.now → ⊥) → IsErrOf result PartFault.Toml }
    ensures blank { HasNoKey text.now → IsErrOf result (PartFault.Key (top PartKey.Name)) }
{
    part_from(alloc, &table_in(alloc, text)?)
}
