//! Contents at three addresses or more, which are written once and copied. A content's `start` is the place of its
//! first frame among the `frames` of a `ByContent`.
ghost use Rattle.std.specs.Prelude.{◌≡◌, ◌++◌, if◌then◌else◌, [], ◌∷◌, IfOk, OnOk};
ghost use Rattle.std.specs.List.{flat_map};
ghost use Rattle.x7_planner.specs.Content.{AreByContent, BeginsAt, planned_rows, rows_by_content};
ghost use Rattle.x7_planner.specs.PartialStream.{addresses_with, are_shared, copy_words, groups_words, is_first_of_group, rows_not_shared, section_words, Copies};
ghost use Rattle.x7_planner.specs.Writer.{with_piece, Words};

use crate::content::{ByContent, PlannedFrame};
use crate::writer::{put_packets, put_words};
use std::alloc::{AllocError, Global};
use x7_memory::Plan;
use x7_packets::{command, frame_data_headers, write_one};
use x7_part::Part;
use x7_regs::{Command, Reg};
use x7_words::NoMemory;

/// The fewest addresses at which a content stands that is written once and copied.
const LEAST_GROUP_SIZE: usize = 3;

/// Whether the content that begins at `start` stands at three addresses or more. `_words` is for the contract alone.
fn are_shared(by_content: &ByContent<'_>, start: usize, _words: &[u32]) -> bool
    requires { BeginsAt by_content.now _words.now start }
    ensures { result ≡ are_shared (rows_by_content by_content.now) _words.now }
{
    if by_content.frames.len() - start < LEAST_GROUP_SIZE {
        return false;
    }
    by_content.firsts[start + (LEAST_GROUP_SIZE - 1)] == start
}

/// Whether the planned frame at an address is the first of three or more with its content, which begins at `start`.
/// `_words` is for the contract alone.
fn is_first_of_group(by_content: &ByContent<'_>, start: usize, far: u32, _words: &[u32]) -> bool
    requires { BeginsAt by_content.now _words.now start }
    ensures { result ≡ is_first_of_group (rows_by_content by_content.now) record { far = far; words = _words.now } }
{
    if !are_shared(by_content, start, _words) {
        return false;
    }
    by_content.frames[start].far == far
}

/// Copies the frame that was written to each address of its content, which begins at `start`. `_words` is for the
/// contract alone.
fn put_copies(
    out: &mut Vec<u8>,
    by_content: &ByContent<'_>,
    start: usize,
    _words: &[u32],
) -> Result<(), NoMemory>
    requires { BeginsAt by_content.now _words.now start }
    ensures { OnOk result (out.new.items ≡ with_piece out.old.items (Words (flat_map copy_words (addresses_with _words.now (rows_by_content by_content.now))))) }
{
    for k in start..by_content.frames.len() {
        if by_content.firsts[k] != start {
            return Ok(());
        }
        put_packets(
            out,
            &[
                write_one(Reg::Far, by_content.frames[k].far),
                write_one(Reg::Mfwr, 0),
            ],
        )?;
    }
    Ok(())
}

/// Writes the content that begins at `start` at its first address, and copies it to each of its addresses.
fn put_group(
    out: &mut Vec<u8>,
    part: &Part,
    by_content: &ByContent<'_>,
    start: usize,
    words: &[u32],
) -> Result<(), NoMemory>
    requires { BeginsAt by_content.now words.now start }
    ensures { OnOk result (out.new.items ≡ with_piece out.old.items (Words (section_words part.now (Copies words.now (addresses_with words.now (rows_by_content by_content.now)))))) }
{
    let far = by_content.frames[start].far;
    put_packets(
        out,
        &[
            command(Command::Wcfg),
            write_one(Reg::Far, far),
            frame_data_headers(part.words()),
        ],
    )?;
    put_words(out, words)?;
    put_words(out, &command(Command::Mfw))?;
    put_copies(out, by_content, start, words)
}

/// Writes the group that the planned frame at an address leads, if it leads one. The frame's content begins at `start`.
fn put_led_group(
    out: &mut Vec<u8>,
    part: &Part,
    by_content: &ByContent<'_>,
    start: usize,
    far: u32,
    words: &[u32],
) -> Result<(), NoMemory>
    requires { BeginsAt by_content.now words.now start }
    ensures { OnOk result (out.new.items ≡ with_piece out.old.items (Words (groups_words part.now (rows_by_content by_content.now) (record { far = far; words = words.now } ∷ [])))) }
{
    if !is_first_of_group(by_content, start, far, words) {
        return Ok(());
    }
    put_group(out, part, by_content, start, words)
}

/// Writes the groups of a plan in the order of their first frames.
pub(crate) fn put_groups(
    out: &mut Vec<u8>,
    part: &Part,
    plan: &Plan,
    by_content: &ByContent<'_>,
) -> Result<(), NoMemory>
    requires { AreByContent plan.now.rows by_content.now }
    ensures { OnOk result (out.new.items ≡ with_piece out.old.items (Words (groups_words part.now plan.now.rows plan.now.rows))) }
{
    for i in 0..plan.len() {
        let Some((far, words)) = plan.row(i) else {
            unreachable!()
        };
        put_led_group(out, part, by_content, by_content.starts[i], far, words)?;
    }
    Ok(())
}

/// Adds a frame to those that no group has, unless its content is shared.
fn add_alone<'p>(
    alone: &mut Vec<PlannedFrame<'p>>,
    is_shared: bool,
    frame: PlannedFrame<'p>,
) -> Result<(), AllocError>
    ensures { OnOk result (alone.new.items ≡ (if is_shared then alone.old.items else alone.old.items ++ frame.entry ∷ [])) }
{
    if is_shared {
        return Ok(());
    }
    Ok(alone.push(frame)?)
}

/// The frames of a plan whose content no group has, in order.
pub(crate) fn frames_not_shared<'p>(
    alloc: Global,
    plan: &'p Plan,
    by_content: &ByContent<'_>,
) -> Result<Vec<PlannedFrame<'p>>, AllocError>
    requires { AreByContent plan.now.rows by_content.now }
    ensures { IfOk result (λ alone. planned_rows alone.items ≡ rows_not_shared plan.now.rows plan.now.rows) }
{
    let mut alone = Vec::with_capacity(alloc, plan.len())?;
    for row in 0..plan.len() {
        let Some((far, words)) = plan.row(row) else {
            unreachable!()
        };
        let is_shared = are_shared(by_content, by_content.starts[row], words);
        add_alone(&mut alone, is_shared, PlannedFrame { far, words, row })?;
    }
    Ok(alone)
}
