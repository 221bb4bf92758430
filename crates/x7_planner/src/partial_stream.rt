//! The stream of a partial reconfiguration.
ghost use Rattle.std.specs.Prelude.{◌≡◌, ◌⊎◌, ◌<◌, [], length, IfOk, IfErr, OnOk};
ghost use Rattle.std.specs.List.{flat_map};
ghost use Rattle.x7_memory.specs.Plan.{AreAddressed};
ghost use Rattle.x7_part.specs.Part.{frame_words};
ghost use Rattle.x7_planner.specs.Content.{AreByContent, AreFramesByContent};
ghost use Rattle.x7_planner.specs.PartialStream.{partial_opening, partial_stream, rows_not_shared, bursts_words, section_words, sections_of};
ghost use Rattle.x7_planner.specs.Fault.{IsPartialFault};
ghost use Rattle.x7_planner.specs.Writer.{with_piece, Words};
ghost use Rattle.x7_planner.specs.declared.fault.PlanFault.{PlanFault};

use crate::address::first_foreign;
use crate::burst::put_bursts;
use crate::content::{ByContent, PlannedFrame, firsts_of, frames_by_content, starts_of};
use crate::fault::PlanFault;
use crate::group::{frames_not_shared, put_groups};
use crate::writer::{ENDING_NO_OPS, OPENING_WORDS, put_check, put_words};
use std::alloc::Global;
use x7_memory::Plan;
use x7_packets::{NO_OP, command, write_one};
use x7_part::Part;
use x7_regs::{Command, Reg};
use x7_words::NoMemory;

/// For how many words there is room at first: those of a small partial stream. A larger one makes more room.
const SMALL_STREAM_WORDS: usize = 1024;

/// Writes what stands before the groups of a partial stream.
fn put_opening(out: &mut Vec<u8>, part: &Part) -> Result<(), NoMemory>
    ensures { OnOk result (out.new.items ≡ with_piece out.old.items (Words (partial_opening part.now))) }
{
    put_words(out, &OPENING_WORDS)?;
    put_words(out, &command(Command::Rcrc))?;
    put_words(out, &[NO_OP])?;
    put_words(out, &write_one(Reg::Idcode, part.idcode()))
}

/// Writes the bursts of the planned frames whose content no group has.
fn put_alone(
    alloc: Global,
    out: &mut Vec<u8>,
    part: &Part,
    plan: &Plan,
    by_content: &ByContent<'_>,
) -> Result<(), NoMemory>
    requires by_content { AreByContent plan.now.rows by_content.now }
    requires addresses { AreAddressed part.now plan.now.rows }
    ensures { OnOk result (out.new.items ≡ with_piece out.old.items (Words (bursts_words part.now (rows_not_shared plan.now.rows plan.now.rows)))) }
{
    // For the proof alone: the part is in range and the plan in order, so its rows are few.
    let _frames = part.frames();
    let _rows = plan.len();
    let alone = frames_not_shared(alloc, plan, by_content)?;
    put_bursts(out, part, &alone)
}

/// Writes the groups and the bursts of a plan, whose frames come with equal ones together.
fn put_by_content(
    alloc: Global,
    out: &mut Vec<u8>,
    part: &Part,
    plan: &Plan,
    frames: &[PlannedFrame<'_>],
) -> Result<(), NoMemory>
    requires frames { AreFramesByContent plan.now.rows frames.now }
    requires addresses { AreAddressed part.now plan.now.rows }
    ensures { OnOk result (out.new.items ≡ with_piece out.old.items (Words (flat_map (section_words part.now) (sections_of part.now plan.now.rows)))) }
{
    let firsts = firsts_of(alloc, frames)?;
    let starts = starts_of(alloc, plan, frames, &firsts)?;
    let by_content = ByContent {
        frames,
        firsts: &firsts,
        starts: &starts,
    };
    put_groups(out, part, plan, &by_content)?;
    put_alone(alloc, out, part, plan, &by_content)
}

/// Writes the groups and the bursts of a plan.
fn put_sections(alloc: Global, out: &mut Vec<u8>, part: &Part, plan: &Plan) -> Result<(), NoMemory>
    requires addresses { AreAddressed part.now plan.now.rows }
    ensures { OnOk result (out.new.items ≡ with_piece out.old.items (Words (flat_map (section_words part.now) (sections_of part.now plan.now.rows)))) }
{
    let frames = frames_by_content(alloc, plan)?;
    put_by_content(alloc, out, part, plan, &frames)
}

/// Writes a partial stream, of which nothing is written yet.
fn put_partial(alloc: Global, out: &mut Vec<u8>, part: &Part, plan: &Plan) -> Result<(), NoMemory>
    requires none { out.old.items ≡ [] }
    requires addresses { AreAddressed part.now plan.now.rows }
    ensures { OnOk result (out.new.items ≡ partial_stream part.now plan.now.rows) }
{
    put_opening(out, part)?;
    put_sections(alloc, out, part, plan)?;
    put_check(out)?;
    put_words(out, &command(Command::Desync))?;
    put_words(out, &[NO_OP; ENDING_NO_OPS])
}

/// The partial stream of a plan whose addresses are the part's.
fn partial_of(alloc: Global, part: &Part, plan: &Plan) -> Result<Vec<u8>, NoMemory>
    requires addresses { AreAddressed part.now plan.now.rows }
    ensures { IfOk result (λ bytes. bytes.items ≡ partial_stream part.now plan.now.rows) }
{
    let mut out = Vec::with_capacity(alloc, 4 * SMALL_STREAM_WORDS)?;
    put_partial(alloc, &mut out, part, plan)?;
    Ok(out)
}

/// The stream that writes the planned frames alone: contents at three addresses or more by copies, the others in
/// bursts. The plan's frames must have as many words as the part's. `Empty` says that the plan has no frame, `Foreign`
/// is its first address that the part lacks. `NoMemory` comes only where there is such a stream.
pub fn partial(alloc: Global, part: &Part, plan: &Plan) -> Result<Vec<u8>, PlanFault>
    requires width { plan.now.width ≡ frame_words part.now }
    ensures stream { IfOk result (λ bytes. bytes.items ≡ partial_stream part.now plan.now.rows) }
    ensures has_rows { IfOk result (λ bytes. 0 < length plan.now.rows) }
    ensures addresses { IfOk result (λ bytes. AreAddressed part.now plan.now.rows) }
    ensures fault { IfErr result (λ fault. (fault ≡ PlanFault.NoMemory) ⊎ IsPartialFault part.now plan.now fault) }
    ensures memory { IfErr result (λ fault. fault ≡ PlanFault.NoMemory → (0 < length plan.now.rows) × AreAddressed part.now plan.now.rows) }
{
    if plan.len() == 0 {
        return Err(PlanFault::Empty);
    }
    if let Some(far) = first_foreign(part, plan) {
        return Err(PlanFault::Foreign(far));
    }
    Ok(partial_of(alloc, part, plan)?)
}
