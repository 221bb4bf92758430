//! A plan's frames by content: equal ones together, and where each content begins.
ghost use Rattle.std.specs.Prelude.{◌≡◌, ℕ, ◌<◌, ◌≤◌, bytes_eq, length, slice_index_or, IfOk};
ghost use Rattle.x7_memory.specs.Plan.{PlanRow};
ghost use Rattle.x7_planner.specs.Content.{AreFirsts, AreFramesByContent, AreStarts, IsStartBefore, WordsBegin, planned_rows};

use std::alloc::{AllocError, Global};
use x7_memory::Plan;

/// A planned frame with its address, and its place, from 0, in the plan.
#[derive(Clone, Copy)]
pub(crate) struct PlannedFrame<'p> {
    pub(crate) far: u32,
    pub(crate) words: &'p [u32],
    pub(crate) row: usize,
}

/// A plan's frames by content.
#[derive(Clone, Copy)]
pub(crate) struct ByContent<'p> {
    /// All frames, equal ones together.
    pub(crate) frames: &'p [PlannedFrame<'p>],
    /// For each frame of `frames` the place of the first that is equal to it.
    pub(crate) firsts: &'p [usize],
    /// For each planned frame, in the plan's order, the place of the first of `frames` that is equal to it.
    pub(crate) starts: &'p [usize],
}

/// Whether two frames have the same words.
pub(crate) fn have_same_words(a: &[u32], b: &[u32]) -> bool
    ensures { result ≡ bytes_eq a.now b.now }
{
    a == b
}

/// All planned frames, in the plan's order.
fn frames_of(alloc: Global, plan: &Plan) -> Result<Vec<PlannedFrame<'_>>, AllocError>
    ensures rows { IfOk result (λ frames. planned_rows frames.items ≡ plan.now.rows) }
    ensures places { IfOk result (λ frames. (i : ℕ) (d : PlannedFrame) → i < length frames.items → (slice_index_or frames.items i d).row ≡ i) }
{
    let mut frames = Vec::with_capacity(alloc, plan.len())?;
    for row in 0..plan.len() {
        let Some((far, words)) = plan.row(row) else {
            unreachable!()
        };
        frames.push(PlannedFrame { far, words, row })?;
    }
    Ok(frames)
}

/// All planned frames: equal ones together, and these in the plan's order.
pub(crate) fn frames_by_content(
    alloc: Global,
    plan: &Plan,
) -> Result<Vec<PlannedFrame<'_>>, AllocError>
    ensures { IfOk result (λ frames. AreFramesByContent plan.now.rows frames.items) }
{
    let mut frames = frames_of(alloc, plan)?;
    frames.sort_by(|a, b| a.words.cmp(b.words))?;
    Ok(frames)
}

/// The place of the first frame that is equal to the one at `place`. `start` is the place of the first that is equal to
/// the frame before `place`, 0 where `place` is 0.
fn start_at(frames: &[PlannedFrame], start: usize, place: usize) -> usize
    requires start { IsStartBefore (planned_rows frames.now) start place }
    requires inside { place < length frames.now }
    ensures first { (d : PlanRow) → WordsBegin (planned_rows frames.now) (slice_index_or (planned_rows frames.now) place d).words result }
    ensures within { result ≤ place }
{
    if have_same_words(frames[place].words, frames[start].words) {
        return start;
    }
    place
}

/// For each frame the place of the first that is equal to it.
pub(crate) fn firsts_of(alloc: Global, frames: &[PlannedFrame]) -> Result<Vec<usize>, AllocError>
    ensures { IfOk result (λ firsts. AreFirsts (planned_rows frames.now) firsts.items) }
{
    let mut firsts = Vec::with_capacity(alloc, frames.len())?;
    let mut start = 0;
    for place in 0..frames.len() {
        start = start_at(frames, start, place);
        firsts.push(start)?;
    }
    Ok(firsts)
}

/// For each planned frame, in the plan's order, the place of the first of `frames` that is equal to it, by `firsts`,
/// which has that place for each of `frames`.
pub(crate) fn starts_of(
    alloc: Global,
    plan: &Plan,
    frames: &[PlannedFrame],
    firsts: &[usize],
) -> Result<Vec<usize>, AllocError>
    requires frames { AreFramesByContent plan.now.rows frames.now }
    requires firsts { AreFirsts (planned_rows frames.now) firsts.now }
    ensures { IfOk result (λ starts. AreStarts plan.now.rows (planned_rows frames.now) starts.items) }
{
    let mut starts = vec![in alloc; 0usize; plan.len()]?;
    for k in 0..frames.len() {
        starts[frames[k].row] = firsts[k];
    }
    Ok(starts)
}
