//! The commands `plan full`, `plan partial` and `plan read`: streams for plans.
ghost use Rattle.x7_forms.specs.ReadingStops.{IsAbout, StopsAmong, limited};
ghost use Rattle.std.specs.Prelude.{◌≡◌, ◌⊎◌, ◌∷◌, [], Ok, Err, OnOk, IfOk, IfErr};
ghost use Rattle.x7_words.specs.Input.{AsksAtMost, InputsStay, NoInputFault};
ghost use Rattle.x7_part.specs.Part.{frame_words};
ghost use Rattle.x7_forms.specs.Event.{event_of, no_memory};
ghost use Rattle.x7_outcome.specs.Outcome.{PlannedRead, frames_event, planner_event};
ghost use Rattle.x7_forms.specs.Turn.{IsLastAsked};
ghost use Rattle.x7_forms.specs.AskedForm as form;
ghost use Rattle.x7_stream_forms.specs.Plan.{PlanGivesPartial, ReadsPlan};
ghost use Rattle.x7_stream_forms.specs.FullText.{full_answer};
ghost use Rattle.x7_outcome.specs.Ready.{bytes_answer};
ghost use Rattle.x7_forms.specs.Step.{result_by};
ghost use Rattle.x7_forms.specs.Known.{text_limit};
ghost use Rattle.x7_outcome.specs.Ending.{MakesReady};

use crate::full_text::FullText;
use std::alloc::Global;
use x7_forms::{InputFault, Refusal, Why, read_part};
use x7_frames::{FrameLines, FramesFault};
use x7_memory::Plan;
use x7_outcome::feed_whole;
use x7_part::Part;
use x7_planner::{PlanFault, partial, readback};
use x7_words::Inputs;

/// Why a frames text gives no plan.
fn frames_refusal<'w>(name: &'w str, fault: FramesFault) -> Refusal<'w>
    ensures { event_of result ≡ frames_event name.now fault }
{
    let input = match fault {
        FramesFault::Line(line) => InputFault::Line(line),
        FramesFault::Address(line) => InputFault::AddressLine(line),
        FramesFault::Twice(line) => InputFault::TwiceLine(line),
        FramesFault::NoMemory => return Refusal::unnamed(Why::NoMemory),
    };
    Refusal {
        reason: Why::BadInput(input),
        name,
    }
}

/// Why the planner gives no stream.
fn planner_refusal<'w>(name: &'w str, fault: PlanFault) -> Refusal<'w>
    ensures { event_of result ≡ planner_event name.now fault }
{
    let input = match fault {
        PlanFault::Empty => InputFault::Empty,
        PlanFault::Foreign(_) => InputFault::Foreign,
        PlanFault::Range(_) => InputFault::Range,
        PlanFault::NoMemory => return Refusal::unnamed(Why::NoMemory),
    };
    Refusal {
        reason: Why::BadInput(input),
        name,
    }
}

/// The plan of a frames text, which is read turn by turn, so that the text is never held whole.
fn read_plan<'w, I: Inputs>(
    alloc: Global,
    inputs: &mut I,
    part: &Part,
    name: &'w str,
) -> Result<Plan, Refusal<'w>>
    ensures caused { ReadsPlan (I.state inputs.old) (I.state inputs.new) part.now name.now (result_by (λ plan. plan) result) }
    ensures last_asked { IfOk result (λ plan. IsLastAsked name.now text_limit (I.state inputs.new)) }
    ensures stops { IfErr result (λ r. StopsAmong (limited text_limit name.now ∷ []) (I.state inputs.old) (I.state inputs.new) (event_of r)) }
    ensures asks { AsksAtMost (I.state inputs.old) 1 (I.state inputs.new) }
    ensures inputs { InputsStay (I.state inputs.old) (I.state inputs.new) }
    ensures no_fault { OnOk result (NoInputFault (I.state inputs.old) (I.state inputs.new)) }
{
    let Ok(lines) = FrameLines::new(alloc, part) else {
        return Err(Refusal::unnamed(Why::NoMemory));
    };
    let read = feed_whole(alloc, inputs, name, lines)?;
    match read {
        Ok(plan) => Ok(plan),
        Err(fault) => Err(frames_refusal(name, fault)),
    }
}

/// The stream of `plan full PART FRAMES`, ready to be made as it is written: reads the part file and the frames text of
/// these names.
pub fn plan_full<'w, I: Inputs>(
    alloc: Global,
    inputs: &mut I,
    part_name: &'w str,
    frames_name: &'w str,
) -> Result<FullText, Refusal<'w>>
    ensures { MakesReady (form.PlanFull part_name.now frames_name.now) (I.state inputs.old) (I.state inputs.new) (result_by full_answer result) }
{
    let part = read_part(alloc, inputs, part_name)?;
    let plan = read_plan(alloc, inputs, &part, frames_name)?;
    FullText::new(alloc, part, plan)
}

/// The partial stream of a plan. `frames_name` names the frames text that gave the plan, for a refusal.
fn partial_text<'w>(
    alloc: Global,
    part: &Part,
    plan: &Plan,
    frames_name: &'w str,
) -> Result<Vec<u8>, Refusal<'w>>
    requires { plan.now.width ≡ frame_words part.now }
    ensures text { IfOk result (λ stream. PlanGivesPartial part.now plan.now frames_name.now (Ok (bytes_answer stream))) }
    ensures refused { IfErr result (λ r. (event_of r ≡ no_memory) ⊎ PlanGivesPartial part.now plan.now frames_name.now (Err (event_of r))) }
    ensures named { IfErr result (λ r. IsAbout frames_name.now (event_of r)) }
{
    match partial(alloc, part, plan) {
        Ok(text) => Ok(text),
        Err(fault) => Err(planner_refusal(frames_name, fault)),
    }
}

/// The stream of `plan partial PART FRAMES`.
pub fn plan_partial<'w, I: Inputs>(
    alloc: Global,
    inputs: &mut I,
    part_name: &'w str,
    frames_name: &'w str,
) -> Result<Vec<u8>, Refusal<'w>>
    ensures { MakesReady (form.PlanPartial part_name.now frames_name.now) (I.state inputs.old) (I.state inputs.new) (result_by bytes_answer result) }
{
    let part = read_part(alloc, inputs, part_name)?;
    let plan = read_plan(alloc, inputs, &part, frames_name)?;
    partial_text(alloc, &part, &plan, frames_name)
}

/// The stream that reads back `slot_count` slots from the frame address `far` on, or why there is none. `name` is that
/// of the part file, for a refusal.
fn readback_text<'w>(
    alloc: Global,
    part: &Part,
    name: &'w str,
    far: u32,
    slot_count: u32,
) -> Result<Vec<u8>, Refusal<'w>>
    ensures text { IfOk result (λ text. PlannedRead name.now far slot_count (Ok part.now) (Ok (bytes_answer text))) }
    ensures refused { IfErr result (λ r. (event_of r ≡ no_memory) ⊎ PlannedRead name.now far slot_count (Ok part.now) (Err (event_of r))) }
    ensures named { IfErr result (λ r. IsAbout name.now (event_of r)) }
{
    match readback(alloc, part, far, slot_count) {
        Ok(text) => Ok(text),
        Err(fault) => Err(planner_refusal(name, fault)),
    }
}

/// The stream of `plan read PART FAR N`.
pub fn plan_read<'w, I: Inputs>(
    alloc: Global,
    inputs: &mut I,
    part_name: &'w str,
    far: u32,
    slot_count: u32,
) -> Result<Vec<u8>, Refusal<'w>>
    ensures { MakesReady (form.PlanRead part_name.now far slot_count) (I.state inputs.old) (I.state inputs.new) (result_by bytes_answer result) }
{
    let part = read_part(alloc, inputs, part_name)?;
    readback_text(alloc, &part, part_name, far, slot_count)
}
