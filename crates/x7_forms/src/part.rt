//! The part of a part file.
ghost use Rattle.std.specs.Prelude.{◌≡◌, [], ◌∷◌, IfErr, OnOk, true};
ghost use Rattle.x7_words.specs.Input.{NoInputFault};
ghost use Rattle.x7_forms.specs.Event.{event_of, no_memory};
ghost use Rattle.x7_forms.specs.Known.{part_event, part_known, part_limit};
ghost use Rattle.x7_forms.specs.Turn.{AsksOnlyFor};
ghost use Rattle.x7_forms.specs.Step.{AnswersAs, IsNoPart, result_by, step_over};

use crate::read::{PART_LIMIT, read_whole};
use crate::refusal::{Refusal, Why};
use std::alloc::Global;
use x7_part::{Part, PartFault, part_of};
use x7_words::Inputs;

/// Why there is no part of the part file of this name.
fn refusal_of<'w>(name: &'w str, fault: PartFault) -> Refusal<'w>
    ensures { event_of result ≡ part_event name.now fault }
{
    match fault {
        PartFault::NoMemory => Refusal::unnamed(Why::NoMemory),
        _ => Refusal {
            reason: Why::BadPart(fault),
            name,
        },
    }
}

/// Reads the part file of this name, and gives its part. A refusal has one of three reasons: the file wasn't read, its
/// text is refused, or memory was wanting. The last comes only once the file is open.
pub fn read_part<'w, I: Inputs>(
    alloc: Global,
    inputs: &mut I,
    name: &'w str,
) -> Result<Part, Refusal<'w>>
    ensures caused { AnswersAs (step_over (name.now ∷ []) (I.state inputs.old) (I.state inputs.new))
        (λ known. part_known known name.now) (result_by (λ part. part) result) }
    ensures named { IfErr result (λ r. IsNoPart name.now (event_of r)) }
    ensures no_fault { OnOk result (NoInputFault (I.state inputs.old) (I.state inputs.new)) }
    ensures memory { IfErr result (λ r. event_of r ≡ no_memory → (I.state inputs.new).selected ≡ true) }
    ensures asks { AsksOnlyFor (I.state inputs.old) name.now part_limit (I.state inputs.new) }
{
    let text = read_whole(alloc, inputs, name, PART_LIMIT)?;
    match part_of(alloc, &text) {
        Ok(part) => Ok(part),
        Err(fault) => Err(refusal_of(name, fault)),
    }
}
