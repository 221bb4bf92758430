//! The command `asm`.
ghost use Rattle.std.specs.Prelude.{◌≡◌};
ghost use Rattle.x7_forms.specs.Event.{event_of};
ghost use Rattle.x7_outcome.specs.Outcome.{asm_event};
ghost use Rattle.x7_outcome.specs.Ending.{MakesReady};
ghost use Rattle.x7_forms.specs.AskedForm as form;
ghost use Rattle.x7_outcome.specs.Ready.{bytes_answer};
ghost use Rattle.x7_forms.specs.Step.{result_by};

use std::alloc::Global;
use x7_forms::{InputFault, Refusal, Why};
use x7_listing::{AsmFault, AsmLines};
use x7_outcome::feed_whole;
use x7_words::Inputs;

/// Why a text assembles to nothing.
fn refusal_of<'w>(name: &'w str, fault: AsmFault) -> Refusal<'w>
    ensures { event_of result ≡ asm_event name.now fault }
{
    let input = match fault {
        AsmFault::Line(line) => InputFault::Line(line),
        AsmFault::TooLong(line) => InputFault::LongLine(line),
        AsmFault::NoMemory => return Refusal::unnamed(Why::NoMemory),
    };
    Refusal {
        reason: Why::BadInput(input),
        name,
    }
}

/// The bytes of `asm TEXT`, which is assembled while it is read.
pub fn asm<'w, I: Inputs>(
    alloc: Global,
    inputs: &mut I,
    name: &'w str,
) -> Result<Vec<u8>, Refusal<'w>>
    ensures { MakesReady (form.Asm name.now) (I.state inputs.old) (I.state inputs.new) (result_by bytes_answer result) }
{
    let read = feed_whole(alloc, inputs, name, AsmLines::new(alloc))?;
    match read {
        Ok(bytes) => Ok(bytes),
        Err(fault) => Err(refusal_of(name, fault)),
    }
}
