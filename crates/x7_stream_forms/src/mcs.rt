//! The commands `mcs` and `unmcs`: flash images as Intel HEX texts, and back.
ghost use Rattle.std.specs.Prelude.{◌≡◌};
ghost use Rattle.x7_forms.specs.Event.{event_of};
ghost use Rattle.x7_outcome.specs.Outcome.{mcs_event};
ghost use Rattle.x7_outcome.specs.Ending.{MakesReady};
ghost use Rattle.x7_forms.specs.AskedForm as form;
ghost use Rattle.x7_outcome.specs.Ready.{bytes_answer, mcs_answer};
ghost use Rattle.x7_forms.specs.Step.{result_by};

use std::alloc::Global;
use x7_forms::{InputFault, Refusal, Why, read_whole};
use x7_mcs::{IMAGE_LIMIT, McsFault, McsLines, McsText};
use x7_outcome::feed_whole;
use x7_words::Inputs;

/// Why an Intel HEX text gives no image.
fn refusal_of<'w>(name: &'w str, fault: McsFault) -> Refusal<'w>
    ensures { event_of result ≡ mcs_event name.now fault }
{
    let input = match fault {
        McsFault::Line(line) => InputFault::Line(line),
        McsFault::Sum { line, want, got } => InputFault::Sum { line, want, got },
        McsFault::Overlap(place) => InputFault::Overlap(place),
        McsFault::NoEnd => InputFault::NoEnd,
        McsFault::TooLarge(line) => InputFault::LargeLine(line),
        McsFault::NoMemory => return Refusal::unnamed(Why::NoMemory),
    };
    Refusal {
        reason: Why::BadInput(input),
        name,
    }
}

/// The text of `mcs IMAGE`, ready to be written block by block.
pub fn mcs<'w, I: Inputs>(
    alloc: Global,
    inputs: &mut I,
    image_name: &'w str,
) -> Result<McsText, Refusal<'w>>
    ensures { MakesReady (form.Mcs image_name.now) (I.state inputs.old) (I.state inputs.new) (result_by mcs_answer result) }
{
    let bytes = read_whole(alloc, inputs, image_name, IMAGE_LIMIT)?;
    Ok(McsText::new(alloc, bytes)?)
}

/// The image of `unmcs TEXT`, whose text is read line by line while it comes.
pub fn unmcs<'w, I: Inputs>(
    alloc: Global,
    inputs: &mut I,
    name: &'w str,
) -> Result<Vec<u8>, Refusal<'w>>
    ensures { MakesReady (form.Unmcs name.now) (I.state inputs.old) (I.state inputs.new) (result_by bytes_answer result) }
{
    let read = feed_whole(alloc, inputs, name, McsLines::new(alloc))?;
    match read {
        Ok(image) => Ok(image),
        Err(fault) => Err(refusal_of(name, fault)),
    }
}
