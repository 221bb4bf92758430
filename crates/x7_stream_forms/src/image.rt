//! The command `image`: the flash image of a golden and an update stream.
ghost use Rattle.x7_forms.specs.ReadingStops.{IsAbout, StopsAmong, limited};
ghost use Rattle.std.specs.Prelude.{◌≡◌, ◌⊎◌, ◌≤◌, [], ◌∷◌, Ok, Err, OnOk, IfOk, IfErr, length};
ghost use Rattle.x7_words.specs.Input.{AsksAtMost, InputsStay, NoInputFault};
ghost use Rattle.x7_forms.specs.Known.{stream_limit};
ghost use Rattle.x7_forms.specs.Turn.{IsLastAsked};
ghost use Rattle.x7_forms.specs.Event.{bad_input, event_of, no_memory};
ghost use Rattle.x7_forms.specs.declared.bad_input.InputFault.TheVariants as input;
ghost use Rattle.x7_outcome.specs.Outcome.{image_by, image_streams};
ghost use Rattle.x7_outcome.specs.Ending.{MakesReady};
ghost use Rattle.x7_forms.specs.AskedForm as form;
ghost use Rattle.x7_outcome.specs.Ready.{bytes_answer};
ghost use Rattle.x7_stream_forms.specs.Image.{streams_of};
ghost use Rattle.x7_forms.specs.Step.{AnswersAs, result_by, step_over};

use std::alloc::Global;
use x7_boot::ImageFault;
use x7_forms::{InputFault, Refusal, Why, read_part};
use x7_outcome::{Stream, read_stream};
use x7_part::Part;
use x7_words::Inputs;

/// A golden and an update stream that were read whole.
pub(crate) struct Streams {
    golden: Stream,
    update: Stream,
}

impl Drop for Streams {
    fn drop(self) {
        let Streams {
            golden: _,
            update: _,
        } = self;
    }
}

/// Reads the golden and then the update stream, each with the limit of a stream of its own.
fn read_streams<'w, I: Inputs>(
    alloc: Global,
    inputs: &mut I,
    golden_name: &'w str,
    update_name: &'w str,
) -> Result<Streams, Refusal<'w>>
    ensures caused { AnswersAs (step_over (golden_name.now ∷ update_name.now ∷ []) (I.state inputs.old) (I.state inputs.new))
        (λ known. image_streams known golden_name.now update_name.now) (result_by streams_of result) }
    ensures last_asked { IfOk result (λ streams. IsLastAsked update_name.now stream_limit (I.state inputs.new)) }
    ensures stops { IfErr result (λ r. StopsAmong (limited stream_limit golden_name.now ∷ limited stream_limit update_name.now ∷ [])
        (I.state inputs.old) (I.state inputs.new) (event_of r)) }
    ensures golden { IfOk result (λ streams. streams.golden.start ≤ length streams.golden.bytes.items) }
    ensures update { IfOk result (λ streams. streams.update.start ≤ length streams.update.bytes.items) }
    ensures asks { AsksAtMost (I.state inputs.old) 2 (I.state inputs.new) }
    ensures inputs { InputsStay (I.state inputs.old) (I.state inputs.new) }
    ensures no_fault { OnOk result (NoInputFault (I.state inputs.old) (I.state inputs.new)) }
{
    let golden = read_stream(alloc, inputs, golden_name)?;
    let update = read_stream(alloc, inputs, update_name)?;
    Ok(Streams { golden, update })
}

/// The refusal of an update stream of this name, with which the image would have more bytes than a flash may.
fn too_long<'w>(name: &'w str) -> Refusal<'w>
    ensures { event_of result ≡ bad_input name.now input.Image }
{
    Refusal {
        reason: Why::BadInput(InputFault::Image),
        name,
    }
}

/// The image of two streams for parts whose start address counts bytes; or the refusal of the update stream, which has
/// this name, where the image would be too long; or want of memory.
fn image_by_bytes<'w>(
    alloc: Global,
    streams: &Streams,
    name: &'w str,
) -> Result<Vec<u8>, Refusal<'w>>
    requires golden { streams.now.golden.start ≤ length streams.now.golden.bytes.items }
    requires update { streams.now.update.start ≤ length streams.now.update.bytes.items }
    ensures text { IfOk result (λ text. image_by name.now 1 (streams_of streams.now) ≡ Ok (bytes_answer text)) }
    ensures refused { IfErr result (λ r. (event_of r ≡ no_memory) ⊎ (image_by name.now 1 (streams_of streams.now) ≡ Err (event_of r))) }
    ensures named { IfErr result (λ r. IsAbout name.now (event_of r)) }
{
    let golden = &streams.golden.bytes[streams.golden.start..];
    let update = &streams.update.bytes[streams.update.start..];
    match x7_boot::image(alloc, golden, update) {
        Ok(text) => Ok(text),
        Err(ImageFault::TooLong) => Err(too_long(name)),
        Err(ImageFault::NoMemory) => Err(Refusal::unnamed(Why::NoMemory)),
    }
}

/// The image of two streams for a part; or the refusal of the update stream, which has this name, where the image would
/// be too long; or want of memory.
fn image_by_part<'w>(
    alloc: Global,
    part: &Part,
    streams: &Streams,
    name: &'w str,
) -> Result<Vec<u8>, Refusal<'w>>
    requires golden { streams.now.golden.start ≤ length streams.now.golden.bytes.items }
    requires update { streams.now.update.start ≤ length streams.now.update.bytes.items }
    ensures text { IfOk result (λ text. image_by name.now part.now.start_unit (streams_of streams.now) ≡ Ok (bytes_answer text)) }
    ensures refused { IfErr result (λ r. (event_of r ≡ no_memory) ⊎ (image_by name.now part.now.start_unit (streams_of streams.now) ≡ Err (event_of r))) }
    ensures named { IfErr result (λ r. IsAbout name.now (event_of r)) }
{
    let golden = &streams.golden.bytes[streams.golden.start..];
    let update = &streams.update.bytes[streams.update.start..];
    match x7_boot::image_for(alloc, part, golden, update) {
        Ok(text) => Ok(text),
        Err(ImageFault::TooLong) => Err(too_long(name)),
        Err(ImageFault::NoMemory) => Err(Refusal::unnamed(Why::NoMemory)),
    }
}

/// The image of `image GOLDEN UPDATE`.
pub fn image<'w, I: Inputs>(
    alloc: Global,
    inputs: &mut I,
    golden_name: &'w str,
    update_name: &'w str,
) -> Result<Vec<u8>, Refusal<'w>>
    ensures { MakesReady (form.Image golden_name.now update_name.now) (I.state inputs.old) (I.state inputs.new) (result_by bytes_answer result) }
{
    let streams = read_streams(alloc, inputs, golden_name, update_name)?;
    image_by_bytes(alloc, &streams, update_name)
}

/// The image of `image PART GOLDEN UPDATE`.
pub fn image_for<'w, I: Inputs>(
    alloc: Global,
    inputs: &mut I,
    part_name: &'w str,
    golden_name: &'w str,
    update_name: &'w str,
) -> Result<Vec<u8>, Refusal<'w>>
    ensures { MakesReady (form.ImageFor part_name.now golden_name.now update_name.now) (I.state inputs.old) (I.state inputs.new) (result_by bytes_answer result) }
{
    let part = read_part(alloc, inputs, part_name)?;
    let streams = read_streams(alloc, inputs, golden_name, update_name)?;
    image_by_part(alloc, &part, &streams, update_name)
}
