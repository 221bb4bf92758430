//! Streams that are read whole, each with a limit of its own, of `STREAM_LIMIT` bytes.
ghost use Rattle.std.specs.Prelude.{◌≡◌, ◌≤◌, [], ◌∷◌, IfErr, IfOk, OnOk, Ok, length, true};
ghost use Rattle.x7_words.specs.Input.{NoInputFault};
ghost use Rattle.x7_outcome.specs.Outcome.{stream_data};
ghost use Rattle.x7_forms.specs.Known.{stream_limit};
ghost use Rattle.x7_forms.specs.Event.{event_of, no_memory};
ghost use Rattle.x7_forms.specs.Turn.{AsksOnlyFor};
ghost use Rattle.x7_forms.specs.Step.{AnswersAs, IsUnplayed, ReadsWhole, result_by, step_over};
ghost use Rattle.x7_outcome.specs.Stream.{data_from};

use std::alloc::Global;
use x7_forms::{Refusal, STREAM_LIMIT, data_start, read_whole};
use x7_words::Inputs;

/// A stream that was read whole, and where its data begin.
#[derive(Drop)]
pub struct Stream {
    /// All bytes of the stream.
    pub bytes: Vec<u8>,
    /// Where the data begin, in bytes from 0.
    pub start: usize,
}

/// Reads a stream whole: one of more than `STREAM_LIMIT` bytes is refused before its header is looked at. `IsUnplayed`
/// has all reasons of a refusal; memory may be wanting only once the stream is open.
pub fn read_stream<'w, I: Inputs>(
    alloc: Global,
    inputs: &mut I,
    name: &'w str,
) -> Result<Stream, Refusal<'w>>
    ensures caused { AnswersAs (step_over (name.now ∷ []) (I.state inputs.old) (I.state inputs.new))
        (λ known. stream_data known name.now) (result_by data_from result) }
    ensures named { IfErr result (λ r. IsUnplayed name.now (event_of r)) }
    ensures memory { IfErr result (λ r. event_of r ≡ no_memory → (I.state inputs.new).selected ≡ true) }
    ensures whole { IfOk result (λ stream. ReadsWhole (I.state inputs.old) (I.state inputs.new) stream_limit name.now (Ok stream.bytes.items)) }
    ensures within { IfOk result (λ stream. stream.start ≤ length stream.bytes.items) }
    ensures asks { AsksOnlyFor (I.state inputs.old) name.now stream_limit (I.state inputs.new) }
    ensures no_fault { OnOk result (NoInputFault (I.state inputs.old) (I.state inputs.new)) }
{
    let bytes = read_whole(alloc, inputs, name, STREAM_LIMIT)?;
    let start = data_start(name, &bytes)?;
    Ok(Stream { bytes, start })
}

/// The data of a stream, in the room of its bytes.
fn into_data(stream: Stream) -> Vec<u8>
    requires { stream.start ≤ length stream.bytes.items }
    ensures { result.items ≡ data_from stream }
{
    let Stream { mut bytes, start } = stream;
    if start == 0 {
        return bytes;
    }
    let end = bytes.len();
    bytes.copy_within(start..end, 0);
    bytes.truncate(end - start);
    bytes
}

/// Reads a stream, and keeps its data alone: the bytes after its header, or all where it has none. `IsUnplayed` has the
/// reasons of a refusal; memory may be wanting only once the stream is open.
pub fn read_data<'w, I: Inputs>(
    alloc: Global,
    inputs: &mut I,
    name: &'w str,
) -> Result<Vec<u8>, Refusal<'w>>
    ensures caused { AnswersAs (step_over (name.now ∷ []) (I.state inputs.old) (I.state inputs.new))
        (λ known. stream_data known name.now) (result_by (λ bytes. bytes.items) result) }
    ensures named { IfErr result (λ r. IsUnplayed name.now (event_of r)) }
    ensures memory { IfErr result (λ r. event_of r ≡ no_memory → (I.state inputs.new).selected ≡ true) }
    ensures asks { AsksOnlyFor (I.state inputs.old) name.now stream_limit (I.state inputs.new) }
    ensures no_fault { OnOk result (NoInputFault (I.state inputs.old) (I.state inputs.new)) }
{
    let stream = read_stream(alloc, inputs, name)?;
    Ok(into_data(stream))
}
