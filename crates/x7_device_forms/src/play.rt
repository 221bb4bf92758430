//! The command `play`.
ghost use Rattle.std.specs.Prelude.{◌≡◌, ◌⊎◌, ℕ, List, map, string_bytes, Ok, Err, IfErr, IfOk};
ghost use Rattle.x7_part.specs.Part.{PartData};
ghost use Rattle.x7_forms.specs.Event.{event_of, no_memory, too_many_reads};
ghost use Rattle.x7_playing.specs.Playing.{HasPlayed};
ghost use Rattle.x7_forms.specs.AskedForm as form;
ghost use Rattle.x7_forms.specs.Step.{result_by};
ghost use Rattle.x7_outcome.specs.Play.{reported, play_answer};
ghost use Rattle.x7_outcome.specs.Ending.{MakesReady};

use std::alloc::Global;
use x7_forms::{Refusal, Why, read_part};
use x7_playing::{Player, play_streams};
use x7_report::PlayText;
use x7_words::Inputs;

/// The text of a play, ready to be written; or that too many words were read out; or want of memory.
fn text_of<'w>(alloc: Global, player: Player) -> Result<PlayText, Refusal<'w>>
    ensures text { IfOk result (λ text. (part : PartData) (bytes : List ℕ) → HasPlayed part bytes player → reported part bytes ≡ Ok (play_answer text)) }
    ensures refused { IfErr result (λ r. (event_of r ≡ no_memory)
        ⊎ ((event_of r ≡ too_many_reads) × ((part : PartData) (bytes : List ℕ) → HasPlayed part bytes player → reported part bytes ≡ Err too_many_reads))) }
{
    if player.is_over_limit {
        return Err(Refusal {
            reason: Why::TooLarge,
            name: "reads",
        });
    }
    let stopped = player.device.fault().is_some();
    let (device, reads) = player.into_parts();
    Ok(PlayText::new(alloc, Vec::new(alloc), device, &reads, stopped)?)
}

/// The text of `play PART STREAM..`: the inputs are read in the order of the words, and the streams' data are played as
/// one stream while they are read.
pub fn play<'w, I: Inputs>(
    alloc: Global,
    inputs: &mut I,
    part_name: &'w str,
    streams: &'w [String],
) -> Result<PlayText, Refusal<'w>>
    ensures { MakesReady (form.Play part_name.now (map string_bytes streams.now)) (I.state inputs.old) (I.state inputs.new) (result_by play_answer result) }
{
    let part = read_part(alloc, inputs, part_name)?;
    let player = play_streams(alloc, &part, inputs, streams)?;
    text_of(alloc, player)
}
