//! Playing the data of streams while they are read.
ghost use Rattle.std.specs.Prelude.{◌≡◌, ◌<◌, ◌≤◌, ◌⊎◌, true, length, map, string_bytes, Ok, Err, IfErr, IfOk, OnOk};
ghost use Rattle.x7_words.specs.Input.{AsksAtMost, AtEnd, InputsStay, NoInputFault};
ghost use Rattle.x7_forms.specs.Event.{event_of, no_memory};
ghost use Rattle.x7_forms.specs.Known.{stream_limit};
ghost use Rattle.x7_playing.specs.Playing.{MayPlay, PlaysOn, PlaysRest, PlaysStream, PlaysStreams};
ghost use Rattle.x7_forms.specs.Turn.{AsksOnlyFor, GivesWithinLimit, ReadsRest, UnreadRest, play_turn_size};
ghost use Rattle.x7_forms.specs.ReadingStops.{StopsAmong, limited_together};
ghost use Rattle.x7_forms.specs.Step.{IsOneUnplayed, IsUnplayed, ReadsStream, ReadsStreams};

use crate::player::Player;
use std::alloc::Global;
use x7_forms::{Refusal, STREAM_LIMIT, Why, data_start, next_turn, open, skip_rest};
use x7_part::Part;
use x7_words::{Inputs, are_bytes};

/// The most bytes that one turn of a stream that is played reads: no fewer than the longest header has, so that the
/// first turn judges it.
const PLAY_TURN_SIZE: usize = 266_240;

/// Plays the rest of the open stream, of which `limit` bytes are within the limit, and answers how many of these it
/// leaves; where `last` says that the turn before was the last, there is no rest.
fn play_rest<'w, I: Inputs>(
    player: &mut Player,
    inputs: &mut I,
    name: &'w str,
    limit: usize,
    last: bool,
    piece: &mut [u8],
) -> Result<usize, Refusal<'w>>
    requires selected { (I.state inputs.old).selected ≡ true }
    requires buffer { length piece.old ≡ play_turn_size }
    requires end { last ≡ true → AtEnd (I.state inputs.old).rest }
    requires may_play { MayPlay player.old limit }
    ensures played { IfOk result (λ left. PlaysRest limit left (PlaysOn player.old player.new) (ReadsRest (I.state inputs.old) (I.state inputs.new))) }
    ensures refused { IfErr result (λ r. (event_of r ≡ no_memory) ⊎ UnreadRest (I.state inputs.old) name.now (I.state inputs.new) limit (event_of r)) }
    ensures no_fault { OnOk result (NoInputFault (I.state inputs.old) (I.state inputs.new)) }
    ensures length { length piece.new ≡ length piece.old }
    ensures gives_few { GivesWithinLimit (I.state inputs.old) limit (I.state inputs.new) }
    ensures no_end_read { last ≡ true → (I.state inputs.new).ends ≤ (I.state inputs.old).ends }
{
    if last {
        return Ok(limit);
    }
    let mut left = limit;
    loop {
        let turn = next_turn(inputs, name, left, piece)?;
        if player.play(&piece[..turn.count]).is_err() {
            return Err(Refusal::unnamed(Why::NoMemory));
        }
        left -= turn.count;
        if turn.last {
            return Ok(left);
        }
    }
}

/// Plays the data of a stream of at most `limit` bytes, its header included, and answers how many of these it leaves.
/// A stream over its limit is refused for that, whatever its header says. So one whose header is bad is read to its end
/// first.
fn play_stream<'w, I: Inputs>(
    player: &mut Player,
    inputs: &mut I,
    name: &'w str,
    limit: usize,
    piece: &mut [u8],
) -> Result<usize, Refusal<'w>>
    requires buffer { length piece.old ≡ play_turn_size }
    requires may_play { MayPlay player.old limit }
    ensures played { IfOk result (λ left. PlaysStream limit left (PlaysOn player.old player.new) (ReadsStream (I.state inputs.old) (I.state inputs.new) limit name.now)) }
    ensures refused { IfErr result (λ r. ReadsStream (I.state inputs.old) (I.state inputs.new) limit name.now (Err (event_of r))) }
    ensures named { IfErr result (λ r. IsUnplayed name.now (event_of r)) }
    ensures no_fault { OnOk result (NoInputFault (I.state inputs.old) (I.state inputs.new)) }
    ensures asks { AsksOnlyFor (I.state inputs.old) name.now limit (I.state inputs.new) }
    ensures length { length piece.new ≡ length piece.old }
{
    open(inputs, name)?;
    let first = next_turn(inputs, name, limit, piece)?;
    let left = limit - first.count;
    are_bytes(&piece[..first.count]);
    match data_start(name, &piece[..first.count]) {
        Ok(start) => {
            if player.play(&piece[start..first.count]).is_err() {
                return Err(Refusal::unnamed(Why::NoMemory));
            }
            play_rest(player, inputs, name, left, first.last, piece)
        }
        Err(refusal) => {
            skip_rest(inputs, name, left, first.last, piece)?;
            Err(refusal)
        }
    }
}

/// Plays the data of the streams of these names on a new device of the part, one after the other. The streams are
/// within the limit of one stream together, headers included. A refusal says why one of them isn't played, or that
/// memory was wanting; where too many words were read out, the player is over, which is no refusal.
pub fn play_streams<'w, I: Inputs>(
    alloc: Global,
    part: &Part,
    inputs: &mut I,
    streams: &'w [String],
) -> Result<Player, Refusal<'w>>
    ensures played { IfOk result (λ player. PlaysStreams part.now player (I.state inputs.old) (I.state inputs.new) (map string_bytes streams.now)) }
    ensures refused { IfErr result (λ r. ReadsStreams (I.state inputs.old) (I.state inputs.new) (map string_bytes streams.now) (Err (event_of r))) }
    ensures named { IfErr result (λ r. IsOneUnplayed (map string_bytes streams.now) (event_of r)) }
    ensures no_fault { OnOk result (NoInputFault (I.state inputs.old) (I.state inputs.new)) }
    ensures stops { IfErr result (λ r. StopsAmong (limited_together (I.state inputs.new).contents stream_limit (map string_bytes streams.now))
        (I.state inputs.old) (I.state inputs.new) (event_of r)) }
    ensures asks { AsksAtMost (I.state inputs.old) (length streams.now) (I.state inputs.new) }
    ensures inputs { InputsStay (I.state inputs.old) (I.state inputs.new) }
{
    let Ok(mut player) = Player::new(alloc, part) else {
        return Err(Refusal::unnamed(Why::NoMemory));
    };
    let mut piece = [0u8; PLAY_TURN_SIZE];
    let mut left = STREAM_LIMIT;
    for name in streams {
        left = play_stream(&mut player, inputs, name.as_str(), left, &mut piece)?;
    }
    Ok(player)
}
