//! Reading an input in turns: each reads up to as many bytes as a buffer holds, which are used before the next turn.
ghost use Rattle.std.specs.Prelude.{◌≡◌, ◌+◌, ◌<◌, ◌≤◌, ◌⊎◌, ℕ, List, drop, length, true, vec_len, IfErr, IfOk, OnErr, OnOk};
ghost use Rattle.x7_words.specs.Input.{AtEnd, NoInputFault, OpensInput};
ghost use Rattle.x7_forms.specs.Event.{bad_input, event_of, no_memory, reading_failed, too_large};
ghost use Rattle.x7_forms.specs.Known.{data_in};
ghost use Rattle.x7_forms.specs.Turn.{AppendsRest, AsksFor, AsksOnlyFor, BreaksWithin, FillsBuffer, GivesAtMost, GivesWithinLimit, ReadsRest, ReadsTurn, Unopened, UnreadRest, UnreadToEnd};
ghost use Rattle.x7_forms.specs.Step.{IsUnread, ReadsWhole, result_by};
ghost use Rattle.x7_forms.specs.declared.bad_input.InputFault.TheVariants as input;

use crate::bad_input::InputFault;
use crate::refusal::{Refusal, Why};
use std::alloc::Global;
use x7_header::{HeaderFault, header_of};
use x7_text::put_text;
use x7_words::{Failed, Inputs, SelectFault};

/// The most bytes of a stream, and of all streams of one `play` together (64 MiB).
pub const STREAM_LIMIT: usize = 67_108_864;

/// The most bytes of an assembly, Intel HEX, frames or SVF text (512 MiB).
pub const TEXT_LIMIT: usize = 536_870_912;

/// The most bytes of a script (1 MiB).
pub const SCRIPT_LIMIT: usize = 1_048_576;

/// The most bytes of a part file (1 MiB).
pub(crate) const PART_LIMIT: usize = 1_048_576;

/// The most bytes that one turn of an input reads, but for a stream that is played.
pub const TURN_SIZE: usize = 65_536;

/// How many bytes a turn asks for, where `left` bytes are still within the limit and the buffer holds `room`: at most
/// one byte over the limit.
fn asked_count(left: usize, room: usize) -> usize
    ensures not_empty { 0 < room → 0 < result }
    ensures within { result ≤ room }
    ensures within_left { result ≤ left + 1 }
    ensures fills { room ≤ left → result ≡ room }
    ensures one_over { left < room → result ≡ left + 1 }
{
    if left < room { left + 1 } else { room }
}

/// Fills the buffer with the next bytes of the selected input, and answers how many there were: fewer than the buffer
/// holds only where the input ended.
fn fill<I: Inputs>(inputs: &mut I, buffer: &mut [u8]) -> Result<usize, Failed>
    requires { (I.state inputs.old).selected ≡ true }
    ensures fills { IfOk result (λ n. FillsBuffer (I.state inputs.old) n buffer.new (I.state inputs.new)) }
    ensures failed { OnErr result (BreaksWithin (I.state inputs.old) (length buffer.old) (I.state inputs.new)) }
    ensures no_fault { OnOk result (NoInputFault (I.state inputs.old) (I.state inputs.new)) }
    ensures gives { GivesAtMost (I.state inputs.old) (length buffer.old) (I.state inputs.new) }
    ensures length { length buffer.new ≡ length buffer.old }
{
    let mut at = 0;
    while at < buffer.len() {
        let count = match inputs.read(&mut buffer[at..]) {
            Ok(count) => count,
            Err(failed) => return Err(failed),
        };
        if count == 0 {
            return Ok(at);
        }
        at += count;
    }
    Ok(at)
}

/// Opens the input of this name, of which nothing is read yet. A refusal says that it isn't there, or that the inputs
/// failed.
pub fn open<'w, I: Inputs>(inputs: &mut I, name: &'w str) -> Result<(), Refusal<'w>>
    ensures opened { OnOk result (OpensInput (I.state inputs.old) name.now (I.state inputs.new)) }
    ensures refused { IfErr result (λ r. Unopened (I.state inputs.old) name.now (I.state inputs.new) (event_of r)) }
    ensures no_fault { OnOk result (NoInputFault (I.state inputs.old) (I.state inputs.new)) }
    ensures asks { AsksFor (I.state inputs.old) name.now (I.state inputs.new) }
{
    match inputs.select(name) {
        Ok(()) => Ok(()),
        Err(SelectFault::Missing) => Err(Refusal {
            reason: Why::Missing,
            name,
        }),
        Err(SelectFault::Failed) => Err(Refusal {
            reason: Why::ReadFault,
            name,
        }),
    }
}

/// What a turn read: how many bytes stand at the start of the buffer, and whether the input's end was read after them.
#[derive(Clone, Copy, Drop)]
pub struct Turn {
    /// How many bytes were read.
    pub count: usize,
    /// Whether the input's end was read after these bytes; where it wasn't, the next turn may still read none.
    pub last: bool,
}

/// Reads the next turn of the open input, of which `left` bytes more are within the limit. A refusal, with the input's
/// name, says that a read failed, or that the input is over its limit.
pub fn next_turn<'w, I: Inputs>(
    inputs: &mut I,
    name: &'w str,
    left: usize,
    buffer: &mut [u8],
) -> Result<Turn, Refusal<'w>>
    requires selected { (I.state inputs.old).selected ≡ true }
    requires not_empty { 0 < length buffer.old }
    ensures reads { IfOk result (λ turn. ReadsTurn (I.state inputs.old) left turn buffer.new (I.state inputs.new)) }
    ensures refused { IfErr result (λ r. UnreadToEnd (I.state inputs.old) name.now (I.state inputs.new) left (event_of r)) }
    ensures fails_early { IfErr result (λ r. event_of r ≡ reading_failed name.now → (I.state inputs.new).given < (I.state inputs.old).given + length buffer.old) }
    ensures over { IfErr result (λ r. event_of r ≡ too_large name.now → left < length buffer.old) }
    ensures no_fault { OnOk result (NoInputFault (I.state inputs.old) (I.state inputs.new)) }
    ensures length { length buffer.new ≡ length buffer.old }
    ensures gives_few { GivesWithinLimit (I.state inputs.old) left (I.state inputs.new) }
    ensures gives_a_turn { GivesAtMost (I.state inputs.old) (length buffer.old) (I.state inputs.new) }
{
    let most = asked_count(left, buffer.len());
    let Ok(count) = fill(inputs, &mut buffer[..most]) else {
        return Err(Refusal {
            reason: Why::ReadFault,
            name,
        });
    };
    if count > left {
        return Err(Refusal {
            reason: Why::TooLarge,
            name,
        });
    }
    Ok(Turn {
        count,
        last: count < most,
    })
}

/// Appends to `onto` the rest of the open input, of which `limit` bytes are within the limit. Of a larger rest one byte
/// more is read at most. The input stays open where all went well or memory was wanting.
fn read_rest<'w, I: Inputs>(
    inputs: &mut I,
    name: &'w str,
    limit: usize,
    onto: &mut Vec<u8>,
) -> Result<(), Refusal<'w>>
    requires selected { (I.state inputs.old).selected ≡ true }
    ensures read { OnOk result (AppendsRest (I.state inputs.old) (I.state inputs.new) limit onto.old.items onto.new.items) }
    ensures refused { IfErr result (λ r. (event_of r ≡ no_memory) ⊎ UnreadRest (I.state inputs.old) name.now (I.state inputs.new) limit (event_of r)) }
    ensures no_fault { OnOk result (NoInputFault (I.state inputs.old) (I.state inputs.new)) }
    ensures open { OnOk result ((I.state inputs.new).selected ≡ true) }
    ensures memory { IfErr result (λ r. event_of r ≡ no_memory → (I.state inputs.new).selected ≡ true) }
    ensures gives_few { GivesWithinLimit (I.state inputs.old) limit (I.state inputs.new) }
{
    let mut piece = [0u8; TURN_SIZE];
    let mut left = limit;
    loop {
        let turn = next_turn(inputs, name, left, &mut piece)?;
        put_text(onto, &piece[..turn.count])?;
        left -= turn.count;
        if turn.last {
            return Ok(());
        }
    }
}

/// All bytes of an input that has at most `limit` of them. A refusal says that the input isn't there, that it failed or
/// has more, or that memory was wanting. The input stays open where all went well or memory was wanting.
pub fn read_whole<'w, I: Inputs>(
    alloc: Global,
    inputs: &mut I,
    name: &'w str,
    limit: usize,
) -> Result<Vec<u8>, Refusal<'w>>
    ensures caused { ReadsWhole (I.state inputs.old) (I.state inputs.new) limit name.now (result_by (λ whole. whole.items) result) }
    ensures named { IfErr result (λ r. IsUnread name.now (event_of r)) }
    ensures no_fault { OnOk result (NoInputFault (I.state inputs.old) (I.state inputs.new)) }
    ensures open { OnOk result ((I.state inputs.new).selected ≡ true) }
    ensures memory { IfErr result (λ r. event_of r ≡ no_memory → (I.state inputs.new).selected ≡ true) }
    ensures within { IfOk result (λ whole. vec_len whole ≤ limit) }
    ensures asks { AsksOnlyFor (I.state inputs.old) name.now limit (I.state inputs.new) }
{
    open(inputs, name)?;
    let mut whole = Vec::new(alloc);
    read_rest(inputs, name, limit, &mut whole)?;
    Ok(whole)
}

/// Reads the rest of the open input to its end, of which `limit` bytes are within the limit; where `last` says that the
/// turn before was the last, there is no rest. A refusal, with the input's name, says that a read failed, or that the
/// rest is over the limit.
pub fn skip_rest<'w, I: Inputs>(
    inputs: &mut I,
    name: &'w str,
    limit: usize,
    last: bool,
    buffer: &mut [u8],
) -> Result<(), Refusal<'w>>
    requires selected { (I.state inputs.old).selected ≡ true }
    requires not_empty { 0 < length buffer.old }
    requires end { last ≡ true → AtEnd (I.state inputs.old).rest }
    ensures read { OnOk result ((more : List ℕ) × (length more ≤ limit) × ReadsRest (I.state inputs.old) (I.state inputs.new) more) }
    ensures refused { IfErr result (λ r. UnreadRest (I.state inputs.old) name.now (I.state inputs.new) limit (event_of r)) }
    ensures no_fault { OnOk result (NoInputFault (I.state inputs.old) (I.state inputs.new)) }
    ensures length { length buffer.new ≡ length buffer.old }
    ensures gives_few { GivesWithinLimit (I.state inputs.old) limit (I.state inputs.new) }
    ensures no_end_read { last ≡ true → (I.state inputs.new).ends ≤ (I.state inputs.old).ends }
{
    if last {
        return Ok(());
    }
    let mut left = limit;
    loop {
        let turn = next_turn(inputs, name, left, buffer)?;
        left -= turn.count;
        if turn.last {
            return Ok(());
        }
    }
}

/// The refusal of a stream of this name whose header is refused at the byte `place`, from 0.
pub(crate) fn refused_at<'w>(name: &'w str, place: usize) -> Refusal<'w>
    ensures { event_of result ≡ bad_input name.now (input.Byte place) }
{
    Refusal {
        reason: Why::BadInput(InputFault::Byte(place as u64)),
        name,
    }
}

/// Where the data of a stream begin, in bytes from 0: after its header, or at its first byte where it has none. A
/// header that is cut, or that has another byte in a letter's place, is refused.
pub fn data_start<'w>(name: &'w str, bytes: &[u8]) -> Result<usize, Refusal<'w>>
    ensures data { result_by (λ start. drop start bytes.now) result ≡ data_in name.now bytes.now }
    ensures within { IfOk result (λ start. start ≤ length bytes.now) }
{
    let place = match header_of(bytes) {
        Ok(head) => return Ok(head.size),
        Err(HeaderFault::Raw) => return Ok(0),
        Err(HeaderFault::Cut(place)) => place,
        Err(HeaderFault::Field(place)) => place,
    };
    Err(refused_at(name, place))
}
