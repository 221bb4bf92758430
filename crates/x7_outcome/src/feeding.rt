//! Texts that are read line by line while they come.
ghost use Rattle.std.specs.Prelude.{◌≢◌, ℕ, ◌<◌, List, [], ◌++◌, length, Ok, Err, IfOk, IfErr, OnOk, ◌+◌};
ghost use Rattle.x7_words.specs.Input.{NoInputFault, taken_bytes_limit};
ghost use Rattle.x7_forms.specs.Event.{event_of, no_memory};
ghost use Rattle.x7_forms.specs.Step.{IsUnread, ReadsWhole};
ghost use Rattle.x7_forms.specs.Turn.{AsksOnlyFor};
ghost use Rattle.x7_forms.specs.Known.{text_limit};
ghost use Rattle.x7_outcome.specs.Feeding.{IsFed, LinesGive};

use std::alloc::Global;
use x7_forms::{Refusal, TEXT_LIMIT, TURN_SIZE, next_turn, open};
use x7_text::{LineReader, TakesLines};
use x7_words::Inputs;

/// Feeds the next piece of a text to its reader. A fault that was found before the piece stays.
fn take_turn<T: TakesLines>(
    read: Result<LineReader<T>, T::Fault>,
    piece: &[u8],
) -> Result<LineReader<T>, T::Fault>
    ensures { (first : T) (text : List ℕ) → length (text ++ piece.now) < taken_bytes_limit → IsFed (T.took first) (T.fails first) read text
        → IsFed (T.took first) (T.fails first) result (text ++ piece.now) }
{
    match read {
        Ok(reader) => reader.feed(piece),
        Err(fault) => Err(fault),
    }
}

/// Ends a text: what its lines give, or the fault that was found in it.
fn end_text<T: TakesLines>(read: Result<LineReader<T>, T::Fault>) -> Result<T::Out, T::Fault>
    ensures { (first : T) (text : List ℕ) → length text < taken_bytes_limit → IsFed (T.took first) (T.fails first) read text
        → LinesGive (T.gives first) (T.fails first) result text }
{
    match read {
        Ok(reader) => reader.finish(),
        Err(fault) => Err(fault),
    }
}

/// Reads a text of at most `TEXT_LIMIT` bytes line by line while it comes, to its end also where a line is at fault.
/// The answer is what its lines give, or the fault for which they are refused, which may be want of memory; or why it
/// wasn't read (`IsUnread`), which is never want of memory.
pub fn feed_whole<'w, I: Inputs, T: TakesLines>(
    alloc: Global,
    inputs: &mut I,
    name: &'w str,
    taker: T,
) -> Result<Result<T::Out, T::Fault>, Refusal<'w>>
    requires nothing_taken { T.took taker taker [] }
    ensures read { IfOk result (λ read. (text : List ℕ) × LinesGive (T.gives taker) (T.fails taker) read text
        × ReadsWhole (I.state inputs.old) (I.state inputs.new) text_limit name.now (Ok text)) }
    ensures refused { IfErr result (λ r. ReadsWhole (I.state inputs.old) (I.state inputs.new) text_limit name.now (Err (event_of r))) }
    ensures named { IfErr result (λ r. IsUnread name.now (event_of r)) }
    ensures memory { IfErr result (λ r. event_of r ≢ no_memory) }
    ensures asks { AsksOnlyFor (I.state inputs.old) name.now text_limit (I.state inputs.new) }
    ensures no_fault { OnOk result (NoInputFault (I.state inputs.old) (I.state inputs.new)) }
{
    open(inputs, name)?;
    let mut piece = [0u8; TURN_SIZE];
    let mut left = TEXT_LIMIT;
    let mut read = Ok(LineReader::new(alloc, taker));
    loop {
        let turn = next_turn(inputs, name, left, &mut piece)?;
        read = take_turn(read, &piece[..turn.count]);
        left -= turn.count;
        if turn.last {
            return Ok(end_text(read));
        }
    }
}
