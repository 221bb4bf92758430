//! The command `list`.
ghost use Rattle.std.specs.Prelude.{◌≡◌, ℕ, List, [], ◌++◌, ◌⊎◌, false, Option, Ok, Err, OnErr, OnOk, IfErr, ◌+◌};
ghost use Rattle.x7_words.specs.Sink.{SinkFaultsNeverFall, PutsPrefix, SinkFails, appended};
ghost use Rattle.x7_words.specs.Word.{AreBytes};
ghost use Rattle.x7_listing.specs.Listing.{listing_of};
ghost use Rattle.x7_outcome.specs.Ahead.{ExtendsOutput};
ghost use Rattle.x7_forms.specs.Event.{event_of, no_memory, writing_failed};
ghost use Rattle.x7_listing.specs.Lister.{ListerStandsFor};
ghost use Rattle.x7_outcome.specs.Outside.{transfer};
ghost use Rattle.x7_outcome.specs.Ending.{AnsweredListing, FailsOutLast};
ghost use Rattle.x7_forms.specs.Step.{result_by};
ghost use Rattle.x7_stream_forms.specs.Between.{IsUnlisted, ListsInTurns, StopsIn};

use std::alloc::Global;
use x7_forms::{Refusal, STREAM_LIMIT, TURN_SIZE, Why, next_turn, open, read_beginning};
use x7_listing::Lister;
use x7_words::{Inputs, Sink, are_bytes, write_all, write_pieces};

/// Lists a piece, and writes what that adds to the listing.
fn put_turn<'w, O: Sink>(lister: &mut Lister, out: &mut O, piece: &[u8]) -> Result<(), Refusal<'w>>
    ensures listed { OnOk result ((first : Option (List ℕ)) (bytes : List ℕ) → ListsInTurns lister.old first (O.state out.old).written bytes
        → ListsInTurns lister.new first (O.state out.new).written (bytes ++ piece.now)) }
    ensures prefix { OnErr result (StopsIn lister.old (O.state out.old).written piece.now (O.state out.new).written) }
    ensures refused { IfErr result (λ r. IsUnlisted (O.state out.old) (O.state out.new) (event_of r)) }
    ensures no_fault { OnOk result ((O.state out.new).faults ≡ (O.state out.old).faults) }
    ensures extends { ExtendsOutput (O.state out.old) (O.state out.new) }
    ensures counts { SinkFaultsNeverFall (O.state out.old) (O.state out.new) }
{
    if lister.feed(piece).is_err() {
        return Err(Refusal::unnamed(Why::NoMemory));
    }
    if write_all(out, lister.text()).is_err() {
        return Err(Refusal::unnamed(Why::WriteFault));
    }
    lister.clear_text();
    Ok(())
}

/// Writes the listing of a stream that was read whole: `line`, that of its header or nothing, and the listing of
/// `content`, its data.
fn put_short<'w, O: Sink>(
    lister: &mut Lister,
    out: &mut O,
    line: &[u8],
    content: &[u8],
) -> Result<(), Refusal<'w>>
    requires nothing_listed { ListerStandsFor lister.old [] [] [] }
    ensures listed { OnOk result ((O.state out.new).written ≡ appended (O.state out.old).written (line.now ++ listing_of content.now)) }
    ensures prefix { IfErr result (λ r. PutsPrefix (O.state out.old).written (line.now ++ listing_of content.now) (O.state out.new).written) }
    ensures refused { IfErr result (λ r. IsUnlisted (O.state out.old) (O.state out.new) (event_of r)) }
    ensures no_fault { OnOk result ((O.state out.new).faults ≡ (O.state out.old).faults) }
{
    if lister.feed(content).is_err() {
        return Err(Refusal::unnamed(Why::NoMemory));
    }
    if lister.finish().is_err() {
        return Err(Refusal::unnamed(Why::NoMemory));
    }
    if write_pieces(out, &[line, lister.text()]).is_err() {
        return Err(Refusal::unnamed(Why::WriteFault));
    }
    Ok(())
}

/// Writes `line`, that of a stream's header or nothing, and what is listed so far of `content`, its first data.
fn put_beginning<'w, O: Sink>(
    lister: &mut Lister,
    out: &mut O,
    line: &[u8],
    content: &[u8],
) -> Result<(), Refusal<'w>>
    requires nothing_listed { ListerStandsFor lister.old [] [] [] }
    requires clear { lister.old.text ≡ [] }
    ensures listed { OnOk result (ListsInTurns lister.new (appended (O.state out.old).written line.now) (O.state out.new).written content.now) }
    ensures prefix { IfErr result (λ r. (rest : List ℕ) → AreBytes (content.now ++ rest)
        → PutsPrefix (O.state out.old).written (line.now ++ listing_of (content.now ++ rest)) (O.state out.new).written) }
    ensures refused { IfErr result (λ r. (event_of r ≡ no_memory) ⊎ ((event_of r ≡ writing_failed) × SinkFails (O.state out.old) (O.state out.new))) }
    ensures no_fault { OnOk result ((O.state out.new).faults ≡ (O.state out.old).faults) }
    ensures counts { SinkFaultsNeverFall (O.state out.old) (O.state out.new) }
{
    if write_all(out, line).is_err() {
        return Err(Refusal::unnamed(Why::WriteFault));
    }
    put_turn(lister, out, content)
}

/// Ends the listing, and writes what that adds.
fn put_end<'w, O: Sink>(lister: &mut Lister, out: &mut O) -> Result<(), Refusal<'w>>
    ensures listed { OnOk result ((first : Option (List ℕ)) (bytes : List ℕ) → ListsInTurns lister.old first (O.state out.old).written bytes
        → (O.state out.new).written ≡ appended first (listing_of bytes)) }
    ensures prefix { IfErr result (λ r. (first : Option (List ℕ)) (bytes : List ℕ) → ListsInTurns lister.old first (O.state out.old).written bytes
        → PutsPrefix first (listing_of bytes) (O.state out.new).written) }
    ensures refused { IfErr result (λ r. IsUnlisted (O.state out.old) (O.state out.new) (event_of r)) }
    ensures no_fault { OnOk result ((O.state out.new).faults ≡ (O.state out.old).faults) }
    ensures extends { ExtendsOutput (O.state out.old) (O.state out.new) }
{
    if lister.finish().is_err() {
        return Err(Refusal::unnamed(Why::NoMemory));
    }
    if write_all(out, lister.text()).is_err() {
        return Err(Refusal::unnamed(Why::WriteFault));
    }
    Ok(())
}

/// `list STREAM`: the stream is read up to where its header is judged and then in turns, and what each adds to the
/// listing is written before the next is read.
pub fn list<'w, I: Inputs, O: Sink>(
    alloc: Global,
    inputs: &mut I,
    out: &mut O,
    stream_name: &'w str,
) -> Result<(), Refusal<'w>>
    ensures answered { AnsweredListing stream_name.now (transfer (I.state inputs.old) (O.state out.old)) (transfer (I.state inputs.new) (O.state out.new)) (result_by (λ _. false) result) }
    ensures failed_last { FailsOutLast (O.state out.old) (O.state out.new) (result_by (λ _. false) result) }
{
    open(inputs, stream_name)?;
    let beginning = read_beginning(alloc, inputs, stream_name)?;
    let mut lister = Lister::new(alloc);
    let line: &[u8] = &beginning.line;
    let content = &beginning.bytes[beginning.start..];
    if beginning.last {
        return put_short(&mut lister, out, line, content);
    }
    are_bytes(content);
    put_beginning(&mut lister, out, line, content)?;
    let mut left = STREAM_LIMIT - beginning.bytes.len();
    drop(beginning);
    let mut piece = [0u8; TURN_SIZE];
    loop {
        let turn = next_turn(inputs, stream_name, left, &mut piece)?;
        let bytes = &piece[..turn.count];
        are_bytes(bytes);
        put_turn(&mut lister, out, bytes)?;
        left -= turn.count;
        if turn.last {
            return put_end(&mut lister, out);
        }
    }
}
