//! What `plan full` writes: a binary stream, which is made as it is written.
ghost use Rattle.std.specs.Prelude.{◌≡◌, ◌≤◌, [], vec_capacity, IfOk, IfErr, OnErr, OnOk};
ghost use Rattle.x7_words.specs.Sink.{PutsAll, PutsSome, SinkFails};
ghost use Rattle.x7_part.specs.Part.{frame_words};
ghost use Rattle.x7_memory.specs.Plan.{AreAddressed};
ghost use Rattle.x7_planner.specs.FullStream.{full_stream};
ghost use Rattle.x7_planner.specs.FullStreamPieces.{HasGiven, piece_limit};
ghost use Rattle.x7_forms.specs.Event.{event_of, no_memory};
ghost use Rattle.x7_stream_forms.specs.FullText.{full_answer};

use std::alloc::Global;
use std::marker::Model;
use x7_forms::{Refusal, Why};
use x7_memory::Plan;
use x7_outcome::Ready;
use x7_part::Part;
use x7_planner::{FullStream, PIECE_LIMIT};
use x7_words::{Failed, Sink, write_all};

/// The full stream of a plan, a binary one, which is ready to be written: a part, a plan for it, and room for a piece
/// of the stream.
pub struct FullText {
    part: Part,
    plan: Plan,
    piece: Vec<u8>,
}

impl Drop for FullText {
    fn drop(self) {
        let FullText {
            part: _,
            plan: _,
            piece: _,
        } = self;
    }
}

impl Model for FullText {
    ghost use Rattle.std.specs.Prelude.{vec_capacity};
    ghost use Rattle.x7_stream_forms.specs.FullText.{FullTextFits, PlanFor};

    ghost Value = { PlanFor };

    ghost view = { λ t. record { part = t.part; plan = t.plan } };

    ghost invariant = { λ t. FullTextFits record { part = t.part; plan = t.plan } (vec_capacity t.piece) };
}

impl FullText {
    /// The full stream of a plan at the part's addresses, ready to be written, or want of memory for a piece of it.
    pub fn new<'w>(alloc: Global, part: Part, plan: Plan) -> Result<FullText, Refusal<'w>>
        requires width { plan.width ≡ frame_words part }
        requires addresses { AreAddressed part plan.rows }
        ensures part { IfOk result (λ text. text.part ≡ part) }
        ensures plan { IfOk result (λ text. text.plan ≡ plan) }
        ensures refused { IfErr result (λ r. event_of r ≡ no_memory) }
    {
        match Vec::with_capacity(alloc, PIECE_LIMIT) {
            Ok(piece) => Ok(FullText { part, plan, piece }),
            Err(_) => Err(Refusal::unnamed(Why::NoMemory)),
        }
    }
}

/// Writes a full stream, of which no piece was given yet, piece by piece, each once it is made. `piece` is room for a
/// piece, `PIECE_LIMIT` bytes.
fn write_stream<O: Sink>(
    stream: FullStream<'_>,
    piece: &mut Vec<u8>,
    out: &mut O,
) -> Result<(), Failed>
    requires given { HasGiven stream [] }
    requires room { piece_limit ≤ vec_capacity piece.old }
    ensures whole { OnOk result (PutsAll (O.state out.old) (full_stream stream.entry.part stream.entry.plan) (O.state out.new)) }
    ensures prefix { PutsSome (O.state out.old) (full_stream stream.entry.part stream.entry.plan) (O.state out.new) }
    ensures failed { OnErr result (SinkFails (O.state out.old) (O.state out.new)) }
    ensures no_fault { OnOk result ((O.state out.new).faults ≡ (O.state out.old).faults) }
    ensures room { piece_limit ≤ vec_capacity piece.new }
{
    let mut stream = stream;
    loop {
        piece.clear();
        let Ok(more) = stream.put_next(piece) else {
            unreachable!()
        };
        if !more {
            return Ok(());
        }
        write_all(out, piece)?;
    }
}

/// Writes the full stream of a plan, and takes no memory. `piece` is room for a piece of the stream, `PIECE_LIMIT`
/// bytes.
fn write_full<O: Sink>(
    part: &Part,
    plan: &Plan,
    piece: &mut Vec<u8>,
    out: &mut O,
) -> Result<(), Failed>
    requires width { plan.now.width ≡ frame_words part.now }
    requires addresses { AreAddressed part.now plan.now.rows }
    requires room { piece_limit ≤ vec_capacity piece.old }
    ensures whole { OnOk result (PutsAll (O.state out.old) (full_stream part.now plan.now) (O.state out.new)) }
    ensures prefix { PutsSome (O.state out.old) (full_stream part.now plan.now) (O.state out.new) }
    ensures failed { OnErr result (SinkFails (O.state out.old) (O.state out.new)) }
    ensures no_fault { OnOk result ((O.state out.new).faults ≡ (O.state out.old).faults) }
    ensures room { piece_limit ≤ vec_capacity piece.new }
{
    let Ok(stream) = FullStream::new(part, plan) else {
        unreachable!()
    };
    write_stream(stream, piece, out)
}

impl Ready for FullText {
    ghost answer = { full_answer };

    fn is_stopped(&self) -> bool {
        false
    }

    fn write<O: Sink>(&mut self, out: &mut O) -> Result<(), Failed> {
        write_full(&self.part, &self.plan, &mut self.piece, out)
    }
}
