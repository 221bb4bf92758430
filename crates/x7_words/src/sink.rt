//! Where text is written, and writing all of a text.
ghost use Rattle.std.specs.Prelude.{◌≡◌, ◌<◌, ◌≤◌, ◌^◌, length, take, flat_map, IfOk, OnOk, OnErr};
ghost use Rattle.x7_words.specs.Sink.{SinkFaultsNeverFall, PutsAll, PutsSome, SinkFails, SinkState};

use crate::input::Failed;

/// Where bytes are written, one after the other.
///
/// The count of faults never falls, and rises by at least one at each fault. A count that has reached the last u64
/// stays there, and counts as risen.
pub trait Sink {
    /// What the sink has come to.
    ghost state: { Self → SinkState };

    /// Writes a prefix of the piece, and answers its length: 0 only for an empty piece.
    /// After an error nothing of the piece was written.
    fn write(&mut self, piece: &[u8]) -> Result<usize, Failed>
        ensures within { IfOk result (λ n. n ≤ length piece.now) }
        ensures progress { IfOk result (λ n. 0 < length piece.now → 0 < n) }
        ensures appends { IfOk result (λ n. PutsAll (state self.old) (take n piece.now) (state self.new)) }
        ensures nothing_written { OnErr result ((state self.new).written ≡ (state self.old).written) }
        ensures failed { OnErr result (SinkFails (state self.old) (state self.new)) }
        ensures no_fault { OnOk result ((state self.new).faults ≡ (state self.old).faults) }
        ensures counts { SinkFaultsNeverFall (state self.old) (state self.new) }
        ensures fits { (state self.new).faults < 2 ^ 64 };
}

/// Writes all of the text, in as many writes as the sink takes.
/// After an error a prefix of the text was written, and the sink's count of faults has risen.
pub fn write_all<S: Sink>(sink: &mut S, text: &[u8]) -> Result<(), Failed>
    ensures appends { OnOk result (PutsAll (S.state sink.old) text.now (S.state sink.new)) }
    ensures prefix { PutsSome (S.state sink.old) text.now (S.state sink.new) }
    ensures failed { OnErr result (SinkFails (S.state sink.old) (S.state sink.new)) }
    ensures no_fault { OnOk result ((S.state sink.new).faults ≡ (S.state sink.old).faults) }
    ensures counts { SinkFaultsNeverFall (S.state sink.old) (S.state sink.new) }
{
    let mut at = 0;
    while at < text.len() {
        at += sink.write(&text[at..])?;
    }
    Ok(())
}

/// Writes the pieces, each whole, one after the other.
/// After an error a prefix of the joined pieces was written, and the sink's count of faults has risen.
pub fn write_pieces<S: Sink>(sink: &mut S, pieces: &[&[u8]]) -> Result<(), Failed>
    ensures appends { OnOk result (PutsAll (S.state sink.old) (flat_map (λ p. p.now) pieces.now) (S.state sink.new)) }
    ensures prefix { PutsSome (S.state sink.old) (flat_map (λ p. p.now) pieces.now) (S.state sink.new) }
    ensures failed { OnErr result (SinkFails (S.state sink.old) (S.state sink.new)) }
    ensures no_fault { OnOk result ((S.state sink.new).faults ≡ (S.state sink.old).faults) }
    ensures counts { SinkFaultsNeverFall (S.state sink.old) (S.state sink.new) }
{
    for piece in pieces {
        write_all(sink, piece)?;
    }
    Ok(())
}
