//! A writer such as standard output as a sink.
ghost use Rattle.std.specs.Prelude.{◌≡◌, [], ◌++◌, ◌<◌, ◌≤◌, length, take, Some, IfOk, OnOk, OnErr};
ghost use Rattle.std.specs.Io.KnownBytes.{WriteAppends};
ghost use Rattle.x7_files.specs.FileCalls.{WritesOnce};
ghost use Rattle.x7_words.specs.Count.{IsLaterCount, raised};

use crate::file_call::{FileCalls, no_calls, write_once};
use std::io::Write;
use std::marker::Model;
use x7_ghost::{Ghost, GhostOf};
use x7_words::{Failed, Sink, raised};

struct Nothing;

impl GhostOf<(), [u8; 0]> for Nothing {
    ghost use Rattle.std.specs.Prelude.{[]};

    ghost value = { λ _. [] };
}

struct Longer;

impl<'a> GhostOf<(&'a Ghost<[u8; 0]>, &'a [u8]), [u8; 0]> for Longer {
    ghost use Rattle.std.specs.Prelude.{◌++◌};

    ghost value = { λ (old, more). old.now ++ more.now };
}

/// No byte was taken yet.
fn no_bytes() -> Ghost<[u8; 0]>
    ensures { result ≡ [] }
{
    Ghost::of::<(), Nothing>(&())
}

/// These bytes were taken too.
fn with_more(old: &Ghost<[u8; 0]>, more: &[u8]) -> Ghost<[u8; 0]>
    ensures { result ≡ old.now ++ more.now }
{
    Ghost::of::<_, Longer>(&(old, more))
}

/// A writer as a sink. What the writer says it took is known; what it does with that is not. Each write is one of the
/// writer's, and one that takes nothing of a piece that is not empty is a fault.
#[derive(Drop)]
pub struct StdSink<W: Write + Drop> {
    writer: W,
    // what the writer took; it has no bytes
    taken: Ghost<[u8; 0]>,
    // the writes that were made with their answers; they have no bytes
    calls: FileCalls,
    // how many writes failed
    faults: u64,
}

impl<W: Write + Drop> Model for StdSink<W> {
    ghost use Rattle.std.specs.Prelude.{◌<◌, ◌^◌};
    ghost use Rattle.x7_files.specs.Sink.{RealSink};

    ghost Value = { RealSink };

    ghost view = { λ s. record { contents = W.contents s.writer; taken = s.taken; calls = s.calls; faults = s.faults } };

    ghost invariant = { λ s. s.faults < 2 ^ 64 };
}

impl<W: Write + Drop> StdSink<W> {
    /// A sink over the writer.
    pub fn new(writer: W) -> StdSink<W>
        ensures { result ≡ record { contents = W.contents writer; taken = []; calls = []; faults = 0 } }
    {
        StdSink {
            writer,
            taken: no_bytes(),
            calls: no_calls(),
            faults: 0,
        }
    }

    /// The writer.
    pub fn into_writer(self) -> W
        ensures { W.contents result ≡ self.contents }
    {
        self.writer
    }
}

impl<W: Write + Drop> Sink for StdSink<W> {
    ghost state = { λ s. record { written = Some s.taken; faults = s.faults } };

    fn write(&mut self, piece: &[u8]) -> Result<usize, Failed>
        ensures within { IfOk result (λ n. n ≤ length piece.now) }
        ensures progress { IfOk result (λ n. 0 < length piece.now → 0 < n) }
        ensures through { WriteAppends self.old.contents self.new.contents result piece.now }
        ensures called { WritesOnce piece.now result self.old.calls self.new.calls }
        ensures taken { IfOk result (λ n. self.new.taken ≡ self.old.taken ++ take n piece.now) }
        ensures not_taken { OnErr result (self.new.taken ≡ self.old.taken) }
        ensures no_fault { OnOk result (self.new.faults ≡ self.old.faults) }
        ensures one_fault { OnErr result (self.new.faults ≡ raised self.old.faults) }
        ensures faults { IsLaterCount self.old.faults self.new.faults }
    {
        match write_once(&mut self.writer, &mut self.calls, piece) {
            Ok(count) if count > 0 || piece.is_empty() => {
                self.taken = with_more(&self.taken, &piece[..count]);
                Ok(count)
            }
            _ => {
                self.faults = raised(self.faults);
                Err(Failed)
            }
        }
    }
}
