//! A pipeline and a memory do what an access asks (UG470, frame address register and frame data registers).
ghost use Rattle.std.specs.Prelude.{◌≡◌, ◌/◌, ◌≤◌, ℕ, length, IfNone, OnSome};
ghost use Rattle.x7_words.specs.Word.{AreWholeWords};
ghost use Rattle.x7_regs.specs.declared.register.Reg.TheVariants as reg;
ghost use Rattle.x7_flow.specs.Settings.{takes_copies as takes_copies_by};
ghost use Rattle.x7_flow.specs.WordsTaken.{ForEachHistoryThatTakes, WordsTaken, words_to};
ghost use Rattle.x7_pipeline.specs.Pipeline.{AreOfPart};
ghost use Rattle.x7_flow.specs.HistoryFlow.{Flow, fault_by};
ghost use Rattle.x7_flow.specs.Standing.{ForEachAsked, HaveDone, HasFlow, frames_state};

use crate::asking::{takes_copies, takes_frames};
use crate::settings::FrameSettings;
use x7_memory::Memory;
use x7_part::Part;
use x7_pipeline::{Pipeline, RunFault};
use x7_regs::{Reg, command_of};

/// Does what a word written to a register asks of the pipeline and the memory. The answer is the fault by which the
/// word is refused, if it is; then both stay as they were.
pub(crate) fn take_written_word(
    settings: FrameSettings,
    reg: Reg,
    word: u32,
    part: &Part,
    pipeline: &mut Pipeline,
    memory: &mut Memory,
) -> Option<RunFault>
    requires part { AreOfPart part.now pipeline.old memory.old }
    ensures done { ForEachAsked part.now settings reg word (λ asked.
        IfNone result (HaveDone part.now asked (frames_state pipeline.old memory.old) (frames_state pipeline.new memory.new))) }
    ensures fault { ForEachAsked part.now settings reg word (λ asked. (f : Flow) → HasFlow part.now pipeline.old f → result ≡ fault_by part.now asked f) }

    // Whatever the answer.
    ensures part { AreOfPart part.now pipeline.new memory.new }

    // After a fault.
    ensures unchanged { OnSome result (pipeline.new ≡ pipeline.old) }
    ensures same_memory { OnSome result (memory.new ≡ memory.old) }
{
    match reg {
        Reg::Far => {
            pipeline.load(word);
            None
        }
        Reg::Cmd => {
            pipeline.command(command_of(word), part);
            None
        }
        Reg::Fdri => {
            if !takes_frames(settings) {
                return None;
            }
            match pipeline.write(word, part, memory) {
                Ok(()) => None,
                Err(fault) => Some(fault),
            }
        }
        Reg::Mfwr => {
            if !takes_copies(settings) {
                return None;
            }
            match pipeline.copy(part, memory) {
                Ok(()) => None,
                Err(fault) => Some(fault),
            }
        }
        _ => None,
    }
}

/// Takes words written to MFWR at once, four bytes each: the first puts the source, and each later one would put it
/// there again. The answer is the number of words looked at, a refused one included, and its fault, if one was.
pub(crate) fn take_copies(
    bytes: &[u8],
    part: &Part,
    pipeline: &mut Pipeline,
    memory: &mut Memory,
) -> (usize, Option<RunFault>)
    requires whole { AreWholeWords bytes.now }
    requires part { AreOfPart part.now pipeline.old memory.old }
    ensures taken { (n : ℕ) → ForEachHistoryThatTakes part.now takes_copies_by pipeline.old memory.old
        (λ h. WordsTaken part.now (frames_state pipeline.new memory.new) h (words_to reg.Mfwr n bytes.now) result) }
    ensures within { result.0 ≤ length bytes.now / 4 }
    ensures part { AreOfPart part.now pipeline.new memory.new }
{
    if bytes.is_empty() {
        return (0, None);
    }
    match pipeline.copy(part, memory) {
        Ok(()) => (bytes.len() / 4, None),
        Err(fault) => (1, Some(fault)),
    }
}
