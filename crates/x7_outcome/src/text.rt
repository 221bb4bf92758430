//! Texts that are ready before any of them is written.
ghost use Rattle.std.specs.Prelude.{◌≡◌, OnErr, OnOk};
ghost use Rattle.x7_words.specs.Sink.{PutsPrefix, SinkFails, appended};
ghost use Rattle.x7_forms.specs.Known.{Answer};
ghost use Rattle.x7_outcome.specs.Play.{play_answer};
ghost use Rattle.x7_outcome.specs.Ready.{bytes_answer, mcs_answer, text_answer};
ghost use Rattle.x7_outcome.specs.Ending.{FailsOutLast, PutsAnswer};
ghost use Rattle.x7_forms.specs.Step.{result_by};

use x7_forms::{Refusal, Why};
use x7_mcs::McsText;
use x7_report::PlayText;
use x7_words::{Failed, Sink, write_all};

/// A text that is ready: what it is made of was read and judged, and writing it takes no memory.
pub trait Ready {
    /// The text, and whether the command then ends with `Status::Stopped`: the device that it reports stopped at a
    /// fault, a scan differed, or no attempt of a boot started.
    ghost answer: { Self → Answer };

    /// Whether the command then ends with `Status::Stopped`.
    fn is_stopped(&self) -> bool
        ensures { result ≡ (answer self.now).stopped };

    /// Writes the text. After an error the sink has failed, and a prefix of the text was written.
    fn write<O: Sink>(&mut self, out: &mut O) -> Result<(), Failed>
        ensures whole { OnOk result ((O.state out.new).written ≡ appended (O.state out.old).written (answer self.old).text) }
        ensures prefix { PutsPrefix (O.state out.old).written (answer self.old).text (O.state out.new).written }
        ensures failed { OnErr result (SinkFails (O.state out.old) (O.state out.new)) }
        ensures no_fault { OnOk result ((O.state out.new).faults ≡ (O.state out.old).faults) };
}

/// A text that was made whole.
#[derive(Drop)]
pub struct Text {
    /// Whether the command then ends with `Status::Stopped`.
    pub stopped: bool,
    /// The bytes of the text.
    pub text: Vec<u8>,
}

impl Ready for Text {
    ghost answer = { text_answer };

    fn is_stopped(&self) -> bool {
        self.stopped
    }

    fn write<O: Sink>(&mut self, out: &mut O) -> Result<(), Failed> {
        write_all(out, &self.text)
    }
}

/// Bytes that are a whole text, which reports nothing that could stop.
impl Ready for Vec<u8> {
    ghost answer = { bytes_answer };

    fn is_stopped(&self) -> bool {
        false
    }

    fn write<O: Sink>(&mut self, out: &mut O) -> Result<(), Failed> {
        write_all(out, self)
    }
}

/// The Intel HEX text of a flash image, which is made as it is written.
impl Ready for McsText {
    ghost answer = { mcs_answer };

    fn is_stopped(&self) -> bool {
        false
    }

    fn write<O: Sink>(&mut self, out: &mut O) -> Result<(), Failed> {
        McsText::write(self, out)
    }
}

/// The report of a device, after the lines that stand before it; the lines of its frames are made as they are written.
impl Ready for PlayText {
    ghost answer = { play_answer };

    fn is_stopped(&self) -> bool {
        PlayText::is_stopped(self)
    }

    fn write<O: Sink>(&mut self, out: &mut O) -> Result<(), Failed> {
        PlayText::write(self, out)
    }
}

/// Writes a text that is ready, and answers whether what the text reports stopped, or that the output failed. Where
/// there is a refusal in place of a text, nothing is written, and the refusal is the answer.
pub fn put_whole<'w, T: Ready + Drop, O: Sink>(
    whole: Result<T, Refusal<'w>>,
    out: &mut O,
) -> Result<bool, Refusal<'w>>
    ensures put { PutsAnswer (result_by T.answer whole.entry) (O.state out.old) (O.state out.new) (result_by (λ stopped. stopped) result) }
    ensures failed_last { FailsOutLast (O.state out.old) (O.state out.new) (result_by (λ stopped. stopped) result) }
{
    let mut text = whole?;
    let stopped = text.is_stopped();
    match text.write(out) {
        Ok(()) => Ok(stopped),
        Err(_) => Err(Refusal::unnamed(Why::WriteFault)),
    }
}
