//! Why a command has no whole text, and the line that says so.
ghost use Rattle.std.specs.Prelude.{◌≡◌, ◌++◌, [], codes};
ghost use Rattle.x7_words.specs.Sink.{PutsOrFails};

use crate::bad_input::InputFault;
use crate::message::{after_name, write_line};
use crate::status::Status;
use x7_part::PartFault;
use x7_words::{NoMemory, Sink};

/// Why a command has no whole text. Each reason has one status and one message.
#[derive(Clone, Copy, Drop)]
pub enum Why {
    /// The words have no form.
    Usage,
    /// An input or a flash that is named isn't there.
    Missing,
    /// A part file was refused.
    BadPart(PartFault),
    /// An input has no reading, or comes to nothing that can be written; the part lacks what is asked of it (the part
    /// file is named then); a flash can't be updated, or a flash or an image can't hold the stream.
    BadInput(InputFault),
    /// An input or the flash could not be opened or read.
    ReadFault,
    /// The output failed, or a write of the flash.
    WriteFault,
    /// There was no memory.
    NoMemory,
    /// An input or the flash has more bytes than its limit; with the name `reads`, too many words were read out.
    TooLarge,
    /// A byte of the flash that was verified, at this place, is another than the one written.
    Differs(u64),
}

impl Why {
    ghost use Rattle.x7_forms.specs.Event.{reason_row};

    /// The status of the reason.
    fn status(self) -> Status
        ensures { result ≡ (reason_row self).ends_as }
    {
        match self {
            Why::Usage => Status::Usage,
            Why::Missing => Status::Missing,
            Why::BadPart(_) => Status::BadPart,
            Why::BadInput(_) => Status::BadInput,
            Why::ReadFault => Status::ReadFault,
            Why::WriteFault => Status::WriteFault,
            Why::NoMemory => Status::NoMemory,
            Why::TooLarge => Status::TooLarge,
            Why::Differs(_) => Status::Differs,
        }
    }

    /// What the line of the reason says before the name, from `x7: ` on.
    fn before_name(self) -> &'static [u8]
        ensures { result.now ≡ codes "x7: " ++ (reason_row self).before_name }
    {
        match self {
            Why::Usage => b"x7: usage",
            Why::Missing => b"x7: missing ",
            Why::BadPart(_) => b"x7: bad part ",
            Why::BadInput(_) => b"x7: bad input ",
            Why::ReadFault => b"x7: read fault ",
            Why::WriteFault => b"x7: write fault",
            Why::NoMemory => b"x7: no memory",
            Why::TooLarge => b"x7: too large ",
            Why::Differs(_) => b"x7: differs ",
        }
    }
}

/// A command has no whole text: why, and which input or flash is concerned.
#[derive(Clone, Copy, Drop)]
pub struct Refusal<'w> {
    /// The reason.
    pub reason: Why,
    /// The name of the input or of the flash concerned; `reads` where too many words were read out; empty where the
    /// reason concerns none.
    pub name: &'w str,
}

impl<'w> Refusal<'w> {
    ghost use Rattle.x7_forms.specs.Event.{event_line, event_of, reason_row, status_of_event};

    /// A refusal for a reason that concerns no input and no flash.
    pub fn unnamed(reason: Why) -> Refusal<'w>
        ensures { event_of result ≡ record { reason = reason; concerned = [] } }
    {
        Refusal { reason, name: "" }
    }

    /// Writes the refusal's line, or a prefix of it where `err` fails, and gives its status. No memory is taken.
    pub fn tell<E: Sink>(&self, err: &mut E) -> Status
        ensures status { result ≡ status_of_event (event_of self.now) }
        ensures line { PutsOrFails (E.state err.old) (event_line (event_of self.now)) (E.state err.new) }
    {
        let (label, detail) = after_name(self.reason);
        let _ = write_line(err, self.reason.before_name(), self.name, label, detail);
        self.reason.status()
    }
}

/// Want of memory concerns no input.
impl<'w> From<NoMemory> for Refusal<'w> {
    ghost use Rattle.x7_forms.specs.Event.{event_of, no_memory};

    ghost from_gives = { λ _ refusal. event_of refusal ≡ no_memory };

    fn from(_: NoMemory) -> Refusal<'w> {
        Refusal::unnamed(Why::NoMemory)
    }
}
