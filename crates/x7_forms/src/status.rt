//! How a run ends.
ghost use Rattle.std.specs.Prelude.{◌≡◌};

/// How a run ended. The program ends with the number of it.
#[derive(Clone, Copy, Drop)]
pub enum Status {
    /// The whole text was written.
    Done,
    /// The whole text was written, and says that the device stopped at a fault, that a scan differed, or that no
    /// attempt of a boot started.
    Stopped,
    /// The words have no form.
    Usage,
    /// An input or a flash that is named isn't there.
    Missing,
    /// A part file was refused.
    BadPart,
    /// An input has no reading, or comes to nothing that can be written; the part lacks what is asked of it (the part
    /// file is named then); a flash can't be updated, or a flash or an image can't hold the stream.
    BadInput,
    /// An input or the flash could not be opened or read.
    ReadFault,
    /// The output failed, or a write of the flash.
    WriteFault,
    /// There was no memory.
    NoMemory,
    /// An input or the flash has more bytes than its limit, or too many words were read out.
    TooLarge,
    /// A byte of the flash that was verified is another than the one written.
    Differs,
}

impl Status {
    ghost use Rattle.x7_forms.specs.Status.{status_number, text_status};

    /// The status after a whole text: `Stopped` where what it reports stopped, and else `Done`.
    pub fn of_text(stopped: bool) -> Status
        ensures { result ≡ text_status stopped }
    {
        if stopped {
            Status::Stopped
        } else {
            Status::Done
        }
    }

    /// The number that the program ends with: 10 is not used; 12 is `main`'s, where the system gives no words.
    pub fn number(self) -> u8
        ensures { result ≡ status_number self }
    {
        match self {
            Status::Done => 0,
            Status::Stopped => 1,
            Status::Usage => 2,
            Status::Missing => 3,
            Status::BadPart => 4,
            Status::BadInput => 5,
            Status::ReadFault => 6,
            Status::WriteFault => 7,
            Status::NoMemory => 8,
            Status::TooLarge => 9,
            Status::Differs => 11,
        }
    }
}
