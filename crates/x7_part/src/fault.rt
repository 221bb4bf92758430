//! The keys of a part file, and why a part file is refused.
ghost use Rattle.std.specs.Prelude.{◌≡◌};
ghost use Rattle.x7_part.specs.Keys.{name_of};
ghost use Rattle.x7_part.specs.declared.fault.PartFault.TheVariants.{NoMemory};

use std::alloc::{AllocError, AllocFailed};
use std::fmt;
use thiserror::Error;

/// A key of a part file, or any other.
#[derive(Clone, Copy, Debug, Drop)]
pub enum PartKey {
    /// The part's name.
    Name,
    /// What the part's IDCODE register reads as.
    Idcode,
    /// The mode pins, as STAT shows them.
    Mode,
    /// The code of the bus width, as STAT shows it.
    BusWidth,
    /// The ticks, of four bytes each, that startup waits for the clocks to lock.
    Lock,
    /// The ticks, of four bytes each, that startup waits for the impedance to match.
    Match,
    /// The words of a frame.
    FrameWords,
    /// The widths in bits of the five fields of a frame address.
    Far,
    /// The bytes of a flash that a step of WBSTAR's start address stands for.
    StartUnit,
    /// The rows; in a row, its number within its half.
    Row,
    /// A row's block type.
    Block,
    /// A row's half: 0 top, 1 bottom.
    Half,
    /// The number of minors of each column of a row.
    Minors,
    /// Any other key.
    Other,
}

impl PartKey {
    /// The key as a part file writes it, `other` for an unknown one.
    pub fn name(self) -> &'static str
        ensures { result.now ≡ name_of self }
    {
        match self {
            PartKey::Name => "name",
            PartKey::Idcode => "idcode",
            PartKey::Mode => "mode",
            PartKey::BusWidth => "bus_width",
            PartKey::Lock => "lock",
            PartKey::Match => "match",
            PartKey::FrameWords => "frame_words",
            PartKey::Far => "far",
            PartKey::StartUnit => "start_unit",
            PartKey::Row => "row",
            PartKey::Block => "block",
            PartKey::Half => "half",
            PartKey::Minors => "minors",
            PartKey::Other => "other",
        }
    }
}

/// The place of a key in a part file.
#[derive(Clone, Copy, Debug, Drop)]
pub struct Which {
    /// The number of the row that the key belongs to, from 1, none for a key of the top table.
    pub row: Option<u32>,
    /// The key.
    pub key: PartKey,
}

impl fmt::Display for Which {
    fn fmt<W: fmt::Write>(&self, f: &mut fmt::Formatter<W>) -> fmt::Result {
        match self.row {
            Some(row) => write!(f, "{} in row {row}", self.key.name()),
            None => f.write_str(self.key.name()),
        }
    }
}

/// Why a part file gives no part: its first fault, or want of memory.
#[derive(Clone, Copy, Debug, Drop, Error)]
pub enum PartFault {
    /// The text is no TOML, or no UTF-8.
    #[error("the text is no TOML")]
    Toml,
    /// The key is required and missing, has a value of another type, or is unknown.
    #[error("key {0}")]
    Key(Which),
    /// The key's value is out of its range; for the list of rows, its length is.
    #[error("range {0}")]
    Range(Which),
    /// The row of this number, from 1, has the block type, the half and the row of an earlier one.
    #[error("same row {0}")]
    SameRow(u32),
    /// The rows have more frames than a part may have, or more words with their pads; the number is that of their
    /// frames.
    #[error("too many frames: {0}")]
    TooMany(u32),
    /// There was no memory, for the part or for the table of its text.
    #[error("no memory")]
    NoMemory,
}

impl From<AllocError> for PartFault {
    ghost from_gives = { λ _ fault. fault ≡ NoMemory };

    fn from(_error: AllocError) -> PartFault {
        PartFault::NoMemory
    }
}

impl<T: Drop> From<AllocFailed<T>> for PartFault {
    ghost from_gives = { λ _ fault. fault ≡ NoMemory };

    fn from(_failed: AllocFailed<T>) -> PartFault {
        PartFault::NoMemory
    }
}
