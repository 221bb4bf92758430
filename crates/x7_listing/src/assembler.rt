//! Assembling a whole text at once.
ghost use Rattle.std.specs.Prelude.{◌≡◌, ℕ, List, [], ◌≤◌, ◌⊎◌, length, Ok, Err, IfOk, IfErr, MatchResult};
ghost use Rattle.x7_words.specs.Word.{AreBytes};
ghost use Rattle.x7_text.specs.LineReader.{WantsAt};
ghost use Rattle.x7_listing.specs.Assembly.{IsAsm};
ghost use Rattle.x7_listing.specs.Assembling.{IsFirstOrGood};
ghost use Rattle.x7_listing.specs.StreamListing.{stream_listing};

use crate::asm::AsmLines;
use std::alloc::{AllocError, Global};
use thiserror::Error;
use x7_text::read_lines;
use x7_words::NoMemory;

/// How many bytes a text may stand for at most: 64 MiB, as many as a stream may have (this project's choice).
pub const ASM_LIMIT: usize = 67_108_864;

/// Why a text stands for no bytes. Lines count from 1.
#[derive(Clone, Copy, Debug, Drop, Error)]
pub enum AsmFault {
    /// The first line that is none of the assembler's; a header's line is one only where it is the text's first.
    #[error("line {0} is no line")]
    Line(u64),
    /// The first line at which the bytes, a header's among them, pass `ASM_LIMIT`.
    #[error("line {0} passes the limit")]
    TooLong(u64),
    /// There was no memory for the bytes, or to hold the beginning of a line.
    #[error("no memory")]
    NoMemory,
}

impl From<NoMemory> for AsmFault {
    ghost use Rattle.std.specs.Prelude.{◌≡◌};
    ghost use Rattle.x7_listing.specs.declared.assembler.AsmFault.TheVariants.{NoMemory};

    ghost from_gives = { λ _ fault. fault ≡ NoMemory };

    fn from(_: NoMemory) -> AsmFault {
        AsmFault::NoMemory
    }
}

impl From<AllocError> for AsmFault {
    ghost use Rattle.std.specs.Prelude.{◌≡◌};
    ghost use Rattle.x7_listing.specs.declared.assembler.AsmFault.TheVariants.{NoMemory};

    ghost from_gives = { λ _ fault. fault ≡ NoMemory };

    fn from(_: AllocError) -> AsmFault {
        AsmFault::NoMemory
    }
}

/// Assembles a text (this project's choice): the bytes of its header and lines, or its first line at fault, as
/// `AsmFault` says.
///
/// The listing of a stream of at most `ASM_LIMIT` bytes assembles back to the stream, unless memory runs out. Memory
/// runs out only at the first line, or at one up to and with which all are good.
pub fn assemble(alloc: Global, text: &[u8]) -> Result<Vec<u8>, AsmFault>
    ensures bytes { IfOk result (λ bytes. IsAsm text.now (Ok bytes.items)) }
    ensures fault { IfErr result (λ fault. (fault ≡ AsmFault.NoMemory) ⊎ IsAsm text.now (Err fault)) }
    ensures memory { IfErr result (λ fault. fault ≡ AsmFault.NoMemory → WantsAt IsFirstOrGood [] text.now) }
    ensures back { (bytes : List ℕ) → AreBytes bytes → length bytes ≤ ASM_LIMIT → stream_listing bytes ≡ Ok text.now
        → MatchResult result (λ out. out.items ≡ bytes) (λ fault. fault ≡ AsmFault.NoMemory) }
{
    read_lines(AsmLines::new(alloc), text)
}
