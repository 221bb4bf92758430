//! The word of the boot history status register (UG470, boot history status register).
ghost use Rattle.std.specs.Prelude.{◌≡◌, ◌<◌, ◌≤◌, ◌^◌};
ghost use Rattle.x7_regs.specs.BootStatus.{attempt_bits_of, before_bits_of, boot_status_of, cause_bits_of, kind_bits_of};

/// What began a boot attempt.
#[derive(Clone, Copy)]
pub enum Kind {
    /// Nothing: the device is on a bench and takes a stream; no flash boots it.
    Bench,
    /// Power came.
    Power,
    /// An IPROG command.
    Iprog,
    /// The attempt before failed.
    Fallback,
}

/// What a boot attempt failed by.
#[derive(Clone, Copy)]
pub enum Cause {
    /// The watchdog fired.
    Watchdog,
    /// A written idcode was not the part's, or frame data, a copy or START came before one that was.
    Id,
    /// A check word that was written differed from the running check.
    Crc,
    /// The flash ended before startup did.
    Wrap,
}

/// A boot attempt.
#[derive(Clone, Copy)]
pub struct Attempt {
    /// What began the attempt.
    pub kind: Kind,
    /// What the attempt failed by, if it did.
    pub cause: Option<Cause>,
    /// Whether an IPROG command was ignored in the attempt.
    pub ignored: bool,
}

// The bits of an attempt's byte of BOOTSTS, each by its number (UG470, boot history status register).
const VALID: u32 = 0;

const FALLBACK: u32 = 1;

const IPROG: u32 = 2;

const WTO_ERROR: u32 = 3;

const ID_ERROR: u32 = 4;

const CRC_ERROR: u32 = 5;

const WRAP_ERROR: u32 = 6;

/// The number of the lowest bit of BOOTSTS that speaks of the attempt before.
const ATTEMPT_BEFORE_BIT: u32 = 8;

/// The bits VALID, FALLBACK and IPROG of an attempt; 0 on the bench.
#[tactic(auto, unfolding(crate::specs::Status::flag_of))]
fn kind_bits(kind: Kind, ignored: bool) -> u32
    ensures value { result ≡ kind_bits_of kind ignored }
    ensures most { result < 2 ^ 3 }
{
    let ignored = if ignored { 1 << IPROG } else { 0 };
    match kind {
        Kind::Bench => 0,
        Kind::Power => (1 << VALID) + ignored,
        Kind::Iprog => (1 << VALID) + (1 << IPROG),
        Kind::Fallback => (1 << VALID) + (1 << FALLBACK) + ignored,
    }
}

/// The bit of what an attempt failed by, and 0 where it did not fail.
fn cause_bits(cause: Option<Cause>) -> u32
    ensures value { result ≡ cause_bits_of cause }
    ensures most { result ≤ 2 ^ 6 }
{
    match cause {
        None => 0,
        Some(Cause::Watchdog) => 1 << WTO_ERROR,
        Some(Cause::Id) => 1 << ID_ERROR,
        Some(Cause::Crc) => 1 << CRC_ERROR,
        Some(Cause::Wrap) => 1 << WRAP_ERROR,
    }
}

/// The bits of an attempt in its byte, from bit 0 up; 0 on the bench.
fn attempt_bits(attempt: Attempt) -> u32
    ensures value { result ≡ attempt_bits_of attempt }
    ensures most { result < 2 ^ 7 }
{
    match attempt.kind {
        Kind::Bench => 0,
        kind => kind_bits(kind, attempt.ignored) + cause_bits(attempt.cause),
    }
}

/// The bits of the attempt before in its byte, from bit 0 up; 0 where there was none.
fn before_bits(before: Option<Attempt>) -> u32
    ensures value { result ≡ before_bits_of before }
    ensures most { result < 2 ^ 7 }
{
    match before {
        Some(attempt) => attempt_bits(attempt),
        None => 0,
    }
}

/// The word of the boot history status register in the attempt `latest`, after the one before, if there was one; 0 on
/// the bench.
#[tactic(auto, unfolding(crate::specs::BootStatus::boot_status_of))]
pub fn boot_word(latest: Attempt, before: Option<Attempt>) -> u32
    ensures value { result ≡ boot_status_of latest before }
{
    match latest.kind {
        Kind::Bench => 0,
        _ => attempt_bits(latest) + before_bits(before) * (1 << ATTEMPT_BEFORE_BIT),
    }
}
