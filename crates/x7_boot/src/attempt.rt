//! One attempt of a boot.
ghost use Rattle.std.specs.Prelude.{◌≡◌, false, length, Option, None, Some};
ghost use Rattle.x7_engine.specs.Value.{failure_of};
ghost use Rattle.x7_boot.specs.Attempt.{CanTakePage, step_by, TakesPage};

use x7_engine::{Device, Fault, Fed, ReadBuf, UntilStarted};
use x7_regs::Cause;

/// How an attempt ended.
#[derive(Clone, Copy)]
pub enum Ending {
    /// By the end of startup.
    Started,
    /// By an IPROG command that was obeyed.
    Iprog,
    /// By a failure, of this cause.
    Failed(Cause),
}

/// What bytes of a flash did to an attempt.
#[derive(Clone, Copy)]
pub(crate) enum AttemptStep {
    /// Nothing: the attempt goes on after the bytes.
    GoesOn,
    /// The bytes ended the attempt.
    Ends(Ending),
    /// The device stopped, and takes nothing up to the flash's end.
    Stops,
}

/// The cause by which a device's fault ends an attempt; none without a fault, or for one that doesn't end it.
fn failure_of(fault: Option<Fault>) -> Option<Cause>
    ensures { result ≡ failure_of fault false }
{
    match fault {
        Some(Fault::Watchdog) => Some(Cause::Watchdog),
        Some(Fault::Id { .. }) => Some(Cause::Id),
        Some(Fault::Crc { .. }) => Some(Cause::Crc),
        _ => None,
    }
}

/// What a feed with this answer does to an attempt in which startup has not ended, where the device has this cause of a
/// failure, if any.
fn step_by(fed: Fed, cause: Option<Cause>) -> AttemptStep
    ensures { result ≡ step_by fed cause }
{
    match fed {
        Fed::Iprog(_) => AttemptStep::Ends(Ending::Iprog),
        Fed::Stopped(_) => match cause {
            Some(cause) => AttemptStep::Ends(Ending::Failed(cause)),
            None => AttemptStep::Stops,
        },
        Fed::All | Fed::ReadFull(_) => AttemptStep::GoesOn,
    }
}

/// Gives a device bytes of a flash, up to what ends its attempt (the end of startup, a failure or an obeyed IPROG) or
/// stops the device otherwise. Says what they did to the attempt. Words read out are dropped.
pub(crate) fn take_page(device: &mut Device, page: &[u8]) -> AttemptStep
    requires { CanTakePage device.old (length page.now) }
    ensures { TakesPage device.old page.now result device.new }
{
    let mut read = ReadBuf::dropping();
    match device.feed_until_started(page, &mut read) {
        UntilStarted::Started(_) => AttemptStep::Ends(Ending::Started),
        UntilStarted::Fed(fed) => step_by(fed, failure_of(device.fault())),
    }
}
