//! The steps of an update, in their order: look, spend the open slot, write, verify, open the next.
ghost use Rattle.std.specs.Prelude.{◌≡◌, ◌+◌, ◌<◌, ◌≤◌, true, length, IfErr, OnOk, OnErr};
ghost use Rattle.x7_words.specs.Flash.{IfKnown, OnlyReads, WriteFails};
ghost use Rattle.x7_words.specs.FlashHistory.{FollowsCalls, history_of, with_calls};
ghost use Rattle.x7_packets.specs.FlashSlot.{flash_slot_count};
ghost use Rattle.x7_update.specs.After.{IsAfterUpdate};
ghost use Rattle.x7_update.specs.Layout.{IsUpdatable};
ghost use Rattle.x7_update.specs.Fault.{HasNoCause, HasCause, IsEarly, UntouchedForWant, UntouchedUnlessSized};
ghost use Rattle.x7_update.specs.Slots.{HasTarget, TargetFits};
ghost use Rattle.x7_update.specs.UpdateCalls.{finishing, replacing, spending};
ghost use Rattle.x7_update.specs.Made.{HasUpdated, IsRefused, LeavesAny, Stops, write_failed};
ghost use Rattle.x7_update.specs.Writing.{Becomes, CanVerify, CountsFault, IsWriteStep, OnlyUses};
ghost use Rattle.x7_update.specs.declared.fault.UpdateFault.TheVariants.{NoMemory};

use crate::fault::UpdateFault;
use crate::slots::{UpdateTarget, find_target};
use crate::switch::{open_free_slot, spend_slot};
use crate::verify::{verify_stream, verify_switch};
use crate::write::write_stream;
use std::alloc::Global;
use x7_words::{Failed, Flash, SECTOR_SIZE};

/// Spends the open slot, if there is one.
fn spend_open_slot<F: Flash>(flash: &mut F, target: UpdateTarget) -> Result<(), Failed>
    requires { HasTarget (F.state flash.old) target }
    ensures spent_calls { OnOk result (history_of (F.state flash.new) ≡ with_calls (history_of (F.state flash.old)) (spending target.slots.open_slot)) }
    ensures failed_calls { OnErr result (Stops (spending target.slots.open_slot) (history_of (F.state flash.old)) (history_of (F.state flash.new)) write_failed) }
    ensures writes { IsWriteStep (F.state flash.old) (F.state flash.new) }
    ensures failed { OnErr result (WriteFails (F.state flash.old) (F.state flash.new)) }
{
    match target.slots.open_slot {
        None => Ok(()),
        Some(slot) => spend_slot(flash, slot),
    }
}

/// Spends the open slot and writes the stream.
fn replace<F: Flash>(flash: &mut F, target: UpdateTarget, stream: &[u8]) -> Result<(), Failed>
    requires found { HasTarget (F.state flash.old) target }
    requires stream { target.place + length stream.now ≤ (F.state flash.old).extent }
    ensures replaced_calls { OnOk result (history_of (F.state flash.new) ≡ with_calls (history_of (F.state flash.old)) (replacing (F.state flash.old).extent stream.now target)) }
    ensures failed_calls { OnErr result (Stops (replacing (F.state flash.old).extent stream.now target) (history_of (F.state flash.old)) (history_of (F.state flash.new)) write_failed) }
    ensures writes { IsWriteStep (F.state flash.old) (F.state flash.new) }
    ensures failed { OnErr result (WriteFails (F.state flash.old) (F.state flash.new)) }
{
    spend_open_slot(flash, target)?;
    write_stream(flash, target.place, stream)
}

/// Verifies the stream, opens the next slot, and verifies its switch word.
fn verify_and_open<F: Flash>(
    flash: &mut F,
    target: UpdateTarget,
    stream: &[u8],
    buffer: &mut [u8],
) -> Result<(), UpdateFault>
    requires written { CanVerify (F.state flash.old) target.place stream.now buffer.old }
    requires target { TargetFits (F.state flash.old).extent target }
    requires next { target.slots.next < flash_slot_count }
    ensures opened_calls { OnOk result (history_of (F.state flash.new) ≡ with_calls (history_of (F.state flash.old)) (finishing (F.state flash.old).extent stream.now target)) }
    ensures fault_calls { IfErr result (Stops (finishing (F.state flash.old).extent stream.now target) (history_of (F.state flash.old)) (history_of (F.state flash.new))) }
    ensures counted { IfErr result (CountsFault (F.state flash.old) (F.state flash.new)) }
    ensures follows { FollowsCalls (F.state flash.old) (F.state flash.new) }
    ensures only_uses { OnlyUses (F.state flash.old) (F.state flash.new) }
{
    verify_stream(flash, target.place, stream, buffer)?;
    match open_free_slot(flash, target.slots.next) {
        Ok(()) => (),
        Err(_) => return Err(UpdateFault::Failed { writing: true }),
    }
    verify_switch(flash, target.slots.next)
}

/// Updates a flash with a stream: the open slot is spent, the stream is written at its place with FF after it and
/// verified, and the next slot is opened.
///
/// `HasUpdated` lists the calls of a finished update. Power may be lost at any moment: of a flash that gives what was
/// written, what is found then is the flash as it was, or a flash without an open slot, whose golden stream stands, or
/// the updated flash (`LeavesAny`). `IsRefused` tells by the calls why an update is refused, and `HasCause` by the
/// counts.
pub fn update<F: Flash>(alloc: Global, flash: &mut F, stream: &[u8]) -> Result<(), UpdateFault>
    requires { (F.state flash.old).attached ≡ true }
    ensures updated_calls { OnOk result (HasUpdated stream.now (history_of (F.state flash.old)) (history_of (F.state flash.new))) }
    ensures refused_calls { IfErr result (IsRefused stream.now (history_of (F.state flash.old)) (history_of (F.state flash.new))) }
    ensures left { LeavesAny stream.now (history_of (F.state flash.old)) (history_of (F.state flash.new)) }
    ensures follows { FollowsCalls (F.state flash.old) (F.state flash.new) }
    ensures updated { OnOk result (Becomes (F.state flash.old) (F.state flash.new) (IsAfterUpdate stream.now)) }
    ensures updatable { OnOk result (IfKnown (F.state flash.old).bytes IsUpdatable) }
    ensures refused { IfErr result (HasCause stream.now (F.state flash.old) (F.state flash.new)) }
    ensures complete { IfErr result (λ fault. HasNoCause stream.now (F.state flash.old) (F.state flash.new) → fault ≡ NoMemory) }
    ensures unchanged { IfErr result (λ fault. IsEarly fault → OnlyReads (F.state flash.old) (F.state flash.new)) }
    ensures no_memory { IfErr result (UntouchedForWant (F.state flash.old) (F.state flash.new)) }
    ensures bad_size { UntouchedUnlessSized (F.state flash.old) (F.state flash.new) }
    ensures only_uses { OnlyUses (F.state flash.old) (F.state flash.new) }
{
    let mut buffer = Vec::new(alloc);
    let Ok(()) = buffer.resize(SECTOR_SIZE as usize, 0) else {
        return Err(UpdateFault::NoMemory);
    };
    let target = find_target(flash, &mut buffer)?;
    if stream.len() as u64 > flash.size() - target.place {
        return Err(UpdateFault::TooLong);
    }
    match replace(flash, target, stream) {
        Ok(()) => (),
        Err(_) => return Err(UpdateFault::Failed { writing: true }),
    }
    verify_and_open(flash, target, stream, &mut buffer)
}
