//! The switch words of slots: the open slot is spent, and the next is opened.
ghost use Rattle.std.specs.Prelude.{◌≡◌, ◌*◌, [], ◌∷◌, Some, OnOk, OnErr};
ghost use Rattle.x7_words.specs.Flash.{WriteFails};
ghost use Rattle.x7_words.specs.FlashHistory.{CallsFor, history_of, with_calls};
ghost use Rattle.x7_words.specs.declared.flash_call.FlashCall.TheVariants.{Programmed};
ghost use Rattle.x7_packets.specs.FlashSlot.{flash_slot_size};
ghost use Rattle.x7_update.specs.Layout.{open_switch};
ghost use Rattle.x7_update.specs.UpdateCalls.{spending};
ghost use Rattle.x7_update.specs.Made.{Stops, write_failed};
ghost use Rattle.x7_update.specs.Writing.{CanSwitch, IsWriteStep};

use crate::layout::{OPEN_SWITCH, SPENT_SWITCH};
use x7_packets::FLASH_SLOT_SIZE;
use x7_words::{Failed, Flash};

/// Spends an open slot: its switch word becomes zeros, of which only an erase of the first sector sets a bit again.
pub(crate) fn spend_slot<F: Flash>(flash: &mut F, slot: u64) -> Result<(), Failed>
    requires { CanSwitch (F.state flash.old) slot }
    ensures spent_calls { OnOk result (history_of (F.state flash.new) ≡ with_calls (history_of (F.state flash.old)) (spending (Some slot))) }
    ensures failed_calls { OnErr result (Stops (spending (Some slot)) (history_of (F.state flash.old)) (history_of (F.state flash.new)) write_failed) }
    ensures writes { IsWriteStep (F.state flash.old) (F.state flash.new) }
    ensures failed { OnErr result (WriteFails (F.state flash.old) (F.state flash.new)) }
{
    flash.program(FLASH_SLOT_SIZE * slot, &SPENT_SWITCH)
}

/// Opens a free slot.
pub(crate) fn open_free_slot<F: Flash>(flash: &mut F, slot: u64) -> Result<(), Failed>
    requires { CanSwitch (F.state flash.old) slot }
    ensures opened_calls { OnOk result (CallsFor (Programmed (flash_slot_size * slot) open_switch) (F.state flash.old) (F.state flash.new)) }
    ensures failed_calls { OnErr result (Stops (Programmed (flash_slot_size * slot) open_switch ∷ []) (history_of (F.state flash.old)) (history_of (F.state flash.new)) write_failed) }
    ensures writes { IsWriteStep (F.state flash.old) (F.state flash.new) }
    ensures failed { OnErr result (WriteFails (F.state flash.old) (F.state flash.new)) }
{
    flash.program(FLASH_SLOT_SIZE * slot, &OPEN_SWITCH)
}
