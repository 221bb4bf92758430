//! Laws of the calls of an update. The functions do nothing: their contracts are the laws.
ghost use Rattle.std.specs.Prelude.{◌≡◌, ℕ, List, [], ◌∷◌, Some, length, slice_range};
ghost use Rattle.x7_packets.specs.FlashSlot.{flash_slot_count};
ghost use Rattle.x7_update.specs.After.{IsAfterUpdate};
ghost use Rattle.x7_update.specs.CallLaws.{GaveAllUpdate, GaveUpToStop, HeldBytes, LeavesWithinCalls, TakesUpdate, VerifiesBeforeOpening, WritesOnceAbove, WritesSwitchesBelow};
ghost use Rattle.x7_update.specs.Layout.{open_switch, spent_switch, update_place};
ghost use Rattle.x7_words.specs.declared.flash_call.FlashCall.TheVariants.{Read, Erased, Programmed};
ghost use Rattle.x7_words.specs.FlashHistory.{IsHistory, FlashHistory};
ghost use Rattle.x7_update.specs.UpdateCalls.{HasRoom, free_from, open_among, padded, update_calls};
ghost use Rattle.x7_update.specs.declared.fault.UpdateFault.TheVariants.{Differs};

/// Of a flash that can be updated and gives what it holds, whatever a power loss at any moment of an update leaves, its
/// last write torn or failed, is the flash as it was, or one between slots, or the updated one. Where all calls were
/// answered well it is the updated one.
pub fn update_calls_leave()
    ensures leaves { (flash stream first_sector : List ℕ) → TakesUpdate flash stream first_sector → LeavesWithinCalls flash stream first_sector }
    ensures becomes { (flash stream first_sector now : List ℕ) → TakesUpdate flash stream first_sector
        → IsHistory (update_calls (length flash) first_sector stream) flash now → IsAfterUpdate stream flash now }
{}

/// Whatever a flash gives: of an update with a stream, from its place on, a place is written to by the one erase of its
/// sector and then, where the stream has it, by the one program of the stream. Below it nothing is written but the
/// switch words of the open slot and of the next. Each byte from the update's place on was read as it is wanted, with
/// no write there since, before the next slot is opened.
pub fn update_calls_write_once()
    ensures above { (size : ℕ) (first_sector stream : List ℕ) → HasRoom size first_sector stream → WritesOnceAbove size first_sector stream }
    ensures below { (size : ℕ) (first_sector stream : List ℕ) → HasRoom size first_sector stream → WritesSwitchesBelow size first_sector stream }
    ensures verified { (size : ℕ) (first_sector stream : List ℕ) → HasRoom size first_sector stream → VerifiesBeforeOpening size first_sector stream }
{}

/// Of a flash that gives what it holds: where an update ends well it is the updated flash, and no byte that is read to
/// verify an update differs from the one written.
pub fn honest_flashes_are_updated()
    ensures becomes { (stream : List ℕ) (held : HeldBytes) (old new : FlashHistory)
        → GaveAllUpdate stream held old new → IsAfterUpdate stream held.before held.now }
    ensures never_differs { (stream : List ℕ) (held : HeldBytes) (old new : FlashHistory) (place wrote read : ℕ)
        → GaveUpToStop stream held old new (Differs place wrote read) → ⊥ }
{}

/// The calls of an update with a stream of a flash of three sectors, whose slot 0 is open and slot 1 the next.
pub fn update_calls_of_three_sectors()
    ensures { (first_sector stream : List ℕ) → update_place first_sector ≡ 131072 → open_among flash_slot_count first_sector ≡ Some 0 → free_from flash_slot_count first_sector ≡ 1
        → update_calls 196608 first_sector stream ≡ Read 0 first_sector ∷ Programmed 0 spent_switch ∷ Erased 2 ∷ Programmed 131072 stream
        ∷ Read 131072 (slice_range (padded stream 65536) 0 65536) ∷ Programmed 32 open_switch ∷ Read 32 open_switch ∷ [] }
{}
