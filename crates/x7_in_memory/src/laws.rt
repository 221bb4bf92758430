//! Laws: facts about the definitions, as contracts of functions that do nothing.
ghost use Rattle.std.specs.Prelude.{List};
ghost use Rattle.x7_words.specs.declared.flash_call.FlashCall.{FlashCall};
ghost use Rattle.x7_in_memory.specs.History.{AreCallsOf, GivesWhatWasWritten};
ghost use Rattle.x7_in_memory.specs.Memory.{FlashInMemory};

/// After any calls a flash in memory has the bytes that these make of the ones before, and gave what was there.
pub fn memory_flashes_give_what_was_written()
    ensures { (calls : List FlashCall) (old new : FlashInMemory) → AreCallsOf calls old new → GivesWhatWasWritten calls old new }
{}
