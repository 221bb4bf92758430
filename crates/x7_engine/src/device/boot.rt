//! What a boot asks of a device.
ghost use Rattle.std.specs.Prelude.{◌≡◌, Bool, []};
ghost use Rattle.x7_part.specs.Part.{PartData};
ghost use Rattle.x7_engine.specs.Standing.{DeviceState, DeviceStandsFor, MayWrap, NoWordDue};
ghost use Rattle.x7_engine.specs.declared.kept.Kept.{Kept as KeptData};
ghost use Rattle.x7_engine.specs.declared.stop.StopCause.TheVariants as stop;
ghost use Rattle.x7_engine.specs.Past.{BootGoesOn, ForEachPast, state_at};

use super::Device;

impl Device {
    /// The phase of startup, 0 to 7.
    pub fn phase(&self) -> u8
        ensures { ForEachPast self.now (λ p. result ≡ (state_at p).phase) }
    {
        self.registers.values.clock.phase()
    }
}

/// In an attempt of a boot the flash may end while startup hasn't ended, no IPROG and no fault Id, Crc or Watchdog
/// ended the attempt, and no word is due. Before the first byte no word is due.
pub fn flash_may_end()
    ensures may_wrap { (d : DeviceState) → ForEachPast d (λ p. BootGoesOn p → NoWordDue d → MayWrap d) }
    ensures no_word_due { (part : PartData) (kept : KeptData) (wrapped : Bool) (d : DeviceState) → DeviceStandsFor part kept wrapped d [] → NoWordDue d }
{}
