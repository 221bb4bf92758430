//! Whether written words and reads concern frames, under the settings.
ghost use Rattle.std.specs.Prelude.{◌≡◌, ◌==◌, ◌&&◌, not, ℕ};
ghost use Rattle.x7_packets.specs.History.{History, Read};
ghost use Rattle.x7_regs.specs.Command.{code_of};
ghost use Rattle.x7_regs.specs.Register.{number_of};
ghost use Rattle.x7_regs.specs.declared.command.Command.TheVariants as command;
ghost use Rattle.x7_regs.specs.Control.{forbids_reading, forbids_writing};
ghost use Rattle.x7_flow.specs.FrameAccess.{reads_frame_data};
ghost use Rattle.x7_flow.specs.Settings.{AreSettingsAfter, settings_of, takes_copies as takes_copies_by, takes_frames as takes_frames_by};

use crate::settings::FrameSettings;
use x7_regs::{Command, Reg, forbids_reading, forbids_writing, reg_of};

/// Whether words of MFWR ask for copies under these settings.
pub(crate) fn takes_copies(settings: FrameSettings) -> bool
    ensures value { result ≡ (settings.has_idcode && not (forbids_writing settings.ctl0)) }
    ensures after { (idcode : ℕ) (h : History) → AreSettingsAfter idcode settings h → result ≡ takes_copies_by (settings_of idcode h) }
{
    settings.has_idcode && !forbids_writing(settings.ctl0)
}

/// Whether words of FDRI go to the memory under these settings.
pub(crate) fn takes_frames(settings: FrameSettings) -> bool
    ensures value { result ≡ (settings.has_idcode && (settings.command_code == code_of command.Wcfg && not (forbids_writing settings.ctl0))) }
    ensures after { (idcode : ℕ) (h : History) → AreSettingsAfter idcode settings h → result ≡ takes_frames_by (settings_of idcode h) }
{
    settings.has_idcode
        && u32::from(settings.command_code) == Command::Wcfg.code()
        && !forbids_writing(settings.ctl0)
}

/// Whether a register's number is that of FDRO.
fn is_readback(register: u8) -> bool
    ensures { result ≡ (register == number_of Reg.Fdro) }
{
    match reg_of(register) {
        Some(Reg::Fdro) => true,
        _ => false,
    }
}

/// Whether a read of `count` words of a register gives words of the memory.
pub fn reads_frames(settings: FrameSettings, register: u8, count: u32) -> bool
    ensures { (idcode : ℕ) (h : History) → AreSettingsAfter idcode settings h → result ≡ reads_frame_data h (Read register count) }
{
    is_readback(register)
        && count != 0
        && u32::from(settings.command_code) == Command::Rcfg.code()
        && !forbids_reading(settings.ctl0)
}
