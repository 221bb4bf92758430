//! What a written word executes, and what it makes of the running check: one rule for streams and for devices.
ghost use Rattle.std.specs.Prelude.{◌≡◌, ◌==◌, ◌||◌, not, ℕ, ◌∷◌};
ghost use Rattle.x7_regs.specs.Command.{code_of};
ghost use Rattle.x7_regs.specs.Register.{number_of};
ghost use Rattle.x7_packets.specs.History.{entry, executed_by, History, is_command, Write};
ghost use Rattle.x7_crc.specs.RunningCheck.{executed_after, running_check};

use crate::check::fold;
use x7_regs::{Command, Reg, command_code_of};

/// The code of the command that a written word executes, where CMD holds `held`: a write to CMD executes that of the
/// word's low five bits, and one to FAR `held` again, save DESYNC and IPROG (this project's choice). `None` for a write
/// that executes none.
pub fn executed(held: u8, reg: Reg, word: u32) -> Option<u8>
    ensures { result ≡ executed_by held (Write (number_of reg) word) }
{
    match reg {
        Reg::Cmd => Some(command_code_of(word) as u8),
        Reg::Far if is_executed_again(held) => Some(held),
        _ => None,
    }
}

/// Whether a write to FAR executes again the command of code `held`, which CMD holds.
fn is_executed_again(held: u8) -> bool
    ensures { result ≡ not (held == code_of Command.Desync || held == code_of Command.Iprog) }
{
    u32::from(held) != Command::Desync.code() && u32::from(held) != Command::Iprog.code()
}

/// Whether a command was executed, and is `command`.
pub fn is_command(command: Command, executed: Option<u8>) -> bool
    ensures { result ≡ is_command (code_of command) executed }
{
    match executed {
        Some(code) => u32::from(code) == command.code(),
        None => false,
    }
}

/// The running check after a written word, where `executed` is the command that it executes, or `None`. RCRC and a
/// write to CRC clear the check, which makes it 0; LOUT is not folded (this project's choice), and any other write is.
pub fn check_after_write(check: u32, reg: Reg, word: u32, executed: Option<u8>) -> u32
    ensures { (h : History) (place : ℕ) → check ≡ running_check h → executed ≡ executed_after h reg word
        → result ≡ running_check (entry (Write (number_of reg) word) place ∷ h) }
{
    match reg {
        Reg::Crc => 0,
        _ if is_command(Command::Rcrc, executed) => 0,
        Reg::Lout => check,
        _ => fold(check, reg.number(), word),
    }
}
