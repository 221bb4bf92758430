//! Names of registers and commands, as UG470 spells them.
ghost use Rattle.std.specs.Prelude.{◌≡◌, ◌<◌, ◌≤◌, length};
ghost use Rattle.x7_regs.specs.Command.{command_name_limit, command_name_of};
ghost use Rattle.x7_regs.specs.Register.{reg_name, reg_name_limit, reg_number_count};

use crate::command::Command;
use std::marker::Model;

/// The name of a register number, at most seven bytes of ASCII.
#[derive(Drop)]
pub struct RegName {
    text: &'static [u8],
}

impl Model for RegName {
    ghost use Rattle.std.specs.Prelude.{List, ℕ, ◌≤◌, length};
    ghost use Rattle.x7_regs.specs.Register.{reg_name_limit};

    ghost Value = { List ℕ };

    ghost view = { λ n. n.text.now };

    ghost invariant = { λ n. length n.text.now ≤ reg_name_limit };
}

impl RegName {
    /// The bytes of the name.
    pub fn bytes(&self) -> &[u8]
        ensures value { result.now ≡ self.now }
        ensures most { length result.now ≤ reg_name_limit }
    {
        self.text
    }
}

/// The name of a command, at most nine bytes of ASCII.
#[derive(Drop)]
pub struct CommandName {
    text: &'static [u8],
}

impl Model for CommandName {
    ghost use Rattle.std.specs.Prelude.{List, ℕ, ◌≤◌, length};
    ghost use Rattle.x7_regs.specs.Command.{command_name_limit};

    ghost Value = { List ℕ };

    ghost view = { λ n. n.text.now };

    ghost invariant = { λ n. length n.text.now ≤ command_name_limit };
}

impl CommandName {
    /// The bytes of the name.
    pub fn bytes(&self) -> &[u8]
        ensures value { result.now ≡ self.now }
        ensures most { length result.now ≤ command_name_limit }
    {
        self.text
    }
}

/// The names by register number, from 0 to 31 (UG470, configuration registers); a number without a register is `R` and
/// its two digits (this project's choice).
#[rattlefmt::skip]
static REG_NAMES: [&str; 32] = [
    "CRC", "FAR", "FDRI", "FDRO", "CMD", "CTL0", "MASK", "STAT",
    "LOUT", "COR0", "MFWR", "CBC", "IDCODE", "AXSS", "COR1", "R15",
    "WBSTAR", "TIMER", "R18", "R19", "R20", "R21", "BOOTSTS", "R23",
    "CTL1", "R25", "R26", "R27", "R28", "R29", "R30", "BSPI",
];

/// The name of a register number (UG470, configuration registers); of a number without a register, `R` and its two
/// digits (this project's choice).
pub fn name_of(number: u8) -> RegName
    requires { number < reg_number_count }
    ensures { result ≡ reg_name number }
{
    let name: &'static str = REG_NAMES[usize::from(number)];
    RegName {
        text: name.as_bytes(),
    }
}

/// The name of a command (UG470, command register).
#[rattlefmt::skip]
pub fn command_name(command: Command) -> CommandName
    ensures { result ≡ command_name_of command }
{
    let text: &'static [u8] = match command {
        Command::Null     => b"NULL",
        Command::Wcfg     => b"WCFG",
        Command::Mfw      => b"MFW",
        Command::Lfrm     => b"LFRM",
        Command::Rcfg     => b"RCFG",
        Command::Start    => b"START",
        Command::Rcap     => b"RCAP",
        Command::Rcrc     => b"RCRC",
        Command::Aghigh   => b"AGHIGH",
        Command::Switch   => b"SWITCH",
        Command::Grestore => b"GRESTORE",
        Command::Shutdown => b"SHUTDOWN",
        Command::Gcapture => b"GCAPTURE",
        Command::Desync   => b"DESYNC",
        Command::Iprog    => b"IPROG",
        Command::Crcc     => b"CRCC",
        Command::Ltimer   => b"LTIMER",
        Command::BspiRead => b"BSPI_READ",
        Command::FallEdge => b"FALL_EDGE",
    };
    CommandName { text }
}
