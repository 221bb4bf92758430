//! Commands of the command register (UG470, command register).
ghost use Rattle.std.specs.Prelude.{◌≡◌, ◌<◌};
ghost use Rattle.x7_regs.specs.Command.{code_of, command_by, command_code_count, command_code_of};

/// The commands, in the order of their codes.
#[derive(Clone, Copy)]
pub enum Command {
    /// Nothing.
    Null,
    /// Lets words of FDRI be written to frames.
    Wcfg,
    /// Lets a frame be copied to further addresses (multi-frame write).
    Mfw,
    /// Turns the interconnect on, after the last frame.
    Lfrm,
    /// Lets frames be read as words of FDRO.
    Rcfg,
    /// Arms the startup sequence.
    Start,
    /// Ends a capture of the flip-flops' states.
    Rcap,
    /// Clears the running check.
    Rcrc,
    /// Turns the interconnect off.
    Aghigh,
    /// Changes the configuration clock.
    Switch,
    /// Sets the flip-flops' states from the configuration memory.
    Grestore,
    /// Begins the shutdown sequence.
    Shutdown,
    /// Captures the flip-flops' states.
    Gcapture,
    /// Ends the session.
    Desync,
    /// Boots anew from `Wbstar`.
    Iprog,
    /// Computes the check of a readback anew.
    Crcc,
    /// Reloads the watchdog.
    Ltimer,
    /// Begins the read from flash anew.
    BspiRead,
    /// Captures data on the falling edge.
    FallEdge,
}

/// The bits of a word of CMD that are the code of a command, bits 4 to 0 (UG470, command register).
const COMMAND_BITS: u32 = 0x1F;

/// The code of a command in a word of CMD: its low five bits, whether or not a command has this code.
#[inline(always)]
pub fn command_code_of(word: u32) -> u32
    ensures value { result ≡ command_code_of word }
    ensures most { result < command_code_count }
{
    word & COMMAND_BITS
}

/// The command that a word of the command register calls for, by its low five bits: `Null` where no command has these.
#[rattlefmt::skip]
pub fn command_of(word: u32) -> Command
    ensures { result ≡ command_by word }
{
    match command_code_of(word) {
        1  => Command::Wcfg,
        2  => Command::Mfw,
        3  => Command::Lfrm,
        4  => Command::Rcfg,
        5  => Command::Start,
        6  => Command::Rcap,
        7  => Command::Rcrc,
        8  => Command::Aghigh,
        9  => Command::Switch,
        10 => Command::Grestore,
        11 => Command::Shutdown,
        12 => Command::Gcapture,
        13 => Command::Desync,
        15 => Command::Iprog,
        16 => Command::Crcc,
        17 => Command::Ltimer,
        18 => Command::BspiRead,
        19 => Command::FallEdge,
        _  => Command::Null,
    }
}

impl Command {
    /// The code of the command, below 32.
    #[rattlefmt::skip]
    pub fn code(self) -> u32
        ensures value { result ≡ code_of self }
        ensures most { result < command_code_count }
        ensures back { command_by result ≡ self }
    {
        match self {
            Command::Null     => 0,
            Command::Wcfg     => 1,
            Command::Mfw      => 2,
            Command::Lfrm     => 3,
            Command::Rcfg     => 4,
            Command::Start    => 5,
            Command::Rcap     => 6,
            Command::Rcrc     => 7,
            Command::Aghigh   => 8,
            Command::Switch   => 9,
            Command::Grestore => 10,
            Command::Shutdown => 11,
            Command::Gcapture => 12,
            Command::Desync   => 13,
            Command::Iprog    => 15,
            Command::Crcc     => 16,
            Command::Ltimer   => 17,
            Command::BspiRead => 18,
            Command::FallEdge => 19,
        }
    }
}
