//! Configuration registers (UG470, configuration registers).
ghost use Rattle.std.specs.Prelude.{◌≡◌, ◌≢◌, ◌<◌, Some, IfSome, IfNone};
ghost use Rattle.x7_regs.specs.Register.{number_of, reg_number_count, reg_with};
ghost use Rattle.x7_regs.specs.declared.register.Reg.{Reg};

/// The configuration registers, in the order of their numbers.
#[derive(Clone, Copy)]
pub enum Reg {
    /// The running check; a written word is compared with it.
    Crc,
    /// The frame address.
    Far,
    /// Frame data to the configuration memory.
    Fdri,
    /// Frame data from the configuration memory.
    Fdro,
    /// The command.
    Cmd,
    /// Control, under `Mask`.
    Ctl0,
    /// The bits that a write to a control register changes.
    Mask,
    /// Status.
    Stat,
    /// Data to the next device of a chain.
    Lout,
    /// Configuration options.
    Cor0,
    /// Copies of a frame (multi-frame write).
    Mfwr,
    /// The initial value of an encrypted stream (cipher block chaining).
    Cbc,
    /// The IDCODE of the part.
    Idcode,
    /// A word for the user design.
    Axss,
    /// Further configuration options.
    Cor1,
    /// The start address of the boot that an IPROG begins.
    Wbstar,
    /// The watchdog.
    Timer,
    /// Status of the present boot attempt and of the one before.
    Bootsts,
    /// Further control, under `Mask`.
    Ctl1,
    /// Options of configuration from flash.
    Bspi,
}

/// The register with this number, or `None` for a number without a register.
#[rattlefmt::skip]
pub fn reg_of(number: u8) -> Option<Reg>
    ensures value { result ≡ reg_with number }
    ensures named { IfSome result (λ register. number_of register ≡ number) }
    ensures unnamed { IfNone result ((register : Reg) → number_of register ≢ number) }
{
    match number {
        0  => Some(Reg::Crc),
        1  => Some(Reg::Far),
        2  => Some(Reg::Fdri),
        3  => Some(Reg::Fdro),
        4  => Some(Reg::Cmd),
        5  => Some(Reg::Ctl0),
        6  => Some(Reg::Mask),
        7  => Some(Reg::Stat),
        8  => Some(Reg::Lout),
        9  => Some(Reg::Cor0),
        10 => Some(Reg::Mfwr),
        11 => Some(Reg::Cbc),
        12 => Some(Reg::Idcode),
        13 => Some(Reg::Axss),
        14 => Some(Reg::Cor1),
        16 => Some(Reg::Wbstar),
        17 => Some(Reg::Timer),
        22 => Some(Reg::Bootsts),
        24 => Some(Reg::Ctl1),
        31 => Some(Reg::Bspi),
        _  => None,
    }
}

impl Reg {
    /// The number that a packet header names the register by, below 32.
    #[rattlefmt::skip]
    pub fn number(self) -> u8
        ensures value { result ≡ number_of self }
        ensures most { result < reg_number_count }
        ensures back { reg_with result ≡ Some self }
    {
        match self {
            Reg::Crc     => 0,
            Reg::Far     => 1,
            Reg::Fdri    => 2,
            Reg::Fdro    => 3,
            Reg::Cmd     => 4,
            Reg::Ctl0    => 5,
            Reg::Mask    => 6,
            Reg::Stat    => 7,
            Reg::Lout    => 8,
            Reg::Cor0    => 9,
            Reg::Mfwr    => 10,
            Reg::Cbc     => 11,
            Reg::Idcode  => 12,
            Reg::Axss    => 13,
            Reg::Cor1    => 14,
            Reg::Wbstar  => 16,
            Reg::Timer   => 17,
            Reg::Bootsts => 22,
            Reg::Ctl1    => 24,
            Reg::Bspi    => 31,
        }
    }
}
