//! Five fields of control register 0 (UG470, control register 0).
ghost use Rattle.std.specs.Prelude.{◌≡◌};
ghost use Rattle.x7_regs.specs.Control.{forbids_fallback, forbids_reading, forbids_writing, has_dec};

/// The number of the bit of CTL0 with which the outputs are as startup says; without it they are high-impedance.
pub const GTS_USER_B: u32 = 0;

/// The number of the lowest of two bits of CTL0: 00 lets frames be read and written, 01 forbids to read them, 1x both.
const SBITS: u32 = 4;

/// The number of the bit of CTL0 that says that a stream would be encrypted.
const DEC: u32 = 6;

/// The number of the bit of CTL0 by which readback shows memories in logic.
pub const GLUTMASK_B: u32 = 8;

/// The number of the bit of CTL0 that keeps a failed attempt from falling back.
pub const CONFIG_FALLBACK: u32 = 10;

/// Whether SBITS of CTL0 forbid writing frames.
pub fn forbids_writing(ctl0: u32) -> bool
    ensures { result ≡ forbids_writing ctl0 }
{
    ctl0 >> (SBITS + 1) & 1 == 1
}

/// Whether SBITS of CTL0 forbid reading frames.
pub fn forbids_reading(ctl0: u32) -> bool
    ensures { result ≡ forbids_reading ctl0 }
{
    ctl0 >> SBITS & 3 != 0
}

/// Whether DEC of CTL0 is 1: the stream would be encrypted.
pub fn has_dec(ctl0: u32) -> bool
    ensures { result ≡ has_dec ctl0 }
{
    ctl0 >> DEC & 1 == 1
}

/// Whether CTL0 forbids a fallback.
pub fn forbids_fallback(ctl0: u32) -> bool
    ensures { result ≡ forbids_fallback ctl0 }
{
    ctl0 >> CONFIG_FALLBACK & 1 == 1
}
