//! The word of the status register (UG470, status register).
ghost use Rattle.std.specs.Prelude.{◌≡◌, ◌<◌, ◌*◌, ◌^◌};
ghost use Rattle.x7_regs.specs.Status.{flag_of, startup_state_of, status_of};

/// What the status register shows, bit by bit (UG470, status register).
#[derive(Clone, Copy)]
pub struct StatParts {
    /// A check word that was written differed from the running check.
    pub crc_error: bool,
    /// The clock managers have locked.
    pub lock: bool,
    /// The digitally controlled impedance has matched.
    pub matched: bool,
    /// The startup sequence has ended.
    pub eos: bool,
    /// The outputs are on: the line GTS_CFG_B.
    pub gts: bool,
    /// Flip-flops and memories may change: the line GWE.
    pub gwe: bool,
    /// The interconnect is on: the line GHIGH_B.
    pub ghigh: bool,
    /// The mode pins, below 8.
    pub mode: u8,
    /// The pin INIT_B.
    pub init_b: bool,
    /// The pin DONE as the device releases it. Nothing outside holds it low, so bits 13 and 14 of STAT are equal.
    pub done: bool,
    /// A written idcode was not the part's, or frame data, a copy or START came before one that was.
    pub id_error: bool,
    /// The phase of the startup sequence, from 0 to 7.
    pub phase: u8,
    /// The width of the configuration bus, below 4: 0 for one bit, 1 for 8, 2 for 16 and 3 for 32.
    pub bus_width: u8,
}

// The fields of STAT that may hold a 1, each by the number of its lowest bit (UG470, status register). MODE and
// STARTUP_STATE have three bits, BUS_WIDTH two, each other one bit.
const CRC_ERROR: u32 = 0;

const MMCM_LOCK: u32 = 2;

const DCI_MATCH: u32 = 3;

const EOS: u32 = 4;

const GTS_CFG_B: u32 = 5;

const GWE: u32 = 6;

const GHIGH_B: u32 = 7;

const MODE: u32 = 8;

const INIT_COMPLETE: u32 = 11;

const INIT_B: u32 = 12;

const RELEASE_DONE: u32 = 13;

const DONE: u32 = 14;

const ID_ERROR: u32 = 15;

const STARTUP_STATE: u32 = 18;

const BUS_WIDTH: u32 = 25;

/// The word of which the bit of this number alone is 1, where `is_set` is true; else 0.
#[tactic(auto, unfolding(crate::specs::Status::flag_of))]
fn flag(is_set: bool, bit: u32) -> u32
    requires { bit < 16 }
    ensures value { result ≡ flag_of is_set * 2 ^ bit }
    ensures most { flag_of is_set < 2 }
{
    u32::from(is_set) << bit
}

/// The three bits of STARTUP_STATE in a phase from 0 to 7.
#[rattlefmt::skip]
#[tactic(auto, unfolding(crate::specs::Status::startup_state_of))]
fn startup_state_of(phase: u8) -> u32
    requires { phase < 8 }
    ensures value { result ≡ startup_state_of phase }
    ensures most { result < 8 }
{
    match phase {
        0 => 0b000,
        1 => 0b001,
        2 => 0b011,
        3 => 0b010,
        4 => 0b110,
        5 => 0b111,
        6 => 0b101,
        _ => 0b100,
    }
}

/// The word of the status register.
#[tactic(auto, unfolding(crate::specs::Status::status_of))]
pub fn stat_word(parts: &StatParts) -> u32
    requires mode { parts.now.mode < 8 }
    requires phase { parts.now.phase < 8 }
    requires bus_width { parts.now.bus_width < 4 }
    ensures value { result ≡ status_of parts.now }
{
    flag(parts.crc_error, CRC_ERROR)
        + flag(parts.lock, MMCM_LOCK)
        + flag(parts.matched, DCI_MATCH)
        + flag(parts.eos, EOS)
        + flag(parts.gts, GTS_CFG_B)
        + flag(parts.gwe, GWE)
        + flag(parts.ghigh, GHIGH_B)
        + u32::from(parts.mode) * (1 << MODE)
        + (1 << INIT_COMPLETE)
        + flag(parts.init_b, INIT_B)
        + flag(parts.done, RELEASE_DONE)
        + flag(parts.done, DONE)
        + flag(parts.id_error, ID_ERROR)
        + startup_state_of(parts.phase) * (1 << STARTUP_STATE)
        + u32::from(parts.bus_width) * (1 << BUS_WIDTH)
}
