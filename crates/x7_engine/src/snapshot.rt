//! The state of a device but its memory and the words read out, as a report shows it.

use crate::fault::Fault;
use x7_regs::Reg;
use x7_startup::Lines;

/// The registers that a state shows, in the order of their numbers (this project's choice): all but those of frame data
/// (FDRI, FDRO, MFWR), LOUT and CBC.
#[rattlefmt::skip]
pub(crate) const SHOWN: &[Reg] = &[
    Reg::Crc, Reg::Far, Reg::Cmd, Reg::Ctl0, Reg::Mask, Reg::Stat, Reg::Cor0, Reg::Idcode,
    Reg::Axss, Reg::Cor1, Reg::Wbstar, Reg::Timer, Reg::Bootsts, Reg::Ctl1, Reg::Bspi,
];

/// How many registers a state shows.
pub const SHOWN_COUNT: usize = SHOWN.len();

/// Where the bytes taken end.
#[derive(Clone, Copy)]
pub enum End {
    /// In a gap: the sync word is searched.
    Searching,
    /// In a session.
    Synced,
    /// At an IPROG that the device obeyed, with the word of WBSTAR.
    Iprog(u32),
    /// At a fault.
    Fault(Fault),
}

/// The state of a device but its memory and the words read out (UG470, configuration registers).
#[derive(Clone, Copy)]
pub struct Snapshot {
    /// How many bytes were taken since the reset.
    pub taken: u64,
    /// Where the bytes taken end.
    pub end: End,
    /// The phase of startup, 0 to 7.
    pub phase: u8,
    /// The lines DONE, GTS_CFG_B and GWE.
    pub lines: Lines,
    /// The registers that a state shows, in the order of their numbers, each with its value. CRC is the running check, at
    /// a fault `Crc` the one that was wanted. CMD is the low five bits of the last word written, 0 where none was. FAR,
    /// while words of frame data are due, is that of the words given so far.
    pub registers: [(Reg, u32); SHOWN_COUNT],
}
