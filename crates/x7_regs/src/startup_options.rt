//! The fields of configuration options register 0 by which startup goes (UG470, configuration options register 0).

/// The number of the bit of COR0 by which startup looks at DONE a clock later.
pub const DONE_PIPE: u32 = 25;

/// The number of the lowest of three bits of COR0: the code of the phase in which DONE rises.
pub const DONE_CYCLE: u32 = 12;

/// The number of the lowest of three bits of COR0: the phase that waits for the impedance to match; 7 is no wait.
pub const MATCH_CYCLE: u32 = 9;

/// The number of the lowest of three bits of COR0: the phase that waits for the clocks to lock; 7 is no wait.
pub const LOCK_CYCLE: u32 = 6;

/// The number of the lowest of three bits of COR0: the code of the phase in which GTS_CFG_B rises.
pub const GTS_CYCLE: u32 = 3;

/// The number of the lowest of three bits of COR0: the code of the phase in which GWE rises.
pub const GWE_CYCLE: u32 = 0;
