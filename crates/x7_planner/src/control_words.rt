//! The control words that a full stream writes (UG470, configuration options register 0 and control register 0;
//! their values are this project's choice).

use x7_regs::{
    CONFIG_FALLBACK, DONE_CYCLE, DONE_PIPE, GLUTMASK_B, GTS_CYCLE, GTS_USER_B, GWE_CYCLE,
    LOCK_CYCLE, MATCH_CYCLE,
};

/// COR0 02003FE5: DONE rises in phase 4, GTS_CFG_B in phase 5 and GWE in phase 6, and startup waits for nothing.
pub(crate) const COR0_WORD: u32 = (1 << DONE_PIPE)
    + 3 * (1 << DONE_CYCLE)
    + 7 * (1 << MATCH_CYCLE)
    + 7 * (1 << LOCK_CYCLE)
    + 4 * (1 << GTS_CYCLE)
    + 5 * (1 << GWE_CYCLE);

/// MASK 00000501: the bits of CTL0 that a full stream writes.
pub(crate) const CTL0_MASK_WORD: u32 = (1 << CONFIG_FALLBACK) + CTL0_WORD;

/// CTL0 00000101: readback shows memories in logic, the outputs are as startup says, and a failed attempt falls back.
pub(crate) const CTL0_WORD: u32 = (1 << GLUTMASK_B) + (1 << GTS_USER_B);
