//! The registers CTL0 and CTL1, which take only the bits that MASK has.
ghost use Rattle.std.specs.Prelude.{◌≡◌, ℕ, ◌∷◌, []};
ghost use Rattle.x7_packets.specs.History.{entry, History, Write};
ghost use Rattle.x7_regs.specs.Register.{number_of};
ghost use Rattle.x7_flow.specs.Controls.{mask_held, masked_word};

use x7_regs::Reg;

/// The bits of the word where MASK has them, and the old ones elsewhere.
pub(crate) fn masked_word(old: u32, mask: u32, word: u32) -> u32
    ensures { (register : ℕ) → result ≡ masked_word register mask (Write register word) old }
{
    old & !mask | word & mask
}

/// CTL0 and CTL1.
#[derive(Clone, Copy)]
pub(crate) struct Controls {
    pub(crate) ctl0: u32,
    pub(crate) ctl1: u32,
}

impl Controls {
    ghost use Rattle.x7_engine.specs.Standing.{AreControls, controls_in};

    /// The registers under MASK of a device that took nothing: all bits 0.
    pub(crate) fn new() -> Controls
        ensures { AreControls (controls_in result) [] }
    {
        Controls { ctl0: 0, ctl1: 0 }
    }

    /// Stores, of a word written to CTL0 or CTL1, the bits where `mask` is 1; the others stay. Another register's word
    /// changes nothing.
    pub(crate) fn write(&mut self, reg: Reg, word: u32, mask: u32)
        ensures { (h : History) (place : ℕ) → mask ≡ mask_held h → AreControls (controls_in self.old) h
            → AreControls (controls_in self.new) (entry (Write (number_of reg) word) place ∷ h) }
    {
        match reg {
            Reg::Ctl0 => self.ctl0 = masked_word(self.ctl0, mask, word),
            Reg::Ctl1 => self.ctl1 = masked_word(self.ctl1, mask, word),
            _ => (),
        }
    }
}
