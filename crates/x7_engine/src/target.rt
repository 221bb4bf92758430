//! The register that words are written to.
ghost use Rattle.std.specs.Prelude.{◌≡◌, ◌<◌, false, IfSome, IfNone};
ghost use Rattle.x7_regs.specs.Register.{number_of, reg_number_count};
ghost use Rattle.x7_engine.specs.Registers.{has_effect};

use x7_regs::{Reg, reg_of};

/// The number of a register, or a number without one, where a written word stays, is folded into the check, and does
/// nothing else.
#[derive(Clone, Copy)]
pub(crate) struct PlainNumber {
    pub(crate) register: u8,
    ghost in_range: { register < reg_number_count },
    ghost plain: { has_effect register ≡ false },
}

/// The register that words are written to, by what a word does there.
#[derive(Clone, Copy)]
pub(crate) enum Target {
    /// A word does more than stay and be folded into the check, or isn't folded.
    Effective(Reg),
    /// A word stays and is folded into the check, and does nothing else.
    Plain(PlainNumber),
}

/// Whether a word written to the register does more than stay and be folded into the check, or isn't folded.
fn has_effect(reg: Reg) -> bool
    ensures { result ≡ has_effect (number_of reg) }
{
    match reg {
        Reg::Crc
        | Reg::Far
        | Reg::Fdri
        | Reg::Cmd
        | Reg::Ctl0
        | Reg::Lout
        | Reg::Mfwr
        | Reg::Cbc
        | Reg::Idcode
        | Reg::Timer
        | Reg::Ctl1 => true,
        _ => false,
    }
}

/// The register with this number, where a word written to it does more than stay and be folded into the check, or isn't
/// folded; none for any other number.
fn effective(register: u8) -> Option<Reg>
    ensures number { IfSome result (λ reg. number_of reg ≡ register) }
    ensures no_effect { IfNone result (has_effect register ≡ false) }
{
    match reg_of(register) {
        Some(reg) if has_effect(reg) => Some(reg),
        _ => None,
    }
}

impl Target {
    ghost use Rattle.x7_engine.specs.Targets.{target_number};

    /// The register that words with this register number, 0 to 31, are written to.
    pub(crate) fn numbered(register: u8) -> Target
        requires { register < reg_number_count }
        ensures { target_number result ≡ register }
    {
        match effective(register) {
            Some(reg) => Target::Effective(reg),
            None => Target::Plain(PlainNumber { register }),
        }
    }
}
