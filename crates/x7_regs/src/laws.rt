//! Laws of the tables and of the word of STAT. The functions do nothing: their contracts are the laws.
ghost use Rattle.std.specs.Prelude.{◌≡◌, ◌≢◌, ◌<◌, ℕ};
ghost use Rattle.x7_regs.specs.Command.{code_of, command_by, command_code_count, command_code_of, command_name_of};
ghost use Rattle.x7_regs.specs.Register.{number_of, reg_name, reg_number_count};
ghost use Rattle.x7_regs.specs.Status.{FitStatus, HasStatusFields, status_of};
ghost use Rattle.x7_regs.specs.declared.command.Command.{Command};
ghost use Rattle.x7_regs.specs.declared.register.Reg.{Reg};
ghost use Rattle.x7_regs.specs.declared.status.StatParts.{StatParts};

/// Registers with the same number are the same, and each number is below 32.
pub fn numbers_are_distinct()
    ensures distinct { (a b : Reg) → number_of a ≡ number_of b → a ≡ b }
    ensures most { (a : Reg) → number_of a < reg_number_count }
{}

/// A word whose low five bits are a command's code calls for that command, and any other for `Null`. Each code is below
/// 32. So commands with the same code are the same.
pub fn codes_are_distinct()
    ensures named { (c : Command) (w : ℕ) → command_code_of w ≡ code_of c → command_by w ≡ c }
    ensures unnamed { (w : ℕ) → ((c : Command) → code_of c ≢ command_code_of w) → command_by w ≡ Command.Null }
    ensures most { (c : Command) → code_of c < command_code_count }
{}

/// Different register numbers below 32 have different names, and different commands have different names.
pub fn names_are_distinct()
    ensures registers { (m n : ℕ) → m < reg_number_count → n < reg_number_count → reg_name m ≡ reg_name n → m ≡ n }
    ensures commands { (a b : Command) → command_name_of a ≡ command_name_of b → a ≡ b }
{}

/// Where the mode and the phase are below 8 and the bus width below 4, the word of the status register holds each part
/// in the guide's field, 1 in INIT_COMPLETE, and 0 in all other bits.
pub fn status_has_its_fields()
    ensures { (p : StatParts) → FitStatus p → HasStatusFields p (status_of p) }
{}
