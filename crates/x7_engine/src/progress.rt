//! The running check, and the flags that written words set and clear.
ghost use Rattle.std.specs.Prelude.{◌≡◌, ◌<◌, false, ◌||◌, ◌&&◌, ℕ, ◌∷◌, []};
ghost use Rattle.x7_words.specs.Word.{AreWholeWords};
ghost use Rattle.x7_packets.specs.History.{entry, History, Write};
ghost use Rattle.x7_crc.specs.RunningCheck.{executed_after};
ghost use Rattle.x7_regs.specs.Command.{code_of};
ghost use Rattle.x7_regs.specs.Register.{reg_number_count};
ghost use Rattle.x7_flow.specs.Controls.{names_part, same_idcode};
ghost use Rattle.x7_flow.specs.Standing.{write_access, write_entry};
ghost use Rattle.x7_engine.specs.Entering.{words_entered};
ghost use Rattle.x7_engine.specs.Registers.{clears_check_by, has_ghigh_after, is_controlling, is_pending_after, takes_shutdown, writes_check, writes_command};

use crate::target::PlainNumber;
use x7_crc::{check_after_write, fold, fold_slice, is_command};
use x7_regs::{Command, Reg, command_code_of};

/// The bits of an idcode but its version, bits 31 to 28, which isn't compared (this project's choice).
const VERSIONLESS: u32 = 0x0FFF_FFFF;

/// Whether a written word is the part's idcode, whatever its version.
pub(crate) fn is_same_idcode(idcode: u32, word: u32) -> bool
    ensures { result ≡ same_idcode idcode word }
{
    word & VERSIONLESS == idcode & VERSIONLESS
}

/// Whether a written word is the running check, written to CRC.
fn writes_check(check: u32, reg: Reg, word: u32) -> bool
    ensures { result ≡ writes_check check (write_access reg word) }
{
    match reg {
        Reg::Crc => word == check,
        _ => false,
    }
}

/// Whether a written word clears the check without a fault: RCRC is executed, or the running check is written to CRC.
fn clears_check_by(executed: Option<u8>, check: u32, reg: Reg, word: u32) -> bool
    ensures { result ≡ clears_check_by executed check (write_access reg word) }
{
    is_command(Command::Rcrc, executed) || writes_check(check, reg, word)
}

/// Whether a shutdown is pending after a written word.
fn is_pending_after(pending: bool, executed: Option<u8>, cleared: bool) -> bool
    ensures { result ≡ is_pending_after executed cleared pending }
{
    !cleared && (is_command(Command::Shutdown, executed) || pending)
}

/// GHIGH_B after a written word.
fn has_ghigh_after(ghigh: bool, executed: Option<u8>, takes_shutdown: bool) -> bool
    ensures { result ≡ has_ghigh_after executed takes_shutdown ghigh }
{
    is_command(Command::Lfrm, executed)
        || ghigh && !is_command(Command::Aghigh, executed) && !takes_shutdown
}

/// Whether a written word takes a shutdown: it clears the check while one is pending.
fn takes_shutdown(cleared: bool, pending: bool) -> bool
    ensures { result ≡ (cleared && pending) }
{
    cleared && pending
}

/// Whether the part's IDCODE was written up to and with this word, where `has_idcode` says it of the accesses before.
fn has_idcode_after(has_idcode: bool, idcode: u32, reg: Reg, word: u32) -> bool
    ensures { result ≡ (names_part idcode (write_access reg word) || has_idcode) }
{
    match reg {
        Reg::Idcode => is_same_idcode(idcode, word) || has_idcode,
        _ => has_idcode,
    }
}

/// Whether an IPROG command was written up to and with this word, where `wrote` says it of the accesses before.
fn wrote_iprog_after(wrote: bool, reg: Reg, word: u32) -> bool
    ensures { result ≡ (writes_command (code_of Command.Iprog) (write_access reg word) || wrote) }
{
    match reg {
        Reg::Cmd => command_code_of(word) == Command::Iprog.code() || wrote,
        _ => wrote,
    }
}

/// The running check and the flags after all accesses so far.
#[derive(Clone, Copy)]
pub(crate) struct Progress {
    pub(crate) check: u32,
    // the part's idcode was written to IDCODE
    pub(crate) has_idcode: bool,
    // a shutdown is pending
    pub(crate) pending: bool,
    // GHIGH_B is 1
    pub(crate) ghigh: bool,
    // an IPROG command was written
    pub(crate) iprog: bool,
}

impl Progress {
    ghost use Rattle.x7_engine.specs.Standing.{IsProgress, progress_in};

    /// The check and the flags of a device that took nothing: the check is 0, and no flag is set.
    pub(crate) fn new() -> Progress
        ensures { (idcode : ℕ) → IsProgress idcode (progress_in result) [] }
    {
        Progress {
            check: 0,
            has_idcode: false,
            pending: false,
            ghigh: false,
            iprog: false,
        }
    }

    /// Takes a written word that stays in its register, is folded into the check, and does nothing else.
    pub(crate) fn pass(&mut self, plain: PlainNumber, word: u32)
        ensures { (idcode : ℕ) (h : History) (place : ℕ) → IsProgress idcode (progress_in self.old) h
            → IsProgress idcode (progress_in self.new) (entry (Write plain.register word) place ∷ h) }
    {
        self.check = fold(self.check, plain.register, word);
    }

    /// Takes a written word that executes a command, or none, and says whether it takes a pending shutdown.
    pub(crate) fn write(&mut self, idcode: u32, reg: Reg, word: u32, executed: Option<u8>) -> bool
        ensures stands { (h : History) (place : ℕ) → executed ≡ executed_after h reg word → IsProgress idcode (progress_in self.old) h
            → IsProgress idcode (progress_in self.new) (write_entry reg word place ∷ h) }
        ensures takes { (h : History) → executed ≡ executed_after h reg word → IsProgress idcode (progress_in self.old) h → result ≡ takes_shutdown h (write_access reg word) }
    {
        let cleared = clears_check_by(executed, self.check, reg, word);
        let taken = takes_shutdown(cleared, self.pending);
        *self = Progress {
            check: check_after_write(self.check, reg, word, executed),
            has_idcode: has_idcode_after(self.has_idcode, idcode, reg, word),
            pending: is_pending_after(self.pending, executed, cleared),
            ghigh: has_ghigh_after(self.ghigh, executed, taken),
            iprog: wrote_iprog_after(self.iprog, reg, word),
        };
        taken
    }

    /// Takes words, four bytes each, written to a register whose words move the check and no flag.
    pub(crate) fn pass_all(&mut self, register: u8, bytes: &[u8])
        requires register { register < reg_number_count }
        requires controls_nothing { is_controlling register ≡ false }
        requires whole { AreWholeWords bytes.now }
        ensures { (idcode : ℕ) (h : History) (n : ℕ) → IsProgress idcode (progress_in self.old) h
            → IsProgress idcode (progress_in self.new) (words_entered register bytes.now n h) }
    {
        self.check = fold_slice(self.check, register, bytes);
    }
}
