//! The running check of a stream's bytes, as they come.
ghost use Rattle.std.specs.Prelude.{◌≡◌, ℕ, List, [], ◌∷◌, ◌++◌, ◌<◌, false, IfNone, IfSome};
ghost use Rattle.x7_words.specs.Word.{AreWholeWords, words_of_bytes};
ghost use Rattle.x7_regs.specs.Register.{number_of, reg_number_count};
ghost use Rattle.x7_packets.specs.Cutter.{IsRun, run_steps};
ghost use Rattle.x7_packets.specs.History.{command_held, entered_all, entry, History, Write};
ghost use Rattle.x7_packets.specs.Packet.{payload_steps};
ghost use Rattle.x7_crc.specs.Checker.{check_of_bytes, IsCheckState, HaveChecked, HasTaken, KeepsCheckOf, steers_check};

use crate::check::fold_slice;
use crate::written::{check_after_write, executed};
use std::marker::Model;
use x7_packets::{Cut, Cutter};
use x7_regs::{Reg, command_code_of, reg_of};
use x7_words::{bytes_of, word_of};

/// What the check of further writes goes on from: the check so far, and the command that CMD holds, five bits.
#[derive(Clone, Copy)]
pub(crate) struct CheckState {
    check: u32,
    held: u8,
}

/// The command that CMD holds after a written word.
fn held_after(held: u8, reg: Reg, word: u32) -> u8
    ensures { (h : History) (place : ℕ) → held ≡ command_held h → result ≡ command_held (entry (Write (number_of reg) word) place ∷ h) }
{
    match reg {
        Reg::Cmd => command_code_of(word) as u8,
        _ => held,
    }
}

/// The check state after a word written to any register. Words to a register that doesn't steer the check
/// (`steers_check`) are folded faster, by `fold_slice`.
fn after_written_word(state: CheckState, reg: Reg, word: u32) -> CheckState
    ensures { (h : History) (place : ℕ) → IsCheckState state.check state.held h
        → IsCheckState result.check result.held (entry (Write (number_of reg) word) place ∷ h) }
{
    let executed = executed(state.held, reg, word);
    CheckState {
        check: check_after_write(state.check, reg, word, executed),
        held: held_after(state.held, reg, word),
    }
}

/// The check state after words written to a register, four bytes each, taken word by word, as has to be done for a
/// register that steers the check.
fn after_written_words(state: CheckState, reg: Reg, bytes: &[u8]) -> CheckState
    requires whole { AreWholeWords bytes.now }
    ensures { (h : History) (place : ℕ) → IsCheckState state.check state.held h
        → IsCheckState result.check result.held (entered_all place (payload_steps (number_of reg) (words_of_bytes bytes.now)) h) }
{
    let (words, _) = bytes.as_chunks::<4>();
    let mut now = state;
    for word in words {
        now = after_written_word(now, reg, word_of(*word));
    }
    now
}

/// Whether a write to the register may clear the running check, at once or by a later write to FAR, or stay out of it.
/// A write to any other register goes into the check, and does no more.
fn steers_check(reg: Reg) -> bool
    ensures { result ≡ steers_check (number_of reg) }
{
    match reg {
        Reg::Crc | Reg::Far | Reg::Cmd | Reg::Lout => true,
        _ => false,
    }
}

/// The register with this number, where a write to it may clear the running check or stay out of it; `None` for any
/// other number.
fn steering_register(register: u8) -> Option<Reg>
    ensures number { IfSome result (λ reg. number_of reg ≡ register) }
    ensures not_steering { IfNone result (steers_check register ≡ false) }
{
    match reg_of(register) {
        Some(reg) if steers_check(reg) => Some(reg),
        _ => None,
    }
}

/// The check state after words written to the register with this number, four bytes each.
fn state_after_words(state: CheckState, register: u8, bytes: &[u8]) -> CheckState
    requires register { register < reg_number_count }
    requires whole { AreWholeWords bytes.now }
    ensures { (h : History) (place : ℕ) → IsCheckState state.check state.held h
        → IsCheckState result.check result.held (entered_all place (payload_steps register (words_of_bytes bytes.now)) h) }
{
    let Some(reg) = steering_register(register) else {
        return CheckState {
            check: fold_slice(state.check, register, bytes),
            held: state.held,
        };
    };
    after_written_words(state, reg, bytes)
}

/// The check state after the words of a run.
fn after_run(state: CheckState, run: Cut) -> CheckState
    requires { IsRun run }
    ensures { (h : History) (place : ℕ) → IsCheckState state.check state.held h
        → IsCheckState result.check result.held (entered_all place (run_steps run.entry) h) }
{
    match run {
        Cut::Word(register, word) => state_after_words(state, register, &bytes_of(word)),
        Cut::Body(register, bytes) => state_after_words(state, register, bytes),
        Cut::Need | Cut::Skip(_) | Cut::Sync | Cut::Head(..) => state,
    }
}

/// Keeps the check of the writes of a stream that comes piece by piece, and at most three of its bytes.
#[derive(Drop)]
pub struct PieceChecker {
    cutter: Cutter,
    state: CheckState,
}

impl Model for PieceChecker {
    ghost use Rattle.x7_crc.specs.Checker.{PieceCheckerState};

    ghost Value = { PieceCheckerState };

    ghost view = { λ c. record { cutter = c.cutter; check = c.state.check; held = c.state.held } };
}

impl PieceChecker {
    /// A checker that has taken no piece.
    pub fn new() -> PieceChecker
        ensures { HasTaken result [] }
    {
        PieceChecker {
            cutter: Cutter::new(),
            state: CheckState { check: 0, held: 0 },
        }
    }

    /// Takes one more piece of bytes.
    pub fn take(&mut self, piece: &[u8])
        ensures { (bytes : List ℕ) → HasTaken self.old bytes → HasTaken self.new (bytes ++ piece.now) }
    {
        self.state = after_piece(&mut self.cutter, self.state, piece);
    }

    /// The running check of all writes of the bytes taken.
    pub fn check(&self) -> u32
        ensures kept { result ≡ self.now.check }
        ensures value { (bytes : List ℕ) → HasTaken self.now bytes → result ≡ check_of_bytes bytes }
    {
        self.state.check
    }
}

/// Keeps the check of the writes of a stream that its caller holds, and that grows at its end: each byte is taken once.
#[derive(Drop)]
pub struct Checker {
    pieces: PieceChecker,
    taken: usize,
}

impl Model for Checker {
    ghost use Rattle.x7_crc.specs.Checker.{CheckerState};

    ghost Value = { CheckerState };

    ghost view = { λ c. record { pieces = c.pieces; taken = c.taken } };
}

impl Checker {
    /// A checker of no bytes.
    pub fn new() -> Checker
        ensures { KeepsCheckOf result [] }
    {
        Checker {
            pieces: PieceChecker::new(),
            taken: 0,
        }
    }

    /// The running check of all writes of the bytes, which are to begin with those of the call before.
    pub fn check_of(&mut self, bytes: &[u8]) -> u32
        requires { KeepsCheckOf self.old bytes.now }
        ensures check { result ≡ check_of_bytes bytes.now }
        ensures keeps { KeepsCheckOf self.new bytes.now }
    {
        self.pieces.take(&bytes[self.taken..]);
        self.taken = bytes.len();
        self.pieces.check()
    }
}

/// The check state after all runs of a piece, which the cutter takes.
fn after_piece(cutter: &mut Cutter, state: CheckState, piece: &[u8]) -> CheckState
    ensures { (bytes : List ℕ) → HaveChecked cutter.old state.check state.held bytes → HaveChecked cutter.new result.check result.held (bytes ++ piece.now) }
{
    let mut now = state;
    let mut at = 0;
    loop {
        let run = cutter.cut(piece, &mut at);
        if let Cut::Need = run {
            return now;
        }
        now = after_run(now, run);
    }
}
