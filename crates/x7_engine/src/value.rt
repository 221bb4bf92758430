//! The values of the registers as they are read (UG470, configuration registers).
ghost use Rattle.std.specs.Prelude.{◌≡◌, None, false};
ghost use Rattle.x7_part.specs.Part.{PartData};
ghost use Rattle.x7_regs.specs.Status.{status_of};
ghost use Rattle.x7_flow.specs.Standing.{far_owing};
ghost use Rattle.x7_engine.specs.Course.{course_at};
ghost use Rattle.x7_engine.specs.Registers.{has_ghigh};
ghost use Rattle.x7_engine.specs.Standing.{due_count, frames_due};
ghost use Rattle.x7_engine.specs.Startup.{startup_progress};
ghost use Rattle.x7_engine.specs.Stop.{fault_of_stop};
ghost use Rattle.x7_engine.specs.Value.{attempt_of, failure_of, check_shown, is_crc_fault, is_id_fault, read_value, stat_parts, value_owing};

use crate::fault::Fault;
use crate::kept::is_fallback;
use crate::registers::Registers;
use crate::stop::StopCause;
use x7_part::Part;
use x7_regs::{Attempt, Cause, Reg, StatParts, boot_word, command_code_of, reg_of, stat_word};

/// Whether the stop is the fault `Crc`.
fn is_crc_fault(stop: Option<StopCause>) -> bool
    ensures { result ≡ is_crc_fault (fault_of_stop stop) }
{
    match stop {
        Some(StopCause::Fault(Fault::Crc { .. })) => true,
        _ => false,
    }
}

/// Whether the stop is the fault `Id`.
fn is_id_fault(stop: Option<StopCause>) -> bool
    ensures { result ≡ is_id_fault (fault_of_stop stop) }
{
    match stop {
        Some(StopCause::Fault(Fault::Id { .. })) => true,
        _ => false,
    }
}

/// What an attempt with this stop failed by: a fault Id, Crc or Watchdog, or else the end of the flash (`wrapped`); none
/// where neither came.
fn failure_in(stop: Option<StopCause>, wrapped: bool) -> Option<Cause>
    ensures { result ≡ failure_of (fault_of_stop stop) wrapped }
{
    match stop {
        Some(StopCause::Fault(Fault::Id { .. })) => Some(Cause::Id),
        Some(StopCause::Fault(Fault::Crc { .. })) => Some(Cause::Crc),
        Some(StopCause::Fault(Fault::Watchdog)) => Some(Cause::Watchdog),
        _ => wrapped.then_some(Cause::Wrap),
    }
}

impl Registers {
    ghost use Rattle.x7_engine.specs.Standing.{registers_in};
    ghost use Rattle.x7_engine.specs.Entering.{ForEachHistory};

    /// The running check; at a fault `Crc` the one that was wanted.
    fn check_shown(&self) -> u32
        ensures { (part : PartData) → ForEachHistory part (registers_in self.now) (λ kept h n. result ≡ check_shown (fault_of_stop self.now.values.stop) h) }
    {
        match self.values.stop {
            Some(StopCause::Fault(Fault::Crc { want, .. })) => want,
            _ => self.values.progress.check,
        }
    }

    /// The word of STAT.
    fn stat(&self, part: &Part) -> u32
        ensures { ForEachHistory part.now (registers_in self.now)
            (λ kept h n. result ≡ status_of (stat_parts part.now (fault_of_stop self.now.values.stop) (startup_progress h n) (has_ghigh h))) }
    {
        let crc_error = is_crc_fault(self.values.stop);
        let lines = self.values.clock.lines();
        stat_word(&StatParts {
            crc_error,
            lock: self.values.clock.have_passed(part.lock()),
            matched: self.values.clock.have_passed(part.matched()),
            eos: self.values.clock.startup_ended(),
            gts: lines.gts,
            gwe: lines.gwe,
            ghigh: self.values.progress.ghigh,
            mode: part.mode(),
            init_b: !crc_error,
            done: lines.done,
            id_error: is_id_fault(self.values.stop),
            phase: self.values.clock.phase(),
            bus_width: part.bus_width(),
        })
    }

    /// The present boot attempt, by whether the flash has ended (`wrapped`).
    pub(crate) fn attempt(&self, wrapped: bool) -> Attempt
        ensures { (part : PartData) → ForEachHistory part (registers_in self.now) (λ kept h n. result ≡ attempt_of kept wrapped (fault_of_stop self.now.values.stop) h) }
    {
        Attempt {
            kind: self.values.kind,
            cause: failure_in(self.values.stop, wrapped),
            ignored: is_fallback(self.values.kind) && self.values.progress.iprog,
        }
    }

    /// FAR as it is read; while words of frame data are due, that of the words given so far.
    fn far(&self, part: &Part) -> u32
        ensures { ForEachHistory part.now (registers_in self.now) (λ kept h n. result ≡ far_owing part.now h (frames_due self.now.values.due)) }
    {
        self.frames.far(part)
    }

    /// The value of a register as it is read, and 0 for one that is only written and for frame data. While words of
    /// frame data are due, FAR is that of the words given so far. BOOTSTS shows whether the flash has ended (`wrapped`).
    #[rattlefmt::skip]
    pub(crate) fn value(&self, part: &Part, reg: Reg, wrapped: bool) -> u32
        ensures { ForEachHistory part.now (registers_in self.now)
            (λ kept h n. result ≡ value_owing (course_at part.now kept h n) wrapped (fault_of_stop self.now.values.stop) (frames_due self.now.values.due) reg) }
    {
        match reg {
            Reg::Crc     => self.check_shown(),
            Reg::Far     => self.far(part),
            Reg::Fdri    => 0,
            Reg::Fdro    => 0,
            Reg::Cmd     => command_code_of(self.values.words.held(Reg::Cmd)),
            Reg::Ctl0    => self.values.controls.ctl0,
            Reg::Mask    => self.values.words.held(Reg::Mask),
            Reg::Stat    => self.stat(part),
            Reg::Lout    => 0,
            Reg::Cor0    => self.values.words.held(Reg::Cor0),
            Reg::Mfwr    => 0,
            Reg::Cbc     => 0,
            Reg::Idcode  => part.idcode(),
            Reg::Axss    => self.values.words.held(Reg::Axss),
            Reg::Cor1    => self.values.words.held(Reg::Cor1),
            Reg::Wbstar  => self.values.words.held(Reg::Wbstar),
            Reg::Timer   => self.values.words.held(Reg::Timer),
            Reg::Bootsts => boot_word(self.attempt(wrapped), self.values.before),
            Reg::Ctl1    => self.values.controls.ctl1,
            Reg::Bspi    => self.values.words.held(Reg::Bspi),
        }
    }

    /// Each word that a read of the register of this number gives, of a device that hasn't stopped and has no word due:
    /// the register's value, and 0 for a number without a register.
    pub(crate) fn read_value(&self, part: &Part, register: u8) -> u32
        ensures { self.now.values.stop ≡ None → due_count self.now.values.due ≡ 0 → ForEachHistory part.now (registers_in self.now)
            (λ kept h n. result ≡ read_value (course_at part.now kept h n) register) }
    {
        match reg_of(register) {
            Some(reg) => self.value(part, reg, false),
            None => 0,
        }
    }
}
