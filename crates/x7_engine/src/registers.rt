//! The registers of a device, and what an access does to them.
ghost use Rattle.std.specs.Prelude.{◌≡◌, ◌≤◌, ◌<◌, ◌+◌, ◌*◌, ◌/◌, ◌&&◌, ℕ, [], true, None, Some, ◌-◌};
ghost use Rattle.std.specs.Option.{option_or};
ghost use Rattle.x7_packets.specs.Cutter.{IsRun};
ghost use Rattle.x7_packets.specs.History.{command_held, entered};
ghost use Rattle.x7_part.specs.Part.{PartData};
ghost use Rattle.x7_regs.specs.Register.{number_of};
ghost use Rattle.x7_flow.specs.Settings.{AreSettingsAfter};
ghost use Rattle.x7_flow.specs.Standing.{FramesFit, FramesStandFor, write_access};
ghost use Rattle.x7_flow.specs.WordsTaken.{TakesWords, count_taken};
ghost use Rattle.x7_crc.specs.RunningCheck.{executed_after};
ghost use Rattle.x7_engine.specs.WordCalls.{MayTakeHeader, MayTakePayload, MayTakeWords, LeavesBytes, LeavesDue, HasNoneDueAtStop};
ghost use Rattle.x7_engine.specs.Standing.{CountsAll, counted_in, due_count};
ghost use Rattle.x7_engine.specs.State.{last_counted};
ghost use Rattle.x7_engine.specs.Stop.{why_besides_frames, why_by_frames, stop_of_refused};
ghost use Rattle.x7_engine.specs.Taken.{TookFirstWords, TookWords, TookWrite};
ghost use Rattle.x7_engine.specs.Targets.{target_number};
ghost use Rattle.x7_engine.specs.declared.due.Due.{Due};
ghost use Rattle.x7_engine.specs.Entering.{AreRead, change_of, EntersHistory, EntersHistoryAt, EntersHistoryIf, ForEachHistory, ReadsIf, RunEnters, RunReads, step_entered, up_to_stop, word_entered};

use crate::controls::masked_word;
use crate::device::WORD_BYTES;
use crate::fault::Fault;
use crate::kept::{Kept, is_fallback};
use crate::progress::is_same_idcode;
use crate::stop::StopCause;
use crate::target::{PlainNumber, Target};
use crate::values::Values;
use x7_crc::{executed, is_command};
use x7_flow::{FrameSettings, Frames};
use x7_packets::{Cut, Step};
use x7_part::Part;
use x7_pipeline::RunFault;
use x7_regs::{Command, Reg, command_code_of, has_dec};
use x7_words::word_of;

/// How many of `taken` bytes count for accesses: all but one at which the watchdog fires, whose word isn't executed.
fn counted_in(stop: Option<StopCause>, taken: usize) -> usize
    ensures value { result ≡ counted_in stop taken }
    ensures within { result ≤ taken }
{
    match stop {
        Some(StopCause::Fault(Fault::Watchdog)) => taken.saturating_sub(1),
        _ => taken,
    }
}

/// How many of the words looked at were taken: not the last one, where it is refused.
fn count_taken(count: usize, refused: Option<RunFault>) -> usize
    ensures value { result ≡ count_taken count refused }
    ensures within { result ≤ count }
{
    match refused {
        Some(_) => count.saturating_sub(1),
        None => count,
    }
}

/// The stop by a refused word, copy or read of frame data.
pub(crate) fn stop_of_refused(fault: RunFault) -> StopCause
    ensures value { result ≡ stop_of_refused fault }
    ensures counts { (n : ℕ) → last_counted result n ≡ n }
{
    match fault {
        RunFault::Address(far) => StopCause::Fault(Fault::Address(far)),
        RunFault::Overrun => StopCause::Fault(Fault::Overrun),
        RunFault::Multi => StopCause::Fault(Fault::Multi),
    }
}

/// Why a written word stops the device: by its register, or else because the frames refuse it; none where neither does.
fn first_cause(why: Option<StopCause>, refused: Option<RunFault>) -> Option<StopCause>
    ensures value { result ≡ option_or why (why_by_frames refused) }
    ensures counts { (n : ℕ) → counted_in why n ≡ n → counted_in result n ≡ n }
{
    match (why, refused) {
        (Some(why), _) => Some(why),
        (None, Some(fault)) => Some(stop_of_refused(fault)),
        (None, None) => None,
    }
}

/// The registers of a device: their values, and its frames.
#[derive(Drop)]
pub(crate) struct Registers {
    pub(crate) values: Values,
    pub(crate) frames: Frames,
}

impl Registers {
    ghost use Rattle.x7_engine.specs.Standing.{FitsWithin, RegistersStandFor, registers_in, HasNoWord};

    /// The registers of a device that took nothing, with what the reset kept and frames after a reset.
    pub(crate) fn new(kept: &Kept, frames: Frames) -> Registers
        ensures stands { (part : PartData) → FramesStandFor part frames [] 0 → RegistersStandFor part kept.now (registers_in result) [] 0 }
        ensures going { result.values.stop ≡ None }
        ensures no_word_due { result.values.due ≡ Due.Nothing }
        ensures frames { result.frames ≡ frames }
    {
        Registers {
            values: Values::new(kept),
            frames,
        }
    }

    /// Makes the registers those after a reset that kept `kept`.
    pub(crate) fn reset(&mut self, kept: &Kept)
        ensures stands { (part : PartData) → FramesFit part self.old.frames → RegistersStandFor part kept.now (registers_in self.new) [] 0 }
        ensures going { self.new.values.stop ≡ None }
        ensures no_word_due { self.new.values.due ≡ Due.Nothing }
        ensures frames { (part : PartData) → FramesFit part self.old.frames → FramesFit part self.new.frames }
    {
        self.values = Values::new(kept);
        self.frames.reset();
    }

    /// The command that CMD holds, five bits.
    pub(crate) fn command(&self) -> u8
        ensures { (part : PartData) → ForEachHistory part (registers_in self.now) (λ kept h n. result ≡ command_held h) }
    {
        command_code_of(self.values.words.held(Reg::Cmd)) as u8
    }

    /// What decides whether an access concerns frames.
    pub(crate) fn settings(&self) -> FrameSettings
        ensures after { (part : PartData) → ForEachHistory part (registers_in self.now) (λ kept h n. AreSettingsAfter part.idcode result h) }
        ensures held { (part : PartData) → ForEachHistory part (registers_in self.now) (λ kept h n. result.command_code ≡ command_held h) }
    {
        FrameSettings {
            has_idcode: self.values.progress.has_idcode,
            ctl0: self.values.controls.ctl0,
            command_code: self.command(),
        }
    }

    /// Why a written word, which executes a command or none, stops the device, where it does. What the frames refuse is
    /// left out.
    fn why_by_write(
        &self,
        part: &Part,
        reg: Reg,
        word: u32,
        executed: Option<u8>,
    ) -> Option<StopCause>
        ensures value { ForEachHistory part.now (registers_in self.now) (λ kept h n. executed ≡ executed_after h reg word
            → result ≡ why_besides_frames part.now kept h (write_access reg word)) }
        ensures counts { CountsAll result }
    {
        let idcode = part.idcode();
        let check = self.values.progress.check;
        let lacks_idcode = !self.values.progress.has_idcode;
        let no_idcode = StopCause::Fault(Fault::Id {
            want: idcode,
            got: 0,
        });
        let start_refused = lacks_idcode && is_command(Command::Start, executed);
        let encrypted = StopCause::Fault(Fault::Encrypted);
        match reg {
            Reg::Crc => (word != check).then_some(StopCause::Fault(Fault::Crc {
                want: check,
                got: word,
            })),
            Reg::Far => start_refused.then_some(no_idcode),
            Reg::Cmd if start_refused => Some(no_idcode),
            Reg::Cmd => (is_command(Command::Iprog, executed)
                && !is_fallback(self.values.kind)).then_some(StopCause::Iprog),
            Reg::Fdri | Reg::Mfwr => lacks_idcode.then_some(no_idcode),
            Reg::Ctl0 => has_dec(masked_word(
                self.values.controls.ctl0,
                self.values.words.held(Reg::Mask),
                word,
            ))
            .then_some(encrypted),
            Reg::Cbc => Some(encrypted),
            Reg::Idcode => (!is_same_idcode(idcode, word)).then_some(StopCause::Fault(Fault::Id {
                want: idcode,
                got: word,
            })),
            _ => None,
        }
    }

    /// Takes a written word: it is folded into the check, then stored, and then come its effects and faults (this
    /// project's choice).
    fn write(&mut self, part: &Part, reg: Reg, word: u32)
        requires may_take { MayTakeWords part.now self.old }
        ensures { TookWrite (change_of part.now self.old self.new) (number_of reg) word }
    {
        let idcode = part.idcode();
        let settings = self.settings();
        let executed = executed(settings.command_code, reg, word);
        let why = self.why_by_write(part, reg, word, executed);
        let mask = self.values.words.held(Reg::Mask);
        let cor0 = self.values.words.held(Reg::Cor0);
        let taken = self.values.progress.write(idcode, reg, word, executed);
        self.values.controls.write(reg, word, mask);
        self.values.words.write(reg.number(), word);
        self.values.clock.write(executed, taken, cor0, reg, word);
        let refused = self.frames.write(settings, reg, word, part);
        self.values.stop = first_cause(why, refused);
    }

    /// Takes a written word that stays in its register, is folded into the check, and does nothing else.
    fn pass(&mut self, plain: PlainNumber, word: u32)
        ensures { (part : PartData) → MayTakeWords part self.old → TookWrite (change_of part self.old self.new) plain.register word }
    {
        self.values.progress.pass(plain, word);
        self.values.words.write(plain.register, word);
    }

    /// Takes a written word.
    pub(crate) fn write_word_to(&mut self, part: &Part, target: Target, word: u32)
        requires may_take { MayTakeWords part.now self.old }
        ensures { TookWrite (change_of part.now self.old self.new) (target_number target) word }
    {
        match target {
            Target::Effective(reg) => self.write(part, reg, word),
            Target::Plain(plain) => self.pass(plain, word),
        }
    }

    /// Advances startup and the watchdog by `count` bytes, up to the byte at which the watchdog fires; the word that
    /// they complete comes after. Gives how many of the bytes are left, 0 where it doesn't fire.
    #[inline(always)]
    pub(crate) fn take_bytes(&mut self, part: &Part, count: usize) -> usize
        requires going { self.old.values.stop ≡ None }
        ensures left { LeavesBytes count result self.new }
        ensures takes_some { 0 < count → result < count }
        ensures fired { (why : StopCause) → self.new.values.stop ≡ Some why → (why ≡ StopCause.Fault Fault.Watchdog) × (result < count) }
        ensures due { self.new.values.due ≡ self.old.values.due }
        ensures frames { self.new.frames ≡ self.old.frames }
        ensures enters { EntersHistory (change_of part.now self.old self.new) (λ n h. h) (count - result) }
    {
        let Some(taken) = self.values.clock.bytes(part, count) else {
            return 0;
        };
        self.values.stop = Some(StopCause::Fault(Fault::Watchdog));
        count - taken
    }

    /// Takes a payload word whose last `count` bytes are new: these bytes first, and then the word, unless the watchdog
    /// fired at one of them. Gives how many of the bytes are left.
    fn take_word(&mut self, part: &Part, target: Target, word: u32, count: usize) -> usize
        requires may_take { MayTakeWords part.now self.old }
        ensures left { LeavesBytes count result self.new }
        ensures takes_some { 0 < count → result < count }
        ensures leaves { LeavesDue (change_of part.now self.old self.new) }
        ensures enters { EntersHistoryIf (0 < count) (change_of part.now self.old self.new)
            (up_to_stop (registers_in self.new) (word_entered (target_number target) word count) (count - result)) (count - result) }
    {
        let left = self.take_bytes(part, count);
        if self.values.stop.is_some() {
            // The watchdog fired at one of the word's bytes, so the word isn't executed.
            return left;
        }
        self.write_word_to(part, target, word);
        0
    }

    /// Takes written words that stay in their register, are folded into the check, and do nothing else, up to a byte at
    /// which the watchdog fires. Says how many bytes were taken.
    fn pass_all(&mut self, part: &Part, plain: PlainNumber, bytes: &[u8]) -> usize
        requires { MayTakePayload part.now self.old bytes.now }
        ensures { TookWords (change_of part.now self.old self.new) plain.register bytes.now result }
    {
        let left = self.take_bytes(part, bytes.len());
        let taken = bytes.len() - left;
        let whole = counted_in(self.values.stop, taken) / WORD_BYTES * WORD_BYTES;
        let prefix = &bytes[..whole];
        self.values.progress.pass_all(plain.register, prefix);
        self.values.words.pass_all(plain.register, prefix);
        taken
    }

    /// Takes words written to FDRI or MFWR at once, on a device whose IDCODE was written: those before the first that
    /// is refused or in which the watchdog fires. Says how many bytes these are. The clause says that they are the
    /// first words, and that none of them stops the device; it doesn't say that no more could be taken.
    fn take_frame_words(&mut self, part: &Part, reg: Reg, bytes: &[u8]) -> usize
        requires may_take { MayTakeWords part.now self.old }
        requires register { TakesWords reg }
        requires has_idcode { self.old.values.progress.has_idcode ≡ true }
        ensures { TookFirstWords (change_of part.now self.old self.new) (number_of reg) bytes.now result }
    {
        let settings = self.settings();
        let before = self.values.clock.before_firing(part, bytes.len()) / WORD_BYTES * WORD_BYTES;
        let (count, refused) = self
            .frames
            .write_bytes(settings, reg, &bytes[..before], part);
        let taken = count_taken(count, refused) * WORD_BYTES;
        let prefix = &bytes[..taken];
        // The watchdog fires at none of these bytes: only bytes before a firing were looked at.
        let _ = self.values.clock.bytes(part, taken);
        self.values.progress.pass_all(reg.number(), prefix);
        self.values.words.pass_all(reg.number(), prefix);
        taken
    }

    /// Takes those of a payload's words that can be taken at once, and says how many bytes these are.
    fn take_words_at_once(&mut self, part: &Part, reg: Reg, bytes: &[u8]) -> usize
        requires may_take { MayTakeWords part.now self.old }
        ensures { TookFirstWords (change_of part.now self.old self.new) (number_of reg) bytes.now result }
    {
        match reg {
            Reg::Fdri | Reg::Mfwr if self.values.progress.has_idcode => self.take_frame_words(
                part, reg, bytes,
            ),
            _ => 0,
        }
    }

    /// Takes payload words one by one up to a byte that stops the device, and says how many bytes these are.
    fn take_words_one_by_one(&mut self, part: &Part, reg: Reg, bytes: &[u8]) -> usize
        requires { MayTakePayload part.now self.old bytes.now }
        ensures { TookWords (change_of part.now self.old self.new) (number_of reg) bytes.now result }
    {
        let (words, _) = bytes.as_chunks::<4>();
        let mut taken = 0;
        for word in words {
            let left = self.take_word(part, Target::Effective(reg), word_of(*word), WORD_BYTES);
            taken += WORD_BYTES - left;
            if self.values.stop.is_some() {
                return taken;
            }
        }
        taken
    }

    /// Takes the payload words of a packet up to a byte that stops the device, and says how many bytes these are.
    #[inline(always)]
    fn take_body(&mut self, part: &Part, target: Target, bytes: &[u8]) -> usize
        requires { MayTakePayload part.now self.old bytes.now }
        ensures { TookWords (change_of part.now self.old self.new) (target_number target) bytes.now result }
    {
        match target {
            Target::Effective(reg) => {
                let taken = self.take_words_at_once(part, reg, bytes);
                taken + self.take_words_one_by_one(part, reg, &bytes[taken..])
            }
            Target::Plain(plain) => self.pass_all(part, plain, bytes),
        }
    }

    /// Takes a word in a header's place: a read of one word or more makes words due, unless the frames refuse it; a
    /// refused read stops the device, and so does a word that is no header.
    fn take_step(&mut self, part: &Part, step: Step)
        requires { MayTakeHeader part.now self.old step }
        ensures none_due_at_stop { HasNoneDueAtStop part.now self.new }
        ensures counts { CountsAll self.new.values.stop }
        ensures enters { EntersHistoryAt (change_of part.now self.old self.new) (λ place h. entered place step h) }
        ensures reads { ForEachHistory part.now (registers_in self.old) (λ kept h place. AreRead part.now kept h (entered place step h) self.new.values.due) }
    {
        match step {
            Step::Read(register, count) if count > 0 => self.read(part, register, count),
            Step::Bad(word) => self.values.stop = Some(StopCause::Fault(Fault::Packet(word))),
            _ => (),
        }
    }

    /// Takes a word in a header's place whose last `count` bytes are new: these bytes first, and then the word, unless
    /// the watchdog fired at one of them. Gives how many of the bytes are left.
    #[inline(always)]
    fn take_header(&mut self, part: &Part, step: Step, count: usize) -> usize
        requires { MayTakeHeader part.now self.old step }
        ensures left { LeavesBytes count result self.new }
        ensures none_due_at_stop { HasNoneDueAtStop part.now self.new }
        ensures enters { EntersHistoryIf (0 < count) (change_of part.now self.old self.new)
            (up_to_stop (registers_in self.new) (step_entered step count) (count - result)) (count - result) }
        ensures reads { ReadsIf (0 < count) (change_of part.now self.old self.new) (up_to_stop (registers_in self.new) (step_entered step count) (count - result)) }
    {
        let left = self.take_bytes(part, count);
        if self.values.stop.is_some() {
            // The watchdog fired at one of the word's bytes, so the word isn't executed.
            return left;
        }
        self.take_step(part, step);
        0
    }

    /// Takes a run of a stream, `count` bytes of which are new, up to the byte that stops the device.
    /// Says how many of these bytes are left.
    #[inline(always)]
    pub(crate) fn take_run(&mut self, part: &Part, run: Cut<'_>, count: usize) -> usize
        requires may_take { MayTakeWords part.now self.old }
        requires run { IsRun run }
        requires holds { FitsWithin run count }
        ensures left { LeavesBytes count result self.new }
        ensures no_word_due { HasNoWord run.entry → due_count self.new.values.due ≡ 0 }
        ensures none_due_at_stop { HasNoneDueAtStop part.now self.new }
        ensures enters { RunEnters run.entry count (change_of part.now self.old self.new) (count - result) }
        ensures reads { RunReads run.entry count (change_of part.now self.old self.new) (count - result) }
    {
        match run {
            Cut::Need | Cut::Skip(_) | Cut::Sync => self.take_bytes(part, count),
            Cut::Head(_, step) => self.take_header(part, step, count),
            Cut::Word(register, word) => self.take_word(
                part,
                Target::numbered(register),
                word,
                count,
            ),
            Cut::Body(register, bytes) => bytes.len()
                - self.take_body(part, Target::numbered(register), bytes),
        }
    }
}
