//! The words of a session as packets (UG470, packet types).
ghost use Rattle.std.specs.Prelude.{◌≡◌, ℕ, List, [], ◌∷◌, ◌≤◌, ◌<◌, ◌*◌, ◌/◌, ◌==◌, length, min, if◌then◌else◌};
ghost use Rattle.x7_words.specs.Word.{AreWords, words_of_bytes};
ghost use Rattle.x7_regs.specs.Register.{number_of, reg_number_count};
ghost use Rattle.x7_regs.specs.declared.register.Reg.TheVariants.{Cmd};
ghost use Rattle.x7_packets.specs.AtOnce.{in_write, write_head_step};
ghost use Rattle.x7_packets.specs.PacketWords.{type1_count_bound};
ghost use Rattle.x7_packets.specs.Packet.{ends_session, payload_steps};
ghost use Rattle.x7_packets.specs.Machine.{AddsWords, MachineStandsFor, session_ends_by};

use crate::header::{Step, ends_session, is_cmd, meaning};
use std::marker::Model;
use x7_words::word_of;

/// Takes the words of a session, and says what each word is.
#[derive(Clone, Copy)]
pub struct Machine {
    /// How many payload words of the open packet are still to come, and to which register they are written.
    due: u32,
    register: u8,
    /// The register that the session's nearest type 1 read or write named.
    latest: Option<u8>,
}

impl Model for Machine {
    ghost use Rattle.std.specs.Prelude.{◌<◌};
    ghost use Rattle.std.specs.Option.{ForSome};
    ghost use Rattle.x7_regs.specs.Register.{reg_number_count};
    ghost use Rattle.x7_packets.specs.Machine.{MachineState};

    ghost Value = { MachineState };

    ghost view = { λ m. record { due = m.due; register = m.register; latest = m.latest } };

    ghost invariant = { λ m. (m.register < reg_number_count) × ForSome m.latest (λ register. register < reg_number_count) };

    ghost inverse = { λ v. record { due = v.due; register = v.register; latest = v.latest } };
}

impl Machine {
    /// A machine just after a sync word.
    pub fn new() -> Machine
        ensures { MachineStandsFor result [] }
    {
        Machine {
            due: 0,
            register: 0,
            latest: None,
        }
    }

    /// Takes a word, and says what the word is. After a word that ends the session the machine is as new.
    #[inline(always)]
    pub fn take(&mut self, word: u32) -> Step
        ensures payload { 0 < self.old.due → result ≡ Step.Payload self.old.register word }
        ensures register { (register x : ℕ) → result ≡ Step.Payload register x → (x ≡ word) × (register < reg_number_count) × (0 < self.old.due) }
        ensures grows { AddsWords self.old ((word, result) ∷ []) self.new }
    {
        if self.due > 0 {
            let register = self.register;
            if ends_session(register, word) {
                *self = Machine::new();
            } else {
                self.due -= 1;
            }
            return Step::Payload(register, word);
        }
        let step = meaning(self.latest, word);
        match step {
            Step::Open(register, count) => {
                self.due = count;
                self.register = register;
                self.latest = Some(register);
            }
            Step::Read(register, _) => self.latest = Some(register),
            _ => (),
        }
        step
    }

    /// Whether the next word stands in a header's place.
    pub(crate) fn is_at_header(&self) -> bool
        ensures { result ≡ (self.now.due == 0) }
    {
        self.due == 0
    }

    /// How many payload words of the open packet may be taken at once, at most `most`: of CMD at most one, since it may
    /// end the session; 0 where no packet is open.
    #[inline(always)]
    pub(crate) fn payload_words(&self, most: usize) -> usize
        ensures { result ≡ min (min self.now.due most) (if self.now.register == number_of Cmd then 1 else most) }
    {
        let words = (self.due as usize).min(most);
        words.min(if is_cmd(self.register) { 1 } else { most })
    }

    /// Takes the bytes of payload words of the open packet at once, of CMD those of one word, and says whether the last
    /// word ends the session.
    #[inline(always)]
    pub(crate) fn take_payload(&mut self, body: &[u8]) -> bool
        requires whole { length body.now ≡ 4 * (length body.now / 4) }
        requires not_empty { 0 < length body.now }
        requires within_due { length body.now / 4 ≤ self.old.due }
        requires one_word_of_cmd { self.old.register ≡ number_of Cmd → length body.now ≡ 4 }
        ensures ends { result ≡ session_ends_by (payload_steps self.old.register (words_of_bytes body.now)) }
        ensures grows { AddsWords self.old (payload_steps self.old.register (words_of_bytes body.now)) self.new }
    {
        if is_cmd(self.register) {
            return self
                .take(word_of([body[0], body[1], body[2], body[3]]))
                .is_end();
        }
        self.due -= (body.len() / 4) as u32;
        false
    }

    /// Takes the header and the word of a type 1 write of one word at once, and says whether the word ends the session.
    #[inline(always)]
    pub(crate) fn take_write_of_one(&mut self, register: u8, word: u32) -> bool
        requires at_header { self.old.due ≡ 0 }
        requires register { register < reg_number_count }
        ensures ends { result ≡ ends_session register word }
        ensures head { AddsWords self.old (write_head_step register 1 ∷ []) (in_write register 1) }
        ensures word { AddsWords (in_write register 1) ((word, Step.Payload register word) ∷ []) self.new }
    {
        if ends_session(register, word) {
            *self = Machine::new();
            return true;
        }
        self.register = register;
        self.latest = Some(register);
        false
    }

    /// Takes the header and all words of a type 1 write of one or more words to a register other than CMD at once.
    #[inline(always)]
    pub(crate) fn take_write_to_other(&mut self, register: u8)
        requires at_header { self.old.due ≡ 0 }
        requires register { register < reg_number_count }
        requires not_cmd { register ≡ number_of Cmd → ⊥ }
        ensures head { (count : ℕ) → 0 < count → count < type1_count_bound → AddsWords self.old (write_head_step register count ∷ []) (in_write register count) }
        ensures words { (ws : List ℕ) → AreWords ws → 0 < length ws → AddsWords (in_write register (length ws)) (payload_steps register ws) self.new }
    {
        self.register = register;
        self.latest = Some(register);
    }

    /// The number of the register whose payload words are due; it says nothing where none is due.
    pub(crate) fn register(&self) -> u8
        ensures value { result ≡ self.now.register }
        ensures most { result < reg_number_count }
    {
        self.register
    }
}
