//! The last words written to the registers.
ghost use Rattle.std.specs.Prelude.{◌≡◌, ◌<◌, ℕ, ◌∷◌, [], slice_index};
ghost use Rattle.x7_packets.specs.History.{entered_all, entry, History, Write};
ghost use Rattle.x7_packets.specs.Packet.{payload_steps};
ghost use Rattle.x7_words.specs.Word.{AreWholeWords, words_of_bytes};
ghost use Rattle.x7_regs.specs.Register.{number_of, reg_number_count};
ghost use Rattle.x7_engine.specs.Registers.{word_held};
ghost use Rattle.x7_engine.specs.declared.kept.Kept.{Kept as KeptData};

use crate::kept::Kept;
use x7_regs::Reg;
use x7_words::word_of;

/// The last word written to each register number; where none was, what the reset kept, or 0.
#[derive(Clone, Copy)]
pub(crate) struct LastWords {
    last: [u32; 32],
}

impl LastWords {
    ghost use Rattle.x7_engine.specs.Standing.{AreLastWords};

    /// Words that are all 0.
    fn zero() -> LastWords
        ensures { (register : ℕ) → register < reg_number_count → slice_index result.last register ≡ 0 }
    {
        LastWords { last: [0; 32] }
    }

    /// The last words of a device that took nothing, with what the reset kept.
    pub(crate) fn new(kept: &Kept) -> LastWords
        ensures { AreLastWords kept.now result.last [] }
    {
        let bspi = Reg::Bspi.number() as usize;
        let timer = Reg::Timer.number() as usize;
        let wbstar = Reg::Wbstar.number() as usize;
        let mut words = LastWords::zero();
        words.last[bspi] = kept.bspi;
        words.last[timer] = kept.timer;
        words.last[wbstar] = kept.wbstar;
        words
    }

    /// Stores a word written to the register of this number.
    pub(crate) fn write(&mut self, register: u8, word: u32)
        requires { register < reg_number_count }
        ensures { (kept : KeptData) (h : History) (place : ℕ) → AreLastWords kept self.old.last h
            → AreLastWords kept self.new.last (entry (Write register word) place ∷ h) }
    {
        self.last[register as usize] = word;
    }

    /// The last word written to a register; where none was, what the reset kept, or 0.
    pub(crate) fn held(&self, reg: Reg) -> u32
        ensures { (kept : KeptData) (h : History) → AreLastWords kept self.now.last h → result ≡ word_held kept (number_of reg) h }
    {
        self.last[reg.number() as usize]
    }

    /// Stores the last of the words written to the register of this number, if there is one. A word is four bytes, the
    /// highest first.
    pub(crate) fn pass_all(&mut self, register: u8, bytes: &[u8])
        requires register { register < reg_number_count }
        requires whole { AreWholeWords bytes.now }
        ensures { (kept : KeptData) (h : History) (n : ℕ) → AreLastWords kept self.old.last h
            → AreLastWords kept self.new.last (entered_all n (payload_steps register (words_of_bytes bytes.now)) h) }
    {
        let (words, _) = bytes.as_chunks::<4>();
        match words.last() {
            Some(word) => self.write(register, word_of(*word)),
            None => (),
        }
    }
}
