//! Header words (UG470, packet types).
ghost use Rattle.std.specs.Prelude.{◌≡◌, ◌==◌};
ghost use Rattle.x7_regs.specs.Register.{number_of};
ghost use Rattle.x7_regs.specs.declared.register.Reg.TheVariants.{Cmd};
ghost use Rattle.x7_packets.specs.Packet.{ends_session, meaning};
ghost use Rattle.x7_packets.specs.Machine.{is_end};

use crate::packet_words::{
    DUMMY_WORD, NO_OP_KIND, SYNC_WORD, TYPE1_READ_KIND, TYPE1_WRITE_KIND, TYPE2_READ_KIND,
    TYPE2_WRITE_KIND, kind_in, packet_type_in, register_in, type1_count_in, type2_count_in,
};
use x7_regs::{Command, Reg, command_code_of};

/// What a word of a session is, by its place among the packets.
#[derive(Clone, Copy)]
pub enum Step {
    /// A word in a header's place without effect.
    Filler,
    /// A no-op packet.
    Nop,
    /// A write's header: the register's number, and how many payload words follow.
    Open(u8, u32),
    /// A payload word: the register's number, and the word.
    Payload(u8, u32),
    /// A read's header: the register's number, and how many words are read.
    Read(u8, u32),
    /// A word in a header's place that is no header.
    Bad(u32),
}

/// What a word in a header's place means, where the nearest type 1 read or write, if there was one, named the register
/// `latest`. The sync word, the dummy word and words of packet type 0 have no effect (this project's choice).
pub(crate) fn meaning(latest: Option<u8>, word: u32) -> Step
    ensures { result ≡ meaning latest word }
{
    if word == SYNC_WORD || word == DUMMY_WORD || packet_type_in(word) == 0 {
        return Step::Filler;
    }
    match kind_in(word) {
        NO_OP_KIND => Step::Nop,
        TYPE1_WRITE_KIND => Step::Open(register_in(word), type1_count_in(word)),
        TYPE1_READ_KIND => Step::Read(register_in(word), type1_count_in(word)),
        kind => match latest {
            None => Step::Bad(word),
            Some(register) => match kind {
                TYPE2_WRITE_KIND => Step::Open(register, type2_count_in(word)),
                TYPE2_READ_KIND => Step::Read(register, type2_count_in(word)),
                _ => Step::Bad(word),
            },
        },
    }
}

/// Whether the register with this number is CMD.
#[inline(always)]
pub(crate) fn is_cmd(register: u8) -> bool
    ensures { result ≡ (register == number_of Cmd) }
{
    register == Reg::Cmd.number()
}

/// Whether a word written to the register ends the session: DESYNC written to CMD, by its low five bits.
pub(crate) fn ends_session(register: u8, word: u32) -> bool
    ensures { result ≡ ends_session register word }
{
    is_cmd(register) && command_code_of(word) == Command::Desync.code()
}

impl Step {
    ghost use Rattle.x7_packets.specs.Machine.{is_end};

    /// Whether the step's word ends the session: a payload word of CMD whose low five bits are DESYNC's code.
    pub fn is_end(self) -> bool
        ensures { result ≡ is_end self }
    {
        match self {
            Step::Payload(register, w) => ends_session(register, w),
            _ => false,
        }
    }
}
