//! A slot of a flash's first sector (UG470, MultiBoot and fallback; the switch word is this project's choice).
ghost use Rattle.std.specs.Prelude.{◌≡◌};
ghost use Rattle.x7_packets.specs.FlashSlot.{flash_slot};

use crate::packet_words::{NO_OP, type1_write_header};
use x7_regs::{Command, Reg};
use x7_words::bytes_of;

/// How many bytes a slot of a flash has.
pub const FLASH_SLOT_SIZE: u64 = 32;

/// How many slots of a flash fill its first sector.
pub const FLASH_SLOT_COUNT: u64 = 2048;

/// The bytes of the slot with this switch word and this start address, the word of WBSTAR, each with its highest byte
/// first. Where the switch word is the sync word, a device goes to the start address by IPROG; one in fallback ignores
/// IPROG, and comes to the slot's DESYNC.
pub fn flash_slot(switch: [u8; 4], start: [u8; 4]) -> [u8; 32]
    ensures { result ≡ flash_slot switch start }
{
    let write_command = bytes_of(type1_write_header(Reg::Cmd.number(), 1));
    let words = [
        switch,
        bytes_of(NO_OP),
        bytes_of(type1_write_header(Reg::Wbstar.number(), 1)),
        start,
        write_command,
        bytes_of(Command::Iprog.code()),
        write_command,
        bytes_of(Command::Desync.code()),
    ];
    let mut slot = [0; 32];
    slot.copy_from_slice(words.as_flattened());
    slot
}
