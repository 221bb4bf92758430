//! What a stream is written of: words, packets and the running check.
ghost use Rattle.std.specs.Prelude.{◌≡◌, ◌+◌, ◌*◌, ◌≤◌, ◌++◌, length, ◌<◌, vec_capacity, OnOk, OnErr};
ghost use Rattle.std.specs.List.{flat_map};
ghost use Rattle.x7_planner.specs.Writer.{bytes_of_words, with_piece, Check};

use byteorder::{BigEndian, ByteOrder};
use x7_crc::PieceChecker;
use x7_packets::{BUS_WIDTH_DETECT, BUS_WIDTH_SYNC, DUMMY_WORD, NO_OP, SYNC_WORD, write_one};
use x7_regs::Reg;
use x7_words::NoMemory;

/// What each stream begins with: dummy words, the bus width pattern, the sync word and a no-op.
#[rattlefmt::skip]
pub(crate) const OPENING_WORDS: [u32; 10] = [
    DUMMY_WORD, DUMMY_WORD, DUMMY_WORD, DUMMY_WORD, BUS_WIDTH_SYNC, BUS_WIDTH_DETECT, DUMMY_WORD, DUMMY_WORD,
    SYNC_WORD, NO_OP,
];

/// How many no-ops a partial stream and a read stream end with.
pub(crate) const ENDING_NO_OPS: usize = 4;

/// Appends words, the highest byte of each first. After an error nothing was appended.
pub(crate) fn put_words(out: &mut Vec<u8>, words: &[u32]) -> Result<(), NoMemory>
    ensures appends { OnOk result (out.new.items ≡ out.old.items ++ bytes_of_words words.now) }
    ensures length { OnOk result (length out.new.items ≡ length out.old.items + 4 * length words.now) }
    ensures unchanged { OnErr result (out.new.items ≡ out.old.items) }
    ensures room { vec_capacity out.old ≤ vec_capacity out.new }
    ensures no_room { OnErr result (vec_capacity out.old < length out.old.items + 4 * length words.now) }
{
    let start = out.len();
    out.resize(start + 4 * words.len(), 0)?;
    BigEndian::write_u32_into(words, &mut out[start..]);
    Ok(())
}

/// Appends packets of two words each. After an error nothing was appended.
pub(crate) fn put_packets(out: &mut Vec<u8>, packets: &[[u32; 2]]) -> Result<(), NoMemory>
    ensures appends { OnOk result (out.new.items ≡ out.old.items ++ bytes_of_words (flat_map (λ packet. packet) packets.now)) }
    ensures length { OnOk result (length out.new.items ≡ length out.old.items + 8 * length packets.now) }
    ensures unchanged { OnErr result (out.new.items ≡ out.old.items) }
    ensures room { vec_capacity out.old ≤ vec_capacity out.new }
    ensures no_room { OnErr result (vec_capacity out.old < length out.old.items + 8 * length packets.now) }
{
    put_words(out, packets.as_flattened())
}

/// Appends a write to CRC of the running check of all bytes before it.
pub(crate) fn put_check(out: &mut Vec<u8>) -> Result<(), NoMemory>
    ensures { OnOk result (out.new.items ≡ with_piece out.old.items Check) }
{
    let mut checker = PieceChecker::new();
    checker.take(out);
    put_words(out, &write_one(Reg::Crc, checker.check()))
}
