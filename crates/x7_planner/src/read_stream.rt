//! The stream of a readback.
ghost use Rattle.std.specs.Prelude.{◌≡◌, ◌⊎◌, ◌<◌, ◌++◌, IfOk, IfErr, OnOk};
ghost use Rattle.x7_packets.specs.PacketWords.{type2_count_bound};
ghost use Rattle.x7_planner.specs.ReadStream.{read_stream, read_of_words};
ghost use Rattle.x7_planner.specs.Fault.{CanRead, IsReadFault};
ghost use Rattle.x7_planner.specs.declared.fault.PlanFault.{PlanFault};

use crate::fault::PlanFault;
use crate::writer::{ENDING_NO_OPS, OPENING_WORDS, put_packets, put_words};
use std::alloc::Global;
use x7_packets::{NO_OP, command, frame_read_headers, write_one};
use x7_part::Part;
use x7_regs::{Command, Reg};
use x7_words::NoMemory;

/// How many words a read stream has.
const READ_STREAM_WORDS: usize = 25;

/// Appends the stream that reads `word_count` words from an address on.
fn put_read(out: &mut Vec<u8>, far: u32, word_count: u32) -> Result<(), NoMemory>
    requires { word_count < type2_count_bound }
    ensures { OnOk result (out.new.items ≡ out.old.items ++ read_of_words far word_count) }
{
    put_words(out, &OPENING_WORDS)?;
    put_words(out, &command(Command::Rcrc))?;
    put_words(out, &[NO_OP])?;
    put_packets(
        out,
        &[
            command(Command::Rcfg),
            write_one(Reg::Far, far),
            frame_read_headers(word_count),
            command(Command::Desync),
        ],
    )?;
    put_words(out, &[NO_OP; ENDING_NO_OPS])
}

/// The stream that reads `word_count` words from an address on.
fn read_of(alloc: Global, far: u32, word_count: u32) -> Result<Vec<u8>, NoMemory>
    requires { word_count < type2_count_bound }
    ensures { IfOk result (λ bytes. bytes.items ≡ read_of_words far word_count) }
{
    let mut out = Vec::with_capacity(alloc, 4 * READ_STREAM_WORDS)?;
    put_read(&mut out, far, word_count)?;
    Ok(out)
}

/// The stream that reads back `slot_count` slots from an address on, after a frame of zeros. `Foreign` is the address
/// where the part lacks it, `Range` the count where it is 0 or more than the slots from there on. `NoMemory` comes only
/// where these slots can be read.
pub fn readback(alloc: Global, part: &Part, far: u32, slot_count: u32) -> Result<Vec<u8>, PlanFault>
    ensures stream { IfOk result (λ bytes. bytes.items ≡ read_stream part.now far slot_count) }
    ensures can_read { IfOk result (λ bytes. CanRead part.now far slot_count) }
    ensures fault { IfErr result (λ fault. (fault ≡ PlanFault.NoMemory) ⊎ IsReadFault part.now far slot_count fault) }
    ensures memory { IfErr result (λ fault. fault ≡ PlanFault.NoMemory → CanRead part.now far slot_count) }
{
    if !part.is_address(far) {
        return Err(PlanFault::Foreign(far));
    }
    if slot_count == 0 || u64::from(slot_count) > part.slots_from(far) {
        return Err(PlanFault::Range(slot_count));
    }
    // For the proof alone: the part is in range, and so the counts are.
    let _frames = part.frames();
    Ok(read_of(alloc, far, part.words() * (slot_count + 1))?)
}
