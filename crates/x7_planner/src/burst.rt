//! Frames whose addresses follow one another, which are written at once.
ghost use Rattle.std.specs.Prelude.{◌≡◌, ◌+◌, ◌-◌, ◌*◌, ◌<◌, ◌≤◌, false, length, All, Contains, OnOk};
ghost use Rattle.x7_part.specs.AddressOrder.{addresses_in};
ghost use Rattle.x7_part.specs.Limits.{most_frames};
ghost use Rattle.x7_planner.specs.Content.{planned_rows};
ghost use Rattle.x7_planner.specs.PartialStream.{IsBurstLength, follows, frames_words, bursts_words, section_words, Rows};
ghost use Rattle.x7_planner.specs.Writer.{with_piece, Words};

use crate::content::PlannedFrame;
use crate::full_stream::zeros;
use crate::writer::{put_packets, put_words};
use x7_packets::{command, frame_data_headers, write_one};
use x7_part::{Part, Slot};
use x7_regs::{Command, Reg};
use x7_words::NoMemory;

/// Whether `next` is the part's address after `far`, in the same row of the part.
fn follows(part: &Part, far: u32, next: u32) -> bool
    requires { Contains (addresses_in part.now) far }
    ensures { result ≡ follows part.now far next }
{
    let Slot::Frame(address) = part.slot_after(far, 1) else {
        return false;
    };
    address == next
}

/// How many frames the longest burst has with which these frames begin.
fn burst_length(part: &Part, frames: &[PlannedFrame]) -> usize
    requires at_least_one { 0 < length frames.now }
    requires addresses { All (λ row. Contains (addresses_in part.now) row.far) (planned_rows frames.now) }
    ensures { IsBurstLength part.now (planned_rows frames.now) result }
{
    for k in 1..frames.len() {
        if !follows(part, frames[k - 1].far, frames[k].far) {
            return k;
        }
    }
    frames.len()
}

/// Writes the words of frames.
fn put_frames(out: &mut Vec<u8>, frames: &[PlannedFrame]) -> Result<(), NoMemory>
    ensures { OnOk result (out.new.items ≡ with_piece out.old.items (Words (frames_words (planned_rows frames.now)))) }
{
    for frame in frames {
        put_words(out, frame.words)?;
    }
    Ok(())
}

/// Writes a section: WCFG, FAR, and as frame data the burst's frames and a pad frame.
fn put_burst(out: &mut Vec<u8>, part: &Part, burst: &[PlannedFrame]) -> Result<(), NoMemory>
    requires at_least_one { 0 < length burst.now }
    requires limit { length burst.now ≤ most_frames }
    ensures { OnOk result (out.new.items ≡ with_piece out.old.items (Words (section_words part.now (Rows (planned_rows burst.now))))) }
{
    let word_count = part.words() * (burst.len() as u32 + 1);
    put_packets(
        out,
        &[
            command(Command::Wcfg),
            write_one(Reg::Far, burst[0].far),
            frame_data_headers(word_count),
        ],
    )?;
    put_frames(out, burst)?;
    put_words(out, zeros(part.words()))
}

/// Writes the frames in order, cut into the longest bursts.
pub(crate) fn put_bursts(
    out: &mut Vec<u8>,
    part: &Part,
    frames: &[PlannedFrame],
) -> Result<(), NoMemory>
    requires addresses { All (λ row. Contains (addresses_in part.now) row.far) (planned_rows frames.now) }
    requires limit { length frames.now ≤ most_frames }
    ensures { OnOk result (out.new.items ≡ with_piece out.old.items (Words (bursts_words part.now (planned_rows frames.now)))) }
{
    let mut at = 0;
    while at < frames.len() {
        let count = burst_length(part, &frames[at..]);
        put_burst(out, part, &frames[at..at + count])?;
        at += count;
    }
    Ok(())
}
