//! The stream of a whole configuration.
ghost use Rattle.std.specs.Prelude.{◌≡◌, ◌⊎◌, ◌+◌, ◌-◌, ◌*◌, ◌<◌, ◌≤◌, ◌++◌, ℕ, List, [], true, false, length, take, drop, replicate, slice_index, Contains, vec_capacity, IfOk, IfErr, OnOk, OnErr};
ghost use Rattle.x7_memory.specs.Plan.{AreAddressed};
ghost use Rattle.x7_part.specs.AddressOrder.{addresses_in};
ghost use Rattle.x7_part.specs.Limits.{most_frame_words, most_words};
ghost use Rattle.x7_part.specs.Part.{frame_words};
ghost use Rattle.x7_part.specs.Ranges.{IsPart};
ghost use Rattle.x7_part.specs.Slot.{slots_in};
ghost use Rattle.x7_planner.specs.FullStream.{frame_at_slot, full_opening, full_control_words, full_stream, most_slots, words_of_slots};
ghost use Rattle.x7_planner.specs.Fault.{IsFullFault};
ghost use Rattle.x7_planner.specs.Writer.{bytes_of_words};
ghost use Rattle.x7_planner.specs.FullStreamPieces.{AppendsWithin, HasGiven, AppendsNext, WritesPiece, most_frame_size, opening_size, piece_limit, puts_left, control_words_size};
ghost use Rattle.x7_planner.specs.declared.fault.PlanFault.{PlanFault};
ghost use Rattle.x7_planner.specs.declared.full_stream.NextPiece.{NextPiece};

use crate::address::first_foreign;
use crate::control_words::{COR0_WORD, CTL0_MASK_WORD, CTL0_WORD};
use crate::fault::PlanFault;
use crate::writer::{OPENING_WORDS, put_packets, put_words};
use std::alloc::Global;
use std::marker::Model;
use x7_crc::PieceChecker;
use x7_memory::Plan;
use x7_packets::{NO_OP, command, frame_data_headers, write_one};
use x7_part::{Part, Slot};
use x7_regs::{Command, Reg};
use x7_words::NoMemory;

/// How many words a full stream has beside its frame data.
const WORDS_BESIDE_FRAMES: usize = 55;

/// How many no-ops a full stream ends with.
const FULL_ENDING_NO_OPS: usize = 16;

/// How many slots a piece of the frame data has at most.
const PIECE_SLOTS: u64 = 160;

/// The most words that a frame may have.
const MOST_FRAME_WORDS: usize = x7_part::MOST_FRAME_WORDS as usize;

/// How many bytes a piece of a full stream has at most: four for each word of the frames in its slots.
pub const PIECE_LIMIT: usize = PIECE_SLOTS as usize * 4 * MOST_FRAME_WORDS;

/// A frame of zeros, of the most words that a frame may have.
static ZEROS: [u32; MOST_FRAME_WORDS] = [0; MOST_FRAME_WORDS];

/// The part's least address.
fn first_address(part: &Part) -> u32
    ensures first { result ≡ slice_index (addresses_in part.now) 0 }
    ensures address { Contains (addresses_in part.now) result }
    ensures part { IsPart part.now }
{
    // For the proof alone: a part has a frame.
    let _frames = part.frames();
    let Some(first) = part.address(0) else {
        unreachable!()
    };
    first
}

/// How many slots the part has, those of pads among them.
fn slot_count(part: &Part) -> u64
    ensures count { result ≡ length (slots_in part.now) }
    ensures most { result ≤ most_slots }
    ensures most_words { frame_words part.now * result ≤ most_words }
{
    part.slots_from(first_address(part))
}

/// Writes what stands between the opening words and the frame data: SHUTDOWN, RCRC, a no-op, the IDCODE, COR0, MASK and
/// CTL0, WCFG, the part's first address, and the headers of the frame data.
fn put_control_words(out: &mut Vec<u8>, part: &Part) -> Result<(), NoMemory>
    ensures appends { OnOk result (out.new.items ≡ out.old.items ++ bytes_of_words (full_control_words part.now)) }
    ensures within { AppendsWithin out.old out.new result control_words_size }
{
    let word_count = part.words() * slot_count(part) as u32;
    put_packets(out, &[command(Command::Shutdown), command(Command::Rcrc)])?;
    put_words(out, &[NO_OP])?;
    put_packets(
        out,
        &[
            write_one(Reg::Idcode, part.idcode()),
            write_one(Reg::Cor0, COR0_WORD),
            write_one(Reg::Mask, CTL0_MASK_WORD),
            write_one(Reg::Ctl0, CTL0_WORD),
            command(Command::Wcfg),
            write_one(Reg::Far, first_address(part)),
            frame_data_headers(word_count),
        ],
    )
}

/// Writes what stands before the frame data of a full stream.
fn put_opening(out: &mut Vec<u8>, part: &Part) -> Result<(), NoMemory>
    ensures appends { OnOk result (out.new.items ≡ out.old.items ++ bytes_of_words (full_opening part.now)) }
    ensures within { AppendsWithin out.old out.new result opening_size }
{
    put_words(out, &OPENING_WORDS)?;
    put_control_words(out, part)
}

/// The first `count` words.
fn first_words(words: &[u32], count: u32) -> &[u32]
    requires { count ≤ length words.now }
    ensures { result.now ≡ take count words.now }
{
    &words[..count as usize]
}

/// `count` words of zeros, at most as many as a frame may have.
pub(crate) fn zeros(count: u32) -> &'static [u32]
    requires { count ≤ most_frame_words }
    ensures words { result.now ≡ replicate count 0 }
    ensures length { length result.now ≡ count }
{
    first_words(&ZEROS, count)
}

/// What stands at a slot: the planned frame, and zeros at a pad and at an unplanned address.
fn frame_at<'p>(part: &Part, plan: &'p Plan, slot: Slot) -> &'p [u32]
    requires { plan.now.width ≡ frame_words part.now }
    ensures words { result.now ≡ frame_at_slot part.now plan.now slot }
    ensures most { length result.now ≤ most_frame_words }
{
    let width = part.words();
    let Slot::Frame(far) = slot else {
        return zeros(width);
    };
    match plan.get(far) {
        Some(words) => words,
        None => zeros(width),
    }
}

/// Writes the frames of the slots from number `from` up to the one before number `to`. Slots count from 0.
fn put_slots(
    out: &mut Vec<u8>,
    part: &Part,
    plan: &Plan,
    from: u64,
    to: u64,
) -> Result<(), NoMemory>
    requires width { plan.now.width ≡ frame_words part.now }
    requires order { from ≤ to }
    requires within { to ≤ length (slots_in part.now) }
    ensures appends { OnOk result (out.new.items ≡ out.old.items ++ bytes_of_words (words_of_slots part.now plan.now (drop from (take to (slots_in part.now))))) }
    ensures within { AppendsWithin out.old out.new result (most_frame_size * (to - from)) }
{
    let first = first_address(part);
    for n in from..to {
        put_words(out, frame_at(part, plan, part.slot_after(first, n)))?;
    }
    Ok(())
}

/// What a full stream writes next.
#[derive(Clone, Copy, Drop)]
pub enum NextPiece {
    /// What stands before the frame data.
    Opening,
    /// The frames from the slot of this number on, from 0, those of pads among them.
    Slot(u64),
    /// The check after the frame data.
    Check,
    /// LFRM, which ends the frame data, and START.
    Start,
    /// The check after the start of the device.
    LastCheck,
    /// DESYNC, which ends the session, and no-ops.
    Desync,
    /// Nothing: all is written.
    Nothing,
}

/// The full stream of a plan, which is written piece by piece, so that nobody has to hold it whole.
#[derive(Drop)]
pub struct FullStream<'p> {
    part: &'p Part,
    plan: &'p Plan,
    next_piece: NextPiece,
    /// The running check of what was written.
    checker: PieceChecker,
}

impl<'p> Model for FullStream<'p> {
    ghost use Rattle.x7_planner.specs.FullStreamPieces.{FullStreamState, IsFullStream};

    ghost Value = { FullStreamState };

    ghost view = { λ s. record { part = s.part.now; plan = s.plan.now; next_piece = s.next_piece; checker = s.checker } };

    ghost invariant = { λ s. IsFullStream record { part = s.part.now; plan = s.plan.now; next_piece = s.next_piece; checker = s.checker } };
}

impl<'p> FullStream<'p> {
    /// The full stream of a plan, of which nothing is written yet. The plan's frames must have as many words as the
    /// part's. The fault is `Foreign`, with the plan's first address that the part lacks.
    pub fn new(part: &'p Part, plan: &'p Plan) -> Result<FullStream<'p>, PlanFault>
        requires width { plan.now.width ≡ frame_words part.now }
        ensures stream { IfOk result (λ stream. HasGiven stream []) }
        ensures part { IfOk result (λ stream. stream.part ≡ part.now) }
        ensures plan { IfOk result (λ stream. stream.plan ≡ plan.now) }
        ensures addresses { IfOk result (λ stream. AreAddressed part.now plan.now.rows) }
        ensures fault { IfErr result (IsFullFault part.now plan.now) }
    {
        if let Some(far) = first_foreign(part, plan) {
            return Err(PlanFault::Foreign(far));
        }
        Ok(FullStream {
            part,
            plan,
            next_piece: NextPiece::Opening,
            checker: PieceChecker::new(),
        })
    }

    /// Appends the next piece, of 160 slots at most, and says whether there was one; after the last there is none for
    /// good. An error comes only where `out` has no room for `PIECE_LIMIT` bytes more; then nothing was appended, and
    /// the same piece is next.
    pub fn put_next(&mut self, out: &mut Vec<u8>) -> Result<bool, NoMemory>
        ensures more { (given : List ℕ) → HasGiven self.old given → IfOk result (λ more. more ≡ true → AppendsNext self.new given out.old.items out.new.items) }
        ensures fewer { IfOk result (λ more. more ≡ true → puts_left self.new < puts_left self.old) }
        ensures end { (given : List ℕ) → HasGiven self.old given → IfOk result (λ more. more ≡ false → given ≡ full_stream self.old.part self.old.plan) }
        ensures appends_nothing { IfOk result (λ more. more ≡ false → out.new.items ≡ out.old.items) }
        ensures stays_ended { IfOk result (λ more. more ≡ false → self.new ≡ self.old) }
        ensures most { length out.new.items ≤ length out.old.items + piece_limit }
        ensures part { self.new.part ≡ self.old.part }
        ensures plan { self.new.plan ≡ self.old.plan }
        ensures same_piece_next { OnErr result (self.new ≡ self.old) }
        ensures unchanged { OnErr result (out.new.items ≡ out.old.items) }
        ensures room { vec_capacity out.old ≤ vec_capacity out.new }
        ensures no_room { OnErr result (vec_capacity out.old < length out.old.items + piece_limit) }
    {
        if let NextPiece::Nothing = self.next_piece {
            return Ok(false);
        }
        let start = out.len();
        let Ok(next_piece) = self.append_piece(out) else {
            out.truncate(start);
            return Err(NoMemory);
        };
        self.checker.take(&out[start..]);
        self.next_piece = next_piece;
        Ok(true)
    }

    /// Appends what is next, and answers what comes after it.
    fn append_piece(&self, out: &mut Vec<u8>) -> Result<NextPiece, NoMemory>
        ensures writes { IfOk result (WritesPiece self.now out.old.items out.new.items) }
        ensures within { AppendsWithin out.old out.new result piece_limit }
    {
        match self.next_piece {
            NextPiece::Opening => {
                put_opening(out, self.part)?;
                Ok(NextPiece::Slot(0))
            }
            NextPiece::Slot(slot_number) => self.append_frames(out, slot_number),
            NextPiece::Check => {
                put_words(out, &write_one(Reg::Crc, self.checker.check()))?;
                Ok(NextPiece::Start)
            }
            NextPiece::Start => {
                put_packets(out, &[command(Command::Lfrm), command(Command::Start)])?;
                Ok(NextPiece::LastCheck)
            }
            NextPiece::LastCheck => {
                put_words(out, &write_one(Reg::Crc, self.checker.check()))?;
                Ok(NextPiece::Desync)
            }
            NextPiece::Desync => {
                put_words(out, &command(Command::Desync))?;
                put_words(out, &[NO_OP; FULL_ENDING_NO_OPS])?;
                Ok(NextPiece::Nothing)
            }
            NextPiece::Nothing => Ok(NextPiece::Nothing),
        }
    }

    /// Appends the frames of the slots from this number on, a piece of them, and answers what comes after them.
    fn append_frames(&self, out: &mut Vec<u8>, slot_number: u64) -> Result<NextPiece, NoMemory>
        requires { self.now.next_piece ≡ NextPiece.Slot slot_number }
        ensures writes { IfOk result (WritesPiece self.now out.old.items out.new.items) }
        ensures within { AppendsWithin out.old out.new result piece_limit }
    {
        let count = slot_count(self.part);
        let end = count.min(slot_number + PIECE_SLOTS);
        put_slots(out, self.part, self.plan, slot_number, end)?;
        if end == count {
            Ok(NextPiece::Check)
        } else {
            Ok(NextPiece::Slot(end))
        }
    }
}

/// The stream that writes the planned frames and zeros at all other addresses, and then starts the device. The plan's
/// frames must have as many words as the part's. `Foreign` is the plan's first address that the part lacks. `NoMemory`
/// comes only where there is such a stream.
pub fn full(alloc: Global, part: &Part, plan: &Plan) -> Result<Vec<u8>, PlanFault>
    requires width { plan.now.width ≡ frame_words part.now }
    ensures stream { IfOk result (λ bytes. bytes.items ≡ full_stream part.now plan.now) }
    ensures addresses { IfOk result (λ bytes. AreAddressed part.now plan.now.rows) }
    ensures fault { IfErr result (λ fault. (fault ≡ PlanFault.NoMemory) ⊎ IsFullFault part.now plan.now fault) }
    ensures memory { IfErr result (λ fault. fault ≡ PlanFault.NoMemory → AreAddressed part.now plan.now.rows) }
{
    let stream = FullStream::new(part, plan)?;
    let word_count = part.words() as usize * slot_count(part) as usize;
    let Ok(mut out) = Vec::with_capacity(alloc, 4 * (WORDS_BESIDE_FRAMES + word_count)) else {
        return Err(PlanFault::NoMemory);
    };
    put_all(stream, &mut out)?;
    Ok(out)
}

/// Appends the pieces that are left of a stream of which `out` has all those before.
fn put_all(stream: FullStream<'_>, out: &mut Vec<u8>) -> Result<(), NoMemory>
    requires given { HasGiven stream out.old.items }
    ensures { OnOk result (out.new.items ≡ full_stream stream.entry.part stream.entry.plan) }
{
    let mut stream = stream;
    while stream.put_next(out)? {}
    Ok(())
}
