//! A stream cut into runs (gaps, sync words, header words and payloads), in whatever pieces it comes (this project's
//! choice).
ghost use Rattle.std.specs.Prelude.{◌≡◌, ℕ, List, [], ◌++◌, ◌≤◌, ◌<◌, ◌+◌, ◌-◌, ◌*◌, ◌/◌, ◌^◌, ◌↔◌, IfNone, IfSome, IsTrue, take, length, if◌then◌else◌};
ghost use Rattle.x7_words.specs.Word.{bytes_of_word};
ghost use Rattle.x7_regs.specs.Register.{number_of};
ghost use Rattle.x7_regs.specs.declared.register.Reg.TheVariants.{Cmd};
ghost use Rattle.x7_packets.specs.AtOnce.{BeginsWrite, EndsGap, WritesShort, WritesOne};
ghost use Rattle.x7_packets.specs.Cutter.{between, calls_left, CompletesNone, CutterStandsFor, ComesNearer, EndsWithWord, IsBody, IsLent, IsNeed, IsOneWord, IsRun, MovesPast, run_bytes, SkipsAll, TakesAsOneRun};
ghost use Rattle.x7_packets.specs.Matching.{IsClear};
ghost use Rattle.x7_packets.specs.Nops.{IdlesThrough, nop_bytes};
ghost use Rattle.x7_packets.specs.PacketWords.{no_op};
ghost use Rattle.x7_packets.specs.Reading.{EndedSession, is_synced, Place, tail_of};
ghost use Rattle.x7_packets.specs.Mode.{Mode, mode_of};

mod copied;

use crate::fast::{PLACES_REACH, count_equal};
use crate::header::{Step, is_cmd};
use crate::machine::Machine;
use crate::packet_words::{NO_OP, register_in, type1_count_in, type1_write_header};
use crate::sync::{Matcher, near_sync};
use std::marker::Model;
use x7_words::word_of;

/// Where a cutter stands in a stream.
#[derive(Clone, Copy)]
pub(crate) enum Stage {
    /// In a gap.
    Searching,
    /// Just after a sync word that is still to be given.
    SyncFound,
    /// In a session.
    Synced,
}

/// What a call of a cutter gives: a run of a stream, or that more bytes are needed. A register stands by its number.
#[derive(Clone, Copy)]
pub enum Cut<'p> {
    /// The piece is used up; up to three bytes of a word may be kept.
    Need,
    /// One or more bytes taken while searching, the sync word's bytes included.
    Skip(&'p [u8]),
    /// The last four bytes taken while searching were the sync word.
    Sync,
    /// A word in a header's place, and its step.
    Head(u32, Step),
    /// A payload word whose bytes lie in two pieces or more, with its register.
    Word(u8, u32),
    /// Payload words of one packet that lie in the piece, with their register: a positive multiple of four bytes, four
    /// for CMD.
    Body(u8, &'p [u8]),
}

/// Keeps bytes after the `count` that are kept already, and says how many are kept then, at most three.
fn keep(kept: &mut [u8; 3], count: usize, bytes: &[u8]) -> usize
    requires { count + length bytes.now ≤ 3 }
    ensures count { result ≡ count + length bytes.now }
    ensures kept { take result kept.new ≡ take count kept.old ++ bytes.now }
{
    kept[count..count + bytes.len()].copy_from_slice(bytes);
    count + bytes.len()
}

/// The word of the `count` bytes that are kept and of those that are missing, four together.
fn completed_word(kept: &[u8; 3], count: usize, missing: &[u8]) -> u32
    requires whole { count + length missing.now ≡ 4 }
    requires within { count ≤ 3 }
    ensures { bytes_of_word result ≡ take count kept.now ++ missing.now }
{
    if let [first, second, third, fourth] = missing {
        return word_of([*first, *second, *third, *fourth]);
    }
    let mut bytes = [0; 4];
    bytes[..count].copy_from_slice(&kept[..count]);
    bytes[count..].copy_from_slice(missing);
    word_of(bytes)
}

/// How many words a short write has at most.
const MOST_SHORT_WORDS: u32 = 16;

/// How many bytes the longest short write has: four of its header, and four of each of its words. As many must be left
/// of a piece for a short write to be taken at once.
const LONGEST_SHORT_WRITE: usize = 4 + 4 * MOST_SHORT_WORDS as usize;

/// The register and the word of the type 1 write of one word that begins these bytes, its header's reserved bits 0;
/// `None` where no such write does, which no clause says.
#[inline(always)]
fn first_write(bytes: &[u8]) -> Option<(u8, u32)>
    ensures { IfSome result (λ write. BeginsWrite bytes.now write.0 write.1) }
{
    let Some((head, rest)) = bytes.split_first_chunk::<4>() else {
        return None;
    };
    let Some((word, _)) = rest.split_first_chunk::<4>() else {
        return None;
    };
    let head = word_of(*head);
    let register = register_in(head);
    if head != type1_write_header(register, 1) {
        return None;
    }
    Some((register, word_of(*word)))
}

/// Where a cutter stands after a word of a session, which ended it or not.
fn stage_after_word(ended: bool) -> Stage
    ensures { mode_of result ≡ (if ended then Mode.Searching else Mode.Synced) }
{
    if ended {
        Stage::Searching
    } else {
        Stage::Synced
    }
}

/// Cuts a stream, and lends what it can of the caller's pieces.
#[derive(Drop)]
pub struct Cutter {
    stage: Stage,
    matcher: Matcher,
    machine: Machine,
    /// The first `count` of these bytes are kept: they are of no whole word yet.
    kept: [u8; 3],
    count: usize,
}

impl Model for Cutter {
    ghost use Rattle.std.specs.Prelude.{◌≡◌, ◌≤◌, take};
    ghost use Rattle.x7_packets.specs.Cutter.{CutterState, KeepsNone};
    ghost use Rattle.x7_packets.specs.Mode.{mode_of};

    ghost Value = { CutterState };

    ghost view = { λ c. record { mode = mode_of c.stage; matcher = c.matcher; machine = c.machine; kept = take c.count c.kept } };

    ghost invariant = { λ c. (c.count ≤ 3) × (KeepsNone (mode_of c.stage) → c.count ≡ 0) };
}

impl Cutter {
    /// A cutter that has taken no byte.
    pub fn new() -> Cutter
        ensures { CutterStandsFor result [] [] (Place.Searching []) }
    {
        Cutter {
            stage: Stage::Searching,
            matcher: Matcher::new(),
            machine: Machine::new(),
            kept: [0; 3],
            count: 0,
        }
    }

    /// The bytes of no whole word that the cutter keeps: at most three, and none while searching.
    pub fn kept(&self) -> &[u8]
        ensures kept { result.now ≡ self.now.kept }
        ensures most { length result.now ≤ 3 }
        ensures tail { (bytes : List ℕ) (sessions : List EndedSession) (place : Place) → CutterStandsFor self.now bytes sessions place
            → result.now ≡ tail_of place }
    {
        &self.kept[..self.count]
    }

    /// Whether the bytes taken end in a session. A session begins just after its sync word, before the sync word is
    /// given.
    pub fn is_synced(&self) -> bool
        ensures synced { (bytes : List ℕ) (sessions : List EndedSession) (place : Place) → CutterStandsFor self.now bytes sessions place
            → result ≡ is_synced place }
    {
        match self.stage {
            Stage::Searching => false,
            Stage::SyncFound | Stage::Synced => true,
        }
    }

    /// How many of the words that come next in a session are the no-op 20000000, one after the other; more no-ops may
    /// follow these. To take each of them, as a word in a header's place, leaves the cutter as it is, and no access is
    /// entered.
    #[inline(always)]
    pub fn nop_count(&self, rest: &[u8]) -> usize
        ensures within { 4 * result ≤ length rest.now }
        ensures nops { take (4 * result) rest.now ≡ nop_bytes result }
        ensures takes_no_op { 0 < result → TakesAsOneRun self.now self.now (bytes_of_word no_op) (Cut.Head no_op Step.Nop) }
        ensures idles { (bytes : List ℕ) (sessions : List EndedSession) (place : Place) → CutterStandsFor self.now bytes sessions place
            → IdlesThrough self.now (bytes ++ take (4 * result) rest.now) sessions place }
    {
        if !self.is_at_header() {
            return 0;
        }
        count_equal(rest, NO_OP)
    }

    /// Takes the packet that comes next, where it lies whole in `rest` and is a type 1 write of one word, its header's
    /// reserved bits 0. Gives its register and its word, or `None`, which leaves the cutter as it is.
    #[inline(always)]
    pub fn take_write(&mut self, rest: &[u8]) -> Option<(u8, u32)>
        ensures writes { IfSome result (λ write. WritesOne self.old self.new rest.now write.0 write.1) }
        ensures unchanged { IfNone result (self.new ≡ self.old) }
    {
        if !self.is_at_header() {
            return None;
        }
        let Some((register, w)) = first_write(rest) else {
            return None;
        };
        if !is_cmd(register) {
            self.machine.take_write_to_other(register);
            return Some((register, w));
        }
        self.stage = stage_after_word(self.machine.take_write_of_one(register, w));
        self.matcher = Matcher::new();
        Some((register, w))
    }

    /// Takes the packet that comes next, where the cutter is at a header and the packet is a type 1 write of one to
    /// sixteen words to a register other than CMD, its header's reserved bits 0. `rest` must have at least 68 bytes,
    /// those of a header and sixteen words. Gives the packet's register and how many words it has, or `None`, which
    /// leaves the cutter as it is.
    #[inline(always)]
    pub fn take_short_write(&mut self, rest: &[u8]) -> Option<(u8, usize)>
        ensures writes { IfSome result (λ write. WritesShort self.old self.new rest.now write.0 write.1) }
        ensures unchanged { IfNone result (self.new ≡ self.old) }
    {
        if !self.is_at_header() {
            return None;
        }
        if rest.len() < LONGEST_SHORT_WRITE {
            return None;
        }
        let head = word_of([rest[0], rest[1], rest[2], rest[3]]);
        let register = register_in(head);
        let count = type1_count_in(head);
        if head != type1_write_header(register, count) {
            return None;
        }
        if is_cmd(register) {
            return None;
        }
        if count == 0 || count > MOST_SHORT_WORDS {
            return None;
        }
        self.machine.take_write_to_other(register);
        Some((register, count as usize))
    }

    /// Takes what is left of a gap and the sync word after it, where the sync word stands whole in the first 32 bytes
    /// of `rest`, and `rest` has at least 35 bytes. The gap's last three bytes taken, each that isn't there counted as
    /// 0, must be 0. Answers how many of the bytes are the gap's. `None` leaves the cutter as it is; a sync word may
    /// stand there still.
    #[inline(always)]
    pub fn take_gap(&mut self, rest: &[u8]) -> Option<usize>
        ensures ends_gap { IfSome result (λ count. EndsGap self.old self.new rest.now count) }
        ensures unchanged { IfNone result (self.new ≡ self.old) }
    {
        if !self.is_in_clear_gap() {
            return None;
        }
        if rest.len() < PLACES_REACH {
            return None;
        }
        let Some(count) = near_sync(rest) else {
            return None;
        };
        self.stage = Stage::Synced;
        Some(count)
    }

    /// True only where the next byte stands in a gap whose last three bytes taken, each that isn't there counted as 0,
    /// are 0: so a sync word that comes begins after them.
    #[inline(always)]
    fn is_in_clear_gap(&self) -> bool
        ensures mode { IsTrue result → self.now.mode ≡ Mode.Searching }
        ensures clear { IsTrue result → IsClear self.now.matcher }
    {
        let Stage::Searching = self.stage else {
            return false;
        };
        self.matcher.is_clear()
    }

    /// True only where the next byte begins a word in a header's place, and no sync word is still to be given.
    #[inline(always)]
    fn is_at_header(&self) -> bool
        ensures mode { IsTrue result → self.now.mode ≡ Mode.Synced }
        ensures kept { IsTrue result → self.now.kept ≡ [] }
        ensures no_word_due { IsTrue result → self.now.machine.due ≡ 0 }
    {
        let Stage::Synced = self.stage else {
            return false;
        };
        if self.count != 0 {
            return false;
        }
        self.machine.is_at_header()
    }

    /// The next run of the piece from place `at` on; `at` moves past the bytes taken.
    #[inline(always)]
    pub fn cut<'p>(&mut self, piece: &'p [u8], at: &mut usize) -> Cut<'p>
        requires { at.old ≤ length piece.now }
        ensures forward { at.old ≤ at.new }
        ensures within { at.new ≤ length piece.now }
        ensures nearer { ComesNearer result (length piece.now - at.new) (calls_left self.old (length piece.now - at.old))
            (calls_left self.new (length piece.now - at.new)) }
        ensures need { IsNeed result ↔ CompletesNone self.old (length piece.now - at.old) }
        ensures joined { self.old.kept ++ between piece.now at.old at.new ≡ run_bytes result ++ self.new.kept }
        ensures run { IsRun result }
        ensures lent { IsLent self.old (length piece.now - at.old) result }
        ensures skips { SkipsAll self.new (length piece.now - at.old) result }
        ensures adds { TakesAsOneRun self.old self.new (between piece.now at.old at.new) result }
    {
        let rest = &piece[*at..];
        match self.stage {
            Stage::Searching => self.skip(rest, at),
            Stage::SyncFound => {
                self.stage = Stage::Synced;
                Cut::Sync
            }
            Stage::Synced => self.take(rest, at),
        }
    }

    /// Takes bytes of a gap, up to and including the sync word, or all where none ends in them.
    #[inline(never)]
    fn skip<'p>(&mut self, rest: &'p [u8], at: &mut usize) -> Cut<'p>
        requires searching { self.old.mode ≡ Mode.Searching }
        requires in_range { at.old + length rest.now < 2 ^ 64 }
        ensures { MovesPast self.old self.new rest.now at.old at.new result }
    {
        if rest.is_empty() {
            return Cut::Need;
        }
        let count = match self.matcher.search(rest) {
            Some(count) => {
                self.stage = Stage::SyncFound;
                count
            }
            None => rest.len(),
        };
        *at += count;
        Cut::Skip(&rest[..count])
    }

    /// Takes what comes next of a session: payload words that lie in `rest`, one word, or bytes that complete none.
    #[inline(always)]
    fn take<'p>(&mut self, rest: &'p [u8], at: &mut usize) -> Cut<'p>
        requires synced { self.old.mode ≡ Mode.Synced }
        requires in_range { at.old + length rest.now < 2 ^ 64 }
        ensures { MovesPast self.old self.new rest.now at.old at.new result }
    {
        if self.count == 0 {
            let words = self.machine.payload_words(rest.len() / 4);
            if words > 0 {
                *at += 4 * words;
                return self.lend(&rest[..4 * words]);
            }
        }
        let missing = 4 - self.count;
        if rest.len() < missing {
            *at += rest.len();
            self.hold(rest);
            return Cut::Need;
        }
        *at += missing;
        self.take_word(&rest[..missing])
    }

    /// Keeps bytes that complete no word.
    #[inline(never)]
    fn hold(&mut self, rest: &[u8])
        requires synced { self.old.mode ≡ Mode.Synced }
        requires short { length self.old.kept + length rest.now < 4 }
        ensures appends { self.new ≡ record self.old { kept = self.old.kept ++ rest.now } }
        ensures adds { TakesAsOneRun self.old self.new rest.now Cut.Need }
    {
        self.count = keep(&mut self.kept, self.count, rest);
    }

    /// Takes one word, of the bytes that are kept and of those that are missing.
    #[inline(always)]
    fn take_word<'p>(&mut self, missing: &[u8]) -> Cut<'p>
        requires synced { self.old.mode ≡ Mode.Synced }
        requires whole { length self.old.kept + length missing.now ≡ 4 }
        ensures word { IsOneWord self.old.machine.due result }
        ensures ends { EndsWithWord self.new result }
        ensures joined { self.old.kept ++ missing.now ≡ run_bytes result }
        ensures adds { TakesAsOneRun self.old self.new missing.now result }
    {
        let w = completed_word(&self.kept, self.count, missing);
        let step = self.machine.take(w);
        self.count = 0;
        self.stage = stage_after_word(step.is_end());
        // for the gap that begins where this word ended the session; within a session nobody looks at it
        self.matcher = Matcher::new();
        match step {
            Step::Payload(register, _) => Cut::Word(register, w),
            step => Cut::Head(w, step),
        }
    }

    /// Lends payload words of one packet.
    #[inline(always)]
    fn lend<'p>(&mut self, body: &'p [u8]) -> Cut<'p>
        requires synced { self.old.mode ≡ Mode.Synced }
        requires none_kept { self.old.kept ≡ [] }
        requires whole { length body.now ≡ 4 * (length body.now / 4) }
        requires not_empty { 0 < length body.now }
        requires within_due { length body.now / 4 ≤ self.old.machine.due }
        requires one_word_of_cmd { self.old.machine.register ≡ number_of Cmd → length body.now ≡ 4 }
        ensures body { IsBody self.old.machine.register body.now result }
        ensures ends { EndsWithWord self.new result }
        ensures adds { TakesAsOneRun self.old self.new body.now result }
    {
        let register = self.machine.register();
        let ended = self.machine.take_payload(body);
        self.stage = stage_after_word(ended);
        self.matcher = Matcher::new();
        Cut::Body(register, body)
    }
}
