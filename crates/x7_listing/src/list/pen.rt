//! Writing a listing run by run: what stands in the open line, and the bytes of a gap that may yet be a sync word.
ghost use Rattle.std.specs.Prelude.{◌≡◌, ℕ, ◌+◌, ◌*◌, ◌/◌, ◌<◌, ◌≤◌, List, [], ◌∷◌, ◌++◌, true, if◌then◌else◌, length, take};
ghost use Rattle.x7_words.specs.Word.{words_of_bytes};
ghost use Rattle.x7_packets.specs.Packet.{payload_steps};
ghost use Rattle.x7_packets.specs.Cutter.{IsNeed, IsRun, run_bytes};
ghost use Rattle.x7_regs.specs.Register.{number_of};
ghost use Rattle.x7_regs.specs.declared.register.Reg.TheVariants.{Cmd};
ghost use Rattle.x7_text.specs.Appends.{Appends, HasSpareRoom};
ghost use Rattle.x7_text.specs.Reads.{StaysWithin};
ghost use Rattle.x7_text.specs.Row.{rows_text_limit};
ghost use Rattle.x7_listing.specs.HeadLine.{head_line_limit};
ghost use Rattle.x7_listing.specs.Pens.{EndsWith, GapGoesOn, gap_written, held_by, is_in_session, in_line_of, written_with};
ghost use Rattle.x7_listing.specs.Lister.{in_line_after_words, open_words, WritesRun};

mod state;

use crate::line::{put_command, put_head, put_sync};
pub(crate) use state::{GapPen, OpenWords, Pen, TailBytes};
use x7_packets::Cut;
use x7_regs::Reg;
use x7_text::{put_bytes, put_close, put_word, put_words};
use x7_words::word_of;

/// How many bytes of room a call that lists a run asks for, besides three for each byte of the run.
pub(crate) const CALL_ROOM: usize = 64;

/// A pen at the start of a gap: no line is open, and no byte is held.
pub(crate) fn new_pen() -> GapPen
    ensures in_line { result.in_line ≡ 0 }
    ensures held { take result.count result.held ≡ [] }
{
    GapPen {
        in_line: 0,
        held: [0; 4],
        count: 0,
    }
}

/// A pen in a gap: the one given, or a new one after a session.
fn in_gap(pen: Pen) -> GapPen
    ensures in_line { result.in_line ≡ (if is_in_session pen then 0 else in_line_of pen) }
    ensures held { take result.count result.held ≡ (if is_in_session pen then [] else held_by pen) }
{
    match pen {
        Pen::Gap(gap) => gap,
        Pen::Session(_) => new_pen(),
        Pen::Tail(_, _) => new_pen(),
    }
}

/// How many words stand in a session's open line: none in a gap.
pub(crate) fn open_in(pen: Pen) -> OpenWords
    ensures { is_in_session pen ≡ true → result.count ≡ in_line_of pen }
{
    match pen {
        Pen::Gap(_) => OpenWords { count: 0 },
        Pen::Session(in_line) => in_line,
        Pen::Tail(in_line, _) => in_line,
    }
}

/// Takes a byte of a gap: where four are held, the first of them is listed.
fn hold(text: &mut Vec<u8>, pen: GapPen, byte: u8) -> GapPen
    requires room { HasSpareRoom text.old (rows_text_limit 1) }
    ensures room { StaysWithin text.old text.new (rows_text_limit 1) }
    ensures listed { GapGoesOn (gap_written pen text.old.items) (gap_written result text.new.items) (byte ∷ []) }
{
    if pen.count < 4 {
        let mut held = pen.held;
        held[pen.count] = byte;
        return GapPen {
            in_line: pen.in_line,
            held,
            count: pen.count + 1,
        };
    }
    let in_line = put_bytes(text, pen.in_line, &pen.held[..1]);
    GapPen {
        in_line,
        held: [pen.held[1], pen.held[2], pen.held[3], byte],
        count: 4,
    }
}

/// Takes fewer than four bytes of a gap, one by one.
fn hold_each(text: &mut Vec<u8>, pen: GapPen, bytes: &[u8]) -> GapPen
    requires short { length bytes.now < 4 }
    requires room { HasSpareRoom text.old CALL_ROOM }
    ensures room { StaysWithin text.old text.new CALL_ROOM }
    ensures listed { GapGoesOn (gap_written pen text.old.items) (gap_written result text.new.items) bytes.now }
{
    let mut now = pen;
    for byte in bytes {
        now = hold(text, now, *byte);
    }
    now
}

/// Takes bytes of a gap: all but the last four are listed.
fn hold_all(text: &mut Vec<u8>, pen: GapPen, bytes: &[u8]) -> GapPen
    requires room { HasSpareRoom text.old (CALL_ROOM + 3 * length bytes.now) }
    ensures room { StaysWithin text.old text.new (CALL_ROOM + 3 * length bytes.now) }
    ensures listed { GapGoesOn (gap_written pen text.old.items) (gap_written result text.new.items) bytes.now }
{
    if bytes.len() < 4 {
        return hold_each(text, pen, bytes);
    }
    let first = bytes.len() - 4;
    let after = put_bytes(text, pen.in_line, &pen.held[..pen.count]);
    let in_line = put_bytes(text, after, &bytes[..first]);
    GapPen {
        in_line,
        held: [
            bytes[first],
            bytes[first + 1],
            bytes[first + 2],
            bytes[first + 3],
        ],
        count: 4,
    }
}

/// Appends a payload word, where `in_line` words stand in the open line. Gives how many words stand in the open line
/// then.
fn put_payload(text: &mut Vec<u8>, in_line: OpenWords, register: u8, word: u32) -> OpenWords
    requires room { HasSpareRoom text.old (1 + head_line_limit) }
    ensures count { result.count ≡ in_line_after_words in_line.count (payload_steps register (word ∷ [])) }
    ensures appends { Appends text.old text.new (open_words in_line.count (payload_steps register (word ∷ []))) (1 + head_line_limit) }
{
    if register == Reg::Cmd.number() {
        put_command(text, in_line.count, word);
        return OpenWords { count: 0 };
    }
    OpenWords {
        count: put_word(text, in_line.count, word),
    }
}

/// Appends payload words of one packet, one where the register is CMD, after the `in_line` words of the open line.
/// Gives how many words stand in the open line then.
fn put_body(text: &mut Vec<u8>, in_line: OpenWords, register: u8, body: &[u8]) -> OpenWords
    requires whole { length body.now ≡ 4 * (length body.now / 4) }
    requires one { register ≡ number_of Cmd → length body.now ≡ 4 }
    requires room { HasSpareRoom text.old (CALL_ROOM + 3 * length body.now) }
    ensures count { result.count ≡ in_line_after_words in_line.count (payload_steps register (words_of_bytes body.now)) }
    ensures appends { Appends text.old text.new (open_words in_line.count (payload_steps register (words_of_bytes body.now)))
        (CALL_ROOM + 3 * length body.now) }
{
    if register == Reg::Cmd.number() {
        return put_payload(
            text,
            in_line,
            register,
            word_of([body[0], body[1], body[2], body[3]]),
        );
    }
    OpenWords {
        count: put_words(text, in_line.count, body),
    }
}

/// Appends what a run adds to the listing, and gives the pen after it. A call of its own, so that the loop of short
/// runs has the processor's registers for itself.
#[inline(never)]
pub(crate) fn put_run(text: &mut Vec<u8>, pen: Pen, run: Cut) -> Pen
    requires run { IsRun run }
    requires room { HasSpareRoom text.old (CALL_ROOM + 3 * length (run_bytes run)) }
    ensures room { StaysWithin text.old text.new (CALL_ROOM + 3 * length (run_bytes run.entry)) }
    ensures listed { (given : List ℕ) → WritesRun run.entry (written_with pen (given ++ text.old.items)) (written_with result (given ++ text.new.items)) }
    ensures none_held { (IsNeed run.entry → ⊥) → is_in_session result ≡ true → held_by result ≡ [] }
{
    match run {
        Cut::Need => pen,
        Cut::Skip(bytes) => Pen::Gap(hold_all(text, in_gap(pen), bytes)),
        Cut::Sync => {
            put_sync(text, in_gap(pen).in_line);
            Pen::Session(OpenWords { count: 0 })
        }
        Cut::Head(w, step) => {
            put_head(text, open_in(pen).count, step, w);
            Pen::Session(OpenWords { count: 0 })
        }
        Cut::Word(register, w) => Pen::Session(put_payload(text, open_in(pen), register, w)),
        Cut::Body(register, body) => Pen::Session(put_body(text, open_in(pen), register, body)),
    }
}

/// Appends what is left at the end of a stream: the bytes that a gap holds, or those of no whole word (`kept`), and the
/// end of the open line.
pub(crate) fn put_end(text: &mut Vec<u8>, pen: Pen, kept: &[u8])
    requires short { length kept.now ≤ 3 }
    requires room { HasSpareRoom text.old CALL_ROOM }
    ensures listed { EndsWith (written_with pen text.old.items) kept.now text.new.items }
{
    if let Pen::Gap(gap) = pen {
        let in_line = put_bytes(text, gap.in_line, &gap.held[..gap.count]);
        put_close(text, in_line);
        return;
    }
    put_close(text, open_in(pen).count);
    let in_line = put_bytes(text, 0, kept);
    put_close(text, in_line);
}
