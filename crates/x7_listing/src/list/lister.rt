//! A lister of streams that come in pieces.
ghost use Rattle.std.specs.Prelude.{◌≡◌, ℕ, ◌+◌, ◌*◌, List, [], ◌++◌, OnOk, OnErr, length};
ghost use Rattle.x7_packets.specs.Mode.{Mode};
ghost use Rattle.x7_text.specs.Appends.{HasSpareRoom};
ghost use Rattle.x7_listing.specs.Lister.{TakerStandsFor, HasFinished, ListerStandsFor};
ghost use Rattle.x7_listing.specs.Pens.{ListsMoreAndRests, lister_with};

mod runs;

use super::fast::{SHEET_SIZE, take_short};
use super::pen::{CALL_ROOM, Pen, new_pen, put_end, put_run};
use std::alloc::Global;
use std::marker::Model;
use x7_packets::{Cut, Cutter};
use x7_words::NoMemory;

/// How many bytes of room a byte of a piece asks for: those of a call of the pen that takes it, 3 of its own text, and
/// those of a call for the sync word that it may end.
pub(crate) const BYTE_ROOM: usize = 2 * CALL_ROOM + 3;

/// How many bytes of room `feed` asks for besides those for the bytes of the piece and for those that the cutter keeps:
/// those of a call for a sync word that is due, and those of one call that are left over.
const SPARE_ROOM: usize = 2 * CALL_ROOM;

/// Takes a whole piece, appends the lines of its runs, and gives the pen after it.
fn take_piece(text: &mut Vec<u8>, cutter: &mut Cutter, pen: Pen, piece: &[u8]) -> Pen
    requires { HasSpareRoom text.old (BYTE_ROOM * length piece.now + (3 * length cutter.old.kept + SPARE_ROOM)) }
    ensures rests { ListsMoreAndRests (lister_with cutter.old pen text.old.items) (lister_with cutter.new result text.new.items) piece.now }
{
    let mut sheet = [0; SHEET_SIZE];
    let mut now = pen;
    let mut at = 0;
    loop {
        let rest = &piece[at..];
        if let Some(taken) = take_short(text, &mut sheet, cutter, now, rest) {
            now = Pen::Session(taken.in_line);
            at += taken.size;
            continue;
        }
        let mut after = at;
        let run = cutter.cut(piece, &mut after);
        at = after;
        if let Cut::Need = run {
            return now;
        }
        now = put_run(text, now, run);
    }
}

/// Lists a stream that comes in pieces (`feed`) or run by run (`take`), as text (this project's choice). The text may
/// be taken and cleared in between.
#[derive(Drop)]
pub struct Lister {
    cutter: Cutter,
    pen: Pen,
    text: Vec<u8>,
}

impl Model for Lister {
    ghost use Rattle.x7_listing.specs.Pens.{lister_with};
    ghost use Rattle.x7_listing.specs.Lister.{ListerState};

    ghost Value = { ListerState };

    ghost view = { λ l. lister_with l.cutter l.pen l.text.items };
}

impl Lister {
    /// A lister that has taken no byte. Its text grows by the allocator given.
    pub fn new(alloc: Global) -> Lister
        ensures cleared { result.text ≡ [] }
        ensures begins { ListerStandsFor result [] [] [] }
        ensures takes { TakerStandsFor result [] [] [] Mode.Searching }
    {
        Lister {
            cutter: Cutter::new(),
            pen: Pen::Gap(new_pen()),
            text: Vec::new(alloc),
        }
    }

    /// The text since it was last cleared. It may end inside a line.
    pub fn text(&self) -> &[u8]
        ensures { result.now ≡ self.now.text }
    {
        &self.text
    }

    /// Clears the text, which from then on counts as given.
    pub fn clear_text(&mut self)
        ensures cleared { self.new.text ≡ [] }
        ensures given { (given before bytes : List ℕ) → ListerStandsFor self.old given before bytes
            → ListerStandsFor self.new (given ++ self.old.text) before bytes }
        ensures taken { (given before bytes : List ℕ) (due : Mode) → TakerStandsFor self.old given before bytes due
            → TakerStandsFor self.new (given ++ self.old.text) before bytes due }
    {
        self.text.clear();
    }

    /// Takes the next bytes of a stream, a piece of any length, and appends what they add to the text. `NoMemory`
    /// changes nothing.
    pub fn feed(&mut self, piece: &[u8]) -> Result<(), NoMemory>
        ensures stands { OnOk result ((given before bytes : List ℕ) → ListerStandsFor self.old given before bytes
            → ListerStandsFor self.new given before (bytes ++ piece.now)) }
        ensures unchanged { OnErr result (self.new ≡ self.old) }
    {
        // A product or a sum that is cut off is more than memory ever has: `reserve` refuses it.
        let room = piece.len().saturating_mul(BYTE_ROOM);
        let spare_room = 3 * self.cutter.kept().len() + SPARE_ROOM;
        self.text.reserve(room.saturating_add(spare_room))?;
        self.pen = take_piece(&mut self.text, &mut self.cutter, self.pen, piece);
        Ok(())
    }

    /// Ends the listing of the bytes that were fed, and begins a new one. `NoMemory` changes nothing.
    pub fn finish(&mut self) -> Result<(), NoMemory>
        ensures finished { OnOk result ((given before bytes : List ℕ) → ListerStandsFor self.old given before bytes → HasFinished self.new given before bytes) }
        ensures unchanged { OnErr result (self.new ≡ self.old) }
    {
        self.text.reserve(CALL_ROOM)?;
        put_end(&mut self.text, self.pen, self.cutter.kept());
        self.cutter = Cutter::new();
        self.pen = Pen::Gap(new_pen());
        Ok(())
    }
}
