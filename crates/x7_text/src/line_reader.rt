//! A text that comes in pieces, line by line.
ghost use Rattle.std.specs.Prelude.{◌≡◌, ◌<◌, ◌++◌, ◌∷◌, [], List, ℕ, length, IfErr};
ghost use Rattle.x7_text.specs.LineReader.{CompletesLine, GetsLine, GetsText, GivesOrFails, StandsFor, TakesEndedLine, TakesEndedLines, TakesTextPiece, WantsAt, WantsOnlyIn};
ghost use Rattle.x7_text.specs.Lines.{split};
ghost use Rattle.x7_words.specs.Input.{taken_bytes_limit};

use crate::lines::first_line;
use std::alloc::Global;
use std::marker::Model;

/// What takes the lines of a text in their order, up to the first one at fault. Lines count from 1, and are given
/// without their end.
pub trait TakesLines: Drop {
    /// Why a text is refused.
    type Fault: Drop;

    /// What a text gives.
    type Out: Drop;

    /// A taker that was the first of these two before any line has become the second, which took these lines.
    ghost took: { Self → Self → List (List ℕ) → Type 0 };

    /// A text of these lines, the last of which has no end, is refused for this fault. Want of memory says nothing of
    /// the text.
    ghost fails: { Self → Self.Fault → List (List ℕ) → Type 0 };

    /// A text of these lines, the last of which has no end, gives this.
    ghost gives: { Self → Self.Out → List (List ℕ) → Type 0 };

    /// The fault is want of memory. Where an impl says nothing, each fault counts as that.
    ghost is_want: { Self.Fault → Type 0 } = { λ _. Unit {0} };

    /// After these lines memory may be wanting at this line. Where an impl says nothing, it may be wanting at each.
    ghost wants: { Self → List (List ℕ) → List ℕ → Type 0 } = { λ _ _ _. Unit {0} };

    /// The fault where memory runs out.
    fn no_memory() -> Self::Fault
        ensures { (first : Self) (lines : List (List ℕ)) → fails first result lines };

    /// Takes line `line_number`, which has its end. After an error nothing more may be taken.
    fn take_line(&mut self, line_number: u64, line: &[u8]) -> Result<(), Self::Fault>
        ensures read { (first : Self) (lines : List (List ℕ)) → GetsLine (took first) self.old lines line_number
            → TakesEndedLine (took first) (fails first) lines line.now result self.new }
        ensures memory { (first : Self) (lines : List (List ℕ)) → GetsLine (took first) self.old lines line_number
            → IfErr result (λ fault. is_want fault → wants first lines line.now) };

    /// Takes the lines of a text that have their end, after `line_count` lines; these and the bytes of the text are to
    /// be fewer than 2^63 together. Answers what is left of the text, and how many lines were taken in all. After an
    /// error nothing more may be taken.
    fn take_lines<'t>(
        &mut self,
        line_count: u64,
        text: &'t [u8],
    ) -> Result<(&'t [u8], u64), Self::Fault>
        ensures read { (first : Self) (lines : List (List ℕ)) → GetsText (took first) self.old lines line_count text.now
            → TakesEndedLines (took first) (fails first) lines text.now result self.new }
        ensures memory { (first : Self) (lines : List (List ℕ)) → GetsText (took first) self.old lines line_count text.now
            → IfErr result (λ fault. is_want fault → WantsAt (wants first) lines text.now) }
    {
        let mut rest = text;
        let mut count = line_count;
        loop {
            let (line, more) = first_line(rest);
            let Some(after) = more else {
                return Ok((line, count));
            };
            count = count.saturating_add(1);
            self.take_line(count, line)?;
            rest = after;
        }
    }

    /// Takes line `line_number`, the last one, which has no end: what the text gives.
    fn take_last(self, line_number: u64, line: &[u8]) -> Result<Self::Out, Self::Fault>
        ensures read { (first : Self) (lines : List (List ℕ)) → GetsLine (took first) self lines line_number
            → GivesOrFails (gives first) (fails first) (lines ++ line.now ∷ []) result }
        ensures memory { (first : Self) (lines : List (List ℕ)) → GetsLine (took first) self lines line_number
            → IfErr result (λ fault. is_want fault → wants first lines line.now) };
}

/// What a text that is there whole gives, by a taker of no line yet, or its fault. No line is copied: memory is wanting
/// only at a line, where `wants` says so.
pub fn read_lines<T: TakesLines>(taker: T, text: &[u8]) -> Result<T::Out, T::Fault>
    ensures read { T.took taker taker [] → GivesOrFails (T.gives taker) (T.fails taker) (split text.now) result }
    ensures memory { T.took taker taker [] → IfErr result (λ fault. T.is_want fault → WantsAt (T.wants taker) [] text.now) }
{
    let mut last = taker;
    let (line, count) = last.take_lines(0, text)?;
    last.take_last(count.saturating_add(1), line)
}

/// Reads a text that comes in pieces, line by line.
pub struct LineReader<T> {
    /// What takes the lines.
    taker: T,
    /// The beginning of the line that comes.
    held: Vec<u8>,
    /// How many lines were taken.
    count: u64,
}

impl<T: Drop> Drop for LineReader<T> {
    fn drop(self) {
        let LineReader {
            taker: _,
            held: _,
            count: _,
        } = self;
    }
}

impl<T> Model for LineReader<T> {
    ghost use Rattle.x7_text.specs.LineReader.{ReaderState};

    ghost Value = { ReaderState T };

    ghost view = { λ r. record { taker = r.taker; held = r.held.items; count = r.count } };
}

impl<T: TakesLines> LineReader<T> {
    /// A reader that was given no text yet.
    pub fn new(alloc: Global, taker: T) -> LineReader<T>
        ensures { (first : T) → T.took first taker [] → StandsFor (T.took first) result [] }
    {
        LineReader {
            taker,
            held: Vec::new(alloc),
            count: 0,
        }
    }

    /// Takes the line whose beginning is held, if a piece completes it, and answers the text after it. Else the piece
    /// is held too, and the answer is `None`.
    fn complete<'t>(&mut self, piece: &'t [u8]) -> Result<Option<&'t [u8]>, T::Fault>
        ensures { (first : T) → CompletesLine (T.took first) (T.fails first) (λ rest. rest.now) self.old piece.now result self.new }
    {
        let (line, more) = first_line(piece);
        let Ok(()) = self.held.extend_from_slice(line) else {
            return Err(T::no_memory());
        };
        let Some(rest) = more else {
            return Ok(None);
        };
        self.count = self.count.saturating_add(1);
        self.taker.take_line(self.count, &self.held)?;
        self.held.clear();
        Ok(Some(rest))
    }

    /// Takes the next piece of a text, where no beginning of a line is held.
    fn take_at_line_start(&mut self, piece: &[u8]) -> Result<(), T::Fault>
        ensures read { (first : T) → self.old.held ≡ [] → TakesTextPiece (T.took first) (T.fails first) self.old piece.now result (λ _. self.new) }
        ensures memory { (first : T) → WantsOnlyIn (T.took first) (T.wants first) T.is_want self.old piece.now result }
    {
        let (rest, count) = self.taker.take_lines(self.count, piece)?;
        self.count = count;
        if rest.is_empty() {
            return Ok(());
        }
        let Ok(()) = self.held.extend_from_slice(rest) else {
            return Err(T::no_memory());
        };
        Ok(())
    }

    /// Takes the next piece of a text.
    fn take(&mut self, piece: &[u8]) -> Result<(), T::Fault>
        ensures read { (first : T) → TakesTextPiece (T.took first) (T.fails first) self.old piece.now result (λ _. self.new) }
        ensures memory { (first : T) → WantsOnlyIn (T.took first) (T.wants first) T.is_want self.old piece.now result }
    {
        if self.held.is_empty() {
            return self.take_at_line_start(piece);
        }
        match self.complete(piece)? {
            Some(rest) => self.take_at_line_start(rest),
            None => Ok(()),
        }
    }

    /// Takes the next piece of a text of fewer than 2^63 bytes; the piece may end inside a line. A fault is that of the
    /// whole text, whatever follows. Where no beginning of a line is held, memory is wanting only at one of the piece's
    /// lines, or to hold the beginning of the line in which the piece ends.
    pub fn feed(self, piece: &[u8]) -> Result<LineReader<T>, T::Fault>
        ensures read { (first : T) → TakesTextPiece (T.took first) (T.fails first) self piece.now result (λ reader. reader) }
        ensures memory { (first : T) → WantsOnlyIn (T.took first) (T.wants first) T.is_want self piece.now result }
    {
        let mut reader = self;
        reader.take(piece)?;
        Ok(reader)
    }

    /// Ends a text of fewer than 2^63 bytes: what it gives, or its fault. Memory is wanting only at its last line.
    pub fn finish(self) -> Result<T::Out, T::Fault>
        ensures read { (first : T) (text : List ℕ) → length text < taken_bytes_limit → StandsFor (T.took first) self text
            → GivesOrFails (T.gives first) (T.fails first) (split text) result }
        ensures memory { (first : T) (text : List ℕ) → length text < taken_bytes_limit → (s : StandsFor (T.took first) self text)
            → IfErr result (λ fault. T.is_want fault → T.wants first s.lines self.held) }
    {
        let LineReader { taker, held, count } = self;
        taker.take_last(count.saturating_add(1), &held)
    }
}
