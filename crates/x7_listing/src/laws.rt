//! Laws of listings and of texts that are assembled. The functions do nothing: their contracts are the laws.
ghost use Rattle.std.specs.Prelude.{◌≡◌, ◌+◌, ◌*◌, ◌<◌, ◌^◌, ◌≤◌, ℕ, List, ◌++◌, length, true, Result, Ok};
ghost use Rattle.x7_words.specs.Word.{AreBytes};
ghost use Rattle.x7_text.specs.Lines.{has_no_end};
ghost use Rattle.x7_listing.specs.Assembly.{asm_limit, HasOutcome, IsAsm};
ghost use Rattle.x7_listing.specs.declared.assembler.AsmFault.{AsmFault};
ghost use Rattle.x7_listing.specs.Line.{FitsLine, IsLine, IsNeitherCommentNorCheck, Line, text_of, word_of_line};
ghost use Rattle.x7_listing.specs.HeadLine.{line_of_head};
ghost use Rattle.x7_listing.specs.BitLine.{bit_text, FitsHeader};
ghost use Rattle.x7_listing.specs.Listing.{IsListing, IsTextPrefix, listing_of};
ghost use Rattle.x7_listing.specs.StreamListing.{stream_listing};
ghost use Rattle.x7_header.specs.Header.{HeaderContents};
ghost use Rattle.x7_packets.specs.Mode.{Mode};
ghost use Rattle.x7_packets.specs.declared.header.Step.{Step};
ghost use Rattle.x7_listing.specs.Lister.{TakerStandsFor, ListerStandsFor, ListerState};

/// A list of bytes has at most one listing.
pub fn one_listing()
    ensures { (bytes text other : List ℕ) → IsListing bytes text → IsListing bytes other → text ≡ other }
{}

/// What a lister has listed, after the listings before, is a prefix of the listing of its bytes with any further ones.
pub fn listed_is_a_prefix()
    ensures { (l : ListerState) (given before bytes rest : List ℕ) → ListerStandsFor l given before bytes → AreBytes (bytes ++ rest)
        → IsTextPrefix (given ++ l.text) (before ++ listing_of (bytes ++ rest)) }
{}

/// The text that a lister has listed of the bytes that it took is at most four bytes shorter than these bytes.
pub fn few_bytes_are_held()
    ensures { (l : ListerState) (given before bytes : List ℕ) → ListerStandsFor l given before bytes
        → length before + length bytes ≤ length (given ++ l.text) + 4 }
{}

/// The text that a lister has listed of the bytes that it took is at most 64 bytes shorter than the listing of these
/// bytes.
pub fn little_text_is_held()
    ensures { (l : ListerState) (given before bytes : List ℕ) → ListerStandsFor l given before bytes
        → length before + length (listing_of bytes) ≤ length (given ++ l.text) + 64 }
{}

/// The text that a lister of runs has listed is at most four bytes shorter than the bytes of the runs.
pub fn few_bytes_of_runs_are_held()
    ensures { (l : ListerState) (given before bytes : List ℕ) (due : Mode) → TakerStandsFor l given before bytes due
        → length before + length bytes ≤ length (given ++ l.text) + 4 }
{}

/// A text is that of at most one line.
pub fn one_line()
    ensures { (text : List ℕ) (a b : Line) → IsLine text a → IsLine text b → a ≡ b }
{}

/// The line of a word in a header's place stands for just that word, its reserved bits included.
pub fn head_line_leads_back()
    ensures { (step : Step) (w : ℕ) → w < 2 ^ 32 → word_of_line (line_of_head step w) ≡ w }
{}

/// The text of a line of a listing holds no line end.
pub fn lines_hold_no_end()
    ensures { (line : Line) → FitsLine line → IsNeitherCommentNorCheck line → has_no_end (text_of line) ≡ true }
{}

/// The listing of a stream of at most 64 MiB assembles back to the stream, its header included.
pub fn listing_assembles_back()
    ensures { (bytes text : List ℕ) → AreBytes bytes → length bytes ≤ asm_limit → stream_listing bytes ≡ Ok text → IsAsm text (Ok bytes) }
{}

/// A listing has at most five bytes for each byte of its stream, and four more.
pub fn listing_is_short()
    ensures { (bytes text : List ℕ) → AreBytes bytes → stream_listing bytes ≡ Ok text → length text ≤ 5 * length bytes + 4 }
{}

/// The text of a header's line is that of no other header, and of no line of another kind.
pub fn header_line_is_its_own()
    ensures no_other_header { (x y : HeaderContents) → FitsHeader x → FitsHeader y → bit_text x ≡ bit_text y → x ≡ y }
    ensures no_line { (x : HeaderContents) (line : Line) → IsLine (bit_text x) line → ⊥ }
{}

/// A text assembles to at most one outcome.
pub fn one_outcome()
    ensures { (text : List ℕ) (a b : Result (List ℕ) AsmFault) → IsAsm text a → IsAsm text b → a ≡ b }
{}

/// A text assembles to something: the bytes of its header and lines, or its first fault.
pub fn every_text_is_assembled()
    ensures { (text : List ℕ) → HasOutcome text }
{}
