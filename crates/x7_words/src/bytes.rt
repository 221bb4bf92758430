//! Two texts compared byte by byte, and that bytes are below 256.
ghost use Rattle.std.specs.Prelude.{◌≡◌, ◌↔◌, IsTrue};
ghost use Rattle.x7_words.specs.Word.{AreBytes};

/// Whether two texts have the same bytes: `==`, with a contract that proofs cite in both directions.
#[inline(always)]
pub fn is_same(a: &[u8], b: &[u8]) -> bool
    ensures { IsTrue result ↔ (a.now ≡ b.now) }
{
    a == b
}

/// Each number of a slice of bytes is below 256. The call has no effect: it gives a proof this fact.
#[inline(always)]
pub fn are_bytes(bytes: &[u8])
    ensures { AreBytes bytes.now }
{}
