//! Whether what selects and reads gave agrees with a map from names to bytes, which proofs alone know.
ghost use Rattle.std.specs.Prelude.{◌≡◌};
ghost use Rattle.x7_files.specs.Agreement.{no_select, with_fault, with_open, with_read, with_refusal};

use std::marker::{Brand, PhantomData};
use x7_ghost::{Ghost, GhostOf};

/// A map from names to bytes that proofs alone know, `None` for a name without any. Whoever makes inputs picks one; it
/// changes nothing of what they do.
pub trait World {
    ghost use Rattle.std.specs.Prelude.{ℕ, List, Option};

    ghost contents: { List ℕ → Option (List ℕ) };
}

/// The map for a program, in which nobody looks: no name has bytes.
impl World for Brand {
    ghost use Rattle.std.specs.Prelude.{None};

    ghost contents = { λ _. None };
}

/// Whether all that selects and reads gave agrees with a map, and what follows from that. Proofs alone speak of it, and
/// no value of it is made: `[u8; 0]` is a list of bytes of any length.
pub struct Agreement {
    /// Whether all that was given agrees with the map.
    pub agrees: bool,
    /// What the map has left of the open file; none where no file is open, or the map has no bytes for its name.
    pub left: Option<[u8; 0]>,
    /// The name last asked for.
    pub asked: Option<[u8; 0]>,
}

struct First;

impl GhostOf<(), Agreement> for First {
    ghost use Rattle.x7_files.specs.Agreement.{no_select};

    ghost value = { λ _. no_select };
}

struct Opened<W: World> {
    world: PhantomData<W>,
}

impl<'a, W: World> GhostOf<(&'a Ghost<Agreement>, &'a str), Agreement> for Opened<W> {
    ghost use Rattle.x7_files.specs.Agreement.{with_open};

    ghost value = { λ (old, name). with_open W.contents name.now old.now };
}

struct Refused;

impl<'a> GhostOf<(&'a Ghost<Agreement>, &'a str), Agreement> for Refused {
    ghost use Rattle.x7_files.specs.Agreement.{with_refusal};

    ghost value = { λ (old, name). with_refusal name.now old.now };
}

struct Gave;

impl<'a> GhostOf<(&'a Ghost<Agreement>, &'a [u8], usize), Agreement> for Gave {
    ghost use Rattle.x7_files.specs.Agreement.{with_read};

    ghost value = { λ (old, bytes, room). with_read bytes.now room old.now };
}

struct Broke;

impl<'a> GhostOf<&'a Ghost<Agreement>, Agreement> for Broke {
    ghost use Rattle.x7_files.specs.Agreement.{with_fault};

    ghost value = { λ old. with_fault old.now };
}

/// Nothing was asked for yet.
pub(crate) fn at_first() -> Ghost<Agreement>
    ensures { result ≡ no_select }
{
    Ghost::of::<(), First>(&())
}

/// The file of this name was opened.
pub(crate) fn after_open<W: World>(old: &Ghost<Agreement>, name: &str) -> Ghost<Agreement>
    ensures { result ≡ with_open W.contents name.now old.now }
{
    Ghost::of::<_, Opened<W>>(&(old, name))
}

/// The file of this name was not opened.
pub(crate) fn after_refusal(old: &Ghost<Agreement>, name: &str) -> Ghost<Agreement>
    ensures { result ≡ with_refusal name.now old.now }
{
    Ghost::of::<_, Refused>(&(old, name))
}

/// The open file gave these bytes to a buffer with this room.
pub(crate) fn after_read(old: &Ghost<Agreement>, bytes: &[u8], room: usize) -> Ghost<Agreement>
    ensures { result ≡ with_read bytes.now room old.now }
{
    Ghost::of::<_, Gave>(&(old, bytes, room))
}

/// A read failed.
pub(crate) fn after_fault(old: &Ghost<Agreement>) -> Ghost<Agreement>
    ensures { result ≡ with_fault old.now }
{
    Ghost::of::<_, Broke>(&old)
}
