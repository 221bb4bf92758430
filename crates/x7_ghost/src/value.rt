//! A value that proofs know and a program doesn't keep.
ghost use Rattle.std.specs.Prelude.{◌≡◌};

use logbook::{Gain, Offer, Plain, Rule, Seen, Start};
use std::marker::{Model, PhantomData};

/// How a ghost value is made of what a call sees.
pub trait GhostOf<X, E> {
    /// The value.
    ghost value: { X → E };
}

/// The rule of a book in which nothing is written, and what is gained by its updates: nothing.
pub struct Blank;

impl<E> Rule<E, u64> for Blank {
    ghost use Rattle.std.specs.Prelude.{[]};
    ghost use base.Fml.{ftrue};

    ghost holds = { λ cells log. Unit {0} };

    ghost first = { [] };

    ghost hinted = { λ n log. Unit {0} };

    ghost shows = { λ log. [] };

    ghost keeps = { λ names log. ftrue };

    ghost moves = { λ ask before after answer. Unit {0} };
}

impl<E> Gain<E, u64> for Blank {
    ghost use base.Fml.{ftrue};

    ghost after = { λ names about answer. ftrue };
}

/// An update that asks for the value that `M` makes, and has not run.
struct Asks<M> {
    marker: PhantomData<M>,
}

impl<X, E, M: GhostOf<X, E>> Plain<X, E, u64> for Asks<M> {
    ghost use Rattle.std.specs.Prelude.{None};

    ghost ask = { M.value };

    ghost state = { λ _. None };
}

/// A value that proofs know and a program doesn't keep. It has no bytes, and to make one takes no step.
#[derive(Drop)]
pub struct Ghost<E> {
    token: Offer<E, u64, Blank, Blank>,
}

impl<E> Model for Ghost<E> {
    ghost Value = { E };

    ghost view = { λ g. g.token.ask };
}

impl<E> Ghost<E> {
    /// The value that `M` makes of what is given.
    pub fn of<X, M: GhostOf<X, E>>(about: &X) -> Ghost<E>
        ensures { result ≡ M.value about.now }
    {
        let (seen, _, _) = Seen::<E, u64, Blank>::open(Start::alone(), 0, 0);
        Ghost {
            token: seen.plain::<Blank, X, Asks<M>>(about),
        }
    }
}
