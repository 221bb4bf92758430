//! A flash whose bytes aren't known, and that forgets what is programmed at a place or after it.
ghost use Rattle.std.specs.Prelude.{None};

use x7_ghost::FlashCalls;
use x7_words::{Failed, Flash, SelectFault};

/// The place, in bytes from 0, from which on nothing is programmed: that of the update.
const FORGETS_FROM: u64 = 131_072;

/// A flash whose bytes aren't known, and of which a program that begins at `FORGETS_FROM` or after it writes nothing,
/// though it answers as if it did.
#[derive(Drop)]
pub(crate) struct Forgetful<F: Flash> {
    pub(crate) flash: F,
    /// Its own calls with their answers.
    pub(crate) calls: FlashCalls,
}

impl<F: Flash> Flash for Forgetful<F> {
    ghost state = { λ f. record (F.state f.flash) { bytes = None; calls = f.calls } };

    ghost counted = { λ _. tt };

    fn attach(&mut self, name: &str) -> Result<(), SelectFault> {
        let answer = self.flash.attach(name);
        let size = match answer {
            Ok(()) => self.flash.size(),
            Err(_) => 0,
        };
        self.calls.attach(name, size, answer);
        answer
    }

    fn size(&self) -> u64 {
        self.flash.size()
    }

    fn read_at(&mut self, place: u64, buf: &mut [u8]) -> Result<(), Failed> {
        let answer = self.flash.read_at(place, buf);
        self.calls.read_at(place, buf, answer);
        answer
    }

    fn erase(&mut self, sector: u64) -> Result<(), Failed> {
        let answer = self.flash.erase(sector);
        self.calls.erase(sector, answer);
        answer
    }

    fn program(&mut self, place: u64, given: &[u8]) -> Result<(), Failed> {
        let written: &[u8] = if place >= FORGETS_FROM { &[] } else { given };
        let answer = self.flash.program(place, written);
        self.calls.program(place, given, answer);
        answer
    }
}
