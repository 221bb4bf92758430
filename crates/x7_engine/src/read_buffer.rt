//! Words read out of a device.
ghost use Rattle.std.specs.Prelude.{◌≡◌, ◌≤◌, ◌<◌, ◌-◌, ◌∷◌, [], false, replicate, ◌==◌, IfOk, IsTrue, Some, None};
ghost use Rattle.x7_engine.specs.ReadBuffer.{HoldsWithinMost, IsFull, dropping, no_room, with_words};

use std::alloc::Global;
use std::marker::Model;
use std::slice;
use x7_words::NoMemory;

/// Where a buffer has its words.
#[derive(Drop)]
pub(crate) enum Room {
    /// Nowhere: the buffer drops each word.
    Nothing,
    /// Nowhere: the buffer has room for no word.
    Full,
    /// In place, for one word, which stands there or not yet.
    One(Option<u32>),
    /// In a vector, for as many words at most as the number says.
    Many(Vec<u32>, usize),
}

/// Takes the words that a device reads out: gathers them up to a number, or drops each (this project's choice).
#[derive(Drop)]
pub struct ReadBuf {
    room: Room,
}

impl Model for ReadBuf {
    ghost use Rattle.x7_engine.specs.ReadBuffer.{ReadBufState, most_in, words_in, HasRoomForMost};

    ghost Value = { ReadBufState };

    ghost view = { λ b. record { most = most_in b.room; words = words_in b.room } };

    ghost invariant = { λ b. HasRoomForMost b.room };
}

impl ReadBuf {
    /// A buffer that gathers up to `most` words, at least one, for which it makes room.
    pub fn new(alloc: Global, most: u32) -> Result<ReadBuf, NoMemory>
        requires { 0 < most }
        ensures { IfOk result (λ b. b ≡ record { most = Some most; words = [] }) }
    {
        match Vec::with_capacity(alloc, most as usize) {
            Ok(words) => Ok(ReadBuf {
                room: Room::Many(words, most as usize),
            }),
            Err(_) => Err(NoMemory),
        }
    }

    /// A buffer that drops each word, and is never full.
    pub fn dropping() -> ReadBuf
        ensures { result ≡ dropping }
    {
        ReadBuf {
            room: Room::Nothing,
        }
    }

    /// A buffer that has room for no word: a feed with it ends at the first word that is read out.
    pub fn without_room() -> ReadBuf
        ensures { result ≡ no_room }
    {
        ReadBuf { room: Room::Full }
    }

    /// A buffer that gathers one word, for which it takes no memory.
    pub fn one() -> ReadBuf
        ensures { result ≡ record { most = Some 1; words = [] } }
    {
        ReadBuf {
            room: Room::One(None),
        }
    }

    /// The words gathered since the buffer was made or cleared, the first one read out first; none where it drops each.
    pub fn words(&self) -> &[u32]
        ensures value { result.now ≡ self.now.words }
        ensures within_most { HoldsWithinMost self.now.most result.now }
    {
        match &self.room {
            Room::Nothing | Room::Full | Room::One(None) => &[],
            Room::One(Some(word)) => slice::from_ref(word),
            Room::Many(words, _) => words.as_slice(),
        }
    }

    /// Forgets the words gathered.
    pub fn clear(&mut self)
        ensures { self.new ≡ record self.old { words = [] } }
    {
        match &mut self.room {
            Room::Nothing | Room::Full => (),
            Room::One(place) => *place = None,
            Room::Many(words, _) => words.clear(),
        }
    }

    /// A buffer never holds more words than its most. The call is for proofs alone, and does nothing.
    pub(crate) fn holds_within_most(&self)
        ensures { HoldsWithinMost self.now.most self.now.words }
    {
        // the contract of `words` says it
        let _words = self.words();
    }

    /// Takes a word `count` times, as far as there is room. Says for how many of these times there was no room.
    pub(crate) fn push_times(&mut self, word: u32, count: u32) -> u32
        ensures within { result ≤ count }
        ensures words { self.new ≡ with_words self.old (replicate (count - result) word) }
        ensures full { 0 < result → IsFull self.new }
    {
        match &mut self.room {
            Room::Nothing => 0,
            Room::Full => count,
            Room::One(place) => {
                if place.is_some() || count == 0 {
                    return count;
                }
                *place = Some(word);
                count - 1
            }
            Room::Many(words, most) => {
                let fitting = (*most - words.len()).min(count as usize);
                match words.resize(words.len() + fitting, word) {
                    Ok(()) => (),
                    Err(_) => unreachable!(),
                }
                count - fitting as u32
            }
        }
    }

    /// Whether the buffer drops each word.
    pub(crate) fn drops(&self) -> bool
        ensures { IsTrue result → self.now.most ≡ None }
    {
        match &self.room {
            Room::Nothing => true,
            _ => false,
        }
    }

    /// Whether a word more has no room.
    pub(crate) fn is_full(&self) -> bool
        ensures yes { IsTrue result → IsFull self.now }
        ensures no { result ≡ false → IsFull self.now → ⊥ }
    {
        match &self.room {
            Room::Nothing => false,
            Room::Full => true,
            Room::One(place) => place.is_some(),
            Room::Many(words, most) => words.len() == *most,
        }
    }

    /// Takes a word, for which there is room.
    pub(crate) fn push(&mut self, word: u32)
        requires room { IsFull self.old → ⊥ }
        ensures { self.new ≡ with_words self.old (word ∷ []) }
    {
        match &mut self.room {
            Room::Nothing => (),
            Room::Full => unreachable!(),
            Room::One(place) => *place = Some(word),
            Room::Many(words, _) => match words.push(word) {
                Ok(()) => (),
                Err(_) => unreachable!(),
            },
        }
    }
}
