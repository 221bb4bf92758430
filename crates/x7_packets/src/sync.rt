//! The search for the sync word at any byte place (UG470, sync word).
ghost use Rattle.std.specs.Prelude.{◌≡◌, ℕ, List, [], ◌∷◌, ◌++◌, ◌<◌, ◌≤◌, ◌+◌, ◌↔◌, length, IsTrue, IfSome, if◌then◌else◌};
ghost use Rattle.x7_packets.specs.AtOnce.{longest_gap_and_sync};
ghost use Rattle.x7_packets.specs.SyncWord.{EndsWithSync, HasNoSync, sync_bytes};
ghost use Rattle.x7_packets.specs.Matching.{IsClear, IsFirstSync, IsSearchOutcome, MatcherStandsFor, places_reach};

use crate::fast::{PLACES_REACH, first_of_places, first_sync};
use std::marker::Model;

/// How many bytes the sync word has.
const SYNC_SIZE: usize = 4;

/// How many bytes of a sync word that began before a piece stand in the piece, at most.
const SYNC_REST: usize = 3;

/// How many bytes a short gap and the sync word after it have at most.
const LONGEST_GAP_AND_SYNC: usize = 32;

/// Whether four bytes are the sync word.
#[inline(always)]
fn is_sync(bytes: [u8; 4]) -> bool
    ensures { IsTrue result ↔ (bytes ≡ sync_bytes) }
{
    bytes[0] == 0xAA && bytes[1] == 0x99 && bytes[2] == 0x55 && bytes[3] == 0x66
}

/// Where the sync word first stands, whole among the first 32 bytes, if it is seen there. `None` says nothing: a sync
/// word may stand there still.
#[inline(always)]
pub(crate) fn near_sync(bytes: &[u8]) -> Option<usize>
    requires { places_reach ≤ length bytes.now }
    ensures first { IfSome result (λ at. IsFirstSync bytes.now at) }
    ensures most { IfSome result (λ at. at + 4 ≤ longest_gap_and_sync) }
{
    match first_of_places(bytes, 0) {
        Some(at) if at + SYNC_SIZE <= LONGEST_GAP_AND_SYNC => Some(at),
        _ => None,
    }
}

/// A search for the sync word, byte by byte: the last three bytes taken, 0 for each that isn't there.
#[derive(Clone, Copy)]
pub struct Matcher {
    first: u8,
    second: u8,
    third: u8,
}

impl Model for Matcher {
    ghost use Rattle.x7_packets.specs.Matching.{LastThree};

    ghost Value = { LastThree };

    ghost view = { λ m. record { first = m.first; second = m.second; third = m.third } };

    ghost inverse = { λ v. record { first = v.first; second = v.second; third = v.third } };
}

impl Matcher {
    /// A matcher that has taken no byte.
    pub fn new() -> Matcher
        ensures { MatcherStandsFor result [] }
    {
        Matcher {
            first: 0,
            second: 0,
            third: 0,
        }
    }

    /// True only where the last three bytes are 0, as those of a new matcher: so a sync word that comes begins after
    /// them.
    #[inline(always)]
    pub(crate) fn is_clear(&self) -> bool
        ensures { IsTrue result → IsClear self.now }
    {
        if self.first != 0 {
            return false;
        }
        if self.second != 0 {
            return false;
        }
        self.third == 0
    }

    /// Takes a byte, and says whether the bytes since `new` or since the last true end with the sync word.
    pub fn feed(&mut self, byte: u8) -> bool
        ensures found { (bytes : List ℕ) → MatcherStandsFor self.old bytes → IsTrue result ↔ EndsWithSync (bytes ++ byte ∷ []) }
        ensures stands { (bytes : List ℕ) → MatcherStandsFor self.old bytes → MatcherStandsFor self.new (if result then [] else bytes ++ byte ∷ []) }
    {
        let found = is_sync([self.first, self.second, self.third, byte]);
        *self = if found {
            Matcher::new()
        } else {
            Matcher {
                first: self.second,
                second: self.third,
                third: byte,
            }
        };
        found
    }

    /// How many bytes there are up to and with the first sync word's last byte; the matcher is then of no use until it
    /// is made anew. `None` where no sync word ends in the bytes, and the matcher took them all.
    pub(crate) fn search(&mut self, bytes: &[u8]) -> Option<usize>
        ensures within { IfSome result (λ n. (0 < n) × (n ≤ length bytes.now)) }
        ensures found { (gap : List ℕ) → MatcherStandsFor self.old gap → HasNoSync gap → IsSearchOutcome gap bytes.now result self.new }
    {
        if bytes.len() < PLACES_REACH {
            return self.search_bytewise(bytes);
        }
        // A sync word that began before these bytes ends in the first three.
        let near = self.search_bytewise(&bytes[..SYNC_REST]);
        if near.is_some() {
            return near;
        }
        match first_sync(bytes) {
            Some(at) => Some(at + SYNC_SIZE),
            None => {
                *self = Matcher::after(bytes);
                None
            }
        }
    }

    /// Takes bytes, one by one, up to and including the first sync word's last byte, and says how many; or takes them
    /// all, and gives `None`, where no sync word ends in them.
    fn search_bytewise(&mut self, bytes: &[u8]) -> Option<usize>
        ensures within { IfSome result (λ n. (0 < n) × (n ≤ length bytes.now)) }
        ensures found { (gap : List ℕ) → MatcherStandsFor self.old gap → HasNoSync gap → IsSearchOutcome gap bytes.now result self.new }
    {
        for (i, byte) in bytes.iter().enumerate() {
            if self.feed(*byte) {
                return Some(i + 1);
            }
        }
        None
    }

    /// A matcher that took these bytes last, which are three at least.
    fn after(bytes: &[u8]) -> Matcher
        requires { 3 ≤ length bytes.now }
        ensures { (gap : List ℕ) → MatcherStandsFor result (gap ++ bytes.now) }
    {
        let end = bytes.len();
        Matcher {
            first: bytes[end - 3],
            second: bytes[end - 2],
            third: bytes[end - 1],
        }
    }
}
