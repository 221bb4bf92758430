//! The queue between a tap and its device: bytes in, bits of the words read out.
ghost use Rattle.std.specs.Prelude.{◌≡◌, ◌≤◌, ◌<◌, ◌+◌, ◌-◌, ◌*◌, ◌/◌, ◌%◌, ◌^◌, ◌==◌, ◌&&◌, nat_lt, [], false, length, take};
ghost use Rattle.std.specs.List.{fold};
ghost use Rattle.x7_part.specs.Part.{PartData};
ghost use Rattle.x7_engine.specs.Standing.{CanBeGiven, NoWordDue};
ghost use Rattle.x7_jtag.specs.Port.{words_read_out};
ghost use Rattle.x7_jtag.specs.Queue.{Queue as QueueData, bit_shown, dropped, empty_queue, in_turn, most_bytes_held, offered, give_held as give_held_by, shifted_out, with_given, queue_with_room};
ghost use Rattle.x7_jtag.specs.Tap.{AreGivenAtMost, CanAllBeOffered, CanBeOffered, QueueBecomes, QueueHolds, QueueStandsFor, given_by, with_word_taken};

use arrayvec::ArrayVec;
use std::marker::Model;
use std::mem;
use x7_engine::{Device, Fed, ON_THE_BENCH, ReadBuf};

/// The most bytes that are held back.
const MOST_BYTES_HELD: usize = 64;

/// The bytes held back while a word waits, and the bits of the latest word that are still to go out.
#[derive(Drop)]
pub(crate) struct Queue {
    held: ArrayVec<u8, MOST_BYTES_HELD>,
    /// The latest word taken of the device.
    word: u32,
    /// How many bits of that word are still to go out.
    bits_left: u32,
}

impl Model for Queue {
    ghost use Rattle.std.specs.Prelude.{◌≤◌};
    ghost use Rattle.x7_jtag.specs.Tap.{QueueState};

    ghost Value = { QueueState };

    ghost view = { λ q. record { held = q.held.items; word = q.word; bits_left = q.bits_left } };

    ghost invariant = { λ q. q.bits_left ≤ 32 };
}

/// How many of a piece's `length` bytes count as given, by what a feed of the piece answers: those taken, where a word
/// is due, and else all, also those after a stop.
fn given_of(fed: Fed, length: usize) -> usize
    ensures { result ≡ given_by fed length }
{
    match fed {
        Fed::ReadFull(count) => count,
        _ => length,
    }
}

impl Queue {
    /// An empty queue.
    pub(crate) fn new() -> Queue
        ensures { result ≡ record { held = []; word = 0; bits_left = 0 } }
    {
        Queue {
            held: ArrayVec::new(),
            word: 0,
            bits_left: 0,
        }
    }

    /// Keeps the word that the device gave, where it gave one.
    fn keep(&mut self, words: &[u32])
        ensures { self.new ≡ with_word_taken self.old words.now }
    {
        if let [word, ..] = words {
            self.word = *word;
            self.bits_left = 32;
        }
    }

    /// Gives a piece of at most one byte to the device, and takes the word that is then the next, where there is one.
    fn feed(&mut self, piece: &[u8], device: &mut Device)
        requires at_most_one { length piece.now ≤ 1 }
        requires none_waits { self.old.bits_left ≡ 0 }
        requires fits { CanBeGiven device.old (length piece.now) }
        ensures taken { device.new.taken ≤ device.old.taken + length piece.now }
        ensures held { self.new.held ≡ self.old.held }
        ensures queue { (part : PartData) (q : QueueData) → QueueHolds part self.old device.old q → (0 < length piece.now → NoWordDue device.old)
            → QueueStandsFor part self.new device.new (with_given q piece.now) }
    {
        let mut read = ReadBuf::one();
        device.feed(piece, &mut read);
        self.keep(read.words());
    }

    /// Takes a byte in its turn: gives it to the device where no word waits, and else holds it.
    fn take(&mut self, byte: u8, device: &mut Device)
        requires room { 0 < self.old.bits_left → length self.old.held < most_bytes_held }
        requires fits { CanBeGiven device.old 1 }
        ensures taken { device.new.taken ≤ device.old.taken + 1 }
        ensures held { length self.new.held ≤ length self.old.held + 1 }
        ensures at_most { AreGivenAtMost self.old device.old self.new device.new 1 }
        ensures queue { QueueBecomes self.old device.old self.new device.new (λ reads q. in_turn reads q byte) }
    {
        if self.bits_left > 0 {
            self.held.push(byte);
        } else {
            self.feed(&[byte], device);
        }
    }

    /// Drops all words that wait, gives the held bytes, and drops what they read out.
    fn drop_all(&mut self, device: &mut Device)
        requires fits { CanBeGiven device.old most_bytes_held }
        ensures taken { device.new.taken ≤ device.old.taken + length self.old.held }
        ensures held { self.new.held ≡ [] }
        ensures none_waits { self.new.bits_left ≡ 0 }
        ensures queue { QueueBecomes self.old device.old self.new device.new (λ reads q. dropped reads q) }
    {
        let mut read = ReadBuf::dropping();
        device.feed(self.held.as_slice(), &mut read);
        self.held.clear();
        self.bits_left = 0;
    }

    /// Whether a word waits and the most bytes are held, so that there is no room for a byte that should be held.
    fn overflows(&self) -> bool
        ensures value { result ≡ (nat_lt 0 self.now.bits_left && length self.now.held == most_bytes_held) }
        ensures room { result ≡ false → 0 < self.now.bits_left → length self.now.held < most_bytes_held }
    {
        self.bits_left > 0 && self.held.is_full()
    }

    /// Makes room for a byte that should be held, where the most bytes are held already.
    fn make_room(&mut self, device: &mut Device)
        requires fits { CanBeGiven device.old most_bytes_held }
        ensures at_most { AreGivenAtMost self.old device.old self.new device.new 0 }
        ensures taken { device.new.taken ≤ device.old.taken + most_bytes_held }
        ensures room { 0 < self.new.bits_left → length self.new.held < most_bytes_held }
        ensures queue { QueueBecomes self.old device.old self.new device.new (λ reads q. queue_with_room reads q) }
    {
        if self.overflows() {
            self.drop_all(device);
        }
    }

    /// Takes a byte that is offered.
    pub(crate) fn offer(&mut self, byte: u8, device: &mut Device)
        requires fits { CanBeOffered device.old }
        ensures at_most { AreGivenAtMost self.old device.old self.new device.new 1 }
        ensures queue { QueueBecomes self.old device.old self.new device.new (λ reads q. offered reads q byte) }
    {
        self.make_room(device);
        self.take(byte, device);
    }

    /// Gives bytes to the device, where no word waits, up to and with the one at which a word is read out. Says how
    /// many count as given: all of them after a stop, and none where a word waits.
    fn give(&mut self, bytes: &[u8], device: &mut Device) -> usize
        requires fits { CanBeGiven device.old (length bytes.now) }
        ensures within { result ≤ length bytes.now }
        ensures at_most { AreGivenAtMost self.old device.old self.new device.new result }
        ensures queue { QueueBecomes self.old device.old self.new device.new (λ reads q. fold (offered reads) q (take result bytes.now)) }
    {
        if self.bits_left > 0 {
            return 0;
        }
        let fed = device.feed(bytes, &mut ReadBuf::without_room());
        let count = given_of(fed, bytes.len());
        self.feed(&[], device);
        count
    }

    /// Takes the first of bytes that are offered, as many as go at once and at least one. Says how many.
    fn offer_some(&mut self, bytes: &[u8], device: &mut Device) -> usize
        requires not_empty { 0 < length bytes.now }
        requires fits { CanAllBeOffered self.old device.old (length bytes.now) }
        ensures at_least_one { 0 < result }
        ensures within { result ≤ length bytes.now }
        ensures at_most { AreGivenAtMost self.old device.old self.new device.new result }
        ensures queue { QueueBecomes self.old device.old self.new device.new (λ reads q. fold (offered reads) q (take result bytes.now)) }
    {
        let count = self.give(bytes, device);
        if count > 0 {
            return count;
        }
        self.offer(bytes[0], device);
        1
    }

    /// Takes bytes that are offered, one after another.
    pub(crate) fn offer_all(&mut self, bytes: &[u8], device: &mut Device)
        requires fits { CanAllBeOffered self.old device.old (length bytes.now) }
        ensures queue { QueueBecomes self.old device.old self.new device.new (λ reads q. fold (offered reads) q bytes.now) }
    {
        let mut rest = bytes;
        while !rest.is_empty() {
            let count = self.offer_some(rest, device);
            rest = &rest[count..];
        }
    }

    /// Gives held bytes in order until a word waits, and holds the rest again.
    fn give_held(&mut self, device: &mut Device)
        requires fits { CanBeGiven device.old most_bytes_held }
        ensures queue { QueueBecomes self.old device.old self.new device.new (λ reads q. give_held_by reads q) }
    {
        let held = mem::replace(&mut self.held, ArrayVec::new());
        let mut rest = held.as_slice();
        while !rest.is_empty() {
            self.take(rest[0], device);
            rest = &rest[1..];
        }
    }

    /// The next bit of the latest word, from the highest on, which is then out.
    fn next_bit(&mut self) -> bool
        requires { 0 < self.old.bits_left }
        ensures one_out { self.new ≡ record self.old { bits_left = self.old.bits_left - 1 } }
        ensures bit { result ≡ (self.old.word / 2 ^ (self.old.bits_left - 1) % 2 == 1) }
    {
        self.bits_left -= 1;
        (self.word >> self.bits_left) % 2 == 1
    }

    /// Takes the next word as soon as the last bit of the one before is out; where no word is due, gives held bytes
    /// until one is read out.
    fn refill(&mut self, device: &mut Device)
        requires none_waits { self.old.bits_left ≡ 0 }
        requires fits { CanBeGiven device.old most_bytes_held }
        ensures queue { (part : PartData) (q : QueueData) → QueueHolds part self.old device.old q
            → QueueStandsFor part self.new device.new (give_held_by (words_read_out part) q) }
    {
        self.feed(&[], device);
        self.give_held(device);
    }

    /// Shifts a bit out; 0 where none waits.
    pub(crate) fn shift(&mut self, device: &mut Device) -> bool
        requires fits { CanBeGiven device.old most_bytes_held }
        ensures queue { QueueBecomes self.old device.old self.new device.new (λ reads q. shifted_out reads q) }
        ensures bit { (part : PartData) (q : QueueData) → QueueStandsFor part self.old device.old q → result ≡ bit_shown (words_read_out part) q }
    {
        if self.bits_left == 0 {
            return false;
        }
        let bit = self.next_bit();
        if self.bits_left == 0 {
            self.refill(device);
        }
        bit
    }

    /// Resets the device, and empties the queue.
    pub(crate) fn program(&mut self, device: &mut Device)
        ensures { QueueBecomes self.old device.old self.new device.new (λ reads q. empty_queue) }
    {
        device.reset(ON_THE_BENCH);
        self.held.clear();
        self.bits_left = 0;
    }
}
