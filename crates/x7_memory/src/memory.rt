//! The frames of a device.
ghost use Rattle.std.specs.Prelude.{◌≡◌, ℕ, ◌<◌, ◌≤◌, ◌+◌, ◌*◌, ◌++◌, ◌==◌, if◌then◌else◌, List, length, take, drop, replicate, slice_set, slice_index, slice_index_or, vec_len, vec_capacity, Contains, Some, None, IfSome, IfNone, IfOk};
ghost use Rattle.x7_part.specs.AddressOrder.{addresses_in};
ghost use Rattle.x7_part.specs.Part.{PartData, frame_words};
ghost use Rattle.x7_memory.specs.Flat.{words_with_frame};
ghost use Rattle.x7_memory.specs.PartFrames.{frame_at, zero_frames, AreFramesOf};

use crate::zeros::are_zeros;
use std::alloc::Global;
use std::marker::Model;
use x7_part::Part;
use x7_words::NoMemory;

/// The frames of a part, as they stand in a device.
pub struct Memory {
    /// The words of the frames that are stored, one after another. The first frame is zeros. There is room for it and
    /// for a frame of each rank.
    words: Vec<u32>,
    /// By rank, the number, from 0, of its frame among those that are stored: 0 for the zeros that ranks share.
    numbers: Vec<u32>,
    /// How many frames are stored, the zeros among them.
    stored_count: u32,
    /// The number of words of a frame.
    width: usize,
}

impl Drop for Memory {
    fn drop(self) {
        let Memory {
            words: _,
            numbers: _,
            stored_count: _,
            width: _,
        } = self;
    }
}

impl Model for Memory {
    ghost use Rattle.std.specs.Prelude.{ℕ, List};
    ghost use Rattle.x7_memory.specs.MemoryFields.{frames_seen, StoresFrames};

    ghost Value = { List (List ℕ) };

    ghost view = { frames_seen };

    ghost invariant = { StoresFrames };
}

impl Memory {
    /// The part's frames, all zeros. The call takes room for all of them, and writes one: the frame of zeros that all
    /// ranks share.
    pub fn new(alloc: Global, part: &Part) -> Result<Memory, NoMemory>
        ensures zeros { IfOk result (λ memory. memory ≡ zero_frames part.now) }
        ensures part { IfOk result (λ memory. AreFramesOf part.now memory) }
    {
        let frame_count = part.frames() as usize;
        let width = part.words() as usize;
        let words = zeros_with_room(alloc, width, width * (frame_count + 1))?;
        let numbers = zeros_with_room(alloc, frame_count, frame_count)?;
        Ok(Memory {
            words,
            numbers,
            stored_count: 1,
            width,
        })
    }

    /// The frame at an address, none for what is no address of the part.
    pub fn frame(&self, part: &Part, far: u32) -> Option<&[u32]>
        requires part { AreFramesOf part.now self.now }
        ensures found { IfSome result (λ words. frame_at part.now self.now far ≡ Some words.now) }
        ensures width { IfSome result (λ words. length words.now ≡ frame_words part.now) }
        ensures absent { IfNone result (¬ Contains (addresses_in part.now) far) }
        ensures no_frame { IfNone result (frame_at part.now self.now far ≡ None) }
    {
        let rank = part.rank(far)?;
        Some(self.frame_of(rank as usize))
    }

    /// The frame at the address of a rank, none for a rank that the part doesn't have.
    pub fn frame_at_rank(&self, rank: u32) -> Option<&[u32]>
        ensures found { IfSome result (λ words. (part : PartData) → AreFramesOf part self.now → frame_at part self.now (slice_index (addresses_in part) rank) ≡ Some words.now) }
        ensures width { IfSome result (λ words. (part : PartData) → AreFramesOf part self.now → length words.now ≡ frame_words part) }
        ensures within { IfSome result (λ words. rank < length self.now) }
        ensures past_end { IfNone result (length self.now ≤ rank) }
    {
        let rank = rank as usize;
        if rank < self.numbers.len() {
            Some(self.frame_of(rank))
        } else {
            None
        }
    }

    /// The words of the frame of a rank.
    fn frame_of(&self, rank: usize) -> &[u32]
        requires { rank < length self.now }
        ensures { (d : List ℕ) → result.now ≡ slice_index_or self.now rank d }
    {
        let number = self.numbers[rank] as usize;
        words_from(&self.words, self.width * number, self.width)
    }

    /// Puts a frame at an address of the part.
    pub fn put(&mut self, part: &Part, far: u32, words: &[u32])
        requires part { AreFramesOf part.now self.old }
        requires address { Contains (addresses_in part.now) far }
        requires width { length words.now ≡ frame_words part.now }
        ensures put { (a : ℕ) → frame_at part.now self.new a ≡ (if a == far then Some words.now else frame_at part.now self.old a) }
        ensures part { AreFramesOf part.now self.new }
    {
        if let Some(rank) = part.rank(far) {
            self.put_at(rank as usize, words);
        }
    }

    /// Puts a frame at the address of a rank. `_part` is for the contract alone.
    pub fn put_at_rank(&mut self, _part: &Part, rank: u32, words: &[u32])
        requires part { AreFramesOf _part.now self.old }
        requires rank { rank < length (addresses_in _part.now) }
        requires width { length words.now ≡ frame_words _part.now }
        ensures put { (a : ℕ) → frame_at _part.now self.new a ≡ (if a == slice_index (addresses_in _part.now) rank then Some words.now else frame_at _part.now self.old a) }
        ensures part { AreFramesOf _part.now self.new }
    {
        self.put_at(rank as usize, words);
    }

    /// Puts a frame at a rank. Zeros are not stored at a rank without a frame of its own.
    fn put_at(&mut self, rank: usize, words: &[u32])
        requires rank { rank < length self.old }
        requires width { (d : List ℕ) → length words.now ≡ length (slice_index_or self.old rank d) }
        ensures { self.new ≡ slice_set self.old rank words.now }
    {
        let number = self.numbers[rank];
        if number != 0 {
            write_over(&mut self.words, self.width * number as usize, words);
            return;
        }
        if are_zeros(words) {
            return;
        }
        self.numbers[rank] = self.stored_count;
        self.stored_count += 1;
        append(&mut self.words, words);
    }

    /// Makes all frames zeros.
    pub fn clear(&mut self)
        ensures zeros { (part : PartData) → AreFramesOf part self.old → self.new ≡ zero_frames part }
        ensures part { (part : PartData) → AreFramesOf part self.old → AreFramesOf part self.new }
    {
        self.words.truncate(self.width);
        clear_words(&mut self.numbers);
        self.stored_count = 1;
    }

    /// An equal memory.
    pub fn copy(&self, alloc: Global) -> Result<Memory, NoMemory>
        ensures { IfOk result (λ memory. memory ≡ self.now) }
    {
        let room = self.width * (self.numbers.len() + 1);
        Ok(Memory {
            words: copy_with_room(alloc, &self.words, room)?,
            numbers: copy_with_room(alloc, &self.numbers, self.numbers.len())?,
            stored_count: self.stored_count,
            width: self.width,
        })
    }
}

/// A vector of `count` zeros, with room for `room` words in all.
fn zeros_with_room(alloc: Global, count: usize, room: usize) -> Result<Vec<u32>, NoMemory>
    requires { count ≤ room }
    ensures items { IfOk result (λ words. words.items ≡ replicate count 0) }
    ensures room { IfOk result (λ words. room ≤ vec_capacity words) }
{
    let mut words = Vec::with_capacity(alloc, room)?;
    words.resize(count, 0)?;
    Ok(words)
}

/// A copy of the words, with room for `room` words in all.
fn copy_with_room(alloc: Global, words: &[u32], room: usize) -> Result<Vec<u32>, NoMemory>
    ensures items { IfOk result (λ copy. copy.items ≡ words.now) }
    ensures room { IfOk result (λ copy. room ≤ vec_capacity copy) }
{
    let mut copy = Vec::with_capacity(alloc, room)?;
    copy.extend_from_slice(words)?;
    Ok(copy)
}

/// Makes all words 0.
fn clear_words(words: &mut Vec<u32>)
    ensures { words.new.items ≡ replicate (length words.old.items) 0 }
{
    let count = words.len();
    words.clear();
    let Ok(()) = words.resize(count, 0) else {
        unreachable!()
    };
}

/// Appends a frame for which there is room.
fn append(words: &mut Vec<u32>, frame: &[u32])
    requires { vec_len words.old + length frame.now ≤ vec_capacity words.old }
    ensures items { words.new.items ≡ words.old.items ++ frame.now }
    ensures room { vec_capacity words.old ≤ vec_capacity words.new }
{
    let Ok(()) = words.extend_from_slice(frame) else {
        unreachable!()
    };
}

/// Writes a frame over the words from number `start` on.
fn write_over(words: &mut Vec<u32>, start: usize, frame: &[u32])
    requires { start + length frame.now ≤ length words.old.items }
    ensures items { words.new.items ≡ words_with_frame start frame.now words.old.items }
    ensures room { vec_capacity words.new ≡ vec_capacity words.old }
{
    words[start..start + frame.len()].copy_from_slice(frame);
}

/// The `count` words from number `start` on.
fn words_from(words: &[u32], start: usize, count: usize) -> &[u32]
    requires inside { start + count ≤ length words.now }
    ensures { result.now ≡ take count (drop start words.now) }
{
    &words[start..start + count]
}
