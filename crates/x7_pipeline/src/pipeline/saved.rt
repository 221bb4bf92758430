//! A pipeline as it stood, saved so that the next word or copy can be taken back.
ghost use Rattle.std.specs.Prelude.{◌≡◌, ◌≤◌, [], true, length, vec_len, vec_capacity, Contains, IfOk, IfSome};
ghost use Rattle.std.specs.List.{AllByRecursion};
ghost use Rattle.x7_part.specs.AddressOrder.{addresses_in};
ghost use Rattle.x7_memory.specs.PartFrames.{AreFramesOf, frame_at};
ghost use Rattle.x7_pipeline.specs.Flow.{HoldsFlow, first_flow};
ghost use Rattle.x7_pipeline.specs.Pipeline.{AreOfPart, IsPipelineOf};
ghost use Rattle.x7_pipeline.specs.Runs.{GetsPairs};
ghost use Rattle.x7_pipeline.specs.Saved.{IsPairOf, IsSavedOf, address_at_slot, next_put, pair_at, put_by_copy, put_by_word};

use super::Pipeline;
use crate::place::{is_frame_address, slot_at};
use std::alloc::Global;
use std::marker::Model;
use x7_memory::Memory;
use x7_part::{Part, Slot};
use x7_words::NoMemory;

/// A pipeline as it stood, and the frame that stood where its next word or copy puts one.
#[derive(Drop)]
pub struct Saved {
    pipeline: Pipeline,
    /// Whether a frame is saved.
    has_frame: bool,
    /// The address of the saved frame, where `has_frame`.
    far: u32,
    /// The words of the saved frame, where `has_frame`.
    frame: Vec<u32>,
}

impl Model for Saved {
    ghost use Rattle.std.specs.Prelude.{◌≤◌, vec_capacity};
    ghost use Rattle.x7_pipeline.specs.Saved.{SavedState, pair_seen};

    ghost Value = { SavedState };

    ghost view = { λ s. record { pipeline = s.pipeline; pair = pair_seen s.has_frame s.far s.frame.items } };

    ghost invariant = { λ s. s.pipeline.width ≤ vec_capacity s.frame };
}

/// The address of a slot, none at a pad and past the last slot.
fn address_at_slot(slot: Slot) -> Option<u32>
    ensures { result ≡ address_at_slot slot }
{
    match slot {
        Slot::Frame(far) => Some(far),
        Slot::Pad => None,
        Slot::End => None,
    }
}

/// Makes the vector, which has room for them, hold the words of `from`.
fn copy_words(words: &mut Vec<u32>, from: &[u32])
    requires { length from.now ≤ vec_capacity words.old }
    ensures items { words.new.items ≡ from.now }
    ensures length { vec_len words.new ≡ length from.now }
    ensures room { vec_capacity words.old ≤ vec_capacity words.new }
{
    words.clear();
    match words.extend_from_slice(from) {
        Ok(()) => (),
        Err(_) => unreachable!(),
    }
}

/// Makes the vector, which has room for them, hold the words of `from`, where `has_words`; else the words in it don't
/// count.
fn copy_some(words: &mut Vec<u32>, from: &[u32], has_words: bool)
    requires { has_words ≡ true → length from.now ≤ vec_capacity words.old }
    ensures items { has_words ≡ true → words.new.items ≡ from.now }
    ensures length { has_words ≡ true → vec_len words.new ≡ length from.now }
    ensures room { vec_capacity words.old ≤ vec_capacity words.new }
{
    if has_words {
        copy_words(words, from);
    }
}

impl Saved {
    /// Takes room for a pipeline of this part and a frame. What is saved at first is a new pipeline, and no frame. No
    /// other call takes memory.
    pub fn new(alloc: Global, part: &Part) -> Result<Saved, NoMemory>
        ensures pipeline { IfOk result (λ saved. HoldsFlow part.now saved.pipeline first_flow) }
        ensures no_pair { IfOk result (λ saved. saved.pair ≡ []) }
        ensures part { IfOk result (IsSavedOf part.now) }
    {
        let pipeline = Pipeline::new(alloc, part)?;
        let frame = Vec::with_capacity(alloc, part.words() as usize)?;
        Ok(Saved {
            pipeline,
            has_frame: false,
            far: 0,
            frame,
        })
    }

    /// Saves the frame of an address, or none without an address and where the memory has no frame there.
    fn save_frame(&mut self, part: &Part, memory: &Memory, far: Option<u32>)
        requires part { IsPipelineOf part.now self.old.pipeline }
        requires memory { AreFramesOf part.now memory.now }
        requires address { IfSome far (Contains (addresses_in part.now)) }
        ensures pipeline { self.new.pipeline ≡ self.old.pipeline }
        ensures pair { self.new.pair ≡ pair_at (frame_at part.now memory.now) far }
        ensures fits { AllByRecursion (IsPairOf part.now) self.new.pair }
    {
        self.has_frame = false;
        let Some(far) = far else {
            return;
        };
        let Some(words) = memory.frame(part, far) else {
            return;
        };
        copy_words(&mut self.frame, words);
        self.far = far;
        self.has_frame = true;
    }

    /// Puts the saved frame, where there is one.
    fn put_frame(&self, part: &Part, memory: &mut Memory)
        requires memory { AreFramesOf part.now memory.old }
        requires fits { AllByRecursion (IsPairOf part.now) self.now.pair }
        ensures put { GetsPairs self.now.pair (frame_at part.now memory.old) (frame_at part.now memory.new) }
        ensures memory { AreFramesOf part.now memory.new }
    {
        if self.has_frame {
            memory.put(part, self.far, &self.frame);
        }
    }
}

impl Pipeline {
    /// Makes this pipeline equal to another one of the same part.
    fn copy_from(&mut self, other: &Pipeline)
        requires { self.old.width ≡ other.now.width }
        ensures { self.new ≡ other.now }
    {
        self.far_width = other.far_width;
        self.command = other.command;
        self.base = other.base;
        copy_words(&mut self.rest, &other.rest);
        copy_some(&mut self.newest, &other.newest, other.frame_count > 0);
        self.frame_count = other.frame_count;
        copy_some(&mut self.source, &other.source, other.has_source);
        self.has_source = other.has_source;
        self.given = other.given;
        self.slot = other.slot;
    }

    /// The address where the next word of a run would put a frame, none where it would put none.
    fn put_by_word(&self, part: &Part) -> Option<u32>
        ensures value { result ≡ put_by_word part.now self.now }
        ensures address { IfSome result (Contains (addresses_in part.now)) }
    {
        if self.rest.len() + 1 != self.width as usize {
            return None;
        }
        if self.frame_count == 0 {
            return None;
        }
        address_at_slot(slot_at(part, self.base, self.frame_count - 1))
    }

    /// The address where a copy would put a frame, none where the base is no address.
    fn put_by_copy(&self, part: &Part) -> Option<u32>
        ensures value { result ≡ put_by_copy part.now self.now }
        ensures address { IfSome result (Contains (addresses_in part.now)) }
    {
        if is_frame_address(part, self.base) {
            Some(self.base)
        } else {
            None
        }
    }

    /// The address where the next word, or under MFW with a source the next copy, would put a frame, none where it
    /// would put none.
    fn next_put(&self, part: &Part) -> Option<u32>
        ensures value { result ≡ next_put part.now self.now }
        ensures address { IfSome result (Contains (addresses_in part.now)) }
    {
        if self.may_copy() {
            return self.put_by_copy(part);
        }
        self.put_by_word(part)
    }

    /// Saves the pipeline and, where the next word or copy would put a frame, that address and its frame in the memory.
    pub fn save(&self, part: &Part, memory: &Memory, into: &mut Saved)
        requires part { AreOfPart part.now self.now memory.now }
        requires saved { IsSavedOf part.now into.old }
        ensures pipeline { into.new.pipeline ≡ self.now }
        ensures pair { into.new.pair ≡ pair_at (frame_at part.now memory.now) (next_put part.now self.now) }
        ensures part { IsSavedOf part.now into.new }
    {
        into.pipeline.copy_from(self);
        into.save_frame(part, memory, self.next_put(part));
    }

    /// Makes this pipeline the saved one, and puts the saved frame into the memory, where there is one. Every other
    /// frame stays.
    pub fn restore(&mut self, part: &Part, memory: &mut Memory, from: &Saved)
        requires part { AreOfPart part.now self.old memory.old }
        requires saved { IsSavedOf part.now from.now }
        ensures pipeline { self.new ≡ from.now.pipeline }
        ensures put { GetsPairs from.now.pair (frame_at part.now memory.old) (frame_at part.now memory.new) }
        ensures memory { AreFramesOf part.now memory.new }
    {
        self.copy_from(&from.pipeline);
        from.put_frame(part, memory);
    }
}
