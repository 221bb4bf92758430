//! Frames of a device and of a plan.
ghost use Rattle.x7_memory.specs.PartFrames.{AreFramesOf};

use std::alloc::Global;
use x7_memory::{Memory, Plan};
use x7_part::{Part, part_of};
use x7_words::NoMemory;

/// A part of two frames.
const PART: &str =
    "name = \"t\"\nidcode = 1\nrow = [{block = 0, half = 0, row = 0, minors = [2]}]\n";

/// How many words a frame of the part has.
const FRAME_WORDS: usize = 101;

/// How many words a frame of any part has at most.
const MOST_FRAME_WORDS: usize = x7_part::MOST_FRAME_WORDS as usize;

/// Whether the memory has a frame of this word, again and again, at the address.
fn has_frame(part: &Part, memory: &Memory, far: u32, word: u32) -> bool
    requires { AreFramesOf part.now memory.now }
{
    memory.frame(part, far) == Some([word; FRAME_WORDS].as_slice())
}

/// Puts a frame of sevens at address 1, and clears the memory once it is copied: whether the copy still has the frame,
/// and the memory one of zeros. None where the part lacks the address, and without memory.
fn copied_and_cleared(alloc: Global, part: &Part, memory: &mut Memory) -> Option<(bool, bool)>
    requires { AreFramesOf part.now memory.old }
{
    if !part.is_address(1) {
        return None;
    }
    memory.put(part, 1, &[7; MOST_FRAME_WORDS][..part.words() as usize]);
    let Ok(copied) = memory.copy(alloc) else {
        return None;
    };
    memory.clear();
    Some((
        has_frame(part, &copied, 1, 7),
        has_frame(part, memory, 1, 0),
    ))
}

/// What `copied_and_cleared` says of a new memory.
fn copied(alloc: Global) -> Option<(bool, bool)> {
    let Ok(part) = part_of(alloc, PART.as_bytes()) else {
        return None;
    };
    match Memory::new(alloc, &part) {
        Ok(mut memory) => copied_and_cleared(alloc, &part, &mut memory),
        Err(_) => None,
    }
}

#[test]
fn a_copy_keeps_the_frames_that_are_cleared(rt: HostRuntime) {
    assert!(rt; copied(rt.alloc()) == Some((true, true)));
}

/// Whether the plan's rows stand in order, each once, with the words that came first.
fn is_in_order(plan: &Plan) -> bool {
    plan.len() == 2
        && plan.row(0) == Some((3, [1, 1].as_slice()))
        && plan.row(1) == Some((7, [0, 0].as_slice()))
        && plan.get(5).is_none()
}

/// Whether a plan of frames that came in no order, one address twice, has its rows in order; an error without memory.
fn planned(alloc: Global) -> Result<bool, NoMemory> {
    let mut plan = Plan::new(alloc, 2);
    plan.insert(7, &[0, 0])?;
    plan.insert(3, &[1, 1])?;
    plan.insert(7, &[2, 2])?;
    Ok(is_in_order(&plan))
}

#[test]
fn rows_of_a_plan_stand_in_order(rt: HostRuntime) {
    assert!(rt; planned(rt.alloc()) == Ok(true));
}
