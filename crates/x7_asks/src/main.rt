//! Asks a large part ten million questions of each kind that is named; `sorted` searches a sorted list as often.
//! bench/asks times them.
#![tactic(auto)]

use std::alloc::{AllocError, Global};
use std::io;
use std::process::ExitCode;
use x7_part::{Part, PartFault, Slot, part_of};

/// How many questions are asked.
const QUESTIONS: u32 = 10_000_000;

/// Appends the row of this number to a part file: 32 rows in each half of three block types, with 683 frames or 682.
fn put_row(text: &mut String, number: u32) -> Result<(), AllocError> {
    let (block, half, row) = (number / 64, number / 32 % 2, number % 32);
    let last = if block == 2 { 106 } else { 107 };
    write!(
        text,
        "[[row]]\nblock = {block}\nhalf = {half}\nrow = {row}\nminors = [36, 36, 36, 36, 36, 36, 36, 36, 36, 36, 36, 36, 36, 36, 36, 36, {last}]\n"
    )
}

/// A part file of 192 rows with 131,072 frames: 128 rows of 683, and 64 of 682.
fn part_text(alloc: Global) -> Result<String, AllocError> {
    let mut text = String::from_str(alloc, "name = \"large\"\nidcode = 1\n")?;
    for number in 0..192 {
        put_row(&mut text, number)?;
    }
    Ok(text)
}

/// The next of numbers in no order.
fn next_number(x: u32) -> u32 {
    x.wrapping_mul(1_664_525).wrapping_add(1_013_904_223)
}

/// One question about a frame, by its rank and its address.
fn ask(part: &Part, kind: &str, addresses: &[u32], rank: u32, far: u32) -> u64 {
    match kind {
        "sorted" => match addresses.binary_search(&far) {
            Ok(place) => place as u64,
            Err(_) => 0,
        },
        "rank" => u64::from(part.rank(far).unwrap_or(0)),
        "address" => u64::from(part.address(rank).unwrap_or(0)),
        "next" => u64::from(part.next(far).unwrap_or(0)),
        "slot_after" => slot_after(part, far, rank),
        "slots_from" => slots_from(part, far),
        // any other kind, as `none` of bench/asks, asks nothing: the bare loop
        _ => 0,
    }
}

/// What stands this many slots after an address, as a number: a frame's address, 1 for a pad, 2 for the end.
fn slot_after(part: &Part, far: u32, slot_count: u32) -> u64 {
    if !part.is_address(far) {
        return 0;
    }
    match part.slot_after(far, u64::from(slot_count)) {
        Slot::Frame(far) => u64::from(far),
        Slot::Pad => 1,
        Slot::End => 2,
    }
}

/// The number of slots from an address on; 0 where the part lacks the address.
fn slots_from(part: &Part, far: u32) -> u64 {
    if part.is_address(far) {
        part.slots_from(far)
    } else {
        0
    }
}

/// The sum of the answers to all questions of this kind.
fn ask_all(part: &Part, kind: &str, addresses: &[u32]) -> u64 {
    let mut sum = 0u64;
    let mut x = 1u32;
    for _question in 0..QUESTIONS {
        x = next_number(x);
        let rank = (x >> 8) % part.frames();
        let far = match addresses.get(rank as usize) {
            Some(far) => *far,
            None => 0,
        };
        sum = sum.wrapping_add(ask(part, kind, addresses, rank, far));
    }
    sum
}

/// All addresses in order.
fn addresses_of(alloc: Global, part: &Part) -> Result<Vec<u32>, AllocError> {
    let mut addresses = Vec::new(alloc);
    for rank in 0..part.frames() {
        addresses.push(part.address(rank).unwrap_or(0))?;
    }
    Ok(addresses)
}

/// The sum of the answers to all questions of this kind, about a large part.
fn answer(alloc: Global, kind: &str) -> Result<u64, PartFault> {
    let text = part_text(alloc)?;
    let part = part_of(alloc, text.as_bytes())?;
    let addresses = addresses_of(alloc, &part)?;
    Ok(ask_all(&part, kind, &addresses))
}

fn main(rt: HostRuntime) -> io::Result<ExitCode> {
    for word in std::env::args(&rt)?.skip(1) {
        match answer(rt.alloc(), word.as_str()) {
            Ok(sum) => println!(rt; "{word} {sum}")?,
            Err(_) => return Ok(ExitCode::from(1)),
        }
    }
    Ok(ExitCode::SUCCESS)
}
