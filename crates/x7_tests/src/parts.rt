//! Addresses, ranks and slots of two parts, asked one by one.
use crate::tiny::TINY;
use std::alloc::Global;
use x7_part::{Part, Slot, part_of};

/// A part with five columns of logic, of 172 frames, and one column of block memory, of 128.
const COLUMNS: &[u8] =
    b"name = \"columns\"\nidcode = 1\nrow = [{block = 0, half = 0, row = 0, minors = [42, 30, 36, 36, 28]}, {block = 1, half = 0, row = 0, minors = [128]}]\n";

/// Slot n of the slots from an address on; none where the part lacks the address.
fn slot_from(part: &Part, far: u32, n: u64) -> Option<Slot> {
    if !part.is_address(far) {
        return None;
    }
    Some(part.slot_after(far, n))
}

/// The number of slots from an address on; none where the part lacks the address.
fn slots_from(part: &Part, far: u32) -> Option<u64> {
    if !part.is_address(far) {
        return None;
    }
    Some(part.slots_from(far))
}

/// What a part answers, beside what it should: an address, a rank, a number or a slot; none where there is none.
type Answer<T> = (Option<T>, Option<T>);

/// Whether each answer is the one that it should be.
fn are_right<T: PartialEq>(answers: &[Answer<T>]) -> bool {
    for (is, wanted) in answers {
        if is != wanted {
            return false;
        }
    }
    true
}

/// Whether the tiny part has its addresses and ranks in order. It has two rows of two addresses each.
#[rattlefmt::skip]
fn has_answers(part: &Part) -> bool {
    let bottom = Some(0x0040_0000); // the first address of the bottom row
    are_right(&[
        (part.next(0x0000_0001), bottom),  // after the last address of the top row
        (part.next(0x0040_0001), None),    // after the part's last address
        (part.next(0x0000_0002), None),    // after what is no address
        (part.rank(0x0040_0000), Some(2)), // of the first address of the bottom row
        (part.rank(0x0000_0002), None),    // of what is no address
        (part.address(2), bottom),         // the third address
        (part.address(4), None),           // past the last one
    ])
}

/// Whether the tiny part has its slots in order. Two pads stand after each row; four frames and four pads are all.
#[rattlefmt::skip]
fn has_slots(part: &Part) -> bool {
    let last = 0x0000_0001; // the last address of the top row
    are_right(&[
        (slot_from(part, last, 0), Some(Slot::Frame(last))),
        (slot_from(part, last, 1), Some(Slot::Pad)),
        (slot_from(part, last, 2), Some(Slot::Pad)),
        (slot_from(part, last, 3), Some(Slot::Frame(0x0040_0000))), // the first of the bottom row
        (slot_from(part, 0x0000_0000, 8), Some(Slot::End)),         // after all eight
    ])
}

/// Whether the tiny part is taken, and has its addresses, ranks and slots in order.
fn is_tiny_in_order(alloc: Global) -> bool {
    match part_of(alloc, TINY) {
        // all eight slots but that of the first address stand from the second one on
        Ok(part) => has_answers(&part)
            && has_slots(&part)
            && slots_from(&part, 0x0000_0001) == Some(7),
        Err(_) => false,
    }
}

#[test]
fn two_rows_have_their_addresses_ranks_and_slots_in_order(rt: HostRuntime) {
    assert!(rt; is_tiny_in_order(rt.alloc()));
}

/// Whether a copy of the part of the columns has its IDCODE, its frames, and its addresses and ranks in order.
#[rattlefmt::skip]
fn is_copy_in_order(alloc: Global) -> bool {
    let Ok(part) = part_of(alloc, COLUMNS) else {
        return false;
    };
    let Ok(copy) = part.copy(alloc) else {
        return false;
    };
    are_right(&[
        (Some(copy.idcode()), Some(1)),
        (Some(copy.frames()), Some(300)),
        (copy.next(0x0000_0029), Some(0x0000_0080)), // after column 0 comes column 1
        (copy.next(0x0000_021B), Some(0x0080_0000)), // after block type 0 comes block type 1
        (copy.rank(0x0080_0000), Some(172)),         // as many frames have block type 0
        (copy.rank(0x0080_007F), Some(299)),         // of the part's last frame
        (copy.address(299), Some(0x0080_007F)),      // the last one
    ])
}

#[test]
fn a_copy_has_the_addresses_of_all_columns_and_block_types(rt: HostRuntime) {
    assert!(rt; is_copy_in_order(rt.alloc()));
}
