//! The slots from any base on, and the address that FAR stands at.
ghost use Rattle.std.specs.Prelude.{◌≡◌, ◌^◌, ◌<◌, ◌∷◌, length, slice_index_or};
ghost use Rattle.x7_part.specs.declared.slot.Slot.{Slot};
ghost use Rattle.x7_part.specs.Slot.{slots_from};
ghost use Rattle.x7_pipeline.specs.FarAsRead.{far_at as address_at, last_address as greatest_address, is_frame_address};

use x7_part::{Part, Slot};

/// Whether the part has a frame at the address.
pub(crate) fn is_frame_address(part: &Part, far: u32) -> bool
    ensures { result ≡ is_frame_address part.now far }
{
    part.is_address(far)
}

/// The number of slots from an address on, 0 for what is no address.
pub(crate) fn slot_count(part: &Part, far: u32) -> u64
    ensures value { result ≡ length (slots_from part.now far) }
    ensures most { result < 2 ^ 31 }
{
    // for the proof alone: the limit rests on the part's range
    let _frames = part.frames();
    if part.is_address(far) {
        part.slots_from(far)
    } else {
        0
    }
}

/// Slot n, from 0, of the slots from an address on, `End` where there is none, and for what is no address.
pub(crate) fn slot_at(part: &Part, far: u32, n: u64) -> Slot
    ensures { result ≡ slice_index_or (slots_from part.now far) n Slot.End }
{
    if part.is_address(far) {
        part.slot_after(far, n)
    } else {
        Slot::End
    }
}

/// The slot of frame `frame` of a readback, from 0 on: a pad, the slots from the address on, and then `End`.
pub(crate) fn readback_slot(part: &Part, far: u32, frame: u64) -> Slot
    ensures { result ≡ slice_index_or (Slot.Pad ∷ slots_from part.now far) frame Slot.End }
{
    if frame == 0 {
        return Slot::Pad;
    }
    slot_at(part, far, frame - 1)
}

/// The first address at or after slot n, from 0, of those from the base on, and the last address where there is none;
/// the base itself where it is no address.
pub(crate) fn far_at(part: &Part, base: u32, n: u64) -> u32
    ensures { result ≡ address_at part.now base n }
{
    if !part.is_address(base) {
        return base;
    }
    for place in n..part.slots_from(base) {
        if let Slot::Frame(far) = part.slot_after(base, place) {
            return far;
        }
    }
    last_address(part)
}

/// The part's last address.
fn last_address(part: &Part) -> u32
    ensures { result ≡ greatest_address part.now }
{
    match part.address(part.frames() - 1) {
        Some(far) => far,
        None => unreachable!(),
    }
}
