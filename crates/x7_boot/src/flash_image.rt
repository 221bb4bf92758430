//! A flash image with a golden and an update stream.
ghost use Rattle.std.specs.Prelude.{◌≡◌, ◌+◌, ◌-◌, ◌*◌, ◌/◌, ◌<◌, ◌≤◌, ◌++◌, ◌↔◌, length, Err, IfOk, IfSome, OnOk, IfNone};
ghost use Rattle.x7_packets.specs.FlashSlot.{sector_size, flash_slot_size};
ghost use Rattle.x7_boot.specs.Image.{free_slots, filled_to, first_sector, flash_limit, image_of, image_size, sector_from, slot, place_after_golden};

use crate::fault::ImageFault;
use std::alloc::Global;
use x7_packets::{DUMMY_WORD, FLASH_SLOT_COUNT, SYNC_WORD, flash_slot};
use x7_part::Part;
use x7_words::{ERASED_BYTE, FLASH_LIMIT, NoMemory, SECTOR_SIZE, bytes_of};

/// The first place at or after `place` at which a sector begins.
fn sector_from(place: u64) -> u64
    requires { place ≤ flash_limit }
    ensures value { result ≡ sector_from place }
    ensures within { result ≤ flash_limit }
{
    (place + (SECTOR_SIZE - 1)) / SECTOR_SIZE * SECTOR_SIZE
}

/// What the lengths of a golden and an update stream fix of their image.
#[derive(Clone, Copy)]
struct ImageShape {
    /// The update's place, in bytes.
    update_place: u64,
    /// The image's size, in bytes.
    size: u64,
}

/// The update's place and the image's size, by the lengths of both streams in bytes; none where the image would be
/// larger than a flash may be.
fn shape_of(golden: u64, update: u64) -> Option<ImageShape>
    ensures place { IfSome result (λ shape. shape.update_place ≡ place_after_golden golden) }
    ensures size { IfSome result (λ shape. shape.size ≡ image_size golden update) }
    ensures within { IfSome result (λ shape. shape.size ≤ flash_limit) }
    ensures too_long { IfNone result (flash_limit < image_size golden update) }
{
    if golden > FLASH_LIMIT - SECTOR_SIZE {
        return None;
    }
    let update_place = sector_from(SECTOR_SIZE + golden).max(2 * SECTOR_SIZE);
    if update > FLASH_LIMIT - update_place {
        return None;
    }
    Some(ImageShape {
        update_place,
        size: sector_from(update_place + update),
    })
}

/// A slot of the first sector, 32 bytes, with this switch word and this start address: where the switch word is the
/// sync word, a device that finds it, and isn't in fallback, goes to the start address.
#[tactic(auto, unfolding(crate::specs::Image::slot))]
fn slot(switch: u32, start: u32) -> [u8; 32]
    ensures { result ≡ slot switch start }
{
    flash_slot(bytes_of(switch), bytes_of(start))
}

/// The slots of the first sector after its first, which are free and lead to the start address.
#[tactic(auto, unfolding(crate::specs::Image::free_slots, crate::specs::Image::slot))]
fn free_slots(alloc: Global, start: u32) -> Result<Vec<u8>, NoMemory>
    ensures items { IfOk result (λ all. all.items ≡ free_slots start) }
    ensures length { IfOk result (λ all. length all.items ≡ sector_size - flash_slot_size) }
{
    Ok(slot(DUMMY_WORD, start).repeat(alloc, FLASH_SLOT_COUNT as usize - 1)?)
}

/// Appends the first sector of an image, which leads to the start address.
fn put_first_sector(alloc: Global, out: &mut Vec<u8>, start: u32) -> Result<(), NoMemory>
    ensures items { OnOk result (out.new.items ≡ out.old.items ++ first_sector start) }
    ensures length { OnOk result (length out.new.items ≡ length out.old.items + sector_size) }
{
    let free = free_slots(alloc, start)?;
    out.extend_from_slice(&slot(SYNC_WORD, start))?;
    out.extend_from_slice(&free)?;
    Ok(())
}

/// Appends FF until `out` has `place` bytes.
fn fill(out: &mut Vec<u8>, place: u64) -> Result<(), NoMemory>
    requires { length out.old.items ≤ place }
    ensures items { OnOk result (out.new.items ≡ filled_to place out.old.items) }
    ensures length { OnOk result (length out.new.items ≡ place) }
{
    out.resize(place as usize, ERASED_BYTE)?;
    Ok(())
}

/// The image of `size` bytes, with the update at its place, to which the first sector leads by the start address
/// `start`.
fn image_of_size(
    alloc: Global,
    start: u32,
    golden: &[u8],
    update_place: u64,
    update: &[u8],
    size: u64,
) -> Result<Vec<u8>, NoMemory>
    requires golden { length golden.now + sector_size ≤ update_place }
    requires update { update_place + length update.now ≤ size }
    ensures { IfOk result (λ all. all.items ≡ filled_to size (filled_to update_place (first_sector start ++ golden.now) ++ update.now)) }
{
    let mut all = Vec::with_capacity(alloc, size as usize)?;
    put_first_sector(alloc, &mut all, start)?;
    all.extend_from_slice(golden)?;
    fill(&mut all, update_place)?;
    all.extend_from_slice(update)?;
    fill(&mut all, size)?;
    Ok(all)
}

/// The image of two streams, for a part of which one step of the start address stands for `unit` bytes.
fn image_of(alloc: Global, unit: u32, golden: &[u8], update: &[u8]) -> Result<Vec<u8>, ImageFault>
    requires { 0 < unit }
    ensures bytes { IfOk result (λ all. all.items ≡ image_of unit golden.now update.now) }
    ensures too_long { (result ≡ Err ImageFault.TooLong) ↔ (flash_limit < image_size (length golden.now) (length update.now)) }
{
    let Some(ImageShape { update_place, size }) = shape_of(golden.len() as u64, update.len() as u64)
    else {
        return Err(ImageFault::TooLong);
    };
    let start = update_place as u32 / unit;
    match image_of_size(alloc, start, golden, update_place, update, size) {
        Ok(image) => Ok(image),
        Err(NoMemory) => Err(ImageFault::NoMemory),
    }
}

/// The flash image of a golden and an update stream, for parts whose start address counts bytes (UG470, MultiBoot and
/// fallback; the layout is this project's choice). The first sector leads to the update, and a device whose update
/// fails falls back to the golden one, if CTL0 allows it.
pub fn image(alloc: Global, golden: &[u8], update: &[u8]) -> Result<Vec<u8>, ImageFault>
    ensures bytes { IfOk result (λ all. all.items ≡ image_of 1 golden.now update.now) }
    ensures too_long { (result ≡ Err ImageFault.TooLong) ↔ (flash_limit < image_size (length golden.now) (length update.now)) }
{
    image_of(alloc, 1, golden, update)
}

/// The flash image of a golden and an update stream for a part, by the number of bytes that one step of the part's
/// start address stands for.
pub fn image_for(
    alloc: Global,
    part: &Part,
    golden: &[u8],
    update: &[u8],
) -> Result<Vec<u8>, ImageFault>
    ensures bytes { IfOk result (λ all. all.items ≡ image_of part.now.start_unit golden.now update.now) }
    ensures too_long { (result ≡ Err ImageFault.TooLong) ↔ (flash_limit < image_size (length golden.now) (length update.now)) }
{
    image_of(alloc, part.start_unit(), golden, update)
}
