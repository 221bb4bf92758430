//! Boots from a flash in memory: how they end, and how often they call the flash.
use crate::streams::{line, planned};
use crate::tiny::TINY;
use std::alloc::Global;
use x7_boot::{BootEnd, boot, image};
use x7_in_memory::MemoryFlash;
use x7_part::{Part, part_of};
use x7_words::Flash;

/// How a boot from a flash ends, in how many attempts, and how many calls of the flash that takes.
type Boot = (BootEnd, usize, u64);

/// A boot from a flash of the name `f`; none where a call is refused.
fn booted_from(alloc: Global, part: &Part, flash: &mut MemoryFlash) -> Option<Boot> {
    flash.attach("f").ok()?;
    let booted = boot(alloc, part, flash).ok()?;
    Some((booted.end(), booted.attempts().len(), flash.calls()))
}

/// A boot from these bytes; none where a call is refused.
fn booted(alloc: Global, bytes: &[u8]) -> Option<Boot> {
    let part = part_of(alloc, TINY).ok()?;
    let mut flash = MemoryFlash::new(alloc, "f", bytes).ok()?;
    booted_from(alloc, &part, &mut flash)
}

/// A stream that leads to its own place for ever.
#[rattlefmt::skip]
const LOOP: [u8; 24] = [
    0xAA, 0x99, 0x55, 0x66, 0x20, 0x00, 0x00, 0x00, 0x30, 0x02, 0x00, 0x01, //
    0x00, 0x00, 0x00, 0x00, 0x30, 0x00, 0x80, 0x01, 0x00, 0x00, 0x00, 0x0F,
];

#[test]
fn sixteen_attempts_read_a_small_flash_once(rt: HostRuntime) {
    // two calls: the attach, and one read
    let boot = booted(rt.alloc(), &LOOP);
    assert!(rt; matches!(boot, Some((BootEnd::Loop, 16, 2))));
}

/// The image of a full stream and of the same stream with a wrong check; none where a call is refused.
fn image_of_a_wrong_update(alloc: Global) -> Option<Vec<u8>> {
    let (golden, _) = planned(alloc, TINY, &line(alloc)?)?;
    let mut update = Vec::from_slice(alloc, &golden).ok()?;
    // the last byte of the first check
    *update.get_mut(3355)? ^= 1;
    image(alloc, &golden, &update).ok()
}

/// A boot from that image; none where a call is refused.
fn fallen_back(alloc: Global) -> Option<Boot> {
    let image = image_of_a_wrong_update(alloc)?;
    booted(alloc, &image)
}

#[test]
fn a_fallback_reads_each_page_once(rt: HostRuntime) {
    // the attach, and three reads of sixteen pages: the first sector, the update's and the golden stream's
    let boot = fallen_back(rt.alloc());
    assert!(rt; matches!(boot, Some((BootEnd::Started, 3, 4))));
}
