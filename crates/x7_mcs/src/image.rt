//! The bytes of a flash that is being read, and the places that its records gave.
ghost use Rattle.std.specs.Prelude.{◌≡◌, ℕ, ◌≤◌, ◌<◌, ◌+◌, ◌-◌, ◌*◌, ◌/◌, ◌%◌, ◌^◌, ◌==◌, ◌&&◌, List, [], length, get_or, IfSome, OnOk, MatchOption};
ghost use Rattle.std.specs.Int.{bit_at};
ghost use Rattle.x7_words.specs.Flash.{erased_byte};
ghost use Rattle.x7_mcs.specs.DataRecords.{DataRecord, overlap};
ghost use Rattle.x7_mcs.specs.Readings.{ImageHolds, TakesRecord, data_at};
ghost use Rattle.x7_mcs.specs.Record.{byte_values};
ghost use Rattle.x7_mcs.specs.Image.{AreFree, AreMarked, HasMarksUpTo, IsFirstMarked, IsGrownTo, IsWrittenFrom, places_per_mark, written_byte};

use crate::fault::McsFault;
use std::alloc::{AllocError, Global};
use x7_words::ERASED_BYTE;

/// How many bytes a text gives at most (this project's choice), as a size in memory: those of the largest flash.
pub const IMAGE_LIMIT: usize = x7_words::FLASH_LIMIT as usize;

/// How many places a mark is for.
const PLACES_PER_MARK: usize = 16;

/// A mark with all its places.
const FULL_MARK: u16 = 0xFFFF;

/// How many marks are made at once beside those that a record needs.
const SPARE_MARKS: usize = 4096;

/// The bytes from place 0 on, and a bit for each place that a record gave: sixteen places a mark, the first in bit 0.
#[derive(Drop)]
pub(crate) struct Image {
    pub(crate) bytes: Vec<u8>,
    pub(crate) marks: Vec<u16>,
}

/// An image without bytes.
pub(crate) fn empty_image(alloc: Global) -> Image
    ensures bytes { result.bytes.items ≡ [] }
    ensures marks { result.marks.items ≡ [] }
{
    Image {
        bytes: Vec::new(alloc),
        marks: Vec::new(alloc),
    }
}

/// Lengthens bytes by FF to `size` of them, where there are fewer.
#[inline(always)]
fn grow_bytes(bytes: &mut Vec<u8>, size: usize) -> Result<(), AllocError>
    ensures { OnOk result (IsGrownTo size bytes.old.items bytes.new.items) }
{
    if size <= bytes.len() {
        return Ok(());
    }
    bytes.resize(size, ERASED_BYTE)
}

/// Writes a content over as many bytes from a place on.
fn set_bytes(bytes: &mut [u8], place: usize, content: &[u8])
    requires { place + length content.now ≤ length bytes.old }
    ensures length { length bytes.new ≡ length bytes.old }
    ensures at { (p : ℕ) → get_or bytes.new p erased_byte ≡ written_byte place content.now bytes.old p }
{
    bytes[place..place + content.len()].copy_from_slice(content);
}

/// Appends a content to the bytes.
#[inline(always)]
fn append_bytes(bytes: &mut Vec<u8>, content: &[u8]) -> Result<(), AllocError>
    ensures { OnOk result (IsWrittenFrom (length bytes.old.items) content.now bytes.old.items bytes.new.items) }
{
    bytes.extend_from_slice(content)
}

/// Writes a content from a place on, after FF where the bytes end before it.
#[inline(always)]
fn put_bytes(bytes: &mut Vec<u8>, place: usize, content: &[u8]) -> Result<(), AllocError>
    requires { place + length content.now < 2 ^ 34 }
    ensures { OnOk result (IsWrittenFrom place content.now bytes.old.items bytes.new.items) }
{
    if place < bytes.len() {
        grow_bytes(bytes, place + content.len())?;
        set_bytes(bytes, place, content);
        return Ok(());
    }
    grow_bytes(bytes, place)?;
    append_bytes(bytes, content)
}

/// Lengthens marks by empty ones, so that all places before an end have one, and many after it.
#[inline(always)]
fn grow_marks(marks: &mut Vec<u16>, end: usize) -> Result<(), AllocError>
    requires { end < 2 ^ 34 }
    ensures { OnOk result (HasMarksUpTo end marks.old.items marks.new.items) }
{
    let mark_count = end / PLACES_PER_MARK + 1;
    if mark_count <= marks.len() {
        return Ok(());
    }
    marks.resize(mark_count + SPARE_MARKS, 0)
}

/// Marks a place.
fn mark_place(marks: &mut Vec<u16>, place: usize)
    requires { place / places_per_mark < length marks.old.items }
    ensures length { length marks.new.items ≡ length marks.old.items }
    ensures marked { AreMarked marks.old.items place (place + 1) marks.new.items }
{
    marks[place / PLACES_PER_MARK] |= 1 << (place % PLACES_PER_MARK);
}

/// Marks the sixteen places from `place` on, the first of their mark.
fn mark_sixteen(marks: &mut Vec<u16>, place: usize)
    requires within { place / places_per_mark < length marks.old.items }
    requires first { place % places_per_mark ≡ 0 }
    ensures length { length marks.new.items ≡ length marks.old.items }
    ensures marked { AreMarked marks.old.items place (place + places_per_mark) marks.new.items }
{
    marks[place / PLACES_PER_MARK] = FULL_MARK;
}

/// Marks `count` places from `place` on.
#[inline(always)]
fn mark_places(marks: &mut Vec<u16>, place: usize, count: usize)
    requires within { place + count ≤ places_per_mark * length marks.old.items }
    requires small { place + count < 2 ^ 34 }
    ensures { AreMarked marks.old.items place (place + count) marks.new.items }
{
    let end = place + count;
    let mut at = place;
    while at < end {
        if at % PLACES_PER_MARK == 0 && end - at >= PLACES_PER_MARK {
            mark_sixteen(marks, at);
            at += PLACES_PER_MARK;
        } else {
            mark_place(marks, at);
            at += 1;
        }
    }
}

/// The mark that a place stands in; an empty one past the last.
fn mark_of(marks: &[u16], place: usize) -> u16
    ensures { result ≡ get_or marks.now (place / places_per_mark) 0 }
{
    if place / PLACES_PER_MARK < marks.len() {
        marks[place / PLACES_PER_MARK]
    } else {
        0
    }
}

/// Whether a mark has its place number `bit`.
fn has_bit(mark: u16, bit: usize) -> bool
    requires { bit < places_per_mark }
    ensures { result ≡ (bit_at mark bit == 1) }
{
    mark >> bit & 1 == 1
}

/// The least of `count` places from `place` on that is marked; `None` where none of them is.
fn first_marked(marks: &[u16], place: usize, count: usize) -> Option<usize>
    requires { place + count < 2 ^ 34 }
    ensures { MatchOption result (AreFree marks.now place (place + count)) (λ q. IsFirstMarked marks.now place (place + count) q) }
{
    let end = place + count;
    let mut at = place;
    while at < end {
        let mark = mark_of(marks, at);
        if mark == 0 && at % PLACES_PER_MARK == 0 && end - at >= PLACES_PER_MARK {
            at += PLACES_PER_MARK;
        } else if has_bit(mark, at % PLACES_PER_MARK) {
            return Some(at);
        } else {
            at += 1;
        }
    }
    None
}

/// The least of `count` places from `place` on that a record gave; `None` where a record gave none of them.
#[inline(always)]
fn overlap(image: &Image, place: usize, count: usize) -> Option<usize>
    requires { place + count < 2 ^ 34 }
    ensures least { (xs : List DataRecord) → ImageHolds image.now xs → result ≡ overlap xs place count }
    ensures within { IfSome result (λ q. q < place + count) }
{
    if place >= image.bytes.len() {
        return None;
    }
    first_marked(&image.marks, place, count)
}

/// Takes the data of line `line_number`'s record into the image, from a place on, or answers the record's fault, or
/// `NoMemory` where the record has no fault.
#[inline(always)]
pub(crate) fn take_content(
    image: &mut Image,
    line_number: u64,
    place: usize,
    content: &[u8],
) -> Result<(), McsFault>
    requires place { place < 2 ^ 33 }
    requires content { length content.now < byte_values }
    ensures { (xs : List DataRecord) → ImageHolds image.old xs → TakesRecord result image.new line_number xs (data_at place content.now) }
{
    if content.len() == 0 {
        return Ok(());
    }
    let end = place + content.len();
    if end > IMAGE_LIMIT {
        return Err(McsFault::TooLarge(line_number));
    }
    if let Some(covered) = overlap(image, place, content.len()) {
        return Err(McsFault::Overlap(covered as u32));
    }
    let Ok(()) = grow_marks(&mut image.marks, end) else {
        return Err(McsFault::NoMemory);
    };
    let Ok(()) = put_bytes(&mut image.bytes, place, content) else {
        return Err(McsFault::NoMemory);
    };
    mark_places(&mut image.marks, place, content.len());
    Ok(())
}
