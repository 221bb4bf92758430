//! Full streams that are planned at once, and the texts of their plans.
use crate::tiny::TINY;
use std::alloc::Global;
use x7_frames::{plan_of, plan_text};
use x7_part::part_of;
use x7_planner::full;
use x7_words::bytes_of;

/// Four frames of two words.
const SMALL: &[u8] =
    b"name = \"small\"\nidcode = 0x0362D093\nframe_words = 2\nrow = [{block = 0, half = 0, row = 0, minors = [2]}, {block = 0, half = 1, row = 0, minors = [2]}]\n";

/// The words of the small part's full stream for one frame at 00400000, by the list of FORMATS, planned streams; the
/// checks were worked out apart from x7.
#[rattlefmt::skip]
const PLANNED: [u32; 71] = [
    0xFFFF_FFFF, 0xFFFF_FFFF, 0xFFFF_FFFF, 0xFFFF_FFFF, 0x0000_00BB, 0x1122_0044, 0xFFFF_FFFF, 0xFFFF_FFFF,
    0xAA99_5566, 0x2000_0000, 0x3000_8001, 0x0000_000B, 0x3000_8001, 0x0000_0007, 0x2000_0000, 0x3001_8001,
    0x0362_D093, 0x3001_2001, 0x0200_3FE5, 0x3000_C001, 0x0000_0501, 0x3000_A001, 0x0000_0101, 0x3000_8001,
    0x0000_0001, 0x3000_2001, 0x0000_0000, 0x3000_4000, 0x5000_0010, 0x0000_0000, 0x0000_0000, 0x0000_0000,
    0x0000_0000, 0x0000_0000, 0x0000_0000, 0x0000_0000, 0x0000_0000, 0xDEAD_BEEF, 0x0123_4567, 0x0000_0000,
    0x0000_0000, 0x0000_0000, 0x0000_0000, 0x0000_0000, 0x0000_0000, 0x3000_0001, 0xFE13_0DEF, 0x3000_8001,
    0x0000_0003, 0x3000_8001, 0x0000_0005, 0x3000_0001, 0x8173_8102, 0x3000_8001, 0x0000_000D, 0x2000_0000,
    0x2000_0000, 0x2000_0000, 0x2000_0000, 0x2000_0000, 0x2000_0000, 0x2000_0000, 0x2000_0000, 0x2000_0000,
    0x2000_0000, 0x2000_0000, 0x2000_0000, 0x2000_0000, 0x2000_0000, 0x2000_0000, 0x2000_0000,
];

/// The full stream of a frames text, and the text of its plan; none where the part, the frames or the plan is refused,
/// or without memory.
pub(crate) fn planned(alloc: Global, part: &[u8], text: &[u8]) -> Option<(Vec<u8>, Vec<u8>)> {
    let Ok(part) = part_of(alloc, part) else {
        return None;
    };
    let Ok(plan) = plan_of(alloc, text, &part) else {
        return None;
    };
    let Ok(stream) = full(alloc, &part, &plan) else {
        return None;
    };
    match plan_text(alloc, &plan) {
        Ok(text) => Some((stream, text)),
        Err(_) => None,
    }
}

/// Whether these bytes are those of the words.
fn are_bytes_of(bytes: &[u8], words: &[u32]) -> bool {
    for (i, word) in words.iter().enumerate() {
        if bytes.get(4 * i..4 * i + 4) != Some(bytes_of(*word).as_slice()) {
            return false;
        }
    }
    bytes.len() == 4 * words.len()
}

/// Whether a frames text for this part has a plan whose text is this; none where `planned` has none.
fn is_planned_as(alloc: Global, part: &[u8], text: &[u8], want: &[u8]) -> Option<bool> {
    let (_, again) = planned(alloc, part, text)?;
    Some(again.as_slice() == want)
}

/// Whether a frames text for the small part has the full stream of `PLANNED`; none where `planned` has none.
fn is_in_the_list(alloc: Global, text: &[u8]) -> Option<bool> {
    let (stream, _) = planned(alloc, SMALL, text)?;
    Some(are_bytes_of(&stream, &PLANNED))
}

#[test]
fn a_full_stream_is_its_list_of_words(rt: HostRuntime) {
    let text = b"frame 00400000 DEADBEEF01234567\n";
    assert!(rt; is_in_the_list(rt.alloc(), text) == Some(true));
    assert!(rt; is_planned_as(rt.alloc(), SMALL, text, text) == Some(true));
}

/// A line of a frame of words 11111111 at 00000000.
pub(crate) fn line(alloc: Global) -> Option<Vec<u8>> {
    let mut text = Vec::from_slice(alloc, b"frame 00000000 ").ok()?;
    text.resize(823, b'1').ok()?;
    text.push(b'\n').ok()?;
    Some(text)
}

/// Whether the text of that line's plan is the line; none where a call is refused.
fn is_line_again(alloc: Global) -> Option<bool> {
    let line = line(alloc)?;
    is_planned_as(alloc, TINY, &line, &line)
}

#[test]
fn the_text_of_a_plan_is_its_line(rt: HostRuntime) {
    assert!(rt; is_line_again(rt.alloc()) == Some(true));
}

#[test]
fn frames_come_again_in_order_and_in_upper_case(rt: HostRuntime) {
    let text = b"# two frames\n\nframe 00400000 0123456789abcdef\nframe 00000001 aAaAbBbBCCCCDDDD";
    let lines = b"frame 00000001 AAAABBBBCCCCDDDD\nframe 00400000 0123456789ABCDEF\n";
    assert!(rt; is_planned_as(rt.alloc(), SMALL, text, lines) == Some(true));
}
