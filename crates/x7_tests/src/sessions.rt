//! How many bytes the moves of a debug session feed to its device, and whether its device is then as if played anew.
use crate::tiny::TINY;
use std::alloc::Global;
use x7_debug::Session;
use x7_engine::{Device, ReadBuf};
use x7_part::{Part, part_of};
use x7_report::report;

/// What comes before the frame data of a write to frame 00000001: the sync word, IDCODE, WCFG, FAR, and FDRI with 202
/// words.
#[rattlefmt::skip]
const BEFORE: [u8; 36] = [
    0xAA, 0x99, 0x55, 0x66, 0x30, 0x01, 0x80, 0x01, 0x03, 0x62, 0xD0, 0x93, 0x30, 0x00, 0x80, 0x01, 0x00, 0x00, 0x00, 0x01, //
    0x30, 0x00, 0x20, 0x01, 0x00, 0x00, 0x00, 0x01, 0x30, 0x00, 0x40, 0x00, 0x50, 0x00, 0x00, 0xCA,
];

/// A stream of 844 bytes that writes frame 00000001: a frame and a pad frame after 36 bytes.
fn frame_write(alloc: Global) -> Option<Vec<u8>> {
    let mut stream = Vec::from_slice(alloc, &BEFORE).ok()?;
    stream.resize(440, 0xAA).ok()?;
    stream.resize(844, 0).ok()?;
    Some(stream)
}

/// Whether two devices have one report: their states and their frames. None without memory.
fn have_one_report(alloc: Global, one: &Device, other: &Device) -> Option<bool> {
    let Ok(text) = report(alloc, one, &[]) else {
        return None;
    };
    match report(alloc, other, &[]) {
        Ok(wanted) => Some(text == wanted),
        Err(_) => None,
    }
}

/// Whether the report of a device is that of a new one that is fed these bytes; none without memory.
fn is_as_fed(alloc: Global, part: &Part, device: &Device, bytes: &[u8]) -> Option<bool> {
    match Device::new(alloc, part) {
        Ok(mut fresh) => {
            fresh.feed(bytes, &mut ReadBuf::dropping());
            have_one_report(alloc, device, &fresh)
        }
        Err(_) => None,
    }
}

/// Whether the report of a device is that of a new one that is fed the stream's first `count` bytes; none where a call
/// is refused.
fn is_as_played(alloc: Global, part: &Part, device: &Device, count: usize) -> Option<bool> {
    let stream = frame_write(alloc)?;
    is_as_fed(alloc, part, device, stream.get(..count)?)
}

/// By how much a move back by `count` bytes raises the count of bytes fed to the session's device, and whether the
/// device is then as played up to there.
fn went_back(alloc: Global, part: &Part, session: &mut Session, count: u64) -> Option<(u64, bool)> {
    let fed = session.device().fed();
    session.back(count);
    let played = is_as_played(alloc, part, session.device(), session.at() as usize)?;
    Some((session.device().fed().wrapping_sub(fed), played))
}

/// By how much moves back by 4, 252 and 500 bytes, the first from byte 844, each raise the count of bytes fed, and
/// whether the device is then as played.
fn moves_of(alloc: Global, part: &Part, session: &mut Session) -> Option<[(u64, bool); 3]> {
    session.go(844);
    Some([
        went_back(alloc, part, session, 4)?,
        went_back(alloc, part, session, 252)?,
        went_back(alloc, part, session, 500)?,
    ])
}

/// By how much the three moves back each raise the count of bytes fed in a session of the stream, and whether its
/// device is then as played; none where a call is refused.
fn moves_back(alloc: Global) -> Option<[(u64, bool); 3]> {
    let stream = frame_write(alloc)?;
    let Ok(part) = part_of(alloc, TINY) else {
        return None;
    };
    match Session::new(alloc, &part, stream) {
        Ok(mut session) => moves_of(alloc, &part, &mut session),
        Err(_) => None,
    }
}

#[test]
fn a_move_back_within_the_records_feeds_nothing(rt: HostRuntime) {
    // to bytes 840 and 588, which records reach, and to byte 88, up to which the stream is played again
    assert!(rt; moves_back(rt.alloc()) == Some([(0, true), (0, true), (88, true)]));
}
