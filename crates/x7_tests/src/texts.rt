//! Texts that are made or read at once, and the runs of a stream, which the command doesn't take.
use std::alloc::Global;
use x7_in_memory::MemoryInputs;
use x7_listing::{Lister, assemble};
use x7_mcs::{flash_of, mcs_text};
use x7_packets::{Packets, Run, Step};
use x7_words::{Inputs, NoMemory};

/// The Intel HEX text of three bytes.
const HEX_TEXT: &[u8] = b":020000040000FA\n:03000000010203F7\n:00000001FF\n";

/// Whether three bytes have that text, and the text these bytes; none where one is refused, or without memory.
fn text_and_image(alloc: Global) -> Option<(bool, bool)> {
    let Ok(text) = mcs_text(alloc, &[1, 2, 3]) else {
        return None;
    };
    match flash_of(alloc, &text) {
        Ok(image) => Some((
            text.as_slice() == HEX_TEXT,
            image.as_slice() == [1, 2, 3].as_slice(),
        )),
        Err(_) => None,
    }
}

#[test]
fn an_image_comes_back_from_its_intel_hex_text(rt: HostRuntime) {
    assert!(rt; text_and_image(rt.alloc()) == Some((true, true)));
}

/// Whether the text assembles to these bytes.
fn assembles_to(alloc: Global, text: &[u8], want: &[u8]) -> bool {
    match assemble(alloc, text) {
        Ok(bytes) => bytes.as_slice() == want,
        Err(_) => false,
    }
}

#[test]
fn a_text_assembles_at_once(rt: HostRuntime) {
    let text = b"sync\nwrite CMD 1\ndata 00000001\ncrc\n";
    let want = b"\xAA\x99\x55\x66\x30\0\x80\x01\0\0\0\x01\x30\0\0\x01\xE5\xDA\x85\x4F";
    assert!(rt; assembles_to(rt.alloc(), text, want));
}

/// Whether the first run of an input that gives five bytes at a time is a gap of these bytes, or, where there are none,
/// the stream's end; and how many were taken of the input. None where a call is refused.
fn first_of(alloc: Global, inputs: &mut MemoryInputs, gap: &[u8]) -> Option<(bool, u64)> {
    inputs.piece(5);
    let Ok(()) = inputs.select("stream") else {
        return None;
    };
    let Ok(mut packets) = Packets::new(alloc, b"") else {
        return None;
    };
    let is_so = match packets.next_run(inputs) {
        Ok(Run::Skip(bytes)) => bytes == gap,
        Ok(Run::End) => gap.is_empty(),
        _ => false,
    };
    Some((is_so, packets.taken()))
}

/// What `first_of` says of an input that holds the stream.
fn first_run(alloc: Global, stream: &[u8], gap: &[u8]) -> Option<(bool, u64)> {
    let mut inputs = MemoryInputs::new(alloc);
    match inputs.put("stream", stream) {
        Ok(()) => first_of(alloc, &mut inputs, gap),
        Err(_) => None,
    }
}

#[test]
fn the_first_run_is_a_gap_up_to_its_sync_word_or_the_end(rt: HostRuntime) {
    let gap = b"\xFF\xAA\x99\x55\x66";
    let stream = b"\xFF\xAA\x99\x55\x66\x20\0\0\0";
    assert!(rt; first_run(rt.alloc(), stream, gap) == Some((true, 5)));
    assert!(rt; first_run(rt.alloc(), b"", b"") == Some((true, 0)));
}

/// Runs of a stream.
const RUNS: [Run<'static>; 8] = [
    Run::Skip(b"\xFF\xAA\x99\x55\x66"),
    Run::Sync,
    Run::Head(0x2000_0000, Step::Nop),
    Run::Head(0x3000_4002, Step::Open(2, 2)),
    Run::Word(2, 0x11),
    Run::Body(2, b"\0\0\0\x12"),
    Run::Tail(b"\x01\x02"),
    Run::End,
];

/// Whether a lister that takes the runs, one after another, has this text; an error without memory.
fn is_listed_by_runs(lister: &mut Lister, want: &[u8]) -> Result<bool, NoMemory> {
    for run in &RUNS {
        lister.take(run)?;
    }
    Ok(lister.text() == want)
}

#[test]
fn a_stream_is_listed_by_its_runs(rt: HostRuntime) {
    let want = b"bytes FF\nsync\nnop\nwrite FDRI 2\ndata 00000011 00000012\nbytes 0102\n";
    let mut lister = Lister::new(rt.alloc());
    assert!(rt; is_listed_by_runs(&mut lister, want) == Ok(true));
}

/// Three streams, each of which begins with the other half of a word.
const HALVES: [&[u8]; 3] = [
    b"\xAA\x99",
    b"\x55\x66\xAA\x99\x55\x66\x30\0\x80\x02\0\0",
    b"\0\x07\x20\0\0\0",
];

/// Whether a lister that lists the three streams has this text; an error without memory.
fn is_listed_in_turn(lister: &mut Lister, want: &[u8]) -> Result<bool, NoMemory> {
    for stream in HALVES {
        lister.feed(stream)?;
        lister.finish()?;
    }
    Ok(lister.text() == want)
}

#[test]
fn a_new_listing_begins_after_finish(rt: HostRuntime) {
    let want = b"bytes AA99\nbytes 5566\nsync\nwrite CMD 2\nbytes 0000\nbytes 000720000000\n";
    let mut lister = Lister::new(rt.alloc());
    assert!(rt; is_listed_in_turn(&mut lister, want) == Ok(true));
}
