//! Updates of a flash that forgets, and of real files.
use crate::forgetful::Forgetful;
use std::alloc::Global;
use std::os::unix::fs::symlink;
use std::path::PathBuf;
use std::{env, fs, process};
use x7_files::{FileFlash, StdSink};
use x7_ghost::FlashCalls;
use x7_in_memory::{MemoryFlash, MemoryInputs};
use x7_tool::run;
use x7_update::{UpdateFault, update};
use x7_words::Flash;

/// The switch word of an open slot: the sync word.
const OPEN: [u8; 4] = [0xAA, 0x99, 0x55, 0x66];

/// The switch word of a free slot, as it was erased.
const FREE: [u8; 4] = [0xFF; 4];

/// The switch word of a spent slot.
const SPENT: [u8; 4] = [0; 4];

/// A free slot: its switch word, and the words that lead to byte 131,072, from 0.
#[rattlefmt::skip]
const SLOT: [u8; 32] = [
    0xFF, 0xFF, 0xFF, 0xFF, 0x20, 0x00, 0x00, 0x00, 0x30, 0x02, 0x00, 0x01, 0x00, 0x02, 0x00, 0x00, //
    0x30, 0x00, 0x80, 0x01, 0x00, 0x00, 0x00, 0x0F, 0x30, 0x00, 0x80, 0x01, 0x00, 0x00, 0x00, 0x0D,
];

/// What stands after the slots, as lengths of the image, in bytes, each with the byte that fills it up to there: a
/// golden stream, an update, and erased bytes.
const AFTER_SLOTS: [(usize, u8); 3] = [(131_072, 0x11), (131_172, 0x22), (262_144, 0xFF)];

/// The image of a flash of four sectors: 2,048 slots, of which the first is open, a golden stream of 65,536 bytes 11,
/// an update of 100 bytes 22, and bytes FF. None without memory.
fn image(alloc: Global) -> Option<Vec<u8>> {
    let mut all = Vec::new(alloc);
    for _ in 0..2048 {
        all.extend_from_slice(&SLOT).ok()?;
    }
    for (length, byte) in AFTER_SLOTS {
        all.resize(length, byte).ok()?;
    }
    *all.first_chunk_mut()? = OPEN;
    Some(all)
}

/// Whether `all` has at each place of `pieces`, in bytes from 0, the bytes that stand beside the place.
fn have_all(all: &[u8], pieces: &[(usize, &[u8])]) -> bool {
    for (place, bytes) in pieces {
        let Some(rest) = all.get(*place..) else {
            return false;
        };
        if !rest.starts_with(bytes) {
            return false;
        }
    }
    true
}

/// The words of `update NAME n`. None without memory.
fn words_of(alloc: Global, name: &str) -> Option<Vec<String>> {
    let mut words = Vec::new(alloc);
    for word in ["update", name, "n"] {
        words.push(String::from_str(alloc, word).ok()?).ok()?;
    }
    Some(words)
}

/// Inputs that have the stream of an update under the name `n`: 70,000 bytes, the first 16 of them FF, as an erase
/// leaves them. None without memory.
fn inputs_of(alloc: Global) -> Option<MemoryInputs> {
    let mut stream = [0x35; 70_000];
    stream[..16].fill(0xFF);
    let mut inputs = MemoryInputs::new(alloc);
    match inputs.put("n", &stream) {
        Ok(()) => Some(inputs),
        Err(_) => None,
    }
}

/// What the command comes to: the number of its status, and whether it wrote the message that it should, and no text.
type Answer = (u8, bool);

/// Runs `update NAME n` over the flash; `message` is what the command should write. None without memory.
fn updated<F: Flash>(alloc: Global, flash: &mut F, name: &str, message: &[u8]) -> Option<Answer> {
    let words = words_of(alloc, name)?;
    let mut inputs = inputs_of(alloc)?;
    let mut out = StdSink::new(Vec::new(alloc));
    let mut err = StdSink::new(Vec::new(alloc));
    let status = run(alloc, &words, &mut inputs, flash, &mut out, &mut err).number();
    let text = out.into_writer();
    let told = err.into_writer();
    Some((status, text.is_empty() && told.as_slice() == message))
}

/// A flash in memory that holds the image. None without memory.
fn flash_of(alloc: Global) -> Option<MemoryFlash> {
    let image = image(alloc)?;
    MemoryFlash::new(alloc, "i", &image).ok()
}

/// Updates a flash in memory that forgets the update: what the command comes to, which should write `message`, and
/// whether the first slot is then spent and the second one free. None without memory.
fn updated_in_vain(alloc: Global, message: &[u8]) -> Option<(Answer, bool)> {
    let mut flash = Forgetful {
        flash: flash_of(alloc)?,
        calls: FlashCalls::new(),
    };
    let answer = updated(alloc, &mut flash, "i", message)?;
    let is_safe = have_all(flash.flash.bytes(), &[(0, &SPENT), (32, &FREE)]);
    Some((answer, is_safe))
}

#[test]
fn a_byte_that_was_lost_differs(rt: HostRuntime) {
    // the first 16 bytes of the stream are FF, as an erase leaves them
    let message = b"x7: differs i: byte 131088\n";
    assert!(rt; updated_in_vain(rt.alloc(), message) == Some(((11, true), true)));
}

/// A path in the folder of temporary files, whose name has `kind` and the number of the process. None where that can't
/// be had.
fn path_of(rt: &HostRuntime, kind: &str) -> Option<PathBuf> {
    let folder = env::temp_dir(rt).ok()?;
    let name = format!(in rt.alloc(); "x7-{kind}-{}", process::id(rt.process())).ok()?;
    folder.join(rt.alloc(), name.as_str()).ok()
}

/// Writes the image into a file; none where that can't be done.
fn put_image(rt: &HostRuntime, name: &str) -> Option<()> {
    let image = image(rt.alloc())?;
    fs::write(rt, name, image.as_slice()).ok()
}

/// The bytes of a file, which is removed; none where that can't be done.
fn taken(rt: &HostRuntime, name: &str) -> Option<Vec<u8>> {
    let Ok(bytes) = fs::read(rt, name) else {
        return None;
    };
    match fs::remove_file(rt, name) {
        Ok(()) => Some(bytes),
        Err(_) => None,
    }
}

/// Updates a flash in memory: what the command comes to, which should write no message, and whether the flash then
/// holds `bytes`. None without memory.
fn updated_in_memory(alloc: Global, bytes: &[u8]) -> Option<(Answer, bool)> {
    let mut flash = flash_of(alloc)?;
    let answer = updated(alloc, &mut flash, "i", b"")?;
    Some((answer, flash.bytes() == bytes))
}

/// Updates a new file of this name, and then a flash in memory: what each comes to, and whether the flash holds what
/// the file does. None where that can't be done.
fn updated_twice(rt: &HostRuntime, name: &str) -> Option<(Answer, (Answer, bool))> {
    put_image(rt, name)?;
    let answer = updated(rt.alloc(), &mut FileFlash::new(rt), name, b"")?;
    let bytes = taken(rt, name)?;
    Some((answer, updated_in_memory(rt.alloc(), &bytes)?))
}

/// What `updated_twice` says of a path that no other test has.
fn file_and_memory(rt: &HostRuntime) -> Option<(Answer, (Answer, bool))> {
    let path = path_of(rt, "updated")?;
    updated_twice(rt, path.as_path().as_str())
}

#[test]
fn a_file_is_updated_as_a_flash_in_memory(rt: HostRuntime) {
    assert!(rt; file_and_memory(&rt) == Some(((0, true), ((0, true), true))));
}

/// What updates come to by a link to a new file, by the link once it is removed, and of a folder, and whether the
/// file's second slot, the first free one before, is then open. None where that can't be done.
fn updated_by_link(rt: &HostRuntime, name: &str, link: &str) -> Option<([Answer; 3], bool)> {
    put_image(rt, name)?;
    symlink(rt, name, link).ok()?;
    let folder = env::temp_dir(rt).ok()?;
    let mut file = FileFlash::new(rt);
    let linked = updated(rt.alloc(), &mut file, link, b"")?;
    fs::remove_file(rt, link).ok()?;
    let gone = updated(rt.alloc(), &mut file, link, b"")?;
    let no_file = updated(rt.alloc(), &mut file, folder.as_path().as_str(), b"")?;
    let bytes = taken(rt, name)?;
    Some(([linked, gone, no_file], have_all(&bytes, &[(32, &OPEN)])))
}

/// What `updated_by_link` says of paths that no other test has.
fn links(rt: &HostRuntime) -> Option<([Answer; 3], bool)> {
    let path = path_of(rt, "linked")?;
    let link = path_of(rt, "link")?;
    updated_by_link(rt, path.as_path().as_str(), link.as_path().as_str())
}

#[test]
fn a_link_is_its_file_and_a_folder_is_none(rt: HostRuntime) {
    // done; missing and a read fault, each with a message; and the slot is open
    assert!(rt; links(&rt) == Some(([(0, true), (3, false), (6, false)], true)));
}

/// What an update of a file came to, how many bytes the file has then, and whether it has those that it should.
type Left = (Result<(), UpdateFault>, usize, bool);

/// Attaches a new file that holds the image, replaces what the file holds by `bytes`, and updates the file with the
/// stream `new`: what the update comes to, how many bytes the file has then, and whether it has `pieces`. None where
/// that can't be done.
fn changed(rt: &HostRuntime, name: &str, bytes: &[u8], pieces: &[(usize, &[u8])]) -> Option<Left> {
    put_image(rt, name)?;
    let mut file = FileFlash::new(rt);
    if file.attach(name).is_err() || fs::write(rt, name, bytes).is_err() {
        return None;
    }
    let answer = update(rt.alloc(), &mut file, b"new");
    let left = taken(rt, name)?;
    Some((answer, left.len(), have_all(&left, pieces)))
}

/// What `changed` leaves of a file that shrinks to five bytes.
fn shrunk(rt: &HostRuntime) -> Option<Left> {
    let path = path_of(rt, "shrank")?;
    changed(rt, path.as_path().as_str(), b"short", &[(0, b"short")])
}

#[test]
fn a_file_that_shrank_cannot_be_read(rt: HostRuntime) {
    let left = shrunk(&rt);
    assert!(rt;
        matches!(
            left,
            Some((Err(UpdateFault::Failed { writing: false }), 5, true))
        )
    );
}

/// What `changed` leaves of a file that grows by five bytes.
fn grown(rt: &HostRuntime) -> Option<Left> {
    let path = path_of(rt, "grew")?;
    let mut all = image(rt.alloc())?;
    all.extend_from_slice(b"grown").ok()?;
    let pieces: [(usize, &[u8]); 4] = [
        (0, &SPENT),
        (32, &OPEN),
        (131_072, b"new\xFF"),
        (262_144, b"grown"),
    ];
    changed(rt, path.as_path().as_str(), &all, &pieces)
}

#[test]
fn a_file_that_grew_is_updated_as_far_as_it_was_attached(rt: HostRuntime) {
    let left = grown(&rt);
    assert!(rt; matches!(left, Some((Ok(()), 262_149, true))));
}
