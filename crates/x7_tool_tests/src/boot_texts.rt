//! The text of a boot, made at once.
use std::alloc::Global;
use x7_boot::boot;
use x7_in_memory::MemoryFlash;
use x7_part::{Part, part_of};
use x7_tool::boot_text;
use x7_words::Flash;

/// A part file: four frames of 101 words, two in each half.
const TINY: &[u8] =
    b"name = \"tiny\"\nidcode = 0x0362D093\nmode = 1\nrow = [{block = 0, half = 0, row = 0, minors = [2]}, {block = 0, half = 1, row = 0, minors = [2]}]\n";

/// A stream: the sync word, and a write of a wrong check to CRC.
const WRONG_CHECK: &[u8] = b"\xAA\x99\x55\x66\x30\0\0\x01\0\0\0\x01";

/// The text of a boot whose two attempts end at a wrong check. In STAT stand MODE 1, INIT_COMPLETE, DCI_MATCH,
/// MMCM_LOCK and CRC_ERROR; in BOOTSTS of the fallback VALID, FALLBACK and CRC_ERROR, and of the attempt before VALID
/// and CRC_ERROR.
const STOPPED: &[u8] =
    b"boot tiny\nattempt 1 power 00000000 crc\nattempt 2 fallback 00000000 crc\nend stopped\npart tiny\ntaken 12\nend fault Crc 00000000 00000001\nphase 0 done 0 gts 0 gwe 0\nreg CRC 00000000\nreg FAR 00000000\nreg CMD 00000000\nreg CTL0 00000000\nreg MASK 00000000\nreg STAT 0000090D\nreg COR0 00000000\nreg IDCODE 0362D093\nreg AXSS 00000000\nreg COR1 00000000\nreg WBSTAR 00000000\nreg TIMER 00000000\nreg BOOTSTS 00002123\nreg CTL1 00000000\nreg BSPI 00000000\nreads 0\nframes 0\n";

/// The text of a boot of the part from the flash; none where a call is refused.
fn text_of_boot(alloc: Global, part: &Part, flash: &mut MemoryFlash) -> Option<Vec<u8>> {
    if flash.attach("f").is_err() {
        return None;
    }
    match boot(alloc, part, flash) {
        Ok(booted) => boot_text(alloc, &booted).ok(),
        Err(_) => None,
    }
}

/// The text of a boot from a flash of these bytes; none where a call is refused.
fn booted(alloc: Global, bytes: &[u8]) -> Option<Vec<u8>> {
    let Ok(part) = part_of(alloc, TINY) else {
        return None;
    };
    match MemoryFlash::new(alloc, "f", bytes) {
        Ok(mut flash) => text_of_boot(alloc, &part, &mut flash),
        Err(_) => None,
    }
}

#[test]
fn a_boot_that_stops_tells_both_attempts_and_its_device(rt: HostRuntime) {
    let Some(text) = booted(rt.alloc(), WRONG_CHECK) else {
        panic!(rt; "no boot text")
    };
    assert!(rt; text.as_slice() == STOPPED);
}
