//! The report of a device, made at once.
use crate::tiny::TINY;
use std::alloc::Global;
use x7_engine::Device;
use x7_part::part_of;
use x7_report::report;

/// The report of a new device of the part, and of two words.
const NEW: &[u8] =
    b"part tiny\ntaken 0\nend searching\nphase 0 done 0 gts 0 gwe 0\nreg CRC 00000000\nreg FAR 00000000\nreg CMD 00000000\nreg CTL0 00000000\nreg MASK 00000000\nreg STAT 0000190C\nreg COR0 00000000\nreg IDCODE 0362D093\nreg AXSS 00000000\nreg COR1 00000000\nreg WBSTAR 00000000\nreg TIMER 00000000\nreg BOOTSTS 00000000\nreg CTL1 00000000\nreg BSPI 00000000\nreads 2\ndata 00000001 FFFFFFFF\nframes 0\n";

/// Whether the report of a device and of words that it is said to have read out is this text. Without memory it isn't.
fn is_reported(alloc: Global, device: &Device, reads: &[u32], want: &[u8]) -> bool {
    match report(alloc, device, reads) {
        Ok(text) => text.as_slice() == want,
        Err(_) => false,
    }
}

/// Whether the report of a new device is this text, as `is_reported` says. Where a call is refused it isn't.
fn is_new_reported(alloc: Global, reads: &[u32], want: &[u8]) -> bool {
    let Ok(part) = part_of(alloc, TINY) else {
        return false;
    };
    match Device::new(alloc, &part) {
        Ok(device) => is_reported(alloc, &device, reads, want),
        Err(_) => false,
    }
}

#[test]
fn a_new_device_reports_its_reset_values(rt: HostRuntime) {
    assert!(rt; is_new_reported(rt.alloc(), &[1, 0xFFFF_FFFF], NEW));
}
