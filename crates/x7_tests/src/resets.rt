//! A device that is reset as if attempts of a boot were before.
use crate::tiny::TINY;
use std::alloc::Global;
use x7_engine::{Device, Fed, Kept, ReadBuf};
use x7_part::part_of;
use x7_regs::{Attempt, Cause, Kind, Reg};

/// The sync word, and IPROG written to CMD.
const IPROG: [u8; 12] = [
    0xAA, 0x99, 0x55, 0x66, 0x30, 0x00, 0x80, 0x01, 0x00, 0x00, 0x00, 0x0F,
];

/// What becomes of IPROG, and BOOTSTS then, in an attempt of this kind after one of IPROG that failed by its check.
fn after_iprog(alloc: Global, kind: Kind) -> Option<(Fed, u32)> {
    let Ok(part) = part_of(alloc, TINY) else {
        return None;
    };
    let Ok(mut device) = Device::new(alloc, &part) else {
        return None;
    };
    device.reset(Kept {
        wbstar: 0,
        timer: 0,
        bspi: 0,
        kind,
        before: Some(Attempt {
            kind: Kind::Iprog,
            cause: Some(Cause::Crc),
            ignored: false,
        }),
    });
    let fed = device.feed(&IPROG, &mut ReadBuf::dropping());
    Some((fed, device.value(Reg::Bootsts)))
}

#[test]
fn a_fallback_alone_ignores_iprog(rt: HostRuntime) {
    // the kind, what becomes of IPROG, and BOOTSTS: VALID, IPROG and, of a fallback, FALLBACK; of the attempt before
    // VALID, IPROG and CRC_ERROR
    let cases = [
        (Kind::Fallback, Fed::All, 0x0000_2507),
        (Kind::Iprog, Fed::Iprog(12), 0x0000_2505),
    ];
    for (kind, fed, bootsts) in cases {
        assert!(rt; after_iprog(rt.alloc(), kind) == Some((fed, bootsts)));
    }
}
