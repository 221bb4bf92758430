//! The faults that stop a device.

/// A fault that stops a device (UG470, configuration registers).
#[derive(Clone, Copy)]
pub enum Fault {
    /// This word stood in a header's place and is no header.
    Packet(u32),
    /// A written idcode differs from the part's in the low 28 bits; or no idcode that matches was written before a word
    /// for FDRI or MFWR, or before START, and `got` is 0.
    Id {
        /// The part's idcode.
        want: u32,
        /// The word written to IDCODE, or 0 where none that matches was written in time.
        got: u32,
    },
    /// A written check differs from the running one.
    Crc {
        /// The running check.
        want: u32,
        /// The word written to CRC.
        got: u32,
    },
    /// A run of frame data, a copy or a readback begins at FAR, this address, at which the part has no frame.
    Address(u32),
    /// A word of frame data completes a frame past the part's last slot.
    Overrun,
    /// A word was written to MFWR with no frame to copy, or under another command than MFW.
    Multi,
    /// The stream asks for decryption, which is left out: a word was written to CBC, or one to CTL0 after which DEC is
    /// 1.
    Encrypted,
    /// The configuration watchdog fired.
    Watchdog,
}
