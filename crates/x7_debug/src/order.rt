//! The orders of a script.

/// What holds at the position that an order `until` goes forward to. One of these is that the device has stopped.
#[derive(Clone, Copy, Drop)]
pub enum Stop {
    /// The bytes end in a session of the stream: after a sync word, without a DESYNC since, and nothing stopped the
    /// device.
    Synced,
    /// The bytes end in a gap of the stream, where the sync word is searched, and nothing stopped the device.
    Searching,
    /// The device has stopped: by a fault, or by an IPROG that was obeyed.
    Stopped,
    /// Startup is in this phase, 0 to 7.
    Phase(u8),
}

/// What a line of a script asks for. A position is how many bytes of the stream, from its first on, the device took; a
/// move goes no further than to position 0 or to the last one.
#[derive(Clone, Copy, Drop)]
pub enum Order {
    /// Goes forward by this many bytes.
    Step(u32),
    /// Goes back by this many bytes.
    Back(u32),
    /// Goes to this position.
    Go(u32),
    /// Goes forward to the first later position where this holds, or else to the last one.
    Until(Stop),
    /// Shows the registers.
    Regs,
    /// Shows the line of startup.
    Phase,
    /// Shows the frame at this address.
    Frame(u32),
}
