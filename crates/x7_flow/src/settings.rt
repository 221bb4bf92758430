//! What decides whether an access concerns frames.

/// What decides what an access asks of frames (UG470, configuration registers).
#[derive(Clone, Copy, Drop)]
pub struct FrameSettings {
    /// Whether an IDCODE that was written is the part's, but for bits 31:28.
    pub has_idcode: bool,
    /// The word of CTL0.
    pub ctl0: u32,
    /// The code of the command that CMD holds, five bits.
    pub command_code: u8,
}
