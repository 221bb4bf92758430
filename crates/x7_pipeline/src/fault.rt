//! Why a word of a run, a copy or a readback is refused.

/// Why the pipeline takes no word, puts no copy or gives no word.
#[derive(Clone, Copy, Drop)]
pub enum RunFault {
    /// The part has no frame at this address, at which the run, the copy or the readback begins.
    Address(u32),
    /// The word completes a frame past the last slot.
    Overrun,
    /// A copy under another command than MFW, or without a source.
    Multi,
}
