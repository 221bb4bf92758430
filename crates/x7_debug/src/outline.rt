//! What one play of a stream shows of its positions.
ghost use Rattle.std.specs.Prelude.{◌≡◌, IfOk};
ghost use Rattle.x7_debug.specs.Position.{BeginsAtSoonest, last_of};

use crate::moving::feed_piece;
use std::alloc::Global;
use x7_engine::Device;
use x7_part::Part;
use x7_words::NoMemory;

/// What one play of a stream shows: its last position, and one before which the phase of startup is 0.
#[derive(Clone, Copy)]
pub(crate) struct Outline {
    pub(crate) last: u64,
    /// A position before which the phase of startup is 0.
    pub(crate) begins: u64,
}

impl Outline {
    /// Plays a stream on a new device of the part.
    pub(crate) fn new(alloc: Global, part: &Part, stream: &[u8]) -> Result<Outline, NoMemory>
        ensures last { IfOk result (λ o. o.last ≡ last_of part.now stream.now) }
        ensures begins { IfOk result (λ o. BeginsAtSoonest part.now stream.now o.begins) }
    {
        let mut device = Device::new(alloc, part)?;
        let begins = device.feed_until_begun(stream);
        feed_piece(&mut device, &stream[begins..]);
        Ok(Outline {
            last: device.taken(),
            begins: begins as u64,
        })
    }
}
