//! A device that plays bytes piece by piece, and the words that it reads out.
ghost use Rattle.std.specs.Prelude.{◌≡◌, ◌++◌, ◌+◌, ◌<◌, ◌≤◌, [], true, false, Ok, Err, length, vec_capacity, vec_len, IfOk, IsOk, OnErr, OnOk};
ghost use Rattle.x7_forms.specs.Known.{reads_limit};
ghost use Rattle.x7_playing.specs.Playing.{HasPlayed, MayPlay, MayPlayBy, PlaysOn, empty_buffer, FeedsOn, FeedsPrefix, ForSomePrefix, PlaysPrefix, play_state, reads_room};

use std::alloc::Global;
use x7_engine::{Device, Fed, ReadBuf};
use x7_part::Part;
use x7_words::NoMemory;

/// The most words that a play may read out.
const READS_LIMIT: usize = 16_777_216;

/// The most words that a device reads out before they are moved out of the buffer.
const READS_ROOM: u32 = 4_096;

/// Moves the words of a buffer to the end of `reads`, the words read out before, which has room for them, unless all
/// together are over the limit; says whether they are.
fn gather(buffer: &mut ReadBuf, reads: &mut Vec<u32>) -> bool
    requires within { vec_len reads.old ≤ reads_limit }
    requires most { buffer.old.most ≡ Some reads_room }
    requires room { vec_len reads.old + reads_room ≤ vec_capacity reads.old }
    ensures appends { result ≡ false → reads.new.items ≡ reads.old.items ++ buffer.old.words }
    ensures within { result ≡ false → vec_len reads.new ≤ reads_limit }
    ensures cleared { result ≡ false → buffer.new ≡ record buffer.old { words = [] } }
    ensures kept { result ≡ true → buffer.new ≡ buffer.old }
    ensures over { result ≡ true → reads_limit < vec_len reads.old + length buffer.old.words }
{
    if buffer.words().len() > READS_LIMIT - reads.len() {
        return true;
    }
    let Ok(()) = reads.extend_from_slice(buffer.words()) else {
        unreachable!()
    };
    buffer.clear();
    false
}

/// Feeds the bytes of a piece to a device, up to one that stops it or until the words read out are over their limit,
/// gathers these words, and says whether they are over it. The room for words is made before the bytes are fed that
/// read them out. After want of memory a prefix of the piece was fed.
fn feed(
    device: &mut Device,
    buffer: &mut ReadBuf,
    reads: &mut Vec<u32>,
    piece: &[u8],
) -> Result<bool, NoMemory>
    requires { MayPlayBy false (play_state device.old buffer.old reads.old.items) (length piece.now) }
    ensures played { IfOk result (λ over. FeedsOn over (play_state device.old buffer.old reads.old.items) (play_state device.new buffer.new reads.new.items) piece.now) }
    ensures prefix { OnErr result (ForSomePrefix piece.now (FeedsPrefix (play_state device.old buffer.old reads.old.items) (play_state device.new buffer.new reads.new.items))) }
    ensures empties_buffer { OnErr result (buffer.new ≡ empty_buffer) }
{
    let mut at = 0;
    'feeds: loop {
        let Ok(()) = reads.reserve(READS_ROOM as usize) else {
            return Err(NoMemory);
        };
        let fed = device.feed(&piece[at..], buffer);
        if gather(buffer, reads) {
            return Ok(true);
        }
        match fed {
            Fed::ReadFull(count) => at += count,
            _ => return Ok(false),
        }
    }
}

/// A device on the bench, and the words that it read out, at most as many as a play may.
pub struct Player {
    /// The device.
    pub device: Device,
    /// Room for words that the device reads out, which are moved to `reads` when it is full, and after each piece.
    pub buffer: ReadBuf,
    /// The words that the device read out; of a player that is over without the last ones, which stay in `buffer`.
    pub reads: Vec<u32>,
    /// Whether more words were read out than a play may: then nothing more is played.
    pub is_over_limit: bool,
}

impl Drop for Player {
    fn drop(self) {
        let Player {
            device: _,
            buffer: _,
            reads: _,
            is_over_limit: _,
        } = self;
    }
}

impl Player {
    /// A player of a new device of the part, which was given no byte.
    pub fn new(alloc: Global, part: &Part) -> Result<Player, NoMemory>
        ensures { IfOk result (λ player. HasPlayed part.now [] player) }
    {
        Ok(Player {
            device: Device::new(alloc, part)?,
            buffer: ReadBuf::new(alloc, READS_ROOM)?,
            reads: Vec::new(alloc),
            is_over_limit: false,
        })
    }

    /// Plays the bytes of a piece, up to one that stops the device, or until the player is over. A player that is over
    /// plays nothing and stays as it is. After want of memory the device has taken a prefix of the piece, and the
    /// player has the words that this prefix read out, but for those that are still due.
    pub fn play(&mut self, piece: &[u8]) -> Result<(), NoMemory>
        requires { MayPlay self.old (length piece.now) }
        ensures played { OnOk result (PlaysOn self.old self.new piece.now) }
        ensures stays_over { self.old.is_over_limit ≡ true → IsOk result × (self.new ≡ self.old) }
        ensures prefix { OnErr result (ForSomePrefix piece.now (PlaysPrefix self.old self.new)) }
        ensures not_over { OnErr result (self.new.is_over_limit ≡ false) }
        ensures empties_buffer { OnErr result (self.new.buffer ≡ empty_buffer) }
    {
        if self.is_over_limit {
            return Ok(());
        }
        self.is_over_limit = feed(&mut self.device, &mut self.buffer, &mut self.reads, piece)?;
        Ok(())
    }

    /// The player's device, and its `reads`.
    pub fn into_parts(self) -> (Device, Vec<u32>)
        ensures device { result.0 ≡ self.device }
        ensures reads { result.1 ≡ self.reads }
    {
        let Player {
            device,
            buffer: _,
            reads,
            is_over_limit: _,
        } = self;
        (device, reads)
    }
}
