//! Reading a flash by pages.
ghost use Rattle.std.specs.Prelude.{◌≡◌, ◌-◌, ◌*◌, ◌<◌, ◌≤◌, length, true, IsErrOf, OnOk};
ghost use Rattle.x7_words.specs.Flash.{OnlyReads};
ghost use Rattle.x7_boot.specs.Image.{flash_limit};
ghost use Rattle.x7_boot.specs.Pages.{IsBlock, BlockCalls, FaultsCounted, block_end, most_pages_at_once, page_size};
ghost use Rattle.x7_boot.specs.Reads.{HasCalled, answers_since};

use crate::fault::BootFault;
use x7_words::Flash;

/// How many bytes a page has; a flash's last one may have fewer.
pub(crate) const PAGE_SIZE: u64 = 4_096;

/// How many pages are read at once at most.
pub(crate) const MOST_PAGES_AT_ONCE: u64 = 16;

/// Reads `count` pages of a flash into `block`, from page `number` on, counted from 0, or up to the flash's end where
/// that comes first.
pub(crate) fn read_block<F: Flash>(
    flash: &mut F,
    number: u64,
    count: u64,
    block: &mut Vec<u8>,
) -> Result<(), BootFault>
    requires attached { (F.state flash.old).attached ≡ true }
    requires within { number * page_size < (F.state flash.old).extent }
    requires some { 0 < count }
    requires count { count ≤ most_pages_at_once }
    requires limit { (F.state flash.old).extent ≤ flash_limit }
    ensures read { OnOk result (IsBlock (answers_since (F.state flash.old) (F.state flash.new)) number count block.new.items) }
    ensures called { HasCalled (BlockCalls number block.new.items result) (F.state flash.old) (F.state flash.new) }
    ensures failed_length { IsErrOf result BootFault.Failed → length block.new.items ≡ block_end number count (F.state flash.old).extent - number * page_size }
    ensures faults { FaultsCounted (F.state flash.old).faults (F.state flash.new).faults result }
    ensures only_reads { OnlyReads (F.state flash.old) (F.state flash.new) }
{
    let start = number * PAGE_SIZE;
    let end = ((number + count) * PAGE_SIZE).min(flash.size());
    let Ok(()) = block.resize((end - start) as usize, 0) else {
        return Err(BootFault::NoMemory);
    };
    match flash.read_at(start, block.as_mut_slice()) {
        Ok(()) => Ok(()),
        Err(_) => Err(BootFault::Failed),
    }
}
