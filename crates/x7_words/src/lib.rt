//! Words of 32 bits, and the outside: inputs by name, sinks for text and a flash.
#![tactic(auto)]

mod bytes;
mod count;
mod flash;
mod flash_call;
mod input;
mod laws;
mod sink;
mod word;

pub use bytes::{are_bytes, is_same};
pub use count::{ends_counted, raised};
pub use flash::{ERASED_BYTE, FLASH_LIMIT, Flash, SECTOR_SIZE};
pub use flash_call::FlashCall;
pub use input::{Failed, Inputs, NoMemory, SelectFault};
pub use laws::words_are_big_endian;
pub use sink::{Sink, write_all, write_pieces};
pub use word::{bytes_of, word_of};
