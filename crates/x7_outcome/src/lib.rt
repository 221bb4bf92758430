//! What each form of the command comes to, and what the forms share: the flash of a name, streams and texts that are
//! read, and texts that are ready to be written.
#![tactic(auto)]

mod feeding;
mod flash;
mod stream;
mod text;

pub use feeding::feed_whole;
pub use flash::{attach, open_flash};
pub use stream::{Stream, read_data, read_stream};
pub use text::{Ready, Text, put_whole};
