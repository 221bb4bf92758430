//! Packets of a configuration stream: the search for the sync word, the words of a session, and a stream cut into runs.
#![tactic(auto)]

mod appended;
mod cutter;
mod examples;
mod fast;
mod header;
mod laws;
mod machine;
mod packet_words;
mod slot;
mod stream;
mod sync;

pub use appended::{gaps_are_passed, gaps_ask_nothing, packets_append, streams_append};
pub use cutter::{Cut, Cutter};
pub use examples::{
    examples_of_ends, examples_of_headers, examples_of_the_history, examples_of_the_search,
};
pub use header::Step;
pub use laws::{
    accesses_fit, four_bytes_enter_one, histories_grow, nothing_enters, one_list_of_packets,
    one_reading, packets_are_found, reading_is_found, searching_after_desync, words_after,
    words_enter,
};
pub use machine::Machine;
pub use packet_words::{
    BUS_WIDTH_DETECT, BUS_WIDTH_SYNC, DUMMY_WORD, NO_OP, NO_OP_KIND, SYNC_BYTES, SYNC_WORD,
    TYPE1_COUNT_BOUND, TYPE1_READ_KIND, TYPE1_WRITE_KIND, TYPE2_COUNT_BOUND, TYPE2_READ_KIND,
    TYPE2_WRITE_KIND, command, frame_data_headers, frame_read_headers, kind_in, register_in,
    type1_count_in, type1_read_header, type1_write_header, type2_count_in, type2_read_header,
    type2_write_header, write_one,
};
pub use slot::{FLASH_SLOT_COUNT, FLASH_SLOT_SIZE, flash_slot};
pub use stream::{Packets, Run};
pub use sync::Matcher;
