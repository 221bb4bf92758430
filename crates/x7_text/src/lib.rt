//! The texts that every report shares: hexadecimal digits, decimal numbers, and the lines of a row of words or bytes.
#![tactic(auto)]

mod block;
mod digits;
mod either_case;
mod growing;
mod laws;
mod line_reader;
mod lines;
mod read_row;
mod reading;
mod room;
mod row;

pub use block::{bytes_line, data_line, hex_of_block, hex_of_sixteen};
pub use digits::{MOST_DIGITS, hex_of_byte, hex_of_word, put_decimal};
pub use either_case::read_pairs;
pub use growing::{put_number, put_text};
pub use laws::{
    digits_lead_back, either_case_leads_back, lines_in_parts, lines_lead_back, lines_one_by_one,
    rows_are_the_elements,
};
pub use line_reader::{LineReader, TakesLines, read_lines};
pub use lines::{after, first_line, means_nothing};
pub use read_row::{read_byte_row, read_word_row};
pub use reading::{
    HexPrefix, block_of_hex, decimal_below, number_of_decimal, prefix_of_hex, word_of_hex,
};
pub use room::{make_room, put};
pub use row::{BYTES_ROW_SIZE, put_bytes, put_close, put_word, put_words};
