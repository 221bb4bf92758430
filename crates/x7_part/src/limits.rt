//! The most and the least that a part may have.

/// The greatest IDCODE of a part: the last number of 32 bits.
pub(crate) const GREATEST_IDCODE: u32 = 4_294_967_295;

/// The greatest number of the mode pins.
pub(crate) const GREATEST_MODE: u32 = 7;

/// The greatest code of the bus width.
pub(crate) const GREATEST_BUS_WIDTH: u32 = 3;

/// The greatest block type of a row.
pub(crate) const GREATEST_BLOCK: u32 = 2;

/// The greatest half of a row: 0 is the top one, 1 the bottom one.
pub(crate) const GREATEST_HALF: u32 = 1;

/// The greatest row of a half.
pub(crate) const GREATEST_ROW: u32 = 31;

/// The most bytes of a part's name.
pub(crate) const MOST_NAME_SIZE: usize = 64;

/// The first byte that may stand in a part's name, an exclamation mark.
pub(crate) const FIRST_PRINTED: u8 = 0x21;

/// The last byte that may stand in a part's name, a tilde.
pub(crate) const LAST_PRINTED: u8 = 0x7E;

/// The most rows of a part.
pub(crate) const MOST_ROWS: usize = 192;

/// The most columns of a row.
pub(crate) const MOST_COLUMNS: usize = 1024;

/// The most minors of a column.
pub(crate) const MOST_MINORS: u32 = 128;

/// The least bits of an address's minor.
pub(crate) const LEAST_MINOR_WIDTH: u8 = 7;

/// The most bits of an address's minor.
pub(crate) const MOST_MINOR_WIDTH: u8 = 12;

/// The least bits of an address's column.
pub(crate) const LEAST_COLUMN_WIDTH: u8 = 10;

/// The most bits of an address's column.
pub(crate) const MOST_COLUMN_WIDTH: u8 = 12;

/// The least bits of an address's row.
pub(crate) const LEAST_ROW_WIDTH: u8 = 5;

/// The most bits of an address's row.
pub(crate) const MOST_ROW_WIDTH: u8 = 8;

/// The bits of an address's half.
pub(crate) const HALF_WIDTH: u8 = 1;

/// The least bits of an address's block type.
pub(crate) const LEAST_BLOCK_WIDTH: u8 = 2;

/// The most bits of an address's block type.
pub(crate) const MOST_BLOCK_WIDTH: u8 = 3;

/// The most bits of an address.
pub(crate) const MOST_ADDRESS_WIDTH: u8 = 32;

/// The bytes of the flash that one step of WBSTAR's start address stands for where a part file doesn't say.
pub(crate) const USUAL_START_UNIT: u32 = 1;

/// The bytes of the flash that one step of WBSTAR's start address stands for where the flash's addresses have 32 bits
/// (UG470, warm boot start address).
pub const LARGE_START_UNIT: u32 = 256;

/// The most ticks that startup waits for the clocks to lock or for the impedance to match.
pub(crate) const MOST_WAIT_TICKS: u32 = 65_535;

/// The most frames of a part.
pub(crate) const MOST_FRAMES: u32 = 131_072;

/// The least words of a frame.
pub(crate) const LEAST_FRAME_WORDS: u32 = 2;

/// The most words of a frame.
pub const MOST_FRAME_WORDS: u32 = 255;

/// The words of a frame where a part file doesn't say (UG470, frame data).
pub(crate) const USUAL_FRAME_WORDS: u32 = 101;

/// The most words of a part's frames and pads: 101 for each of 131,072 frames, and for the two pads after each of 192
/// rows.
pub(crate) const MOST_WORDS: u32 = 13_277_056;
