//! The lines of short writes, ready to be stored at once: rows of 32 bytes, the last of which says how many are text.
ghost use Rattle.std.specs.Prelude.{◌≡◌, ℕ, List, ◌<◌};
ghost use Rattle.x7_regs.specs.Register.{reg_number_count};
ghost use Rattle.x7_regs.specs.Command.{command_code_count};
ghost use Rattle.x7_listing.specs.Fast.AtOnce.{AreRowsFrom, command_lines_text, row_text, write_name_text, write_start_text};

/// The place, from 0, of the byte of a row that says how many of the row's bytes are text: the last of its 32.
pub(crate) const TEXT_SIZE_AT: usize = 31;

/// How many rows the table of commands has: one for each code of five bits, also where it is no command's (UG470,
/// command register).
pub(crate) const COMMAND_CODES: u32 = 1 << 5;

/// The row of this number in a table, from 0.
#[inline(always)]
fn row_in(rows: &[[u8; 32]; 32], number: usize) -> &[u8; 32]
    requires { number < 32 }
    ensures { (text : ℕ → List ℕ) → AreRowsFrom text 0 rows.now → row_text result.now ≡ text number }
{
    &rows[number]
}

/// The row of the lines of a write of one word to a register, up to the word's digits.
#[inline(always)]
pub(crate) fn write_row(register: u8) -> &'static [u8; 32]
    requires { register < reg_number_count }
    ensures { row_text result.now ≡ write_start_text register }
{
    row_in(&WRITES, register as usize)
}

/// The row of the lines of a write to CMD of a word below 32, be it a command's code or not.
#[inline(always)]
pub(crate) fn command_row(word: u32) -> &'static [u8; 32]
    requires { word < command_code_count }
    ensures { row_text result.now ≡ command_lines_text word }
{
    row_in(&COMMANDS, word as usize)
}

/// The row of the line of a write to a register, up to its word count.
#[inline(always)]
pub(crate) fn name_row(register: u8) -> &'static [u8; 32]
    requires { register < reg_number_count }
    ensures { row_text result.now ≡ write_name_text register }
{
    row_in(&NAMES, register as usize)
}

/// For each register, by its number, the lines of a write of one word up to the word's digits.
#[rattlefmt::skip]
static WRITES: [[u8; 32]; 32] = [
    *b"write CRC 1\ndata               \x11",
    *b"write FAR 1\ndata               \x11",
    *b"write FDRI 1\ndata              \x12",
    *b"write FDRO 1\ndata              \x12",
    *b"write CMD 1\ndata               \x11",
    *b"write CTL0 1\ndata              \x12",
    *b"write MASK 1\ndata              \x12",
    *b"write STAT 1\ndata              \x12",
    *b"write LOUT 1\ndata              \x12",
    *b"write COR0 1\ndata              \x12",
    *b"write MFWR 1\ndata              \x12",
    *b"write CBC 1\ndata               \x11",
    *b"write IDCODE 1\ndata            \x14",
    *b"write AXSS 1\ndata              \x12",
    *b"write COR1 1\ndata              \x12",
    *b"write R15 1\ndata               \x11",
    *b"write WBSTAR 1\ndata            \x14",
    *b"write TIMER 1\ndata             \x13",
    *b"write R18 1\ndata               \x11",
    *b"write R19 1\ndata               \x11",
    *b"write R20 1\ndata               \x11",
    *b"write R21 1\ndata               \x11",
    *b"write BOOTSTS 1\ndata           \x15",
    *b"write R23 1\ndata               \x11",
    *b"write CTL1 1\ndata              \x12",
    *b"write R25 1\ndata               \x11",
    *b"write R26 1\ndata               \x11",
    *b"write R27 1\ndata               \x11",
    *b"write R28 1\ndata               \x11",
    *b"write R29 1\ndata               \x11",
    *b"write R30 1\ndata               \x11",
    *b"write BSPI 1\ndata              \x12",
];

/// For each word below 32 the lines of its write to CMD.
#[rattlefmt::skip]
static COMMANDS: [[u8; 32]; 32] = [
    *b"write CMD 1\ncmd NULL\n          \x15",
    *b"write CMD 1\ncmd WCFG\n          \x15",
    *b"write CMD 1\ncmd MFW\n           \x14",
    *b"write CMD 1\ncmd LFRM\n          \x15",
    *b"write CMD 1\ncmd RCFG\n          \x15",
    *b"write CMD 1\ncmd START\n         \x16",
    *b"write CMD 1\ncmd RCAP\n          \x15",
    *b"write CMD 1\ncmd RCRC\n          \x15",
    *b"write CMD 1\ncmd AGHIGH\n        \x17",
    *b"write CMD 1\ncmd SWITCH\n        \x17",
    *b"write CMD 1\ncmd GRESTORE\n      \x19",
    *b"write CMD 1\ncmd SHUTDOWN\n      \x19",
    *b"write CMD 1\ncmd GCAPTURE\n      \x19",
    *b"write CMD 1\ncmd DESYNC\n        \x17",
    *b"write CMD 1\ndata 0000000E\n     \x1A",
    *b"write CMD 1\ncmd IPROG\n         \x16",
    *b"write CMD 1\ncmd CRCC\n          \x15",
    *b"write CMD 1\ncmd LTIMER\n        \x17",
    *b"write CMD 1\ncmd BSPI_READ\n     \x1A",
    *b"write CMD 1\ncmd FALL_EDGE\n     \x1A",
    *b"write CMD 1\ndata 00000014\n     \x1A",
    *b"write CMD 1\ndata 00000015\n     \x1A",
    *b"write CMD 1\ndata 00000016\n     \x1A",
    *b"write CMD 1\ndata 00000017\n     \x1A",
    *b"write CMD 1\ndata 00000018\n     \x1A",
    *b"write CMD 1\ndata 00000019\n     \x1A",
    *b"write CMD 1\ndata 0000001A\n     \x1A",
    *b"write CMD 1\ndata 0000001B\n     \x1A",
    *b"write CMD 1\ndata 0000001C\n     \x1A",
    *b"write CMD 1\ndata 0000001D\n     \x1A",
    *b"write CMD 1\ndata 0000001E\n     \x1A",
    *b"write CMD 1\ndata 0000001F\n     \x1A",
];

/// For each register, by its number, the line of a write up to the word count.
#[rattlefmt::skip]
static NAMES: [[u8; 32]; 32] = [
    *b"write CRC                      \x0A",
    *b"write FAR                      \x0A",
    *b"write FDRI                     \x0B",
    *b"write FDRO                     \x0B",
    *b"write CMD                      \x0A",
    *b"write CTL0                     \x0B",
    *b"write MASK                     \x0B",
    *b"write STAT                     \x0B",
    *b"write LOUT                     \x0B",
    *b"write COR0                     \x0B",
    *b"write MFWR                     \x0B",
    *b"write CBC                      \x0A",
    *b"write IDCODE                   \x0D",
    *b"write AXSS                     \x0B",
    *b"write COR1                     \x0B",
    *b"write R15                      \x0A",
    *b"write WBSTAR                   \x0D",
    *b"write TIMER                    \x0C",
    *b"write R18                      \x0A",
    *b"write R19                      \x0A",
    *b"write R20                      \x0A",
    *b"write R21                      \x0A",
    *b"write BOOTSTS                  \x0E",
    *b"write R23                      \x0A",
    *b"write CTL1                     \x0B",
    *b"write R25                      \x0A",
    *b"write R26                      \x0A",
    *b"write R27                      \x0A",
    *b"write R28                      \x0A",
    *b"write R29                      \x0A",
    *b"write R30                      \x0A",
    *b"write BSPI                     \x0B",
];
