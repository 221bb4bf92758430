//! Names of registers and commands read back (this project's choice). A name has one place in a table, so it is
//! compared with one text, and not with all of a table.
ghost use Rattle.std.specs.Prelude.{◌≡◌, ◌≢◌, ◌≤◌, ◌<◌, ℕ, length, slice_index, IfSome, IfNone};
ghost use Rattle.x7_regs.specs.Command.{command_name_of};
ghost use Rattle.x7_regs.specs.Named.{IsCommandName, IsRegName, longest_name, place_of_name, shortest_name};
ghost use Rattle.x7_regs.specs.Register.{reg_name, reg_number_count};
ghost use Rattle.x7_regs.specs.declared.command.Command.{Command};

use crate::command::command_of;
use crate::name::{command_name, name_of};
use x7_words::is_same;

/// How many bytes a text that is looked up has at least: a place in a table is made of the first two bytes, the last
/// and the length. Each name has at least as many.
const SHORTEST_NAME: usize = 2;

/// How many bytes a name of either table has at most: the longest is that of a command.
const LONGEST_NAME: usize = 9;

/// How many places a table of names has.
const PLACE_COUNT: usize = 64;

// What counts in the place of a name more than once; its first byte counts once. All that is asked of the three weights
// is that no two names of a table have one place.

/// How often a name's second byte counts in its place.
const SECOND_WEIGHT: usize = 13;

/// How often a name's last byte counts in its place.
const LAST_WEIGHT: usize = 3;

/// How often a name's length counts in its place.
const LENGTH_WEIGHT: usize = 2;

/// The register numbers, each at the place of its name. A place of no name has 0.
#[rattlefmt::skip]
const REGISTERS: [u8; PLACE_COUNT] = [
    19, 25,  0,  6, 26,  0,  0, 27,  0, 17, 28,  0, 22, 29,  0,  1,
     0,  0,  0,  8,  0,  0,  0,  0, 12, 10,  0,  7, 31,  2,  9,  5,
     0, 14, 24,  0,  0,  0,  0,  0,  0,  0,  0,  0, 11,  0,  0,  3,
     0,  0, 20, 16, 15, 21,  0,  0,  0,  0, 13, 23,  0, 18,  4, 30,
];

/// The codes of the commands, each at the place of its name. A place of no name has 0.
#[rattlefmt::skip]
const COMMANDS: [u8; PLACE_COUNT] = [
     8,  0,  0,  0,  0,  0,  0,  0,  0,  3,  7,  0,  0, 12,  0,  0,
    10,  0, 17,  0,  0,  0,  4, 18,  0,  0, 13,  1,  0,  5,  0,  0,
     0,  0,  9,  0,  0,  0,  2,  0,  0,  0,  0,  0,  0,  0,  0,  0,
     0,  6,  0,  0, 19, 11,  0,  0, 15,  0,  0,  0,  0,  0, 16,  0,
];

/// What a table has at the place of a text, whether or not the text is a name.
fn at_place(table: &[u8; PLACE_COUNT], name: &[u8]) -> u8
    requires least { shortest_name ≤ length name.now }
    requires most { length name.now ≤ longest_name }
    ensures { result ≡ slice_index table.now (place_of_name name.now) }
{
    let (first, second) = (usize::from(name[0]), usize::from(name[1]));
    let last = usize::from(name[name.len() - 1]);
    let weighed = first + SECOND_WEIGHT * second + LAST_WEIGHT * last + LENGTH_WEIGHT * name.len();
    table[weighed % PLACE_COUNT]
}

/// The register number that the table has at the place of a text, whether or not the text is its name.
fn register_at(name: &[u8]) -> u8
    requires least { shortest_name ≤ length name.now }
    requires most { length name.now ≤ longest_name }
    ensures value { result ≡ slice_index REGISTERS (place_of_name name.now) }
    ensures most { result < reg_number_count }
{
    at_place(&REGISTERS, name)
}

/// The register number of this name, a register's or, for a number without a register, `R` and its two digits; `None`
/// for any other text.
pub fn reg_named(text: &[u8]) -> Option<u8>
    ensures named { IfSome result (λ number. IsRegName text.now number) }
    ensures unnamed { IfNone result ((number : ℕ) → number < reg_number_count → text.now ≢ reg_name number) }
{
    if text.len() < SHORTEST_NAME || text.len() > LONGEST_NAME {
        return None;
    }
    let number = register_at(text);
    if is_same(name_of(number).bytes(), text) {
        return Some(number);
    }
    None
}

/// The code of the command of this name, or `None` for a text that no command has as its name.
pub fn command_named(text: &[u8]) -> Option<u8>
    ensures named { IfSome result (λ code. IsCommandName text.now code) }
    ensures unnamed { IfNone result ((command : Command) → text.now ≢ command_name_of command) }
{
    if text.len() < SHORTEST_NAME || text.len() > LONGEST_NAME {
        return None;
    }
    let code = at_place(&COMMANDS, text);
    let command = command_of(u32::from(code));
    if is_same(command_name(command).bytes(), text) {
        return Some(command.code() as u8);
    }
    None
}
