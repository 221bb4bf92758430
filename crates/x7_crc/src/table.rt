//! The running check by tables (this project's choice): a word at once, and four words at once.
ghost use Rattle.std.specs.Prelude.{◌≡◌, ◌<◌, ◌+◌, ◌*◌, IsTrue, [], ◌∷◌, ℕ};
ghost use Rattle.x7_regs.specs.Register.{reg_number_count};
ghost use Rattle.x7_crc.specs.Table.{all_have_advances, check_of_zeros, has_advances};
ghost use Rattle.x7_crc.specs.Check.{bits_per_write, check_after, check_after_one, writes_to};
ghost use Rattle.x7_crc.specs.ShiftRegister.{advanced};

use crate::block_table::{FIRST, LAST, SECOND, THIRD};

/// How many bits a write has: the word's 32, and the register number's five.
const BITS_PER_WRITE: u32 = 37;

/// How many bits of a word stand before those of its highest byte.
const BITS_BEFORE_HIGHEST_BYTE: u32 = 24;

/// The check after one more write, of a word to the register with this number, by tables.
pub(crate) fn fold_by_tables(before: u32, register: u8, word: u32) -> u32
    requires { register < reg_number_count }
    ensures { result ≡ check_after_one before register word }
{
    advance_last(before ^ word) ^ advance_register(register)
}

/// The check, from 0 on, of four writes of 0 to the register with this number.
pub(crate) fn check_of_zeros(register: u8) -> u32
    requires { register < reg_number_count }
    ensures { result ≡ check_of_zeros register }
{
    let two = fold_by_tables(fold_by_tables(0, register, 0), register, 0);
    fold_by_tables(fold_by_tables(two, register, 0), register, 0)
}

/// The check after four more writes to one register, where `zeros` is the check of four writes of 0 to it.
pub(crate) fn fold_four(
    before: u32,
    zeros: u32,
    first: u32,
    second: u32,
    third: u32,
    last: u32,
) -> u32
    ensures { (register : ℕ) → register < reg_number_count → zeros ≡ check_of_zeros register
        → result ≡ check_after before (writes_to register (first ∷ second ∷ third ∷ last ∷ [])) }
{
    // What doesn't wait for the check before comes first.
    let late = advance_second(second) ^ advance_third(third) ^ advance_last(last) ^ zeros;
    advance_first(before ^ first) ^ late
}

/// A check after as many bits of 0 as four writes have.
#[tactic(auto, unfolding(crate::specs::ShiftRegister::advanced))]
fn advance_first(check: u32) -> u32
    ensures { result ≡ advanced (4 * bits_per_write) check }
{
    word_entries(&FIRST, 4 * BITS_PER_WRITE - BITS_BEFORE_HIGHEST_BYTE, check)
}

/// A check after as many bits of 0 as three writes have.
#[tactic(auto, unfolding(crate::specs::ShiftRegister::advanced))]
fn advance_second(check: u32) -> u32
    ensures { result ≡ advanced (3 * bits_per_write) check }
{
    word_entries(
        &SECOND,
        3 * BITS_PER_WRITE - BITS_BEFORE_HIGHEST_BYTE,
        check,
    )
}

/// A check after as many bits of 0 as two writes have.
#[tactic(auto, unfolding(crate::specs::ShiftRegister::advanced))]
fn advance_third(check: u32) -> u32
    ensures { result ≡ advanced (2 * bits_per_write) check }
{
    word_entries(&THIRD, 2 * BITS_PER_WRITE - BITS_BEFORE_HIGHEST_BYTE, check)
}

/// A check after as many bits of 0 as one write has.
#[tactic(auto, unfolding(crate::specs::ShiftRegister::advanced))]
fn advance_last(check: u32) -> u32
    ensures { result ≡ advanced bits_per_write check }
{
    word_entries(&LAST, BITS_PER_WRITE - BITS_BEFORE_HIGHEST_BYTE, check)
}

/// The check that a check of 0 becomes by the five bits of a register's number: the number, taken as a check, after
/// five bits of 0.
#[tactic(auto, unfolding(crate::specs::ShiftRegister::advanced))]
fn advance_register(register: u8) -> u32
    requires { register < reg_number_count }
    ensures { result ≡ advanced 5 register }
{
    register_entry(&REGISTER, register)
}

/// The check after `bit_count` bits of 0 and 24 more: the XOR of the entries for its four bytes. The four tables are
/// for the bytes from the highest down: after `bit_count` bits, and after eight more each.
#[tactic(auto, using(crate::proofs::TableLemmas::four_entries))]
fn word_entries(tables: &[[u32; 256]; 4], bit_count: u32, check: u32) -> u32
    requires { IsTrue (all_have_advances bit_count tables.now) }
    ensures { result ≡ advanced (bit_count + 24) check }
{
    let lowest = word_entry(tables, bit_count, 3, check & 0xFF);
    let low = word_entry(tables, bit_count, 2, (check >> 8) & 0xFF);
    let high = word_entry(tables, bit_count, 1, (check >> 16) & 0xFF);
    lowest ^ (low ^ (high ^ word_entry(tables, bit_count, 0, check >> 24)))
}

/// The check of one byte, `index`, after the bits of 0 that one of four tables is for, by its number from 0: after
/// `_bit_count` bits, and eight more for each table before it. `_bit_count` is for the contract alone.
#[tactic(auto, using(crate::proofs::TableLemmas::entry_in_all))]
fn word_entry(tables: &[[u32; 256]; 4], _bit_count: u32, number: usize, index: u32) -> u32
    requires tables { IsTrue (all_have_advances _bit_count tables.now) }
    requires number { number < 4 }
    requires index { index < 256 }
    ensures { result ≡ advanced (_bit_count + 8 * number) index }
{
    tables[number][index as usize]
}

/// The check of a number of five bits, `index`, after five bits of 0.
#[tactic(auto, using(crate::proofs::TableLemmas::entry_at))]
fn register_entry(table: &[u32; 32], index: u8) -> u32
    requires table { IsTrue (has_advances 5 0 table.now) }
    requires index { index < 32 }
    ensures { result ≡ advanced 5 index }
{
    table[index as usize]
}

/// For each number of five bits the check after five bits of 0.
#[rattlefmt::skip]
static REGISTER: [u32; 32] = [
    0x00000000, 0x8AD958CF, 0x105EC76F, 0x9A879FA0, 0x20BD8EDE, 0xAA64D611, 0x30E349B1, 0xBA3A117E,
    0x417B1DBC, 0xCBA24573, 0x5125DAD3, 0xDBFC821C, 0x61C69362, 0xEB1FCBAD, 0x7198540D, 0xFB410CC2,
    0x82F63B78, 0x082F63B7, 0x92A8FC17, 0x1871A4D8, 0xA24BB5A6, 0x2892ED69, 0xB21572C9, 0x38CC2A06,
    0xC38D26C4, 0x49547E0B, 0xD3D3E1AB, 0x590AB964, 0xE330A81A, 0x69E9F0D5, 0xF36E6F75, 0x79B737BA,
];
