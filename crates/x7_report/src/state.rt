//! The state of a device as text, appended where room is made first.
ghost use Rattle.std.specs.Prelude.{◌≡◌, ◌∷◌, ◌++◌, ◌+◌, ◌*◌, length, OnOk, OnErr};
ghost use Rattle.std.specs.List.{flat_map};
ghost use Rattle.x7_words.specs.Characters.{space_byte};
ghost use Rattle.x7_text.specs.Appends.{Appends, HasSpareRoom};
ghost use Rattle.x7_text.specs.Digits.{hex_word};
ghost use Rattle.x7_report.specs.State.{end_room, end_text, fault_room, fault_text, line_digit, phase_room, phase_text, reg_line, reg_line_room, reg_text, state_text};

use x7_engine::{End, Fault, SHOWN_COUNT, Snapshot};
use x7_regs::{Reg, name_of};
use x7_text::{hex_of_word, make_room, put, put_decimal, put_number, put_text};
use x7_words::NoMemory;

/// The most bytes of the words that say where the bytes taken end: `fault `, and a fault's kind and words.
const END_ROOM: usize = 27;

/// The most bytes of the line of startup, with 20 digits for its phase: it is written as a number of 64 bits.
const PHASE_ROOM: usize = 46;

/// The most bytes that the line of a register takes: those of `reg BOOTSTS`, a blank, eight digits and a line end.
const REG_LINE_ROOM: usize = 21;

/// Appends a name and the digits of a word.
pub(crate) fn put_named_word(out: &mut Vec<u8>, name: &[u8], word: u32)
    requires { HasSpareRoom out.old (length name.now + 8) }
    ensures appends { Appends out.old out.new (name.now ++ hex_word word) (length name.now + 8) }
{
    put(out, name);
    put(out, &hex_of_word(word));
}

/// Appends a name and the digits of two words, with a space between these.
fn put_named_pair(out: &mut Vec<u8>, name: &[u8], want: u32, got: u32)
    requires { HasSpareRoom out.old (length name.now + 17) }
    ensures { out.new.items ≡ out.old.items ++ (name.now ++ hex_word want ++ space_byte ∷ hex_word got) }
{
    put_named_word(out, name, want);
    put_named_word(out, b" ", got);
}

/// Appends the kind of a fault, and its words.
fn put_fault(out: &mut Vec<u8>, fault: Fault)
    requires { HasSpareRoom out.old fault_room }
    ensures { out.new.items ≡ out.old.items ++ fault_text fault }
{
    match fault {
        Fault::Packet(word) => put_named_word(out, b"Packet ", word),
        Fault::Id { want, got } => put_named_pair(out, b"Id ", want, got),
        Fault::Crc { want, got } => put_named_pair(out, b"Crc ", want, got),
        Fault::Address(far) => put_named_word(out, b"Address ", far),
        Fault::Overrun => put(out, b"Overrun"),
        Fault::Multi => put(out, b"Multi"),
        Fault::Encrypted => put(out, b"Encrypted"),
        Fault::Watchdog => put(out, b"Watchdog"),
    }
}

/// Appends the words that say where the bytes taken end.
#[tactic(auto, unfolding(crate::specs::State::end_text))]
fn put_end(out: &mut Vec<u8>, end: End)
    requires { HasSpareRoom out.old end_room }
    ensures { out.new.items ≡ out.old.items ++ end_text end }
{
    match end {
        End::Searching => put(out, b"searching"),
        End::Synced => put(out, b"synced"),
        End::Iprog(wbstar) => put_named_word(out, b"iprog ", wbstar),
        End::Fault(fault) => {
            put(out, b"fault ");
            put_fault(out, fault);
        }
    }
}

/// Appends to `out` what a report says after `end `, of where the bytes taken end (this project's choice): `searching`,
/// `synced`, `iprog WBSTAR`, or `fault ` with the kind of fault and its words. Words have eight upper-case hexadecimal
/// digits; no line feed is appended. `NoMemory` leaves `out` as it was.
pub fn end_words(out: &mut Vec<u8>, snapshot: &Snapshot) -> Result<(), NoMemory>
    ensures appends { OnOk result (out.new.items ≡ out.old.items ++ end_text snapshot.now.end) }
    ensures unchanged { OnErr result (out.new.items ≡ out.old.items) }
{
    make_room(out, END_ROOM)?;
    put_end(out, snapshot.end);
    Ok(())
}

/// Appends a name and the digit of `bit`, which is DONE, GTS_CFG_B or GWE: 1 where it is high, and 0 else.
fn put_bit(out: &mut Vec<u8>, name: &[u8], bit: bool)
    requires { HasSpareRoom out.old (length name.now + 1) }
    ensures appends { Appends out.old out.new (name.now ++ line_digit bit) (length name.now + 1) }
{
    put(out, name);
    put(out, if bit { b"1" } else { b"0" });
}

/// Appends the line of startup.
#[tactic(auto, unfolding(crate::specs::State::phase_text))]
fn put_phase(out: &mut Vec<u8>, snapshot: &Snapshot)
    requires { HasSpareRoom out.old phase_room }
    ensures { out.new.items ≡ out.old.items ++ phase_text snapshot.now }
{
    put(out, b"phase ");
    put_decimal(out, u64::from(snapshot.phase));
    put_bit(out, b" done ", snapshot.lines.done);
    put_bit(out, b" gts ", snapshot.lines.gts);
    put_bit(out, b" gwe ", snapshot.lines.gwe);
    put(out, b"\n");
}

/// Appends to `out` the line `phase P done D gts G gwe E` (this project's choice): the phase of startup in decimal, and
/// DONE, GTS_CFG_B and GWE as 0 or 1. `NoMemory` leaves `out` as it was.
pub fn phase_line(out: &mut Vec<u8>, snapshot: &Snapshot) -> Result<(), NoMemory>
    ensures appends { OnOk result (out.new.items ≡ out.old.items ++ phase_text snapshot.now) }
    ensures unchanged { OnErr result (out.new.items ≡ out.old.items) }
{
    make_room(out, PHASE_ROOM)?;
    put_phase(out, snapshot);
    Ok(())
}

/// Appends the line of a register: its name and its word.
fn put_row(out: &mut Vec<u8>, row: (Reg, u32))
    requires { HasSpareRoom out.old reg_line_room }
    ensures appends { Appends out.old out.new (reg_line row) reg_line_room }
{
    let (reg, word) = row;
    put(out, b"reg ");
    put(out, name_of(reg.number()).bytes());
    put_named_word(out, b" ", word);
    put(out, b"\n");
}

/// Appends the lines of registers.
fn put_rows(out: &mut Vec<u8>, rows: &[(Reg, u32)])
    requires { HasSpareRoom out.old (reg_line_room * length rows.now) }
    ensures { out.new.items ≡ out.old.items ++ flat_map reg_line rows.now }
{
    for row in rows {
        put_row(out, *row);
    }
}

/// Appends to `out` a line `reg NAME WORD` for each shown register, from CRC to BSPI in the order of their numbers
/// (this project's choice). Words have eight upper-case hexadecimal digits. `NoMemory` leaves `out` as it was.
#[tactic(auto, unfolding(crate::specs::State::reg_text))]
pub fn reg_lines(out: &mut Vec<u8>, snapshot: &Snapshot) -> Result<(), NoMemory>
    ensures appends { OnOk result (out.new.items ≡ out.old.items ++ reg_text snapshot.now) }
    ensures unchanged { OnErr result (out.new.items ≡ out.old.items) }
{
    make_room(out, SHOWN_COUNT * REG_LINE_ROOM)?;
    put_rows(out, &snapshot.registers);
    Ok(())
}

/// Appends the lines of the state of a device of the part of this name.
#[tactic(auto, unfolding(crate::specs::State::state_text))]
pub(crate) fn put_state(text: &mut Vec<u8>, name: &str, snapshot: &Snapshot) -> Result<(), NoMemory>
    ensures { OnOk result (text.new.items ≡ text.old.items ++ state_text name.now snapshot.now) }
{
    put_text(text, b"part ")?;
    put_text(text, name.as_bytes())?;
    put_text(text, b"\ntaken ")?;
    put_number(text, snapshot.taken)?;
    put_text(text, b"end ")?;
    end_words(text, snapshot)?;
    put_text(text, b"\n")?;
    phase_line(text, snapshot)?;
    reg_lines(text, snapshot)
}
