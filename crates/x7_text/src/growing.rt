//! Appending to a text that grows.
ghost use Rattle.std.specs.Prelude.{◌≡◌, ◌++◌, codes, decimal, OnErr, OnOk};

use crate::digits::{MOST_DIGITS, put_decimal};
use crate::room::{make_room, put};
use x7_words::NoMemory;

/// Appends bytes. After an error the text is as it was.
pub fn put_text(text: &mut Vec<u8>, bytes: &[u8]) -> Result<(), NoMemory>
    ensures appends { OnOk result (text.new.items ≡ text.old.items ++ bytes.now) }
    ensures unchanged { OnErr result (text.new.items ≡ text.old.items) }
{
    text.extend_from_slice(bytes)?;
    Ok(())
}

/// Appends a number in decimal and a line end. After an error the text is as it was.
pub fn put_number(text: &mut Vec<u8>, number: u64) -> Result<(), NoMemory>
    ensures appends { OnOk result (text.new.items ≡ text.old.items ++ decimal number ++ codes "\n") }
    ensures unchanged { OnErr result (text.new.items ≡ text.old.items) }
{
    make_room(text, MOST_DIGITS + 1)?;
    put_decimal(text, number);
    put(text, b"\n");
    Ok(())
}
