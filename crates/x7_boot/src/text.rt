//! What a boot came to, as lines of text.
ghost use Rattle.std.specs.Prelude.{◌≡◌, ◌≤◌, ◌++◌, length, take, OnErr, OnOk};
ghost use Rattle.x7_boot.specs.Text.{attempt_text, attempts_text, boot_end_text, boot_lines, cause_text, ending_text, kind_text};

use crate::attempt::Ending;
use crate::boots::{BootEnd, Tried};
use x7_regs::{Cause, Kind};
use x7_text::{hex_of_word, make_room, put, put_decimal, put_text};
use x7_words::NoMemory;

/// What began an attempt, in a word.
fn kind_text(kind: Kind) -> &'static [u8]
    ensures word { result.now ≡ kind_text kind }
    ensures most { length result.now ≤ 8 }
{
    match kind {
        Kind::Bench => b"bench",
        Kind::Power => b"power",
        Kind::Iprog => b"iprog",
        Kind::Fallback => b"fallback",
    }
}

/// What an attempt failed by, in a word.
fn cause_text(cause: Cause) -> &'static [u8]
    ensures word { result.now ≡ cause_text cause }
    ensures most { length result.now ≤ 8 }
{
    match cause {
        Cause::Watchdog => b"watchdog",
        Cause::Id => b"id",
        Cause::Crc => b"crc",
        Cause::Wrap => b"wrap",
    }
}

/// How an attempt ended, in a word.
fn ending_text(ending: Ending) -> &'static [u8]
    ensures word { result.now ≡ ending_text ending }
    ensures most { length result.now ≤ 8 }
{
    match ending {
        Ending::Started => b"started",
        Ending::Iprog => b"iprog",
        Ending::Failed(cause) => cause_text(cause),
    }
}

/// How a boot ended, as the last line of its text.
fn boot_end_text(end: BootEnd) -> &'static [u8]
    ensures { result.now ≡ boot_end_text end }
{
    match end {
        BootEnd::Started => b"end started\n",
        BootEnd::Stopped => b"end stopped\n",
        BootEnd::Loop => b"end loop\n",
    }
}

/// How many bytes an attempt's line has at most: seven of `attempt`, 20 of the number, eight each of the kind, the
/// address and the ending, four blanks, and the line's end.
const LONGEST_ATTEMPT_LINE: usize = 56;

/// Appends the line of the attempt of this number. After an error the text is as it was.
#[tactic(auto, unfolding(crate::specs::Text::attempt_text))]
fn put_attempt(text: &mut Vec<u8>, number: u64, tried: &Tried) -> Result<(), NoMemory>
    ensures appends { OnOk result (text.new.items ≡ text.old.items ++ attempt_text number tried.now) }
    ensures unchanged { OnErr result (text.new.items ≡ text.old.items) }
{
    make_room(text, LONGEST_ATTEMPT_LINE)?;
    put(text, b"attempt ");
    put_decimal(text, number);
    put(text, b" ");
    put(text, kind_text(tried.kind));
    put(text, b" ");
    put(text, &hex_of_word(tried.address));
    put(text, b" ");
    put(text, ending_text(tried.ending));
    put(text, b"\n");
    Ok(())
}

/// Appends the lines of attempts, numbered from 1. After an error the first of them may stand there.
fn put_attempts(text: &mut Vec<u8>, attempts: &[Tried]) -> Result<(), NoMemory>
    ensures appends { OnOk result (text.new.items ≡ text.old.items ++ attempts_text 0 attempts.now) }
    ensures begins_with_old { OnErr result (take (length text.old.items) text.new.items ≡ text.old.items) }
{
    let mut number = 0u64;
    let mut rest = attempts;
    'lines: loop {
        let [first, more @ ..] = rest else {
            return Ok(());
        };
        number += 1;
        put_attempt(text, number, first)?;
        rest = more;
    }
}

/// Appends the lines of a boot. After an error the first of them may stand there, the last one in part.
#[tactic(auto, unfolding(crate::specs::Text::boot_lines))]
fn put_boot(
    text: &mut Vec<u8>,
    name: &str,
    attempts: &[Tried],
    end: BootEnd,
) -> Result<(), NoMemory>
    ensures appends { OnOk result (text.new.items ≡ text.old.items ++ boot_lines name.now attempts.now end) }
    ensures begins_with_old { OnErr result (take (length text.old.items) text.new.items ≡ text.old.items) }
{
    put_text(text, b"boot ")?;
    put_text(text, name.as_bytes())?;
    put_text(text, b"\n")?;
    put_attempts(text, attempts)?;
    put_text(text, boot_end_text(end))?;
    Ok(())
}

/// Appends to `text` the lines of a boot (this project's choice): `boot NAME`; for each attempt `attempt N KIND ADDRESS
/// ENDING`, N from 1; and `end` and how the boot ended. After `NoMemory` the text is as it was.
pub fn boot_lines(
    text: &mut Vec<u8>,
    name: &str,
    attempts: &[Tried],
    end: BootEnd,
) -> Result<(), NoMemory>
    ensures appends { OnOk result (text.new.items ≡ text.old.items ++ boot_lines name.now attempts.now end) }
    ensures unchanged { OnErr result (text.new.items ≡ text.old.items) }
{
    let start = text.len();
    let Ok(()) = put_boot(text, name, attempts, end) else {
        text.truncate(start);
        return Err(NoMemory);
    };
    Ok(())
}
