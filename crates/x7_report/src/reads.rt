//! The lines of the words read out.
ghost use Rattle.std.specs.Prelude.{◌≡◌, ◌++◌, OnOk};
ghost use Rattle.x7_text.specs.Row.{data_text};
ghost use Rattle.x7_report.specs.Reads.{reads_text};

use x7_text::{make_room, put_close, put_number, put_text, put_word};
use x7_words::NoMemory;

/// The most bytes that a word takes in a `data` line: those of `data`, a blank, eight digits and a line end.
const WORD_ROOM: usize = 14;

/// Appends words in `data` lines of eight.
fn put_data(text: &mut Vec<u8>, words: &[u32]) -> Result<(), NoMemory>
    ensures { OnOk result (text.new.items ≡ text.old.items ++ data_text words.now) }
{
    let mut in_line = 0;
    for word in words {
        make_room(text, WORD_ROOM)?;
        in_line = put_word(text, in_line, *word);
    }
    make_room(text, 1)?;
    put_close(text, in_line);
    Ok(())
}

/// Appends the line `reads N` with how many words were read out, and these in `data` lines of eight. `NoMemory` may
/// leave a part of this in `text`.
#[tactic(auto, unfolding(crate::specs::Reads::reads_text))]
pub(crate) fn put_reads(text: &mut Vec<u8>, reads: &[u32]) -> Result<(), NoMemory>
    ensures { OnOk result (text.new.items ≡ text.old.items ++ reads_text reads.now) }
{
    put_text(text, b"reads ")?;
    put_number(text, reads.len() as u64)?;
    put_data(text, reads)
}
