//! The text of a plan.
ghost use Rattle.std.specs.Prelude.{◌≡◌, ◌*◌, ◌++◌, length, IfOk, OnOk};
ghost use Rattle.std.specs.List.{flat_map};
ghost use Rattle.x7_text.specs.Appends.{Appends, HasSpareRoom};
ghost use Rattle.x7_text.specs.Digits.{hex_word};
ghost use Rattle.x7_frames.specs.FramesText.{frame_line, plan_text};

use crate::line::HEAD_SIZE;
use std::alloc::{AllocError, Global};
use x7_memory::Plan;
use x7_text::{hex_of_word, put};
use x7_words::NoMemory;

/// Appends the digits of words, eight in upper case for each. There is room for them.
fn put_words(text: &mut Vec<u8>, words: &[u32])
    requires { HasSpareRoom text.old (8 * length words.now) }
    ensures appends { Appends text.old text.new (flat_map hex_word words.now) (8 * length words.now) }
{
    for word in words {
        put(text, &hex_of_word(*word));
    }
}

/// Appends the line of a frame, with its end.
fn put_frame_line(text: &mut Vec<u8>, far: u32, words: &[u32]) -> Result<(), AllocError>
    ensures { OnOk result (text.new.items ≡ text.old.items ++ frame_line record { far = far; words = words.now }) }
{
    text.reserve(HEAD_SIZE)?;
    put(text, b"frame ");
    put(text, &hex_of_word(far));
    put(text, b" ");
    text.reserve(8 * words.len() + 1)?;
    put_words(text, words);
    put(text, b"\n");
    Ok(())
}

/// The text of a plan: a line for each frame, in number order of the addresses, its digits in upper case (this
/// project's choice).
pub fn plan_text(alloc: Global, plan: &Plan) -> Result<Vec<u8>, NoMemory>
    ensures text { IfOk result (λ text. text.items ≡ plan_text plan.now) }
{
    let mut text = Vec::new(alloc);
    for i in 0..plan.len() {
        let Some((far, words)) = plan.row(i) else {
            unreachable!()
        };
        put_frame_line(&mut text, far, words)?;
    }
    Ok(text)
}
