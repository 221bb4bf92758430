//! Runs of the command over files of the system: what they write is what the bytes of the files come to.
#![tactic(auto)]

ghost use Rattle.std.specs.Prelude.{◌≡◌, ℕ, List, Some};
ghost use Rattle.x7_forms.specs.Form.{form_of_strings};
ghost use Rattle.x7_forms.specs.AskedForm as form;
ghost use Rattle.x7_over_files.specs.FileTexts.{Assembles, Lists, PlayedFiles, Plays, Read, ReadBoth, play_of};

use std::alloc::Global;
use std::rt::Files;
use x7_files::{FileFlash, FileInputs, World};
use x7_tool::{Status, run};
use x7_words::Sink;

/// Runs the command that the words ask for over files of the system, and answers its status and what selects and reads
/// came to.
///
/// `W` is a map from names to bytes that proofs alone know. Whichever it is: if all that the files gave agrees with it,
/// a text that was written whole is what the bytes come to that the map has under the names of the words.
pub fn run_over_files<'r, R: Files, W: World, O: Sink, E: Sink>(
    rt: &'r R,
    alloc: Global,
    words: &Vec<String>,
    out: &mut O,
    err: &mut E,
) -> (Status, FileInputs<'r, R, W>)
    ensures lists { (name bytes : List ℕ) → form_of_strings words.now.items ≡ Some (form.List name)
        → Read W.contents result.1 name bytes → Lists bytes (O.state out.old) (O.state out.new) result.0 }
    ensures assembles { (name text : List ℕ) → form_of_strings words.now.items ≡ Some (form.Asm name)
        → Read W.contents result.1 name text → Assembles text (O.state out.old) (O.state out.new) result.0 }
    ensures plays { (files : PlayedFiles) → form_of_strings words.now.items ≡ Some (play_of files)
        → ReadBoth W.contents result.1 files → Plays files.text files.bytes (O.state out.old) (O.state out.new) result.0 }
{
    let mut inputs = FileInputs::<R, W>::new(rt);
    let mut flash = FileFlash::new(rt);
    let status = run(alloc, words, &mut inputs, &mut flash, out, err);
    (status, inputs)
}
