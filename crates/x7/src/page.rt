//! What the program says of itself.
ghost use Rattle.std.specs.Prelude.{◌≡◌, MatchOption, None, Some, map, string_bytes};
ghost use Rattle.x7.specs.Command.{asks_help, is_help_option, page_alone, page_of};

/// What `x7 --help`, `x7 -h` and `x7 help` write, and `x7 FORM --help`: the forms, the statuses, and where to read on.
pub(crate) const HELP: &str = "\
usage: x7 list STREAM
       x7 asm TEXT
       x7 play PART STREAM..
       x7 debug PART STREAM SCRIPT
       x7 svf PART TEXT
       x7 plan full PART FRAMES
       x7 plan partial PART FRAMES
       x7 plan read PART FAR N
       x7 gen PART SEED
       x7 image [PART] GOLDEN UPDATE
       x7 boot PART FLASH
       x7 update FLASH STREAM
       x7 mcs IMAGE
       x7 unmcs TEXT
       x7 --help
       x7 --version

Says what an unencrypted configuration stream of a Xilinx 7-series FPGA (UG470)
does before a device gets it. Every input is a named file; the result goes to
standard output, save that update writes its FLASH; where there is none, one
line goes to standard error.

A device has started only where the report of play, svf or boot says phase 7,
whatever the status.

exit status:
   0  the whole result was written
   1  the whole report was written; the device stopped at a fault, a scan of an
      SVF text differs, or a boot ended without a start
   2  usage: the words have no form
   3  missing: there is no such file
   4  bad part: a part file is refused
   5  bad input: an input has no reading, the part lacks what is asked, or a
      flash or an image can't hold the stream
   6  read fault: an input or the flash could not be opened or read
   7  write fault: standard output failed, or the flash could not be written
   8  no memory
   9  too large: an input, or what is read out in a play, is over its limit
  11  differs: a byte of an updated flash is another than the one written
  12  the system gave no words

The forms, the texts that they read and write, and each reason: man x7
(docs/x7.1). A first use, and what is proved: README.md.
";

/// What `x7 --version` writes. docs/x7.1 and CHANGELOG.md have this number too (`bench/version`).
pub(crate) const VERSION: &str = "x7 0.9.0\n";

/// Whether a word asks for help: `--help`, `-h` or `help`.
#[tactic(auto, unfolding(crate::specs::Command::asks_help))]
fn asks_help(word: &str) -> bool
    ensures { result ≡ asks_help word.now }
{
    match word {
        "--help" | "-h" | "help" => true,
        _ => false,
    }
}

/// Whether the word after a form's first asks for help: `--help` or `-h`.
#[tactic(auto, unfolding(crate::specs::Command::is_help_option))]
fn is_help_option(word: &str) -> bool
    ensures { result ≡ is_help_option word.now }
{
    match word {
        "--help" | "-h" => true,
        _ => false,
    }
}

/// The page that a word asks for where it stands alone.
fn page_alone(word: &str) -> Option<&'static str>
    ensures { MatchOption result (page_alone word.now ≡ None) (λ page. page_alone word.now ≡ Some page.now) }
{
    if asks_help(word) {
        return Some(HELP);
    }
    match word {
        "--version" => Some(VERSION),
        _ => None,
    }
}

/// The page that the words ask for: as the only word, by `--help`, `-h` or `help`, or by `--version`; after another
/// word, as in `x7 list --help`, by `--help` or `-h`. A file of such a name goes by `./--help`.
pub(crate) fn page_of(words: &Vec<String>) -> Option<&'static str>
    ensures { MatchOption result (page_of (map string_bytes words.now.items) ≡ None) (λ page. page_of (map string_bytes words.now.items) ≡ Some page.now) }
{
    let Some((word, more)) = words.split_first() else {
        return None;
    };
    let Some((next, rest)) = more.split_first() else {
        return page_alone(word.as_str());
    };
    if rest.is_empty() && is_help_option(next.as_str()) {
        Some(HELP)
    } else {
        None
    }
}
