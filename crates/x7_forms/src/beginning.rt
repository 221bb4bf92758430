//! The beginning of a stream that is listed, up to where its header is judged.
ghost use Rattle.std.specs.Prelude.{◌≡◌, ◌≤◌, ◌+◌, ◌⊎◌, ℕ, length, true, false, IfErr, IfOk, MatchOption, OnOk};
ghost use Rattle.x7_words.specs.Input.{NoInputFault};
ghost use Rattle.x7_header.specs.Header.{fixed_size};
ghost use Rattle.x7_forms.specs.Event.{bad_input, event_of, no_memory};
ghost use Rattle.x7_forms.specs.Known.{stream_limit};
ghost use Rattle.x7_forms.specs.Turn.{GivesWithinLimit, HeaderGoesOn, IsJudged, IsHeaderRefused, ReadsBeginning, RefusedAt, UnreadBeginning, beginning_data, longest_beginning};
ghost use Rattle.x7_forms.specs.declared.bad_input.InputFault.TheVariants as input;

use crate::read::{STREAM_LIMIT, TURN_SIZE, next_turn, refused_at};
use crate::refusal::Refusal;
use std::alloc::Global;
use x7_header::{HeaderFault, header_of, wanted};
use x7_listing::header_line;
use x7_text::put_text;
use x7_words::Inputs;

/// What a stream's first bytes show once its header is judged.
#[derive(Drop)]
struct Judged {
    /// The line of the header with its line feed, or nothing where there is none.
    line: Vec<u8>,
    /// Where the data begin, in bytes from 0.
    start: usize,
}

/// Judges the header by the first bytes of a stream, which are all of it where `last` says so: `None` where they end
/// inside the header and more may come.
fn judge<'w>(
    alloc: Global,
    name: &'w str,
    bytes: &[u8],
    last: bool,
) -> Result<Option<Judged>, Refusal<'w>>
    requires long { last ≡ false → fixed_size ≤ length bytes.now }
    ensures judged { IfOk result (λ found. MatchOption found (HeaderGoesOn bytes.now last) (λ judged. IsJudged bytes.now last judged.line.items judged.start)) }
    ensures refused { IfErr result (λ r. (event_of r ≡ no_memory)
        ⊎ ((place : ℕ) × (event_of r ≡ bad_input name.now (input.Byte place)) × IsHeaderRefused bytes.now last place × RefusedAt bytes.now place)) }
{
    match header_of(bytes) {
        Ok(head) => Ok(Some(Judged {
            line: header_line(alloc, &head)?,
            start: head.size,
        })),
        Err(HeaderFault::Raw) => Ok(Some(Judged {
            line: Vec::new(alloc),
            start: 0,
        })),
        Err(HeaderFault::Field(place)) => Err(refused_at(name, place)),
        Err(HeaderFault::Cut(place)) => {
            if last {
                return Err(refused_at(name, place));
            }
            Ok(None)
        }
    }
}

/// The first bytes of a stream, by which its header was judged.
pub struct Beginning {
    /// The bytes that were read.
    pub bytes: Vec<u8>,
    /// The line of the header with its line feed, or nothing where there is none.
    pub line: Vec<u8>,
    /// Where the data begin, in bytes from 0.
    pub start: usize,
    /// Whether the stream's end was read after these bytes.
    pub last: bool,
}

impl Drop for Beginning {
    fn drop(self) {
        let Beginning {
            bytes: _,
            line: _,
            start: _,
            last: _,
        } = self;
    }
}

/// Reads the first bytes of the open input until its header is judged, field by field: none after a header, nor after
/// another byte in the place of a field's letter. A refusal says that the header is cut or has such a byte, that a read
/// failed, or that memory was wanting.
pub fn read_beginning<'w, I: Inputs>(
    alloc: Global,
    inputs: &mut I,
    stream_name: &'w str,
) -> Result<Beginning, Refusal<'w>>
    requires selected { (I.state inputs.old).selected ≡ true }
    ensures begins { IfOk result (λ first. ReadsBeginning (beginning_data first) (I.state inputs.old) (I.state inputs.new)) }
    ensures refused { IfErr result (λ r. UnreadBeginning (I.state inputs.old) stream_name.now (I.state inputs.new) (event_of r)) }
    ensures no_fault { OnOk result (NoInputFault (I.state inputs.old) (I.state inputs.new)) }
    ensures gives_few { GivesWithinLimit (I.state inputs.old) stream_limit (I.state inputs.new) }
    ensures short { (I.state inputs.new).given ≤ (I.state inputs.old).given + longest_beginning }
{
    let mut bytes = Vec::new(alloc);
    let mut piece = [0u8; TURN_SIZE];
    loop {
        let count = wanted(&bytes).min(TURN_SIZE);
        let left = STREAM_LIMIT - bytes.len();
        let turn = next_turn(inputs, stream_name, left, &mut piece[..count])?;
        put_text(&mut bytes, &piece[..turn.count])?;
        if let Some(judged) = judge(alloc, stream_name, &bytes, turn.last)? {
            return Ok(Beginning {
                bytes,
                line: judged.line,
                start: judged.start,
                last: turn.last,
            });
        }
    }
}
