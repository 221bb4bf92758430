//! A text that is read from its first byte on, and the bytes that are saved of it.
ghost use Rattle.std.specs.Prelude.{◌≡◌, ◌≤◌, ◌<◌, ◌^◌, ◌++◌, [], length, drop, take, slice_index, vec_len};
ghost use Rattle.x7_svf.specs.Source.{svf_text_limit};
ghost use Rattle.x7_svf.specs.Token.{line_after};

use std::marker::Model;

/// A text that is being read. The bytes that are saved stand at its beginning, in the place of bytes that were read.
#[derive(Drop)]
pub(crate) struct Source {
    text: Vec<u8>,
    // how many bytes are saved
    saved: usize,
    // how many bytes were read: the rest begins here
    at: usize,
    // the line on which the rest begins, from 1
    line: u64,
}

impl Model for Source {
    ghost use Rattle.std.specs.Prelude.{◌≤◌, ◌+◌, length, drop, take};
    ghost use Rattle.x7_svf.specs.Source.{SourceState, svf_text_limit};

    ghost Value = { SourceState };

    ghost view = { λ s. record { saved = take s.saved s.text.items; line = s.line; rest = drop s.at s.text.items } };

    ghost invariant = { λ s. (s.saved ≤ s.at) × (s.at ≤ length s.text.items) × (length s.text.items ≤ svf_text_limit) × (s.line ≤ s.at + 1) };
}

/// The line of the text after a byte that stands on this line.
fn line_after(byte: u8, line: u64) -> u64
    requires { line < 2 ^ 63 }
    ensures { result ≡ line_after byte line }
{
    if byte == b'\n' { line + 1 } else { line }
}

impl Source {
    /// A text of at most 512 MiB of which nothing is read or saved.
    pub(crate) fn new(text: Vec<u8>) -> Source
        requires { vec_len text ≤ svf_text_limit }
        ensures { result ≡ record { saved = []; line = 1; rest = text.items } }
    {
        Source {
            text,
            saved: 0,
            at: 0,
            line: 1,
        }
    }

    /// What is still to be read.
    pub(crate) fn rest(&self) -> &[u8]
        ensures { result.now ≡ self.now.rest }
    {
        &self.text[self.at..]
    }

    /// The line on which the rest begins, from 1.
    pub(crate) fn line(&self) -> u64
        ensures { result ≡ self.now.line }
    {
        self.line
    }

    /// The bytes that are saved.
    pub(crate) fn saved(&self) -> &[u8]
        ensures now { result.now ≡ self.now.saved }
        ensures most { length result.now ≤ svf_text_limit }
    {
        &self.text[..self.saved]
    }

    /// Passes the next byte, which may be a line end.
    pub(crate) fn pass(&mut self)
        requires { 0 < length self.old.rest }
        ensures { self.new ≡ record { saved = self.old.saved; line = line_after (slice_index self.old.rest 0) self.old.line; rest = drop 1 self.old.rest } }
    {
        self.line = line_after(self.text[self.at], self.line);
        self.at += 1;
    }

    /// Passes this many bytes and stays on the line: none of them is to be a line end.
    pub(crate) fn skip(&mut self, count: usize)
        requires { count ≤ length self.old.rest }
        ensures { self.new ≡ record { saved = self.old.saved; line = self.old.line; rest = drop count self.old.rest } }
    {
        self.at += count;
    }

    /// Passes and saves this many bytes, and stays on the line: none of them is to be a line end.
    pub(crate) fn save(&mut self, count: usize)
        requires { count ≤ length self.old.rest }
        ensures { self.new ≡ record { saved = self.old.saved ++ take count self.old.rest; line = self.old.line; rest = drop count self.old.rest } }
    {
        let end = self.at + count;
        self.text.copy_within(self.at..end, self.saved);
        self.saved += count;
        self.at = end;
    }

    /// The bytes that are saved, alone.
    pub(crate) fn into_saved(self) -> Vec<u8>
        ensures { result.items ≡ self.saved }
    {
        let Source {
            text,
            saved,
            at: _,
            line: _,
        } = self;
        let mut text = text;
        text.truncate(saved);
        text
    }
}
