//! What a pen keeps between two runs of a stream.
ghost use Rattle.std.specs.Prelude.{◌<◌, ◌≤◌};
ghost use Rattle.x7_text.specs.Row.{bytes_row_size, row_words};

/// A pen in a gap: how many bytes stand in the open line, and the bytes that are held, the last four at most, which are
/// the first `count` of `held`.
#[derive(Clone, Copy)]
pub(crate) struct GapPen {
    pub(crate) in_line: usize,
    pub(crate) held: [u8; 4],
    pub(crate) count: usize,
    ghost short: { in_line < bytes_row_size },
    ghost few: { count ≤ 4 },
}

/// How many words stand in the open line of a session, 0 where none is open.
#[derive(Clone, Copy)]
pub(crate) struct OpenWords {
    pub(crate) count: usize,
    ghost short: { count < row_words },
}

/// The bytes of no whole word at the end of a stream: the first `count` of `bytes`.
#[derive(Clone, Copy)]
pub(crate) struct TailBytes {
    pub(crate) bytes: [u8; 3],
    pub(crate) count: usize,
    ghost few: { count ≤ 3 },
}

/// What stands in the open line, and what is held, by where the last bytes listed stand.
#[derive(Clone, Copy)]
pub(crate) enum Pen {
    /// In a gap.
    Gap(GapPen),
    /// In a session.
    Session(OpenWords),
    /// In a session, with the bytes at the stream's end that are yet to be listed.
    Tail(OpenWords, TailBytes),
}
