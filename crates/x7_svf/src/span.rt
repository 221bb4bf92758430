//! Where bytes are saved.
ghost use Rattle.std.specs.Prelude.{◌≡◌, ◌≤◌, ◌-◌, length};
ghost use Rattle.x7_svf.specs.Source.{svf_text_limit};
ghost use Rattle.x7_svf.specs.Span.{bytes_in, span_end};

/// Bytes that are saved one after another: how many come before them, and how many they are.
#[derive(Clone, Copy)]
pub(crate) struct Span {
    from: u32,
    count: u32,
}

impl Span {
    /// The bytes from `from` up to before `end`, a place in a text or its end.
    pub(crate) fn new(from: usize, end: usize) -> Span
        requires order { from ≤ end }
        requires within_limit { end ≤ svf_text_limit }
        ensures from { result.from ≡ from }
        ensures count { result.count ≡ end - from }
    {
        Span {
            from: from as u32,
            count: (end - from) as u32,
        }
    }

    /// The bytes themselves, among those saved.
    pub(crate) fn bytes_in(self, saved: &[u8]) -> &[u8]
        requires { span_end self ≤ length saved.now }
        ensures { result.now ≡ bytes_in saved.now self }
    {
        let from = self.from as usize;
        &saved[from..from + self.count as usize]
    }
}
