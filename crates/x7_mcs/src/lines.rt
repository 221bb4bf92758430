//! A line without its end, which is 0A or 0D 0A.
ghost use Rattle.std.specs.Prelude.{◌≡◌};
ghost use Rattle.x7_mcs.specs.Lines.{without_return};

/// A line without a 0D at its end.
pub(crate) fn without_return(line: &[u8]) -> &[u8]
    ensures { result.now ≡ without_return line.now }
{
    let length = line.len();
    if length > 0 && line[length - 1] == b'\r' {
        &line[..length - 1]
    } else {
        line
    }
}
