//! The lines DONE, GTS_CFG_B and GWE (UG470, startup).
ghost use Rattle.std.specs.Prelude.{◌≡◌, ◌<◌, Some};
ghost use Rattle.x7_startup.specs.Lines.{done_phase, line_phase, is_high, done_line, gts_line, gwe_line};

use x7_regs::{DONE_CYCLE, GTS_CYCLE, GWE_CYCLE};

/// The three lines that startup releases (UG470, startup).
#[derive(Clone, Copy, PartialEq, Eq)]
pub struct Lines {
    /// DONE.
    pub done: bool,
    /// GTS_CFG_B: 1 where the outputs are on.
    pub gts: bool,
    /// GWE: 1 where flip-flops and memories can be written.
    pub gwe: bool,
}

/// The phase in which DONE rises, by the code of DONE_CYCLE (codes 6 and 7 are this project's choice).
#[rattlefmt::skip]
fn done_phase(code: u32) -> u8
    requires code { code < 8 }
    ensures { result ≡ done_phase code }
{
    match code {
        0 => 1,
        1 => 2,
        2 => 3,
        3 => 4,
        4 => 5,
        5 => 6,
        _ => 6,
    }
}

/// The phase in which GTS_CFG_B or GWE rises, by the code of GTS_CYCLE or GWE_CYCLE and by DONE's phase; none for a
/// line that never rises (codes 6 and 7 are this project's choice).
#[rattlefmt::skip]
fn line_phase(code: u32, done: u8) -> Option<u8>
    requires code { code < 8 }
    ensures { result ≡ line_phase done code }
{
    match code {
        0 => Some(1),
        1 => Some(2),
        2 => Some(3),
        3 => Some(4),
        4 => Some(5),
        5 => Some(6),
        6 => Some(done),
        _ => None,
    }
}

/// Whether a line that rises in phase `rise`, or never, is 1 in phase `phase`.
fn is_up(rise: Option<u8>, phase: u8) -> bool
    ensures { result ≡ is_high rise phase }
{
    match rise {
        Some(rise) => phase >= rise,
        None => false,
    }
}

/// The lines in a phase of a startup that began with this COR0.
pub(crate) fn lines_in(cor0: u32, phase: u8) -> Lines
    ensures done { result.done ≡ done_line (Some cor0) phase }
    ensures gts { result.gts ≡ gts_line (Some cor0) phase }
    ensures gwe { result.gwe ≡ gwe_line (Some cor0) phase }
{
    let done = done_phase(cor0 >> DONE_CYCLE & 7);
    let gts = line_phase(cor0 >> GTS_CYCLE & 7, done);
    let gwe = line_phase(cor0 >> GWE_CYCLE & 7, done);
    Lines {
        done: is_up(Some(done), phase),
        gts: is_up(gts, phase),
        gwe: is_up(gwe, phase),
    }
}
