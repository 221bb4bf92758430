//! Playing the statements of a text on a tap.
ghost use Rattle.std.specs.Prelude.{◌≡◌, ◌≤◌, ◌<◌, ◌+◌, ◌-◌, ◌*◌, ◌++◌, false, true, [], length, take, replicate, Option, Some};
ghost use Rattle.std.specs.List.{slice_get};
ghost use Rattle.x7_part.specs.Part.{PartData};
ghost use Rattle.x7_jtag.specs.Clocks.{clock as clock_of, clocks_of, from_reset, shift_clocks, to_shift as to_shift_clocks};
ghost use Rattle.x7_jtag.specs.Play.{AreNew, FindsBit, AfterClocks, MayClock, bits_differ, scan_bit, clocks_played, count_limit, counts as counts_at, difference, difference_from, first_difference, first_found, differs_from_wanted, statement_limit, walk_clocks};
ghost use Rattle.x7_jtag.specs.Port.{port_after};
ghost use Rattle.x7_jtag.specs.Tap.{MakesClocks, TapStandsFor};
ghost use Rattle.x7_jtag.specs.declared.state.State.{State as StateData};
ghost use Rattle.x7_svf.specs.declared.statement.Statement.{Statement as StatementData};

use crate::state::State;
use crate::tap::Tap;
use x7_engine::Device;
use x7_svf::{Bits, Scan, ScannedRegister, Statement, Svf};

/// Where TDO first differs from the wanted bits.
#[derive(Clone, Copy)]
pub struct Differ {
    /// The number, from 1, of the scan among the statements.
    pub statement: u32,
    /// The scan's least differing bit, from 0.
    pub bit: u32,
}

/// Walks from state to state by clocks with the values `path` of TMS, and TDI 0.
fn walk(tap: &mut Tap, device: &mut Device, path: &[bool])
    requires { MayClock tap.old device.old (length path.now) }
    ensures { MakesClocks tap.old device.old tap.new device.new (λ p. walk_clocks path.now) }
{
    let mut rest = path;
    while rest.len() > 0 {
        tap.clock(rest[0], false, device);
        rest = &rest[1..];
    }
}

/// Gives `count` clocks of TMS 0 and TDI 0.
fn idle(tap: &mut Tap, device: &mut Device, count: u32)
    requires { MayClock tap.old device.old count_limit }
    ensures most { count < count_limit }
    ensures clocks { MakesClocks tap.old device.old tap.new device.new (λ p. replicate count (clock_of false false)) }
{
    for _ in 0..count {
        tap.clock(false, false, device);
    }
}

/// Goes from Test-Logic-Reset to Run-Test/Idle by one clock of TMS 0; in any other state makes no clock.
fn leave_reset(tap: &mut Tap, device: &mut Device)
    requires { MayClock tap.old device.old 1 }
    ensures { MakesClocks tap.old device.old tap.new device.new (λ p. from_reset p.state) }
{
    match tap.state() {
        State::TestLogicReset => walk(tap, device, &[false]),
        _ => (),
    }
}

/// Makes the clocks that lead from Run-Test/Idle to Shift-IR, for the instruction register, or to Shift-DR, for a data
/// register.
fn to_shift(tap: &mut Tap, device: &mut Device, register: ScannedRegister)
    requires { MayClock tap.old device.old 4 }
    ensures { MakesClocks tap.old device.old tap.new device.new (λ p. to_shift_clocks register) }
{
    match register {
        ScannedRegister::Instruction => walk(tap, device, &[true, true, false, false]),
        ScannedRegister::Data => walk(tap, device, &[true, false, false]),
    }
}

/// Bit `index` of a scan, counted from 0; past the last it is 0.
fn scan_bit(bits: &Bits<'_>, index: u32) -> bool
    ensures { result ≡ scan_bit bits.now index }
{
    match bits.bit(index) {
        Some(bit) => bit,
        None => false,
    }
}

/// Whether bit `index` counts: all do where there is no mask.
fn counts(mask: &Option<Bits<'_>>, index: u32) -> bool
    ensures { result ≡ counts_at mask.now index }
{
    match mask {
        Some(mask) => scan_bit(mask, index),
        None => true,
    }
}

/// Whether two bits differ.
fn bits_differ(wanted: bool, shown: bool) -> bool
    ensures { result ≡ bits_differ wanted shown }
{
    wanted != shown
}

/// Whether the bit that is shown differs from the wanted one, where bits are wanted and bit `index` counts.
fn differs_from_wanted(scan: &Scan<'_>, index: u32, shown: bool) -> bool
    ensures { result ≡ differs_from_wanted scan.now.tdo scan.now.mask index shown }
{
    match &scan.tdo {
        Some(tdo) => counts(&scan.mask, index) && bits_differ(scan_bit(tdo, index), shown),
        None => false,
    }
}

/// The first bit found that differs: bit `index`, if it differs, where none was found before.
fn first_found(found: Option<u32>, differs: bool, index: u32) -> Option<u32>
    ensures { result ≡ first_found found differs index }
{
    match found {
        Some(first) => Some(first),
        None if differs => Some(index),
        None => None,
    }
}

/// Makes the clocks of a scan's first bits by whole bytes, where the tap takes bytes and no bit of TDO is wanted; else
/// none. Says of how many bits: all whole bytes before the last bit, though the clauses say just that there are no more
/// than the scan has.
fn shift_bytes(tap: &mut Tap, device: &mut Device, scan: &Scan<'_>) -> u32
    requires { MayClock tap.old device.old count_limit }
    ensures within { result ≤ length scan.now.tdi }
    ensures clocks { MakesClocks tap.old device.old tap.new device.new (λ p. take result (shift_clocks scan.now.tdi)) }
    ensures none_wanted { 0 < result → scan.now.tdo ≡ None }
    ensures ready { MayClock tap.new device.new (count_limit - result) }
{
    if scan.tdo.is_some() {
        return 0;
    }
    if !tap.takes_bytes() {
        return 0;
    }
    let tdi = &scan.tdi;
    let mut at = 0;
    while tdi.len() - at > 8 {
        let piece = tdi.bytes_from(at);
        let bytes = piece.as_slice();
        tap.shift_bytes(bytes, device);
        at += 8 * bytes.len() as u32;
    }
    at
}

/// Shifts the bits of a scan from bit `first` on, with TMS 1 at the last, and finds the least of them at which TDO
/// differs from what is wanted.
fn shift_from(tap: &mut Tap, device: &mut Device, scan: &Scan<'_>, first: u32) -> Option<u32>
    requires ready { MayClock tap.old device.old (count_limit - first) }
    requires within { first ≤ length scan.now.tdi }
    ensures clocks { AfterClocks tap.old device.old (take first (shift_clocks scan.now.tdi)) (λ part cs. TapStandsFor part tap.new device.new (cs ++ shift_clocks scan.now.tdi)) }
    ensures most { length scan.now.tdi < count_limit }
    ensures found { AfterClocks tap.old device.old (take first (shift_clocks scan.now.tdi)) (λ part cs. result ≡ difference_from part (port_after part cs) scan.now first) }
{
    let tdi = &scan.tdi;
    let mut found = None;
    let count = tdi.len();
    for i in first..count {
        let shown = tap.clock(i == count - 1, scan_bit(tdi, i), device);
        found = first_found(found, differs_from_wanted(scan, i, shown), i);
    }
    found
}

/// Shifts the bits of a scan, with TMS 1 at the last, and finds the least bit at which TDO differs from what is wanted.
fn shift(tap: &mut Tap, device: &mut Device, scan: &Scan<'_>) -> Option<u32>
    requires { MayClock tap.old device.old count_limit }
    ensures clocks { MakesClocks tap.old device.old tap.new device.new (λ p. shift_clocks scan.now.tdi) }
    ensures most { length scan.now.tdi < count_limit }
    ensures found { FindsBit tap.old device.old (λ part p. difference_from part p scan.now 0) result }
{
    let first = shift_bytes(tap, device, scan);
    shift_from(tap, device, scan, first)
}

/// Plays a scan, and finds the least bit at which TDO differs from what is wanted.
fn play_scan(tap: &mut Tap, device: &mut Device, scan: &Scan<'_>) -> Option<u32>
    requires { MayClock tap.old device.old statement_limit }
    ensures clocks { MakesClocks tap.old device.old tap.new device.new (λ p. clocks_of p.state (StatementData.Scan scan.now)) }
    ensures most { length scan.now.tdi < count_limit }
    ensures found { FindsBit tap.old device.old (λ part p. difference part p (StatementData.Scan scan.now)) result }
{
    leave_reset(tap, device);
    to_shift(tap, device, scan.register);
    let found = shift(tap, device, scan);
    walk(tap, device, &[true, false]);
    found
}

/// Makes the clocks of a statement, and finds the least bit at which TDO differs from what is wanted.
fn play_statement(statement: &Statement<'_>, tap: &mut Tap, device: &mut Device) -> Option<u32>
    requires { MayClock tap.old device.old statement_limit }
    ensures clocks { MakesClocks tap.old device.old tap.new device.new (λ p. clocks_of p.state statement.now) }
    ensures most { (s : StateData) → length (clocks_of s statement.now) ≤ statement_limit }
    ensures found { FindsBit tap.old device.old (λ part p. difference part p statement.now) result }
{
    match statement {
        Statement::Reset => {
            walk(tap, device, &[true, true, true, true, true]);
            None
        }
        Statement::Idle => {
            leave_reset(tap, device);
            None
        }
        Statement::IdleClocks(count) => {
            leave_reset(tap, device);
            idle(tap, device, *count);
            None
        }
        Statement::Scan(scan) => play_scan(tap, device, scan),
        Statement::Nothing => None,
    }
}

/// Makes the clocks of statement `index` of a text, from 0, and finds the least bit at which TDO differs from what is
/// wanted.
fn play_at(svf: &Svf, index: usize, tap: &mut Tap, device: &mut Device) -> Option<u32>
    requires { MayClock tap.old device.old statement_limit }
    ensures clocks { (x : StatementData) → slice_get svf.now index ≡ Some x → MakesClocks tap.old device.old tap.new device.new (λ p. clocks_of p.state x) }
    ensures most { (x : StatementData) → slice_get svf.now index ≡ Some x → (s : StateData) → length (clocks_of s x) ≤ statement_limit }
    ensures found { (x : StatementData) → slice_get svf.now index ≡ Some x → FindsBit tap.old device.old (λ part p. difference part p x) result }
{
    match svf.statement(index) {
        Some(statement) => play_statement(&statement, tap, device),
        None => None,
    }
}

/// Plays statements on a new tap and a new device, up to the first scan whose TDO differs from the wanted bits, that
/// scan included. Answers where TDO first differs, or `None`. It takes no memory.
pub fn play_svf(svf: &Svf, tap: &mut Tap, device: &mut Device) -> Option<Differ>
    requires { AreNew tap.old device.old }
    ensures clocks { (part : PartData) → TapStandsFor part tap.old device.old [] → TapStandsFor part tap.new device.new (clocks_played svf.now result) }
    ensures differs { (part : PartData) → TapStandsFor part tap.old device.old [] → result ≡ first_difference part svf.now }
{
    for i in 0..svf.len() {
        if let Some(bit) = play_at(svf, i, tap, device) {
            return Some(Differ {
                statement: i as u32 + 1,
                bit,
            });
        }
    }
    None
}
