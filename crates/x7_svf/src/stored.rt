//! Statements whose digits are saved apart.
ghost use Rattle.std.specs.Prelude.{◌≡◌, ◌≤◌, length};
ghost use Rattle.x7_svf.specs.Fields.{bits_if};
ghost use Rattle.x7_svf.specs.Span.{digits_if, span_end_if};
ghost use Rattle.x7_svf.specs.Stored.{IsStoredWithin, statement_in};

use crate::bits::Bits;
use crate::span::Span;
use crate::statement::{Scan, ScannedRegister, Statement};

/// A statement in few bytes, as a long text has many statements. The digits of a scan are saved apart.
#[derive(Clone, Copy)]
pub(crate) enum StoredStatement {
    Reset,
    Idle,
    IdleClocks(u32),
    Scan(StoredScan),
    Nothing,
}

/// A scan: how many bits each of its fields has, and where the digits of each but SMASK are saved.
#[derive(Clone, Copy)]
pub(crate) struct StoredScan {
    pub(crate) register: ScannedRegister,
    pub(crate) bit_count: u32,
    pub(crate) tdi: Span,
    pub(crate) tdo: Option<Span>,
    pub(crate) mask: Option<Span>,
}

/// The `count` lowest bits of a field; none where it is left out.
fn bits_if(saved: &[u8], count: u32, digits: Option<Span>) -> Option<Bits<'_>>
    requires { span_end_if digits ≤ length saved.now }
    ensures { result ≡ bits_if count (digits_if saved.now digits) }
{
    match digits {
        Some(digits) => Some(Bits::new(count, digits.bytes_in(saved))),
        None => None,
    }
}

/// A statement with its digits, which are among those saved.
pub(crate) fn statement_of<'t>(stored: &StoredStatement, saved: &'t [u8]) -> Statement<'t>
    requires { IsStoredWithin (length saved.now) stored.now }
    ensures { result ≡ statement_in saved.now stored.now }
{
    match stored {
        StoredStatement::Reset => Statement::Reset,
        StoredStatement::Idle => Statement::Idle,
        StoredStatement::IdleClocks(count) => Statement::IdleClocks(*count),
        StoredStatement::Scan(scan) => Statement::Scan(Scan {
            register: scan.register,
            tdi: Bits::new(scan.bit_count, scan.tdi.bytes_in(saved)),
            tdo: bits_if(saved, scan.bit_count, scan.tdo),
            mask: bits_if(saved, scan.bit_count, scan.mask),
        }),
        StoredStatement::Nothing => Statement::Nothing,
    }
}
