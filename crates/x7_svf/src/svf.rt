//! The statements of a text.
ghost use Rattle.std.specs.Prelude.{◌≡◌, ◌<◌, ◌≤◌, ◌*◌, [], List, length, MatchResult, Some, None, IfOk, IfErr, Ok, Err, ◌⊎◌, vec_len};
ghost use Rattle.std.specs.List.{slice_get};
ghost use Rattle.x7_svf.specs.Source.{svf_text_limit, tokens_left};
ghost use Rattle.x7_svf.specs.Stored.{AreStoredWithin, statements_in};
ghost use Rattle.x7_svf.specs.Svf.{BeginWithStatement, IsSvfOf, outcome, tokens_of};
ghost use Rattle.x7_svf.specs.declared.fault.SvfFault.{SvfFault as FaultData};

use crate::comment::clean;
use crate::fault::SvfFault;
use crate::reader::first_statement;
use crate::source::Source;
use crate::statement::Statement;
use crate::stored::{StoredStatement, statement_of};
use crate::token::next;
use std::alloc::Global;
use std::marker::Model;

/// How many bytes a text may have at most: 512 MiB (this project's choice).
pub const SVF_TEXT_LIMIT: usize = 1 << 29;

/// The statements of a text, fewer than the bytes that a text may have.
pub struct Svf {
    statements: Vec<StoredStatement>,
    // the digits of their scans, among keywords and the words of other statements
    digits: Vec<u8>,
}

impl Drop for Svf {
    fn drop(self) {
        let Svf {
            statements: _,
            digits: _,
        } = self;
    }
}

impl Model for Svf {
    ghost use Rattle.std.specs.Prelude.{◌<◌, List, length};
    ghost use Rattle.x7_svf.specs.Source.{svf_text_limit};
    ghost use Rattle.x7_svf.specs.Stored.{AreStoredWithin, statements_in};
    ghost use Rattle.x7_svf.specs.declared.statement.Statement.{Statement};

    ghost Value = { List Statement };

    ghost view = { λ s. statements_in s.digits.items s.statements.items };

    ghost invariant = { λ s. (length s.statements.items < svf_text_limit) × AreStoredWithin (length s.digits.items) s.statements.items };
}

impl Svf {
    /// How many statements there are.
    pub fn len(&self) -> usize
        ensures length { result ≡ length self.now }
        ensures most { result < svf_text_limit }
    {
        self.statements.len()
    }

    /// Statement `index`, from 0, and none exactly past the last.
    pub fn statement(&self, index: usize) -> Option<Statement<'_>>
        ensures { result ≡ slice_get self.now index }
    {
        match self.statements.get(index) {
            Some(stored) => Some(statement_of(stored, &self.digits)),
            None => None,
        }
    }
}

/// The statements of a text without comments, or the line on which the first bad one begins; `NoMemory` only where the
/// text begins with a statement. The digits of their scans are saved.
fn statements(alloc: Global, source: &mut Source) -> Result<Vec<StoredStatement>, SvfFault>
    requires none_saved { source.old.saved ≡ [] }
    requires within_limit { length source.old.rest ≤ svf_text_limit }
    ensures says { MatchResult result (λ s. outcome (tokens_left source.old) ≡ Ok (statements_in source.new.saved s.items))
        (λ fault. (fault ≡ FaultData.NoMemory) ⊎ (outcome (tokens_left source.old) ≡ Err fault)) }
    ensures memory { IfErr result (λ fault. fault ≡ FaultData.NoMemory → BeginWithStatement (tokens_left source.old)) }
    ensures two_bytes_each { IfOk result (λ s. 2 * length s.items ≤ length source.old.rest) }
    ensures within { IfOk result (λ s. AreStoredWithin (length source.new.saved) s.items) }
{
    let mut out = Vec::new(alloc);
    while let Some(_) = next(source) {
        let line = source.line();
        let Some(one) = first_statement(source) else {
            return Err(SvfFault::Line(line));
        };
        if out.push(one).is_err() {
            return Err(SvfFault::NoMemory);
        }
    }
    Ok(out)
}

/// The statements of a text that is given up for them (this project's profile of SVF), or the line on which its first
/// bad statement begins. The text has at most `SVF_TEXT_LIMIT` bytes, in which the digits of the scans stay. `NoMemory`
/// comes only for a text that begins with a statement.
pub fn svf_from(alloc: Global, text: Vec<u8>) -> Result<Svf, SvfFault>
    requires { vec_len text ≤ svf_text_limit }
    ensures statements { IfOk result (λ svf. IsSvfOf text.items (Ok svf)) }
    ensures fault { IfErr result (λ fault. (fault ≡ FaultData.NoMemory) ⊎ IsSvfOf text.items (Err fault)) }
    ensures memory { IfErr result (λ fault. fault ≡ FaultData.NoMemory → BeginWithStatement (tokens_of text.items)) }
{
    let mut text = text;
    clean(&mut text);
    let mut source = Source::new(text);
    let statements = statements(alloc, &mut source)?;
    Ok(Svf {
        statements,
        digits: source.into_saved(),
    })
}

/// The statements of a text (this project's profile of SVF), or the line on which its first bad statement begins;
/// `NoMemory` where there is no memory for the statements or for a copy of the text. A text has at most
/// `SVF_TEXT_LIMIT` bytes.
pub fn svf_of(alloc: Global, text: &[u8]) -> Result<Svf, SvfFault>
    requires { length text.now ≤ svf_text_limit }
    ensures statements { IfOk result (λ svf. IsSvfOf text.now (Ok svf)) }
    ensures fault { IfErr result (λ fault. (fault ≡ FaultData.NoMemory) ⊎ IsSvfOf text.now (Err fault)) }
{
    let mut copy = Vec::new(alloc);
    if copy.extend_from_slice(text).is_err() {
        return Err(SvfFault::NoMemory);
    }
    svf_from(alloc, copy)
}
