//! The checks of a part file's keys: that no required one is missing, the types of the values, and that each is known.
ghost use Rattle.std.specs.Prelude.{◌≡◌};
ghost use Rattle.std.specs.Result.{result_err};
ghost use Rattle.toml.specs.View.{view, table_view};
ghost use Rattle.x7_part.specs.Keys.{is_known, has_only};
ghost use Rattle.x7_part.specs.Values.{under};
ghost use Rattle.x7_part.specs.PartChecks.{is_kind, is_list_of, allows, types_fault, check_fault, tables_fault};

use crate::fault::{PartFault, PartKey, Which};
use crate::keys::{KeyRule, Kind, ROW_KEYS, TOP_KEYS};
use crate::ranges::require;
use crate::values::{items_under, value_under};
use toml::{Table, Value};

/// Whether a value is of a kind.
fn is_kind(kind: Kind, value: &Value) -> bool
    ensures { result ≡ is_kind kind (view value.now) }
{
    match kind {
        Kind::Text => value.as_str().is_some(),
        Kind::Whole => value.as_integer().is_some(),
        Kind::Table => value.as_table().is_some(),
    }
}

/// Whether a value is a list whose items are of a kind.
fn is_list_of(kind: Kind, value: &Value) -> bool
    ensures { result ≡ is_list_of kind (view value.now) }
{
    let Some(items) = value.as_array() else {
        return false;
    };
    for item in items {
        if !is_kind(kind, item) {
            return false;
        }
    }
    true
}

/// Whether the rule allows what stands under its key, if anything.
fn is_allowed(rule: KeyRule, table: &Table) -> bool
    ensures { result ≡ allows rule (under rule.key (table_view table.now)) }
{
    match value_under(table, rule.key) {
        None => rule.is_optional,
        Some(value) if rule.is_list => is_list_of(rule.holds, value),
        Some(value) => is_kind(rule.holds, value),
    }
}

/// Refuses the first of `keys` that is required and missing, or under which the table has a value of another type.
fn check_types(row: Option<u32>, keys: &[KeyRule], table: &Table) -> Result<(), PartFault>
    ensures { result_err result ≡ types_fault row keys.now (table_view table.now) }
{
    for rule in keys {
        let at = Which { row, key: rule.key };
        require(is_allowed(*rule, table), PartFault::Key(at))?;
    }
    Ok(())
}

/// Whether one of the keys has this name.
fn is_known(keys: &[KeyRule], name: &str) -> bool
    ensures { result ≡ is_known keys.now name.now }
{
    for rule in keys {
        if name == rule.key.name() {
            return true;
        }
    }
    false
}

/// Whether each key of the table is one of `keys`.
fn has_only(keys: &[KeyRule], table: &Table) -> bool
    ensures { result ≡ has_only keys.now (table_view table.now) }
{
    'members: for (name, _value) in table.iter() {
        if !is_known(keys, name.as_str()) {
            return false;
        }
    }
    true
}

/// A check of the keys of all tables.
#[derive(Clone, Copy, Drop)]
pub(crate) enum Check {
    /// No required key is missing, and each value is of its key's type.
    Types,
    /// Each key is a known one.
    Names,
}

/// Checks one table: the top one, or that of a row.
fn check_table(
    check: Check,
    row: Option<u32>,
    keys: &[KeyRule],
    table: &Table,
) -> Result<(), PartFault>
    ensures { result_err result ≡ check_fault check row keys.now (table_view table.now) }
{
    match check {
        Check::Types => check_types(row, keys, table),
        Check::Names => {
            let at = Which {
                row,
                key: PartKey::Other,
            };
            require(has_only(keys, table), PartFault::Key(at))
        }
    }
}

/// The check of the top table, and then of each row. Rows count from 1.
pub(crate) fn check_tables(check: Check, table: &Table) -> Result<(), PartFault>
    ensures { result_err result ≡ tables_fault check (table_view table.now) }
{
    check_table(check, None, &TOP_KEYS, table)?;
    let items = items_under(table, PartKey::Row);
    let mut number = 1u32;
    for item in items {
        let row = match item.as_table() {
            Some(row) => row,
            None => continue,
        };
        check_table(check, Some(number), &ROW_KEYS, row)?;
        number = number.saturating_add(1);
    }
    Ok(())
}
