//! What stands under the keys of a part file's tables.
ghost use Rattle.std.specs.Prelude.{◌≡◌, ◌≤◌, option_map};
ghost use Rattle.toml.specs.View.{view, table_view, items_view};
ghost use Rattle.x7_part.specs.Values.{under, text, whole, natural, number_or, items_under};

use crate::fault::PartKey;
use toml::{Table, Value};

/// The value under a key, none where the table lacks it.
pub(crate) fn value_under(table: &Table, key: PartKey) -> Option<&Value>
    ensures { option_map (λ v. view v.now) result ≡ under key (table_view table.now) }
{
    table.get(key.name())
}

/// The text under a key, an empty one where no text stands there.
pub(crate) fn text(table: &Table, key: PartKey) -> &str
    ensures { result.now ≡ text key (table_view table.now) }
{
    match value_under(table, key) {
        Some(value) => value.as_str().unwrap_or(""),
        None => "",
    }
}

/// The whole number that a value is, 0 for any other value.
pub(crate) fn whole(value: &Value) -> i64
    ensures { result ≡ whole (view value.now) }
{
    value.as_integer().unwrap_or(0)
}

/// The whole number under a key, `usual` where there is none.
pub(crate) fn number_or(usual: u32, table: &Table, key: PartKey) -> i64
    ensures { result ≡ number_or usual key (table_view table.now) }
{
    let usual = i64::from(usual);
    match value_under(table, key) {
        Some(value) => value.as_integer().unwrap_or(usual),
        None => usual,
    }
}

/// The items of the list under a key, no item where there is no list.
pub(crate) fn items_under(table: &Table, key: PartKey) -> &[Value]
    ensures { items_view result.now ≡ items_under key (table_view table.now) }
{
    match value_under(table, key) {
        Some(value) => match value.as_array() {
            Some(items) => items.as_slice(),
            None => &[],
        },
        None => &[],
    }
}

/// The whole number under a key without its sign, `usual` where it is left out: `most` at most.
pub(crate) fn number_up_to(most: u32, usual: u32, table: &Table, key: PartKey) -> u32
    requires { natural (number_or usual key (table_view table.now)) ≤ most }
    ensures value { result ≡ natural (number_or usual key (table_view table.now)) }
    ensures within { result ≤ most }
{
    number_or(usual, table, key).unsigned_abs() as u32
}
