//! Values of a table by their keys, each with its first fault.

// What the keys of a table hold.
ghost use Rattle.std.specs.Prelude.{◌≡◌, option_map};
ghost use Rattle.toml.specs.Data.{as_table};
ghost use Rattle.toml.specs.View.{view, table_view, items_view};
ghost use Rattle.as2_agreement.specs.Values.{value_at};
ghost use Rattle.as2_agreement.specs.Reading.{IsSeenAs, present, of_kind, text, count_of, count_in, entries, few};

use crate::fault::AgreementFault;
use crate::key::Key;
use toml::{Table, Value};

/// The value at a key.
pub(crate) fn value_at<'a>(table: &'a Table, key: Key) -> Option<&'a Value>
    ensures { option_map (λ v. view v.now) result ≡ value_at key (table_view table.now) }
{
    table.get(key.name())
}

/// The value at a key that must be there.
fn present(table: &Table, key: Key) -> Result<&Value, AgreementFault>
    ensures { IsSeenAs (λ v. view v.now) result (present key (value_at key (table_view table.now))) }
{
    value_at(table, key).ok_or(AgreementFault::Missing(key))
}

/// The text at a key.
pub(crate) fn text_at(table: &Table, key: Key) -> Result<&str, AgreementFault>
    ensures { IsSeenAs (λ s. s.now) result (text key (table_view table.now)) }
{
    let value = present(table, key)?;
    value.as_str().ok_or(AgreementFault::WrongKind(key))
}

/// The number, where it is from 1 to the most.
fn count_in(key: Key, most: u64, number: i64) -> Result<u64, AgreementFault>
    ensures { result ≡ count_in key most number }
{
    match u64::try_from(number) {
        Ok(count) if count >= 1 && count <= most => Ok(count),
        _ => Err(AgreementFault::OutOfRange(key)),
    }
}

/// The number at a key, from 1 to the most.
pub(crate) fn count_at(table: &Table, key: Key, most: u64) -> Result<u64, AgreementFault>
    ensures { result ≡ count_of key most (table_view table.now) }
{
    let value = present(table, key)?;
    let number = value.as_integer().ok_or(AgreementFault::WrongKind(key))?;
    count_in(key, most, number)
}

/// The entries of an array, where there are not too many.
fn few(entries: &[Value], most: usize) -> Result<&[Value], AgreementFault>
    ensures { IsSeenAs (λ v. items_view v.now) result (few most (items_view entries.now)) }
{
    if entries.len() <= most {
        Ok(entries)
    } else {
        Err(AgreementFault::TooMany)
    }
}

/// The entries of the array at a key, where there are not too many.
pub(crate) fn entries_at(table: &Table, key: Key, most: usize) -> Result<&[Value], AgreementFault>
    ensures { IsSeenAs (λ v. items_view v.now) result (entries key most (table_view table.now)) }
{
    let value = present(table, key)?;
    let entries = value.as_array().ok_or(AgreementFault::WrongKind(key))?;
    few(entries, most)
}

/// The table that an entry of the array at a key is.
pub(crate) fn table_of(entry: &Value, key: Key) -> Result<&Table, AgreementFault>
    ensures { IsSeenAs (λ t. table_view t.now) result (of_kind key (as_table (view entry.now))) }
{
    entry.as_table().ok_or(AgreementFault::WrongKind(key))
}
