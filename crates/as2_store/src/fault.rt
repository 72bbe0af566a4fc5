//! What a failure of the database is to the station.

ghost use Rattle.std.specs.Prelude.{◌≡◌, ◌⊎◌, ℕ, Bool, true};
ghost use Rattle.sqlite.specs.Order.{column};
ghost use Rattle.as2_exchange.specs.declared.place.RowPlace.{RowPlace as Place};
ghost use Rattle.as2_rows.specs.Rows.{whole};
ghost use Rattle.as2_store.specs.Stands.{column_fault, comes_of, fault_by, row_fault};
ghost use Rattle.as2_records.specs.Standing.{may_come};

use as2_exchange::{RowPlace, StoreFault, Table};
use as2_rows::RowFault;
use sqlite::types::ValueRef;
use sqlite::{Error, ErrorCode, Row};

/// The fault that an error of SQLite is.
pub fn fault_of(error: Error) -> StoreFault
    ensures by { result ≡ fault_by error }
    ensures may_come { may_come result ≡ true }
    ensures row { (is_there : Place → Bool) → comes_of is_there result ≡ true }
{
    match error {
        Error::SqliteFailure(code) => match code {
            ErrorCode::OutOfMemory => StoreFault::Memory,
            ErrorCode::SystemIoFailure => StoreFault::Disk,
            ErrorCode::DatabaseCorrupt => StoreFault::Disk,
            ErrorCode::DiskFull => StoreFault::Disk,
            ErrorCode::Closed => StoreFault::Disk,
            _ => StoreFault::Refused,
        },
        _ => StoreFault::Refused,
    }
}

/// The fault that it is that the row of this place can't be read.
pub fn unread_row(fault: RowFault, place: RowPlace) -> StoreFault
    ensures by { result ≡ row_fault place fault }
    ensures may_come { may_come result ≡ true }
    ensures row { (is_there : Place → Bool) → is_there place ≡ true → comes_of is_there result ≡ true }
{
    match fault {
        RowFault::Memory => StoreFault::Memory,
        RowFault::NotAnEntry => StoreFault::Damaged(place),
    }
}

/// The fault that it is that a column of the row of this place can't be read.
pub fn unread_column(error: Error, place: RowPlace) -> StoreFault
    ensures by { result ≡ column_fault place error }
    ensures may_come { may_come result ≡ true }
    ensures row { (is_there : Place → Bool) → is_there place ≡ true → comes_of is_there result ≡ true }
{
    match error {
        Error::SqliteFailure(code) => fault_of(Error::SqliteFailure(code)),
        _ => StoreFault::Damaged(place),
    }
}

/// Where a row of the table stands that shows the number of its entry in this column.
pub fn place_of(table: Table, row: &Row, at: usize) -> RowPlace
    ensures table { result.table ≡ table }
    ensures shown { (n : ℕ) → column row.now at ≡ whole n → result.number ≡ n }
    ensures other { (result.number ≡ 0) ⊎ (column row.now at ≡ whole result.number) }
{
    let number = match row.get_ref(at) {
        Ok(ValueRef::Int(number)) => if number >= 0 { number as u64 } else { 0 },
        _ => 0,
    };
    RowPlace { table, number }
}
