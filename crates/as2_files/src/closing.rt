//! Stores that are made whole, and closed.
ghost use Rattle.std.specs.Prelude.{◌≡◌, false, IfOk};
ghost use Rattle.sqlite.specs.Files.{file_state};
ghost use Rattle.sqlite_wal.specs.Reads.{AreClean};
ghost use Rattle.as2_storage.specs.Files.{AreClosed};
ghost use Rattle.as2_store.specs.Calls.{empty_store};
ghost use Rattle.as2_store.specs.Stands.{IsBlank};
ghost use Rattle.as2_files.specs.Opening.{opening_fault};

use as2_commands::FirstNumber;
use as2_exchange::StoreFault;
use as2_host::OpenFault;
use as2_kept::create;
use as2_storage::close;
use as2_store::fault_of;
use sqlite::{Connection, Error, ErrorCode, FileStore};
use sqlite_disk::{Disk, Files};

/// The fault that an error in opening a file is: a file that is no database is no store.
pub(crate) fn opening_fault(error: Error) -> OpenFault
    ensures { result ≡ opening_fault error }
{
    match error {
        Error::SqliteFailure(ErrorCode::NotADatabase) => OpenFault::Store(StoreFault::NotAStore),
        Error::SqliteFailure(ErrorCode::DatabaseBusy) => OpenFault::Held,
        error => OpenFault::Store(fault_of(error)),
    }
}

/// Makes the tables of a store that begins with `first`, and closes it into its files.
pub(crate) fn with_tables<D: Disk + Drop>(
    conn: Connection<FileStore<D>>,
    first: FirstNumber,
) -> Result<Files<D>, OpenFault>
    requires autocommit { conn.in_transaction ≡ false }
    ensures made { IfOk result (λ files. AreClean D.Disk files.log files.db → IsBlank (file_state conn)
        → AreClosed D.Disk files (empty_store first)) }
{
    let records = match create(conn, first.get()) {
        Ok(records) => records,
        Err((_, fault)) => return Err(OpenFault::Store(fault)),
    };
    match close(records.into_connection()) {
        Ok(files) => Ok(files),
        Err((error, _)) => Err(opening_fault(error)),
    }
}
