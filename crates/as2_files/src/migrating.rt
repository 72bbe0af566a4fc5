//! A store of an earlier version, in its two files, becomes one of the version that is read.
ghost use Rattle.std.specs.Prelude.{◌≡◌, Some, false, IfOk};
ghost use Rattle.sqlite.specs.Files.{file_state};
ghost use Rattle.sqlite.specs.Held.{state};
ghost use Rattle.sqlite.specs.State.{HasCleanDisk};
ghost use Rattle.as2_exchange.specs.State.{State};
ghost use Rattle.as2_host.specs.Migrating.{migrated_if_first};
ghost use Rattle.as2_store.specs.Calls.{IsGivenBack};
ghost use Rattle.as2_store.specs.Stands.{Rests};
ghost use Rattle.as2_files.specs.Earlier.{HoldsEarlier};
ghost use Rattle.as2_storage.specs.Files.{AreLeftBy};
ghost use Rattle.as2_files.specs.Stores.{EndsIn, IfClosed, IfLeft, IsCleanEnd, NeedsNoLog, leaves_of_store};

use crate::closing::opening_fault;
use crate::keeping::End;
use crate::opening::OpenFiles;
use as2_host::{Entries, Migration, OpenFault};
use as2_storage::close;
use as2_store::Store;
use sqlite::{Alter, Connection, Error, FileStore, Row};
use sqlite_disk::Disk;

/// What a migration left.
#[derive(Drop)]
pub struct Moved<D: Disk + Drop> {
    /// How the store was closed.
    pub end: End<D>,
    /// How many entries it had and has.
    pub migration: Migration,
}

/// Whether there is a table of that name.
fn has_table<S: Alter>(conn: &Connection<S>, name: &[u8]) -> bool {
    let tables = conn.schema().tables.as_slice();
    tables.iter().any(|table| table.name.as_slice() == name)
}

/// How many rows there are, where they were read.
fn number_of(rows: Result<Vec<Row>, Error>) -> Option<u64> {
    match rows {
        Ok(rows) => Some(rows.len() as u64),
        Err(_) => None,
    }
}

/// How many rows a query shows, in a transaction that is given up.
fn rows_of<S: Alter>(conn: &mut Connection<S>, query: &str) -> Option<u64>
    requires autocommit { conn.old.in_transaction ≡ false }
    ensures autocommit { conn.new.in_transaction ≡ false }
    ensures given_back { IsGivenBack (λ _. ⊥) (state S.Store conn.old) (state S.Store conn.new) }
{
    let mut tx = conn.transaction();
    number_of(tx.query_all(query, &[]))
}

/// The same where the table is there, and else none.
fn rows_if<S: Alter>(is_there: bool, conn: &mut Connection<S>, query: &str) -> Option<u64>
    requires autocommit { conn.old.in_transaction ≡ false }
    ensures autocommit { conn.new.in_transaction ≡ false }
    ensures given_back { IsGivenBack (λ _. ⊥) (state S.Store conn.old) (state S.Store conn.new) }
{
    if is_there {
        return rows_of(conn, query);
    }
    Some(0)
}

/// So many entries, where each table was read. The inbox stands in the one table, or in the other.
fn entries_of(first: Option<u64>, later: Option<u64>, outbox: Option<u64>) -> Option<Entries> {
    let inbox = first?.checked_add(later?)?;
    Some(Entries {
        inbox,
        outbox: outbox?,
    })
}

/// How many entries the tables have, of any version, where they can be counted; they stay as they are. The first version has a table
/// `inbox`, a later one `inbox2`, and one that was migrated both, of which the first is empty.
fn counted<S: Alter>(conn: &mut Connection<S>) -> Option<Entries>
    requires autocommit { conn.old.in_transaction ≡ false }
    ensures autocommit { conn.new.in_transaction ≡ false }
    ensures given_back { IsGivenBack (λ _. ⊥) (state S.Store conn.old) (state S.Store conn.new) }
{
    let has_first = has_table(conn, b"inbox");
    let has_later = has_table(conn, b"inbox2");
    let first = rows_if(has_first, conn, "SELECT number FROM inbox");
    let later = rows_if(has_later, conn, "SELECT number FROM inbox2");
    let outbox = rows_of(conn, "SELECT number FROM outbox");
    entries_of(first, later, outbox)
}

/// Closes a store into its two files.
fn closed<D: Disk + Drop>(conn: Connection<FileStore<D>>) -> End<D>
    ensures clean { IsCleanEnd D.Disk (Some result) → HasCleanDisk (file_state conn) }
    ensures kept { IsCleanEnd D.Disk (Some result) → (s : State) → Rests (file_state conn) s
        → EndsIn D.Disk (leaves_of_store D.Disk) result s }
    ensures left { IfLeft (AreLeftBy D.Disk conn) result }
    ensures alone { IfClosed (NeedsNoLog D.Disk) result }
{
    match close(conn) {
        Ok(files) => End::Closed(files),
        Err((_, files)) => End::Left(files),
    }
}

/// Makes the store of an earlier version in the two files of that name one of the version that is read, and closes it. Held where
/// another process has the files open; NotAStore where they hold no store; OtherVersion where it isn't of version 1 or 2; else the
/// fault of SQLite; and then it is as it was.
pub fn migrate_in_files<F: OpenFiles>(
    rt: &HostRuntime,
    opener: F,
    name: &str,
) -> Result<Moved<F::Disk>, OpenFault>
    ensures moved { IfOk result (λ it. IsCleanEnd F.Disk.Disk (Some it.end) → (s : State)
        → HoldsEarlier (F.image name.now) s
        → EndsIn F.Disk.Disk (leaves_of_store F.Disk.Disk) it.end (migrated_if_first s)) }
    ensures alone { IfOk result (λ it. IfClosed (NeedsNoLog F.Disk.Disk) it.end) }
{
    // (its close copies what the log holds)
    let mut conn = match opener.open_files(rt, name, false) {
        Ok(conn) => conn,
        Err(error) => return Err(opening_fault(error)),
    };
    let before = counted(&mut conn);
    let mut conn = match Store::migrate(conn) {
        Ok(store) => store.into_connection(),
        Err((_, fault)) => return Err(OpenFault::Store(fault)),
    };
    let after = counted(&mut conn);
    Ok(Moved {
        end: closed(conn),
        migration: Migration { before, after },
    })
}
