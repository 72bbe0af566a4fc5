//! Files whose tables are of an earlier version, and a stop as they are migrated.
ghost use Rattle.std.specs.Prelude.{◌≡◌, false, IfSome, IsTrue};
ghost use Rattle.sqlite.specs.Files.{file_state, image_of};
ghost use Rattle.sqlite.specs.State.{HasCleanDisk};
ghost use Rattle.sqlite_wal.specs.Reads.{AreClean};
ghost use Rattle.as2_exchange.specs.Agreement.{Agreements};
ghost use Rattle.as2_exchange.specs.State.{State};
ghost use Rattle.as2_store.specs.Migrating.{RestsAs};
ghost use Rattle.as2_store.specs.Tables.{Layout};
ghost use Rattle.as2_storage.specs.Files.{HoldsAs};
ghost use Rattle.as2_restart.specs.Migrations.{AreBeforeOrMigrated, TriesMigration, migration_trace};
ghost use Rattle.as2_restart.specs.Restarts.{LeadsToHeld};

use as2_kept::Kept;
use as2_station::Station;
use as2_store::Store;
use sqlite::{Connection, FileStore, Options};
use sqlite_disk::{Crash, Disk, Files};
use std::alloc::Global;

/// A migration, and the stop behind it.
#[derive(Drop)]
pub struct StoppedMigration<D: Disk> {
    /// Whether it was answered that the tables were migrated.
    pub is_answered: bool,
    /// The files that were left.
    pub files: Files<D>,
}

/// Opens the two files of a database: the connection stands for what they hold, of whatever version. None where the open failed.
pub fn open_tables<D: Disk + Drop>(
    alloc: Global,
    files: Files<D>,
    options: Options,
) -> Option<Connection<FileStore<D>>>
    requires log { IsTrue (D.Disk.is_usable files.log) }
    requires db { IsTrue (D.Disk.is_usable files.db) }
    ensures autocommit { IfSome result (λ conn. conn.in_transaction ≡ false) }
    ensures clean { IfSome result (λ conn. HasCleanDisk (file_state conn) → AreClean D.Disk files.log files.db) }
    ensures open { IfSome result (λ conn. HasCleanDisk (file_state conn) → IsTrue (file_state conn).is_open) }
    ensures any_version { IfSome result (λ conn. HasCleanDisk (file_state conn) → (layout : Layout) (s : State)
        → HoldsAs layout (image_of D.Disk files) s → RestsAs layout (file_state conn) s) }
{
    match Connection::open_files(alloc, files, options) {
        Ok(conn) => Some(conn),
        Err(_) => None,
    }
}

/// Opens files whose tables are of an earlier version, and migrates them: the station over them stands for the state that this leads
/// to. None where the open or the migration failed, also where the tables are of the version that is read.
pub fn open_and_migrate<D: Disk + Drop>(
    alloc: Global,
    files: Files<D>,
    options: Options,
) -> Option<Station<Kept<FileStore<D>>>>
    requires log { IsTrue (D.Disk.is_usable files.log) }
    requires db { IsTrue (D.Disk.is_usable files.db) }
    ensures clean { IfSome result (λ opened. HasCleanDisk (file_state opened) → AreClean D.Disk files.log files.db) }
    ensures migrated { IfSome result (λ opened. HasCleanDisk (file_state opened)
        → (A : Agreements) (layout : Layout) (s : State) → HoldsAs layout (image_of D.Disk files) s
        → LeadsToHeld A (migration_trace layout s) s (file_state opened)) }
{
    let Ok(conn) = Connection::open_files(alloc, files, options) else {
        return None;
    };
    match Store::migrate(conn) {
        Ok(store) => Some(Station::new(Kept::new(store))),
        Err(_) => None,
    }
}

/// Migrates the tables of a connection; whether that was answered, and the connection.
fn try_migration<D: Disk + Drop>(
    earlier: Connection<FileStore<D>>,
) -> (bool, Connection<FileStore<D>>)
    requires autocommit { earlier.in_transaction ≡ false }
    ensures { TriesMigration result.0 (file_state earlier) (file_state result.1) }
{
    match Store::migrate(earlier) {
        Ok(store) => (true, store.into_connection()),
        Err((conn, _)) => (false, conn),
    }
}

/// Migrates the tables of a connection; then the computer stops, wherever its disk stands. What is left is of one version or the other,
/// whole; a migration that wasn't answered may be done.
pub fn migrate_then_stop<D: Crash + Drop>(earlier: Connection<FileStore<D>>) -> StoppedMigration<D>
    requires autocommit { earlier.in_transaction ≡ false }
    ensures clean { AreClean D.Disk result.files.log result.files.db → HasCleanDisk (file_state earlier) }
    ensures left { AreClean D.Disk result.files.log result.files.db → IsTrue (file_state earlier).is_open
        → (A : Agreements) (layout : Layout) (s : State) → RestsAs layout (file_state earlier) s
        → ∥ AreBeforeOrMigrated A result.is_answered layout s (image_of D.Disk result.files) ∥₁ }
{
    let (is_answered, conn) = try_migration(earlier);
    let mut files = conn.into_store().close();
    files.log.crash();
    files.db.crash();
    StoppedMigration { is_answered, files }
}
