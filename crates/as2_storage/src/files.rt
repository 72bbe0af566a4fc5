//! The two files of a store: opened at their path, and closed.
ghost use Rattle.std.specs.Prelude.{◌≡◌, true, false, IfErr, IfOk, IsTrue};
ghost use Rattle.sqlite.specs.Closing.{IsCopied};
ghost use Rattle.sqlite.specs.Files.{IsBlankAs, IsOpened, file_state};
ghost use Rattle.sqlite.specs.Start.{FindsIn};
ghost use Rattle.sqlite.specs.State.{HasCleanDisk};
ghost use Rattle.sqlite_store.specs.FileStore.{view};
ghost use Rattle.sqlite_wal.specs.Files.{image_at};
ghost use Rattle.sqlite_wal.specs.Reads.{AreClean};
ghost use Rattle.as2_exchange.specs.State.{State};
ghost use Rattle.as2_store.specs.Files.{HoldsState};
ghost use Rattle.as2_store.specs.Migrating.{RestsAs};
ghost use Rattle.as2_store.specs.Stands.{Rests};
ghost use Rattle.as2_store.specs.Tables.{Layout};
ghost use Rattle.as2_storage.specs.Files.{AreClosed, AreLeftBy, AreShielded, IsSettledFrom};

use sqlite::{Connection, Error, FileFrom, FileStore, Options, Start};
use sqlite_disk::{Disk, Files};
use std::alloc::Global;

/// Opens the two files at a path, and makes those that are missing, whose pages have sums then. `start` stands for what they hold as
/// they are opened, which no code can read: where that is a state of a store, the connection stands for it. That the path leads to
/// them no clause says.
pub fn open_at<S: Start>(
    rt: &HostRuntime,
    path: &str,
    start: S,
) -> Result<Connection<FileStore<FileFrom<S>>>, Error>
    ensures autocommit { IfOk result (λ c. c.in_transaction ≡ false) }
    ensures opened { IfOk result (λ c. HasCleanDisk (file_state c) → IsOpened c) }
    ensures finds { IfOk result (λ c. HasCleanDisk (file_state c) → FindsIn (image_at S.Start) (file_state c)) }
    ensures sums { IfOk result (λ c. HasCleanDisk (file_state c) → IsBlankAs true (image_at S.Start)
        → (view c.store).has_sums ≡ true) }
    ensures found { IfOk result (λ c. HasCleanDisk (file_state c) → (s : State) → HoldsState (image_at S.Start) s
        → Rests (file_state c) s) }
    ensures guarded { IfOk result (λ c. HasCleanDisk (file_state c) → (file_state c).IsShielded) }
{
    match Connection::open_from(rt, path, true, start) {
        Ok(conn) => Ok(conn),
        Err((error, _)) => Err(error),
    }
}

/// Closes a store into its two files, which hold then what its tables stood for. Where that fails the files come with the error, and a
/// crash leaves of them only what it could have left of the store.
pub fn close<D: Disk + Drop>(conn: Connection<FileStore<D>>) -> Result<Files<D>, (Error, Files<D>)>
    ensures usable { IfOk result (λ files. IsTrue (D.Disk.is_usable files.log) × IsTrue (D.Disk.is_usable files.db)) }
    ensures copied { IfOk result (λ files. AreClean D.Disk files.log files.db → IsCopied conn files) }
    ensures closed { IfOk result (λ files. AreClean D.Disk files.log files.db → (s : State) → Rests (file_state conn) s
        → AreClosed D.Disk files s) }
    ensures shield { IfOk result (λ files. (file_state conn).IsShielded → AreShielded D.Disk files) }
    ensures clean { IfOk result (λ files. AreClean D.Disk files.log files.db → HasCleanDisk (file_state conn)) }
    ensures left { IfErr result (λ e. AreLeftBy D.Disk conn e.1) }
    ensures unclosed { IfErr result (λ e. AreClean D.Disk e.1.log e.1.db → HasCleanDisk (file_state conn)) }
{
    match conn.close_files() {
        Ok(files) => Ok(files),
        Err((error, store)) => Err((error, store.close())),
    }
}

/// Gives the two files of a store back, as they are. A crash leaves of them only what it could have left of the store.
pub fn let_go<D: Disk + Drop>(conn: Connection<FileStore<D>>) -> Files<D>
    ensures left { AreLeftBy D.Disk conn result }
    ensures unclosed { AreClean D.Disk result.log result.db → HasCleanDisk (file_state conn) }
{
    conn.into_store().close()
}

/// Copies what the log of a store holds into its database file, down to the disk, and opens the two files again: so what the store
/// stands for no longer rests on a log that was found. A system may show bytes of a log whose sync has failed, and never write them.
/// When that copy fails, the files are let go, and the error is told.
pub fn settle<D: Disk + Drop>(
    alloc: Global,
    conn: Connection<FileStore<D>>,
    options: Options,
) -> Result<Connection<FileStore<D>>, Error>
    ensures autocommit { IfOk result (λ c. c.in_transaction ≡ false) }
    ensures settled { IfOk result (λ c. HasCleanDisk (file_state c) → IsSettledFrom D.Disk conn c) }
    ensures same { IfOk result (λ c. HasCleanDisk (file_state c) → (s : State) → Rests (file_state conn) s → Rests (file_state c) s) }
    ensures any_version { IfOk result (λ c. HasCleanDisk (file_state c) → (layout : Layout) (s : State)
        → RestsAs layout (file_state conn) s → RestsAs layout (file_state c) s) }
    ensures guarded { IfOk result (λ c. HasCleanDisk (file_state c) → (file_state c).IsShielded) }
{
    let files = match conn.close_files() {
        Ok(files) => files,
        Err((error, _)) => return Err(error),
    };
    match Connection::open_files_with(alloc, files, options, true) {
        Ok(conn) => Ok(conn),
        Err((error, _)) => Err(error),
    }
}
