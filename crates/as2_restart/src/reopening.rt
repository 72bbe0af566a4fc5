//! Files that are left, opened again.
ghost use Rattle.std.specs.Prelude.{IfSome, IsTrue};
ghost use Rattle.sqlite.specs.State.{HasCleanDisk};
ghost use Rattle.sqlite.specs.Files.{file_state, image_of};
ghost use Rattle.sqlite_wal.specs.Reads.{AreClean};
ghost use Rattle.as2_exchange.specs.Agreement.{Agreements};
ghost use Rattle.as2_exchange.specs.Run.{Trace};
ghost use Rattle.as2_exchange.specs.State.{State};
ghost use Rattle.as2_store.specs.Files.{HoldsState};
ghost use Rattle.as2_store.specs.Stands.{Rests};
ghost use Rattle.as2_restart.specs.Restarts.{LeadsToHeld, IsHeld, LeadsToFound};

use crate::files::{leave, shut};
use as2_kept::Kept;
use as2_station::Station;
use as2_store::Store;
use sqlite::{Connection, FileStore, Options};
use sqlite_disk::{Crash, Disk, Files};
use std::alloc::Global;

/// The station over the store that these files hold; None where there is none, or it can't be opened.
pub fn station_over<D: Disk + Drop>(
    alloc: Global,
    files: Files<D>,
    options: Options,
) -> Option<Station<Kept<FileStore<D>>>>
    requires log { IsTrue (D.Disk.is_usable files.log) }
    requires db { IsTrue (D.Disk.is_usable files.db) }
    ensures clean { IfSome result (λ again. HasCleanDisk (file_state again) → AreClean D.Disk files.log files.db) }
    ensures found { IfSome result (λ again. HasCleanDisk (file_state again) → (s : State)
        → HoldsState (image_of D.Disk files) s → IsHeld (file_state again) s) }
{
    let Ok(again) = Connection::open_files(alloc, files, options) else {
        return None;
    };
    match Store::adopt(again) {
        Ok(store) => Some(Station::new(Kept::new(store))),
        Err(_) => None,
    }
}

/// Closes a station's store and opens its files again: they stand for the same state. None where a close or an open failed.
pub fn reopen<D: Disk + Drop>(
    alloc: Global,
    station: Station<Kept<FileStore<D>>>,
    options: Options,
) -> Option<Station<Kept<FileStore<D>>>>
    ensures same { IfSome result (λ again. HasCleanDisk (file_state again) → (s : State) → Rests (file_state station) s
        → IsHeld (file_state again) s) }
{
    match shut(station) {
        Ok(files) => station_over(alloc, files, options),
        Err(_) => None,
    }
}

/// Stops the computer, wherever its disk stands, and opens the files that are left: they stand for one of the states that a
/// crash may leave. None where the open failed.
pub fn stop_and_open<D: Crash + Drop>(
    alloc: Global,
    station: Station<Kept<FileStore<D>>>,
    options: Options,
) -> Option<Station<Kept<FileStore<D>>>>
    ensures clean { IfSome result (λ again. HasCleanDisk (file_state again) → HasCleanDisk (file_state station)) }
    ensures found { IfSome result (λ again. HasCleanDisk (file_state again)
        → (A : Agreements) (told : Trace) (s : State) → LeadsToFound A told s (file_state station)
        → ∥ LeadsToHeld A told s (file_state again) ∥₁) }
{
    let mut files = leave(station);
    files.log.crash();
    files.db.crash();
    station_over(alloc, files, options)
}
