//! The files of a station's store: closed, and left by a stop.
ghost use Rattle.std.specs.Prelude.{IfOk, IsTrue};
ghost use Rattle.sqlite.specs.Files.{file_state};
ghost use Rattle.sqlite.specs.State.{HasCleanDisk};
ghost use Rattle.sqlite_wal.specs.Files.{outcomes};
ghost use Rattle.sqlite_wal.specs.Recovery.{Image};
ghost use Rattle.sqlite_wal.specs.Reads.{AreClean};
ghost use Rattle.as2_exchange.specs.Agreement.{Agreements};
ghost use Rattle.as2_exchange.specs.Run.{Trace};
ghost use Rattle.as2_exchange.specs.State.{State};
ghost use Rattle.as2_store.specs.Files.{HoldsState};
ghost use Rattle.as2_store.specs.Stands.{Rests};
ghost use Rattle.as2_storage.specs.Files.{AreClosed, AreShielded};
ghost use Rattle.as2_restart.specs.Files.{AreLeft};
ghost use Rattle.as2_restart.specs.Restarts.{LeadsToFound};

use as2_kept::Kept;
use as2_station::Station;
use as2_storage::close;
use sqlite::{Error, FileStore};
use sqlite_disk::{Disk, Files};

/// Closes a station's store into its two files.
pub(crate) fn shut<D: Disk + Drop>(
    station: Station<Kept<FileStore<D>>>,
) -> Result<Files<D>, (Error, Files<D>)>
    ensures usable { IfOk result (λ files. IsTrue (D.Disk.is_usable files.log) × IsTrue (D.Disk.is_usable files.db)) }
    ensures clean { IfOk result (λ files. AreClean D.Disk files.log files.db → HasCleanDisk (file_state station)) }
    ensures closed { IfOk result (λ files. AreClean D.Disk files.log files.db → (s : State)
        → Rests (file_state station) s → AreClosed D.Disk files s) }
    ensures shield { IfOk result (λ files. (file_state station).IsShielded → AreShielded D.Disk files) }
{
    close(station.into_records().into_connection())
}

/// The two files of a station, as a stop of the computer would find them: they hold what its store would leave to a crash.
pub fn leave<D: Disk + Drop>(station: Station<Kept<FileStore<D>>>) -> Files<D>
    ensures clean { AreClean D.Disk result.log result.db → HasCleanDisk (file_state station) }
    ensures left { AreClean D.Disk result.log result.db → (A : Agreements) (told : Trace) (s : State)
        → LeadsToFound A told s (file_state station) → AreLeft D.Disk result A told s }
    ensures kept { AreClean D.Disk result.log result.db → (s : State) → Rests (file_state station) s
        → IsTrue (file_state station).is_open
        → (image : Image) → outcomes D.Disk result.log result.db image → ∥ HoldsState image s ∥₁ }
{
    station
        .into_records()
        .into_connection()
        .into_store()
        .close()
}
