//! Records in the two files of a name.
ghost use Rattle.std.specs.Prelude.{ℕ, List, Some, IfOk, IsTrue};
ghost use Rattle.sqlite.specs.Files.{file_state};
ghost use Rattle.sqlite.specs.State.{HasCleanDisk};
ghost use Rattle.sqlite_disk.specs.declared.Files.{Files as TheFiles};
ghost use Rattle.sqlite_wal.specs.Recovery.{Image};
ghost use Rattle.as2_exchange.specs.State.{State};
ghost use Rattle.as2_store.specs.Files.{HoldsState};
ghost use Rattle.as2_store.specs.Stands.{Rests};
ghost use Rattle.as2_host.specs.Migrating.{migrated_if_first};
ghost use Rattle.as2_files.specs.Earlier.{HoldsEarlier};
ghost use Rattle.as2_storage.specs.Files.{AreLeftBy};
ghost use Rattle.as2_files.specs.Stores.{EndsIn, IfClosed, IfLeft, IfLost, IsCleanEnd, IsFound, IsLostInto, NeedsNoLog, leaves_by, leaves_of_store};

use crate::closing::opening_fault;
use crate::migrating::{Moved, migrate_in_files};
use crate::opening::OpenFiles;
use as2_host::OpenFault;
use as2_kept::{HeldRound, Kept, adopt};
use as2_records::Rounds;
use as2_storage::{close, let_go};
use sqlite::FileStore;
use sqlite_disk::{Disk, Files};

/// How a store was closed.
#[derive(Drop)]
pub enum End<D: Disk + Drop> {
    /// Into these files.
    Closed(Files<D>),
    /// It couldn't be, and these are its files. A crash leaves of them only what it could have left of the store.
    Left(Files<D>),
    /// It was in a round that was lost, and these are its files. A crash leaves of them only what it could have left of the store.
    Lost(Files<D>),
}

/// What opens records in the two files of a name, and closes them. The records are a parameter; `docs/DECISIONS.md` says what was tried.
pub trait KeepFiles<R: Rounds> {
    /// What the files lie on.
    type Disk: Disk + Drop;

    // what the files of that name hold as they are opened
    ghost image: { List ℕ → Image };

    // the files are what was left of these records, which couldn't be closed
    ghost left_of: { R → TheFiles Self.Disk → Type 0 };

    // the files are what was left of this round, which was lost
    ghost lost_of: { R.Round → TheFiles Self.Disk → Type 0 };

    /// Opens the records in the files of that name. If `settles`, what a log holds that was left there is copied into the database file,
    /// down to the disk, first.
    fn open_records(self, rt: &HostRuntime, name: &str, settles: bool) -> Result<R, OpenFault>
        ensures found { IfOk result (λ r. (R.shows r).IsClean → IsTrue (R.shows r).is_open
            × ((s : State) → HoldsState (image name.now) s → (R.shows r).Rests s)) };

    /// Makes records of an earlier version in the files of that name those of the version that is read, and closes them.
    fn migrate_records(self, rt: &HostRuntime, name: &str) -> Result<Moved<Self::Disk>, OpenFault>
        ensures moved { IfOk result (λ it. IsCleanEnd Self.Disk.Disk (Some it.end) → (s : State)
            → HoldsEarlier (image name.now) s
            → EndsIn Self.Disk.Disk (leaves_by R.shows left_of R.Round.shows lost_of) it.end (migrated_if_first s)) }
        ensures alone { IfOk result (λ it. IfClosed (NeedsNoLog Self.Disk.Disk) it.end) };

    /// Closes the records into their files.
    fn close_records(records: R) -> End<Self::Disk>
        ensures clean { IsCleanEnd Self.Disk.Disk (Some result) → (R.shows records).IsClean }
        ensures kept { IsCleanEnd Self.Disk.Disk (Some result) → (s : State) → (R.shows records).Rests s
            → EndsIn Self.Disk.Disk (leaves_by R.shows left_of R.Round.shows lost_of) result s }
        ensures left { IfLeft (left_of records) result }
        ensures alone { IfClosed (NeedsNoLog Self.Disk.Disk) result };

    /// Closes what is left of a round that was lost.
    fn let_go(round: R::Round) -> End<Self::Disk>
        ensures clean { IsCleanEnd Self.Disk.Disk (Some result) → (R.Round.shows round).IsClean }
        ensures lost { IfLost (lost_of round) result };
}

/// A store in SQLite's two files, which are opened so.
#[derive(Drop)]
pub struct InFiles<F> {
    /// What opens them.
    pub opener: F,
}

/// Opens the store in the two files of that name. Where all that is read is what had been written, its tables stand for what the files
/// held. If `settles`, what a log holds that was left there is copied into the database file, down to the disk, first. Held if another
/// process has them open; NotAStore if they hold no store; otherwise the fault of SQLite.
pub fn open_in_files<F: OpenFiles>(
    rt: &HostRuntime,
    opener: F,
    name: &str,
    settles: bool,
) -> Result<Kept<FileStore<F::Disk>>, OpenFault>
    ensures { IfOk result (λ records. IsFound (F.image name.now) (file_state records)) }
{
    let conn = match opener.open_files(rt, name, settles) {
        Ok(conn) => conn,
        Err(error) => return Err(opening_fault(error)),
    };
    match adopt(conn) {
        Ok(records) => Ok(records),
        Err((_, fault)) => Err(OpenFault::Store(fault)),
    }
}

/// Closes a store into its two files, which hold then what its tables stood for, the database file alone, too. Where that fails they are
/// what was left of it.
pub fn close_into_files<D: Disk + Drop>(records: Kept<FileStore<D>>) -> End<D>
    ensures clean { IsCleanEnd D.Disk (Some result) → HasCleanDisk (file_state records) }
    ensures kept { IsCleanEnd D.Disk (Some result) → (s : State) → Rests (file_state records) s
        → EndsIn D.Disk (leaves_of_store D.Disk) result s }
    ensures left { IfLeft (AreLeftBy D.Disk records) result }
    ensures alone { IfClosed (NeedsNoLog D.Disk) result }
{
    match close(records.into_connection()) {
        Ok(files) => End::Closed(files),
        Err((_, files)) => End::Left(files),
    }
}

impl<F: OpenFiles + Drop> KeepFiles<Kept<FileStore<F::Disk>>> for InFiles<F> {
    type Disk = F::Disk;

    ghost image = { F.image };

    ghost left_of = { AreLeftBy F.Disk.Disk };

    ghost lost_of = { IsLostInto F.Disk.Disk };

    fn open_records(
        self,
        rt: &HostRuntime,
        name: &str,
        settles: bool,
    ) -> Result<Kept<FileStore<F::Disk>>, OpenFault> {
        open_in_files(rt, self.opener, name, settles)
    }

    fn migrate_records(self, rt: &HostRuntime, name: &str) -> Result<Moved<F::Disk>, OpenFault> {
        migrate_in_files(rt, self.opener, name)
    }

    fn close_records(records: Kept<FileStore<F::Disk>>) -> End<F::Disk> {
        close_into_files(records)
    }

    fn let_go(round: HeldRound<FileStore<F::Disk>>) -> End<F::Disk> {
        End::Lost(let_go(round.into_store().into_connection()))
    }
}
