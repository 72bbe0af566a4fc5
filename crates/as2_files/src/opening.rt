//! What opens the two files of a store, as a parameter: the files of the operating system, or others.
ghost use Rattle.std.specs.Prelude.{◌≡◌, ℕ, List, false, true, IfOk};
ghost use Rattle.sqlite.specs.Files.{file_state};
ghost use Rattle.sqlite.specs.State.{HasCleanDisk};
ghost use Rattle.sqlite_wal.specs.Files.{image_at};
ghost use Rattle.sqlite_wal.specs.Recovery.{Image};
ghost use Rattle.as2_exchange.specs.State.{State};
ghost use Rattle.as2_store.specs.Files.{HoldsState};
ghost use Rattle.as2_store.specs.Migrating.{RestsAs};
ghost use Rattle.as2_store.specs.Stands.{Rests};
ghost use Rattle.as2_store.specs.Tables.{Layout};
ghost use Rattle.as2_storage.specs.Files.{HoldsAs, IsSettled};

use as2_storage::{open_at, settle};
use sqlite::{Connection, Error, ErrorCode, FileStore, Options};
use sqlite_disk::{Disk, Start};
use sqlite_std_file::FileFrom;
use std::hash::{BuildHasher, RandomState};

/// What opens the two files of a store.
pub trait OpenFiles {
    /// What they lie on.
    type Disk: Disk + Drop;

    // what the files of that name hold as they are opened
    ghost image: { List ℕ → Image };

    /// Opens the two files of that name, and makes those that are missing. If `settles`, what a log holds that was left there is copied
    /// into the database file, down to the disk, before anything rests on it.
    fn open_files(
        self,
        rt: &HostRuntime,
        name: &str,
        settles: bool,
    ) -> Result<Connection<FileStore<Self::Disk>>, Error>
        ensures autocommit { IfOk result (λ c. c.in_transaction ≡ false) }
        ensures found { IfOk result (λ c. HasCleanDisk (file_state c) → (s : State) → HoldsState (image name.now) s
            → Rests (file_state c) s) }
        ensures any_version { IfOk result (λ c. HasCleanDisk (file_state c) → (layout : Layout) (s : State)
            → HoldsAs layout (image name.now) s → RestsAs layout (file_state c) s) }
        ensures settled { settles ≡ true → IfOk result (λ c. HasCleanDisk (file_state c) → IsSettled Self.Disk.Disk c) };
}

/// Files of the operating system. `start` stands for what they hold as they are opened, which no code can read; that the name leads to
/// them no clause says.
#[derive(Drop)]
pub struct SystemFiles<S> {
    /// What the two files hold as they are opened, for contracts alone: the program names none of it (`Unknown`).
    pub start: S,
}

/// How files are opened again: with a random number for the salts of their log.
fn options(rt: &HostRuntime) -> Result<Options, Error> {
    match RandomState::new(rt) {
        Ok(state) => Ok(Options::new(state.hash_one(&0u8))),
        Err(_) => Err(Error::SqliteFailure(ErrorCode::CannotOpen)),
    }
}

impl<S: Start + Drop> OpenFiles for SystemFiles<S> {
    type Disk = FileFrom<S>;

    ghost image = { λ _. image_at S.Start };

    fn open_files(
        self,
        rt: &HostRuntime,
        name: &str,
        settles: bool,
    ) -> Result<Connection<FileStore<FileFrom<S>>>, Error> {
        let conn = match open_at(rt, name, self.start) {
            Ok(conn) => conn,
            Err(error) => return Err(error),
        };
        if !settles {
            return Ok(conn);
        }
        match options(rt) {
            Ok(options) => settle(rt.alloc(), conn, options),
            Err(error) => Err(error),
        }
    }
}
