//! Stores of records, opened and closed by a path.
ghost use Rattle.std.specs.Prelude.{◌≡◌, ◌+◌, ℕ, List, IfErr, IfOk};
ghost use Rattle.as2_exchange.specs.State.{State};
ghost use Rattle.as2_host.specs.Migrating.{migrated_if_first};
ghost use Rattle.as2_host.specs.Stores.{BeginsNew, Finds, opens_of};
ghost use Rattle.as2_host.specs.declared.stores.OpenFault.{OpenFault as TheFault};

use as2_commands::FirstNumber;
use as2_exchange::StoreFault;
use as2_records::Records;
use std::alloc::Global;

/// Why a path can't be opened, as the file system tells it.
#[derive(Clone, Copy, Debug, PartialEq, Eq)]
pub enum PathFault {
    /// The folder that the file stands in isn't there, or is no folder.
    NoFolder,
    /// There is no right to read or to write the file or its folder.
    NoRight,
    /// What stands there is no file of its own: a folder, a link to nothing, or a file with two names.
    NoFile,
    /// SQLite left a journal beside the file, which only it can play back.
    Journal,
    /// The disk has no room.
    NoRoom,
    /// The file system has another reason.
    Other,
}

/// Why a store can't be opened or migrated, or which fault a call of it had.
#[derive(Clone, Copy, Debug, PartialEq, Eq)]
pub enum OpenFault {
    /// Another process has the file open.
    Held,
    /// The file isn't there, and a log of it is, which a new store would take for its own.
    LogAlone,
    /// The path can't be opened.
    Path(PathFault),
    /// The store has this fault.
    Store(StoreFault),
}

/// How many entries a store has.
#[derive(Clone, Copy, Debug, PartialEq, Eq)]
pub struct Entries {
    /// Of its inbox.
    pub inbox: u64,
    /// Of its outbox.
    pub outbox: u64,
}

/// How many entries a store that was migrated had and has, as its tables were counted. That the counts are right no clause says.
#[derive(Clone, Copy, Debug, PartialEq, Eq)]
pub struct Migration {
    /// How many entries it had, where they could be counted.
    pub before: Option<Entries>,
    /// How many it has, where they could be counted.
    pub after: Option<Entries>,
}

/// Stores of records that are opened by a path.
pub trait OpenStores {
    /// The records of a path.
    type Opened: Records + Drop;

    /// Records that no path has. They end with the program.
    type InMemory: Records + Drop;

    // what is kept under that path stands for that state; where nothing stands there, what is made that begins with this number
    ghost keeps: { Self → List ℕ → ℕ → State → Type 0 };

    // what is kept under that path can't be opened, for that fault
    ghost fails: { Self → List ℕ → TheFault → Type 0 };

    // what is kept under that path is of an earlier version, and stands for that state
    ghost keeps_earlier: { Self → List ℕ → State → Type 0 };

    // what is kept under that path isn't migrated, for that fault
    ghost stays: { Self → List ℕ → TheFault → Type 0 };

    // the files of that path take so many bytes
    ghost takes: { Self → List ℕ → ℕ → Type 0 };

    // so far all that was read is what had been written
    ghost is_clean: { Self → Type 0 };

    // how many stores were opened
    ghost opens: { Self → ℕ };

    /// Opens the records that are kept under that path. Where nothing stands there, records are made, which begin with `first`.
    fn open(
        &mut self,
        alloc: Global,
        path: &str,
        first: FirstNumber,
    ) -> Result<Self::Opened, OpenFault>
        ensures found { Finds Self.Opened.shows (keeps self.old path.now first) result }
        ensures fault { IfErr result (λ fault. fails self.old path.now fault) }
        ensures same { IfErr result (λ fault. (number : ℕ) (s : State) → keeps self.old path.now number s
            → keeps self.new path.now number s) }
        ensures clean { IfOk result (λ records. (Self.Opened.shows records).IsClean → is_clean self.old) }
        ensures unclean { IfErr result (λ _. is_clean self.new → is_clean self.old) }
        ensures counted { opens self.new ≡ opens self.old + opens_of result };

    /// How many bytes the files of that path take, as far as that can be told; 0 where there are none.
    fn size(&self, path: &str) -> u64
        ensures { takes self.now path.now result };

    /// Opens new records in memory, which begin with `first`.
    fn open_in_memory(&self, alloc: Global, first: FirstNumber) -> Result<Self::InMemory, OpenFault>
        ensures { BeginsNew Self.InMemory.shows first result };

    /// Closes records, which are kept under that path from then on.
    fn close(&mut self, path: &str, records: Self::Opened)
        ensures clean { is_clean self.new → (Self.Opened.shows records).IsClean }
        ensures kept { is_clean self.new → (s : State) → (Self.Opened.shows records).Rests s → (number : ℕ)
            → keeps self.new path.now number s }
        ensures counted { opens self.new ≡ opens self.old };

    /// Makes what is kept under that path, which is of an earlier version, a store of the version that is read. Where that fails,
    /// it stays as it was; where nothing stands there, nothing does.
    fn migrate(&mut self, path: &str) -> Result<Migration, OpenFault>
        ensures moved { IfOk result (λ _. is_clean self.new → (s : State) → keeps_earlier self.old path.now s
            → (number : ℕ) → keeps self.new path.now number (migrated_if_first s)) }
        ensures fault { IfErr result (λ fault. stays self.old path.now fault) }
        ensures same { IfErr result (λ fault. (number : ℕ) (s : State) → keeps self.old path.now number s
            → keeps self.new path.now number s) }
        ensures earlier { IfErr result (λ fault. (s : State) → keeps_earlier self.old path.now s
            → keeps_earlier self.new path.now s) }
        ensures clean { is_clean self.new → is_clean self.old }
        ensures counted { opens self.new ≡ opens self.old };
}
