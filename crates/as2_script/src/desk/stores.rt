//! What stands under each path, by the text `stores`.
ghost use Rattle.std.specs.Prelude.{◌≡◌, false, true, IfErr, IfOk, IsTrue};
ghost use Rattle.sqlite.specs.Held.{state};
ghost use Rattle.sqlite.specs.Steps.{over_memory};
ghost use Rattle.as2_exchange.specs.State.{State};
ghost use Rattle.as2_host.specs.Stores.{MayCome};
ghost use Rattle.as2_script.specs.Stores.{MemoryKeeps, size_by};
ghost use Rattle.as2_store.specs.Calls.{empty_store};
ghost use Rattle.as2_store.specs.Stands.{Rests};

use as2_commands::FirstNumber;
use as2_exchange::{RowPlace, StoreFault, Table};
use as2_host::{Migration, OpenFault, OpenStores, PathFault};
use as2_kept::{Kept, adopt, in_memory};
use as2_records::Records;
use sqlite::{Connection, MemStore};
use std::alloc::Global;

/// How many bytes the files of a large store take: 1,100 below a MiB.
const LARGE: u64 = 1_047_476;

/// The stores of a command line: one, which is kept under every path.
#[derive(Drop)]
pub struct Stores<'a> {
    /// `broken`: nobody can say what stands there, the disk has a fault. `held`: a database that another process has. `other`: a file
    /// that is no database. `bare`: a database without tables. `taken`: nothing, until a store is to be made. `large`: nothing, and its files take 1,100 bytes less than a MiB. Else nothing.
    pub word: &'a str,
    /// The store that stands there, where one does.
    pub kept: Option<Kept<MemStore>>,
    /// Whether one was opened.
    pub has_opened: bool,
}

/// A database without tables, as a store.
fn bare(alloc: Global) -> Result<Kept<MemStore>, OpenFault>
    ensures { IfOk result (λ records. IsTrue (state over_memory records).is_open) }
{
    let Ok(conn) = Connection::open_in_memory(alloc) else {
        return Err(OpenFault::Store(StoreFault::Memory));
    };
    match adopt(conn) {
        Ok(records) => Ok(records),
        Err((_, fault)) => Err(OpenFault::Store(fault)),
    }
}

/// A new store.
fn made(alloc: Global, first: FirstNumber) -> Result<Kept<MemStore>, OpenFault>
    ensures is_open { IfOk result (λ records. IsTrue (state over_memory records).is_open) }
    ensures fresh { IfOk result (λ records. Rests (state over_memory records) (empty_store first)) }
    ensures fault { IfErr result MayCome }
{
    match in_memory(alloc, first.get()) {
        Ok(records) => Ok(records),
        Err(fault) => Err(OpenFault::Store(fault)),
    }
}

/// Records that were closed, opened again: they can be read. Else they are given back.
fn opened_again(mut records: Kept<MemStore>) -> Result<Kept<MemStore>, (Kept<MemStore>, StoreFault)>
    ensures is_open { IfOk result (λ again. IsTrue (state over_memory again).is_open) }
    ensures same { IfOk result (λ again. (s : State) → Rests (state over_memory records) s
        → Rests (state over_memory again) s) }
    ensures given_back { IfErr result (λ e. (s : State) → Rests (state over_memory records) s
        → Rests (state over_memory e.0) s) }
{
    match records.next_numbers() {
        Ok(_) => Ok(records),
        Err(fault) => Err((records, fault)),
    }
}

/// A store of which that row is damaged.
fn damaged(table: Table, number: u64) -> Result<Kept<MemStore>, OpenFault>
    ensures { IfOk result (λ records. IsTrue (state over_memory records).is_open) }
{
    Err(OpenFault::Store(StoreFault::Damaged(RowPlace { table, number })))
}

/// What stands there by that word, where no store is kept, or a new store.
fn found(alloc: Global, word: &str, first: FirstNumber) -> Result<Kept<MemStore>, OpenFault>
    ensures { IfOk result (λ records. IsTrue (state over_memory records).is_open) }
{
    match word {
        "broken" => Err(OpenFault::Store(StoreFault::Disk)),
        "held" => Err(OpenFault::Held),
        "log-alone" => Err(OpenFault::LogAlone),
        "no-folder" => Err(OpenFault::Path(PathFault::NoFolder)),
        "no-right" => Err(OpenFault::Path(PathFault::NoRight)),
        "no-file" => Err(OpenFault::Path(PathFault::NoFile)),
        "journal" => Err(OpenFault::Path(PathFault::Journal)),
        "no-room" => Err(OpenFault::Path(PathFault::NoRoom)),
        "unopened" => Err(OpenFault::Path(PathFault::Other)),
        "other" => Err(OpenFault::Store(StoreFault::NotAStore)),
        "taken" => Err(OpenFault::Store(StoreFault::Refused)),
        "damaged" => damaged(Table::Meta, 0),
        "damaged-entry" => damaged(Table::InboxPiece, 12),
        "bare" => bare(alloc),
        _ => made(alloc, first),
    }
}

/// How many bytes the files take by that word.
fn size_by(word: &str) -> u64
    ensures { result ≡ size_by word.now }
{
    if word == "large" {
        return LARGE;
    }
    0
}

/// Why what stands there isn't migrated: a store that is kept is of the version that is read.
fn unmigrated(is_kept: bool, word: &str) -> OpenFault {
    if is_kept {
        return OpenFault::Store(StoreFault::OtherVersion);
    }
    match word {
        "broken" => OpenFault::Store(StoreFault::Disk),
        "held" => OpenFault::Held,
        _ => OpenFault::Store(StoreFault::NotAStore),
    }
}

/// The store that is kept, or what stands there. What is kept is given back where it can't be opened.
fn opened(
    alloc: Global,
    kept: Option<Kept<MemStore>>,
    word: &str,
    first: FirstNumber,
) -> Result<Kept<MemStore>, (Option<Kept<MemStore>>, OpenFault)>
    ensures found { IfOk result (λ records. IsTrue (state over_memory records).is_open
        × ((s : State) → MemoryKeeps kept s → Rests (state over_memory records) s)) }
    ensures given_back { IfErr result (λ e. (s : State) → MemoryKeeps kept s → MemoryKeeps e.0 s) }
{
    match kept {
        Some(records) => match opened_again(records) {
            Ok(records) => Ok(records),
            Err((records, fault)) => Err((Some(records), OpenFault::Store(fault))),
        },
        None => match found(alloc, word, first) {
            Ok(records) => Ok(records),
            Err(fault) => Err((None, fault)),
        },
    }
}

impl OpenStores for Stores<'_> {
    ghost use Rattle.std.specs.Prelude.{⊤};
    ghost use Rattle.as2_host.specs.Stores.{opens_by};
    ghost use Rattle.as2_script.specs.Stores.{MemoryKeeps, size_by};

    type Opened = Kept<MemStore>;

    type InMemory = Kept<MemStore>;

    ghost keeps = { λ it path number. MemoryKeeps it.kept };

    ghost fails = { λ it path fault. ⊤ };

    ghost keeps_earlier = { λ _ _ _. ⊥ };

    ghost stays = { λ it path fault. ⊤ };

    ghost takes = { λ it path size. size ≡ size_by it.word.now };

    ghost is_clean = { λ _. ⊤ };

    ghost opens = { λ it. opens_by it.has_opened };

    fn open(
        &mut self,
        alloc: Global,
        _path: &str,
        first: FirstNumber,
    ) -> Result<Kept<MemStore>, OpenFault> {
        if self.has_opened {
            return Err(OpenFault::Held);
        }
        match opened(alloc, self.kept.take(), self.word, first) {
            Ok(records) => {
                self.has_opened = true;
                Ok(records)
            }
            Err((kept, fault)) => {
                self.kept = kept;
                Err(fault)
            }
        }
    }

    fn size(&self, _path: &str) -> u64 {
        size_by(self.word)
    }

    fn open_in_memory(
        &self,
        alloc: Global,
        first: FirstNumber,
    ) -> Result<Kept<MemStore>, OpenFault> {
        made(alloc, first)
    }

    fn close(&mut self, _path: &str, records: Kept<MemStore>) {
        self.kept = Some(records);
    }

    fn migrate(&mut self, _path: &str) -> Result<Migration, OpenFault> {
        Err(unmigrated(self.kept.is_some(), self.word))
    }
}
