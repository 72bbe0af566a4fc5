//! The store of a path, in its files.
ghost use Rattle.std.specs.Prelude.{IfErr, IfOk, IsTrue};
ghost use Rattle.sqlite.specs.Held.{state};
ghost use Rattle.sqlite.specs.Steps.{over_memory};
ghost use Rattle.as2_host.specs.Stores.{MayCome};
ghost use Rattle.as2_store.specs.Calls.{empty_store};
ghost use Rattle.as2_store.specs.Stands.{Rests};
ghost use Rattle.as2_files.specs.Stores.{IsCleanEnd, FilesKeep, leaves_by};

use crate::file_system::FileSystem;
use crate::keeping::{End, KeepFiles};
use crate::migrating::Moved;
use crate::places::Place;
use as2_commands::FirstNumber;
use as2_host::{Migration, OpenFault, OpenRounds, OpenStores};
use as2_kept::{Kept, in_memory};
use as2_records::Rounds;
use sqlite::MemStore;
use std::alloc::Global;
use std::marker::PhantomData;

/// The files of one store, which are opened once.
#[derive(Drop)]
pub struct StoreFiles<'a, R: Rounds + Drop, K: KeepFiles<R> + Drop> {
    files: FileSystem<'a>,
    keeper: Option<K>,
    has_opened: bool,
    place: Option<Place>,
    end: Option<End<K::Disk>>,
    records: PhantomData<R>,
}

/// New records in memory, which begin with `first`.
fn new_in_memory(alloc: Global, first: FirstNumber) -> Result<Kept<MemStore>, OpenFault>
    ensures is_open { IfOk result (λ records. IsTrue (state over_memory records).is_open) }
    ensures fresh { IfOk result (λ records. Rests (state over_memory records) (empty_store first)) }
    ensures fault { IfErr result MayCome }
{
    match in_memory(alloc, first.get()) {
        Ok(records) => Ok(records),
        Err(fault) => Err(OpenFault::Store(fault)),
    }
}

impl<'a, R: Rounds + Drop, K: KeepFiles<R> + Drop> StoreFiles<'a, R, K> {
    /// They weren't opened yet.
    pub fn new(files: FileSystem<'a>, keeper: K) -> StoreFiles<'a, R, K> {
        StoreFiles {
            files,
            keeper: Some(keeper),
            has_opened: false,
            place: None,
            end: None,
            records: PhantomData,
        }
    }
}

impl<R: Rounds + Drop, K: KeepFiles<R> + Drop> OpenStores for StoreFiles<'_, R, K> {
    ghost use Rattle.std.specs.Prelude.{⊤};
    ghost use Rattle.as2_files.specs.Earlier.{KeepsEarlier};
    ghost use Rattle.as2_files.specs.Names.{file_name};
    ghost use Rattle.as2_host.specs.Stores.{opens_by};

    type Opened = R;

    type InMemory = Kept<MemStore>;

    ghost keeps = { λ it path number s. FilesKeep K.Disk.Disk (leaves_by R.shows K.left_of R.Round.shows K.lost_of) (K.image (file_name path)) it.end s };

    ghost fails = { λ it path fault. ⊤ };

    ghost keeps_earlier = { λ it path s. KeepsEarlier (K.image (file_name path)) it.end s };

    ghost stays = { λ it path fault. ⊤ };

    ghost takes = { λ it path size. ⊤ };

    ghost is_clean = { λ it. IsCleanEnd K.Disk.Disk it.end };

    ghost opens = { λ it. opens_by it.has_opened };

    fn open(&mut self, alloc: Global, path: &str, first: FirstNumber) -> Result<R, OpenFault> {
        if self.has_opened {
            return Err(OpenFault::Held);
        }
        let None = self.end else {
            return Err(OpenFault::Held);
        };
        let place = self.files.make_sure(alloc, path, first)?;
        let Some(keeper) = self.keeper.take() else {
            return Err(OpenFault::Held);
        };
        let records = match keeper.open_records(self.files.rt, place.name(), place.had_log()) {
            Ok(records) => records,
            Err(fault) => return Err(self.files.opening_failed(&place, fault)),
        };
        self.place = Some(place);
        self.has_opened = true;
        Ok(records)
    }

    fn size(&self, path: &str) -> u64 {
        self.files.size_of(path)
    }

    fn open_in_memory(
        &self,
        alloc: Global,
        first: FirstNumber,
    ) -> Result<Kept<MemStore>, OpenFault> {
        new_in_memory(alloc, first)
    }

    fn close(&mut self, _path: &str, records: R) {
        let end = K::close_records(records);
        if let (Some(place), End::Closed(files)) = (&self.place, &end) {
            self.files.remove_log(place, files);
        }
        self.end = Some(end);
    }

    fn migrate(&mut self, path: &str) -> Result<Migration, OpenFault> {
        if self.has_opened {
            return Err(OpenFault::Held);
        }
        let None = self.end else {
            return Err(OpenFault::Held);
        };
        let place = self.files.find(path)?;
        let Some(keeper) = self.keeper.take() else {
            return Err(OpenFault::Held);
        };
        let Moved { end, migration } = match keeper.migrate_records(self.files.rt, place.name()) {
            Ok(moved) => moved,
            Err(fault) => return Err(self.files.opening_failed(&place, fault)),
        };
        if let End::Closed(files) = &end {
            self.files.remove_log(&place, files);
        }
        self.end = Some(end);
        Ok(migration)
    }
}

impl<R: Rounds + Drop, K: KeepFiles<R> + Drop> OpenRounds for StoreFiles<'_, R, K> {
    ghost use Rattle.as2_records.specs.Rounds.{PassesOn};

    type Holding = R;

    fn holding(records: R) -> R
        ensures { PassesOn (R.shows records) (R.shows result) }
    {
        records
    }

    fn close_holding(&mut self, path: &str, records: R) {
        self.close(path, records);
    }

    fn let_go(&mut self, _path: &str, round: R::Round) {
        self.end = Some(K::let_go(round));
    }
}
