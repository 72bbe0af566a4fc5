//! The records of a station, lent to one command.
ghost use Rattle.std.specs.Prelude.{IfErr, IfOk, IsTrue, Ok};
ghost use Rattle.as2_lists.specs.Standing.{lists_standing};
ghost use Rattle.as2_host.specs.Stores.{BeginsNew};
ghost use Rattle.as2_lent.specs.Lent.{StandsOn};

use as2_commands::FirstNumber;
use as2_exchange::StoreFault;
use as2_host::{Migration, OpenFault, OpenStores};
use as2_lists::Lists;
use as2_records::Records;
use std::alloc::Global;

/// The records of a station: a command opens them, whatever path it names, and they are back once it has closed them.
#[derive(Drop)]
pub(crate) struct LentStore<R: Records + Drop> {
    /// They are there.
    pub records: Option<R>,
    /// How many bytes their files take.
    pub size: u64,
    /// A command has opened them.
    pub has_opened: bool,
}

/// The records, seen to be readable. Else they are given back.
fn seen_readable<R: Records + Drop>(mut records: R) -> Result<R, (R, StoreFault)>
    ensures is_open { IfOk result (λ seen. (R.shows seen).IsClean → IsTrue (R.shows seen).is_open) }
    ensures same { IfOk result (λ seen. StandsOn R.shows records seen) }
    ensures given_back { IfErr result (λ e. StandsOn R.shows records e.0) }
{
    match records.next_numbers() {
        Ok(_) => Ok(records),
        Err(fault) => Err((records, fault)),
    }
}

/// New records in memory, which begin with `first`.
fn new_in_memory(alloc: Global, first: FirstNumber) -> Lists
    ensures { BeginsNew lists_standing first (Ok result) }
{
    Lists::new(alloc, first.get())
}

impl<R: Records + Drop> OpenStores for LentStore<R> {
    ghost use Rattle.std.specs.Prelude.{◌≡◌, ⊤};
    ghost use Rattle.as2_host.specs.Stores.{opens_by};
    ghost use Rattle.as2_lent.specs.Lent.{LentKeeps, IsCleanLent};

    type Opened = R;

    type InMemory = Lists;

    ghost keeps = { λ it path number. LentKeeps R.Records.shows it.records };

    ghost fails = { λ it path fault. ⊤ };

    ghost keeps_earlier = { λ _ _ _. ⊥ };

    ghost stays = { λ it path fault. ⊤ };

    ghost takes = { λ it path size. size ≡ it.size };

    ghost is_clean = { λ it. IsCleanLent R.Records.shows it.records };

    ghost opens = { λ it. opens_by it.has_opened };

    fn open(&mut self, _alloc: Global, _path: &str, _first: FirstNumber) -> Result<R, OpenFault> {
        if self.has_opened {
            return Err(OpenFault::Held);
        }
        let Some(records) = self.records.take() else {
            return Err(OpenFault::Held);
        };
        match seen_readable(records) {
            Ok(records) => {
                self.has_opened = true;
                Ok(records)
            }
            Err((records, fault)) => {
                self.records = Some(records);
                Err(OpenFault::Store(fault))
            }
        }
    }

    fn size(&self, _path: &str) -> u64 {
        self.size
    }

    fn open_in_memory(&self, alloc: Global, first: FirstNumber) -> Result<Lists, OpenFault> {
        Ok(new_in_memory(alloc, first))
    }

    fn close(&mut self, _path: &str, records: R) {
        self.records = Some(records);
    }

    fn migrate(&mut self, _path: &str) -> Result<Migration, OpenFault> {
        Err(OpenFault::Store(StoreFault::OtherVersion))
    }
}
