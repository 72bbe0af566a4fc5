//! The records in SQLite, as a station takes them.
#![tactic(auto)]

mod opening;
mod round;
mod rounds;

ghost use Rattle.std.specs.Prelude.{◌≡◌};

use as2_exchange::{END_OF_NUMBERS, Evidence, InEntry, OutEntry, StoreFault};
use as2_mdn::{Detail, DetailClass};
use as2_records::{
    Counts, Discrepancy, InRow, NextNumbers, OutRow, Progress, ReceiptProgress, Records,
};
use as2_store::Store;
use as2_text::{AsName, Moment};
pub use opening::{adopt, create, in_memory};
pub use round::HeldRound;
use sqlite::{Alter, Connection};
use std::alloc::Global;
use std::marker::Model;

/// Records over a connection: each call commits what it writes. Where a transaction is open, which only a disk that has returned other
/// bytes leaves open, a call is a fault of the disk.
#[derive(Drop)]
pub struct Kept<S: Alter> {
    store: Store<S>,
}

impl<S: Alter> Model for Kept<S> {
    ghost use Rattle.sqlite.specs.Held.{Held, held_code};

    ghost Value = { Held S };

    ghost coded = { held_code S.code };

    ghost view = { λ s. s.store };
}

impl<S: Alter> Kept<S> {
    /// The records of this store.
    pub fn new(store: Store<S>) -> Kept<S>
        ensures { result ≡ store }
    {
        Kept { store }
    }

    /// Gives the records back as the connection that they are in.
    pub fn into_connection(self) -> Connection<S>
        ensures { result ≡ self }
    {
        self.into_store().into_connection()
    }

    /// Gives the store back.
    pub fn into_store(self) -> Store<S>
        ensures { result ≡ self }
    {
        let Kept { store } = self;
        store
    }
}

impl<S: Alter> Records for Kept<S> {
    ghost use Rattle.sqlite.specs.Held.{state};
    ghost use Rattle.as2_kept.specs.Instance.{clean_if_open, tables_last, tables_standing, tables};

    ghost medium = { tables };

    ghost shows = { λ c. tables_standing (state S.Store c) };

    fn next_numbers(&mut self) -> Result<NextNumbers, StoreFault> {
        if !self.store.is_alone() {
            return Err(StoreFault::Disk);
        }
        self.store.next_numbers()
    }

    fn origin(&mut self) -> Result<u64, StoreFault> {
        if !self.store.is_alone() {
            return Err(StoreFault::Disk);
        }
        self.store.origin()
    }

    fn add_in(&mut self, entry: &InEntry) -> Result<(), StoreFault> {
        if entry.number >= END_OF_NUMBERS {
            return Err(StoreFault::Full);
        }
        if !self.store.is_alone() {
            return Err(StoreFault::Disk);
        }
        self.store.add_in(entry)
    }

    fn add_out(&mut self, entry: &OutEntry) -> Result<(), StoreFault> {
        if entry.number >= END_OF_NUMBERS {
            return Err(StoreFault::Full);
        }
        if !self.store.is_alone() {
            return Err(StoreFault::Disk);
        }
        self.store.add_out(entry)
    }

    fn requeue_receipt(&mut self, number: u64, moment: Moment) -> Result<(), StoreFault> {
        if !self.store.is_alone() {
            return Err(StoreFault::Disk);
        }
        self.store.requeue_receipt(number, moment)
    }

    fn set_receipt(&mut self, number: u64, progress: ReceiptProgress) -> Result<(), StoreFault> {
        if !self.store.is_alone() {
            return Err(StoreFault::Disk);
        }
        self.store.set_receipt(number, progress)
    }

    fn expire(&mut self, moment: Moment) -> Result<u64, StoreFault> {
        if !self.store.is_alone() {
            return Err(StoreFault::Disk);
        }
        self.store.expire(moment)
    }

    fn set_out(&mut self, number: u64, progress: Progress) -> Result<(), StoreFault> {
        if !self.store.is_alone() {
            return Err(StoreFault::Disk);
        }
        self.store.set_out(number, progress)
    }

    fn resend(&mut self, number: u64, moment: Moment) -> Result<(), StoreFault> {
        if !self.store.is_alone() {
            return Err(StoreFault::Disk);
        }
        self.store.resend(number, moment)
    }

    fn settle(
        &mut self,
        number: u64,
        detail: Detail,
        evidence: &Evidence,
    ) -> Result<(), StoreFault> {
        if !self.store.is_alone() {
            return Err(StoreFault::Disk);
        }
        self.store.settle(number, detail, evidence)
    }

    fn find_in(
        &mut self,
        alloc: Global,
        sender: &AsName,
        receiver: &AsName,
        id_value: &str,
    ) -> Result<Option<InEntry>, StoreFault> {
        if !self.store.is_alone() {
            return Err(StoreFault::Disk);
        }
        self.store.find_in(alloc, sender, receiver, id_value)
    }

    fn find_in_number(
        &mut self,
        alloc: Global,
        number: u64,
    ) -> Result<Option<InEntry>, StoreFault> {
        if !self.store.is_alone() {
            return Err(StoreFault::Disk);
        }
        self.store.find_in_number(alloc, number)
    }

    fn find_out(&mut self, alloc: Global, number: u64) -> Result<Option<OutEntry>, StoreFault> {
        if !self.store.is_alone() {
            return Err(StoreFault::Disk);
        }
        self.store.find_out(alloc, number)
    }

    fn find_out_by_id(
        &mut self,
        alloc: Global,
        id_value: &[u8],
    ) -> Result<Option<OutEntry>, StoreFault> {
        if !self.store.is_alone() {
            return Err(StoreFault::Disk);
        }
        self.store.find_out_by_id(alloc, id_value)
    }

    fn due_out(&mut self, moment: Moment, behind: Option<u64>) -> Result<Option<u64>, StoreFault> {
        if !self.store.is_alone() {
            return Err(StoreFault::Disk);
        }
        self.store.due_out(moment, behind)
    }

    fn due_receipt(
        &mut self,
        moment: Moment,
        behind: Option<u64>,
    ) -> Result<Option<u64>, StoreFault> {
        if !self.store.is_alone() {
            return Err(StoreFault::Disk);
        }
        self.store.due_receipt(moment, behind)
    }

    fn list_out(
        &mut self,
        alloc: Global,
        wanted: Option<DetailClass>,
    ) -> Result<Vec<OutRow>, StoreFault> {
        if !self.store.is_alone() {
            return Err(StoreFault::Disk);
        }
        self.store.list_out(alloc, wanted)
    }

    fn list_in(&mut self, alloc: Global) -> Result<Vec<InRow>, StoreFault> {
        if !self.store.is_alone() {
            return Err(StoreFault::Disk);
        }
        self.store.list_in(alloc)
    }

    fn settled(&mut self, alloc: Global) -> Result<Vec<u64>, StoreFault> {
        if !self.store.is_alone() {
            return Err(StoreFault::Disk);
        }
        self.store.settled(alloc)
    }

    fn counts(&mut self, alloc: Global) -> Result<Counts, StoreFault> {
        if !self.store.is_alone() {
            return Err(StoreFault::Disk);
        }
        self.store.counts(alloc)
    }

    fn discrepancy(&mut self, alloc: Global) -> Result<Option<Discrepancy>, StoreFault> {
        if !self.store.is_alone() {
            return Err(StoreFault::Disk);
        }
        self.store.discrepancy(alloc)
    }

    ghost open_is_clean = { λ c opened. clean_if_open _ _ (λ dirty. S.Store.shut_if_dirty c.store dirty) opened };

    ghost stop_leaves = { λ lasting c opened. (_, S.Store.stays c.store opened) };

    ghost rests_last = { λ c opened s rests. tables_last _ (λ db opened may. S.Store.settled c.store db opened may) opened s rests };
}
