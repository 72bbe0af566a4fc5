//! The records in SQLite within a round.
ghost use Rattle.std.specs.Prelude.{◌≡◌, IsTrue};
ghost use Rattle.sqlite.specs.Held.{state};

use as2_exchange::{END_OF_NUMBERS, Evidence, InEntry, OutEntry, StoreFault};
use as2_mdn::{Detail, DetailClass};
use as2_records::{
    Counts, Discrepancy, InRow, NextNumbers, OutRow, Progress, ReceiptProgress, Records,
};
use as2_store::Store;
use as2_text::{AsName, Moment};
use sqlite::Alter;
use std::alloc::Global;

/// Records within a round: what a call writes is kept in a transaction, and isn't committed. A round whose transaction has ended, or that
/// couldn't be committed, is lost: each call is a fault of the disk.
#[derive(Drop)]
pub struct HeldRound<S: Alter> {
    pub(crate) store: Store<S>,
    /// How often it couldn't be committed.
    pub(crate) failures: u64,
}

impl<S: Alter> HeldRound<S> {
    /// The store that it is in.
    pub fn into_store(self) -> Store<S>
        ensures { result ≡ self.store }
    {
        let HeldRound { store, .. } = self;
        store
    }

    /// It isn't lost.
    fn is_held(&self) -> bool
        ensures { IsTrue result → (self.now.failures ≡ 0) × IsTrue (state S.Store self.now.store).in_transaction }
    {
        self.failures == 0 && !self.store.is_alone()
    }
}

impl<S: Alter> Records for HeldRound<S> {
    ghost use Rattle.sqlite.specs.Held.{state};
    ghost use Rattle.as2_kept.specs.Instance.{tables};
    ghost use Rattle.as2_kept.specs.Round.{clean_if_held, round_lasts, round_leaves, seen, standing_in_round};

    ghost medium = { tables };

    ghost shows = { λ r. standing_in_round r.failures (state S.Store r.store) };

    fn next_numbers(&mut self) -> Result<NextNumbers, StoreFault> {
        if !self.is_held() {
            return Err(StoreFault::Disk);
        }
        self.store.next_numbers()
    }

    fn origin(&mut self) -> Result<u64, StoreFault> {
        if !self.is_held() {
            return Err(StoreFault::Disk);
        }
        self.store.origin()
    }

    fn add_in(&mut self, entry: &InEntry) -> Result<(), StoreFault> {
        if entry.number >= END_OF_NUMBERS {
            return Err(StoreFault::Full);
        }
        if !self.is_held() {
            return Err(StoreFault::Disk);
        }
        self.store.add_in(entry)
    }

    fn add_out(&mut self, entry: &OutEntry) -> Result<(), StoreFault> {
        if entry.number >= END_OF_NUMBERS {
            return Err(StoreFault::Full);
        }
        if !self.is_held() {
            return Err(StoreFault::Disk);
        }
        self.store.add_out(entry)
    }

    fn requeue_receipt(&mut self, number: u64, moment: Moment) -> Result<(), StoreFault> {
        if !self.is_held() {
            return Err(StoreFault::Disk);
        }
        self.store.requeue_receipt(number, moment)
    }

    fn set_receipt(&mut self, number: u64, progress: ReceiptProgress) -> Result<(), StoreFault> {
        if !self.is_held() {
            return Err(StoreFault::Disk);
        }
        self.store.set_receipt(number, progress)
    }

    fn expire(&mut self, moment: Moment) -> Result<u64, StoreFault> {
        if !self.is_held() {
            return Err(StoreFault::Disk);
        }
        self.store.expire(moment)
    }

    fn set_out(&mut self, number: u64, progress: Progress) -> Result<(), StoreFault> {
        if !self.is_held() {
            return Err(StoreFault::Disk);
        }
        self.store.set_out(number, progress)
    }

    fn resend(&mut self, number: u64, moment: Moment) -> Result<(), StoreFault> {
        if !self.is_held() {
            return Err(StoreFault::Disk);
        }
        self.store.resend(number, moment)
    }

    fn settle(
        &mut self,
        number: u64,
        detail: Detail,
        evidence: &Evidence,
    ) -> Result<(), StoreFault> {
        if !self.is_held() {
            return Err(StoreFault::Disk);
        }
        self.store.settle(number, detail, evidence)
    }

    fn find_in(
        &mut self,
        alloc: Global,
        sender: &AsName,
        receiver: &AsName,
        id_value: &str,
    ) -> Result<Option<InEntry>, StoreFault> {
        if !self.is_held() {
            return Err(StoreFault::Disk);
        }
        self.store.find_in(alloc, sender, receiver, id_value)
    }

    fn find_in_number(
        &mut self,
        alloc: Global,
        number: u64,
    ) -> Result<Option<InEntry>, StoreFault> {
        if !self.is_held() {
            return Err(StoreFault::Disk);
        }
        self.store.find_in_number(alloc, number)
    }

    fn find_out(&mut self, alloc: Global, number: u64) -> Result<Option<OutEntry>, StoreFault> {
        if !self.is_held() {
            return Err(StoreFault::Disk);
        }
        self.store.find_out(alloc, number)
    }

    fn find_out_by_id(
        &mut self,
        alloc: Global,
        id_value: &[u8],
    ) -> Result<Option<OutEntry>, StoreFault> {
        if !self.is_held() {
            return Err(StoreFault::Disk);
        }
        self.store.find_out_by_id(alloc, id_value)
    }

    fn due_out(&mut self, moment: Moment, behind: Option<u64>) -> Result<Option<u64>, StoreFault> {
        if !self.is_held() {
            return Err(StoreFault::Disk);
        }
        self.store.due_out(moment, behind)
    }

    fn due_receipt(
        &mut self,
        moment: Moment,
        behind: Option<u64>,
    ) -> Result<Option<u64>, StoreFault> {
        if !self.is_held() {
            return Err(StoreFault::Disk);
        }
        self.store.due_receipt(moment, behind)
    }

    fn list_out(
        &mut self,
        alloc: Global,
        wanted: Option<DetailClass>,
    ) -> Result<Vec<OutRow>, StoreFault> {
        if !self.is_held() {
            return Err(StoreFault::Disk);
        }
        self.store.list_out(alloc, wanted)
    }

    fn list_in(&mut self, alloc: Global) -> Result<Vec<InRow>, StoreFault> {
        if !self.is_held() {
            return Err(StoreFault::Disk);
        }
        self.store.list_in(alloc)
    }

    fn settled(&mut self, alloc: Global) -> Result<Vec<u64>, StoreFault> {
        if !self.is_held() {
            return Err(StoreFault::Disk);
        }
        self.store.settled(alloc)
    }

    fn counts(&mut self, alloc: Global) -> Result<Counts, StoreFault> {
        if !self.is_held() {
            return Err(StoreFault::Disk);
        }
        self.store.counts(alloc)
    }

    fn discrepancy(&mut self, alloc: Global) -> Result<Option<Discrepancy>, StoreFault> {
        if !self.is_held() {
            return Err(StoreFault::Disk);
        }
        self.store.discrepancy(alloc)
    }

    ghost open_is_clean = { λ r opened. clean_if_held r.failures _ (λ dirty. S.Store.shut_if_dirty r.store.store dirty) opened };

    ghost stop_leaves = { λ lasting r opened. round_leaves r.failures _ opened };

    ghost rests_last = { λ r opened s rests. round_lasts r.failures _ opened s rests };
}
