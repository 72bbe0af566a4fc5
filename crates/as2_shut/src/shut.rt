//! Records that can't be reached.

use as2_exchange::{END_OF_NUMBERS, Evidence, InEntry, OutEntry, StoreFault};
use as2_mdn::{Detail, DetailClass};
use as2_records::{
    Counts, Discrepancy, InRow, NextNumbers, OutRow, Progress, ReceiptProgress, Records,
};
use as2_text::{AsName, Moment};
use std::alloc::Global;

/// Records that can't be reached. They stand for no state, and nothing is claimed of them.
#[derive(Clone, Copy, Debug)]
pub struct ShutRecords;

impl Records for ShutRecords {
    ghost use Rattle.std.proofs.Common.{sym, true≢false};
    ghost use Rattle.as2_shut.specs.Shut.{nothing, unreachable};

    ghost medium = { nothing };

    ghost shows = { λ _. unreachable };

    fn next_numbers(&mut self) -> Result<NextNumbers, StoreFault> {
        Err(StoreFault::Disk)
    }

    fn origin(&mut self) -> Result<u64, StoreFault> {
        Err(StoreFault::Disk)
    }

    fn add_in(&mut self, entry: &InEntry) -> Result<(), StoreFault> {
        if entry.number >= END_OF_NUMBERS {
            return Err(StoreFault::Full);
        }
        Err(StoreFault::Disk)
    }

    fn add_out(&mut self, entry: &OutEntry) -> Result<(), StoreFault> {
        if entry.number >= END_OF_NUMBERS {
            return Err(StoreFault::Full);
        }
        Err(StoreFault::Disk)
    }

    fn requeue_receipt(&mut self, _number: u64, _moment: Moment) -> Result<(), StoreFault> {
        Err(StoreFault::Disk)
    }

    fn set_receipt(&mut self, _number: u64, _progress: ReceiptProgress) -> Result<(), StoreFault> {
        Err(StoreFault::Disk)
    }

    fn expire(&mut self, _moment: Moment) -> Result<u64, StoreFault> {
        Err(StoreFault::Disk)
    }

    fn set_out(&mut self, _number: u64, _progress: Progress) -> Result<(), StoreFault> {
        Err(StoreFault::Disk)
    }

    fn resend(&mut self, _number: u64, _moment: Moment) -> Result<(), StoreFault> {
        Err(StoreFault::Disk)
    }

    fn settle(
        &mut self,
        _number: u64,
        _detail: Detail,
        _evidence: &Evidence,
    ) -> Result<(), StoreFault> {
        Err(StoreFault::Disk)
    }

    fn find_in(
        &mut self,
        _alloc: Global,
        _sender: &AsName,
        _receiver: &AsName,
        _id_value: &str,
    ) -> Result<Option<InEntry>, StoreFault> {
        Err(StoreFault::Disk)
    }

    fn find_in_number(
        &mut self,
        _alloc: Global,
        _number: u64,
    ) -> Result<Option<InEntry>, StoreFault> {
        Err(StoreFault::Disk)
    }

    fn find_out(&mut self, _alloc: Global, _number: u64) -> Result<Option<OutEntry>, StoreFault> {
        Err(StoreFault::Disk)
    }

    fn find_out_by_id(
        &mut self,
        _alloc: Global,
        _id_value: &[u8],
    ) -> Result<Option<OutEntry>, StoreFault> {
        Err(StoreFault::Disk)
    }

    fn due_out(
        &mut self,
        _moment: Moment,
        _behind: Option<u64>,
    ) -> Result<Option<u64>, StoreFault> {
        Err(StoreFault::Disk)
    }

    fn due_receipt(
        &mut self,
        _moment: Moment,
        _behind: Option<u64>,
    ) -> Result<Option<u64>, StoreFault> {
        Err(StoreFault::Disk)
    }

    fn list_out(
        &mut self,
        _alloc: Global,
        _wanted: Option<DetailClass>,
    ) -> Result<Vec<OutRow>, StoreFault> {
        Err(StoreFault::Disk)
    }

    fn list_in(&mut self, _alloc: Global) -> Result<Vec<InRow>, StoreFault> {
        Err(StoreFault::Disk)
    }

    fn settled(&mut self, _alloc: Global) -> Result<Vec<u64>, StoreFault> {
        Err(StoreFault::Disk)
    }

    fn counts(&mut self, _alloc: Global) -> Result<Counts, StoreFault> {
        Err(StoreFault::Disk)
    }

    fn discrepancy(&mut self, _alloc: Global) -> Result<Option<Discrepancy>, StoreFault> {
        Err(StoreFault::Disk)
    }

    ghost open_is_clean = { λ c is_open. absurd (true≢false (sym is_open)) };

    ghost stop_leaves = { λ lasting c is_open. absurd (true≢false (sym is_open)) };

    ghost rests_last = { λ c is_open s rests. absurd rests };
}
