//! Records in lists, in memory.

ghost use Rattle.std.specs.Prelude.{◌≡◌, ◌≤◌, ◌<◌};
ghost use Rattle.as2_exchange.specs.State.{LaterVersion, empty, end_of_numbers};
ghost use Rattle.as2_lists.specs.Standing.{StandsFor};

use crate::copies::{copy_evidence, copy_found_document, copy_found_entry};
use crate::{inbox, outbox};
use as2_exchange::{
    Attempt, END_OF_NUMBERS, Evidence, InEntry, OutEntry, ReceiptStage, StoreFault, is_by_receipt,
};
use as2_mdn::{Detail, DetailClass};
use as2_records::{
    Counts, Discrepancy, InRow, NextNumbers, OutRow, Progress, ReceiptProgress, Records,
};
use as2_text::{AsName, Moment};
use std::alloc::Global;
use std::marker::Model;

/// Records in memory: a list of each box, in order of number. Contracts see them as the state that they stand for. As a store
/// does, they refuse a second entry of one key, and a second document of one identifier.
#[derive(Drop)]
pub struct Lists {
    alloc: Global,
    inbox: Vec<InEntry>,
    outbox: Vec<OutEntry>,
    origin: u64,
    next_in: u64,
    next_out: u64,
}

impl Model for Lists {
    ghost use Rattle.as2_exchange.specs.State.{LaterVersion, State};

    ghost Value = { State };

    ghost view = { λ l. record { version = LaterVersion l.origin; inbox = l.inbox.items; outbox = l.outbox.items; next_in = l.next_in; next_out = l.next_out } };
}

impl Lists {
    /// Lists without entries; their first numbers are `first`.
    pub fn new(alloc: Global, first: u64) -> Lists
        requires least { 1 ≤ first }
        requires most { first < end_of_numbers }
        ensures empty { result ≡ empty (LaterVersion 0) first }
        ensures stands { StandsFor result (empty (LaterVersion 0) first) }
    {
        Lists {
            alloc,
            inbox: Vec::new(alloc),
            outbox: Vec::new(alloc),
            origin: 0,
            next_in: first,
            next_out: first,
        }
    }
}

impl Records for Lists {
    ghost use Rattle.std.proofs.Common.{sym, true≢false};
    ghost use Rattle.as2_lists.specs.Standing.{memory, lists_standing};

    ghost medium = { memory };

    ghost shows = { lists_standing };

    fn next_numbers(&mut self) -> Result<NextNumbers, StoreFault> {
        Ok(NextNumbers {
            receipt: self.next_in,
            document: self.next_out,
        })
    }

    fn origin(&mut self) -> Result<u64, StoreFault> {
        Ok(self.origin)
    }

    fn add_in(&mut self, entry: &InEntry) -> Result<(), StoreFault> {
        if entry.number >= END_OF_NUMBERS {
            return Err(StoreFault::Full);
        }
        if entry.number != self.next_in || inbox::has_key_of(&self.inbox, &entry.posted) {
            return Err(StoreFault::Refused);
        }
        inbox::add(self.alloc, &mut self.inbox, entry)?;
        self.next_in += 1;
        Ok(())
    }

    fn add_out(&mut self, entry: &OutEntry) -> Result<(), StoreFault> {
        if entry.number >= END_OF_NUMBERS {
            return Err(StoreFault::Full);
        }
        if entry.number != self.next_out || outbox::has_id_of(&self.outbox, entry) {
            return Err(StoreFault::Refused);
        }
        outbox::add(self.alloc, &mut self.outbox, entry)?;
        self.next_out += 1;
        Ok(())
    }

    fn requeue_receipt(&mut self, number: u64, moment: Moment) -> Result<(), StoreFault> {
        let anew = ReceiptProgress {
            receipt_stage: ReceiptStage::Pending,
            tries: 0,
            attempt: Attempt::Idle,
            due: Some(moment.seconds()),
        };
        inbox::set_numbered(&mut self.inbox, number, anew);
        Ok(())
    }

    fn set_receipt(&mut self, number: u64, progress: ReceiptProgress) -> Result<(), StoreFault> {
        inbox::set_numbered(&mut self.inbox, number, progress);
        Ok(())
    }

    fn expire(&mut self, moment: Moment) -> Result<u64, StoreFault> {
        Ok(outbox::expire(&mut self.outbox, moment))
    }

    fn set_out(&mut self, number: u64, progress: Progress) -> Result<(), StoreFault> {
        if !outbox::has_document(&self.outbox, number) {
            return Err(StoreFault::Refused);
        }
        outbox::set_numbered(&mut self.outbox, number, progress);
        Ok(())
    }

    fn resend(&mut self, number: u64, moment: Moment) -> Result<(), StoreFault> {
        if !outbox::has_document(&self.outbox, number) {
            return Err(StoreFault::Refused);
        }
        outbox::queue_numbered(&mut self.outbox, number, moment);
        Ok(())
    }

    fn settle(
        &mut self,
        number: u64,
        detail: Detail,
        evidence: &Evidence,
    ) -> Result<(), StoreFault> {
        if !is_by_receipt(detail) || !outbox::is_unsettled(&self.outbox, number) {
            return Err(StoreFault::Refused);
        }
        let evidence = copy_evidence(self.alloc, evidence)?;
        outbox::settle_numbered(&mut self.outbox, number, detail, evidence);
        Ok(())
    }

    fn find_in(
        &mut self,
        alloc: Global,
        sender: &AsName,
        receiver: &AsName,
        id_value: &str,
    ) -> Result<Option<InEntry>, StoreFault> {
        let found = inbox::entry_posted(&self.inbox, sender, receiver, id_value);
        Ok(copy_found_entry(alloc, found)?)
    }

    fn find_in_number(
        &mut self,
        alloc: Global,
        number: u64,
    ) -> Result<Option<InEntry>, StoreFault> {
        let found = inbox::entry_of(&self.inbox, number);
        Ok(copy_found_entry(alloc, found)?)
    }

    fn find_out(&mut self, alloc: Global, number: u64) -> Result<Option<OutEntry>, StoreFault> {
        let found = outbox::document_of(&self.outbox, number);
        Ok(copy_found_document(alloc, found)?)
    }

    fn find_out_by_id(
        &mut self,
        alloc: Global,
        id_value: &[u8],
    ) -> Result<Option<OutEntry>, StoreFault> {
        let found = outbox::document_named(&self.outbox, id_value);
        Ok(copy_found_document(alloc, found)?)
    }

    fn due_out(&mut self, moment: Moment, behind: Option<u64>) -> Result<Option<u64>, StoreFault> {
        Ok(outbox::first_due(&self.outbox, moment, behind))
    }

    fn due_receipt(
        &mut self,
        moment: Moment,
        behind: Option<u64>,
    ) -> Result<Option<u64>, StoreFault> {
        Ok(inbox::first_due(&self.inbox, moment, behind))
    }

    fn list_out(
        &mut self,
        alloc: Global,
        wanted: Option<DetailClass>,
    ) -> Result<Vec<OutRow>, StoreFault> {
        Ok(outbox::rows(alloc, &self.outbox, wanted)?)
    }

    fn list_in(&mut self, alloc: Global) -> Result<Vec<InRow>, StoreFault> {
        Ok(inbox::rows(alloc, &self.inbox)?)
    }

    fn settled(&mut self, alloc: Global) -> Result<Vec<u64>, StoreFault> {
        Ok(outbox::settled_numbers(alloc, &self.outbox)?)
    }

    fn counts(&mut self, _alloc: Global) -> Result<Counts, StoreFault> {
        Ok(Counts {
            not_sent: outbox::not_sent(&self.outbox),
            in_retry: outbox::in_state(&self.outbox, DetailClass::R),
            awaited: outbox::awaited(&self.outbox),
            in_error: outbox::in_state(&self.outbox, DetailClass::E),
            to_send: inbox::pending(&self.inbox),
        })
    }

    // Nothing is kept beside the entries but the counters, which are above all numbers.
    fn discrepancy(&mut self, _alloc: Global) -> Result<Option<Discrepancy>, StoreFault> {
        Ok(None)
    }

    ghost open_is_clean = { λ c opened. tt };

    ghost stop_leaves = { λ lasting. absurd (true≢false (sym lasting)) };

    ghost rests_last = { λ c opened s rests. record { each = λ left may. absurd may } };
}
