//! What a station asks of its records.

ghost use Rattle.std.specs.Prelude.{◌≡◌, ◌⊎◌, ◌≤◌, map, None, true, false, Err, IfOk, IfErr, IsTrue};
ghost use Rattle.as2_exchange.specs.State.{State as MachineState, document, document_named, end_of_numbers, origin_of, received_entry};
ghost use Rattle.as2_exchange.specs.Invariants.{is_by_receipt};
ghost use Rattle.as2_exchange.specs.Due.{due_documents, due_receipts, least};
ghost use Rattle.as2_exchange.specs.declared.fault.StoreFault.TheVariants.{Full};
ghost use Rattle.as2_records.specs.Summaries.{in_summary};
ghost use Rattle.as2_records.specs.Counting.{counts_of};
ghost use Rattle.as2_records.specs.Adding.{state_with, added_document};
ghost use Rattle.as2_records.specs.Calls.{Lasts, Reads, Writes};
ghost use Rattle.as2_records.specs.Due.{numbers_behind};
ghost use Rattle.as2_records.specs.Expiring.{TicksAs, ticked_in};
ghost use Rattle.as2_records.specs.Finding.{AreNext, IsPostedAs};
ghost use Rattle.as2_records.specs.Listing.{listed_rows, settled_numbers};
ghost use Rattle.as2_records.specs.Owing.{set_receipt_in};
ghost use Rattle.as2_records.specs.Progressing.{set_out_in};
ghost use Rattle.as2_records.specs.Requeuing.{requeued_in};
ghost use Rattle.as2_records.specs.Resending.{resent_in};
ghost use Rattle.as2_records.specs.Settling.{settled_in};
ghost use Rattle.as2_records.specs.Standing.{Medium, Standing, may_come};

use crate::counts::Counts;
use crate::discrepancy::Discrepancy;
use crate::numbers::NextNumbers;
use crate::progress::{Progress, ReceiptProgress};
use crate::summaries::{InRow, OutRow};
use as2_exchange::{Evidence, InEntry, OutEntry, StoreFault};
use as2_mdn::{Detail, DetailClass};
use as2_text::{AsName, Moment};
use std::alloc::Global;

/// The records of a station.
pub trait Records {
    // What they lie on.
    ghost medium: { Medium };

    // What they show.
    ghost shows: { Self → Standing medium };

    /// The numbers that the next entries get.
    fn next_numbers(&mut self) -> Result<NextNumbers, StoreFault>
        ensures numbers { Reads (λ s next. AreNext next s) (shows self.old) (shows self.new) result }
        ensures fault { IfErr result (λ f. may_come f ≡ true) };

    /// The number below which receipts were recorded before a migration, 0 where there was none. Answers Memory, Disk, Refused or Damaged.
    fn origin(&mut self) -> Result<u64, StoreFault>
        ensures origin { Reads (λ s number. number ≡ origin_of s.version) (shows self.old) (shows self.new) result }
        ensures fault { IfErr result (λ f. may_come f ≡ true) };

    /// Adds an entry to the inbox under the next number of a receipt, as `next_numbers` gives it. Answers Full exactly where the
    /// number is past 999,999,999,999, and then touches nothing; Refused where it isn't the next; Memory, Disk or Refused. A fault leaves the state.
    fn add_in(&mut self, entry: &InEntry) -> Result<(), StoreFault>
        ensures added { Writes (state_with entry.now) (shows self.old) (shows self.new) result }
        ensures full { IfErr result (λ f. f ≡ Full → end_of_numbers ≤ entry.now.number) }
        ensures full_alone { end_of_numbers ≤ entry.now.number → result ≡ Err Full }
        ensures full_same { end_of_numbers ≤ entry.now.number → self.new ≡ self.old }
        ensures fault { IfErr result (λ f. (f ≡ Full) ⊎ (may_come f ≡ true)) };

    /// Adds a document that no receipt has settled to the outbox under the next number of a document, as `next_numbers` gives it. Answers
    /// Full exactly where the number is past 999,999,999,999, and then touches nothing. Answers Refused where it isn't the next, and where
    /// another document has an identifier of its value. So too where what is kept can't say that it is begun (a document that is begun and
    /// not tried, or tried and not begun). Answers also Memory, Disk or Refused. A fault leaves the state.
    fn add_out(&mut self, entry: &OutEntry) -> Result<(), StoreFault>
        requires unsettled { entry.now.evidence ≡ None }
        ensures added { Writes (added_document entry.now) (shows self.old) (shows self.new) result }
        ensures full { IfErr result (λ f. f ≡ Full → end_of_numbers ≤ entry.now.number) }
        ensures full_alone { end_of_numbers ≤ entry.now.number → result ≡ Err Full }
        ensures full_same { end_of_numbers ≤ entry.now.number → self.new ≡ self.old }
        ensures fault { IfErr result (λ f. (f ≡ Full) ⊎ (may_come f ≡ true)) };

    /// Sets the receipt of the entry of the inbox of this number, if there is one, to be sent from this moment on, with all
    /// tries left. Answers Memory, Disk or Refused, and then the state stays.
    fn requeue_receipt(&mut self, number: u64, moment: Moment) -> Result<(), StoreFault>
        ensures requeued { Writes (requeued_in number moment) (shows self.old) (shows self.new) result }
        ensures fault { IfErr result (λ f. may_come f ≡ true) };

    /// Sets how far the receipt of the entry of the inbox of this number, if there is one, has come. Answers Memory, Disk or
    /// Refused, and then the state stays.
    fn set_receipt(&mut self, number: u64, progress: ReceiptProgress) -> Result<(), StoreFault>
        ensures set { Writes (set_receipt_in number progress) (shows self.old) (shows self.new) result }
        ensures fault { IfErr result (λ f. may_come f ≡ true) };

    /// Time passes: each document whose receipt is overdue at this moment passes into `Overdue`, and each whose last try is into
    /// `TriesUsed`. Answers how many there are; Memory, Disk, Refused or Damaged, and then the state stays.
    fn expire(&mut self, moment: Moment) -> Result<u64, StoreFault>
        ensures passed { Writes (ticked_in moment) (shows self.old) (shows self.new) result }
        ensures counted { (shows self.new).IsClean → IfOk result (TicksAs moment (shows self.old)) }
        ensures fault { IfErr result (λ f. may_come f ≡ true) };

    /// Sets how far the document of this number has come, by a detail that no receipt gives. Answers Refused where no document
    /// has the number; Memory, Disk or Refused; and then the state stays.
    fn set_out(&mut self, number: u64, progress: Progress) -> Result<(), StoreFault>
        requires no_receipt { is_by_receipt progress.detail ≡ false }
        ensures set { Writes (set_out_in number progress) (shows self.old) (shows self.new) result }
        ensures fault { IfErr result (λ f. may_come f ≡ true) };

    /// Queues the document of this number to be sent anew from this moment on, with all tries left. The caller sees to it that no receipt
    /// has settled it: its evidence would stay by a new one. Answers Refused where no document has the number; Memory, Disk or Refused; and then the state stays.
    fn resend(&mut self, number: u64, moment: Moment) -> Result<(), StoreFault>
        ensures resent { Writes (resent_in number moment) (shows self.old) (shows self.new) result }
        ensures fault { IfErr result (λ f. may_come f ≡ true) };

    /// Settles the document of this number by a receipt: it gets this detail and this evidence, no try of it is open, and
    /// nothing of it waits any more. Answers Refused where no document has the number, where a receipt has settled it, and where
    /// no receipt gives the detail; Memory, Disk or Refused; and then the state stays.
    fn settle(&mut self, number: u64, detail: Detail, evidence: &Evidence) -> Result<(), StoreFault>
        ensures settled { Writes (settled_in number detail evidence.now) (shows self.old) (shows self.new) result }
        ensures fault { IfErr result (λ f. may_come f ≡ true) };

    /// The entry of the inbox that this sender posted to this receiver under an identifier of this value, if there is one.
    fn find_in(
        &mut self,
        alloc: Global,
        sender: &AsName,
        receiver: &AsName,
        id_value: &str,
    ) -> Result<Option<InEntry>, StoreFault>
        ensures found { Reads (IsPostedAs sender.now receiver.now id_value.now) (shows self.old) (shows self.new)
            result }
        ensures fault { IfErr result (λ f. may_come f ≡ true) };

    /// The entry of the inbox of this number, if there is one.
    fn find_in_number(&mut self, alloc: Global, number: u64) -> Result<Option<InEntry>, StoreFault>
        ensures found { Reads (λ s found. found ≡ received_entry s number) (shows self.old) (shows self.new) result }
        ensures fault { IfErr result (λ f. may_come f ≡ true) };

    /// The document of this number, if there is one, with its content and its evidence. Answers Memory, Disk, Refused or Damaged.
    fn find_out(&mut self, alloc: Global, number: u64) -> Result<Option<OutEntry>, StoreFault>
        ensures found { Reads (λ s found. found ≡ document s number) (shows self.old) (shows self.new) result }
        ensures fault { IfErr result (λ f. may_come f ≡ true) };

    /// The document of the outbox with an identifier of this value, if there is one, with its content and its evidence.
    /// Answers Memory, Disk, Refused or Damaged.
    fn find_out_by_id(
        &mut self,
        alloc: Global,
        id_value: &[u8],
    ) -> Result<Option<OutEntry>, StoreFault>
        ensures found { Reads (λ s found. found
            ≡ document_named s id_value.now) (shows self.old) (shows self.new) result }
        ensures fault { IfErr result (λ f. may_come f ≡ true) };

    /// The least number of the documents of which a try may begin at this moment, behind that number where one is given; None where there
    /// is none. Answers Memory, Disk, Refused or Damaged.
    fn due_out(&mut self, moment: Moment, behind: Option<u64>) -> Result<Option<u64>, StoreFault>
        ensures due { Reads (λ s number. number
            ≡ least (numbers_behind behind (due_documents s moment))) (shows self.old) (shows self.new) result }
        ensures fault { IfErr result (λ f. may_come f ≡ true) };

    /// The least number of the receipts of which a try may begin at this moment, behind that number where one is given; None where there is
    /// none. Answers Memory, Disk, Refused or Damaged.
    fn due_receipt(
        &mut self,
        moment: Moment,
        behind: Option<u64>,
    ) -> Result<Option<u64>, StoreFault>
        ensures due { Reads (λ s number. number
            ≡ least (numbers_behind behind (due_receipts s moment))) (shows self.old) (shows self.new) result }
        ensures fault { IfErr result (λ f. may_come f ≡ true) };

    /// The documents of that state, or all, in order of number, each with the length of its content in place of the content,
    /// and without its evidence. Answers Memory, Disk, Refused or Damaged.
    fn list_out(
        &mut self,
        alloc: Global,
        wanted: Option<DetailClass>,
    ) -> Result<Vec<OutRow>, StoreFault>
        ensures documents { Reads (λ s documents. documents.items
            ≡ listed_rows wanted s) (shows self.old) (shows self.new) result }
        ensures fault { IfErr result (λ f. may_come f ≡ true) };

    /// The entries of the inbox in order of number, each with the length of its content in place of the content. Answers
    /// Memory, Disk, Refused or Damaged.
    fn list_in(&mut self, alloc: Global) -> Result<Vec<InRow>, StoreFault>
        ensures entries { Reads (λ s entries. entries.items
            ≡ map in_summary s.inbox) (shows self.old) (shows self.new) result }
        ensures fault { IfErr result (λ f. may_come f ≡ true) };

    /// The numbers of the documents that a receipt has settled, in order. Answers Memory, Disk, Refused or Damaged.
    fn settled(&mut self, alloc: Global) -> Result<Vec<u64>, StoreFault>
        ensures numbers { Reads (λ s numbers. numbers.items
            ≡ settled_numbers s) (shows self.old) (shows self.new) result }
        ensures fault { IfErr result (λ f. may_come f ≡ true) };

    /// How much is outstanding. Answers Memory, Disk, Refused or Damaged.
    fn counts(&mut self, alloc: Global) -> Result<Counts, StoreFault>
        ensures counts { Reads (λ s counts. counts ≡ counts_of s) (shows self.old) (shows self.new) result }
        ensures fault { IfErr result (λ f. may_come f ≡ true) };

    /// The first discrepancy between the entries and what is kept beside them, the counters and what waits. Records that stand for a state
    /// have none. Answers Memory, Disk, Refused or Damaged.
    fn discrepancy(&mut self, alloc: Global) -> Result<Option<Discrepancy>, StoreFault>
        ensures none { Reads (λ s found. found ≡ None) (shows self.old) (shows self.new) result }
        ensures fault { IfErr result (λ f. may_come f ≡ true) };

    // So far the medium of open records has returned what was written.
    ghost open_is_clean: { (c : Self) → IsTrue (shows c).is_open → (shows c).IsClean };

    // Of open records a stop leaves something, where the medium lasts.
    ghost stop_leaves: { IsTrue medium.is_lasting → (c : Self) → IsTrue (shows c).is_open → (left : medium.Remains) × (shows c).may_leave left };

    // What open records stand for lasts, whatever stops the computer.
    ghost rests_last: { (c : Self) → IsTrue (shows c).is_open → (s : MachineState) → (shows c).Rests s → Lasts (shows c) s };
}
