//! The store: its contracts speak of the state that the tables stand for, and of no row.

ghost use Rattle.std.specs.Prelude.{◌≡◌, ◌⊎◌, ◌<◌, ◌≤◌, ℕ, List, map, find, not, None, Some, true, false, Err, IsTrue, IfOk, IfErr, OnOk, OnErr};
ghost use Rattle.sqlite.specs.Held.{state};
ghost use Rattle.sqlite.specs.State.{HasCleanDisk};
ghost use Rattle.as2_exchange.specs.State.{State, end_of_numbers, document, document_named, origin_of, received_entry};
ghost use Rattle.as2_exchange.specs.Due.{due_documents, due_receipts, least};
ghost use Rattle.as2_exchange.specs.declared.fault.StoreFault.TheVariants.{Full};
ghost use Rattle.as2_records.specs.Summaries.{in_summary};
ghost use Rattle.as2_records.specs.Counting.{counts_of};
ghost use Rattle.as2_records.specs.Due.{numbers_behind};
ghost use Rattle.as2_records.specs.Listing.{settled_numbers, listed_rows};
ghost use Rattle.as2_records.specs.Adding.{state_with, added_document};
ghost use Rattle.as2_store.specs.Calls.{Adopts, CommitsTables, CommitsFirst, Creates, IsGivenBack, IsReason};
ghost use Rattle.as2_store.specs.Rounds.{BeginsRound, CommitsRound, ReadsBy, WritesBy};
ghost use Rattle.as2_store.specs.Expiring.{TicksTablesAs};
ghost use Rattle.as2_records.specs.Expiring.{ticked_in};
ghost use Rattle.as2_store.specs.Finding.{evidence_at};
ghost use Rattle.as2_store.specs.Migrating.{CommitsMigrated, IsMigrationReason, Migrates};
ghost use Rattle.as2_records.specs.Finding.{AreNext, IsPostedAs};
ghost use Rattle.as2_records.specs.Owing.{set_receipt_in};
ghost use Rattle.as2_records.specs.Progressing.{set_out_in};
ghost use Rattle.as2_records.specs.Requeuing.{requeued_in};
ghost use Rattle.as2_records.specs.Resending.{resent_in};
ghost use Rattle.as2_records.specs.Settling.{settled_in};
ghost use Rattle.as2_records.specs.Standing.{may_come};
ghost use Rattle.as2_exchange.specs.declared.place.Table.TheVariants as table;
ghost use Rattle.as2_store.specs.Stands.{comes_of, is_in_inbox, is_in_outbox, is_row_at, is_row_of};

use crate::adding::add;
use crate::adopting::check;
use crate::counters::{meta_rows, next_numbers};
use crate::counting::{counted, details, receipt_stages};
use crate::creating::make;
use crate::discrepancies::discrepancy;
use crate::documents::{evidence_in, shown_document};
use crate::due::least_due;
use crate::entries::shown_entry;
use crate::expiring::expire;
use crate::fault::{fault_of, unread_column};
use crate::inbox::rows_by_key;
use crate::migrating::migrate;
use crate::numbers::{fits, fits_progress, fits_receipt};
use crate::origin::{origin_in, origin_rows};
use crate::outbox::rows_by_id;
use crate::progress::set;
use crate::settled::{numbers_in, settled_rows};
use crate::settling::settle;
use crate::submitting::{add_document, is_begun_by_tries};
use crate::{inbox, listing, outbox, owed, rounds};
use as2_exchange::{
    Attempt, END_OF_NUMBERS, Evidence, InEntry, OutEntry, ReceiptStage, RowPlace, StoreFault,
    Table, is_by_receipt,
};
use as2_mdn::{Detail, DetailClass};
use as2_records::{Counts, Discrepancy, InRow, NextNumbers, OutRow, Progress, ReceiptProgress};
use as2_rows::Wait;
use as2_text::{AsName, Moment};
use sqlite::{Alter, Connection};
use std::alloc::Global;
use std::marker::Model;

/// The records of a station, over a connection to memory, a file or a disk. It keeps nothing beside the tables.
#[derive(Drop)]
pub struct Store<S: Alter> {
    conn: Connection<S>,
}

impl<S: Alter> Model for Store<S> {
    ghost use Rattle.sqlite.specs.Held.{Held, held_code};

    ghost Value = { Held S };

    ghost coded = { held_code S.code };

    ghost view = { λ s. s.conn };
}

impl<S: Alter> Store<S> {
    /// Makes a store without entries on a connection without tables; its first numbers are `first`. Answers Memory, Disk or
    /// Refused, and then the tables are as they were.
    pub fn create(
        mut conn: Connection<S>,
        first: u64,
    ) -> Result<Store<S>, (Connection<S>, StoreFault)>
        requires autocommit { conn.in_transaction ≡ false }
        requires least { 1 ≤ first }
        requires most { first < end_of_numbers }
        ensures created { IfOk result (λ store. Creates first (state S.Store conn) (state S.Store store)) }
        ensures given_back { IfErr result
            (λ e. IsGivenBack (CommitsFirst first (state S.Store conn)) (state S.Store conn) (state S.Store e.0)) }
        ensures fault { IfErr result (λ e. may_come e.1 ≡ true) }
    {
        match make(&mut conn, first) {
            Ok(()) => Ok(Store { conn }),
            Err(error) => Err((conn, fault_of(error))),
        }
    }

    /// Takes a connection whose tables are those of a store. Answers NotAStore where the table `meta` can't be read, or
    /// doesn't hold one row with the kind of a store. Answers OtherVersion where its version isn't 3. Answers also
    /// Memory, Disk or Refused.
    pub fn adopt(mut conn: Connection<S>) -> Result<Store<S>, (Connection<S>, StoreFault)>
        requires autocommit { conn.in_transaction ≡ false }
        ensures adopted { IfOk result (λ store. Adopts (state S.Store conn) (state S.Store store)) }
        ensures given_back { IfErr result
            (λ e. IsGivenBack (CommitsTables Some (state S.Store conn)) (state S.Store conn) (state S.Store e.0)) }
        ensures reason { IfErr result (λ e. HasCleanDisk (state S.Store e.0) → IsReason (state S.Store conn) e.1) }
    {
        match check(&mut conn) {
            Ok(()) => Ok(Store { conn }),
            Err(fault) => Err((conn, fault)),
        }
    }

    /// Takes a connection whose tables are those of a store of version 1 or 2, and makes them those of version 3, in one transaction.
    /// Answers NotAStore where the table `meta` can't be read, or doesn't hold one row with the kind of a store. Answers
    /// OtherVersion where its version isn't 1 or 2. Answers also Memory, Disk, Refused or Damaged. Whatever fault is answered, the
    /// tables are as they were.
    pub fn migrate(mut conn: Connection<S>) -> Result<Store<S>, (Connection<S>, StoreFault)>
        requires autocommit { conn.in_transaction ≡ false }
        ensures migrated { IfOk result (λ store. Migrates (state S.Store conn) (state S.Store store)) }
        ensures alone { IfOk result (λ store. store.in_transaction ≡ false) }
        ensures given_back { IfErr result
            (λ e. IsGivenBack (CommitsMigrated (state S.Store conn)) (state S.Store conn) (state S.Store e.0)) }
        ensures reason { IfErr result (λ e. HasCleanDisk (state S.Store e.0)
            → IsMigrationReason (state S.Store conn) e.1) }
    {
        match migrate(&mut conn) {
            Ok(()) => Ok(Store { conn }),
            Err(fault) => Err((conn, fault)),
        }
    }

    /// Gives the connection back.
    pub fn into_connection(self) -> Connection<S>
        ensures { result ≡ self }
    {
        let Store { conn } = self;
        conn
    }

    /// No round is open: each call commits what it writes.
    pub fn is_alone(&self) -> bool
        ensures { result ≡ not self.now.in_transaction }
    {
        self.conn.is_autocommit()
    }

    /// Begins a round: nothing that is written is committed before `commit`. Answers Memory, Disk or Refused, and then the state stays.
    pub fn hold(&mut self) -> Result<(), StoreFault>
        requires alone { self.old.in_transaction ≡ false }
        ensures begins { BeginsRound (state S.Store self.old) (state S.Store self.new) result }
        ensures fault { IfErr result (λ f. may_come f ≡ true) }
    {
        rounds::hold(&mut self.conn).map_err(fault_of)
    }

    /// Commits what was written in a round. Answers Memory, Disk or Refused, and then the round is lost.
    pub fn commit(&mut self) -> Result<(), StoreFault>
        ensures ends { CommitsRound (state S.Store self.old) (state S.Store self.new) result }
        ensures fault { IfErr result (λ f. may_come f ≡ true) }
    {
        rounds::commit(&mut self.conn).map_err(fault_of)
    }

    /// The numbers that the next entries get. Answers Memory, Disk, Refused or Damaged.
    pub fn next_numbers(&mut self) -> Result<NextNumbers, StoreFault>
        ensures numbers { ReadsBy (λ s next. AreNext next s) (state S.Store self.old) (state S.Store self.new)
            result }
        ensures fault { IfErr result (λ f. may_come f ≡ true) }
        ensures row { IfErr result (λ f. comes_of (is_row_of table.Meta) f ≡ true) }
    {
        next_numbers(&mut self.conn)
    }

    /// The number below which receipts were recorded by the first version of the tables, 0 where none was. Answers Memory, Disk, Refused or
    /// Damaged.
    pub fn origin(&mut self) -> Result<u64, StoreFault>
        ensures origin { ReadsBy (λ s number. number
            ≡ origin_of s.version) (state S.Store self.old) (state S.Store self.new) result }
        ensures fault { IfErr result (λ f. may_come f ≡ true) }
        ensures row { IfErr result (λ f. comes_of (is_row_of table.Origin) f ≡ true) }
    {
        let rows = origin_rows(&mut self.conn).map_err(fault_of)?;
        let place = RowPlace {
            table: Table::Origin,
            number: 0,
        };
        origin_in(&rows).map_err(|error| unread_column(error, place))
    }

    /// Adds an entry to the inbox under the next number of a receipt, as `next_numbers` gives it. Answers Full exactly where the number is
    /// past 999,999,999,999, and then touches nothing. Answers Refused where it isn't the next, where another entry has its sender, receiver
    /// and identifier value, and where a number of it fits no column. Answers also Memory, Disk or Refused. A fault leaves the state.
    pub fn add_in(&mut self, entry: &InEntry) -> Result<(), StoreFault>
        ensures added { WritesBy (state_with entry.now) (state S.Store self.old) (state S.Store self.new) result }
        ensures full { IfErr result (λ f. f ≡ Full → end_of_numbers ≤ entry.now.number) }
        ensures full_alone { end_of_numbers ≤ entry.now.number → result ≡ Err Full }
        ensures full_same { end_of_numbers ≤ entry.now.number → self.new ≡ self.old }
        ensures fault { IfErr result (λ f. (f ≡ Full) ⊎ (may_come f ≡ true)) }
    {
        if entry.number >= END_OF_NUMBERS {
            return Err(StoreFault::Full);
        }
        if !fits(&entry.posted.content, entry.tries, entry.due) {
            return Err(StoreFault::Refused);
        }
        add(&mut self.conn, entry).map_err(fault_of)
    }

    /// Adds a document that no receipt has settled to the outbox under the next number of a document, as `next_numbers` gives it. Answers Full
    /// exactly where the number is past 999,999,999,999, and then touches nothing. Answers Refused where it isn't the next, where another
    /// document has an identifier of its value, and where a number of it fits no column. So too where it is begun and not tried, or tried and
    /// not begun. Answers also Memory, Disk or Refused. A fault leaves the state.
    pub fn add_out(&mut self, entry: &OutEntry) -> Result<(), StoreFault>
        requires unsettled { entry.now.evidence ≡ None }
        ensures added { WritesBy (added_document entry.now) (state S.Store self.old) (state S.Store self.new)
            result }
        ensures full { IfErr result (λ f. f ≡ Full → end_of_numbers ≤ entry.now.number) }
        ensures full_alone { end_of_numbers ≤ entry.now.number → result ≡ Err Full }
        ensures full_same { end_of_numbers ≤ entry.now.number → self.new ≡ self.old }
        ensures fault { IfErr result (λ f. (f ≡ Full) ⊎ (may_come f ≡ true)) }
    {
        if END_OF_NUMBERS <= entry.number {
            return Err(StoreFault::Full);
        }
        if !fits(&entry.content, entry.tries, entry.due) {
            return Err(StoreFault::Refused);
        }
        if !is_begun_by_tries(entry) {
            return Err(StoreFault::Refused);
        }
        add_document(&mut self.conn, entry).map_err(fault_of)
    }

    /// Sets the receipt of the entry of the inbox of this number, if there is one, to be sent from this moment on, with all
    /// tries left. Answers Memory, Disk or Refused, and then the state stays.
    pub fn requeue_receipt(&mut self, number: u64, moment: Moment) -> Result<(), StoreFault>
        ensures requeued { WritesBy (requeued_in number moment) (state S.Store self.old) (state S.Store self.new)
            result }
        ensures fault { IfErr result (λ f. may_come f ≡ true) }
    {
        let anew = ReceiptProgress {
            receipt_stage: ReceiptStage::Pending,
            tries: 0,
            attempt: Attempt::Idle,
            due: Some(moment.seconds()),
        };
        owed::set(&mut self.conn, number, anew).map_err(fault_of)
    }

    /// Sets how far the receipt of the entry of the inbox of this number, if there is one, has come. Answers Refused where a number of it
    /// fits no column; Memory, Disk or Refused; and then the state stays.
    pub fn set_receipt(&mut self, number: u64, progress: ReceiptProgress) -> Result<(), StoreFault>
        ensures set { WritesBy (set_receipt_in number progress) (state S.Store self.old) (state S.Store self.new)
            result }
        ensures fault { IfErr result (λ f. may_come f ≡ true) }
    {
        if !fits_receipt(progress) {
            return Err(StoreFault::Refused);
        }
        owed::set(&mut self.conn, number, progress).map_err(fault_of)
    }

    /// Time passes: each document whose receipt is overdue at this moment passes into `Overdue`, and each whose last try is into
    /// `TriesUsed`. Answers how many there are; Memory, Disk, Refused or Damaged, and then the state stays.
    pub fn expire(&mut self, moment: Moment) -> Result<u64, StoreFault>
        ensures passed { WritesBy (ticked_in moment) (state S.Store self.old) (state S.Store self.new) result }
        ensures counted { HasCleanDisk (state S.Store self.new)
            → IfOk result (TicksTablesAs moment (state S.Store self.old)) }
        ensures fault { IfErr result (λ f. may_come f ≡ true) }
        ensures row { IfErr result (λ f. comes_of (is_row_of table.Waiting) f ≡ true) }
    {
        let place = RowPlace {
            table: Table::Waiting,
            number: 0,
        };
        expire(&mut self.conn, moment).map_err(|error| unread_column(error, place))
    }

    /// Sets how far the document of this number has come. Answers Refused where no document has the number, and where a number of it fits no
    /// column; Memory, Disk or Refused; and then the state stays.
    pub fn set_out(&mut self, number: u64, progress: Progress) -> Result<(), StoreFault>
        ensures set { WritesBy (set_out_in number progress) (state S.Store self.old) (state S.Store self.new)
            result }
        ensures fault { IfErr result (λ f. may_come f ≡ true) }
    {
        if !fits_progress(progress) {
            return Err(StoreFault::Refused);
        }
        set(&mut self.conn, number, progress).map_err(fault_of)
    }

    /// Queues the document of this number to be sent anew from this moment on, with all tries left. Answers Refused where no document
    /// has the number; Memory, Disk or Refused; and then the state stays.
    pub fn resend(&mut self, number: u64, moment: Moment) -> Result<(), StoreFault>
        ensures resent { WritesBy (resent_in number moment) (state S.Store self.old) (state S.Store self.new)
            result }
        ensures fault { IfErr result (λ f. may_come f ≡ true) }
    {
        let anew = Progress {
            tries: 0,
            attempt: Attempt::Idle,
            due: Some(moment.seconds()),
            detail: Detail::New,
        };
        set(&mut self.conn, number, anew).map_err(fault_of)
    }

    /// Settles the document of this number by a receipt: it gets this detail and this evidence, no try of it is open, and
    /// nothing of it waits any more. Answers Refused where no document has the number, where a receipt has settled it, and where
    /// no receipt gives the detail; Memory, Disk or Refused; and then the state stays.
    pub fn settle(
        &mut self,
        number: u64,
        detail: Detail,
        evidence: &Evidence,
    ) -> Result<(), StoreFault>
        ensures settled { WritesBy (settled_in number detail evidence.now) (state S.Store self.old)
            (state S.Store self.new) result }
        ensures fault { IfErr result (λ f. may_come f ≡ true) }
    {
        if !is_by_receipt(detail) {
            return Err(StoreFault::Refused);
        }
        let Ok(body) = evidence.body.joined() else {
            return Err(StoreFault::Memory);
        };
        settle(&mut self.conn, number, detail, evidence, &body).map_err(fault_of)
    }

    /// The entry of the inbox that this sender posted to this receiver under an identifier of this value, if there is one, with its
    /// content. Answers Memory, Disk, Refused or Damaged.
    pub fn find_in(
        &mut self,
        alloc: Global,
        sender: &AsName,
        receiver: &AsName,
        id_value: &str,
    ) -> Result<Option<InEntry>, StoreFault>
        ensures found { ReadsBy (IsPostedAs sender.now receiver.now id_value.now) (state S.Store self.old)
            (state S.Store self.new) result }
        ensures fault { IfErr result (λ f. may_come f ≡ true) }
        ensures row { IfErr result (λ f. comes_of is_in_inbox f ≡ true) }
    {
        let rows = rows_by_key(
            &mut self.conn,
            sender.bytes(),
            receiver.bytes(),
            id_value.as_bytes(),
        )
        .map_err(fault_of)?;
        shown_entry(&mut self.conn, alloc, &rows)
    }

    /// The entry of the inbox of this number, if there is one, with its content. Answers Memory, Disk, Refused or Damaged.
    pub fn find_in_number(
        &mut self,
        alloc: Global,
        number: u64,
    ) -> Result<Option<InEntry>, StoreFault>
        ensures found { ReadsBy (λ s found. found
            ≡ received_entry s number) (state S.Store self.old) (state S.Store self.new) result }
        ensures fault { IfErr result (λ f. may_come f ≡ true) }
        ensures row { IfErr result (λ f. comes_of is_in_inbox f ≡ true) }
    {
        let rows = inbox::rows_by_number(&mut self.conn, number).map_err(fault_of)?;
        shown_entry(&mut self.conn, alloc, &rows)
    }

    /// The document of this number, if there is one, with its content and its evidence. Answers Memory, Disk, Refused or Damaged.
    pub fn find_out(&mut self, alloc: Global, number: u64) -> Result<Option<OutEntry>, StoreFault>
        ensures found { ReadsBy (λ s found. found
            ≡ document s number) (state S.Store self.old) (state S.Store self.new) result }
        ensures fault { IfErr result (λ f. may_come f ≡ true) }
        ensures row { IfErr result (λ f. comes_of is_in_outbox f ≡ true) }
    {
        let rows = outbox::rows_by_number(&mut self.conn, number).map_err(fault_of)?;
        shown_document(&mut self.conn, alloc, &rows)
    }

    /// The document of the outbox with an identifier of this value, if there is one, with its content and its evidence.
    /// Answers Memory, Disk, Refused or Damaged.
    pub fn find_out_by_id(
        &mut self,
        alloc: Global,
        id_value: &[u8],
    ) -> Result<Option<OutEntry>, StoreFault>
        ensures found { ReadsBy (λ s found. found
            ≡ document_named s id_value.now) (state S.Store self.old) (state S.Store self.new) result }
        ensures fault { IfErr result (λ f. may_come f ≡ true) }
        ensures row { IfErr result (λ f. comes_of is_in_outbox f ≡ true) }
    {
        let rows = rows_by_id(&mut self.conn, id_value).map_err(fault_of)?;
        shown_document(&mut self.conn, alloc, &rows)
    }

    /// The receipt that settled the document of this number; None where none has, or where there is no such document. Answers
    /// Memory, Disk, Refused or Damaged.
    pub fn evidence(&mut self, alloc: Global, number: u64) -> Result<Option<Evidence>, StoreFault>
        ensures found { ReadsBy (λ s found. found
            ≡ evidence_at s number) (state S.Store self.old) (state S.Store self.new) result }
        ensures fault { IfErr result (λ f. may_come f ≡ true) }
        ensures row { IfErr result (λ f. comes_of (is_row_at table.Evidence number) f ≡ true) }
    {
        evidence_in(&mut self.conn, alloc, number)
    }

    /// The least number of the documents of which a try may begin at this moment, behind that number where one is given; None where there
    /// is none. Answers Memory, Disk, Refused or Damaged.
    pub fn due_out(
        &mut self,
        moment: Moment,
        behind: Option<u64>,
    ) -> Result<Option<u64>, StoreFault>
        ensures due { ReadsBy (λ s number. number
            ≡ least (numbers_behind behind (due_documents s moment))) (state S.Store self.old) (state S.Store self.new) result }
        ensures fault { IfErr result (λ f. may_come f ≡ true) }
        ensures row { IfErr result (λ f. comes_of (is_row_of table.Waiting) f ≡ true) }
    {
        least_due(&mut self.conn, Wait::ToSend, moment, behind)
    }

    /// The least number of the receipts of which a try may begin at this moment, behind that number where one is given; None where there
    /// is none. Answers Memory, Disk, Refused or Damaged.
    pub fn due_receipt(
        &mut self,
        moment: Moment,
        behind: Option<u64>,
    ) -> Result<Option<u64>, StoreFault>
        ensures due { ReadsBy (λ s number. number
            ≡ least (numbers_behind behind (due_receipts s moment))) (state S.Store self.old) (state S.Store self.new) result }
        ensures fault { IfErr result (λ f. may_come f ≡ true) }
        ensures row { IfErr result (λ f. comes_of (is_row_of table.Waiting) f ≡ true) }
    {
        least_due(&mut self.conn, Wait::ToSendReceipt, moment, behind)
    }

    /// The documents of that state, or all, in order of number, each with the length of its content in place of the content,
    /// and without its evidence. Answers Memory, Disk, Refused or Damaged.
    pub fn list_out(
        &mut self,
        alloc: Global,
        wanted: Option<DetailClass>,
    ) -> Result<Vec<OutRow>, StoreFault>
        ensures documents { ReadsBy (λ s documents. documents.items
            ≡ listed_rows wanted s) (state S.Store self.old) (state S.Store self.new) result }
        ensures fault { IfErr result (λ f. may_come f ≡ true) }
        ensures row { IfErr result (λ f. comes_of (is_row_of table.Outbox) f ≡ true) }
    {
        meta_rows(&mut self.conn).map_err(fault_of)?;
        listing::documents(&mut self.conn, alloc, wanted)
    }

    /// The entries of the inbox in order of number, each with the length of its content in place of the content. Answers
    /// Memory, Disk, Refused or Damaged.
    pub fn list_in(&mut self, alloc: Global) -> Result<Vec<InRow>, StoreFault>
        ensures entries { ReadsBy (λ s entries. entries.items
            ≡ map in_summary s.inbox) (state S.Store self.old) (state S.Store self.new) result }
        ensures fault { IfErr result (λ f. may_come f ≡ true) }
        ensures row { IfErr result (λ f. comes_of (is_row_of table.Inbox) f ≡ true) }
    {
        meta_rows(&mut self.conn).map_err(fault_of)?;
        listing::entries(&mut self.conn, alloc)
    }

    /// The numbers of the documents that a receipt has settled, in order. Answers Memory, Disk, Refused or Damaged.
    pub fn settled(&mut self, alloc: Global) -> Result<Vec<u64>, StoreFault>
        ensures numbers { ReadsBy (λ s numbers. numbers.items
            ≡ settled_numbers s) (state S.Store self.old) (state S.Store self.new) result }
        ensures fault { IfErr result (λ f. may_come f ≡ true) }
        ensures row { IfErr result (λ f. comes_of (is_row_of table.Evidence) f ≡ true) }
    {
        let rows = settled_rows(&mut self.conn).map_err(fault_of)?;
        let place = RowPlace {
            table: Table::Evidence,
            number: 0,
        };
        numbers_in(alloc, rows.as_slice()).map_err(|error| unread_column(error, place))
    }

    /// How much is outstanding. Answers Memory, Disk, Refused or Damaged.
    pub fn counts(&mut self, alloc: Global) -> Result<Counts, StoreFault>
        ensures counts { ReadsBy (λ s counts. counts
            ≡ counts_of s) (state S.Store self.old) (state S.Store self.new) result }
        ensures fault { IfErr result (λ f. may_come f ≡ true) }
    {
        let details = details(&mut self.conn, alloc)?;
        let receipt_stages = receipt_stages(&mut self.conn, alloc)?;
        Ok(counted(details.as_slice(), receipt_stages.as_slice()))
    }

    /// The first discrepancy between the entries and what is kept beside them, the counters and what waits. Tables that stand for a
    /// state have none. Answers Memory, Disk, Refused or Damaged.
    pub fn discrepancy(&mut self, alloc: Global) -> Result<Option<Discrepancy>, StoreFault>
        ensures none { ReadsBy (λ s found. found ≡ None) (state S.Store self.old) (state S.Store self.new) result }
        ensures fault { IfErr result (λ f. may_come f ≡ true) }
    {
        discrepancy(&mut self.conn, alloc)
    }
}
