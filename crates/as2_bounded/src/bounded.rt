//! Records with a room.
ghost use Rattle.std.specs.Prelude.{◌≡◌, ◌⊎◌, ◌<◌, ◌≤◌, ◌+◌, ◌-◌, ◌^◌, min, length, true, IfErr, IfOk, IfSome, None, Some, Ok, Err};
ghost use Rattle.as2_exchange.specs.State.{end_of_numbers};
ghost use Rattle.as2_exchange.specs.declared.fault.StoreFault.TheVariants.{Disk, Full};
ghost use Rattle.as2_records.specs.Adding.{state_with, added_document};
ghost use Rattle.as2_records.specs.Calls.{Writes};
ghost use Rattle.as2_records.specs.Rounds.{IsLost, PassesOn, StaysOpen};
ghost use Rattle.as2_records.specs.Standing.{may_come};
ghost use Rattle.as2_bounded.specs.Rooms.{room_behind, room_of};

use as2_exchange::{END_OF_NUMBERS, Evidence, InEntry, OutEntry, StoreFault};
use as2_mdn::{Detail, DetailClass};
use as2_records::{
    Counts, Discrepancy, InRow, NextNumbers, OutRow, Progress, ReceiptProgress, Records, Rounds,
};
use as2_text::{AsName, Moment};
use std::alloc::Global;

/// What one part of a content takes more, for what each page of a file has of its own.
const PAGE_SHARE: u64 = 32;

/// The most bytes of its last page that a content leaves empty.
const PAGE_REST: u64 = 2304;

/// How many bytes the rows of an entry take.
const ROWS: u64 = 512;

/// How many bytes a MiB has.
const MEBIBYTE: u64 = 1_048_576;

/// The room in bytes that a store's files have which take `size` bytes, and may take `limit` MiB.
pub fn room_of(limit: u64, size: u64) -> u64
    ensures { result ≡ room_of limit size }
{
    limit.saturating_mul(MEBIBYTE).saturating_sub(size)
}

/// The room that a content of so many bytes leaves, where there is room for it.
fn room_behind(room: u64, length: u64) -> Option<u64>
    ensures { result ≡ room_behind room length }
{
    room.checked_sub(length)?
        .checked_sub(length / PAGE_SHARE)?
        .checked_sub(length.min(PAGE_REST))?
        .checked_sub(ROWS)
}

/// Records that take a content only while there is room for it. One that there is no room for is refused as by a full disk, by `Disk`,
/// and nothing is touched. All else is the records' own.
#[derive(Drop)]
pub struct Bounded<R> {
    records: R,
    room: u64,
    refused: u64,
}

impl<R: Records> Bounded<R> {
    /// Records that have so many bytes of room.
    pub fn new(records: R, room: u64) -> Bounded<R>
        ensures records { result.records ≡ records }
        ensures room { result.room ≡ room }
        ensures refused { result.refused ≡ 0 }
    {
        Bounded {
            records,
            room,
            refused: 0,
        }
    }

    /// How many contents there was no room for.
    pub fn refused(&self) -> u64
        ensures { result ≡ self.now.refused }
    {
        self.refused
    }

    /// Gives the records back.
    pub fn into_records(self) -> R
        ensures { result ≡ self.records }
    {
        let Bounded { records, .. } = self;
        records
    }

    /// The room that is left behind a content of so many bytes. Disk where there is none for it, which is counted.
    fn room_for(&mut self, length: usize) -> Result<u64, StoreFault>
        ensures records { self.new.records ≡ self.old.records }
        ensures room { self.new.room ≡ self.old.room }
        ensures left { IfSome (room_behind self.old.room length) (λ left. (result ≡ Ok left)
            × (self.new.refused ≡ self.old.refused)) }
        ensures none { room_behind self.old.room length ≡ None
            → (result ≡ Err Disk) × (self.new.refused ≡ min (self.old.refused + 1) (2 ^ 64 - 1)) }
    {
        if let Some(left) = room_behind(self.room, length as u64) {
            return Ok(left);
        }
        self.refused = self.refused.saturating_add(1);
        Err(StoreFault::Disk)
    }

    /// Adds an entry to the inbox, as `Records` has it, where there is room for its content, which it takes.
    fn admit_in(&mut self, entry: &InEntry) -> Result<(), StoreFault>
        ensures added { Writes (state_with entry.now) (R.shows self.old.records) (R.shows self.new.records) result }
        ensures full { IfErr result (λ f. f ≡ Full → end_of_numbers ≤ entry.now.number) }
        ensures full_alone { end_of_numbers ≤ entry.now.number → result ≡ Err Full }
        ensures full_same { end_of_numbers ≤ entry.now.number → self.new ≡ self.old }
        ensures fault { IfErr result (λ f. (f ≡ Full) ⊎ (may_come f ≡ true)) }
        ensures taken { IfOk result (λ _. room_behind self.old.room (length entry.now.posted.content)
            ≡ Some self.new.room) }
        ensures left { IfErr result (λ _. self.new.room ≡ self.old.room) }
        ensures uncounted { IfSome (room_behind self.old.room (length entry.now.posted.content)) (λ _. self.new.refused
            ≡ self.old.refused) }
        ensures none { entry.now.number < end_of_numbers
            → room_behind self.old.room (length entry.now.posted.content) ≡ None
            → (result ≡ Err Disk)
            × ((self.new.records ≡ self.old.records) × (self.new.refused ≡ min (self.old.refused + 1) (2 ^ 64 - 1))) }
    {
        if entry.number >= END_OF_NUMBERS {
            return Err(StoreFault::Full);
        }
        let left = self.room_for(entry.posted.content.len())?;
        self.records.add_in(entry)?;
        self.room = left;
        Ok(())
    }

    /// Adds a document to the outbox, as `Records` has it, where there is room for its content, which it takes.
    fn admit_out(&mut self, entry: &OutEntry) -> Result<(), StoreFault>
        requires unsettled { entry.now.evidence ≡ None }
        ensures added { Writes (added_document entry.now) (R.shows self.old.records) (R.shows self.new.records) result }
        ensures full { IfErr result (λ f. f ≡ Full → end_of_numbers ≤ entry.now.number) }
        ensures full_alone { end_of_numbers ≤ entry.now.number → result ≡ Err Full }
        ensures full_same { end_of_numbers ≤ entry.now.number → self.new ≡ self.old }
        ensures fault { IfErr result (λ f. (f ≡ Full) ⊎ (may_come f ≡ true)) }
        ensures taken { IfOk result (λ _. room_behind self.old.room (length entry.now.content) ≡ Some self.new.room) }
        ensures left { IfErr result (λ _. self.new.room ≡ self.old.room) }
        ensures uncounted { IfSome (room_behind self.old.room (length entry.now.content)) (λ _. self.new.refused
            ≡ self.old.refused) }
        ensures none { entry.now.number < end_of_numbers → room_behind self.old.room (length entry.now.content) ≡ None
            → (result ≡ Err Disk)
            × ((self.new.records ≡ self.old.records) × (self.new.refused ≡ min (self.old.refused + 1) (2 ^ 64 - 1))) }
    {
        if entry.number >= END_OF_NUMBERS {
            return Err(StoreFault::Full);
        }
        let behind = self.room_for(entry.content.len())?;
        self.records.add_out(entry)?;
        self.room = behind;
        Ok(())
    }
}

impl<R: Records> Records for Bounded<R> {
    ghost medium = { R.medium };

    ghost shows = { λ b. R.shows b.records };

    fn next_numbers(&mut self) -> Result<NextNumbers, StoreFault> {
        self.records.next_numbers()
    }

    fn origin(&mut self) -> Result<u64, StoreFault> {
        self.records.origin()
    }

    fn add_in(&mut self, entry: &InEntry) -> Result<(), StoreFault> {
        self.admit_in(entry)
    }

    fn add_out(&mut self, entry: &OutEntry) -> Result<(), StoreFault> {
        self.admit_out(entry)
    }

    fn requeue_receipt(&mut self, number: u64, moment: Moment) -> Result<(), StoreFault> {
        self.records.requeue_receipt(number, moment)
    }

    fn set_receipt(&mut self, number: u64, progress: ReceiptProgress) -> Result<(), StoreFault> {
        self.records.set_receipt(number, progress)
    }

    fn expire(&mut self, moment: Moment) -> Result<u64, StoreFault> {
        self.records.expire(moment)
    }

    fn set_out(&mut self, number: u64, progress: Progress) -> Result<(), StoreFault> {
        self.records.set_out(number, progress)
    }

    fn resend(&mut self, number: u64, moment: Moment) -> Result<(), StoreFault> {
        self.records.resend(number, moment)
    }

    fn settle(
        &mut self,
        number: u64,
        detail: Detail,
        evidence: &Evidence,
    ) -> Result<(), StoreFault> {
        self.records.settle(number, detail, evidence)
    }

    fn find_in(
        &mut self,
        alloc: Global,
        sender: &AsName,
        receiver: &AsName,
        id_value: &str,
    ) -> Result<Option<InEntry>, StoreFault> {
        self.records.find_in(alloc, sender, receiver, id_value)
    }

    fn find_in_number(
        &mut self,
        alloc: Global,
        number: u64,
    ) -> Result<Option<InEntry>, StoreFault> {
        self.records.find_in_number(alloc, number)
    }

    fn find_out(&mut self, alloc: Global, number: u64) -> Result<Option<OutEntry>, StoreFault> {
        self.records.find_out(alloc, number)
    }

    fn find_out_by_id(
        &mut self,
        alloc: Global,
        id_value: &[u8],
    ) -> Result<Option<OutEntry>, StoreFault> {
        self.records.find_out_by_id(alloc, id_value)
    }

    fn due_out(&mut self, moment: Moment, behind: Option<u64>) -> Result<Option<u64>, StoreFault> {
        self.records.due_out(moment, behind)
    }

    fn due_receipt(
        &mut self,
        moment: Moment,
        behind: Option<u64>,
    ) -> Result<Option<u64>, StoreFault> {
        self.records.due_receipt(moment, behind)
    }

    fn list_out(
        &mut self,
        alloc: Global,
        wanted: Option<DetailClass>,
    ) -> Result<Vec<OutRow>, StoreFault> {
        self.records.list_out(alloc, wanted)
    }

    fn list_in(&mut self, alloc: Global) -> Result<Vec<InRow>, StoreFault> {
        self.records.list_in(alloc)
    }

    fn settled(&mut self, alloc: Global) -> Result<Vec<u64>, StoreFault> {
        self.records.settled(alloc)
    }

    fn counts(&mut self, alloc: Global) -> Result<Counts, StoreFault> {
        self.records.counts(alloc)
    }

    fn discrepancy(&mut self, alloc: Global) -> Result<Option<Discrepancy>, StoreFault> {
        self.records.discrepancy(alloc)
    }

    ghost open_is_clean = { λ b. R.open_is_clean b.records };

    ghost stop_leaves = { λ lasting b. R.stop_leaves lasting b.records };

    ghost rests_last = { λ b. R.rests_last b.records };
}

impl<R: Rounds> Rounds for Bounded<R> {
    type Round = Bounded<R::Round>;

    fn hold(self) -> Result<Bounded<R::Round>, (Bounded<R>, StoreFault)>
        ensures begun { IfOk result (λ round. PassesOn (R.shows self.records) (R.Round.shows round.records)) }
        ensures open { IfOk result (λ round. StaysOpen (R.shows self.records) (R.Round.shows round.records)) }
        ensures back { IfErr result (λ e. PassesOn (R.shows self.records) (R.shows e.0.records)) }
        ensures fault { IfErr result (λ e. may_come e.1 ≡ true) }
        ensures room { IfOk result (λ round. round.room ≡ self.room) }
        ensures refused { IfOk result (λ round. round.refused ≡ self.refused) }
        ensures same_room { IfErr result (λ e. e.0.room ≡ self.room) }
        ensures same_refused { IfErr result (λ e. e.0.refused ≡ self.refused) }
    {
        let Bounded {
            records,
            room,
            refused,
        } = self;
        match records.hold() {
            Ok(records) => Ok(Bounded {
                records,
                room,
                refused,
            }),
            Err((records, fault)) => Err((
                Bounded {
                    records,
                    room,
                    refused,
                },
                fault,
            )),
        }
    }

    fn commit(round: Bounded<R::Round>) -> Result<Bounded<R>, Bounded<R::Round>>
        ensures committed { IfOk result (λ records. PassesOn (R.Round.shows round.records) (R.shows records.records)) }
        ensures still_open { IfOk result (λ records. StaysOpen (R.Round.shows round.records)
            (R.shows records.records)) }
        ensures lost { IfErr result (λ left. IsLost (R.Round.shows round.records) (R.Round.shows left.records)) }
        ensures room { IfOk result (λ records. records.room ≡ round.room) }
        ensures refused { IfOk result (λ records. records.refused ≡ round.refused) }
        ensures same_room { IfErr result (λ left. left.room ≡ round.room) }
        ensures same_refused { IfErr result (λ left. left.refused ≡ round.refused) }
    {
        let Bounded {
            records,
            room,
            refused,
        } = round;
        match R::commit(records) {
            Ok(records) => Ok(Bounded {
                records,
                room,
                refused,
            }),
            Err(records) => Err(Bounded {
                records,
                room,
                refused,
            }),
        }
    }
}
