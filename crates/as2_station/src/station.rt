//! The station, event by event.
ghost use Rattle.std.specs.Prelude.{◌≡◌, Err, IfOk, IfErr, OnErr, option_map, string_bytes, true};
ghost use Rattle.as2_exchange.specs.State.{AllDigests};
ghost use Rattle.as2_exchange.specs.declared.event.Event.TheVariants.{Post, Resend, Submit, Tick};
ghost use Rattle.as2_exchange.specs.declared.answer.Answer.TheVariants.{Http, Refused, Ticked};
ghost use Rattle.as2_exchange.specs.Due.{IsNext, next};
ghost use Rattle.as2_views.specs.Texts.{fetch, outstanding_text, show_text};
ghost use Rattle.as2_views.specs.Filtering.{listing_text};
ghost use Rattle.as2_json.specs.Lines.{object_line, object_lines};
ghost use Rattle.as2_json.specs.Listings.{listing_objects, outstanding_objects, shown_object};
ghost use Rattle.as2_records.specs.Calls.{Reads};
ghost use Rattle.as2_records.specs.Standing.{may_come};
ghost use Rattle.as2_posts.specs.Openings.{reading_by};
ghost use Rattle.as2_station.specs.Said.{begin_event, outcome_event, said_to_begin, said_to_outcome, said_to_resend, said_to_submit};
ghost use Rattle.as2_station.specs.Steps.{ClashesWhole, RefusesSubmit, TakesEvent, TakesHead, TakesPost, always};
ghost use Rattle.as2_station.specs.Traces.{Plays, TakesEvents};
ghost use Rattle.as2_station.specs.Due.{destination, document_from, next_behind, next_from};

use crate::closing::close;
use crate::destinations::destination;
use crate::owed::{begin_receipt, close_receipt};
use crate::receiving::receive;
use crate::recording::record;
use crate::resending::resend;
use crate::said::{
    Begun, Ended, NewDocument, Resent, Submitted, said_to_begin, said_to_outcome, said_to_resend,
    said_to_submit,
};
use crate::submitting::submit;
use crate::terms::Terms;
use crate::ticking::tick;
use crate::trying::begin;
use crate::viewing;
use as2_agreement::Agreements;
use as2_exchange::{Answer, Bytes, Event, HttpAnswer, Next, StoreFault, TryAnswer};
use as2_mic::Pieces;
use as2_posts::{Opened, document, open};
use as2_records::Records;
use as2_text::{Head, Memory, Moment};
use as2_views::Filter;
use std::alloc::Global;
use std::marker::Model;

/// The station over its records. It keeps nothing beside them.
#[derive(Drop)]
pub struct Station<R: Records> {
    records: R,
}

impl<R: Records> Model for Station<R> {
    ghost Value = { R };

    ghost coded = { R.code };

    ghost view = { λ s. s.records };
}

impl<R: Records> Station<R> {
    /// The station over these records.
    pub fn new(records: R) -> Station<R>
        ensures { result ≡ records }
    {
        Station { records }
    }

    /// Gives the records back.
    pub fn into_records(self) -> R
        ensures { result ≡ self }
    {
        let Station { records } = self;
        records
    }

    /// Takes a post whose head is in order as far as its content type.
    fn take(
        &mut self,
        terms: &Terms<'_>,
        opened: Opened<'_>,
        head: &Head,
        body: Pieces,
    ) -> Result<HttpAnswer, StoreFault>
        ensures taken { TakesPost R.shows terms.now.agreements.now terms.now.moment
            (reading_by AllDigests opened.entry head.now body) always self.old self.new result }
        ensures whole { ClashesWhole Http (reading_by AllDigests opened.entry head.now body) (R.shows self.old)
            (R.shows self.new) result }
    {
        if opened.is_report() {
            return receive(&mut self.records, terms, &opened, body);
        }
        match document(terms.alloc, opened, head, body)? {
            Ok(posted) => record(&mut self.records, terms, posted),
            Err(line) => Ok(line.answer()),
        }
    }

    /// Takes a post. One that its names, version or content type refuse takes neither memory nor the records. A fault of
    /// theirs may come in place of any other answer, and nothing is changed then; Full where no number is left. A kept document
    /// that no longer has its kept MIC is Disk, where the identifier would else be told to be another document's.
    pub fn post(
        &mut self,
        alloc: Global,
        agreements: &Agreements,
        head: &Head,
        body: Pieces,
        moment: Moment,
    ) -> Result<HttpAnswer, StoreFault>
        ensures taken { TakesEvent agreements.now (Post head.now body moment) Http (R.shows self.old) (R.shows self.new)
            result }
        ensures of_head { TakesHead agreements.now (Post head.now body moment) (λ a. a) self.old self.new result }
    {
        match open(agreements, head) {
            Ok(opened) => {
                let terms = Terms {
                    alloc,
                    agreements,
                    moment,
                };
                self.take(&terms, opened, head, body)
            }
            Err(line) => Ok(line.answer()),
        }
    }

    /// Takes a document in for a partner, under the next number. One that is refused takes neither memory nor the records. A fault of
    /// theirs may come in place of any other answer, and nothing is changed then; Full where no number is left.
    pub fn submit(
        &mut self,
        alloc: Global,
        agreements: &Agreements,
        document: NewDocument,
        moment: Moment,
    ) -> Result<Submitted, StoreFault>
        ensures taken { TakesEvent agreements.now
            (Submit document.organization document.partner document.content moment) said_to_submit (R.shows self.old)
            (R.shows self.new) result }
        ensures refused { RefusesSubmit agreements.now
            (Submit document.organization document.partner document.content moment) Err self.old self.new result }
    {
        submit(&mut self.records, alloc, agreements, document, moment)
    }

    /// Begins a try of a receipt or a document: it is committed before its request is handed out. A fault of the records may come in
    /// place of any other answer, and nothing is changed then.
    pub fn begin(
        &mut self,
        alloc: Global,
        agreements: &Agreements,
        what: Next,
        moment: Moment,
    ) -> Result<Begun, StoreFault>
        ensures taken { TakesEvent agreements.now (begin_event what moment) said_to_begin (R.shows self.old)
            (R.shows self.new) result }
    {
        match what {
            Next::Receipt(number) => {
                begin_receipt(&mut self.records, alloc, agreements, number, moment)
            }
            Next::Document(number) => begin(&mut self.records, alloc, agreements, number, moment),
        }
    }

    /// Takes the outcome of a try of a receipt or a document: the receipt that came in the answer settles the document, or it is
    /// said when to try again. A fault of the records may come in place of any other answer, and nothing is changed then.
    pub fn close(
        &mut self,
        alloc: Global,
        agreements: &Agreements,
        what: Next,
        answer: TryAnswer,
        moment: Moment,
    ) -> Result<Ended, StoreFault>
        ensures taken { TakesEvent agreements.now (outcome_event what answer moment) said_to_outcome (R.shows self.old)
            (R.shows self.new) result }
    {
        let terms = Terms {
            alloc,
            agreements,
            moment,
        };
        match what {
            Next::Receipt(number) => close_receipt(&mut self.records, &terms, number, answer),
            Next::Document(number) => close(&mut self.records, &terms, number, answer),
        }
    }

    /// Queues a failed document again, from this moment on and with all tries left. It stays begun, so that a receipt
    /// for an earlier try still settles it. A fault of the records may come in place of any other answer, and nothing is changed then.
    pub fn resend(
        &mut self,
        alloc: Global,
        agreements: &Agreements,
        number: u64,
        moment: Moment,
    ) -> Result<Resent, StoreFault>
        ensures taken { TakesEvent agreements.now (Resend number moment) said_to_resend (R.shows self.old)
            (R.shows self.new) result }
    {
        resend(&mut self.records, alloc, agreements, number, moment)
    }

    /// Takes that this moment has come: what waited too long is given up. Answers how many documents were. A fault of the records
    /// may come in its place, and nothing is changed then.
    pub fn tick(&mut self, agreements: &Agreements, moment: Moment) -> Result<u64, StoreFault>
        ensures taken { TakesEvent agreements.now (Tick moment) Ticked (R.shows self.old) (R.shows self.new) result }
    {
        tick(&mut self.records, moment)
    }

    /// Takes an event of any kind, as the call for its kind does.
    pub fn step(
        &mut self,
        alloc: Global,
        agreements: &Agreements,
        event: Event,
    ) -> Result<Answer, StoreFault>
        ensures taken { TakesEvent agreements.now event (λ a. a) (R.shows self.old) (R.shows self.new) result }
        ensures of_head { TakesHead agreements.now event Http self.old self.new result }
        ensures submitted { RefusesSubmit agreements.now event Refused self.old self.new result }
    {
        match event {
            Event::Post { head, body, moment } => {
                Ok(Answer::Http(self.post(alloc, agreements, &head, body, moment)?))
            }
            Event::Submit {
                organization,
                partner,
                content,
                moment,
            } => {
                let document = NewDocument {
                    organization,
                    partner,
                    content,
                };
                Ok(said_to_submit(self.submit(alloc, agreements, document, moment)?))
            }
            Event::Begin { number, moment } => {
                let what = Next::Document(number);
                Ok(said_to_begin(self.begin(alloc, agreements, what, moment)?))
            }
            Event::Outcome {
                number,
                answer,
                moment,
            } => {
                let what = Next::Document(number);
                Ok(said_to_outcome(self.close(alloc, agreements, what, answer, moment)?))
            }
            Event::BeginReceipt { number, moment } => {
                let what = Next::Receipt(number);
                Ok(said_to_begin(self.begin(alloc, agreements, what, moment)?))
            }
            Event::OutcomeReceipt {
                number,
                answer,
                moment,
            } => {
                let what = Next::Receipt(number);
                Ok(said_to_outcome(self.close(alloc, agreements, what, answer, moment)?))
            }
            Event::Resend { number, moment } => {
                Ok(said_to_resend(self.resend(alloc, agreements, number, moment)?))
            }
            Event::Tick { moment } => Ok(Answer::Ticked(self.tick(agreements, moment)?)),
        }
    }

    /// What is to be sent next at this moment: the receipt of the least number of which a try may begin, or else the document of
    /// the least number, or nothing. Answers Memory, Disk, Refused or Damaged.
    pub fn next(&mut self, moment: Moment) -> Result<Option<Next>, StoreFault>
        ensures next { Reads (λ s found. found ≡ next s moment) (R.shows self.old) (R.shows self.new) result }
        ensures least { Reads (λ s found. IsNext s moment found) (R.shows self.old) (R.shows self.new) result }
        ensures fault { IfErr result (λ f. may_come f ≡ true) }
    {
        self.next_receipt(moment, None)
    }

    /// What is to be sent next at this moment behind what was looked at last. Behind a receipt it is the due receipt of the next
    /// number, or else the due document of the least number. Behind a document it is the due document of the next number. Or it is
    /// nothing. Where nothing was looked at it is what `next` answers. Answers Memory, Disk, Refused or Damaged.
    pub fn next_behind(
        &mut self,
        moment: Moment,
        last: Option<Next>,
    ) -> Result<Option<Next>, StoreFault>
        ensures next { Reads (λ s found. found ≡ next_behind s moment last) (R.shows self.old) (R.shows self.new) result }
        ensures fault { IfErr result (λ f. may_come f ≡ true) }
    {
        match last {
            Some(Next::Document(number)) => self.next_document(moment, Some(number)),
            Some(Next::Receipt(number)) => self.next_receipt(moment, Some(number)),
            None => self.next_receipt(moment, None),
        }
    }

    /// The due receipt of the least number behind that one, or else the due document of the least number.
    fn next_receipt(
        &mut self,
        moment: Moment,
        behind: Option<u64>,
    ) -> Result<Option<Next>, StoreFault>
        ensures next { Reads (λ s found. found ≡ next_from s moment behind) (R.shows self.old) (R.shows self.new) result }
        ensures fault { IfErr result (λ f. may_come f ≡ true) }
    {
        if let Some(number) = self.records.due_receipt(moment, behind)? {
            return Ok(Some(Next::Receipt(number)));
        }
        self.next_document(moment, None)
    }

    /// The due document of the least number behind that one.
    fn next_document(
        &mut self,
        moment: Moment,
        behind: Option<u64>,
    ) -> Result<Option<Next>, StoreFault>
        ensures next { Reads (λ s found. found ≡ document_from s moment behind) (R.shows self.old) (R.shows self.new) result }
        ensures fault { IfErr result (λ f. may_come f ≡ true) }
    {
        match self.records.due_out(moment, behind)? {
            Some(number) => Ok(Some(Next::Document(number))),
            None => Ok(None),
        }
    }

    /// The address that a request for it goes to: its partner's, or that at which its receipt is asked for. None where there is no such
    /// entry, where the document's partner isn't agreed, and where no receipt is asked for at an address. Answers Memory, Disk, Refused
    /// or Damaged.
    pub fn destination(
        &mut self,
        alloc: Global,
        agreements: &Agreements,
        what: Next,
    ) -> Result<Option<Bytes>, StoreFault>
        ensures destination { Reads (λ s found. found ≡ destination agreements.now s what)
            (R.shows self.old) (R.shows self.new) result }
        ensures fault { IfErr result (λ f. may_come f ≡ true) }
    {
        destination(&mut self.records, alloc, agreements, what)
    }

    /// The listing that is asked for, a line each, in order of number. Answers Memory, Disk, Refused or Damaged.
    pub fn listing(&mut self, alloc: Global, filter: Filter) -> Result<String, StoreFault>
        ensures listing { Reads (λ s text. string_bytes text
            ≡ listing_text filter s) (R.shows self.old) (R.shows self.new) result }
        ensures fault { IfErr result (λ f. may_come f ≡ true) }
    {
        match filter {
            Filter::Outbox(wanted) => viewing::sent_listing(&mut self.records, alloc, wanted),
            Filter::Inbox => viewing::received_listing(&mut self.records, alloc),
        }
    }

    /// How much is outstanding, a line for each of five counts, and the lines of the documents that are under way and due at this
    /// moment. Answers Memory, Disk, Refused or Damaged.
    pub fn outstanding(&mut self, alloc: Global, moment: Moment) -> Result<String, StoreFault>
        ensures outstanding { Reads (λ s text. string_bytes text
            ≡ outstanding_text s moment) (R.shows self.old) (R.shows self.new) result }
        ensures fault { IfErr result (λ f. may_come f ≡ true) }
    {
        viewing::outstanding(&mut self.records, alloc, moment)
    }

    /// What `show` tells of the document of this number in the outbox, a line each; None where there is no such document. Answers
    /// Memory, Disk, Refused or Damaged.
    pub fn show(&mut self, alloc: Global, number: u64) -> Result<Option<String>, StoreFault>
        ensures shown { Reads (λ s text. option_map string_bytes text
            ≡ show_text s number) (R.shows self.old) (R.shows self.new) result }
        ensures fault { IfErr result (λ f. may_come f ≡ true) }
    {
        viewing::show(&mut self.records, alloc, number)
    }

    /// The listing for programs: an object in each line. Answers Memory, Disk, Refused or Damaged.
    pub fn listing_in_objects(
        &mut self,
        alloc: Global,
        filter: Filter,
    ) -> Result<Vec<u8>, StoreFault>
        ensures listing { Reads (λ s text. text.items
            ≡ object_lines (listing_objects filter s)) (R.shows self.old) (R.shows self.new) result }
        ensures fault { IfErr result (λ f. may_come f ≡ true) }
    {
        as2_json::listing_in_objects(&mut self.records, alloc, filter)
    }

    /// How much is outstanding, for programs: the counts in one object, and one for each document that is under way and due at this moment.
    /// Answers Memory, Disk, Refused or Damaged.
    pub fn outstanding_in_objects(
        &mut self,
        alloc: Global,
        moment: Moment,
    ) -> Result<Vec<u8>, StoreFault>
        ensures outstanding { Reads (λ s text. text.items
            ≡ object_lines (outstanding_objects s moment)) (R.shows self.old) (R.shows self.new) result }
        ensures fault { IfErr result (λ f. may_come f ≡ true) }
    {
        as2_json::outstanding_in_objects(&mut self.records, alloc, moment)
    }

    /// What `show` tells of the document of this number in the outbox, for programs: an object in a line; None where there is no such
    /// document. Answers Memory, Disk, Refused or Damaged.
    pub fn show_in_objects(
        &mut self,
        alloc: Global,
        number: u64,
    ) -> Result<Option<Vec<u8>>, StoreFault>
        ensures shown { Reads (λ s text. option_map (λ t. t.items) text
            ≡ option_map object_line (shown_object s number)) (R.shows self.old) (R.shows self.new) result }
        ensures fault { IfErr result (λ f. may_come f ≡ true) }
    {
        as2_json::show_in_objects(&mut self.records, alloc, number)
    }

    /// The content of the received document of this number; None where there is no such entry. Answers Memory, Disk, Refused or Damaged.
    pub fn fetch(&mut self, alloc: Global, number: u64) -> Result<Option<Vec<u8>>, StoreFault>
        ensures fetched { Reads (λ s content. option_map (λ v. v.items) content
            ≡ fetch s number) (R.shows self.old) (R.shows self.new) result }
        ensures fault { IfErr result (λ f. may_come f ≡ true) }
    {
        viewing::fetch(&mut self.records, alloc, number)
    }

    /// Takes the events one after the other: each is answered, or is a fault of the records and changes nothing. Memory means
    /// that nothing has happened.
    pub fn play(
        &mut self,
        alloc: Global,
        agreements: &Agreements,
        events: Vec<Event>,
    ) -> Result<Vec<Result<Answer, StoreFault>>, Memory>
        ensures each { IfOk result
            (λ said. TakesEvents R.shows agreements.now events.items said.items self.old self.new) }
        ensures played { IfOk result (λ said. Plays R.shows agreements.now events.items said.items self.old self.new) }
        ensures nothing { OnErr result (self.new ≡ self.old) }
    {
        let mut said = Vec::with_capacity(alloc, events.len())?;
        'events: for event in events {
            said.push_reserved(self.step(alloc, agreements, event));
        }
        Ok(said)
    }
}
