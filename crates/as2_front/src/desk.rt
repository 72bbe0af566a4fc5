//! The station as a desk: it answers the requests of many connections, one after the other.
ghost use Rattle.std.specs.Prelude.{◌≡◌, true, IfErr, IfOk, None, Some};
ghost use Rattle.as2_exchange.specs.declared.answer.Answer.TheVariants.{Ticked};
ghost use Rattle.as2_exchange.specs.declared.event.Event.TheVariants.{Tick};
ghost use Rattle.as2_records.specs.Calls.{Reads};
ghost use Rattle.as2_records.specs.Rounds.{StaysOpen};
ghost use Rattle.as2_records.specs.Standing.{may_come};
ghost use Rattle.as2_station.specs.Due.{destination, next_behind};
ghost use Rattle.as2_station.specs.Said.{begin_event, outcome_event, said_to_begin, said_to_outcome};
ghost use Rattle.as2_station.specs.Steps.{TakesEvent};
ghost use Rattle.as2_front.specs.Answers.{GivesReply, conduct_by};
ghost use Rattle.as2_front.specs.Rounds.{LosesDesk, PassesDesk};

use crate::log::{Log, LogLine};
use as2_agreement::Agreements;
use as2_exchange::{Bytes, HttpAnswer, Next, StoreFault, TryAnswer};
use as2_http::{Journal, identifier_told, respond};
use as2_hub::{Desk, Replied, Reply};
use as2_messages::{Form, Method, Refused, Request, Target, refusal, write_reply};
use as2_records::{Records, Rounds};
use as2_station::{Begun, Ended, Station};
use as2_text::Moment;
use std::alloc::Global;

/// The station, its agreements and the moment at which it answers. What it answers is in its records at once, so that the hub loses no
/// round. Where the records hold it back, it lasts from their commit on.
#[derive(Drop)]
pub struct StationDesk<'a, K: Records> {
    alloc: Global,
    agreements: &'a Agreements,
    moment: Moment,
    station: Station<K>,
    log: Option<&'a Log>,
}

impl<'a, K: Records> StationDesk<'a, K> {
    /// This station, over these agreements, at this moment.
    pub fn new(
        alloc: Global,
        agreements: &'a Agreements,
        moment: Moment,
        station: Station<K>,
    ) -> StationDesk<'a, K>
        ensures alloc { result.alloc ≡ alloc }
        ensures agreements { result.agreements.now ≡ agreements.now }
        ensures moment { result.moment ≡ moment }
        ensures station { result.station ≡ station }
        ensures log { result.log ≡ None }
    {
        StationDesk {
            alloc,
            agreements,
            moment,
            station,
            log: None,
        }
    }

    /// From now on a line is added to this log for each request that is answered, and for each beginning that is none.
    pub fn noting(self, log: &'a Log) -> StationDesk<'a, K>
        ensures alloc { result.alloc ≡ self.entry.alloc }
        ensures agreements { result.agreements ≡ self.entry.agreements }
        ensures moment { result.moment ≡ self.entry.moment }
        ensures station { result.station ≡ self.entry.station }
        ensures log { result.log ≡ Some log.entry }
    {
        let mut desk = self;
        desk.log = Some(log);
        desk
    }

    /// Adds a line to the log, where there is one.
    fn add_to_log(&self, line: LogLine, answer: &HttpAnswer) {
        let Some(log) = self.log else {
            return;
        };
        let mut line = line;
        line.note_answer(answer);
        log.add(line.text());
    }

    /// What is agreed.
    pub fn agreements(&self) -> &'a Agreements
        ensures { result.now ≡ self.now.agreements.now }
    {
        self.agreements
    }

    /// From now on it is this moment.
    pub fn set_moment(&mut self, moment: Moment)
        ensures { self.new ≡ record self.old { moment = moment } }
    {
        self.moment = moment;
    }

    /// Takes that this moment has come: what waited too long is given up. Answers how many documents were. A fault of the
    /// records may come in its place, and nothing is changed then.
    pub fn tick(&mut self, moment: Moment) -> Result<u64, StoreFault>
        ensures same { self.new ≡ record self.old { moment = moment; station = self.new.station } }
        ensures taken { TakesEvent self.old.agreements.now (Tick moment) Ticked (K.shows self.old.station)
            (K.shows self.new.station) result }
    {
        self.set_moment(moment);
        self.station.tick(self.agreements, moment)
    }

    /// What is to be sent next at this moment, behind what was looked at last; as the station answers it.
    pub fn next_behind(
        &mut self,
        moment: Moment,
        last: Option<Next>,
    ) -> Result<Option<Next>, StoreFault>
        ensures same { self.new ≡ record self.old { station = self.new.station } }
        ensures next { Reads (λ s found. found ≡ next_behind s moment last) (K.shows self.old.station)
            (K.shows self.new.station) result }
        ensures fault { IfErr result (λ f. may_come f ≡ true) }
    {
        self.station.next_behind(moment, last)
    }

    /// The address that a request for it goes to, if there is one; as the station answers it.
    pub fn destination(&mut self, what: Next) -> Result<Option<Bytes>, StoreFault>
        ensures same { self.new ≡ record self.old { station = self.new.station } }
        ensures destination { Reads (λ s found. found ≡ destination self.old.agreements.now s what)
            (K.shows self.old.station) (K.shows self.new.station) result }
        ensures fault { IfErr result (λ f. may_come f ≡ true) }
    {
        self.station.destination(self.alloc, self.agreements, what)
    }

    /// Begins a try of a receipt or a document at this moment: it is in the records before its request is handed out. A fault of the records
    /// may come in place of any other answer, and nothing is changed then.
    pub fn begin(&mut self, what: Next, moment: Moment) -> Result<Begun, StoreFault>
        ensures same { self.new ≡ record self.old { station = self.new.station } }
        ensures taken { TakesEvent self.old.agreements.now (begin_event what moment) said_to_begin
            (K.shows self.old.station) (K.shows self.new.station) result }
    {
        self.station
            .begin(self.alloc, self.agreements, what, moment)
    }

    /// Takes the outcome of a try at this moment. A fault of the records may come in place of any other answer, and nothing is changed then.
    pub fn close(&mut self, what: Next, got: TryAnswer, moment: Moment) -> Result<Ended, StoreFault>
        ensures same { self.new ≡ record self.old { station = self.new.station } }
        ensures taken { TakesEvent self.old.agreements.now (outcome_event what got moment) said_to_outcome
            (K.shows self.old.station) (K.shows self.new.station) result }
    {
        self.station
            .close(self.alloc, self.agreements, what, got, moment)
    }

    /// Gives the station back.
    pub fn into_station(self) -> Station<K>
        ensures { result ≡ self.entry.station }
    {
        self.station
    }

    /// The reply to what a connection begins with. Where memory for it isn't there, it is empty and the connection
    /// ends.
    fn reply(&self, form: Form, answer: &HttpAnswer, stays: bool) -> Reply
        ensures { GivesReply self.now.moment form answer.now stays result.text.items result.stays }
    {
        match write_reply(self.alloc, self.moment, form, answer) {
            Ok(text) => Reply { text, stays },
            Err(_) => Reply {
                text: Vec::new(self.alloc),
                stays: false,
            },
        }
    }
}

impl<'a, K: Rounds> StationDesk<'a, K> {
    /// Begins a round of the records: what is written from now on is held back, to be committed at once. Where that fails the desk is given
    /// back.
    pub fn hold(self) -> Result<StationDesk<'a, K::Round>, (StationDesk<'a, K>, StoreFault)>
        ensures begun { IfOk result (λ round. PassesDesk K.shows K.Round.shows self.entry round) }
        ensures open { IfOk result (λ round. StaysOpen (K.shows self.entry.station) (K.Round.shows round.station)) }
        ensures back { IfErr result (λ e. PassesDesk K.shows K.shows self.entry e.0) }
        ensures fault { IfErr result (λ e. may_come e.1 ≡ true) }
    {
        let StationDesk {
            alloc,
            agreements,
            moment,
            station,
            log,
        } = self;
        match station.into_records().hold() {
            Ok(records) => Ok(StationDesk {
                alloc,
                agreements,
                moment,
                station: Station::new(records),
                log,
            }),
            Err((records, fault)) => Err((
                StationDesk {
                    alloc,
                    agreements,
                    moment,
                    station: Station::new(records),
                    log,
                },
                fault,
            )),
        }
    }

    /// Commits what was written in a round, and ends it. Where that fails the round is lost, and its records are shut.
    pub fn commit(
        round: StationDesk<'a, K::Round>,
    ) -> Result<StationDesk<'a, K>, StationDesk<'a, K::Round>>
        ensures committed { IfOk result (λ desk. PassesDesk K.Round.shows K.shows round.entry desk) }
        ensures still_open { IfOk result (λ desk. StaysOpen (K.Round.shows round.entry.station)
            (K.shows desk.station)) }
        ensures lost { IfErr result (λ left. LosesDesk K.Round.shows round.entry left) }
    {
        let StationDesk {
            alloc,
            agreements,
            moment,
            station,
            log,
        } = round;
        match K::commit(station.into_records()) {
            Ok(records) => Ok(StationDesk {
                alloc,
                agreements,
                moment,
                station: Station::new(records),
                log,
            }),
            Err(records) => Err(StationDesk {
                alloc,
                agreements,
                moment,
                station: Station::new(records),
                log,
            }),
        }
    }
}

/// The line of a request up to its answer. Only of a post to the station's path it is told what its head tells.
fn begun_line(alloc: Global, request: &Request) -> LogLine {
    if request.method != Method::Post {
        return LogLine::new(alloc, b"request -");
    }
    if request.target != Target::Station {
        return LogLine::new(alloc, b"post -");
    }
    let mut line = LogLine::new(alloc, b"post ");
    line.note_name(request.fields.value(b"as2-from"));
    line.note(b" -> ");
    line.note_name(request.fields.value(b"as2-to"));
    line.note(b" ");
    line.note(identifier_told(request.fields.value(b"message-id")));
    line
}

impl<K: Records> Desk for StationDesk<'_, K> {
    ghost conduct = { conduct_by K.shows };

    fn answer(&mut self, request: Request) -> Replied {
        let form = Form {
            closes: false,
            to_head: request.method.is_head(),
        };
        let stays = !request.last;
        let line = begun_line(self.alloc, &request);
        let response = respond(
            self.alloc,
            self.agreements,
            self.moment,
            &mut self.station,
            request,
        );
        let answer = response.answer();
        self.add_to_log(line, &answer);
        Replied {
            reply: self.reply(form, &answer, stays),
            request: None,
        }
    }

    fn refuse(&mut self, refused: Refused) -> Vec<u8> {
        let form = Form {
            closes: true,
            to_head: refused.to_head,
        };
        let answer = refusal(refused.reason);
        self.add_to_log(LogLine::new(self.alloc, b"refused -"), &answer);
        self.reply(form, &answer, false).text
    }

    fn settle(&mut self) -> bool {
        true
    }
}
