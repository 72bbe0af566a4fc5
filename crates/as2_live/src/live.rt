//! A live station, as whoever has its sockets drives it.
ghost use Rattle.std.specs.Prelude.{◌≡◌, ◌∷◌, ◌⊎◌, [], IfErr, IfOk, IfSome, min, is_none, is_some, length, position, slice_get, take, true};
ghost use Rattle.std.specs.List.{list_any};
ghost use Rattle.as2_hub.specs.Places.{is_vacant, output_at, places, room_in};
ghost use Rattle.as2_hub.specs.Happenings.{Closes};
ghost use Rattle.as2_hub.specs.Inputs.{comes_if, goes_to, opens_if};
ghost use Rattle.as2_exchange.specs.declared.answer.Answer.TheVariants.{Ticked};
ghost use Rattle.as2_exchange.specs.declared.fault.StoreFault.TheVariants.{Full};
ghost use Rattle.as2_station.specs.Theorem.{said_as};
ghost use Rattle.as2_records.specs.Calls.{Reads};
ghost use Rattle.as2_records.specs.Rounds.{StaysOpen};
ghost use Rattle.as2_records.specs.Standing.{may_come};
ghost use Rattle.as2_station.specs.Due.{destination, next_behind};
ghost use Rattle.as2_live.specs.Living.{AnswersPlaces, BeginsOn, EndsOn, IfFailed, IfPlace, LivesBy, LosesLive, PassesLive, Ticks, all_at_places, at_a_link};
ghost use Rattle.as2_links.specs.Happenings.{Cuts, Hears, Sends};
ghost use Rattle.as2_links.specs.Links.{MayOpen, awaits_answer, is_for, link_in, links_of, unsent_at};

use crate::tries::{EndedTry, TryBegun};
use as2_exchange::{Bytes, Next, StoreFault};
use as2_front::StationDesk;
use as2_hub::Hub;
use as2_links::{EndedLink, LinkTable};
use as2_records::{Records, Rounds};
use as2_sending::{LinkFault, why_of};
use as2_text::Moment;

/// A live station: its connections, the desk that answers their requests, and the links over which it sends. What happens is told to it by
/// whoever has the sockets, in any order.
#[derive(Drop)]
pub struct Live<'a, K: Records> {
    hub: Hub,
    desk: StationDesk<'a, K>,
    links: LinkTable,
}

impl<'a, K: Records> Live<'a, K> {
    /// These connections, over this desk, and these links.
    pub fn new(hub: Hub, desk: StationDesk<'a, K>, links: LinkTable) -> Live<'a, K>
        ensures hub { result.hub ≡ hub }
        ensures desk { result.desk ≡ desk.entry }
        ensures links { result.links ≡ links }
    {
        Live { hub, desk, links }
    }

    /// The desk alone. The connections and the links are let go, and what was to be written to them is gone with them.
    pub fn into_desk(self) -> StationDesk<'a, K>
        ensures { result ≡ self.entry.desk }
    {
        let Live { desk, .. } = self;
        desk
    }

    /// The first place at which no link is open.
    pub fn free_link(&self) -> Option<usize>
        ensures { result ≡ position is_none (links_of self.now.links) }
    {
        self.links.free_place()
    }

    /// The place of the link that is open for it.
    pub fn place_for(&self, what: Next) -> Option<usize>
        ensures { result ≡ position (is_for what) (links_of self.now.links) }
    {
        self.links.place_for(what)
    }

    /// Whether a link is open for it.
    pub fn is_open_for(&self, what: Next) -> bool
        ensures { result ≡ list_any (is_for what) (links_of self.now.links) }
    {
        self.links.is_open_for(what)
    }

    /// A connection is opened at this place. False: there is no such place, or somebody has it, and nothing changes.
    pub fn open(&mut self, at: usize) -> bool
        ensures vacant { result ≡ is_vacant (slice_get (places self.old.hub) at) }
        ensures desk { self.new.desk ≡ self.old.desk }
        ensures lives { LivesBy K.shows self.old (all_at_places (opens_if at result)) self.new }
    {
        self.hub.open(at)
    }

    /// It is closed.
    pub fn close(&mut self, at: usize)
        ensures desk { self.new.desk ≡ self.old.desk }
        ensures lives { LivesBy K.shows self.old (all_at_places (Closes at ∷ [])) self.new }
    {
        self.hub.close(at);
    }

    /// Takes bytes that came from it, as many of the first as may be read, and answers how many.
    pub fn hear(&mut self, at: usize, piece: &[u8]) -> usize
        ensures count { result ≡ min (room_in self.old.hub (slice_get (places self.old.hub) at)) (length piece.now) }
        ensures desk { self.new.desk ≡ self.old.desk }
        ensures lives { LivesBy K.shows self.old (all_at_places (comes_if true at (take result piece.now))) self.new }
    {
        self.hub.hear(at, piece)
    }

    /// Takes that this moment has come: what waited too long is given up. Answers how many documents were. A fault of the
    /// records may come in its place, and nothing is changed then.
    pub fn tick(&mut self, moment: Moment) -> Result<u64, StoreFault>
        ensures ticks { LivesBy K.shows self.old (Ticks moment (said_as Ticked result) ∷ []) self.new }
        ensures fault { IfErr result (λ f. (f ≡ Full) ⊎ (may_come f ≡ true)) }
    {
        self.desk.tick(moment)
    }

    /// A round, at this moment: what waits at these places is answered, a request of each and up to the bound.
    pub fn answer(&mut self, moment: Moment, ready: &[usize])
        ensures answers { AnswersPlaces K.shows self.old moment ready.now self.new }
    {
        self.desk.set_moment(moment);
        self.hub.round(&mut self.desk, ready);
    }

    /// What is to be sent next at this moment, behind what was looked at last; as the station answers it.
    pub fn next_behind(
        &mut self,
        moment: Moment,
        last: Option<Next>,
    ) -> Result<Option<Next>, StoreFault>
        ensures next { Reads (λ s found. found ≡ next_behind s moment last) (K.shows self.old.desk.station)
            (K.shows self.new.desk.station) result }
        ensures fault { IfErr result (λ f. may_come f ≡ true) }
        ensures lives { LivesBy K.shows self.old [] self.new }
    {
        self.desk.next_behind(moment, last)
    }

    /// The address that a request for it goes to, if there is one; as the station answers it.
    pub fn destination(&mut self, what: Next) -> Result<Option<Bytes>, StoreFault>
        ensures destination { Reads (λ s found. found ≡ destination self.old.desk.agreements.now s what)
            (K.shows self.old.desk.station) (K.shows self.new.desk.station) result }
        ensures fault { IfErr result (λ f. may_come f ≡ true) }
        ensures lives { LivesBy K.shows self.old [] self.new }
    {
        self.desk.destination(what)
    }

    /// Begins a try of it at this moment, and opens a link for it at this place: it is in the records before its request is handed out.
    /// NoPlace where no link can be opened there, or one is open for it, and then nothing is done.
    pub fn begin_try(&mut self, at: usize, what: Next, moment: Moment) -> TryBegun
        ensures begins { BeginsOn K.shows at what moment self.old self.new result }
        ensures place { IfPlace result (MayOpen self.old.links at what) }
        ensures fault { IfFailed result (λ f. (f ≡ Full) ⊎ (may_come f ≡ true)) }
    {
        if !self.links.may_open(at, what) {
            return TryBegun::NoPlace;
        }
        match self.desk.begin(what, moment) {
            Ok(Ok(job)) => {
                self.links.open(at, what, job);
                TryBegun::Begun
            }
            Ok(Err(reason)) => TryBegun::Refused(reason),
            Err(fault) => TryBegun::Failed(fault),
        }
    }

    /// Takes bytes that came over the link there. None is taken before its whole request was written, nor behind a whole answer.
    pub fn link_heard(&mut self, at: usize, piece: &[u8])
        ensures desk { self.new.desk ≡ self.old.desk }
        ensures lives { LivesBy K.shows self.old
            (at_a_link (awaits_answer (slice_get (links_of self.old.links) at)) (Hears at piece.now)) self.new }
    {
        self.links.hear(at, piece);
    }

    /// The partner sends no more over the link there.
    pub fn link_cut(&mut self, at: usize)
        ensures desk { self.new.desk ≡ self.old.desk }
        ensures lives { LivesBy K.shows self.old
            (at_a_link (awaits_answer (slice_get (links_of self.old.links) at)) (Cuts at)) self.new }
    {
        self.links.cut(at);
    }

    /// The link there is closed, and what it brought is taken at this moment as the outcome of its try. `fault` is why it brought no
    /// whole answer, where it brought none. None where no link is there.
    pub fn end_try(&mut self, at: usize, moment: Moment, fault: LinkFault) -> Option<EndedTry>
        ensures ends { EndsOn K.shows at moment fault self.old self.new result }
        ensures fault { IfSome result (λ ended. IfErr ended.said (λ f. (f ≡ Full) ⊎ (may_come f ≡ true))) }
    {
        let Some(EndedLink { what, got }) = self.links.end(at) else {
            return None;
        };
        let why = why_of(&got, fault);
        let said = self.desk.close(what, got, moment);
        Some(EndedTry { what, why, said })
    }
}

/// Bytes go only while nothing is held back. A live station in a round is one over `K::Round`, which has none of these calls. So code that
/// is generic over `K` can neither read what is to be written before the round is committed, nor say that it went.
impl<'a, K: Rounds> Live<'a, K> {
    /// The connections, to be looked at.
    pub fn hub(&self) -> &Hub
        ensures { result.now ≡ self.now.hub }
    {
        &self.hub
    }

    /// The links, to be looked at.
    pub fn links(&self) -> &LinkTable
        ensures { result.now ≡ self.now.links }
    {
        &self.links
    }

    /// Gives the connections, the desk and the links back.
    pub fn into_parts(self) -> (Hub, StationDesk<'a, K>, LinkTable)
        ensures hub { result.0 ≡ self.entry.hub }
        ensures desk { result.1 ≡ self.entry.desk }
        ensures links { result.2 ≡ self.entry.links }
    {
        let Live { hub, desk, links } = self;
        (hub, desk, links)
    }

    /// Begins a round of the records: what is written from now on is held back, to be committed at once. Where that fails it is given back.
    pub fn hold(self) -> Result<Live<'a, K::Round>, Live<'a, K>>
        ensures begun { IfOk result (λ round. PassesLive K.shows K.Round.shows self.entry round) }
        ensures open { IfOk result (λ round. StaysOpen (K.shows self.entry.desk.station)
            (K.Round.shows round.desk.station)) }
        ensures back { IfErr result (λ live. PassesLive K.shows K.shows self.entry live) }
    {
        let Live { hub, desk, links } = self;
        match desk.hold() {
            Ok(desk) => Ok(Live { hub, desk, links }),
            Err((desk, _)) => Err(Live { hub, desk, links }),
        }
    }

    /// Commits what was written in a round, and ends it. Where that fails the round is lost, and its records are shut.
    pub fn commit(round: Live<'a, K::Round>) -> Result<Live<'a, K>, Live<'a, K::Round>>
        ensures committed { IfOk result (λ live. PassesLive K.Round.shows K.shows round.entry live) }
        ensures still_open { IfOk result (λ live. StaysOpen (K.Round.shows round.entry.desk.station)
            (K.shows live.desk.station)) }
        ensures lost { IfErr result (λ left. LosesLive K.Round.shows round.entry left) }
    {
        let Live { hub, desk, links } = round;
        match StationDesk::<K>::commit(desk) {
            Ok(desk) => Ok(Live { hub, desk, links }),
            Err(desk) => Err(Live { hub, desk, links }),
        }
    }

    /// As many as this of the bytes that are to be written to it went, or all. Answers how many.
    pub fn sent(&mut self, at: usize, most: usize) -> usize
        ensures count { result ≡ min most (length (output_at (slice_get (places self.old.hub) at))) }
        ensures desk { self.new.desk ≡ self.old.desk }
        ensures lives { LivesBy K.shows self.old
            (all_at_places (goes_to at (take result (output_at (slice_get (places self.old.hub) at))))) self.new }
    {
        self.hub.sent(at, most)
    }

    /// As many as this of the bytes that are to be written to the link there went, or all.
    pub fn link_sent(&mut self, at: usize, most: usize)
        ensures desk { self.new.desk ≡ self.old.desk }
        ensures lives { LivesBy K.shows self.old (at_a_link (is_some (link_in (slice_get (links_of self.old.links) at)))
            (Sends at (take most (unsent_at (slice_get (links_of self.old.links) at))))) self.new }
    {
        self.links.sent(at, most);
    }
}
