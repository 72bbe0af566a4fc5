//! The loop.
ghost use Rattle.std.specs.Prelude.{◌≡◌, IfOk};
ghost use Rattle.as2_live.specs.Living.{LivesOn};
ghost use Rattle.as2_loop.specs.Running.{CommitsTo, RunsOn, RunsTo, SettlesTo};

use crate::bounds::{
    ACCEPTS, ALONE, BYTES_OF_ALL, BYTES_OF_ONE, CONNECTIONS, CROWDED_IDLE, LOOK, PIECE, READS,
    REQUESTS, SHORT_IDLE, SHORT_LOOK, STOP, Waits,
};
use crate::clock::{Moments, Watch};
use crate::commands::{Attended, Basis, attend};
use crate::door::Door;
use crate::noting::Notes;
use crate::peer::{Peer, Phase};
use crate::peers::{Fate, Went, fate_of, is_between, is_over, read, write};
use crate::turns::Turns;
use as2_askers::Askers;
use as2_bounded::Bounded;
use as2_control::{Outcome, outcome_frame, read_demand};
use as2_exchange::StoreFault;
use as2_host::OpenStores;
use as2_hub::{Bounds, Hub};
use as2_links::LinkTable;
use as2_live::Live;
use as2_records::{Records, Rounds};
use as2_sender::{Occasion, Sender, link_of};
use mio::event::Event;
use mio::net::{TcpListener, TcpStream};
use mio::{Events, Interest, Poll, Token};
use std::alloc::Global;
use std::io;
use std::io::ErrorKind;
use std::time::Duration;

/// The token of the socket that listens. A connection's is its place.
const DOOR: Token = Token(usize::MAX);

/// The sockets of a station, and what is known of each.
#[derive(Drop)]
pub(crate) struct Shell {
    rt: HostRuntime,
    waits: Waits,
    watch: Watch,
    moments: Moments,
    notes: Notes,
    /// When the limits were looked at last, in milliseconds.
    looked: u64,
    /// When it is over with what is under way, in milliseconds, once the station is to stop.
    end: Option<u64>,
    poll: Poll,
    door: Door,
    askers: Askers,
    sender: Sender,
    peers: Vec<Option<Peer>>,
    turns: Turns,
    /// A place became free, which somebody may wait for.
    is_freed: bool,
    /// Somebody's bytes had no room, since others have too many that aren't answered.
    is_full: bool,
    /// All places are taken, and somebody may wait for one.
    is_crowded: bool,
    /// The records couldn't be reached.
    is_shut: bool,
    /// .. and that was noted.
    is_noted: bool,
    /// Up to when nothing is held back, in milliseconds, since a round was lost.
    alone: u64,
    buffer: Vec<u8>,
}

/// How much is read.
pub(crate) const BOUNDS: Bounds = Bounds {
    connections: CONNECTIONS,
    bytes_of_one: BYTES_OF_ONE,
    bytes_of_all: BYTES_OF_ALL,
    requests: REQUESTS,
};

/// The places that are looked at in a turn.
#[derive(Drop)]
struct Parted {
    /// Those whose next request is answered in the turn's round.
    ready: Vec<usize>,
    /// All of them, those that aren't answered first. The next turn looks at them in this order, so that nobody who waits is overtaken by
    /// one who was answered.
    order: Vec<usize>,
}

/// Parts these places: of the first that are ready, as many as one round takes, a request is answered.
fn part_ready(alloc: Global, hub: &Hub, places: &[usize]) -> io::Result<Parted> {
    let mut ready = Vec::new(alloc);
    let mut order = Vec::new(alloc);
    for at in places {
        if ready.len() < REQUESTS && hub.is_ready(*at) {
            ready.push(*at)?;
        } else {
            order.push(*at)?;
        }
    }
    order.extend_from_slice(&ready)?;
    Ok(Parted { ready, order })
}

/// Notes how many documents a tick gave up, where it gave up one.
fn note_tick(basis: &Basis, said: Result<u64, StoreFault>) {
    if let Ok(count) = said {
        if count > 0 {
            if let Ok(line) = format!(in basis.alloc; "tick {count} given up") {
                basis.log.add(line.as_str().as_bytes());
            }
        }
    }
}

/// Notes that a round was lost in which so many requests were answered.
fn note_lost(basis: &Basis, count: usize) {
    if let Ok(line) = format!(in basis.alloc;
        "store lost - a round of {count} answers wasn't committed"
    ) {
        basis.log.add(line.as_str().as_bytes());
    }
}

/// Notes what the system says of a connection.
fn mark(peer: &mut Peer, event: &Event) {
    let is_broken = event.is_error();
    peer.may_read = peer.may_read || event.is_readable() || event.is_read_closed() || is_broken;
    peer.has_shut = peer.has_shut || event.is_read_closed() || is_broken;
    peer.may_write = peer.may_write || event.is_writable() || is_broken;
}

/// What a station begins with.
#[derive(Drop)]
pub(crate) struct Sockets {
    /// Where partners connect.
    pub door: TcpListener,
    /// Where commands are asked for.
    pub askers: Askers,
    /// What sends.
    pub sender: Sender,
}

impl Shell {
    /// Over these sockets, with these waits.
    pub(crate) fn new(
        rt: &HostRuntime,
        waits: Waits,
        moments: Moments,
        sockets: Sockets,
    ) -> io::Result<Shell> {
        let alloc = rt.alloc();
        let Sockets {
            door,
            askers,
            sender,
        } = sockets;
        let mut socket = door;
        let mut askers = askers;
        let poll = Poll::new(rt)?;
        let registry = poll.registry();
        registry.register(&mut socket, DOOR, Interest::READABLE)?;
        askers.register(registry)?;
        let mut peers = Vec::new(alloc);
        for _ in 0..CONNECTIONS {
            peers.push(None)?;
        }
        Ok(Shell {
            rt: *rt,
            waits,
            watch: Watch::start(rt)?,
            moments,
            notes: Notes::new(rt)?,
            looked: 0,
            end: None,
            poll,
            door: Door::new(socket),
            askers,
            sender,
            peers,
            turns: Turns::new(alloc, CONNECTIONS)?,
            is_freed: false,
            is_full: false,
            is_crowded: false,
            is_shut: false,
            is_noted: false,
            alone: 0,
            buffer: Vec::from_elem(alloc, 0, PIECE)?,
        })
    }

    /// Turns until the station has stopped, or its records can't be reached, and gives it back; or the round of it that was lost.
    pub(crate) fn run<'b, R: Rounds + Drop, O: OpenStores>(
        &mut self,
        basis: &'b Basis,
        stores: &O,
        live: Live<'b, Bounded<R>>,
    ) -> io::Result<Result<Live<'b, Bounded<R>>, Live<'b, Bounded<R::Round>>>>
        ensures { IfOk result (RunsTo R.shows R.Round.shows basis.now live.entry) }
    {
        self.is_shut = false;
        let mut current = live;
        let mut events = Events::with_capacity(self.rt.alloc(), 1_024)?;
        for _ in 0..u64::MAX {
            self.wait(&mut events)?;
            let turned = match self.turn(basis, current, &events)? {
                Ok(turned) => turned,
                Err(round) => return Ok(Err(round)),
            };
            current = self.attend(basis, stores, turned)?;
            self.look(basis, &mut current)?;
            self.tell(basis);
            if self.is_shut || self.has_stopped() {
                break;
            }
        }
        Ok(Ok(current))
    }

    /// The records couldn't be reached.
    pub(crate) fn is_shut(&self) -> bool
        ensures { result ≡ self.now.is_shut }
    {
        self.is_shut
    }

    /// No link is open yet, nor any more.
    pub(crate) fn new_links(&mut self) -> io::Result<LinkTable> {
        self.sender.drop_all();
        match self.sender.table() {
            Ok(table) => Ok(table),
            Err(_) => Err(io::Error::from(ErrorKind::OutOfMemory)),
        }
    }

    /// The station has stopped: takes its socket away, and tells those who asked to stop.
    pub(crate) fn end(self) {
        let Shell { rt, askers, .. } = self;
        askers.end(&rt);
    }

    /// How long the next turn may wait, in milliseconds.
    fn most_wait(&self) -> u64 {
        if !self.turns.is_empty() || self.askers.has_more() || self.sender.has_more() {
            return 0;
        }
        let now = self.watch.now;
        if self.is_freed && self.door.is_open(now) {
            return 0;
        }
        let look = self.next_look().saturating_sub(now);
        let end = self.end.unwrap_or(u64::MAX).saturating_sub(now);
        let door = self.door.wait(now).unwrap_or(u64::MAX);
        look.min(end).min(door)
    }

    /// When the limits are looked at next, in milliseconds.
    fn next_look(&self) -> u64 {
        let every = if self.door.is_short { SHORT_LOOK } else { LOOK };
        self.looked.saturating_add(every)
    }

    /// Waits until something happens. A wait that was interrupted is begun anew, so that what came is read before any time is over.
    fn wait(&mut self, events: &mut Events<Global>) -> io::Result<()> {
        let most = Duration::from_millis(self.most_wait());
        for _ in 0..READS {
            match self.poll.poll(events, Some(most)) {
                Ok(()) => break,
                Err(error) if error.kind() == ErrorKind::Interrupted => {}
                Err(error) => return Err(error),
            }
        }
        self.watch.read(&self.rt)
    }

    /// One turn: what came is read, what waits is answered, and what is due begins. All of that is committed, and only then are its lines
    /// and its replies written. Or it couldn't be committed, and that round is given back.
    fn turn<'b, K: Rounds + Drop>(
        &mut self,
        basis: &'b Basis,
        live: Live<'b, K>,
        events: &Events<Global>,
    ) -> io::Result<Result<Live<'b, K>, Live<'b, K::Round>>>
        ensures { IfOk result (SettlesTo K.shows K.Round.shows live.entry) }
    {
        let mut live = live;
        let places = self.take_in(&mut live, events)?;
        let Parted { ready, order } = part_ready(self.rt.alloc(), live.hub(), &places)?;
        match self.settle(basis, live, &ready) {
            Ok(settled) => {
                let mut settled = settled;
                self.tell(basis);
                self.go_on_all(&mut settled, &order)?;
                Ok(Ok(settled))
            }
            Err(round) => Ok(Err(round)),
        }
    }

    /// Takes what came: who waits is accepted, and connections and links are read. The connections that are looked at in this turn.
    fn take_in<K: Rounds>(
        &mut self,
        live: &mut Live<'_, K>,
        events: &Events<Global>,
    ) -> io::Result<Vec<usize>>
        ensures lives { LivesOn K.shows live.old live.new }
    {
        self.mark_all(events)?;
        self.accept_all(live)?;
        let places = self.turns.begin();
        self.read_all(live, &places);
        self.sender.hear(live, self.watch.now);
        Ok(places)
    }

    /// Answers these places, and sees to the tries. Where that may be more than one thing to be committed, it is held back and committed
    /// at once. Where it can't be held back, or a round was lost a moment ago, each is committed alone.
    fn settle<'b, K: Rounds + Drop>(
        &mut self,
        basis: &'b Basis,
        live: Live<'b, K>,
        ready: &[usize],
    ) -> Result<Live<'b, K>, Live<'b, K::Round>>
        ensures { SettlesTo K.shows K.Round.shows live.entry result }
    {
        let is_single = ready.len() < 2 && !self.sender.has_due();
        if is_single || self.watch.now < self.alone {
            return Ok(self.work(basis, live, ready));
        }
        match live.hold() {
            Ok(round) => self.commit::<K>(basis, round, ready),
            Err(live) => Ok(self.work(basis, live, ready)),
        }
    }

    /// Answers these places in a round, sees to the tries, and commits it. Where that fails nothing of it goes out.
    fn commit<'b, K: Rounds + Drop>(
        &mut self,
        basis: &'b Basis,
        round: Live<'b, K::Round>,
        ready: &[usize],
    ) -> Result<Live<'b, K>, Live<'b, K::Round>>
        ensures { CommitsTo K.shows K.Round.shows round.entry result }
    {
        self.tell(basis);
        let round = self.work(basis, round, ready);
        match Live::<K>::commit(round) {
            Ok(live) => Ok(live),
            Err(round) => Err(self.lose(basis, round, ready.len())),
        }
    }

    /// Answers these places, ends the tries whose links are over, and begins what is due.
    fn work<'b, K: Records>(
        &mut self,
        basis: &'b Basis,
        live: Live<'b, K>,
        ready: &[usize],
    ) -> Live<'b, K>
        ensures { LivesOn K.shows live.entry result }
    {
        let mut live = live;
        self.answer(&mut live, ready);
        self.send(basis, &mut live);
        live
    }

    /// A round is lost, in which so many requests were answered. Its lines are thrown away, each connection is closed with no byte more,
    /// and the records are shut.
    fn lose<'b, K: Records>(
        &mut self,
        basis: &'b Basis,
        round: Live<'b, K>,
        count: usize,
    ) -> Live<'b, K>
        ensures { LivesOn K.shows round.entry result }
    {
        let _ = basis.log.take(basis.alloc);
        note_lost(basis, count);
        self.alone = self.watch.now.saturating_add(ALONE);
        let mut round = round;
        for at in 0..CONNECTIONS {
            self.close(&mut round, at);
        }
        self.shut(basis, false);
        self.tell(basis);
        round
    }

    /// Reads what came at these places.
    fn read_all<K: Rounds>(&mut self, live: &mut Live<'_, K>, places: &[usize])
        ensures lives { LivesOn K.shows live.old live.new }
    {
        for at in places {
            self.read_at(live, *at);
        }
    }

    /// Has a round of these places answered, where there are some.
    fn answer<K: Records>(&mut self, live: &mut Live<'_, K>, ready: &[usize])
        ensures lives { LivesOn K.shows live.old live.new }
    {
        if !ready.is_empty() {
            live.answer(self.moments.now(), ready);
            self.sender.wake();
        }
    }

    /// Goes on at these places.
    fn go_on_all<K: Rounds>(&mut self, live: &mut Live<'_, K>, places: &[usize]) -> io::Result<()>
        ensures lives { LivesOn K.shows live.old live.new }
    {
        for at in places {
            self.go_on_at(live, *at)?;
        }
        Ok(())
    }

    /// Notes what the system says of each socket.
    fn mark_all(&mut self, events: &Events<Global>) -> io::Result<()> {
        for event in events.iter() {
            let token = event.token();
            if token == DOOR {
                self.door.may_accept = true;
            } else if self.askers.mark(event) {
                continue;
            } else if let Some(at) = link_of(token) {
                self.sender.mark(at, event);
            } else if let Some(Some(peer)) = self.peers.get_mut(token.0) {
                mark(peer, event);
                self.turns.add(token.0)?;
            }
        }
        Ok(())
    }

    /// Gives an accepted connection this place.
    fn seat<K: Records>(
        &mut self,
        live: &mut Live<'_, K>,
        at: usize,
        stream: TcpStream,
    ) -> io::Result<()>
        ensures lives { LivesOn K.shows live.old live.new }
    {
        let mut stream = stream;
        let _ = stream.set_nodelay(true);
        let interest = Interest::READABLE | Interest::WRITABLE;
        let registry = self.poll.registry();
        if registry.register(&mut stream, Token(at), interest).is_err() {
            return Ok(());
        }
        if let Some(seat) = self.peers.get_mut(at) {
            live.open(at);
            *seat = Some(Peer::new(stream, self.watch.now));
            self.turns.add(at)?;
        }
        Ok(())
    }

    /// Accepts who waits, as far as there are places.
    fn accept_all<K: Rounds>(&mut self, live: &mut Live<'_, K>) -> io::Result<()>
        ensures lives { LivesOn K.shows live.old live.new }
    {
        self.is_freed = false;
        for _ in 0..ACCEPTS {
            if !self.door.is_open(self.watch.now) {
                return Ok(());
            }
            let Some(at) = live.hub().free_place() else {
                return Ok(());
            };
            if let Some(stream) = self.door.accept(self.watch.now) {
                self.seat(live, at, stream)?;
            }
        }
        Ok(())
    }

    /// Closes the connection at a place.
    fn close<K: Records>(&mut self, live: &mut Live<'_, K>, at: usize)
        ensures lives { LivesOn K.shows live.old live.new }
    {
        live.close(at);
        self.is_freed = true;
        if let Some(seat) = self.peers.get_mut(at) {
            *seat = None;
        }
    }

    /// Reads what came at a place.
    fn read_at<K: Rounds>(&mut self, live: &mut Live<'_, K>, at: usize)
        ensures lives { LivesOn K.shows live.old live.new }
    {
        let Some(Some(peer)) = self.peers.get_mut(at) else {
            return;
        };
        if peer.phase != Phase::Serving {
            return;
        }
        let went = read(live, at, peer, &mut self.buffer, self.watch.now);
        if went == Went::Broken {
            self.close(live, at);
        }
    }

    /// Writes what is to be written at a place, and sees to what becomes of it.
    fn go_on_at<K: Rounds>(&mut self, live: &mut Live<'_, K>, at: usize) -> io::Result<()>
        ensures lives { LivesOn K.shows live.old live.new }
    {
        let now = self.watch.now;
        let Some(Some(peer)) = self.peers.get_mut(at) else {
            return Ok(());
        };
        let fate = match write(live, at, peer, now) {
            Went::On => fate_of(live.hub(), at, peer, &mut self.buffer, now),
            Went::Broken => Fate::Closes,
        };
        match fate {
            Fate::Again => self.turns.add(at)?,
            Fate::Waits => {}
            Fate::Stuck => {
                self.is_full = true;
                self.turns.add(at)?;
            }
            Fate::Closes => self.close(live, at),
        }
        Ok(())
    }

    /// Attends to who asks at the control socket: one command a turn.
    fn attend<'b, R: Rounds + Drop, O: OpenStores>(
        &mut self,
        basis: &'b Basis,
        stores: &O,
        live: Live<'b, Bounded<R>>,
    ) -> io::Result<Live<'b, Bounded<R>>>
        ensures { IfOk result (RunsOn R.shows basis.now live.entry) }
    {
        let now = self.watch.now;
        let alloc = self.rt.alloc();
        self.askers.accept(alloc, self.poll.registry(), now);
        self.askers.go_on(&mut self.buffer, now);
        let Some(asked) = self.askers.next_asked(alloc) else {
            return Ok(live);
        };
        let Ok(demand) = read_demand(alloc, &asked.frame) else {
            self.askers.let_go(asked.seat);
            return Ok(live);
        };
        self.sender.wake();
        let attended = attend(basis, self.moments.now(), &demand, stores, live);
        let Attended {
            outcome,
            stops,
            live,
        } = attended;
        if stops {
            self.stop(now);
        } else {
            self.answer_asker(asked.seat, outcome);
        }
        match live {
            Some(live) => Ok(live),
            None => Err(io::Error::from(ErrorKind::Other)),
        }
    }

    /// Tells one who asked what came of it, or lets the one go.
    fn answer_asker(&mut self, seat: usize, outcome: Option<Outcome>) {
        let Some(outcome) = outcome else {
            self.askers.let_go(seat);
            return;
        };
        match outcome_frame(self.rt.alloc(), &outcome) {
            Ok(frame) => self.askers.answer(seat, frame, self.watch.now),
            Err(_) => self.askers.let_go(seat),
        }
    }

    /// The station is to stop: nobody is accepted any more, and what is under way has a while.
    fn stop(&mut self, now: u64) {
        self.door.shut();
        self.sender.end();
        self.looked = 0;
        if self.end.is_none() {
            self.end = Some(now.saturating_add(STOP));
        }
    }

    /// The station was to stop, and nothing is under way any more, or its time is over.
    fn has_stopped(&self) -> bool {
        match self.end {
            Some(end) => end <= self.watch.now || self.is_idle(),
            None => false,
        }
    }

    /// Nobody is connected, and no link is open.
    fn is_idle(&self) -> bool {
        self.sender.is_idle() && self.peers.iter().all(|peer| peer.is_none())
    }

    /// Ends the tries whose links are over, and begins what is due.
    fn send<K: Records>(&mut self, basis: &Basis, live: &mut Live<'_, K>)
        ensures lives { LivesOn K.shows live.old live.new }
    {
        let occasion = Occasion {
            moment: self.moments.now(),
            now: self.watch.now,
            registry: self.poll.registry(),
            log: &basis.log,
        };
        self.sender.turn(live, &occasion);
    }

    /// Writes the lines of what happened.
    fn tell(&mut self, basis: &Basis) {
        let lines = basis.log.take(basis.alloc);
        if !lines.is_empty() {
            let moment = self.moments.now();
            self.notes.note(basis.alloc, moment, &lines);
        }
    }

    /// Gives room to those who have none, and once in a while lets time pass: gives up documents whose time is over, and closes the
    /// connections whose time is over.
    fn look<K: Rounds>(&mut self, basis: &Basis, live: &mut Live<'_, K>) -> io::Result<()>
        ensures lives { LivesOn K.shows live.old live.new }
    {
        let now = self.watch.now;
        self.give_room(basis, live);
        if now < self.next_look() {
            return Ok(());
        }
        self.looked = now;
        self.mark_crowd(basis, live.hub(), now);
        self.look_at_all(basis, live)?;
        self.sender.look(now);
        let said = live.tick(self.moments.now());
        note_tick(basis, said);
        self.mind(basis, said.is_err());
        Ok(())
    }

    /// Looks whether the store can be gone on with.
    fn mind(&mut self, basis: &Basis, has_failed: bool) {
        let is_gone = !has_failed && !basis.is_in_place(&self.rt);
        if has_failed || is_gone {
            self.shut(basis, is_gone);
        }
    }

    /// The records can't be reached, or the store's file is another one by now. That is noted once, until the store is open again.
    fn shut(&mut self, basis: &Basis, is_gone: bool) {
        self.is_shut = !self.has_stopped();
        if !self.is_noted {
            self.is_noted = true;
            let line: &[u8] = if is_gone {
                b"store gone"
            } else {
                b"store shut"
            };
            basis.log.add(line);
        }
    }

    /// The store is open.
    pub(crate) fn note_open(&mut self, basis: &Basis) {
        self.is_noted = false;
        basis.log.add(b"store open");
    }

    /// The place whose request is furthest behind the least pace, among those that aren't whole and take room.
    fn slowest(&self, hub: &Hub) -> Option<usize> {
        let mut slowest = None;
        let mut first = u64::MAX;
        for at in 0..CONNECTIONS {
            if let Some(Some(peer)) = self.peers.get(at) {
                let is_part = hub.unanswered(at) >= PIECE && !hub.is_ready(at);
                if is_part && peer.paced < first {
                    first = peer.paced;
                    slowest = Some(at);
                }
            }
        }
        slowest
    }

    /// Looks at each place.
    fn look_at_all<K: Rounds>(&mut self, basis: &Basis, live: &mut Live<'_, K>) -> io::Result<()>
        ensures lives { LivesOn K.shows live.old live.new }
    {
        for at in 0..CONNECTIONS {
            self.look_at(basis, live, at)?;
        }
        Ok(())
    }

    /// Looks whether somebody waits who can't be accepted, since all places are taken or the system has no descriptor to give. Notes when
    /// that begins.
    fn mark_crowd(&mut self, basis: &Basis, hub: &Hub, now: u64) {
        let is_taken = self.door.is_open(now) && hub.free_place().is_none();
        let is_crowded = is_taken || self.door.is_short;
        if is_crowded && !self.is_crowded {
            let line: &[u8] = if is_taken {
                b"crowded - all connections are taken"
            } else {
                b"crowded - the system has no descriptor to give"
            };
            basis.log.add(line);
        }
        self.is_crowded = is_crowded;
    }

    /// Gives up the slowest request, if others have no room: a slow one holds its bytes for long, whoever sends it.
    fn give_room<K: Rounds>(&mut self, basis: &Basis, live: &mut Live<'_, K>)
        ensures lives { LivesOn K.shows live.old live.new }
    {
        if !self.is_full {
            return;
        }
        self.is_full = false;
        if let Some(at) = self.slowest(live.hub()) {
            basis.log.add(b"closed - to give room");
            self.close(live, at);
        }
    }

    /// Whether the place of a connection is wanted that waits for a request, and at which bytes came or went last at that time.
    fn is_wanted(&self, moved: u64) -> bool {
        let idle = if self.door.is_short {
            SHORT_IDLE
        } else {
            CROWDED_IDLE
        };
        let is_long = moved.saturating_add(idle) <= self.watch.now;
        self.end.is_some() || (self.is_crowded && is_long)
    }

    /// The same at one place.
    fn look_at<K: Rounds>(
        &mut self,
        basis: &Basis,
        live: &mut Live<'_, K>,
        at: usize,
    ) -> io::Result<()>
        ensures lives { LivesOn K.shows live.old live.new }
    {
        let Some(Some(peer)) = self.peers.get_mut(at) else {
            return Ok(());
        };
        let is_between = is_between(live.hub(), at, peer);
        let is_over = is_over(live.hub(), at, peer, self.waits, self.watch.now);
        let is_under_way = !is_between && peer.phase == Phase::Serving;
        let (moved, may_read) = (peer.moved, peer.may_read);
        if is_over && is_under_way {
            basis.log.add(b"closed - its time was over");
        }
        if is_over || (is_between && !may_read && self.is_wanted(moved)) {
            self.close(live, at);
            return Ok(());
        }
        if may_read {
            self.turns.add(at)?;
        }
        Ok(())
    }
}
