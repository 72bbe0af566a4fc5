//! Sending beside all else.
ghost use Rattle.as2_live.specs.Living.{LivesOn};

use crate::aims::{Target, authority_in};
use crate::bounds::{BEGINS, LINKS, LOOKS, PIECE, REFUSED, STEPS};
use crate::hosts::Hosts;
use crate::kinds::{Kind, before};
use crate::line::{Dialled, Did, Line, LinkWaits, is_wanting};
use crate::names::{Found, Names};
use crate::notes::{note_barred, note_ended, note_failed, note_refused};
use crate::passed::Passed;
use crate::sweep::Sweep;
use crate::waiting::{Waiter, Waiting};
use as2_exchange::{Next, StoreFault};
use as2_front::Log;
use as2_links::LinkTable;
use as2_live::{Live, TryBegun};
use as2_records::{Records, Rounds};
use as2_sending::{LinkFault, Why};
use as2_text::{Memory, Moment};
use mio::event::Event;
use mio::net::TcpStream;
use mio::{Interest, Registry, Token};
use std::alloc::AllocError;
use std::net::SocketAddr;

/// The token of the link at place 0; that of another is as much behind it as its place.
const FIRST: usize = 1_000_000;

/// The place of the link that a token is of, if it is of one.
pub fn link_of(token: Token) -> Option<usize> {
    let at = token.0.checked_sub(FIRST)?;
    if at < LINKS { Some(at) } else { None }
}

/// Whether a try of it may begin at this moment.
fn is_due<K: Records>(live: &mut Live<'_, K>, what: Next, moment: Moment) -> bool
    ensures lives { LivesOn K.shows live.old live.new }
{
    match live.next_behind(moment, Some(before(what))) {
        Ok(Some(next)) => next == what,
        _ => false,
    }
}

/// The second before that moment.
fn second_before(moment: Moment) -> Moment {
    Moment::new(moment.seconds().saturating_sub(1)).unwrap_or(moment)
}

/// Begins to make a connection to that target. No byte of a request goes over it before its try has begun.
fn dial(
    rt: &HostRuntime,
    at: usize,
    target: Target,
    what: Next,
    occasion: &Occasion<'_>,
) -> Dialled {
    let mut stream = match TcpStream::connect(rt, target.address) {
        Ok(stream) => stream,
        Err(error) if is_wanting(&error) => return Dialled::Wanting,
        Err(_) => return Dialled::Failed,
    };
    let _ = stream.set_nodelay(true);
    let interest = Interest::READABLE | Interest::WRITABLE;
    let token = Token(FIRST.saturating_add(at));
    match occasion.registry.register(&mut stream, token, interest) {
        Ok(()) => {
            let kind = Kind::of(what);
            Dialled::Line(Line::new(stream, target.host, kind, occasion.now))
        }
        Err(_) => Dialled::Wanting,
    }
}

/// When something is done, and where it is noted.
#[derive(Drop)]
pub struct Occasion<'a> {
    /// The moment that is recorded.
    pub moment: Moment,
    /// The time of the loop, in milliseconds.
    pub now: u64,
    /// Where sockets are registered.
    pub registry: &'a Registry,
    /// Where lines are noted.
    pub log: &'a Log,
}

/// The sockets of the station's links, and what was looked at of what is due.
#[derive(Drop)]
pub struct Sender {
    rt: HostRuntime,
    waits: LinkWaits,
    hosts: Hosts,
    names: Names,
    lines: Vec<Option<Line>>,
    passed: Passed,
    waiting: Waiting,
    sweep: Sweep,
    /// The records failed as a try was to begin, and that was noted.
    has_failed: bool,
    /// No try begins before the next look, since the system had no socket to give or the records failed.
    is_paused: bool,
    /// No try begins any more.
    is_ending: bool,
    buffer: Vec<u8>,
}

impl Sender {
    /// No link is open, and nothing was looked at.
    pub fn new(rt: &HostRuntime, waits: LinkWaits, hosts: Hosts) -> Result<Sender, AllocError> {
        let alloc = rt.alloc();
        let mut lines = Vec::new(alloc);
        for _ in 0..LINKS {
            lines.push(None)?;
        }
        Ok(Sender {
            rt: *rt,
            waits,
            hosts,
            names: Names::new(rt),
            lines,
            passed: Passed::new(alloc),
            waiting: Waiting::new(alloc),
            sweep: Sweep::new(),
            has_failed: false,
            is_paused: false,
            is_ending: false,
            buffer: Vec::from_elem(alloc, 0, PIECE)?,
        })
    }

    /// The links that it opens.
    pub fn table(&self) -> Result<LinkTable, Memory> {
        LinkTable::new(self.rt.alloc(), LINKS)
    }

    /// Each link is given up without an outcome: its try is as one that a stop of the computer cut off.
    pub fn drop_all(&mut self) {
        for line in self.lines.iter_mut() {
            *line = None;
        }
        self.waiting.clear();
        self.sweep = Sweep::new();
    }

    /// No try begins any more.
    pub fn end(&mut self) {
        self.is_ending = true;
    }

    /// No link is open.
    pub fn is_idle(&self) -> bool {
        self.lines.iter().all(|line| line.is_none())
    }

    /// Something more may be due than was looked at.
    pub fn wake(&mut self) {
        self.sweep.wake();
    }

    /// Something is to be done without a wait.
    pub fn has_more(&self) -> bool {
        let is_marked = self.lines.iter().any(|line| match line {
            Some(line) => line.is_marked,
            None => false,
        });
        is_marked || self.has_due()
    }

    /// A turn may have something recorded: a link is over, or a try may begin.
    pub fn has_due(&self) -> bool {
        let is_over = self.lines.iter().any(|line| match line {
            Some(line) => line.is_over(),
            None => false,
        });
        is_over || self.may_begin()
    }

    /// Whether a link is free.
    fn has_free_link(&self) -> bool {
        self.lines.iter().any(|line| line.is_none())
    }

    /// Whether something that waits may have a link.
    fn may_serve(&self) -> bool {
        !self.is_paused && self.has_free_link() && self.waiting.is_ready()
    }

    /// Whether a try may begin, or something is to be looked at that may be due.
    fn may_begin(&self) -> bool {
        !self.is_ending && !self.is_paused && (!self.sweep.is_through() || self.may_serve())
    }

    /// Notes what the system says of the socket at a place.
    pub fn mark(&mut self, at: usize, event: &Event) {
        if let Some(Some(line)) = self.lines.get_mut(at) {
            line.mark(event);
        }
    }

    /// Goes on with each link of which the system says something. One that is over is marked as such, and `turn` ends it.
    pub fn hear<K: Rounds>(&mut self, live: &mut Live<'_, K>, now: u64)
        ensures lives { LivesOn K.shows live.old live.new }
    {
        for at in 0..LINKS {
            self.hear_at(live, at, now);
        }
    }

    /// Goes on with the link at a place.
    fn hear_at<K: Rounds>(&mut self, live: &mut Live<'_, K>, at: usize, now: u64)
        ensures lives { LivesOn K.shows live.old live.new }
    {
        for _ in 0..STEPS {
            if !self.step(live, at, now) {
                return;
            }
        }
    }

    /// What the socket at a place does: one call of it at most. None of a link that is over.
    fn try_line(&mut self, links: &LinkTable, at: usize, now: u64) -> Did {
        let Some(Some(line)) = self.lines.get_mut(at) else {
            return Did::Nothing;
        };
        let Some(link) = links.at(at) else {
            line.is_marked = false;
            return Did::Nothing;
        };
        if !line.is_marked || line.is_over() {
            line.is_marked = false;
            return Did::Nothing;
        }
        let did = line.go_on(link, &mut self.buffer, now);
        line.is_marked = !matches!(did, Did::Nothing);
        did
    }

    /// One step at a place. False: there is nothing more to be done now.
    fn step<K: Rounds>(&mut self, live: &mut Live<'_, K>, at: usize, now: u64) -> bool
        ensures lives { LivesOn K.shows live.old live.new }
    {
        match self.try_line(live.links(), at, now) {
            Did::Nothing => false,
            Did::Wrote(count) => {
                live.link_sent(at, count);
                true
            }
            Did::Read(count) => {
                let most = count.min(self.buffer.len());
                live.link_heard(at, &self.buffer[..most]);
                true
            }
            Did::Ended => {
                live.link_cut(at);
                true
            }
            Did::Over(fault) => {
                self.mark_over(at, fault);
                false
            }
        }
    }

    /// The link at a place is over, and why, where it brought no whole answer.
    fn mark_over(&mut self, at: usize, fault: LinkFault) {
        if let Some(Some(line)) = self.lines.get_mut(at) {
            line.over = Some(fault);
            line.is_marked = false;
        }
    }

    /// One turn: the tries end whose links are over, what is due is looked at, and links are given to what waits. No byte goes over a link in it.
    pub fn turn<K: Records>(&mut self, live: &mut Live<'_, K>, occasion: &Occasion<'_>)
        ensures lives { LivesOn K.shows live.old live.new }
    {
        self.end_all(live, occasion);
        self.look_on(live, occasion);
        self.serve_all(live, occasion);
    }

    /// Ends each try whose link is over.
    fn end_all<K: Records>(&mut self, live: &mut Live<'_, K>, occasion: &Occasion<'_>)
        ensures lives { LivesOn K.shows live.old live.new }
    {
        for at in 0..LINKS {
            self.end_at(live, at, occasion);
        }
    }

    /// The same at one place.
    fn end_at<K: Records>(&mut self, live: &mut Live<'_, K>, at: usize, occasion: &Occasion<'_>)
        ensures lives { LivesOn K.shows live.old live.new }
    {
        let Some(Some(line)) = self.lines.get(at) else {
            return;
        };
        if let Some(fault) = line.over {
            self.finish(live, at, fault, occasion);
        }
    }

    /// The socket at a place is closed. The place of the host that it was for, if there was one.
    fn close(&mut self, at: usize) -> Option<usize> {
        let line = self.lines.get_mut(at)?.take()?;
        self.waiting.closed(line.host, line.kind);
        self.is_paused = false;
        Some(line.host)
    }

    /// The link at a place is over: what it brought is the outcome of its try.
    fn finish<K: Records>(
        &mut self,
        live: &mut Live<'_, K>,
        at: usize,
        fault: LinkFault,
        occasion: &Occasion<'_>,
    )
        ensures lives { LivesOn K.shows live.old live.new }
    {
        let host = self.close(at);
        if let Some(ended) = live.end_try(at, occasion.moment, fault) {
            self.learn(host, ended.why);
            note_ended(occasion.log, self.rt.alloc(), &ended);
        }
    }

    /// Takes from a try whether its host hangs. One try that ran into its time limit is enough, since the next answer tells that the host is
    /// there again: a host that answers loses little. Any whole answer is one, whatever it says. A connection that was refused or broke tells
    /// neither.
    fn learn(&mut self, host: Option<usize>, why: Why) {
        let Some(host) = host else {
            return;
        };
        match why {
            Why::NoAnswer(LinkFault::Silent(_) | LinkFault::Slow(_) | LinkFault::NoConnection) => {
                self.waiting.learn(host, true);
            }
            Why::NoAnswer(_) => {}
            Why::Status(_) | Why::NoReceipt(_) => self.waiting.learn(host, false),
        }
    }

    /// Looks at some of what is due, even while all links are taken: a host must be known to wait to get the next one.
    fn look_on<K: Records>(&mut self, live: &mut Live<'_, K>, occasion: &Occasion<'_>)
        ensures lives { LivesOn K.shows live.old live.new }
    {
        for _ in 0..LOOKS {
            if self.is_ending || self.is_paused {
                return;
            }
            let Some(what) = self.sweep.next_due(live, occasion.moment, occasion.now) else {
                return;
            };
            self.look_at(live, what, occasion);
        }
    }

    /// Gives free links to what waits for one.
    fn serve_all<K: Records>(&mut self, live: &mut Live<'_, K>, occasion: &Occasion<'_>)
        ensures lives { LivesOn K.shows live.old live.new }
    {
        for _ in 0..BEGINS {
            if self.is_ending || !self.may_serve() {
                return;
            }
            let Some(waiter) = self.waiting.take() else {
                return;
            };
            self.serve(live, waiter, occasion);
        }
    }

    /// Begins a try of what waited, if it is still due: meanwhile a receipt may have come, say.
    fn serve<K: Records>(&mut self, live: &mut Live<'_, K>, waiter: Waiter, occasion: &Occasion<'_>)
        ensures lives { LivesOn K.shows live.old live.new }
    {
        if is_due(live, waiter.what, occasion.moment) {
            self.aim(live, waiter, occasion);
        }
    }

    /// Whether it was refused a while ago, or waits for a link.
    fn is_kept(&self, what: Next, now: u64) -> bool {
        self.passed.holds(what, now) || self.waiting.holds(what)
    }

    /// Looks at what is due. If a link is open for it, that may be over; otherwise a try begins, or waits for a link.
    fn look_at<K: Records>(&mut self, live: &mut Live<'_, K>, what: Next, occasion: &Occasion<'_>)
        ensures lives { LivesOn K.shows live.old live.new }
    {
        if self.is_kept(what, occasion.now) {
            return;
        }
        if let Some(at) = live.place_for(what) {
            self.cut(live, at, what, occasion);
            return;
        }
        let Ok(address) = live.destination(what) else {
            return;
        };
        self.seek(live, what, authority_in(&address), occasion);
    }

    /// Closes a link that is still open as its number is due again. It waits for the end of that second, since moments are whole seconds: a
    /// try that began late in one has its number due again up to a second before `retry_seconds` are over. Nothing begins beside an open
    /// link.
    fn cut<K: Records>(
        &mut self,
        live: &mut Live<'_, K>,
        at: usize,
        what: Next,
        occasion: &Occasion<'_>,
    )
        ensures lives { LivesOn K.shows live.old live.new }
    {
        if is_due(live, what, second_before(occasion.moment)) {
            let fault = self.fault_at(at, occasion.now);
            self.finish(live, at, fault, occasion);
        }
    }

    /// Why a link is closed whose number is due again: it brought no whole answer for so long.
    fn fault_at(&self, at: usize, now: u64) -> LinkFault {
        match self.lines.get(at) {
            Some(Some(line)) => LinkFault::Slow(line.stood(now) / 1_000),
            _ => LinkFault::NoAnswer,
        }
    }

    /// Begins a try of what goes to that authority, or has it wait for a link. Without an authority, the station says why no try begins.
    fn seek<K: Records>(
        &mut self,
        live: &mut Live<'_, K>,
        what: Next,
        authority: &str,
        occasion: &Occasion<'_>,
    )
        ensures lives { LivesOn K.shows live.old live.new }
    {
        let is_barred = Kind::of(what) == Kind::Receipt && !self.hosts.allow(authority);
        if authority.is_empty() || is_barred {
            self.fail(live, what, authority, occasion);
            return;
        }
        let Some(host) = self.waiting.place_of(authority, what) else {
            return;
        };
        if !self.may_open(host, what) {
            self.waiting.add(host, what);
            return;
        }
        self.aim(live, Waiter { host, what }, occasion);
    }

    /// Whether a link to that host may be opened for it at once: one is free, and nothing else waits for it.
    fn may_open(&self, host: usize, what: Next) -> bool {
        self.has_free_link() && !self.waiting.is_ready() && self.waiting.may_open(host, what)
    }

    /// Whether a try that goes nowhere may begin. What the station is to refuse begins only if it can be passed over afterwards.
    fn may_fail(&self, what: Next, authority: &str) -> bool {
        self.has_free_link() && !(authority.is_empty() && self.passed.is_full(what))
    }

    /// Begins a try that goes nowhere, since there is no authority or no receipt may be sent there.
    fn fail<K: Records>(
        &mut self,
        live: &mut Live<'_, K>,
        what: Next,
        authority: &str,
        occasion: &Occasion<'_>,
    )
        ensures lives { LivesOn K.shows live.old live.new }
    {
        if !self.may_fail(what, authority) {
            return;
        }
        if !authority.is_empty() {
            note_barred(occasion.log, self.rt.alloc(), what, authority);
        }
        self.begin(live, what, None, occasion);
    }

    /// Begins a try at its host, if the host's name may be looked up now. Otherwise it is found again later.
    fn aim<K: Records>(&mut self, live: &mut Live<'_, K>, waiter: Waiter, occasion: &Occasion<'_>)
        ensures lives { LivesOn K.shows live.old live.new }
    {
        let Waiter { host, what } = waiter;
        let is_posted = Kind::of(what) == Kind::Receipt;
        let name = self.waiting.name(host);
        match self.names.address(name, is_posted, occasion.now) {
            Found::At(address) => self.begin(live, what, Some(Target { address, host }), occasion),
            Found::Nowhere => self.begin(live, what, None, occasion),
            Found::Later => {}
        }
    }

    /// Waits until the next look, since the system has no socket to give. What was to go to the target waits with it.
    fn pause(&mut self, what: Next, target: Option<Target>) {
        self.is_paused = true;
        if let Some(Target { host, .. }) = target {
            self.waiting.put_back(Waiter { host, what });
        }
    }

    /// Begins a try of it, over a link to that target. Without one it has failed at once. If the system has no socket to give, or the records
    /// fail, nothing begins for now.
    fn begin<K: Records>(
        &mut self,
        live: &mut Live<'_, K>,
        what: Next,
        target: Option<Target>,
        occasion: &Occasion<'_>,
    )
        ensures lives { LivesOn K.shows live.old live.new }
    {
        let Some(at) = live.free_link() else {
            return;
        };
        let dialled = match target {
            Some(target) => dial(&self.rt, at, target, what, occasion),
            None => Dialled::Nowhere,
        };
        if matches!(dialled, Dialled::Wanting) {
            self.pause(what, target);
            return;
        }
        match live.begin_try(at, what, occasion.moment) {
            TryBegun::NoPlace => {}
            TryBegun::Begun => {
                self.has_failed = false;
                self.seat(live, at, dialled, occasion);
            }
            TryBegun::Refused(reason) => {
                note_refused(occasion.log, self.rt.alloc(), what, reason);
                self.passed.add(what, occasion.now.saturating_add(REFUSED));
            }
            TryBegun::Failed(fault) => self.note_failure(what, fault, occasion),
        }
    }

    /// The records failed as a try of it was to begin. That is noted once.
    fn note_failure(&mut self, what: Next, fault: StoreFault, occasion: &Occasion<'_>) {
        if !self.has_failed {
            note_failed(occasion.log, self.rt.alloc(), what, fault);
        }
        self.has_failed = true;
        self.is_paused = true;
    }

    /// Gives a link that was opened its socket. Without one its try has failed.
    fn seat<K: Records>(
        &mut self,
        live: &mut Live<'_, K>,
        at: usize,
        dialled: Dialled,
        occasion: &Occasion<'_>,
    )
        ensures lives { LivesOn K.shows live.old live.new }
    {
        match dialled {
            Dialled::Line(line) => self.put(at, line),
            Dialled::Nowhere => self.finish(live, at, LinkFault::UnknownHost, occasion),
            Dialled::Failed | Dialled::Wanting => {
                self.finish(live, at, LinkFault::NoConnection, occasion);
            }
        }
    }

    /// Puts a socket at its place.
    fn put(&mut self, at: usize, line: Line) {
        let (host, kind) = (line.host, line.kind);
        if let Some(seat) = self.lines.get_mut(at) {
            *seat = Some(line);
            self.waiting.opened(host, kind);
        }
    }

    /// Once in a while: links whose time is over are marked as over, and all that is due is looked at anew.
    pub fn look(&mut self, now: u64) {
        self.is_paused = false;
        self.passed.sweep(now);
        self.sweep.begin_anew(now);
        let waits = self.waits;
        for line in self.lines.iter_mut() {
            if let Some(line) = line {
                line.look(waits, now);
            }
        }
    }
}
