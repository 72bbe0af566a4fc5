//! What waits for a link, by hosts.

use crate::bounds::{
    DOCUMENTS_OF_HOST, DOCUMENTS_WAITING, HOSTS, HOSTS_OF_RECEIPTS, LINKS_FOR_RECEIPTS,
    RECEIPTS_OF_HOST, RECEIPTS_WAITING,
};
use crate::choice::{Choice, choose, first_of};
use crate::host::Host;
use crate::kinds::{Kind, number_of};
use as2_exchange::Next;
use std::alloc::Global;
use std::collections::BTreeSet;

/// What waits for a link, by hosts: a free link goes to the host with the fewest links, and of these to the one that has waited longest. No
/// socket is known here.
#[derive(Drop)]
pub(crate) struct Waiting {
    alloc: Global,
    hosts: Vec<Host>,
    /// The receipts that wait, of all hosts.
    receipts: BTreeSet<u64>,
    /// The documents that wait, of all hosts.
    documents: BTreeSet<u64>,
    /// How many links are open for receipts.
    receipts_open: usize,
    /// Counts what happens, so that it has an order.
    turn: u64,
}

/// What waited for a link, and the place of its host.
#[derive(Clone, Copy)]
pub(crate) struct Waiter {
    /// The place of its host.
    pub host: usize,
    /// What is to be sent.
    pub what: Next,
}

impl Waiting {
    /// Nothing waits, and no link is open.
    pub(crate) fn new(alloc: Global) -> Waiting {
        Waiting {
            alloc,
            hosts: Vec::new(alloc),
            receipts: BTreeSet::new(alloc),
            documents: BTreeSet::new(alloc),
            receipts_open: 0,
            turn: 0,
        }
    }

    /// The next turn.
    fn next_turn(&mut self) -> u64 {
        self.turn = self.turn.saturating_add(1);
        self.turn
    }

    /// Whether it waits.
    pub(crate) fn holds(&self, what: Next) -> bool {
        match what {
            Next::Receipt(number) => self.receipts.contains(&number),
            Next::Document(number) => self.documents.contains(&number),
        }
    }

    /// The name of the host at this place.
    pub(crate) fn name(&self, at: usize) -> &str {
        match self.hosts.get(at) {
            Some(host) => host.name.as_str(),
            None => "",
        }
    }

    /// The place of the host of that name, to which this is to be sent. A host that isn't known gets one. None if there is no room for it.
    /// The place stays the host's own while links to it are open or something waits for one.
    pub(crate) fn place_of(&mut self, name: &str, what: Next) -> Option<usize> {
        let known = self
            .hosts
            .iter()
            .position(|host| host.name.as_str() == name);
        let at = match known {
            Some(at) => at,
            None => self.add_host(name, what)?,
        };
        let turn = self.next_turn();
        let host = self.hosts.get_mut(at)?;
        host.used = turn;
        host.has_documents = host.has_documents || Kind::of(what) == Kind::Document;
        Some(at)
    }

    /// Adds a host, if need be in place of one that is forgotten.
    fn add_host(&mut self, name: &str, what: Next) -> Option<usize> {
        let name = String::from_str(self.alloc, name).ok()?;
        let host = Host::new(self.alloc, name);
        if self.has_room(what) {
            self.hosts.push(host).ok()?;
            return self.hosts.len().checked_sub(1);
        }
        let at = self.forgotten(what)?;
        *self.hosts.get_mut(at)? = host;
        Some(at)
    }

    /// Whether a host more may be remembered. Those that only receipts go to, which anybody may name, leave room for the others.
    fn has_room(&self, what: Next) -> bool {
        let for_receipts = self.hosts.iter().filter(|host| !host.has_documents).count();
        self.hosts.len() < HOSTS
            && (Kind::of(what) == Kind::Document || for_receipts < HOSTS_OF_RECEIPTS)
    }

    /// The place of the host that was used least recently, among those that may be forgotten for this one. No host that documents go to is
    /// forgotten for a receipt.
    fn forgotten(&self, what: Next) -> Option<usize> {
        let is_document = Kind::of(what) == Kind::Document;
        let mut found = None;
        let mut least = u64::MAX;
        for at in 0..self.hosts.len() {
            let host = &self.hosts[at];
            let may_go = host.is_idle() && (is_document || !host.has_documents);
            if may_go && host.used < least {
                least = host.used;
                found = Some(at);
            }
        }
        found
    }

    /// Whether a link to the host at this place may be opened for it.
    pub(crate) fn may_open(&self, at: usize, what: Next) -> bool {
        let is_free = Kind::of(what) == Kind::Document || self.receipts_open < LINKS_FOR_RECEIPTS;
        match self.hosts.get(at) {
            Some(host) => is_free && host.may_have_more(),
            None => false,
        }
    }

    /// Whether no more of this kind may wait for a host for which so many do. The first one of a host always may, so that no host is passed
    /// over for the many of others.
    fn is_full(&self, kind: Kind, of_host: usize) -> bool {
        let (waiting, most, most_of_host) = match kind {
            Kind::Receipt => (self.receipts.len(), RECEIPTS_WAITING, RECEIPTS_OF_HOST),
            Kind::Document => (self.documents.len(), DOCUMENTS_WAITING, DOCUMENTS_OF_HOST),
        };
        of_host >= most_of_host || (of_host > 0 && waiting >= most)
    }

    /// Has it wait for a link to the host at this place. If there is no room or no memory it doesn't wait, and is found again later.
    pub(crate) fn add(&mut self, at: usize, what: Next) {
        let kind = Kind::of(what);
        let turn = self.next_turn();
        let Some(host) = self.hosts.get(at) else {
            return;
        };
        let of_host = host.queue(kind).numbers.len();
        if self.is_full(kind, of_host) || !self.keep(what) {
            return;
        }
        let Some(host) = self.hosts.get_mut(at) else {
            return;
        };
        let queue = host.queue_mut(kind);
        if of_host == 0 {
            queue.since = turn;
        }
        if queue.numbers.push_back(number_of(what)).is_err() {
            self.forget(what);
        }
    }

    /// Has it wait again as the next one of its host.
    pub(crate) fn put_back(&mut self, waiter: Waiter) {
        if !self.keep(waiter.what) {
            return;
        }
        let Some(host) = self.hosts.get_mut(waiter.host) else {
            return;
        };
        let queue = host.queue_mut(Kind::of(waiter.what));
        if queue.numbers.push_front(number_of(waiter.what)).is_err() {
            self.forget(waiter.what);
        }
    }

    /// Keeps that it waits. False if it did before, or if there is no memory.
    fn keep(&mut self, what: Next) -> bool {
        let kept = match what {
            Next::Receipt(number) => self.receipts.insert(number),
            Next::Document(number) => self.documents.insert(number),
        };
        kept.unwrap_or(false)
    }

    /// Keeps no more that it waits.
    fn forget(&mut self, what: Next) {
        match what {
            Next::Receipt(number) => self.receipts.remove(&number),
            Next::Document(number) => self.documents.remove(&number),
        };
    }

    /// The host that gets the next link, for what kind.
    fn choice(&self) -> Option<Choice> {
        let documents = choose(&self.hosts, Kind::Document);
        if self.receipts_open >= LINKS_FOR_RECEIPTS {
            return documents;
        }
        first_of(choose(&self.hosts, Kind::Receipt), documents)
    }

    /// Whether something waits that a free link may be opened for.
    pub(crate) fn is_ready(&self) -> bool {
        self.choice().is_some()
    }

    /// Takes what gets the next link. Its host begins to wait anew.
    pub(crate) fn take(&mut self) -> Option<Waiter> {
        let Choice { at, kind, .. } = self.choice()?;
        let turn = self.next_turn();
        let queue = self.hosts.get_mut(at)?.queue_mut(kind);
        let number = queue.numbers.pop_front()?;
        queue.since = turn;
        let what = kind.numbered(number);
        self.forget(what);
        Some(Waiter { host: at, what })
    }

    /// A link to the host at this place was opened.
    pub(crate) fn opened(&mut self, at: usize, kind: Kind) {
        if kind == Kind::Receipt {
            self.receipts_open = self.receipts_open.saturating_add(1);
        }
        if let Some(host) = self.hosts.get_mut(at) {
            host.open = host.open.saturating_add(1);
        }
    }

    /// A link to the host at this place was closed.
    pub(crate) fn closed(&mut self, at: usize, kind: Kind) {
        if kind == Kind::Receipt {
            self.receipts_open = self.receipts_open.saturating_sub(1);
        }
        if let Some(host) = self.hosts.get_mut(at) {
            host.open = host.open.saturating_sub(1);
        }
    }

    /// Notes that a try at the host of this place ran into its time limit, or that it brought a whole answer.
    pub(crate) fn learn(&mut self, at: usize, is_hung: bool) {
        if let Some(host) = self.hosts.get_mut(at) {
            host.is_hung = is_hung;
        }
    }

    /// Nothing waits any more, and no link is open. Which hosts hang is still known.
    pub(crate) fn clear(&mut self) {
        self.receipts.clear();
        self.documents.clear();
        self.receipts_open = 0;
        for host in self.hosts.iter_mut() {
            host.clear();
        }
    }
}
