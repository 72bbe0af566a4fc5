//! The links that are open, each at its place.
ghost use Rattle.std.specs.Prelude.{◌≡◌, ◌∷◌, ◌++◌, [], None, false, take, option_map, position, is_none, is_some, replicate, IfOk, IsTrue, slice_get, slice_set};
ghost use Rattle.as2_links.specs.Happenings.{LinkHappenings, Begins, Sends, Hears, Cuts, if_so};
ghost use Rattle.std.specs.List.{list_any};
ghost use Rattle.as2_links.specs.Links.{ChangesOnly, LinksStand, MayOpen, awaits_answer, ended_at, is_answered_at, is_for, link_in, links_of, unsent_at};

use crate::link::{EndedLink, Link};
use as2_exchange::{Job, Next};
use as2_text::Memory;
use std::alloc::Global;
use std::mem;

/// The links that are open, each at its place.
#[derive(Drop)]
pub struct LinkTable {
    alloc: Global,
    links: Vec<Option<Link>>,
}

impl LinkTable {
    /// So many places, and no link.
    pub fn new(alloc: Global, count: usize) -> Result<LinkTable, Memory>
        ensures vacant { IfOk result (λ table. links_of table ≡ replicate count None) }
        ensures stands { IfOk result (λ table. LinksStand table []) }
    {
        let mut links = Vec::new(alloc);
        for _ in 0..count {
            links.push(None)?;
        }
        Ok(LinkTable { alloc, links })
    }

    /// The first place at which no link is.
    pub fn free_place(&self) -> Option<usize>
        ensures { result ≡ position is_none (links_of self.now) }
    {
        self.links.iter().position(|link| link.is_none())
    }

    /// The place of the link that is open for it.
    pub fn place_for(&self, what: Next) -> Option<usize>
        ensures { result ≡ position (is_for what) (links_of self.now) }
    {
        self.links.iter().position(|link| is_for(what, link))
    }

    /// The link at this place.
    pub fn at(&self, at: usize) -> Option<&Link>
        ensures { option_map (λ link. link.now) result ≡ link_in (slice_get (links_of self.now) at) }
    {
        match self.links.get(at) {
            Some(Some(link)) => Some(link),
            _ => None,
        }
    }

    /// A link for it is open.
    pub fn is_open_for(&self, what: Next) -> bool
        ensures { result ≡ list_any (is_for what) (links_of self.now) }
    {
        self.links.iter().any(|link| is_for(what, link))
    }

    /// A link may be opened there for it: no link is there, and none is open for it.
    pub fn may_open(&self, at: usize, what: Next) -> bool
        ensures yes { IsTrue result → MayOpen self.now at what }
        ensures no { result ≡ false → ¬ (MayOpen self.now at what) }
    {
        match self.links.get(at) {
            Some(None) => !self.is_open_for(what),
            _ => false,
        }
    }

    /// A link is opened there for a try of it, whose request this is.
    pub fn open(&mut self, at: usize, what: Next, job: Job)
        requires free { MayOpen self.old at what }
        ensures stands { (h : LinkHappenings) → LinksStand self.old h → LinksStand self.new (Begins at what job ∷ h) }
        ensures only { ChangesOnly at self.old self.new }
        ensures awaits { is_answered_at (slice_get (links_of self.new) at) ≡ false }
    {
        self.links[at] = Some(Link::new(self.alloc, what, job));
    }

    /// As many as this of the bytes that are still to be written there went, or all. False: none did, and nothing changes.
    pub fn sent(&mut self, at: usize, most: usize) -> bool
        ensures there { result ≡ is_some (link_in (slice_get (links_of self.old) at)) }
        ensures stands { (h : LinkHappenings) → LinksStand self.old h → LinksStand self.new
            (if_so result (Sends at (take most (unsent_at (slice_get (links_of self.old) at)))) ++ h) }
        ensures only { ChangesOnly at self.old self.new }
        ensures none { result ≡ false → links_of self.new ≡ links_of self.old }
        ensures answer { is_answered_at (slice_get (links_of self.new) at)
            ≡ is_answered_at (slice_get (links_of self.old) at) }
    {
        if at >= self.links.len() {
            return false;
        }
        let Some(link) = &mut self.links[at] else {
            return false;
        };
        let count = link.unsent().len().min(most);
        link.sent(count);
        true
    }

    /// Takes bytes that came there. False: no link is there whose request was written and that awaits an answer, and nothing changes.
    pub fn hear(&mut self, at: usize, piece: &[u8]) -> bool
        ensures awaits { result ≡ awaits_answer (slice_get (links_of self.old) at) }
        ensures stands { (h : LinkHappenings) → LinksStand self.old h
            → LinksStand self.new (if_so result (Hears at piece.now) ++ h) }
        ensures only { ChangesOnly at self.old self.new }
        ensures none { result ≡ false → links_of self.new ≡ links_of self.old }
    {
        if at >= self.links.len() {
            return false;
        }
        let Some(link) = &mut self.links[at] else {
            return false;
        };
        if !link.has_sent() {
            return false;
        }
        link.hear(piece)
    }

    /// Takes that no more bytes come there. False: as `hear`.
    pub fn cut(&mut self, at: usize) -> bool
        ensures awaits { result ≡ awaits_answer (slice_get (links_of self.old) at) }
        ensures stands { (h : LinkHappenings) → LinksStand self.old h
            → LinksStand self.new (if_so result (Cuts at) ++ h) }
        ensures only { ChangesOnly at self.old self.new }
        ensures none { result ≡ false → links_of self.new ≡ links_of self.old }
    {
        if at >= self.links.len() {
            return false;
        }
        let Some(link) = &mut self.links[at] else {
            return false;
        };
        if !link.has_sent() {
            return false;
        }
        link.cut()
    }

    /// The link there has ended: what its try got. None: no link is there, and nothing changes.
    pub fn end(&mut self, at: usize) -> Option<EndedLink>
        ensures there { is_some result ≡ is_some (link_in (slice_get (links_of self.old) at)) }
        ensures stands { (h : LinkHappenings) → LinksStand self.old h → LinksStand self.new (ended_at at result ++ h) }
        ensures empties { links_of self.new ≡ slice_set (links_of self.old) at None }
    {
        if at >= self.links.len() {
            return None;
        }
        match mem::replace(&mut self.links[at], None) {
            Some(link) => Some(link.end()),
            None => None,
        }
    }
}

/// The link there is for it.
fn is_for(what: Next, link: &Option<Link>) -> bool
    ensures { result ≡ is_for what link.now }
{
    match link {
        Some(link) => link.what() == what,
        None => false,
    }
}
