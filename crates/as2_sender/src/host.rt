//! A host that something is sent to.

use crate::bounds::{LINKS_OF_HOST, LINKS_OF_HUNG};
use crate::kinds::Kind;
use std::alloc::Global;
use std::collections::VecDeque;

/// What waits for a link to one host, of one kind.
#[derive(Drop)]
pub(crate) struct Queue {
    /// The numbers, in the order in which they began to wait.
    pub numbers: VecDeque<u64>,
    /// The turn in which the host began to wait: as its first number came, or as it got its last link.
    pub since: u64,
}

/// A host that something is sent to.
#[derive(Drop)]
pub(crate) struct Host {
    /// Its name, and its port if it has one.
    pub name: String,
    /// How many links to it are open.
    pub open: usize,
    /// Whether each try since the last answer ran into its time limit, and there was one.
    pub is_hung: bool,
    /// Whether documents go to it.
    pub has_documents: bool,
    /// The turn in which it was looked up last.
    pub used: u64,
    /// Receipts that wait.
    pub receipts: Queue,
    /// Documents that wait.
    pub documents: Queue,
}

impl Queue {
    /// Nothing waits.
    fn new(alloc: Global) -> Queue {
        Queue {
            numbers: VecDeque::new(alloc),
            since: 0,
        }
    }
}

impl Host {
    /// A host that nothing is known of.
    pub(crate) fn new(alloc: Global, name: String) -> Host {
        Host {
            name,
            open: 0,
            is_hung: false,
            has_documents: false,
            used: 0,
            receipts: Queue::new(alloc),
            documents: Queue::new(alloc),
        }
    }

    /// What waits of this kind.
    pub(crate) fn queue(&self, kind: Kind) -> &Queue {
        match kind {
            Kind::Receipt => &self.receipts,
            Kind::Document => &self.documents,
        }
    }

    /// The same, to be changed.
    pub(crate) fn queue_mut(&mut self, kind: Kind) -> &mut Queue {
        match kind {
            Kind::Receipt => &mut self.receipts,
            Kind::Document => &mut self.documents,
        }
    }

    /// Nothing waits any more, and no link is open.
    pub(crate) fn clear(&mut self) {
        self.open = 0;
        self.receipts.numbers.clear();
        self.documents.numbers.clear();
    }

    /// Whether no link is open to it, and nothing waits for one.
    pub(crate) fn is_idle(&self) -> bool {
        self.open == 0 && self.receipts.numbers.is_empty() && self.documents.numbers.is_empty()
    }

    /// Whether it may have one link more.
    pub(crate) fn may_have_more(&self) -> bool {
        let most = if self.is_hung {
            LINKS_OF_HUNG
        } else {
            LINKS_OF_HOST
        };
        self.open < most
    }
}
