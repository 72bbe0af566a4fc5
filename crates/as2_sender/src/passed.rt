//! What was refused, and is passed over for a while.

use crate::bounds::PASSED;
use crate::kinds::{Kind, number_of};
use as2_exchange::Next;
use std::alloc::Global;
use std::collections::BTreeMap;

/// What is passed over: each number with the time until when, in milliseconds.
#[derive(Drop)]
pub(crate) struct Passed {
    receipts: BTreeMap<u64, u64>,
    documents: BTreeMap<u64, u64>,
}

impl Passed {
    /// Nothing is.
    pub(crate) fn new(alloc: Global) -> Passed {
        Passed {
            receipts: BTreeMap::new(alloc),
            documents: BTreeMap::new(alloc),
        }
    }

    /// Those of a kind.
    fn of(&self, kind: Kind) -> &BTreeMap<u64, u64> {
        match kind {
            Kind::Receipt => &self.receipts,
            Kind::Document => &self.documents,
        }
    }

    /// Whether it is passed over at this time.
    pub(crate) fn holds(&self, what: Next, now: u64) -> bool {
        match self.of(Kind::of(what)).get(&number_of(what)) {
            Some(until) => now < *until,
            None => false,
        }
    }

    /// Whether no more of its kind can be passed over.
    pub(crate) fn is_full(&self, what: Next) -> bool {
        self.of(Kind::of(what)).len() >= PASSED
    }

    /// Passes it over until then. If there is no room or no memory it isn't passed over.
    pub(crate) fn add(&mut self, what: Next, until: u64) {
        if self.is_full(what) {
            return;
        }
        let entries = match what {
            Next::Receipt(_) => &mut self.receipts,
            Next::Document(_) => &mut self.documents,
        };
        let _ = entries.insert(number_of(what), until);
    }

    /// Forgets those whose time is over.
    pub(crate) fn sweep(&mut self, now: u64) {
        self.receipts.retain(|_, until| now < *until);
        self.documents.retain(|_, until| now < *until);
    }
}
