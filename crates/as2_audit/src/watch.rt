//! Who watches how far a look through the records has come.

use crate::findings::Mailbox;

/// Somebody who watches how far a look through the records has come.
pub trait Watch {
    /// So many entries of all of this box were looked at.
    fn looked_at(&mut self, mailbox: Mailbox, entries: u64, all: u64);
}

/// Nobody watches.
#[derive(Clone, Copy, Debug)]
pub struct Unwatched;

impl Watch for Unwatched {
    fn looked_at(&mut self, _mailbox: Mailbox, _entries: u64, _all: u64) {}
}
