//! Which listing is asked for.

use as2_mdn::DetailClass;

/// Which documents are listed.
#[derive(Clone, Copy, Debug, PartialEq, Eq)]
pub enum Filter {
    /// The documents that are sent: those of this state, or all.
    Outbox(Option<DetailClass>),
    /// The documents that were received.
    Inbox,
}
