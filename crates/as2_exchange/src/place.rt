//! Where a row stands in the tables of a store.

/// A table of a store.
#[derive(Clone, Copy, Debug, PartialEq, Eq)]
pub enum Table {
    /// The one row of the kind, the version and the next numbers.
    Meta,
    /// The entries of the inbox.
    Inbox,
    /// The pieces of their contents.
    InboxPiece,
    /// The documents of the outbox.
    Outbox,
    /// The pieces of their contents.
    OutboxPiece,
    /// The receipts that settled documents.
    Evidence,
    /// What waits: documents and receipts to be sent, receipts awaited, last tries.
    Waiting,
    /// The one row of the number below which receipts were recorded by the first version.
    Origin,
    /// The numbers of documents that were begun and are to be sent anew.
    Resent,
}

/// Where a row stands.
#[derive(Clone, Copy, Debug, PartialEq, Eq)]
pub struct RowPlace {
    /// The table that it is a row of.
    pub table: Table,
    /// The number of the entry that it is a row of; 0 where it has none that can be read.
    pub number: u64,
}
