//! How much is sent at once, and how long is waited for what.

/// Links that are open at once.
pub(crate) const LINKS: usize = 64;

/// .. to one host and port.
pub(crate) const LINKS_OF_HOST: usize = 16;

/// .. to one that is known to hang.
pub(crate) const LINKS_OF_HUNG: usize = 1;

/// .. for receipts.
pub(crate) const LINKS_FOR_RECEIPTS: usize = 32;

/// Numbers that are looked at in one turn.
pub(crate) const LOOKS: usize = 32;

/// Tries that waited for a link and begin in one turn.
pub(crate) const BEGINS: usize = 32;

/// How many times as long as a sweep took it rests before the next one.
pub(crate) const SWEEP_SHARE: u64 = 9;

/// Reads and writes of one link in one turn.
pub(crate) const STEPS: usize = 8;

/// Bytes that are read at once.
pub(crate) const PIECE: usize = 65_536;

/// How long a connection may take to be made, in milliseconds.
pub(crate) const CONNECT: u64 = 10_000;

/// How long what was refused is passed over, in milliseconds.
pub(crate) const REFUSED: u64 = 60_000;

/// How long an address that was looked up is gone by, in milliseconds.
pub(crate) const NAMED: u64 = 60_000;

/// How long a name isn't looked up again that took longer than `SLOW`, in milliseconds.
pub(crate) const SLOW_NAMED: u64 = 600_000;

/// The longest look-up that is none of a slow name, in milliseconds.
pub(crate) const SLOW: u64 = 1_000;

/// How long no other name that came in a post is looked up, in milliseconds.
pub(crate) const BETWEEN: u64 = 1_000;

/// Receipts that are passed over at most, and documents likewise.
pub(crate) const PASSED: usize = 8_192;

/// Documents that wait for a link, at most. The first one of a host may always wait.
pub(crate) const DOCUMENTS_WAITING: usize = 131_072;

/// .. to one host.
pub(crate) const DOCUMENTS_OF_HOST: usize = 16_384;

/// Receipts that do. Whoever posts can make them many.
pub(crate) const RECEIPTS_WAITING: usize = 16_384;

/// .. for a link to one host.
pub(crate) const RECEIPTS_OF_HOST: usize = 2_048;

/// Hosts that are remembered, at most. The agreements name 256 partners at most, so that there is always room for theirs.
pub(crate) const HOSTS: usize = 1_280;

/// .. of them that only receipts go to. Whoever posts names these.
pub(crate) const HOSTS_OF_RECEIPTS: usize = 1_024;

/// Names that are kept, at most.
pub(crate) const KEPT: usize = 1_024;
