//! What a command line is lent: the streams of a console, and a host.

/// The streams of a console.
#[derive(Drop)]
pub struct Console<R, W, H, E> {
    /// Where requests are read.
    pub input: R,
    /// What a command has to say.
    pub output: W,
    /// What may help whoever looks on, and notes of replies.
    pub hints: H,
    /// Why something was refused or is faulty.
    pub errors: E,
}

/// What a command does its work with beside the records.
#[derive(Drop)]
pub struct Outside<F, N> {
    /// Files, which are read and made.
    pub files: F,
    /// Where connections and links come from.
    pub network: N,
}

/// A host: its stores of records, its files and its network.
#[derive(Drop)]
pub struct Host<F, O, N> {
    /// Stores, which are opened and closed by a path.
    pub stores: O,
    /// Files and the network.
    pub outside: Outside<F, N>,
}
