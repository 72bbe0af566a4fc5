//! What a command does its work by.
ghost use Rattle.std.specs.Prelude.{◌≡◌};

use as2_agreement::Agreements;
use as2_commands::{FirstNumber, RunOptions};
use as2_text::Moment;
use std::alloc::Global;

/// The terms that a command works by: memory, the agreements, and the moment.
#[derive(Drop)]
pub(crate) struct Terms<'a> {
    /// What gives memory.
    pub alloc: Global,
    /// What is agreed.
    pub agreements: &'a Agreements,
    /// The moment of the command.
    pub moment: Moment,
}

impl<'a> Terms<'a> {
    /// The terms under these agreements, at that moment.
    pub(crate) fn of(alloc: Global, agreements: &'a Agreements, moment: Moment) -> Terms<'a>
        ensures agreements { result.agreements ≡ agreements.entry }
        ensures moment { result.moment ≡ moment }
    {
        Terms {
            alloc,
            agreements,
            moment,
        }
    }
}

/// The store that a command names.
#[derive(Drop)]
pub(crate) struct NamedStore<'a> {
    /// Its path; `:memory:` has none.
    pub path: &'a str,
    /// The number that a store begins with which is made.
    pub first: FirstNumber,
    /// The most MiB that its files may have with a content more.
    pub limit: u64,
}

impl<'a> NamedStore<'a> {
    /// The store of that path, as the options have it.
    pub(crate) fn of(path: &'a str, options: RunOptions) -> NamedStore<'a>
        ensures path { result.path ≡ path.entry }
        ensures first { result.first ≡ options.first }
        ensures limit { result.limit ≡ options.limit }
    {
        NamedStore {
            path,
            first: options.first,
            limit: options.limit,
        }
    }
}
