//! Which host gets a link.

use crate::host::Host;
use crate::kinds::Kind;

/// A host that waits for a link, and may have one.
#[derive(Clone, Copy)]
pub(crate) struct Choice {
    /// Its place.
    pub at: usize,
    /// The kind of what waits.
    pub kind: Kind,
    /// How many links to it are open.
    open: usize,
    /// The turn in which it began to wait.
    since: u64,
}

/// The host of this place, if something of the kind waits for a link to it and it may have one.
fn choice_of(host: &Host, at: usize, kind: Kind) -> Option<Choice> {
    let queue = host.queue(kind);
    if queue.numbers.is_empty() || !host.may_have_more() {
        return None;
    }
    Some(Choice {
        at,
        kind,
        open: host.open,
        since: queue.since,
    })
}

/// Whether the first gets a link before the second: it has fewer, or as many and has waited longer.
fn is_before(one: Choice, other: Choice) -> bool {
    one.open < other.open || (one.open == other.open && one.since < other.since)
}

/// The one of the two that gets a link first.
pub(crate) fn first_of(one: Option<Choice>, other: Option<Choice>) -> Option<Choice> {
    match (one, other) {
        (Some(first), Some(second)) => { if is_before(second, first) { other } else { one } }
        (None, _) => other,
        (_, None) => one,
    }
}

/// The host that gets a link first, for what waits of this kind.
pub(crate) fn choose(hosts: &[Host], kind: Kind) -> Option<Choice> {
    let mut first = None;
    for at in 0..hosts.len() {
        first = first_of(first, choice_of(&hosts[at], at, kind));
    }
    first
}
