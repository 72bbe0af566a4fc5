//! What a call is lent: memory, the agreements, and the moment.
use as2_agreement::Agreements;
use as2_text::Moment;
use std::alloc::Global;

/// The terms that an event is taken by.
#[derive(Drop)]
pub(crate) struct Terms<'a> {
    /// What gives memory.
    pub alloc: Global,
    /// What is agreed.
    pub agreements: &'a Agreements,
    /// The moment of the event.
    pub moment: Moment,
}
