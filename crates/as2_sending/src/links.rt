//! Links to partners.
ghost use Rattle.as2_exchange.specs.declared.answer.Job.{Job as TheJob};
ghost use Rattle.as2_exchange.specs.declared.event.TryAnswer.{TryAnswer as TheAnswer};

use as2_exchange::{Job, TryAnswer};
use std::alloc::Global;

/// Why a link brought no answer.
#[derive(Clone, Copy, Debug, PartialEq, Eq)]
pub enum LinkFault {
    /// The partner's host has no address.
    UnknownHost,
    /// Nobody listens at the partner's address.
    ConnectionRefused,
    /// No connection came about.
    NoConnection,
    /// The partner was silent for so many seconds, or took no bytes for so long.
    Silent(u64),
    /// The partner's answer wasn't whole after so many seconds.
    Slow(u64),
    /// The connection broke.
    Broken,
    /// What came isn't one whole answer of HTTP.
    NoAnswer,
}

/// What opens links to partners.
pub trait Links {
    // links answer so to a job, and are as those then
    ghost answers: { Self → TheJob → TheAnswer → Self → Type 0 };

    /// Opens a link to the authority of the job, sends the job's request over it, and gives what was answered. Whatever goes
    /// wrong is no answer.
    fn exchange(&mut self, alloc: Global, job: &Job) -> TryAnswer
        ensures { answers self.old job.now result self.new };

    /// Why the last exchange brought no answer, where it brought none.
    fn fault(&self) -> LinkFault;
}
