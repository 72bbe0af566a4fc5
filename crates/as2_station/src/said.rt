//! What is said to each kind of event.
ghost use Rattle.std.specs.Prelude.{◌≡◌};
ghost use Rattle.as2_station.specs.Said.{said_to_begin, said_to_outcome, said_to_resend, said_to_submit};

use as2_exchange::{Answer, Job, Refusal};
use as2_mdn::Detail;
use as2_mic::Pieces;
use as2_text::AsName;

/// A document that is handed in for a partner.
#[derive(Drop)]
pub struct NewDocument {
    /// Who sends it.
    pub organization: AsName,
    /// Who is to get it.
    pub partner: AsName,
    /// Its content, of 1,048,576 bytes at most.
    pub content: Pieces,
}

/// What became of a try.
#[derive(Clone, Copy, Debug, PartialEq, Eq)]
pub enum Became {
    /// A receipt has settled the document so.
    Settled(Detail),
    /// The document or the receipt arrived.
    Delivered,
    /// It failed.
    TryFailed,
    /// What was tried had been settled before.
    AlreadySettled,
}

/// What a submission is answered by: the number of the document, or why it is refused.
pub type Submitted = Result<u64, Refusal>;

/// What the begin of a try is answered by: the request that is to be sent, or why none may be.
pub type Begun = Result<Job, Refusal>;

/// What the outcome of a try is answered by: what became of the try, or why it is refused.
pub type Ended = Result<Became, Refusal>;

/// The answer to a resend: done, or why it is refused.
pub type Resent = Result<(), Refusal>;

/// A submission's answer, as one to any event.
pub(crate) fn said_to_submit(submitted: Submitted) -> Answer
    ensures { result ≡ said_to_submit submitted }
{
    match submitted {
        Ok(number) => Answer::Submitted(number),
        Err(reason) => Answer::Refused(reason),
    }
}

/// A begin's answer, as one to any event.
pub(crate) fn said_to_begin(begun: Begun) -> Answer
    ensures { result ≡ said_to_begin begun }
{
    match begun {
        Ok(job) => Answer::Job(job),
        Err(reason) => Answer::Refused(reason),
    }
}

/// An outcome's answer, as one to any event.
pub(crate) fn said_to_outcome(ended: Ended) -> Answer
    ensures { result ≡ said_to_outcome ended }
{
    match ended {
        Ok(Became::Settled(detail)) => Answer::Settled(detail),
        Ok(Became::Delivered) => Answer::Delivered,
        Ok(Became::TryFailed) => Answer::TryFailed,
        Ok(Became::AlreadySettled) => Answer::AlreadySettled,
        Err(reason) => Answer::Refused(reason),
    }
}

/// A resend's answer, as one to any event.
pub(crate) fn said_to_resend(resent: Resent) -> Answer
    ensures { result ≡ said_to_resend resent }
{
    match resent {
        Ok(()) => Answer::Resent,
        Err(reason) => Answer::Refused(reason),
    }
}
