//! What was found, and where.
ghost use Rattle.std.specs.Prelude.{◌≡◌, ◌++◌, [], ◌∷◌, IfErr, OnOk, true};
ghost use Rattle.as2_records.specs.Standing.{may_come};
ghost use Rattle.as2_audit.specs.Texts.{mailbox_word};

use crate::fault::Fault;
use as2_exchange::StoreFault;

/// Whether a document was received, or is sent.
#[derive(Clone, Copy, Debug, PartialEq, Eq)]
pub enum Mailbox {
    /// It was received.
    Inbox,
    /// It is sent.
    Outbox,
}

impl Mailbox {
    /// The word for an entry of the box.
    pub fn word(self) -> &'static str
        ensures { result.now ≡ mailbox_word self }
    {
        match self {
            Mailbox::Inbox => "received",
            Mailbox::Outbox => "sent",
        }
    }
}

/// What is wrong with an entry of the records.
#[derive(Clone, Copy, Debug, PartialEq, Eq)]
pub struct Finding {
    /// Which box the entry stands in.
    pub mailbox: Mailbox,
    /// Its number.
    pub number: u64,
    /// What is wrong with it.
    pub fault: Fault,
}

/// Appends a finding. Memory where it runs out.
pub(crate) fn append(findings: &mut Vec<Finding>, finding: Finding) -> Result<(), StoreFault>
    ensures found { OnOk result (findings.new.items ≡ findings.old.items ++ finding ∷ []) }
    ensures may { IfErr result (λ f. may_come f ≡ true) }
{
    match findings.push(finding) {
        Ok(()) => Ok(()),
        Err(_) => Err(StoreFault::Memory),
    }
}
