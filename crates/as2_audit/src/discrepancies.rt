//! Entries that don't agree with what is kept beside them, as findings.
ghost use Rattle.std.specs.Prelude.{◌≡◌, ◌++◌, IfErr, OnOk, true};
ghost use Rattle.as2_records.specs.Calls.{Reads};
ghost use Rattle.as2_records.specs.Standing.{may_come};
ghost use Rattle.as2_audit.specs.Discrepancies.{finding_of, findings_of};

use crate::fault::Fault;
use crate::findings::{Finding, Mailbox, append};
use as2_exchange::StoreFault;
use as2_records::{Discrepancy, Records};
use std::alloc::Global;

/// The finding of a discrepancy.
fn finding_of(discrepancy: Discrepancy) -> Finding
    ensures { result ≡ finding_of discrepancy }
{
    let (mailbox, number, fault) = match discrepancy {
        Discrepancy::ReceivedNumber(number) => (Mailbox::Inbox, number, Fault::NeverGiven),
        Discrepancy::SentNumber(number) => (Mailbox::Outbox, number, Fault::NeverGiven),
        Discrepancy::ReceivedWait(number) => (Mailbox::Inbox, number, Fault::WaitsOtherwise),
        Discrepancy::SentWait(number) => (Mailbox::Outbox, number, Fault::WaitsOtherwise),
    };
    Finding {
        mailbox,
        number,
        fault,
    }
}

/// Appends the finding of a discrepancy, where there is one. Memory where it runs out.
fn add(findings: &mut Vec<Finding>, discrepancy: Option<Discrepancy>) -> Result<(), StoreFault>
    ensures found { OnOk result (findings.new.items ≡ findings.old.items ++ findings_of discrepancy) }
    ensures may { IfErr result (λ f. may_come f ≡ true) }
{
    match discrepancy {
        Some(discrepancy) => append(findings, finding_of(discrepancy)),
        None => Ok(()),
    }
}

/// Appends the finding of the first discrepancy between the entries of the records and what is kept beside them, where there is one. Records
/// that stand for a state have none. Answers Memory, Disk, Refused or Damaged.
pub fn add_discrepancy<R: Records>(
    records: &mut R,
    alloc: Global,
    findings: &mut Vec<Finding>,
) -> Result<(), StoreFault>
    ensures none { Reads (λ s done. findings.new.items
        ≡ findings.old.items) (R.shows records.old) (R.shows records.new) result }
    ensures may { IfErr result (λ f. may_come f ≡ true) }
{
    let discrepancy = records.discrepancy(alloc)?;
    add(findings, discrepancy)
}
