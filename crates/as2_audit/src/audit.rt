//! All entries of the records, one after the other.
ghost use Rattle.std.specs.Prelude.{◌≡◌, ◌++◌, IfErr, OnOk, length, true};
ghost use Rattle.as2_records.specs.Calls.{Reads};
ghost use Rattle.as2_records.specs.Standing.{may_come};
ghost use Rattle.as2_audit.specs.Audits.{finding_at, is_migrated, received_at, received_findings, sent_at, sent_findings};

use crate::fault::Fault;
use crate::findings::{Finding, Mailbox, append};
use crate::received::received_fault;
use crate::sent::sent_fault;
use crate::watch::Watch;
use as2_exchange::StoreFault;
use as2_records::Records;
use std::alloc::Global;

/// What is wrong with the received document of that number.
fn received_at<R: Records>(
    records: &mut R,
    alloc: Global,
    number: u64,
) -> Result<Option<Fault>, StoreFault>
    ensures fault { Reads (λ s fault. fault ≡ received_at s number) (R.shows records.old) (R.shows records.new) result }
    ensures may { IfErr result (λ f. may_come f ≡ true) }
{
    match records.find_in_number(alloc, number)? {
        Some(entry) => Ok(received_fault(&entry.posted)),
        None => Ok(None),
    }
}

/// What is wrong with the document of that number that is sent.
fn sent_at<R: Records>(
    records: &mut R,
    alloc: Global,
    migrated: bool,
    number: u64,
) -> Result<Option<Fault>, StoreFault>
    ensures fault { Reads (λ s fault. is_migrated s ≡ migrated
        → fault ≡ sent_at s number) (R.shows records.old) (R.shows records.new) result }
    ensures may { IfErr result (λ f. may_come f ≡ true) }
{
    match records.find_out(alloc, number)? {
        Some(document) => Ok(sent_fault(migrated, &document)?),
        None => Ok(None),
    }
}

/// Appends what is found of an entry, where something is wrong with it. Memory where it runs out.
fn add(
    findings: &mut Vec<Finding>,
    mailbox: Mailbox,
    number: u64,
    fault: Option<Fault>,
) -> Result<(), StoreFault>
    ensures found { OnOk result (findings.new.items ≡ findings.old.items ++ finding_at mailbox number fault) }
    ensures may { IfErr result (λ f. may_come f ≡ true) }
{
    let Some(fault) = fault else {
        return Ok(());
    };
    let finding = Finding {
        mailbox,
        number,
        fault,
    };
    append(findings, finding)
}

/// Appends what is found of all received documents, in order of number; how many there are. Behind each it tells `watch` how far it has
/// come. Answers Memory, Disk, Refused or Damaged; a part may be appended then.
pub fn add_received_findings<R: Records, W: Watch>(
    records: &mut R,
    alloc: Global,
    findings: &mut Vec<Finding>,
    watch: &mut W,
) -> Result<u64, StoreFault>
    ensures found { Reads (λ s count. (findings.new.items ≡ findings.old.items ++ received_findings s)
        × (count ≡ length s.inbox)) (R.shows records.old) (R.shows records.new) result }
    ensures may { IfErr result (λ f. may_come f ≡ true) }
{
    let rows = records.list_in(alloc)?;
    let all = rows.len() as u64;
    for (at, row) in rows.iter().enumerate() {
        let fault = received_at(records, alloc, row.number)?;
        add(findings, Mailbox::Inbox, row.number, fault)?;
        watch.looked_at(Mailbox::Inbox, at as u64 + 1, all);
    }
    Ok(all)
}

/// Appends what is found of all documents that are sent, in order of number; how many there are. Behind each it tells `watch` how far it
/// has come. Answers Memory, Disk, Refused or Damaged; a part may be appended then.
pub fn add_sent_findings<R: Records, W: Watch>(
    records: &mut R,
    alloc: Global,
    findings: &mut Vec<Finding>,
    watch: &mut W,
) -> Result<u64, StoreFault>
    ensures found { Reads (λ s count. (findings.new.items ≡ findings.old.items ++ sent_findings s)
        × (count ≡ length s.outbox)) (R.shows records.old) (R.shows records.new) result }
    ensures may { IfErr result (λ f. may_come f ≡ true) }
{
    let origin = records.origin()?;
    let migrated = origin != 0;
    let rows = records.list_out(alloc, None)?;
    let all = rows.len() as u64;
    for (at, row) in rows.iter().enumerate() {
        let fault = sent_at(records, alloc, migrated, row.number)?;
        add(findings, Mailbox::Outbox, row.number, fault)?;
        watch.looked_at(Mailbox::Outbox, at as u64 + 1, all);
    }
    Ok(all)
}
