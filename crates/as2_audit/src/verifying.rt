//! The whole of the records, looked through: a line for each finding, and how many entries there are.
ghost use Rattle.std.specs.Prelude.{◌≡◌, ◌++◌, IfErr, IfOk, OnOk, length, string_bytes, true};
ghost use Rattle.std.specs.List.{flat_map};
ghost use Rattle.as2_records.specs.Calls.{Reads};
ghost use Rattle.as2_records.specs.Standing.{may_come};
ghost use Rattle.as2_audit.specs.Audits.{findings};
ghost use Rattle.as2_audit.specs.Texts.{finding_line, summary_line, verification};

use crate::audit::{add_received_findings, add_sent_findings};
use crate::discrepancies::add_discrepancy;
use crate::findings::Finding;
use crate::watch::Watch;
use as2_exchange::StoreFault;
use as2_records::Records;
use as2_text::Memory;
use std::alloc::{AllocError, Global};

/// What a verification came to.
#[derive(Drop)]
pub struct Verification {
    /// A line for each finding, and one for all.
    pub text: Vec<u8>,
    /// How many findings there are.
    pub findings: u64,
}

/// The line of a finding.
fn finding_line(alloc: Global, finding: Finding) -> Result<String, AllocError>
    ensures { IfOk result (λ line. string_bytes line ≡ finding_line finding) }
{
    let word = finding.mailbox.word();
    let number = finding.number;
    let wrong = finding.fault.text();
    format!(in alloc; "{word} {number}: {wrong}\n")
}

/// The line of how many entries there are, and how many findings.
fn summary_line(alloc: Global, received: u64, sent: u64, found: u64) -> Result<String, AllocError>
    ensures { IfOk result (λ line. string_bytes line ≡ summary_line received sent found) }
{
    format!(in alloc; "verified: {received} received, {sent} sent, {found} findings\n")
}

/// Appends the line of a finding.
fn add_finding(alloc: Global, text: &mut Vec<u8>, finding: Finding) -> Result<(), Memory>
    ensures { OnOk result (text.new.items ≡ text.old.items ++ finding_line finding) }
{
    let line = finding_line(alloc, finding)?;
    text.extend_from_slice(line.as_bytes())?;
    Ok(())
}

/// Appends the lines of findings.
fn add_findings(alloc: Global, text: &mut Vec<u8>, findings: &[Finding]) -> Result<(), Memory>
    ensures { OnOk result (text.new.items ≡ text.old.items ++ flat_map finding_line findings.now) }
{
    for finding in findings {
        add_finding(alloc, text, *finding)?;
    }
    Ok(())
}

/// The lines of findings, and the one of how many entries there are.
fn lines(alloc: Global, findings: &[Finding], received: u64, sent: u64) -> Result<Vec<u8>, Memory>
    ensures { IfOk result (λ text. text.items
        ≡ flat_map finding_line findings.now ++ summary_line received sent (length findings.now)) }
{
    let mut text = Vec::new(alloc);
    add_findings(alloc, &mut text, findings)?;
    let summary = summary_line(alloc, received, sent, findings.len() as u64)?;
    text.extend_from_slice(summary.as_bytes())?;
    Ok(text)
}

/// Looks through all entries of the records, those that were received first, each in order of number. Of each it tells what is wrong
/// by its own words. Behind them it tells the first that doesn't agree with what is kept beside it. Answers Memory, Disk, Refused or Damaged.
pub fn verify<R: Records, W: Watch>(
    records: &mut R,
    alloc: Global,
    watch: &mut W,
) -> Result<Verification, StoreFault>
    ensures verified { Reads (λ s v. (v.text.items ≡ verification s)
        × (v.findings ≡ length (findings s))) (R.shows records.old) (R.shows records.new) result }
    ensures may { IfErr result (λ f. may_come f ≡ true) }
{
    let mut findings = Vec::new(alloc);
    let received = add_received_findings(records, alloc, &mut findings, watch)?;
    let sent = add_sent_findings(records, alloc, &mut findings, watch)?;
    add_discrepancy(records, alloc, &mut findings)?;
    let text = lines(alloc, findings.as_slice(), received, sent)?;
    Ok(Verification {
        text,
        findings: findings.len() as u64,
    })
}
