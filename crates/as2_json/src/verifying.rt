//! The whole of the records, looked through: an object for each finding, and one of how many entries there are.
ghost use Rattle.std.specs.Prelude.{◌≡◌, ◌++◌, [], ◌∷◌, IfErr, IfOk, OnOk, length, map, true};
ghost use Rattle.std.specs.List.{flat_map};
ghost use Rattle.as2_records.specs.Calls.{Reads};
ghost use Rattle.as2_records.specs.Standing.{may_come};
ghost use Rattle.as2_audit.specs.Audits.{findings};
ghost use Rattle.as2_json.specs.Lines.{object_line, object_lines};
ghost use Rattle.as2_json.specs.Listings.{verification_objects};
ghost use Rattle.as2_json.specs.Objects.{finding_object, verified_object};

use crate::findings::{add_finding_object, add_verified_object};
use as2_audit::{
    Finding, Verification, Watch, add_discrepancy, add_received_findings, add_sent_findings,
};
use as2_exchange::StoreFault;
use as2_records::Records;
use as2_text::Memory;
use std::alloc::Global;

/// Appends the objects of findings.
fn add_findings(text: &mut Vec<u8>, findings: &[Finding]) -> Result<(), Memory>
    ensures { OnOk result (text.new.items
        ≡ text.old.items ++ flat_map (λ f. object_line (finding_object f)) findings.now) }
{
    for finding in findings {
        add_finding_object(text, *finding)?;
    }
    Ok(())
}

/// The lines of findings, and the one of how many entries there are.
#[tactic(auto, using(crate::proofs::Endings::ended))]
fn objects(alloc: Global, findings: &[Finding], received: u64, sent: u64) -> Result<Vec<u8>, Memory>
    ensures { IfOk result (λ text. text.items
        ≡ object_lines (map finding_object findings.now ++ verified_object received sent (length findings.now) ∷ [])) }
{
    let mut text = Vec::new(alloc);
    add_findings(&mut text, findings)?;
    add_verified_object(&mut text, received, sent, findings.len() as u64)?;
    Ok(text)
}

/// Looks through all entries of the records, as `as2_audit::verify`, and tells what it finds in objects. Answers Memory, Disk, Refused or Damaged.
pub fn verify_in_objects<R: Records, W: Watch>(
    records: &mut R,
    alloc: Global,
    watch: &mut W,
) -> Result<Verification, StoreFault>
    ensures verified { Reads (λ s v. (v.text.items ≡ object_lines (verification_objects s))
        × (v.findings ≡ length (findings s))) (R.shows records.old) (R.shows records.new) result }
    ensures may { IfErr result (λ f. may_come f ≡ true) }
{
    let mut findings = Vec::new(alloc);
    let received = add_received_findings(records, alloc, &mut findings, watch)?;
    let sent = add_sent_findings(records, alloc, &mut findings, watch)?;
    add_discrepancy(records, alloc, &mut findings)?;
    let text = objects(alloc, findings.as_slice(), received, sent)?;
    Ok(Verification {
        text,
        findings: findings.len() as u64,
    })
}
