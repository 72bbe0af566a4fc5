//! The files of one document of the records.
ghost use Rattle.std.specs.Prelude.{◌≡◌, IfErr, option_map, true};
ghost use Rattle.as2_audit.specs.Audits.{is_migrated};
ghost use Rattle.as2_audit.specs.declared.findings.Mailbox.TheVariants as mailbox;
ghost use Rattle.as2_evidence.specs.Evidence.{AreFilesWhere, AreSentFiles, AreEvidenceFiles};
ghost use Rattle.as2_evidence.specs.Files.{files_of};
ghost use Rattle.as2_exchange.specs.State.{document};
ghost use Rattle.as2_records.specs.Calls.{Reads};
ghost use Rattle.as2_records.specs.Standing.{may_come};

use crate::files::NewFile;
use crate::received::received_files;
use crate::sent::sent_files;
use as2_agreement::Agreements;
use as2_audit::Mailbox;
use as2_exchange::StoreFault;
use as2_records::Records;
use std::alloc::Global;

/// The files of the received document of that number.
fn received_evidence<R: Records>(
    records: &mut R,
    alloc: Global,
    agreements: &Agreements,
    number: u64,
) -> Result<Option<Vec<NewFile>>, StoreFault>
    ensures files { Reads
        (λ s files. AreEvidenceFiles agreements.now s mailbox.Inbox number (option_map (λ v. files_of v.items) files))
        (R.shows records.old) (R.shows records.new) result }
    ensures may { IfErr result (λ f. may_come f ≡ true) }
{
    match records.find_in_number(alloc, number)? {
        Some(entry) => Ok(Some(received_files(alloc, agreements, entry)?)),
        None => Ok(None),
    }
}

/// The files of the document of that number that is sent.
fn sent_at<R: Records>(
    records: &mut R,
    alloc: Global,
    migrated: bool,
    number: u64,
) -> Result<Option<Vec<NewFile>>, StoreFault>
    ensures files { Reads
        (λ s files. AreFilesWhere (AreSentFiles migrated) (document s number)
        (option_map (λ v. files_of v.items) files))
        (R.shows records.old) (R.shows records.new) result }
    ensures may { IfErr result (λ f. may_come f ≡ true) }
{
    match records.find_out(alloc, number)? {
        Some(document) => Ok(Some(sent_files(alloc, migrated, document)?)),
        None => Ok(None),
    }
}

/// .. and whether the records were migrated is asked.
fn sent_evidence<R: Records>(
    records: &mut R,
    alloc: Global,
    number: u64,
) -> Result<Option<Vec<NewFile>>, StoreFault>
    ensures files { Reads
        (λ s files. AreFilesWhere (AreSentFiles (is_migrated s)) (document s number)
        (option_map (λ v. files_of v.items) files))
        (R.shows records.old) (R.shows records.new) result }
    ensures may { IfErr result (λ f. may_come f ≡ true) }
{
    let origin = records.origin()?;
    sent_at(records, alloc, origin != 0, number)
}

/// The files that show how the document of that number in that box stands: its content, its receipt and a page. None where no document
/// has the number. Answers Memory, Disk, Refused or Damaged.
pub fn evidence<R: Records>(
    records: &mut R,
    alloc: Global,
    agreements: &Agreements,
    mailbox: Mailbox,
    number: u64,
) -> Result<Option<Vec<NewFile>>, StoreFault>
    ensures files { Reads
        (λ s files. AreEvidenceFiles agreements.now s mailbox number (option_map (λ v. files_of v.items) files))
        (R.shows records.old) (R.shows records.new) result }
    ensures may { IfErr result (λ f. may_come f ≡ true) }
{
    match mailbox {
        Mailbox::Inbox => received_evidence(records, alloc, agreements, number),
        Mailbox::Outbox => sent_evidence(records, alloc, number),
    }
}
