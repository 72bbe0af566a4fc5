//! The command `verify`: the records, looked through.
ghost use Rattle.std.specs.Prelude.{◌≡◌, ◌⊎◌, Option, IfErr, IfSome, length, true};
ghost use Rattle.as2_audit.specs.Audits.{findings};
ghost use Rattle.as2_exchange.specs.State.{State};
ghost use Rattle.as2_records.specs.Calls.{Reads};
ghost use Rattle.as2_records.specs.Standing.{may_come};
ghost use Rattle.as2_desk.specs.Endings.{EndsRefused};
ghost use Rattle.as2_desk.specs.Formats.{verification_in};
ghost use Rattle.as2_desk.specs.Observed.{errors_of, console_outcome};
ghost use Rattle.as2_desk.specs.Statuses.{status_done, status_failed, status_refused};
ghost use Rattle.as2_desk.specs.Verifying.{PrintsAudit, Verifies, audit_status};
ghost use Rattle.as2_desk.specs.Written.{written_of};
ghost use Rattle.as2_desk.specs.declared.refusal.CommandFault.TheVariants.{Store as Failing};
ghost use Rattle.as2_host.specs.declared.stores.OpenFault.{OpenFault as TheFault};

use crate::console::Console;
use crate::refusal::{CommandFault, refuse};
use crate::status::{DONE, REFUSED, Ran};
use crate::terms::Terms;
use as2_audit::{Verification, Watch, verify};
use as2_commands::Format;
use as2_exchange::StoreFault;
use as2_host::OpenFault;
use as2_http::{Sink, push_all};
use as2_json::verify_in_objects;
use as2_records::Records;
use std::alloc::Global;

/// The status by how many findings there are.
fn audit_status(found: u64) -> u8
    ensures { result ≡ audit_status found }
{
    if found == 0 {
        return DONE;
    }
    REFUSED
}

/// What is found in the records, in that format.
fn audited<K: Records, P: Watch>(
    alloc: Global,
    format: Format,
    records: &mut K,
    watch: &mut P,
) -> Result<Verification, StoreFault>
    ensures audited { Reads (λ s v. (v.text.items ≡ verification_in format s)
        × (v.findings ≡ length (findings s))) (K.shows records.old) (K.shows records.new) result }
    ensures may { IfErr result (λ f. may_come f ≡ true) }
{
    match format {
        Format::Text => verify(records, alloc, watch),
        Format::Json => verify_in_objects(records, alloc, watch),
    }
}

/// Prints what was found, or says why it can't be told.
fn print_audit<W: Sink, E: Sink>(
    came: Result<Verification, StoreFault>,
    output: &mut W,
    errors: &mut E,
) -> Ran
    ensures status { (result.status ≡ status_done)
        ⊎ ((result.status ≡ status_refused) ⊎ (result.status ≡ status_failed)) }
    ensures prints { PrintsAudit came (written_of W.Sink output.old output.new)
        (written_of E.Sink errors.old errors.new) result }
    ensures store { result.status ≡ status_failed → (output.new ≡ output.old)
        × ((fault : TheFault) × EndsRefused (Failing fault) (written_of E.Sink errors.old errors.new) result) }
{
    let audit = match came {
        Ok(audit) => audit,
        Err(fault) => return refuse(CommandFault::Store(OpenFault::Store(fault)), errors),
    };
    if push_all(output, &audit.text).is_err() {
        return refuse(CommandFault::CannotWrite, errors);
    }
    Ran {
        status: audit_status(audit.findings),
        told: true,
    }
}

/// Looks through the records, and prints what is found. How far it has come is told to who looks on.
pub(crate) fn look_through<K: Records, R, W: Sink, H: Watch, E: Sink>(
    terms: &Terms<'_>,
    format: Format,
    records: &mut K,
    console: &mut Console<R, W, H, E>,
) -> Ran
    ensures status { (result.status ≡ status_done)
        ⊎ ((result.status ≡ status_refused) ⊎ (result.status ≡ status_failed)) }
    ensures unread { console.new.input ≡ console.old.input }
    ensures clean { (K.shows records.new).IsClean → (K.shows records.old).IsClean }
    ensures verifies { (known : Option State)
        → IfSome known (λ s. (K.shows records.new).IsClean × (K.shows records.old).Rests s)
        → Verifies format known
        (console_outcome W.Sink E.Sink console.old console.new (λ t. (K.shows records.new).Rests t))
        result }
    ensures store { result.status ≡ status_failed → (console.new.output ≡ console.old.output)
        × ((fault : TheFault) × EndsRefused (Failing fault) (errors_of E.Sink console.old console.new) result) }
{
    let came = audited(terms.alloc, format, records, &mut console.hints);
    print_audit(came, &mut console.output, &mut console.errors)
}
