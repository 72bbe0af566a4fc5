//! The command `check`: how many members agreements have, and what to be warned of.
ghost use Rattle.std.specs.Prelude.{◌≡◌, ◌⊎◌, IfOk, string_bytes};
ghost use Rattle.as2_desk.specs.Checks.{counts_line, is_elsewhere, warnings};
ghost use Rattle.as2_desk.specs.Runs.{PrintsCounts};
ghost use Rattle.as2_desk.specs.Statuses.{status_done, status_refused};
ghost use Rattle.as2_desk.specs.Written.{WritesIf, written_of};

use crate::refusal::{CommandFault, is_said, refuse};
use crate::status::{DONE, Ran};
use as2_agreement::Agreements;
use as2_http::{Sink, push_all};
use as2_text::Url;
use std::alloc::{AllocError, Global};

const WARNING: &str = "warning: return_url has not the path /as2; receipts sent there get 404\n";

/// The line that says how many organizations and partners there are.
fn counts(alloc: Global, agreements: &Agreements) -> Result<String, AllocError>
    ensures { IfOk result (λ line. string_bytes line ≡ counts_line agreements.now) }
{
    let (organizations, partners) = agreements.counts();
    format!(in alloc; "organizations {organizations}, partners {partners}\n")
}

/// Whether receipts are to be sent to another path than the station's.
fn returns_elsewhere(agreements: &Agreements) -> bool
    ensures { result ≡ is_elsewhere agreements.now.return_url }
{
    let Some(url) = agreements.return_url() else {
        return false;
    };
    match Url::parse(url.as_str().as_bytes()) {
        Some(url) => url.target() != b"/as2".as_slice(),
        None => false,
    }
}

/// Says what there is to be warned of, and tells whether that could be said.
fn are_warned<E: Sink>(agreements: &Agreements, errors: &mut E) -> bool
    ensures { WritesIf result (written_of E.Sink errors.old errors.new) (warnings agreements.now) }
{
    !returns_elsewhere(agreements) || is_said(WARNING, errors)
}

/// Tells how many organizations and partners there are.
pub(crate) fn check<W: Sink, E: Sink>(
    alloc: Global,
    agreements: &Agreements,
    output: &mut W,
    errors: &mut E,
) -> Ran
    ensures status { (result.status ≡ status_done) ⊎ (result.status ≡ status_refused) }
    ensures counts { PrintsCounts agreements.now (written_of W.Sink output.old output.new)
        (written_of E.Sink errors.old errors.new) result }
{
    let Ok(line) = counts(alloc, agreements) else {
        return refuse(CommandFault::Memory, errors);
    };
    if push_all(output, line.as_bytes()).is_err() {
        return refuse(CommandFault::CannotWrite, errors);
    }
    Ran {
        status: DONE,
        told: are_warned(agreements, errors),
    }
}
