//! Documents that were received.
ghost use Rattle.std.specs.Prelude.{◌≡◌};
ghost use Rattle.as2_audit.specs.Faults.{received_fault};

use crate::fault::Fault;
use as2_exchange::Posted;
use as2_mdn::Outcome;
use as2_posts::has_kept_mic;

/// What is wrong with a received document: a MIC is kept exactly of one that was processed, and is that of its content (RFC 4130,
/// section 7.3.1).
pub fn received_fault(posted: &Posted) -> Option<Fault>
    ensures { result ≡ received_fault posted.now }
{
    let is_processed = matches!(posted.outcome, Outcome::Processed);
    if is_processed && posted.mic.is_none() {
        return Some(Fault::NoMic);
    }
    if !is_processed && posted.mic.is_some() {
        return Some(Fault::StrayMic);
    }
    if !has_kept_mic(posted) {
        return Some(Fault::MicDiffers);
    }
    None
}
