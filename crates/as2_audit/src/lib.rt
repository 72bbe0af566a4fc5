//! What is wrong with the entries of the records, as far as their own words tell, and what is kept beside them.
#![tactic(auto)]

mod audit;
mod discrepancies;
mod fault;
mod findings;
mod laws;
mod received;
mod sent;
mod verifying;
mod watch;

pub use audit::{add_received_findings, add_sent_findings};
pub use discrepancies::add_discrepancy;
pub use fault::Fault;
pub use findings::{Finding, Mailbox};
pub use laws::passed_success_is_confirmed;
pub use received::received_fault;
pub use sent::sent_fault;
pub use verifying::{Verification, verify};
pub use watch::{Unwatched, Watch};
