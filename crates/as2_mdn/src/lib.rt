//! Receipts: the outcome of a received document, the report that tells it, and what a receipt says of a document that
//! was sent (RFC 8098, RFC 4130 section 7).
#![tactic(auto)]

mod detail;
mod disposition;
mod laws;
mod outcome;
mod receipt;
mod report;
mod report_reader;
mod verdicts;

pub use detail::{Detail, DetailClass};
pub use disposition::{Disposition, DispositionFault};
pub use laws::{own_receipt, success_confirms};
pub use outcome::{Outcome, outcome_of};
pub use receipt::{MicPart, Receipt};
pub use report::{ReceiptMic, ReceiptOut, add_line, write_head_fields, write_receipt};
pub use report_reader::{ReportFault, is_plain_encoding, read_report};
pub use verdicts::{verdict, verdict_pieces};
