//! Entries of the exchange machine as rows of the station's tables, and back.
#![tactic(auto)]

mod cells;
mod codes;
mod contents;
mod evidence;
mod fault;
mod inbox;
mod optional;
mod outbox;
mod waiting;

pub use codes::{
    attempt_code, attempt_of_code, detail_code, detail_of_code, how_code, outcome_code,
    outcome_of_code, receipt_stage_code, receipt_stage_of_code,
};
pub use contents::content_in;
pub use evidence::EvidenceRow;
pub use fault::RowFault;
pub use inbox::read_in_row;
pub use optional::{digest_of, mic_of, url_of};
pub use outbox::read_out_row;
pub use waiting::Wait;
