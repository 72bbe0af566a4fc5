//! What a post is, and what is answered to it: the exchange machine's reading of a head and a body, and its answers. Also
//! the requests that are sent, and the heads of the answers to them. It has no store.
#![tactic(auto)]

mod answering;
mod documents;
mod encodings;
mod entry;
mod fields;
mod opening;
mod owed;
mod repeating;
mod replies;
mod sending;

pub use answering::{answer_to, receipt_out};
pub use documents::document;
pub use entry::{first_entry, is_requeued};
pub use opening::{Opened, open};
pub use owed::receipt_job;
pub use repeating::{has_kept_mic, repeats};
pub use replies::open_answer;
pub use sending::{document_job, out_id};
