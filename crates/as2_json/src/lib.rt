//! The listings of the station for programs: one object of JSON a line, over the kit's `serde_json`.
#![tactic(auto)]

mod counts;
mod document;
mod findings;
mod laws;
mod lines;
mod listing;
mod lists;
mod rows;
mod verifying;
mod words;

pub use counts::add_counts_object;
pub use document::add_document_object;
pub use findings::{add_finding_object, add_verified_object};
pub use laws::{lines_read_back, listings_of_rows, listings_read_back, verifications_read_back};
pub use listing::{listing_in_objects, outstanding_in_objects, show_in_objects};
pub use lists::{add_in_objects, add_out_objects};
pub use rows::{add_in_object, add_out_object};
pub use verifying::verify_in_objects;
