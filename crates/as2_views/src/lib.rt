//! The listings of the station: lines of received and of sent documents, the counts of what is outstanding, and one document
//! in full. They are made of rows without contents, and need no store.
#![tactic(auto)]

mod counts;
mod document;
mod filter;
mod laws;
mod lists;
mod pieces;
mod rows;

pub use counts::add_counts;
pub use document::{add_document, add_name_line, add_number_line, add_size_line, add_text_line};
pub use filter::Filter;
pub use laws::{all_are_listed, lists_of_rows, numbers_rise, rows_give_lines};
pub use lists::{add_in_lines, add_out_lines, is_one_of, keep_outstanding};
pub use rows::{add_in_line, add_out_line};
