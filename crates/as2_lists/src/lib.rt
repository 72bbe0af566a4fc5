//! Records in memory, small: a list of each box. They are for tests, scripts and benchmarks of the exchange machine, and to
//! be compared with the records in SQLite. A stop of the computer leaves nothing of them.
#![tactic(auto)]

mod copies;
mod due;
mod inbox;
mod lists;
mod outbox;
mod rounds;
mod rows;

pub use lists::Lists;
