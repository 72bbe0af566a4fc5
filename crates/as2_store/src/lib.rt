//! The records of the station in SQLite: the tables stand for a state of the exchange machine, and each call takes it to
//! the named next one or leaves it.
#![tactic(auto)]

mod adding;
mod adopting;
mod contents;
mod counters;
mod counting;
mod creating;
mod discrepancies;
mod documents;
mod due;
mod entries;
mod expiring;
mod fault;
mod inbox;
mod laws;
mod listing;
mod migrating;
mod numbers;
mod origin;
mod outbox;
mod owed;
mod progress;
mod reading;
mod resending;
mod rounds;
mod settled;
mod settling;
mod store;
mod submitting;
mod waiting;

pub use fault::fault_of;
pub use laws::one_state_stands;
pub use store::Store;
