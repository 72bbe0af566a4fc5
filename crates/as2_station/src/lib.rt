//! The station: the exchange machine over its records. Each event is a step of the machine, and the records then rest on
//! the state that it leaves. Or it is a fault of theirs, and they rest on the state before.
#![tactic(auto)]

mod agreed;
mod closing;
mod destinations;
mod owed;
mod receipts;
mod receiving;
mod recording;
mod resending;
mod said;
mod station;
mod submitting;
mod terms;
mod texts;
mod ticking;
mod trying;
mod viewing;

pub use as2_views::Filter;
pub use said::{Became, Begun, Ended, NewDocument, Resent, Submitted};
pub use station::Station;
