//! What is due is sent: try by try, each begun at the station, exchanged over a link and closed by its outcome, until nothing
//! is due or something is refused.
#![tactic(auto)]

mod hints;
mod links;
mod sending;
mod sent;
mod telling;
mod turns;

pub use hints::{Why, is_hinted, why_of};
pub use links::{LinkFault, Links};
pub use sending::send;
pub use sent::{Sending, Sent};
pub use telling::line;
