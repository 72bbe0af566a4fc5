//! What the live station sends by itself: what is due begins as soon as it is, and goes over links of its own, beside all else.
#![tactic(auto)]

mod aims;
mod bounds;
mod choice;
mod host;
mod hosts;
mod kinds;
mod line;
mod names;
mod notes;
mod passed;
mod sender;
mod sweep;
mod waiting;
mod walk;

pub use hosts::Hosts;
pub use line::LinkWaits;
pub use sender::{Occasion, Sender, link_of};
