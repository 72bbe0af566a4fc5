//! Links to partners, each for one try: what is to be written to a link, and what is read from it. No socket is known here.
#![tactic(auto)]

mod link;
mod table;

pub use link::{EndedLink, Link};
pub use table::LinkTable;
