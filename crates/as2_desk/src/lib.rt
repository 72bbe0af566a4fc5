//! The command line of the station: `as2desk` as a function over words, files, stores, a reader and two
//! writers.
#![tactic(auto)]

mod agreed;
mod asking;
mod check;
mod console;
mod desk;
mod documents;
mod escaping;
mod evidence;
mod formats;
mod hints;
mod lines;
mod migrating;
mod places;
mod posting;
mod refusal;
mod sending;
mod serving;
mod status;
mod terms;
mod verifying;
mod work;

pub use agreed::{AgreedText, agreed_text};
pub use console::{Console, Host, Outside};
pub use desk::run;
pub use refusal::{CommandFault, refuse};
pub use status::Ran;
