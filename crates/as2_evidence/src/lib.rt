//! What shows how a document stands: its content, its receipt, and a page for people that says what they are, and by which commands
//! anybody can check them.
#![tactic(auto)]

mod files;
mod gathering;
mod lines;
mod received;
mod sent;
mod words;

pub use files::NewFile;
pub use gathering::evidence;
