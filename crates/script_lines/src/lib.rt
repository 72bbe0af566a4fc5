//! The lines and the lists of a script, what its texts spell, and what is answered to a line. `docs/SCRIPTS.md` tells how they are
//! written.
#![tactic(auto)]

mod answer;
mod lines;
mod lists;
mod settings;
mod texts;
mod trouble;

pub use answer::{Answer, spelled};
pub use lines::{Line, lines_of};
pub use lists::{before_other, before_title, behind_or};
pub use settings::Settings;
pub use texts::{bytes_of, expanded, number_in};
pub use trouble::Trouble;
