//! Plays scripts over a scene, and the verbs of command lines over what runs them. `docs/SCRIPTS.md` tells how scripts are written.
//! Neither is known here: what stands under them may own a database, and these functions are proved without a word of it.
#![tactic(auto)]

mod commands;
mod ended;
mod given;
mod player;
mod scene;
mod streams;

pub use commands::answer;
pub use ended::Ended;
pub use given::{Given, StreamCalls};
pub use player::Player;
pub use scene::{Asked, Runs, Scene};
pub use streams::{Calls, Input, Paper};
