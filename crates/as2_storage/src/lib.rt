//! The files of a store. No station is known here, so that whoever opens and closes a store need not wait for one to be proved.
#![tactic(auto)]

mod files;

pub use files::{close, let_go, open_at, settle};
