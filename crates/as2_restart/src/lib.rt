//! The station across restarts: what its files stand for once they are opened again, after a close or a crash.
#![tactic(auto)]

mod files;
mod laws;
mod migrating;
mod playing;
mod reopening;

pub use files::leave;
pub use laws::{one_run, success_stays};
pub use migrating::{StoppedMigration, migrate_then_stop, open_and_migrate, open_tables};
pub use playing::{Closed, Stopped, play_then_close, play_then_stop};
pub use reopening::{reopen, station_over, stop_and_open};
