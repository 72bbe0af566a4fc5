//! Files of the file system: those that are read, and stores.
#![tactic(auto)]

mod closing;
mod file_system;
mod fronts;
mod keeping;
mod making;
mod migrating;
mod opening;
mod places;
mod reading;
mod reasons;
mod stores;

pub use file_system::FileSystem;
pub use keeping::{End, InFiles, KeepFiles, close_into_files, open_in_files};
pub use migrating::{Moved, migrate_in_files};
pub use opening::{OpenFiles, SystemFiles};
pub use stores::StoreFiles;
