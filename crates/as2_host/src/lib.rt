//! What a command line asks of its host: files, stores of records, and a network.
#![tactic(auto)]

mod files;
mod network;
mod noting;
mod rounds;
mod stores;

pub use files::{FileFault, MakeFiles, MakingFault, ReadFiles};
pub use network::{CannotListen, Listens, Network};
pub use noting::{CountsBusy, Lines, Tally};
pub use rounds::OpenRounds;
pub use stores::{Entries, Migration, OpenFault, OpenStores, PathFault};
