//! HTTP over any reader and writer: the requests of a stream, given to the station, and their replies.
#![tactic(auto)]

mod device;
mod exchanging;
mod journal;
mod laws;
mod reads;
mod response;
mod sending;
mod stream;

pub use device::{Count, Counted, DeviceFault, Sink, Source};
pub use exchanging::exchange;
pub use journal::{Journal, Unnoted, identifier_told, name_told};
pub use laws::one_stream;
pub use response::{Response, respond};
pub use sending::push_all;
pub use stream::{Served, serve_stream};
