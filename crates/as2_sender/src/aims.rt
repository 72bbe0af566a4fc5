//! Where a request is to go.

use as2_exchange::Bytes;
use as2_text::Url;
use std::net::SocketAddr;

/// Where a link is opened to.
#[derive(Clone, Copy)]
pub(crate) struct Target {
    /// The address.
    pub address: SocketAddr,
    /// The place of its host.
    pub host: usize,
}

/// The host, and its port where it has one, of an address; empty where there is none.
pub(crate) fn authority_in(address: &Option<Bytes>) -> &str {
    let Some(address) = address else {
        return "";
    };
    match Url::parse(address.as_slice()) {
        Some(url) => str::from_utf8(url.authority()).unwrap_or(""),
        None => "",
    }
}
