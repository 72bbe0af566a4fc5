//! Where receipts may be sent.

use as2_sockets::host_and_port;
use std::alloc::{AllocError, Global};

/// The hosts that receipts may be sent to.
#[derive(Drop)]
pub struct Hosts {
    listed: Option<String>,
}

/// An entry names this authority: its host, and its port where the entry has one. Without a port an authority has that of HTTP.
fn is_listed(entry: &str, authority: &str) -> bool {
    let Some((host, port)) = host_and_port(authority) else {
        return false;
    };
    if entry.split_once(':').is_none() {
        return entry.eq_ignore_ascii_case(host);
    }
    match host_and_port(entry) {
        Some((name, number)) => number == port && name.eq_ignore_ascii_case(host),
        None => false,
    }
}

impl Hosts {
    /// These, with commas between them; all where none are given.
    pub fn new(alloc: Global, listed: Option<&str>) -> Result<Hosts, AllocError> {
        match listed {
            Some(text) => Ok(Hosts {
                listed: Some(String::from_str(alloc, text)?),
            }),
            None => Ok(Hosts { listed: None }),
        }
    }

    /// A receipt may be sent to this authority.
    pub(crate) fn allow(&self, authority: &str) -> bool {
        let Some(listed) = &self.listed else {
            return true;
        };
        listed
            .as_str()
            .split(',')
            .any(|entry| is_listed(entry.trim(), authority))
    }
}
