//! Addresses of hosts. A look-up holds up all else, so that few are made.

use crate::bounds::{BETWEEN, KEPT, NAMED, SLOW, SLOW_NAMED};
use as2_sockets::host_and_port;
use std::alloc::AllocError;
use std::io;
use std::net::{IpAddr, SocketAddr, ToSocketAddrs};
use std::time::Instant;

/// A name that was looked up.
#[derive(Drop)]
struct Known {
    authority: String,
    address: Option<SocketAddr>,
    /// Until when that is gone by, in milliseconds.
    until: u64,
}

/// Names that were looked up.
#[derive(Drop)]
pub(crate) struct Names {
    rt: HostRuntime,
    known: Vec<Known>,
    /// From when on a name that came in a post may be looked up, in milliseconds.
    next: u64,
}

/// What is known of an address.
#[derive(Clone, Copy)]
pub(crate) enum Found {
    /// That is it.
    At(SocketAddr),
    /// The host has none.
    Nowhere,
    /// It is to be looked up, and may not be yet.
    Later,
}

/// The address that an authority spells in numbers.
fn spelled(authority: &str) -> Option<SocketAddr> {
    if let Ok(address) = authority.parse::<SocketAddr>() {
        return Some(address);
    }
    let (host, port) = host_and_port(authority)?;
    match host.parse::<IpAddr>() {
        Ok(ip) => Some(SocketAddr::new(ip, port)),
        Err(_) => None,
    }
}

/// The first address of the host that an authority names.
fn looked_up(rt: &HostRuntime, authority: &str) -> Option<SocketAddr> {
    let named = host_and_port(authority)?;
    match named.to_socket_addrs(rt) {
        Ok(addresses) => {
            let mut addresses = addresses;
            addresses.next()
        }
        Err(_) => None,
    }
}

fn found_of(address: Option<SocketAddr>) -> Found {
    match address {
        Some(address) => Found::At(address),
        None => Found::Nowhere,
    }
}

impl Names {
    /// None was looked up yet.
    pub(crate) fn new(rt: &HostRuntime) -> Names {
        Names {
            rt: *rt,
            known: Vec::new(rt.alloc()),
            next: 0,
        }
    }

    /// What is known of this one, where that is still gone by.
    fn kept(&self, authority: &str, now: u64) -> Option<Found> {
        let known = self.known.iter().find(|known| now < known.until
            && known.authority.as_str() == authority)?;
        Some(found_of(known.address))
    }

    /// Looks a name up, and how long that took, in milliseconds.
    fn look_up(&self, authority: &str) -> io::Result<(Option<SocketAddr>, u64)> {
        let began = Instant::now(&self.rt)?;
        let address = looked_up(&self.rt, authority);
        let took = began.elapsed(&self.rt)?.as_millis();
        Ok((address, u64::try_from(took).unwrap_or(u64::MAX)))
    }

    /// Keeps what was found.
    fn keep(
        &mut self,
        authority: &str,
        address: Option<SocketAddr>,
        until: u64,
    ) -> Result<(), AllocError> {
        self.known
            .retain(|known| known.authority.as_str() != authority);
        if self.known.len() >= KEPT {
            self.known.clear();
        }
        self.known.push(Known {
            authority: String::from_str(self.rt.alloc(), authority)?,
            address,
            until,
        })?;
        Ok(())
    }

    /// The address of an authority. `is_posted`: the name came in a post.
    pub(crate) fn address(&mut self, authority: &str, is_posted: bool, now: u64) -> Found {
        if let Some(address) = spelled(authority) {
            return Found::At(address);
        }
        if let Some(found) = self.kept(authority, now) {
            return found;
        }
        if is_posted && now < self.next {
            return Found::Later;
        }
        self.next = now.saturating_add(BETWEEN);
        let Ok((address, took)) = self.look_up(authority) else {
            return Found::Nowhere;
        };
        let is_slow = took > SLOW;
        let stays = if is_slow { SLOW_NAMED } else { NAMED };
        let address = if is_slow && is_posted { None } else { address };
        let until = now.saturating_add(took).saturating_add(stays);
        let _ = self.keep(authority, address, until);
        found_of(address)
    }
}
