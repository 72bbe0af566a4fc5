//! What is done at one connection.

ghost use Rattle.as2_live.specs.Living.{LivesOn};

use crate::bounds::{BYTES_OF_ONE, PACE, READS, Waits};
use crate::peer::{Peer, Phase, Under};
use as2_hub::Hub;
use as2_live::Live;
use as2_records::Rounds;
use std::io::{ErrorKind, Read, Write};
use std::net::Shutdown;

/// How a read or a write ended.
#[derive(Clone, Copy, Debug, PartialEq, Eq)]
pub(crate) enum Went {
    /// It goes on.
    On,
    /// The connection is broken.
    Broken,
}

/// What is to become of a connection.
#[derive(Clone, Copy, Debug, PartialEq, Eq)]
pub(crate) enum Fate {
    /// It is looked at again in the next turn.
    Again,
    /// It waits for the peer.
    Waits,
    /// It waits until others have less that isn't answered.
    Stuck,
    /// It is closed.
    Closes,
}

/// Reads once, where there may be something and there is room for it. None where it may be read again.
fn read_once<K: Rounds>(
    live: &mut Live<'_, K>,
    at: usize,
    peer: &mut Peer,
    buffer: &mut [u8],
    now: u64,
) -> Option<Went>
    ensures lives { LivesOn K.shows live.old live.new }
{
    if !peer.may_read || peer.is_read_out {
        return Some(Went::On);
    }
    let room = live.hub().room(at).min(buffer.len());
    if room == 0 {
        return Some(Went::On);
    }
    match peer.stream.read(&mut buffer[..room]) {
        Ok(0) => peer.is_read_out = true,
        Ok(count) => {
            if live.hub().unanswered(at) == 0 {
                peer.began = now;
                peer.paced = now;
            }
            peer.moved = now;
            peer.paced = peer.paced.saturating_add(count as u64 / PACE).min(now);
            live.hear(at, &buffer[..count]);
            // (what came later tells it by an event of its own)
            peer.may_read = count == room || peer.has_shut;
        }
        Err(error) if error.kind() == ErrorKind::WouldBlock => peer.may_read = false,
        Err(error) if error.kind() == ErrorKind::Interrupted => {}
        Err(_) => return Some(Went::Broken),
    }
    None
}

/// Reads what came, as far as there is room for it.
pub(crate) fn read<K: Rounds>(
    live: &mut Live<'_, K>,
    at: usize,
    peer: &mut Peer,
    buffer: &mut [u8],
    now: u64,
) -> Went
    ensures lives { LivesOn K.shows live.old live.new }
{
    for _ in 0..READS {
        if let Some(went) = read_once(live, at, peer, buffer, now) {
            return went;
        }
    }
    Went::On
}

/// Writes once, where something is to be written and the system may take it. None where it may be written again.
fn write_once<K: Rounds>(
    live: &mut Live<'_, K>,
    at: usize,
    peer: &mut Peer,
    now: u64,
) -> Option<Went>
    ensures lives { LivesOn K.shows live.old live.new }
{
    if !peer.may_write || live.hub().output(at).is_empty() {
        return Some(Went::On);
    }
    match peer.stream.write(live.hub().output(at)) {
        Ok(0) => return Some(Went::Broken),
        Ok(count) => {
            live.sent(at, count);
            peer.moved = now;
            peer.began = now;
        }
        Err(error) if error.kind() == ErrorKind::WouldBlock => peer.may_write = false,
        Err(error) if error.kind() == ErrorKind::Interrupted => {}
        Err(_) => return Some(Went::Broken),
    }
    None
}

/// Writes what is to be written, as far as the system takes it.
pub(crate) fn write<K: Rounds>(live: &mut Live<'_, K>, at: usize, peer: &mut Peer, now: u64) -> Went
    ensures lives { LivesOn K.shows live.old live.new }
{
    for _ in 0..READS {
        if let Some(went) = write_once(live, at, peer, now) {
            return went;
        }
    }
    Went::On
}

/// Reads what a peer still sends, and throws it away.
fn throw_away(peer: &mut Peer, buffer: &mut [u8]) -> Fate {
    for _ in 0..READS {
        if !peer.may_read {
            return Fate::Waits;
        }
        match peer.stream.read(buffer) {
            Ok(0) => return Fate::Closes,
            Ok(_) => {}
            Err(error) if error.kind() == ErrorKind::WouldBlock => peer.may_read = false,
            Err(error) if error.kind() == ErrorKind::Interrupted => {}
            Err(_) => return Fate::Closes,
        }
    }
    Fate::Again
}

/// Ends what is said to a peer.
fn begin_to_end(peer: &mut Peer, now: u64) -> Fate {
    if peer.is_read_out || peer.stream.shutdown(Shutdown::Write).is_err() {
        return Fate::Closes;
    }
    peer.phase = Phase::Ending;
    peer.began = now;
    Fate::Again
}

/// What is to become of a connection after a turn.
pub(crate) fn fate_of(hub: &Hub, at: usize, peer: &mut Peer, buffer: &mut [u8], now: u64) -> Fate {
    if peer.phase == Phase::Ending {
        return throw_away(peer, buffer);
    }
    if hub.is_ready(at) {
        return Fate::Again;
    }
    if !hub.output(at).is_empty() {
        return if peer.may_write {
            Fate::Again
        } else {
            Fate::Waits
        };
    }
    if hub.is_done(at) {
        return begin_to_end(peer, now);
    }
    if peer.is_read_out {
        return Fate::Closes;
    }
    if hub.unanswered(at) >= BYTES_OF_ONE {
        // (no request of that length becomes whole)
        return Fate::Closes;
    }
    if hub.room(at) == 0 {
        return Fate::Stuck;
    }
    if peer.may_read {
        Fate::Again
    } else {
        Fate::Waits
    }
}

/// What is under way with it.
pub(crate) fn under(hub: &Hub, at: usize) -> Under {
    if !hub.output(at).is_empty() {
        return Under::Reply;
    }
    if hub.unanswered(at) > 0 {
        Under::Request
    } else {
        Under::Idle
    }
}

/// Its time is over.
pub(crate) fn is_over(hub: &Hub, at: usize, peer: &Peer, waits: Waits, now: u64) -> bool {
    !hub.is_ready(at) && peer.end(under(hub, at), waits) <= now
}

/// Nothing of a request came, and nothing is to be written.
pub(crate) fn is_between(hub: &Hub, at: usize, peer: &Peer) -> bool {
    peer.phase == Phase::Serving && !hub.is_ready(at) && under(hub, at) == Under::Idle
}
