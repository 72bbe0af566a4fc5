//! The network: connections over TCP that are served.
ghost use Rattle.std.specs.Prelude.{◌≡◌, ℕ, List, Some, IfOk};
ghost use Rattle.as2_http.specs.Devices.{OpensLedger};
ghost use Rattle.as2_http.specs.Notes.{sink_and_journal};
ghost use Rattle.as2_http.specs.StreamReads.{RunsPosts};
ghost use Rattle.as2_exchange.specs.State.{State};
ghost use Rattle.as2_connections.specs.Inputs.{ServesInput};

use crate::counts::CallCounts;
use crate::links::PartnerLinks;
use crate::served::{Replies, Requests};
use crate::wall_clock::clock;
use as2_agreement::Agreements;
use as2_commands::{ServingWaits, Waits};
use as2_host::{CannotListen, Listens, Network};
use as2_http::{Counted, Journal, Served, serve_stream};
use as2_records::Records;
use as2_sockets::{Limits, TimedStream};
use as2_station::Station;
use as2_text::{Memory, Moment};
use std::alloc::Global;
use std::cell::Cell;
use std::io;
use std::io::{Read, Write};
use std::marker::Brand;
use std::net::{SocketAddr, TcpListener, TcpStream};
use std::sync::ledger::{Blank, Ledger};
use std::time::Duration;

/// A connection with its limits.
pub(crate) type Stream<'a> = TimedStream<'a, TcpStream, HostRuntime>;

/// The sockets of this machine.
#[derive(Clone, Copy)]
pub struct Sockets<'a> {
    pub rt: &'a HostRuntime,
}

/// A socket that listens.
#[derive(Drop)]
pub struct ListeningSocket<'a> {
    rt: &'a HostRuntime,
    socket: TcpListener,
    address: SocketAddr,
    limits: Limits,
    idle: Duration,
}

/// A connection that was accepted: its two ends, and the longest wait for another request.
#[derive(Drop)]
struct ServedEnds<'a> {
    reader: Stream<'a>,
    writer: Stream<'a>,
    idle: Duration,
}

/// Serves the requests of a reader, with counts of the calls that are made of it and of the writer: how they ended, and the writer.
fn serve_counted<
    K: Records,
    J: Journal,
    R: Read + Drop,
    W: Write,
    A: Ledger,
    B: Ledger,
    C: Ledger,
    D: Ledger,
>(
    alloc: Global,
    agreements: &Agreements,
    moment: Moment,
    station: &mut Station<K>,
    reader: R,
    writer: W,
    journal: &mut J,
    reads: CallCounts,
    writes: CallCounts,
) -> (Served, W)
    requires reads { OpensLedger reads.calls.name reads.calls.parts A.name A.parts }
    requires failed_reads { OpensLedger reads.failed.name reads.failed.parts B.name B.parts }
    requires writes { OpensLedger writes.calls.name writes.calls.parts C.name C.parts }
    requires failed_writes { OpensLedger writes.failed.name writes.failed.parts D.name D.parts }
    ensures clean { (K.shows station.new).IsClean → (K.shows station.old).IsClean }
    ensures serves { (K.shows station.new).IsClean → (s : State) → (K.shows station.old).Rests s
        → (input : List ℕ) → R.remaining reader ≡ Some input → (t : State) × (K.shows station.new).Rests t
        × ServesInput agreements.now moment s t input (sink_and_journal (W.contents writer) (J.noted journal.old))
        (sink_and_journal (W.contents result.1) (J.noted journal.new)) result.0 }
    ensures posts { (K.shows station.new).IsClean → (s : State) → (K.shows station.old).Rests s
        → (t : State) × (K.shows station.new).Rests t × RunsPosts agreements.now moment s t }
{
    let mut source: Counted<R, A, B> = Counted::new(reader, reads.calls, reads.failed);
    let mut sink: Counted<W, C, D> = Counted::new(writer, writes.calls, writes.failed);
    let end = serve_stream(
        alloc,
        agreements,
        moment,
        station,
        &mut source,
        &mut sink,
        journal,
    );
    (end, sink.into_inner())
}

/// Serves the requests of a connection.
fn serve_connection<K: Records, J: Journal>(
    alloc: Global,
    agreements: &Agreements,
    moment: Moment,
    station: &mut Station<K>,
    accepted: ServedEnds<'_>,
    journal: &mut J,
) -> Served
    ensures clean { (K.shows station.new).IsClean → (K.shows station.old).IsClean }
    ensures posts { (K.shows station.new).IsClean → (s : State) → (K.shows station.old).Rests s
        → (t : State) × (K.shows station.new).Rests t × RunsPosts agreements.now moment s t }
{
    let has_replied = Cell::new(false);
    let reader = Requests {
        stream: accepted.reader,
        idle: accepted.idle,
        has_replied: &has_replied,
    };
    let writer = Replies {
        stream: accepted.writer,
        has_replied: &has_replied,
    };
    let (end, writer) = serve_counted::<K, J, Requests, Replies, Brand, Brand, Brand, Brand>(
        alloc,
        agreements,
        moment,
        station,
        reader,
        writer,
        journal,
        CallCounts {
            calls: Blank::new(1),
            failed: Blank::new(1),
        },
        CallCounts {
            calls: Blank::new(1),
            failed: Blank::new(1),
        },
    );
    if end == Served::BadFraming {
        // the peer may still be sending, and is to read why it was refused
        writer.stream.linger();
    }
    end
}

impl<'a> ListeningSocket<'a> {
    /// Accepts one connection: its two ends, each with the limits of the socket, and how long another request is waited for.
    fn accept(&self) -> io::Result<ServedEnds<'a>>
        ensures limits { IfOk result (λ it. (it.reader.timer.limits ≡ self.now.limits)
            × (it.writer.timer.limits ≡ self.now.limits)) }
        ensures idle { IfOk result (λ it. it.idle ≡ self.now.idle) }
    {
        let (stream, _) = self.socket.accept()?;
        let reader = TimedStream::new(stream, self.rt, self.limits)?;
        let writer = reader.try_clone()?;
        Ok(ServedEnds {
            reader,
            writer,
            idle: self.idle,
        })
    }
}

impl Listens for ListeningSocket<'_> {
    ghost use Rattle.std.specs.Prelude.{◌≡◌};
    ghost use Rattle.std.specs.Net.Text.{socket_text};

    ghost bound = { λ l. socket_text l.address };

    // (what a peer sends no clause can say)
    ghost ended = { λ old _ _ _ new. (new.limits ≡ old.limits) × (new.idle ≡ old.idle) × (new.address ≡ old.address) };

    fn address(&self, alloc: Global) -> Result<String, Memory> {
        match self.address.to_string(alloc) {
            Ok(text) => Ok(text),
            Err(_) => Err(Memory),
        }
    }

    fn serve<K: Records, J: Journal>(
        &mut self,
        alloc: Global,
        agreements: &Agreements,
        moment: Option<Moment>,
        station: &mut Station<K>,
        journal: &mut J,
    ) -> Served {
        let Ok(accepted) = self.accept() else {
            return Served::ReadFault;
        };
        let moment = match moment {
            Some(moment) => moment,
            None => match clock(self.rt).and_then(Moment::new) {
                Some(moment) => moment,
                None => return Served::ReadFault,
            },
        };
        serve_connection(alloc, agreements, moment, station, accepted, journal)
    }
}

impl<'a> Network for Sockets<'a> {
    ghost use Rattle.std.specs.Prelude.{◌≡◌};
    ghost use Rattle.as2_connections.specs.Linking.{HasWaits, IsWait};

    type Listener = ListeningSocket<'a>;

    type Links = PartnerLinks<'a>;

    ghost listens = { λ old _ waits l new. HasWaits waits.seconds l.limits × IsWait waits.idle l.idle × (new ≡ old) };

    ghost refuses = { λ old _ _ new. new ≡ old };

    ghost opens = { λ old waits l new. (l.waits ≡ waits) × (new ≡ old) };

    ghost closes = { λ old _ new. new ≡ old };

    ghost stops = { λ old _ new. new ≡ old };

    fn listen(
        &mut self,
        _alloc: Global,
        address: &str,
        waits: ServingWaits,
    ) -> Result<ListeningSocket<'a>, CannotListen> {
        let Ok(socket) = TcpListener::bind(self.rt, address) else {
            return Err(CannotListen);
        };
        let Ok(address) = socket.local_addr() else {
            return Err(CannotListen);
        };
        Ok(ListeningSocket {
            rt: self.rt,
            socket,
            address,
            limits: Limits::of_seconds(waits.seconds),
            idle: Duration::from_secs(waits.idle),
        })
    }

    fn links(&mut self, waits: Waits) -> PartnerLinks<'a> {
        PartnerLinks::new(self.rt, waits)
    }

    // no connection outlives its exchange
    fn close(&mut self, _links: PartnerLinks<'a>) {}

    // the socket is closed
    fn stop(&mut self, listener: ListeningSocket<'a>) {
        drop(listener);
    }
}
