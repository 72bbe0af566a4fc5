//! The command `serve`: connections, one after the other.
ghost use Rattle.std.specs.Prelude.{◌≡◌, ◌≤◌, ◌⊎◌, IfOk, Option, IfSome, string_bytes};
ghost use Rattle.as2_exchange.specs.Run.{Trace};
ghost use Rattle.as2_exchange.specs.State.{State};
ghost use Rattle.as2_host.specs.Networks.{EndsEach, ServesEach, listening_of};
ghost use Rattle.as2_host.specs.Serving.{ServesOne};
ghost use Rattle.as2_desk.specs.Observed.{errors_of, console_outcome, output_of};
ghost use Rattle.as2_desk.specs.Connections.{ServesConnections, ServesCount, ServesNext, TellsNext, WritesLines, connection_line, listening_line, stop_fault};
ghost use Rattle.as2_desk.specs.Stops.{FailsBehind};
ghost use Rattle.as2_desk.specs.Written.{WritesOrBreaks};
ghost use Rattle.as2_desk.specs.Statuses.{status_done, status_failed, status_refused};

use crate::console::Console;
use crate::hints::is_busy_told;
use crate::lines::{Line, joined};
use crate::refusal::{CommandFault, is_said, refuse, refuse_behind};
use crate::status::{DONE, Ran, end_name};
use crate::terms::Terms;
use as2_commands::Serving;
use as2_exchange::StoreFault;
use as2_host::{CountsBusy, Listens, Network, OpenFault};
use as2_http::{DeviceFault, Journal, Served, Sink, push_all};
use as2_records::Records;
use as2_station::Station;
use as2_text::{Memory, Moment};
use std::alloc::Global;
use std::io::Write;

/// Why no more connections are served.
#[derive(Clone, Copy, Debug, PartialEq, Eq)]
enum Stop {
    /// A line couldn't be written.
    Unwritten,
    /// The records couldn't be read: behind such a fault each post would be answered by 503.
    Unreadable(StoreFault),
}

/// `connection: END`.
fn connection_line(end: Served) -> Line
    ensures { result.bytes ≡ connection_line end }
{
    joined("connection: ", end_name(end), "\n")
}

/// `listening: ADDRESS`.
fn listening_line<L: Listens>(alloc: Global, listener: &L) -> Result<String, Memory>
    ensures { IfOk result (λ line. string_bytes line ≡ listening_line (L.bound listener.now)) }
{
    let address = listener.address(alloc)?;
    format!(in alloc; "listening: {address}\n").map_err(|_| Memory)
}

/// Serves the next connection, notes its replies, and writes its line once it has ended.
fn serve_one<K: Records, L: Listens, R, W: Sink, H: Write + Journal + CountsBusy, E>(
    terms: &Terms<'_>,
    moment: &Option<Moment>,
    station: &mut Station<K>,
    listener: &mut L,
    console: &mut Console<R, W, H, E>,
) -> Result<(), DeviceFault>
    ensures streams { (console.new.input ≡ console.old.input) × (console.new.errors ≡ console.old.errors) }
    ensures clean { (K.shows station.new).IsClean → (K.shows station.old).IsClean }
    ensures serves { ServesNext (K.shows station.old) (K.shows station.new)
        (λ end. (trace : Trace) × L.ended listener.old moment.now trace end listener.new)
        (λ end s t. ServesOne terms.now.agreements.now moment.now
        (λ trace. L.ended listener.old moment.now trace end listener.new) s t)
        (λ end. WritesOrBreaks result (output_of W.Sink console.old console.new) (connection_line end)) }
{
    let before = console.hints.busy();
    let end = listener.serve(
        terms.alloc,
        terms.agreements,
        *moment,
        station,
        &mut console.hints,
    );
    let busy = console.hints.busy().saturating_sub(before);
    let _ = is_busy_told(busy, &mut console.hints);
    push_all(
        &mut console.output,
        connection_line(end).as_str().as_bytes(),
    )
}

/// Serves the next connection, and looks then whether the records can still be read.
fn serve_next<K: Records, L: Listens, R, W: Sink, H: Write + Journal + CountsBusy, E>(
    terms: &Terms<'_>,
    moment: &Option<Moment>,
    station: &mut Station<K>,
    listener: &mut L,
    console: &mut Console<R, W, H, E>,
) -> Result<(), Stop>
    ensures streams { (console.new.input ≡ console.old.input) × (console.new.errors ≡ console.old.errors) }
    ensures clean { (K.shows station.new).IsClean → (K.shows station.old).IsClean }
    ensures serves { ServesNext (K.shows station.old) (K.shows station.new)
        (λ end. (trace : Trace) × L.ended listener.old moment.now trace end listener.new)
        (λ end s t. ServesOne terms.now.agreements.now moment.now
        (λ trace. L.ended listener.old moment.now trace end listener.new) s t)
        (λ end. TellsNext result (output_of W.Sink console.old console.new) (connection_line end)) }
{
    if serve_one(terms, moment, station, listener, console).is_err() {
        return Err(Stop::Unwritten);
    }
    match station.next(terms.moment) {
        Ok(_) => Ok(()),
        Err(fault) => Err(Stop::Unreadable(fault)),
    }
}

/// Serves so many connections, one after the other, and writes a line for each as soon as it has ended.
fn serve_connections<K: Records, L: Listens, R, W: Sink, H: Write + Journal + CountsBusy, E>(
    terms: &Terms<'_>,
    serving: &Serving<'_>,
    station: &mut Station<K>,
    listener: &mut L,
    console: &mut Console<R, W, H, E>,
) -> Result<(), Stop>
    ensures streams { (console.new.input ≡ console.old.input) × (console.new.errors ≡ console.old.errors) }
    ensures serves { ServesConnections (K.shows station.old) (K.shows station.new)
        (λ ends. EndsEach L.ended serving.now.moment listener.old ends listener.new)
        (λ ends s t. ServesEach L.ended serving.now.moment terms.now.agreements.now ends listener.old s listener.new t)
        (λ ends. WritesLines serving.now.count ends (output_of W.Sink console.old console.new) result) }
{
    for served in 0..serving.count {
        let _ = served;
        if let Err(stop) = serve_next(terms, &serving.moment, station, listener, console) {
            return Err(stop);
        }
    }
    Ok(())
}

/// How it is told that no more are served.
fn stop_fault(stop: Stop) -> CommandFault
    ensures { result ≡ stop_fault stop }
{
    match stop {
        Stop::Unreadable(fault) => CommandFault::Store(OpenFault::Store(fault)),
        Stop::Unwritten => CommandFault::CannotWrite,
    }
}

/// Serves connections at an address.
pub(crate) fn serve<K: Records, N: Network, R, W: Sink, H: Write + Journal + CountsBusy, E: Sink>(
    terms: &Terms<'_>,
    serving: Serving<'_>,
    station: &mut Station<K>,
    network: &mut N,
    console: &mut Console<R, W, H, E>,
) -> Ran
    ensures status { (result.status ≡ status_done)
        ⊎ ((result.status ≡ status_refused) ⊎ (result.status ≡ status_failed)) }
    ensures unread { console.new.input ≡ console.old.input }
    ensures store { result.status ≡ status_failed → FailsBehind (errors_of E.Sink console.old console.new) result }
    ensures clean { (K.shows station.new).IsClean → (K.shows station.old).IsClean }
    ensures serves { (known : Option State)
        → IfSome known (λ s. (K.shows station.new).IsClean × (K.shows station.old).Rests s)
        → ServesCount serving.entry.count known
        (console_outcome W.Sink E.Sink console.old console.new (λ t. (K.shows station.new).Rests t))
        (listening_of N.Network N.Listener.Listens network.old network.new terms.now.agreements.now serving.entry)
        result }
{
    let Ok(mut listener) = network.listen(terms.alloc, serving.address, serving.waits) else {
        return refuse(CommandFault::CannotListen, &mut console.errors);
    };
    let Ok(line) = listening_line(terms.alloc, &listener) else {
        network.stop(listener);
        return refuse(CommandFault::Memory, &mut console.errors);
    };
    let told = is_said(line.as_str(), &mut console.errors);
    let served = serve_connections(terms, &serving, station, &mut listener, console);
    network.stop(listener);
    match served {
        Ok(()) => Ran { status: DONE, told },
        Err(stop) => refuse_behind(told, stop_fault(stop), &mut console.errors),
    }
}
