//! A station that runs: its store is opened, its sockets are made, and it turns until it is stopped, or its store shuts.

ghost use Rattle.std.specs.Prelude.{◌≡◌, ◌+◌, Err, IfErr, IfOk, IfSome, None, string_bytes};
ghost use Rattle.clap.specs.Walk.{texts};
ghost use Rattle.as2_exchange.specs.State.{State};
ghost use Rattle.as2_desk.specs.declared.refusal.CommandFault.TheVariants.{CannotListen};
ghost use Rattle.as2_loop.specs.Running.{BeginsStation, GoesOnWith, HasRun, IsOfText, IsOver, KeepsAll, KeepsBasis, LeadsFrom};
ghost use Rattle.as2_loop.specs.Running.{KeepsLeft, LeadsLeft, LeadsOn, TellsCame};
ghost use Rattle.as2_loop.specs.declared.operating.Spanned.TheVariants.{Elsewhere};

use crate::bounds::Waits;
use crate::clock::{Moments, told_seconds};
use crate::commands::{Basis, answering, bounded};
use crate::marks::FileMark;
use crate::shell::{BOUNDS, Shell, Sockets};
use as2_askers::{Askers, Control};
use as2_bounded::Bounded;
use as2_commands::{Operating, RunOptions, Task, options_in};
use as2_desk::{AgreedText, CommandFault, Console, Host, Ran, agreed_text, refuse};
use as2_exchange::StoreFault;
use as2_front::Log;
use as2_host::{OpenFault, OpenRounds, OpenStores, ReadFiles};
use as2_http::Sink;
use as2_hub::Hub;
use as2_live::Live;
use as2_records::{Records, Rounds};
use as2_sender::{Hosts, LinkWaits, Sender};
use as2_shut::ShutRecords;
use as2_text::Moment;
use sha2::{Digest, Sha256};
use std::alloc::Global;
use std::io;
use std::io::{ErrorKind, Write};
use std::net::TcpListener;

/// The path of a store that no file has.
const IN_MEMORY: &str = ":memory:";

/// How many times the longest wait a request as a whole may take.
const WHOLE: u64 = 10;

/// What is left of a station whose store is shut, or that has stopped: its agreements, its connections and its sockets.
#[derive(Drop)]
pub struct Held {
    basis: Basis,
    hub: Hub,
    shell: Shell,
}

impl Held {
    /// The station has stopped: takes its control socket away, and tells those who asked it to stop. Call it once the store's file is let go,
    /// so that a command behind `stop` finds the file free.
    pub fn end(self) {
        self.shell.end();
    }
}

/// What came of a station.
#[derive(Drop)]
pub enum Spanned {
    /// The words ask for none: nothing was done.
    Elsewhere,
    /// It couldn't begin, or had no memory to go on with. That was said.
    Refused(Ran),
    /// It has stopped, and its store is closed. `end` is to be called.
    Stopped(Held),
    /// Its store has shut for a fault. It goes on where the store is opened anew, and is to be tried again until then.
    Shut(Held),
}

/// How long peers are waited for.
fn waits_of(wanted: &Operating<'_>) -> Waits {
    let wait = wanted.waits.seconds.saturating_mul(1_000);
    Waits {
        wait,
        whole: wait.saturating_mul(WHOLE),
        idle: wanted.waits.idle.saturating_mul(1_000),
    }
}

/// Says where it listens.
fn say_address(rt: &HostRuntime, listener: &TcpListener) -> io::Result<()> {
    let address = listener.local_addr()?;
    let line = format!(in rt.alloc(); "listening: {address}\n")?;
    let _ = rt.stderr().write_all(line.as_str().as_bytes());
    Ok(())
}

/// Listens at an address. Where that can't be, why is hinted.
fn listener_at(rt: &HostRuntime, address: &str) -> io::Result<TcpListener> {
    let error = match TcpListener::bind(rt, address) {
        Ok(listener) => return Ok(listener),
        Err(error) => error,
    };
    let hint: &[u8] = match error.kind() {
        ErrorKind::AddrInUse => b"hint: another program listens at that address\n",
        ErrorKind::PermissionDenied => b"hint: no right to listen at that port\n",
        ErrorKind::AddrNotAvailable => b"hint: no address of this computer\n",
        _ => b"hint: an address is HOST:PORT, as 127.0.0.1:8080\n",
    };
    let _ = rt.stderr().write_all(hint);
    Err(error)
}

/// Hints that the control socket can't be made.
fn hint_control(rt: &HostRuntime, error: &io::Error) {
    let hint: &[u8] = match error.kind() {
        ErrorKind::AddrInUse => b"hint: another station answers at the control socket\n",
        ErrorKind::AlreadyExists => b"hint: what stands at the control socket's path is none\n",
        _ => b"hint: the control socket can't be made\n",
    };
    let _ = rt.stderr().write_all(hint);
}

/// What sends, with these waits, and receipts where they may be sent.
fn sender_of(rt: &HostRuntime, wanted: &Operating<'_>) -> io::Result<Sender> {
    let waits = waits_of(wanted);
    let hosts = Hosts::new(rt.alloc(), wanted.receipts_to)?;
    let link_waits = LinkWaits {
        wait: waits.wait,
        whole: waits.whole,
    };
    Ok(Sender::new(rt, link_waits, hosts)?)
}

/// The sockets of a station over a store that is open.
fn shell_of(
    rt: &HostRuntime,
    store: &str,
    moment: Moment,
    wanted: &Operating<'_>,
) -> io::Result<Shell> {
    let listener = listener_at(rt, wanted.address)?;
    listener.set_nonblocking(true)?;
    let control = match Control::make(rt, store, wanted.control) {
        Ok(control) => control,
        Err(error) => {
            hint_control(rt, &error);
            return Err(error);
        }
    };
    say_address(rt, &listener)?;
    let sockets = Sockets {
        door: mio::net::TcpListener::from_std(listener),
        askers: Askers::new(rt.alloc(), control)?,
        sender: sender_of(rt, wanted)?,
    };
    let moments = Moments::new(rt, wanted.moment, moment);
    Shell::new(rt, waits_of(wanted), moments, sockets)
}

/// What a station begins with, over a store that is open.
fn held_of(
    rt: &HostRuntime,
    store: &str,
    run: RunOptions,
    wanted: &Operating<'_>,
    agreed: AgreedText,
) -> io::Result<Held>
    ensures { IfOk result (IsOver agreed store.now) }
{
    let alloc = rt.alloc();
    let hub = new_hub(alloc)?;
    let digest = Sha256::digest(&agreed.text).into();
    let store_path = String::from_str(alloc, store)?;
    let shell = shell_of(rt, store, run.moment, wanted)?;
    Ok(Held {
        basis: Basis {
            alloc,
            agreed,
            digest,
            store: store_path,
            file: FileMark::of(rt, store)?,
            limit: run.limit,
            log: Log::new(alloc),
        },
        hub,
        shell,
    })
}

/// What is left of a station that turned: its records, or a round of them that was lost, and what it keeps.
#[derive(Drop)]
struct Turned<R: Rounds + Drop> {
    records: Result<R, R::Round>,
    held: Held,
}

/// The connections of a station, and its records.
fn parts_of<R: Rounds + Drop>(live: Live<'_, Bounded<R>>) -> (Hub, R)
    ensures { result.1 ≡ live.entry.desk.station.records }
{
    let (hub, desk, _) = live.into_parts();
    (hub, desk.into_station().into_records().into_records())
}

/// The records of a round that was lost. Its connections are let go, with what was to be written to them.
fn lost_records<L: Records + Drop>(round: Live<'_, Bounded<L>>) -> L
    ensures { result ≡ round.entry.desk.station.records }
{
    round
        .into_desk()
        .into_station()
        .into_records()
        .into_records()
}

/// No connection is open yet.
fn new_hub(alloc: Global) -> io::Result<Hub> {
    match Hub::new(alloc, BOUNDS) {
        Ok(hub) => Ok(hub),
        Err(_) => Err(io::Error::from(ErrorKind::OutOfMemory)),
    }
}

/// Turns over these records until the station has stopped, or they can't be reached.
fn turn_over<R: Rounds + Drop, O: OpenStores>(
    held: Held,
    moment: Moment,
    stores: &O,
    records: Bounded<R>,
) -> io::Result<Turned<R>>
    ensures basis { IfOk result (λ t. t.held.basis ≡ held.basis) }
    ensures over { IsOfText held.basis → IfOk result (λ t.
        LeadsLeft R.shows R.Round.shows held.basis records.records t.records) }
{
    let Held { basis, hub, shell } = held;
    let mut shell = shell;
    let links = shell.new_links()?;
    // (made before it is needed, since a round may be lost as memory is short)
    let spare = new_hub(basis.alloc)?;
    let live = answering(&basis, moment, records, hub, links);
    match shell.run(&basis, stores, live)? {
        Ok(live) => {
            let (hub, records) = parts_of(live);
            Ok(Turned {
                records: Ok(records),
                held: Held { basis, hub, shell },
            })
        }
        Err(round) => {
            let records = lost_records(round);
            Ok(Turned {
                records: Err(records),
                held: Held {
                    basis,
                    hub: spare,
                    shell,
                },
            })
        }
    }
}

/// Answers for a while over a store that can't be opened.
fn wait_for_store<O: OpenStores>(
    held: Held,
    moment: Moment,
    stores: &O,
) -> Result<Held, CommandFault>
    ensures { IfOk result (KeepsBasis held.basis) }
{
    match turn_over(held, moment, stores, Bounded::new(ShutRecords, 0)) {
        Ok(turned) => Ok(turned.held),
        Err(_) => Err(CommandFault::Memory),
    }
}

/// Closes what a station left of its records, which are kept under that path from then on.
fn close_left<O: OpenRounds>(
    stores: &mut O,
    path: &str,
    left: Result<O::Holding, <O::Holding as Rounds>::Round>,
)
    ensures kept { KeepsLeft O.OpenStores O.Holding.shows O.Holding.Round.shows path.now left stores.new }
    ensures counted { O.opens stores.new ≡ O.opens stores.old }
{
    match left {
        Ok(records) => stores.close_holding(path, records),
        Err(round) => stores.let_go(path, round),
    }
}

/// Answers over a store that is open, until the station is stopped or the store shuts, and closes it.
fn serve_open<O: OpenRounds>(
    held: Held,
    moment: Moment,
    stores: &mut O,
    records: O::Opened,
) -> Result<Held, CommandFault>
    ensures basis { IfOk result (KeepsBasis held.basis) }
    ensures leads { IsOfText held.basis → IfOk result (λ _. LeadsFrom O.OpenStores
        (string_bytes held.basis.store) held.basis.agreed.agreements (O.Opened.shows records).IsClean
        (O.Opened.shows records).Rests stores.new) }
    ensures counted { O.opens stores.new ≡ O.opens stores.old }
{
    let Held { basis, hub, shell } = held;
    let mut shell = shell;
    shell.note_open(&basis);
    let records = bounded(&basis, stores, O::holding(records));
    let held = Held { basis, hub, shell };
    match turn_over(held, moment, stores, records) {
        Ok(turned) => {
            let Turned { records, held } = turned;
            close_left(stores, held.basis.store.as_str(), records);
            Ok(held)
        }
        Err(_) => Err(CommandFault::Memory),
    }
}

/// Opens the store of a path for a station. One in memory is none, since it ends with the program.
fn opened<O: OpenStores>(
    alloc: Global,
    store: &str,
    run: RunOptions,
    stores: &mut O,
) -> Result<O::Opened, CommandFault>
    ensures found { IfOk result (λ records. (O.Opened.shows records).IsClean → (s : State)
        → O.keeps stores.old store.now run.first s → (O.Opened.shows records).Rests s) }
    ensures clean { IfOk result (λ records. (O.Opened.shows records).IsClean → O.is_clean stores.old) }
    ensures counted { IfOk result (λ _. O.opens stores.new ≡ O.opens stores.old + 1) }
    ensures same { IfErr result (λ _. KeepsAll O.OpenStores store.now stores.old stores.new) }
{
    if store == IN_MEMORY {
        return Err(CommandFault::Store(OpenFault::Store(StoreFault::NotAStore)));
    }
    match stores.open(alloc, store, run.first) {
        Ok(records) => Ok(records),
        Err(fault) => Err(CommandFault::Store(fault)),
    }
}

/// Begins a station over these records. CannotListen where it can't have what it begins with: the address can't be listened on, or the
/// control socket can't be made. Memory where there is none to go on with, and then the store is as a crash leaves it.
fn begin<O: OpenRounds>(
    held: io::Result<Held>,
    store: &str,
    moment: Moment,
    stores: &mut O,
    records: O::Opened,
) -> Result<Held, CommandFault>
    ensures basis { IfOk held (λ h. IfOk result (KeepsBasis h.basis)) }
    ensures leads { IfOk held (λ h. IsOfText h.basis → string_bytes h.basis.store ≡ store.now → IfOk result (λ _. LeadsFrom
        O.OpenStores store.now h.basis.agreed.agreements (O.Opened.shows records).IsClean
        (O.Opened.shows records).Rests stores.new)) }
    ensures counted { O.opens stores.new ≡ O.opens stores.old }
    ensures none { IfErr held (λ _. result ≡ Err CannotListen) }
{
    match held {
        Ok(held) => serve_open(held, moment, stores, records),
        Err(_) => {
            stores.close(store, records);
            Err(CommandFault::CannotListen)
        }
    }
}

/// Goes on with a station whose store has shut. Where its file doesn't stand at its path any more, no other one is opened or made.
fn go_on<O: OpenRounds>(
    rt: &HostRuntime,
    run: RunOptions,
    held: Held,
    stores: &mut O,
) -> Result<Held, CommandFault>
    ensures basis { IfOk result (KeepsBasis held.basis) }
    ensures leads { IsOfText held.basis → IfOk result (λ _. LeadsOn O.OpenStores
        (string_bytes held.basis.store) held.basis.agreed.agreements run.first stores.old stores.new) }
{
    if !held.basis.is_in_place(rt) {
        return wait_for_store(held, run.moment, stores);
    }
    match stores.open(rt.alloc(), held.basis.store.as_str(), run.first) {
        Ok(records) => serve_open(held, run.moment, stores, records),
        Err(_) => wait_for_store(held, run.moment, stores),
    }
}

/// How it is told what came of a station.
fn told_of<E: Sink>(came: Result<Held, CommandFault>, errors: &mut E) -> Spanned
    ensures { TellsCame came result }
{
    match came {
        Ok(held) if held.shell.is_shut() => Spanned::Shut(held),
        Ok(held) => Spanned::Stopped(held),
        Err(fault) => Spanned::Refused(refuse(fault, errors)),
    }
}

/// Runs a station, where the words ask for one, until it is stopped, or its store shuts. `held` is what it kept as its store shut, where
/// it is to go on. Else it is refused as CannotListen where the address can't be listened on or its control socket can't be made. It is
/// refused as Memory where there is none to go on with, and then the store is as a crash leaves it.
pub fn run_station<F: ReadFiles, O: OpenRounds, N, R, W, H: Write, E: Sink>(
    rt: &HostRuntime,
    words: &[&str],
    held: Option<Held>,
    host: &mut Host<F, O, N>,
    console: &mut Console<R, W, H, E>,
) -> Spanned
    // Where they ask for none, nothing is done to the stores.
    ensures elsewhere { result ≡ Elsewhere → host.new ≡ host.old }
    // A station that has stopped, or is to go on, led the store of its words on, by the agreements of their file.
    ensures begins { held ≡ None → HasRun result → BeginsStation O.OpenStores (F.content host.old.outside.files)
        (texts words.entry.now) host.old.stores host.new.stores result }
    // One that goes on led its store on from where it was.
    ensures goes_on { IfSome held (λ h. IsOfText h.basis → HasRun result
        → GoesOnWith O.OpenStores h host.old.stores host.new.stores result) }
{
    let alloc = rt.alloc();
    let Ok(options) = options_in(alloc, words, told_seconds(rt)) else {
        return Spanned::Elsewhere;
    };
    let Task::Operate(run, wanted) = &options.task else {
        return Spanned::Elsewhere;
    };
    if let Some(held) = held {
        let came = go_on(rt, *run, held, &mut host.stores);
        return told_of(came, &mut console.errors);
    }
    let agreed = match agreed_text(alloc, &host.outside.files, options.agreements, console) {
        Ok(agreed) => agreed,
        Err(ran) => return Spanned::Refused(ran),
    };
    let records = match opened(alloc, options.store, *run, &mut host.stores) {
        Ok(records) => records,
        Err(fault) => return told_of(Err(fault), &mut console.errors),
    };
    let begun = held_of(rt, options.store, *run, wanted, agreed);
    let stores = &mut host.stores;
    let came = begin(begun, options.store, run.moment, stores, records);
    told_of(came, &mut console.errors)
}
