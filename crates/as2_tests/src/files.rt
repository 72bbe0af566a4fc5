//! Stores in files, closed and opened again.
ghost use Rattle.std.specs.Prelude.{◌≡◌, false};

use crate::agreements::AGREEMENTS;
use crate::texts::{PLAIN, RECEIVED, event_of, is_said, texts};
use as2_agreement::Agreements;
use as2_exchange::{Event, StoreFault};
use as2_kept::Kept;
use as2_records::Records;
use as2_restart::play_then_close;
use as2_station::{Filter, Station};
use as2_storage::{close, open_at};
use as2_store::Store;
use sqlite::{Alter, Connection, File, FileStore, Unknown};
use std::alloc::Global;
use std::fs;
use std::test::Fail;

/// What is done with a file.
#[derive(Clone, Copy)]
enum Step {
    /// A store of one entry is made in it.
    Make,
    /// The store is looked at.
    Look,
    /// A store is to be made where there is one, which is refused.
    MakeAnew,
}

/// Opens the file and does the step; whether it goes as it is to.
fn goes(rt: &HostRuntime, file: &str, step: Step) -> Result<bool, Fail> {
    let conn = open_at(rt, file, Unknown)?;
    is_done(rt.alloc(), conn, step)
}

/// The step goes as it is to.
fn is_done<S: Alter + Drop>(alloc: Global, conn: Connection<S>, step: Step) -> Result<bool, Fail>
    requires { conn.in_transaction ≡ false }
{
    match step {
        Step::Make => is_filled(alloc, conn),
        Step::Look => has_one_entry(alloc, conn),
        Step::MakeAnew => Ok(refusal(conn) == Some(StoreFault::Refused)),
    }
}

/// Makes a store, and has it take the plain post.
fn is_filled<S: Alter + Drop>(alloc: Global, conn: Connection<S>) -> Result<bool, Fail>
    requires { conn.in_transaction ≡ false }
{
    match Store::create(conn, 1) {
        Ok(store) => takes_post(alloc, &mut Station::new(Kept::new(store))),
        Err(_) => Ok(false),
    }
}

/// Whether the plain post gets its receipt.
fn takes_post<K: Records>(alloc: Global, station: &mut Station<K>) -> Result<bool, Fail> {
    let settings = texts(alloc)?;
    let agreements = Agreements::read(alloc, AGREEMENTS)?;
    let said = station.step(alloc, &agreements, event_of(alloc, &settings, PLAIN)?);
    Ok(is_said(alloc, &settings, &said, RECEIVED)?)
}

/// Whether the tables are those of a store that took the plain post, which is a repeat then, and nothing else.
fn has_one_entry<S: Alter + Drop>(alloc: Global, conn: Connection<S>) -> Result<bool, Fail>
    requires { conn.in_transaction ≡ false }
{
    let Ok(store) = Store::adopt(conn) else {
        return Ok(false);
    };
    let mut station = Station::new(Kept::new(store));
    let is_repeat = takes_post(alloc, &mut station)?;
    let listed = station.listing(alloc, Filter::Inbox)?;
    let next = station.into_records().into_store().next_numbers()?;
    let is_one = listed.as_str() == "           1 S S Buyer -> Supplier <m1@x>\n";
    Ok(is_repeat && is_one && next.receipt == 2 && next.document == 1)
}

/// Why no store is made where there is one.
fn refusal<S: Alter + Drop>(conn: Connection<S>) -> Option<StoreFault>
    requires { conn.in_transaction ≡ false }
{
    let store = Store::adopt(conn).ok()?;
    if !store.is_alone() {
        return None;
    }
    match Store::create(store.into_connection(), 5) {
        Ok(_) => None,
        Err((_, fault)) => Some(fault),
    }
}

/// Takes a store's files away, if they are there.
fn clear(rt: &HostRuntime, file: &str, log: &str) {
    let _ = fs::remove_file(rt, file);
    let _ = fs::remove_file(rt, log);
}

#[test]
fn a_file_is_adopted_again_and_not_made_anew(rt: HostRuntime) -> Result<(), Fail> {
    clear(&rt, "kept.db", "kept.db-wal");
    for step in [Step::Make, Step::Look, Step::MakeAnew, Step::Look] {
        assert!(rt; goes(&rt, "kept.db", step)?);
    }
    clear(&rt, "kept.db", "kept.db-wal");
    Ok(())
}

/// The plain post.
fn one_post(alloc: Global) -> Result<Vec<Event>, Fail> {
    let settings = texts(alloc)?;
    let mut events = Vec::new(alloc);
    events.push(event_of(alloc, &settings, PLAIN)?)?;
    Ok(events)
}

/// A station over a new store in the file.
fn station_in(rt: &HostRuntime, file: &str) -> Result<Station<Kept<FileStore<File>>>, Fail> {
    match Store::create(open_at(rt, file, Unknown)?, 1) {
        Ok(store) => Ok(Station::new(Kept::new(store))),
        Err(_) => Err(Fail::new("no store")),
    }
}

/// Makes a store in the file, has it take a post, and closes it; whether the post was answered.
fn is_posted(rt: &HostRuntime, file: &str) -> Result<bool, Fail> {
    let agreements = Agreements::read(rt.alloc(), AGREEMENTS)?;
    let station = station_in(rt, file)?;
    match play_then_close(rt.alloc(), station, &agreements, one_post(rt.alloc())?) {
        Ok(closed) => Ok(closed.files.is_some() && matches!(closed.said.as_slice(), [Ok(_)])),
        Err(_) => Err(Fail::new("no memory")),
    }
}

/// Opens the store in the file, and closes it.
fn is_closed(rt: &HostRuntime, file: &str) -> Result<bool, Fail> {
    Ok(close(open_at(rt, file, Unknown)?).is_ok())
}

#[test]
fn what_is_closed_is_found_by_the_next_open(rt: HostRuntime) -> Result<(), Fail> {
    clear(&rt, "closed.db", "closed.db-wal");
    assert!(rt; is_posted(&rt, "closed.db")?);
    // The database file does without its log.
    clear(&rt, "closed.db-wal", "closed.db-shm");
    assert!(rt; goes(&rt, "closed.db", Step::MakeAnew)?);
    assert!(rt; is_closed(&rt, "closed.db")?);
    assert!(rt; goes(&rt, "closed.db", Step::MakeAnew)?);
    clear(&rt, "closed.db", "closed.db-wal");
    Ok(())
}
