//! A store that is being made while its files stop, after each number of calls of the disk: what they leave is a store without entries,
//! or no store.
use crate::migrated::opened;
use as2_exchange::StoreFault;
use as2_kept::Kept;
use as2_records::Records;
use as2_store::Store;
use sqlite::{Connection, FileStore, Options};
use sqlite_disk::{Crash, Disk, Files, Fuse, Memory};
use std::alloc::Global;
use std::test::Fail;

/// The most calls of a file that the making of a store is stopped after.
const MOST_CALLS: u64 = 10_000;

/// Makes a store, and gives its files back, and whether it was made.
fn made<D: Disk + Drop>(conn: Connection<FileStore<D>>) -> (Files<D>, bool) {
    if !conn.is_autocommit() {
        return (conn.into_store().close(), false);
    }
    match Store::create(conn, 1) {
        Ok(store) => (store.into_connection().into_store().close(), true),
        Err((conn, _)) => (conn.into_store().close(), false),
    }
}

/// What a stop leaves of files in which a store was to be made, and whether it was.
fn left<D: Crash + Drop>(alloc: Global, files: Files<D>) -> (Files<D>, bool) {
    let (mut files, is_made) = if files.log.may_be_used() && files.db.may_be_used() {
        match Connection::open_files(alloc, files, Options::new(1)) {
            Ok(conn) => made(conn),
            Err((_, leftover)) => (leftover.into_files(), false),
        }
    } else {
        (files, false)
    };
    files.log.crash();
    files.db.crash();
    (files, is_made)
}

/// A store has no entries.
fn check_new<R: Records>(alloc: Global, records: &mut R) -> Result<(), Fail> {
    let next = records.next_numbers()?;
    if !records.list_in(alloc)?.is_empty() || !records.list_out(alloc, None)?.is_empty() {
        return Err(Fail::new("entries"));
    }
    if next.receipt != 1 || next.document != 1 {
        return Err(Fail::new("other first numbers"));
    }
    Ok(())
}

/// What is found is a store without entries, or, where none was made, no store.
fn check_found<D: Disk + Drop>(alloc: Global, files: Files<D>, is_made: bool) -> Result<(), Fail> {
    let Some(conn) = opened(alloc, files) else {
        return Err(Fail::new("no files are found"));
    };
    match Store::adopt(conn) {
        Ok(store) => check_new(alloc, &mut Kept::new(store)),
        Err((_, StoreFault::NotAStore)) if !is_made => Ok(()),
        Err(_) => Err(Fail::new("no store is found")),
    }
}

/// Makes a store in files that stop, and checks what is found; whether they stopped before the end. The files are any disk's, since at
/// one kind of files the end of what is over them costs the prover much.
fn is_stopped<D: Crash + Drop>(alloc: Global, files: Files<D>) -> Result<bool, Fail> {
    let (files, is_made) = left(alloc, files);
    check_found(alloc, files, is_made)?;
    Ok(!is_made)
}

/// Empty files, of which one stops after so many calls.
fn fused(alloc: Global, is_log: bool, calls: u64) -> Files<Fuse<Memory>> {
    let (log, db) = match is_log {
        true => (calls, u64::MAX),
        false => (u64::MAX, calls),
    };
    Files {
        log: Fuse::new(Memory::new(alloc), log),
        db: Fuse::new(Memory::new(alloc), db),
    }
}

/// Stops the making after no call, one, two and so on of the log, or else of the database.
fn check_stops(alloc: Global, is_log: bool) -> Result<(), Fail> {
    for calls in 0..MOST_CALLS {
        if !is_stopped(alloc, fused(alloc, is_log, calls))? {
            return Ok(());
        }
    }
    Err(Fail::new("no end"))
}

#[test]
fn a_stopped_making_leaves_no_entries(rt: HostRuntime) -> Result<(), Fail> {
    check_stops(rt.alloc(), true)?;
    check_stops(rt.alloc(), false)
}
