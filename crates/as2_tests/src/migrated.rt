//! Tables of the first version that become those of the third, over files that stop at each call of the disk in turn. What is found is of
//! one of the two with the same entries, and of the third where the migration was done. A further migration comes to the same end.
ghost use Rattle.std.specs.Prelude.{◌≡◌, IfSome, false};

use crate::agreements::AGREEMENTS;
use crate::texts::{event_of, is_said, texts};
use as2_agreement::Agreements;
use as2_exchange::StoreFault;
use as2_kept::Kept;
use as2_records::Records;
use as2_station::{Filter, Station};
use as2_store::Store;
use as2_text::Moment;
use sqlite::{Connection, FileStore, Options};
use sqlite_disk::{Crash, Disk, Files, Fuse, Memory};
use std::alloc::Global;
use std::test::Fail;

/// The most calls of a file that a migration is stopped after.
const MOST_CALLS: u64 = 10_000;

/// The tables of the first version as release 0.5.0 made them, each statement in a line. Received are a document of Buyer, whose receipt
/// is sent, and one of Depot, whose receipt is owed. Of three documents for Buyer the first is settled, the second in its first try, and
/// the third new.
const FIRST_VERSION: &str = "\
CREATE TABLE meta (kind TEXT NOT NULL, version INTEGER NOT NULL, next_receipt INTEGER NOT NULL, next_document INTEGER NOT NULL) STRICT;
CREATE TABLE inbox (number INTEGER PRIMARY KEY, sender BLOB NOT NULL, receiver BLOB NOT NULL, identifier_value BLOB NOT NULL, identifier BLOB NOT \
NULL, content_type BLOB NOT NULL, length INTEGER NOT NULL, moment INTEGER NOT NULL, outcome INTEGER NOT NULL CHECK (outcome >= 1 AND outcome <= 6), \
how INTEGER NOT NULL, url BLOB, digest TEXT CHECK (digest = 'sha1' OR digest = 'md5'), mic BLOB, mdn INTEGER NOT NULL, tries INTEGER NOT NULL, \
attempt INTEGER NOT NULL, due INTEGER, UNIQUE (sender, receiver, identifier_value)) STRICT;
CREATE TABLE inbox_piece (number INTEGER NOT NULL REFERENCES inbox (number), position INTEGER NOT NULL, bytes BLOB NOT NULL, PRIMARY KEY (number, \
position)) STRICT;
CREATE TABLE outbox (number INTEGER PRIMARY KEY, organization BLOB NOT NULL, partner BLOB NOT NULL, identifier_value BLOB NOT NULL UNIQUE, identifier \
BLOB NOT NULL, length INTEGER NOT NULL, moment INTEGER NOT NULL, tries INTEGER NOT NULL, attempt INTEGER NOT NULL, due INTEGER, detail INTEGER NOT \
NULL CHECK (detail >= 1 AND detail <= 14)) STRICT;
CREATE TABLE outbox_piece (number INTEGER NOT NULL REFERENCES outbox (number), position INTEGER NOT NULL, bytes BLOB NOT NULL, PRIMARY KEY (number, \
position)) STRICT;
CREATE TABLE evidence (number INTEGER PRIMARY KEY REFERENCES outbox (number), moment INTEGER NOT NULL, content_type BLOB NOT NULL, body BLOB NOT \
NULL) STRICT;
CREATE TABLE waiting (place INTEGER PRIMARY KEY, kind INTEGER NOT NULL, number INTEGER NOT NULL, due INTEGER, UNIQUE (kind, number)) STRICT;
CREATE INDEX waiting_due ON waiting (kind, due, number);
INSERT INTO meta VALUES ('as2-station', 1, 3, 4);
INSERT INTO inbox VALUES (1, x'4275796572', x'537570706c696572', x'6d314078', x'3c6d3140783e', x'6170706c69636174696f6e2f6564692d783132', 3, 1000, 6, \
2, NULL, 'sha1', x'715a6b2b4e6b6347675771365069567865464443624a7a51324a303d', 3, 0, 1, NULL);
INSERT INTO inbox_piece VALUES (1, 0, x'616263');
INSERT INTO inbox VALUES (2, x'4465706f74', x'537570706c696572', x'6d324078', x'3c6d3240783e', x'6170706c69636174696f6e2f6564692d783132', 3, 1000, 6, \
3, x'687474703a2f2f3132372e302e302e313a383038322f6d646e', 'md5', x'6b4146516d447a53543744576c6a39394b4f462f63673d3d', 2, 0, 1, 1000);
INSERT INTO inbox_piece VALUES (2, 0, x'616263');
INSERT INTO outbox VALUES (1, x'537570706c696572', x'4275796572', x'6f75742d314073746174696f6e2e6578616d706c65', \
x'3c6f75742d314073746174696f6e2e6578616d706c653e', 3, 1000, 1, 1, NULL, 5);
INSERT INTO outbox_piece VALUES (1, 0, x'616263');
INSERT INTO evidence VALUES (1, 1000, x'746578742f706c61696e', x'612072656365697074');
INSERT INTO outbox VALUES (2, x'537570706c696572', x'4275796572', x'6f75742d324073746174696f6e2e6578616d706c65', \
x'3c6f75742d324073746174696f6e2e6578616d706c653e', 3, 1000, 1, 2, 1030, 2);
INSERT INTO outbox_piece VALUES (2, 0, x'616263');
INSERT INTO outbox VALUES (3, x'537570706c696572', x'4275796572', x'6f75742d334073746174696f6e2e6578616d706c65', \
x'3c6f75742d334073746174696f6e2e6578616d706c653e', 3, 1000, 0, 1, 1000, 1);
INSERT INTO outbox_piece VALUES (3, 0, x'616263');
INSERT INTO waiting VALUES (1000000000002, 1, 2, 1030), (1000000000003, 1, 3, 1000), (2000000000002, 2, 2, 1000);";
/// What a station shows of them: the lines of what was received, of the documents, and of the first document.
const SIGHT: &str = "           1 S S Buyer -> Supplier <m1@x>
           2 S P Depot -> Supplier <m2@x>
           1 S  1 R processed        Supplier -> Buyer
           2 R  1 - sending          Supplier -> Buyer
           3 P  0 - new              Supplier -> Buyer
number: 1
state: S processed
tries: 1
due: -
from: Supplier
to: Buyer
identifier: <out-1@station.example>
content: 3 bytes
receipt: R at 1000, 9 bytes
";

/// Posts once they are migrated: one that repeats the first and lists another digest, a receipt for the second document, which was begun,
/// and one for the third, which wasn't.
const POSTS: [(&str, &str); 3] = [
    (
        "2000 post | abc | Disposition-Notification-Options: signed-receipt-micalg=optional, sha-256",
        "200 report <mdn-1@station.example> from Supplier to Buyer on <m1@x>: processed; qZk+NkcGgWq6PiVxeFDCbJzQ2J0=, sha1",
    ),
    ("2000 post | receipt | <out-1@ -> <out-2@", "200"),
    (
        "2000 post | receipt | <out-1@ -> <out-3@",
        "404 no such message",
    ),
];

/// The file that stops, and after how many calls.
#[derive(Clone, Copy)]
struct Stop {
    is_log: bool,
    calls: u64,
}

/// A copy of a file.
fn copied(alloc: Global, file: &Memory) -> Result<Memory, Fail> {
    let mut copy = Memory::new(alloc);
    if copy.write_at(0, file.bytes()).is_err() || copy.sync().is_err() {
        return Err(Fail::new("no copy"));
    }
    Ok(copy)
}

/// The files, open; None where they can't be opened.
pub(crate) fn opened<D: Disk + Drop>(
    alloc: Global,
    files: Files<D>,
) -> Option<Connection<FileStore<D>>>
    ensures { IfSome result (λ conn. conn.in_transaction ≡ false) }
{
    if !files.log.may_be_used() || !files.db.may_be_used() {
        return None;
    }
    let Ok(conn) = Connection::open_files(alloc, files, Options::new(1)) else {
        return None;
    };
    if conn.is_autocommit() {
        return Some(conn);
    }
    None
}

/// Makes the tables of the first version; whether that could be done.
fn is_first_version<D: Disk + Drop>(conn: &mut Connection<FileStore<D>>) -> bool {
    for statement in FIRST_VERSION.lines() {
        if conn.execute_batch(statement).is_err() {
            return false;
        }
    }
    true
}

/// The files, with tables of the first version.
fn first_version<D: Disk + Drop>(alloc: Global, files: Files<D>) -> Result<Files<D>, Fail> {
    let Some(mut conn) = opened(alloc, files) else {
        return Err(Fail::new("no files"));
    };
    if is_first_version(&mut conn) {
        return Ok(conn.into_store().close());
    }
    Err(Fail::new("no statement"))
}

/// Copies of the files, of which one stops.
fn fused(alloc: Global, files: &Files<Memory>, stop: Stop) -> Result<Files<Fuse<Memory>>, Fail> {
    let (log, db) = match stop.is_log {
        true => (stop.calls, u64::MAX),
        false => (u64::MAX, stop.calls),
    };
    Ok(Files {
        log: Fuse::new(copied(alloc, &files.log)?, log),
        db: Fuse::new(copied(alloc, &files.db)?, db),
    })
}

/// The files that a stop leaves once their tables were to be migrated, and whether that was done.
fn left<D: Crash + Drop>(alloc: Global, files: Files<D>) -> (Files<D>, bool) {
    let (mut files, is_done) = if files.log.may_be_used() && files.db.may_be_used() {
        match Connection::open_files(alloc, files, Options::new(1)) {
            Ok(conn) => migrated_and_left(conn),
            Err((_, leftover)) => (leftover.into_files(), false),
        }
    } else {
        (files, false)
    };
    files.log.crash();
    files.db.crash();
    (files, is_done)
}

/// Migrates the tables, and gives the files back, and whether that was done.
fn migrated_and_left<D: Disk + Drop>(conn: Connection<FileStore<D>>) -> (Files<D>, bool) {
    if !conn.is_autocommit() {
        return (conn.into_store().close(), false);
    }
    match Store::migrate(conn) {
        Ok(store) => (store.into_connection().into_store().close(), true),
        Err((conn, _)) => (conn.into_store().close(), false),
    }
}

/// A store of the first version, where the migration wasn't done: it is migrated then.
fn migrated_anew<D: Disk + Drop>(
    conn: Connection<FileStore<D>>,
    is_done: bool,
) -> Result<Store<FileStore<D>>, Fail> {
    if is_done || !conn.is_autocommit() {
        return Err(Fail::new("a migration that was done is undone"));
    }
    match Store::migrate(conn) {
        Ok(store) => Ok(store),
        Err(_) => Err(Fail::new("it can't be migrated")),
    }
}

/// The store that is found: of the third version, or, where the migration wasn't done, perhaps of the first, which is migrated then.
fn found<D: Disk + Drop>(
    conn: Connection<FileStore<D>>,
    is_done: bool,
) -> Result<Store<FileStore<D>>, Fail>
    requires { conn.in_transaction ≡ false }
{
    match Store::adopt(conn) {
        Ok(store) => Ok(store),
        Err((conn, fault)) => {
            if fault != StoreFault::OtherVersion {
                return Err(Fail::new("no store is found"));
            }
            migrated_anew(conn, is_done)
        }
    }
}

/// What is done with a station.
#[derive(Drop)]
struct Play {
    alloc: Global,
    agreements: Agreements,
}

impl Play {
    /// All that the station shows.
    fn sight<K: Records>(&self, station: &mut Station<K>) -> Result<String, Fail> {
        let mut seen = station.listing(self.alloc, Filter::Inbox)?;
        seen.push_str(&station.listing(self.alloc, Filter::Outbox(None))?)?;
        if let Some(document) = station.show(self.alloc, 1)? {
            seen.push_str(&document)?;
        }
        Ok(seen)
    }

    /// Looks at the station, and posts to it.
    fn check<K: Records>(&self, station: &mut Station<K>) -> Result<(), Fail> {
        if self.sight(station)?.as_str() != SIGHT {
            return Err(Fail::new("another sight"));
        }
        let settings = texts(self.alloc)?;
        for (line, wanted) in &POSTS {
            let event = event_of(self.alloc, &settings, line)?;
            let said = station.step(self.alloc, &self.agreements, event);
            if !is_said(self.alloc, &settings, &said, wanted)? {
                return Err(Fail::new(*line));
            }
        }
        Ok(())
    }

    /// Migrates the tables in files that stop, and checks what is found; whether the stop came before the end. The files are any
    /// disk's, since at one kind of files the end of what is over them costs the prover much.
    fn is_stopped<D: Crash + Drop>(&self, files: Files<D>) -> Result<bool, Fail> {
        let (files, is_done) = left(self.alloc, files);
        let Some(conn) = opened(self.alloc, files) else {
            return Err(Fail::new("no files are found"));
        };
        let store = found(conn, is_done)?;
        self.check(&mut Station::new(Kept::new(store)))?;
        Ok(!is_done)
    }

    /// Stops the migration after no call, one, two and so on of the log, or else of the database.
    fn check_stops(&self, files: &Files<Memory>, is_log: bool) -> Result<(), Fail> {
        for calls in 0..MOST_CALLS {
            if !self.is_stopped(fused(self.alloc, files, Stop { is_log, calls })?)? {
                return Ok(());
            }
        }
        Err(Fail::new("no end"))
    }
}

#[test]
fn a_stopped_migration_leaves_the_entries(rt: HostRuntime) -> Result<(), Fail> {
    let play = Play {
        alloc: rt.alloc(),
        agreements: Agreements::read(rt.alloc(), AGREEMENTS)?,
    };
    let files = Files {
        log: Memory::new(rt.alloc()),
        db: Memory::new(rt.alloc()),
    };
    let files = first_version(rt.alloc(), files)?;
    play.check_stops(&files, true)?;
    play.check_stops(&files, false)
}
