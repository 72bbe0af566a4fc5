//! Lists of events that a stop breaks off, at each call of the disk in turn. What is found is what was answered, perhaps with the
//! event that was under way. The list goes on from there to the same end.
use super::lists::{LISTS, Row};
use crate::agreements::AGREEMENTS;
use crate::texts::{event_of, is_said, texts};
use as2_agreement::Agreements;
use as2_exchange::Event;
use as2_kept::Kept;
use as2_records::Records;
use as2_restart::{Stopped, play_then_stop, reopen, stop_and_open};
use as2_station::{Filter, Station};
use as2_store::Store;
use as2_text::Moment;
use script_lines::Settings;
use sqlite::{Connection, FileStore, Options};
use sqlite_disk::{Disk, Files, Fuse, Memory};
use std::alloc::Global;
use std::test::Fail;

/// The most calls of a file that a list is stopped after.
const MOST_CALLS: u64 = 10_000;

/// After how many calls each file stops.
#[derive(Clone, Copy)]
struct Stop {
    log: u64,
    database: u64,
}

/// Neither file stops.
const NEVER: Stop = Stop {
    log: u64::MAX,
    database: u64::MAX,
};

/// A station over files that a stop leaves, and that are opened again. The tests go by this alone, since each call at the one kind of
/// files costs the prover much.
trait Stops: Drop {
    type Kind: Records;

    /// Over a new store; None where it is stopped before.
    fn begin(alloc: Global, stop: Stop) -> Option<Self>;

    fn station(&mut self) -> &mut Station<Self::Kind>;

    /// Stops the computer, and opens what is left.
    fn stopped(self, alloc: Global) -> Option<Self>;

    /// Plays the events in one call, stops, and opens what is left.
    fn played(self, play: &Play, events: Vec<Event>) -> Result<Self, Fail>;

    /// Closes the store, and opens it again.
    fn reopened(self, alloc: Global) -> Option<Self>;
}

/// A station over two files. It is any disk's, since at one kind of files its end costs the prover much.
#[derive(Drop)]
struct InFiles<D: Disk> {
    station: Station<Kept<FileStore<D>>>,
}

/// A station over files in memory, each of which stops after some calls.
type Fused = InFiles<Fuse<Memory>>;

impl Stops for InFiles<Fuse<Memory>> {
    type Kind = Kept<FileStore<Fuse<Memory>>>;

    fn begin(alloc: Global, stop: Stop) -> Option<Fused> {
        let files = Files {
            log: Fuse::new(Memory::new(alloc), stop.log),
            db: Fuse::new(Memory::new(alloc), stop.database),
        };
        let Ok(conn) = Connection::open_files(alloc, files, Options::new(1)) else {
            return None;
        };
        let store = Store::create(conn, 1).ok()?;
        Some(InFiles {
            station: Station::new(Kept::new(store)),
        })
    }

    fn station(&mut self) -> &mut Station<Kept<FileStore<Fuse<Memory>>>> {
        &mut self.station
    }

    fn stopped(self, alloc: Global) -> Option<Fused> {
        let InFiles { station } = self;
        let station = stop_and_open(alloc, station, Options::new(2))?;
        Some(InFiles { station })
    }

    fn played(self, play: &Play, events: Vec<Event>) -> Result<Fused, Fail> {
        let InFiles { station } = self;
        let options = Options::new(2);
        let Ok(Stopped { said: _, again }) = play_then_stop(
            play.alloc,
            station,
            &play.agreements,
            events,
            options,
        ) else {
            return Err(Fail::new("no memory"));
        };
        match again {
            Some(station) => Ok(InFiles { station }),
            None => Err(Fail::new("no store is found")),
        }
    }

    fn reopened(self, alloc: Global) -> Option<Fused> {
        let InFiles { station } = self;
        let station = reopen(alloc, station, Options::new(3))?;
        Some(InFiles { station })
    }
}

/// All that a station shows: both listings, what is outstanding, and the first document.
fn sight<K: Records>(alloc: Global, station: &mut Station<K>) -> Result<String, Fail> {
    let Some(moment) = Moment::new(5000) else {
        return Err(Fail::new("no moment"));
    };
    let mut seen = station.listing(alloc, Filter::Inbox)?;
    seen.push_str(&station.listing(alloc, Filter::Outbox(None))?)?;
    seen.push_str(&station.outstanding(alloc, moment)?)?;
    if let Some(document) = station.show(alloc, 1)? {
        seen.push_str(&document)?;
    }
    Ok(seen)
}

/// What the rows are played with.
#[derive(Drop)]
struct Play {
    alloc: Global,
    agreements: Agreements,
    settings: Settings,
}

impl Play {
    fn new(alloc: Global) -> Result<Play, Fail> {
        Ok(Play {
            alloc,
            agreements: Agreements::read(alloc, AGREEMENTS)?,
            settings: texts(alloc)?,
        })
    }

    /// Plays the rows, each answered as it says, until one has a fault; how many were answered.
    fn until_fault<K: Records>(
        &self,
        station: &mut Station<K>,
        rows: &[Row],
    ) -> Result<usize, Fail> {
        for (at, (line, wanted)) in rows.iter().enumerate() {
            let event = event_of(self.alloc, &self.settings, line)?;
            let said = station.step(self.alloc, &self.agreements, event);
            if said.is_err() {
                return Ok(at);
            }
            if !is_said(self.alloc, &self.settings, &said, wanted)? {
                return Err(Fail::new(at));
            }
        }
        Ok(rows.len())
    }

    /// The events of the rows.
    fn events(&self, rows: &[Row]) -> Result<Vec<Event>, Fail> {
        let mut events = Vec::new(self.alloc);
        for (line, _) in rows {
            events.push(event_of(self.alloc, &self.settings, line)?)?;
        }
        Ok(events)
    }
}

/// What is seen before the first row and after each.
fn sights<F: Stops>(play: &Play, rows: &[Row]) -> Result<Vec<String>, Fail> {
    let Some(mut files) = F::begin(play.alloc, NEVER) else {
        return Err(Fail::new("no station"));
    };
    let station = files.station();
    let mut seen = Vec::new(play.alloc);
    seen.push(sight(play.alloc, station)?)?;
    for row in rows.chunks(1) {
        if play.until_fault(station, row)? != 1 {
            return Err(Fail::new("a fault"));
        }
        seen.push(sight(play.alloc, station)?)?;
    }
    Ok(seen)
}

/// How many of the rows are done by what is seen: those that were answered, or one more.
fn done_by(seen: &String, sights: &[String], answered: usize) -> Result<usize, Fail> {
    if sights.get(answered) == Some(seen) {
        return Ok(answered);
    }
    match sights.get(answered..) {
        Some([_, next, ..]) if next == seen => Ok(answered + 1),
        _ => Err(Fail::new(answered)),
    }
}

/// Looks at what a stop has left behind so many answered rows, and plays the rest.
fn go_on<K: Records>(
    play: &Play,
    rows: &[Row],
    sights: &[String],
    answered: usize,
    station: &mut Station<K>,
) -> Result<(), Fail> {
    let done = done_by(&sight(play.alloc, station)?, sights, answered)?;
    let Some(rest) = rows.get(done..) else {
        return Err(Fail::new("no such row"));
    };
    if play.until_fault(station, rest)? != rest.len() {
        return Err(Fail::new("a fault after the stop"));
    }
    check_last(play.alloc, station, sights)
}

/// Plays the rows with that stop, opens what is left, and plays the rest; whether the stop came before the end.
fn is_stopped<F: Stops>(
    play: &Play,
    rows: &[Row],
    sights: &[String],
    stop: Stop,
) -> Result<bool, Fail> {
    let Some(mut files) = F::begin(play.alloc, stop) else {
        return Ok(true);
    };
    let answered = play.until_fault(files.station(), rows)?;
    let Some(mut again) = files.stopped(play.alloc) else {
        return Err(Fail::new("no store is found"));
    };
    go_on(play, rows, sights, answered, again.station())?;
    Ok(answered < rows.len())
}

/// Stops the rows after no call, one, two and so on of the log, or else of the database.
fn check_stops<F: Stops>(play: &Play, rows: &[Row], of_log: bool) -> Result<(), Fail> {
    let sights = sights::<F>(play, rows)?;
    for calls in 0..MOST_CALLS {
        let stop = if of_log {
            Stop {
                log: calls,
                ..NEVER
            }
        } else {
            Stop {
                database: calls,
                ..NEVER
            }
        };
        if !is_stopped::<F>(play, rows, &sights, stop)? {
            return Ok(());
        }
    }
    Err(Fail::new("no end"))
}

/// What is seen is the last of these sights.
fn check_last<K: Records>(
    alloc: Global,
    station: &mut Station<K>,
    sights: &[String],
) -> Result<(), Fail> {
    if sights.last() != Some(&sight(alloc, station)?) {
        return Err(Fail::new("another end"));
    }
    Ok(())
}

/// Plays all rows at once, stops, opens what is left, closes it and opens it again: each time all that was answered is seen.
fn check_whole<F: Stops>(play: &Play, rows: &[Row]) -> Result<(), Fail> {
    let sights = sights::<F>(play, rows)?;
    let Some(files) = F::begin(play.alloc, NEVER) else {
        return Err(Fail::new("no station"));
    };
    let mut found = files.played(play, play.events(rows)?)?;
    check_last(play.alloc, found.station(), &sights)?;
    let Some(mut opened) = found.reopened(play.alloc) else {
        return Err(Fail::new("no store is opened"));
    };
    check_last(play.alloc, opened.station(), &sights)
}

#[test]
fn what_was_answered_stands(rt: HostRuntime) -> Result<(), Fail> {
    let play = Play::new(rt.alloc())?;
    for rows in LISTS {
        check_stops::<Fused>(&play, rows, true)?;
        check_stops::<Fused>(&play, rows, false)?;
        check_whole::<Fused>(&play, rows)?;
    }
    Ok(())
}
