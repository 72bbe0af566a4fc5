//! The station that the events of a list go to, over a store in memory.
ghost use Rattle.std.specs.Prelude.{◌≡◌, false, IfSome};

use crate::events::event;
use crate::made::made;
use as2_agreement::Agreements;
use as2_exchange::{Answer as Said, END_OF_NUMBERS, Event, StoreFault};
use as2_kept::Kept;
use as2_records::Records;
use as2_station::Station;
use as2_store::Store;
use script_lines::{Answer, Settings, Trouble};
use sqlite::{Connection, MemStore};
use std::alloc::Global;

/// A station under agreements, each once it is asked for.
#[derive(Drop)]
pub struct Played {
    agreements: Option<Agreements>,
    station: Option<Station<Kept<MemStore>>>,
}

/// The connection after these statements.
pub fn executed(
    mut conn: Connection<MemStore>,
    statements: &str,
    answer: &mut Answer,
) -> Option<Connection<MemStore>>
    ensures { IfSome result (λ conn. conn.in_transaction ≡ false) }
{
    if conn.execute_batch(statements).is_ok() && conn.is_autocommit() {
        return Some(conn);
    }
    answer.lack("no statements");
    None
}

/// A database in memory after these statements.
pub fn database(statements: &str, answer: &mut Answer) -> Option<Connection<MemStore>>
    ensures { IfSome result (λ conn. conn.in_transaction ≡ false) }
{
    match Connection::open_in_memory(answer.alloc()) {
        Ok(conn) => executed(conn, statements, answer),
        Err(_) => {
            answer.fail(Trouble::Memory);
            None
        }
    }
}

/// A new store in memory, whose first number is that.
fn new_store(first: u64, answer: &mut Answer) -> Option<Store<MemStore>> {
    if first < 1 || first >= END_OF_NUMBERS {
        answer.lack("no first number");
        return None;
    }
    let conn = database("", answer)?;
    match Store::create(conn, first) {
        Ok(store) => Some(store),
        Err(_) => {
            answer.fail(Trouble::Memory);
            None
        }
    }
}

/// The agreements that a text has.
fn agreements_in(text: &str, answer: &mut Answer) -> Option<Agreements> {
    let text = answer.bytes_of(text);
    match Agreements::read(answer.alloc(), answer.text_of(text.as_slice())) {
        Ok(agreements) => Some(agreements),
        Err(_) => {
            answer.lack("no agreements");
            None
        }
    }
}

/// Adds the event of the line of that name, with a place in place of `%`.
fn add_held(
    events: &mut Vec<Event>,
    settings: &Settings,
    name: &str,
    place: u64,
    answer: &mut Answer,
) {
    let sign = made(format!(in answer.alloc(); "{{{name} {place}}}"), answer);
    let line = answer.expanded(sign.as_str(), settings);
    if let Some(event) = event(settings, line.as_str(), answer) {
        answer.unless_memory(events.push(event));
    }
}

/// The events by which a store comes to hold so many posts and documents: for each the lines `held-post` and `held-document`, with its
/// place in place of `%`.
fn filling(settings: &Settings, held: u64, answer: &mut Answer) -> Vec<Event> {
    let mut events = Vec::new(answer.alloc());
    for place in 0..held {
        add_held(&mut events, settings, "held-post", place, answer);
        add_held(&mut events, settings, "held-document", place, answer);
    }
    events
}

/// The number that the text of that name spells, or another where there is no such text.
fn number_of(settings: &Settings, name: &str, other: u64, answer: &mut Answer) -> u64 {
    match settings.text(name) {
        Some(text) => answer.number_in(text),
        None => other,
    }
}

/// Has the station take the events.
fn play_all<K: Records>(
    station: &mut Station<K>,
    agreements: &Agreements,
    events: Vec<Event>,
    answer: &mut Answer,
) {
    answer.unless_memory(station.play(answer.alloc(), agreements, events));
}

/// What the station says to an event.
fn said<K: Records>(
    alloc: Global,
    station: &mut Station<K>,
    agreements: &Agreements,
    event: Event,
) -> Result<Said, StoreFault> {
    station.step(alloc, agreements, event)
}

/// A station over a new store: its first own number is the text `first`, or 1; before it are as many posts and documents as the text
/// `held` says.
fn begun(settings: &Settings, answer: &mut Answer) -> Option<Station<Kept<MemStore>>> {
    let held = number_of(settings, "held", 0, answer);
    let first = number_of(settings, "first", held.saturating_add(1), answer);
    let agreements = agreements_in(settings.text("agreements").unwrap_or(""), answer)?;
    let store = new_store(first.saturating_sub(held), answer)?;
    let events = filling(settings, held, answer);
    let mut station = Station::new(Kept::new(store));
    play_all(&mut station, &agreements, events, answer);
    Some(station)
}

impl Played {
    pub fn new() -> Played {
        Played {
            agreements: None,
            station: None,
        }
    }

    /// Has what comes be under the agreements of that text.
    pub fn agree(&mut self, text: &str, answer: &mut Answer) {
        self.agreements = agreements_in(text, answer);
    }

    /// Has the list go on over other records.
    pub fn put(&mut self, records: Kept<MemStore>) {
        self.station = Some(Station::new(records));
    }

    /// Has the station begin where there is none yet.
    fn begin(&mut self, settings: &Settings, answer: &mut Answer) {
        if self.station.is_none() {
            self.station = begun(settings, answer);
        }
    }

    /// The station, which begins where there is none yet.
    pub fn station(
        &mut self,
        settings: &Settings,
        answer: &mut Answer,
    ) -> Option<&mut Station<Kept<MemStore>>> {
        self.begin(settings, answer);
        self.station.as_mut()
    }

    /// The records, taken out of the station.
    pub fn take_records(
        &mut self,
        settings: &Settings,
        answer: &mut Answer,
    ) -> Option<Kept<MemStore>> {
        self.begin(settings, answer);
        match self.station.take() {
            Some(station) => Some(station.into_records()),
            None => None,
        }
    }

    /// What the station says to the event of a line.
    pub fn take(
        &mut self,
        settings: &Settings,
        line: &str,
        answer: &mut Answer,
    ) -> Option<Result<Said, StoreFault>> {
        let (station, agreements) = self.ready(settings, answer)?;
        let event = event(settings, line, answer)?;
        Some(said(answer.alloc(), station, agreements, event))
    }

    /// The station and its agreements, each of which begins where there is none yet.
    pub fn ready(
        &mut self,
        settings: &Settings,
        answer: &mut Answer,
    ) -> Option<(&mut Station<Kept<MemStore>>, &Agreements)> {
        if self.agreements.is_none() {
            self.agree(settings.text("agreements").unwrap_or(""), answer);
        }
        self.begin(settings, answer);
        Some((self.station.as_mut()?, self.agreements.as_ref()?))
    }
}
