//! A network in memory, by the texts `connections`, `connection-posts`, `partner-reply` and `link-fault`. It notes what it is given.
ghost use Rattle.std.specs.Prelude.{◌≡◌};

use super::connections::serve_text;
use as2_agreement::Agreements;
use as2_commands::{ServingWaits, Waits};
use as2_exchange::{Job, TryAnswer};
use as2_host::{CannotListen, Listens, Network};
use as2_http::{Journal, Served};
use as2_mic::Pieces;
use as2_records::Records;
use as2_sending::{LinkFault, Links};
use as2_station::Station;
use as2_text::{Head, Memory, Moment};
use script_lines::{Answer, Settings, Trouble, bytes_of, number_in};
use std::alloc::Global;
use std::cell::RefCell;
use std::str;

/// A network in memory.
#[derive(Clone, Copy)]
pub struct Peers<'a> {
    settings: &'a Settings,
    /// How the connections end that come, each without a request, or with those of the text `connection-posts`. Where there are none, no
    /// address can be listened on.
    ends: &'a str,
    /// The wait of a listener or of links, in seconds.
    wait: u64,
    /// The wait of a listener for another request, in seconds.
    idle: u64,
    /// What was given: an address to listen at, or the partner of a request with the request behind it, each with its wait; and
    /// the moment that a connection was asked for.
    given: &'a RefCell<Answer>,
}

impl<'a> Peers<'a> {
    pub fn new(settings: &'a Settings, given: &'a RefCell<Answer>) -> Peers<'a> {
        Peers {
            settings,
            ends: settings.text("connections").unwrap_or(""),
            wait: 0,
            idle: 0,
            given,
        }
    }

    /// The same, with these waits.
    fn waiting(&self, wait: u64, idle: u64) -> Peers<'a>
        ensures wait { (result.wait ≡ wait) × (result.idle ≡ idle) }
        ensures ends { result.ends ≡ self.now.ends }
    {
        Peers {
            settings: self.settings,
            ends: self.ends,
            wait,
            idle,
            given: self.given,
        }
    }

    /// Notes what is given.
    fn note(&self, verb: &str, place: &[u8], bytes: &[u8]) {
        if let Ok(mut given) = self.given.try_borrow_mut() {
            given.say(verb);
            given.say_bytes(place);
            given.say(", wait ");
            given.say_number(self.wait);
            given.say(" s");
            if self.idle > 0 {
                given.say(", idle ");
                given.say_number(self.idle);
                given.say(" s");
            }
            given.say("\n");
            given.say_bytes(bytes);
        }
    }

    /// Notes which moment a connection is asked for.
    fn note_moment(&self, moment: &Option<Moment>) {
        if let Ok(mut given) = self.given.try_borrow_mut() {
            match moment {
                Some(moment) => {
                    given.say("connection at ");
                    given.say_number(moment.seconds());
                    given.say("\n");
                }
                None => given.say("connection at the clock's moment\n"),
            }
        }
    }
}

fn end_named(word: &str) -> Served {
    match word {
        "Closed" => Served::Closed,
        _ => Served::ReadFault,
    }
}

impl Listens for Peers<'_> {
    ghost use Rattle.std.specs.Prelude.{◌≡◌, codes};

    ghost bound = { λ _. codes "127.0.0.1:8080" };

    ghost ended = { λ old _ _ _ new. (new.wait ≡ old.wait) × (new.idle ≡ old.idle) };

    fn address(&self, alloc: Global) -> Result<String, Memory> {
        let mut text = String::new(alloc);
        text.push_str("127.0.0.1:8080")?;
        Ok(text)
    }

    fn serve<K: Records, J: Journal>(
        &mut self,
        alloc: Global,
        agreements: &Agreements,
        moment: Option<Moment>,
        station: &mut Station<K>,
        journal: &mut J,
    ) -> Served {
        self.note_moment(&moment);
        let (word, rest) = self.ends.split_once(" ").unwrap_or((self.ends, ""));
        self.ends = rest;
        let Some(text) = self.settings.text("connection-posts") else {
            return end_named(word);
        };
        match moment {
            Some(moment) => serve_text(alloc, agreements, moment, station, text, journal),
            None => end_named(word),
        }
    }
}

/// A head of the lines `NAME: VALUE`.
fn head_of(alloc: Global, lines: &str) -> Result<Head, Trouble> {
    let mut head = Head::new(alloc);
    for line in lines.split("\r\n") {
        let Some((name, value)) = line.split_once(": ") else {
            return Err(Trouble::Unreadable("no field"));
        };
        if head.append(name.as_bytes(), value.as_bytes()).is_err() {
            return Err(Trouble::Unreadable("no field"));
        }
    }
    Ok(head)
}

fn body_of(alloc: Global, text: &str) -> Result<Pieces, Trouble> {
    let mut body = Pieces::new(alloc);
    body.append(text.as_bytes())?;
    Ok(body)
}

fn status_in(word: &str) -> Result<u16, Trouble> {
    match u16::try_from(number_in(word)?) {
        Ok(status) => Ok(status),
        Err(_) => Err(Trouble::Unreadable("no status")),
    }
}

/// The answer of a front, which has a status and fields, and a body.
fn answer_of(alloc: Global, front: &str, body: &str) -> Result<TryAnswer, Trouble> {
    let (status, fields) = front.split_once("\r\n").unwrap_or((front, ""));
    Ok(TryAnswer::Reply {
        status: status_in(status)?,
        head: head_of(alloc, fields)?,
        body: body_of(alloc, body)?,
    })
}

/// The answer that a text spells: a line with a status, lines of fields, an empty line, and a body.
fn reply_of(alloc: Global, text: &str) -> Result<TryAnswer, Trouble> {
    let bytes = bytes_of(alloc, text)?;
    let Ok(text) = str::from_utf8(bytes.as_slice()) else {
        return Err(Trouble::Unreadable("no UTF-8"));
    };
    match text.split_once("\r\n\r\n") {
        Some((front, body)) => answer_of(alloc, front, body),
        None => Err(Trouble::Unreadable("no reply")),
    }
}

impl Links for Peers<'_> {
    ghost use Rattle.std.specs.Prelude.{◌≡◌};

    ghost answers = { λ old _ _ new. new ≡ old };

    fn exchange(&mut self, alloc: Global, job: &Job) -> TryAnswer {
        self.note("to ", job.authority.as_slice(), job.bytes.as_slice());
        match self.settings.text("partner-reply") {
            Some(text) => reply_of(alloc, text).unwrap_or(TryAnswer::NoAnswer),
            None => TryAnswer::NoAnswer,
        }
    }

    fn fault(&self) -> LinkFault {
        link_fault(self.settings.text("link-fault").unwrap_or(""))
    }
}

/// The fault of a link that a word names; that nobody listens, where it names none.
fn link_fault(word: &str) -> LinkFault {
    match word {
        "unknown-host" => LinkFault::UnknownHost,
        "no-connection" => LinkFault::NoConnection,
        "silent" => LinkFault::Silent(30),
        "slow" => LinkFault::Slow(300),
        "broken" => LinkFault::Broken,
        "no-answer" => LinkFault::NoAnswer,
        _ => LinkFault::ConnectionRefused,
    }
}

impl<'a> Network for Peers<'a> {
    ghost use Rattle.std.specs.Prelude.{◌≡◌};

    type Listener = Peers<'a>;

    type Links = Peers<'a>;

    ghost listens = { λ old _ waits l new. (l.wait ≡ waits.seconds) × (l.idle ≡ waits.idle) × (l.ends ≡ old.ends) × (new ≡ old) };

    ghost refuses = { λ old _ _ new. new ≡ old };

    ghost opens = { λ old waits l new. (l.wait ≡ waits.seconds) × (new ≡ old) };

    ghost closes = { λ old _ new. new ≡ old };

    ghost stops = { λ old _ new. new ≡ old };

    fn listen(
        &mut self,
        _alloc: Global,
        address: &str,
        waits: ServingWaits,
    ) -> Result<Peers<'a>, CannotListen> {
        let peers = self.waiting(waits.seconds, waits.idle);
        peers.note("at ", address.as_bytes(), b"");
        if self.ends.is_empty() {
            return Err(CannotListen);
        }
        Ok(peers)
    }

    fn links(&mut self, waits: Waits) -> Peers<'a> {
        self.waiting(waits.seconds, 0)
    }

    fn close(&mut self, _links: Peers<'a>) {}

    fn stop(&mut self, _listener: Peers<'a>) {}
}
