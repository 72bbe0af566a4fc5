//! Events, what is to be sent next, and what a station shows.
use crate::events::moment_in;
use crate::made::made;
use crate::sending::say_sent;
use crate::stage::Stage;
use crate::told::{say, say_report_bytes};
use as2_exchange::{Next, StoreFault};
use as2_mdn::DetailClass;
use as2_records::Records;
use as2_station::{Filter, Station};
use script_lines::Answer;

/// Answers with what is to be sent next.
fn say_next(answer: &mut Answer, next: Result<Option<Next>, StoreFault>) {
    let Some(next) = answer.unless_absent(next) else {
        return;
    };
    let (kind, number) = match next {
        Next::Document(number) => ("document ", number),
        Next::Receipt(number) => ("receipt ", number),
    };
    answer.say(kind);
    answer.say_number(number);
}

/// Answers with a text that is shown.
fn say_text(answer: &mut Answer, text: Result<String, StoreFault>) {
    if let Some(text) = answer.unless_fault(text) {
        answer.say(text.as_str());
    }
}

/// The state of that letter.
pub fn state_in(letter: &str, answer: &mut Answer) -> Option<DetailClass> {
    match letter {
        "P" => Some(DetailClass::P),
        "R" => Some(DetailClass::R),
        "S" => Some(DetailClass::S),
        "W" => Some(DetailClass::W),
        "E" => Some(DetailClass::E),
        _ => {
            answer.lack("no state");
            None
        }
    }
}

/// What a listing is asked for by: `in`, `out`, or `out` and a state.
fn filter_in(words: &str, answer: &mut Answer) -> Option<Filter> {
    match words.split_once(" ") {
        Some((_, letter)) => {
            let state = state_in(letter, answer)?;
            Some(Filter::Outbox(Some(state)))
        }
        None if words == "in" => Some(Filter::Inbox),
        None => Some(Filter::Outbox(None)),
    }
}

/// Answers with a text that is shown, or that there is none.
fn say_shown(answer: &mut Answer, shown: Result<Option<String>, StoreFault>) {
    if let Some(text) = answer.unless_absent(shown) {
        answer.say(text.as_str());
    }
}

/// Answers with a content, or that there is none.
fn say_fetched(answer: &mut Answer, fetched: Result<Option<Vec<u8>>, StoreFault>) {
    if let Some(content) = answer.unless_absent(fetched) {
        answer.say_bytes(content.as_slice());
    }
}

/// Answers with the listing that is asked for.
fn list<K: Records>(station: &mut Station<K>, rest: &str, answer: &mut Answer) {
    if let Some(filter) = filter_in(rest, answer) {
        say_text(answer, station.listing(answer.alloc(), filter));
    }
}

/// Answers with what is to be sent next at a moment, or with what is outstanding then.
fn look_ahead<K: Records>(station: &mut Station<K>, verb: &str, rest: &str, answer: &mut Answer) {
    let Some(moment) = moment_in(rest, answer) else {
        return;
    };
    if verb == "next" {
        say_next(answer, station.next(moment));
    } else {
        say_text(answer, station.outstanding(answer.alloc(), moment));
    }
}

/// Answers with what a station shows.
fn look<K: Records>(station: &mut Station<K>, verb: &str, rest: &str, answer: &mut Answer) {
    let alloc = answer.alloc();
    match verb {
        "list" => list(station, rest, answer),
        "show" => {
            let number = answer.number_in(rest);
            say_shown(answer, station.show(alloc, number));
        }
        "fetch" => {
            let number = answer.number_in(rest);
            say_fetched(answer, station.fetch(alloc, number));
        }
        _ => look_ahead(station, verb, rest, answer),
    }
}

/// Answers with what the station of the list shows.
fn look_on(stage: &mut Stage, verb: &str, rest: &str, answer: &mut Answer) {
    if let Some(station) = stage.played.station(&stage.settings, answer) {
        look(station, verb, rest, answer);
    }
}

/// Answers with what the station says to the event of a line, or with the bytes of its report alone.
fn say_event(stage: &mut Stage, line: &str, is_report: bool, answer: &mut Answer) {
    let Some(said) = stage.played.take(&stage.settings, line, answer) else {
        return;
    };
    if is_report {
        say_report_bytes(answer, &said);
    } else {
        say(&stage.settings, answer, &said);
    }
}

/// Sends what is due at a moment.
fn send(stage: &mut Stage, rest: &str, answer: &mut Answer) {
    if let Some(moment) = moment_in(rest, answer) {
        say_sent(stage, moment, answer);
    }
}

/// Answers to the verbs of a station; whether it is one. One that is a number is the moment of an event.
pub fn answer(stage: &mut Stage, verb: &str, rest: &str, answer: &mut Answer) -> bool {
    match verb {
        "report-bytes" => say_event(stage, rest, true, answer),
        "send" => send(stage, rest, answer),
        "under" => stage.played.agree(rest, answer),
        "next" | "list" | "outstanding" | "show" | "fetch" => look_on(stage, verb, rest, answer),
        _ if verb.parse::<u64>().is_ok() => {
            let line = made(format!(in answer.alloc(); "{verb} {rest}"), answer);
            say_event(stage, line.as_str(), false, answer);
        }
        _ => return false,
    }
    true
}
