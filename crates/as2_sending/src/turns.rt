//! One turn: what is next begins, is exchanged, and its outcome is taken and told.
ghost use Rattle.std.specs.Prelude.{◌≡◌, ◌≢◌, ◌<◌, ◌≤◌, Err, Some, IfErr, IfOk, true};
ghost use Rattle.std.specs.Io.KnownBytes.{Appends};
ghost use Rattle.as2_exchange.specs.declared.answer.Job.{Job as HandedJob};
ghost use Rattle.as2_exchange.specs.State.{State};
ghost use Rattle.as2_exchange.specs.Due.{next};
ghost use Rattle.as2_sending.specs.Exchanges.{Exchanges};
ghost use Rattle.as2_sending.specs.Turns.{BeginsTry, BeginsTo, ClosesTo, TurnsTo};
ghost use Rattle.as2_sending.specs.declared.sent.Sent.TheVariants.{Unwritten};

use crate::hints::{is_hinted, why_of};
use crate::links::Links;
use crate::sent::Sent;
use crate::telling::line;
use as2_agreement::Agreements;
use as2_exchange::{Job, Next, TryAnswer};
use as2_http::{Sink, push_all};
use as2_records::Records;
use as2_station::{Became, Station};
use as2_text::Moment;
use std::alloc::Global;
use std::io::Write;

/// Begins a try of what is next, and gives its request.
fn begin<K: Records>(
    alloc: Global,
    agreements: &Agreements,
    moment: Moment,
    station: &mut Station<K>,
    what: Next,
) -> Result<Job, Sent>
    ensures clean { (K.shows station.new).IsClean → (K.shows station.old).IsClean }
    ensures begun { (K.shows station.new).IsClean → (s : State) → (K.shows station.old).Rests s
        → next s moment ≡ Some what
        → BeginsTo agreements.now moment s what (K.shows station.new) result }
    ensures written { IfErr result (λ end. end ≢ Unwritten) }
{
    match station.begin(alloc, agreements, what, moment) {
        Ok(Ok(job)) => Ok(job),
        Ok(Err(reason)) => Err(Sent::Refused(reason)),
        Err(fault) => Err(Sent::Failed(fault)),
    }
}

/// Takes the outcome of a try, and tells what became of it.
fn close<K: Records>(
    alloc: Global,
    agreements: &Agreements,
    moment: Moment,
    station: &mut Station<K>,
    what: Next,
    got: TryAnswer,
) -> Result<Became, Sent>
    ensures clean { (K.shows station.new).IsClean → (K.shows station.old).IsClean }
    ensures closed { (K.shows station.new).IsClean → (s mid : State) (job : HandedJob)
        → BeginsTry agreements.now moment s what job mid → (K.shows station.old).Rests mid
        → ClosesTo agreements.now moment s what (record { job = job; got = got }) mid (K.shows station.new) result }
    ensures written { IfErr result (λ end. end ≢ Unwritten) }
{
    match station.close(alloc, agreements, what, got, moment) {
        Ok(Ok(became)) => Ok(became),
        Ok(Err(reason)) => Err(Sent::Refused(reason)),
        Err(fault) => Err(Sent::Failed(fault)),
    }
}

/// Takes a turn of what is next, writes its line, and behind that why it failed, where it did; whether that could be said. An
/// Err says how sending ends.
fn turn<K: Records, L: Links, W: Sink, E: Write>(
    alloc: Global,
    agreements: &Agreements,
    moment: Moment,
    station: &mut Station<K>,
    what: Next,
    links: &mut L,
    output: &mut W,
    hints: &mut E,
) -> Result<bool, Sent>
    ensures clean { (K.shows station.new).IsClean → (K.shows station.old).IsClean }
    ensures turned { (K.shows station.new).IsClean → (s : State) → (K.shows station.old).Rests s
        → next s moment ≡ Some what
        → TurnsTo agreements.now moment s (K.shows station.new) (W.written output.old) (W.written output.new)
        (λ text made. (IfOk result (λ told. told ≡ true) → Appends (E.contents hints.old) (E.contents hints.new) text)
        × Exchanges L.answers links.old made links.new) result }
    ensures counted { W.failed output.old ≤ W.failed output.new }
    ensures unwritten { result ≡ Err Unwritten → W.failed output.old < W.failed output.new }
    ensures sound { ¬ (result ≡ Err Unwritten) → W.failed output.new ≡ W.failed output.old }
{
    let job = begin(alloc, agreements, moment, station, what)?;
    let got = links.exchange(alloc, &job);
    let why = why_of(&got, links.fault());
    let became = close(alloc, agreements, moment, station, what, got)?;
    match push_all(output, line(what, became).as_str().as_bytes()) {
        Ok(()) => Ok(is_hinted(what, became, why, hints)),
        Err(_) => Err(Sent::Unwritten),
    }
}

/// Takes a turn of what is next, if something is; whether all that there was to hint could be said. An Err says how sending
/// ends.
pub(crate) fn take_turn<K: Records, L: Links, W: Sink, E: Write>(
    alloc: Global,
    agreements: &Agreements,
    moment: Moment,
    station: &mut Station<K>,
    links: &mut L,
    output: &mut W,
    hints: &mut E,
) -> Result<bool, Sent>
    ensures clean { (K.shows station.new).IsClean → (K.shows station.old).IsClean }
    ensures turned { (K.shows station.new).IsClean → (s : State) → (K.shows station.old).Rests s
        → TurnsTo agreements.now moment s (K.shows station.new) (W.written output.old) (W.written output.new)
        (λ text made. (IfOk result (λ told. told ≡ true) → Appends (E.contents hints.old) (E.contents hints.new) text)
        × Exchanges L.answers links.old made links.new) result }
    ensures counted { W.failed output.old ≤ W.failed output.new }
    ensures unwritten { result ≡ Err Unwritten → W.failed output.old < W.failed output.new }
    ensures sound { ¬ (result ≡ Err Unwritten) → W.failed output.new ≡ W.failed output.old }
{
    match station.next(moment) {
        Ok(Some(what)) => turn(
            alloc, agreements, moment, station, what, links, output, hints,
        ),
        Ok(None) => Err(Sent::Done),
        Err(fault) => Err(Sent::Failed(fault)),
    }
}
