//! What is due is sent.
ghost use Rattle.std.specs.Prelude.{◌≡◌, ◌<◌, true};
ghost use Rattle.std.specs.Io.KnownBytes.{Appends};
ghost use Rattle.as2_exchange.specs.State.{State};
ghost use Rattle.as2_sending.specs.Exchanges.{Exchanges};
ghost use Rattle.as2_sending.specs.Turns.{Sends};
ghost use Rattle.as2_sending.specs.declared.sent.Sent.TheVariants.{Unwritten};

use crate::links::Links;
use crate::sent::{Sending, Sent};
use crate::turns::take_turn;
use as2_agreement::Agreements;
use as2_exchange::StoreFault;
use as2_http::Sink;
use as2_records::Records;
use as2_station::Station;
use as2_text::Moment;
use std::alloc::Global;
use std::io::Write;

/// More turns than there are receipts and documents: numbers end below 10^12, and what was tried at a moment is due only
/// later. So sending ends before.
const TURNS: u64 = 2_000_000_000_000;

/// Whether both are.
fn both(one: bool, other: bool) -> bool
    ensures { result ≡ true → (one ≡ true) × (other ≡ true) }
{
    one && other
}

/// Sends what is due at a moment, in turns. What is next begins: the receipt or else the document of the least number. The
/// link's answer to its request is its outcome, and then its line is written, at once. Refused at the first event that is
/// refused, which has no line. Failed where the store fails. Unwritten where a line can't be written, and what was done stays.
/// Done once nothing is due. Behind the line of a try that failed, why it did is written among the hints; a hint that can't be
/// written changes nothing else.
pub fn send<K: Records, L: Links, W: Sink, E: Write>(
    alloc: Global,
    agreements: &Agreements,
    moment: Moment,
    station: &mut Station<K>,
    links: &mut L,
    output: &mut W,
    hints: &mut E,
) -> Sending
    ensures clean { (K.shows station.new).IsClean → (K.shows station.old).IsClean }
    // The records rest on the state that a run of whole turns and of one end leaves.
    ensures sends { (K.shows station.new).IsClean → (s : State) → (K.shows station.old).Rests s
        → (t : State) × (K.shows station.new).Rests t
        × Sends agreements.now moment s t (W.written output.old) (W.written output.new)
        (λ text made. (result.told ≡ true → Appends (E.contents hints.old) (E.contents hints.new) text)
        × Exchanges L.answers links.old made links.new) result.end }
    // It ends for a line that couldn't be written where a write failed, and only there.
    ensures unwritten { result.end ≡ Unwritten → W.failed output.old < W.failed output.new }
    ensures sound { ¬ (result.end ≡ Unwritten) → W.failed output.new ≡ W.failed output.old }
{
    let mut told = true;
    for _ in 0..TURNS {
        match take_turn(alloc, agreements, moment, station, links, output, hints) {
            Ok(hinted) => told = both(told, hinted),
            Err(end) => return Sending { end, told },
        }
    }
    // Something may still be due, so this isn't Done.
    Sending {
        end: Sent::Failed(StoreFault::Refused),
        told,
    }
}
