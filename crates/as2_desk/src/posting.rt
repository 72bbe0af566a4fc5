//! The command `post`: the requests of standard input, answered.
ghost use Rattle.std.specs.Prelude.{◌≡◌, ◌⊎◌, ℕ, List, Option, Some, IfSome, false};
ghost use Rattle.as2_exchange.specs.State.{State};
ghost use Rattle.as2_desk.specs.Endings.{Ends};
ghost use Rattle.as2_http.specs.Notes.{sink_and_journal};
ghost use Rattle.as2_http.specs.StreamReads.{RunsPosts, Serves};
ghost use Rattle.as2_desk.specs.Observed.{input_of, console_outcome, output_of};
ghost use Rattle.as2_desk.specs.Posting.{HasCause, Posts, if_noted};
ghost use Rattle.as2_desk.specs.Refusals.{end_line};
ghost use Rattle.as2_desk.specs.Statuses.{status_done, exit_status, status_refused};
ghost use Rattle.as2_desk.specs.Written.{written_of};

use crate::console::Console;
use crate::hints::is_busy_told;
use crate::refusal::{CommandFault, refuse};
use crate::status::{DONE, Ran};
use crate::terms::Terms;
use as2_host::{CountsBusy, Tally};
use as2_http::{Journal, Served, Sink, Source, serve_stream};
use as2_records::Records;
use as2_station::Station;
use std::io::Write;

/// Answers the requests of the input; the replies are noted where that is asked for. How it ended, and how many replies had status 503.
fn serve_input<K: Records, R: Source, W: Sink, H: Journal + CountsBusy, E>(
    terms: &Terms<'_>,
    station: &mut Station<K>,
    logs: bool,
    console: &mut Console<R, W, H, E>,
) -> (Served, u64)
    ensures errors { console.new.errors ≡ console.old.errors }
    ensures clean { (K.shows station.new).IsClean → (K.shows station.old).IsClean }
    ensures serves { (K.shows station.new).IsClean → (s : State) → (K.shows station.old).Rests s
        → (text : List ℕ) → R.left console.old.input ≡ Some text → (t : State) × (K.shows station.new).Rests t
        × Serves terms.now.agreements.now terms.now.moment s t text (R.left console.new.input)
        (sink_and_journal (W.written console.old.output) (if_noted logs (H.noted console.old.hints)))
        (sink_and_journal (W.written console.new.output) (if_noted logs (H.noted console.new.hints)))
        (R.calls console.old.input) (R.calls console.new.input) result.0 }
    ensures posts { (K.shows station.new).IsClean → (s : State) → (K.shows station.old).Rests s
        → (t : State) × (K.shows station.new).Rests t × RunsPosts terms.now.agreements.now terms.now.moment s t }
    ensures cause { HasCause result.0 (input_of R.Source console.old console.new)
        (output_of W.Sink console.old console.new) }
    ensures silent { logs ≡ false → console.new.hints ≡ console.old.hints }
{
    let before = console.hints.busy();
    if logs {
        let end = serve_stream(
            terms.alloc,
            terms.agreements,
            terms.moment,
            station,
            &mut console.input,
            &mut console.output,
            &mut console.hints,
        );
        return (end, console.hints.busy().saturating_sub(before));
    }
    let mut replies = Tally::new();
    let end = serve_stream(
        terms.alloc,
        terms.agreements,
        terms.moment,
        station,
        &mut console.input,
        &mut console.output,
        &mut replies,
    );
    (end, replies.busy())
}

/// Answers the requests of the input.
pub(crate) fn post<K: Records, R: Source, W: Sink, H: Write + Journal + CountsBusy, E: Sink>(
    terms: &Terms<'_>,
    station: &mut Station<K>,
    logs: bool,
    console: &mut Console<R, W, H, E>,
) -> Ran
    ensures status { (result.status ≡ status_done) ⊎ (result.status ≡ status_refused) }
    ensures clean { (K.shows station.new).IsClean → (K.shows station.old).IsClean }
    ensures posts { (known : Option State)
        → IfSome known (λ s. (K.shows station.new).IsClean × (K.shows station.old).Rests s)
        → (it : Posts terms.now.agreements.now terms.now.moment known (input_of R.Source console.old console.new)
        (console_outcome W.Sink E.Sink console.old console.new (λ t. (K.shows station.new).Rests t)) result)
        × (it.noted ≡ if_noted logs (H.noted console.old.hints))
        × ((told : H) × (busy : ℕ) × (it.new ≡ if_noted logs (H.noted told)) × (logs ≡ false → told ≡ console.old.hints)
        × (busy ≡ 0 → console.new.hints ≡ told)) }
{
    let (end, busy) = serve_input(terms, station, logs, console);
    let _ = is_busy_told(busy, &mut console.hints);
    tell_end(end, &mut console.errors)
}

/// Tells the end of a stream.
fn tell_end<E: Sink>(end: Served, errors: &mut E) -> Ran
    ensures { Ends (exit_status end) (end_line end) (written_of E.Sink errors.old errors.new) result }
{
    match end {
        Served::Closed => Ran {
            status: DONE,
            told: true,
        },
        _ => refuse(CommandFault::Stream(end), errors),
    }
}
