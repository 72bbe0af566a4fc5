//! The command `send`: what is due is sent.
ghost use Rattle.std.specs.Prelude.{◌≡◌, ◌⊎◌, Option, IfSome};
ghost use Rattle.as2_exchange.specs.State.{State};
ghost use Rattle.as2_desk.specs.Endings.{EndsRefused};
ghost use Rattle.as2_desk.specs.Observed.{errors_of, console_outcome};
ghost use Rattle.as2_sending.specs.Exchanges.{Exchanges};
ghost use Rattle.as2_desk.specs.SendingDue.{SendsDue, TellsSent};
ghost use Rattle.as2_desk.specs.Statuses.{status_done, status_failed, status_refused};
ghost use Rattle.as2_desk.specs.Written.{written_of};
ghost use Rattle.as2_desk.specs.declared.refusal.CommandFault.TheVariants.{Store as Failing};
ghost use Rattle.as2_host.specs.declared.stores.OpenFault.{OpenFault as TheFault};

use crate::console::Console;
use crate::refusal::{CommandFault, refuse};
use crate::status::{DONE, Ran};
use crate::terms::Terms;
use as2_host::OpenFault;
use as2_http::Sink;
use as2_records::Records;
use as2_sending::{Links, Sent, send};
use as2_station::Station;
use std::io::Write;

/// Sends what is due, over these links.
pub(crate) fn send_due<K: Records, L: Links, R, W: Sink, H: Write, E: Sink>(
    terms: &Terms<'_>,
    station: &mut Station<K>,
    links: &mut L,
    console: &mut Console<R, W, H, E>,
) -> Ran
    ensures status { (result.status ≡ status_done)
        ⊎ ((result.status ≡ status_refused) ⊎ (result.status ≡ status_failed)) }
    ensures unread { console.new.input ≡ console.old.input }
    ensures clean { (K.shows station.new).IsClean → (K.shows station.old).IsClean }
    ensures sends { (known : Option State)
        → IfSome known (λ s. (K.shows station.new).IsClean × (K.shows station.old).Rests s)
        → SendsDue terms.now.agreements.now terms.now.moment known
        (console_outcome W.Sink E.Sink console.old console.new (λ t. (K.shows station.new).Rests t))
        (λ made. Exchanges L.answers links.old made links.new) result }
    ensures store { result.status ≡ status_failed
        → (fault : TheFault) × EndsRefused (Failing fault) (errors_of E.Sink console.old console.new) result }
{
    let sent = send(
        terms.alloc,
        terms.agreements,
        terms.moment,
        station,
        links,
        &mut console.output,
        &mut console.hints,
    );
    tell_sent(sent.end, &mut console.errors)
}

/// Tells what sending came to.
fn tell_sent<E: Sink>(sent: Sent, errors: &mut E) -> Ran
    ensures status { (result.status ≡ status_done)
        ⊎ ((result.status ≡ status_refused) ⊎ (result.status ≡ status_failed)) }
    ensures told { TellsSent sent (written_of E.Sink errors.old errors.new) result }
    ensures store { result.status ≡ status_failed
        → (fault : TheFault) × EndsRefused (Failing fault) (written_of E.Sink errors.old errors.new) result }
{
    let refusal = match sent {
        Sent::Done => {
            return Ran {
                status: DONE,
                told: true,
            };
        }
        Sent::Refused(reason) => CommandFault::Station(reason),
        Sent::Failed(fault) => CommandFault::Store(OpenFault::Store(fault)),
        Sent::Unwritten => CommandFault::CannotWrite,
    };
    refuse(refusal, errors)
}
