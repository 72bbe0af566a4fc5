//! The station over the records of a connection: its clauses speak of the tables.
#![tactic(auto)]

ghost use Rattle.std.specs.Prelude.{◌≡◌, IsTrue};
ghost use Rattle.sqlite.specs.Held.{state};
ghost use Rattle.sqlite.specs.State.{HasCleanDisk};
ghost use Rattle.as2_exchange.specs.State.{State};
ghost use Rattle.as2_store.specs.Stands.{Rests};
ghost use Rattle.as2_store.specs.Calls.{TablesLast};
ghost use Rattle.as2_instance.specs.Tables.{TakesOver, LastsOver};

use as2_agreement::Agreements;
use as2_exchange::{Answer, Event, StoreFault};
use as2_kept::Kept;
use as2_station::Station;
use as2_store::Store;
use sqlite::Alter;
use std::alloc::Global;

/// What is answered to an event, and the store behind it.
#[derive(Drop)]
pub struct Taken<S: Alter> {
    pub store: Store<S>,
    pub answer: Result<Answer, StoreFault>,
}

/// Takes an event over the records of a connection.
pub fn take<S: Alter>(
    store: Store<S>,
    alloc: Global,
    agreements: &Agreements,
    event: Event,
) -> Taken<S>
    ensures by_history { TakesOver agreements.now event (state S.Store store) (state S.Store result.store)
        result.answer }
    ensures lasts { LastsOver (state S.Store result.store) }
{
    let mut station = Station::new(Kept::new(store));
    let answer = station.step(alloc, agreements, event);
    Taken {
        store: station.into_records().into_store(),
        answer,
    }
}
