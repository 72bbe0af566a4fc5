//! A round of the records in SQLite: it begins, and is committed.
ghost use Rattle.std.specs.Prelude.{◌≡◌, ◌+◌, ◌-◌, ◌^◌, min};

use crate::{HeldRound, Kept};
use as2_exchange::StoreFault;
use as2_records::Rounds;
use as2_store::Store;
use sqlite::Alter;

impl<S: Alter + Drop> Rounds for Kept<S> {
    type Round = HeldRound<S>;

    fn hold(self) -> Result<HeldRound<S>, (Kept<S>, StoreFault)> {
        let Kept { store } = self;
        let mut store = store;
        if !store.is_alone() {
            return Err((Kept { store }, StoreFault::Disk));
        }
        match store.hold() {
            Ok(()) => Ok(HeldRound { store, failures: 0 }),
            Err(fault) => Err((Kept { store }, fault)),
        }
    }

    fn commit(round: HeldRound<S>) -> Result<Kept<S>, HeldRound<S>> {
        let HeldRound { store, failures } = round;
        let mut store = store;
        if failures > 0 || store.is_alone() {
            return Err(lost(store, failures));
        }
        match store.commit() {
            Ok(()) => Ok(Kept { store }),
            Err(_) => Err(lost(store, failures)),
        }
    }
}

/// A round that couldn't be committed once more.
fn lost<S: Alter>(store: Store<S>, failures: u64) -> HeldRound<S>
    ensures store { result.store ≡ store }
    ensures failures { result.failures ≡ min (failures + 1) (2 ^ 64 - 1) }
{
    HeldRound {
        store,
        failures: failures.saturating_add(1),
    }
}
