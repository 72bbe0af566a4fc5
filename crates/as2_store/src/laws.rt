//! What holds of every database, as a law: it is proved, and does nothing.

ghost use Rattle.std.specs.Prelude.{◌≡◌};
ghost use Rattle.sqlite.specs.Effect.{Database};
ghost use Rattle.sqlite_trees.specs.Tree.{Trees};
ghost use Rattle.as2_exchange.specs.State.{State};
ghost use Rattle.as2_store.specs.Calls.{Keeps};
ghost use Rattle.as2_store.specs.Stands.{Stands};
ghost use Rattle.as2_store.specs.Tables.{Layout};

/// Tables stand for one state at most, whatever their version; and so does what a stop leaves.
pub fn one_state_stands()
    ensures tables { (l m : Layout) (d : Database) (s t : State) → Stands l d s → Stands m d t → s ≡ t }
    ensures left { (db : Trees) (s t : State) → Keeps db s → Keeps db t → s ≡ t }
{}
