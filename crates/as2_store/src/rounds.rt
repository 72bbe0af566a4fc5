//! A round: what is written in it is committed with it, all at once.

ghost use Rattle.std.specs.Prelude.{◌≡◌, false};
ghost use Rattle.sqlite.specs.Held.{state};
ghost use Rattle.as2_store.specs.Rounds.{BeginsRound, CommitsRound};

use sqlite::{Alter, Connection, Error};

/// Begins a round.
pub fn hold<S: Alter>(conn: &mut Connection<S>) -> Result<(), Error>
    requires autocommit { conn.old.in_transaction ≡ false }
    ensures begins { BeginsRound (state S.Store conn.old) (state S.Store conn.new) result }
{
    conn.execute("BEGIN", &[])?;
    Ok(())
}

/// Commits what was written in a round. Where that fails the round is lost.
pub fn commit<S: Alter>(conn: &mut Connection<S>) -> Result<(), Error>
    ensures ends { CommitsRound (state S.Store conn.old) (state S.Store conn.new) result }
{
    conn.execute("COMMIT", &[])?;
    Ok(())
}
