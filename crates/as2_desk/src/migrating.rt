//! The command `migrate`: a store of an earlier version becomes one of the version that is read.
ghost use Rattle.std.specs.Prelude.{◌≡◌, ◌⊎◌, OnOk, IfErr, IfOk, codes, true, ℕ};
ghost use Rattle.std.specs.Io.KnownBytes.{Appends};
ghost use Rattle.as2_exchange.specs.State.{State};
ghost use Rattle.as2_host.specs.Migrating.{migrated_if_first};
ghost use Rattle.as2_desk.specs.Endings.{EndsRefused};
ghost use Rattle.as2_desk.specs.Migrating.{DoesMigration, counts_hint, entries_hint};
ghost use Rattle.as2_desk.specs.Observed.{stored_of};
ghost use Rattle.as2_desk.specs.Statuses.{status_done, status_failed, status_refused};
ghost use Rattle.as2_desk.specs.Stores.{IsStayAt};
ghost use Rattle.as2_desk.specs.Written.{written_of};
ghost use Rattle.as2_desk.specs.declared.refusal.CommandFault.TheVariants.{Store as Failing};
ghost use Rattle.as2_host.specs.declared.stores.OpenFault.{OpenFault as TheFault};

use crate::console::{Console, Host};
use crate::refusal::{CommandFault, refuse};
use crate::status::{DONE, Ran};
use as2_exchange::StoreFault;
use as2_host::{Entries, Migration, OpenFault, OpenStores};
use as2_http::{Sink, push_all};
use std::io;
use std::io::Write;

const VERSION: &str = "version 3\n";

/// Writes how many entries there were or are, where they were counted.
fn write_entries<H: Write>(when: &str, counted: Option<Entries>, hints: &mut H) -> io::Result<()>
    ensures { OnOk result (Appends (H.contents hints.old) (H.contents hints.new) (entries_hint when.now counted)) }
{
    let Some(Entries { inbox, outbox }) = counted else {
        return write!(hints, "hint: entries {when}: not counted\n");
    };
    write!(
        hints,
        "hint: entries {when}: inbox {inbox}, outbox {outbox}\n"
    )
}

/// Writes how many entries the store had and has.
fn write_counts<H: Write>(migration: Migration, hints: &mut H) -> io::Result<()>
    ensures { OnOk result (Appends (H.contents hints.old) (H.contents hints.new) (counts_hint migration)) }
{
    write_entries("before", migration.before, hints)?;
    write_entries("after", migration.after, hints)
}

/// Migrates the store of that path. One in memory is none, since it ends with the program.
fn migrated<O: OpenStores>(path: &str, stores: &mut O) -> Result<Migration, OpenFault>
    ensures moved { IfOk result (λ _. O.is_clean stores.new → (s : State) → O.keeps_earlier stores.old path.now s
        → (number : ℕ) → O.keeps stores.new path.now number (migrated_if_first s)) }
    ensures fault { IfErr result (IsStayAt path.now (O.stays stores.old path.now)) }
    ensures same { IfErr result (λ fault. (number : ℕ) (s : State) → O.keeps stores.old path.now number s
        → O.keeps stores.new path.now number s) }
    ensures earlier { IfErr result (λ fault. (s : State) → O.keeps_earlier stores.old path.now s
        → O.keeps_earlier stores.new path.now s) }
    ensures clean { O.is_clean stores.new → O.is_clean stores.old }
    ensures memory { path.now ≡ codes ":memory:" → stores.new ≡ stores.old }
    ensures counted { O.opens stores.new ≡ O.opens stores.old }
{
    if path == ":memory:" {
        return Err(OpenFault::Store(StoreFault::NotAStore));
    }
    stores.migrate(path)
}

/// Migrates the store of that path, and says which version it has then; how many entries it had and has is told with the hints.
pub(crate) fn migrate<F, O: OpenStores, N, R, W: Sink, H: Write, E: Sink>(
    path: &str,
    host: &mut Host<F, O, N>,
    console: &mut Console<R, W, H, E>,
) -> Ran
    ensures status { (result.status ≡ status_done)
        ⊎ ((result.status ≡ status_refused) ⊎ (result.status ≡ status_failed)) }
    ensures unread { console.new.input ≡ console.old.input }
    ensures unasked { host.new.outside ≡ host.old.outside }
    ensures migrates { DoesMigration (stored_of O.OpenStores host.old.stores host.new.stores path.now)
        (written_of W.Sink console.old.output console.new.output)
        (written_of E.Sink console.old.errors console.new.errors) result }
    ensures clean { O.is_clean host.new.stores → O.is_clean host.old.stores }
    ensures memory { path.now ≡ codes ":memory:" → host.new.stores ≡ host.old.stores }
    ensures store { result.status ≡ status_failed → (console.new.output ≡ console.old.output)
        × ((fault : TheFault)
        × EndsRefused (Failing fault) (written_of E.Sink console.old.errors console.new.errors) result) }
{
    let migration = match migrated(path, &mut host.stores) {
        Ok(migration) => migration,
        Err(fault) => return refuse(CommandFault::Store(fault), &mut console.errors),
    };
    let _ = write_counts(migration, &mut console.hints);
    if push_all(&mut console.output, VERSION.as_bytes()).is_err() {
        return refuse(CommandFault::CannotWrite, &mut console.errors);
    }
    Ran {
        status: DONE,
        told: true,
    }
}
