//! Events, and a stop or a close behind them.
ghost use Rattle.std.specs.Prelude.{◌⊎◌, IfOk, IfSome};
ghost use Rattle.sqlite_disk.specs.Modelled.{calls_of, start_of};
ghost use Rattle.sqlite.specs.State.{HasCleanDisk};
ghost use Rattle.sqlite.specs.Files.{file_state};
ghost use Rattle.as2_exchange.specs.State.{State};
ghost use Rattle.as2_store.specs.Stands.{Rests};
ghost use Rattle.as2_station.specs.Traces.{trace};
ghost use Rattle.as2_restart.specs.Files.{EndsInFiles, HasCollided};
ghost use Rattle.as2_restart.specs.Restarts.{LeadsToHeld, IsHeld, WasPlayed};

use crate::files::shut;
use crate::reopening::stop_and_open;
use as2_agreement::Agreements;
use as2_exchange::{Answer, Event, StoreFault};
use as2_kept::Kept;
use as2_station::Station;
use as2_text::Memory;
use sqlite::{FileStore, Options};
use sqlite_disk::{Calls, Crash, Disk, Files, Modelled, Start};
use std::alloc::Global;

/// A list of events, and the opening behind its stop.
#[derive(Drop)]
pub struct Stopped<D: Disk> {
    /// What was said to each event.
    pub said: Vec<Result<Answer, StoreFault>>,
    /// The station over the files that were left, where they could be opened.
    pub again: Option<Station<Kept<FileStore<D>>>>,
}

/// A list of events, and the close behind it.
#[derive(Drop)]
pub struct Closed<D: Disk> {
    /// What was said to each event.
    pub said: Vec<Result<Answer, StoreFault>>,
    /// The files of the store, where it could be closed.
    pub files: Option<Files<D>>,
}

/// Takes the events one after the other; then the computer stops, and the files that are left are opened again. What was
/// answered stands; of what was not, one event at most is done. Memory where nothing has happened.
pub fn play_then_stop<D: Crash + Drop>(
    alloc: Global,
    mut station: Station<Kept<FileStore<D>>>,
    agreements: &Agreements,
    events: Vec<Event>,
    options: Options,
) -> Result<Stopped<D>, Memory>
    ensures played { IfOk result (λ r. WasPlayed agreements.now events.items r.said.items station) }
    ensures comes { IfOk result (λ r. IfSome r.again (λ again. HasCleanDisk (file_state again) → (s : State)
        → IsHeld (file_state station) s
        → ∥ LeadsToHeld agreements.now (trace events.items r.said.items) s (file_state again) ∥₁)) }
{
    let said = station.play(alloc, agreements, events)?;
    let again = stop_and_open(alloc, station, options);
    Ok(Stopped { said, again })
}

/// Takes the events one after the other, and closes the store, whose files record their calls, as a program's do. Where the
/// store is under the kit's shield, the files hold what the events led to, or a 64-bit digest has collided. An open whose reads
/// were honest gives the shield. Memory where nothing has happened.
pub fn play_then_close<C: Calls + Drop, S: Start>(
    alloc: Global,
    mut station: Station<Kept<FileStore<Modelled<C, S>>>>,
    agreements: &Agreements,
    events: Vec<Event>,
) -> Result<Closed<Modelled<C, S>>, Memory>
    ensures played { IfOk result (λ r. WasPlayed agreements.now events.items r.said.items station) }
    ensures closed { IfOk result (λ r. IfSome r.files (λ files. (file_state station).IsShielded → (s : State)
        → Rests (file_state station) s
        → EndsInFiles agreements.now (trace events.items r.said.items) s station files
        ⊎ HasCollided (start_of S.Start files.log) (start_of S.Start files.db) (C.Calls.history (calls_of files.log))
        (C.Calls.history (calls_of files.db)))) }
{
    let answers = station.play(alloc, agreements, events)?;
    let files = shut(station).ok();
    Ok(Closed {
        said: answers,
        files,
    })
}
