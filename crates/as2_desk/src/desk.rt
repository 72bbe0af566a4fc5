//! A command line, run.
ghost use Rattle.std.specs.Prelude.{◌≡◌, ◌≢◌, ◌⊎◌, ℕ, List, codes};
ghost use Rattle.clap.specs.Walk.{texts};
ghost use Rattle.clap.specs.Words.{kind_of};
ghost use Rattle.clap.specs.declared.error.kind.ErrorKind.TheVariants.{OutOfMemory};
ghost use Rattle.as2_commands.specs.CommandLine.{AsksForHelp, IsHelp};
ghost use Rattle.as2_commands.specs.Options.{Gives, GivesNone};
ghost use Rattle.as2_host.specs.Networks.{ExchangedOver, listening_of};
ghost use Rattle.as2_desk.specs.Endings.{EndsRefused};
ghost use Rattle.as2_desk.specs.Helping.{Helps, SaysFaulty};
ghost use Rattle.as2_desk.specs.Observed.{errors_of, filing_of, input_of, console_outcome, output_of, stored_of};
ghost use Rattle.as2_desk.specs.Runs.{WordsAskFor, DoesTask, IsSending, IsServing, Runs};
ghost use Rattle.as2_desk.specs.Stops.{StopsAtFault};
ghost use Rattle.as2_desk.specs.Statuses.{IsExitStatus, status_done, status_failed, status_faulty, status_refused};
ghost use Rattle.as2_desk.specs.Stores.{IsKeptAt};
ghost use Rattle.as2_desk.specs.Written.{written_of};
ghost use Rattle.as2_commands.specs.declared.tasks.Task.{Task as TheTask};
ghost use Rattle.as2_desk.specs.declared.refusal.CommandFault.TheVariants.{Memory};

use crate::agreed::agreements_in;
use crate::check::check;
use crate::console::{Console, Host};
use crate::hints::{document_path, is_named, is_noticed};
use crate::migrating::migrate;
use crate::places::is_told;
use crate::refusal::{CommandFault, is_said, refuse};
use crate::status::{DONE, FAULTY, Ran};
use crate::terms::{NamedStore, Terms};
use crate::work::{Work, work_of, work_over};
use as2_agreement::Agreements;
use as2_audit::Watch;
use as2_commands::{Options, Task, options_in};
use as2_host::{CountsBusy, MakeFiles, Network, OpenStores, ReadFiles};
use as2_http::{Journal, Sink, Source, push_all};
use clap::Error;
use clap::error::ErrorKind;
use std::alloc::Global;
use std::io::Write;

/// Runs the command line `words`, which begin with the program's name. `clock` is the moment where the options give none, in seconds since 1970, if
/// it can be told. The agreements, and the document of a submission, are read from the host's files, and the files of evidence are made there. A
/// store is opened from its stores, and closed. Where its path is `:memory:`, it is in memory. What the command has to say goes to the console's
/// output. Why something was refused or is faulty goes to its errors. Why a try failed and what wasn't looked at goes to its hints, where replies are
/// noted, too.
pub fn run<
    F: ReadFiles + MakeFiles,
    O: OpenStores,
    N: Network,
    R: Source,
    W: Sink,
    H: Write + Journal + CountsBusy + Watch,
    E: Sink,
>(
    alloc: Global,
    words: &[&str],
    clock: Option<u64>,
    host: &mut Host<F, O, N>,
    console: &mut Console<R, W, H, E>,
) -> Ran
    ensures status { IsExitStatus result.status }
    // Words that ask for something are no faulty command line.
    ensures given { (path store : List ℕ) (task : TheTask) → Gives (texts words.entry.now) clock path store task
        → result.status ≢ status_faulty }
    // It is done over the agreements and the store that they name, or the refusal is told that stands in their place; where
    // memory for the words was wanting nothing is done.
    ensures runs { (path store : List ℕ) (task : TheTask)
        → Gives (texts words.entry.now) clock path store task
        → Runs (F.content host.old.outside.files) path task
        (record {
          input = input_of R.Source console.old console.new;
          outcome = console_outcome W.Sink E.Sink console.old console.new
              (IsKeptAt store (O.keeps host.new.stores store));
          filing = filing_of F.MakeFiles host.old.outside.files host.new.outside.files;
          Unasked = host.new.outside.network ≡ host.old.outside.network;
          Exchanged = ExchangedOver N.Network N.Links.Links host.old.outside.network host.new.outside.network;
          listening = listening_of N.Network N.Listener.Listens host.old.outside.network host.new.outside.network;
        })
        (stored_of O.OpenStores host.old.stores host.new.stores store) result
        ⊎ ((host.new.stores ≡ host.old.stores) × (host.new.outside ≡ host.old.outside)
        × (console.new.input ≡ console.old.input) × (console.new.output ≡ console.old.output)
        × EndsRefused Memory (errors_of E.Sink console.old console.new) result) }
    // What is read of the stores is what had been written, only where it was before.
    ensures clean { O.is_clean host.new.stores → O.is_clean host.old.stores }
    // A store in memory leaves the others as they were.
    ensures memory { (path : List ℕ) (task : TheTask) → Gives (texts words.entry.now) clock path (codes ":memory:") task
        → host.new.stores ≡ host.old.stores }
    // Words that ask for nothing run nothing, open nothing, make no file, and ask nothing of the network.
    ensures unread { GivesNone (texts words.entry.now) clock → (console.new.input ≡ console.old.input)
        × (host.new.stores ≡ host.old.stores)
        × (host.new.outside ≡ host.old.outside) }
    // They are faulty, unless they ask for the help or the version; memory may be wanting to say so.
    ensures none { GivesNone (texts words.entry.now) clock → ¬ AsksForHelp (texts words.entry.now)
        → ((result.status ≡ status_faulty) ⊎ EndsRefused Memory (errors_of E.Sink console.old console.new) result)
        × (console.new.output ≡ console.old.output) }
    // Why they are faulty is said, and the help or the version is printed.
    ensures said { result.status ≡ status_faulty → SaysFaulty (errors_of E.Sink console.old console.new) result }
    ensures help { GivesNone (texts words.entry.now) clock → result.status ≢ status_faulty
        → Helps (output_of W.Sink console.old console.new) (errors_of E.Sink console.old console.new) result }
    // A faulty command line reads and prints nothing, opens nothing, makes no file, and asks nothing of the network.
    ensures untouched { result.status ≡ status_faulty → (console.new.input ≡ console.old.input)
        × (console.new.output ≡ console.old.output)
        × (host.new.stores ≡ host.old.stores) × (host.new.outside ≡ host.old.outside) }
    // A store with a fault is told, and nothing is read or written then; what was sent or served before stands, with its lines.
    ensures store { result.status ≡ status_failed
        → StopsAtFault (WordsAskFor (texts words.entry.now) clock IsSending)
        (WordsAskFor (texts words.entry.now) clock IsServing)
        (input_of R.Source console.old console.new) (output_of W.Sink console.old console.new)
        (errors_of E.Sink console.old console.new) result }
{
    match options_in(alloc, words, clock) {
        Ok(options) => {
            let path = options.agreements;
            let is_checked = is_check(&options.task);
            let (agreed, noticed) = agreements_in(alloc, &host.outside.files, path, is_checked);
            let unread = is_unread(&agreed);
            let done = carry_out(alloc, options, agreed, host, console);
            let _ = is_told(&noticed, &mut console.hints);
            let _ = is_named(unread, path, &mut console.hints);
            done
        }
        Err(error) => tell(alloc, &error, &mut console.output, &mut console.errors),
    }
}

/// Does what is asked for, where there are agreements to do it over.
fn carry_out<
    F: ReadFiles + MakeFiles,
    O: OpenStores,
    N: Network,
    R: Source,
    W: Sink,
    H: Write + Journal + CountsBusy + Watch,
    E: Sink,
>(
    alloc: Global,
    options: Options<'_>,
    agreed: Result<Agreements, CommandFault>,
    host: &mut Host<F, O, N>,
    console: &mut Console<R, W, H, E>,
) -> Ran
    ensures status { (result.status ≡ status_done)
        ⊎ ((result.status ≡ status_refused) ⊎ (result.status ≡ status_failed)) }
    ensures comes { DoesTask (F.content host.old.outside.files) agreed options.entry.task
        (record {
          input = input_of R.Source console.old console.new;
          outcome = console_outcome W.Sink E.Sink console.old console.new
              (IsKeptAt options.entry.store.now (O.keeps host.new.stores options.entry.store.now));
          filing = filing_of F.MakeFiles host.old.outside.files host.new.outside.files;
          Unasked = host.new.outside.network ≡ host.old.outside.network;
          Exchanged = ExchangedOver N.Network N.Links.Links host.old.outside.network host.new.outside.network;
          listening = listening_of N.Network N.Listener.Listens host.old.outside.network host.new.outside.network;
        })
        (stored_of O.OpenStores host.old.stores host.new.stores options.entry.store.now) result }
    ensures clean { O.is_clean host.new.stores → O.is_clean host.old.stores }
    ensures memory { options.entry.store.now ≡ codes ":memory:" → host.new.stores ≡ host.old.stores }
    ensures store { result.status ≡ status_failed
        → StopsAtFault (IsSending options.entry.task) (IsServing options.entry.task)
        (input_of R.Source console.old console.new)
        (output_of W.Sink console.old console.new) (errors_of E.Sink console.old console.new) result }
{
    let Options { store, task, .. } = options;
    let agreements = match agreed {
        Ok(agreements) => agreements,
        Err(refusal) => return refuse(refusal, &mut console.errors),
    };
    match task {
        Task::Check => check(alloc, &agreements, &mut console.output, &mut console.errors),
        Task::Migrate => migrate(store, host, console),
        Task::Operate(_, _) => refuse(CommandFault::StationRuns, &mut console.errors),
        Task::Stop => refuse(CommandFault::NoStation, &mut console.errors),
        Task::Verify(run, format) => {
            let terms = Terms::of(alloc, &agreements, run.moment);
            let store = NamedStore::of(store, run);
            work_over(&terms, store, Work::Verify(format), host, console)
        }
        Task::GatherEvidence(run, wanted) => {
            let terms = Terms::of(alloc, &agreements, run.moment);
            let store = NamedStore::of(store, run);
            work_over(&terms, store, Work::GatherEvidence(wanted), host, console)
        }
        Task::Run(run, command) => {
            let _ = is_noticed(&command, &mut console.hints);
            let path = document_path(&command);
            match work_of(alloc, &host.outside.files, command) {
                Ok(work) => {
                    let terms = Terms {
                        alloc,
                        agreements: &agreements,
                        moment: run.moment,
                    };
                    work_over(&terms, NamedStore::of(store, run), work, host, console)
                }
                Err(refusal) => {
                    let ran = refuse(refusal, &mut console.errors);
                    let unread = refusal == CommandFault::CannotRead;
                    let _ = is_named(unread, path, &mut console.hints);
                    ran
                }
            }
        }
    }
}

/// Whether agreements are to be checked.
fn is_check(task: &Task<'_>) -> bool {
    matches!(task, Task::Check)
}

/// Whether the file of agreements can't be read.
fn is_unread(agreed: &Result<Agreements, CommandFault>) -> bool {
    matches!(agreed, Err(CommandFault::CannotRead))
}

/// Says why nothing is run: help and the version on `output`, a fault on `errors`.
fn tell<W: Sink, E: Sink>(alloc: Global, error: &Error, output: &mut W, errors: &mut E) -> Ran
    ensures status { (result.status ≡ status_done)
        ⊎ ((result.status ≡ status_refused) ⊎ (result.status ≡ status_faulty)) }
    ensures fault { ¬ IsHelp (kind_of error.now)
        → ((result.status ≡ status_faulty) ⊎ EndsRefused Memory (written_of E.Sink errors.old errors.new) result)
        × (output.new ≡ output.old) }
    ensures help { IsHelp (kind_of error.now) → result.status ≢ status_faulty }
    ensures said { result.status ≡ status_faulty → SaysFaulty (written_of E.Sink errors.old errors.new) result }
    ensures helps { result.status ≢ status_faulty
        → Helps (written_of W.Sink output.old output.new) (written_of E.Sink errors.old errors.new) result }
    // Want of memory is told as such, or the error is another.
    ensures memory { ((output.new ≡ output.old) × EndsRefused Memory (written_of E.Sink errors.old errors.new) result)
        ⊎ (kind_of error.now ≢ OutOfMemory) }
{
    if error.kind() == ErrorKind::OutOfMemory {
        return refuse(CommandFault::Memory, errors);
    }
    let Ok(text) = error.to_string(alloc) else {
        return refuse(CommandFault::Memory, errors);
    };
    let text = text.as_str();
    if text.is_empty() {
        return refuse(CommandFault::Memory, errors);
    }
    if error.use_stderr() {
        return Ran {
            status: FAULTY,
            told: is_said(text, errors),
        };
    }
    if push_all(output, text.as_bytes()).is_err() {
        return refuse(CommandFault::CannotWrite, errors);
    }
    Ran {
        status: DONE,
        told: true,
    }
}
