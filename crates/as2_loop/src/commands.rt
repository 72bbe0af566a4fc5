//! What is asked at the control socket, done over the station's own records.
ghost use Rattle.std.specs.Prelude.{◌≡◌, ◌≢◌, ◌⊎◌, IfSome, Some, true};
ghost use Rattle.clap.specs.Walk.{texts};
ghost use Rattle.clap.specs.Words.{kind_of};
ghost use Rattle.clap.specs.declared.error.kind.ErrorKind.TheVariants.{OutOfMemory};
ghost use Rattle.as2_loop.specs.Commands.{IsFor, RunsLendable, RunsWords};
ghost use Rattle.as2_loop.specs.Running.{RunsOn};

use crate::marks::FileMark;
use as2_bounded::{Bounded, room_of};
use as2_commands::{Command, Question, Submission, Task, options_in};
use as2_control::{Demand, Outcome};
use as2_desk::{AgreedText, CommandFault};
use as2_front::{Log, StationDesk};
use as2_host::OpenStores;
use as2_hub::Hub;
use as2_lent::{Forwarded, refused, run_forwarded};
use as2_links::LinkTable;
use as2_live::Live;
use as2_records::{Records, Rounds};
use as2_station::Station;
use as2_text::Moment;
use clap::Error;
use clap::error::ErrorKind;
use std::alloc::{AllocError, Global};

/// The exit status of what is done.
const DONE: u8 = 0;

/// What gives a limit of the store's files, as a word of its own before the number.
const LIMIT: &str = "--store-limit";

/// .. and as a word with the number.
const LIMIT_IS: &[u8] = b"--store-limit=";

/// What a station runs by.
#[derive(Drop)]
pub(crate) struct Basis {
    pub alloc: Global,
    /// What is agreed, and the bytes of its file.
    pub agreed: AgreedText,
    /// The SHA-256 of these bytes.
    pub digest: [u8; 32],
    /// The path of the store.
    pub store: String,
    /// The file that stood there as it was opened.
    pub file: FileMark,
    /// The most MiB that its files may have with a content more.
    pub limit: u64,
    /// What it does is noted there.
    pub log: Log,
}

impl Basis {
    /// Whether the store's file still stands at its path.
    pub(crate) fn is_in_place(&self, rt: &HostRuntime) -> bool {
        match FileMark::of(rt, self.store.as_str()) {
            Ok(found) => found == self.file,
            Err(_) => false,
        }
    }
}

/// What is done with a demand.
#[derive(Clone, Copy)]
enum Verdict<'a> {
    /// The station stops.
    Stops,
    /// It is refused.
    Refused(CommandFault),
    /// Its words are run. The agreements have this path.
    Runs(&'a str),
}

/// The name of a question.
fn question_name<'a>(question: &Question<Submission<'a>>) -> &'static str {
    match question {
        Question::Submit(_) => "submit",
        Question::Tick => "tick",
        Question::Resend(_) => "resend",
        Question::List(_, _, _) => "list",
        Question::Outstanding(_) => "outstanding",
        Question::Show(_, _) => "show",
        Question::Fetch(_) => "fetch",
    }
}

/// The name of a task, for the log.
fn task_name(task: &Task<'_>) -> &'static str {
    match task {
        Task::Check => "check",
        Task::Migrate => "migrate",
        Task::Verify(_, _) => "verify",
        Task::GatherEvidence(_, _) => "evidence",
        Task::Operate(_, _) => "run",
        Task::Stop => "stop",
        Task::Run(_, Command::Post(_)) => "post",
        Task::Run(_, Command::Send(_)) => "send",
        Task::Run(_, Command::Serve(_)) => "serve",
        Task::Run(_, Command::Ask(question)) => question_name(question),
    }
}

/// What is done with a task, whose agreements have that path.
fn verdict_on<'a>(task: &Task<'_>, path: &'a str) -> Verdict<'a>
    ensures { RunsLendable task.now path.entry.now result }
{
    match task {
        Task::Stop => Verdict::Stops,
        Task::Operate(_, _) | Task::Migrate => Verdict::Refused(CommandFault::StationRuns),
        Task::Run(_, Command::Post(_)) => Verdict::Refused(CommandFault::StationRuns),
        Task::Run(_, Command::Send(_)) => Verdict::Refused(CommandFault::StationRuns),
        Task::Run(_, Command::Serve(_)) => Verdict::Refused(CommandFault::StationRuns),
        _ => Verdict::Runs(path),
    }
}

/// Whether memory was wanting to read words.
fn is_memory(error: &Error) -> bool
    ensures { (result ≡ true) ⊎ (kind_of error.now ≢ OutOfMemory) }
{
    if error.kind() == ErrorKind::OutOfMemory {
        return true;
    }
    false
}

/// What is done with the words of a demand, and the name of what they ask for.
fn judge<'a>(
    basis: &Basis,
    digest: &[u8; 32],
    words: &'a [&'a str],
    clock: Option<u64>,
) -> (&'static str, Verdict<'a>)
    ensures { RunsWords (texts words.entry.now) clock result.1 }
{
    let options = match options_in(basis.alloc, words, clock) {
        Ok(options) => options,
        Err(error) if is_memory(&error) => {
            return ("-", Verdict::Refused(CommandFault::Memory));
        }
        Err(_) => return ("-", Verdict::Runs("")),
    };
    let name = task_name(&options.task);
    let verdict = verdict_on(&options.task, options.agreements);
    // (whoever has changed the file has to be able to stop the station that runs by the old one)
    if *digest != basis.digest && !matches!(verdict, Verdict::Stops) {
        return (name, Verdict::Refused(CommandFault::OtherAgreements));
    }
    (name, verdict)
}

/// Puts a station together: it answers over these records and these connections, and sends over these links.
pub(crate) fn answering<'a, R: Records>(
    basis: &'a Basis,
    moment: Moment,
    records: Bounded<R>,
    hub: Hub,
    links: LinkTable,
) -> Live<'a, Bounded<R>>
    ensures hub { result.hub ≡ hub }
    ensures links { result.links ≡ links }
    ensures agreed { result.desk.agreements.now ≡ basis.now.agreed.agreements }
    ensures records { result.desk.station ≡ records }
{
    let station = Station::new(records);
    let desk = StationDesk::new(basis.alloc, &basis.agreed.agreements, moment, station);
    Live::new(hub, desk.noting(&basis.log), links)
}

/// The records under the limit of a station.
pub(crate) fn bounded<R: Records, O: OpenStores>(
    basis: &Basis,
    stores: &O,
    records: R,
) -> Bounded<R>
    ensures { result.records ≡ records }
{
    Bounded::new(
        records,
        room_of(basis.limit, stores.size(basis.store.as_str())),
    )
}

/// What came of a demand, and the station.
#[derive(Drop)]
pub(crate) struct Attended<'a, K: Records> {
    /// None where the station is to stop, and where there was no memory for it.
    pub outcome: Option<Outcome>,
    /// The station is to stop.
    pub stops: bool,
    pub live: Option<Live<'a, K>>,
}

/// Runs a command line over the records of the station: what came of it, and the station, where its records were given back.
fn run_words<'a, R: Rounds + Drop, O: OpenStores>(
    basis: &'a Basis,
    moment: Moment,
    given: Forwarded<'_>,
    stores: &O,
    live: Live<'a, Bounded<R>>,
) -> (Outcome, Option<Live<'a, Bounded<R>>>)
    ensures { IsFor basis.now given.entry → IfSome result.1 (RunsOn R.shows basis.now live.entry) }
{
    let (hub, desk, links) = live.into_parts();
    let records = desk.into_station().into_records().into_records();
    let size = stores.size(basis.store.as_str());
    let (outcome, records) = run_forwarded(basis.alloc, given, records, size);
    let Some(records) = records else {
        return (outcome, None);
    };
    let records = bounded(basis, stores, records);
    (outcome, Some(answering(basis, moment, records, hub, links)))
}

/// Whether a word gives a limit of the store's files.
fn gives_limit(word: &str) -> bool {
    word == LIMIT || word.as_bytes().starts_with(LIMIT_IS)
}

/// The words of a demand, to be read. Unless they give a limit of the store's files, the station's is theirs.
fn texts_of<'a>(
    alloc: Global,
    words: &'a [String],
    limit: &'a str,
) -> Result<Vec<&'a str>, AllocError> {
    let is_limited = words.iter().any(|word| gives_limit(word.as_str()));
    let mut texts = Vec::new(alloc);
    for (i, word) in words.iter().enumerate() {
        texts.push(word.as_str())?;
        if i == 0 && !is_limited {
            texts.push(LIMIT)?;
            texts.push(limit)?;
        }
    }
    Ok(texts)
}

/// What came of a demand for what has that name, which is noted.
fn noted<'a, K: Records>(
    basis: &'a Basis,
    name: &str,
    outcome: Outcome,
    live: Option<Live<'a, K>>,
) -> Attended<'a, K>
    ensures live { result.live ≡ live.entry }
{
    note_command(basis, name, outcome.status);
    Attended {
        outcome: Some(outcome),
        stops: false,
        live,
    }
}

/// The station is left as it is, and the demand has no outcome.
fn unheard<K: Records>(stops: bool, live: Live<'_, K>) -> Attended<'_, K>
    ensures live { result.live ≡ Some live.entry }
{
    Attended {
        outcome: None,
        stops,
        live: Some(live),
    }
}

/// Does what a demand asks for.
pub(crate) fn attend<'a, R: Rounds + Drop, O: OpenStores>(
    basis: &'a Basis,
    moment: Moment,
    demand: &Demand,
    stores: &O,
    live: Live<'a, Bounded<R>>,
) -> Attended<'a, Bounded<R>>
    ensures { IfSome result.live (RunsOn R.shows basis.now live.entry) }
{
    let Ok(limit) = format!(in basis.alloc; "{}", basis.limit) else {
        return unheard(false, live);
    };
    let Ok(texts) = texts_of(basis.alloc, &demand.words, limit.as_str()) else {
        return unheard(false, live);
    };
    let clock = Some(moment.seconds());
    let words = texts.as_slice();
    let (name, verdict) = judge(basis, &demand.agreements, words, clock);
    match verdict {
        Verdict::Stops => {
            note_command(basis, name, DONE);
            unheard(true, live)
        }
        Verdict::Refused(fault) => noted(basis, name, refused(basis.alloc, fault), Some(live)),
        Verdict::Runs(path) => {
            let given = Forwarded {
                words,
                agreements_path: path,
                agreements: &basis.agreed.text,
                content: &demand.content,
                clock,
            };
            let (outcome, live) = run_words(basis, moment, given, stores, live);
            noted(basis, name, outcome, live)
        }
    }
}

/// Notes a command, and its status.
fn note_command(basis: &Basis, name: &str, status: u8) {
    if let Ok(line) = format!(in basis.alloc; "command {name} {status}") {
        basis.log.add(line.as_str().as_bytes());
    }
}
