//! What a command does over the store.
ghost use Rattle.std.specs.Prelude.{◌≡◌, ◌⊎◌, ◌+◌, ℕ, Option, Ok, None, codes, IfErr, IfOk, IfSome, IsSomeAnd};
ghost use Rattle.as2_exchange.specs.State.{State, content_limit};
ghost use Rattle.as2_host.specs.Networks.{ExchangedOver, listening_of};
ghost use Rattle.as2_host.specs.Stores.{Finds, opens_of};
ghost use Rattle.as2_bounded.specs.Rooms.{room_of};
ghost use Rattle.as2_desk.specs.Endings.{EndsRefused};
ghost use Rattle.as2_desk.specs.Observed.{errors_of, filing_of, input_of, console_outcome, output_of, stored_of};
ghost use Rattle.as2_desk.specs.Runs.{Goes};
ghost use Rattle.as2_desk.specs.Statuses.{status_done, status_failed, status_refused};
ghost use Rattle.as2_desk.specs.Stops.{StopsAtFault};
ghost use Rattle.as2_desk.specs.Stores.{IsKeptAt};
ghost use Rattle.as2_host.specs.FileContents.{front};
ghost use Rattle.as2_desk.specs.FileDocuments.{DocumentResult, HasDocument};
ghost use Rattle.as2_desk.specs.Works.{CarriesOut, DoesWork, IsAsked, IsWork, IsSendCommand, SendsWork, ServesIt, ServesWork, asked_of, hand_in};
ghost use Rattle.as2_desk.specs.declared.refusal.CommandFault.TheVariants.{Store as Failing};

use crate::asking::ask;
use crate::console::{Console, Host, Outside};
use crate::documents::document_in;
use crate::evidence::gather;
use crate::hints::is_limit_told;
use crate::posting::post;
use crate::refusal::{CommandFault, refuse};
use crate::sending::send_due;
use crate::serving::serve;
use crate::status::Ran;
use crate::terms::{NamedStore, Terms};
use crate::verifying::look_through;
use as2_audit::Watch;
use as2_bounded::{Bounded, room_of};
use as2_commands::{Command, EvidenceRequest, FirstNumber, Format, Question, Submission};
use as2_host::{CountsBusy, MakeFiles, Network, OpenFault, OpenStores, ReadFiles};
use as2_http::{Journal, Sink, Source};
use as2_records::Records;
use as2_station::{NewDocument, Station};
use std::alloc::Global;
use std::io::Write;

/// What is done over the store.
#[derive(Drop)]
pub(crate) enum Work<'a> {
    /// A command is carried out, whose document was read.
    At(Command<'a, NewDocument>),
    /// The records are looked through.
    Verify(Format),
    /// The files are made that show how a document stands.
    GatherEvidence(EvidenceRequest<'a>),
}

/// The document of a submission, whose file is read.
fn handed<F: ReadFiles>(
    alloc: Global,
    files: &F,
    submission: Submission<'_>,
) -> Result<NewDocument, CommandFault>
    ensures { (document : DocumentResult)
        × HasDocument (front (content_limit + 1) (F.content files.now submission.entry.path)) document
        × (asked_of result ≡ hand_in submission.entry document) }
{
    let content = document_in(alloc, files, submission.path)?;
    Ok(NewDocument {
        organization: submission.from,
        partner: submission.to,
        content,
    })
}

/// What is asked, once the file of a submission is read. No other file is.
fn asked<F: ReadFiles>(
    alloc: Global,
    files: &F,
    question: Question<Submission<'_>>,
) -> Result<Question<NewDocument>, CommandFault>
    ensures { IsAsked (F.content files.now) question.entry result }
{
    match question {
        Question::Submit(submission) => Ok(Question::Submit(handed(alloc, files, submission)?)),
        Question::Tick => Ok(Question::Tick),
        Question::Resend(number) => Ok(Question::Resend(number)),
        Question::List(filter, idle, format) => Ok(Question::List(filter, idle, format)),
        Question::Outstanding(format) => Ok(Question::Outstanding(format)),
        Question::Show(number, format) => Ok(Question::Show(number, format)),
        Question::Fetch(number) => Ok(Question::Fetch(number)),
    }
}

/// What the command does, once its document is read.
pub(crate) fn work_of<'a, F: ReadFiles>(
    alloc: Global,
    files: &F,
    command: Command<'a, Submission<'a>>,
) -> Result<Work<'a>, CommandFault>
    ensures { IsWork (F.content files.now) command.entry result }
{
    match command {
        Command::Post(logs) => Ok(Work::At(Command::Post(logs))),
        Command::Ask(question) => {
            let asked = asked(alloc, files, question)?;
            Ok(Work::At(Command::Ask(asked)))
        }
        Command::Send(waits) => Ok(Work::At(Command::Send(waits))),
        Command::Serve(serving) => Ok(Work::At(Command::Serve(serving))),
    }
}

/// Carries out the command at the station.
fn do_at<
    K: Records,
    F: MakeFiles,
    N: Network,
    R: Source,
    W: Sink,
    H: Write + Journal + CountsBusy,
    E: Sink,
>(
    terms: &Terms<'_>,
    command: Command<'_, NewDocument>,
    station: &mut Station<K>,
    outside: &mut Outside<F, N>,
    console: &mut Console<R, W, H, E>,
) -> Ran
    ensures status { (result.status ≡ status_done)
        ⊎ ((result.status ≡ status_refused) ⊎ (result.status ≡ status_failed)) }
    ensures unmade { outside.new.files ≡ outside.old.files }
    ensures clean { (K.shows station.new).IsClean → (K.shows station.old).IsClean }
    ensures does { (known : Option State)
        → IfSome known (λ s. (K.shows station.new).IsClean × (K.shows station.old).Rests s)
        → CarriesOut terms.now.agreements.now terms.now.moment command.entry known (record {
          input = input_of R.Source console.old console.new;
          outcome = console_outcome W.Sink E.Sink console.old console.new (λ t. (K.shows station.new).Rests t);
          filing = filing_of F.MakeFiles outside.old.files outside.new.files;
          Unasked = outside.new.network ≡ outside.old.network;
          Exchanged = ExchangedOver N.Network N.Links.Links outside.old.network outside.new.network;
          listening = listening_of N.Network N.Listener.Listens outside.old.network outside.new.network;
        }) result }
    ensures store { result.status ≡ status_failed
        → StopsAtFault (IsSendCommand command.entry) (ServesIt command.entry)
        (input_of R.Source console.old console.new)
        (output_of W.Sink console.old console.new) (errors_of E.Sink console.old console.new) result }
{
    match command {
        Command::Post(logs) => post(terms, station, logs, console),
        Command::Ask(question) => ask(terms, station, question, console),
        Command::Send(waits) => {
            let mut links = outside.network.links(waits);
            let ran = send_due(terms, station, &mut links, console);
            outside.network.close(links);
            ran
        }
        Command::Serve(serving) => { serve(terms, serving, station, &mut outside.network, console) }
    }
}

/// Does the work, where there are records to do it over, and gives them back.
fn do_over<
    K: Records + Drop,
    F: MakeFiles,
    N: Network,
    R: Source,
    W: Sink,
    H: Write + Journal + CountsBusy + Watch,
    E: Sink,
>(
    terms: &Terms<'_>,
    work: Work<'_>,
    records: Result<K, OpenFault>,
    outside: &mut Outside<F, N>,
    console: &mut Console<R, W, H, E>,
) -> (Ran, Option<K>)
    ensures status { (result.0.status ≡ status_done)
        ⊎ ((result.0.status ≡ status_refused) ⊎ (result.0.status ≡ status_failed)) }
    ensures fails { IfErr records (λ fault. (result.1 ≡ None) × (outside.new.files ≡ outside.old.files)
        × (outside.new.network ≡ outside.old.network) × (console.new.input ≡ console.old.input)
        × (console.new.output ≡ console.old.output)
        × EndsRefused (Failing fault) (errors_of E.Sink console.old console.new) result.0) }
    ensures does { IfOk records (λ opened. IsSomeAnd result.1 (λ last. ((K.shows last).IsClean
        → (K.shows opened).IsClean)
        × ((known : Option State) → IfSome known (λ s. (K.shows last).IsClean × (K.shows opened).Rests s)
        → DoesWork terms.now.agreements.now terms.now.moment work.entry known (record {
          input = input_of R.Source console.old console.new;
          outcome = console_outcome W.Sink E.Sink console.old console.new (λ t. (K.shows last).Rests t);
          filing = filing_of F.MakeFiles outside.old.files outside.new.files;
          Unasked = outside.new.network ≡ outside.old.network;
          Exchanged = ExchangedOver N.Network N.Links.Links outside.old.network outside.new.network;
          listening = listening_of N.Network N.Listener.Listens outside.old.network outside.new.network;
        }) result.0))) }
    ensures store { result.0.status ≡ status_failed
        → StopsAtFault (SendsWork work.entry) (ServesWork work.entry) (input_of R.Source console.old console.new)
        (output_of W.Sink console.old console.new) (errors_of E.Sink console.old console.new) result.0 }
{
    let records = match records {
        Ok(records) => records,
        Err(fault) => {
            return (
                refuse(CommandFault::Store(fault), &mut console.errors),
                None,
            );
        }
    };
    match work {
        Work::At(command) => {
            let mut station = Station::new(records);
            let ran = do_at(terms, command, &mut station, outside, console);
            (ran, Some(station.into_records()))
        }
        Work::Verify(format) => {
            let mut records = records;
            let ran = look_through(terms, format, &mut records, console);
            (ran, Some(records))
        }
        Work::GatherEvidence(wanted) => {
            let mut records = records;
            let ran = gather(terms, wanted, &mut records, &mut outside.files, console);
            (ran, Some(records))
        }
    }
}

/// Opens the records of that path, or makes some that begin with `first`, with the room that a limit of so many MiB leaves.
fn open_in<O: OpenStores>(
    alloc: Global,
    path: &str,
    first: FirstNumber,
    limit: u64,
    stores: &mut O,
) -> Result<Bounded<O::Opened>, OpenFault>
    ensures found { Finds (λ b. O.Opened.shows b.records) (O.keeps stores.old path.now first) result }
    ensures room { IfOk result (λ b. (size : ℕ) × O.takes stores.old path.now size × (b.room ≡ room_of limit size)) }
    ensures fault { IfErr result (λ fault. O.fails stores.old path.now fault) }
    ensures same { IfErr result (λ fault. (number : ℕ) (s : State) → O.keeps stores.old path.now number s
        → O.keeps stores.new path.now number s) }
    ensures clean { IfOk result (λ b. (O.Opened.shows b.records).IsClean → O.is_clean stores.old) }
    ensures unclean { IfErr result (λ _. O.is_clean stores.new → O.is_clean stores.old) }
    ensures counted { O.opens stores.new ≡ O.opens stores.old + opens_of result }
{
    let room = room_of(limit, stores.size(path));
    match stores.open(alloc, path, first) {
        Ok(records) => Ok(Bounded::new(records, room)),
        Err(fault) => Err(fault),
    }
}

/// Closes the records of that path, where they were opened, and gives how many contents they had no room for.
fn close_in<O: OpenStores>(stores: &mut O, path: &str, records: Option<Bounded<O::Opened>>) -> u64
    ensures clean { IfSome records (λ last. O.is_clean stores.new → (O.Opened.shows last.records).IsClean) }
    ensures kept { IfSome records (λ last. O.is_clean stores.new → (t : State) → (O.Opened.shows last.records).Rests t
        → (number : ℕ) → O.keeps stores.new path.now number t) }
    ensures none { records ≡ None → (stores.new ≡ stores.old) × (result ≡ 0) }
    ensures counted { O.opens stores.new ≡ O.opens stores.old }
    ensures refused { IfSome records (λ last. result ≡ last.refused) }
{
    let Some(records) = records else {
        return 0;
    };
    let refused = records.refused();
    stores.close(path, records.into_records());
    refused
}

/// Does the work over the store that is named, which is opened and closed.
pub(crate) fn work_over<
    F: MakeFiles,
    O: OpenStores,
    N: Network,
    R: Source,
    W: Sink,
    H: Write + Journal + CountsBusy + Watch,
    E: Sink,
>(
    terms: &Terms<'_>,
    store: NamedStore<'_>,
    work: Work<'_>,
    host: &mut Host<F, O, N>,
    console: &mut Console<R, W, H, E>,
) -> Ran
    ensures status { (result.status ≡ status_done)
        ⊎ ((result.status ≡ status_refused) ⊎ (result.status ≡ status_failed)) }
    ensures goes { Goes terms.now.agreements.now (record {
      first = store.entry.first;
      moment = terms.now.moment;
      limit = store.entry.limit;
    }) (Ok work.entry) (record {
      input = input_of R.Source console.old console.new;
      outcome = console_outcome W.Sink E.Sink console.old console.new
          (IsKeptAt store.entry.path.now (O.keeps host.new.stores store.entry.path.now));
      filing = filing_of F.MakeFiles host.old.outside.files host.new.outside.files;
      Unasked = host.new.outside.network ≡ host.old.outside.network;
      Exchanged = ExchangedOver N.Network N.Links.Links host.old.outside.network host.new.outside.network;
      listening = listening_of N.Network N.Listener.Listens host.old.outside.network host.new.outside.network;
    }) (stored_of O.OpenStores host.old.stores host.new.stores store.entry.path.now) result }
    ensures clean { O.is_clean host.new.stores → O.is_clean host.old.stores }
    ensures memory { store.entry.path.now ≡ codes ":memory:" → host.new.stores ≡ host.old.stores }
    ensures store { result.status ≡ status_failed
        → StopsAtFault (SendsWork work.entry) (ServesWork work.entry) (input_of R.Source console.old console.new)
        (output_of W.Sink console.old console.new) (errors_of E.Sink console.old console.new) result }
{
    let NamedStore { path, first, limit } = store;
    if path == ":memory:" {
        let records = host.stores.open_in_memory(terms.alloc, first);
        let (ran, _) = do_over(terms, work, records, &mut host.outside, console);
        return ran;
    }
    let records = open_in(terms.alloc, path, first, limit, &mut host.stores);
    let (ran, left) = do_over(terms, work, records, &mut host.outside, console);
    let refused = close_in(&mut host.stores, path, left);
    let _ = is_limit_told(refused, limit, &mut console.hints);
    ran
}
