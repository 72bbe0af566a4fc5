//! What the values say that the parser of words found.
ghost use Rattle.std.specs.Prelude.{◌≡◌, ◌↔◌, ◌<◌, ◌≤◌, ◌^◌, ◌-◌, ℕ, List, codes, Option, Some, None, option_map, IfOk, IfErr};
ghost use Rattle.as2_names.specs.Moments.{last_moment};
ghost use Rattle.as2_exchange.specs.State.{end_of_numbers};
ghost use Rattle.as2_views.specs.Layout.{state_text};
ghost use Rattle.as2_mdn.specs.declared.detail.DetailClass.{DetailClass};
ghost use Rattle.as2_views.specs.declared.filter.Filter.{Filter as TheFilter};
ghost use Rattle.clap.specs.Words.{first_of, found_of, one_of, rows_of, subcommand_rows_of};
ghost use Rattle.as2_commands.specs.Options.{AsksEvidence, AsksOperate, AsksRun, AsksServe, AsksShow, AsksSubmit, Commands, Give, IsEntryNumber, IsFormat, IsTimeout, box_of, Lists, is_state_ignored, is_set, NameIs, NumberFrom, NumberIs, SecondsAre, Tasks, TellsMoment, TellsOption};
ghost use Rattle.as2_commands.specs.Requests.{GivenOperating as TheOperating, GivenServing as TheServing, GivenSubmission as TheSubmission, GivenEvidence as TheWanted};
ghost use Rattle.as2_commands.specs.declared.tasks.Command.{Command as TheCommand};
ghost use Rattle.as2_commands.specs.declared.tasks.Format.{Format as TheFormat};
ghost use Rattle.as2_commands.specs.declared.tasks.Question.TheVariants.{Show};
ghost use Rattle.as2_commands.specs.declared.tasks.RunOptions.{RunOptions as TheOptions};
ghost use Rattle.as2_commands.specs.declared.tasks.Task.{Task as TheTask};

use crate::args::{
    AGREEMENTS, CONTROL, COUNT, FILE, FIRST, FORMAT, FROM, IDLE, KIND, LEAST_LIMIT, LEAST_WAIT,
    LISTEN, LOG, MOMENT, MOST_CONNECTIONS, MOST_LIMIT, MOST_WAIT, NUMBER, OUT, RECEIPTS_TO,
    RECEIVED, STATE, STORE, STORE_LIMIT, TIMEOUT, TO,
};
use crate::fault::OptionFault;
use crate::first_number::FirstNumber;
use crate::own::{CHECK, EVIDENCE, MIGRATE, RUN, STOP, VERIFY};
use crate::tasks::{
    Command, EvidenceRequest, Format, Operating, Options, Question, RunOptions, Serving,
    ServingWaits, Submission, Task, Waits,
};
use as2_audit::Mailbox;
use as2_exchange::END_OF_NUMBERS;
use as2_mdn::DetailClass;
use as2_text::{AsName, Moment};
use as2_views::Filter;
use clap::ArgMatches;

impl<'a> Options<'a> {
    /// What was found for the options and the command; the clock serves where a moment is needed and not given.
    pub(crate) fn of(
        found: &ArgMatches<'a>,
        clock: Option<u64>,
    ) -> Result<Options<'a>, OptionFault<'a>>
        ensures given { IfOk result
            (λ o. Give (rows_of (found_of found.now)) (subcommand_rows_of found.now) clock o.agreements.now o.store.now
            o.task) }
        ensures none { IfErr result (λ _. (path store : List ℕ) (task : TheTask)
            → ¬ Give (rows_of (found_of found.now)) (subcommand_rows_of found.now) clock path store task) }
    {
        let Some(agreements) = text(found, AGREEMENTS) else {
            return Err(OptionFault::NoValue(AGREEMENTS));
        };
        let Some(store) = text(found, STORE) else {
            return Err(OptionFault::NoValue(STORE));
        };
        let task = asked(found, clock)?;
        Ok(Options {
            agreements,
            store,
            task,
        })
    }
}

/// The text that an option has.
fn text<'a>(found: &ArgMatches<'a>, option: &str) -> Option<&'a str>
    ensures { option_map (λ s. s.now) result ≡ first_of option.now (rows_of (found_of found.now)) }
{
    found.get_str(option)
}

/// The command's word, and what was found for its own options.
fn own_part<'a, 'b>(found: &'b ArgMatches<'a>) -> Option<(&'a str, &'b ArgMatches<'a>)>
    ensures { option_map (λ p. (p.0.now, rows_of (found_of p.1.now))) result ≡ subcommand_rows_of found.now }
{
    found.subcommand()
}

/// What the command and the options ask for.
fn asked<'a>(found: &ArgMatches<'a>, clock: Option<u64>) -> Result<Task<'a>, OptionFault<'a>>
    ensures given { IfOk result (Tasks (rows_of (found_of found.now)) (subcommand_rows_of found.now) clock) }
    ensures none { IfErr result (λ _. (task : TheTask)
        → ¬ Tasks (rows_of (found_of found.now)) (subcommand_rows_of found.now) clock task) }
{
    let Some((word, own)) = own_part(found) else {
        return Err(OptionFault::NoCommand);
    };
    if word == CHECK {
        return Ok(Task::Check);
    }
    if word == MIGRATE {
        return Ok(Task::Migrate);
    }
    if word == STOP {
        return Ok(Task::Stop);
    }
    if word == RUN {
        let wanted = operating(found, own)?;
        return Ok(Task::Operate(run_options(found, clock)?, wanted));
    }
    if word == VERIFY {
        let format = format(own)?;
        return Ok(Task::Verify(run_options(found, clock)?, format));
    }
    if word == EVIDENCE {
        let wanted = wanted(own)?;
        return Ok(Task::GatherEvidence(run_options(found, clock)?, wanted));
    }
    let command = command_of(found, word, own)?;
    Ok(Task::Run(run_options(found, clock)?, command))
}

/// The command of that word.
fn command_of<'a>(
    found: &ArgMatches<'a>,
    word: &str,
    own: &ArgMatches<'a>,
) -> Result<Command<'a, Submission<'a>>, OptionFault<'a>>
    ensures given { IfOk result (Commands (rows_of (found_of found.now)) word.now (rows_of (found_of own.now))) }
    ensures none { IfErr result (λ _. (command : TheCommand TheSubmission)
        → ¬ Commands (rows_of (found_of found.now)) word.now (rows_of (found_of own.now)) command) }
{
    match word {
        "post" => Ok(Command::Post(is_set(own, LOG))),
        "submit" => Ok(Command::Ask(Question::Submit(submission(own)?))),
        "send" => Ok(Command::Send(waits(own)?)),
        "tick" => Ok(Command::Ask(Question::Tick)),
        "resend" => Ok(Command::Ask(Question::Resend(entry(own)?))),
        "list" => {
            let filter = filter(own)?;
            let is_idle = is_idle(filter, own);
            Ok(Command::Ask(Question::List(filter, is_idle, format(own)?)))
        }
        "outstanding" => Ok(Command::Ask(Question::Outstanding(format(own)?))),
        "show" => Ok(Command::Ask(showing(own)?)),
        "fetch" => Ok(Command::Ask(Question::Fetch(entry(own)?))),
        "serve" => Ok(Command::Serve(serving(found, own)?)),
        _ => Err(OptionFault::NoCommand),
    }
}

/// Whether a flag is there.
fn is_set(own: &ArgMatches<'_>, flag: &str) -> bool
    ensures { result ≡ is_set (first_of flag.now (rows_of (found_of own.now))) }
{
    match text(own, flag) {
        Some(text) => text == "true",
        None => false,
    }
}

/// The document that the options of `submit` name.
fn submission<'a>(own: &ArgMatches<'a>) -> Result<Submission<'a>, OptionFault<'a>>
    ensures given { IfOk result (AsksSubmit (rows_of (found_of own.now))) }
    ensures none { IfErr result (λ _. (s : TheSubmission) → ¬ AsksSubmit (rows_of (found_of own.now)) s) }
{
    let from = name(own, FROM)?;
    let to = name(own, TO)?;
    let Some(path) = text(own, FILE) else {
        return Err(OptionFault::NoValue(FILE));
    };
    Ok(Submission { from, to, path })
}

/// The AS2 name that an option spells.
fn name<'a>(own: &ArgMatches<'a>, option: &'a str) -> Result<AsName, OptionFault<'a>>
    ensures given { IfOk result (NameIs (first_of option.entry.now (rows_of (found_of own.now)))) }
    ensures none { IfErr result (λ _. (name : List ℕ)
        → ¬ NameIs (first_of option.entry.now (rows_of (found_of own.now))) name) }
{
    let Some(text) = text(own, option) else {
        return Err(OptionFault::NoName(option));
    };
    match AsName::parse(text.as_bytes()) {
        Ok(name) => Ok(name),
        Err(_) => Err(OptionFault::NoName(option)),
    }
}

/// How long a peer is waited for.
fn waits<'a>(own: &ArgMatches<'a>) -> Result<Waits, OptionFault<'a>>
    ensures given { IfOk result (λ w. IsTimeout (rows_of (found_of own.now)) w.seconds) }
    ensures none { IfErr result (λ _. (n : ℕ) → ¬ IsTimeout (rows_of (found_of own.now)) n) }
{
    let seconds = number_from(own, TIMEOUT, LEAST_WAIT, MOST_WAIT)?;
    Ok(Waits { seconds })
}

/// The number of an entry.
fn entry<'a>(own: &ArgMatches<'a>) -> Result<u64, OptionFault<'a>>
    ensures given { IfOk result (IsEntryNumber (rows_of (found_of own.now))) }
    ensures none { IfErr result (λ _. (n : ℕ) → ¬ IsEntryNumber (rows_of (found_of own.now)) n) }
{
    number_from(own, NUMBER, 1, END_OF_NUMBERS - 1)
}

/// The box of a document.
fn box_of(received: bool) -> Mailbox
    ensures { result ≡ box_of received }
{
    if received {
        return Mailbox::Inbox;
    }
    Mailbox::Outbox
}

/// Which document is to be proved, and where the files go.
fn wanted<'a>(own: &ArgMatches<'a>) -> Result<EvidenceRequest<'a>, OptionFault<'a>>
    ensures given { IfOk result (AsksEvidence (rows_of (found_of own.now))) }
    ensures none { IfErr result (λ _. (w : TheWanted) → ¬ AsksEvidence (rows_of (found_of own.now)) w) }
{
    let number = entry(own)?;
    let Some(folder) = text(own, OUT) else {
        return Err(OptionFault::NoValue(OUT));
    };
    Ok(EvidenceRequest {
        mailbox: box_of(is_set(own, RECEIVED)),
        number,
        folder,
    })
}

/// The question of `show`.
fn showing<'a>(own: &ArgMatches<'a>) -> Result<Question<Submission<'a>>, OptionFault<'a>>
    ensures given { IfOk result (AsksShow (rows_of (found_of own.now))) }
    ensures none { IfErr result (λ _. (n : ℕ) (form : TheFormat)
        → ¬ AsksShow (rows_of (found_of own.now)) (Show n form)) }
{
    let number = entry(own)?;
    let format = format(own)?;
    Ok(Question::Show(number, format))
}

/// How what is told is printed.
fn format<'a>(own: &ArgMatches<'a>) -> Result<Format, OptionFault<'a>>
    ensures given { IfOk result (IsFormat (rows_of (found_of own.now))) }
    ensures none { IfErr result (λ _. (f : TheFormat) → ¬ IsFormat (rows_of (found_of own.now)) f) }
{
    match text(own, FORMAT) {
        Some("text") => Ok(Format::Text),
        Some("json") => Ok(Format::Json),
        _ => Err(OptionFault::NoFormat),
    }
}

/// Whether a state is given and isn't looked at.
fn is_idle(filter: Filter, own: &ArgMatches<'_>) -> bool
    ensures { result ≡ is_state_ignored filter (first_of (codes "state") (rows_of (found_of own.now))) }
{
    match filter {
        Filter::Inbox => text(own, STATE).is_some(),
        Filter::Outbox(_) => false,
    }
}

/// The listing that is asked for. The state of what was received isn't looked at.
fn filter<'a>(own: &ArgMatches<'a>) -> Result<Filter, OptionFault<'a>>
    ensures given { IfOk result
        (Lists (first_of (codes "kind") (rows_of (found_of own.now)))
        (first_of (codes "state") (rows_of (found_of own.now)))) }
    ensures none { IfErr result (λ _. (f : TheFilter)
        → ¬ Lists (first_of (codes "kind") (rows_of (found_of own.now)))
        (first_of (codes "state") (rows_of (found_of own.now))) f) }
{
    match text(own, KIND) {
        Some("in") => Ok(Filter::Inbox),
        Some("out") => Ok(Filter::Outbox(state(own)?)),
        _ => Err(OptionFault::NoKind),
    }
}

/// The state that is asked for, where one is.
fn state<'a>(own: &ArgMatches<'a>) -> Result<Option<DetailClass>, OptionFault<'a>>
    ensures given { IfOk result (λ only. first_of (codes "state") (rows_of (found_of own.now))
        ≡ option_map state_text only) }
    ensures none { IfErr result (λ _. (only : Option DetailClass)
        → ¬ (first_of (codes "state") (rows_of (found_of own.now)) ≡ option_map state_text only)) }
{
    let Some(letter) = text(own, STATE) else {
        return Ok(None);
    };
    match state_of(letter) {
        Some(state) => Ok(Some(state)),
        None => Err(OptionFault::NoState),
    }
}

/// The state of that letter.
fn state_of(letter: &str) -> Option<DetailClass>
    ensures { (state : DetailClass) → (letter.now ≡ state_text state) ↔ (result ≡ Some state) }
{
    match letter {
        "P" => Some(DetailClass::P),
        "R" => Some(DetailClass::R),
        "S" => Some(DetailClass::S),
        "W" => Some(DetailClass::W),
        "E" => Some(DetailClass::E),
        _ => None,
    }
}

/// What the options of `serve` ask for. The moment is taken anew for each connection where the options give none.
fn serving<'a>(found: &ArgMatches<'a>, own: &ArgMatches<'a>) -> Result<Serving<'a>, OptionFault<'a>>
    ensures given { IfOk result (AsksServe (rows_of (found_of found.now)) (rows_of (found_of own.now))) }
    ensures none { IfErr result (λ _. (s : TheServing)
        → ¬ AsksServe (rows_of (found_of found.now)) (rows_of (found_of own.now)) s) }
{
    let Some(address) = text(own, LISTEN) else {
        return Err(OptionFault::NoValue(LISTEN));
    };
    let count = number_from(own, COUNT, 1, MOST_CONNECTIONS)?;
    let waits = ServingWaits {
        seconds: waits(own)?.seconds,
        idle: number_from(own, IDLE, LEAST_WAIT, MOST_WAIT)?,
    };
    let moment = given_moment(found)?;
    Ok(Serving {
        address,
        count,
        waits,
        moment,
    })
}

/// What the options of `run` ask for. The moment is the clock's, each time, where the options give none.
fn operating<'a>(
    found: &ArgMatches<'a>,
    own: &ArgMatches<'a>,
) -> Result<Operating<'a>, OptionFault<'a>>
    ensures given { IfOk result (AsksOperate (rows_of (found_of found.now)) (rows_of (found_of own.now))) }
    ensures none { IfErr result (λ _. (s : TheOperating)
        → ¬ AsksOperate (rows_of (found_of found.now)) (rows_of (found_of own.now)) s) }
{
    let Some(address) = text(own, LISTEN) else {
        return Err(OptionFault::NoValue(LISTEN));
    };
    let idle = number_from(own, IDLE, LEAST_WAIT, MOST_WAIT)?;
    let seconds = waits(own)?.seconds;
    let given = given_moment(found)?;
    Ok(Operating {
        address,
        control: text(own, CONTROL),
        waits: ServingWaits { seconds, idle },
        receipts_to: text(own, RECEIPTS_TO),
        moment: given,
    })
}

/// The moment that the option says, if it is there.
fn given_moment<'a>(found: &ArgMatches<'a>) -> Result<Option<Moment>, OptionFault<'a>>
    ensures given { IfOk result (TellsMoment (one_of (codes "moment") (rows_of (found_of found.now)))) }
    ensures none { IfErr result (λ _. (moment : Option ℕ)
        → ¬ TellsMoment (one_of (codes "moment") (rows_of (found_of found.now))) moment) }
{
    let Some(seconds) = number(found, MOMENT)? else {
        return Ok(None);
    };
    match Moment::new(seconds) {
        Some(moment) => Ok(Some(moment)),
        None => Err(OptionFault::NoMoment),
    }
}

/// The first number, the moment and the most MiB that the options give.
fn run_options<'a>(
    found: &ArgMatches<'a>,
    clock: Option<u64>,
) -> Result<RunOptions, OptionFault<'a>>
    ensures given { IfOk result (AsksRun (rows_of (found_of found.now)) clock) }
    ensures none { IfErr result (λ _. (options : TheOptions) → ¬ AsksRun (rows_of (found_of found.now)) clock options) }
{
    let first = first(found)?;
    let moment = moment(found, clock)?;
    let limit = number_from(found, STORE_LIMIT, LEAST_LIMIT, MOST_LIMIT)?;
    Ok(RunOptions {
        first,
        moment,
        limit,
    })
}

/// The number that an option says, if it is there.
fn number<'a>(found: &ArgMatches<'a>, option: &'a str) -> Result<Option<u64>, OptionFault<'a>>
    ensures said { IfOk result (TellsOption (one_of option.entry.now (rows_of (found_of found.now)))) }
    ensures none { IfErr result (λ _. (n : ℕ) → n < 2 ^ 64
        → ¬ NumberIs (one_of option.entry.now (rows_of (found_of found.now))) n) }
    ensures no_seconds { IfErr result (λ _. (clock : Option ℕ) (n : ℕ) → n < 2 ^ 64
        → ¬ SecondsAre (one_of option.entry.now (rows_of (found_of found.now))) clock n) }
    ensures some { IfErr result (λ _. ¬ (one_of option.entry.now (rows_of (found_of found.now)) ≡ None)) }
{
    match found.try_get_one::<u64>(option) {
        Ok(number) => Ok(number),
        Err(_) => Err(OptionFault::NoValue(option)),
    }
}

/// The number from `low` to `high` that an option says.
fn number_from<'a>(
    found: &ArgMatches<'a>,
    option: &'a str,
    low: u64,
    high: u64,
) -> Result<u64, OptionFault<'a>>
    ensures given { IfOk result (NumberFrom low high (one_of option.entry.now (rows_of (found_of found.now)))) }
    ensures none { IfErr result (λ _. (n : ℕ)
        → ¬ NumberFrom low high (one_of option.entry.now (rows_of (found_of found.now))) n) }
{
    match number(found, option)? {
        Some(number) if low <= number && number <= high => Ok(number),
        _ => Err(OptionFault::NoValue(option)),
    }
}

/// The first number that the option says.
fn first<'a>(found: &ArgMatches<'a>) -> Result<FirstNumber, OptionFault<'a>>
    ensures given { IfOk result
        (NumberFrom 1 (end_of_numbers - 1) (one_of (codes "first") (rows_of (found_of found.now)))) }
    ensures none { IfErr result (λ _. (n : ℕ)
        → ¬ NumberFrom 1 (end_of_numbers - 1) (one_of (codes "first") (rows_of (found_of found.now))) n) }
{
    match number(found, FIRST)?.and_then(FirstNumber::new) {
        Some(first) => Ok(first),
        None => Err(OptionFault::NoValue(FIRST)),
    }
}

/// The moment that the option says, or else the clock.
fn moment<'a>(found: &ArgMatches<'a>, clock: Option<u64>) -> Result<Moment, OptionFault<'a>>
    ensures given { IfOk result (SecondsAre (one_of (codes "moment") (rows_of (found_of found.now))) clock) }
    ensures none { IfErr result (λ _. (n : ℕ) → n ≤ last_moment
        → ¬ SecondsAre (one_of (codes "moment") (rows_of (found_of found.now))) clock n) }
{
    let Some(seconds) = number(found, MOMENT)?.or(clock) else {
        return Err(OptionFault::NoMoment);
    };
    match Moment::new(seconds) {
        Some(moment) => Ok(moment),
        None => Err(OptionFault::NoMoment),
    }
}
