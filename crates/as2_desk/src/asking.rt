//! What is asked of the station once, and what is printed of its answer.
ghost use Rattle.std.specs.Prelude.{◌≡◌, ◌⊎◌, Option, Some, Err, IfSome};
ghost use Rattle.as2_exchange.specs.State.{State};
ghost use Rattle.as2_exchange.specs.declared.answer.Refusal.{Refusal as TheRefusal};
ghost use Rattle.as2_exchange.specs.declared.answer.Answer.TheVariants.{Ticked};
ghost use Rattle.as2_station.specs.Said.{said_to_resend, said_to_submit};
ghost use Rattle.as2_station.specs.Theorem.{said_as};
ghost use Rattle.as2_desk.specs.Endings.{EndsRefused};
ghost use Rattle.as2_desk.specs.Observed.{errors_of, console_outcome};
ghost use Rattle.as2_commands.specs.declared.tasks.Question.TheVariants.{Resend};
ghost use Rattle.as2_desk.specs.Questions.{QuestionInHand, AnswersQuestion, EndsByEvent, FaultMayCome, IsToldOf, Prints, Tells, looked_up, number_line, printed_text, read_told, refusal_to, told_as};
ghost use Rattle.as2_desk.specs.Statuses.{status_done, status_failed, status_refused};
ghost use Rattle.as2_desk.specs.Written.{WritesOrBreaks, written_of};
ghost use Rattle.as2_desk.specs.declared.refusal.CommandFault.TheVariants.{Station as Refusing, Store as Failing};
ghost use Rattle.as2_host.specs.declared.stores.OpenFault.{OpenFault as TheFault};

use crate::console::Console;
use crate::formats::{listing_in, outstanding_in, show_in};
use crate::lines::joined;
use crate::refusal::{CommandFault, refuse};
use crate::status::{DONE, Ran};
use crate::terms::Terms;
use as2_commands::Question;
use as2_exchange::{Refusal, StoreFault};
use as2_host::OpenFault;
use as2_http::{DeviceFault, Sink, push_all};
use as2_records::Records;
use as2_station::{NewDocument, Resent, Station, Submitted};
use itoa::Buffer;

/// What is printed of an answer.
#[derive(Drop)]
pub(crate) enum Printed {
    /// A number or a count, and LF. It takes no memory, so that what was done is told.
    Number(u64),
    /// The number of a document that is to be sent anew, behind a word, and LF. It takes no memory either.
    Requeued(u64),
    /// A text.
    Words(String),
    /// The content of a document, or objects in lines.
    Bytes(Vec<u8>),
}

/// The number of a document that was handed in, or why there is none.
fn submitted_told(said: Result<Submitted, StoreFault>) -> Result<Printed, CommandFault>
    ensures { (asked : QuestionInHand) → IsToldOf asked (said_as said_to_submit said) (told_as result) }
{
    match said {
        Ok(Ok(number)) => Ok(Printed::Number(number)),
        Ok(Err(reason)) => Err(CommandFault::Station(reason)),
        Err(fault) => Err(CommandFault::Store(OpenFault::Store(fault))),
    }
}

/// The count of documents that were given up, or why there is none.
fn ticked_told(said: Result<u64, StoreFault>) -> Result<Printed, CommandFault>
    ensures { (asked : QuestionInHand) → IsToldOf asked (said_as Ticked said) (told_as result) }
{
    match said {
        Ok(count) => Ok(Printed::Number(count)),
        Err(fault) => Err(CommandFault::Store(OpenFault::Store(fault))),
    }
}

/// That the document of this number is to be sent anew, or why it isn't.
fn resent_told(number: u64, said: Result<Resent, StoreFault>) -> Result<Printed, CommandFault>
    ensures { IsToldOf (Resend number) (said_as said_to_resend said) (told_as result) }
{
    match said {
        Ok(Ok(())) => Ok(Printed::Requeued(number)),
        Ok(Err(refusal)) => Err(CommandFault::Station(refusal)),
        Err(fault) => Err(CommandFault::Store(OpenFault::Store(fault))),
    }
}

/// A text that was read, or why it wasn't.
fn read_told(said: Result<Printed, StoreFault>) -> Result<Printed, CommandFault>
    ensures { told_as result ≡ read_told printed_text said }
{
    match said {
        Ok(text) => Ok(text),
        Err(fault) => Err(CommandFault::Store(OpenFault::Store(fault))),
    }
}

/// The text of a number, where an entry has it.
fn shown_told(said: Result<Option<Printed>, StoreFault>) -> Result<Printed, CommandFault>
    ensures { told_as result ≡ looked_up printed_text said }
{
    match said {
        Ok(Some(text)) => Ok(text),
        Ok(None) => Err(CommandFault::Station(Refusal::NoSuchNumber)),
        Err(fault) => Err(CommandFault::Store(OpenFault::Store(fault))),
    }
}

/// The content of a number, where an entry has it.
fn fetched_told(said: Result<Option<Vec<u8>>, StoreFault>) -> Result<Printed, CommandFault>
    ensures { told_as result ≡ looked_up (λ v. v.items) said }
{
    match said {
        Ok(Some(bytes)) => Ok(Printed::Bytes(bytes)),
        Ok(None) => Err(CommandFault::Station(Refusal::NoSuchNumber)),
        Err(fault) => Err(CommandFault::Store(OpenFault::Store(fault))),
    }
}

/// Asks the station once.
fn answer<K: Records>(
    terms: &Terms<'_>,
    station: &mut Station<K>,
    question: Question<NewDocument>,
) -> Result<Printed, CommandFault>
    ensures refused { (reason : TheRefusal) → refusal_to terms.now.agreements.now question ≡ Some reason
        → told_as result ≡ Err (Refusing reason) }
    ensures fault { FaultMayCome question (told_as result) }
    ensures clean { (K.shows station.new).IsClean → (K.shows station.old).IsClean }
    ensures tells { (K.shows station.new).IsClean → (s : State) → (K.shows station.old).Rests s
        → (t : State) × (K.shows station.new).Rests t
        × Tells terms.now.agreements.now terms.now.moment question s t (told_as result) }
    ensures by_history { (K.shows station.new).IsClean → (s : State) → (K.shows station.old).Rests s
        → (t : State) × (K.shows station.new).Rests t
        × EndsByEvent terms.now.agreements.now terms.now.moment question s t (told_as result) }
{
    match question {
        Question::Submit(document) => {
            submitted_told(station.submit(terms.alloc, terms.agreements, document, terms.moment))
        }
        Question::Tick => ticked_told(station.tick(terms.agreements, terms.moment)),
        Question::Resend(number) => resent_told(
            number,
            station.resend(terms.alloc, terms.agreements, number, terms.moment),
        ),
        Question::List(filter, _, format) => {
            read_told(listing_in(terms.alloc, format, station, filter))
        }
        Question::Outstanding(format) => {
            read_told(outstanding_in(terms.alloc, format, station, terms.moment))
        }
        Question::Show(number, format) => {
            shown_told(show_in(terms.alloc, format, station, number))
        }
        Question::Fetch(number) => fetched_told(station.fetch(terms.alloc, number)),
    }
}

/// Asks the station once, and prints its answer.
pub(crate) fn ask<K: Records, R, W: Sink, H, E: Sink>(
    terms: &Terms<'_>,
    station: &mut Station<K>,
    question: Question<NewDocument>,
    console: &mut Console<R, W, H, E>,
) -> Ran
    ensures status { (result.status ≡ status_done)
        ⊎ ((result.status ≡ status_refused) ⊎ (result.status ≡ status_failed)) }
    ensures unread { console.new.input ≡ console.old.input }
    ensures clean { (K.shows station.new).IsClean → (K.shows station.old).IsClean }
    ensures asks { (known : Option State)
        → IfSome known (λ s. (K.shows station.new).IsClean × (K.shows station.old).Rests s)
        → AnswersQuestion terms.now.agreements.now terms.now.moment question known
        (console_outcome W.Sink E.Sink console.old console.new (λ t. (K.shows station.new).Rests t)) result }
    ensures store { result.status ≡ status_failed → (console.new.output ≡ console.old.output)
        × ((fault : TheFault) × EndsRefused (Failing fault) (errors_of E.Sink console.old console.new) result) }
{
    let told = answer(terms, station, question);
    print(told, &mut console.output, &mut console.errors)
}

/// Writes what is to be printed.
fn write_printed<W: Sink>(printed: Printed, output: &mut W) -> Result<(), DeviceFault>
    ensures { WritesOrBreaks result (written_of W.Sink output.old output.new) (printed_text printed) }
{
    match printed {
        Printed::Number(number) => {
            let mut digits = Buffer::new();
            let line = joined(digits.format(number), "\n", "");
            push_all(output, line.as_str().as_bytes())
        }
        Printed::Requeued(number) => {
            let mut digits = Buffer::new();
            let line = joined("resent ", digits.format(number), "\n");
            push_all(output, line.as_str().as_bytes())
        }
        Printed::Words(text) => push_all(output, text.as_bytes()),
        Printed::Bytes(bytes) => push_all(output, &bytes),
    }
}

/// Prints what was answered, or says why nothing is.
fn print<W: Sink, E: Sink>(
    told: Result<Printed, CommandFault>,
    output: &mut W,
    errors: &mut E,
) -> Ran
    ensures status { (result.status ≡ status_done)
        ⊎ ((result.status ≡ status_refused) ⊎ (result.status ≡ status_failed)) }
    ensures prints { Prints (told_as told) (written_of W.Sink output.old output.new)
        (written_of E.Sink errors.old errors.new) result }
    ensures store { result.status ≡ status_failed → (output.new ≡ output.old)
        × ((fault : TheFault) × EndsRefused (Failing fault) (written_of E.Sink errors.old errors.new) result) }
{
    let printed = match told {
        Ok(printed) => printed,
        Err(refusal) => return refuse(refusal, errors),
    };
    if write_printed(printed, output).is_err() {
        return refuse(CommandFault::CannotWrite, errors);
    }
    Ran {
        status: DONE,
        told: true,
    }
}
