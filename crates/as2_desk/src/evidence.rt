//! The command `evidence`: the files that show how a document stands.
ghost use Rattle.std.specs.Prelude.{◌≡◌, ◌⊎◌, ◌++◌, Option, IfOk, IfSome, OnOk};
ghost use Rattle.as2_desk.specs.Endings.{EndsRefused};
ghost use Rattle.as2_desk.specs.Observed.{errors_of, filing_of, console_outcome, output_of};
ghost use Rattle.as2_desk.specs.Evidence.{MakesFiles, MakesEvidenceRead, PrintsNames, GathersEvidence, came_of, making_refusal, name_line, name_lines};
ghost use Rattle.as2_desk.specs.Statuses.{status_done, status_failed, status_refused};
ghost use Rattle.as2_desk.specs.Written.{written_of};
ghost use Rattle.as2_desk.specs.declared.refusal.CommandFault.TheVariants.{Store as Failing};
ghost use Rattle.as2_evidence.specs.Files.{file_of, files_of};
ghost use Rattle.as2_exchange.specs.State.{State};
ghost use Rattle.as2_host.specs.declared.stores.OpenFault.{OpenFault as TheFault};

use crate::console::Console;
use crate::refusal::{CommandFault, refuse};
use crate::status::{DONE, Ran};
use crate::terms::Terms;
use as2_commands::EvidenceRequest;
use as2_evidence::{NewFile, evidence};
use as2_exchange::{Refusal, StoreFault};
use as2_host::{MakeFiles, MakingFault, OpenFault};
use as2_http::{Sink, push_all};
use as2_records::Records;
use as2_text::Memory;
use std::alloc::Global;

/// Why files aren't made, to a command.
fn making_refusal(fault: MakingFault) -> CommandFault
    ensures { result ≡ making_refusal fault }
{
    match fault {
        MakingFault::Exists => CommandFault::Exists,
        MakingFault::CannotWrite => CommandFault::CannotWrite,
        MakingFault::Memory => CommandFault::Memory,
    }
}

/// Appends the line of a file's name.
fn add_name(text: &mut Vec<u8>, file: &NewFile) -> Result<(), Memory>
    ensures { OnOk result (text.new.items ≡ text.old.items ++ name_line (file_of file.now)) }
{
    text.extend_from_slice(file.name.as_bytes())?;
    text.extend_from_slice(b"\n")?;
    Ok(())
}

/// The name of each file, on a line of its own.
fn name_lines(alloc: Global, files: &[NewFile]) -> Result<Vec<u8>, Memory>
    ensures { IfOk result (λ text. text.items ≡ name_lines (files_of files.now)) }
{
    let mut text = Vec::new(alloc);
    for file in files {
        add_name(&mut text, file)?;
    }
    Ok(text)
}

/// Prints the names of the files that were made.
fn print_names<W: Sink, E: Sink>(names: &[u8], output: &mut W, errors: &mut E) -> Ran
    ensures status { (result.status ≡ status_done) ⊎ (result.status ≡ status_refused) }
    ensures prints { PrintsNames names.now (written_of W.Sink output.old output.new)
        (written_of E.Sink errors.old errors.new) result }
{
    if push_all(output, names).is_err() {
        return refuse(CommandFault::CannotWrite, errors);
    }
    Ran {
        status: DONE,
        told: true,
    }
}

/// Makes the files, and prints their names.
fn make<F: MakeFiles, R, W: Sink, H, E: Sink>(
    alloc: Global,
    folder: &str,
    files: &[NewFile],
    maker: &mut F,
    console: &mut Console<R, W, H, E>,
) -> Ran
    ensures status { (result.status ≡ status_done) ⊎ (result.status ≡ status_refused) }
    ensures unread { console.new.input ≡ console.old.input }
    ensures makes { MakesFiles folder.now (files_of files.now) (filing_of F.MakeFiles maker.old maker.new)
        (output_of W.Sink console.old console.new) (errors_of E.Sink console.old console.new) result }
{
    let Ok(names) = name_lines(alloc, files) else {
        return refuse(CommandFault::Memory, &mut console.errors);
    };
    if let Err(fault) = maker.make_files(alloc, folder, files) {
        return refuse(making_refusal(fault), &mut console.errors);
    }
    print_names(&names, &mut console.output, &mut console.errors)
}

/// Makes the files that were read, or says why there are none.
fn make_what_came<F: MakeFiles, R, W: Sink, H, E: Sink>(
    alloc: Global,
    folder: &str,
    came: Result<Option<Vec<NewFile>>, StoreFault>,
    maker: &mut F,
    console: &mut Console<R, W, H, E>,
) -> Ran
    ensures status { (result.status ≡ status_done)
        ⊎ ((result.status ≡ status_refused) ⊎ (result.status ≡ status_failed)) }
    ensures unread { console.new.input ≡ console.old.input }
    ensures makes { MakesEvidenceRead folder.now (came_of (λ v. files_of v.items) came)
        (filing_of F.MakeFiles maker.old maker.new)
        (output_of W.Sink console.old console.new) (errors_of E.Sink console.old console.new) result }
    ensures store { result.status ≡ status_failed → (console.new.output ≡ console.old.output)
        × ((fault : TheFault) × EndsRefused (Failing fault) (errors_of E.Sink console.old console.new) result) }
{
    match came {
        Ok(Some(files)) => make(alloc, folder, &files, maker, console),
        Ok(None) => refuse(
            CommandFault::Station(Refusal::NoSuchNumber),
            &mut console.errors,
        ),
        Err(fault) => refuse(
            CommandFault::Store(OpenFault::Store(fault)),
            &mut console.errors,
        ),
    }
}

/// Makes the files that show how the wanted document stands.
pub(crate) fn gather<K: Records, F: MakeFiles, R, W: Sink, H, E: Sink>(
    terms: &Terms<'_>,
    wanted: EvidenceRequest<'_>,
    records: &mut K,
    maker: &mut F,
    console: &mut Console<R, W, H, E>,
) -> Ran
    ensures status { (result.status ≡ status_done)
        ⊎ ((result.status ≡ status_refused) ⊎ (result.status ≡ status_failed)) }
    ensures unread { console.new.input ≡ console.old.input }
    ensures clean { (K.shows records.new).IsClean → (K.shows records.old).IsClean }
    ensures proves { (known : Option State)
        → IfSome known (λ s. (K.shows records.new).IsClean × (K.shows records.old).Rests s)
        → GathersEvidence terms.now.agreements.now wanted.entry known (filing_of F.MakeFiles maker.old maker.new)
        (console_outcome W.Sink E.Sink console.old console.new (λ t. (K.shows records.new).Rests t)) result }
    ensures store { result.status ≡ status_failed → (console.new.output ≡ console.old.output)
        × ((fault : TheFault) × EndsRefused (Failing fault) (errors_of E.Sink console.old console.new) result) }
{
    let EvidenceRequest {
        mailbox,
        number,
        folder,
    } = wanted;
    let came = evidence(records, terms.alloc, terms.agreements, mailbox, number);
    make_what_came(terms.alloc, folder, came, maker, console)
}
