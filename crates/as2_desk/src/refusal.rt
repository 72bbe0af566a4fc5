//! Why something was refused: a line on standard error, and a hint behind it where there is one.
ghost use Rattle.std.specs.Prelude.{◌≡◌, ◌⊎◌, ◌≤◌, length, false, true};
ghost use Rattle.as2_desk.specs.Refusals.{agreements_line, damaged_lines, error_line, path_hint, refusal_name, refusal_status, refused_line, store_fault_name, store_lines, table_name};
ghost use Rattle.as2_desk.specs.Endings.{EndsRefused};
ghost use Rattle.as2_desk.specs.Statuses.{status_failed, status_refused};
ghost use Rattle.as2_desk.specs.Written.{WritesIf, written_of};
ghost use Rattle.as2_desk.specs.declared.refusal.CommandFault.TheVariants.{Store as Failing};
ghost use Rattle.as2_host.specs.declared.stores.OpenFault.{OpenFault as TheFault};

use crate::lines::{Line, joined};
use crate::status::{FAILED, REFUSED, Ran, end_name};
use as2_agreement::AgreementFault;
use as2_exchange::{Refusal, RowPlace, StoreFault, Table};
use as2_host::{OpenFault, PathFault};
use as2_http::{Served, Sink, push_all};
use itoa::Buffer;

/// Why what was asked for isn't done.
#[derive(Clone, Copy, Debug, PartialEq, Eq)]
pub enum CommandFault {
    /// A file can't be read.
    CannotRead,
    /// Standard output or a file can't be written.
    CannotWrite,
    /// Something stands where a file is to be made.
    Exists,
    /// There was no memory for the command line.
    Memory,
    /// The agreements have a fault.
    Agreements(AgreementFault),
    /// The store can't be opened or migrated, or a call of it failed.
    Store(OpenFault),
    /// A stream came to another end than `Closed`.
    Stream(Served),
    /// The station refuses what it is asked.
    Station(Refusal),
    /// The address can't be listened on, or the socket at which a station can be asked can't be made.
    CannotListen,
    /// No station runs over the store.
    NoStation,
    /// One runs over it, and this isn't done meanwhile.
    StationRuns,
    /// The station that runs has other agreements.
    OtherAgreements,
}

/// The exit status that goes with a refusal.
pub(crate) fn refusal_status(refusal: CommandFault) -> u8
    ensures { result ≡ refusal_status refusal }
{
    match refusal {
        CommandFault::Store(_) => FAILED,
        _ => REFUSED,
    }
}

/// The name of a fault, as it is spelled in `StoreFault`; `Refused` where a row is damaged.
fn store_fault_name(fault: StoreFault) -> &'static str
    ensures name { result.now ≡ store_fault_name fault }
    ensures short { length result.now ≤ 20 }
{
    match fault {
        StoreFault::Memory => "Memory",
        StoreFault::Disk => "Disk",
        StoreFault::Refused | StoreFault::Damaged(_) => "Refused",
        StoreFault::Full => "Full",
        StoreFault::NotAStore => "NotAStore",
        StoreFault::OtherVersion => "OtherVersion",
    }
}

/// The name of a refusal, as it is spelled in `Refusal`.
fn refusal_name(refusal: Refusal) -> &'static str
    ensures name { result.now ≡ refusal_name refusal }
    ensures short { length result.now ≤ 20 }
{
    match refusal {
        Refusal::UnknownOrganization => "UnknownOrganization",
        Refusal::UnknownPartner => "UnknownPartner",
        Refusal::NoSuchNumber => "NoSuchNumber",
        Refusal::NotDue => "NotDue",
        Refusal::AllSettled => "AllSettled",
        Refusal::NoOpenTry => "NoOpenTry",
        Refusal::TriesUsed => "TriesUsed",
        Refusal::TooLarge => "TooLarge",
    }
}

/// `refused: NAME`.
fn refused_line(name: &str) -> Line
    requires { length name.now ≤ 20 }
    ensures { result.bytes ≡ refused_line name.now }
{
    joined("refused: ", name, "\n")
}

/// `agreements: NAME`, and the key where the fault has one.
fn agreements_line(fault: AgreementFault) -> Line
    ensures { result.bytes ≡ agreements_line fault }
{
    let mut line = joined("agreements: ", fault.name(), "");
    if let Some(key) = fault.key() {
        line.push_str(" ");
        line.push_str(key.name());
    }
    line.push_str("\n");
    line
}

/// What may help where a path can't be opened, in a line of its own.
fn path_hint(fault: PathFault) -> &'static str
    ensures hint { result.now ≡ path_hint fault }
    ensures short { length result.now ≤ 104 }
{
    match fault {
        PathFault::NoFolder => "\nhint: the folder that it stands in isn't there\n",
        PathFault::NoRight => "\nhint: there is no right to read and write it and its folder\n",
        PathFault::NoFile => {
            "\nhint: what stands there is no file of its own: a folder, a link to nothing, or a file with two names\n"
        }
        PathFault::Journal =>
            "\nhint: SQLite left a journal beside it; open it with sqlite3 first\n",
        PathFault::NoRoom => "\nhint: the disk has no room\n",
        PathFault::Other => "\nhint: the file system can't open it\n",
    }
}

/// The name of a table, as SQLite's statements have it.
fn table_name(table: Table) -> &'static str
    ensures name { result.now ≡ table_name table }
    ensures short { length result.now ≤ 12 }
{
    match table {
        Table::Meta => "meta",
        Table::Inbox => "inbox2",
        Table::InboxPiece => "inbox2_piece",
        Table::Outbox => "outbox",
        Table::OutboxPiece => "outbox_piece",
        Table::Evidence => "evidence",
        Table::Waiting => "waiting",
        Table::Origin => "origin",
        Table::Resent => "resent",
    }
}

/// `store: Refused`, and where the row stands that is damaged: its table, and the number of its entry, where it has one that can
/// be read.
fn damaged_lines(place: RowPlace) -> Line
    ensures { result.bytes ≡ damaged_lines place }
{
    let mut line = joined("store: Refused\nhint: table ", table_name(place.table), "");
    if place.number != 0 {
        let mut digits = Buffer::new();
        line.push_str(", number ");
        line.push_str(digits.format(place.number));
    }
    line.push_str(": a row is damaged or missing\n");
    line
}

/// `store: NAME`, and behind it what may help.
fn store_lines(fault: OpenFault) -> Line
    ensures { result.bytes ≡ store_lines fault }
{
    match fault {
        OpenFault::Held => joined(
            "store: ",
            "Refused",
            "\nhint: another process has the file open; a station that is starting can be asked in a moment\n",
        ),
        OpenFault::LogAlone => joined(
            "store: ",
            "Refused",
            "\nhint: the file isn't there, but a log of it is; nothing was made\n",
        ),
        OpenFault::Path(fault) => joined("store: ", "Refused", path_hint(fault)),
        OpenFault::Store(StoreFault::OtherVersion) => joined(
            "store: ",
            "OtherVersion",
            "\nhint: stores of version 3 are read; 'migrate' makes one of a store of version 1 or 2\n",
        ),
        OpenFault::Store(StoreFault::Damaged(place)) => damaged_lines(place),
        OpenFault::Store(fault) => joined("store: ", store_fault_name(fault), "\n"),
    }
}

/// The line of a refusal.
fn error_line(refusal: CommandFault) -> Line
    ensures { result.bytes ≡ error_line refusal }
{
    match refusal {
        CommandFault::CannotRead => refused_line("CannotRead"),
        CommandFault::CannotWrite => refused_line("CannotWrite"),
        CommandFault::Exists => joined(
            "refused: ",
            "CannotWrite",
            "\nhint: something of that name is there; nothing was made\n",
        ),
        CommandFault::Memory => refused_line("Memory"),
        CommandFault::Agreements(fault) => agreements_line(fault),
        CommandFault::Store(fault) => store_lines(fault),
        CommandFault::Stream(end) => refused_line(end_name(end)),
        CommandFault::Station(reason) => refused_line(refusal_name(reason)),
        CommandFault::CannotListen => refused_line("CannotListen"),
        CommandFault::NoStation => refused_line("NoStation"),
        CommandFault::StationRuns => refused_line("StationRuns"),
        CommandFault::OtherAgreements => refused_line("OtherAgreements"),
    }
}

/// Says a text, and tells whether that could be done: where not, there is nobody else to say it to.
pub(crate) fn is_said<E: Sink>(text: &str, errors: &mut E) -> bool
    ensures said { WritesIf result (written_of E.Sink errors.old errors.new) text.now }
    ensures counted { E.failed errors.old ≤ E.failed errors.new }
{
    push_all(errors, text.as_bytes()).is_ok()
}

/// Says that something was refused.
pub fn refuse<E: Sink>(refusal: CommandFault, errors: &mut E) -> Ran
    ensures told { EndsRefused refusal (written_of E.Sink errors.old errors.new) result }
    ensures status { (result.status ≡ status_refused) ⊎ (result.status ≡ status_failed) }
    ensures store { result.status ≡ status_failed → (fault : TheFault) × (refusal ≡ Failing fault) }
{
    Ran {
        status: refusal_status(refusal),
        told: is_said(error_line(refusal).as_str(), errors),
    }
}

/// Says that something was refused, behind what was said before. Where that couldn't be said (`told`), no more is.
pub(crate) fn refuse_behind<E: Sink>(told: bool, refusal: CommandFault, errors: &mut E) -> Ran
    ensures status { result.status ≡ refusal_status refusal }
    ensures told { told ≡ true → WritesIf result.told (written_of E.Sink errors.old errors.new) (error_line refusal) }
    ensures untold { told ≡ false → (result.told ≡ false) × (errors.new ≡ errors.old) }
{
    if !told {
        return Ran {
            status: refusal_status(refusal),
            told,
        };
    }
    refuse(refusal, errors)
}
