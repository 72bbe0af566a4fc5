//! A command line, run over the records of a station.
ghost use Rattle.std.specs.Prelude.{Some};
ghost use Rattle.clap.specs.Walk.{texts};
ghost use Rattle.as2_http.specs.Devices.{OpensLedger};
ghost use Rattle.as2_lent.specs.Lent.{LendsTo};

use crate::lent::LentStore;
use crate::network::NoNetwork;
use crate::papers::{ErrorPaper, HintPaper, joined};
use crate::sent::SentFiles;
use as2_audit::Unwatched;
use as2_control::Outcome;
use as2_desk::{CommandFault, Console, Host, Outside, refuse, run};
use as2_host::Lines;
use as2_http::Counted;
use as2_records::Records;
use std::alloc::Global;
use std::cell::RefCell;
use std::marker::Brand;
use std::sync::ledger::{Blank, Ledger};

/// A command line, and the files that it reads.
#[derive(Clone, Copy)]
pub struct Forwarded<'a> {
    /// Its words, the program's name first.
    pub words: &'a [&'a str],
    /// The path of the agreements, as they name it.
    pub agreements_path: &'a str,
    /// Their bytes.
    pub agreements: &'a [u8],
    /// The bytes of the document that they name, where they do.
    pub content: &'a [u8],
    /// The seconds since 1970.
    pub clock: Option<u64>,
}

/// Counts of a stream that aren't opened yet: of its calls, and of those that failed.
#[derive(Drop)]
struct CallCounts {
    calls: Blank,
    failed: Blank,
}

/// Counts of the calls of a console's streams.
#[derive(Drop)]
struct ConsoleCounts {
    reads: CallCounts,
    writes: CallCounts,
    says: CallCounts,
}

/// What was written to a console's streams.
#[derive(Drop)]
struct Written {
    status: u8,
    output: Vec<u8>,
    /// What was refused, and how many bytes were hinted before.
    said: Vec<u8>,
    behind: Option<usize>,
}

/// Runs the command line over this host, with counts of the calls that are made of its streams. What it hints is kept in `hinted`.
fn run_counted<
    'a,
    K: Records + Drop,
    A: Ledger,
    B: Ledger,
    C: Ledger,
    D: Ledger,
    E: Ledger,
    F: Ledger,
>(
    alloc: Global,
    given: Forwarded<'a>,
    host: &mut Host<SentFiles<'a>, LentStore<K>, NoNetwork>,
    hinted: &RefCell<Vec<u8>>,
    counts: ConsoleCounts,
) -> Written
    requires reads { OpensLedger counts.reads.calls.name counts.reads.calls.parts A.name A.parts }
    requires failed_reads { OpensLedger counts.reads.failed.name counts.reads.failed.parts B.name B.parts }
    requires writes { OpensLedger counts.writes.calls.name counts.writes.calls.parts C.name C.parts }
    requires failed_writes { OpensLedger counts.writes.failed.name counts.writes.failed.parts D.name D.parts }
    requires says { OpensLedger counts.says.calls.name counts.says.calls.parts E.name E.parts }
    requires failed_says { OpensLedger counts.says.failed.name counts.says.failed.parts F.name F.parts }
    ensures lends { LendsTo K.shows (texts given.entry.words.now) given.entry.clock
        host.old.outside.files.agreements_path.now host.old.outside.files.agreements.now
        host.old.stores.records host.new.stores.records }
{
    let ConsoleCounts {
        reads,
        writes,
        says,
    } = counts;
    let hints = HintPaper { text: hinted };
    let errors = ErrorPaper {
        text: Vec::new(alloc),
        behind: None,
        hints,
    };
    let mut console: Console<
        Counted<&[u8], A, B>,
        Counted<Vec<u8>, C, D>,
        Lines<HintPaper<'_>, Unwatched>,
        Counted<ErrorPaper<'_>, E, F>,
    > = Console {
        input: Counted::new(b"".as_slice(), reads.calls, reads.failed),
        output: Counted::new(Vec::new(alloc), writes.calls, writes.failed),
        hints: Lines::new(hints, Unwatched),
        errors: Counted::new(errors, says.calls, says.failed),
    };
    let ran = run(alloc, given.words, given.clock, host, &mut console);
    let Console { output, errors, .. } = console;
    let ErrorPaper { text, behind, .. } = errors.into_inner();
    Written {
        status: ran.status,
        output: output.into_inner(),
        said: text,
        behind,
    }
}

/// Runs the command line over this host.
fn run_over<'a, K: Records + Drop>(
    alloc: Global,
    given: Forwarded<'a>,
    host: &mut Host<SentFiles<'a>, LentStore<K>, NoNetwork>,
) -> Outcome
    ensures lends { LendsTo K.shows (texts given.entry.words.now) given.entry.clock
        host.old.outside.files.agreements_path.now host.old.outside.files.agreements.now
        host.old.stores.records host.new.stores.records }
{
    let hinted = RefCell::new(Vec::new(alloc));
    let counts = ConsoleCounts {
        reads: CallCounts {
            calls: Blank::new(1),
            failed: Blank::new(1),
        },
        writes: CallCounts {
            calls: Blank::new(1),
            failed: Blank::new(1),
        },
        says: CallCounts {
            calls: Blank::new(1),
            failed: Blank::new(1),
        },
    };
    let written = run_counted::<K, Brand, Brand, Brand, Brand, Brand, Brand>(
        alloc, given, host, &hinted, counts,
    );
    let hinted = hinted.into_inner();
    Outcome {
        status: written.status,
        output: written.output,
        errors: match joined(alloc, &hinted, &written.said, written.behind) {
            Ok(text) => text,
            Err(_) => Vec::new(alloc),
        },
        files: Vec::new(alloc),
    }
}

/// Runs the command line over these records, whose files take `size` bytes: what came of it, and the records.
pub fn run_forwarded<K: Records + Drop>(
    alloc: Global,
    given: Forwarded<'_>,
    records: K,
    size: u64,
) -> (Outcome, Option<K>)
    ensures lends { LendsTo K.shows (texts given.entry.words.now) given.entry.clock given.entry.agreements_path.now
        given.entry.agreements.now (Some records) result.1 }
{
    let mut host = Host {
        stores: LentStore {
            records: Some(records),
            size,
            has_opened: false,
        },
        outside: Outside {
            files: SentFiles {
                agreements_path: given.agreements_path,
                agreements: given.agreements,
                content: given.content,
                made: Vec::new(alloc),
            },
            network: NoNetwork,
        },
    };
    let mut outcome = run_over(alloc, given, &mut host);
    let Host { stores, outside } = host;
    outcome.files = outside.files.made;
    (outcome, stores.records)
}

/// Writes what is said of a fault, with counts of the calls.
fn refused_counted<A: Ledger, B: Ledger>(
    alloc: Global,
    fault: CommandFault,
    says: CallCounts,
) -> Outcome
    requires says { OpensLedger says.calls.name says.calls.parts A.name A.parts }
    requires failed_says { OpensLedger says.failed.name says.failed.parts B.name B.parts }
{
    let mut errors: Counted<Vec<u8>, A, B> = Counted::new(Vec::new(alloc), says.calls, says.failed);
    let ran = refuse(fault, &mut errors);
    Outcome {
        status: ran.status,
        output: Vec::new(alloc),
        errors: errors.into_inner(),
        files: Vec::new(alloc),
    }
}

/// What a command comes to that is refused for this fault.
pub fn refused(alloc: Global, fault: CommandFault) -> Outcome {
    let says = CallCounts {
        calls: Blank::new(1),
        failed: Blank::new(1),
    };
    refused_counted::<Brand, Brand>(alloc, fault, says)
}
