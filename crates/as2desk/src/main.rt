//! The program `as2desk`: an AS2 station at the command line.
#![tactic(auto)]

ghost use Rattle.as2_http.specs.Devices.{OpensLedger};

use as2_audit::Watch;
use as2_client::{absent_store, ask_station, hint_made};
use as2_connections::{ProgressLine, Sockets, clock};
use as2_desk::{Console, Host, Outside};
use as2_files::{FileSystem, InFiles, KeepFiles, OpenFiles, StoreFiles, SystemFiles};
use as2_host::{CountsBusy, Lines, OpenRounds};
use as2_http::{Counted, Journal, Sink, Source};
use as2_kept::Kept;
use as2_loop::{Held, Spanned, run_station};
use as2_records::Rounds;
use sqlite::{Alter, FileStore};
use sqlite_disk::Disk;
use sqlite_std_file::Unknown;
use std::io::{LineWriter, Stderr, Stdin, Stdout, Write};
use std::marker::Brand;
use std::os::fd::{AsRawFd, IntoRawFd};
use std::process::ExitCode;
use std::sync::ledger::{Blank, Ledger};
use std::{env, fs, io};

/// The exit status of what was done.
const DONE: u8 = 0;

/// The exit status of a fault of the store.
const FAILED: u8 = 3;

/// How many standard streams there are; their numbers begin with 0.
const STREAMS: i32 = 3;

/// Counts of a stream that aren't opened yet: of its calls, and of those that failed.
#[derive(Drop)]
struct Counts {
    calls: Blank,
    failed: Blank,
}

/// What came of a command line: the exit status; or what a station keeps that has stopped, or whose store has shut, and which is to go on.
#[derive(Drop)]
enum Came {
    Ended(u8),
    Stopped(Held),
    Shut(Held),
}

/// Runs a command line: through the station that runs over its store, where one does; else as a station, where the words ask for one; else
/// at the desk.
fn run_words<O: OpenRounds, R: Source, W: Sink, H: Write + Journal + CountsBusy + Watch, E: Sink>(
    rt: &HostRuntime,
    words: &[&str],
    held: Option<Held>,
    host: &mut Host<FileSystem<'_>, O, Sockets<'_>>,
    console: &mut Console<R, W, H, E>,
) -> Came {
    let clock = clock(rt);
    if held.is_none() {
        if let Some(ran) = ask_station(rt, words, clock, &mut host.outside.files, console) {
            return Came::Ended(ran.status);
        }
    }
    match run_station(rt, words, held, host, console) {
        Spanned::Refused(ran) => Came::Ended(ran.status),
        Spanned::Stopped(held) => Came::Stopped(held),
        Spanned::Shut(held) => Came::Shut(held),
        Spanned::Elsewhere => {
            let absent = absent_store(rt, words, clock);
            let ran = as2_desk::run(rt.alloc(), words, clock, host, console);
            hint_made(rt, absent);
            Came::Ended(ran.status)
        }
    }
}

/// Runs a command line over these stores, the file system, the network and the standard streams, with counts of the calls that are
/// made of input, output and errors. The stores are any, since over one kind of files this call of the desk costs the prover too much. Hints and
/// notes of replies go to `hints`. What came of it, and the stores, since only where their kind is known can they be let go.
fn run<O: OpenRounds, A: Ledger, B: Ledger, C: Ledger, D: Ledger, E: Ledger, G: Ledger>(
    rt: &HostRuntime,
    words: &[&str],
    held: Option<Held>,
    stores: O,
    hints: Lines<LineWriter<Stderr>, ProgressLine<'_>>,
    reads: Counts,
    writes: Counts,
    says: Counts,
) -> (Came, O)
    requires reads { OpensLedger reads.calls.name reads.calls.parts A.name A.parts }
    requires failed_reads { OpensLedger reads.failed.name reads.failed.parts B.name B.parts }
    requires writes { OpensLedger writes.calls.name writes.calls.parts C.name C.parts }
    requires failed_writes { OpensLedger writes.failed.name writes.failed.parts D.name D.parts }
    requires says { OpensLedger says.calls.name says.calls.parts E.name E.parts }
    requires failed_says { OpensLedger says.failed.name says.failed.parts G.name G.parts }
{
    let mut console: Console<
        Counted<Stdin, A, B>,
        Counted<Stdout, C, D>,
        Lines<LineWriter<Stderr>, ProgressLine<'_>>,
        Counted<Stderr, E, G>,
    > = Console {
        input: Counted::new(rt.stdin(), reads.calls, reads.failed),
        output: Counted::new(rt.stdout(), writes.calls, writes.failed),
        hints,
        errors: Counted::new(rt.stderr(), says.calls, says.failed),
    };
    let mut host = Host {
        stores,
        outside: Outside {
            files: FileSystem { rt },
            network: Sockets { rt },
        },
    };
    let came = run_words(rt, words, held, &mut host, &mut console);
    let Host { stores, .. } = host;
    (came, stores)
}

/// Runs a command line over the stores that `keeper` opens. It is any one, so that this call and the next are two steps for the prover.
fn run_over_stores<R: Rounds + Drop, K: KeepFiles<R> + Drop>(
    rt: &HostRuntime,
    words: &[&str],
    held: Option<Held>,
    keeper: K,
    hints: Lines<LineWriter<Stderr>, ProgressLine<'_>>,
) -> Came {
    let stores: StoreFiles<'_, R, K> = StoreFiles::new(FileSystem { rt }, keeper);
    let (came, _stores) = run::<StoreFiles<'_, R, K>, Brand, Brand, Brand, Brand, Brand, Brand>(
        rt,
        words,
        held,
        stores,
        hints,
        Counts {
            calls: Blank::new(1),
            failed: Blank::new(1),
        },
        Counts {
            calls: Blank::new(1),
            failed: Blank::new(1),
        },
        Counts {
            calls: Blank::new(1),
            failed: Blank::new(1),
        },
    );
    came
}

/// Runs a command line over stores in SQLite's tables, whatever these lie in, which `keeper` opens. What they lie in is any, since the records
/// and their rounds over one kind of files cost the prover too much at once.
fn run_over_tables<S: Alter + Drop, K: KeepFiles<Kept<S>> + Drop>(
    rt: &HostRuntime,
    words: &[&str],
    held: Option<Held>,
    keeper: K,
    hints: Lines<LineWriter<Stderr>, ProgressLine<'_>>,
) -> Came {
    run_over_stores::<Kept<S>, K>(rt, words, held, keeper, hints)
}

/// Runs a command line over stores in SQLite's files, on any disk, which `keeper` opens.
fn run_over_kept<D: Disk + Drop, K: KeepFiles<Kept<FileStore<D>>> + Drop>(
    rt: &HostRuntime,
    words: &[&str],
    held: Option<Held>,
    keeper: K,
    hints: Lines<LineWriter<Stderr>, ProgressLine<'_>>,
) -> Came {
    run_over_tables::<FileStore<D>, K>(rt, words, held, keeper, hints)
}

/// Runs a command line over stores in the files that `opener` opens. What they hold then is any: so is it each time that a station opens
/// its store anew.
fn run_over_files<F: OpenFiles + Drop>(
    rt: &HostRuntime,
    words: &[&str],
    held: Option<Held>,
    opener: F,
    hints: Lines<LineWriter<Stderr>, ProgressLine<'_>>,
) -> Came {
    run_over_kept::<F::Disk, InFiles<F>>(rt, words, held, InFiles { opener }, hints)
}

/// Runs a command line, and a station whose store has shut again and again, until its store is open or it is stopped. Those who asked it to
/// stop are told once its store's file is let go.
fn run_until_ended(rt: &HostRuntime, words: &[&str]) -> io::Result<u8> {
    let mut held = None;
    for _ in 0..u64::MAX {
        let lines = LineWriter::new(rt.alloc(), rt.stderr())?;
        let hints = Lines::new(lines, ProgressLine::new(rt));
        match run_over_files(rt, words, held, SystemFiles { start: Unknown }, hints) {
            Came::Ended(status) => return Ok(status),
            Came::Stopped(held) => {
                held.end();
                return Ok(DONE);
            }
            Came::Shut(left) => held = Some(left),
        }
    }
    Ok(FAILED)
}

/// Takes the numbers of the standard streams that are shut, so that no file and no connection gets one: what is said would go there.
/// To read or to write there fails, as it does where the streams are shut.
fn hold_streams(rt: &HostRuntime) -> io::Result<()> {
    for _ in 0..STREAMS {
        let folder = fs::File::open(rt, "/")?;
        if folder.as_raw_fd() >= STREAMS {
            return Ok(());
        }
        folder.into_raw_fd();
    }
    Ok(())
}

fn main(rt: HostRuntime) -> io::Result<ExitCode> {
    hold_streams(&rt)?;
    let words: Vec<String> = match env::args(&rt) {
        Ok(words) => words.collect(rt.alloc())?,
        Err(error) if error.kind() == io::ErrorKind::InvalidData => {
            eprintln!(rt; "error: a word of the command line is not UTF-8")?;
            return Ok(ExitCode::from(2));
        }
        Err(error) => return Err(error),
    };
    let mut texts = Vec::new(rt.alloc());
    for word in &words {
        texts.push(word.as_str())?;
    }
    let status = run_until_ended(&rt, texts.as_slice())?;
    Ok(ExitCode::from(status))
}
