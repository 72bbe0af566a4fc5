//! Command lines of the station over files, stores, streams and a network in memory, as texts set them.
//!
//! A file is the text whose name is its path. `stores` says what stands under each path (`stores.rt`). `connections` says how the connections end
//! that come, `connection-posts` what each brings, `partner-reply` what each partner answers, and `link-fault` why none does (`network.rt`).
//! `script_player` has the clock and the streams.
ghost use Rattle.as2_http.specs.Devices.{OpensLedger};

mod connections;
mod files;
mod network;
mod stores;

use as2_audit::Unwatched;
use as2_desk::{Console, Host, Outside, run};
use as2_host::{Lines, OpenStores};
use as2_http::Counted;
use as2_kept::Kept;
use files::Files;
use network::Peers;
use script_lines::Answer;
use script_player::{Ended, Given, Input, Paper, Runs};
use sqlite::MemStore;
use std::alloc::Global;
use std::cell::RefCell;
use std::marker::Brand;
use std::sync::ledger::{Blank, Ledger};
use stores::Stores;

/// The store that was closed last, what the last command line left of its input, what it gave to the network, and the files that it made.
#[derive(Drop)]
pub struct Desk {
    kept: Option<Kept<MemStore>>,
    unread: (usize, usize),
    given: Option<Answer>,
    made: Option<Answer>,
}

/// Whether the first of the parts has a byte, and all of them are left.
fn are_unread(parts: &[Vec<u8>], left: (usize, usize)) -> bool {
    match parts.first() {
        Some(part) => !part.is_empty() && left.1 == parts.len(),
        None => false,
    }
}

/// The bytes with the others behind them, where there is memory for these.
fn joined(mut bytes: Vec<u8>, others: &[u8]) -> Vec<u8> {
    let _ = bytes.extend_from_slice(others);
    bytes
}

/// Counts of a stream that aren't opened yet: of its calls, and of those that failed.
#[derive(Drop)]
struct CallCounts {
    calls: Blank,
    failed: Blank,
}

/// Runs the command line with counts of the calls that are made of its streams: what it comes to, and what it leaves of its input.
fn run_counted<S: OpenStores, A: Ledger, B: Ledger, C: Ledger, D: Ledger, E: Ledger, F: Ledger>(
    alloc: Global,
    given: &Given<'_>,
    host: &mut Host<Files<'_>, S, Peers<'_>>,
    reads: CallCounts,
    writes: CallCounts,
    says: CallCounts,
) -> (Ended, (usize, usize))
    requires reads { OpensLedger reads.calls.name reads.calls.parts A.name A.parts }
    requires failed_reads { OpensLedger reads.failed.name reads.failed.parts B.name B.parts }
    requires writes { OpensLedger writes.calls.name writes.calls.parts C.name C.parts }
    requires failed_writes { OpensLedger writes.failed.name writes.failed.parts D.name D.parts }
    requires says { OpensLedger says.calls.name says.calls.parts E.name E.parts }
    requires failed_says { OpensLedger says.failed.name says.failed.parts F.name F.parts }
{
    let input = Input::new(given.parts.as_slice(), given.calls.reads);
    let output = Paper::new(alloc, given.calls.writes);
    let errors = Paper::new(alloc, given.calls.errors);
    let mut console: Console<
        Counted<Input<'_>, A, B>,
        Counted<Paper, C, D>,
        Lines<Paper, Unwatched>,
        Counted<Paper, E, F>,
    > = Console {
        input: Counted::new(input, reads.calls, reads.failed),
        output: Counted::new(output, writes.calls, writes.failed),
        hints: Lines::new(Paper::new(alloc, given.calls.errors), Unwatched),
        errors: Counted::new(errors, says.calls, says.failed),
    };
    let ran = run(
        alloc,
        given.words.as_slice(),
        given.clock,
        host,
        &mut console,
    );
    let Console {
        input,
        output,
        hints,
        errors,
    } = console;
    let unread = input.into_inner().left();
    let ended = Ended {
        status: ran.status,
        told: ran.told,
        output: output.into_inner().bytes,
        errors: joined(
            hints.into_inner().bytes,
            errors.into_inner().bytes.as_slice(),
        ),
        is_unread: are_unread(given.parts.as_slice(), unread),
    };
    (ended, unread)
}

fn run_over<S: OpenStores>(
    alloc: Global,
    given: &Given<'_>,
    host: &mut Host<Files<'_>, S, Peers<'_>>,
) -> (Ended, (usize, usize)) {
    run_counted::<S, Brand, Brand, Brand, Brand, Brand, Brand>(
        alloc,
        given,
        host,
        CallCounts {
            calls: Blank::new(1),
            failed: Blank::new(1),
        },
        CallCounts {
            calls: Blank::new(1),
            failed: Blank::new(1),
        },
        CallCounts {
            calls: Blank::new(1),
            failed: Blank::new(1),
        },
    )
}

impl Desk {
    pub fn new() -> Desk {
        Desk {
            kept: None,
            unread: (0, 0),
            given: None,
            made: None,
        }
    }
}

impl Runs for Desk {
    fn run(&mut self, alloc: Global, given: &Given<'_>) -> Ended {
        let word = given.settings.text("stores").unwrap_or("");
        let last = self.kept.take();
        // (the store that was closed last stands there where the text says so, or is put aside)
        let (kept, aside) = if word == "kept" {
            (last, None)
        } else {
            (None, last)
        };
        let to_network = RefCell::new(Answer::new(alloc));
        let to_files = RefCell::new(Answer::new(alloc));
        let mut host = Host {
            stores: Stores {
                word,
                kept,
                has_opened: false,
            },
            outside: Outside {
                files: Files {
                    settings: given.settings,
                    made: &to_files,
                },
                network: Peers::new(given.settings, &to_network),
            },
        };
        let (ended, unread) = run_over(alloc, given, &mut host);
        let Host { stores, .. } = host;
        self.unread = unread;
        self.kept = stores.kept.or(aside);
        self.given = Some(to_network.into_inner());
        self.made = Some(to_files.into_inner());
        ended
    }

    fn unread(&self) -> (usize, usize) {
        self.unread
    }

    fn given_to_network(&self) -> &[u8] {
        match &self.given {
            Some(given) => given.bytes.as_slice(),
            None => &[],
        }
    }

    fn made_files(&self) -> &[u8] {
        match &self.made {
            Some(made) => made.bytes.as_slice(),
            None => &[],
        }
    }
}
