//! A command is sent to the station that runs over its store.

use crate::telling::{tell, tell_lost};
use as2_askers::connect;
use as2_commands::{Command, Options, Question, Task, options_in};
use as2_control::{Demand, Outcome, StillToCome, awaited, demand_frame, read_outcome};
use as2_desk::{CommandFault, Console, Ran, refuse};
use as2_host::{MakeFiles, ReadFiles};
use as2_http::Sink;
use sha2::{Digest, Sha256};
use std::alloc::Global;
use std::io;
use std::io::{ErrorKind, Read, Write};
use std::os::unix::net::UnixStream;

/// The path of a store that no file has.
const IN_MEMORY: &str = ":memory:";

/// How many bytes of a document are read: one more than a content may have, so that the station refuses it.
const MOST_CONTENT: usize = 1_048_577;

/// How many bytes of an outcome are read at once.
const PIECE: usize = 65_536;

/// How a command and a station that runs go together.
#[derive(Clone, Copy, Debug, PartialEq, Eq)]
enum Way {
    /// It needs no store.
    Apart,
    /// It can't be done while a station runs.
    Against,
    /// The station does it.
    Through,
}

/// How a task and a station that runs go together.
fn way_of(task: &Task<'_>) -> Way {
    match task {
        Task::Check => Way::Apart,
        Task::Migrate | Task::Operate(_, _) => Way::Against,
        Task::Run(_, Command::Post(_)) => Way::Against,
        Task::Run(_, Command::Send(_)) => Way::Against,
        Task::Run(_, Command::Serve(_)) => Way::Against,
        _ => Way::Through,
    }
}

/// The bytes of the document that a task names, where it names one. None where they can't be read.
fn content_for<F: ReadFiles>(alloc: Global, files: &F, task: &Task<'_>) -> Option<Vec<u8>> {
    match task {
        Task::Run(_, Command::Ask(Question::Submit(submission))) => files
            .read_front(alloc, submission.path, MOST_CONTENT)
            .ok(),
        _ => Some(Vec::new(alloc)),
    }
}

/// The words, for a demand.
fn words_of(alloc: Global, words: &[&str]) -> io::Result<Vec<String>> {
    let mut texts = Vec::new(alloc);
    for word in words {
        texts.push(String::from_str(alloc, word)?)?;
    }
    Ok(texts)
}

/// The frame of the demand. None where a file that it needs can't be read, or it has no frame.
fn frame_for<F: ReadFiles>(
    alloc: Global,
    files: &F,
    words: &[&str],
    options: &Options<'_>,
) -> Option<Vec<u8>> {
    let agreements = match options.task {
        // (whoever stops a station needs none)
        Task::Stop => Vec::new(alloc),
        _ => files.read_file(alloc, options.agreements).ok()?,
    };
    let demand = Demand {
        agreements: Sha256::digest(&agreements).into(),
        content: content_for(alloc, files, &options.task)?,
        words: words_of(alloc, words).ok()?,
    };
    demand_frame(alloc, &demand).ok()
}

/// Reads what comes until a whole outcome has.
fn read_frame(alloc: Global, stream: &mut UnixStream) -> io::Result<Vec<u8>> {
    let mut came = Vec::new(alloc);
    let mut buffer = Vec::from_elem(alloc, 0, PIECE)?;
    for _ in 0..u64::MAX {
        let most = match awaited(&came, u32::MAX) {
            StillToCome::Bytes(count) => count.min(buffer.len()),
            StillToCome::Whole => return Ok(came),
            StillToCome::Never => break,
        };
        match stream.read(&mut buffer[..most]) {
            Ok(0) => break,
            Ok(count) => came.extend_from_slice(&buffer[..count])?,
            Err(error) if error.kind() == ErrorKind::Interrupted => {}
            Err(error) => return Err(error),
        }
    }
    Err(io::Error::from(ErrorKind::UnexpectedEof))
}

/// Sends the frame of a demand, and takes the outcome.
fn exchange(alloc: Global, stream: &mut UnixStream, frame: &[u8]) -> io::Result<Outcome> {
    stream.write_all(frame)?;
    let came = read_frame(alloc, stream)?;
    match read_outcome(alloc, &came) {
        Ok(outcome) => Ok(outcome),
        Err(_) => Err(io::Error::from(ErrorKind::InvalidData)),
    }
}

/// Has the station that runs over the store of a command line do what it asks for, and prints what it would print without one. None where
/// no station runs, or the command needs none: then nothing was done.
pub fn ask_station<F: ReadFiles + MakeFiles, R, W: Sink, H: Write, E: Sink>(
    rt: &HostRuntime,
    words: &[&str],
    clock: Option<u64>,
    files: &mut F,
    console: &mut Console<R, W, H, E>,
) -> Option<Ran> {
    let alloc = rt.alloc();
    let options = options_in(alloc, words, clock).ok()?;
    let way = way_of(&options.task);
    if way == Way::Apart || options.store == IN_MEMORY {
        return None;
    }
    let mut stream = connect(rt, options.store).ok()?;
    if way == Way::Against {
        return Some(refuse(CommandFault::StationRuns, &mut console.errors));
    }
    let frame = frame_for(alloc, files, words, &options)?;
    match exchange(alloc, &mut stream, &frame) {
        Ok(outcome) => Some(tell(alloc, outcome, &options.task, files, console)),
        Err(_) => Some(tell_lost(console)),
    }
}
