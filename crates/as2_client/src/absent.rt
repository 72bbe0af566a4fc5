//! A store that isn't there, and that a command makes although it only looks into it: its path may be mistyped.

use as2_commands::{Command, Question, Task, options_in};
use std::fs;
use std::io::{ErrorKind, Write};

/// The path of a store that no file has.
const IN_MEMORY: &str = ":memory:";

/// Whether a task only looks into its store.
fn only_looks(task: &Task<'_>) -> bool {
    match task {
        Task::Verify(_, _) | Task::GatherEvidence(_, _) => true,
        Task::Run(_, Command::Ask(Question::Submit(_))) => false,
        Task::Run(_, Command::Ask(_)) => true,
        _ => false,
    }
}

/// Whether nothing is there under that path.
fn is_absent(rt: &HostRuntime, path: &str) -> bool {
    match fs::symlink_metadata(rt, path) {
        Ok(_) => false,
        Err(error) => error.kind() == ErrorKind::NotFound,
    }
}

/// The path of the store of a command line that only looks into it, if nothing is there.
pub fn absent_store<'a>(
    rt: &HostRuntime,
    words: &'a [&'a str],
    clock: Option<u64>,
) -> Option<&'a str> {
    let options = options_in(rt.alloc(), words, clock).ok()?;
    if options.store == IN_MEMORY || !only_looks(&options.task) {
        return None;
    }
    if is_absent(rt, options.store) {
        Some(options.store)
    } else {
        None
    }
}

/// Hints that a new store was made under a path at which nothing was, if one was.
pub fn hint_made(rt: &HostRuntime, absent: Option<&str>) {
    let Some(path) = absent else {
        return;
    };
    if is_absent(rt, path) {
        return;
    }
    if let Ok(line) = format!(in rt.alloc();
        "hint: there was no store; a new one was made: {path}\n"
    ) {
        let _ = rt.stderr().write_all(line.as_str().as_bytes());
    }
}
