//! What may help whoever looks on, a line each: what is given and not looked at, and which file can't be read. Also how many replies were
//! 503, and how many documents were refused by the limit of the store. `places` has the lines on agreements, and `as2_sending` those on
//! tries.
ghost use Rattle.std.specs.Prelude.{◌≡◌, OnOk, true};
ghost use Rattle.std.specs.Io.KnownBytes.{Appends};
ghost use Rattle.as2_desk.specs.Hints.{busy_hint, file_hint, file_hint_if, idle_hint, limit_hint};

use crate::escaping::write_escaped;
use as2_commands::{Command, Question, Submission};
use std::io;
use std::io::Write;

const IDLE_STATE: &str = "hint: 'list in' doesn't look at --state\n";

/// Says what is given and not looked at: a state, where what was received is listed; and whether that could be said.
pub(crate) fn is_noticed<H: Write>(command: &Command<'_, Submission<'_>>, hints: &mut H) -> bool
    ensures { result ≡ true → Appends (H.contents hints.old) (H.contents hints.new) (idle_hint command.now) }
{
    match command {
        Command::Ask(Question::List(_, true, _)) => hints.write_all(IDLE_STATE.as_bytes()).is_ok(),
        _ => true,
    }
}

/// The path of the file that a command reads; empty where it reads none.
pub(crate) fn document_path<'a>(command: &Command<'a, Submission<'a>>) -> &'a str {
    match command {
        Command::Ask(Question::Submit(submission)) => submission.path,
        _ => "",
    }
}

/// Writes which file can't be read.
fn write_file<H: Write>(path: &str, hints: &mut H) -> io::Result<()>
    ensures { OnOk result (Appends (H.contents hints.old) (H.contents hints.new) (file_hint path.now)) }
{
    hints.write_all(b"hint: file \"")?;
    write_escaped(path, hints)?;
    hints.write_all(b"\"\n")
}

/// Says which file can't be read, where one can't be; and whether that could be said.
pub(crate) fn is_named<H: Write>(unread: bool, path: &str, hints: &mut H) -> bool
    ensures { result ≡ true → Appends (H.contents hints.old) (H.contents hints.new) (file_hint_if unread path.now) }
{
    !unread || write_file(path, hints).is_ok()
}

/// Says how many replies had status 503, where one had; and whether that could be said.
pub(crate) fn is_busy_told<H: Write>(count: u64, hints: &mut H) -> bool
    ensures told { result ≡ true → Appends (H.contents hints.old) (H.contents hints.new) (busy_hint count) }
    ensures none { count ≡ 0 → hints.new ≡ hints.old }
{
    if count == 0 {
        return true;
    }
    write!(hints, "hint: replies with status 503: {count}\n").is_ok()
}

/// Says how many documents were refused by that limit in MiB, where one was; and whether that could be said.
pub(crate) fn is_limit_told<H: Write>(count: u64, limit: u64, hints: &mut H) -> bool
    ensures told { result ≡ true → Appends (H.contents hints.old) (H.contents hints.new) (limit_hint count limit) }
    ensures none { count ≡ 0 → hints.new ≡ hints.old }
{
    if count == 0 {
        return true;
    }
    write!(
        hints,
        "hint: documents refused by --store-limit {limit}: {count}\n"
    )
    .is_ok()
}
