//! Options and values of commands.
ghost use Rattle.std.specs.Prelude.{◌≡◌, ◌<◌, ◌≤◌, ◌^◌, codes, false};
ghost use Rattle.clap.specs.Words.{rule_of};
ghost use Rattle.as2_commands.specs.CommandLine.{control, count_option, default, entry, first, flag, folder, format, idle, moment, nonempty, number, option, must_be_there, receipts_to, store, store_limit, timeout, positional};

use as2_exchange::END_OF_NUMBERS;
use as2_text::LAST_MOMENT;
use clap::builder::ValueParser;
use clap::{Arg, ArgAction, value_parser};
use std::alloc::Global;

pub(crate) const AGREEMENTS: &str = "agreements";

pub(crate) const STORE: &str = "store";

/// The most MiB of a store's files.
pub(crate) const STORE_LIMIT: &str = "store-limit";

pub(crate) const FIRST: &str = "first";

pub(crate) const MOMENT: &str = "moment";

pub(crate) const FROM: &str = "from";

pub(crate) const TO: &str = "to";

/// The document's file.
pub(crate) const FILE: &str = "file";

/// Replies are noted.
pub(crate) const LOG: &str = "log";

/// The longest wait for a peer.
pub(crate) const TIMEOUT: &str = "timeout";

/// The longest wait for another request.
pub(crate) const IDLE: &str = "idle";

/// Which of the boxes is listed.
pub(crate) const KIND: &str = "kind";

pub(crate) const STATE: &str = "state";

/// How what is told is printed.
pub(crate) const FORMAT: &str = "format";

/// The number of an entry.
pub(crate) const NUMBER: &str = "number";

/// The document was received.
pub(crate) const RECEIVED: &str = "received";

/// The folder that files are made in.
pub(crate) const OUT: &str = "out";

pub(crate) const LISTEN: &str = "listen";

/// Where a station that runs can be asked.
pub(crate) const CONTROL: &str = "control";

pub(crate) const RECEIPTS_TO: &str = "receipts-to";

/// How many connections are served.
pub(crate) const COUNT: &str = "count";

/// The least and the most seconds that a peer is waited for.
pub(crate) const LEAST_WAIT: u64 = 1;

pub(crate) const MOST_WAIT: u64 = 3600;

/// The most connections that are served.
pub(crate) const MOST_CONNECTIONS: u64 = 1_000_000;

/// The least and the most MiB that a store's files may be given.
pub(crate) const LEAST_LIMIT: u64 = 1;

pub(crate) const MOST_LIMIT: u64 = 1_048_576;

/// An option with a value.
pub(crate) fn option<'a>(alloc: Global, name: &'a str, value: &'a str, help: &'a str) -> Arg<'a>
    ensures rule { rule_of result ≡ option name.entry.now }
    ensures local { result.global ≡ false }
{
    Arg::new(alloc, name)
        .long(name)
        .value_name(value)
        .help(help)
}

/// An option without a value: it is there, or it isn't.
pub(crate) fn flag<'a>(alloc: Global, name: &'a str, help: &'a str) -> Arg<'a>
    ensures rule { rule_of result ≡ flag name.entry.now }
    ensures local { result.global ≡ false }
{
    Arg::new(alloc, name)
        .long(name)
        .action(ArgAction::SetTrue)
        .help(help)
}

/// An option that must be there.
pub(crate) fn required_option<'a>(
    alloc: Global,
    name: &'a str,
    value: &'a str,
    help: &'a str,
) -> Arg<'a>
    ensures rule { rule_of result ≡ must_be_there (option name.entry.now) }
    ensures local { result.global ≡ false }
{
    option(alloc, name, value, help).required(true)
}

/// An option that has that value where it isn't given.
fn default_option<'a>(
    alloc: Global,
    name: &'a str,
    value: &'a str,
    help: &'a str,
    otherwise: &'a str,
) -> Arg<'a>
    ensures rule { rule_of result ≡ default otherwise.entry.now (option name.entry.now) }
    ensures local { result.global ≡ false }
{
    option(alloc, name, value, help).default_value(otherwise)
}

/// A value that stands by itself, and must be there.
pub(crate) fn value<'a>(alloc: Global, id: &'a str, name: &'a str, help: &'a str) -> Arg<'a>
    ensures rule { rule_of result ≡ positional id.entry.now }
    ensures local { result.global ≡ false }
{
    Arg::new(alloc, id)
        .value_name(name)
        .help(help)
        .required(true)
}

/// The option or value, for numbers from `low` to `high` alone.
fn numbered<'a>(arg: Arg<'a>, low: u64, high: u64) -> Arg<'a>
    requires order { low ≤ high }
    requires fits { high < 2 ^ 63 }
    ensures rule { rule_of result ≡ number low high (rule_of arg.entry) }
    ensures local { result.global ≡ arg.entry.global }
{
    arg.value_parser(value_parser!(u64).range(low as i64..=high as i64))
}

pub(crate) fn first<'a>(alloc: Global) -> Arg<'a>
    ensures rule { rule_of result ≡ first }
    ensures local { result.global ≡ false }
{
    let help = "First number of a store that is made: 1 to 999999999999";
    let first = default_option(alloc, FIRST, "N", help, "1");
    numbered(first, 1, END_OF_NUMBERS - 1)
}

pub(crate) fn moment<'a>(alloc: Global) -> Arg<'a>
    ensures rule { rule_of result ≡ moment }
    ensures local { result.global ≡ false }
{
    let help =
        "Moment of the command, in seconds since 1970: 0 to 253402300799 [default: the clock]";
    numbered(option(alloc, MOMENT, "SECONDS", help), 0, LAST_MOMENT)
}

pub(crate) fn store_limit<'a>(alloc: Global) -> Arg<'a>
    ensures rule { rule_of result ≡ store_limit }
    ensures local { result.global ≡ false }
{
    let help = "Most MiB of the store's files with another document: 1 to 1048576";
    let limit = default_option(alloc, STORE_LIMIT, "MIB", help, "2048");
    numbered(limit, LEAST_LIMIT, MOST_LIMIT)
}

pub(crate) fn entry<'a>(alloc: Global, help: &'a str) -> Arg<'a>
    ensures rule { rule_of result ≡ entry }
    ensures local { result.global ≡ false }
{
    numbered(value(alloc, NUMBER, "N", help), 1, END_OF_NUMBERS - 1)
}

pub(crate) fn timeout<'a>(alloc: Global) -> Arg<'a>
    ensures rule { rule_of result ≡ timeout }
    ensures local { result.global ≡ false }
{
    let help = "Longest wait for a peer: 1 to 3600 seconds";
    let timeout = default_option(alloc, TIMEOUT, "SECONDS", help, "30");
    numbered(timeout, LEAST_WAIT, MOST_WAIT)
}

pub(crate) fn idle<'a>(alloc: Global, seconds: &'a str) -> Arg<'a>
    ensures rule { rule_of result ≡ idle seconds.entry.now }
    ensures local { result.global ≡ false }
{
    let help = "Longest wait for another request behind a reply: 1 to 3600 seconds";
    let idle = default_option(alloc, IDLE, "SECONDS", help, seconds);
    numbered(idle, LEAST_WAIT, MOST_WAIT)
}

/// The option or value, which may not be empty.
fn nonempty<'a>(arg: Arg<'a>) -> Arg<'a>
    ensures rule { rule_of result ≡ nonempty (rule_of arg.entry) }
    ensures local { result.global ≡ arg.entry.global }
{
    arg.value_parser(ValueParser::NonEmptyString)
}

pub(crate) fn store<'a>(alloc: Global) -> Arg<'a>
    ensures rule { rule_of result ≡ store }
    ensures local { result.global ≡ false }
{
    let help = "Records, an SQLite file, made where it is absent; ':memory:' keeps none";
    nonempty(required_option(alloc, STORE, "FILE", help))
}

pub(crate) fn folder<'a>(alloc: Global) -> Arg<'a>
    ensures rule { rule_of result ≡ folder }
    ensures local { result.global ≡ false }
{
    let help = "The folder that the files are made in";
    nonempty(default_option(alloc, OUT, "FOLDER", help, "."))
}

pub(crate) fn control<'a>(alloc: Global) -> Arg<'a>
    ensures rule { rule_of result ≡ control }
    ensures local { result.global ≡ false }
{
    let help =
        "The socket at which the station can be asked [default: the store's path and '.ctl']";
    nonempty(option(alloc, CONTROL, "PATH", help))
}

pub(crate) fn receipts_to<'a>(alloc: Global) -> Arg<'a>
    ensures rule { rule_of result ≡ receipts_to }
    ensures local { result.global ≡ false }
{
    let help = "Where receipts may be sent by requests of their own [default: anywhere]";
    nonempty(option(alloc, RECEIPTS_TO, "HOST[:PORT],..", help))
}

pub(crate) fn format<'a>(alloc: Global) -> Arg<'a>
    ensures rule { rule_of result ≡ format }
    ensures local { result.global ≡ false }
{
    let help = "'text' for people, or 'json' for programs: an object in each line";
    default_option(alloc, FORMAT, "FORMAT", help, "text")
}

pub(crate) fn count<'a>(alloc: Global) -> Arg<'a>
    ensures rule { rule_of result ≡ count_option }
    ensures local { result.global ≡ false }
{
    let help = "How many connections are served: 1 to 1000000";
    let count = required_option(alloc, COUNT, "N", help);
    numbered(count, 1, MOST_CONNECTIONS)
}
