//! Each command, with its own options.
ghost use Rattle.std.specs.Prelude.{[], ◌∷◌, codes, IfOk};
ghost use Rattle.as2_commands.specs.Building.{Looks};
ghost use Rattle.as2_commands.specs.CommandLine.{command, entry, evidence_command, format, list_command, post_command, run_command, serve_command, show_command, submit_command, timeout};

use crate::args::{
    FILE, FROM, KIND, LISTEN, LOG, RECEIVED, STATE, TO, control, count, entry, flag, folder,
    format, idle, option, receipts_to, required_option, timeout, value,
};
use crate::building::{Made, and};
use crate::help;
use clap::Command;
use std::alloc::Global;

pub(crate) const CHECK: &str = "check";

pub(crate) const MIGRATE: &str = "migrate";

pub(crate) const VERIFY: &str = "verify";

pub(crate) const EVIDENCE: &str = "evidence";

pub(crate) const POST: &str = "post";

pub(crate) const SUBMIT: &str = "submit";

pub(crate) const SEND: &str = "send";

pub(crate) const TICK: &str = "tick";

pub(crate) const RESEND: &str = "resend";

pub(crate) const LIST: &str = "list";

pub(crate) const OUTSTANDING: &str = "outstanding";

pub(crate) const SHOW: &str = "show";

pub(crate) const FETCH: &str = "fetch";

pub(crate) const SERVE: &str = "serve";

pub(crate) const RUN: &str = "run";

pub(crate) const STOP: &str = "stop";

/// A command, before its options.
fn named<'a>(alloc: Global, name: &'a str, about: &'a str, help: &'a str) -> Made<'a>
    ensures { IfOk result (Looks (command name.entry.now [])) }
{
    Ok(Command::new(alloc, name).about(about).after_help(help))
}

pub(crate) fn check<'a>(alloc: Global) -> Made<'a>
    ensures { IfOk result (Looks (command (codes "check") [])) }
{
    let about = "Reads the agreements and prints how many organizations and partners they have";
    named(alloc, CHECK, about, help::CHECK)
}

pub(crate) fn migrate<'a>(alloc: Global) -> Made<'a>
    ensures { IfOk result (Looks (command (codes "migrate") [])) }
{
    let about = "Makes a store of an earlier version one of this version";
    named(alloc, MIGRATE, about, help::MIGRATE)
}

pub(crate) fn verify<'a>(alloc: Global) -> Made<'a>
    ensures { IfOk result (Looks (command (codes "verify") (format ∷ []))) }
{
    let about = "Looks through all records, and prints what is wrong with them";
    and(named(alloc, VERIFY, about, help::VERIFY), format(alloc))
}

pub(crate) fn evidence<'a>(alloc: Global) -> Made<'a>
    ensures { IfOk result (Looks evidence_command) }
{
    let about = "Makes the files that show how a document stands: its content, its receipt, a page";
    let number = entry(alloc, "Number of the document: 1 to 999999999999");
    let received = "The document is one that was received, and not one that is sent";
    let evidence = and(named(alloc, EVIDENCE, about, help::EVIDENCE), number);
    let evidence = and(evidence, flag(alloc, RECEIVED, received));
    and(evidence, folder(alloc))
}

pub(crate) fn post<'a>(alloc: Global) -> Made<'a>
    ensures { IfOk result (Looks post_command) }
{
    let about = "Answers the requests on standard input with replies on standard output";
    let log = "Says a line for each reply on standard error";
    and(named(alloc, POST, about, help::POST), flag(alloc, LOG, log))
}

pub(crate) fn submit<'a>(alloc: Global) -> Made<'a>
    ensures { IfOk result (Looks submit_command) }
{
    let about = "Takes a document in for a partner, and prints its number";
    let from = "The organization that sends it";
    let to = "The partner that it is for";
    let file = "The document, of at most 1048576 bytes";
    let submit = named(alloc, SUBMIT, about, help::SUBMIT);
    let submit = and(submit, required_option(alloc, FROM, "NAME", from));
    let submit = and(submit, required_option(alloc, TO, "NAME", to));
    and(submit, value(alloc, FILE, "FILE", file))
}

pub(crate) fn send<'a>(alloc: Global) -> Made<'a>
    ensures { IfOk result (Looks (command (codes "send") (timeout ∷ []))) }
{
    let about = "Sends each document and receipt that is due, and prints what became of each";
    and(named(alloc, SEND, about, help::SEND), timeout(alloc))
}

pub(crate) fn tick<'a>(alloc: Global) -> Made<'a>
    ensures { IfOk result (Looks (command (codes "tick") [])) }
{
    let about = "Gives up what has waited until now, and prints how many documents that is";
    named(alloc, TICK, about, help::TICK)
}

pub(crate) fn resend<'a>(alloc: Global) -> Made<'a>
    ensures { IfOk result (Looks (command (codes "resend") (entry ∷ []))) }
{
    let about = "Queues a document that failed, to be sent anew with all its tries";
    let number = entry(
        alloc,
        "Number of a document of the outbox: 1 to 999999999999",
    );
    and(named(alloc, RESEND, about, help::RESEND), number)
}

pub(crate) fn list<'a>(alloc: Global) -> Made<'a>
    ensures { IfOk result (Looks list_command) }
{
    let about = "Lists the documents that were sent or received, a line each";
    let kind = "'out' for those that were handed in to be sent, 'in' for those received";
    let state = "Only those in this state, of 'out': P, R, S, W or E";
    let list = named(alloc, LIST, about, help::LIST);
    let list = and(list, value(alloc, KIND, "KIND", kind));
    let list = and(list, option(alloc, STATE, "S", state));
    and(list, format(alloc))
}

pub(crate) fn outstanding<'a>(alloc: Global) -> Made<'a>
    ensures { IfOk result (Looks (command (codes "outstanding") (format ∷ []))) }
{
    let about = "Counts what is outstanding, and lists the documents that are due";
    and(
        named(alloc, OUTSTANDING, about, help::OUTSTANDING),
        format(alloc),
    )
}

pub(crate) fn show<'a>(alloc: Global) -> Made<'a>
    ensures { IfOk result (Looks show_command) }
{
    let about = "Shows a document of the outbox, a line for each thing that is known of it";
    let number = entry(
        alloc,
        "Number of a document of the outbox: 1 to 999999999999",
    );
    let show = and(named(alloc, SHOW, about, help::SHOW), number);
    and(show, format(alloc))
}

pub(crate) fn fetch<'a>(alloc: Global) -> Made<'a>
    ensures { IfOk result (Looks (command (codes "fetch") (entry ∷ []))) }
{
    let about = "Writes the content of a document of the inbox";
    let number = entry(
        alloc,
        "Number of a document of the inbox: 1 to 999999999999",
    );
    and(named(alloc, FETCH, about, help::FETCH), number)
}

pub(crate) fn serve<'a>(alloc: Global) -> Made<'a>
    ensures { IfOk result (Looks serve_command) }
{
    let about = "Answers connections of partners, one after the other";
    let help = "Where it listens, as 127.0.0.1:8080; with port 0 the system chooses one";
    let serve = named(alloc, SERVE, about, help::SERVE);
    let serve = and(serve, required_option(alloc, LISTEN, "ADDRESS", help));
    let serve = and(and(serve, count(alloc)), timeout(alloc));
    and(serve, idle(alloc, "2"))
}

pub(crate) fn run<'a>(alloc: Global) -> Made<'a>
    ensures { IfOk result (Looks run_command) }
{
    let about = "Runs the station: answers partners, and can be asked, until 'stop'";
    let help = "Where it listens, as 127.0.0.1:8080; with port 0 the system chooses one";
    let run = named(alloc, RUN, about, help::RUN);
    let run = and(run, required_option(alloc, LISTEN, "ADDRESS", help));
    let run = and(and(run, control(alloc)), timeout(alloc));
    and(and(run, idle(alloc, "75")), receipts_to(alloc))
}

pub(crate) fn stop<'a>(alloc: Global) -> Made<'a>
    ensures { IfOk result (Looks (command (codes "stop") [])) }
{
    let about = "Ends the station that runs over the store, in good order";
    named(alloc, STOP, about, help::STOP)
}
