//! The command line that the program reads.
ghost use Rattle.std.specs.Prelude.{◌≡◌, IfOk};
ghost use Rattle.clap.specs.Words.{app_of};
ghost use Rattle.as2_commands.specs.CommandLine.{command_line, options, program, titled_program};

use crate::args::{AGREEMENTS, first, moment, required_option, store, store_limit};
use crate::building::{Made, with_command, with_option};
use crate::{help, own};
use clap::Command;
use std::alloc::Global;

/// The command line that the program reads.
pub(crate) fn command<'a>(alloc: Global) -> Made<'a>
    ensures { IfOk result (λ c. app_of c ≡ command_line) }
{
    let line = with_command(with_options(alloc), own::check(alloc));
    let line = with_command(line, own::migrate(alloc));
    let line = with_command(line, own::verify(alloc));
    let line = with_command(line, own::evidence(alloc));
    let line = with_command(line, own::post(alloc));
    let line = with_command(line, own::submit(alloc));
    let line = with_command(line, own::send(alloc));
    let line = with_command(line, own::tick(alloc));
    let line = with_command(line, own::resend(alloc));
    let line = with_command(line, own::list(alloc));
    let line = with_command(line, own::outstanding(alloc));
    let line = with_command(line, own::show(alloc));
    let line = with_command(line, own::fetch(alloc));
    let line = with_command(line, own::serve(alloc));
    let line = with_command(line, own::run(alloc));
    with_command(line, own::stop(alloc))
}

/// The program with the options before its command.
fn with_options<'a>(alloc: Global) -> Made<'a>
    ensures { IfOk result (λ c. app_of c ≡ options) }
{
    let agreements = "Agreements, a TOML file: the station's names, its partners and their terms";
    let line = Ok(program(alloc));
    let line = with_option(line, required_option(alloc, AGREEMENTS, "FILE", agreements));
    let line = with_option(line, store(alloc));
    let line = with_option(line, store_limit(alloc));
    with_option(with_option(line, first(alloc)), moment(alloc))
}

/// The program's name and what it says of itself.
fn titled<'a>(alloc: Global) -> Command<'a>
    ensures { app_of result ≡ titled_program }
{
    Command::new(alloc, "as2desk")
        .version("0.18.0")
        .about("An AS2 station: takes documents from partners and answers with receipts")
        .after_help(help::PROGRAM)
}

/// The program, before its options and commands.
fn program<'a>(alloc: Global) -> Command<'a>
    ensures { app_of result ≡ program }
{
    titled(alloc)
        .subcommand_required(true)
        .subcommand_value_name("COMMAND")
        .disable_help_subcommand(true)
}
