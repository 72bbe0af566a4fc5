//! From words to what they ask for.
ghost use Rattle.std.specs.Prelude.{◌≡◌, ◌≢◌, ◌⊎◌, [], IfOk, IfErr};
ghost use Rattle.clap.specs.Walk.{texts};
ghost use Rattle.clap.specs.Words.{HasKind, app_of, found_of, kind_of, rows_of, subcommand_rows_of};
ghost use Rattle.clap.specs.declared.error.kind.ErrorKind.TheVariants.{OutOfMemory, ValueValidation};
ghost use Rattle.as2_commands.specs.CommandLine.{AsksForHelp, IsHelp, command_in, command_line, faults, option_values};
ghost use Rattle.as2_commands.specs.Options.{Gives, GivesNone};

use crate::command::command;
use crate::fault::OptionFault;
use crate::tasks::Options;
use clap::error::ErrorKind;
use clap::{ArgMatches, Command, Error};
use std::alloc::{AllocError, Global};

/// What the words ask for, which begin with the program's name. Or what there is to say in place of it: a fault, the
/// help or the version, as the error's kind tells. `clock` is the moment where the options give none, in seconds since
/// 1970, if it can be told.
pub fn options_in<'a>(
    alloc: Global,
    words: &'a [&'a str],
    clock: Option<u64>,
) -> Result<Options<'a>, Error>
    // What is read is what the words ask for.
    ensures given { IfOk result (λ o. Gives (texts words.entry.now) clock o.agreements.now o.store.now o.task) }
    // Words that ask for something are read, unless memory is wanting.
    ensures none { IfErr result (λ e. kind_of e ≢ OutOfMemory → GivesNone (texts words.entry.now) clock) }
    // Words that are no such command line get a fault of theirs, which may be that they ask for the help or the version.
    ensures kind { IfErr result (λ e. faults (texts words.entry.now) ≢ []
        → HasKind (faults (texts words.entry.now)) e) }
    // The help and the version are for those who ask for them.
    ensures help { IfErr result (λ e. IsHelp (kind_of e) → AsksForHelp (texts words.entry.now)) }
    // Of words that are one, it is a value that isn't taken.
    ensures values { IfErr result (λ e. faults (texts words.entry.now) ≡ [] → (kind_of e ≡ OutOfMemory)
        ⊎ (kind_of e ≡ ValueValidation)) }
{
    asked_by(alloc, &mut command(alloc)?, words, clock)
}

/// The same, of a command line that is made.
fn asked_by<'a>(
    alloc: Global,
    command: &mut Command<'a>,
    words: &'a [&'a str],
    clock: Option<u64>,
) -> Result<Options<'a>, Error>
    requires { app_of command.old ≡ command_line }
    ensures given { IfOk result (λ o. Gives (texts words.entry.now) clock o.agreements.now o.store.now o.task) }
    ensures none { IfErr result (λ e. kind_of e ≢ OutOfMemory → GivesNone (texts words.entry.now) clock) }
    ensures kind { IfErr result (λ e. faults (texts words.entry.now) ≢ []
        → HasKind (faults (texts words.entry.now)) e) }
    ensures help { IfErr result (λ e. IsHelp (kind_of e) → AsksForHelp (texts words.entry.now)) }
    ensures values { IfErr result (λ e. faults (texts words.entry.now) ≡ [] → (kind_of e ≡ OutOfMemory)
        ⊎ (kind_of e ≡ ValueValidation)) }
{
    let found = parse(command, words)?;
    match Options::of(&found, clock) {
        Ok(options) => Ok(options),
        Err(fault) => Err(explained(alloc, command, fault)?),
    }
}

/// What the parser finds in the words.
fn parse<'a>(command: &mut Command<'a>, words: &'a [&'a str]) -> Result<ArgMatches<'a>, Error>
    requires { app_of command.old ≡ command_line }
    ensures found { IfOk result (λ m. (faults (texts words.entry.now) ≡ [])
        × (rows_of (found_of m) ≡ option_values (texts words.entry.now))
        × (subcommand_rows_of m ≡ command_in (texts words.entry.now))) }
    ensures fault { IfErr result (HasKind (faults (texts words.entry.now))) }
{
    command.try_get_matches_from_mut(words)
}

/// The fault in the form of the parser's own errors.
fn explained(
    alloc: Global,
    command: &mut Command<'_>,
    fault: OptionFault<'_>,
) -> Result<Error, AllocError>
    ensures { IfOk result (λ e. kind_of e ≡ ValueValidation) }
{
    let text = fault.to_string(alloc)?;
    command.error(ErrorKind::ValueValidation, text.as_str())
}
