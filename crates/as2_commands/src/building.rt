//! A command line is put together. Each step takes what may have been made and gives what may have been, so that nothing is held
//! where one leaves.
ghost use Rattle.std.specs.Prelude.{◌≡◌, false, IfOk};
ghost use Rattle.clap.specs.Words.{App, Rule, Shape, app_of, rule_of, with_rule, with_subcommand};
ghost use Rattle.as2_commands.specs.Building.{Looks, and_rule};

use clap::{Arg, Command};
use std::alloc::AllocError;

/// A command line, or want of memory.
pub(crate) type Made<'a> = Result<Command<'a>, AllocError>;

/// A command with one option more.
pub(crate) fn and<'a>(command: Made<'a>, arg: Arg<'a>) -> Made<'a>
    ensures { (s : Shape) (r : Rule) → IfOk command.entry (Looks s) → rule_of arg.entry ≡ r → arg.entry.global ≡ false
        → IfOk result (Looks (and_rule s r)) }
{
    command?.arg(arg)
}

/// The program with one option more.
pub(crate) fn with_option<'a>(program: Made<'a>, arg: Arg<'a>) -> Made<'a>
    ensures { (a : App) (r : Rule) → IfOk program.entry (λ c. app_of c ≡ a) → rule_of arg.entry ≡ r
        → arg.entry.global ≡ false
        → IfOk result (λ c. app_of c ≡ with_rule a r) }
{
    program?.arg(arg)
}

/// The program with one command more.
pub(crate) fn with_command<'a>(program: Made<'a>, own: Made<'a>) -> Made<'a>
    ensures { (a : App) (s : Shape) → IfOk program.entry (λ c. app_of c ≡ a) → IfOk own.entry (Looks s)
        → IfOk result (λ c. app_of c ≡ with_subcommand a s) }
{
    program?.subcommand(own?)
}
