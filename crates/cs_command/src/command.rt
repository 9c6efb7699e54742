// All options, flags and names, as one command.
ghost use Rattle.std.specs.Prelude.{◌≡◌, false, IfOk};
ghost use Rattle.clap.specs.Walk.{Rule};
ghost use Rattle.clap.specs.Words.{App, app_of, rule_of, with_rule};
ghost use Rattle.cs_arguments.specs.Command.{bare_app, lettered_app, the_app};

use crate::options::{demo_option, from_one_to, letter_flag, letter_option, long_flag, name};
use clap::builder::ValueParser;
use clap::{Arg, Command};
use std::alloc::{AllocError, Global};

/// Returns the command that reads the arguments.
pub fn command<'w>(alloc: Global) -> Result<Command<'w>, AllocError>
    ensures { IfOk result (λ c. app_of c ≡ the_app) }
{
    let command = with_letters(alloc);
    let command = with(command, long_flag(alloc, "turns"));
    let command = with(command, long_flag(alloc, "pool"));
    let command = with(command, demo_option(alloc));
    let command = with(command, name(alloc, "ORC"));
    with(command, name(alloc, "SCO"))
}

// Returns the command with its options and flags of one letter.
fn with_letters<'w>(alloc: Global) -> Result<Command<'w>, AllocError>
    ensures { IfOk result (λ c. app_of c ≡ lettered_app) }
{
    let command = with(
        Ok(bare(alloc)),
        letter_option(alloc, "j", 'j', from_one_to(32)),
    );
    let command = with(
        command,
        letter_option(alloc, "o", 'o', ValueParser::NonEmptyString),
    );
    let command = with(command, letter_flag(alloc, "W", 'W'));
    let command = with(command, letter_flag(alloc, "s", 's'));
    let command = with(command, letter_flag(alloc, "d", 'd'));
    let command = with(command, letter_flag(alloc, "n", 'n'));
    with(command, letter_flag(alloc, "3", '3'))
}

// Returns the command without options and names. It reads the arguments after the program's name, and no
// argument asks for help.
fn bare<'w>(alloc: Global) -> Command<'w>
    ensures { app_of result ≡ bare_app }
{
    Command::new(alloc, "csplay")
        .no_binary_name(true)
        .disable_help_flag(true)
        .disable_version_flag(true)
}

// Adds an option, flag or name to a command, if there is a command.
fn with<'a>(
    command: Result<Command<'a>, AllocError>,
    arg: Arg<'a>,
) -> Result<Command<'a>, AllocError>
    requires { arg.global ≡ false }
    ensures { (app : App) (rule : Rule) → rule_of arg.entry ≡ rule → IfOk command.entry (λ c. app_of c ≡ app)
        → IfOk result (λ c. app_of c ≡ with_rule app rule) }
{
    match command {
        Ok(command) => command.arg(arg),
        Err(error) => Err(error),
    }
}
