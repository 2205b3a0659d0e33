//! The program with its commands, as the parser takes them.
ghost use Rattle.std.specs.Prelude.{◌≡◌, false, IfOk};
ghost use Rattle.clap.specs.Words.{app_of};
ghost use Rattle.clap.specs.declared.builder.command.Command.TheViews.{out-Command};
ghost use Rattle.it_words.specs.Commands.{program, without_command};
ghost use Rattle.it_words.specs.inside.Rows.{app_of_row};

use super::arguments::argument_of;
use super::table::{CommandRow, rows};
use clap::Command;
use std::alloc::{AllocError, Global};

/// The program with all of its commands.
pub(super) fn command<'a>(alloc: Global) -> Result<Command<'a>, AllocError>
    ensures { IfOk result (λ command. app_of command ≡ program) }
{
    let mut program = without_command(alloc);
    for row in rows() {
        program = program.subcommand(command_of(alloc, row)?)?;
    }
    Ok(program)
}

/// The program with no command: one has to be named, and no word asks for help.
fn without_command<'a>(alloc: Global) -> Command<'a>
    ensures { app_of result ≡ without_command }
{
    Command::new(alloc, "itv")
        .disable_help_flag(true)
        .disable_help_subcommand(true)
        .subcommand_required(true)
}

/// The command of a row, of whose arguments none is global.
fn command_of<'a>(alloc: Global, row: &CommandRow) -> Result<Command<'a>, AllocError>
    ensures app { IfOk result (λ command. app_of command ≡ app_of_row row.now) }
    ensures local { IfOk result (λ command. (out-Command command).has_globals ≡ false) }
{
    let mut command = Command::new(alloc, row.name);
    for argument in row.arguments {
        command = command.arg(argument_of(alloc, argument))?;
    }
    Ok(command)
}
