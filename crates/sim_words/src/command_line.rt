// The words that the program takes, as `clap` has them.
ghost use Rattle.std.specs.Prelude.{◌≡◌, IfOk, false};
ghost use Rattle.clap.specs.Words.{app_of, rule_of, with_rule};
ghost use Rattle.sim_words.specs.CommandLine.{command_line, json_rule, option_rule, place_rule};

use clap::{Arg, ArgAction, Command, Error};
use std::alloc::Global;

/// One more word that has to be given, by its place.
fn with_place<'a>(alloc: Global, command: Command<'a>, name: &'a str) -> Result<Command<'a>, Error>
    ensures { IfOk result (λ r. app_of r ≡ with_rule (app_of command.entry) (place_rule name.entry.now)) }
{
    let place = Arg::new(alloc, name).required(true);
    Ok(command.arg(place)?)
}

/// One more option that takes a value.
fn with_option<'a>(alloc: Global, command: Command<'a>, name: &'a str) -> Result<Command<'a>, Error>
    ensures { IfOk result (λ r. app_of r ≡ with_rule (app_of command.entry) (option_rule name.entry.now)) }
{
    let option = Arg::new(alloc, name).long(name);
    Ok(command.arg(option)?)
}

/// The flag that asks for a report in JSON.
fn with_json<'a>(alloc: Global, command: Command<'a>) -> Result<Command<'a>, Error>
    ensures { IfOk result (λ r. app_of r ≡ with_rule (app_of command.entry) json_rule) }
{
    let flag = Arg::new(alloc, "json")
        .long("json")
        .action(ArgAction::SetTrue);
    Ok(command.arg(flag)?)
}

/// The whole command line, without flags for help and version.
pub(crate) fn command_line<'a>(alloc: Global) -> Result<Command<'a>, Error>
    ensures { IfOk result (λ r. app_of r ≡ command_line) }
{
    let command = Command::new(alloc, "hiersim")
        .no_binary_name(true)
        .disable_help_flag(true)
        .disable_version_flag(true);
    let command = with_place(alloc, command, "command")?;
    let command = with_place(alloc, command, "file")?;
    let command = with_option(alloc, command, "base")?;
    let command = with_option(alloc, command, "pages")?;
    let command = with_option(alloc, command, "frames")?;
    let command = with_option(alloc, command, "codec")?;
    let command = with_option(alloc, command, "l1-sets")?;
    let command = with_option(alloc, command, "l1-ways")?;
    let command = with_option(alloc, command, "l2-sets")?;
    let command = with_option(alloc, command, "l2-ways")?;
    let command = with_option(alloc, command, "meta")?;
    let command = with_option(alloc, command, "budget")?;
    let command = with_option(alloc, command, "beats")?;
    with_json(alloc, command)
}
