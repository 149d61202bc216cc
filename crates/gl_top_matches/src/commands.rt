//! The commands as clap has them, and what it matches.

ghost use Rattle.std.specs.Prelude.{◌≡◌, IfOk};
ghost use Rattle.clap.specs.Words.{app_of, with_rule};
ghost use Rattle.gl_top_forms.specs.Forms.{IsCommand};
ghost use Rattle.gl_top_matches.specs.Apps.{Tells, app_for, name_rule, no_name, one_name, option_rule, three_names, two_names};

use clap::error::ErrorKind;
use clap::{Arg, ArgMatches};
use gl_outside::{Memory, Words};
use gl_top_forms::Command;
use std::alloc::{AllocError, Global};

// The command with a name more.
fn with_name<'a>(
    alloc: Global,
    command: clap::Command<'a>,
    id: &'a str,
) -> Result<clap::Command<'a>, AllocError>
    ensures { IfOk result (λ c.
        app_of c ≡ with_rule (app_of command.entry) (name_rule id.now)) }
{
    let name = Arg::new(alloc, id).required(true);
    command.arg(name)
}

// The command with an option.
fn with_option<'a>(
    alloc: Global,
    command: clap::Command<'a>,
    long: &'a str,
    required: bool,
) -> Result<clap::Command<'a>, AllocError>
    ensures { IfOk result (λ c.
        app_of c ≡ with_rule (app_of command.entry) (option_rule long.now required)) }
{
    let option = Arg::new(alloc, "value").long(long).required(required);
    command.arg(option)
}

fn no_name<'a>(alloc: Global) -> Result<clap::Command<'a>, AllocError>
    ensures { IfOk result (λ c. app_of c ≡ no_name) }
{
    Ok(clap::Command::new(alloc, "glacier"))
}

fn one_name<'a>(alloc: Global) -> Result<clap::Command<'a>, AllocError>
    ensures { IfOk result (λ c. app_of c ≡ one_name) }
{
    with_name(alloc, no_name(alloc)?, "first")
}

fn two_names<'a>(alloc: Global) -> Result<clap::Command<'a>, AllocError>
    ensures { IfOk result (λ c. app_of c ≡ two_names) }
{
    with_name(alloc, one_name(alloc)?, "second")
}

fn three_names<'a>(alloc: Global) -> Result<clap::Command<'a>, AllocError>
    ensures { IfOk result (λ c. app_of c ≡ three_names) }
{
    with_name(alloc, two_names(alloc)?, "third")
}

// The command as clap has it.
fn command_for<'a>(alloc: Global, command: Command) -> Result<clap::Command<'a>, AllocError>
    ensures { IfOk result (λ c. app_of c ≡ app_for command) }
{
    match command {
        Command::Compile
        | Command::Figures
        | Command::Explain
        | Command::Many
        | Command::ManyFigures
        | Command::Why => two_names(alloc),
        Command::Run | Command::Vcd | Command::ManyRun => with_option(
            alloc,
            three_names(alloc)?,
            "start",
            false,
        ),
        Command::WhyRun => three_names(alloc),
        Command::Sim => with_option(alloc, three_names(alloc)?, "extra", true),
        Command::Load | Command::Undump | Command::HelpOf => one_name(alloc),
        Command::Help | Command::DashedHelp | Command::Version => no_name(alloc),
    }
}

// What clap makes of the words, of which the command's stands where it wants the program's name.
fn matched<'a>(
    command: clap::Command<'a>,
    words: &'a Words,
    of: Command,
) -> Result<ArgMatches<'a>, Memory>
    requires words { IsCommand words.now of }
    requires app { app_of command ≡ app_for of }
    ensures { IfOk result (Tells words.now) }
{
    match command.try_get_matches_from(words.texts()) {
        Ok(matches) => Ok(matches),
        Err(fault) => match fault.kind() {
            ErrorKind::OutOfMemory => Err(Memory),
            // Clap takes all words that the forms accept.
            _ => unreachable!(),
        },
    }
}

/// What clap matches in the words of a command.
pub(crate) fn matches_of<'a>(
    alloc: Global,
    words: &'a Words,
    command: Command,
) -> Result<ArgMatches<'a>, Memory>
    requires { IsCommand words.now command }
    ensures { IfOk result (Tells words.now) }
{
    match command_for(alloc, command) {
        Ok(taking) => matched(taking, words, command),
        Err(_) => Err(Memory),
    }
}
