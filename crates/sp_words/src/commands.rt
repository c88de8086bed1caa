// The commands' options, read by `clap`.
ghost use Rattle.std.specs.Prelude.{◌≡◌, IfOk, codes, map, option_map, string_bytes};
ghost use Rattle.clap.specs.Simple.{app_of};
ghost use Rattle.clap.specs.Matches.{found_of};
ghost use Rattle.clap.specs.Walk.{first_of, rows_of};
ghost use Rattle.sp_words.specs.Commands.{IsParsed, bare_app, demo_app, live_app, run_app, view_app, with_budgets, with_common, with_flag, with_option, with_slicing};

use crate::asked::WordFault;
use clap::error::ErrorKind;
use clap::{Arg, ArgAction, ArgMatches, Command};
use sp_report::UsageKind;
use std::alloc::{AllocError, Global};

// A command without options, help and version.
fn bare<'a>(alloc: Global, name: &'a str) -> Command<'a>
    ensures { app_of result ≡ bare_app name.now }
{
    Command::new(alloc, name)
        .no_binary_name(true)
        .disable_help_flag(true)
        .disable_version_flag(true)
}

// The command with an option that takes a value.
fn with_option<'a>(
    alloc: Global,
    command: Command<'a>,
    name: &'a str,
) -> Result<Command<'a>, AllocError>
    ensures { IfOk result (λ c. app_of c ≡ with_option name.now (app_of command.entry)) }
{
    command.arg(Arg::new(alloc, name).long(name).action(ArgAction::Set))
}

// The command with an option that takes none.
fn with_flag<'a>(
    alloc: Global,
    command: Command<'a>,
    name: &'a str,
) -> Result<Command<'a>, AllocError>
    ensures { IfOk result (λ c. app_of c ≡ with_flag name.now (app_of command.entry)) }
{
    command.arg(Arg::new(alloc, name).long(name).action(ArgAction::SetTrue))
}

// The command with the options of a run's tool and bounds.
fn with_budgets<'a>(alloc: Global, command: Command<'a>) -> Result<Command<'a>, AllocError>
    ensures { IfOk result (λ c. app_of c ≡ with_budgets (app_of command.entry)) }
{
    let command = with_option(alloc, command, "tool")?;
    let command = with_option(alloc, command, "budget")?;
    with_option(alloc, command, "limit")
}

// The command with the options of slices.
fn with_slicing<'a>(alloc: Global, command: Command<'a>) -> Result<Command<'a>, AllocError>
    ensures { IfOk result (λ c. app_of c ≡ with_slicing (app_of command.entry)) }
{
    let command = with_option(alloc, command, "poll")?;
    let command = with_option(alloc, command, "msec")?;
    let command = with_option(alloc, command, "records")?;
    with_option(alloc, command, "frames")
}

// The command with the options that each `run` has.
fn with_common<'a>(alloc: Global, command: Command<'a>) -> Result<Command<'a>, AllocError>
    ensures { IfOk result (λ c. app_of c ≡ with_common (app_of command.entry)) }
{
    let command = with_budgets(alloc, command)?;
    let command = with_slicing(alloc, command)?;
    with_flag(alloc, command, "slices")
}

/// `run`, serially or by windows.
#[tactic(auto, unfolding(crate::specs::Commands::run_app))]
pub(crate) fn run_command<'a>(alloc: Global) -> Result<Command<'a>, AllocError>
    ensures { IfOk result (λ c. app_of c ≡ run_app) }
{
    let command = with_option(alloc, bare(alloc, "run"), "by")?;
    with_common(alloc, command)
}

/// `run`, with workers.
#[tactic(auto, unfolding(crate::specs::Commands::live_app))]
pub(crate) fn live_command<'a>(alloc: Global) -> Result<Command<'a>, AllocError>
    ensures { IfOk result (λ c. app_of c ≡ live_app) }
{
    let command = with_common(alloc, bare(alloc, "run"))?;
    with_option(alloc, command, "workers")
}

/// `view`.
#[tactic(auto, unfolding(crate::specs::Commands::view_app))]
pub(crate) fn view_command<'a>(alloc: Global) -> Command<'a>
    ensures { app_of result ≡ view_app }
{
    bare(alloc, "view")
}

/// `demo`.
#[tactic(auto, unfolding(crate::specs::Commands::demo_app))]
pub(crate) fn demo_command<'a>(alloc: Global) -> Command<'a>
    ensures { app_of result ≡ demo_app }
{
    bare(alloc, "demo")
}

/// What the command makes of words.
pub(crate) fn parse<'a>(
    command: Command<'a>,
    words: &'a [String],
) -> Result<ArgMatches<'a>, WordFault>
    ensures { IsParsed (app_of command.entry) (map string_bytes words.now) result }
{
    match command.try_get_matches_from(words) {
        Ok(matches) => Ok(matches),
        Err(error) => {
            if error.kind() == ErrorKind::OutOfMemory {
                Err(WordFault::NoMemory)
            } else {
                Err(WordFault::Usage(UsageKind::Form))
            }
        }
    }
}

/// The value of an option, if it is given.
pub(crate) fn value_of<'a>(matches: &ArgMatches<'a>, name: &str) -> Option<&'a str>
    ensures { option_map (λ s. s.now) result ≡ first_of name.now (rows_of (found_of matches.now)) }
{
    matches.get_str(name)
}
