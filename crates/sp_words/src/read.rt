// Words, read to what they ask for.
ghost use Rattle.std.specs.Prelude.{◌≡◌, ◌∷◌, IfOk, Ok, length, map, string_bytes, true};
ghost use Rattle.clap.specs.Simple.{app_of};
ghost use Rattle.clap.specs.Faults.{is_simple_and_free};
ghost use Rattle.clap.specs.Matches.{found_of};
ghost use Rattle.clap.specs.Walk.{rows_of};
ghost use Rattle.sp_words.specs.Asked.{Answers, IsMatched, demo_with, live_words_wanted, one_wanted, run_wanted, run_with, view_with, words_wanted};
ghost use Rattle.sp_words.specs.Commands.{demo_app, live_app, run_app, view_app};
ghost use Rattle.sp_words.specs.Options.{live_values, run_values, shown};
ghost use Rattle.sp_words.specs.Shown.{values_of};

use crate::asked::{Arguments, Asked, FileName, RunAsked, WordFault};
use crate::commands::{demo_command, live_command, parse, run_command, view_command};
use crate::given::RunValues;
use crate::options::{live_values, run_values};
use crate::split::{is_given_twice, split_words};
use crate::value::number_in;
use clap::{ArgMatches, Command};
use sp_report::{OptionName, UsageKind};
use std::alloc::{AllocError, Global};

// What the command makes of its options, where the words are in form.
fn matched<'a>(
    alloc: Global,
    command: Command<'a>,
    options: &'a [String],
    fits: bool,
) -> Result<ArgMatches<'a>, WordFault>
    requires { is_simple_and_free (app_of command) ≡ true }
    ensures { IsMatched (app_of command.entry) (map string_bytes options.now) fits result }
{
    let matches = match parse(command, options) {
        Ok(matches) => matches,
        Err(fault) => return Err(fault),
    };
    if is_given_twice(alloc, options)? || !fits {
        return Err(WordFault::Usage(UsageKind::Form));
    }
    Ok(matches)
}

// The options of a run that is serial or by windows.
fn run_matched<'a>(
    alloc: Global,
    options: &'a [String],
    fits: bool,
) -> Result<ArgMatches<'a>, WordFault>
    ensures { IsMatched run_app (map string_bytes options.now) fits result }
{
    let command = run_command(alloc)?;
    matched(alloc, command, options, fits)
}

// The options of a run with workers.
fn live_matched<'a>(
    alloc: Global,
    options: &'a [String],
    fits: bool,
) -> Result<ArgMatches<'a>, WordFault>
    ensures { IsMatched live_app (map string_bytes options.now) fits result }
{
    let command = live_command(alloc)?;
    matched(alloc, command, options, fits)
}

// The options of a view, of which there are none.
fn view_matched<'a>(
    alloc: Global,
    options: &'a [String],
    fits: bool,
) -> Result<ArgMatches<'a>, WordFault>
    ensures { IsMatched view_app (map string_bytes options.now) fits result }
{
    matched(alloc, view_command(alloc), options, fits)
}

// The options of a generated program, of which there are none.
fn demo_matched<'a>(
    alloc: Global,
    options: &'a [String],
    fits: bool,
) -> Result<ArgMatches<'a>, WordFault>
    ensures { IsMatched demo_app (map string_bytes options.now) fits result }
{
    matched(alloc, demo_command(alloc), options, fits)
}

// The file that a word names.
fn file_name(alloc: Global, word: &str) -> Result<FileName, AllocError>
    ensures { IfOk result (λ name. name ≡ word.now) }
{
    let name = String::from_str(alloc, word)?;
    Ok(FileName::new(name))
}

// The arguments of a program.
fn arguments(alloc: Global, words: &[String]) -> Result<Arguments, AllocError>
    ensures { IfOk result (λ args. args ≡ map string_bytes words.now) }
{
    let mut args = Vec::new(alloc);
    for word in words {
        args.push(String::from_str(alloc, word.as_str())?)?;
    }
    Ok(Arguments::new(args))
}

// A run of a file, with values that are not bad.
fn run_of(
    alloc: Global,
    values: RunValues,
    file: &String,
    args: &[String],
) -> Result<Asked, WordFault>
    ensures { Answers (run_with (Ok (values_of values)) (string_bytes file.now ∷ map string_bytes args.now)) result }
{
    let file = file_name(alloc, file.as_str())?;
    let args = arguments(alloc, args)?;
    let common = values.common;
    Ok(Asked::Run(RunAsked {
        by: values.by,
        tool: common.tool,
        limits: common.limits,
        msec: common.msec,
        workers: values.workers,
        slices: common.slices,
        file,
        args,
    }))
}

// A run with these values, of the file that the first positional names.
fn run_with(
    alloc: Global,
    values: Result<RunValues, OptionName>,
    words: &[String],
) -> Result<Asked, WordFault>
    ensures { Answers (run_with (shown values_of values) (map string_bytes words.now)) result }
{
    match values {
        Ok(values) => match words {
            [file, args @ ..] => run_of(alloc, values, file, args),
            [] => Err(WordFault::Usage(UsageKind::Form)),
        },
        Err(option) => Err(WordFault::Usage(UsageKind::BadValue { option })),
    }
}

// A run that is serial or by windows.
fn read_run(alloc: Global, options: &[String], words: &[String]) -> Result<Asked, WordFault>
    ensures { Answers (run_wanted run_app run_values (map string_bytes options.now) (map string_bytes words.now)) result }
{
    match run_matched(alloc, options, words.len() >= 1) {
        Ok(matches) => run_with(alloc, run_values(&matches), words),
        Err(fault) => Err(fault),
    }
}

// A run with workers.
fn read_live_run(alloc: Global, options: &[String], words: &[String]) -> Result<Asked, WordFault>
    ensures { Answers (run_wanted live_app live_values (map string_bytes options.now) (map string_bytes words.now)) result }
{
    match live_matched(alloc, options, words.len() >= 1) {
        Ok(matches) => run_with(alloc, live_values(&matches), words),
        Err(fault) => Err(fault),
    }
}

// The file of a view.
fn view_with(alloc: Global, words: &[String]) -> Result<Asked, WordFault>
    ensures { Answers (view_with (map string_bytes words.now)) result }
{
    match words {
        [file, ..] => {
            let file = file_name(alloc, file.as_str())?;
            Ok(Asked::View { file })
        }
        [] => Err(WordFault::Usage(UsageKind::Form)),
    }
}

fn read_view(alloc: Global, options: &[String], words: &[String]) -> Result<Asked, WordFault>
    ensures { Answers (one_wanted view_app view_with (map string_bytes options.now) (map string_bytes words.now)) result }
{
    match view_matched(alloc, options, words.len() == 1) {
        Ok(_matches) => view_with(alloc, words),
        Err(fault) => Err(fault),
    }
}

// The number of a generated program.
fn demo_with(words: &[String]) -> Result<Asked, WordFault>
    ensures { Answers (demo_with (map string_bytes words.now)) result }
{
    match words {
        [number, ..] => match number_in(number.as_str(), 0, 4_294_967_295) {
            Some(n) => Ok(Asked::Demo { n: n as u32 }),
            None => Err(WordFault::Usage(UsageKind::BadValue {
                option: OptionName::N,
            })),
        },
        [] => Err(WordFault::Usage(UsageKind::Form)),
    }
}

fn read_demo(alloc: Global, options: &[String], words: &[String]) -> Result<Asked, WordFault>
    ensures { Answers (one_wanted demo_app demo_with (map string_bytes options.now) (map string_bytes words.now)) result }
{
    match demo_matched(alloc, options, words.len() == 1) {
        Ok(_matches) => demo_with(words),
        Err(fault) => Err(fault),
    }
}

/// What words ask of a program that runs serially or by windows: `run`, `view` or `demo`. Words that are no command are refused
/// for the first cause: no command, an unknown one, their form, the first bad value. Apart from that it fails for want of memory
/// alone.
pub fn read_words(alloc: Global, words: &[String]) -> Result<Asked, WordFault>
    ensures { Answers (words_wanted (map string_bytes words.now)) result }
{
    let [word, rest @ ..] = words else {
        return Err(WordFault::Usage(UsageKind::NoCommand));
    };
    let (options, rest) = split_words(rest);
    match word.as_str() {
        "run" => read_run(alloc, options, rest),
        "view" => read_view(alloc, options, rest),
        "demo" => read_demo(alloc, options, rest),
        _ => Err(WordFault::Usage(UsageKind::UnknownCommand)),
    }
}

/// What words ask of a program that runs with workers: `run` alone, which has `--workers` in place of `--by`. They are refused as
/// by `read_words`.
pub fn read_live_words(alloc: Global, words: &[String]) -> Result<Asked, WordFault>
    ensures { Answers (live_words_wanted (map string_bytes words.now)) result }
{
    let [word, rest @ ..] = words else {
        return Err(WordFault::Usage(UsageKind::NoCommand));
    };
    let (options, rest) = split_words(rest);
    match word.as_str() {
        "run" => read_live_run(alloc, options, rest),
        _ => Err(WordFault::Usage(UsageKind::UnknownCommand)),
    }
}
