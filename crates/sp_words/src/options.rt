// What the options of a run mean together.
ghost use Rattle.std.specs.Prelude.{◌≡◌, ◌≤◌, IfOk, true};
ghost use Rattle.clap.specs.Matches.{found_of};
ghost use Rattle.clap.specs.Walk.{rows_of};
ghost use Rattle.sp_words.specs.Options.{by_in, common_in, live_values, option_in, run_values, shown, slices_in, tool_in};
ghost use Rattle.sp_words.specs.Sizes.{has_sizes};
ghost use Rattle.sp_words.specs.Shown.{common_of, values_of};

use crate::asked::{By, ToolName};
use crate::commands::value_of;
use crate::given::{CommonValues, RunValues};
use crate::value::{by_named, number_in, tool_named};
use clap::ArgMatches;
use master_run::Limits;
use sp_report::OptionName;

#[tactic(auto, unfolding(crate::specs::Options::by_in))]
fn by_in(matches: &ArgMatches) -> Result<By, OptionName>
    ensures { result ≡ by_in (rows_of (found_of matches.now)) }
{
    match value_of(matches, "by") {
        Some(text) => by_named(text).ok_or(OptionName::By),
        None => Ok(By::Windows),
    }
}

#[tactic(auto, unfolding(crate::specs::Options::tool_in))]
fn tool_in(matches: &ArgMatches) -> Result<ToolName, OptionName>
    ensures value { result ≡ tool_in (rows_of (found_of matches.now)) }
    ensures sizes { IfOk result (λ tool. has_sizes tool ≡ true) }
{
    match value_of(matches, "tool") {
        Some(text) => tool_named(text).ok_or(OptionName::Tool),
        None => Ok(ToolName::Icount),
    }
}

// The number of an option, which lies from `least` to `most`.
#[tactic(auto, unfolding(crate::specs::Options::option_in))]
fn option_in(
    matches: &ArgMatches,
    name: OptionName,
    word: &str,
    least: u64,
    most: u64,
    default: u64,
) -> Result<u64, OptionName>
    requires least { least ≤ default }
    requires most { default ≤ most }
    ensures value { result ≡ option_in name word.now least most default (rows_of (found_of matches.now)) }
    ensures least { IfOk result (λ n. least ≤ n) }
    ensures most { IfOk result (λ n. n ≤ most) }
{
    match value_of(matches, word) {
        Some(text) => match number_in(text, least, most) {
            Some(number) => Ok(number),
            None => Err(name),
        },
        None => Ok(default),
    }
}

#[tactic(auto, unfolding(crate::specs::Options::slices_in))]
fn slices_in(matches: &ArgMatches) -> bool
    ensures { result ≡ slices_in (rows_of (found_of matches.now)) }
{
    match value_of(matches, "slices") {
        Some(text) => text == "true",
        None => false,
    }
}

// The options that each `run` has, or the first bad one.
#[tactic(auto, unfolding(crate::specs::Options::common_in))]
fn common_in(matches: &ArgMatches) -> Result<CommonValues, OptionName>
    ensures { common_in (rows_of (found_of matches.now)) ≡ shown common_of result }
{
    let tool = tool_in(matches)?;
    let budget = option_in(
        matches,
        OptionName::Budget,
        "budget",
        1,
        1 << 40,
        1_000_000_000,
    )?;
    let limit = option_in(matches, OptionName::Limit, "limit", 1, 32, 8)?;
    let poll = option_in(matches, OptionName::Poll, "poll", 1, 1_048_576, 64)?;
    let msec = option_in(matches, OptionName::Msec, "msec", 1, 60_000, 50)?;
    let records = option_in(matches, OptionName::Records, "records", 1, 65_536, 1_024)?;
    let frames = option_in(matches, OptionName::Frames, "frames", 64, 4_096, 4_096)?;
    Ok(CommonValues {
        tool,
        limits: Limits {
            budget,
            limit: limit as u32,
            poll: poll as u32,
            records: records as u32,
            frames: frames as u32,
        },
        msec: msec as u32,
        slices: slices_in(matches),
    })
}

/// The values of a run that is serial or by windows, or the first bad one.
pub(crate) fn run_values(matches: &ArgMatches) -> Result<RunValues, OptionName>
    ensures { run_values (rows_of (found_of matches.now)) ≡ shown values_of result }
{
    let by = by_in(matches)?;
    let common = common_in(matches)?;
    Ok(RunValues {
        by,
        common,
        workers: 4,
    })
}

/// The values of a run with workers, or the first bad one.
pub(crate) fn live_values(matches: &ArgMatches) -> Result<RunValues, OptionName>
    ensures { live_values (rows_of (found_of matches.now)) ≡ shown values_of result }
{
    let common = common_in(matches)?;
    let workers = option_in(matches, OptionName::Workers, "workers", 1, 16, 4)?;
    Ok(RunValues {
        by: By::Windows,
        common,
        workers: workers as u32,
    })
}
