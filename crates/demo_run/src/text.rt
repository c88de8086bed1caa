// The lines that are printed.
ghost use Rattle.std.specs.Prelude.{◌≡◌, ◌++◌, OnOk, map};
ghost use Rattle.demo_run.specs.Demo.{cuts_line, file_line, matches_line, spaced, sums_line};
ghost use Rattle.sliced_run.specs.Sliced.{line_by};

use crate::hits::{Sums, sums_of};
use ordered_merge::SliceLine;
use std::alloc::AllocError;
use tool_parts::push_number;

/// Adds `demo N file BYTES`.
pub(crate) fn push_file(text: &mut Vec<u8>, n: u32, bytes: usize) -> Result<(), AllocError>
    ensures { OnOk result (text.new.items ≡ text.old.items ++ file_line n bytes) }
{
    text.extend_from_slice(b"demo ")?;
    push_number(text, n)?;
    text.extend_from_slice(b" file ")?;
    push_number(text, bytes)?;
    text.extend_from_slice(b"\n")?;
    Ok(())
}

/// Adds `cuts C`.
pub(crate) fn push_cuts(text: &mut Vec<u8>, cuts: usize) -> Result<(), AllocError>
    ensures { OnOk result (text.new.items ≡ text.old.items ++ cuts_line cuts) }
{
    text.extend_from_slice(b"cuts ")?;
    push_number(text, cuts)?;
    text.extend_from_slice(b"\n")?;
    Ok(())
}

// Adds ` N`.
fn push_spaced(text: &mut Vec<u8>, n: u128) -> Result<(), AllocError>
    ensures { OnOk result (text.new.items ≡ text.old.items ++ spaced n) }
{
    text.extend_from_slice(b" ")?;
    push_number(text, n)?;
    Ok(())
}

// Adds `matches Q R S W` of these sums.
fn push_sums(text: &mut Vec<u8>, sums: &Sums) -> Result<(), AllocError>
    ensures { OnOk result (text.new.items ≡ text.old.items ++
        sums_line sums.now.quick sums.now.registers sums.now.stack sums.now.whole) }
{
    text.extend_from_slice(b"matches")?;
    push_spaced(text, sums.quick)?;
    push_spaced(text, sums.registers)?;
    push_spaced(text, sums.stack)?;
    push_spaced(text, sums.whole)?;
    text.extend_from_slice(b"\n")?;
    Ok(())
}

/// Adds `matches Q R S W` of a run with these lines.
pub(crate) fn push_matches(text: &mut Vec<u8>, lines: &[SliceLine]) -> Result<(), AllocError>
    ensures { OnOk result
        (text.new.items ≡ text.old.items ++ matches_line (map line_by lines.now)) }
{
    let sums = sums_of(lines);
    push_sums(text, &sums)?;
    Ok(())
}
