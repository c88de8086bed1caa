// The text of a cache.
ghost use Rattle.std.specs.Prelude.{◌≡◌, ◌++◌, OnOk};
ghost use Rattle.cache_tool.specs.Shown.{cache_of};
ghost use Rattle.cache_tool.specs.Text.{cache_text, counts_text, sizes_text};

use crate::slice::CacheTotals;
use std::alloc::AllocError;
use tool_parts::push_number;

// Adds `cache S B`.
fn push_sizes(out: &mut Vec<u8>, sets: u32, line: u32) -> Result<(), AllocError>
    ensures { OnOk result (out.new.items ≡ out.old.items ++ sizes_text sets line) }
{
    out.extend_from_slice(b"cache ")?;
    push_number(out, sets)?;
    out.extend_from_slice(b" ")?;
    push_number(out, line)?;
    Ok(())
}

// Adds ` accesses A hits H misses M`.
fn push_counts(out: &mut Vec<u8>, totals: &CacheTotals) -> Result<(), AllocError>
    ensures { OnOk result (out.new.items ≡ out.old.items ++ counts_text (cache_of totals.now)) }
{
    out.extend_from_slice(b" accesses ")?;
    push_number(out, totals.hits as u128 + totals.misses as u128)?;
    out.extend_from_slice(b" hits ")?;
    push_number(out, totals.hits)?;
    out.extend_from_slice(b" misses ")?;
    push_number(out, totals.misses)?;
    Ok(())
}

/// Adds `cache S B accesses A hits H misses M`. It fails for want of memory alone.
pub(crate) fn push_cache(
    out: &mut Vec<u8>,
    sets: u32,
    line: u32,
    totals: &CacheTotals,
) -> Result<(), AllocError>
    ensures { OnOk result
        (out.new.items ≡ out.old.items ++ cache_text sets line (cache_of totals.now)) }
{
    push_sizes(out, sets, line)?;
    push_counts(out, totals)?;
    out.extend_from_slice(b"\n")?;
    Ok(())
}
