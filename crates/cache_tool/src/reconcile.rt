// A slice, reconciled with what each set kept before it.
ghost use Rattle.std.specs.Prelude.{◌≡◌, length};
ghost use Rattle.tool_parts.specs.Pairs.{sum_zip, zip_with};
ghost use Rattle.cache_tool.specs.Cache.{keeps};
ghost use Rattle.cache_tool.specs.Slice.{first_hits, first_misses, kept_after};

use crate::slice::Touched;

/// How many first accesses to a set hit, and how many missed.
#[derive(Clone, Copy)]
pub(crate) struct FirstAccesses {
    pub(crate) hits: u64,
    pub(crate) misses: u64,
}

// Whether a set keeps a line.
fn keeps(kept: Option<u32>, line: u32) -> bool
    ensures { result ≡ keeps kept line }
{
    match kept {
        Some(other) => other == line,
        None => false,
    }
}

// What a set keeps after a slice.
fn kept_after(touched: Option<Touched>, kept: Option<u32>) -> Option<u32>
    ensures { result ≡ kept_after touched kept }
{
    match touched {
        Some(lines) => Some(lines.last),
        None => kept,
    }
}

// 1 where a slice's first access to a set hits.
fn first_hits(touched: Option<Touched>, kept: Option<u32>) -> u64
    ensures { result ≡ first_hits touched kept }
{
    match touched {
        Some(lines) if keeps(kept, lines.first) => 1,
        _ => 0,
    }
}

// 1 where it misses.
fn first_misses(touched: Option<Touched>, kept: Option<u32>) -> u64
    ensures { result ≡ first_misses touched kept }
{
    match touched {
        Some(lines) if !keeps(kept, lines.first) => 1,
        _ => 0,
    }
}

/// Decides the first access to each set by what the set kept, and sets what it keeps from then on.
pub(crate) fn reconcile(kept: &mut Vec<Option<u32>>, touched: &[Option<Touched>]) -> FirstAccesses
    ensures kept { length kept.old.items ≡ length touched.now
        → kept.new.items ≡ zip_with kept_after touched.now kept.old.items }
    ensures hits { length kept.old.items ≡ length touched.now
        → result.hits ≡ sum_zip first_hits touched.now kept.old.items }
    ensures misses { length kept.old.items ≡ length touched.now
        → result.misses ≡ sum_zip first_misses touched.now kept.old.items }
{
    let mut hits = 0;
    let mut misses = 0;
    for (at, first) in touched.iter().enumerate() {
        if at < kept.len() {
            let before = kept[at];
            hits += first_hits(*first, before);
            misses += first_misses(*first, before);
            kept[at] = kept_after(*first, before);
        }
    }
    FirstAccesses { hits, misses }
}
