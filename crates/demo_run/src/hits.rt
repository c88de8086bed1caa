// How many positions of all slices passed each test.
ghost use Rattle.std.specs.Prelude.{◌≡◌, sum_by};

use ordered_merge::SliceLine;

/// How many positions of all slices of a run passed each test of the boundary of their slice.
#[derive(Clone, Copy)]
pub(crate) struct Sums {
    pub(crate) quick: u128,
    pub(crate) registers: u128,
    pub(crate) stack: u128,
    pub(crate) whole: u128,
}

/// The sums of the four counts of lines.
pub(crate) fn sums_of(lines: &[SliceLine]) -> Sums
    ensures quick { result.quick ≡ sum_by (λ line. line.hits.quick) lines.now }
    ensures registers { result.registers ≡ sum_by (λ line. line.hits.registers) lines.now }
    ensures stack { result.stack ≡ sum_by (λ line. line.hits.stack) lines.now }
    ensures whole { result.whole ≡ sum_by (λ line. line.hits.whole) lines.now }
{
    let mut sums = Sums {
        quick: 0,
        registers: 0,
        stack: 0,
        whole: 0,
    };
    for line in lines {
        sums.quick += line.hits.quick as u128;
        sums.registers += line.hits.registers as u128;
        sums.stack += line.hits.stack as u128;
        sums.whole += line.hits.whole as u128;
    }
    sums
}
