// The values of options.
ghost use Rattle.std.specs.Prelude.{◌≡◌, ◌≤◌, true};
ghost use Rattle.sp_words.specs.Sizes.{has_sizes};

use crate::asked::{By, ToolName};
use master_run::Limits;

/// What the options say that each `run` has.
#[derive(Clone, Copy)]
pub(crate) struct CommonValues {
    pub(crate) tool: ToolName,
    pub(crate) limits: Limits,
    pub(crate) msec: u32,
    pub(crate) slices: bool,
    ghost sizes: { has_sizes tool ≡ true },
    ghost msec_range: { (1 ≤ msec) × (msec ≤ 60000) },
}

/// What the options of a run say.
#[derive(Clone, Copy)]
pub(crate) struct RunValues {
    pub(crate) by: By,
    pub(crate) common: CommonValues,
    pub(crate) workers: u32,
    ghost workers_range: { (1 ≤ workers) × (workers ≤ 16) },
}
