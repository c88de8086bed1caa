// What bounds a run that is cut into jobs.
ghost use Rattle.std.specs.Prelude.{◌≤◌, ◌^◌};

/// What bounds a run that is cut into jobs, and makes its cuts due.
#[derive(Clone, Copy)]
pub struct Limits {
    /// The most steps of the run, from 1 to 2^40.
    pub budget: u64,
    /// The most jobs of one window, from 1 to 32.
    pub limit: u32,
    /// After each so many steps the pacer is asked; from 1 to 2^20.
    pub poll: u32,
    /// So many calls since the last cut make one; from 1 to 65,536.
    pub records: u32,
    /// How many pages a slice can write, from 64 to 4,096.
    pub frames: u32,
    ghost budget_range: { (1 ≤ budget) × (budget ≤ 2 ^ 40) },
    ghost limit_range: { (1 ≤ limit) × (limit ≤ 32) },
    ghost poll_range: { (1 ≤ poll) × (poll ≤ 2 ^ 20) },
    ghost records_range: { (1 ≤ records) × (records ≤ 65536) },
    ghost frames_range: { (64 ≤ frames) × (frames ≤ 4096) },
}
