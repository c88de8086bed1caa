// A pacer by the clock of the system.
ghost use Rattle.std.specs.Prelude.{◌≡◌, ◌<◌, ◌≤◌};

use crate::Pacer;
use std::time::{Duration, Instant};

// The most asks up to the next look at the clock.
const MOST_ASKS: u32 = 64;

// How far apart looks at the clock should be, in microseconds.
const LEAST_GAP: u64 = 10;

const MOST_GAP: u64 = 100;

/// A pacer by a clock of the system that never goes back. It tells nothing of its answers.
///
/// It is time where the period has passed since it last was, at first since the pacer was made. To
/// be cheap it looks at the clock only at each n-th ask, and answers false in between: n is from 1
/// to 64, doubled where two looks are less than 10 microseconds apart, and 1 again where they are
/// more than 100 apart. A look that fails answers false, and one at `new` that fails counts from
/// the first that does not.
#[derive(Drop)]
pub struct TimePacer {
    rt: HostRuntime,
    // when it was last time, and the last look at the clock
    granted_at: Option<Instant>,
    looked_at: Option<Instant>,
    // how many asks there are from one look to the next, and up to the next one, which is counted
    asks: u32,
    left: u32,
    period: u32,
    asked: u64,
    granted: u64,
    ghost asks_some: { 0 < asks },
    ghost asks_bound: { asks ≤ 64 },
    ghost left_some: { 0 < left },
}

impl TimePacer {
    ghost use Rattle.sp_host.specs.Real.{time_period, time_tally};

    /// A pacer whose first period begins now. The period is 0 milliseconds until one is set.
    pub fn new(rt: HostRuntime) -> TimePacer
        ensures period { time_period result ≡ 0 }
        ensures tally { time_tally result ≡ record { asked = 0; granted = 0 } }
    {
        let now = Instant::now(&rt).ok();
        TimePacer {
            rt,
            granted_at: now,
            looked_at: now,
            asks: 1,
            left: 1,
            period: 0,
            asked: 0,
            granted: 0,
        }
    }

    // Looks at the clock, and answers whether it is time.
    fn look(&mut self) -> bool
        ensures period { time_period self.new ≡ time_period self.old }
        ensures tally { time_tally self.new ≡ time_tally self.old }
    {
        let Ok(now) = Instant::now(&self.rt) else {
            return false;
        };
        let took = now.duration_since(self.looked_at.unwrap_or(now));
        let from = self.granted_at.unwrap_or(now);
        let period = Duration::from_millis(u64::from(self.period));
        let answer = now.duration_since(from) >= period;
        self.asks = next_asks(self.asks, took);
        self.looked_at = Some(now);
        self.granted_at = Some(if answer { now } else { from });
        answer
    }
}

// How many asks there are up to the next look at the clock, by how long the last ones took.
fn next_asks(asks: u32, took: Duration) -> u32
    requires some { 0 < asks }
    requires bound { asks ≤ 64 }
    ensures some { 0 < result }
    ensures bound { result ≤ 64 }
{
    if took > Duration::from_micros(MOST_GAP) {
        1
    } else if took < Duration::from_micros(LEAST_GAP) {
        (2 * asks).min(MOST_ASKS)
    } else {
        asks
    }
}

impl Pacer for TimePacer {
    ghost use Rattle.std.specs.Prelude.{None};
    ghost use Rattle.sp_host.specs.Real.{time_period, time_tally};

    ghost period_shown = { time_period };

    ghost tally = { time_tally };

    ghost answers = { λ _. None };

    fn period(&mut self, msec: u32) {
        self.period = msec;
    }

    fn due(&mut self) -> bool {
        self.asked = self.asked.saturating_add(1);
        if self.left > 1 {
            self.left -= 1;
            return false;
        }
        let answer = self.look();
        self.left = self.asks;
        if answer {
            self.granted = self.granted.saturating_add(1);
        }
        answer
    }
}
