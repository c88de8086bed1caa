// When it is time: a pacer is asked, and counts what it was asked and granted.
ghost use Rattle.std.specs.Prelude.{◌<◌, ◌≤◌, ◌%◌, ◌==◌, ◌≡◌, ℕ, Bool, Option};
ghost use Rattle.sp_host.specs.Told.{WhereTold};
ghost use Rattle.sp_host.specs.Tally.{Tally, tally_after, later_answers};

/// Says whether it is time to do what is done once in a period.
///
/// It shows the last period that it was given, 0 at first, and how often it was asked and granted,
/// 0 at first. Both counts stand still at `u64::MAX`.
pub trait Pacer {
    /// The last period that it was given, in milliseconds.
    ghost period_shown: { Self → ℕ };

    /// How often it was asked, and how often it granted.
    ghost tally: { Self → Tally };

    /// The answers to come, where told. The next one has number 1.
    ghost answers: { Self → Option (ℕ → Bool) };

    /// Sets the period, in milliseconds.
    fn period(&mut self, msec: u32)
        ensures shown { period_shown self.new ≡ msec }
        ensures tally { tally self.new ≡ tally self.old }
        ensures answers { answers self.new ≡ answers self.old };

    /// Whether it is time.
    fn due(&mut self) -> bool
        ensures shown { period_shown self.new ≡ period_shown self.old }
        ensures tally { tally self.new ≡ tally_after result (tally self.old) }
        ensures answer { WhereTold (answers self.old) (λ told. result ≡ told 1) }
        ensures answers { answers self.new ≡ later_answers (answers self.old) };
}

/// A pacer that gives the answers of a list in their order, and then false. It tells them, and
/// makes no use of the period.
#[derive(Drop)]
pub struct ListPacer {
    answers: Vec<bool>,
    period: u32,
    asked: u64,
    granted: u64,
}

impl ListPacer {
    ghost use Rattle.sp_host.specs.ListPacer.{answer_after, list_period, list_tally, list_answers};
    ghost use Rattle.std.specs.Prelude.{Some};

    pub fn new(answers: Vec<bool>) -> ListPacer
        ensures period { list_period result ≡ 0 }
        ensures tally { list_tally result ≡ record { asked = 0; granted = 0 } }
        ensures answers { list_answers result ≡ Some (answer_after answers.items 0) }
    {
        ListPacer {
            answers,
            period: 0,
            asked: 0,
            granted: 0,
        }
    }
}

impl Pacer for ListPacer {
    ghost use Rattle.sp_host.specs.ListPacer.{list_period, list_tally, list_answers};

    ghost period_shown = { list_period };

    ghost tally = { list_tally };

    ghost answers = { list_answers };

    fn period(&mut self, msec: u32) {
        self.period = msec;
    }

    fn due(&mut self) -> bool {
        let answer = self
            .answers
            .get(self.asked as usize)
            .copied()
            .unwrap_or(false);
        self.asked = self.asked.saturating_add(1);
        if answer {
            self.granted = self.granted.saturating_add(1);
        }
        answer
    }
}

/// A pacer that answers true at each call whose number is a multiple of `every`, the first call
/// with number 1. It tells its answers, and makes no use of the period.
#[derive(Drop)]
pub struct EveryPacer {
    every: u64,
    // the number of calls up to the next true answer, which is counted
    left: u64,
    period: u32,
    asked: u64,
    granted: u64,
    ghost some: { 0 < left },
    ghost within: { left ≤ every },
}

impl EveryPacer {
    ghost use Rattle.sp_host.specs.EveryPacer.{every_period, every_tally, every_answers};
    ghost use Rattle.std.specs.Prelude.{Some};

    /// A pacer of this `every`, at least 1.
    pub fn new(every: u64) -> EveryPacer
        requires { 1 ≤ every }
        ensures period { every_period result ≡ 0 }
        ensures tally { every_tally result ≡ record { asked = 0; granted = 0 } }
        ensures answers { every_answers result ≡ Some (λ k. k % every == 0) }
    {
        EveryPacer {
            every,
            left: every,
            period: 0,
            asked: 0,
            granted: 0,
        }
    }
}

impl Pacer for EveryPacer {
    ghost use Rattle.sp_host.specs.EveryPacer.{every_period, every_tally, every_answers};

    ghost period_shown = { every_period };

    ghost tally = { every_tally };

    ghost answers = { every_answers };

    fn period(&mut self, msec: u32) {
        self.period = msec;
    }

    // It counts down, since the number of asks that it shows stands still in the end.
    fn due(&mut self) -> bool {
        self.asked = self.asked.saturating_add(1);
        let answer = self.left == 1;
        if answer {
            self.granted = self.granted.saturating_add(1);
            self.left = self.every;
        } else {
            self.left -= 1;
        }
        answer
    }
}
