// The period that a pacer is given: once, before it is first asked, by either way with slices.
ghost use Rattle.sp_host.specs.ListPacer.{list_answers, list_period, list_tally};

use prog_gen::word_counter;
use sp_host::{FaultPlan, FreeGate, ListPacer, MemoryHost, Pacer};
use std::alloc::{AllocError, Global};
use std::test::Fail;
use superpin_live_top::superpin_live;
use superpin_top::{exit_code, superpin};

/// A pacer over a list that notes how often it was given a period, and whether each ask found it given once.
#[derive(Drop)]
struct NotingPacer {
    list: ListPacer,
    given: u32,
    period: u32,
    asked: u32,
    is_given_first: bool,
}

impl NotingPacer {
    fn new(alloc: Global) -> Result<NotingPacer, AllocError> {
        Ok(NotingPacer {
            list: ListPacer::new([false, true].to_vec(alloc)?),
            given: 0,
            period: 0,
            asked: 0,
            is_given_first: true,
        })
    }

    // Whether it was given this period once, and that before the first ask, of which there was one at least.
    fn has_noted(&self, msec: u32) -> bool {
        self.given == 1 && self.period == msec && self.is_given_first && self.asked > 0
    }
}

impl Pacer for NotingPacer {
    ghost period_shown = { λ p. list_period p.list };

    ghost tally = { λ p. list_tally p.list };

    ghost answers = { λ p. list_answers p.list };

    fn period(&mut self, msec: u32) {
        self.given = self.given.saturating_add(1);
        self.period = msec;
        self.list.period(msec);
    }

    fn due(&mut self) -> bool {
        self.asked = self.asked.saturating_add(1);
        self.is_given_first = self.is_given_first && self.given == 1;
        self.list.due()
    }
}

// The counter as the file `f`, and an input of one word.
fn host_of(alloc: Global) -> Result<MemoryHost, AllocError> {
    let mut files = Vec::new(alloc);
    files.push(("f".to_string(alloc)?, word_counter(alloc)?))?;
    let plan = FaultPlan::new(alloc, 65_536, 65_536);
    MemoryHost::new(alloc, files, b"ab".to_vec(alloc)?, Vec::new(alloc), plan)
}

#[test]
fn period_is_given_once_and_first(rt: HostRuntime) -> Result<(), Fail> {
    let alloc = rt.alloc();
    let mut words = Vec::new(alloc);
    for word in ["run", "--msec", "7", "f"] {
        words.push(word.to_string(alloc)?)?;
    }
    let mut pacer = NotingPacer::new(alloc)?;
    let answer = superpin(&rt, alloc, &words, &mut host_of(alloc)?, &mut pacer);
    assert!(rt; exit_code(&answer) == 0 && pacer.has_noted(7), "by windows");
    let mut pacer = NotingPacer::new(alloc)?;
    let answer = superpin_live(
        &rt,
        alloc,
        &words,
        &mut host_of(alloc)?,
        &mut pacer,
        &FreeGate,
    );
    assert!(rt; exit_code(&answer) == 0 && pacer.has_noted(7), "live");
    Ok(())
}
