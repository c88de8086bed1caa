// The run since the last cut: without a tool, its calls recorded.
ghost use Rattle.std.specs.Prelude.{◌≡◌, ◌+◌, ◌/◌, ◌<◌, ◌≤◌, ◌↔◌, Bool, false, ℕ, IfErr, IfOk, OnOk};
ghost use Rattle.cow_pages.specs.Marks.{count_marked};
ghost use Rattle.sp_host.specs.Faults.{CausedIn};
ghost use Rattle.sp_host.specs.Told.{Told};
ghost use Rattle.guest_model.specs.Effect.{Effect, effect_of};
ghost use Rattle.guest_model.specs.Serial.{Position};
ghost use Rattle.syscall_layer.specs.Step.{IsOfGuest, run_source_of};
ghost use Rattle.master_run.specs.Answers.{HasAnswered, PacerState};
ghost use Rattle.master_run.specs.Progress.{Advances, CallsOrEnds, CutOrEnds, EndsOrGoesOn, HasPollOf, IsAtCall, IsBeforePoll, IsBelow, IsOpen, IsSameButPoll, Leads, LeadsTo, Polls, Reaches, RunsOn, RunsTo, TriedWithin, tested_to};

use crate::limits::Limits;
use call_record::RecordLog;
use rv_machine::{End, Guest, Stepped};
use sp_host::{Host, Pacer};
use std::alloc::Global;
use syscall_layer::{RunFault, Served, serve_step};

/// So many bytes that the calls since the last cut stored make a cut.
pub const MOST_BYTES: u64 = 4_194_304;

/// How many frames are left for the steps behind which a cut is made: no step writes so many pages.
pub const SPARE_FRAMES: u32 = 32;

// A run, and what it did since its last cut.
#[derive(Drop)]
pub(crate) struct Progress {
    pub(crate) guest: Guest,
    // how many steps were made
    pub(crate) position: u64,
    // how many of their calls went on
    pub(crate) calls: u64,
    // after so many more steps the pacer is asked
    pub(crate) until_poll: u32,
    // the records of the calls since the last cut
    pub(crate) log: RecordLog,
}

// How many frames are free at least.
fn know_room(guest: &Guest)
    ensures { guest.now.frames.count ≤ guest.now.frames.free + count_marked guest.now.frames.written }
{
    let _written = guest.space().written();
}

impl Progress {
    // Makes steps that are no calls: up to the next one after which the pacer is asked, to the last of the budget, or to one
    // after which too many pages are written.
    #[inline(always)]
    fn run_on(&mut self, limits: &Limits) -> Stepped
        requires open { IsOpen limits.now self.old }
        requires below { IsBelow limits.now self.old }
        requires left { self.old.position < limits.now.budget }
        ensures { RunsOn limits.now self.old self.new result }
    {
        let left = limits.budget - self.position;
        let steps = left.min(self.until_poll as u64);
        let ran = self.guest.run(steps, limits.frames - SPARE_FRAMES);
        self.position += ran.completed;
        self.until_poll -= ran.completed as u32;
        ran.last
    }

    // The call at which the guest stands. None where the run goes on behind it.
    fn call<H: Host>(&mut self, alloc: Global, host: &mut H) -> Result<Option<End>, RunFault>
        requires call { effect_of self.old.guest.machine ≡ Effect.Call }
        requires open { IsAtCall self.old }
        ensures goes { OnOk result (Advances self.old self.new) }
        ensures poll { OnOk result (HasPollOf self.old self.new) }
        ensures ends { IfOk result (λ ended. CallsOrEnds ended self.old self.new) }
        ensures tested { tested_to result self.new.position ≤ self.old.position + 1 }
        ensures before { IsBeforePoll result self.old self.new }
        ensures tried { TriedWithin (self.old.position + 1) result self.new.position }
        ensures within { self.new.position ≤ self.old.position + 1 }
        ensures later { self.old.position ≤ self.new.position }
        ensures told { (t : Told) (p : Position) (b : ℕ) → b ≤ self.old.position →
            RunsTo t p b self.old (H.told host.old) →
            Leads t p b result self.new (H.told host.new) }
        ensures faults { CausedIn run_source_of (H.faults host.old) (H.faults host.new) result }
        ensures port { IfErr result IsOfGuest }
    {
        know_room(&self.guest);
        match serve_step(alloc, &mut self.guest, host) {
            Ok(Served::Exit(status)) => Ok(Some(End::Exit(status))),
            Ok(Served::Went(record)) => {
                self.position += 1;
                self.calls += 1;
                self.until_poll -= 1;
                match self.log.push(record) {
                    Ok(()) => Ok(None),
                    Err(_) => Err(RunFault::NoMemory),
                }
            }
            Err(fault) => Err(fault),
        }
    }

    // Runs on to the next position at which a cut may be due, or to the end of the run.
    fn advance<H: Host>(
        &mut self,
        alloc: Global,
        limits: &Limits,
        host: &mut H,
    ) -> Result<Option<End>, RunFault>
        requires open { IsOpen limits.now self.old }
        requires below { IsBelow limits.now self.old }
        requires left { self.old.position < limits.now.budget }
        ensures goes { OnOk result (Advances self.old self.new) }
        ensures poll { OnOk result (HasPollOf self.old self.new) }
        ensures ends { IfOk result (λ ended. EndsOrGoesOn limits.now ended self.old self.new) }
        ensures before { IsBeforePoll result self.old self.new }
        ensures tried { TriedWithin limits.now.budget result self.new.position }
        ensures within { self.new.position ≤ limits.now.budget }
        ensures later { self.old.position ≤ self.new.position }
        ensures told { (t : Told) (p : Position) (b : ℕ) → b ≤ self.old.position →
            RunsTo t p b self.old (H.told host.old) →
            LeadsTo limits.now t p b self.old result self.new (H.told host.new) }
        ensures faults { CausedIn run_source_of (H.faults host.old) (H.faults host.new) result }
        ensures port { IfErr result IsOfGuest }
    {
        match self.run_on(limits) {
            Stepped::Next => Ok(None),
            Stepped::Call => self.call(alloc, host),
            Stepped::Fault(kind) => Ok(Some(End::Signal {
                kind,
                pc: self.guest.pc(),
            })),
        }
    }

    // Asks the pacer, if its turn has come.
    fn poll<P: Pacer>(&mut self, limits: &Limits, pacer: &mut P) -> bool
        ensures same { IsSameButPoll self.old self.new }
        ensures polls { Polls limits.now self.old.until_poll result self.new.until_poll
            (record { period = P.period_shown pacer.old; tally = P.tally pacer.old; answers = P.answers pacer.old })
            (record { period = P.period_shown pacer.new; tally = P.tally pacer.new; answers = P.answers pacer.new }) }
    {
        if self.until_poll > 0 {
            return false;
        }
        self.until_poll = limits.poll;
        pacer.due()
    }

    // Whether what was recorded or written since the last cut makes one due.
    fn is_full(&self, limits: &Limits) -> bool
        ensures { (result ≡ false) ↔ IsBelow limits.now self.now }
    {
        self.log.len() >= limits.records as u64
            || self.log.bytes() >= MOST_BYTES
            || self.guest.space().written() > limits.frames - SPARE_FRAMES
    }

    /// Runs on to the next cut, or to the end of the run, which is answered.
    pub(crate) fn next_cut<H: Host, P: Pacer>(
        &mut self,
        alloc: Global,
        limits: &Limits,
        host: &mut H,
        pacer: &mut P,
    ) -> Result<Option<End>, RunFault>
        requires open { IsOpen limits.now self.old }
        requires below { IsBelow limits.now self.old }
        ensures goes { OnOk result (Advances self.old self.new) }
        ensures ends { IfOk result (λ ended. CutOrEnds limits.now ended self.old self.new) }
        ensures told { (t : Told) (p : Position) (first : PacerState) (answers : ℕ → Bool)
            → RunsTo t p self.old.position self.old (H.told host.old)
            → HasAnswered answers (self.old.position / limits.now.poll) first
            (record { period = P.period_shown pacer.old; tally = P.tally pacer.old; answers = P.answers pacer.old })
            → Reaches limits.now t p self.old.position first answers result self.new (H.told host.new)
            (record { period = P.period_shown pacer.new; tally = P.tally pacer.new; answers = P.answers pacer.new }) }
        ensures tried { TriedWithin limits.now.budget result self.new.position }
        ensures within { self.new.position ≤ limits.now.budget }
        ensures later { self.old.position ≤ self.new.position }
        ensures faults { CausedIn run_source_of (H.faults host.old) (H.faults host.new) result }
        ensures port { IfErr result IsOfGuest }
        ensures period { P.period_shown pacer.new ≡ P.period_shown pacer.old }
    {
        'run: while self.position < limits.budget {
            match self.advance(alloc, limits, host) {
                Ok(None) => {
                    let due = self.poll(limits, pacer);
                    if due || self.is_full(limits) {
                        return Ok(None);
                    }
                }
                Ok(Some(end)) => return Ok(Some(end)),
                Err(fault) => return Err(fault),
            }
        }
        Err(RunFault::BudgetSpent { n: limits.budget })
    }
}
