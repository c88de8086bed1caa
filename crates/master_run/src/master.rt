// The run of a program without a tool, and the jobs that it hands out.
ghost use Rattle.std.specs.Prelude.{◌≡◌, ◌≢◌, ◌-◌, ◌<◌, ◌≤◌, [], IfErr, IfOk, length};
ghost use Rattle.sp_host.specs.Faults.{CausedIn};
ghost use Rattle.sp_host.specs.Told.{Told};
ghost use Rattle.guest_model.specs.Call.{World};
ghost use Rattle.guest_model.specs.Serial.{Position};
ghost use Rattle.guest_mem.specs.Frames.{free_frames};
ghost use Rattle.syscall_layer.specs.Serve.{told_after};
ghost use Rattle.syscall_layer.specs.Step.{IsOfGuest, run_source_of};
ghost use Rattle.syscall_layer.specs.declared.fault.RunFault.{RunFault};
ghost use Rattle.master_run.specs.Answers.{PacerState};
ghost use Rattle.master_run.specs.Master.{HasRunTo, MasterState, Standing, start_at};
ghost use Rattle.master_run.specs.Turn.{HandsOut, HandsOutOfRun, IsMetWithin};

use crate::limits::Limits;
use crate::progress::Progress;
use crate::turn::make_turn;
use boundary_verify::Job;
use call_record::RecordLog;
use rv_machine::{End, Guest, Snapshot};
use sp_host::{Host, Pacer};
use std::alloc::{AllocError, Global};
use std::marker::Model;
use std::mem;
use syscall_layer::RunFault;

/// What a master hands out.
#[derive(Drop)]
pub enum Turn {
    /// The job up to the next cut.
    Job(Job),
    /// The job up to the end of the run, and how it ended.
    Last(Job, End),
}

// How far the run came.
#[derive(Drop)]
pub(crate) enum Stage {
    // To a cut, or its start: the next job starts at this snapshot.
    Ready(Snapshot),
    // To its end.
    Over,
    // To this fault.
    Refused(RunFault),
}

/// A run that goes on without a tool, and is cut into jobs. Contracts see how far it came.
#[derive(Drop)]
pub struct Master {
    progress: Progress,
    limits: Limits,
    cuts: Vec<u64>,
    stage: Stage,
    alloc: Global,
}

impl Model for Master {
    ghost use Rattle.std.specs.Coded.{codes};
    ghost use Rattle.guest_model.specs.Machine.{machine_code};
    ghost use Rattle.master_run.specs.Inside.{IsMaster, seen_of};
    ghost use Rattle.master_run.specs.Master.{MasterState};

    ghost Value = { MasterState };

    ghost coded = { Prim.hlevel (codes, machine_code) };

    ghost view = { λ m. seen_of m.limits m.progress m.cuts.items m.stage };

    ghost invariant = { λ m. IsMaster m.limits m.progress m.cuts.items m.stage };
}

impl Master {
    /// A master of a guest's run, which no step was made of.
    pub fn launch(alloc: Global, guest: Guest, limits: &Limits) -> Result<Master, AllocError>
        requires { guest.frames ≡ free_frames limits.now.frames }
        ensures start { IfOk result (λ master. master ≡ start_at guest.machine limits.now) }
        ensures told { IfOk result (λ master. (t : Told) (w : World) (first : PacerState) →
            HasRunTo t (record { machine = guest.machine; world = w; calls = 0 }) first master
            (told_after t w []) first) }
    {
        let mut guest = guest;
        let start = guest.snapshot()?;
        Ok(Master {
            progress: Progress {
                guest,
                position: 0,
                calls: 0,
                until_poll: limits.poll,
                log: RecordLog::new(alloc),
            },
            limits: *limits,
            cuts: Vec::new(alloc),
            stage: Stage::Ready(start),
            alloc,
        })
    }

    /// The positions at which the run was cut so far, in order: how many steps were made before each.
    pub fn cuts(&self) -> &[u64]
        ensures { result.now ≡ self.now.cuts }
    {
        &self.cuts
    }

    /// Runs on to the next cut, or to the end of the run, and hands out the job up to there. The pacer is asked exactly once
    /// after each `poll` steps. A cut is where it answers that it is time, and where since the last cut so many calls went on as
    /// `records` says, or calls stored 4,194,304 bytes, or more than `frames` - 32 pages were written.
    ///
    /// # Errors
    /// `Unsupported` where the run comes to a call without a row before its next cut, `BudgetSpent` where it goes on after
    /// `budget` steps; `InputFault` and `OutputFault` exactly where a call of the host of that kind failed; `NoMemory` where
    /// memory is lacking. From then on each call answers the same and does nothing else.
    pub fn next_job<H: Host, P: Pacer>(
        &mut self,
        host: &mut H,
        pacer: &mut P,
    ) -> Result<Turn, RunFault>
        requires { self.old.standing ≢ Standing.Over }

        // Whatever host and pacer are: what is handed out, the cause of each fault, and that it comes again.
        ensures turn { IfOk result (λ turn. HandsOut self.old turn self.new) }
        ensures soon { IfOk result (IsMetWithin (self.new.position - self.old.position)) }
        ensures limits { self.new.limits ≡ self.old.limits }
        ensures refused { IfErr result (λ fault. self.new.standing ≡ Standing.Refused fault) }
        ensures again { (fault : RunFault) → self.old.standing ≡ Standing.Refused fault →
            (result ≡ Err fault) × (self.new ≡ self.old) × (host.new ≡ host.old) × (pacer.new ≡ pacer.old) }
        ensures faults { self.old.standing ≡ Standing.Ready →
            CausedIn run_source_of (H.faults host.old) (H.faults host.new) result }
        ensures port { IfErr result IsOfGuest }
        ensures period { P.period_shown pacer.new ≡ P.period_shown pacer.old }

        // Where the host tells: the job is that of the run between its last cut and its next one.
        ensures told { (t : Told) (p : Position) (first : PacerState)
            → self.old.standing ≡ Standing.Ready
            → HasRunTo t p first self.old (H.told host.old)
            (record { period = P.period_shown pacer.old; tally = P.tally pacer.old; answers = P.answers pacer.old })
            → HandsOutOfRun t p first self.old result self.new (H.told host.new)
            (record { period = P.period_shown pacer.new; tally = P.tally pacer.new; answers = P.answers pacer.new }) }
    {
        match mem::replace(&mut self.stage, Stage::Over) {
            Stage::Ready(start) => {
                let (stage, turn) = make_turn(
                    self.alloc,
                    &self.limits,
                    &mut self.progress,
                    &mut self.cuts,
                    start,
                    host,
                    pacer,
                );
                self.stage = stage;
                turn
            }
            Stage::Refused(fault) => {
                self.stage = Stage::Refused(fault);
                Err(fault)
            }
            Stage::Over => unreachable!(),
        }
    }
}

// Takes only what can be moved between threads.
fn movable<T: Send>(_value: &T) {}

// A master can.
fn movable_master(master: &Master) {
    movable(master);
}
