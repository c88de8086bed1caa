// One turn of a master: from one cut to the next.
ghost use Rattle.std.specs.Prelude.{◌≡◌, ◌+◌, ◌-◌, ◌<◌, ◌≤◌, ◌^◌, ◌++◌, [], ◌∷◌, ℕ, Bool, IfErr, IfOk, OnErr, OnOk, length};
ghost use Rattle.sp_host.specs.Faults.{CausedIn};
ghost use Rattle.sp_host.specs.Told.{Told};
ghost use Rattle.cow_pages.specs.Marks.{count_marked, unmarked};
ghost use Rattle.guest_model.specs.Serial.{Position};
ghost use Rattle.guest_mem.specs.Memory.{IsChangedWithin, all_bytes, free_frames};
ghost use Rattle.syscall_layer.specs.Step.{IsOfGuest, run_source_of};
ghost use Rattle.boundary_verify.specs.Job.{IsJob};
ghost use Rattle.boundary_verify.specs.declared.job.Boundary.TheVariants.{At, End};
ghost use Rattle.master_run.specs.Answers.{PacerState};
ghost use Rattle.master_run.specs.Inside.{IsAtStart, IsMaster, seen_of};
ghost use Rattle.master_run.specs.Master.{HasRunTo};
ghost use Rattle.master_run.specs.Progress.{IsOpen};
ghost use Rattle.master_run.specs.Turn.{HandsOut, HandsOutOfRun};
ghost use Rattle.master_run.specs.declared.master.Stage.{Stage};
ghost use Rattle.master_run.specs.declared.master.Stage.TheVariants.{Over, Refused};

use crate::limits::Limits;
use crate::master::{Stage, Turn};
use crate::progress::Progress;
use boundary_verify::{Boundary, Job};
use rv_machine::Snapshot;
use sp_host::{Host, Pacer};
use std::alloc::{AllocError, Global};
use syscall_layer::RunFault;

// The state at a cut, twice: for the job that ends there, with the pages that were changed, and for the next one, of which none
// is. The cut is noted.
fn take_cut(
    progress: &mut Progress,
    cuts: &mut Vec<u64>,
) -> Result<(Snapshot, Snapshot), AllocError>
    ensures end { IfOk result (λ taken. (taken.0.machine ≡ progress.old.guest.machine)
        × IsChangedWithin taken.0.changed progress.old.guest.origin taken.0.machine.space) }
    ensures next { IfOk result (λ taken. taken.1.machine ≡ progress.old.guest.machine) }
    ensures guest { OnOk result ((progress.new.guest.machine ≡ progress.old.guest.machine)
        × (progress.new.guest.frames ≡ free_frames progress.old.guest.frames.count)
        × (progress.new.guest.origin ≡ all_bytes progress.old.guest.machine.space)) }
    ensures machine { progress.new.guest.machine ≡ progress.old.guest.machine }
    ensures position { progress.new.position ≡ progress.old.position }
    ensures calls { progress.new.calls ≡ progress.old.calls }
    ensures poll { progress.new.until_poll ≡ progress.old.until_poll }
    ensures log { progress.new.log ≡ progress.old.log }
    ensures cuts { OnOk result (cuts.new.items ≡ cuts.old.items ++ progress.old.position ∷ []) }
{
    let end = progress.guest.snapshot()?;
    let next = progress.guest.snapshot()?;
    cuts.push(progress.position)?;
    Ok((end, next))
}

/// Runs on to the next cut, or to the end of the run: how far it came, and what is handed out.
pub(crate) fn make_turn<H: Host, P: Pacer>(
    alloc: Global,
    limits: &Limits,
    progress: &mut Progress,
    cuts: &mut Vec<u64>,
    start: Snapshot,
    host: &mut H,
    pacer: &mut P,
) -> (Stage, Result<Turn, RunFault>)
    requires start { IsAtStart limits.now progress.old start }
    requires cuts { length cuts.old.items ≤ progress.old.position }
    ensures master { IsMaster limits.now progress.new cuts.new.items result.0 }
    ensures turn { IfOk result.1 (λ turn. HandsOut
        (seen_of limits.now progress.old cuts.old.items Over) turn
        (seen_of limits.now progress.new cuts.new.items result.0)) }
    ensures refused { IfErr result.1 (λ fault. result.0 ≡ Refused fault) }
    ensures faults { CausedIn run_source_of (H.faults host.old) (H.faults host.new) result.1 }
    ensures port { IfErr result.1 IsOfGuest }
    ensures period { P.period_shown pacer.new ≡ P.period_shown pacer.old }
    ensures told { (t : Told) (p : Position) (first : PacerState)
        → HasRunTo t p first (seen_of limits.now progress.old cuts.old.items Over) (H.told host.old)
        (record { period = P.period_shown pacer.old; tally = P.tally pacer.old; answers = P.answers pacer.old })
        → HandsOutOfRun t p first (seen_of limits.now progress.old cuts.old.items Over) result.1
        (seen_of limits.now progress.new cuts.new.items result.0) (H.told host.new)
        (record { period = P.period_shown pacer.new; tally = P.tally pacer.new; answers = P.answers pacer.new }) }
{
    let index = cuts.len() as u64;
    let position = progress.calls;
    match progress.next_cut(alloc, limits, host, pacer) {
        Ok(None) => {
            let peak = progress.guest.space().written();
            match take_cut(progress, cuts) {
                Ok((end, next)) => {
                    let job = Job {
                        index,
                        start,
                        position,
                        records: progress.log.cut(),
                        end: Boundary::At {
                            state: end,
                            position: progress.calls,
                        },
                        peak,
                    };
                    (Stage::Ready(next), Ok(Turn::Job(job)))
                }
                Err(_) => (Stage::Refused(RunFault::NoMemory), Err(RunFault::NoMemory)),
            }
        }
        Ok(Some(end)) => {
            let job = Job {
                index,
                start,
                position,
                records: progress.log.cut(),
                end: Boundary::End,
                peak: progress.guest.space().written(),
            };
            (Stage::Over, Ok(Turn::Last(job, end)))
        }
        Err(fault) => (Stage::Refused(fault), Err(fault)),
    }
}
