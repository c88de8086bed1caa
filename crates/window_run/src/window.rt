// The jobs of one window.
ghost use Rattle.std.specs.Prelude.{◌≡◌, ◌≤◌, IfErr, IfOk, length};
ghost use Rattle.sp_host.specs.Faults.{CausedIn};
ghost use Rattle.syscall_layer.specs.Step.{IsOfGuest, run_source_of};
ghost use Rattle.master_run.specs.Master.{Ready};
ghost use Rattle.sliced_run.specs.Sliced.{shows};
ghost use Rattle.window_run.specs.Jobs.{FillTells, HandsJobs};

use boundary_verify::Job;
use master_run::{Master, Turn};
use rv_machine::End;
use sliced_run::next_turn;
use sp_host::{Host, Pacer};
use std::alloc::Global;
use std::sync::atomic::{AtomicBool, Ordering};
use syscall_layer::RunFault;

/// Jobs that a master handed out, one after the other, and how the run ended where the last of them is its last one.
#[derive(Drop)]
pub(crate) struct Window {
    pub(crate) jobs: Vec<Job>,
    pub(crate) end: Option<End>,
}

/// Makes jobs until there are `most`, the run is over, or there is one and `stop` is set.
pub(crate) fn fill<H: Host, P: Pacer>(
    alloc: Global,
    most: u32,
    stop: &AtomicBool,
    master: &mut Master,
    host: &mut H,
    pacer: &mut P,
) -> Result<Window, RunFault>
    requires ready { master.old.standing ≡ Ready }
    requires some { 1 ≤ most }
    requires within { master.old.position ≤ master.old.limits.budget }
    ensures hands { IfOk result
        (λ window. HandsJobs master.old window.jobs.items window.end master.new) }
    ensures some { IfOk result (λ window. 1 ≤ length window.jobs.items) }
    ensures few { IfOk result (λ window. length window.jobs.items ≤ most) }
    ensures faults { CausedIn run_source_of (H.faults host.old) (H.faults host.new) result }
    ensures port { IfErr result IsOfGuest }
    ensures period { P.period_shown pacer.new ≡ P.period_shown pacer.old }
    ensures told { FillTells master.old (H.told host.old)
        (shows (P.period_shown pacer.old) (P.tally pacer.old) (P.answers pacer.old))
        result master.new (H.told host.new)
        (shows (P.period_shown pacer.new) (P.tally pacer.new) (P.answers pacer.new)) }
{
    let mut jobs = Vec::new(alloc);
    for turn in 0..most {
        match next_turn(master, host, pacer) {
            Ok(Turn::Job(job)) => {
                let Ok(()) = jobs.push(job) else {
                    return Err(RunFault::NoMemory);
                };
            }
            Ok(Turn::Last(job, end)) => {
                let Ok(()) = jobs.push(job) else {
                    return Err(RunFault::NoMemory);
                };
                return Ok(Window {
                    jobs,
                    end: Some(end),
                });
            }
            Err(fault) => return Err(fault),
        }
        if stop.load(Ordering::Relaxed) {
            return Ok(Window { jobs, end: None });
        }
    }
    Ok(Window { jobs, end: None })
}
