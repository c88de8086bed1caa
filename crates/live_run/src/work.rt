// What becomes of a job: the workers' part, and the lead's where it helps them.
ghost use Rattle.std.specs.Prelude.{◌≡◌};
ghost use Rattle.slice_ring.specs.Seats.{IsIdle};

use crate::jobs::{CutJob, LiveJob, LivePiece, LiveRing, LiveSeat};
use insert_points::Plan;
use sliced_run::run_job;
use sp_host::{Gate, Host};
use std::alloc::Global;
use std::thread;
use tool_law::Tool;

/// What the slices of a live run share.
#[derive(Drop)]
pub(crate) struct Work<'a, T: Tool, G: Gate> {
    pub(crate) alloc: Global,
    pub(crate) plan: &'a Plan,
    pub(crate) tool: &'a T,
    pub(crate) gate: &'a G,
}

/// Runs a job that was claimed, once the gate lets it.
pub(crate) fn answer<T: Tool, H: Host + Send, G: Gate>(
    work: &Work<'_, T, G>,
    job: LiveJob<T, H>,
) -> LivePiece<T, H>
    requires tool { job.topic.tool ≡ work.now.tool.now }
    requires plan { job.topic.plan ≡ work.now.plan.now }
    ensures { result ≡ job }
{
    let LiveJob { cut, run } = job;
    let CutJob { job, first, second } = cut;
    let number = job.index;
    work.gate.claimed(number);
    work.gate.before(number);
    LivePiece {
        number,
        first,
        second,
        piece: run_job(work.alloc, work.plan, work.tool, job),
        run,
    }
}

/// Runs a job with the lead's own seat, if one is ready.
#[tactic(auto, using(crate::proofs::Sent::job_send))]
pub(crate) fn help<T: Tool, H: Host + Send, G: Gate>(
    work: &Work<'_, T, G>,
    ring: &LiveRing<T, H>,
    mine: &mut LiveSeat<T, H>,
)
    requires seat { IsIdle ring.now mine.old }
    requires tool { ring.now.topic.tool ≡ work.now.tool.now }
    requires plan { ring.now.topic.plan ≡ work.now.plan.now }
    ensures { IsIdle ring.now mine.new }
{
    match ring.claim(mine) {
        Some(job) => ring.deposit(mine, answer(work, job)),
        None => thread::yield_now(),
    }
}
