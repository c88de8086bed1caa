// The lead's part: it makes the jobs of the run, publishes them, and merges their pieces.
ghost use Rattle.std.specs.Prelude.{◌≡◌, ◌+◌, ◌++◌, ◌∷◌, [], ◌<◌, ◌≤◌, None, Some, IfErr, IfOk, OnOk, length, take, false};
ghost use Rattle.sp_host.specs.Faults.{CausedIn};
ghost use Rattle.syscall_layer.specs.Step.{IsOfGuest, run_source_of};
ghost use Rattle.slice_ring.specs.Seats.{IsIdle, IsOf, IsOpen, merged_by, published_by, slots_of};
ghost use Rattle.slice_ring.specs.Ticket.{Tag};
ghost use Rattle.sliced_run.specs.Sliced.{shows};
ghost use Rattle.live_run.specs.Lead.{CanLead};
ghost use Rattle.live_run.specs.Live.{IsJobOfRun, WhereStarted};
ghost use Rattle.live_run.specs.Merged.{DriveGives, IsCutSoFar, IsRun, MergesMore, MergesNext, RunGives, last_cut};
ghost use Rattle.live_run.specs.Tags.{tags_from};

use crate::jobs::{CutJob, LiveJob, LiveLead, LivePiece, LiveRing, LiveRun, LiveSeat};
use crate::work::{Work, help};
use boundary_verify::Job;
use master_run::{Master, Turn};
use ordered_merge::Merger;
use rv_machine::End;
use sliced_run::next_turn;
use sp_host::{Gate, Host, Pacer};
use std::alloc::AllocError;
use std::snapshot::Snapshot;
use std::sync::Wait;
use syscall_layer::RunFault;
use tool_law::Tool;

/// A live run: its slices' work, its ring, and, for contracts alone, what it began with.
#[derive(Drop)]
pub(crate) struct Course<'a, T: Tool, H: Host + Send, P: Pacer, G: Gate> {
    pub(crate) work: &'a Work<'a, T, G>,
    pub(crate) ring: &'a LiveRing<T, H>,
    pub(crate) run: LiveRun<T, H>,
    pub(crate) pacer: Snapshot<P>,
}

// The last of these cuts, or 0.
fn last_of(cuts: &[u64]) -> u64
    ensures { result ≡ last_cut 0 cuts.now }
{
    match cuts.last() {
        Some(cut) => *cut,
        None => 0,
    }
}

// A job of the run, between these cuts.
fn live_job<T: Tool, H: Host + Send>(
    run: &LiveRun<T, H>,
    job: Job,
    first: u64,
    second: u64,
) -> LiveJob<T, H>
    requires { IsJobOfRun run.now.told run.now.machine first second job }
    ensures { result ≡ record { number = job.index; tag = (first, second); topic = run.now } }
{
    LiveJob {
        cut: CutJob { job, first, second },
        run: Snapshot::of(run),
    }
}

// Makes the next job of the run and publishes it, and answers how the run ended, where this is its last job.
#[tactic(auto, using(crate::proofs::Sent::job_send))]
fn publish_next<T: Tool, H: Host + Send, P: Pacer, G: Gate>(
    course: &Course<'_, T, H, P, G>,
    master: &mut Master,
    lead: &mut LiveLead<T, H>,
    host: &mut H,
    pacer: &mut P,
) -> Result<Option<End>, RunFault>
    requires seat { IsOf course.now.ring.now lead.old × IsOpen lead.old }
    requires run { course.now.ring.now.topic ≡ course.now.run }
    requires room { published_by lead.old < merged_by lead.old + slots_of course.now.ring.now }
    requires cut { IsCutSoFar master.old.limits None master.old }
    requires tags { lead.old.view.lead.tags ≡ tags_from 0 master.old.cuts None }
    requires told { WhereStarted course.now.run.told course.now.run.machine
        (λ t p. IsRun t p
        (shows (P.period_shown course.now.pacer.value) (P.tally course.now.pacer.value) (P.answers course.now.pacer.value))
        None master.old (H.told host.old)
        (shows (P.period_shown pacer.old) (P.tally pacer.old) (P.answers pacer.old))) }
    ensures seat { IsOf course.now.ring.now lead.new × IsOpen lead.new × (merged_by lead.new ≡ merged_by lead.old) }
    ensures retired { lead.new.view.retired ≡ lead.old.view.retired }
    ensures cut { IfOk result (λ ended. IsCutSoFar master.old.limits ended master.new) }
    ensures tags { IfOk result (λ ended. lead.new.view.lead.tags ≡ tags_from 0 master.new.cuts ended) }
    ensures more { IfOk result (λ _. (tag : Tag) × (lead.new.view.lead.tags ≡ lead.old.view.lead.tags ++ tag ∷ [])) }
    ensures same { IfErr result (λ fault. lead.new ≡ lead.old) }
    ensures faults { CausedIn run_source_of (H.faults host.old) (H.faults host.new) result }
    ensures port { IfErr result IsOfGuest }
    ensures period { P.period_shown pacer.new ≡ P.period_shown pacer.old }
    ensures told { WhereStarted course.now.run.told course.now.run.machine
        (λ t p. RunGives t p
        (shows (P.period_shown course.now.pacer.value) (P.tally course.now.pacer.value) (P.answers course.now.pacer.value))
        master.old.limits.budget result master.new (H.told host.new)
        (shows (P.period_shown pacer.new) (P.tally pacer.new) (P.answers pacer.new))) }
{
    let first = last_of(master.cuts());
    match next_turn(master, host, pacer) {
        Ok(Turn::Job(job)) => {
            let second = last_of(master.cuts());
            course
                .ring
                .publish(lead, live_job(&course.run, job, first, second));
            Ok(None)
        }
        Ok(Turn::Last(job, end)) => {
            course
                .ring
                .publish(lead, live_job(&course.run, job, first, 0));
            Ok(Some(end))
        }
        Err(fault) => Err(fault),
    }
}

// Merges a piece behind those that were merged.
fn take_piece<T: Tool, H: Host + Send>(
    tool: &T,
    merger: &mut Merger<T>,
    piece: LivePiece<T, H>,
) -> Result<(), AllocError>
    requires next { piece.number ≡ length merger.old.lines.items }
    requires tool { piece.topic.tool ≡ tool.now }
    requires sound { merger.old.refused ≡ false }
    ensures sound { OnOk result (merger.new.refused ≡ false) }
    ensures count { OnOk result (length merger.new.lines.items ≡ length merger.old.lines.items + 1) }
    ensures merges { OnOk result (WhereStarted piece.topic.told
        piece.topic.machine
        (λ _ p. MergesNext (T.is_local tool.now) (T.is_value tool.now) piece.topic.plan p
        piece.tag merger.old.shared merger.old.lines.items merger.new.shared merger.new.lines.items)) }
{
    let piece = piece.piece?;
    merger.put(tool, piece)
}

// Merges the next piece if it is done, and else runs a job with the lead's own seat, if one is ready.
#[tactic(auto, using(crate::proofs::Sent::job_send))]
fn merge_next<T: Tool, H: Host + Send, P: Pacer, G: Gate>(
    course: &Course<'_, T, H, P, G>,
    lead: &mut LiveLead<T, H>,
    mine: &mut LiveSeat<T, H>,
    merger: &mut Merger<T>,
) -> Result<(), AllocError>
    requires seat { IsOf course.now.ring.now lead.old × IsOpen lead.old × IsIdle course.now.ring.now mine.old }
    requires out { merged_by lead.old < published_by lead.old }
    requires run { course.now.ring.now.topic ≡ course.now.run }
    requires tool { course.now.run.tool ≡ course.now.work.now.tool.now }
    requires plan { course.now.run.plan ≡ course.now.work.now.plan.now }
    requires count { length merger.old.lines.items ≡ merged_by lead.old }
    requires sound { merger.old.refused ≡ false }
    ensures seat { IsOf course.now.ring.now lead.new × IsOpen lead.new × IsIdle course.now.ring.now mine.new }
    ensures retired { lead.new.view.retired ≡ lead.old.view.retired }
    ensures tags { lead.new.view.lead.tags ≡ lead.old.view.lead.tags }
    ensures within { merged_by lead.new ≤ published_by lead.new }
    ensures count { OnOk result (length merger.new.lines.items ≡ merged_by lead.new) }
    ensures sound { OnOk result (merger.new.refused ≡ false) }
    ensures merges { OnOk result (WhereStarted course.now.run.told course.now.run.machine
        (λ _ p. MergesMore (T.is_local course.now.work.now.tool.now) (T.is_value course.now.work.now.tool.now)
        course.now.work.now.plan.now p lead.old.view.lead.tags
        (merged_by lead.old) merger.old.shared merger.old.lines.items
        (merged_by lead.new) merger.new.shared merger.new.lines.items)) }
{
    match course.ring.collect(lead) {
        Some(piece) => take_piece(course.work.tool, merger, piece),
        None => {
            help(course.work, course.ring, mine);
            Ok(())
        }
    }
}

// Runs the program to its end: publishes its jobs while fewer are outstanding than the ring has slots, and merges their pieces.
#[tactic(auto, using(crate::proofs::Sent::job_send))]
pub(crate) fn drive<T: Tool, H: Host + Send, P: Pacer, G: Gate, R: Wait>(
    rt: &R,
    course: &Course<'_, T, H, P, G>,
    master: &mut Master,
    merger: &mut Merger<T>,
    lead: &mut LiveLead<T, H>,
    mine: &mut LiveSeat<T, H>,
    host: &mut H,
    pacer: &mut P,
) -> Result<End, RunFault>
    requires can { CanLead (T.is_value course.now.work.now.tool.now) course.now.ring.now course.now.run
        course.now.work.now.tool.now course.now.work.now.plan.now
        (shows (P.period_shown course.now.pacer.value) (P.tally course.now.pacer.value) (P.answers course.now.pacer.value))
        master.old merger.old.shared merger.old.lines.items merger.old.refused lead.old mine.old (H.told host.old)
        (shows (P.period_shown pacer.old) (P.tally pacer.old) (P.answers pacer.old)) }
    ensures seat { IsOf course.now.ring.now lead.new × IsOpen lead.new × IsIdle course.now.ring.now mine.new }
    ensures retired { lead.new.view.retired ≡ lead.old.view.retired }
    ensures cut { IfOk result (λ end. IsCutSoFar master.old.limits (Some end) master.new) }
    ensures tags { IfOk result (λ end. lead.new.view.lead.tags ≡ tags_from 0 master.new.cuts (Some end)) }
    ensures all { IfOk result (λ _. merged_by lead.new ≡ published_by lead.new) }
    ensures sound { IfOk result (λ _. merger.new.refused ≡ false) }
    ensures faults { CausedIn run_source_of (H.faults host.old) (H.faults host.new) result }
    ensures port { IfErr result IsOfGuest }
    ensures period { P.period_shown pacer.new ≡ P.period_shown pacer.old }
    ensures told { WhereStarted course.now.run.told course.now.run.machine
        (λ t p. DriveGives (T.is_local course.now.work.now.tool.now) (T.is_value course.now.work.now.tool.now)
        course.now.work.now.plan.now t p
        (shows (P.period_shown course.now.pacer.value) (P.tally course.now.pacer.value) (P.answers course.now.pacer.value))
        master.old.limits.budget result master.new (take (merged_by lead.new) lead.new.view.lead.tags) merger.new.shared merger.new.lines.items
        (H.told host.new)
        (shows (P.period_shown pacer.new) (P.tally pacer.new) (P.answers pacer.new))) }
{
    let slots = course.ring.slots() as u64;
    let mut ended = None;
    for _turn in rt.forever() {
        if ended.is_none() && lead.outstanding() < slots {
            ended = match publish_next(course, master, lead, host, pacer) {
                Ok(ended) => ended,
                Err(fault) => return Err(fault),
            };
        } else if lead.outstanding() == 0 {
            break;
        } else {
            let Ok(()) = merge_next(course, lead, mine, merger) else {
                return Err(RunFault::NoMemory);
            };
        }
    }
    match ended {
        Some(end) => Ok(end),
        None => unreachable!(),
    }
}
