// The whole of a live run.
ghost use Rattle.std.specs.Prelude.{◌≡◌, ◌+◌, ◌<◌, ◌≤◌, ◌^◌, ℕ, [], None, Some, All, IfErr, IfOk, false, length};
ghost use Rattle.sp_host.specs.Faults.{CausedIn};
ghost use Rattle.sp_host.specs.Told.{Told};
ghost use Rattle.guest_model.specs.Call.{World};
ghost use Rattle.guest_mem.specs.Frames.{free_frames};
ghost use Rattle.insert_points.specs.Plan.{called_at};
ghost use Rattle.serial_run.specs.Start.{start_of};
ghost use Rattle.syscall_layer.specs.Serve.{told_after};
ghost use Rattle.syscall_layer.specs.Step.{IsOfGuest, run_source_of};
ghost use Rattle.tool_law.specs.Events.{trace_events};
ghost use Rattle.tool_law.specs.Planning.{called_of};
ghost use Rattle.slice_ring.specs.Seats.{IsFresh, IsIdle, IsOf, IsOpen, IsOver, merged_by, published_by, slots_of};
ghost use Rattle.sliced_run.specs.Sliced.{SlicedGives, shows};
ghost use Rattle.live_run.specs.Lead.{CanLead, HasLed};
ghost use Rattle.live_run.specs.Tags.{tags_from};

use crate::jobs::{LiveJob, LiveLead, LivePiece, LiveRing, LiveRun, LiveSeat};
use crate::lead::{Course, drive};
use crate::work::{Work, answer, help};
use ins_views::Views;
use insert_points::Plan;
use master_run::{Limits, Master};
use ordered_merge::{Finished, Merger};
use ring_workers::{retire_all, run_beside};
use rv_machine::{End, Guest};
use sp_host::{Gate, Host, Pacer};
use std::alloc::{AllocError, Global};
use std::snapshot::Snapshot;
use std::sync::Wait;
use std::thread::Threads;
use syscall_layer::RunFault;
use tool_law::Tool;

// What a run gives whose jobs were all merged.
fn finished<T: Tool>(
    alloc: Global,
    cuts: &[u64],
    merger: Merger<T>,
    end: End,
) -> Result<Finished<T>, AllocError>
    requires { merger.refused ≡ false }
    ensures end { IfOk result (λ finished. finished.end ≡ end) }
    ensures cuts { IfOk result (λ finished. finished.cuts.items ≡ cuts.now) }
    ensures shared { IfOk result (λ finished. finished.shared ≡ merger.shared) }
    ensures lines { IfOk result (λ finished. finished.lines ≡ merger.lines) }
{
    let cuts = Vec::from_slice(alloc, cuts)?;
    let (shared, lines) = merger.finish();
    Ok(Finished {
        shared,
        end,
        cuts,
        lines,
    })
}

// Collects and drops the pieces that are outstanding.
#[tactic(auto, using(crate::proofs::Sent::job_send))]
fn drain<T: Tool, H: Host + Send, P: Pacer, G: Gate, R: Wait>(
    rt: &R,
    course: &Course<'_, T, H, P, G>,
    lead: &mut LiveLead<T, H>,
    mine: &mut LiveSeat<T, H>,
)
    requires seat { IsOf course.now.ring.now lead.old × IsOpen lead.old × IsIdle course.now.ring.now mine.old }
    requires run { course.now.ring.now.topic ≡ course.now.run }
    requires tool { course.now.run.tool ≡ course.now.work.now.tool.now }
    requires plan { course.now.run.plan ≡ course.now.work.now.plan.now }
    ensures seat { IsOf course.now.ring.now lead.new × IsOpen lead.new × IsIdle course.now.ring.now mine.new }
    ensures retired { lead.new.view.retired ≡ lead.old.view.retired }
    ensures all { merged_by lead.new ≡ published_by lead.new }
    ensures tags { lead.new.view.lead.tags ≡ lead.old.view.lead.tags }
{
    for _turn in rt.forever() {
        if lead.outstanding() == 0 {
            break;
        }
        if course.ring.collect(lead).is_none() {
            help(course.work, course.ring, mine);
        }
    }
}

// The lead's part: the run, what is left of the ring's jobs where it failed, and the ring's end.
#[tactic(auto, using(crate::proofs::Sent::job_send))]
fn lead_all<T: Tool, H: Host + Send, P: Pacer, G: Gate, R: Wait>(
    rt: &R,
    course: &Course<'_, T, H, P, G>,
    master: &mut Master,
    merger: &mut Merger<T>,
    lead: &mut LiveLead<T, H>,
    mine: &mut LiveSeat<T, H>,
    host: &mut H,
    pacer: &mut P,
) -> Result<End, RunFault>
    requires can { CanLead (T.is_value course.now.work.now.tool.now) course.now.ring.now course.now.run
        course.now.work.now.tool.now course.now.work.now.plan.now
        (shows (P.period_shown course.now.pacer.value) (P.tally course.now.pacer.value) (P.answers course.now.pacer.value))
        master.old merger.old.shared merger.old.lines.items merger.old.refused lead.old mine.old (H.told host.old)
        (shows (P.period_shown pacer.old) (P.tally pacer.old) (P.answers pacer.old)) }
    ensures { HasLed (T.is_value course.now.work.now.tool.now) course.now.ring.now course.now.run
        (T.is_local course.now.work.now.tool.now) course.now.work.now.plan.now
        (shows (P.period_shown course.now.pacer.value) (P.tally course.now.pacer.value) (P.answers course.now.pacer.value))
        master.old.limits result master.new merger.new.shared merger.new.lines.items merger.new.refused
        lead.old.view.retired lead.new mine.new (H.faults host.old) (H.faults host.new) (H.told host.new)
        (shows (P.period_shown pacer.old) (P.tally pacer.old) (P.answers pacer.old))
        (shows (P.period_shown pacer.new) (P.tally pacer.new) (P.answers pacer.new)) }
{
    let result = drive(rt, course, master, merger, lead, mine, host, pacer);
    drain(rt, course, lead, mine);
    course.ring.close(lead);
    result
}

// The lead's part, with each of these seats in a thread of its own.
#[tactic(auto, using(crate::proofs::Sent::job_send))]
fn lead_beside<'a, T: Tool, H: Host + Send, P: Pacer, G: Gate + Sync, R: Threads + Wait + Sync>(
    rt: &'a R,
    course: &'a Course<'a, T, H, P, G>,
    master: &mut Master,
    merger: &mut Merger<T>,
    lead: &mut LiveLead<T, H>,
    mine: &mut LiveSeat<T, H>,
    host: &mut H,
    pacer: &mut P,
    seats: &mut [LiveSeat<T, H>],
) -> Result<End, RunFault>
    requires can { CanLead (T.is_value course.now.work.now.tool.now) course.now.ring.now course.now.run
        course.now.work.now.tool.now course.now.work.now.plan.now
        (shows (P.period_shown course.now.pacer.value) (P.tally course.now.pacer.value) (P.answers course.now.pacer.value))
        master.old merger.old.shared merger.old.lines.items merger.old.refused lead.old mine.old (H.told host.old)
        (shows (P.period_shown pacer.old) (P.tally pacer.old) (P.answers pacer.old)) }
    requires seats { (0 < length seats.old) × All (IsIdle course.now.ring.now) seats.old }
    ensures led { HasLed (T.is_value course.now.work.now.tool.now) course.now.ring.now course.now.run
        (T.is_local course.now.work.now.tool.now) course.now.work.now.plan.now
        (shows (P.period_shown course.now.pacer.value) (P.tally course.now.pacer.value) (P.answers course.now.pacer.value))
        master.old.limits result master.new merger.new.shared merger.new.lines.items merger.new.refused
        lead.old.view.retired lead.new mine.new (H.faults host.old) (H.faults host.new) (H.told host.new)
        (shows (P.period_shown pacer.old) (P.tally pacer.old) (P.answers pacer.old))
        (shows (P.period_shown pacer.new) (P.tally pacer.new) (P.answers pacer.new)) }
    ensures seats { All (IsIdle course.now.ring.now) seats.new }
{
    let work = course.work;
    run_beside(
        rt,
        course.ring,
        &|job: LiveJob<T, H>| -> LivePiece<T, H>
            requires { (job.topic.tool ≡ work.now.tool.now) × (job.topic.plan ≡ work.now.plan.now) }
            ensures { result ≡ job }
        { answer(work, job) },
        &mut || -> Result<End, RunFault>
            requires { CanLead (T.is_value course.now.work.now.tool.now) course.now.ring.now course.now.run
                course.now.work.now.tool.now course.now.work.now.plan.now
                (shows (P.period_shown course.now.pacer.value) (P.tally course.now.pacer.value) (P.answers course.now.pacer.value))
                master.now merger.now.shared merger.now.lines.items merger.now.refused lead.now mine.now (H.told host.now)
                (shows (P.period_shown pacer.now) (P.tally pacer.now) (P.answers pacer.now)) }
            ensures { HasLed (T.is_value course.entry.now.work.now.tool.now) course.entry.now.ring.now course.entry.now.run
                (T.is_local course.entry.now.work.now.tool.now) course.entry.now.work.now.plan.now
                (shows (P.period_shown course.entry.now.pacer.value) (P.tally course.entry.now.pacer.value) (P.answers course.entry.now.pacer.value))
                master.entry.now.limits result master.exit.now merger.exit.now.shared merger.exit.now.lines.items merger.exit.now.refused
                lead.entry.now.view.retired lead.exit.now mine.exit.now (H.faults host.entry.now) (H.faults host.exit.now) (H.told host.exit.now)
                (shows (P.period_shown pacer.entry.now) (P.tally pacer.entry.now) (P.answers pacer.entry.now))
                (shows (P.period_shown pacer.exit.now) (P.tally pacer.exit.now) (P.answers pacer.exit.now)) }
        { lead_all(rt, course, master, merger, lead, mine, host, pacer) },
        seats,
    )
}

// The run with its workers, where memory is found for its master and its merger; and the end of the ring.
#[tactic(auto, using(crate::proofs::Sent::job_send))]
fn run_crew<'a, T: Tool, H: Host + Send, P: Pacer, G: Gate + Sync, R: Threads + Wait + Sync>(
    rt: &'a R,
    course: &'a Course<'a, T, H, P, G>,
    views: &Views,
    guest: Guest,
    limits: &Limits,
    lead: &mut LiveLead<T, H>,
    mine: &mut LiveSeat<T, H>,
    host: &mut H,
    pacer: &mut P,
    seats: &mut [LiveSeat<T, H>],
) -> Result<Finished<T>, RunFault>
    requires calls { (a : ℕ) → a < 2 ^ 32
        → called_at course.now.work.now.plan.now a ≡ called_of (T.calls_of course.now.work.now.tool.now) views.now a }
    requires frames { guest.frames ≡ free_frames limits.now.frames }
    requires fits { guest.machine.pc < 2 ^ 32 }
    requires seat { IsOf course.now.ring.now lead.old × IsFresh lead.old × IsIdle course.now.ring.now mine.old }
    requires seats { (0 < length seats.old) × All (IsIdle course.now.ring.now) seats.old }
    requires run { (course.now.ring.now.topic ≡ course.now.run) × (course.now.run.machine ≡ guest.machine) }
    requires tool { course.now.run.tool ≡ course.now.work.now.tool.now }
    requires plan { course.now.run.plan ≡ course.now.work.now.plan.now }
    requires launch { (course.now.run.told ≡ H.told host.old) × (pacer.old ≡ course.now.pacer.value) }
    ensures seat { IsOf course.now.ring.now lead.new × IsOver lead.new × IsIdle course.now.ring.now mine.new }
    ensures retired { lead.new.view.retired ≡ lead.old.view.retired }
    ensures seats { All (IsIdle course.now.ring.now) seats.new }
    ensures tags { IfOk result (λ finished.
        lead.new.view.lead.tags ≡ tags_from 0 finished.cuts.items (Some finished.end)) }
    ensures faults { CausedIn run_source_of (H.faults host.old) (H.faults host.new) result }
    ensures port { IfErr result IsOfGuest }
    ensures period { P.period_shown pacer.new ≡ P.period_shown pacer.old }
    ensures told { (t : Told) (w : World) → H.told host.old ≡ told_after t w [] →
        SlicedGives (λ items s. T.is_value course.now.work.now.tool.now
        (trace_events (T.calls_of course.now.work.now.tool.now) views.now items) s) t limits.now
        (record { start = start_of guest.machine w; budget = limits.now.budget })
        (shows (P.period_shown pacer.old) (P.tally pacer.old) (P.answers pacer.old))
        result (H.told host.new)
        (shows (P.period_shown pacer.new) (P.tally pacer.new) (P.answers pacer.new)) }
{
    let alloc = course.work.alloc;
    let Ok(mut merger) = Merger::create(alloc, course.work.tool, views) else {
        course.ring.close(lead);
        return Err(RunFault::NoMemory);
    };
    let Ok(mut master) = Master::launch(alloc, guest, limits) else {
        course.ring.close(lead);
        return Err(RunFault::NoMemory);
    };
    match lead_beside(
        rt,
        course,
        &mut master,
        &mut merger,
        lead,
        mine,
        host,
        pacer,
        seats,
    ) {
        Ok(end) => match finished(alloc, master.cuts(), merger, end) {
            Ok(finished) => Ok(finished),
            Err(_) => Err(RunFault::NoMemory),
        },
        Err(fault) => Err(fault),
    }
}

// The range of a guest's pc.
fn know_pc(guest: &Guest)
    ensures { guest.now.machine.pc < 2 ^ 32 }
{
    let _pc = guest.pc();
}

/// Runs the guest for at most `limits.budget` steps, with the tool whose plan this is, if it returns. A master runs without the
/// tool, and its run is cut into jobs; each is published in the ring, where a worker takes it, runs it again with the tool, as a
/// slice, and puts back its piece. The pieces are merged while the program runs. No more than `limits.limit` slices are
/// outstanding: at the limit the master merges what is done, and where nothing is done it runs a slice with the last of the
/// seats, which is its own. Each other seat works in a thread of its own. After each claim the gate is told of the slice, and
/// then can hold it up.
///
/// When it returns, the ring is closed, all that was published is merged, and each seat was taken back.
///
/// # Errors
/// `Unsupported` where the run comes to a call without a row, `BudgetSpent` where it goes on after `limits.budget` steps;
/// `InputFault` and `OutputFault` exactly where a call of the host of that kind failed; `NoMemory` where memory is lacking, for
/// the master or for a slice.
#[tactic(auto, using(crate::proofs::Sent::job_send))]
pub fn run_live<T: Tool, H: Host + Send, P: Pacer + Send, G: Gate + Sync, R: Threads + Wait + Sync>(
    rt: &R,
    alloc: Global,
    plan: &Plan,
    views: &Views,
    guest: Guest,
    limits: &Limits,
    ring: &LiveRing<T, H>,
    lead: &mut LiveLead<T, H>,
    seats: Vec<LiveSeat<T, H>>,
    tool: &T,
    host: &mut H,
    pacer: &mut P,
    gate: &G,
) -> Result<Finished<T>, RunFault>
    requires plan { (a : ℕ) → a < 2 ^ 32
        → called_at plan.now a ≡ called_of (T.calls_of tool.now) views.now a }
    requires frames { guest.frames ≡ free_frames limits.now.frames }
    requires lead { IsOf ring.now lead.old × IsFresh lead.old }
    requires seats { (2 ≤ length seats.items) × All (IsIdle ring.now) seats.items }
    requires slots { slots_of ring.now ≡ limits.now.limit }
    requires topic { (ring.now.topic.tool ≡ tool.now) × (ring.now.topic.plan ≡ plan.now)
        × (ring.now.topic.machine ≡ guest.machine) × (ring.now.topic.told ≡ H.told host.old) }

    // When it returns, the ring is closed, and all that was published is merged: the jobs of the run, in order. Each seat of a
    // worker was taken back.
    ensures over { IsOf ring.now lead.new × IsOver lead.new }
    ensures retired { lead.new.view.retired ≡ lead.old.view.retired + length seats.items }
    ensures tags { IfOk result (λ finished.
        lead.new.view.lead.tags ≡ tags_from 0 finished.cuts.items (Some finished.end)) }

    // Where the host tells: the value, the end, the bytes sent and what was taken, the cuts and the lines; the cause of each fault.
    ensures told { (t : Told) (w : World) → H.told host.old ≡ told_after t w [] →
        SlicedGives (λ items s. T.is_value tool.now
        (trace_events (T.calls_of tool.now) views.now items) s) t limits.now
        (record { start = start_of guest.machine w; budget = limits.now.budget })
        (shows (P.period_shown pacer.old) (P.tally pacer.old) (P.answers pacer.old))
        result (H.told host.new)
        (shows (P.period_shown pacer.new) (P.tally pacer.new) (P.answers pacer.new)) }

    // Whatever the host is.
    ensures faults { CausedIn run_source_of (H.faults host.old) (H.faults host.new) result }
    ensures port { IfErr result IsOfGuest }
    ensures period { P.period_shown pacer.new ≡ P.period_shown pacer.old }
{
    know_pc(&guest);
    let mut seats = seats;
    let Some(mut mine) = seats.pop() else {
        unreachable!()
    };
    let work = Work {
        alloc,
        plan,
        tool,
        gate,
    };
    let course = Course {
        work: &work,
        ring,
        run: LiveRun::of(tool, plan, &guest, host),
        pacer: Snapshot::of(pacer),
    };
    let result = run_crew(
        rt,
        &course,
        views,
        guest,
        limits,
        lead,
        &mut mine,
        host,
        pacer,
        seats.as_mut_slice(),
    );
    ring.retire(lead, mine);
    retire_all(ring, lead, seats);
    result
}
