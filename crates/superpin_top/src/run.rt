// A program's run with a tool, and its report.
ghost use Rattle.std.specs.Prelude.{◌≡◌, ◌<◌, ◌^◌, List, [], ℕ, IfErr, IfOk, Ok, Some, true};
ghost use Rattle.sp_host.specs.Faults.{CausedIn, Faults};
ghost use Rattle.sp_host.specs.Told.{Told};
ghost use Rattle.elf_load.specs.Image.{ImageFields};
ghost use Rattle.guest_mem.specs.Frames.{free_frames};
ghost use Rattle.guest_model.specs.Call.{World};
ghost use Rattle.ins_views.specs.Views.{views_of};
ghost use Rattle.insert_points.specs.Plan.{called_at};
ghost use Rattle.master_run.specs.Answers.{PacerState};
ghost use Rattle.sp_words.specs.Due.{run_of_program};
ghost use Rattle.sp_words.specs.Sizes.{has_sizes};
ghost use Rattle.sp_words.specs.Tools.{meaning_of, with_calls};
ghost use Rattle.sliced_run.specs.Sliced.{shows};
ghost use Rattle.syscall_layer.specs.Step.{IsOfGuest, run_source_of};
ghost use Rattle.tool_law.specs.Events.{trace_events};
ghost use Rattle.tool_law.specs.Planning.{called_of};
ghost use Rattle.superpin_top.specs.Causes.{HasCause, refusal_of_run};
ghost use Rattle.superpin_top.specs.Due.{Runs};
ghost use Rattle.superpin_top.specs.Engine.{EngineGives, frames_by, program_by};
ghost use Rattle.superpin_top.specs.Outcome.{AttemptGives};
ghost use Rattle.superpin_top.specs.Top.{IsLate, RunTells};

use crate::engine::{Done, How, run_guest};
use crate::report::report;
use cache_tool::DirectCache;
use elf_load::Image;
use ins_views::Views;
use insert_points::Plan;
use ordered_merge::Finished;
use rv_machine::Guest;
use sp_host::{Host, Pacer, Port, write_whole};
use sp_report::{Cuts, Lines, Refusal};
use sp_words::{By, ToolName};
use std::alloc::{AllocError, Global};
use std::thread::Threads;
use syscall_layer::RunFault;
use tool_calls::CallTrace;
use tool_counts::{BlockCount, BlockProfile, InsCount, OpMix};
use tool_law::{Tool, make_plan};

/// The views of a program's code, and the plan of a tool's calls at them.
#[derive(Drop)]
pub struct Planned {
    pub views: Views,
    pub plan: Plan,
}

/// The views of this image's code, and this tool's plan.
pub fn plan_run<T: Tool>(alloc: Global, image: &Image, tool: &T) -> Result<Planned, AllocError>
    ensures views { IfOk result (λ planned. planned.views ≡ views_of image.now) }
    ensures plan { IfOk result (λ planned. (a : ℕ) → a < 2 ^ 32
        → called_at planned.plan a ≡ called_of (T.calls_of tool.now) planned.views a) }
{
    let views = Views::new(alloc, image)?;
    let plan = make_plan(alloc, &views, tool)?;
    Ok(Planned { views, plan })
}

// The refusal of a fault of the run.
fn refusal_of_run(fault: RunFault) -> Refusal
    ensures { result ≡ refusal_of_run fault }
{
    match fault {
        RunFault::Unsupported { number, pc } => Refusal::UnsupportedCall { number, pc },
        RunFault::BudgetSpent { n } => Refusal::BudgetSpent { n },
        RunFault::InputFault => Refusal::InputFault,
        RunFault::OutputFault { port } => Refusal::OutputFault { port },
        RunFault::NoMemory => Refusal::NoMemory,
    }
}

/// What comes of a run that an engine made: where the run ended, its report is written to the port of reports.
///
/// # Errors
/// The refusal of the engine's fault; `ReportFault` where the report could not be written; `NoMemory` where there was none for it.
pub fn finish<T: Tool, H: Host>(
    alloc: Global,
    host: &mut H,
    tool: &T,
    views: &Views,
    how: How,
    run: Result<Finished<T>, RunFault>,
) -> Result<Done, Refusal>
    // Of whatever run of a program with this tool the engine answered.
    ensures told { (t : Told) (w : World) (image : ImageFields) (strings : List (List ℕ)) (first now : PacerState)
        → t.input ≡ Some w.input → t.moments ≡ Some w.moments → views.now ≡ views_of image →
        let p = program_by image strings (with_calls (views_of image) T.GROWS (T.calls_of tool.now)
        (λ xs. T.text_of tool.now (views_of image) (T.value tool.now xs))) how in
        EngineGives (λ items s. T.is_value tool.now (trace_events (T.calls_of tool.now) views.now items) s)
        t (run_of_program p w) first run (H.told host.old) now
        → AttemptGives t (Ok (Runs p)) w first result (H.told host.new) now }
    ensures faults { (before : Faults) → CausedIn run_source_of before (H.faults host.old) run → IfErr run IsOfGuest →
        HasCause before (H.faults host.new) result }
    ensures late { IfErr result IsLate }
    ensures uncut { IfOk run (λ finished. finished.cuts.items ≡ []) → IfOk result (λ done. done.cuts ≡ []) }
{
    let finished = match run {
        Ok(finished) => finished,
        Err(fault) => return Err(refusal_of_run(fault)),
    };
    let Ok(text) = report(alloc, tool, views, &finished, how.slices) else {
        return Err(Refusal::NoMemory);
    };
    match write_whole(host, Port::Report, &text) {
        Ok(()) => Ok(Done {
            status: finished.end.status(),
            cuts: Cuts::new(finished.cuts),
            lines: Lines::new(finished.lines),
        }),
        Err(_) => Err(Refusal::ReportFault),
    }
}

// The run of a program with this tool, and its report.
fn run_with<T: Tool, H: Host + Send, P: Pacer + Send, R: Threads + Sync>(
    rt: &R,
    alloc: Global,
    host: &mut H,
    pacer: &mut P,
    image: &Image,
    guest: Guest,
    how: How,
    tool: &T,
) -> Result<Done, Refusal>
    requires frames { guest.frames ≡ free_frames (frames_by how.by how.limits.frames) }
    ensures told { RunTells image.now guest.machine
        (with_calls (views_of image.now) T.GROWS (T.calls_of tool.now)
        (λ xs. T.text_of tool.now (views_of image.now) (T.value tool.now xs))) how (H.told host.old)
        (shows (P.period_shown pacer.old) (P.tally pacer.old) (P.answers pacer.old)) result (H.told host.new)
        (shows (P.period_shown pacer.new) (P.tally pacer.new) (P.answers pacer.new)) }
    ensures faults { HasCause (H.faults host.old) (H.faults host.new) result }
    ensures late { IfErr result IsLate }
    ensures serial { how.by ≡ By.Serial → pacer.new ≡ pacer.old }
    ensures uncut { how.by ≡ By.Serial → IfOk result (λ done. done.cuts ≡ []) }
{
    let Ok(planned) = plan_run(alloc, image, tool) else {
        return Err(Refusal::NoMemory);
    };
    let Planned { views, plan } = planned;
    let run = run_guest(rt, alloc, &plan, &views, guest, how, tool, host, pacer);
    finish(alloc, host, tool, &views, how, run)
}

// The run of a program, and its report.
pub(crate) fn run_loaded<H: Host + Send, P: Pacer + Send, R: Threads + Sync>(
    rt: &R,
    alloc: Global,
    host: &mut H,
    pacer: &mut P,
    image: &Image,
    guest: Guest,
    how: How,
    tool: ToolName,
) -> Result<Done, Refusal>
    requires frames { guest.frames ≡ free_frames (frames_by how.by how.limits.frames) }
    requires sizes { has_sizes tool ≡ true }
    ensures told { RunTells image.now guest.machine (meaning_of image.now tool) how (H.told host.old)
        (shows (P.period_shown pacer.old) (P.tally pacer.old) (P.answers pacer.old)) result (H.told host.new)
        (shows (P.period_shown pacer.new) (P.tally pacer.new) (P.answers pacer.new)) }
    ensures faults { HasCause (H.faults host.old) (H.faults host.new) result }
    ensures late { IfErr result IsLate }
    ensures serial { how.by ≡ By.Serial → pacer.new ≡ pacer.old }
    ensures uncut { how.by ≡ By.Serial → IfOk result (λ done. done.cuts ≡ []) }
{
    match tool {
        ToolName::Icount => run_with(rt, alloc, host, pacer, image, guest, how, &InsCount),
        ToolName::Bcount => run_with(rt, alloc, host, pacer, image, guest, how, &BlockCount),
        ToolName::Mix => run_with(rt, alloc, host, pacer, image, guest, how, &OpMix),
        ToolName::Blocks => run_with(rt, alloc, host, pacer, image, guest, how, &BlockProfile),
        ToolName::Calls => run_with(rt, alloc, host, pacer, image, guest, how, &CallTrace),
        ToolName::Cache { sets, line } => match DirectCache::new(sets, line) {
            Some(cache) => run_with(rt, alloc, host, pacer, image, guest, how, &cache),
            None => unreachable!(),
        },
    }
}
