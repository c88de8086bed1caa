// A program's live run with a tool, and its report.
ghost use Rattle.std.specs.Prelude.{◌≡◌, ◌≤◌, IfErr, true};
ghost use Rattle.guest_mem.specs.Frames.{free_frames};
ghost use Rattle.ins_views.specs.Views.{views_of};
ghost use Rattle.sp_words.specs.Sizes.{has_sizes};
ghost use Rattle.sp_words.specs.Tools.{meaning_of, with_calls};
ghost use Rattle.sliced_run.specs.Sliced.{shows};
ghost use Rattle.superpin_top.specs.Causes.{HasCause};
ghost use Rattle.superpin_top.specs.Engine.{frames_by};
ghost use Rattle.superpin_top.specs.Top.{IsLate, RunTells};

use crate::engine::run_guest;
use cache_tool::DirectCache;
use elf_load::Image;
use rv_machine::Guest;
use sp_host::{Gate, Host, Pacer};
use sp_report::Refusal;
use sp_words::{By, ToolName};
use std::alloc::Global;
use std::sync::Wait;
use std::thread::Threads;
use superpin_top::{Done, How, Planned, finish, plan_run};
use tool_calls::CallTrace;
use tool_counts::{BlockCount, BlockProfile, InsCount, OpMix};
use tool_law::Tool;

// The run of a program with this tool and so many workers, and its report.
fn run_with<T: Tool, H: Host + Send, P: Pacer + Send, G: Gate + Sync, R: Threads + Wait + Sync>(
    rt: &R,
    alloc: Global,
    host: &mut H,
    pacer: &mut P,
    gate: &G,
    image: &Image,
    guest: Guest,
    how: How,
    workers: u32,
    tool: &T,
) -> Result<Done, Refusal>
    requires frames { guest.frames ≡ free_frames (frames_by how.by how.limits.frames) }
    requires by { how.by ≡ By.Windows }
    requires workers { (1 ≤ workers) × (workers ≤ 16) }
    ensures told { RunTells image.now guest.machine
        (with_calls (views_of image.now) T.GROWS (T.calls_of tool.now)
        (λ xs. T.text_of tool.now (views_of image.now) (T.value tool.now xs))) how (H.told host.old)
        (shows (P.period_shown pacer.old) (P.tally pacer.old) (P.answers pacer.old)) result (H.told host.new)
        (shows (P.period_shown pacer.new) (P.tally pacer.new) (P.answers pacer.new)) }
    ensures faults { HasCause (H.faults host.old) (H.faults host.new) result }
    ensures late { IfErr result IsLate }
{
    let Ok(planned) = plan_run(alloc, image, tool) else {
        return Err(Refusal::NoMemory);
    };
    let Planned { views, plan } = planned;
    let run = run_guest(
        rt, alloc, &plan, &views, guest, how, workers, tool, host, pacer, gate,
    );
    finish(alloc, host, tool, &views, how, run)
}

/// The run of a program with so many workers, 1 to 16, and its report.
pub(crate) fn run_loaded<H: Host + Send, P: Pacer + Send, G: Gate + Sync, R: Threads + Wait + Sync>(
    rt: &R,
    alloc: Global,
    host: &mut H,
    pacer: &mut P,
    gate: &G,
    image: &Image,
    guest: Guest,
    how: How,
    workers: u32,
    tool: ToolName,
) -> Result<Done, Refusal>
    requires frames { guest.frames ≡ free_frames (frames_by how.by how.limits.frames) }
    requires by { how.by ≡ By.Windows }
    requires workers { (1 ≤ workers) × (workers ≤ 16) }
    requires sizes { has_sizes tool ≡ true }
    ensures told { RunTells image.now guest.machine (meaning_of image.now tool) how (H.told host.old)
        (shows (P.period_shown pacer.old) (P.tally pacer.old) (P.answers pacer.old)) result (H.told host.new)
        (shows (P.period_shown pacer.new) (P.tally pacer.new) (P.answers pacer.new)) }
    ensures faults { HasCause (H.faults host.old) (H.faults host.new) result }
    ensures late { IfErr result IsLate }
{
    match tool {
        ToolName::Icount => run_with(
            rt, alloc, host, pacer, gate, image, guest, how, workers, &InsCount,
        ),
        ToolName::Bcount => run_with(
            rt,
            alloc,
            host,
            pacer,
            gate,
            image,
            guest,
            how,
            workers,
            &BlockCount,
        ),
        ToolName::Mix => run_with(
            rt, alloc, host, pacer, gate, image, guest, how, workers, &OpMix,
        ),
        ToolName::Blocks => run_with(
            rt,
            alloc,
            host,
            pacer,
            gate,
            image,
            guest,
            how,
            workers,
            &BlockProfile,
        ),
        ToolName::Calls => run_with(
            rt, alloc, host, pacer, gate, image, guest, how, workers, &CallTrace,
        ),
        ToolName::Cache { sets, line } => match DirectCache::new(sets, line) {
            Some(cache) => run_with(
                rt, alloc, host, pacer, gate, image, guest, how, workers, &cache,
            ),
            None => unreachable!(),
        },
    }
}
