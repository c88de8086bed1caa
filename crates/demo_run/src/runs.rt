// The runs of the program with a tool, and what each gives.
ghost use Rattle.std.specs.Prelude.{◌≡◌, ◌<◌, ◌^◌, ℕ, List, IfOk};
ghost use Rattle.demo_run.specs.Demo.{tool_text};
ghost use Rattle.demo_run.specs.Parts.{AreUsual, CutGives, HasNoSource, SeenGives, refusal_by};
ghost use Rattle.ins_views.specs.Views.{views_of};
ghost use Rattle.insert_points.specs.Plan.{called_at};
ghost use Rattle.insert_points.specs.declared.call.Event.{Event};
ghost use Rattle.tool_law.specs.Planning.{called_of};

use crate::program::{guest_of, outside};
use elf_load::Image;
use guest_model::platform::MOST_PAGES;
use ins_views::Views;
use insert_points::Plan;
use master_run::Limits;
use ordered_merge::SliceLine;
use rv_machine::End;
use serial_run::run_serial;
use sp_host::EveryPacer;
use sp_report::Refusal;
use std::alloc::{AllocError, Global};
use std::thread::Threads;
use syscall_layer::RunFault;
use tool_law::{Tool, make_plan};
use window_run::run_windows;

/// Each so many asks the pacer grants one.
const GRANTED: u64 = 64;

/// A run that ended, as it is seen with a tool: the tool's text of it, and how it ended.
#[derive(Drop)]
pub(crate) struct Seen {
    pub(crate) text: Vec<u8>,
    pub(crate) end: End,
}

/// The same of a run by windows: also the positions at which it was cut, ascending, and the line of each of its slices.
#[derive(Drop)]
pub(crate) struct Cut {
    pub(crate) seen: Seen,
    pub(crate) cuts: Vec<u64>,
    pub(crate) lines: Vec<SliceLine>,
}

// What bounds a run where nothing else is asked for.
fn usual() -> Limits
    ensures { AreUsual result }
{
    Limits {
        budget: 1_000_000_000,
        limit: 8,
        poll: 64,
        records: 1_024,
        frames: 4_096,
    }
}

// The refusal of a fault of a run over a host that never fails.
fn refusal_of(fault: RunFault) -> Refusal
    requires { HasNoSource fault }
    ensures { result ≡ refusal_by fault }
{
    match fault {
        RunFault::Unsupported { number, pc } => Refusal::UnsupportedCall { number, pc },
        RunFault::BudgetSpent { n } => Refusal::BudgetSpent { n },
        RunFault::NoMemory => Refusal::NoMemory,
        RunFault::InputFault | RunFault::OutputFault { .. } => unreachable!(),
    }
}

// The tool's text of a state.
fn text_of<T: Tool>(
    alloc: Global,
    tool: &T,
    views: &Views,
    shared: &T::Shared,
) -> Result<Vec<u8>, AllocError>
    ensures { IfOk result (λ text. (xs : List Event) → T.is_value tool.now xs shared.now →
        text.items ≡ T.text_of tool.now views.now (T.value tool.now xs)) }
{
    let mut text = Vec::new(alloc);
    tool.text(views, shared, &mut text)?;
    Ok(text)
}

// The program's serial run with a tool.
fn serially<T: Tool>(
    alloc: Global,
    image: &Image,
    views: &Views,
    plan: &Plan,
    tool: &T,
) -> Result<Seen, Refusal>
    requires views { views.now ≡ views_of image.now }
    requires plan { (a : ℕ) → a < 2 ^ 32
        → called_at plan.now a ≡ called_of (T.calls_of tool.now) views.now a }
    ensures { SeenGives image.now (tool_text image.now (T.calls_of tool.now)
        (λ xs. T.text_of tool.now (views_of image.now) (T.value tool.now xs))) result }
{
    let Ok(guest) = guest_of(alloc, image, MOST_PAGES) else {
        return Err(Refusal::NoMemory);
    };
    let mut host = outside(alloc);
    match run_serial(alloc, plan, views, guest, usual().budget, tool, &mut host) {
        Ok(finished) => match text_of(alloc, tool, views, &finished.shared) {
            Ok(text) => Ok(Seen {
                text,
                end: finished.end,
            }),
            Err(_) => Err(Refusal::NoMemory),
        },
        Err(fault) => Err(refusal_of(fault)),
    }
}

// The program's run by windows with a tool, over a pacer of its own.
fn by_windows<T: Tool, R: Threads + Sync>(
    rt: &R,
    alloc: Global,
    image: &Image,
    views: &Views,
    plan: &Plan,
    tool: &T,
) -> Result<Cut, Refusal>
    requires views { views.now ≡ views_of image.now }
    requires plan { (a : ℕ) → a < 2 ^ 32
        → called_at plan.now a ≡ called_of (T.calls_of tool.now) views.now a }
    ensures { CutGives image.now (tool_text image.now (T.calls_of tool.now)
        (λ xs. T.text_of tool.now (views_of image.now) (T.value tool.now xs))) result }
{
    let limits = usual();
    let Ok(guest) = guest_of(alloc, image, limits.frames) else {
        return Err(Refusal::NoMemory);
    };
    let mut host = outside(alloc);
    let mut pacer = EveryPacer::new(GRANTED);
    match run_windows(
        rt, alloc, plan, views, guest, &limits, tool, &mut host, &mut pacer,
    ) {
        Ok(finished) => match text_of(alloc, tool, views, &finished.shared) {
            Ok(text) => Ok(Cut {
                seen: Seen {
                    text,
                    end: finished.end,
                },
                cuts: finished.cuts,
                lines: finished.lines,
            }),
            Err(_) => Err(Refusal::NoMemory),
        },
        Err(fault) => Err(refusal_of(fault)),
    }
}

/// The program's run by windows with a tool, after its serial run with the same tool, which gives the same text and end.
pub(crate) fn both<T: Tool, R: Threads + Sync>(
    rt: &R,
    alloc: Global,
    image: &Image,
    tool: &T,
) -> Result<Cut, Refusal>
    ensures { CutGives image.now (tool_text image.now (T.calls_of tool.now)
        (λ xs. T.text_of tool.now (views_of image.now) (T.value tool.now xs))) result }
{
    let Ok(views) = Views::new(alloc, image) else {
        return Err(Refusal::NoMemory);
    };
    let Ok(plan) = make_plan(alloc, &views, tool) else {
        return Err(Refusal::NoMemory);
    };
    let seen = match serially(alloc, image, &views, &plan, tool) {
        Ok(seen) => seen,
        Err(refusal) => return Err(refusal),
    };
    let cut = match by_windows(rt, alloc, image, &views, &plan, tool) {
        Ok(cut) => cut,
        Err(refusal) => return Err(refusal),
    };
    if seen.text != cut.seen.text || seen.end != cut.seen.end {
        unreachable!();
    }
    Ok(cut)
}
