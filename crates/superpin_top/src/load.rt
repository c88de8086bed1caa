// From the run that words ask for to the program that is to run.
ghost use Rattle.std.specs.Prelude.{◌≡◌, ◌<◌, ◌≤◌, IfErr, IfOk, None, length, true};
ghost use Rattle.sp_host.specs.Told.{WhereTold, file_of};
ghost use Rattle.sp_host.specs.Whole.{most_file};
ghost use Rattle.guest_mem.specs.Frames.{free_frames};
ghost use Rattle.sp_words.specs.Asked.{RunWanted, run_of_asked};
ghost use Rattle.sp_words.specs.Sizes.{has_sizes};
ghost use Rattle.superpin_top.specs.Causes.{HasCause, cause_of};
ghost use Rattle.superpin_top.specs.Due.{run_task, strings_of, texts};
ghost use Rattle.superpin_top.specs.Engine.{frames_by};
ghost use Rattle.superpin_top.specs.Top.{IsPastWords, LoadGives, RunLoads};

use crate::engine::{How, frames_of};
use crate::file::{load_image, read_program};
use crate::words::strings_of;
use elf_load::Image;
use rv_machine::{Guest, LoadFault};
use sp_host::Host;
use sp_report::Refusal;
use sp_words::{RunAsked, ToolName};
use std::alloc::Global;

// A program that was accepted, at the start of its run.
#[derive(Drop)]
pub(crate) struct Loaded {
    pub(crate) image: Image,
    pub(crate) guest: Guest,
}

/// A program that was accepted, at the start of its run, and how it is run with which tool.
#[derive(Drop)]
pub struct LoadedRun {
    pub image: Image,
    pub guest: Guest,
    pub how: How,
    pub tool: ToolName,
}

// The program of a file, at the start of its run, with these strings and so many frames.
fn start(alloc: Global, file: &[u8], strings: &[String], frames: u32) -> Result<Loaded, Refusal>
    requires { length file.now ≤ most_file }
    ensures loaded { (r : RunWanted) → strings_of r ≡ texts strings.now
        → LoadGives (run_task file.now r) r result }
    ensures frames { IfOk result (λ loaded. loaded.guest.frames ≡ free_frames frames) }
    ensures cause { IfErr result (λ e. cause_of e ≡ None) }
    ensures past { IfErr result IsPastWords }
{
    let image = match load_image(alloc, file) {
        Ok(image) => image,
        Err(refusal) => return Err(refusal),
    };
    match Guest::load(alloc, &image, strings, frames) {
        Ok(guest) => Ok(Loaded { image, guest }),
        Err(LoadFault::ArgsTooLong { bytes }) => Err(Refusal::ArgsTooLong { bytes }),
        Err(LoadFault::NoMemory) => Err(Refusal::NoMemory),
    }
}

// The program that the first of these strings names, at the start of its run, with these strings and so many frames.
fn ready<H: Host>(
    alloc: Global,
    strings: &[String],
    frames: u32,
    host: &mut H,
) -> Result<Loaded, Refusal>
    requires { 0 < length strings.now }
    ensures told { H.told host.new ≡ H.told host.old }
    ensures loaded { (r : RunWanted) → strings_of r ≡ texts strings.now
        → WhereTold (H.told host.old).files (λ files. LoadGives (run_task (file_of files r.file) r) r result) }
    ensures frames { IfOk result (λ loaded. loaded.guest.frames ≡ free_frames frames) }
    ensures faults { HasCause (H.faults host.old) (H.faults host.new) result }
    ensures past { IfErr result IsPastWords }
{
    let file = match read_program(alloc, host, strings[0].as_str()) {
        Ok(file) => file,
        Err(refusal) => return Err(refusal),
    };
    start(alloc, &file, strings, frames)
}

/// The program that this run is of, at the start of its run.
///
/// # Errors
/// The first refusal of the file or of the strings that the program gets; a file fault; `NoMemory`.
pub fn load_run<H: Host>(alloc: Global, run: RunAsked, host: &mut H) -> Result<LoadedRun, Refusal>
    ensures told { H.told host.new ≡ H.told host.old }
    ensures loaded { WhereTold (H.told host.old).files
        (λ files. RunLoads (run_task (file_of files run.file) (run_of_asked run)) result) }
    ensures by { IfOk result (λ loaded. loaded.how.by ≡ run.by) }
    ensures frames { IfOk result (λ loaded. loaded.guest.frames
        ≡ free_frames (frames_by loaded.how.by loaded.how.limits.frames)) }
    ensures sizes { IfOk result (λ loaded. has_sizes loaded.tool ≡ true) }
    ensures faults { HasCause (H.faults host.old) (H.faults host.new) result }
    ensures past { IfErr result IsPastWords }
{
    let how = How {
        by: run.by,
        limits: run.limits,
        msec: run.msec,
        slices: run.slices,
    };
    let tool = run.tool;
    let Ok(strings) = strings_of(alloc, run.file, run.args) else {
        return Err(Refusal::NoMemory);
    };
    match ready(alloc, &strings, frames_of(&how), host) {
        Ok(loaded) => {
            let Loaded { image, guest } = loaded;
            Ok(LoadedRun {
                image,
                guest,
                how,
                tool,
            })
        }
        Err(refusal) => Err(refusal),
    }
}
