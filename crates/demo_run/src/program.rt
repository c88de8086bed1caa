// The program of the demonstration, at the start of its run.
ghost use Rattle.std.specs.Prelude.{◌≡◌, IfOk, [], None, Some, map, string_bytes};
ghost use Rattle.demo_run.specs.Demo.{demo_strings};
ghost use Rattle.demo_run.specs.Parts.{ImageGives};
ghost use Rattle.guest_mem.specs.Frames.{free_frames};
ghost use Rattle.rv_machine.specs.Load.{machine_of};
ghost use Rattle.sp_host.specs.Steady.{no_files, steady_told};

use elf_load::{ElfFault, Image, load};
use rv_machine::{Guest, LoadFault};
use sp_host::SteadyHost;
use sp_report::Refusal;
use std::alloc::{AllocError, Global};

/// The image of a file.
pub(crate) fn image_of(alloc: Global, file: &[u8]) -> Result<Image, Refusal>
    ensures { ImageGives file.now result }
{
    match load(alloc, file) {
        Ok(image) => Ok(image),
        Err(ElfFault::NoMemory) => Err(Refusal::NoMemory),
        Err(fault) => Err(Refusal::Elf(fault)),
    }
}

// The strings that the program gets: one, `demo`.
fn strings(alloc: Global) -> Result<Vec<String>, AllocError>
    ensures { IfOk result (λ strings. map string_bytes strings.items ≡ demo_strings) }
{
    let mut strings = Vec::new(alloc);
    strings.push(String::from_str(alloc, "demo")?)?;
    Ok(strings)
}

/// The guest that runs an image, with `frames` frames for the pages that it writes.
pub(crate) fn guest_of(alloc: Global, image: &Image, frames: u32) -> Result<Guest, AllocError>
    ensures machine { IfOk result (λ guest. guest.machine ≡ machine_of image.now demo_strings) }
    ensures frames { IfOk result (λ guest. guest.frames ≡ free_frames frames) }
{
    let strings = strings(alloc)?;
    match Guest::load(alloc, image, &strings, frames) {
        Ok(guest) => Ok(guest),
        Err(LoadFault::NoMemory) => Err(AllocError),
        // five bytes are not too many
        Err(LoadFault::ArgsTooLong { .. }) => unreachable!(),
    }
}

/// The outside of a run: no input, no moment, and no call fails.
pub(crate) fn outside(alloc: Global) -> SteadyHost
    ensures { steady_told result ≡ record {
      files = Some no_files;
      input = Some [];
      moments = Some [];
      out = None;
      err = None;
      report = None;
    } }
{
    SteadyHost::new(Vec::new(alloc), Vec::new(alloc))
}
