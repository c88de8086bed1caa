// A guest at position 0.
ghost use Rattle.std.specs.Prelude.{◌≡◌, ◌-◌, ◌^◌, ◌≤◌, All, IfOk, map, min, string_bytes};
ghost use Rattle.elf_load.specs.Image.{IsSegment};
ghost use Rattle.guest_mem.specs.Memory.{free_frames};
ghost use Rattle.rv_machine.specs.Guest.{LoadGives};
ghost use Rattle.rv_machine.specs.Load.{area_of, first_break, segments_space};
ghost use Rattle.rv_machine.specs.Load.{strings_size};
ghost use Rattle.rv_machine.specs.declared.load.LoadFault.TheVariants.{NoMemory};

use crate::descriptors::Descriptors;
use crate::guest::Guest;
use crate::stack::{RANDOM, STACK, first_stack, stack_pointer};
use elf_load::{Image, Segment};
use guest_mem::Space;
use guest_model::Area;
use guest_model::platform::{MOST_STRINGS, PAGE_SIZE};
use std::alloc::{AllocError, Global};
use thiserror::Error;

/// Why a guest was not made.
#[derive(Clone, Copy, Debug, PartialEq, Eq, Error)]
pub enum LoadFault {
    #[error("the arguments have {bytes} bytes")]
    ArgsTooLong { bytes: u64 },
    #[error("no memory")]
    NoMemory,
}

impl From<AllocError> for LoadFault {
    ghost from_gives = { λ _ e. e ≡ NoMemory };

    fn from(_e: AllocError) -> LoadFault {
        LoadFault::NoMemory
    }
}

impl Guest {
    /// The guest that runs an image from its first instruction on. Its stack has the argument
    /// strings, the first of which is by custom the program's name, and the auxiliary vector.
    /// `frames` pages can be written until there is no frame more; no page counts as written yet.
    ///
    /// # Errors
    /// `ArgsTooLong` where the strings with a zero byte each have more than 65,536 bytes;
    /// `NoMemory` where there is no memory for the guest.
    pub fn load(
        alloc: Global,
        image: &Image,
        args: &[String],
        frames: u32,
    ) -> Result<Guest, LoadFault>
        ensures { LoadGives image.now (map string_bytes args.now) frames result }
    {
        let bytes = strings_size(args);
        if bytes > MOST_STRINGS as u64 {
            return Err(LoadFault::ArgsTooLong { bytes });
        }
        let strings = RANDOM - bytes as u32;
        let pointer = stack_pointer(args.len(), strings);
        let stack = first_stack(alloc, image, args, strings, pointer)?;
        let mut registers = [0; 32];
        registers[2] = pointer;
        let mut guest = Guest {
            pc: image.entry,
            registers,
            memory: segments_space(alloc, image, frames)?,
            fresh: true,
            reservation: None,
            descriptors: Descriptors::closed(),
        };
        guest.memory.add_area(STACK, pointer, &stack)?;
        Ok(guest)
    }
}

// How many bytes the strings have with a zero byte each. The number stands still at 2^64 - 1.
fn strings_size(args: &[String]) -> u64
    ensures { result ≡ min (strings_size (map string_bytes args.now)) (2 ^ 64 - 1) }
{
    let mut bytes = 0u64;
    for arg in args {
        bytes = bytes.saturating_add(arg.len() as u64).saturating_add(1);
    }
    bytes
}

// The whole pages that a segment is in, with its permissions.
fn area_of(segment: &Segment) -> Area
    requires { IsSegment segment.now }
    ensures { result ≡ area_of segment.now }
{
    Area {
        start: segment.start / PAGE_SIZE * PAGE_SIZE,
        end: (segment.start + segment.size + PAGE_SIZE - 1) / PAGE_SIZE * PAGE_SIZE,
        read: segment.flags & 4 != 0,
        write: segment.flags & 2 != 0,
        execute: segment.flags & 1 != 0,
    }
}

// Where the heap begins.
fn first_break(segments: &[Segment]) -> u32
    requires { All IsSegment segments.now }
    ensures { result ≡ first_break segments.now }
{
    let mut heap = 0;
    for segment in segments {
        heap = heap.max(area_of(segment).end);
    }
    heap
}

// The segments and an empty heap behind them.
fn segments_space(alloc: Global, image: &Image, frames: u32) -> Result<Space, AllocError>
    ensures space { IfOk result (λ m. m.space ≡ segments_space image.now.segments) }
    ensures frames { IfOk result (λ m. m.frames ≡ free_frames frames) }
{
    let mut memory = Space::empty(alloc, first_break(&image.segments), frames)?;
    for segment in &image.segments {
        memory.add_area(area_of(segment), segment.start, &segment.bytes)?;
    }
    Ok(memory)
}
