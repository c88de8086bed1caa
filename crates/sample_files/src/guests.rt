// Guests of files.
ghost use Rattle.std.specs.Prelude.{◌≡◌, IfSome};

use elf_load::load;
use rv_machine::Guest;
use std::alloc::Global;

/// The guest of a file with these arguments. It has a frame for each page that can be mapped. None
/// where the file is refused, or memory is lacking.
pub fn guest_of(alloc: Global, file: &[u8], args: &[String]) -> Option<Guest>
    ensures { IfSome result (λ guest. guest.frames.count ≡ 16384) }
{
    let image = load(alloc, file).ok()?;
    match Guest::load(alloc, &image, args, 16_384) {
        Ok(guest) => Some(guest),
        Err(_) => None,
    }
}
